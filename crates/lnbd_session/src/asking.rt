//! Issuing commands. Each command's callback keeps the cookie that the handle tells. A buffer that comes back is let go.

ghost use Rattle.std.specs.Prelude.{◌≡◌, ◌≢◌, ◌≤◌, ◌<◌, [], Ok};
ghost use Rattle.lnbd_records.specs.Limits.{max_data};
ghost use Rattle.lnbd_history.specs.Events.{ClearLog};
ghost use Rattle.lnbd_machine.specs.Machine.{step};
ghost use Rattle.lnbd_session.specs.Issues.{IsRefused, IsShort, Issuing, block_status, cache, code_of_issue, flush, handed_back, keeper, read, read_into, structured_read, trim, write, zero};

use crate::code::Code;
use crate::keeping::Keeping;
use crate::session::Session;
use lnbd_handle::IssueFault;
use lnbd_model::Bytes;
use lnbd_records::names::MAX_DATA;
use std::alloc::Global;
use std::mem;

/// The most bytes of one read: a larger buffer is never made.
const MAX_READ: usize = MAX_DATA as usize;

impl Session {
    /// The callback of the command that is issued next.
    fn keeping(&self) -> Keeping
        ensures { result ≡ keeper self.now }
    {
        Keeping { cookie: self.next }
    }

    /// What issuing came to. The notes of a refusal are dropped, so that refusals take no memory.
    fn issued(&mut self, issued: Result<u64, IssueFault<Keeping>>, cookie: &mut u64) -> Code
        ensures code { result ≡ code_of_issue issued }
        ensures ok { result ≡ Code.Ok → issued ≡ Ok cookie.new }
        ensures short { result ≡ Code.NoMemory → IsShort issued }
        ensures refused { result ≢ Code.Ok → result ≢ Code.NoMemory → IsRefused issued }
        ensures kept { result ≡ Code.Ok → self.new.handle ≡ self.old.handle }
        ensures kept_short { result ≡ Code.NoMemory → self.new.handle ≡ self.old.handle }
        ensures cleared { result ≢ Code.Ok → result ≢ Code.NoMemory → self.new.handle.machine ≡ step self.old.handle.machine ClearLog }
        ensures told { self.new.told ≡ self.old.told }
        ensures stays { self.new.taken ≡ self.old.taken }
    {
        match issued {
            Ok(number) => {
                *cookie = number;
                self.next = number.wrapping_add(1);
                Code::Ok
            }
            Err(IssueFault::NoMemory { .. }) => Code::NoMemory,
            Err(IssueFault::Refused { why, .. }) => {
                self.handle.clear_log();
                Code::of_why(why)
            }
        }
    }

    /// The same, where the buffer of a command that was not issued comes back.
    fn issued_or_back(
        &mut self,
        issued: Result<u64, IssueFault<Keeping>>,
        cookie: &mut u64,
        buffer: &mut Bytes,
    ) -> Code
        ensures code { result ≡ code_of_issue issued }
        ensures ok { result ≡ Code.Ok → issued ≡ Ok cookie.new }
        ensures short { result ≡ Code.NoMemory → IsShort issued }
        ensures refused { result ≢ Code.Ok → result ≢ Code.NoMemory → IsRefused issued }
        ensures kept { result ≡ Code.Ok → self.new.handle ≡ self.old.handle }
        ensures kept_short { result ≡ Code.NoMemory → self.new.handle ≡ self.old.handle }
        ensures cleared { result ≢ Code.Ok → result ≢ Code.NoMemory → self.new.handle.machine ≡ step self.old.handle.machine ClearLog }
        ensures buffer { buffer.new ≡ handed_back issued buffer.old }
        ensures told { self.new.told ≡ self.old.told }
        ensures stays { self.new.taken ≡ self.old.taken }
    {
        match issued {
            Ok(number) => {
                *cookie = number;
                self.next = number.wrapping_add(1);
                Code::Ok
            }
            Err(IssueFault::NoMemory { buf, .. }) => {
                *buffer = buf;
                Code::NoMemory
            }
            Err(IssueFault::Refused { why, buf }) => {
                *buffer = buf;
                self.handle.clear_log();
                Code::of_why(why)
            }
        }
    }

    /// Asks for so many bytes from this offset on (libnbd, nbd_aio_pread).
    pub fn aio_pread(
        &mut self,
        alloc: Global,
        count: usize,
        offset: u64,
        flags: u32,
        cookie: &mut u64,
    ) -> Code
        ensures too_big { max_data < count → (result ≡ Code.BadRequest) × (self.new.handle.machine ≡ self.old.handle.machine) }
        ensures issues { count ≤ max_data → Issuing (read count offset flags self.old) result cookie.new self.old.handle.machine self.new.handle.machine }
        ensures stays { self.new.taken ≡ self.old.taken }
    {
        if count > MAX_READ {
            return Code::BadRequest;
        }
        let Ok(buf) = Vec::from_elem(alloc, 0u8, count) else {
            return Code::NoMemory;
        };
        let mut buffer = Bytes::from_vec(buf);
        self.aio_pread_into(alloc, &mut buffer, offset, flags, cookie)
    }

    /// The same, where each piece of them is kept as it is told (libnbd, nbd_aio_pread_structured).
    pub fn aio_pread_structured(
        &mut self,
        alloc: Global,
        count: usize,
        offset: u64,
        flags: u32,
        cookie: &mut u64,
    ) -> Code
        ensures too_big { max_data < count → (result ≡ Code.BadRequest) × (self.new.handle.machine ≡ self.old.handle.machine) }
        ensures issues { count ≤ max_data → Issuing (structured_read count offset flags self.old) result cookie.new self.old.handle.machine self.new.handle.machine }
        ensures stays { self.new.taken ≡ self.old.taken }
    {
        if count > MAX_READ {
            return Code::BadRequest;
        }
        let Ok(buf) = Vec::from_elem(alloc, 0u8, count) else {
            return Code::NoMemory;
        };
        let keeping = self.keeping();
        let told = &mut self.told;
        let issued = self
            .handle
            .aio_pread_structured(buf, offset, keeping, keeping, flags, told);
        self.issued(issued, cookie)
    }

    /// Writes these bytes, which are copied, from this offset on (libnbd, nbd_aio_pwrite).
    pub fn aio_pwrite(
        &mut self,
        alloc: Global,
        bytes: &[u8],
        offset: u64,
        flags: u32,
        cookie: &mut u64,
    ) -> Code
        ensures issues { Issuing (write bytes.now offset flags self.old) result cookie.new self.old.handle.machine self.new.handle.machine }
        ensures stays { self.new.taken ≡ self.old.taken }
    {
        let Ok(buf) = Vec::from_slice(alloc, bytes) else {
            return Code::NoMemory;
        };
        let mut buffer = Bytes::from_vec(buf);
        self.aio_pwrite_from(alloc, &mut buffer, offset, flags, cookie)
    }

    /// Asks that all that was written is kept (libnbd, nbd_aio_flush).
    pub fn aio_flush(&mut self, flags: u32, cookie: &mut u64) -> Code
        ensures issues { Issuing (flush flags self.old) result cookie.new self.old.handle.machine self.new.handle.machine }
        ensures stays { self.new.taken ≡ self.old.taken }
    {
        let keeping = self.keeping();
        let told = &mut self.told;
        let issued = self.handle.aio_flush(keeping, flags, told);
        self.issued(issued, cookie)
    }

    /// Tells that a range is not needed any more (libnbd, nbd_aio_trim).
    pub fn aio_trim(&mut self, count: u64, offset: u64, flags: u32, cookie: &mut u64) -> Code
        ensures issues { Issuing (trim count offset flags self.old) result cookie.new self.old.handle.machine self.new.handle.machine }
        ensures stays { self.new.taken ≡ self.old.taken }
    {
        let keeping = self.keeping();
        let told = &mut self.told;
        let issued = self.handle.aio_trim(count, offset, keeping, flags, told);
        self.issued(issued, cookie)
    }

    /// Writes zeroes over a range (libnbd, nbd_aio_zero).
    pub fn aio_zero(&mut self, count: u64, offset: u64, flags: u32, cookie: &mut u64) -> Code
        ensures issues { Issuing (zero count offset flags self.old) result cookie.new self.old.handle.machine self.new.handle.machine }
        ensures stays { self.new.taken ≡ self.old.taken }
    {
        let keeping = self.keeping();
        let told = &mut self.told;
        let issued = self.handle.aio_zero(count, offset, keeping, flags, told);
        self.issued(issued, cookie)
    }

    /// Asks that a range is read ahead (libnbd, nbd_aio_cache).
    pub fn aio_cache(&mut self, count: u64, offset: u64, flags: u32, cookie: &mut u64) -> Code
        ensures issues { Issuing (cache count offset flags self.old) result cookie.new self.old.handle.machine self.new.handle.machine }
        ensures stays { self.new.taken ≡ self.old.taken }
    {
        let keeping = self.keeping();
        let told = &mut self.told;
        let issued = self.handle.aio_cache(count, offset, keeping, flags, told);
        self.issued(issued, cookie)
    }

    /// Asks what a range consists of (libnbd, nbd_aio_block_status_64).
    pub fn aio_block_status(
        &mut self,
        count: u64,
        offset: u64,
        flags: u32,
        cookie: &mut u64,
    ) -> Code
        ensures issues { Issuing (block_status count offset flags self.old) result cookie.new self.old.handle.machine self.new.handle.machine }
        ensures stays { self.new.taken ≡ self.old.taken }
    {
        let keeping = self.keeping();
        let told = &mut self.told;
        let issued = self
            .handle
            .aio_block_status(count, offset, keeping, keeping, flags, told);
        self.issued(issued, cookie)
    }

    /// Reads into this buffer, which the command takes: it is then empty. Where it is not issued the buffer stays.
    pub fn aio_pread_into(
        &mut self,
        alloc: Global,
        buffer: &mut Bytes,
        offset: u64,
        flags: u32,
        cookie: &mut u64,
    ) -> Code
        ensures issues { Issuing (read_into buffer.old offset flags self.old) result cookie.new self.old.handle.machine self.new.handle.machine }
        ensures taken { result ≡ Code.Ok → buffer.new ≡ [] }
        ensures kept { result ≢ Code.Ok → buffer.new ≡ buffer.old }
        ensures stays { self.new.taken ≡ self.old.taken }
    {
        let bytes = mem::replace(buffer, Bytes::from_vec(Vec::new(alloc)));
        let keeping = self.keeping();
        let told = &mut self.told;
        let issued = self
            .handle
            .aio_pread(bytes.into_vec(), offset, keeping, flags, told);
        self.issued_or_back(issued, cookie, buffer)
    }

    /// Writes from this buffer, which the command takes: it is then empty. Where it is not issued the buffer stays.
    pub fn aio_pwrite_from(
        &mut self,
        alloc: Global,
        buffer: &mut Bytes,
        offset: u64,
        flags: u32,
        cookie: &mut u64,
    ) -> Code
        ensures issues { Issuing (write buffer.old offset flags self.old) result cookie.new self.old.handle.machine self.new.handle.machine }
        ensures taken { result ≡ Code.Ok → buffer.new ≡ [] }
        ensures kept { result ≢ Code.Ok → buffer.new ≡ buffer.old }
        ensures stays { self.new.taken ≡ self.old.taken }
    {
        let bytes = mem::replace(buffer, Bytes::from_vec(Vec::new(alloc)));
        let keeping = self.keeping();
        let told = &mut self.told;
        let issued = self
            .handle
            .aio_pwrite(bytes.into_vec(), offset, keeping, flags, told);
        self.issued_or_back(issued, cookie, buffer)
    }
}
