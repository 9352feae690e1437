//! The calls that issue a command. Each tells the command's cookie: 1, 2, 3 and so on. What issuing and refusing do is not
//! said here.

ghost use Rattle.std.specs.Prelude.{◌≡◌, ◌≤◌, true, None, Some, IfErr, IfOk, List, OnOk, ℕ, vec_len, length};
ghost use Rattle.lnbd_model.specs.Kind.{is_read};
ghost use Rattle.lnbd_model.specs.declared.kind.Kind.TheVariants.{Read};
ghost use Rattle.lnbd_history.specs.Events.{Issue};
ghost use Rattle.lnbd_history.specs.Laws.{HasItsBytes};
ghost use Rattle.lnbd_machine.specs.Machine.{step};
ghost use Rattle.lnbd_machine.specs.Now.{refusal_now};
ghost use Rattle.lnbd_commands.specs.Asks.{command_of};
ghost use Rattle.lnbd_handle.specs.Held.{held_in};
ghost use Rattle.lnbd_handle.specs.Room.{IsKept};
ghost use Rattle.lnbd_handle.specs.Histories.{Adds, AddsFault, ForEach, Stays, max_unretired};
ghost use Rattle.lnbd_handle.specs.Issues.{AddsUnread, Faults, FaultsUnread, block_status_of, cache_of, flush_of, range_of, read_of, structured_read_of, trim_of, with_bytes, write_of, zero_of};

use crate::handle::Handle;
use crate::issue::{IssueFault, handed_back, issue, refuse};
use crate::pending::Pending;
use lnbd_callbacks::Caller;
use lnbd_commands::Asked;
use lnbd_model::{Kind, NoMemory};

/// A read into a buffer, or a write of its bytes.
fn with_bytes<K>(
    kind: Kind,
    buf: Vec<u8>,
    offset: u64,
    first: Option<K>,
    done: K,
    flags: u32,
) -> Asked<K>
    ensures command { command_of result ≡ with_bytes kind buf.items offset first done flags }
    ensures sized { vec_len result.buf ≡ result.length }
{
    Asked {
        kind,
        flags,
        offset,
        length: buf.len() as u64,
        buf,
        first,
        done,
    }
}

/// Makes room for the data of a read.
fn room_for<K>(pending: &mut Pending, asked: &Asked<K>) -> Result<(), NoMemory>
    requires { IsKept pending.old }
    ensures held { held_in pending.new ≡ held_in pending.old }
    ensures head { pending.new.head ≡ pending.old.head }
    ensures announced { pending.new.announced ≡ pending.old.announced }
    ensures came { pending.new.came ≡ pending.old.came }
    ensures kept { IsKept pending.new }
    ensures ok { OnOk result (is_read asked.now.kind ≡ true → vec_len asked.now.buf ≤ vec_len pending.new.content) }
    ensures grows { vec_len pending.old.content ≤ vec_len pending.new.content }
{
    match asked.kind {
        Kind::Read => pending.make_room(asked.buf.len()),
        _ => Ok(()),
    }
}

impl<K: Caller> Handle<K> {
    /// A command without bytes.
    fn with_range(
        &self,
        kind: Kind,
        length: u64,
        offset: u64,
        first: Option<K>,
        done: K,
        flags: u32,
    ) -> Asked<K>
        ensures { command_of result ≡ range_of kind length offset first done flags }
    {
        Asked {
            kind,
            flags,
            offset,
            length,
            buf: Vec::new(self.connection.alloc),
            first,
            done,
        }
    }

    /// Issues a command, or refuses it.
    fn issue(&mut self, asked: Asked<K>, world: &mut K::World) -> Result<u64, IssueFault<K>>
        requires read { is_read asked.kind ≡ true → vec_len asked.buf ≡ asked.length }
        requires write { HasItsBytes (command_of asked) }
        ensures cookie { IfOk result (λ cookie. cookie ≡ self.new.machine.known.issued) }
        ensures accepted { OnOk result (refusal_now max_unretired self.old.machine.known (command_of asked) ≡ None) }
        ensures ok { OnOk result (self.new.machine ≡ step self.old.machine (Issue (command_of asked))) }
        ensures ok_world { OnOk result (world.new ≡ world.old) }
        ensures faults { IfErr result (λ fault. Faults K.steps (command_of asked) fault self.old.machine self.new.machine world.old world.new) }
        ensures stands { OnOk result (ForEach self.old.machine (Adds (Issue (command_of asked)) self.new.machine)) }
        ensures fault_stands { IfErr result (λ fault. ForEach self.old.machine (AddsFault K.steps (command_of asked) fault self.new.machine world.old world.new)) }
    {
        let terms = self.connection.terms();
        if let Some(why) = terms.refusal(asked.kind, asked.flags, asked.offset, asked.length) {
            return Err(refuse(&mut self.connection, world, asked, why));
        }
        if room_for(&mut self.pending, &asked).is_err() {
            return Err(handed_back(asked));
        }
        match issue(&mut self.connection, asked) {
            Ok(cookie) => Ok(cookie),
            Err(asked) => Err(handed_back(asked)),
        }
    }

    /// Asks for as many bytes as the buffer has, from this offset on (libnbd, nbd_aio_pread), and tells the
    /// command's cookie. The buffer that comes back with the result has this length, and may be another one.
    pub fn aio_pread(
        &mut self,
        buf: Vec<u8>,
        offset: u64,
        done: K,
        flags: u32,
        world: &mut K::World,
    ) -> Result<u64, IssueFault<K>>
        ensures cookie { IfOk result (λ cookie. cookie ≡ self.new.machine.known.issued) }
        ensures accepted { OnOk result (refusal_now max_unretired self.old.machine.known (read_of buf.items offset done flags) ≡ None) }
        ensures ok { OnOk result (self.new.machine ≡ step self.old.machine (Issue (read_of buf.items offset done flags))) }
        ensures ok_world { OnOk result (world.new ≡ world.old) }
        ensures faults { IfErr result (λ fault. Faults K.steps (read_of buf.items offset done flags) fault self.old.machine self.new.machine world.old world.new) }
        ensures stands { OnOk result (ForEach self.old.machine (Adds (Issue (read_of buf.items offset done flags)) self.new.machine)) }
        ensures fault_stands { IfErr result (λ fault. ForEach self.old.machine (AddsFault K.steps (read_of buf.items offset done flags) fault self.new.machine world.old world.new)) }
    {
        let asked = with_bytes(Kind::Read, buf, offset, None, done, flags);
        self.issue(asked, world)
    }

    /// Asks for as many bytes as the buffer has, with a callback that hears each piece of them as it comes (libnbd,
    /// nbd_aio_pread_structured).
    pub fn aio_pread_structured(
        &mut self,
        buf: Vec<u8>,
        offset: u64,
        chunk: K,
        done: K,
        flags: u32,
        world: &mut K::World,
    ) -> Result<u64, IssueFault<K>>
        ensures cookie { IfOk result (λ cookie. cookie ≡ self.new.machine.known.issued) }
        ensures accepted { OnOk result (refusal_now max_unretired self.old.machine.known (structured_read_of buf.items offset chunk done flags) ≡ None) }
        ensures ok { OnOk result (self.new.machine ≡ step self.old.machine (Issue (structured_read_of buf.items offset chunk done flags))) }
        ensures ok_world { OnOk result (world.new ≡ world.old) }
        ensures faults { IfErr result (λ fault. Faults K.steps (structured_read_of buf.items offset chunk done flags) fault self.old.machine self.new.machine world.old world.new) }
        ensures stands { OnOk result (ForEach self.old.machine (Adds (Issue (structured_read_of buf.items offset chunk done flags)) self.new.machine)) }
        ensures fault_stands { IfErr result (λ fault. ForEach self.old.machine (AddsFault K.steps (structured_read_of buf.items offset chunk done flags) fault self.new.machine world.old world.new)) }
    {
        let asked = with_bytes(Kind::Read, buf, offset, Some(chunk), done, flags);
        self.issue(asked, world)
    }

    /// Refuses a read of so many bytes as its issue would, before there is a buffer for it: who fills a buffer for each read
    /// asks this first. `Ok`: no rule refuses it now, its callbacks come back, and nothing has changed. `Err`: as of its issue,
    /// with no bytes in the buffer.
    pub fn refuse_read(
        &mut self,
        count: u64,
        offset: u64,
        first: Option<K>,
        done: K,
        flags: u32,
        world: &mut K::World,
    ) -> Result<(Option<K>, K), IssueFault<K>>
        ensures back { IfOk result (λ back. back ≡ (first, done)) }
        ensures accepted { OnOk result ((bytes : List ℕ) → length bytes ≡ count → refusal_now max_unretired self.old.machine.known (with_bytes Read bytes offset first done flags) ≡ None) }
        ensures ok { OnOk result (self.new ≡ self.old) }
        ensures ok_world { OnOk result (world.new ≡ world.old) }
        ensures faults { IfErr result (λ fault. FaultsUnread K.steps count offset first done flags fault self.old.machine self.new.machine world.old world.new) }
        ensures stands { OnOk result (ForEach self.old.machine (Stays self.new.machine)) }
        ensures fault_stands { IfErr result (λ fault. ForEach self.old.machine (AddsUnread K.steps count offset first done flags fault self.new.machine world.old world.new)) }
    {
        let terms = self.connection.terms();
        match terms.refusal(Kind::Read, flags, offset, count) {
            Some(why) => {
                let asked = self.with_range(Kind::Read, count, offset, first, done, flags);
                Err(refuse(&mut self.connection, world, asked, why))
            }
            None => Ok((first, done)),
        }
    }

    /// Writes the bytes of the buffer from this offset on (libnbd, nbd_aio_pwrite). They go out from the buffer, which
    /// comes back with the result.
    pub fn aio_pwrite(
        &mut self,
        buf: Vec<u8>,
        offset: u64,
        done: K,
        flags: u32,
        world: &mut K::World,
    ) -> Result<u64, IssueFault<K>>
        ensures cookie { IfOk result (λ cookie. cookie ≡ self.new.machine.known.issued) }
        ensures accepted { OnOk result (refusal_now max_unretired self.old.machine.known (write_of buf.items offset done flags) ≡ None) }
        ensures ok { OnOk result (self.new.machine ≡ step self.old.machine (Issue (write_of buf.items offset done flags))) }
        ensures ok_world { OnOk result (world.new ≡ world.old) }
        ensures faults { IfErr result (λ fault. Faults K.steps (write_of buf.items offset done flags) fault self.old.machine self.new.machine world.old world.new) }
        ensures stands { OnOk result (ForEach self.old.machine (Adds (Issue (write_of buf.items offset done flags)) self.new.machine)) }
        ensures fault_stands { IfErr result (λ fault. ForEach self.old.machine (AddsFault K.steps (write_of buf.items offset done flags) fault self.new.machine world.old world.new)) }
    {
        let asked = with_bytes(Kind::Write, buf, offset, None, done, flags);
        self.issue(asked, world)
    }

    /// Asks that all that was written is kept (libnbd, nbd_aio_flush).
    pub fn aio_flush(
        &mut self,
        done: K,
        flags: u32,
        world: &mut K::World,
    ) -> Result<u64, IssueFault<K>>
        ensures cookie { IfOk result (λ cookie. cookie ≡ self.new.machine.known.issued) }
        ensures accepted { OnOk result (refusal_now max_unretired self.old.machine.known (flush_of done flags) ≡ None) }
        ensures ok { OnOk result (self.new.machine ≡ step self.old.machine (Issue (flush_of done flags))) }
        ensures ok_world { OnOk result (world.new ≡ world.old) }
        ensures faults { IfErr result (λ fault. Faults K.steps (flush_of done flags) fault self.old.machine self.new.machine world.old world.new) }
        ensures stands { OnOk result (ForEach self.old.machine (Adds (Issue (flush_of done flags)) self.new.machine)) }
        ensures fault_stands { IfErr result (λ fault. ForEach self.old.machine (AddsFault K.steps (flush_of done flags) fault self.new.machine world.old world.new)) }
    {
        let asked = self.with_range(Kind::Flush, 0, 0, None, done, flags);
        self.issue(asked, world)
    }

    /// Tells that a range of so many bytes from this offset on is not needed any more (libnbd, nbd_aio_trim).
    pub fn aio_trim(
        &mut self,
        length: u64,
        offset: u64,
        done: K,
        flags: u32,
        world: &mut K::World,
    ) -> Result<u64, IssueFault<K>>
        ensures cookie { IfOk result (λ cookie. cookie ≡ self.new.machine.known.issued) }
        ensures accepted { OnOk result (refusal_now max_unretired self.old.machine.known (trim_of length offset done flags) ≡ None) }
        ensures ok { OnOk result (self.new.machine ≡ step self.old.machine (Issue (trim_of length offset done flags))) }
        ensures ok_world { OnOk result (world.new ≡ world.old) }
        ensures faults { IfErr result (λ fault. Faults K.steps (trim_of length offset done flags) fault self.old.machine self.new.machine world.old world.new) }
        ensures stands { OnOk result (ForEach self.old.machine (Adds (Issue (trim_of length offset done flags)) self.new.machine)) }
        ensures fault_stands { IfErr result (λ fault. ForEach self.old.machine (AddsFault K.steps (trim_of length offset done flags) fault self.new.machine world.old world.new)) }
    {
        let asked = self.with_range(Kind::Trim, length, offset, None, done, flags);
        self.issue(asked, world)
    }

    /// Writes zeroes over a range (libnbd, nbd_aio_zero).
    pub fn aio_zero(
        &mut self,
        length: u64,
        offset: u64,
        done: K,
        flags: u32,
        world: &mut K::World,
    ) -> Result<u64, IssueFault<K>>
        ensures cookie { IfOk result (λ cookie. cookie ≡ self.new.machine.known.issued) }
        ensures accepted { OnOk result (refusal_now max_unretired self.old.machine.known (zero_of length offset done flags) ≡ None) }
        ensures ok { OnOk result (self.new.machine ≡ step self.old.machine (Issue (zero_of length offset done flags))) }
        ensures ok_world { OnOk result (world.new ≡ world.old) }
        ensures faults { IfErr result (λ fault. Faults K.steps (zero_of length offset done flags) fault self.old.machine self.new.machine world.old world.new) }
        ensures stands { OnOk result (ForEach self.old.machine (Adds (Issue (zero_of length offset done flags)) self.new.machine)) }
        ensures fault_stands { IfErr result (λ fault. ForEach self.old.machine (AddsFault K.steps (zero_of length offset done flags) fault self.new.machine world.old world.new)) }
    {
        let asked = self.with_range(Kind::Zero, length, offset, None, done, flags);
        self.issue(asked, world)
    }

    /// Asks that a range is read ahead (libnbd, nbd_aio_cache).
    pub fn aio_cache(
        &mut self,
        length: u64,
        offset: u64,
        done: K,
        flags: u32,
        world: &mut K::World,
    ) -> Result<u64, IssueFault<K>>
        ensures cookie { IfOk result (λ cookie. cookie ≡ self.new.machine.known.issued) }
        ensures accepted { OnOk result (refusal_now max_unretired self.old.machine.known (cache_of length offset done flags) ≡ None) }
        ensures ok { OnOk result (self.new.machine ≡ step self.old.machine (Issue (cache_of length offset done flags))) }
        ensures ok_world { OnOk result (world.new ≡ world.old) }
        ensures faults { IfErr result (λ fault. Faults K.steps (cache_of length offset done flags) fault self.old.machine self.new.machine world.old world.new) }
        ensures stands { OnOk result (ForEach self.old.machine (Adds (Issue (cache_of length offset done flags)) self.new.machine)) }
        ensures fault_stands { IfErr result (λ fault. ForEach self.old.machine (AddsFault K.steps (cache_of length offset done flags) fault self.new.machine world.old world.new)) }
    {
        let asked = self.with_range(Kind::Cache, length, offset, None, done, flags);
        self.issue(asked, world)
    }

    /// Asks what a range consists of, which the callback hears for each agreed meta context (libnbd,
    /// nbd_aio_block_status).
    pub fn aio_block_status(
        &mut self,
        length: u64,
        offset: u64,
        extents: K,
        done: K,
        flags: u32,
        world: &mut K::World,
    ) -> Result<u64, IssueFault<K>>
        ensures cookie { IfOk result (λ cookie. cookie ≡ self.new.machine.known.issued) }
        ensures accepted { OnOk result (refusal_now max_unretired self.old.machine.known (block_status_of length offset extents done flags) ≡ None) }
        ensures ok { OnOk result (self.new.machine ≡ step self.old.machine (Issue (block_status_of length offset extents done flags))) }
        ensures ok_world { OnOk result (world.new ≡ world.old) }
        ensures faults { IfErr result (λ fault. Faults K.steps (block_status_of length offset extents done flags) fault self.old.machine self.new.machine world.old world.new) }
        ensures stands { OnOk result (ForEach self.old.machine (Adds (Issue (block_status_of length offset extents done flags)) self.new.machine)) }
        ensures fault_stands { IfErr result (λ fault. ForEach self.old.machine (AddsFault K.steps (block_status_of length offset extents done flags) fault self.new.machine world.old world.new)) }
    {
        let asked = self.with_range(
            Kind::BlockStatus,
            length,
            offset,
            Some(extents),
            done,
            flags,
        );
        self.issue(asked, world)
    }
}
