//! Commands of a script, issued on its handle. No text is made here.

ghost use Rattle.std.specs.Prelude.{◌≡◌, ◌<◌, [], IfOk, IsOk, OnErr, replicate, vec_capacity, vec_len};
ghost use Rattle.lnbd_lines.specs.declared.command.Command.TheVariants as command;
ghost use Rattle.lnbd_handle.specs.Issues.{write_of};
ghost use Rattle.lnbd_script.specs.Lines.{HasBytes, command_of, payload_of};
ghost use Rattle.lnbd_script.specs.Steps.{Answered, Becomes, Issued, Joins, Judged, Unread, issue_told};

use crate::keeper::{Heeded, Keeper};
use crate::session::Session;
use crate::spare::read_buffer;
use crate::told::Told;
use lnbd_handle::IssueFault;
use lnbd_lines::{Command, Manner, Payload, Range};
use lnbd_model::{Bytes, NoMemory, Why};
use std::alloc::Global;

/// What the handle's answer to an issue comes to.
fn told_of(answer: Result<u64, IssueFault<Keeper>>) -> Result<Told, NoMemory>
    ensures { result ≡ issue_told answer }
{
    match answer {
        Ok(cookie) => Ok(Told::Cookie(cookie)),
        Err(IssueFault::Refused { why, buf: _ }) => Ok(Told::Refused(why)),
        Err(
            IssueFault::NoMemory {
                buf: _,
                first: _,
                done: _,
            },
        ) => Err(NoMemory),
    }
}

/// Counts a command, where it was issued.
fn count_in(heeded: &mut Heeded, answer: &Result<u64, IssueFault<Keeper>>)
    requires room { IsOk answer.now → vec_len heeded.old.failed < vec_capacity heeded.old.failed }
    ensures { Joins answer.now heeded.old heeded.new }
{
    match answer {
        Ok(_) => heeded.join(),
        Err(_) => {}
    }
}

/// The same bytes again.
fn copied(alloc: Global, bytes: &Bytes) -> Result<Vec<u8>, NoMemory>
    ensures { IfOk result (λ copy. copy.items ≡ bytes.now) }
{
    let copy = Vec::from_slice(alloc, bytes.as_slice())?;
    Ok(copy)
}

/// One byte so often.
fn filled(alloc: Global, byte: u8, length: u64) -> Result<Vec<u8>, NoMemory>
    ensures { IfOk result (λ bytes. bytes.items ≡ replicate length byte) }
{
    let bytes = Vec::from_elem(alloc, byte, length as usize)?;
    Ok(bytes)
}

/// The bytes that a write sends.
fn payload_bytes(alloc: Global, payload: &Payload) -> Result<Vec<u8>, NoMemory>
    ensures { IfOk result (λ bytes. bytes.items ≡ payload_of payload.now) }
{
    match payload {
        Payload::Hex(bytes) => copied(alloc, bytes),
        Payload::Fill { byte, length } => filled(alloc, *byte, *length as u64),
    }
}

/// No bytes. It takes no memory.
fn none(alloc: Global) -> Bytes
    ensures { result ≡ [] }
{
    Bytes::from_vec(Vec::new(alloc))
}

/// The bytes of a command: room for what a read asks for, or what a write sends. A write lets go of a buffer that is free in exchange.
pub(crate) fn bytes_of(
    spare: &mut Vec<Vec<u8>>,
    alloc: Global,
    command: &Command,
) -> Result<Bytes, NoMemory>
    ensures { IfOk result (λ bytes. HasBytes command.now bytes) }
{
    match command {
        Command::Pread(range) => read_buffer(spare, alloc, range.length as usize),
        Command::PreadStructured(range) => read_buffer(spare, alloc, range.length as usize),
        Command::Pwrite { payload, .. } => {
            let _freed = spare.pop();
            let bytes = payload_bytes(alloc, payload)?;
            Ok(Bytes::from_vec(bytes))
        }
        Command::Flush { .. } => Ok(none(alloc)),
        Command::Trim(_) => Ok(none(alloc)),
        Command::Zero(_) => Ok(none(alloc)),
        Command::Cache(_) => Ok(none(alloc)),
        Command::BlockStatus(_) => Ok(none(alloc)),
    }
}

impl Session {
    /// Issues a read into a buffer.
    fn issue_read(
        &mut self,
        keeper: Keeper,
        buf: Bytes,
        range: Range,
    ) -> Result<u64, IssueFault<Keeper>>
        ensures { Answered (command_of keeper buf (command.Pread range)) self.old self.new result }
    {
        self.handle.aio_pread(
            buf.into_vec(),
            range.offset,
            keeper,
            range.flags,
            &mut self.heeded,
        )
    }

    /// Issues a read into a buffer, each piece of which a callback hears.
    fn issue_structured_read(
        &mut self,
        keeper: Keeper,
        buf: Bytes,
        range: Range,
    ) -> Result<u64, IssueFault<Keeper>>
        ensures { Answered (command_of keeper buf (command.PreadStructured range)) self.old self.new result }
    {
        self.handle.aio_pread_structured(
            buf.into_vec(),
            range.offset,
            keeper,
            keeper,
            range.flags,
            &mut self.heeded,
        )
    }

    /// Issues a write.
    fn issue_write(
        &mut self,
        keeper: Keeper,
        buf: Bytes,
        offset: u64,
        flags: u32,
    ) -> Result<u64, IssueFault<Keeper>>
        ensures { Answered (write_of buf offset keeper flags) self.old self.new result }
    {
        self.handle
            .aio_pwrite(buf.into_vec(), offset, keeper, flags, &mut self.heeded)
    }

    /// Issues a flush.
    fn issue_flush(&mut self, keeper: Keeper, flags: u32) -> Result<u64, IssueFault<Keeper>>
        ensures { Answered (command_of keeper [] (command.Flush flags)) self.old self.new result }
    {
        self.handle.aio_flush(keeper, flags, &mut self.heeded)
    }

    /// Issues a trim.
    fn issue_trim(&mut self, keeper: Keeper, range: Range) -> Result<u64, IssueFault<Keeper>>
        ensures { Answered (command_of keeper [] (command.Trim range)) self.old self.new result }
    {
        let Range {
            length,
            offset,
            flags,
        } = range;
        self.handle
            .aio_trim(length, offset, keeper, flags, &mut self.heeded)
    }

    /// Issues a write of zeroes.
    fn issue_zero(&mut self, keeper: Keeper, range: Range) -> Result<u64, IssueFault<Keeper>>
        ensures { Answered (command_of keeper [] (command.Zero range)) self.old self.new result }
    {
        let Range {
            length,
            offset,
            flags,
        } = range;
        self.handle
            .aio_zero(length, offset, keeper, flags, &mut self.heeded)
    }

    /// Issues a read ahead.
    fn issue_cache(&mut self, keeper: Keeper, range: Range) -> Result<u64, IssueFault<Keeper>>
        ensures { Answered (command_of keeper [] (command.Cache range)) self.old self.new result }
    {
        let Range {
            length,
            offset,
            flags,
        } = range;
        self.handle
            .aio_cache(length, offset, keeper, flags, &mut self.heeded)
    }

    /// Issues a question what a range consists of.
    fn issue_block_status(
        &mut self,
        keeper: Keeper,
        range: Range,
    ) -> Result<u64, IssueFault<Keeper>>
        ensures { Answered (command_of keeper [] (command.BlockStatus range)) self.old self.new result }
    {
        let Range {
            length,
            offset,
            flags,
        } = range;
        self.handle
            .aio_block_status(length, offset, keeper, keeper, flags, &mut self.heeded)
    }

    /// Issues a command with this callback and these bytes.
    fn hand_over(
        &mut self,
        keeper: Keeper,
        command: &Command,
        bytes: Bytes,
    ) -> Result<u64, IssueFault<Keeper>>
        ensures { Answered (command_of keeper bytes command.now) self.old self.new result }
    {
        match command {
            Command::Pread(range) => self.issue_read(keeper, bytes, *range),
            Command::PreadStructured(range) => self.issue_structured_read(keeper, bytes, *range),
            Command::Pwrite { offset, flags, .. } => {
                self.issue_write(keeper, bytes, *offset, *flags)
            }
            Command::Flush { flags } => self.issue_flush(keeper, *flags),
            Command::Trim(range) => self.issue_trim(keeper, *range),
            Command::Zero(range) => self.issue_zero(keeper, *range),
            Command::Cache(range) => self.issue_cache(keeper, *range),
            Command::BlockStatus(range) => self.issue_block_status(keeper, *range),
        }
    }

    /// Refuses a read that its issue would refuse, before there is a buffer for it.
    fn refuse_read(
        &mut self,
        first: Option<Keeper>,
        done: Keeper,
        range: Range,
    ) -> Result<Option<Why>, NoMemory>
        ensures judged { Unread first done range self.old self.new result }
        ensures first { self.new.first ≡ self.old.first }
    {
        let Range {
            length,
            offset,
            flags,
        } = range;
        match self
            .handle
            .refuse_read(length, offset, first, done, flags, &mut self.heeded)
        {
            Ok(_) => Ok(None),
            Err(IssueFault::Refused { why, buf: _ }) => Ok(Some(why)),
            Err(
                IssueFault::NoMemory {
                    buf: _,
                    first: _,
                    done: _,
                },
            ) => Err(NoMemory),
        }
    }

    /// Refuses a command that can be judged before its bytes are there, which take memory and time: a read. None: it is not refused.
    fn refuse_unread(&mut self, manner: Manner, command: &Command) -> Result<Option<Why>, NoMemory>
        ensures judged { IfOk result (λ judged. Judged manner command.now self.old self.new judged) }
        ensures lacks { OnErr result (Becomes self.old self.new (λ before after. after ≡ before)) }
        ensures first { self.new.first ≡ self.old.first }
    {
        let keeper = Keeper::new(self.heeded.count(), manner);
        match command {
            Command::Pread(range) => self.refuse_read(None, keeper, *range),
            Command::PreadStructured(range) => self.refuse_read(Some(keeper), keeper, *range),
            _ => Ok(None),
        }
    }

    /// Issues a command with its bytes, and callbacks that answer so.
    fn issue_filled(
        &mut self,
        alloc: Global,
        manner: Manner,
        command: &Command,
    ) -> Result<Told, NoMemory>
        ensures ok { IfOk result (λ tells. Issued manner command.now self.old self.new tells) }
        ensures lacks { OnErr result (Becomes self.old self.new (λ before after. after ≡ before)) }
        ensures first { self.new.first ≡ self.old.first }
    {
        let keeper = Keeper::new(self.heeded.count(), manner);
        let bytes = self.heeded.prepare(alloc, command)?;
        let answer = self.hand_over(keeper, command, bytes);
        count_in(&mut self.heeded, &answer);
        told_of(answer)
    }

    /// Issues a command with callbacks that answer so.
    pub(crate) fn issue(
        &mut self,
        alloc: Global,
        manner: Manner,
        command: &Command,
    ) -> Result<Told, NoMemory>
        ensures ok { IfOk result (λ tells. Issued manner command.now self.old self.new tells) }
        ensures lacks { OnErr result (Becomes self.old self.new (λ before after. after ≡ before)) }
        ensures first { self.new.first ≡ self.old.first }
    {
        let judged = self.refuse_unread(manner, command)?;
        match judged {
            Some(why) => Ok(Told::Refused(why)),
            None => self.issue_filled(alloc, manner, command),
        }
    }
}
