//! Results of commands that are completed, until they are taken.

ghost use Rattle.std.specs.Prelude.{◌≡◌, [], IfErr, IfOk, Ok, Err};
ghost use Rattle.lnbd_history.specs.Events.{ClearLog};
ghost use Rattle.lnbd_machine.specs.Machine.{step};
ghost use Rattle.lnbd_machine.specs.Now.{completed_now, failure_now, peeked_now};
ghost use Rattle.lnbd_handle.specs.Completing.{completing};
ghost use Rattle.lnbd_session.specs.Tells.{Takes, chunk_told, extent_told, extents_told, failure_told, next_done, origin_number};

use crate::code::Code;
use crate::keeping::{ToldChunk, ToldExtents};
use crate::session::Session;
use lnbd_handle::{Completed, Peeked};
use lnbd_model::{Bytes, Extent, Failure, Origin};

/// Where an error came from, as a number from 1.
pub fn origin_number(origin: Origin) -> u32
    ensures { result ≡ origin_number origin }
{
    match origin {
        Origin::Told => 1,
        Origin::Content => 2,
        Origin::Callback => 3,
        Origin::Lost => 4,
    }
}

impl Session {
    /// The command that completed first and is not retired (libnbd, nbd_aio_peek_command_completed). NotYet: commands are left, and none is completed; NoCookie: none
    /// is left.
    pub fn peek(&self) -> Result<u64, Code>
        ensures { result ≡ next_done (peeked_now self.now.handle.machine.known) }
    {
        match self.handle.peek() {
            Peeked::Cookie(cookie) => Ok(cookie),
            Peeked::NoneDone => Err(Code::NotYet),
            Peeked::NoneLeft => Err(Code::NoCookie),
        }
    }

    /// The first error of a command that is completed, and where it came from. NoCookie: no such command has failed.
    pub fn failure(&self, cookie: u64) -> Result<Failure, Code>
        ensures { result ≡ failure_told (failure_now self.now.handle.machine.known cookie) }
    {
        match self.handle.failure(cookie) {
            Some(failure) => Ok(failure),
            None => Err(Code::NoCookie),
        }
    }

    /// Takes the result of a command: tells its error, 0 for none, and puts its bytes in the place of those that were taken before (libnbd,
    /// nbd_aio_command_completed). The notes so far are dropped.
    pub fn command_completed(&mut self, cookie: u64) -> Result<u32, Code>
        ensures takes { Takes (completed_now self.old.handle.machine.known cookie) result self.old.taken self.new.taken }
        ensures machine { self.new.handle.machine ≡ step (completing (completed_now self.old.handle.machine.known cookie) cookie self.old.handle.machine) ClearLog }
        ensures told { self.new.told ≡ self.old.told }
    {
        let completed = self.handle.command_completed(cookie);
        self.handle.clear_log();
        match completed {
            Completed::Done(buf) => {
                self.taken = buf;
                Ok(0)
            }
            Completed::Failed { error, buf } => {
                self.taken = buf;
                Ok(error)
            }
            Completed::NotYet => Err(Code::NotYet),
            Completed::NoSuchCookie => Err(Code::NoCookie),
        }
    }

    /// The same, with the bytes put into this buffer.
    pub fn command_completed_into(&mut self, cookie: u64, buffer: &mut Bytes) -> Result<u32, Code>
        ensures takes { Takes (completed_now self.old.handle.machine.known cookie) result buffer.old buffer.new }
        ensures machine { self.new.handle.machine ≡ step (completing (completed_now self.old.handle.machine.known cookie) cookie self.old.handle.machine) ClearLog }
        ensures told { self.new.told ≡ self.old.told }
        ensures taken { self.new.taken ≡ self.old.taken }
    {
        let completed = self.handle.command_completed(cookie);
        self.handle.clear_log();
        match completed {
            Completed::Done(buf) => {
                *buffer = buf;
                Ok(0)
            }
            Completed::Failed { error, buf } => {
                *buffer = buf;
                Ok(error)
            }
            Completed::NotYet => Err(Code::NotYet),
            Completed::NoSuchCookie => Err(Code::NoCookie),
        }
    }

    /// The extents at this index of those that were told and are not cleared, from 0. TooMany: there are not so many, and so below.
    pub fn extents(&self, index: usize) -> Result<&ToldExtents, Code>
        ensures ok { IfOk result (λ told. extents_told index self.now.told ≡ Ok told.now) }
        ensures err { IfErr result (λ code. extents_told index self.now.told ≡ Err code) }
    {
        match self.told.extents.get(index) {
            Some(told) => Ok(told),
            None => Err(Code::TooMany),
        }
    }

    /// The extent at this place of those at this index, both from 0.
    pub fn extent(&self, index: usize, place: usize) -> Result<Extent, Code>
        ensures { result ≡ extent_told index place self.now.told }
    {
        match self.told.extents.get(index) {
            Some(told) => match told.extents.as_slice().get(place) {
                Some(extent) => Ok(*extent),
                None => Err(Code::TooMany),
            },
            None => Err(Code::TooMany),
        }
    }

    /// The piece at this index of those that were told and are not cleared, from 0.
    pub fn chunk(&self, index: usize) -> Result<ToldChunk, Code>
        ensures { result ≡ chunk_told index self.now.told }
    {
        match self.told.chunks.get(index) {
            Some(told) => Ok(*told),
            None => Err(Code::TooMany),
        }
    }

    /// Drops the extents that were told.
    pub fn clear_extents(&mut self)
        ensures none { self.new.told.extents.items ≡ [] }
        ensures chunks { self.new.told.chunks.items ≡ self.old.told.chunks.items }
        ensures handle { self.new.handle ≡ self.old.handle }
        ensures taken { self.new.taken ≡ self.old.taken }
    {
        self.told.extents.clear();
    }

    /// Drops the pieces that were told.
    pub fn clear_chunks(&mut self)
        ensures none { self.new.told.chunks.items ≡ [] }
        ensures extents { self.new.told.extents.items ≡ self.old.told.extents.items }
        ensures handle { self.new.handle ≡ self.old.handle }
        ensures taken { self.new.taken ≡ self.old.taken }
    {
        self.told.chunks.clear();
    }
}
