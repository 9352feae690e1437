//! Chunks of commands in flight: each is told to its command, and the last one ends it.

ghost use Rattle.std.specs.Prelude.{◌≡◌, IfOk, IfErr, OnOk, OnErr, length};
ghost use Rattle.lnbd_history.specs.Entries.{Framed};
ghost use Rattle.lnbd_machine.specs.Machine.{file_in};
ghost use Rattle.lnbd_structured.specs.Told.{content_in};
ghost use Rattle.lnbd_records.specs.Content.{Data};
ghost use Rattle.lnbd_commands.specs.Commands.{waiting_at};
ghost use Rattle.lnbd_commands.specs.Contents.{IsSpareOf, told_of};
ghost use Rattle.lnbd_commands.specs.Takes.{IsChunk, TakesUnder};

use crate::commands::Commands;
use crate::content::Brought;
use crate::rows::take_chunk;
use lnbd_callbacks::Caller;
use lnbd_model::{Contexts, NoMemory};
use lnbd_structured::Told;

impl<K: Caller> Commands<K> {
    /// Files a chunk under a command in flight, which breaks no rule of the protocol, where these meta contexts are agreed: content
    /// without a fault goes into the command's buffer, zeros of a hole too, and the chunk or extents callback hears of it. After the
    /// last chunk the command completes, and its callbacks are freed. There is room for the note of the callback's call before the chunk
    /// is applied: for want of memory nothing has changed but what is reserved.
    pub fn chunk(
        &mut self,
        world: &mut K::World,
        cookie: u64,
        told: Told<'_>,
        last: bool,
        contexts: &Contexts,
    ) -> Result<(), NoMemory>
        requires { IsChunk (waiting_at cookie self.old) (content_in told) last }
        ensures ok { OnOk result (TakesUnder contexts.now K.steps (file_in cookie (Framed (content_in told.entry) last)) self.old self.new world.old world.new) }
        ensures err { OnErr result (self.new ≡ record self.old { room = self.new.room }) }
        ensures err_world { OnErr result (world.new ≡ world.old) }
    {
        match self.take_chunk(world, cookie, Brought::Told(told), last, contexts) {
            Ok(_) => Ok(()),
            Err(_) => Err(NoMemory),
        }
    }

    /// The same of a chunk of data from a place of the export on that fill a buffer. Where they are those of the whole read it becomes the
    /// command's own: nothing is copied. Another one of its length comes back; for want of memory the one that was handed over does.
    pub fn chunk_filled(
        &mut self,
        world: &mut K::World,
        cookie: u64,
        offset: u64,
        buffer: Vec<u8>,
        last: bool,
        contexts: &Contexts,
    ) -> Result<Vec<u8>, Vec<u8>>
        requires { IsChunk (waiting_at cookie self.old) (Data offset buffer.items) last }
        ensures ok { OnOk result (TakesUnder contexts.now K.steps (file_in cookie (Framed (Data offset buffer.items) last)) self.old self.new world.old world.new) }
        ensures spare { IfOk result (λ spare. length spare.items ≡ length buffer.items) }
        ensures handed_back { IfErr result (λ back. back.items ≡ buffer.items) }
        ensures err { OnErr result (self.new ≡ record self.old { room = self.new.room }) }
        ensures err_world { OnErr result (world.new ≡ world.old) }
    {
        let brought = Brought::Filled { offset, buffer };
        match self.take_chunk(world, cookie, brought, last, contexts) {
            Ok(spare) => Ok(spare),
            Err(Brought::Filled { offset: _, buffer }) => Err(buffer),
            Err(Brought::Told(_)) => unreachable!(),
        }
    }

    /// Tells a command what a chunk brings, and ends it after the last one. A buffer that is not needed any more comes back, and for want of memory what it brings.
    fn take_chunk<'a>(
        &mut self,
        world: &mut K::World,
        cookie: u64,
        brought: Brought<'a>,
        last: bool,
        contexts: &Contexts,
    ) -> Result<Vec<u8>, Brought<'a>>
        requires { IsChunk (waiting_at cookie self.old) (told_of brought) last }
        ensures ok { OnOk result (TakesUnder contexts.now K.steps (file_in cookie (Framed (told_of brought.entry) last)) self.old self.new world.old world.new) }
        ensures spare { IfOk result (λ spare. IsSpareOf brought.entry (length spare.items)) }
        ensures handed_back { IfErr result (λ back. back ≡ brought.entry) }
        ensures err { OnErr result (self.new ≡ record self.old { room = self.new.room }) }
        ensures err_world { OnErr result (world.new ≡ world.old) }
    {
        let _admitted = self.desk.admitted();
        match take_chunk(
            &mut self.table,
            self.alloc,
            &mut self.desk,
            world,
            cookie,
            brought,
            last,
            contexts,
        ) {
            Ok((freed, spare)) => {
                self.freed += freed;
                Ok(spare)
            }
            Err(brought) => Err(brought),
        }
    }
}
