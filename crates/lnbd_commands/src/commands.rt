//! The commands of one handle, and what each event does to them.

ghost use Rattle.std.specs.Prelude.{◌≡◌, ◌≤◌, ◌+◌, [], ◌∷◌, ℕ, List, true, false, Some, None, IsSome, IfOk, IfErr, OnOk, OnErr, is_some, length};
ghost use Rattle.std.specs.Option.{option_map};
ghost use Rattle.lnbd_keyed.specs.Keyed.{holds_key, value_at, keys};
ghost use Rattle.lnbd_history.specs.Answers.{peeked_of};
ghost use Rattle.lnbd_history.specs.Commands.{Command, callbacks, flight_of};
ghost use Rattle.lnbd_history.specs.Entries.{Dropped, Framed, Lost};
ghost use Rattle.lnbd_machine.specs.Machine.{Row as SeenRow, file_all, file_in, flying, refused};
ghost use Rattle.lnbd_machine.specs.Now.{completed_row};
ghost use Rattle.lnbd_commands.specs.Commands.{Commands as Seen, cleared, issuing, no_commands, payload_at, retiring, waiting_at};
ghost use Rattle.lnbd_commands.specs.Contents.{IsSpare, bytes_in};
ghost use Rattle.lnbd_commands.specs.Faulty.{HasAsked, faulty_at};
ghost use Rattle.lnbd_commands.specs.Flights.{has_first};
ghost use Rattle.lnbd_commands.specs.Rows.{flight_of_row, is_read_row};
ghost use Rattle.lnbd_structured.specs.Waiting.{seen_waiting};
ghost use Rattle.lnbd_commands.specs.Takes.{IsReply, Takes, TakesReply};

use crate::content::Content;
use crate::row::Row;
use crate::rows::{end_by_loss, end_by_reply};
use lnbd_callbacks::{Caller, Desk};
use lnbd_history::Peeked;
use lnbd_inflight::Table;
use lnbd_model::{NoMemory, Note};
use lnbd_structured::Waiting;
use std::alloc::Global;
use std::marker::Model;

/// The commands of one handle that are not retired, and the desk of their callbacks. They must be
/// spent, in the end by `close`.
pub struct Commands<K> {
    pub(crate) alloc: Global,
    pub(crate) table: Table<Row<K>>,
    pub(crate) desk: Desk,
    pub(crate) issued: u64,
    pub(crate) freed: u64,
}

impl<K> Model for Commands<K> {
    ghost use Rattle.lnbd_commands.specs.Commands.{Commands as Seen};
    ghost use Rattle.lnbd_commands.specs.Sound.{IsSound};

    ghost Value = { Seen K };

    ghost view = { λ c. record { issued = c.issued; rows = c.table.rows; done = c.table.done; log = c.desk.log; freed = c.freed; room = c.desk.room } };

    ghost invariant = { λ c. IsSound (record { issued = c.issued; rows = c.table.rows; done = c.table.done; log = c.desk.log; freed = c.freed; room = c.desk.room }) };
}

impl<K> Commands<K> {
    /// No commands. It takes no memory.
    pub fn new(alloc: Global) -> Commands<K>
        ensures { result ≡ no_commands }
    {
        Commands {
            alloc,
            table: Table::new(alloc),
            desk: Desk::new(alloc),
            issued: 0,
            freed: 0,
        }
    }

    /// How many commands were issued: the last cookie, or 0.
    pub fn issued(&self) -> u64
        ensures { result ≡ self.now.issued }
    {
        self.issued
    }

    /// How many commands are not retired.
    pub fn held(&self) -> usize
        ensures { result ≡ length self.now.rows }
    {
        self.table.count()
    }

    /// How many commands are in flight (libnbd, nbd_aio_in_flight).
    pub fn in_flight(&self) -> usize
        ensures { result ≡ flying self.now.rows }
    {
        self.table.undone()
    }

    /// The completed command that completed first (libnbd, nbd_aio_peek_command_completed).
    pub fn peek(&self) -> Peeked
        ensures { result ≡ peeked_of self.now.done (length self.now.rows) }
    {
        match self.table.first_done() {
            Some(cookie) => Peeked::Cookie(cookie),
            None => {
                if self.table.count() == 0 {
                    Peeked::NoneLeft
                } else {
                    Peeked::NoneDone
                }
            }
        }
    }

    /// Whether a command is not retired. What is asked of it next, and of no other one between, searches for it no more.
    pub fn find(&mut self, cookie: u64) -> bool
        ensures held { result ≡ holds_key cookie self.old.rows }
        ensures unchanged { self.new ≡ self.old }
    {
        self.table.find(cookie)
    }

    /// What is known of a command, while it is in flight.
    pub fn waiting(&self, cookie: u64) -> Option<Waiting>
        ensures { option_map seen_waiting result ≡ waiting_at cookie self.now }
    {
        match self.table.get(cookie) {
            Some(row) => row.waiting(),
            None => None,
        }
    }

    /// Whether a chunk of so many bytes of data from this place of the export on would have a content fault now, under a read in flight that asked
    /// for them: some of them were told, or under DF content came.
    pub fn is_faulty(&self, cookie: u64, offset: u64, size: u64) -> bool
        requires { HasAsked (waiting_at cookie self.now) offset size }
        ensures { result ≡ faulty_at cookie offset size self.now.rows }
    {
        match self.table.get(cookie) {
            Some(row) => row.is_faulty(offset, size),
            None => false,
        }
    }

    /// The bytes that a write in flight sends, which stay in its own buffer; of another command none.
    pub fn payload(&self, cookie: u64) -> &[u8]
        ensures { result.now ≡ payload_at cookie self.now }
    {
        match self.table.get(cookie) {
            Some(row) => row.payload(),
            None => &[],
        }
    }

    /// The notes since the log was last cleared, the earliest first.
    pub fn notes(&self) -> &[Note]
        ensures { result.now ≡ self.now.log.notes }
    {
        self.desk.notes()
    }

    /// Drops the notes.
    pub fn clear_log(&mut self)
        ensures { self.new ≡ cleared self.old }
    {
        self.desk.clear();
    }

    /// How many callbacks were admitted.
    pub fn admitted(&self) -> u64
        ensures { result ≡ self.now.log.admitted }
    {
        self.desk.admitted()
    }

    /// How many callbacks were freed.
    pub fn freed(&self) -> u64
        ensures { result ≡ self.now.freed }
    {
        self.freed
    }
}

impl<K: Caller> Commands<K> {
    /// Files a simple reply with this error, as the wire tells it, and these bytes under a command in
    /// flight: it completes, and its callbacks are freed. The bytes are copied once. Only a command with a
    /// chunk callback may want memory, for that note; then nothing has changed.
    pub fn reply(
        &mut self,
        world: &mut K::World,
        cookie: u64,
        error: u32,
        bytes: &[u8],
    ) -> Result<(), NoMemory>
        requires { IsReply (waiting_at cookie self.old) error bytes.now }
        ensures ok { OnOk result (TakesReply K.steps cookie (waiting_at cookie self.old) error bytes.now self.old self.new world.old world.new) }
        ensures needed { OnErr result (has_first (flight_of_row (value_at cookie self.old.rows)) ≡ true) }
        ensures read { OnErr result (is_read_row (value_at cookie self.old.rows) ≡ true) }
        ensures err { OnErr result (self.new ≡ self.old) }
        ensures err_world { OnErr result (world.new ≡ world.old) }
    {
        match self.end_by_reply(world, cookie, error, Content::Copied(bytes)) {
            Ok(_) => Ok(()),
            Err(_) => Err(NoMemory),
        }
    }

    /// The same of a reply whose bytes fill a buffer, which is taken over: nothing is copied. Another one of its length comes
    /// back; for want of memory the one that was handed over does, and nothing has changed.
    pub fn reply_filled(
        &mut self,
        world: &mut K::World,
        cookie: u64,
        error: u32,
        buffer: Vec<u8>,
    ) -> Result<Vec<u8>, Vec<u8>>
        requires { IsReply (waiting_at cookie self.old) error buffer.items }
        ensures ok { OnOk result (TakesReply K.steps cookie (waiting_at cookie self.old) error buffer.items self.old self.new world.old world.new) }
        ensures spare { IfOk result (λ spare. length spare.items ≡ length buffer.items) }
        ensures needed { OnErr result (has_first (flight_of_row (value_at cookie self.old.rows)) ≡ true) }
        ensures read { OnErr result (is_read_row (value_at cookie self.old.rows) ≡ true) }
        ensures handed_back { IfErr result (λ back. back.items ≡ buffer.items) }
        ensures err { OnErr result (self.new ≡ self.old) }
        ensures err_world { OnErr result (world.new ≡ world.old) }
    {
        match self.end_by_reply(world, cookie, error, Content::Moved(buffer)) {
            Ok(spare) => Ok(spare),
            Err(Content::Moved(back)) => Err(back),
            Err(Content::Copied(_)) => unreachable!(),
        }
    }

    /// Ends a command by a simple reply. A buffer that is not needed any more comes back, and for want of memory what it brings.
    fn end_by_reply<'a>(
        &mut self,
        world: &mut K::World,
        cookie: u64,
        error: u32,
        content: Content<'a>,
    ) -> Result<Vec<u8>, Content<'a>>
        requires { IsReply (waiting_at cookie self.old) error (bytes_in content) }
        ensures ok { OnOk result (TakesReply K.steps cookie (waiting_at cookie self.old) error (bytes_in content.entry) self.old self.new world.old world.new) }
        ensures spare { IfOk result (λ spare. IsSpare (Some content.entry) (length spare.items)) }
        ensures needed { OnErr result (has_first (flight_of_row (value_at cookie self.old.rows)) ≡ true) }
        ensures read { OnErr result (is_read_row (value_at cookie self.old.rows) ≡ true) }
        ensures handed_back { IfErr result (λ back. back ≡ content.entry) }
        ensures err { OnErr result (self.new ≡ self.old) }
        ensures err_world { OnErr result (world.new ≡ world.old) }
    {
        let _admitted = self.desk.admitted();
        match end_by_reply(
            &mut self.table,
            self.alloc,
            &mut self.desk,
            world,
            cookie,
            error,
            content,
        ) {
            Ok((freed, spare)) => {
                self.freed += freed;
                Ok(spare)
            }
            Err(content) => Err(content),
        }
    }

    /// Fails each command in flight with 107, ENOTCONN, or an earlier error of its own, in order of
    /// cookies: each completes, and its callbacks are freed. It takes no memory.
    ///
    /// The time grows with the number of commands that are not retired, and each of those in flight adds a binary
    /// search among them. It does not grow with the number of commands that were issued.
    pub fn lose_all(&mut self, world: &mut K::World)
        ensures { Takes K.steps (file_all Lost (keys self.old.rows)) self.old self.new world.old world.new }
    {
        // Nothing is read here: the proof learns what holds of the commands before the first is lost.
        let _ = &self.table;
        let mut lost = 0;
        while let Some(cookie) = self.table.next_undone(lost) {
            self.lose(world, cookie);
            lost = cookie;
        }
    }

    /// Fails a command in flight.
    fn lose(&mut self, world: &mut K::World, cookie: u64)
        requires { is_some (waiting_at cookie self.old) ≡ true }
        ensures { Takes K.steps (file_in cookie Lost) self.old self.new world.old world.new }
    {
        let _admitted = self.desk.admitted();
        self.freed += end_by_loss(&mut self.table, self.alloc, &mut self.desk, world, cookie);
    }
}
