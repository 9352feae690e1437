//! Plays: steps against a handle, and all that they answer and tell as one text.

use crate::told::{Keeper, Told};
use lnbd_handle::{Handle, IssueFault, OptFault, StrictFault};
use lnbd_model::{Kind, NoMemory, State, Text, Why};
use lnbd_texts::{push_info, push_opt_answer, push_peeked};
use std::alloc::Global;
use std::process::Abort;
use std::test::Fail;

/// A step of a play. What is as usual tells nothing: a setting that is taken, bytes that go out as they stand there.
#[derive(Clone, Copy)]
pub enum Step<'a> {
    Sets(Setting),
    Start,
    /// Bytes come, where the handle reads.
    Comes(&'a [u8]),
    /// The same bytes come so often.
    Repeats(&'a [u8], usize),
    /// Bytes come, and `last` is told before the last of them.
    Fronts(&'a [u8]),
    /// Bytes come one by one, in the place where the handle has one. Tells how many came there.
    Placed(&'a [u8]),
    /// These bytes are offered next, and go out.
    Sends(&'a [u8]),
    /// These bytes are offered next, of which so many go out.
    SendsFront(&'a [u8], usize),
    /// So many parts go out, whatever they are.
    Goes(usize),
    /// A command is issued: its kind, length, offset and flags. A read is into bytes ff, a write sends bytes aa.
    Asks(Kind, u64, u64, u32),
    /// So many reads of one byte at 0 are issued, in silence. Tells the last cookie.
    Reads(u64),
    /// A read of so many bytes at 0 whose command is retired by its callback.
    Retires(usize),
    /// A read of so many bytes at this offset with a chunk callback.
    ReadsChunks(usize, u64),
    /// These bytes are written at this offset, with these flags.
    Writes(&'a [u8], u64, u32),
    /// Each flag by itself is asked for with this command, in silence. Tells the sum of those that are taken.
    Flags(Kind),
    /// The result of this command is taken.
    Takes(u64),
    /// The failure of this command.
    Failure(u64),
    Opts(Opt),
    /// All options are asked. Tells how many are refused for the state.
    OptsAll,
    Disconnects,
    Ended,
    LinkFailed,
    Tells(What),
}

/// A setting of a handle.
#[derive(Clone, Copy)]
pub enum Setting {
    OptMode(bool),
    Structured(bool),
    Extended(bool),
    Strict(u32),
    /// The context `base:allocation`, so often.
    Contexts(usize),
    Name(&'static [u8]),
}

/// An option that is asked in opt mode.
#[derive(Clone, Copy)]
pub enum Opt {
    List,
    Info,
    SetContext,
    Go,
    Abort,
}

const OPTS: [Opt; 5] = [Opt::List, Opt::Info, Opt::SetContext, Opt::Go, Opt::Abort];

/// What a handle is asked.
#[derive(Clone, Copy)]
pub enum What {
    Answer,
    Listed,
    Info,
    /// The export's name and description.
    Names,
    Direction,
    /// How many bytes the place has.
    Place,
    Next,
    /// The notes, which are then dropped.
    Log,
    Strict,
    InFlight,
}

/// A handle with what was told.
pub struct Session {
    alloc: Global,
    pub handle: Handle<Keeper>,
    told: Told,
    /// The state that was told last.
    state: State,
    /// In pieces of how many bytes they come.
    piece: usize,
}

impl Session {
    pub fn new(alloc: Global, piece: usize) -> Result<Session, NoMemory> {
        let handle = Handle::create(alloc)?;
        Ok(Session {
            alloc,
            handle,
            told: Told::new(alloc),
            state: State::Created,
            piece,
        })
    }

    /// Takes steps, and tells each state that they come to.
    pub fn play(&mut self, steps: &[Step]) -> Result<(), NoMemory> {
        for step in steps {
            self.take(step)?;
            let state = self.handle.state();
            if state != self.state {
                self.told.state(state)?;
                self.state = state;
            }
        }
        Ok(())
    }

    fn take(&mut self, step: &Step) -> Result<(), NoMemory> {
        match *step {
            Step::Sets(setting) => self.set(setting),
            Step::Start => self.start(),
            Step::Comes(bytes) => self.come(bytes),
            Step::Repeats(bytes, count) => self.repeat(bytes, count),
            Step::Fronts(bytes) => self.front(bytes),
            Step::Placed(bytes) => self.come_in_place(bytes),
            Step::Sends(bytes) => self.send(bytes, usize::MAX),
            Step::SendsFront(bytes, most) => self.send(bytes, most),
            Step::Goes(parts) => {
                self.go(parts);
                Ok(())
            }
            Step::Asks(kind, length, offset, flags) => self.ask(kind, length, offset, flags),
            Step::Reads(count) => self.read_often(count),
            Step::Retires(length) => self.retire(length),
            Step::ReadsChunks(length, offset) => self.read_chunks(length, offset),
            Step::Writes(bytes, offset, flags) => self.write(bytes, offset, flags),
            Step::Flags(kind) => self.flags(kind),
            Step::Opts(opt) => self.opt(opt),
            Step::OptsAll => self.opt_all(),
            Step::Disconnects => self.disconnect(),
            Step::Ended => {
                self.handle.ended(&mut self.told);
                Ok(())
            }
            Step::LinkFailed => {
                self.handle.link_failed(&mut self.told);
                Ok(())
            }
            Step::Takes(cookie) => self.take_result(cookie),
            Step::Failure(cookie) => self.tell_failure(cookie),
            Step::Tells(what) => self.tell(what),
        }
    }

    fn start(&mut self) -> Result<(), NoMemory> {
        let answer = self.handle.start();
        self.told.setting(answer)
    }

    fn set(&mut self, setting: Setting) -> Result<(), NoMemory> {
        let answer = match setting {
            Setting::OptMode(on) => self.handle.set_opt_mode(on),
            Setting::Structured(on) => self.handle.set_request_structured_replies(on),
            Setting::Extended(on) => self.handle.set_request_extended_headers(on),
            Setting::Strict(bits) => return self.set_strict(bits),
            Setting::Contexts(count) => return self.add_contexts(count),
            Setting::Name(name) => {
                let name = text_of(self.alloc, name)?;
                self.handle.set_export_name(name)
            }
        };
        self.told.setting(answer)
    }

    fn set_strict(&mut self, bits: u32) -> Result<(), NoMemory> {
        if let Err(StrictFault::Unknown(unknown)) = self.handle.set_strict_mode(bits) {
            self.told.number("unknown", u64::from(unknown))?;
        }
        Ok(())
    }

    fn add_contexts(&mut self, count: usize) -> Result<(), NoMemory> {
        for _ in 0..count {
            let name = text_of(self.alloc, b"base:allocation")?;
            let answer = self.handle.add_meta_context(name);
            self.told.setting(answer)?;
        }
        Ok(())
    }

    /// Hands in bytes in pieces, where the handle reads.
    fn come(&mut self, bytes: &[u8]) -> Result<(), NoMemory> {
        for piece in bytes.chunks(self.piece.max(1)) {
            self.feed(piece)?;
        }
        Ok(())
    }

    /// Hands in bytes, and once more those that found no memory.
    pub fn feed(&mut self, bytes: &[u8]) -> Result<(), NoMemory> {
        if self.handle.direction() == 0 {
            return Ok(());
        }
        match self.handle.arrive(bytes, &mut self.told) {
            Ok(()) => Ok(()),
            Err(short) => self.feed_again(&bytes[short.taken..]),
        }
    }

    fn feed_again(&mut self, bytes: &[u8]) -> Result<(), NoMemory> {
        if self.handle.direction() == 0 {
            return Ok(());
        }
        match self.handle.arrive(bytes, &mut self.told) {
            Ok(()) => Ok(()),
            Err(_) => Err(NoMemory),
        }
    }

    fn repeat(&mut self, bytes: &[u8], count: usize) -> Result<(), NoMemory> {
        for _ in 0..count {
            self.feed(bytes)?;
        }
        Ok(())
    }

    fn front(&mut self, bytes: &[u8]) -> Result<(), NoMemory> {
        if let Some((last, front)) = bytes.split_last() {
            self.come(front)?;
            self.told.word("last")?;
            self.feed(&[*last])?;
        }
        Ok(())
    }

    fn come_in_place(&mut self, bytes: &[u8]) -> Result<(), NoMemory> {
        let mut placed: u64 = 0;
        for byte in bytes {
            if self.put_in_place(*byte) {
                placed = placed.saturating_add(1);
            } else {
                self.feed(&[*byte])?;
            }
        }
        self.told.number("placed", placed)?;
        Ok(())
    }

    /// Whether the handle had a place for this byte.
    fn put_in_place(&mut self, byte: u8) -> bool {
        let place = self.handle.place();
        if place.is_empty() {
            return false;
        }
        place[0] = byte;
        self.handle.placed(1);
        true
    }

    fn send(&mut self, wanted: &[u8], most: usize) -> Result<(), NoMemory> {
        let out = self.handle.out();
        if out != wanted {
            self.told.bytes("sends", out)?;
        }
        let count = out.len().min(most);
        self.handle.wrote(count);
        Ok(())
    }

    fn go(&mut self, parts: usize) {
        for _ in 0..parts {
            let count = self.handle.out().len();
            self.handle.wrote(count);
        }
    }

    fn ask(&mut self, kind: Kind, length: u64, offset: u64, flags: u32) -> Result<(), NoMemory> {
        let answer = self.issue(kind, length, offset, flags)?;
        self.tell_answer(answer)
    }

    fn issue(
        &mut self,
        kind: Kind,
        length: u64,
        offset: u64,
        flags: u32,
    ) -> Result<Result<u64, IssueFault<Keeper>>, NoMemory> {
        let handle = &mut self.handle;
        let told = &mut self.told;
        let done = Keeper::Keeps;
        Ok(match kind {
            Kind::Read => {
                let buf = Vec::from_elem(self.alloc, 0xff, length as usize)?;
                handle.aio_pread(buf, offset, done, flags, told)
            }
            Kind::Write => {
                let buf = Vec::from_elem(self.alloc, 0xaa, length as usize)?;
                handle.aio_pwrite(buf, offset, done, flags, told)
            }
            Kind::Flush => handle.aio_flush(done, flags, told),
            Kind::Trim => handle.aio_trim(length, offset, done, flags, told),
            Kind::Cache => handle.aio_cache(length, offset, done, flags, told),
            Kind::Zero => handle.aio_zero(length, offset, done, flags, told),
            Kind::BlockStatus => handle.aio_block_status(length, offset, done, done, flags, told),
        })
    }

    fn retire(&mut self, length: usize) -> Result<(), NoMemory> {
        let buf = Vec::from_elem(self.alloc, 0xff, length)?;
        let answer = self
            .handle
            .aio_pread(buf, 0, Keeper::Retires, 0, &mut self.told);
        self.tell_answer(answer)
    }

    fn read_chunks(&mut self, length: usize, offset: u64) -> Result<(), NoMemory> {
        let buf = Vec::from_elem(self.alloc, 0xff, length)?;
        let keeps = Keeper::Keeps;
        let answer = self
            .handle
            .aio_pread_structured(buf, offset, keeps, keeps, 0, &mut self.told);
        self.tell_answer(answer)
    }

    fn write(&mut self, bytes: &[u8], offset: u64, flags: u32) -> Result<(), NoMemory> {
        let buf = Vec::from_slice(self.alloc, bytes)?;
        let answer = self
            .handle
            .aio_pwrite(buf, offset, Keeper::Keeps, flags, &mut self.told);
        self.tell_answer(answer)
    }

    fn tell_answer(&mut self, answer: Result<u64, IssueFault<Keeper>>) -> Result<(), NoMemory> {
        match answer {
            Ok(cookie) => self.told.number("cookie", cookie)?,
            Err(IssueFault::Refused { why, buf }) => self.told.refusal(why, buf.as_slice())?,
            Err(IssueFault::NoMemory { .. }) => return Err(NoMemory),
        }
        Ok(())
    }

    fn read_often(&mut self, count: u64) -> Result<(), NoMemory> {
        let mut last = 0;
        self.told.is_mute = true;
        for _ in 0..count {
            if let Ok(cookie) = self.issue(Kind::Read, 1, 0, 0)? {
                last = cookie;
            }
        }
        self.told.is_mute = false;
        self.told.number("cookies", last)?;
        Ok(())
    }

    fn flags(&mut self, kind: Kind) -> Result<(), NoMemory> {
        let length = if kind == Kind::Flush { 0 } else { 1 };
        let mut taken = 0;
        self.told.is_mute = true;
        for bit in 0..32u32 {
            let flag = 1u32 << bit;
            match self.issue(kind, length, 0, flag)? {
                Ok(_) => taken |= flag,
                Err(
                    IssueFault::Refused {
                        why: Why::BadFlags(bad),
                        buf: _,
                    },
                ) if bad == flag => {}
                Err(_) => self.told.number("other", u64::from(flag))?,
            }
        }
        self.told.is_mute = false;
        self.told.number("flags", u64::from(taken))?;
        Ok(())
    }

    fn call(&mut self, opt: Opt) -> Result<(), OptFault> {
        match opt {
            Opt::List => self.handle.opt_list(),
            Opt::Info => self.handle.opt_info(),
            Opt::SetContext => self.handle.opt_set_meta_context(),
            Opt::Go => self.handle.opt_go(),
            Opt::Abort => self.handle.opt_abort(),
        }
    }

    fn opt(&mut self, opt: Opt) -> Result<(), NoMemory> {
        let answer = self.call(opt);
        self.told.option(answer)
    }

    fn opt_all(&mut self) -> Result<(), NoMemory> {
        let mut refused = 0u64;
        for opt in OPTS {
            match self.call(opt) {
                Err(OptFault::State(state)) if state == self.state => refused =
                    refused.saturating_add(1),
                answer => self.told.option(answer)?,
            }
        }
        self.told.number("options refused", refused)?;
        Ok(())
    }

    fn disconnect(&mut self) -> Result<(), NoMemory> {
        if let Err(why) = self.handle.aio_disconnect() {
            self.told.refusal(why, &[])?;
        }
        Ok(())
    }

    fn take_result(&mut self, cookie: u64) -> Result<(), NoMemory> {
        let completed = self.handle.command_completed(cookie);
        self.told.completed(&completed)?;
        Ok(())
    }

    fn tell_failure(&mut self, cookie: u64) -> Result<(), NoMemory> {
        let failure = self.handle.failure(cookie);
        self.told.failure(failure)?;
        Ok(())
    }

    fn tell(&mut self, what: What) -> Result<(), NoMemory> {
        match what {
            What::Answer => push_opt_answer(self.told.item()?, self.handle.opt_answer())?,
            What::Listed => return self.tell_listed(),
            What::Info => push_info(self.told.item()?, self.handle.info())?,
            What::Names => return self.tell_names(),
            What::Direction => self
                .told
                .number("direction", u64::from(self.handle.direction()))?,
            What::Place => {
                let size = self.handle.place().len();
                self.told.number("place", size as u64)?;
            }
            What::Next => push_peeked(self.told.item()?, self.handle.peek())?,
            What::Log => return self.tell_log(),
            What::Strict => self
                .told
                .number("strict", u64::from(self.handle.strict_mode()))?,
            What::InFlight => self
                .told
                .number("in flight", self.handle.in_flight() as u64)?,
        }
        Ok(())
    }

    fn tell_listed(&mut self) -> Result<(), NoMemory> {
        for listed in self.handle.listed().as_slice() {
            self.told.listed(listed)?;
        }
        Ok(())
    }

    fn tell_names(&mut self) -> Result<(), NoMemory> {
        if let Some(info) = self.handle.info() {
            self.told
                .names(info.name.as_ref(), info.description.as_ref())?;
        }
        Ok(())
    }

    fn tell_log(&mut self) -> Result<(), NoMemory> {
        for note in self.handle.log() {
            self.told.note(note)?;
        }
        self.handle.clear_log();
        Ok(())
    }

    /// Closes, and gives all that was told: at its end how many callbacks were admitted and how many freed.
    pub fn close(self) -> Result<String, NoMemory> {
        let Session {
            alloc: _,
            handle,
            told,
            state: _,
            piece: _,
        } = self;
        let mut told = told;
        told.is_mute = true;
        let closed = handle.close(&mut told);
        if told.is_short {
            return Err(NoMemory);
        }
        told.callbacks(closed.opened, closed.freed)?;
        let Told {
            text,
            is_mute: _,
            is_short: _,
        } = told;
        Ok(text)
    }
}

fn text_of(alloc: Global, bytes: &[u8]) -> Result<Text, NoMemory> {
    match Text::from_bytes(alloc, bytes) {
        Ok(text) => Ok(text),
        Err(_) => Err(NoMemory),
    }
}

/// A play, and what it tells however its bytes are cut.
#[derive(Clone, Copy)]
pub struct Row<'a> {
    pub shows: &'a str,
    /// The steps by which it begins.
    pub begins: &'a [Step<'a>],
    pub steps: &'a [Step<'a>],
    pub told: &'a str,
}

/// In pieces of how many bytes they come: whole, one by one, and cut within heads.
const PIECES: [usize; 3] = [usize::MAX, 1, 23];

impl Row<'_> {
    fn play(&self, alloc: Global, piece: usize) -> Result<String, NoMemory> {
        let mut session = Session::new(alloc, piece)?;
        let begun = session.play(self.begins);
        let played = session.play(self.steps);
        // A session must be closed, whatever came of its steps.
        let told = session.close();
        begun?;
        played?;
        told
    }

    /// Adds to the faults where something else is told.
    fn push_fault(&self, alloc: Global, faults: &mut String, piece: usize) -> Result<(), NoMemory> {
        let told = self.play(alloc, piece)?;
        if told.as_str() != self.told {
            faults.push_str(self.shows)?;
            faults.push_str(": ")?;
            faults.push_str(told.as_str())?;
            faults.push_str("\n")?;
        }
        Ok(())
    }
}

/// Adds to the faults what a row tells otherwise than it says, in each way.
fn push_row(row: &Row<'static>, alloc: Global, faults: &mut String) -> Result<(), NoMemory> {
    for piece in PIECES {
        row.push_fault(alloc, faults, piece)?;
    }
    Ok(())
}

/// Adds to the faults what rows tell otherwise than they say.
fn push_rows(
    rows: &'static [Row<'static>],
    alloc: Global,
    faults: &mut String,
) -> Result<(), NoMemory> {
    for row in rows {
        push_row(row, alloc, faults)?;
    }
    Ok(())
}

fn none(rt: &impl Abort, faults: &str) {
    assert_eq!(rt; faults, "");
}

/// Plays each row in each way.
pub fn play_all(rt: &impl Abort, alloc: Global, rows: &'static [Row<'static>]) -> Result<(), Fail> {
    let mut faults = String::new(alloc);
    push_rows(rows, alloc, &mut faults)?;
    none(rt, faults.as_str());
    Ok(())
}
