//! Handles with the world of their callers and their wires, and what is done with them as rows of data.

use crate::peer::address;
use lnbd_callbacks::{Caller, Heard, Verdict};
use lnbd_handle::{Completed, Handle};
use lnbd_link::{ListWires, Wires};
use lnbd_model::{Breach, Bytes, Cause, Extent, NoMemory, State};
use lnbd_poll::{Handles, Turn};
use std::alloc::{AllocError, Global};

/// A caller that keeps each result.
#[derive(Clone, Copy)]
pub struct Keeper;

impl Caller for Keeper {
    type World = u64;

    ghost steps = { λ before calls after. Unit {0} };

    fn chunk(&self, _: &mut u64, _: &[u8], _: u64, _: u32, _: u32) -> Heard {
        Heard::Going
    }

    fn extents(&self, _: &mut u64, _: &[u8], _: u64, _: &[Extent], _: u32) -> Heard {
        Heard::Going
    }

    fn complete(&self, world: &mut u64, error: u32, buf: Bytes) -> Verdict {
        *world = world.saturating_add(1);
        Verdict::Keep { error, buf }
    }

    fn free(self, world: &mut u64) {
        *world = world.saturating_add(1);
    }

    ghost empty = { λ world. tt };

    ghost append = { λ a b c first second one two. tt };
}

/// What is done with the handles, which are named by their index.
#[derive(Clone, Copy)]
pub enum Deed {
    /// Connects once more, and holds a new handle for the link, started or not: its index.
    Join { starts: bool },
    /// A turn over all.
    Turn,
    /// The part of one.
    Part(usize),
    /// A read of its first byte: the cookie.
    Pread(usize),
    /// What its first command came to.
    Done(usize),
    State(usize),
    /// Takes it out, and closes it: the number of its link.
    Take(usize),
    /// A pause: the count of waiting.
    Pause,
    /// How many there are.
    Count,
}

/// Handles with the world of their callers and their wires.
pub struct Party {
    alloc: Global,
    world: u64,
    wires: ListWires,
    handles: Handles<Keeper>,
}

fn push_number(text: &mut String, number: u64) -> Result<(), AllocError> {
    write!(text, "{number}")
}

fn push_turn(text: &mut String, turn: Result<Turn, NoMemory>) -> Result<(), AllocError> {
    match turn {
        Ok(Turn::Moved(n)) => push_number(text, n as u64),
        Ok(Turn::Still) => text.push_str("still"),
        Err(_) => text.push_str("no memory"),
    }
}

/// The word of a state.
pub fn word_of(state: State) -> &'static str {
    match state {
        State::Created => "created",
        State::Negotiating => "negotiating",
        State::Ready => "ready",
        State::Dead(Cause::Broke(Breach::UnknownCookie)) => "dead by a strange cookie",
        State::Dead(Cause::Ended) => "dead by the end",
        _ => "elsewhere",
    }
}

/// What a command came to.
fn push_completed(text: &mut String, completed: &Completed) -> Result<(), AllocError> {
    match completed {
        Completed::Done(buf) => match buf.as_slice().first() {
            Some(byte) => push_number(text, u64::from(*byte)),
            None => text.push_str("empty"),
        },
        Completed::Failed { .. } => text.push_str("failed"),
        Completed::NotYet => text.push_str("not yet"),
        Completed::NoSuchCookie => text.push_str("no such cookie"),
    }
}

impl Party {
    /// No handles yet.
    pub fn of(alloc: Global, wires: ListWires) -> Party {
        Party {
            alloc,
            world: 0,
            wires,
            handles: Handles::new(alloc),
        }
    }

    /// The index of a new handle for a new link.
    fn join(&mut self, starts: bool) -> Option<usize> {
        let to = address(self.alloc, b"ab").ok()?;
        let link = self.wires.connect(&to).ok()?;
        if self.handles.len() >= 64 {
            return None;
        }
        let mut handle = Handle::create(self.alloc).ok()?;
        let started = !starts || handle.start().is_ok();
        match self.handles.add(link, handle) {
            Ok(index) => { if started { Some(index) } else { None } }
            Err(handle) => {
                handle.close(&mut self.world);
                None
            }
        }
    }

    /// The cookie of a read of the first byte, and 0 where it is refused or there is no memory.
    fn pread(&mut self, index: usize) -> u64 {
        let Ok(buf) = Vec::from_slice(self.alloc, &[0xff]) else {
            return 0;
        };
        if index >= self.handles.len() {
            return 0;
        }
        let handle = self.handles.get_mut(index);
        handle
            .aio_pread(buf, 0, Keeper, 0, &mut self.world)
            .unwrap_or(0)
    }

    /// Takes a handle out and closes it. The number of its link.
    fn take(&mut self, index: usize) -> u32 {
        if index >= self.handles.len() {
            return u32::MAX;
        }
        let (link, handle) = self.handles.take(index);
        handle.close(&mut self.world);
        link
    }

    /// Does this, and appends its answer.
    fn act(&mut self, text: &mut String, deed: Deed) -> Result<(), AllocError> {
        let count = self.handles.len();
        match deed {
            Deed::Join { starts } => match self.join(starts) {
                Some(index) => push_number(text, index as u64),
                None => text.push_str("none"),
            },
            Deed::Turn => push_turn(text, self.handles.turn(&mut self.wires, &mut self.world)),
            Deed::Part(index) if index < count => push_turn(
                text,
                self.handles
                    .take_part(index, &mut self.wires, &mut self.world),
            ),
            Deed::Pread(index) => push_number(text, self.pread(index)),
            Deed::Done(index) if index < count => {
                push_completed(text, &self.handles.get_mut(index).command_completed(1))
            }
            Deed::State(index) if index < count => {
                text.push_str(word_of(self.handles.get(index).state()))
            }
            Deed::Take(index) => push_number(text, u64::from(self.take(index))),
            Deed::Pause => {
                self.handles.pause(&mut self.wires);
                push_number(text, self.wires.idles())
            }
            Deed::Count => push_number(text, count as u64),
            _ => text.push_str("no handle"),
        }
    }

    /// Does these, and closes all that is left. What each answered, and then how many were closed and how many callbacks they
    /// had, a line each.
    pub fn play(self, deeds: &[Deed]) -> Result<String, AllocError> {
        let mut party = self;
        let mut text = String::new(party.alloc);
        let mut played = Ok(());
        for deed in deeds {
            played = played
                .and(party.act(&mut text, *deed))
                .and(text.push_str(", "));
        }
        let Party {
            alloc: _,
            mut world,
            wires: _,
            handles,
        } = party;
        let closed = handles.close(&mut world);
        played?;
        for one in &closed {
            push_number(&mut text, one.opened)?;
            text.push_str(" callbacks, ")?;
        }
        Ok(text)
    }
}
