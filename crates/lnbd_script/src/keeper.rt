//! The callbacks of a script's commands: what they answer, and what they leave in their world.

ghost use Rattle.std.specs.Prelude.{◌≡◌, ◌<◌, ◌||◌, ◌++◌, ◌∷◌, [], Bool, IfOk, List, OnOk, codes, false, get_or, set, string_bytes, true, vec_capacity, vec_len};
ghost use Rattle.lnbd_texts.specs.Heard.{chunk_text, complete_text, extents_text};
ghost use Rattle.lnbd_script.specs.Kept.{Heeds, Notes, Tally, failure_of, fails_first, heard_of, is_faulty, is_own, joined, keeper_of, marking, no_tally, or_first, origin_of, settling, tally_of, told_by, verdict_of};
ghost use Rattle.lnbd_script.specs.KeptLaws.{heeds_none, heeds_on};
ghost use Rattle.lnbd_script.specs.Lines.{HasBytes};
ghost use Rattle.lnbd_script.specs.Steps.{IsWorld};

use crate::issuing::bytes_of;
use crate::spare::keep_buffer;
use lnbd_callbacks::{Caller, Heard, Verdict};
use lnbd_lines::{Command, Manner};
use lnbd_model::{Bytes, ENOTCONN, EPROTO, Extent, Failure, NoMemory, Origin};
use lnbd_texts::{push_chunk, push_complete, push_extents};
use std::alloc::{AllocError, Global};
use std::str::from_utf8;

/// What the callbacks of a script's commands were told, and how many of them were freed.
#[derive(Drop)]
pub(crate) struct Heeded {
    /// The first error that the peer told a command.
    pub(crate) error: Option<u32>,
    /// Whether a command failed by faulty content.
    pub(crate) faulty: bool,
    /// Of each command that was issued, by its number, whether its first error is its own callback's.
    pub(crate) failed: Vec<bool>,
    /// Whether lines are kept: the script asks for them, and each found memory.
    pub(crate) hears: bool,
    /// A line for each call since the last line `heard`.
    pub(crate) heard: String,
    /// How many callbacks were freed.
    pub(crate) freed: u64,
    /// Buffers of commands that are over, for reads to come.
    pub(crate) spare: Vec<Vec<u8>>,
}

/// The first of two errors, where there is one.
fn or_first(first: Option<u32>, later: Option<u32>) -> Option<u32>
    ensures { result ≡ or_first first later }
{
    match first {
        None => later,
        Some(error) => Some(error),
    }
}

/// Where the error of a completed command came from, if `own` says whether its own callback answered it first.
fn origin_of(own: bool, error: u32) -> Origin
    ensures { result ≡ origin_of own error }
{
    if own {
        Origin::Callback
    } else if error == EPROTO {
        Origin::Content
    } else if error == ENOTCONN {
        Origin::Lost
    } else {
        Origin::Told
    }
}

/// How a completed command failed, if it did.
fn failure_of(own: bool, error: u32) -> Option<Failure>
    ensures { result ≡ failure_of own error }
{
    if error == 0 {
        return None;
    }
    Some(Failure {
        origin: origin_of(own, error),
        error,
    })
}

/// The error that the peer told.
fn told_by(failure: Option<Failure>) -> Option<u32>
    ensures { result ≡ told_by failure }
{
    match failure {
        None => None,
        Some(Failure { origin, error }) => match origin {
            Origin::Told => Some(error),
            Origin::Content | Origin::Callback | Origin::Lost => None,
        },
    }
}

/// Whether a command failed by content at fault.
fn is_faulty(failure: Option<Failure>) -> bool
    ensures { result ≡ is_faulty failure }
{
    match failure {
        None => false,
        Some(Failure { origin, error: _ }) => match origin {
            Origin::Content => true,
            Origin::Told | Origin::Callback | Origin::Lost => false,
        },
    }
}

fn either(a: bool, b: bool) -> bool
    ensures { result ≡ (a || b) }
{
    a || b
}

/// Whether a callback that was told this error is the first to fail its command.
fn fails_first(error: u32, heard: Heard) -> bool
    ensures { result ≡ fails_first error heard }
{
    match heard {
        Heard::Going => false,
        Heard::Fail(_) => error == 0,
    }
}

/// Notes that a command's own callback failed it first.
fn set_own(failed: &mut [bool], command: u64)
    ensures { failed.new ≡ set failed.old command true }
{
    let at = command as usize;
    if at < failed.len() {
        failed[at] = true;
    }
}

/// Whether a command's own callback failed it first.
fn is_own(failed: &[bool], command: u64) -> bool
    ensures { result ≡ is_own command failed.now }
{
    match failed.get(command as usize) {
        Some(own) => *own,
        None => false,
    }
}

/// The line of a piece of a read.
fn push_chunk_line(
    text: &mut String,
    bytes: &[u8],
    offset: u64,
    status: u32,
    error: u32,
) -> Result<(), AllocError>
    ensures { OnOk result (string_bytes text.new ≡ string_bytes text.old ++ (chunk_text bytes.now offset status error ++ codes "\n")) }
{
    push_chunk(text, bytes, offset, status, error)?;
    text.push_str("\n")
}

/// The line of extents of a meta context.
fn push_extents_line(
    text: &mut String,
    context: &[u8],
    offset: u64,
    entries: &[Extent],
    error: u32,
) -> Result<(), AllocError>
    ensures { OnOk result (string_bytes text.new ≡ string_bytes text.old ++ (extents_text context.now offset entries.now error ++ codes "\n")) }
{
    let Ok(name) = from_utf8(context) else {
        // Never: the name of a meta context is text.
        return Err(AllocError);
    };
    push_extents(text, name, offset, entries, error)?;
    text.push_str("\n")
}

/// The line of a completed command.
fn push_complete_line(text: &mut String, error: u32, bytes: &[u8]) -> Result<(), AllocError>
    ensures { OnOk result (string_bytes text.new ≡ string_bytes text.old ++ (complete_text error bytes.now ++ codes "\n")) }
{
    push_complete(text, error, bytes)?;
    text.push_str("\n")
}

impl Heeded {
    /// Nothing was told. Lines are kept, or not.
    pub(crate) fn new(alloc: Global, hears: bool) -> Heeded
        ensures tally { tally_of result ≡ no_tally }
        ensures hears { result.hears ≡ hears }
        ensures heard { string_bytes result.heard ≡ [] }
        ensures freed { result.freed ≡ 0 }
    {
        Heeded {
            error: None,
            faulty: false,
            failed: Vec::new(alloc),
            hears,
            heard: String::new(alloc),
            freed: 0,
            spare: Vec::new(alloc),
        }
    }

    /// Makes room for one command more, and gives its bytes.
    pub(crate) fn prepare(&mut self, alloc: Global, command: &Command) -> Result<Bytes, NoMemory>
        ensures room { OnOk result (vec_len self.new.failed < vec_capacity self.new.failed) }
        ensures bytes { IfOk result (λ bytes. HasBytes command.now bytes) }
        ensures same { IsWorld (λ tally. tally) self.old self.new }
    {
        self.failed.reserve(1)?;
        bytes_of(&mut self.spare, alloc, command)
    }

    /// A command joins, which was issued.
    pub(crate) fn join(&mut self)
        requires room { vec_len self.old.failed < vec_capacity self.old.failed }
        ensures { IsWorld joined self.old self.new }
    {
        self.failed.push_reserved(false);
    }

    /// How many commands were issued.
    pub(crate) fn count(&self) -> u64
        ensures { result ≡ vec_len self.now.failed }
    {
        self.failed.len() as u64
    }

    /// Keeps the line of a piece of a read.
    fn hear_chunk(&mut self, bytes: &[u8], offset: u64, status: u32, error: u32)
        ensures { Notes self.old self.new (λ tally. tally) (chunk_text bytes.now offset status error ++ codes "\n") }
    {
        if !self.hears {
            return;
        }
        match push_chunk_line(&mut self.heard, bytes, offset, status, error) {
            Ok(()) => {}
            Err(_) => self.hears = false,
        }
    }

    /// Keeps the line of extents.
    fn hear_extents(&mut self, context: &[u8], offset: u64, entries: &[Extent], error: u32)
        ensures { Notes self.old self.new (λ tally. tally) (extents_text context.now offset entries.now error ++ codes "\n") }
    {
        if !self.hears {
            return;
        }
        match push_extents_line(&mut self.heard, context, offset, entries, error) {
            Ok(()) => {}
            Err(_) => self.hears = false,
        }
    }

    /// Keeps the line of a completion.
    fn hear_completion(&mut self, error: u32, bytes: &Bytes)
        ensures { Notes self.old self.new (λ tally. tally) (complete_text error bytes.now ++ codes "\n") }
    {
        if !self.hears {
            return;
        }
        match push_complete_line(&mut self.heard, error, bytes.as_slice()) {
            Ok(()) => {}
            Err(_) => self.hears = false,
        }
    }

    /// Notes that a command's own callback failed it first, if it did.
    fn mark(&mut self, first: bool, command: u64)
        ensures { Notes self.old self.new (λ tally. marking first command tally) [] }
    {
        if first {
            set_own(&mut self.failed, command);
        }
    }

    /// Notes what a completed command came to.
    fn settle(&mut self, command: u64, error: u32)
        ensures { Notes self.old self.new (λ tally. settling command error tally) [] }
    {
        let own = is_own(&self.failed, command);
        let failure = failure_of(own, error);
        self.error = or_first(self.error, told_by(failure));
        self.faulty = either(self.faulty, is_faulty(failure));
    }

    /// What a completion answers. The buffer of a command that it retires is kept for a read to come.
    fn give(&mut self, retires: bool, error: u32, buf: Bytes) -> Verdict
        ensures verdict { result ≡ verdict_of retires error buf }
        ensures notes { Notes self.old self.new (λ tally. tally) [] }
    {
        match retires {
            false => Verdict::Keep { error, buf },
            true => {
                keep_buffer(&mut self.spare, buf);
                Verdict::Retire
            }
        }
    }
}

/// A callback of a script's command.
#[derive(Clone, Copy, Debug, PartialEq, Eq)]
pub(crate) struct Keeper {
    /// The number of its command: how many were issued before it. Both callbacks of a command have this number.
    pub(crate) command: u64,
    /// Whether a completion retires the command.
    pub(crate) retires: bool,
    /// The error by which a chunk or extents callback fails the command.
    pub(crate) fails: Option<u32>,
}

impl Keeper {
    /// A callback of the command of this number.
    pub(crate) fn new(command: u64, manner: Manner) -> Keeper
        ensures { result ≡ keeper_of command manner }
    {
        Keeper {
            command,
            retires: matches!(manner, Manner::Retire),
            fails: match manner {
                Manner::Fail { error } => Some(error),
                Manner::Keep | Manner::Retire => None,
            },
        }
    }

    /// What a chunk or extents callback answers.
    fn answer(&self) -> Heard
        ensures { result ≡ heard_of self.now.fails }
    {
        match self.fails {
            None => Heard::Going,
            Some(error) => Heard::Fail(error),
        }
    }
}

impl Caller for Keeper {
    type World = Heeded;

    ghost steps = { λ before calls after. Heeds before calls after };

    fn chunk(
        &self,
        world: &mut Heeded,
        bytes: &[u8],
        offset: u64,
        status: u32,
        error: u32,
    ) -> Heard {
        let heard = self.answer();
        world.hear_chunk(bytes, offset, status, error);
        world.mark(fails_first(error, heard), self.command);
        heard
    }

    fn extents(
        &self,
        world: &mut Heeded,
        context: &[u8],
        offset: u64,
        entries: &[Extent],
        error: u32,
    ) -> Heard {
        let heard = self.answer();
        world.hear_extents(context, offset, entries, error);
        world.mark(fails_first(error, heard), self.command);
        heard
    }

    fn complete(&self, world: &mut Heeded, error: u32, buf: Bytes) -> Verdict {
        world.hear_completion(error, &buf);
        world.settle(self.command, error);
        world.give(self.retires, error, buf)
    }

    fn free(self, world: &mut Heeded) {
        world.freed = world.freed.saturating_add(1);
    }

    ghost empty = { λ world. heeds_none world };

    ghost append = { λ a b c first second one two. heeds_on a b c first second one two };
}
