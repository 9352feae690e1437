//! What the steps of a play answer and what its callbacks hear, as one text. No handle is called here.

use lnbd_callbacks::{Caller, Heard, Verdict};
use lnbd_handle::{Completed, OptFault, SetFault};
use lnbd_model::{Bytes, Extent, Failure, Listed, NoMemory, Note, Origin, State, Text, Why};
use lnbd_texts::{
    push_chunk, push_complete, push_completed, push_extents, push_note, push_refusal,
    push_refused_state, push_runs, push_state,
};
use std::alloc::{AllocError, Global};
use std::str::from_utf8;

/// A caller that keeps what it is told to keep, or retires each command. It tells what it hears.
#[derive(Clone, Copy)]
pub enum Keeper {
    Keeps,
    Retires,
}

/// What was told so far, a semicolon between two items.
#[derive(Drop)]
pub struct Told {
    pub text: String,
    /// Whether callbacks say nothing.
    pub is_mute: bool,
    /// Whether memory ran out at an item.
    pub is_short: bool,
}

impl Told {
    pub fn new(alloc: Global) -> Told {
        Told {
            text: String::new(alloc),
            is_mute: false,
            is_short: false,
        }
    }

    /// The text for one more item, which is to be pushed.
    pub fn item(&mut self) -> Result<&mut String, AllocError> {
        if !self.text.is_empty() {
            self.text.push_str("; ")?;
        }
        Ok(&mut self.text)
    }

    /// An item of one word and a number.
    pub fn number(&mut self, word: &str, number: u64) -> Result<(), AllocError> {
        let text = self.item()?;
        write!(text, "{word} {number}")
    }

    pub fn word(&mut self, word: &str) -> Result<(), AllocError> {
        self.item()?.push_str(word)
    }

    pub fn state(&mut self, state: State) -> Result<(), AllocError> {
        push_state(self.item()?, state)
    }

    /// Bytes behind a word.
    pub fn bytes(&mut self, word: &str, bytes: &[u8]) -> Result<(), AllocError> {
        let text = self.item()?;
        text.push_str(word)?;
        text.push_str(" ")?;
        push_runs(text, bytes)
    }

    /// A refusal, with what was handed back.
    pub fn refusal(&mut self, why: Why, back: &[u8]) -> Result<(), AllocError> {
        let text = self.item()?;
        push_refusal(text, why)?;
        text.push_str(" ")?;
        push_runs(text, back)
    }

    /// How many callbacks were admitted, and how many freed.
    pub fn callbacks(&mut self, opened: u64, freed: u64) -> Result<(), AllocError> {
        let text = self.item()?;
        write!(text, "callbacks {opened} {freed}")
    }

    pub fn completed(&mut self, completed: &Completed) -> Result<(), AllocError> {
        push_completed(self.item()?, completed)
    }

    /// Where the error of a command came from.
    pub fn failure(&mut self, failure: Option<Failure>) -> Result<(), AllocError> {
        let Some(failure) = failure else {
            return self.word("no failure");
        };
        let origin = match failure.origin {
            Origin::Told => "told",
            Origin::Content => "content",
            Origin::Callback => "callback",
            Origin::Lost => "lost",
        };
        self.number(origin, u64::from(failure.error))
    }

    /// A note, with what its callback answered.
    pub fn note(&mut self, note: &Note) -> Result<(), AllocError> {
        let text = self.item()?;
        push_note(text, note)?;
        match note {
            Note::Chunk { heard, .. } => write!(text, " {heard}"),
            Note::Extents { heard, .. } => write!(text, " {heard}"),
            Note::Completed { kept, .. } => text.push_str(if *kept { " kept" } else { " retired" }),
            Note::Freed { .. } => Ok(()),
        }
    }

    pub fn listed(&mut self, listed: &Listed) -> Result<(), AllocError> {
        self.names(Some(&listed.name), Some(&listed.description))
    }

    /// A name and a description, each where it was told.
    pub fn names(
        &mut self,
        name: Option<&Text>,
        description: Option<&Text>,
    ) -> Result<(), AllocError> {
        let text = self.item()?;
        text.push_str(shown(name))?;
        text.push_str(": ")?;
        text.push_str(shown(description))
    }

    /// Why a setting was refused; nothing where it wasn't.
    pub fn setting(&mut self, answer: Result<(), SetFault>) -> Result<(), NoMemory> {
        match answer {
            Ok(()) => {}
            Err(SetFault::NoMemory) => return Err(NoMemory),
            Err(SetFault::State(state)) => push_refused_state(self.item()?, state)?,
            Err(SetFault::TooMany(most)) => self.number("too many", u64::from(most))?,
        }
        Ok(())
    }

    /// Why an option was not asked; nothing where it was.
    pub fn option(&mut self, answer: Result<(), OptFault>) -> Result<(), NoMemory> {
        match answer {
            Ok(()) => {}
            Err(OptFault::NoMemory) => return Err(NoMemory),
            Err(OptFault::State(state)) => push_refused_state(self.item()?, state)?,
            Err(OptFault::NotStructured) => self.word("not structured")?,
        }
        Ok(())
    }

    fn hear_chunk(
        &mut self,
        bytes: &[u8],
        offset: u64,
        status: u32,
        error: u32,
    ) -> Result<(), AllocError> {
        if self.is_mute {
            return Ok(());
        }
        push_chunk(self.item()?, bytes, offset, status, error)
    }

    fn hear_extents(
        &mut self,
        context: &[u8],
        offset: u64,
        entries: &[Extent],
        error: u32,
    ) -> Result<(), AllocError> {
        if self.is_mute {
            return Ok(());
        }
        let name = match from_utf8(context) {
            Ok(name) => name,
            Err(_) => "?",
        };
        push_extents(self.item()?, name, offset, entries, error)
    }

    fn hear_completion(&mut self, error: u32, buf: &Bytes) -> Result<(), AllocError> {
        if self.is_mute {
            return Ok(());
        }
        push_complete(self.item()?, error, buf.as_slice())
    }

    fn hear_free(&mut self) -> Result<(), AllocError> {
        if self.is_mute {
            return Ok(());
        }
        self.word("free")
    }

    /// Notes that memory ran out.
    fn keep(&mut self, heard: Result<(), AllocError>) {
        if heard.is_err() {
            self.is_short = true;
        }
    }
}

fn shown(text: Option<&Text>) -> &str {
    match text {
        Some(text) => text.as_str(),
        None => "-",
    }
}

impl Caller for Keeper {
    type World = Told;

    ghost steps = { λ before calls after. Unit {0} };

    fn chunk(&self, world: &mut Told, bytes: &[u8], offset: u64, status: u32, error: u32) -> Heard {
        let heard = world.hear_chunk(bytes, offset, status, error);
        world.keep(heard);
        Heard::Going
    }

    fn extents(
        &self,
        world: &mut Told,
        context: &[u8],
        offset: u64,
        entries: &[Extent],
        error: u32,
    ) -> Heard {
        let heard = world.hear_extents(context, offset, entries, error);
        world.keep(heard);
        Heard::Going
    }

    fn complete(&self, world: &mut Told, error: u32, buf: Bytes) -> Verdict {
        let heard = world.hear_completion(error, &buf);
        world.keep(heard);
        match self {
            Keeper::Keeps => Verdict::Keep { error, buf },
            Keeper::Retires => Verdict::Retire,
        }
    }

    fn free(self, world: &mut Told) {
        let heard = world.hear_free();
        world.keep(heard);
    }

    ghost empty = { λ world. tt };

    ghost append = { λ a b c first second one two. tt };
}
