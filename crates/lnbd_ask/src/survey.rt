//! The callbacks of block status requests, and what they keep of what is told. How much of it counts is not said here.

ghost use Rattle.std.specs.Prelude.{◌≡◌, ◌++◌, [], false, bytes_eq, if◌then◌else◌};
ghost use Rattle.lnbd_ask.specs.Surveys.{Surveys};
ghost use Rattle.lnbd_ask.specs.SurveyLaws.{surveys_none, surveys_on};

use lnbd_callbacks::{Caller, Heard, Verdict};
use lnbd_model::{Bytes, Extent, Text};
use std::alloc::Global;

/// What is told of one meta context.
#[derive(Debug, Drop)]
pub(crate) struct Survey {
    /// The name of the context.
    pub(crate) context: Text,
    /// The extents that were told for it.
    pub(crate) told: Vec<Extent>,
    /// The error of the last command that completed, 0 for none.
    pub(crate) error: u32,
    /// Whether memory ran out for what was told.
    pub(crate) short: bool,
}

impl Survey {
    /// Nothing is told of this context yet.
    pub(crate) fn new(alloc: Global, context: Text) -> Survey
        ensures context { result.context ≡ context }
    {
        Survey {
            context,
            told: Vec::new(alloc),
            error: 0,
            short: false,
        }
    }

    /// Forgets what was told.
    pub(crate) fn clear(&mut self)
        ensures context { self.new.context ≡ self.old.context }
        ensures told { self.new.told.items ≡ [] }
        ensures error { self.new.error ≡ 0 }
    {
        self.told.clear();
        self.error = 0;
        self.short = false;
    }

    /// Keeps extents that are told of the context of this name, if it is the one.
    fn hear(&mut self, name: &[u8], entries: &[Extent])
        ensures context { self.new.context ≡ self.old.context }
        ensures error { self.new.error ≡ self.old.error }
        ensures told { self.new.short ≡ false → (self.old.short ≡ false) × (self.new.told.items ≡ self.old.told.items ++ (if bytes_eq name.now self.old.context then entries.now else [])) }
    {
        if name == self.context.as_bytes() {
            match self.told.extend_from_slice(entries) {
                Ok(()) => {}
                Err(_) => self.short = true,
            }
        }
    }
}

/// A callback that keeps what it is told.
#[derive(Clone, Copy, Debug, PartialEq, Eq)]
pub(crate) struct Surveyor;

impl Caller for Surveyor {
    type World = Survey;

    ghost steps = { λ before calls after. Surveys before calls after };

    fn chunk(&self, _: &mut Survey, _: &[u8], _: u64, _: u32, _: u32) -> Heard {
        Heard::Going
    }

    fn extents(
        &self,
        world: &mut Survey,
        context: &[u8],
        _: u64,
        entries: &[Extent],
        _: u32,
    ) -> Heard {
        world.hear(context, entries);
        Heard::Going
    }

    fn complete(&self, world: &mut Survey, error: u32, _: Bytes) -> Verdict {
        world.error = error;
        Verdict::Retire
    }

    fn free(self, _: &mut Survey) {}

    ghost empty = { λ world. surveys_none world };

    ghost append = { λ a b c first second one two. surveys_on a b c first second one two };
}
