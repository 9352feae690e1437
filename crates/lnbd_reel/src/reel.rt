//! What was begun and is not shown yet, and what was told and is not begun.

ghost use Rattle.std.specs.Prelude.{◌≡◌, ◌++◌, ◌∷◌, [], IfNone, OnOk, length, option_to_list, slice_get};

use std::alloc::{AllocError, Global};
use std::collections::VecDeque;
use std::marker::Model;

/// A part of a range: told as zero, or what the read of this cookie tells.
#[derive(Clone, Copy, Debug, PartialEq, Eq)]
pub struct Part {
    /// Its first position.
    pub start: u64,
    /// How many bytes it has.
    pub length: u64,
    /// The read that tells them, or `None` where they are zero.
    pub cookie: Option<u64>,
}

/// Positions up to an end that were told as zero, or that are to be read.
#[derive(Clone, Copy, Debug, PartialEq, Eq)]
pub struct Run {
    /// The first position behind them.
    pub end: u64,
    /// Whether they were told as zero.
    pub zero: bool,
}

/// The parts that were begun and are not shown yet, in order.
#[derive(Drop)]
pub struct Reel {
    parts: VecDeque<Part>,
}

impl Model for Reel {
    ghost use Rattle.std.specs.Prelude.{List};
    ghost use Rattle.lnbd_reel.specs.declared.reel.Part.{Part};

    ghost Value = { List Part };

    ghost view = { λ r. r.parts.items };
}

impl Reel {
    /// No parts.
    pub fn new(alloc: Global) -> Reel
        ensures { result ≡ [] }
    {
        Reel {
            parts: VecDeque::new(alloc),
        }
    }

    /// How many parts there are.
    pub fn len(&self) -> usize
        ensures { result ≡ length self.now }
    {
        self.parts.len()
    }

    /// One part more is begun.
    pub fn push(&mut self, part: Part) -> Result<(), AllocError>
        ensures { OnOk result (self.new ≡ self.old ++ part ∷ []) }
    {
        self.parts.push_back(part)?;
        Ok(())
    }

    /// The first part, if there is one.
    pub fn take(&mut self) -> Option<Part>
        ensures parts { self.old ≡ option_to_list result ++ self.new }
        ensures none { IfNone result (length self.old ≡ 0) }
    {
        self.parts.pop_front()
    }
}

/// The runs that were told and are not begun, in order.
#[derive(Drop)]
pub struct Runs {
    runs: VecDeque<Run>,
}

impl Model for Runs {
    ghost use Rattle.std.specs.Prelude.{List};
    ghost use Rattle.lnbd_reel.specs.declared.reel.Run.{Run};

    ghost Value = { List Run };

    ghost view = { λ r. r.runs.items };
}

impl Runs {
    /// No runs.
    pub fn new(alloc: Global) -> Runs
        ensures { result ≡ [] }
    {
        Runs {
            runs: VecDeque::new(alloc),
        }
    }

    /// One run more was told.
    pub fn push(&mut self, run: Run) -> Result<(), AllocError>
        ensures { OnOk result (self.new ≡ self.old ++ run ∷ []) }
    {
        self.runs.push_back(run)?;
        Ok(())
    }

    /// The first run, if there is one.
    pub fn first(&self) -> Option<Run>
        ensures { result ≡ slice_get self.now 0 }
    {
        match self.runs.get(0) {
            Some(run) => Some(*run),
            None => None,
        }
    }

    /// The first run is begun wholly.
    pub fn take(&mut self) -> Option<Run>
        ensures parts { self.old ≡ option_to_list result ++ self.new }
        ensures none { IfNone result (length self.old ≡ 0) }
    {
        self.runs.pop_front()
    }
}
