//! Why a copy with a file does not end well.

ghost use Rattle.lnbd_copyfile.specs.Causes.{Answers, AnswersHalt};

use lnbd_model::NoMemory;
use lnbd_plan::CopyFault;
use lnbd_store::StoreFailed;
use thiserror::Error;

/// Why a copy does not end well of which a side is a file.
#[derive(Clone, Copy, Debug, PartialEq, Eq, Error)]
pub enum FileFault {
    /// What a copy between exports tells. Memory that ran out anywhere is told so, too.
    #[error("{0}")]
    Copy(CopyFault),
    /// A call on the store failed. The count of its faults, at the start and in the end.
    #[error("store fault")]
    Store { before: u64, after: u64 },
    /// The source told that it has so many bytes, and ended before the byte at this place was read.
    #[error("rule changed {length} {end}")]
    Changed { length: u64, end: u64 },
}

/// What stopped a copy between files.
#[derive(Clone, Copy, Debug, PartialEq, Eq)]
pub enum Stop {
    /// Memory ran out.
    NoMemory,
    /// A call on the store failed.
    Failed,
    /// The source told that it has so many bytes, and ended before the byte at this place was read.
    Changed { length: u64, end: u64 },
}

impl Stop {
    /// What the copy answers then, by the counts of the store's faults.
    pub(crate) fn fault(self, before: u64, after: u64) -> FileFault
        ensures { Answers before after self result }
    {
        match self {
            Stop::NoMemory => FileFault::Copy(CopyFault::NoMemory),
            Stop::Failed => FileFault::Store { before, after },
            Stop::Changed { length, end } => FileFault::Changed { length, end },
        }
    }
}

/// What ends a copy of which one side is an export and the other one a file.
#[derive(Clone, Copy, Debug, PartialEq, Eq)]
pub(crate) enum Halt {
    /// What a copy between exports tells.
    Copy(CopyFault),
    /// What stopped it at the file.
    File(Stop),
}

impl From<CopyFault> for Halt {
    ghost use Rattle.std.specs.Prelude.{◌≡◌};
    ghost use Rattle.lnbd_copyfile.specs.declared.fault.Halt.TheVariants as halt;

    ghost from_gives = { λ why halted. halted ≡ halt.Copy why };

    fn from(why: CopyFault) -> Halt {
        Halt::Copy(why)
    }
}

impl From<NoMemory> for Halt {
    ghost use Rattle.std.specs.Prelude.{◌≡◌};
    ghost use Rattle.lnbd_plan.specs.declared.fault.CopyFault.TheVariants as copy;
    ghost use Rattle.lnbd_copyfile.specs.declared.fault.Halt.TheVariants as halt;

    ghost from_gives = { λ _ halted. halted ≡ halt.Copy copy.NoMemory };

    fn from(_why: NoMemory) -> Halt {
        Halt::Copy(CopyFault::NoMemory)
    }
}

impl From<Stop> for Halt {
    ghost use Rattle.std.specs.Prelude.{◌≡◌};
    ghost use Rattle.lnbd_copyfile.specs.declared.fault.Halt.TheVariants as halt;

    ghost from_gives = { λ why halted. halted ≡ halt.File why };

    fn from(why: Stop) -> Halt {
        Halt::File(why)
    }
}

impl From<StoreFailed> for Halt {
    ghost use Rattle.std.specs.Prelude.{◌≡◌};
    ghost use Rattle.lnbd_copyfile.specs.declared.fault.Halt.TheVariants as halt;
    ghost use Rattle.lnbd_copyfile.specs.declared.fault.Stop.TheVariants as stop;

    ghost from_gives = { λ _ halted. halted ≡ halt.File stop.Failed };

    fn from(_why: StoreFailed) -> Halt {
        Halt::File(Stop::Failed)
    }
}

impl Halt {
    /// What the copy answers then, by the counts of the store's faults.
    pub(crate) fn fault(self, before: u64, after: u64) -> FileFault
        ensures { AnswersHalt before after self result }
    {
        match self {
            Halt::Copy(why) => FileFault::Copy(why),
            Halt::File(why) => why.fault(before, after),
        }
    }
}
