//! Why a text is no script.

ghost use Rattle.std.specs.Prelude.{◌≡◌};
ghost use Rattle.lnbd_lines.specs.declared.fault.LineFault.TheVariants.{NoMemory as OutOfMemory};

use lnbd_model::NoMemory;
use thiserror::Error;

/// Why a text is no script.
#[derive(Clone, Copy, Debug, PartialEq, Eq, Error)]
pub enum ScriptFault {
    /// Memory ran out. It may come in place of every other answer but `Line(0)`.
    #[error("no memory")]
    NoMemory,
    /// The line of this number, counted from 1, is the first that is no line of a script; 0 where
    /// the text has more than 16,777,216 bytes.
    #[error("script line {0}")]
    Line(u32),
}

/// Why a line was not read.
#[derive(Clone, Copy, Debug, PartialEq, Eq)]
pub(crate) enum LineFault {
    NoMemory,
    /// It is outside the grammar.
    Outside,
}

impl From<NoMemory> for LineFault {
    ghost from_gives = { λ _ fault. fault ≡ OutOfMemory };

    fn from(_error: NoMemory) -> LineFault {
        LineFault::NoMemory
    }
}
