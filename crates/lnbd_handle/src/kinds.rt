//! What the calls of a handle answer, and what one turn over the bytes that arrived did.

ghost use Rattle.std.specs.Prelude.{◌≡◌};
ghost use Rattle.lnbd_handle.specs.declared.kinds.OptFault.TheVariants as opt;
ghost use Rattle.lnbd_handle.specs.declared.kinds.SetFault.TheVariants as set;

use lnbd_arrivals::Announced;
use lnbd_model::State;
use thiserror::Error;

/// Why a setting was refused. Nothing has changed.
#[derive(Clone, Copy, Debug, PartialEq, Eq, Error)]
pub enum SetFault {
    /// Memory ran out.
    #[error("no memory")]
    NoMemory,
    /// The handle is in this state.
    #[error("not in this state")]
    State(State),
    /// So many, the most, are there.
    #[error("more than {0}")]
    TooMany(u32),
}

impl From<lnbd_model::NoMemory> for SetFault {
    ghost from_gives = { λ e r. r ≡ set.NoMemory };

    fn from(_error: lnbd_model::NoMemory) -> SetFault {
        SetFault::NoMemory
    }
}

/// Why an option was not asked. Nothing has changed.
#[derive(Clone, Copy, Debug, PartialEq, Eq, Error)]
pub enum OptFault {
    /// Memory ran out.
    #[error("no memory")]
    NoMemory,
    /// The handle is in this state.
    #[error("not in this state")]
    State(State),
    /// Structured replies are off.
    #[error("structured replies are off")]
    NotStructured,
}

impl From<lnbd_model::NoMemory> for OptFault {
    ghost from_gives = { λ e r. r ≡ opt.NoMemory };

    fn from(_error: lnbd_model::NoMemory) -> OptFault {
        OptFault::NoMemory
    }
}

/// Memory ran out behind so many bytes: these count as arrived, and the others are to be handed in again.
#[derive(Clone, Copy, Debug, PartialEq, Eq, Error)]
#[error("no memory behind {taken} bytes")]
pub struct Short {
    pub taken: usize,
}

/// What one turn did with the bytes in front of it.
#[derive(Clone, Copy, Debug, PartialEq, Eq)]
pub(crate) enum Turn {
    /// They show nothing yet. Their front may announce data.
    Nothing(Option<Announced>),
    /// So many were a record, which was taken.
    Took(usize),
    /// All were taken: nothing counts any more.
    All,
    /// Memory ran out, and nothing was done.
    Short,
}

/// How far a buffer was taken.
#[derive(Clone, Copy, Debug, PartialEq, Eq)]
pub(crate) struct Taken {
    /// Whole records end here.
    pub(crate) used: usize,
    /// Memory ran out at the next record.
    pub(crate) short: bool,
    /// What the front of the rest announces, where that shows nothing yet.
    pub(crate) announced: Option<Announced>,
}

/// What was done with bytes behind those that are held.
#[derive(Clone, Copy, Debug, PartialEq, Eq)]
pub(crate) enum Holding {
    /// All are held, and show nothing yet.
    More,
    /// So many were taken, with the end of a record, and none are held.
    Took(usize),
    /// Memory ran out, and nothing was done.
    Short,
}
