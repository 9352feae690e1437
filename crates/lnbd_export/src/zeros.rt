//! Which positions of an export are told as zero. The bytes that stand there are not known here.

ghost use Rattle.std.specs.Prelude.{◌≡◌, ℕ, ◌+◌, ◌≤◌, ◌^◌, if◌then◌else◌, OnOk, OnErr};
ghost use Rattle.lnbd_extents.specs.Positions.{within};
ghost use Rattle.lnbd_export.specs.Zeros.{told};

use crate::spans::Spans;
use lnbd_extents::Ranges;
use lnbd_model::NoMemory;
use std::alloc::Global;

/// Which positions are told as zero.
#[derive(Debug, Drop)]
pub(crate) enum Zeros {
    /// Those of the ranges that were handed in.
    Given(Ranges),
    /// Those that spans tell, from the first change on.
    Turning(Spans),
}

impl Zeros {
    /// Tells these positions as zero, or no more. On `NoMemory` what is told stays.
    pub fn tell(
        &mut self,
        alloc: Global,
        start: u64,
        length: u64,
        zero: bool,
    ) -> Result<(), NoMemory>
        requires { start + length ≤ 2 ^ 63 }
        ensures told { OnOk result ((p : ℕ) → told self.new p ≡ (if within (start, length) p then zero else told self.old p)) }
        ensures err { OnErr result ((p : ℕ) → told self.new p ≡ told self.old p) }
    {
        match self {
            Zeros::Given(ranges) => {
                let mut spans = Spans::of(alloc, ranges)?;
                spans.tell(start, length, zero)?;
                *self = Zeros::Turning(spans);
                Ok(())
            }
            Zeros::Turning(spans) => spans.tell(start, length, zero),
        }
    }
}
