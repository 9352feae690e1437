//! What was told of blocks last is laid out as runs.

ghost use Rattle.std.specs.Prelude.{◌≡◌, ◌≤◌, ◌<◌, ◌+◌, [], ℕ, IfOk};
ghost use Rattle.lnbd_dump.specs.Heard.{IsZeroAmong, IsZeroIn, kept};
ghost use Rattle.lnbd_reel.specs.Reel.{AreRuns, AreSpared, IsInWhole};
ghost use Rattle.lnbd_records.specs.Limits.{max_minimum_block};
ghost use Rattle.lnbd_ask.specs.Maps.{size_end};

use crate::reader::Latest;
use lnbd_reel::{Runs, lay};
use std::alloc::AllocError;

/// Lays out what was told of a range, if it was told last.
pub(crate) fn hear(
    runs: &mut Runs,
    world: &Latest,
    from: u64,
    size: u64,
    block: u64,
) -> Result<u64, AllocError>
    requires none { runs.old ≡ [] }
    requires some { (0 < block) × (block ≤ max_minimum_block) × (0 < size) }
    requires room { from + size ≤ size_end }
    ensures within { IfOk result (λ to. (from < to) × (to ≤ from + size)) }
    ensures runs { IfOk result (λ to. AreRuns (IsZeroIn (kept world.now) from) from runs.new to) }
    ensures spared { IfOk result (λ to. AreSpared (IsInWhole block (IsZeroAmong (kept world.now) from size)) from runs.new to) }
    ensures beyond { IfOk result (λ to. (p : ℕ) → to ≤ p → IsInWhole block (IsZeroAmong (kept world.now) from size) p → ⊥) }
{
    if world.any {
        if world.at == from {
            return lay(runs, &world.extents, from, size, block);
        }
        return lay(runs, &[], from, size, block);
    }
    lay(runs, &[], from, size, block)
}
