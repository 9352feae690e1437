//! Holes of the source are looked for and passed over, whole slices at a time. What is read and written is not known here.

ghost use Rattle.std.specs.Prelude.{◌≡◌, ◌+◌, ◌%◌, ◌<◌, ◌≤◌, ℕ};
ghost use Rattle.lnbd_touched.specs.Both.{Both};
ghost use Rattle.lnbd_touched.specs.Grown.{Grew};
ghost use Rattle.lnbd_copyfile.specs.Calls.{Moves};
ghost use Rattle.lnbd_copyfile.specs.Steps.{Moved};

use crate::filling::Way;
use lnbd_store::{Store, StorePart};

/// How many of so many zeros lie in whole slices, where a slice begins with them: all that are left, where they go on to the end.
fn in_slices(zeros: u64, left: u64, cell: u64) -> u64
    requires { 0 < cell }
    ensures few { result ≤ zeros }
    ensures within { result ≤ left }
    ensures whole { result < left → result % cell ≡ 0 }
{
    if zeros >= left {
        return left;
    }
    zeros / cell * cell
}

/// How many bytes of the source are passed over, from the beginning of a slice on: a hole, as far as it fills whole slices. None where no zeros
/// are passed over, nor before the place up to which bytes are known to lie.
pub(crate) fn pass_hole<S: Store>(store: &mut S, way: Way, at: u64, known: &mut u64) -> u64
    requires cell { 0 < way.cell }
    requires begins { at % way.cell ≡ 0 }
    requires more { at < way.size }
    ensures within { at + result ≤ way.size }
    ensures ends { at + result < way.size → (at + result) % way.cell ≡ 0 }
    ensures moved { (to : ℕ) → Both way.from to (Moved way.cell way.block way.size at (at + result) 0) (S.shelf store.old) (S.shelf store.new) }
    ensures moves { (to : ℕ) → Grew (S.told store.old) (S.told store.new) (Moves way.cell way.size way.from to) }
    ensures faults { S.faults store.new ≡ S.faults store.old }
    ensures given { S.given store.new ≡ S.given store.old }
    ensures taken { S.taken store.new ≡ S.taken store.old }
    ensures none { way.block ≡ 0 → result ≡ 0 }
{
    if way.block == 0 || at < *known {
        return 0;
    }
    match store.part_at(way.from, at) {
        StorePart::Bytes(n) => {
            *known = at.saturating_add(n);
            0
        }
        StorePart::Zeros(n) => in_slices(n, way.size - at, way.cell as u64),
    }
}
