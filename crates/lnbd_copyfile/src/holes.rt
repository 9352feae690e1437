//! What a file that is copied to an export tells of its holes, as an export tells extents. What is made of that is not known here.

ghost use Rattle.std.specs.Prelude.{◌≡◌, ◌∷◌, [], ℕ, length};
ghost use Rattle.lnbd_copy.specs.Windows.{zero_within};
ghost use Rattle.lnbd_touched.specs.Grown.{Grew};
ghost use Rattle.lnbd_touched.specs.Touches.{Touches};
ghost use Rattle.lnbd_copyfile.specs.Holes.{ToldHoles, nowhere};
ghost use Rattle.lnbd_copyfile.specs.OneFile.{Reads};

use lnbd_model::Extent;
use lnbd_records::names::STATE_ZERO;
use lnbd_store::{Store, StorePart};

/// What a file tells of itself from a place on, as the extent there.
pub(crate) fn extent_at<S: Store>(store: &mut S, file: u32, offset: u64) -> Extent
    ensures holes { (n : ℕ) → Touches file (ToldHoles nowhere (zero_within (offset, n) (result ∷ []))) (S.shelf store.old) (S.shelf store.new) }
    ensures reads { Grew (S.told store.old) (S.told store.new) (Reads file) }
    ensures faults { S.faults store.new ≡ S.faults store.old }
    ensures given { S.given store.new ≡ S.given store.old }
    ensures taken { S.taken store.new ≡ S.taken store.old }
{
    match store.part_at(file, offset) {
        StorePart::Bytes(length) => Extent { length, flags: 0 },
        StorePart::Zeros(length) => Extent {
            length,
            flags: STATE_ZERO,
        },
    }
}
