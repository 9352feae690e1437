//! What a turn of a copy tells whoever takes it.

ghost use Rattle.std.specs.Prelude.{◌≡◌, ℕ, false, true, List, Option};
ghost use Rattle.lnbd_link.specs.Call.{Call};
ghost use Rattle.lnbd_poll.specs.declared.noticed.Turn.TheVariants as turned;
ghost use Rattle.lnbd_copy.specs.declared.copier.Progress.TheVariants as progress;
ghost use Rattle.lnbd_copy.specs.declared.counts.Counts.{Counts as Counted};
ghost use Rattle.lnbd_copy.specs.Copier.{HasTurned, IsOnItsWay, Seen};
ghost use Rattle.lnbd_copy.specs.Ended.{EndsWell};
ghost use Rattle.lnbd_copy.specs.Flushed.{HasFlushed};
ghost use Rattle.lnbd_copy.specs.Summed.{HasSummed};

use crate::copier::Progress;
use lnbd_poll::Turn;

/// What a turn did, where so much moved and it went on or not in another way.
pub(crate) fn progress_of(moved: Turn, acted: bool) -> Progress
    ensures on { (start told : Option (List Call)) (copy : Seen) → IsOnItsWay start told copy → HasTurned start told copy result }
    ensures sums { (start told : Option (List Call)) (copy : Seen) → HasSummed start told copy result }
    ensures flushes { (start told : Option (List Call)) (copy : Seen) → HasFlushed start told copy result }
    ensures well { (start : Counted) (faults idles : ℕ) → EndsWell start faults idles result }
    ensures moved { result ≡ progress.Still → moved ≡ turned.Still }
    ensures acted { result ≡ progress.Still → acted ≡ false }
    ensures went { (count : ℕ) → result ≡ progress.Moved count → moved ≡ turned.Still → acted ≡ true }
{
    match moved {
        Turn::Moved(count) => Progress::Moved(count),
        Turn::Still => {
            if acted {
                Progress::Moved(0)
            } else {
                Progress::Still
            }
        }
    }
}
