//! Laws of a queue of pieces; each function says its law and does nothing.

ghost use Rattle.lnbd_outgoing.specs.Laws.{OthersWait, OthersFit, LeftIsOffered};

/// Writes that a queue doesn't name may come, go and change.
#[tactic(auto, using(crate::proofs::QueueLemmas::others_wait, crate::proofs::QueueLemmas::others_fit))]
pub fn other_writes_may_change()
    ensures waits { OthersWait }
    ensures fit { OthersFit }
{}

/// How many bytes are left of the first piece is how many are offered.
#[tactic(auto, using(crate::proofs::QueueLemmas::left_is_offered))]
pub fn what_is_left_is_offered()
    ensures { LeftIsOffered }
{}
