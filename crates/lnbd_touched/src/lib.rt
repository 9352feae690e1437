//! What calls leave in the files of a store that tells them: of one number's file alone, and of two at different paths. These are definitions
//! and laws; no call is made here, and what the bytes are for is not known.
#![tactic(auto)]

ghost use Rattle.lnbd_touched.specs.Laws.{ReadsFollow, ReadsLeaveBoth, ReadsTouch, WritesFollow, WritesLeaveOther, WritesTouch};

/// A write touches its number's file alone, and so do writes one behind another, which are one write.
#[tactic(auto, using(crate::proofs::PartLemmas::writes_touch, crate::proofs::PartLemmas::writes_follow))]
pub fn writes_in_parts()
    ensures one { WritesTouch }
    ensures more { WritesFollow }
{}

/// A read tells bytes of its number's file, and so do reads one behind another, which are one read.
#[tactic(auto, using(crate::proofs::PartLemmas::reads_touch, crate::proofs::PartLemmas::reads_follow))]
pub fn reads_in_parts()
    ensures one { ReadsTouch }
    ensures more { ReadsFollow }
{}

/// A step on one of two files leaves the other.
#[tactic(auto, using(crate::proofs::BothLemmas::writes_leave_other, crate::proofs::BothLemmas::reads_leave_both))]
pub fn others_are_left()
    ensures writes { WritesLeaveOther }
    ensures reads { ReadsLeaveBoth }
{}
