//! Laws of what a server may count on. Each is the contract of a function that does nothing.

ghost use Rattle.lnbd_accepts.specs.Cuts.{CutsChangeNothingLater, CutsStayLawful};
ghost use Rattle.lnbd_accepts.specs.Filed.{LawfulRepliesAreFiled};
ghost use Rattle.lnbd_accepts.specs.Given.{FittingAnswersDoTheSame, FittingAnswersSuffice};
ghost use Rattle.lnbd_accepts.specs.Replies.{LawfulRepliesAreTold};
ghost use Rattle.lnbd_accepts.specs.Talks.{LawfulHellosAreTold, LawfulAnswersAreTold};

/// A hello, and a reply to an option, that may come is told just as it stands, and is no breach.
pub fn lawful_talks_are_told()
    ensures hello { LawfulHellosAreTold }
    ensures reply { LawfulAnswersAreTold }
{}

/// A reply that may come to a command that waits is told just as it stands, and is no breach.
pub fn lawful_replies_are_told<R>()
    ensures { LawfulRepliesAreTold R }
{}

/// A reply that may come to a command in flight is filed under it with its last byte.
pub fn lawful_replies_are_filed<K>()
    ensures { LawfulRepliesAreFiled K }
{}

/// How bytes are cut into two arrivals changes no answer, no note and no call on a callback,
/// whatever follows; and what may follow them may follow them in one.
pub fn cuts_change_nothing_later<K>()
    ensures same { CutsChangeNothingLater K }
    ensures lawful { CutsStayLawful K }
{}

/// An event does the same with the list that has just the answers of the calls that it makes, and
/// a machine that may take the one stands for the history with the other: lists of answers that
/// are too short or too long needn't come.
pub fn fitting_answers_suffice<K>()
    ensures same { FittingAnswersDoTheSame K }
    ensures suffice { FittingAnswersSuffice K }
{}
