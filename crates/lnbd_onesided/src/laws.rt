//! The laws, each as the contract of a function that does nothing.

ghost use Rattle.lnbd_onesided.specs.Alone.{DestinationAloneKeeps, SourceAloneKeeps};
ghost use Rattle.lnbd_onesided.specs.Dealt.{ApartAreDealt};
ghost use Rattle.lnbd_onesided.specs.Desk.{ChangesAreMade, ReadsAreMade};
ghost use Rattle.lnbd_onesided.specs.Files.{FromFileHolds, ToFileHolds};
ghost use Rattle.lnbd_onesided.specs.Honest.{ChangesAreHonest, ReadsAreHonest};

/// A change that a row asks for is made at once.
#[tactic(auto, using(crate::proofs::DeskLemmas::changes_are_made))]
pub fn changes_are_made()
    ensures { ChangesAreMade }
{}

/// A slice that begins is read at once.
#[tactic(auto, using(crate::proofs::DeskLemmas::reads_are_made))]
pub fn reads_are_made()
    ensures { ReadsAreMade }
{}

/// What happens on the source's handles keeps the invariant, whatever the destination is.
#[tactic(auto, using(crate::proofs::AloneLemmas::source_alone_keeps))]
pub fn source_alone_keeps()
    ensures { SourceAloneKeeps }
{}

/// And so on the destination's, whatever the source is.
#[tactic(auto, using(crate::proofs::AloneLemmas::destination_alone_keeps))]
pub fn destination_alone_keeps()
    ensures { DestinationAloneKeeps }
{}

/// Requests under different cookies are what was dealt with the side that did them.
#[tactic(auto, using(crate::proofs::DealtLemmas::apart_are_dealt))]
pub fn apart_are_dealt()
    ensures { ApartAreDealt }
{}

/// A file that was only read is honest over what was asked of it.
#[tactic(auto, using(crate::proofs::HonestLemmas::reads_are_honest))]
pub fn reads_are_honest()
    ensures { ReadsAreHonest }
{}

/// A file that was only written is.
#[tactic(auto, using(crate::proofs::HonestLemmas::changes_are_honest))]
pub fn changes_are_honest()
    ensures { ChangesAreHonest }
{}

/// A file to which all is copied is what the source holds.
#[tactic(auto, using(crate::proofs::FileLemmas::to_file_holds))]
pub fn to_file_holds()
    ensures { ToFileHolds }
{}

/// A destination to which all of a file is copied holds the file.
#[tactic(auto, using(crate::proofs::FileLemmas::from_file_holds))]
pub fn from_file_holds()
    ensures { FromFileHolds }
{}
