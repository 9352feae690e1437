//! A copy from its first connection to its end, in one call: what all its calls together show. What a turn does is not known here.

ghost use Rattle.std.specs.Prelude.{◌≡◌, ◌≢◌, ◌<◌, ◌-◌, false, IfErr, IfOk, OnOk};
ghost use Rattle.lnbd_link.specs.Count.{Rises, patience};
ghost use Rattle.lnbd_course.specs.AllDone.{WereAllDone};
ghost use Rattle.lnbd_course.specs.Asks.{GrewBy, HasAskedOnce};
ghost use Rattle.lnbd_course.specs.Carried.{HasCarried};
ghost use Rattle.lnbd_course.specs.Copied.{Copies};
ghost use Rattle.lnbd_course.specs.Counts.{Summarizes};
ghost use Rattle.lnbd_course.specs.Driven.{AreDriven};
ghost use Rattle.lnbd_course.specs.Flushes.{FlushesLast};
ghost use Rattle.lnbd_copy.specs.Causes.{AreWell, GoesOn, HasCause};
ghost use Rattle.lnbd_conduct.specs.Conduct.{Conducts};
ghost use Rattle.lnbd_conduct.specs.Links.{AllConnected};
ghost use Rattle.lnbd_usage.specs.Links.{LinksAreKept};
ghost use Rattle.lnbd_copy.specs.Connects.{LinksGoAsTold, LinksGoWithin};
ghost use Rattle.lnbd_conduct.specs.Connects.{ConnectsAsTold, ConnectsWithin, AreDrivenBy, AreLeftBy};
ghost use Rattle.lnbd_copy.specs.Copier.{HasNotBegun, IsDone};
ghost use Rattle.lnbd_conduct.specs.Decided.{IsDecided};
ghost use Rattle.lnbd_conduct.specs.Changes.{Behaves};
ghost use Rattle.lnbd_conduct.specs.Fewest.{SlicesGoToFewest};
ghost use Rattle.lnbd_conduct.specs.Grounds.{IsGrounded};
ghost use Rattle.lnbd_conduct.specs.Made.{IsMade};
ghost use Rattle.lnbd_conduct.specs.Waiting.{WantsAll, WroteLittle, PausesAreFull, WaitsWell};
ghost use Rattle.lnbd_conduct.specs.Pauses.{KeepsPace, PausesWithin, WantsOnlyFull, TriedBefore, WantsOnlyEmpty, WantsSome};
ghost use Rattle.lnbd_usage.specs.Pauses.{AtEachPause};
ghost use Rattle.lnbd_copy.specs.Patient.{PausesLess, may_end_waiting};
ghost use Rattle.lnbd_conduct.specs.Settled.{FlushesWanted, SparesFound, SparesTold};
ghost use Rattle.lnbd_conduct.specs.Told.{Told};
ghost use Rattle.lnbd_conduct.specs.Slices.{WasCopiedWhole};

use crate::copier::{Copier, Progress};
use crate::dialing::MAX_TURNS;
use lnbd_link::Wires;
use lnbd_plan::{CopyFault, Summary};

impl Copier {
    /// Copies, from the first connection to the end.
    ///
    /// # Errors
    ///
    /// Those of `begin` and `turn`.
    pub fn run<W: Wires>(self, wires: &mut W) -> Result<Summary, CopyFault>
        requires { HasNotBegun self }

        // Over honest exports the destination then holds the source's bytes.
        ensures copies { self.from ≢ self.to → OnOk result (Copies self.from self.to self.options.destination_is_zero (W.told wires.old) (W.told wires.new)) }
        // By its calls the copy was made: each byte that was told was asked to be written, unchanged, and that was done, whatever the servers keep.
        ensures made { self.from ≢ self.to → IfOk result (λ told. GrewBy (IsMade self.options self.from self.to told) (W.told wires.old) (W.told wires.new)) }
        // What is so whatever it comes to: what was asked, how links were made, driven, waited for and shut, and what was under way.
        ensures conducts { GrewBy (Conducts self.options self.from self.to) (W.told wires.old) (W.told wires.new) }
        // Where it ends with a fault that is neither silence nor want of memory, it paused less often than is borne: what comes behind the last such pause is not told.
        ensures less { IfErr result (λ told. may_end_waiting told ≡ false → GrewBy PausesLess (W.told wires.old) (W.told wires.new)) }
        // Where it is made, from a place to itself too: it connected as often as its options and what both sides told say, each connect gave a link, and one handle drove each link and left it well.
        ensures connects { OnOk result (GrewBy (ConnectsAsTold self.options self.from self.to) (W.told wires.old) (W.told wires.new)) }
        ensures connected { OnOk result (GrewBy AllConnected (W.told wires.old) (W.told wires.new)) }
        ensures driven { OnOk result (GrewBy AreDriven (W.told wires.old) (W.told wires.new)) }
        ensures left { OnOk result (GrewBy (AreLeftBy self.options self.from self.to) (W.told wires.old) (W.told wires.new)) }
        // What the calls show of a fault.
        ensures grounds { IfErr result (λ told. IsGrounded (W.told wires.old) (W.told wires.new) self.options.extents self.from self.to told) }
        // The first event decided it for which a copy ends: before that nothing of the kind had come, as a connection's end that was read before all was done, and the destination flushed where it is to be.
        ensures decides { IfErr result (λ told. IsDecided (W.told wires.old) (W.told wires.new) self.options self.from self.to told) }
        // The counts, and what they show of a fault.
        ensures causes { IfErr result (λ told. HasCause (record { faults = W.faults wires.old; idles = W.idles wires.old }) (W.faults wires.new) (W.idles wires.new) told) }
        ensures counts { GoesOn (W.faults wires.old) (W.faults wires.new) (W.idles wires.old) (W.idles wires.new) (W.contents wires.old) (W.contents wires.new) }
        // Where the copy is made they show none: no call failed, and the wires waited for less than is borne.
        ensures well { OnOk result (¬ Rises 1 (W.faults wires.old) (W.faults wires.new)) }
        ensures patient { OnOk result (¬ Rises patience (W.idles wires.old) (W.idles wires.new)) }
    {
        self.carry_out(wires)
    }

    /// The same: each fact by itself.
    #[tactic(auto, using(crate::proofs::CauseLemmas::goes_same, crate::proofs::CauseLemmas::goes_then, crate::proofs::CauseLemmas::cause_later, crate::proofs::CauseLemmas::cause_free))]
    fn carry_out<W: Wires>(self, wires: &mut W) -> Result<Summary, CopyFault>
        requires { HasNotBegun self }
        ensures carries { self.from ≢ self.to → OnOk result (GrewBy (HasCarried self.from self.to self.options.destination_is_zero) (W.told wires.old) (W.told wires.new)) }
        ensures asks { self.from ≢ self.to → OnOk result (GrewBy (HasAskedOnce self.options.allocated self.options.destination_is_zero self.from self.to) (W.told wires.old) (W.told wires.new)) }
        ensures done { self.from ≢ self.to → OnOk result (GrewBy (WereAllDone self.from self.to) (W.told wires.old) (W.told wires.new)) }
        ensures whole { self.from ≢ self.to → OnOk result (GrewBy (WasCopiedWhole self.options self.from self.to) (W.told wires.old) (W.told wires.new)) }
        ensures behaves { self.from ≢ self.to → GrewBy (Behaves self.options self.from self.to) (W.told wires.old) (W.told wires.new) }
        ensures summary { self.from ≢ self.to → IfOk result (λ told. GrewBy (Summarizes self.from self.to told) (W.told wires.old) (W.told wires.new)) }
        ensures spares { self.from ≢ self.to → OnOk result (GrewBy (SparesTold self.options.extents self.from self.to) (W.told wires.old) (W.told wires.new)) }
        ensures dense { self.from ≢ self.to → OnOk result (GrewBy (SparesFound self.options self.from self.to) (W.told wires.old) (W.told wires.new)) }
        ensures flushes { self.from ≢ self.to → IfOk result (λ told. GrewBy (FlushesLast self.from self.to told) (W.told wires.old) (W.told wires.new)) }
        ensures flushed { self.from ≢ self.to → OnOk result (GrewBy (FlushesWanted self.options self.from self.to) (W.told wires.old) (W.told wires.new)) }
        ensures pauses { self.from ≢ self.to → GrewBy (PausesAreFull self.options self.from self.to) (W.told wires.old) (W.told wires.new) }
        ensures fewest { self.from ≢ self.to → GrewBy (SlicesGoToFewest self.options self.from self.to) (W.told wires.old) (W.told wires.new) }
        ensures driven { OnOk result (GrewBy AreDriven (W.told wires.old) (W.told wires.new)) }
        ensures drives { GrewBy (AreDrivenBy self.options self.from self.to) (W.told wires.old) (W.told wires.new) }
        ensures left { OnOk result (GrewBy (AreLeftBy self.options self.from self.to) (W.told wires.old) (W.told wires.new)) }
        ensures links { GrewBy LinksAreKept (W.told wires.old) (W.told wires.new) }
        ensures within { GrewBy (ConnectsWithin self.options self.from self.to) (W.told wires.old) (W.told wires.new) }
        ensures connects { OnOk result (GrewBy (ConnectsAsTold self.options self.from self.to) (W.told wires.old) (W.told wires.new)) }
        ensures connected { OnOk result (GrewBy AllConnected (W.told wires.old) (W.told wires.new)) }
        ensures writes { GrewBy (AtEachPause WantsOnlyFull) (W.told wires.old) (W.told wires.new) }
        ensures reads { GrewBy (AtEachPause WantsOnlyEmpty) (W.told wires.old) (W.told wires.new) }
        ensures waits { GrewBy (AtEachPause WaitsWell) (W.told wires.old) (W.told wires.new) }
        ensures wanted { GrewBy (AtEachPause WantsSome) (W.told wires.old) (W.told wires.new) }
        ensures little { GrewBy (AtEachPause (WroteLittle self.options.extents self.from self.to)) (W.told wires.old) (W.told wires.new) }
        ensures wants_all { GrewBy (AtEachPause (WantsAll self.options.extents self.from self.to)) (W.told wires.old) (W.told wires.new) }
        ensures few { GrewBy PausesWithin (W.told wires.old) (W.told wires.new) }
        ensures less { IfErr result (λ told. may_end_waiting told ≡ false → GrewBy PausesLess (W.told wires.old) (W.told wires.new)) }
        ensures tries { GrewBy (AtEachPause TriedBefore) (W.told wires.old) (W.told wires.new) }
        ensures paces { GrewBy KeepsPace (W.told wires.old) (W.told wires.new) }
        ensures grounds { IfErr result (λ told. IsGrounded (W.told wires.old) (W.told wires.new) self.options.extents self.from self.to told) }
        ensures decides { IfErr result (λ told. IsDecided (W.told wires.old) (W.told wires.new) self.options self.from self.to told) }
        ensures causes { IfErr result (λ told. HasCause (record { faults = W.faults wires.old; idles = W.idles wires.old }) (W.faults wires.new) (W.idles wires.new) told) }
        ensures counts { GoesOn (W.faults wires.old) (W.faults wires.new) (W.idles wires.old) (W.idles wires.new) (W.contents wires.old) (W.contents wires.new) }
        ensures well { OnOk result (¬ Rises 1 (W.faults wires.old) (W.faults wires.new)) }
        ensures patient { OnOk result (¬ Rises patience (W.idles wires.old) (W.idles wires.new)) }
    {
        let mut copier = self;
        let told = copier.copy(wires);
        copier.end(wires);
        told
    }

    /// Begins, and takes turns until the copy is finished, with a pause after each in which nothing happened. What the wires counted is
    /// looked at behind each pause: where that was the last that is borne, nothing that comes later is told.
    #[tactic(auto, using(crate::proofs::CauseLemmas::goes_same, crate::proofs::CauseLemmas::goes_then, crate::proofs::CauseLemmas::cause_later, crate::proofs::CauseLemmas::cause_free, crate::proofs::GroundLemmas::none_grounded, crate::proofs::DecidingLemmas::memory_decided))]
    fn copy<W: Wires>(&mut self, wires: &mut W) -> Result<Summary, CopyFault>
        requires { HasNotBegun self.old }
        ensures kept { self.new ≡ record self.old { start = self.new.start; held = self.new.held; board = self.new.board; job = self.new.job } }
        ensures done { OnOk result (IsDone (W.told wires.old) (W.told wires.new) self.new) }
        ensures sums { IfOk result (λ told. self.new.from ≢ self.new.to → Told (W.told wires.old) (W.told wires.new) (Summarizes self.new.from self.new.to told)) }
        ensures flushes { IfOk result (λ told. self.new.from ≢ self.new.to → Told (W.told wires.old) (W.told wires.new) (FlushesLast self.new.from self.new.to told)) }
        ensures fair { self.old.from ≢ self.old.to → Told (W.told wires.old) (W.told wires.new) (Behaves self.old.options self.old.from self.old.to) }
        ensures pauses { self.new.from ≢ self.new.to → Told (W.told wires.old) (W.told wires.new) (PausesAreFull self.new.options self.new.from self.new.to) }
        ensures fewest { self.new.from ≢ self.new.to → Told (W.told wires.old) (W.told wires.new) (SlicesGoToFewest self.new.options self.new.from self.new.to) }
        ensures writes { Told (W.told wires.old) (W.told wires.new) (AtEachPause WantsOnlyFull) }
        ensures reads { Told (W.told wires.old) (W.told wires.new) (AtEachPause WantsOnlyEmpty) }
        ensures waits { Told (W.told wires.old) (W.told wires.new) (AtEachPause WaitsWell) }
        ensures wanted { Told (W.told wires.old) (W.told wires.new) (AtEachPause WantsSome) }
        ensures little { Told (W.told wires.old) (W.told wires.new) (AtEachPause (WroteLittle self.old.options.extents self.old.from self.old.to)) }
        ensures wants_all { Told (W.told wires.old) (W.told wires.new) (AtEachPause (WantsAll self.old.options.extents self.old.from self.old.to)) }
        ensures tries { Told (W.told wires.old) (W.told wires.new) (AtEachPause TriedBefore) }
        ensures paces { Told (W.told wires.old) (W.told wires.new) KeepsPace }
        ensures causes { IfErr result (λ told. HasCause (record { faults = W.faults wires.old; idles = W.idles wires.old }) (W.faults wires.new) (W.idles wires.new) told) }
        ensures grounds { IfErr result (λ told. IsGrounded (W.told wires.old) (W.told wires.new) self.old.options.extents self.old.from self.old.to told) }
        ensures counts { GoesOn (W.faults wires.old) (W.faults wires.new) (W.idles wires.old) (W.idles wires.new) (W.contents wires.old) (W.contents wires.new) }
        ensures links { LinksGoWithin self.old.options self.old.from self.old.to self.old.held (W.told wires.old) self.new.held (W.told wires.new) }
        ensures connects { OnOk result (LinksGoAsTold self.old.options self.old.from self.old.to self.old.held (W.told wires.old) self.new.held (W.told wires.new)) }
        ensures well { OnOk result (AreWell (record { faults = W.faults wires.old; idles = W.idles wires.old }) (W.faults wires.new) (W.idles wires.new)) }
        ensures drives { Told (W.told wires.old) (W.told wires.new) (AreDrivenBy self.old.options self.old.from self.old.to) }
        ensures decides { IfErr result (λ told. IsDecided (W.told wires.old) (W.told wires.new) self.old.options self.old.from self.old.to told) }
        ensures few { Told (W.told wires.old) (W.told wires.new) PausesWithin }
        ensures less { IfErr result (λ told. may_end_waiting told ≡ false → Told (W.told wires.old) (W.told wires.new) PausesLess) }
    {
        self.begin(wires)?;
        'turns: for _ in 0..MAX_TURNS {
            self.check_patience(wires)?;
            match self.turn(wires)? {
                Progress::Moved(_) => {}
                Progress::Still => self.rest(wires)?,
                Progress::Finished(summary) => return Ok(summary),
            }
        }
        Err(CopyFault::NoMemory)
    }
}
