//! A copy from its first connection to its last byte.

ghost use Rattle.std.specs.Prelude.{◌≡◌, ◌≢◌, ◌<◌, ◌≤◌, ◌+◌, ◌-◌, ◌^◌, [], ◌∷◌, ◌++◌, length, replicate, ℕ, List, Option, None, true, false, IfErr, IfOk, OnErr, OnOk};
ghost use Rattle.lnbd_link.specs.Call.{Call, Pause};
ghost use Rattle.lnbd_link.specs.Count.{Rises, patience};
ghost use Rattle.lnbd_link.specs.Part.{Adds};
ghost use Rattle.lnbd_board.specs.Files.{Seen as Kept};
ghost use Rattle.lnbd_poll.specs.Held.{max_held, wants_now};
ghost use Rattle.lnbd_poll.specs.declared.noticed.Turn.TheVariants as turned;
ghost use Rattle.lnbd_course.specs.Asks.{HasAskedOnce};
ghost use Rattle.lnbd_copy.specs.Agreed.{AreQuiet};
ghost use Rattle.lnbd_copy.specs.Awaiting.{AwaitsAll};
ghost use Rattle.lnbd_copy.specs.Causes.{GoesOn, HasCause};
ghost use Rattle.lnbd_copy.specs.Connects.{LinksGoAsTold, LinksGoWithin, StaysConnected};
ghost use Rattle.lnbd_conduct.specs.Connects.{one_each, AreDrivenBy};
ghost use Rattle.lnbd_copy.specs.declared.copier.Progress.TheVariants as progress;
ghost use Rattle.lnbd_copy.specs.Copier.{GoesFurther, HasJob, HasMet, HasMetOnce, HasNotBegun, HasTurned, IsGoing, IsOnItsWay, IsParting, Seen};
ghost use Rattle.lnbd_conduct.specs.Decided.{IsDecided};
ghost use Rattle.lnbd_copy.specs.Deciding.{DecidesFurther, DecidesOn, GoesShut, IsCalm, WasUntroubledAs};
ghost use Rattle.lnbd_conduct.specs.Driven.{AreDrivenTo};
ghost use Rattle.lnbd_copy.specs.Ended.{EndsWell};
ghost use Rattle.lnbd_copy.specs.Driving.{DrivesFurther, DrivesOn, DrivesOneMore};
ghost use Rattle.lnbd_copy.specs.Faults.{AreUnissued, AsksNone, AsksNothing, GoesIdly, StaysFresh, StaysUnasked};
ghost use Rattle.lnbd_conduct.specs.Changes.{Behaves};
ghost use Rattle.lnbd_conduct.specs.Limits.{AreLimited};
ghost use Rattle.lnbd_copy.specs.Fewest.{GoesToFewest, LeavesFewer};
ghost use Rattle.lnbd_copy.specs.Flushed.{HasFlushed};
ghost use Rattle.lnbd_copy.specs.Grounds.{AllSame, Lasts};
ghost use Rattle.lnbd_conduct.specs.Grounds.{IsGrounded, needs_no_ground};
ghost use Rattle.lnbd_conduct.specs.declared.terms.Terms.{Terms as Settled};
ghost use Rattle.lnbd_conduct.specs.Waiting.{WantsAll, WroteHandshakes, WroteLittle, WaitsWell};
ghost use Rattle.lnbd_copy.specs.Job.{Seen as Task};
ghost use Rattle.lnbd_copy.specs.Links.{HaveSameLinks, LinksGo, LinksGoTo, LinksStand};
ghost use Rattle.lnbd_copy.specs.Little.{StaysLittle};
ghost use Rattle.lnbd_copy.specs.Moving.{HasMoved, SomethingHappens, Stirs, TurnsInVain};
ghost use Rattle.lnbd_copy.specs.Opening.{Dials};
ghost use Rattle.lnbd_copy.specs.Pace.{IsPaced, StaysPaced, TriesAtMost};
ghost use Rattle.lnbd_conduct.specs.Pauses.{KeepsPace, WantsOnlyFull, TriedBefore, WantsOnlyEmpty, WantsSome};
ghost use Rattle.lnbd_usage.specs.Pauses.{AtEachPause};
ghost use Rattle.lnbd_copy.specs.Patient.{HasWaited, StaysPatient, may_end_waiting};
ghost use Rattle.lnbd_copy.specs.Pauses.{Pauses, Unpaused, WantsInVain};
ghost use Rattle.lnbd_copy.specs.Spread.{AreSpread};
ghost use Rattle.lnbd_conduct.specs.Shares.{IsShared};
ghost use Rattle.lnbd_conduct.specs.Answered.{ReadsAreAnswered};
ghost use Rattle.lnbd_copy.specs.Summed.{HasSummed, IsTally};
ghost use Rattle.lnbd_copy.specs.Tried.{AnyLeft, NoneLeft, TriedBut, Tries, TriesAll};
ghost use Rattle.lnbd_copy.specs.Unanswered.{HasAllAsked};
ghost use Rattle.lnbd_copy.specs.UnderWay.{IsBusy};
ghost use Rattle.lnbd_copy.specs.Unready.{IsEarlyPause, IsOpeningPause, StaysUnready};
ghost use Rattle.lnbd_copy.specs.Waits.{AreUnparted};
ghost use Rattle.lnbd_copy.specs.Way.{Goes, Stand};
ghost use Rattle.lnbd_conduct.specs.Told.{Told};
ghost use Rattle.lnbd_conduct.specs.Sides.{is_source};

use crate::agreeing::{agree, tells_extents};
use crate::counts::{Counts, check_counts, check_idles};
use crate::dialing::{dial, settle, wait};
use crate::job::Job;
use crate::parting::{shut_all, shut_parted};
use crate::telling::progress_of;
use crate::terms::UNKNOWN;
use crate::turning::turn;
use lnbd_board::{Board, Ticket};
use lnbd_conduct::{ONE_EACH, Sides, Terms};
use lnbd_link::Wires;
use lnbd_model::{NoMemory, Place};
use lnbd_plan::{CopyFault, CopyOptions, Summary};
use lnbd_poll::{Handles, Turn};
use std::alloc::Global;
use std::marker::Model;
use std::mem;

/// What a turn did.
#[derive(Clone, Copy, Debug, PartialEq, Eq)]
pub enum Progress {
    /// So many bytes moved, or the copy went on in another way.
    Moved(usize),
    /// Nothing happened on any link, and nothing was asked: it is time to wait.
    Still,
    /// All is copied, and each connection has parted.
    Finished(Summary),
}

/// A copy under way. It must be spent, by `run` or by `end`. Contracts see what it is a copy of, what the wires had counted when it
/// began, its connections, its board, and what is under way.
pub struct Copier {
    alloc: Global,
    options: CopyOptions,
    from: Place,
    to: Place,
    handles: Handles<Ticket>,
    board: Board,
    start: Counts,
    job: Option<Job>,
}

impl Model for Copier {
    ghost use Rattle.lnbd_conduct.specs.Limits.{AreLimited};
    ghost use Rattle.lnbd_copy.specs.Copier.{Seen};

    ghost Value = { Seen };

    ghost view = { λ c. record { options = c.options; from = c.from; to = c.to; start = c.start; held = c.handles; board = c.board; job = c.job } };

    ghost invariant = { λ c. AreLimited c.options };
}

impl Copier {
    /// A copy that has not begun, by options within their limits. It takes no memory.
    pub fn new(alloc: Global, options: CopyOptions, from: Place, to: Place) -> Copier
        requires { AreLimited options }
        ensures begun { HasNotBegun result }
        ensures what { (result.options ≡ options) × (result.from ≡ from) × (result.to ≡ to) }
    {
        Copier {
            alloc,
            options,
            from,
            to,
            handles: Handles::new(alloc),
            board: Board::new(alloc, UNKNOWN),
            start: Counts {
                faults: 0,
                idles: 0,
            },
            job: None,
        }
    }

    /// Makes all connections, which negotiate, settles how the copy is made, and asks for what can be asked for at first. Nothing of that is
    /// written yet.
    ///
    /// # Errors
    ///
    /// `Rule` where the two exports don't fit, `Link` where a call on the wires failed, `Broke` where a peer broke the protocol,
    /// ended its connection or told another export on a further connection, `Peer` where it refused the export, `Silent` where
    /// the wires were idle for too long. `NoMemory` may come in place of every other answer. All links are then shut.
    #[tactic(auto, using(crate::proofs::CauseLemmas::goes_same, crate::proofs::CauseLemmas::goes_then, crate::proofs::CauseLemmas::cause_later, crate::proofs::CauseLemmas::cause_free, crate::proofs::ConnectLemmas::within_end))]
    pub fn begin<W: Wires>(&mut self, wires: &mut W) -> Result<(), CopyFault>
        requires { HasNotBegun self.old }

        // What the wires had counted is kept.
        ensures began { self.new.start ≡ record { faults = W.faults wires.old; idles = W.idles wires.old } }
        ensures kept { self.new ≡ record self.old { start = self.new.start; held = self.new.held; board = self.new.board; job = self.new.job } }
        // All connections stand, and nothing is copied yet; or none is held any more.
        ensures begins { OnOk result (IsOnItsWay (W.told wires.old) (W.told wires.new) self.new) }
        ensures shut { OnErr result (self.new.held ≡ []) }
        // Nothing is asked in it, whatever it comes to.
        ensures unasked { Told (W.told wires.old) (W.told wires.new) (AsksNothing self.old.from self.old.to) }
        // One handle drove each link that it made, as a copy does, each side's as often as the options and what both told say, and it read and wrote no other.
        ensures drives { Told (W.told wires.old) (W.told wires.new) (AreDrivenBy self.old.options self.old.from self.old.to) }
        // Its links are kept, and it connected to its two places alone, as often as its options and what both sides told say, and each connect gave a link; or not that often where it failed.
        ensures links { LinksGoWithin self.old.options self.old.from self.old.to self.old.held (W.told wires.old) self.new.held (W.told wires.new) }
        ensures connects { OnOk result (LinksGoAsTold self.old.options self.old.from self.old.to self.old.held (W.told wires.old) self.new.held (W.told wires.new)) }
        // Whatever came of it, it paused only while a connection negotiated, unless it waited to write.
        ensures unready { Told (W.told wires.old) (W.told wires.new) (AtEachPause (IsOpeningPause self.old.options.extents self.old.from self.old.to)) }
        // At each pause a link was wanted for writing only where a write on it took nothing, and nothing happened since on any link.
        ensures writes { Told (W.told wires.old) (W.told wires.new) (AtEachPause WantsOnlyFull) }
        // It was wanted for reading only where a read on it told that nothing is there yet, and nothing happened since on any link.
        ensures reads { Told (W.told wires.old) (W.told wires.new) (AtEachPause WantsOnlyEmpty) }
        // It was wanted only where its handle negotiated, had commands in flight, had bytes to write, or had asked for the end of its connection, and in that handle's direction.
        ensures waits { Told (W.told wires.old) (W.told wires.new) (AtEachPause WaitsWell) }
        // At least one link was.
        ensures wanted { Told (W.told wires.old) (W.told wires.new) (AtEachPause WantsSome) }
        // By then no more was written on each than a handshake has.
        ensures little { Told (W.told wires.old) (W.told wires.new) (AtEachPause WroteHandshakes) }
        // No link was left out whose handle waited for anything.
        ensures wants_all { Told (W.told wires.old) (W.told wires.new) (AtEachPause (WantsAll self.old.options.extents self.old.from self.old.to)) }
        // Each was tried before the next pause, and where all connections stand also since the last.
        ensures tries { Told (W.told wires.old) (W.told wires.new) (AtEachPause TriedBefore) }
        ensures tried { OnOk result (Told (W.told wires.old) (W.told wires.new) (TriedBut NoneLeft)) }
        // While no pause is made and nothing happens on any link, none is tried in vain more than twice; and where all connections stand, more than once since something happened last.
        ensures paces { Told (W.told wires.old) (W.told wires.new) KeepsPace }
        ensures paced { OnOk result (Told (W.told wires.old) (W.told wires.new) (IsPaced 1)) }
        // What can be asked at first was asked of the handles, and nothing is to be asked until something comes.
        ensures awaits { OnOk result (Told (W.told wires.old) (W.told wires.new) (λ calls. AwaitsAll self.new.job self.new.board)) }
        // What the calls show of a fault.
        ensures grounds { IfErr result (λ told. IsGrounded (W.told wires.old) (W.told wires.new) self.old.options.extents self.old.from self.old.to told) }
        // The first event decided it for which a copy ends: before that nothing of the kind had come.
        ensures decides { IfErr result (λ told. IsDecided (W.told wires.old) (W.told wires.new) self.old.options self.old.from self.old.to told) }
        // The wires counted each of its pauses, of which there were no more than are borne; and where it ends neither by silence nor for want of memory, fewer.
        ensures patient { OnOk result (Told (W.told wires.old) (W.told wires.new) (HasWaited false (W.idles wires.old) (W.idles wires.new))) }
        ensures impatient { IfErr result (λ told. Told (W.told wires.old) (W.told wires.new) (HasWaited (may_end_waiting told) (W.idles wires.old) (W.idles wires.new))) }
        // The counts, and what they show of a fault.
        ensures causes { IfErr result (λ told. HasCause self.new.start (W.faults wires.new) (W.idles wires.new) told) }
        ensures counts { GoesOn (W.faults wires.old) (W.faults wires.new) (W.idles wires.old) (W.idles wires.new) (W.contents wires.old) (W.contents wires.new) }
    {
        self.start = Counts::of(wires);
        let told = self.connect(wires);
        if told.is_err() {
            shut_all(&mut self.handles, &mut self.board, wires);
        }
        told
    }

    /// Makes all connections, the source's first and then the destination's, and behind them all further ones.
    #[tactic(auto, using(crate::proofs::CauseLemmas::goes_same, crate::proofs::CauseLemmas::goes_then, crate::proofs::CauseLemmas::cause_later, crate::proofs::CauseLemmas::cause_free, crate::proofs::GroundLemmas::none_grounded, crate::proofs::DecidingLemmas::memory_decided))]
    fn connect<W: Wires>(&mut self, wires: &mut W) -> Result<(), CopyFault>
        requires begun { HasNotBegun self.old }
        requires faults { self.old.start.faults ≤ W.faults wires.old }
        requires idles { self.old.start.idles ≤ W.idles wires.old }
        ensures kept { self.new ≡ record self.old { held = self.new.held; board = self.new.board; job = self.new.job } }
        ensures begins { OnOk result (IsOnItsWay (W.told wires.old) (W.told wires.new) self.new) }
        ensures unasked { Told (W.told wires.old) (W.told wires.new) (AsksNothing self.old.from self.old.to) }
        ensures unready { Told (W.told wires.old) (W.told wires.new) (AtEachPause (IsEarlyPause self.old.options.extents self.old.from self.old.to)) }
        ensures vain { Pauses WantsInVain (W.told wires.old) (W.told wires.new) }
        ensures wanted { Pauses WantsSome (W.told wires.old) (W.told wires.new) }
        ensures little { Told (W.told wires.old) (W.told wires.new) (AtEachPause WroteHandshakes) }
        ensures tries { Tries AnyLeft (W.told wires.old) (W.told wires.new) }
        ensures tried { OnOk result (Tries NoneLeft (W.told wires.old) (W.told wires.new)) }
        ensures paces { Told (W.told wires.old) (W.told wires.new) (IsPaced 2) }
        ensures paced { OnOk result (Told (W.told wires.old) (W.told wires.new) (IsPaced 1)) }
        ensures awaits { OnOk result (Told (W.told wires.old) (W.told wires.new) (λ calls. AwaitsAll self.new.job self.new.board)) }
        ensures causes { IfErr result (λ told. HasCause self.old.start (W.faults wires.new) (W.idles wires.new) told) }
        ensures grounds { IfErr result (λ told. IsGrounded (W.told wires.old) (W.told wires.new) self.old.options.extents self.old.from self.old.to told) }
        ensures counts { GoesOn (W.faults wires.old) (W.faults wires.new) (W.idles wires.old) (W.idles wires.new) (W.contents wires.old) (W.contents wires.new) }
        ensures links { LinksGoWithin self.old.options self.old.from self.old.to self.old.held (W.told wires.old) self.new.held (W.told wires.new) }
        ensures connects { OnOk result (LinksGoAsTold self.old.options self.old.from self.old.to self.old.held (W.told wires.old) self.new.held (W.told wires.new)) }
        ensures drives { Told (W.told wires.old) (W.told wires.new) (AreDrivenBy self.old.options self.old.from self.old.to) }
        ensures decides { IfErr result (λ told. IsDecided (W.told wires.old) (W.told wires.new) self.old.options self.old.from self.old.to told) }
        ensures patient { OnOk result (StaysPatient false self.old.start.idles (W.told wires.old) (W.idles wires.old) (W.told wires.new) (W.idles wires.new)) }
        ensures impatient { IfErr result (λ told. StaysPatient (may_end_waiting told) self.old.start.idles (W.told wires.old) (W.idles wires.old) (W.told wires.new) (W.idles wires.new)) }
    {
        let terms = self.meet(wires)?;
        self.dial_further(wires, terms.sides)?;
        Ok(self.set_up(terms)?)
    }

    /// Makes the first connection of each side, the source's first, and settles how the copy is made.
    #[tactic(auto, using(crate::proofs::CauseLemmas::goes_same, crate::proofs::CauseLemmas::goes_then, crate::proofs::CauseLemmas::cause_later, crate::proofs::CauseLemmas::cause_free, crate::proofs::GroundLemmas::none_grounded, crate::proofs::DecidingLemmas::memory_decided))]
    fn meet<W: Wires>(&mut self, wires: &mut W) -> Result<Terms, CopyFault>
        requires begun { HasNotBegun self.old }
        requires faults { self.old.start.faults ≤ W.faults wires.old }
        requires idles { self.old.start.idles ≤ W.idles wires.old }
        ensures kept { self.new ≡ record self.old { held = self.new.held; board = self.new.board } }
        ensures met { IfOk result (λ terms. HasMet self.new (W.told wires.old) (W.told wires.new) terms) }
        ensures two { OnOk result (length self.new.held ≡ 2) }
        ensures calm { OnOk result (IsCalm (Some one_each) self.new.board self.new.held) }
        ensures many { IfOk result (λ terms. 0 < terms.sides.source) }
        ensures cells { IfOk result (λ terms. (0 < terms.cell) × (0 < terms.zero_cell) × (0 < terms.grain)) }
        ensures size { IfOk result (λ terms. terms.size ≤ 2 ^ 63) }
        ensures unasked { Told (W.told wires.old) (W.told wires.new) (AsksNothing self.old.from self.old.to) }
        ensures unissued { OnOk result (Told (W.told wires.old) (W.told wires.new) (λ calls. AreUnissued self.new.held)) }
        ensures unready { Told (W.told wires.old) (W.told wires.new) (AtEachPause (IsEarlyPause self.old.options.extents self.old.from self.old.to)) }
        ensures vain { Pauses WantsInVain (W.told wires.old) (W.told wires.new) }
        ensures wanted { Pauses WantsSome (W.told wires.old) (W.told wires.new) }
        ensures little { Told (W.told wires.old) (W.told wires.new) (AtEachPause WroteHandshakes) }
        ensures tries { Tries AnyLeft (W.told wires.old) (W.told wires.new) }
        ensures tried { OnOk result (Tries NoneLeft (W.told wires.old) (W.told wires.new)) }
        ensures paces { Told (W.told wires.old) (W.told wires.new) (IsPaced 2) }
        ensures paced { OnOk result (Told (W.told wires.old) (W.told wires.new) (IsPaced 1)) }
        ensures causes { IfErr result (λ told. HasCause self.old.start (W.faults wires.new) (W.idles wires.new) told) }
        ensures grounds { IfErr result (λ told. IsGrounded (W.told wires.old) (W.told wires.new) self.old.options.extents self.old.from self.old.to told) }
        ensures counts { GoesOn (W.faults wires.old) (W.faults wires.new) (W.idles wires.old) (W.idles wires.new) (W.contents wires.old) (W.contents wires.new) }
        ensures links { LinksGoTo (self.old.from.to ∷ self.old.to.to ∷ []) self.old.held (W.told wires.old) self.new.held (W.told wires.new) }
        ensures connects { OnOk result (LinksGo (self.old.from.to ∷ self.old.to.to ∷ []) self.old.held (W.told wires.old) self.new.held (W.told wires.new)) }
        ensures connected { OnOk result (StaysConnected (W.told wires.old) (W.told wires.new)) }
        ensures drives { Told (W.told wires.old) (W.told wires.new) (AreDrivenTo (is_source one_each) self.old.options.extents self.old.options.destination_is_zero true self.old.from self.old.to) }
        ensures decides { IfErr result (λ told. IsDecided (W.told wires.old) (W.told wires.new) self.old.options self.old.from self.old.to told) }
        ensures patient { OnOk result (StaysPatient false self.old.start.idles (W.told wires.old) (W.idles wires.old) (W.told wires.new) (W.idles wires.new)) }
        ensures impatient { IfErr result (λ told. StaysPatient (may_end_waiting told) self.old.start.idles (W.told wires.old) (W.idles wires.old) (W.told wires.new) (W.idles wires.new)) }
    {
        let extents = self.options.extents;
        self.dial_source(wires, extents, ONE_EACH)?;
        self.settle(wires, ONE_EACH)?;
        self.dial_destination(wires, ONE_EACH)?;
        self.settle(wires, ONE_EACH)?;
        agree(&self.handles, self.options)
    }

    /// Makes ready what is done once all connections stand, and asks for what can be asked for at first. So a turn in which nothing
    /// happens finds nothing to ask for.
    #[tactic(auto, using(crate::proofs::LinkLemmas::same_none))]
    fn set_up(&mut self, terms: Terms) -> Result<(), NoMemory>
        requires cells { (0 < terms.cell) × (0 < terms.zero_cell) × (0 < terms.grain) }
        requires size { terms.size ≤ 2 ^ 63 }
        requires well { self.old.board.error ≡ None }
        requires quiet { AreQuiet self.old.held }
        requires same { AllSame terms.sides (length self.old.held) self.old.held }
        requires met { HasMetOnce self.old terms }
        requires many { length self.old.held ≡ terms.sides.source + terms.sides.destination }
        ensures kept { self.new ≡ record self.old { held = self.new.held; board = self.new.board; job = self.new.job } }
        ensures begins { (start told : Option (List Call)) → HasMet self.old start told terms → OnOk result (IsOnItsWay start told self.new) }
        ensures awaits { (start told : Option (List Call)) → HasMet self.old start told terms → OnOk result (Told start told (λ calls. AwaitsAll self.new.job self.new.board)) }
        ensures links { HaveSameLinks self.old.held self.new.held }
    {
        let extents = tells_extents(&self.handles)?;
        mem::replace(&mut self.board, Board::new(self.alloc, terms.how)).end();
        self.job = Some(Job::new(self.alloc, terms, extents)?);
        self.act()?;
        Ok(())
    }

    /// One connection more to the source.
    fn dial_source<W: Wires>(
        &mut self,
        wires: &mut W,
        extents: bool,
        sides: Sides,
    ) -> Result<(), CopyFault>
        requires few { length self.old.held < max_held }
        requires calm { IsCalm (Some sides) self.old.board self.old.held }
        requires faults { self.old.start.faults ≤ W.faults wires.old }
        ensures kept { self.new ≡ record self.old { held = self.new.held; board = self.new.board } }
        ensures dials { OnOk result (Dials self.old.from extents self.old.board self.old.held (W.told wires.old) self.new.held (W.told wires.new)) }
        ensures unpaused { Unpaused (W.told wires.old) (W.told wires.new) }
        ensures untried { TriesAtMost 0 (W.told wires.old) (W.told wires.new) }
        ensures board { OnOk result (self.new.board ≡ self.old.board) }
        ensures unasked { StaysUnasked self.old.from self.old.to (W.told wires.old) (W.told wires.new) }
        ensures unissued { OnOk result (AreUnissued self.old.held → AreUnissued self.new.held) }
        ensures causes { IfErr result (λ told. HasCause self.old.start (W.faults wires.new) (W.idles wires.new) told) }
        ensures free { IfErr result (λ told. needs_no_ground told ≡ true) }
        ensures counts { GoesOn (W.faults wires.old) (W.faults wires.new) (W.idles wires.old) (W.idles wires.new) (W.contents wires.old) (W.contents wires.new) }
        ensures links { LinksGoTo (self.old.from.to ∷ []) self.old.held (W.told wires.old) self.new.held (W.told wires.new) }
        ensures connects { OnOk result (LinksGo (self.old.from.to ∷ []) self.old.held (W.told wires.old) self.new.held (W.told wires.new)) }
        ensures connected { OnOk result (StaysConnected (W.told wires.old) (W.told wires.new)) }
        ensures drives { DrivesOneMore self.old.from extents self.old.board self.old.held (W.told wires.old) (W.told wires.new) }
        ensures decides { IfErr result (λ told. DecidesOn (Some sides) false self.old.board self.old.held (W.told wires.old) (W.told wires.new) told) }
        ensures calm { OnOk result (IsCalm (Some sides) self.new.board self.new.held) }
    {
        dial(
            self.alloc,
            &mut self.handles,
            &mut self.board,
            wires,
            &self.from,
            extents,
            self.start,
            sides,
        )
    }

    /// One connection more to the destination.
    fn dial_destination<W: Wires>(&mut self, wires: &mut W, sides: Sides) -> Result<(), CopyFault>
        requires few { length self.old.held < max_held }
        requires calm { IsCalm (Some sides) self.old.board self.old.held }
        requires faults { self.old.start.faults ≤ W.faults wires.old }
        ensures kept { self.new ≡ record self.old { held = self.new.held; board = self.new.board } }
        ensures dials { OnOk result (Dials self.old.to false self.old.board self.old.held (W.told wires.old) self.new.held (W.told wires.new)) }
        ensures unpaused { Unpaused (W.told wires.old) (W.told wires.new) }
        ensures untried { TriesAtMost 0 (W.told wires.old) (W.told wires.new) }
        ensures board { OnOk result (self.new.board ≡ self.old.board) }
        ensures unasked { StaysUnasked self.old.from self.old.to (W.told wires.old) (W.told wires.new) }
        ensures unissued { OnOk result (AreUnissued self.old.held → AreUnissued self.new.held) }
        ensures causes { IfErr result (λ told. HasCause self.old.start (W.faults wires.new) (W.idles wires.new) told) }
        ensures free { IfErr result (λ told. needs_no_ground told ≡ true) }
        ensures counts { GoesOn (W.faults wires.old) (W.faults wires.new) (W.idles wires.old) (W.idles wires.new) (W.contents wires.old) (W.contents wires.new) }
        ensures links { LinksGoTo (self.old.to.to ∷ []) self.old.held (W.told wires.old) self.new.held (W.told wires.new) }
        ensures connects { OnOk result (LinksGo (self.old.to.to ∷ []) self.old.held (W.told wires.old) self.new.held (W.told wires.new)) }
        ensures connected { OnOk result (StaysConnected (W.told wires.old) (W.told wires.new)) }
        ensures drives { DrivesOneMore self.old.to false self.old.board self.old.held (W.told wires.old) (W.told wires.new) }
        ensures decides { IfErr result (λ told. DecidesOn (Some sides) false self.old.board self.old.held (W.told wires.old) (W.told wires.new) told) }
        ensures calm { OnOk result (IsCalm (Some sides) self.new.board self.new.held) }
    {
        dial(
            self.alloc,
            &mut self.handles,
            &mut self.board,
            wires,
            &self.to,
            false,
            self.start,
            sides,
        )
    }

    /// Waits until all have negotiated.
    fn settle<W: Wires>(&mut self, wires: &mut W, sides: Sides) -> Result<(), CopyFault>
        requires faults { self.old.start.faults ≤ W.faults wires.old }
        requires idles { self.old.start.idles ≤ W.idles wires.old }
        requires calm { IsCalm (Some sides) self.old.board self.old.held }
        ensures kept { self.new ≡ record self.old { held = self.new.held; board = self.new.board } }
        ensures goes { OnOk result (Goes self.old.board self.old.held (W.told wires.old) self.new.board self.new.held (W.told wires.new)) }
        ensures quiet { OnOk result (AreQuiet self.new.held) }
        ensures asks { AsksNone self.old.board self.old.held (W.told wires.old) (W.told wires.new) }
        ensures fresh { OnOk result (StaysFresh self.old.board self.old.held (W.told wires.old) self.new.board self.new.held (W.told wires.new)) }
        ensures unready { StaysUnready self.old.board self.old.held (W.told wires.old) (W.told wires.new) }
        ensures vain { Stand self.old.held → Pauses WantsInVain (W.told wires.old) (W.told wires.new) }
        ensures wanted { Stand self.old.held → Pauses WantsSome (W.told wires.old) (W.told wires.new) }
        ensures little { StaysLittle self.old.board self.old.held (W.told wires.old) (W.told wires.new) }
        ensures tries { Stand self.old.held → Tries AnyLeft (W.told wires.old) (W.told wires.new) }
        ensures tried { OnOk result (Stand self.old.held → Tries NoneLeft (W.told wires.old) (W.told wires.new)) }
        ensures paces { StaysPaced 2 self.old.board self.old.held (W.told wires.old) (W.told wires.new) }
        ensures paced { OnOk result (StaysPaced 1 self.old.board self.old.held (W.told wires.old) (W.told wires.new)) }
        ensures causes { IfErr result (λ told. HasCause self.old.start (W.faults wires.new) (W.idles wires.new) told) }
        ensures counts { GoesOn (W.faults wires.old) (W.faults wires.new) (W.idles wires.old) (W.idles wires.new) (W.contents wires.old) (W.contents wires.new) }
        ensures links { Stand self.old.held → LinksGo [] self.old.held (W.told wires.old) self.new.held (W.told wires.new) }
        ensures drives { DrivesOn self.old.board self.old.held (W.told wires.old) (W.told wires.new) }
        ensures decides { IfErr result (λ told. DecidesOn (Some sides) false self.old.board self.old.held (W.told wires.old) (W.told wires.new) told) }
        ensures calm { OnOk result (IsCalm (Some sides) self.new.board self.new.held) }
        ensures patient { OnOk result (Stand self.old.held → StaysPatient false self.old.start.idles (W.told wires.old) (W.idles wires.old) (W.told wires.new) (W.idles wires.new)) }
        ensures impatient { IfErr result (λ told. Stand self.old.held → StaysPatient (may_end_waiting told) self.old.start.idles (W.told wires.old) (W.idles wires.old) (W.told wires.new) (W.idles wires.new)) }
    {
        settle(&mut self.handles, &mut self.board, wires, self.start, sides)
    }

    /// Makes the further connections, the source's first.
    #[tactic(auto, using(crate::proofs::CauseLemmas::goes_same, crate::proofs::CauseLemmas::goes_then, crate::proofs::CauseLemmas::cause_later, crate::proofs::CauseLemmas::cause_free, crate::proofs::GroundLemmas::none_grounded, crate::proofs::DecidingLemmas::memory_decided))]
    fn dial_further<W: Wires>(&mut self, wires: &mut W, sides: Sides) -> Result<(), CopyFault>
        requires faults { self.old.start.faults ≤ W.faults wires.old }
        requires idles { self.old.start.idles ≤ W.idles wires.old }
        requires some { 0 < sides.source }
        requires two { length self.old.held ≡ 2 }
        requires few { sides.source + sides.destination < max_held }
        requires calm { IsCalm (Some sides) self.old.board self.old.held }
        ensures kept { self.new ≡ record self.old { held = self.new.held; board = self.new.board } }
        ensures further { OnOk result (GoesFurther self.old sides 2 self.old.board self.old.held (W.told wires.old) self.new.board self.new.held (W.told wires.new)) }
        ensures quiet { OnOk result (AreQuiet self.new.held) }
        ensures many { OnOk result (Stand self.old.held → length self.old.held ≡ 2 → 0 < sides.destination → length self.new.held ≡ sides.source + sides.destination) }
        ensures unasked { (start : Option (List Call)) (terms : Settled) → HasMet self.old start (W.told wires.old) terms → sides ≡ terms.sides → Told start (W.told wires.old) (λ calls. AreUnissued self.old.held) → length self.old.held ≡ 2 → Told start (W.told wires.new) (AsksNothing self.old.from self.old.to) }
        ensures unready { (start : Option (List Call)) (terms : Settled) → HasMet self.old start (W.told wires.old) terms → sides ≡ terms.sides → length self.old.held ≡ 2 → Told start (W.told wires.old) (LinksStand self.old.held) → Told start (W.told wires.old) (AtEachPause (IsEarlyPause self.old.options.extents self.old.from self.old.to)) → Told start (W.told wires.new) (AtEachPause (IsEarlyPause self.old.options.extents self.old.from self.old.to)) }
        ensures vain { Stand self.old.held → Pauses WantsInVain (W.told wires.old) (W.told wires.new) }
        ensures wanted { Stand self.old.held → Pauses WantsSome (W.told wires.old) (W.told wires.new) }
        ensures little { (start : Option (List Call)) (terms : Settled) → HasMet self.old start (W.told wires.old) terms → sides ≡ terms.sides → Told start (W.told wires.old) (λ calls. AreUnissued self.old.held) → length self.old.held ≡ 2 → Told start (W.told wires.old) (AtEachPause WroteHandshakes) → Told start (W.told wires.new) (AtEachPause WroteHandshakes) }
        ensures tries { Stand self.old.held → Tries AnyLeft (W.told wires.old) (W.told wires.new) }
        ensures tried { OnOk result (Stand self.old.held → Tries NoneLeft (W.told wires.old) (W.told wires.new)) }
        ensures paces { (start : Option (List Call)) (terms : Settled) → HasMet self.old start (W.told wires.old) terms → sides ≡ terms.sides → length self.old.held ≡ 2 → Told start (W.told wires.old) (IsPaced 1) → Told start (W.told wires.new) (IsPaced 2) }
        ensures paced { OnOk result ((start : Option (List Call)) (terms : Settled) → HasMet self.old start (W.told wires.old) terms → sides ≡ terms.sides → length self.old.held ≡ 2 → Told start (W.told wires.old) (IsPaced 1) → Told start (W.told wires.new) (IsPaced 1)) }
        ensures causes { IfErr result (λ told. HasCause self.old.start (W.faults wires.new) (W.idles wires.new) told) }
        ensures grounds { IfErr result (λ told. (start : Option (List Call)) (terms : Settled) → HasMet self.old start (W.told wires.old) terms → sides ≡ terms.sides → length self.old.held ≡ 2 → IsGrounded start (W.told wires.new) self.old.options.extents self.old.from self.old.to told) }
        ensures counts { GoesOn (W.faults wires.old) (W.faults wires.new) (W.idles wires.old) (W.idles wires.new) (W.contents wires.old) (W.contents wires.new) }
        ensures links { Stand self.old.held → LinksGoTo (replicate (sides.source - 1) self.old.from.to ++ replicate (sides.destination - 1) self.old.to.to) self.old.held (W.told wires.old) self.new.held (W.told wires.new) }
        ensures connects { OnOk result (Stand self.old.held → LinksGo (replicate (sides.source - 1) self.old.from.to ++ replicate (sides.destination - 1) self.old.to.to) self.old.held (W.told wires.old) self.new.held (W.told wires.new)) }
        ensures connected { OnOk result (Stand self.old.held → StaysConnected (W.told wires.old) (W.told wires.new)) }
        ensures drives { (start : Option (List Call)) (terms : Settled) → HasMet self.old start (W.told wires.old) terms → sides ≡ terms.sides → length self.old.held ≡ 2 → Told start (W.told wires.new) (AreDrivenTo (is_source sides) self.old.options.extents self.old.options.destination_is_zero true self.old.from self.old.to) }
        ensures calm { OnOk result (IsCalm (Some sides) self.new.board self.new.held) }
        ensures decides { IfErr result (λ told. (start : Option (List Call)) (terms : Settled) → HasMet self.old start (W.told wires.old) terms → sides ≡ terms.sides → length self.old.held ≡ 2 → IsDecided start (W.told wires.new) self.old.options self.old.from self.old.to told) }
        ensures patient { OnOk result (Stand self.old.held → StaysPatient false self.old.start.idles (W.told wires.old) (W.idles wires.old) (W.told wires.new) (W.idles wires.new)) }
        ensures impatient { IfErr result (λ told. Stand self.old.held → StaysPatient (may_end_waiting told) self.old.start.idles (W.told wires.old) (W.idles wires.old) (W.told wires.new) (W.idles wires.new)) }
    {
        self.dial_sources(wires, sides)?;
        self.dial_destinations(wires, sides)?;
        self.settle(wires, sides)
    }

    #[tactic(auto, using(crate::proofs::CauseLemmas::goes_same, crate::proofs::CauseLemmas::goes_then, crate::proofs::CauseLemmas::cause_later, crate::proofs::CauseLemmas::cause_free, crate::proofs::PauseLemmas::unpaused_none, crate::proofs::PaceLemmas::tires_none, crate::proofs::LinkLemmas::links_none))]
    fn dial_sources<W: Wires>(&mut self, wires: &mut W, sides: Sides) -> Result<(), CopyFault>
        requires faults { self.old.start.faults ≤ W.faults wires.old }
        requires some { 0 < sides.source }
        requires two { length self.old.held ≡ 2 }
        requires few { sides.source < max_held }
        requires calm { IsCalm (Some sides) self.old.board self.old.held }
        ensures kept { self.new ≡ record self.old { held = self.new.held; board = self.new.board } }
        ensures further { OnOk result (GoesFurther self.old sides 2 self.old.board self.old.held (W.told wires.old) self.new.board self.new.held (W.told wires.new)) }
        ensures many { OnOk result (length self.old.held ≡ 2 → length self.new.held ≡ sides.source + 1) }
        ensures unasked { StaysUnasked self.old.from self.old.to (W.told wires.old) (W.told wires.new) }
        ensures unissued { OnOk result (AreUnissued self.old.held → AreUnissued self.new.held) }
        ensures unpaused { Unpaused (W.told wires.old) (W.told wires.new) }
        ensures untried { TriesAtMost 0 (W.told wires.old) (W.told wires.new) }
        ensures causes { IfErr result (λ told. HasCause self.old.start (W.faults wires.new) (W.idles wires.new) told) }
        ensures free { IfErr result (λ told. needs_no_ground told ≡ true) }
        ensures counts { GoesOn (W.faults wires.old) (W.faults wires.new) (W.idles wires.old) (W.idles wires.new) (W.contents wires.old) (W.contents wires.new) }
        ensures links { LinksGoTo (replicate (sides.source - 1) self.old.from.to) self.old.held (W.told wires.old) self.new.held (W.told wires.new) }
        ensures connects { OnOk result (LinksGo (replicate (sides.source - 1) self.old.from.to) self.old.held (W.told wires.old) self.new.held (W.told wires.new)) }
        ensures connected { OnOk result (StaysConnected (W.told wires.old) (W.told wires.new)) }
        ensures drives { DrivesFurther self.old sides 2 (W.told wires.old) (W.told wires.new) }
        ensures decides { IfErr result (λ told. DecidesFurther self.old sides 2 (W.told wires.old) (W.told wires.new) told) }
        ensures calm { OnOk result (IsCalm (Some sides) self.new.board self.new.held) }
    {
        'further: for connection in 1..sides.source {
            self.dial_source(wires, false, sides)?;
        }
        Ok(())
    }

    #[tactic(auto, using(crate::proofs::CauseLemmas::goes_same, crate::proofs::CauseLemmas::goes_then, crate::proofs::CauseLemmas::cause_later, crate::proofs::CauseLemmas::cause_free, crate::proofs::PauseLemmas::unpaused_none, crate::proofs::PaceLemmas::tires_none, crate::proofs::LinkLemmas::links_none))]
    fn dial_destinations<W: Wires>(&mut self, wires: &mut W, sides: Sides) -> Result<(), CopyFault>
        requires faults { self.old.start.faults ≤ W.faults wires.old }
        requires few { length self.old.held + sides.destination ≤ max_held }
        requires calm { IsCalm (Some sides) self.old.board self.old.held }
        ensures kept { self.new ≡ record self.old { held = self.new.held; board = self.new.board } }
        ensures further { OnOk result (GoesFurther self.old sides (sides.source + 1) self.old.board self.old.held (W.told wires.old) self.new.board self.new.held (W.told wires.new)) }
        ensures many { OnOk result (0 < sides.destination → length self.new.held + 1 ≡ length self.old.held + sides.destination) }
        ensures unasked { StaysUnasked self.old.from self.old.to (W.told wires.old) (W.told wires.new) }
        ensures unissued { OnOk result (AreUnissued self.old.held → AreUnissued self.new.held) }
        ensures unpaused { Unpaused (W.told wires.old) (W.told wires.new) }
        ensures untried { TriesAtMost 0 (W.told wires.old) (W.told wires.new) }
        ensures causes { IfErr result (λ told. HasCause self.old.start (W.faults wires.new) (W.idles wires.new) told) }
        ensures free { IfErr result (λ told. needs_no_ground told ≡ true) }
        ensures counts { GoesOn (W.faults wires.old) (W.faults wires.new) (W.idles wires.old) (W.idles wires.new) (W.contents wires.old) (W.contents wires.new) }
        ensures links { LinksGoTo (replicate (sides.destination - 1) self.old.to.to) self.old.held (W.told wires.old) self.new.held (W.told wires.new) }
        ensures connects { OnOk result (LinksGo (replicate (sides.destination - 1) self.old.to.to) self.old.held (W.told wires.old) self.new.held (W.told wires.new)) }
        ensures connected { OnOk result (StaysConnected (W.told wires.old) (W.told wires.new)) }
        ensures drives { DrivesFurther self.old sides (sides.source + 1) (W.told wires.old) (W.told wires.new) }
        ensures decides { IfErr result (λ told. DecidesFurther self.old sides (sides.source + 1) (W.told wires.old) (W.told wires.new) told) }
        ensures calm { OnOk result (IsCalm (Some sides) self.new.board self.new.held) }
    {
        'further: for connection in 1..sides.destination {
            self.dial_destination(wires, sides)?;
        }
        Ok(())
    }

    /// One turn over all connections, and then whatever can be asked for. `Still`: nothing happened, and nothing was asked.
    ///
    /// # Errors
    ///
    /// Those of `begin` but `Rule`; `Broke` also where a peer told faulty content, and `Peer` where it answered a command by an error. All links are then shut.
    #[tactic(auto, using(crate::proofs::CauseLemmas::goes_same, crate::proofs::CauseLemmas::goes_then, crate::proofs::CauseLemmas::cause_later, crate::proofs::CauseLemmas::cause_free, crate::proofs::LinkLemmas::links_none, crate::proofs::LinkLemmas::links_then))]
    pub fn turn<W: Wires>(&mut self, wires: &mut W) -> Result<Progress, CopyFault>
        requires going { IsGoing (W.told wires.old) self.old }
        requires faults { self.old.start.faults ≤ W.faults wires.old }
        requires idles { self.old.start.idles ≤ W.idles wires.old }
        ensures kept { self.new ≡ record self.old { held = self.new.held; board = self.new.board; job = self.new.job } }
        // It goes on, or it is finished and has copied; or no connection is held any more.
        ensures turns { IfOk result (λ told. (start : Option (List Call)) → IsOnItsWay start (W.told wires.old) self.old → HasTurned start (W.told wires.new) self.new told) }
        ensures shut { OnErr result (self.new.held ≡ []) }
        // Where it is finished, the summary says what its calls asked.
        ensures sums { IfOk result (λ told. (start : Option (List Call)) → IsOnItsWay start (W.told wires.old) self.old → HasSummed start (W.told wires.new) self.new told) }
        // Then no flush was asked for before all else was done, and one at most.
        ensures flushes { IfOk result (λ told. (start : Option (List Call)) → IsOnItsWay start (W.told wires.old) self.old → HasFlushed start (W.told wires.new) self.new told) }
        // While slices are copied, as much is under way as may be.
        ensures busy { OnOk result (IsBusy self.new.job self.new.board) }
        // On no connection are more slices begun and not over than the limit divided by the number of its side's, rounded up.
        ensures spread { OnOk result (AreSpread self.new.job self.new.board) }
        // No error was told.
        // Each slice that it began went to the connection of each side to which the fewest were bound then, of those begun and not over.
        ensures fewest { OnOk result (GoesToFewest self.old.job self.new.job self.old.board self.new.board) }
        // By its calls as much is unanswered then, where a pause for its connections would want no link for writing.
        ensures under_way { OnOk result ((start : Option (List Call)) → IsOnItsWay start (W.told wires.old) self.old → self.new.from ≢ self.new.to → HasAllAsked start (W.told wires.new) self.new) }
        // On no connection more is unanswered than its share of what may be.
        ensures shares { OnOk result ((start : Option (List Call)) → IsOnItsWay start (W.told wires.old) self.old → self.new.from ≢ self.new.to → Told start (W.told wires.new) (IsShared self.new.options self.new.from self.new.to)) }
        // By its calls little was written on the links that a pause for its connections would want.
        ensures little { OnOk result ((start : Option (List Call)) → IsOnItsWay start (W.told wires.old) self.old → Told start (W.told wires.new) (λ calls. WroteLittle self.new.options.extents self.new.from self.new.to calls (wants_now self.new.held))) }
        // Nothing was asked twice so far, and nothing past the source's end.
        ensures asks { OnOk result ((start : Option (List Call)) → IsOnItsWay start (W.told wires.old) self.old → self.new.from ≢ self.new.to → Told start (W.told wires.new) (HasAskedOnce self.new.options.allocated self.new.options.destination_is_zero self.new.from self.new.to)) }
        // Each position that was read so far was read after a block status had been answered for it, or the source's first
        // connection agreed no meta context, though base:allocation had been asked for where extents are wanted.
        ensures answered { OnOk result ((start : Option (List Call)) → IsOnItsWay start (W.told wires.old) self.old → self.new.from ≢ self.new.to → Told start (W.told wires.new) (ReadsAreAnswered self.new.options.extents self.new.from)) }
        // It doesn't pause. Each link for which its handles waited was tried in it, unless it failed.
        ensures unpaused { Unpaused (W.told wires.old) (W.told wires.new) }
        ensures tries { OnOk result ((start : Option (List Call)) → IsOnItsWay start (W.told wires.old) self.old → TriesAll self.old.held (W.told wires.old) (W.told wires.new)) }
        // `Still`: nothing happened on any link, though each was tried in its handle's direction.
        ensures still { IfOk result (λ told. told ≡ progress.Still → TurnsInVain self.new.held (W.told wires.old) (W.told wires.new)) }
        // `Moved`: something happened on a link, or bytes arrived that had been read of one; or else its board is not as it was, or what is under way isn't.
        ensures moved { IfOk result (λ told. (count : ℕ) → told ≡ progress.Moved count → HasMoved self.old self.new (W.told wires.old) (W.told wires.new)) }
        // Something did happen on a link, or such bytes arrived, where nothing was to be asked when it began; and nothing is then to be asked until something comes.
        ensures stirs { IfOk result (λ told. (count : ℕ) → told ≡ progress.Moved count → (start : Option (List Call)) → Told start (W.told wires.old) (λ calls. AwaitsAll self.old.job self.old.board) → Stirs self.old.held (W.told wires.old) (W.told wires.new)) }
        ensures awaits { OnOk result ((start : Option (List Call)) → IsOnItsWay start (W.told wires.old) self.old → Told start (W.told wires.new) (λ calls. AwaitsAll self.new.job self.new.board)) }
        // Whatever it comes to, no link is tried in vain twice in it.
        ensures once { (start : Option (List Call)) → IsOnItsWay start (W.told wires.old) self.old → TriesAtMost 1 (W.told wires.old) (W.told wires.new) }
        // Its links are kept, whether it goes on or not.
        ensures links { LinksGo [] self.old.held (W.told wires.old) self.new.held (W.told wires.new) }
        // Whatever it comes to, one handle drove each link that the copy made so far, as a copy does, and it read and wrote no other.
        ensures drives { (start : Option (List Call)) → IsOnItsWay start (W.told wires.old) self.old → Told start (W.told wires.new) (AreDrivenBy self.old.options self.old.from self.old.to) }
        // Whatever it comes to, nothing was asked twice in it, and each READ was answered for before.
        ensures fair { (start : Option (List Call)) → IsOnItsWay start (W.told wires.old) self.old → self.old.from ≢ self.old.to → Told start (W.told wires.old) (Behaves self.old.options self.old.from self.old.to) → Told start (W.told wires.new) (Behaves self.old.options self.old.from self.old.to) }
        // What the calls show of a fault.
        ensures grounds { IfErr result (λ told. (start : Option (List Call)) → IsOnItsWay start (W.told wires.old) self.old → IsGrounded start (W.told wires.new) self.old.options.extents self.old.from self.old.to told) }
        // The first event decided it for which a copy ends: before that nothing of the kind had come.
        ensures decides { IfErr result (λ told. (start : Option (List Call)) → IsOnItsWay start (W.told wires.old) self.old → IsDecided start (W.told wires.new) self.old.options self.old.from self.old.to told) }
        // Where it goes on nothing of the kind came yet.
        ensures untroubled { OnOk result ((start : Option (List Call)) → IsOnItsWay start (W.told wires.old) self.old → Told start (W.told wires.new) (WasUntroubledAs self.old.options self.old.from self.old.to)) }
        // The counts, and what they show of a fault; where it is finished they show none.
        ensures causes { IfErr result (λ told. HasCause self.old.start (W.faults wires.new) (W.idles wires.new) told) }
        ensures counts { GoesOn (W.faults wires.old) (W.faults wires.new) (W.idles wires.old) (W.idles wires.new) (W.contents wires.old) (W.contents wires.new) }
        ensures well { IfOk result (λ told. EndsWell self.old.start (W.faults wires.new) (W.idles wires.new) told) }
    {
        let told = self.go_on(wires);
        if told.is_err() {
            shut_all(&mut self.handles, &mut self.board, wires);
        }
        told
    }

    /// One turn, after which nothing is shut.
    #[tactic(auto, using(crate::proofs::CauseLemmas::goes_same, crate::proofs::CauseLemmas::goes_then, crate::proofs::CauseLemmas::cause_later, crate::proofs::CauseLemmas::cause_free, crate::proofs::GroundLemmas::none_grounded, crate::proofs::LinkLemmas::links_none, crate::proofs::LinkLemmas::links_then, crate::proofs::DecidingLemmas::memory_decided))]
    fn go_on<W: Wires>(&mut self, wires: &mut W) -> Result<Progress, CopyFault>
        requires going { IsGoing (W.told wires.old) self.old }
        requires faults { self.old.start.faults ≤ W.faults wires.old }
        requires idles { self.old.start.idles ≤ W.idles wires.old }
        ensures kept { self.new ≡ record self.old { held = self.new.held; board = self.new.board; job = self.new.job } }
        ensures turns { IfOk result (λ told. (start : Option (List Call)) → IsOnItsWay start (W.told wires.old) self.old → HasTurned start (W.told wires.new) self.new told) }
        ensures sums { IfOk result (λ told. (start : Option (List Call)) → IsOnItsWay start (W.told wires.old) self.old → HasSummed start (W.told wires.new) self.new told) }
        ensures busy { OnOk result (IsBusy self.new.job self.new.board) }
        ensures spread { OnOk result (AreSpread self.new.job self.new.board) }
        ensures fewest { OnOk result (GoesToFewest self.old.job self.new.job self.old.board self.new.board) }
        ensures under_way { OnOk result ((start : Option (List Call)) → IsOnItsWay start (W.told wires.old) self.old → self.new.from ≢ self.new.to → HasAllAsked start (W.told wires.new) self.new) }
        ensures shares { OnOk result ((start : Option (List Call)) → IsOnItsWay start (W.told wires.old) self.old → self.new.from ≢ self.new.to → Told start (W.told wires.new) (IsShared self.new.options self.new.from self.new.to)) }
        ensures little { OnOk result ((start : Option (List Call)) → IsOnItsWay start (W.told wires.old) self.old → Told start (W.told wires.new) (λ calls. WroteLittle self.new.options.extents self.new.from self.new.to calls (wants_now self.new.held))) }
        ensures flushes { IfOk result (λ told. (start : Option (List Call)) → IsOnItsWay start (W.told wires.old) self.old → HasFlushed start (W.told wires.new) self.new told) }
        ensures asks { OnOk result ((start : Option (List Call)) → IsOnItsWay start (W.told wires.old) self.old → self.new.from ≢ self.new.to → Told start (W.told wires.new) (HasAskedOnce self.new.options.allocated self.new.options.destination_is_zero self.new.from self.new.to)) }
        ensures answered { OnOk result ((start : Option (List Call)) → IsOnItsWay start (W.told wires.old) self.old → self.new.from ≢ self.new.to → Told start (W.told wires.new) (ReadsAreAnswered self.new.options.extents self.new.from)) }
        ensures unpaused { Unpaused (W.told wires.old) (W.told wires.new) }
        ensures tries { OnOk result ((start : Option (List Call)) → IsOnItsWay start (W.told wires.old) self.old → TriesAll self.old.held (W.told wires.old) (W.told wires.new)) }
        ensures still { IfOk result (λ told. told ≡ progress.Still → TurnsInVain self.new.held (W.told wires.old) (W.told wires.new)) }
        ensures moved { IfOk result (λ told. (count : ℕ) → told ≡ progress.Moved count → HasMoved self.old self.new (W.told wires.old) (W.told wires.new)) }
        ensures stirs { IfOk result (λ told. (count : ℕ) → told ≡ progress.Moved count → (start : Option (List Call)) → Told start (W.told wires.old) (λ calls. AwaitsAll self.old.job self.old.board) → Stirs self.old.held (W.told wires.old) (W.told wires.new)) }
        ensures awaits { OnOk result ((start : Option (List Call)) → IsOnItsWay start (W.told wires.old) self.old → Told start (W.told wires.new) (λ calls. AwaitsAll self.new.job self.new.board)) }
        ensures once { (start : Option (List Call)) → IsOnItsWay start (W.told wires.old) self.old → TriesAtMost 1 (W.told wires.old) (W.told wires.new) }
        ensures fair { (start : Option (List Call)) → IsOnItsWay start (W.told wires.old) self.old → self.old.from ≢ self.old.to → Told start (W.told wires.old) (Behaves self.old.options self.old.from self.old.to) → Told start (W.told wires.new) (Behaves self.old.options self.old.from self.old.to) }
        ensures causes { IfErr result (λ told. HasCause self.old.start (W.faults wires.new) (W.idles wires.new) told) }
        ensures grounds { IfErr result (λ told. (start : Option (List Call)) → IsOnItsWay start (W.told wires.old) self.old → IsGrounded start (W.told wires.new) self.old.options.extents self.old.from self.old.to told) }
        ensures counts { GoesOn (W.faults wires.old) (W.faults wires.new) (W.idles wires.old) (W.idles wires.new) (W.contents wires.old) (W.contents wires.new) }
        ensures links { LinksGo [] self.old.held (W.told wires.old) self.new.held (W.told wires.new) }
        ensures well { IfOk result (λ told. EndsWell self.old.start (W.faults wires.new) (W.idles wires.new) told) }
        ensures drives { (start : Option (List Call)) → IsOnItsWay start (W.told wires.old) self.old → Told start (W.told wires.new) (AreDrivenBy self.old.options self.old.from self.old.to) }
        ensures decides { IfErr result (λ told. (start : Option (List Call)) → IsOnItsWay start (W.told wires.old) self.old → IsDecided start (W.told wires.new) self.old.options self.old.from self.old.to told) }
        ensures untroubled { OnOk result ((start : Option (List Call)) → IsOnItsWay start (W.told wires.old) self.old → Told start (W.told wires.new) (WasUntroubledAs self.old.options self.old.from self.old.to)) }
    {
        let moved = self.take_turn(wires)?;
        let acted = self.act()?;
        let parted = self.part(wires);
        if self.is_finished() {
            check_counts(wires, self.start)?;
            return Ok(Progress::Finished(self.summary()));
        }
        Ok(progress_of(moved, acted || parted != 0))
    }

    /// One turn of the connections.
    #[tactic(auto, using(crate::proofs::CauseLemmas::goes_same, crate::proofs::CauseLemmas::goes_then, crate::proofs::CauseLemmas::cause_later, crate::proofs::CauseLemmas::cause_free, crate::proofs::GroundLemmas::none_grounded, crate::proofs::LinkLemmas::links_none, crate::proofs::LinkLemmas::links_then, crate::proofs::DecidingLemmas::memory_decided))]
    fn take_turn<W: Wires>(&mut self, wires: &mut W) -> Result<Turn, CopyFault>
        requires faults { self.old.start.faults ≤ W.faults wires.old }
        requires job { HasJob self.old }
        ensures kept { self.new ≡ record self.old { held = self.new.held; board = self.new.board } }
        ensures on { OnOk result ((start : Option (List Call)) → IsOnItsWay start (W.told wires.old) self.old → IsOnItsWay start (W.told wires.new) self.new) }
        ensures well { OnOk result (self.new.board.error ≡ None) }
        ensures leaves { OnOk result (Stand self.old.held → LeavesFewer self.old.board self.new.board) }
        ensures unpaused { Stand self.old.held → Unpaused (W.told wires.old) (W.told wires.new) }
        ensures tries { OnOk result ((start : Option (List Call)) → IsOnItsWay start (W.told wires.old) self.old → TriesAll self.old.held (W.told wires.old) (W.told wires.new)) }
        ensures still { IfOk result (λ told. told ≡ turned.Still → Stand self.old.held → TurnsInVain self.new.held (W.told wires.old) (W.told wires.new)) }
        ensures same { IfOk result (λ told. told ≡ turned.Still → Stand self.old.held → self.new.board ≡ self.old.board) }
        ensures moved { IfOk result (λ told. (count : ℕ) → told ≡ turned.Moved count → Stand self.old.held → Stirs self.old.held (W.told wires.old) (W.told wires.new)) }
        ensures once { (start : Option (List Call)) → IsOnItsWay start (W.told wires.old) self.old → TriesAtMost 1 (W.told wires.old) (W.told wires.new) }
        ensures fair { (start : Option (List Call)) → IsOnItsWay start (W.told wires.old) self.old → self.old.from ≢ self.old.to → Told start (W.told wires.old) (Behaves self.old.options self.old.from self.old.to) → Told start (W.told wires.new) (Behaves self.old.options self.old.from self.old.to) }
        ensures causes { IfErr result (λ told. HasCause self.old.start (W.faults wires.new) (W.idles wires.new) told) }
        ensures grounds { IfErr result (λ told. (start : Option (List Call)) → IsOnItsWay start (W.told wires.old) self.old → IsGrounded start (W.told wires.new) self.old.options.extents self.old.from self.old.to told) }
        ensures counts { GoesOn (W.faults wires.old) (W.faults wires.new) (W.idles wires.old) (W.idles wires.new) (W.contents wires.old) (W.contents wires.new) }
        ensures links { Stand self.old.held → LinksGo [] self.old.held (W.told wires.old) self.new.held (W.told wires.new) }
        ensures drives { (start : Option (List Call)) → IsOnItsWay start (W.told wires.old) self.old → Told start (W.told wires.new) (AreDrivenBy self.old.options self.old.from self.old.to) }
        ensures decides { IfErr result (λ told. (start : Option (List Call)) → IsOnItsWay start (W.told wires.old) self.old → IsDecided start (W.told wires.new) self.old.options self.old.from self.old.to told) }
        ensures untroubled { OnOk result ((start : Option (List Call)) → IsOnItsWay start (W.told wires.old) self.old → Told start (W.told wires.new) (WasUntroubledAs self.old.options self.old.from self.old.to)) }
    {
        let moved = turn(&mut self.handles, &mut self.board, wires, self.start, None)?;
        Ok(moved)
    }

    /// Asks for whatever can be asked for now. Whether anything was, or the copy went on in another way.
    #[tactic(auto, using(crate::proofs::LinkLemmas::same_none))]
    fn act(&mut self) -> Result<bool, NoMemory>
        requires job { HasJob self.old }
        requires well { self.old.board.error ≡ None }
        ensures kept { self.new ≡ record self.old { held = self.new.held; board = self.new.board; job = self.new.job } }
        ensures on { OnOk result ((start told : Option (List Call)) → IsOnItsWay start told self.old → IsOnItsWay start told self.new) }
        ensures busy { OnOk result ((start told : Option (List Call)) → IsOnItsWay start told self.old → IsBusy self.new.job self.new.board) }
        ensures fewest { OnOk result (GoesToFewest self.old.job self.new.job self.old.board self.new.board) }
        ensures still { IfOk result (λ acted. acted ≡ false → self.new.held ≡ self.old.held) }
        ensures acted { IfOk result (λ acted. acted ≡ true → self.new.board ≡ self.old.board → self.new.job ≢ self.old.job) }
        ensures awaits { OnOk result ((start told : Option (List Call)) → IsOnItsWay start told self.old → Told start told (λ calls. AwaitsAll self.new.job self.new.board)) }
        ensures idle { IfOk result (λ acted. AwaitsAll self.old.job self.old.board → acted ≡ false) }
        ensures links { HaveSameLinks self.old.held self.new.held }
    {
        match &mut self.job {
            Some(job) => job.act(self.alloc, &mut self.handles, &mut self.board),
            None => unreachable!(),
        }
    }

    /// Whether the connections part.
    fn is_parting(&self) -> bool
        ensures { result ≡ true → IsParting self.now }
    {
        match &self.job {
            Some(job) => job.is_parting(),
            None => false,
        }
    }

    /// Hangs up where a connection has parted. How many did.
    #[tactic(auto, using(crate::proofs::PauseLemmas::unpaused_none, crate::proofs::LinkLemmas::links_none, crate::proofs::LinkLemmas::links_then, crate::proofs::IdleLemmas::idly_none, crate::proofs::DecidingLemmas::shut_none))]
    fn part<W: Wires>(&mut self, wires: &mut W) -> usize
        ensures kept { self.new ≡ record self.old { held = self.new.held; board = self.new.board } }
        ensures on { (start : Option (List Call)) → IsOnItsWay start (W.told wires.old) self.old → IsOnItsWay start (W.told wires.new) self.new }
        ensures busy { IsBusy self.old.job self.old.board → IsBusy self.new.job self.new.board }
        ensures fewest { (job : Option Task) (first : Kept) → GoesToFewest job self.old.job first self.old.board → GoesToFewest job self.new.job first self.new.board }
        ensures awaits { AwaitsAll self.old.job self.old.board → AwaitsAll self.new.job self.new.board }
        ensures unpaused { Unpaused (W.told wires.old) (W.told wires.new) }
        ensures still { result ≡ 0 → (self.new.held ≡ self.old.held) × (wires.new ≡ wires.old) × (self.new.board ≡ self.old.board) }
        ensures happens { result ≢ 0 → SomethingHappens (W.told wires.old) (W.told wires.new) }
        ensures idly { GoesIdly (W.told wires.old) (W.told wires.new) }
        ensures counts { GoesOn (W.faults wires.old) (W.faults wires.new) (W.idles wires.old) (W.idles wires.new) (W.contents wires.old) (W.contents wires.new) }
        ensures links { LinksGo [] self.old.held (W.told wires.old) self.new.held (W.told wires.new) }
        ensures shuts { GoesShut (W.told wires.old) (W.told wires.new) }
    {
        if !self.is_parting() {
            return 0;
        }
        shut_parted(&mut self.handles, &mut self.board, wires)
    }

    /// Whether each connection has parted.
    fn is_finished(&self) -> bool
        ensures parting { result ≡ true → IsParting self.now }
        ensures parted { result ≡ true → self.now.held ≡ [] }
    {
        self.is_parting() && self.handles.is_empty()
    }

    /// What the copy did.
    fn summary(&self) -> Summary
        ensures counted { IsTally self.now result }
    {
        let size = match &self.job {
            Some(job) => job.size(),
            None => 0,
        };
        self.board.summary(size)
    }

    /// The wires waited for as long as is borne, if so.
    pub(crate) fn check_patience<W: Wires>(&self, wires: &W) -> Result<(), CopyFault>
        requires idles { self.now.start.idles ≤ W.idles wires.now }
        ensures well { OnOk result (¬ Rises patience self.now.start.idles (W.idles wires.now)) }
        ensures causes { IfErr result (λ told. HasCause self.now.start (W.faults wires.now) (W.idles wires.now) told) }
        ensures free { IfErr result (λ told. needs_no_ground told ≡ true) }
        ensures silent { IfErr result (λ told. may_end_waiting told ≡ true) }
    {
        check_idles(wires, self.start)
    }

    /// Waits, unless that was borne for as long as it is.
    pub(crate) fn rest<W: Wires>(&mut self, wires: &mut W) -> Result<(), CopyFault>
        requires idles { self.old.start.idles ≤ W.idles wires.old }
        ensures kept { self.new ≡ record self.old { held = self.new.held } }
        ensures on { OnOk result ((start : Option (List Call)) → IsOnItsWay start (W.told wires.old) self.old → IsOnItsWay start (W.told wires.new) self.new) }
        ensures pauses { OnOk result (Adds (W.told wires.old) (W.told wires.new) (Pause (wants_now self.old.held))) }
        ensures unparted { OnOk result (AreUnparted self.old.held) }
        ensures same { self.new.held ≡ self.old.held }
        ensures wanted { Pauses WantsSome (W.told wires.old) (W.told wires.new) }
        ensures idly { GoesIdly (W.told wires.old) (W.told wires.new) }
        ensures still { OnErr result (W.told wires.new ≡ W.told wires.old) }
        ensures causes { IfErr result (λ told. HasCause self.old.start (W.faults wires.new) (W.idles wires.new) told) }
        ensures free { IfErr result (λ told. needs_no_ground told ≡ true) }
        ensures counts { GoesOn (W.faults wires.old) (W.faults wires.new) (W.idles wires.old) (W.idles wires.new) (W.contents wires.old) (W.contents wires.new) }
        ensures links { LinksGo [] self.old.held (W.told wires.old) self.new.held (W.told wires.new) }
        ensures patient { StaysPatient true self.old.start.idles (W.told wires.old) (W.idles wires.old) (W.told wires.new) (W.idles wires.new) }
    {
        wait(&mut self.handles, wires, self.start)
    }

    /// Ends a copy, finished or not: frees all callbacks and shuts all links.
    pub fn end<W: Wires>(self, wires: &mut W)
        ensures parted { self.held ≡ [] → wires.new ≡ wires.old }
        ensures links { LinksGo [] self.held (W.told wires.old) [] (W.told wires.new) }
        ensures lasts { Lasts (W.told wires.old) (W.told wires.new) }
        ensures idly { GoesIdly (W.told wires.old) (W.told wires.new) }
        ensures unpaused { Unpaused (W.told wires.old) (W.told wires.new) }
        ensures counts { GoesOn (W.faults wires.old) (W.faults wires.new) (W.idles wires.old) (W.idles wires.new) (W.contents wires.old) (W.contents wires.new) }
        ensures shuts { GoesShut (W.told wires.old) (W.told wires.new) }
    {
        let Copier {
            alloc: _,
            options: _,
            from: _,
            to: _,
            handles,
            board,
            start: _,
            job: _,
        } = self;
        let mut handles = handles;
        let mut board = board;
        shut_all(&mut handles, &mut board, wires);
        let _ = handles.close(&mut board);
        board.end();
    }
}
