//! A copy from a file to an export, from the file's opening to the answer, over any wires and any store. What is asked, and when, is known by its
//! job; how connections are made and part by `lnbd_connections`.

ghost use Rattle.std.specs.Prelude.{◌≡◌, ◌≢◌, ◌<◌, ◌≤◌, ◌+◌, ◌^◌, [], ℕ, IfErr, IfOk, IfSome, List, None, OnErr, OnOk, Option, Some, false, length, true, ◌∷◌, ◌-◌, replicate};
ghost use Rattle.lnbd_link.specs.Call.{Call, Pause};
ghost use Rattle.lnbd_link.specs.Count.{Rises, patience};
ghost use Rattle.lnbd_model.specs.declared.target.Place.{Place as At};
ghost use Rattle.lnbd_asked.specs.Transcript.{dealt_with};
ghost use Rattle.lnbd_course.specs.AllDone.{AreAllDone};
ghost use Rattle.lnbd_course.specs.Asks.{GrewBy};
ghost use Rattle.lnbd_course.specs.Flushes.{IsUnflushed, OneFlushes};
ghost use Rattle.lnbd_copy.specs.Agreed.{AreQuiet, IsWished};
ghost use Rattle.lnbd_copy.specs.Causes.{AreWell, GoesOn, HasCause, tells_no_count};
ghost use Rattle.lnbd_copy.specs.Ended.{EndsWell};
ghost use Rattle.lnbd_copy.specs.Faults.{GoesIdly};
ghost use Rattle.lnbd_copy.specs.declared.counts.Counts.{Counts as Counted};
ghost use Rattle.lnbd_conduct.specs.Told.{Told};
ghost use Rattle.lnbd_connections.specs.Bound.{Binds};
ghost use Rattle.lnbd_connections.specs.Few.{StaysFew};
ghost use Rattle.lnbd_connections.specs.Steps.{Goes as Turns};
ghost use Rattle.lnbd_store.specs.Shelf.{Goes, Shelf};
ghost use Rattle.lnbd_touched.specs.Grown.{Grew};
ghost use Rattle.lnbd_touched.specs.Parts.{IsShort};
ghost use Rattle.lnbd_touched.specs.Touches.{Touches};
ghost use Rattle.lnbd_copyfile.specs.Calls.{stop_of};
ghost use Rattle.lnbd_copyfile.specs.Causes.{IsChanged, TellsChange};
ghost use Rattle.lnbd_copyfile.specs.FlushedLast.{FlushesLastFrom};
ghost use Rattle.lnbd_copyfile.specs.FromFile.{EndsSo, GoesFurther, HasAgreed, HasAskedFrom, HasCopied, HasCopiedOpen, HasEnded, HasMet, HasNotBegun, HasNotRead, HasRead, HasStoreCause, HasSummedFrom, HasWiresCause, IsCausedBy, IsGivenBy, IsGoing, Runs, Seen as Kept, size_of, stop_by};
ghost use Rattle.lnbd_copyfile.specs.FromFileJob.{Seen as Work};
ghost use Rattle.lnbd_copyfile.specs.Given.{AsksFurther, BehavesFrom, ConductsFrom, HasConducted, IsUnasked};
ghost use Rattle.lnbd_copyfile.specs.OneFile.{BreaksReading, Reads};
ghost use Rattle.lnbd_copyfile.specs.OneSide.{IsCopiedFrom};
ghost use Rattle.lnbd_copyfile.specs.Shown.{FindsShown, FlushesWantedFrom, HasShown};
ghost use Rattle.lnbd_conduct.specs.Links.{AllConnected};
ghost use Rattle.lnbd_copy.specs.Connects.{StaysConnected};
ghost use Rattle.lnbd_copy.specs.declared.copier.Progress.TheVariants as progress;
ghost use Rattle.lnbd_poll.specs.declared.noticed.Turn.TheVariants as turned;
ghost use Rattle.lnbd_copy.specs.Moving.{TurnsInVain};
ghost use Rattle.lnbd_copy.specs.Pauses.{Unpaused};
ghost use Rattle.lnbd_copy.specs.Way.{Stand};
ghost use Rattle.lnbd_connections.specs.Uses.{Rests, Uses, UsesTo};
ghost use Rattle.lnbd_copyfile.specs.Conduct.{ConductsFar};
ghost use Rattle.lnbd_copyfile.specs.Connects.{ConnectsAsTold};
ghost use Rattle.lnbd_copyfile.specs.Linked.{FindsMany, UsesAsTold, UsesOn, UsesWithin};
ghost use Rattle.lnbd_copyfile.specs.Shares.{IsAlwaysSharedFrom, as_read};
ghost use Rattle.lnbd_copyfile.specs.FromFileFull.{PausesAreFullFrom};
ghost use Rattle.lnbd_copyfile.specs.FromFilePauses.{GoesFull, IsAwaited, IsFullSoFar, PausesFull, RestsFull};
ghost use Rattle.lnbd_copyfile.specs.declared.from_file_job.Phase.TheVariants as phase;
ghost use Rattle.lnbd_connections.specs.Unready.{IsUnready};
ghost use Rattle.lnbd_usage.specs.Pauses.{AtEachPause};
ghost use Rattle.lnbd_link.specs.Part.{Adds};
ghost use Rattle.lnbd_poll.specs.Held.{wants_now};
ghost use Rattle.lnbd_copy.specs.Links.{LinksGo};
ghost use Rattle.lnbd_copyfile.specs.SharingFrom.{FindsTermsFrom, HasShared, HasTermsFrom, HaveMet, IsSharing, SharesOut, share};

use crate::between::{Source, open_source};
use crate::fault::{FileFault, Halt, Stop};
use crate::from_file_job::FromFileJob;
use lnbd_board::{Board, Ticket};
use lnbd_conduct::Terms;
use lnbd_connections::{dial, dial_further, rest, settle, shut_all, shut_parted, take_turn};
use lnbd_copy::{
    Counts, MAX_TURNS, Progress, UNKNOWN, broken_rule, check_counts, check_idles, check_well,
    info_of, settled,
};
use lnbd_link::Wires;
use lnbd_model::{Contexts, ExportInfo, NoMemory, Place, Text};
use lnbd_plan::{CopyFault, CopyOptions, Summary};
use lnbd_poll::{Handles, Turn};
use lnbd_records::names::FLAG_CAN_MULTI_CONN;
use lnbd_store::Store;
use std::alloc::Global;
use std::marker::Model;
use std::mem;

/// The first connection.
const FIRST: usize = 0;

/// A copy under way. Contracts see its options, what the wires had counted when it began, its connections and its board.
struct FromFile {
    alloc: Global,
    options: CopyOptions,
    start: Counts,
    handles: Handles<Ticket>,
    board: Board,
}

impl Model for FromFile {
    ghost use Rattle.lnbd_copyfile.specs.FromFile.{Seen};

    ghost Value = { Seen };

    ghost view = { λ c. record { options = c.options; start = c.start; held = c.handles; board = c.board } };
}

/// A file tells of itself what an export would tell that has its size and may have many connections.
fn info_of_file(alloc: Global, size: u64) -> ExportInfo
    ensures size { result.size ≡ size }
    ensures told { result ≡ as_read size }
{
    ExportInfo {
        size,
        flags: FLAG_CAN_MULTI_CONN,
        blocks: None,
        name: None,
        description: None,
        contexts: Contexts::new(alloc),
        structured: false,
        extended: false,
    }
}

/// What a turn did, where so much moved and it went on or not in another way.
fn progress_of(moved: Turn, acted: bool) -> Progress
    ensures still { result ≡ progress.Still → (moved ≡ turned.Still) × (acted ≡ false) }
    ensures so { (job : Work) (copy : Kept) → EndsSo job copy result }
    ensures well { (start : Counted) (faults idles : ℕ) → EndsWell start faults idles result }
{
    match moved {
        Turn::Moved(count) => Progress::Moved(count),
        Turn::Still => {
            if acted {
                Progress::Moved(0)
            } else {
                Progress::Still
            }
        }
    }
}

impl FromFile {
    /// A copy that has not begun. It takes no memory.
    fn new(alloc: Global, options: CopyOptions, start: Counts) -> FromFile
        ensures begun { HasNotBegun result }
        ensures what { (result.options ≡ options) × (result.start ≡ start) }
    {
        FromFile {
            alloc,
            options,
            start,
            handles: Handles::new(alloc),
            board: Board::new(alloc, UNKNOWN),
        }
    }

    /// What the file and the export settle, once the first connection has negotiated.
    #[tactic(auto, using(crate::proofs::ShownLemmas::finds_as))]
    fn agree(&self, size: u64) -> Result<Terms, CopyFault>
        requires held { 0 < length self.now.held }
        requires quiet { AreQuiet self.now.held }
        ensures many { IfOk result (λ terms. FindsMany self.now.options terms.sides.destination self.now.held) }
        ensures agrees { IfOk result (λ terms. HasAgreed terms self.now.held) }
        ensures cells { IfOk result (λ terms. (0 < terms.cell) × (0 < terms.zero_cell) × (0 < terms.grain)) }
        ensures size { IfOk result (λ terms. terms.size ≡ size) }
        ensures finds { IfOk result (λ terms. FindsShown self.now.options size self.now.held terms) }
        ensures wished { IfOk result (λ terms. IsWished self.now.options terms) }
        ensures settles { IfOk result (λ terms. FindsTermsFrom self.now.options terms self.now.held) }
        ensures free { IfErr result (λ told. tells_no_count told ≡ true) }
    {
        let destination = info_of(&self.handles, FIRST)?;
        let source = info_of_file(self.alloc, size);
        match broken_rule(&source, destination) {
            Some(rule) => Err(CopyFault::Rule(rule)),
            None => Ok(settled(self.options, &source, destination)),
        }
    }

    /// Makes the first connection, and settles how the copy is made.
    fn meet<W: Wires>(&mut self, size: u64, to: &Place, wires: &mut W) -> Result<Terms, CopyFault>
        requires begun { HasNotBegun self.old }
        requires faults { self.old.start.faults ≤ W.faults wires.old }
        requires idles { self.old.start.idles ≤ W.idles wires.old }
        ensures links { UsesTo true self.old.start.idles (to.now.to ∷ []) self.old.held (W.told wires.old) (W.idles wires.old) self.new.held (W.told wires.new) (W.idles wires.new) }
        ensures connects { OnOk result (Uses false self.old.start.idles (to.now.to ∷ []) self.old.held (W.told wires.old) (W.idles wires.old) self.new.held (W.told wires.new) (W.idles wires.new)) }
        ensures connected { OnOk result (StaysConnected (W.told wires.old) (W.told wires.new)) }
        ensures many { IfOk result (λ terms. FindsMany self.old.options terms.sides.destination self.new.held) }
        ensures kept { self.new ≡ record self.old { held = self.new.held; board = self.new.board } }
        ensures met { IfOk result (λ terms. HasMet to.now terms (W.told wires.old) (W.told wires.new) self.new) }
        ensures opens { IfOk result (λ terms. HaveMet to.now terms (W.told wires.old) (W.told wires.new) self.new) }
        ensures settles { IfOk result (λ terms. HasTermsFrom self.old.options to.now (W.told wires.old) (W.told wires.new) terms) }
        ensures unready { Told (W.told wires.old) (W.told wires.new) (AtEachPause (IsUnready false to.now)) }
        ensures awaits { OnOk result (IsAwaited to.now (W.told wires.old) (W.told wires.new) self.new) }
        ensures one { OnOk result (length self.new.held ≡ 1) }
        ensures few { StaysFew 0 (W.told wires.old) (W.told wires.old) (W.told wires.new) }
        ensures cells { IfOk result (λ terms. (0 < terms.cell) × (0 < terms.zero_cell) × (0 < terms.grain)) }
        ensures size { IfOk result (λ terms. terms.size ≡ size) }
        ensures wished { IfOk result (λ terms. IsWished self.old.options terms) }
        ensures causes { IfErr result (λ told. HasCause self.old.start (W.faults wires.new) (W.idles wires.new) told) }
        ensures counts { GoesOn (W.faults wires.old) (W.faults wires.new) (W.idles wires.old) (W.idles wires.new) (W.contents wires.old) (W.contents wires.new) }
        ensures shows { IfOk result (λ terms. HasShown self.old.options size to.now (W.told wires.old) (W.told wires.new) terms) }
        ensures unasked { Told (W.told wires.old) (W.told wires.new) (IsUnasked to.now) }
        ensures well { OnOk result (self.new.board.error ≡ None) }
    {
        let handles = &mut self.handles;
        let board = &mut self.board;
        dial(self.alloc, handles, board, wires, to, false, self.start)?;
        settle(handles, board, wires, self.start)?;
        self.agree(size)
    }

    /// Makes the further connections, which negotiate.
    fn join<W: Wires>(&mut self, terms: Terms, to: &Place, wires: &mut W) -> Result<(), CopyFault>
        requires faults { self.old.start.faults ≤ W.faults wires.old }
        requires idles { self.old.start.idles ≤ W.idles wires.old }
        ensures links { Stand self.old.held → UsesTo true self.old.start.idles (replicate (terms.sides.destination - 1) to.now.to) self.old.held (W.told wires.old) (W.idles wires.old)
            self.new.held (W.told wires.new) (W.idles wires.new) }
        ensures connects { OnOk result (Stand self.old.held → Uses false self.old.start.idles (replicate (terms.sides.destination - 1) to.now.to) self.old.held (W.told wires.old) (W.idles
            wires.old) self.new.held (W.told wires.new) (W.idles wires.new)) }
        ensures connected { OnOk result (Stand self.old.held → StaysConnected (W.told wires.old) (W.told wires.new)) }
        ensures kept { self.new ≡ record self.old { held = self.new.held; board = self.new.board } }
        ensures on { OnOk result ((start : Option (List Call)) → HasMet to.now terms start (W.told wires.old) self.old → HasMet to.now terms start (W.told wires.new) self.new) }
        ensures opens { OnOk result ((start : Option (List Call)) → HasMet to.now terms start (W.told wires.old) self.old → HaveMet to.now terms start (W.told wires.old) self.old →
            HaveMet to.now terms start (W.told wires.new) self.new) }
        ensures unready { (start : Option (List Call)) → IsAwaited to.now start (W.told wires.old) self.old → Told start (W.told wires.new) (AtEachPause (IsUnready false to.now)) }
        ensures many { OnOk result (Stand self.old.held → length self.new.held ≡ length self.old.held + (terms.sides.destination - 1)) }
        ensures few { (start : Option (List Call)) → HasMet to.now terms start (W.told wires.old) self.old → StaysFew 0 start (W.told wires.old) (W.told wires.new) }
        ensures well { OnOk result (self.new.board.error ≡ None) }
        ensures causes { IfErr result (λ told. HasCause self.old.start (W.faults wires.new) (W.idles wires.new) told) }
        ensures counts { GoesOn (W.faults wires.old) (W.faults wires.new) (W.idles wires.old) (W.idles wires.new) (W.contents wires.old) (W.contents wires.new) }
        ensures unasked { (start : Option (List Call)) → HasMet to.now terms start (W.told wires.old) self.old → self.old.board.error ≡ None → Told start (W.told wires.old) (IsUnasked to.now) →
            Told start (W.told wires.new) (IsUnasked to.now) }
    {
        let more = terms.sides.destination.saturating_sub(1);
        let handles = &mut self.handles;
        let board = &mut self.board;
        dial_further(self.alloc, handles, board, wires, to, more, self.start)?;
        settle(handles, board, wires, self.start)
    }

    /// Makes ready what is done once all connections stand.
    fn set_up(&mut self, terms: Terms) -> Result<FromFileJob, NoMemory>
        requires cells { (0 < terms.cell) × (0 < terms.zero_cell) × (0 < terms.grain) }
        requires size { terms.size ≤ 2 ^ 63 }
        requires well { self.old.board.error ≡ None }
        ensures kept { self.new ≡ record self.old { board = self.new.board } }
        ensures begins { IfOk result (λ job. (to : At) (file : ℕ) (start told : Option (List Call)) (shelf : Option Shelf) (given : ℕ) → HasMet to terms start told self.old →
            IsGoing to file job start told self.new shelf shelf given given) }
        ensures fresh { IfOk result (λ job. (self.new.board.rows ≡ []) × (job.windows.size ≡ job.terms.size)) }
        ensures runs { IfOk result (λ job. (to : At) (start told : Option (List Call)) → HasMet to terms start told self.old → Runs job self.new) }
        ensures terms { IfOk result (λ job. job.terms ≡ terms) }
        ensures shares { IfOk result (λ job. (to : At) (start told : Option (List Call)) → HasMet to terms start told self.old → HaveMet to terms start told self.old →
            IsSharing terms start told job self.new) }
    {
        mem::replace(&mut self.board, Board::new(self.alloc, terms.how)).end();
        FromFileJob::new(self.alloc, terms)
    }

    /// Makes all connections, and what is done once they stand.
    fn begin<W: Wires>(
        &mut self,
        size: u64,
        to: &Place,
        wires: &mut W,
    ) -> Result<FromFileJob, CopyFault>
        requires begun { HasNotBegun self.old }
        requires size { size < 2 ^ 63 }
        requires faults { self.old.start.faults ≤ W.faults wires.old }
        requires idles { self.old.start.idles ≤ W.idles wires.old }
        ensures within { UsesWithin self.old.start.idles self.old.options to.now self.old.held (W.told wires.old) (W.idles wires.old) self.new.held (W.told wires.new) (W.idles wires.new) }
        ensures connects { OnOk result (UsesAsTold true self.old.start.idles self.old.options to.now self.old.held (W.told wires.old) (W.idles wires.old) self.new.held (W.told wires.new) (W.idles
            wires.new)) }
        ensures kept { self.new ≡ record self.old { held = self.new.held; board = self.new.board } }
        ensures begins { IfOk result (λ job. (file : ℕ) (shelf : Option Shelf) (given : ℕ) → IsGoing to.now file job (W.told wires.old) (W.told wires.new) self.new shelf shelf given given) }
        ensures runs { IfOk result (λ job. Runs job self.new) }
        ensures size { IfOk result (λ job. job.terms.size ≡ size) }
        ensures shares { IfOk result (λ job. HasShared self.old.options to.now (W.told wires.old) (W.told wires.new) job self.new) }
        ensures full { IfOk result (λ job. (file : ℕ) (shelf : Option Shelf) (given : ℕ) →
            IsFullSoFar self.old.options file to.now (W.told wires.old) (W.told wires.new) job self.new shelf shelf given given) }
        ensures unready { Told (W.told wires.old) (W.told wires.new) (AtEachPause (IsUnready false to.now)) }
        ensures few { StaysFew 0 (W.told wires.old) (W.told wires.old) (W.told wires.new) }
        ensures wished { IfOk result (λ job. IsWished self.old.options job.terms) }
        ensures causes { IfErr result (λ told. HasCause self.old.start (W.faults wires.new) (W.idles wires.new) told) }
        ensures counts { GoesOn (W.faults wires.old) (W.faults wires.new) (W.idles wires.old) (W.idles wires.new) (W.contents wires.old) (W.contents wires.new) }
        ensures shows { IfOk result (λ job. HasShown self.old.options size to.now (W.told wires.old) (W.told wires.new) job.terms) }
        ensures unasked { Told (W.told wires.old) (W.told wires.new) (IsUnasked to.now) }
    {
        let terms = self.meet(size, to, wires)?;
        self.join(terms, to, wires)?;
        let job = self.set_up(terms)?;
        Ok(job)
    }

    /// Hangs up where a connection has parted, if they part. How many did.
    #[tactic(auto, using(lnbd_connections::proofs::UseLemmas::uses_none, lnbd_copy::proofs::IdleLemmas::idly_none, lnbd_copy::proofs::PauseLemmas::unpaused_none))]
    fn part<W: Wires>(&mut self, job: &FromFileJob, wires: &mut W) -> usize
        requires runs { Runs job.now self.old }
        ensures uses { (first : ℕ) → Uses false first [] self.old.held (W.told wires.old) (W.idles wires.old) self.new.held (W.told wires.new) (W.idles wires.new) }
        ensures parted { result ≡ 0 → (self.new.held ≡ self.old.held) × (wires.new ≡ wires.old) }
        ensures stays { job.now.phase ≢ phase.Parting → (self.new ≡ self.old) × (W.told wires.new ≡ W.told wires.old) }
        ensures unpaused { Unpaused (W.told wires.old) (W.told wires.new) }
        ensures kept { self.new ≡ record self.old { held = self.new.held; board = self.new.board } }
        ensures runs { Runs job.now self.new }
        ensures on { (file : ℕ) (shelf : Option Shelf) (given : ℕ) → GoesFurther file job.now job.now (W.told wires.old) (W.told wires.new) self.old self.new shelf shelf given given }
        ensures idly { GoesIdly (W.told wires.old) (W.told wires.new) }
        ensures sharing { (terms : Terms) (from : Option (List Call)) → IsSharing terms from (W.told wires.old) job.now self.old → IsSharing terms from (W.told wires.new) job.now self.new }
        ensures counts { GoesOn (W.faults wires.old) (W.faults wires.new) (W.idles wires.old) (W.idles wires.new) (W.contents wires.old) (W.contents wires.new) }
    {
        if !job.is_parting() {
            return 0;
        }
        shut_parted(&mut self.handles, &mut self.board, wires)
    }

    /// One turn over all connections, and then whatever can be asked for.
    fn turn<W: Wires, S: Store>(
        &mut self,
        job: &mut FromFileJob,
        file: u32,
        wires: &mut W,
        store: &mut S,
    ) -> Result<Progress, Halt>
        requires runs { Runs job.old self.old }
        requires faults { self.old.start.faults ≤ W.faults wires.old }
        requires idles { self.old.start.idles ≤ W.idles wires.old }
        ensures uses { Uses false self.old.start.idles [] self.old.held (W.told wires.old) (W.idles wires.old) self.new.held (W.told wires.new) (W.idles wires.new) }
        ensures vain { IfOk result (λ told. told ≡ progress.Still → TurnsInVain self.new.held (W.told wires.old) (W.told wires.new)) }
        ensures kept { self.new ≡ record self.old { held = self.new.held; board = self.new.board } }
        // At each pause as much is under way as may be, wherever the copy began.
        ensures full { OnOk result (GoesFull file job.old job.new (W.told wires.old) (W.told wires.new) self.old self.new (S.shelf store.old) (S.shelf store.new) (S.given store.old)
            (S.given store.new)) }
        ensures rests { IfOk result (λ told. told ≡ progress.Still →
            RestsFull file job.old (W.told wires.old) (W.told wires.new) self.old self.new (S.shelf store.old) (S.given store.old)) }
        ensures unpaused { Unpaused (W.told wires.old) (W.told wires.new) }
        ensures terms { job.new.terms ≡ job.old.terms }
        ensures runs { OnOk result (Runs job.new self.new) }
        ensures on { OnOk result (GoesFurther file job.old job.new (W.told wires.old) (W.told wires.new) self.old self.new (S.shelf store.old) (S.shelf store.new) (S.given store.old)
            (S.given store.new)) }
        // Whatever it comes to, no more are unanswered on any connection at each moment of it than its share.
        ensures shares { (terms : Terms) (from : Option (List Call)) → IsSharing terms from (W.told wires.old) job.old self.old → StaysFew (share terms) from (W.told wires.old) (W.told wires.new) }
        ensures sharing { OnOk result ((terms : Terms) (from : Option (List Call)) → IsSharing terms from (W.told wires.old) job.old self.old →
            IsSharing terms from (W.told wires.new) job.new self.new) }
        ensures ends { IfOk result (λ told. EndsSo job.new self.new told) }
        ensures untroubled { IfOk result (λ told. EndsWell self.old.start (W.faults wires.new) (W.idles wires.new) told) }
        ensures causes { IfErr result (λ why. IsCausedBy self.old.start (W.faults wires.new) (W.idles wires.new) why) }
        ensures counts { GoesOn (W.faults wires.old) (W.faults wires.new) (W.idles wires.old) (W.idles wires.new) (W.contents wires.old) (W.contents wires.new) }
        ensures asks { AsksFurther file job.old (W.told wires.old) (W.told wires.new) self.old (S.shelf store.old) (S.given store.old) }
        ensures reads { OnOk result (Grew (S.told store.old) (S.told store.new) (Reads file)) }
        ensures breaks { IfErr result (λ why. Grew (S.told store.old) (S.told store.new) (BreaksReading file job.old.terms.size (stop_by why))) }
        ensures short { IfErr result (λ why. IsChanged (stop_by why) → Touches file (IsShort job.old.terms.size) (S.shelf store.old) (S.shelf store.new)) }
        ensures failed { IfErr result (λ why. stop_by why ≡ Stop.Failed → Rises 1 (S.faults store.old) (S.faults store.new)) }
        ensures later { S.faults store.old ≤ S.faults store.new }
        ensures taken { S.taken store.new ≡ S.taken store.old }
    {
        let turned = match take_turn(&mut self.handles, &mut self.board, wires, self.start) {
            Ok(turned) => turned,
            Err(why) => return Err(Halt::Copy(why)),
        };
        let acted = match job.act(self.alloc, &mut self.handles, &mut self.board, store, file) {
            Ok(acted) => acted,
            Err(why) => return Err(Halt::File(why)),
        };
        let parted = self.part(job, wires);
        match self.look(job, wires) {
            Ok(Some(summary)) => Ok(Progress::Finished(summary)),
            Ok(None) => Ok(progress_of(turned, acted || parted != 0)),
            Err(why) => Err(Halt::Copy(why)),
        }
    }

    /// Nothing came for which the copy ends. What it did, where it is finished: each connection has parted, and the wires' counts show no fault.
    fn look<W: Wires>(&self, job: &FromFileJob, wires: &W) -> Result<Option<Summary>, CopyFault>
        requires faults { self.now.start.faults ≤ W.faults wires.now }
        requires idles { self.now.start.idles ≤ W.idles wires.now }
        ensures ended { IfOk result (λ told. IfSome told (λ summary. HasEnded job.now self.now summary)) }
        ensures well { OnOk result (self.now.board.error ≡ None) }
        ensures untroubled { IfOk result (λ told. IfSome told (λ summary. AreWell self.now.start (W.faults wires.now) (W.idles wires.now))) }
        ensures causes { IfErr result (λ told. HasCause self.now.start (W.faults wires.now) (W.idles wires.now) told) }
    {
        check_well(&self.board)?;
        if job.is_parting() && self.handles.is_empty() {
            check_counts(wires, self.start)?;
            return Ok(Some(self.board.summary(job.size())));
        }
        Ok(None)
    }

    /// Waits, unless that was borne for as long as it is.
    fn pause<W: Wires>(&mut self, wires: &mut W) -> Result<(), CopyFault>
        requires idles { self.old.start.idles ≤ W.idles wires.old }
        ensures rests { Rests (Unit {0}) self.old.start.idles self.old.held (W.told wires.old) (W.idles wires.old) self.new.held (W.told wires.new) (W.idles wires.new) }
        ensures pauses { OnOk result (Adds (W.told wires.old) (W.told wires.new) (Pause (wants_now self.old.held))) }
        ensures still { OnErr result (W.told wires.new ≡ W.told wires.old) }
        ensures links { LinksGo [] self.old.held (W.told wires.old) self.new.held (W.told wires.new) }
        ensures kept { self.new ≡ record self.old { held = self.new.held } }
        ensures goes { OnOk result (Turns self.old.board self.old.held (W.told wires.old) self.new.board self.new.held (W.told wires.new)) }
        ensures binds { OnOk result (Binds self.old.board self.old.held (W.told wires.old) self.new.board self.new.held (W.told wires.new)) }
        ensures few { (most : ℕ) (from : Option (List Call)) → StaysFew most from (W.told wires.old) (W.told wires.new) }
        ensures causes { IfErr result (λ told. HasCause self.old.start (W.faults wires.new) (W.idles wires.new) told) }
        ensures counts { GoesOn (W.faults wires.old) (W.faults wires.new) (W.idles wires.old) (W.idles wires.new) (W.contents wires.old) (W.contents wires.new) }
        ensures idly { GoesIdly (W.told wires.old) (W.told wires.new) }
    {
        rest(&mut self.handles, wires, self.start)
    }

    /// One turn, and a pause where nothing happened in it and nothing was asked. What the copy did, where it is finished.
    #[tactic(auto, using(crate::proofs::GivenLemmas::asks_same))]
    fn step<W: Wires, S: Store>(
        &mut self,
        job: &mut FromFileJob,
        file: u32,
        wires: &mut W,
        store: &mut S,
    ) -> Result<Option<Summary>, Halt>
        requires runs { Runs job.old self.old }
        requires faults { self.old.start.faults ≤ W.faults wires.old }
        requires idles { self.old.start.idles ≤ W.idles wires.old }
        ensures uses { UsesOn self.old.start.idles self.old.held (W.told wires.old) (W.idles wires.old) self.new.held (W.told wires.new) (W.idles wires.new) }
        ensures kept { self.new ≡ record self.old { held = self.new.held; board = self.new.board } }
        // At each pause as much is under way as may be, wherever the copy began and whatever it comes to.
        ensures full { OnOk result (GoesFull file job.old job.new (W.told wires.old) (W.told wires.new) self.old self.new (S.shelf store.old) (S.shelf store.new) (S.given store.old)
            (S.given store.new)) }
        ensures pauses { PausesFull file job.old (W.told wires.old) (W.told wires.new) self.old (S.shelf store.old) (S.given store.old) }
        ensures terms { job.new.terms ≡ job.old.terms }
        ensures runs { OnOk result (Runs job.new self.new) }
        ensures on { OnOk result (GoesFurther file job.old job.new (W.told wires.old) (W.told wires.new) self.old self.new (S.shelf store.old) (S.shelf store.new) (S.given store.old)
            (S.given store.new)) }
        // Whatever it comes to, no more are unanswered on any connection at each moment of it than its share.
        ensures shares { (terms : Terms) (from : Option (List Call)) → IsSharing terms from (W.told wires.old) job.old self.old → StaysFew (share terms) from (W.told wires.old) (W.told wires.new) }
        ensures sharing { OnOk result ((terms : Terms) (from : Option (List Call)) → IsSharing terms from (W.told wires.old) job.old self.old →
            IsSharing terms from (W.told wires.new) job.new self.new) }
        ensures ended { IfOk result (λ told. IfSome told (λ summary. HasEnded job.new self.new summary)) }
        ensures untroubled { IfOk result (λ told. IfSome told (λ summary. AreWell self.old.start (W.faults wires.new) (W.idles wires.new))) }
        ensures causes { IfErr result (λ why. IsCausedBy self.old.start (W.faults wires.new) (W.idles wires.new) why) }
        ensures counts { GoesOn (W.faults wires.old) (W.faults wires.new) (W.idles wires.old) (W.idles wires.new) (W.contents wires.old) (W.contents wires.new) }
        ensures asks { AsksFurther file job.old (W.told wires.old) (W.told wires.new) self.old (S.shelf store.old) (S.given store.old) }
        ensures reads { OnOk result (Grew (S.told store.old) (S.told store.new) (Reads file)) }
        ensures breaks { IfErr result (λ why. Grew (S.told store.old) (S.told store.new) (BreaksReading file job.old.terms.size (stop_by why))) }
        ensures short { IfErr result (λ why. IsChanged (stop_by why) → Touches file (IsShort job.old.terms.size) (S.shelf store.old) (S.shelf store.new)) }
        ensures failed { IfErr result (λ why. stop_by why ≡ Stop.Failed → Rises 1 (S.faults store.old) (S.faults store.new)) }
        ensures later { S.faults store.old ≤ S.faults store.new }
        ensures taken { S.taken store.new ≡ S.taken store.old }
    {
        match check_idles(wires, self.start) {
            Ok(()) => {}
            Err(why) => return Err(Halt::Copy(why)),
        }
        match self.turn(job, file, wires, store) {
            Ok(Progress::Moved(_)) => Ok(None),
            Ok(Progress::Still) => {
                self.pause(wires)?;
                Ok(None)
            }
            Ok(Progress::Finished(summary)) => Ok(Some(summary)),
            Err(why) => Err(why),
        }
    }

    /// Copies a file that is open, from the first connection to the end.
    fn carry_out<W: Wires, S: Store>(
        &mut self,
        source: Source,
        to: &Place,
        wires: &mut W,
        store: &mut S,
    ) -> Result<Summary, Halt>
        requires begun { HasNotBegun self.old }
        requires size { source.size < 2 ^ 63 }
        requires faults { self.old.start.faults ≤ W.faults wires.old }
        requires idles { self.old.start.idles ≤ W.idles wires.old }
        ensures within { UsesWithin self.old.start.idles self.old.options to.now self.old.held (W.told wires.old) (W.idles wires.old) self.new.held (W.told wires.new) (W.idles wires.new) }
        ensures connects { OnOk result (UsesAsTold true self.old.start.idles self.old.options to.now self.old.held (W.told wires.old) (W.idles wires.old) self.new.held (W.told wires.new) (W.idles
            wires.new)) }
        ensures kept { self.new ≡ record self.old { held = self.new.held; board = self.new.board } }
        ensures copies { IfOk result (λ summary. HasCopiedOpen self.old.options source.file source.size to.now summary (W.told wires.old) (W.told wires.new) (S.shelf store.old) (S.shelf store.new)
            (S.given store.old) (S.given store.new)) }
        ensures shares { SharesOut self.old.options to.now (W.told wires.old) (W.told wires.new) }
        ensures full { Told (W.told wires.old) (W.told wires.new) (PausesAreFullFrom self.old.options to.now) }
        ensures parted { OnOk result (self.new.held ≡ []) }
        ensures untroubled { OnOk result (AreWell self.old.start (W.faults wires.new) (W.idles wires.new)) }
        ensures causes { IfErr result (λ why. IsCausedBy self.old.start (W.faults wires.new) (W.idles wires.new) why) }
        ensures counts { GoesOn (W.faults wires.old) (W.faults wires.new) (W.idles wires.old) (W.idles wires.new) (W.contents wires.old) (W.contents wires.new) }
        ensures behaves { Told (W.told wires.old) (W.told wires.new) (BehavesFrom self.old.options source.size to.now) }
        ensures reads { OnOk result (Grew (S.told store.old) (S.told store.new) (Reads source.file)) }
        ensures breaks { IfErr result (λ why. Grew (S.told store.old) (S.told store.new) (BreaksReading source.file source.size (stop_by why))) }
        ensures short { IfErr result (λ why. IsChanged (stop_by why) → Touches source.file (IsShort source.size) (S.shelf store.old) (S.shelf store.new)) }
        ensures failed { IfErr result (λ why. stop_by why ≡ Stop.Failed → Rises 1 (S.faults store.old) (S.faults store.new)) }
        ensures later { S.faults store.old ≤ S.faults store.new }
        ensures taken { S.taken store.new ≡ S.taken store.old }
    {
        let mut job = match self.begin(source.size, to, wires) {
            Ok(job) => job,
            Err(why) => return Err(Halt::Copy(why)),
        };
        'turns: for _ in 0..MAX_TURNS {
            match self.step(&mut job, source.file, wires, store) {
                Ok(None) => {}
                Ok(Some(summary)) => return Ok(summary),
                Err(why) => return Err(why),
            }
        }
        Err(Halt::Copy(CopyFault::NoMemory))
    }

    /// Opens the file and copies it.
    fn copy<W: Wires, S: Store>(
        &mut self,
        from: &Text,
        to: &Place,
        wires: &mut W,
        store: &mut S,
    ) -> Result<Summary, Halt>
        requires begun { HasNotBegun self.old }
        requires faults { self.old.start.faults ≤ W.faults wires.old }
        requires idles { self.old.start.idles ≤ W.idles wires.old }
        ensures within { UsesWithin self.old.start.idles self.old.options to.now self.old.held (W.told wires.old) (W.idles wires.old) self.new.held (W.told wires.new) (W.idles wires.new) }
        ensures connects { OnOk result (UsesAsTold true self.old.start.idles self.old.options to.now self.old.held (W.told wires.old) (W.idles wires.old) self.new.held (W.told wires.new) (W.idles
            wires.new)) }
        ensures copies { IfOk result (λ summary. HasCopied self.old.options from.now to.now summary (W.told wires.old) (W.told wires.new) (S.shelf store.old) (S.shelf store.new)
            (S.given store.old) (S.given store.new)) }
        ensures shares { SharesOut self.old.options to.now (W.told wires.old) (W.told wires.new) }
        ensures full { Told (W.told wires.old) (W.told wires.new) (PausesAreFullFrom self.old.options to.now) }
        ensures parted { OnOk result (self.new.held ≡ []) }
        ensures untroubled { OnOk result (AreWell self.old.start (W.faults wires.new) (W.idles wires.new)) }
        ensures causes { IfErr result (λ why. IsCausedBy self.old.start (W.faults wires.new) (W.idles wires.new) why) }
        ensures counts { GoesOn (W.faults wires.old) (W.faults wires.new) (W.idles wires.old) (W.idles wires.new) (W.contents wires.old) (W.contents wires.new) }
        ensures conducts { HasConducted self.old.options from.now to.now (S.told store.old) (S.told store.new) (W.told wires.old) (W.told wires.new) self.new.held }
        ensures stores { OnOk result (Grew (S.told store.old) (S.told store.new) (HasRead from.now)) }
        ensures stopped { IfErr result (λ why. Grew (S.told store.old) (S.told store.new) (HasNotRead from.now (stop_by why))) }
        ensures changed { IfErr result (λ why. IsChanged (stop_by why) → (now : Shelf) → S.shelf store.new ≡ Some now → ⊥) }
        ensures failed { IfErr result (λ why. stop_by why ≡ Stop.Failed → Rises 1 (S.faults store.old) (S.faults store.new)) }
        ensures later { S.faults store.old ≤ S.faults store.new }
        ensures taken { S.taken store.new ≡ S.taken store.old }
    {
        match open_source(store, from) {
            Ok(source) => self.carry_out(source, to, wires, store),
            Err(_) => Err(Halt::File(Stop::Failed)),
        }
    }

    /// Ends a copy, finished or not: frees all callbacks and shuts all links.
    fn end<W: Wires>(self, wires: &mut W)
        ensures uses { (first : ℕ) → Uses false first [] self.held (W.told wires.old) (W.idles wires.old) [] (W.told wires.new) (W.idles wires.new) }
        ensures unpaused { Unpaused (W.told wires.old) (W.told wires.new) }
        ensures parted { self.held ≡ [] → wires.new ≡ wires.old }
        ensures idly { GoesIdly (W.told wires.old) (W.told wires.new) }
        ensures counts { GoesOn (W.faults wires.old) (W.faults wires.new) (W.idles wires.old) (W.idles wires.new) (W.contents wires.old) (W.contents wires.new) }
    {
        let FromFile {
            alloc: _,
            options: _,
            start: _,
            handles,
            board,
        } = self;
        let mut handles = handles;
        let mut board = board;
        shut_all(&mut handles, &mut board, wires);
        let _ = handles.close(&mut board);
        board.end();
    }
}

/// Copies the file at a path to an export. The file is opened and measured; then the export is connected to, which must not be smaller; and slices
/// of the file are read and written, many at once. Whole blocks of `sparse` zeros are written as zeroes, or passed over where the export is
/// known to read as zeroes.
///
/// What the file tells to be zeros is not read: it counts as zero, and is zeroed or passed over as blocks of zeros are. On a fault the export may be
/// written in part. `extents` changes nothing here: a file tells none to an export.
pub(crate) fn copy_from_file<W: Wires, S: Store>(
    alloc: Global,
    options: CopyOptions,
    from: &Text,
    to: &Place,
    wires: &mut W,
    store: &mut S,
) -> Result<Summary, FileFault>
    // Its links are kept, it connects to the export alone, and waits well, whatever it comes to. Where it is made it connected as often as the options and what the export told say, and each connect
    // gave a link.
    ensures conducts { GrewBy (ConductsFar options to.now) (W.told wires.old) (W.told wires.new) }
    ensures connects { OnOk result (GrewBy (ConnectsAsTold options to.now) (W.told wires.old) (W.told wires.new)) }
    ensures connected { OnOk result (GrewBy AllConnected (W.told wires.old) (W.told wires.new)) }
    // At each pause that waits to write nothing no byte was asked to be moved yet, or as many requests are under way as may be, whatever it comes to.
    ensures full { GrewBy (PausesAreFullFrom options to.now) (W.told wires.old) (W.told wires.new) }
    // Where the store tells its files, each file is as it was, and the export holds the one at the path, if its server is honest over the calls.
    ensures from_file { IfOk result (λ summary. GrewBy (λ calls. Goes (S.shelf store.old) (S.shelf store.new) (IsCopiedFrom from.now (size_of summary) to.now options.destination_is_zero calls))
        (W.told wires.old) (W.told wires.new)) }

    // The file gave all that was read, and nothing was written to any file. What was read, written, zeroed and passed over.
    ensures sums { IfOk result (λ summary. GrewBy (λ calls. IsGivenBy summary (S.given store.old) (S.given store.new)) (W.told wires.old) (W.told wires.new)) }
    ensures taken { S.taken store.new ≡ S.taken store.old }
    ensures summary { IfOk result (λ summary. GrewBy (HasSummedFrom summary to.now) (W.told wires.old) (W.told wires.new)) }

    // What the export was asked: nothing twice, at most one flush, and that where it is wanted alone; and all of it is done.
    ensures asks { IfOk result (λ summary. GrewBy (HasAskedFrom options (size_of summary) to.now) (W.told wires.old) (W.told wires.new)) }
    ensures done { OnOk result (GrewBy (λ calls. AreAllDone (dealt_with to.now calls)) (W.told wires.old) (W.told wires.new)) }
    ensures flushes { OnOk result (GrewBy (λ calls. OneFlushes (dealt_with to.now calls)) (W.told wires.old) (W.told wires.new)) }
    ensures unflushed { options.flush ≡ false → OnOk result (GrewBy (IsUnflushed to.now) (W.told wires.old) (W.told wires.new)) }

    ensures behaves { ConductsFrom options from.now to.now (S.told store.old) (S.told store.new) (W.told wires.old) (W.told wires.new) }

    // Whatever it comes to, at no moment are more WRITE and WRITE_ZEROES unanswered on one connection than what may be under way, shared out evenly.
    ensures shares { GrewBy (IsAlwaysSharedFrom options to.now) (W.told wires.old) (W.told wires.new) }
    // It was flushed, and that is done, where the options want it and the export told that it can be flushed.
    ensures flushed { IfOk result (λ summary. GrewBy (FlushesWantedFrom options (size_of summary) to.now) (W.told wires.old) (W.told wires.new)) }
    // No flush was asked before all else was asked and done: by a front of the calls the summary is so already.
    ensures flushed_last { IfOk result (λ summary. GrewBy (FlushesLastFrom (size_of summary) to.now summary) (W.told wires.old) (W.told wires.new)) }

    // What it was asked whatever the copy comes to: nothing twice, nothing past the length that the file told, one flush at most, and no block of zeros where they are looked for.

    // No call on the wires failed, and they waited for less than is borne.
    ensures well { OnOk result (¬ Rises 1 (W.faults wires.old) (W.faults wires.new)) }
    ensures patient { OnOk result (¬ Rises patience (W.idles wires.old) (W.idles wires.new)) }

    // Which calls were made on the store.
    ensures stores { OnOk result (Grew (S.told store.old) (S.told store.new) (HasRead from.now)) }
    ensures stopped { IfErr result (λ why. Grew (S.told store.old) (S.told store.new) (HasNotRead from.now (stop_of why))) }

    // What a fault comes from. A store that tells its files has none that changed.
    ensures copy_faults { IfErr result (HasWiresCause (record { faults = W.faults wires.old; idles = W.idles wires.old }) (W.faults wires.new) (W.idles wires.new)) }
    ensures store_fault { IfErr result (HasStoreCause (S.faults store.old) (S.faults store.new)) }
    ensures changed { IfErr result (λ why. TellsChange why → (now : Shelf) → S.shelf store.new ≡ Some now → ⊥) }
    ensures counts { GoesOn (W.faults wires.old) (W.faults wires.new) (W.idles wires.old) (W.idles wires.new) (W.contents wires.old) (W.contents wires.new) }
{
    let before = store.faults();
    let mut copy = FromFile::new(alloc, options, Counts::of(wires));
    let told = copy.copy(from, to, wires, store);
    copy.end(wires);
    match told {
        Ok(summary) => Ok(summary),
        Err(why) => Err(why.fault(before, store.faults())),
    }
}
