//! A copy from an export to a file, from its first connection to the end, over any wires and any store. How slices go is known by its job.

ghost use Rattle.std.specs.Prelude.{◌≡◌, ◌<◌, ◌≤◌, ◌^◌, [], Bool, IfErr, IfOk, List, None, OnErr, OnOk, Option, Some, length, true, ℕ, false};
ghost use Rattle.lnbd_link.specs.Call.{Call, Pause};
ghost use Rattle.lnbd_link.specs.Count.{Rises, patience};
ghost use Rattle.lnbd_model.specs.declared.target.Place.{Place as At};
ghost use Rattle.lnbd_board.specs.Files.{Seen as Kept};
ghost use Rattle.lnbd_asked.specs.Transcript.{dealt_with};
ghost use Rattle.lnbd_course.specs.AllDone.{AreAllDone};
ghost use Rattle.lnbd_course.specs.Asks.{GrewBy};
ghost use Rattle.lnbd_copy.specs.Agreed.{AreQuiet, Tells};
ghost use Rattle.lnbd_copy.specs.Causes.{AreWell, GoesOn, HasCause, tells_no_count};
ghost use Rattle.lnbd_copy.specs.Faults.{GoesIdly};
ghost use Rattle.lnbd_conduct.specs.Told.{Told};
ghost use Rattle.lnbd_connections.specs.Bound.{Binds};
ghost use Rattle.lnbd_connections.specs.Few.{StaysFew};
ghost use Rattle.lnbd_connections.specs.Steps.{Goes as ConnectionsGo};
ghost use Rattle.lnbd_store.specs.Shelf.{Goes};
ghost use Rattle.lnbd_conduct.specs.Terms.{takes_flush, takes_zeroes};
ghost use Rattle.lnbd_touched.specs.Grown.{Grew};
ghost use Rattle.lnbd_copyfile.specs.Calls.{stop_of};
ghost use Rattle.lnbd_copyfile.specs.OneFile.{BreaksWriting, Writes};
ghost use Rattle.lnbd_copyfile.specs.OneSide.{IsCopiedTo};
ghost use Rattle.lnbd_copyfile.specs.Shares.{IsAlwaysSharedTo, as_told};
ghost use Rattle.lnbd_copyfile.specs.Sharing.{FindsTermsTo, HasTermsTo, IsOpening, IsSharing, SharesOut, share};
ghost use Rattle.lnbd_copyfile.specs.ToFile.{GoesFurther, HaltsFor, HasCauseTo, HasConnected, HasReadOnce, HasStored, IsBeginning, IsMadeTo, IsReady, IsSetUp, IsSummedTo, IsTally, LeavesIf, NotStored, stop_at};
ghost use Rattle.lnbd_conduct.specs.Links.{AllConnected};
ghost use Rattle.lnbd_copy.specs.Moving.{TurnsInVain};
ghost use Rattle.lnbd_connections.specs.Uses.{Rests, Uses};
ghost use Rattle.lnbd_copyfile.specs.Conduct.{ConductsFar};
ghost use Rattle.lnbd_copyfile.specs.Connects.{ConnectsAsTold};
ghost use Rattle.lnbd_link.specs.Part.{Adds};
ghost use Rattle.lnbd_poll.specs.Held.{wants_now};
ghost use Rattle.lnbd_plan.specs.declared.options.CopyOptions.{CopyOptions};
ghost use Rattle.lnbd_usage.specs.Pauses.{AtEachPause};
ghost use Rattle.lnbd_copy.specs.Links.{LinksGo};
ghost use Rattle.lnbd_copy.specs.Pauses.{Unpaused};
ghost use Rattle.lnbd_connections.specs.Unready.{IsUnready};
ghost use Rattle.lnbd_copyfile.specs.ToFileFull.{PausesAreFullTo};
ghost use Rattle.lnbd_copyfile.specs.ToFilePauses.{GoesFull, IsReadyFull, PausesFull, RestsFull};
ghost use Rattle.lnbd_copyfile.specs.Linked.{FindsMany, UsesAsTold, UsesWithin};
ghost use Rattle.lnbd_conduct.specs.Answered.{ReadsAreAnswered};
ghost use Rattle.lnbd_copyfile.specs.Hearing.{HasHeard, HearsReads, HearsTo, IsLed};
ghost use Rattle.lnbd_copyfile.specs.Passed.{HasPassedBy, HasPassedOver, PassesOver};
ghost use Rattle.lnbd_copyfile.specs.Taken.{IsCutTo, ReadsAtMostOnce, SparesToldSoFar, SparesWhole};
ghost use Rattle.lnbd_copyfile.specs.Taking.{ReadsNoMore, ReadsNothing, TellsBlock, WasOfBlock};

use crate::fault::{FileFault, Halt};
use crate::filling::{finish, make};
use crate::to_file_job::ToFileJob;
use lnbd_board::{Board, Ticket};
use lnbd_conduct::{FIRST_SOURCE, Terms};
use lnbd_connections::{dial, dial_further, rest, settle, shut_all, shut_parted, take_turn};
use lnbd_copy::{
    Counts, MAX_TURNS, UNKNOWN, broken_rule, check_counts, check_idles, check_well, info_of,
    settled, tells_extents,
};
use lnbd_link::Wires;
use lnbd_model::{Contexts, ExportInfo, NoMemory, Place, Text};
use lnbd_plan::{CopyFault, CopyOptions, Summary};
use lnbd_poll::{Handles, Turn};
use lnbd_records::names::{FLAG_CAN_MULTI_CONN, FLAG_SEND_FLUSH, FLAG_SEND_WRITE_ZEROES};
use lnbd_store::Store;
use std::alloc::Global;
use std::mem;

/// What a file counts as telling that is to have so many bytes: it takes zeros, may be flushed, and has as many connections as there are.
fn as_export(alloc: Global, size: u64) -> ExportInfo
    ensures flush { takes_flush result ≡ true }
    ensures told { result ≡ as_told size }
    ensures zeroes { takes_zeroes result ≡ true }
    ensures blocks { result.blocks ≡ None }
{
    ExportInfo {
        size,
        flags: FLAG_SEND_FLUSH | FLAG_SEND_WRITE_ZEROES | FLAG_CAN_MULTI_CONN,
        blocks: None,
        name: None,
        description: None,
        contexts: Contexts::new(alloc),
        structured: false,
        extended: false,
    }
}

/// What the source settles, once its first connection has negotiated. The file is cut to zeros, so that zeros are written only where they are to be
/// allocated.
fn agree(alloc: Global, handles: &Handles<Ticket>, options: CopyOptions) -> Result<Terms, CopyFault>
    requires some { 0 < length handles.now }
    requires quiet { AreQuiet handles.now }
    ensures many { IfOk result (λ terms. FindsMany options terms.sides.source handles.now) }
    ensures settles { IfOk result (λ terms. FindsTermsTo options terms handles.now) }
    ensures cells { IfOk result (λ terms. (0 < terms.cell) × (0 < terms.zero_cell) × (0 < terms.grain)) }
    ensures size { IfOk result (λ terms. terms.size ≤ 2 ^ 63) }
    ensures source { IfOk result (λ terms. 0 < terms.sides.source) }
    ensures flush { IfOk result (λ terms. terms.flush ≡ options.flush) }
    ensures zeroes { IfOk result (λ terms. terms.how.zeroes ≡ true) }
    ensures tells { IfOk result (λ terms. Tells 0 terms.size handles.now) }
    ensures blocks { IfOk result (λ terms. TellsBlock terms.grain handles.now) }
    ensures free { IfErr result (λ told. tells_no_count told ≡ true) }
{
    let source = info_of(handles, FIRST_SOURCE)?;
    let file = as_export(alloc, source.size);
    match broken_rule(source, &file) {
        Some(rule) => Err(CopyFault::Rule(rule)),
        None => {
            let options = CopyOptions {
                destination_is_zero: !options.allocated,
                ..options
            };
            Ok(settled(options, source, &file))
        }
    }
}

/// Makes all connections, the first of which settles how the copy is made.
fn connect<W: Wires>(
    alloc: Global,
    options: CopyOptions,
    from: &Place,
    handles: &mut Handles<Ticket>,
    board: &mut Board,
    wires: &mut W,
    start: Counts,
) -> Result<Terms, CopyFault>
    requires begins { IsBeginning from.now None (W.told wires.old) (W.told wires.old) board.old handles.old }
    requires well { board.old.error ≡ None }
    requires none { handles.old ≡ [] }
    requires faults { start.faults ≤ W.faults wires.old }
    requires idles { start.idles ≤ W.idles wires.old }
    ensures within { UsesWithin start.idles options from.now handles.old (W.told wires.old) (W.idles wires.old) handles.new (W.told wires.new) (W.idles wires.new) }
    ensures connects { OnOk result (UsesAsTold false start.idles options from.now handles.old (W.told wires.old) (W.idles wires.old) handles.new (W.told wires.new) (W.idles wires.new)) }
    ensures begins { IfOk result (λ terms. IsBeginning from.now (Some terms.size) (W.told wires.old) (W.told wires.new) board.new handles.new) }
    ensures unready { Told (W.told wires.old) (W.told wires.new) (AtEachPause (IsUnready options.extents from.now)) }
    ensures ready { IfOk result (λ terms. IsReadyFull options from.now (W.told wires.old) (W.told wires.new) terms handles.new) }
    ensures some { OnOk result (0 < length handles.new) }
    ensures quiet { OnOk result (AreQuiet handles.new) }
    ensures well { OnOk result (board.new.error ≡ None) }
    ensures cells { IfOk result (λ terms. (0 < terms.cell) × (0 < terms.zero_cell) × (0 < terms.grain)) }
    ensures size { IfOk result (λ terms. terms.size ≤ 2 ^ 63) }
    ensures flush { IfOk result (λ terms. terms.flush ≡ options.flush) }
    ensures opens { IfOk result (λ terms. IsOpening from.now (Some terms.size) (W.told wires.old) (W.told wires.new) board.new handles.new) }
    ensures led { IfOk result (λ terms. IsLed options.extents from.now (Some terms.size) (W.told wires.old) (W.told wires.new) board.new handles.new) }
    ensures settles { IfOk result (λ terms. HasTermsTo options from.now (W.told wires.old) (W.told wires.new) terms) }
    ensures few { StaysFew 0 (W.told wires.old) (W.told wires.old) (W.told wires.new) }
    ensures zeroes { IfOk result (λ terms. terms.how.zeroes ≡ true) }
    ensures causes { IfErr result (λ told. HasCause start (W.faults wires.new) (W.idles wires.new) told) }
    ensures counts { GoesOn (W.faults wires.old) (W.faults wires.new) (W.idles wires.old) (W.idles wires.new) (W.contents wires.old) (W.contents wires.new) }
    ensures asks { Told (W.told wires.old) (W.told wires.new) (ReadsNothing from.now) }
    ensures heard { Told (W.told wires.old) (W.told wires.new) (ReadsAreAnswered options.extents from.now) }
    ensures blocks { IfOk result (λ terms. Told (W.told wires.old) (W.told wires.new) (WasOfBlock from.now terms.grain)) }
{
    dial(alloc, handles, board, wires, from, options.extents, start)?;
    settle(handles, board, wires, start)?;
    let terms = agree(alloc, handles, options)?;
    let further = terms.sides.source - 1;
    dial_further(alloc, handles, board, wires, from, further, start)?;
    settle(handles, board, wires, start)?;
    Ok(terms)
}

/// Makes ready what is done once all connections stand.
fn set_up(
    alloc: Global,
    handles: &Handles<Ticket>,
    board: &mut Board,
    terms: Terms,
) -> Result<ToFileJob, NoMemory>
    requires some { 0 < length handles.now }
    requires quiet { AreQuiet handles.now }
    requires well { board.old.error ≡ None }
    requires cells { (0 < terms.cell) × (0 < terms.zero_cell) × (0 < terms.grain) }
    requires size { terms.size ≤ 2 ^ 63 }
    ensures terms { IfOk result (λ job. job.terms ≡ terms) }
    ensures empty { OnOk result (board.new.rows ≡ []) }
    ensures begins { IfOk result (λ job. (at : At) (start told : Option (List Call)) → IsBeginning at (Some terms.size) start told board.old handles.now
        → IsSetUp at start told job board.new handles.now) }
    ensures shares { IfOk result (λ job. (at : At) (start told : Option (List Call)) → IsBeginning at (Some terms.size) start told board.old handles.now
        → IsOpening at (Some terms.size) start told board.old handles.now → IsSharing terms start told job board.new handles.now) }
    ensures hears { IfOk result (λ job. (extents : Bool) (at : At) (start told : Option (List Call)) → IsBeginning at (Some terms.size) start told board.old handles.now
        → IsLed extents at (Some terms.size) start told board.old handles.now → Told start told (HasHeard extents at job.windows.at)) }
{
    let extents = tells_extents(handles)?;
    mem::replace(board, Board::new(alloc, terms.how)).end();
    ToFileJob::new(alloc, terms, extents)
}

/// Hangs up on connections that have parted, where all is copied. Whether any did.
#[tactic(auto, using(lnbd_connections::proofs::UseLemmas::uses_none, lnbd_copy::proofs::IdleLemmas::idly_none, lnbd_copy::proofs::PauseLemmas::unpaused_none))]
fn leave<W: Wires>(
    job: &ToFileJob,
    handles: &mut Handles<Ticket>,
    board: &mut Board,
    wires: &mut W,
) -> bool
    ensures uses { (first : ℕ) → Uses false first [] handles.old (W.told wires.old) (W.idles wires.old) handles.new (W.told wires.new) (W.idles wires.new) }
    ensures kept { result ≡ false → (handles.new ≡ handles.old) × (wires.new ≡ wires.old) }
    ensures unpaused { Unpaused (W.told wires.old) (W.told wires.new) }
    ensures still { result ≡ false → board.new ≡ board.old }
    ensures leaves { LeavesIf job.now.is_parting board.old handles.old (W.told wires.old) board.new handles.new (W.told wires.new) }
    ensures idly { GoesIdly (W.told wires.old) (W.told wires.new) }
    ensures counts { GoesOn (W.faults wires.old) (W.faults wires.new) (W.idles wires.old) (W.idles wires.new) (W.contents wires.old) (W.contents wires.new) }
    ensures asks { GoesIdly (W.told wires.old) (W.told wires.new) }
{
    if !job.is_parting() {
        return false;
    }
    shut_parted(handles, board, wires) != 0
}

/// One turn of the connections, and what can be done behind it. Whether anything happened.
#[tactic(auto, using(lnbd_connections::proofs::UseLemmas::uses_none))]
fn turn<W: Wires, S: Store>(
    alloc: Global,
    job: &mut ToFileJob,
    file: u32,
    handles: &mut Handles<Ticket>,
    board: &mut Board,
    wires: &mut W,
    store: &mut S,
    start: Counts,
) -> Result<bool, Halt>
    requires ready { IsReady job.old board.old handles.old }
    requires faults { start.faults ≤ W.faults wires.old }
    ensures uses { Uses false start.idles [] handles.old (W.told wires.old) (W.idles wires.old) handles.new (W.told wires.new) (W.idles wires.new) }
    ensures vain { IfOk result (λ happened. happened ≡ false → TurnsInVain handles.new (W.told wires.old) (W.told wires.new)) }
    ensures ready { OnOk result (IsReady job.new board.new handles.new) }
    ensures on { OnOk result (GoesFurther file job.old board.old handles.old (W.told wires.old) (S.shelf store.old) (S.taken store.old)
        job.new board.new handles.new (W.told wires.new) (S.shelf store.new) (S.taken store.new)) }
    // Whatever it comes to, no more are unanswered on any connection at each moment of it than its share.
    ensures shares { (terms : Terms) (from : Option (List Call)) → IsSharing terms from (W.told wires.old) job.old board.old handles.old →
        StaysFew (share terms) from (W.told wires.old) (W.told wires.new) }
    ensures sharing { OnOk result ((terms : Terms) (from : Option (List Call)) → IsSharing terms from (W.told wires.old) job.old board.old handles.old →
        IsSharing terms from (W.told wires.new) job.new board.new handles.new) }
    ensures full { OnOk result (GoesFull file job.old board.old handles.old (W.told wires.old) (S.shelf store.old) (S.taken store.old)
        job.new board.new handles.new (W.told wires.new) (S.shelf store.new) (S.taken store.new)) }
    ensures rests { IfOk result (λ happened. happened ≡ false → RestsFull file job.old board.old handles.old (W.told wires.old) (S.shelf store.old) (S.taken store.old) handles.new (W.told wires.new)) }
    ensures unpaused { Unpaused (W.told wires.old) (W.told wires.new) }
    ensures terms { job.new.terms ≡ job.old.terms }
    ensures writes { OnOk result (Grew (S.told store.old) (S.told store.new) (Writes file)) }
    ensures breaks { IfErr result (λ why. Grew (S.told store.old) (S.told store.new) (BreaksWriting file (stop_at why))) }
    ensures halts { IfErr result (HaltsFor start (W.faults wires.new) (W.idles wires.new) (S.faults store.old) (S.faults store.new)) }
    ensures counts { GoesOn (W.faults wires.old) (W.faults wires.new) (W.idles wires.old) (W.idles wires.new) (W.contents wires.old) (W.contents wires.new) }
    ensures later { S.faults store.old ≤ S.faults store.new }
    ensures asks { ReadsNoMore file job.old board.old handles.old (W.told wires.old) (S.shelf store.old) (S.taken store.old) (W.told wires.new) }
    ensures heard { HearsTo file job.old board.old handles.old (W.told wires.old) (S.shelf store.old) (S.taken store.old) job.old.windows.at (W.told wires.new) }
    ensures hears { OnOk result (HearsTo file job.old board.old handles.old (W.told wires.old) (S.shelf store.old) (S.taken store.old) job.new.windows.at (W.told wires.new)) }
{
    let moved = take_turn(handles, board, wires, start)?;
    let acted = job.act(alloc, handles, board, store, file)?;
    let left = leave(job, handles, board, wires);
    Ok(acted || left || !matches!(moved, Turn::Still))
}

/// Whether all is copied, and each connection has parted.
fn is_finished(job: &ToFileJob, handles: &Handles<Ticket>) -> bool
    ensures parting { result ≡ true → job.now.is_parting ≡ true }
    ensures parted { result ≡ true → handles.now ≡ [] }
{
    job.is_parting() && handles.is_empty()
}

/// Waits where nothing happened in a turn.
#[tactic(auto, using(lnbd_connections::proofs::UseLemmas::rests_not, lnbd_connections::proofs::FewLemmas::few_same, lnbd_copy::proofs::LinkLemmas::links_none))]
fn rest_unless<W: Wires>(
    happened: bool,
    handles: &mut Handles<Ticket>,
    wires: &mut W,
    start: Counts,
) -> Result<(), CopyFault>
    requires counted { start.idles ≤ W.idles wires.old }
    ensures rests { Rests (happened ≡ false) start.idles handles.old (W.told wires.old) (W.idles wires.old) handles.new (W.told wires.new) (W.idles wires.new) }
    ensures links { LinksGo [] handles.old (W.told wires.old) handles.new (W.told wires.new) }
    ensures pauses { OnOk result (happened ≡ false → Adds (W.told wires.old) (W.told wires.new) (Pause (wants_now handles.old))) }
    ensures same { happened ≡ true → W.told wires.new ≡ W.told wires.old }
    ensures still { OnErr result (W.told wires.new ≡ W.told wires.old) }
    ensures goes { OnOk result ((now : Kept) → ConnectionsGo now handles.old (W.told wires.old) now handles.new (W.told wires.new)) }
    ensures binds { OnOk result ((now : Kept) → Binds now handles.old (W.told wires.old) now handles.new (W.told wires.new)) }
    ensures few { (most : ℕ) (from : Option (List Call)) → StaysFew most from (W.told wires.old) (W.told wires.new) }
    ensures causes { IfErr result (λ told. HasCause start (W.faults wires.new) (W.idles wires.new) told) }
    ensures counts { GoesOn (W.faults wires.old) (W.faults wires.new) (W.idles wires.old) (W.idles wires.new) (W.contents wires.old) (W.contents wires.new) }
    ensures asks { GoesIdly (W.told wires.old) (W.told wires.new) }
{
    if happened {
        return Ok(());
    }
    rest(handles, wires, start)
}

/// Takes turns until all is copied and each connection has parted, with a pause after each in which nothing happened.
fn take_turns<W: Wires, S: Store>(
    alloc: Global,
    job: &mut ToFileJob,
    file: u32,
    handles: &mut Handles<Ticket>,
    board: &mut Board,
    wires: &mut W,
    store: &mut S,
    start: Counts,
) -> Result<(), Halt>
    requires ready { IsReady job.old board.old handles.old }
    requires faults { start.faults ≤ W.faults wires.old }
    requires idles { start.idles ≤ W.idles wires.old }
    ensures uses { Uses true start.idles [] handles.old (W.told wires.old) (W.idles wires.old) handles.new (W.told wires.new) (W.idles wires.new) }
    ensures on { OnOk result (GoesFurther file job.old board.old handles.old (W.told wires.old) (S.shelf store.old) (S.taken store.old)
        job.new board.new handles.new (W.told wires.new) (S.shelf store.new) (S.taken store.new)) }
    // Whatever it comes to, no more are unanswered on any connection at each moment of it than its share.
    ensures shares { (terms : Terms) (from : Option (List Call)) → IsSharing terms from (W.told wires.old) job.old board.old handles.old →
        StaysFew (share terms) from (W.told wires.old) (W.told wires.new) }
    ensures full { PausesFull file job.old board.old handles.old (W.told wires.old) (S.shelf store.old) (S.taken store.old) (W.told wires.new) }
    ensures terms { job.new.terms ≡ job.old.terms }
    ensures parting { OnOk result (job.new.is_parting ≡ true) }
    ensures writes { OnOk result (Grew (S.told store.old) (S.told store.new) (Writes file)) }
    ensures breaks { IfErr result (λ why. Grew (S.told store.old) (S.told store.new) (BreaksWriting file (stop_at why))) }
    ensures parted { OnOk result (handles.new ≡ []) }
    ensures halts { IfErr result (HaltsFor start (W.faults wires.new) (W.idles wires.new) (S.faults store.old) (S.faults store.new)) }
    ensures counts { GoesOn (W.faults wires.old) (W.faults wires.new) (W.idles wires.old) (W.idles wires.new) (W.contents wires.old) (W.contents wires.new) }
    ensures later { S.faults store.old ≤ S.faults store.new }
    ensures asks { ReadsNoMore file job.old board.old handles.old (W.told wires.old) (S.shelf store.old) (S.taken store.old) (W.told wires.new) }
    ensures heard { HearsReads file job.old board.old handles.old (W.told wires.old) (S.shelf store.old) (S.taken store.old) (W.told wires.new) }
{
    'turns: for _ in 0..MAX_TURNS {
        check_idles(wires, start)?;
        let happened = turn(alloc, job, file, handles, board, wires, store, start)?;
        if is_finished(job, handles) {
            return Ok(());
        }
        rest_unless(happened, handles, wires, start)?;
    }
    Err(Halt::Copy(CopyFault::NoMemory))
}

/// What a copy to a file did: what it zeroed it wrote.
fn summary_of(board: &Board, size: u64) -> Summary
    ensures { IsTally size board.now result }
{
    let counted = board.summary(size);
    Summary {
        written: counted.written.saturating_add(counted.zeroed),
        zeroed: 0,
        ..counted
    }
}

/// The file is made, filled while turns are taken, and synced where that is wished.
fn store_slices<W: Wires, S: Store>(
    alloc: Global,
    job: &mut ToFileJob,
    terms: Terms,
    to: &Text,
    handles: &mut Handles<Ticket>,
    board: &mut Board,
    wires: &mut W,
    store: &mut S,
    start: Counts,
) -> Result<Summary, Halt>
    requires ready { IsReady job.old board.old handles.old }
    requires terms { job.old.terms ≡ terms }
    requires grain { 0 < terms.grain }
    requires size { terms.size ≤ 2 ^ 63 }
    requires zeroes { terms.how.zeroes ≡ true }
    requires faults { start.faults ≤ W.faults wires.old }
    requires idles { start.idles ≤ W.idles wires.old }
    ensures uses { Uses true start.idles [] handles.old (W.told wires.old) (W.idles wires.old) handles.new (W.told wires.new) (W.idles wires.new) }
    ensures makes { IfOk result (λ summary. (at : At) (before : Option (List Call)) → IsSetUp at before (W.told wires.old) job.old board.old handles.old
        → Told before (W.told wires.new) (IsMadeTo at to.now summary (S.shelf store.old) (S.shelf store.new) (S.taken store.old) (S.taken store.new))) }
    // Whatever it comes to, no more are unanswered on any connection at each moment of it than its share.
    ensures shares { (from : Option (List Call)) → IsSharing terms from (W.told wires.old) job.old board.old handles.old → StaysFew (share terms) from (W.told wires.old) (W.told wires.new) }
    ensures passes { IfOk result (λ summary. (at : At) (before : Option (List Call)) → IsSetUp at before (W.told wires.old) job.old board.old handles.old
        → Told before (W.told wires.new) (λ calls. PassesOver terms.how (dealt_with at calls) terms.size summary.skipped)) }
    ensures full { (options : CopyOptions) (at : At) (before : Option (List Call)) → IsSetUp at before (W.told wires.old) job.old board.old handles.old → board.old.rows ≡ []
        → IsReadyFull options at before (W.told wires.old) terms handles.old → Told before (W.told wires.new) (PausesAreFullTo options at) }
    ensures stores { OnOk result (Grew (S.told store.old) (S.told store.new) (HasStored to.now terms.flush)) }
    ensures stopped { IfErr result (λ why. Grew (S.told store.old) (S.told store.new) (NotStored to.now terms.flush (stop_at why))) }
    ensures parted { OnOk result (handles.new ≡ []) }
    ensures untroubled { OnOk result (AreWell start (W.faults wires.new) (W.idles wires.new)) }
    ensures halts { IfErr result (HaltsFor start (W.faults wires.new) (W.idles wires.new) (S.faults store.old) (S.faults store.new)) }
    ensures counts { GoesOn (W.faults wires.old) (W.faults wires.new) (W.idles wires.old) (W.idles wires.new) (W.contents wires.old) (W.contents wires.new) }
    ensures later { S.faults store.old ≤ S.faults store.new }
    ensures asks { (at : At) (before : Option (List Call)) → IsSetUp at before (W.told wires.old) job.old board.old handles.old
        → Told before (W.told wires.old) (ReadsAtMostOnce at) → Told before (W.told wires.new) (ReadsAtMostOnce at) }
    ensures cuts { IfOk result (λ summary. (at : At) (before : Option (List Call)) → IsSetUp at before (W.told wires.old) job.old board.old handles.old
        → Told before (W.told wires.new) (IsCutTo at to.now terms.flush summary (S.told store.old) (S.told store.new))) }
    ensures spares { (at : At) (before : Option (List Call)) → IsSetUp at before (W.told wires.old) job.old board.old handles.old → Told before (W.told wires.old) (WasOfBlock at terms.grain)
        → Told before (W.told wires.old) (ReadsNothing at) → Told before (W.told wires.new) (SparesWhole at) }
    ensures heard { (extents : Bool) (at : At) (before : Option (List Call)) → IsSetUp at before (W.told wires.old) job.old board.old handles.old
        → Told before (W.told wires.old) (HasHeard extents at job.old.windows.at) → Told before (W.told wires.new) (ReadsAreAnswered extents at) }
{
    let file = make(store, to, terms.size)?;
    take_turns(alloc, job, file, handles, board, wires, store, start)?;
    check_well(board)?;
    check_counts(wires, start)?;
    finish(store, file, terms.flush)?;
    Ok(summary_of(board, terms.size))
}

/// Copies into the file, once all connections stand.
fn fill_file<W: Wires, S: Store>(
    alloc: Global,
    terms: Terms,
    to: &Text,
    handles: &mut Handles<Ticket>,
    board: &mut Board,
    wires: &mut W,
    store: &mut S,
    start: Counts,
) -> Result<Summary, Halt>
    requires connected { HasConnected terms.size (W.told wires.old) board.old handles.old }
    requires some { 0 < length handles.old }
    requires quiet { AreQuiet handles.old }
    requires well { board.old.error ≡ None }
    requires cells { (0 < terms.cell) × (0 < terms.zero_cell) × (0 < terms.grain) }
    requires size { terms.size ≤ 2 ^ 63 }
    requires zeroes { terms.how.zeroes ≡ true }
    requires faults { start.faults ≤ W.faults wires.old }
    requires idles { start.idles ≤ W.idles wires.old }
    ensures uses { Uses true start.idles [] handles.old (W.told wires.old) (W.idles wires.old) handles.new (W.told wires.new) (W.idles wires.new) }
    ensures makes { IfOk result (λ summary. (at : At) (before : Option (List Call)) → IsBeginning at (Some terms.size) before (W.told wires.old) board.old handles.old
        → Told before (W.told wires.new) (IsMadeTo at to.now summary (S.shelf store.old) (S.shelf store.new) (S.taken store.old) (S.taken store.new))) }
    // Whatever it comes to, no more are unanswered on any connection at each moment of it than its share.
    ensures shares { (at : At) (from : Option (List Call)) → IsBeginning at (Some terms.size) from (W.told wires.old) board.old handles.old
        → IsOpening at (Some terms.size) from (W.told wires.old) board.old handles.old → StaysFew (share terms) from (W.told wires.old) (W.told wires.new) }
    ensures passes { IfOk result (λ summary. (at : At) (before : Option (List Call)) → IsBeginning at (Some terms.size) before (W.told wires.old) board.old handles.old
        → Told before (W.told wires.new) (λ calls. PassesOver terms.how (dealt_with at calls) terms.size summary.skipped)) }
    ensures full { (options : CopyOptions) (at : At) (before : Option (List Call)) → IsBeginning at (Some terms.size) before (W.told wires.old) board.old handles.old
        → IsReadyFull options at before (W.told wires.old) terms handles.old → Told before (W.told wires.new) (PausesAreFullTo options at) }
    ensures stores { OnOk result (Grew (S.told store.old) (S.told store.new) (HasStored to.now terms.flush)) }
    ensures stopped { IfErr result (λ why. Grew (S.told store.old) (S.told store.new) (NotStored to.now terms.flush (stop_at why))) }
    ensures untroubled { OnOk result (AreWell start (W.faults wires.new) (W.idles wires.new)) }
    ensures parted { OnOk result (handles.new ≡ []) }
    ensures halts { IfErr result (HaltsFor start (W.faults wires.new) (W.idles wires.new) (S.faults store.old) (S.faults store.new)) }
    ensures counts { GoesOn (W.faults wires.old) (W.faults wires.new) (W.idles wires.old) (W.idles wires.new) (W.contents wires.old) (W.contents wires.new) }
    ensures later { S.faults store.old ≤ S.faults store.new }
    ensures asks { (at : At) (before : Option (List Call)) → IsBeginning at (Some terms.size) before (W.told wires.old) board.old handles.old
        → Told before (W.told wires.old) (ReadsAtMostOnce at) → Told before (W.told wires.new) (ReadsAtMostOnce at) }
    ensures cuts { IfOk result (λ summary. (at : At) (before : Option (List Call)) → IsBeginning at (Some terms.size) before (W.told wires.old) board.old handles.old
        → Told before (W.told wires.new) (IsCutTo at to.now terms.flush summary (S.told store.old) (S.told store.new))) }
    ensures spares { (at : At) (before : Option (List Call)) → IsBeginning at (Some terms.size) before (W.told wires.old) board.old handles.old
        → Told before (W.told wires.old) (WasOfBlock at terms.grain) → Told before (W.told wires.old) (ReadsNothing at) → Told before (W.told wires.new) (SparesWhole at) }
    ensures heard { (extents : Bool) (at : At) (before : Option (List Call)) → IsBeginning at (Some terms.size) before (W.told wires.old) board.old handles.old
        → IsLed extents at (Some terms.size) before (W.told wires.old) board.old handles.old
        → Told before (W.told wires.old) (ReadsAreAnswered extents at) → Told before (W.told wires.new) (ReadsAreAnswered extents at) }
{
    let mut job = set_up(alloc, handles, board, terms)?;
    store_slices(
        alloc, &mut job, terms, to, handles, board, wires, store, start,
    )
}

/// Connects, and copies.
fn copy<W: Wires, S: Store>(
    alloc: Global,
    options: CopyOptions,
    from: &Place,
    to: &Text,
    handles: &mut Handles<Ticket>,
    board: &mut Board,
    wires: &mut W,
    store: &mut S,
    start: Counts,
) -> Result<Summary, Halt>
    requires begins { IsBeginning from.now None (W.told wires.old) (W.told wires.old) board.old handles.old }
    requires well { board.old.error ≡ None }
    requires none { handles.old ≡ [] }
    requires faults { start.faults ≤ W.faults wires.old }
    requires idles { start.idles ≤ W.idles wires.old }
    ensures within { UsesWithin start.idles options from.now handles.old (W.told wires.old) (W.idles wires.old) handles.new (W.told wires.new) (W.idles wires.new) }
    ensures connects { OnOk result (UsesAsTold true start.idles options from.now handles.old (W.told wires.old) (W.idles wires.old) handles.new (W.told wires.new) (W.idles wires.new)) }
    ensures makes { IfOk result (λ summary. Told (W.told wires.old) (W.told wires.new)
        (IsMadeTo from.now to.now summary (S.shelf store.old) (S.shelf store.new) (S.taken store.old) (S.taken store.new))) }
    ensures shares { SharesOut options from.now (W.told wires.old) (W.told wires.new) }
    ensures passes { IfOk result (λ summary. HasPassedBy options from.now (W.told wires.old) (W.told wires.new) summary.skipped) }
    ensures full { Told (W.told wires.old) (W.told wires.new) (PausesAreFullTo options from.now) }
    ensures stores { OnOk result (Grew (S.told store.old) (S.told store.new) (HasStored to.now options.flush)) }
    ensures stopped { IfErr result (λ why. Grew (S.told store.old) (S.told store.new) (NotStored to.now options.flush (stop_at why))) }
    ensures untroubled { OnOk result (AreWell start (W.faults wires.new) (W.idles wires.new)) }
    ensures parted { OnOk result (handles.new ≡ []) }
    ensures halts { IfErr result (HaltsFor start (W.faults wires.new) (W.idles wires.new) (S.faults store.old) (S.faults store.new)) }
    ensures counts { GoesOn (W.faults wires.old) (W.faults wires.new) (W.idles wires.old) (W.idles wires.new) (W.contents wires.old) (W.contents wires.new) }
    ensures asks { Told (W.told wires.old) (W.told wires.new) (ReadsAtMostOnce from.now) }
    ensures cuts { IfOk result (λ summary. Told (W.told wires.old) (W.told wires.new) (IsCutTo from.now to.now options.flush summary (S.told store.old) (S.told store.new))) }
    ensures spares { OnOk result (Told (W.told wires.old) (W.told wires.new) (SparesWhole from.now)) }
    ensures spared { Told (W.told wires.old) (W.told wires.new) (SparesToldSoFar from.now) }
    ensures heard { Told (W.told wires.old) (W.told wires.new) (ReadsAreAnswered options.extents from.now) }
{
    let terms = connect(alloc, options, from, handles, board, wires, start)?;
    fill_file(alloc, terms, to, handles, board, wires, store, start)
}

/// Copies an export to the file at a path. All connections are made first; then the file is opened, made where it is missing, cut to nothing and to the
/// export's size, so that nothing of what it had is left; and slices are read and written as their bytes come. What was told to be zero and, with
/// `sparse`, pieces of zeros are passed over, unless they are to be allocated. `destination_is_zero` changes nothing here.
///
/// On a fault the file may be cut and written in part.
///
/// # Errors
///
/// `Copy` with what ends a copy between exports, and where memory ran out; `Store` where a call on the store failed.
pub(crate) fn copy_to_file<W: Wires, S: Store>(
    alloc: Global,
    options: CopyOptions,
    from: &Place,
    to: &Text,
    wires: &mut W,
    store: &mut S,
) -> Result<Summary, FileFault>
    // Its links are kept, it connects to the export alone, and waits well, whatever it comes to. Where it is made it connected as often as the options and what the export told say, and each connect
    // gave a link.
    ensures conducts { GrewBy (ConductsFar options from.now) (W.told wires.old) (W.told wires.new) }
    ensures connects { OnOk result (GrewBy (ConnectsAsTold options from.now) (W.told wires.old) (W.told wires.new)) }
    ensures connected { OnOk result (GrewBy AllConnected (W.told wires.old) (W.told wires.new)) }
    // At each pause that waits to write nothing no byte was asked for yet, or as many requests are under way as may be, whatever it comes to.
    ensures full { GrewBy (PausesAreFullTo options from.now) (W.told wires.old) (W.told wires.new) }
    // Over an honest export the file is exactly its bytes, where the store tells its files, and every other file is as it was.
    ensures to_file { OnOk result (GrewBy (λ calls. Goes (S.shelf store.old) (S.shelf store.new) (IsCopiedTo to.now from.now calls)) (W.told wires.old) (W.told wires.new)) }
    // How many bytes the file took, and what was asked of the export, all of which is done.
    ensures sums { IfOk result (λ summary. GrewBy (IsSummedTo from.now summary (S.taken store.old) (S.taken store.new)) (W.told wires.old) (W.told wires.new)) }
    // Of the positions none was passed over where zeros are to be allocated; and else those that were told as zero or read as blocks of zeros, and no other.
    ensures passed { IfOk result (λ summary. GrewBy (HasPassedOver options from.now summary.skipped) (W.told wires.old) (W.told wires.new)) }
    ensures asks { OnOk result (GrewBy (HasReadOnce from.now) (W.told wires.old) (W.told wires.new)) }
    ensures done { OnOk result (GrewBy (λ calls. AreAllDone (dealt_with from.now calls)) (W.told wires.old) (W.told wires.new)) }
    // Whatever it comes to, at no moment are more READ unanswered on one connection than what may be under way, shared out evenly.
    ensures shares { GrewBy (IsAlwaysSharedTo options from.now) (W.told wires.old) (W.told wires.new) }
    // No call on the wires failed, and they waited for less than is borne.
    ensures well { OnOk result (¬ Rises 1 (W.faults wires.old) (W.faults wires.new)) }
    ensures patient { OnOk result (¬ Rises patience (W.idles wires.old) (W.idles wires.new)) }
    // Which calls were made on the store.
    ensures stores { OnOk result (Grew (S.told store.old) (S.told store.new) (HasStored to.now options.flush)) }
    ensures stopped { IfErr result (λ why. Grew (S.told store.old) (S.told store.new) (NotStored to.now options.flush (stop_of why))) }
    // What a fault comes from, by the counts at the start and in the end.
    ensures causes { IfErr result (HasCauseTo (record { faults = W.faults wires.old; idles = W.idles wires.old }) (W.faults wires.new) (W.idles wires.new) (S.faults store.old) (S.faults
        store.new)) }
    ensures counts { GoesOn (W.faults wires.old) (W.faults wires.new) (W.idles wires.old) (W.idles wires.new) (W.contents wires.old) (W.contents wires.new) }
    // Whatever it comes to, the export was asked on links of its own, nothing was read twice, and nothing past a size that it told.
    ensures reads { GrewBy (ReadsAtMostOnce from.now) (W.told wires.old) (W.told wires.new) }
    // No READ covers a block that one answer told as zero whole, for blocks as large as the export's least block; whatever it comes to, so it is, or nothing was read.
    ensures spares { OnOk result (GrewBy (SparesWhole from.now) (W.told wires.old) (W.told wires.new)) }
    ensures spared { GrewBy (SparesToldSoFar from.now) (W.told wires.old) (W.told wires.new) }
    // The file has as many bytes as the export told, of which each was written or passed over.
    ensures cuts { IfOk result (λ summary. GrewBy (IsCutTo from.now to.now options.flush summary (S.told store.old) (S.told store.new)) (W.told wires.old) (W.told wires.new)) }
    // Whatever it comes to, a block status was answered for each position before it was read, or the first connection, on which that was asked for where extents are wanted, agreed no meta context.
    ensures heard { GrewBy (ReadsAreAnswered options.extents from.now) (W.told wires.old) (W.told wires.new) }
{
    let before = store.faults();
    let start = Counts::of(wires);
    let mut handles = Handles::new(alloc);
    let mut board = Board::new(alloc, UNKNOWN);
    let told = copy(
        alloc,
        options,
        from,
        to,
        &mut handles,
        &mut board,
        wires,
        store,
        start,
    );
    shut_all(&mut handles, &mut board, wires);
    let _ = handles.close(&mut board);
    board.end();
    match told {
        Ok(summary) => Ok(summary),
        Err(why) => Err(why.fault(before, store.faults())),
    }
}
