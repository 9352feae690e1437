//! The top call: what the words ask of which tool, and the status of its run.

ghost use Rattle.std.specs.Prelude.{◌≡◌, ◌⊎◌, ◌<◌, ◌≤◌, Err, OnOk, true, false};
ghost use Rattle.lnbd_args.specs.declared.asked.Asked.{Asked};
ghost use Rattle.lnbd_link.specs.Count.{Rises, patience};
ghost use Rattle.lnbd_store.specs.declared.serving.Serving.{Serving};
ghost use Rattle.lnbd_copyfile.specs.FileCopy.{Download, Duplication, Upload};
ghost use Rattle.lnbd_cli.specs.Asks.{Ask, AskBeside, AskFile, AskNothing, AskProgram, IsBeside, IsCalls, IsCopy, IsDownload, IsDump, IsDuplicate, IsInfo, IsSelftest, IsServe, IsUpload};
ghost use Rattle.lnbd_cli.specs.Beside.{FileServed, IsBesideDone, ProgramRan, is_all_done};
ghost use Rattle.lnbd_cli.specs.Calls.{IsPlayDone};
ghost use Rattle.lnbd_cli.specs.Copies.{IsCopyDone};
ghost use Rattle.lnbd_cli.specs.Did.{Did, DidAsked, HasRoom, IsOnWires, NeverReads};
ghost use Rattle.lnbd_cli.specs.Dumps.{IsDumpDone, IsShown, IsShownInPart};
ghost use Rattle.lnbd_cli.specs.Duplicates.{IsDuplicateDone};
ghost use Rattle.lnbd_cli.specs.Ends.{Came, IsPatient, IsSound, Prints, ShowsFault};
ghost use Rattle.lnbd_cli.specs.Informs.{IsInfoDone};
ghost use Rattle.lnbd_cli.specs.Inputs.{ReadAtMost};
ghost use Rattle.lnbd_cli.specs.Runs.{AreQuiet, AreSound, AskOffWires, Beside, IsPlay, IsRefused, Nothing, Refused, Still, Tells, is_known};
ghost use Rattle.lnbd_cli.specs.Runs.{RunsCalls, RunsCopy, RunsDownload, RunsDump, RunsDuplicate, RunsInfo, RunsSelftest, RunsServe, RunsUpload};
ghost use Rattle.lnbd_cli.specs.Serves.{IsServeDone};
ghost use Rattle.lnbd_cli.specs.Limits.{most_read, most_tested};
ghost use Rattle.lnbd_cli.specs.declared.copying.Transfer.{Transfer};
ghost use Rattle.lnbd_cli.specs.declared.dumping.Excerpt.{Excerpt};
ghost use Rattle.lnbd_cli.specs.declared.ending.Fault.TheVariants as fault;
ghost use Rattle.lnbd_cli.specs.declared.hearing.Question.{Question};
ghost use Rattle.lnbd_cli.specs.declared.selftesting.Trial.{Trial};
ghost use Rattle.lnbd_cli.specs.declared.serving.Service.{Service};

use crate::calling::calls;
use crate::copying::{Transfer, copy};
use crate::counts::tally;
use crate::dumping::{Excerpt, show};
use crate::ending::{End, print_end};
use crate::filing::copy_files;
use crate::hearing::Question;
use crate::informing::inform;
use crate::reading::read;
use crate::selftesting::{Trial, test};
use crate::serving::attend;
use lnbd_args::Asked;
use lnbd_link::{Sink, Source, Wires};
use lnbd_spawn::Spawner;
use lnbd_store::Store;
use std::alloc::Global;

/// Runs the tool that the words name over this outside, and tells the status that it ends with.
///
/// 0: all is done. 1: words or a script are in no grammar. 2: what nbdinfo was asked is false. 3: the peer answered an option or a command by an error. 4: it broke
/// the protocol, or ended before the run was done; a client of serve broke it. 5: a link failed. 6: the server did not agree to a map's context, two exports don't
/// fit for a copy, a file ended before its told length, an export has no such range to show, or the size of a selftest or of a served file is too large. 7: the wires were idle for too long. 8: `out` failed. 9: memory ran out. 10: `input`
/// failed. 11: a call on a local file failed. 12: the program beside which serve ran ended badly. 13: it could not be started, or how it ended could not be had. Every
/// status but 0 and 2 prints its line on `err`.
pub fn run<W: Wires, I: Source, O: Sink, E: Sink, S: Store, P: Spawner>(
    alloc: Global,
    words: &[String],
    input: &mut I,
    wires: &mut W,
    out: &mut O,
    err: &mut E,
    store: &mut S,
    spawn: &mut P,
) -> u8
    // What the words ask of a tool came to an end of which status and line tell: by these calls, and with this printed.
    ensures calls { IsCalls words.now → Came (RunsCalls I.left input.old input.new W.told wires.old wires.new O.taken out.old out.new) (Prints E.taken E.faults err.old err.new) result }
    ensures info { (q : Question) → IsInfo words.now q → Came (RunsInfo q W.told wires.old wires.new O.taken out.old out.new) (Prints E.taken E.faults err.old err.new) result }
    ensures serve { (s : Service) → IsServe words.now s → Came (RunsServe s W.told wires.old wires.new O.taken out.old out.new) (Prints E.taken E.faults err.old err.new) result }
    ensures beside { Beside words.now W.told wires.old wires.new O.taken out.old out.new S.told store.old store.new P.told spawn.old spawn.new (Tells E.taken E.faults err.old err.new result) }
    ensures copy { (t : Transfer) → IsCopy words.now t → Came (RunsCopy t W.told wires.old wires.new out.old out.new) (Prints E.taken E.faults err.old err.new) result }
    ensures duplicate { (d : Duplication) → IsDuplicate words.now d → Came (RunsDuplicate d wires.old wires.new out.old out.new S.told S.shelf S.given S.taken store.old store.new)
        (Prints E.taken E.faults err.old err.new) result }
    ensures download { (d : Download) → IsDownload words.now d → Came (RunsDownload d W.told wires.old wires.new out.old out.new S.told S.shelf S.taken store.old store.new)
        (Prints E.taken E.faults err.old err.new) result }
    ensures upload { (u : Upload) → IsUpload words.now u → Came (RunsUpload u W.told wires.old wires.new out.old out.new S.told S.shelf S.given store.old store.new)
        (Prints E.taken E.faults err.old err.new) result }
    ensures dump { (e : Excerpt) → IsDump words.now e → Came (RunsDump e W.told wires.old wires.new O.taken out.old out.new) (Prints E.taken E.faults err.old err.new) result }
    ensures selftest { (t : Trial) → IsSelftest words.now t → Came (RunsSelftest t wires.old wires.new O.taken out.old out.new) (Prints E.taken E.faults err.old err.new) result }

    // It is known what the words ask; or they are refused, or memory ran out before it was known, and nothing is done.
    ensures decided { ((asked : Asked) × Ask words.now asked) ⊎ Came (Refused words.now wires.old wires.new out.old out.new) (Prints E.taken E.faults err.old err.new) result }

    // Words that ask nothing of any tool are refused, and nothing is done.
    ensures refused { AskNothing words.now → Came (IsRefused words.now) (Prints E.taken E.faults err.old err.new) result }
    ensures refused_alone { AskNothing words.now → Nothing wires.old wires.new out.old out.new }

    // Only nbdcalls reads the input: never more than one byte more than the longest script has.
    ensures unread { (¬ IsCalls words.now) → input.new ≡ input.old }
    ensures most { ReadAtMost most_read (I.left input.old) (I.left input.new) }

    // On 0, 4 and 12 a file that was served is what its clients' requests make of it, and a program was run once.
    ensures file { (s : Serving) → IsBeside words.now s → is_all_done result ≡ true → FileServed s (W.told wires.old) (W.told wires.new) (S.shelf store.old) (S.shelf store.new) result }
    ensures child { (s : Serving) → IsBeside words.now s → is_all_done result ≡ true → ProgramRan s (P.told spawn.old) (P.told spawn.new) result }

    // On 0 the dump of an honest export's bytes was printed, and on any status a front of it.
    ensures shows { (e : Excerpt) → IsDump words.now e → result ≡ 0 → IsShown e (W.told wires.old) (W.told wires.new) (O.taken out.old) (O.taken out.new) }
    ensures fronts { (e : Excerpt) → IsDump words.now e → IsShownInPart e (W.told wires.old) (W.told wires.new) (O.taken out.old) (O.taken out.new) }

    // Files are opened where one is served or copied, and for no other words; and no program is started for others.
    ensures store { (¬ AskFile words.now) → store.new ≡ store.old }
    ensures spawner { (¬ AskProgram words.now) → spawn.new ≡ spawn.old }

    // No other status is told.
    ensures known { (asked : Asked) → Ask words.now asked → is_known asked result ≡ true }
    ensures refused_known { AskNothing words.now → (result ≡ 1) ⊎ (result ≡ 9) }

    // These come only where their count rose, and 5 only with a call that failed, where the wires tell their calls. On 0 and 2 no call on
    // the wires failed, they waited for less than is borne, and the counts of `out` and `input` stand as before.
    ensures link_cause { result ≡ 5 → Rises 1 (W.faults wires.old) (W.faults wires.new) }
    ensures link_shown { result ≡ 5 → ShowsFault (W.told wires.old) (W.told wires.new) }
    ensures silent_cause { result ≡ 7 → Rises patience (W.idles wires.old) (W.idles wires.new) }
    ensures output_cause { result ≡ 8 → Rises 1 (O.faults out.old) (O.faults out.new) }
    ensures input_cause { result ≡ 10 → Rises 1 (I.faults input.old) (I.faults input.new) }
    ensures store_cause { result ≡ 11 → Rises 1 (S.faults store.old) (S.faults store.new) }
    ensures spawn_cause { result ≡ 13 → Rises 1 (P.faults spawn.old) (P.faults spawn.new) }
    ensures well { (¬ AskOffWires words.now) → (result ≡ 0) ⊎ (result ≡ 2) → IsSound W.faults wires.old wires.new }
    ensures patient { (¬ AskOffWires words.now) → (result ≡ 0) ⊎ (result ≡ 2) → IsPatient W.idles wires.old wires.new }
    ensures output_well { (result ≡ 0) ⊎ (result ≡ 2) → O.faults out.new ≡ O.faults out.old }
    ensures input_well { (result ≡ 0) ⊎ (result ≡ 2) → I.faults input.new ≡ I.faults input.old }

    // Where no count rose, all is done, the peer told an error or broke off, a rule doesn't hold, or memory ran out.
    ensures complete { IsPlay words.now (I.left input.old) → AreQuiet W.faults W.idles wires.old wires.new → AreSound I.faults input.old input.new O.faults out.old out.new → IsPlayDone result }
    ensures info_complete { (q : Question) → IsInfo words.now q → AreQuiet W.faults W.idles wires.old wires.new → IsSound O.faults out.old out.new → IsInfoDone result }
    ensures serve_complete { (s : Service) → IsServe words.now s → AreQuiet W.faults W.idles wires.old wires.new → IsSound O.faults out.old out.new → IsServeDone result }
    ensures beside_done { AskBeside words.now → Still W.faults W.idles wires.old wires.new O.faults out.old out.new S.faults store.old store.new P.faults spawn.old spawn.new → IsBesideDone result }
    ensures copy_complete { (t : Transfer) → IsCopy words.now t → AreQuiet W.faults W.idles wires.old wires.new → IsCopyDone result }
    ensures duplicate_complete { (d : Duplication) → IsDuplicate words.now d → IsSound S.faults store.old store.new → IsDuplicateDone (S.shelf store.new) result }
    ensures download_complete { (d : Download) → IsDownload words.now d → AreQuiet W.faults W.idles wires.old wires.new → IsSound S.faults store.old store.new → IsCopyDone result }
    ensures upload_complete { (u : Upload) → IsUpload words.now u → AreQuiet W.faults W.idles wires.old wires.new → IsSound S.faults store.old store.new → IsCopyDone result }
    ensures dump_complete { (e : Excerpt) → IsDump words.now e → AreQuiet W.faults W.idles wires.old wires.new → IsSound O.faults out.old out.new → IsDumpDone result }
    ensures selftest_complete { (t : Trial) → IsSelftest words.now t → t.size ≤ most_tested → IsSound O.faults out.old out.new → (result ≡ 0) ⊎ (result ≡ 9) }
    ensures selftest_refuses { (t : Trial) → IsSelftest words.now t → most_tested < t.size → (result ≡ 6) ⊎ (result ≡ 9) }
{
    // What the wires count is what they tell, before and after: so a link fault shows its call.
    tally(wires);
    let end = tool(alloc, words, input, wires, out, store, spawn);
    tally(wires);
    print_end(alloc, &end, err)
}

/// Does what the words ask, but for the line of its end.
fn act<W: Wires, I: Source, O: Sink, S: Store, P: Spawner>(
    alloc: Global,
    asked: Asked,
    input: &mut I,
    wires: &mut W,
    out: &mut O,
    store: &mut S,
    spawn: &mut P,
) -> End
    requires { HasRoom asked }
    ensures did { Did I.left input.old input.new W.told wires.old wires.new O.taken out.old out.new S.told S.shelf S.given S.taken
        store.old store.new P.told spawn.old spawn.new result asked }
    ensures unread { NeverReads asked → input.new ≡ input.old }
    ensures most { ReadAtMost most_read (I.left input.old) (I.left input.new) }
    ensures link { result ≡ Err fault.Link → Rises 1 (W.faults wires.old) (W.faults wires.new) }
    ensures silent { result ≡ Err fault.Silent → Rises patience (W.idles wires.old) (W.idles wires.new) }
    ensures output { result ≡ Err fault.Output → Rises 1 (O.faults out.old) (O.faults out.new) }
    ensures input { result ≡ Err fault.Input → Rises 1 (I.faults input.old) (I.faults input.new) }
    ensures storing { result ≡ Err fault.Store → Rises 1 (S.faults store.old) (S.faults store.new) }
    ensures spawning { result ≡ Err fault.Spawn → Rises 1 (P.faults spawn.old) (P.faults spawn.new) }
    ensures well { IsOnWires asked → OnOk result (IsSound W.faults wires.old wires.new) }
    ensures patient { IsOnWires asked → OnOk result (IsPatient W.idles wires.old wires.new) }
    ensures output_well { OnOk result (O.faults out.new ≡ O.faults out.old) }
    ensures input_well { OnOk result (I.faults input.new ≡ I.faults input.old) }
{
    match asked {
        Asked::Calls => calls(alloc, input, wires, out),
        Asked::Info { what, json, place } => {
            inform(alloc, Question { what, json, place }, wires, out)
        }
        Asked::Serve(asked) => attend(alloc, asked, wires, out, store, spawn),
        Asked::Copy { options, from, to } => copy(alloc, Transfer { options, from, to }, wires),
        Asked::FileCopy { options, from, to } => {
            copy_files(alloc, options, from, to, wires, store)
        }
        Asked::Dump {
            place,
            offset,
            length,
        } => show(
            alloc,
            Excerpt {
                place,
                offset,
                length,
            },
            wires,
            out,
        ),
        Asked::Selftest { seed, size } => test(alloc, Trial { seed, size }, out),
    }
}

/// A run but for its line.
fn tool<W: Wires, I: Source, O: Sink, S: Store, P: Spawner>(
    alloc: Global,
    words: &[String],
    input: &mut I,
    wires: &mut W,
    out: &mut O,
    store: &mut S,
    spawn: &mut P,
) -> End
    ensures did { DidAsked words.now I.left input.old input.new W.told wires.old wires.new O.taken out.old out.new S.told S.shelf S.given S.taken
        store.old store.new P.told spawn.old spawn.new result }
    ensures decided { ((asked : Asked) × Ask words.now asked) ⊎ Refused words.now wires.old wires.new out.old out.new result }
    ensures refused { AskNothing words.now → IsRefused words.now result }
    ensures refused_alone { AskNothing words.now → Nothing wires.old wires.new out.old out.new }
    ensures unread { (¬ IsCalls words.now) → input.new ≡ input.old }
    ensures store { (¬ AskFile words.now) → store.new ≡ store.old }
    ensures spawner { (¬ AskProgram words.now) → spawn.new ≡ spawn.old }
    ensures most { ReadAtMost most_read (I.left input.old) (I.left input.new) }
    ensures link { result ≡ Err fault.Link → Rises 1 (W.faults wires.old) (W.faults wires.new) }
    ensures silent { result ≡ Err fault.Silent → Rises patience (W.idles wires.old) (W.idles wires.new) }
    ensures output { result ≡ Err fault.Output → Rises 1 (O.faults out.old) (O.faults out.new) }
    ensures input { result ≡ Err fault.Input → Rises 1 (I.faults input.old) (I.faults input.new) }
    ensures storing { result ≡ Err fault.Store → Rises 1 (S.faults store.old) (S.faults store.new) }
    ensures spawning { result ≡ Err fault.Spawn → Rises 1 (P.faults spawn.old) (P.faults spawn.new) }
    ensures well { (¬ AskOffWires words.now) → OnOk result (IsSound W.faults wires.old wires.new) }
    ensures patient { (¬ AskOffWires words.now) → OnOk result (IsPatient W.idles wires.old wires.new) }
    ensures output_well { OnOk result (O.faults out.new ≡ O.faults out.old) }
    ensures input_well { OnOk result (I.faults input.new ≡ I.faults input.old) }
{
    match read(alloc, words) {
        Ok(asked) => act(alloc, asked, input, wires, out, store, spawn),
        Err(fault) => Err(fault),
    }
}
