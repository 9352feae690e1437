//! Laws of the course of a copy. Each is the contract of a function that does nothing.

ghost use Rattle.lnbd_course.specs.Carried.{CarryingCopies};
ghost use Rattle.lnbd_course.specs.Answered.{AnswersStay, NothingIsReadBehind, RangesWereAnswered};
ghost use Rattle.lnbd_course.specs.AllDone.{EndedAreAllDone};
ghost use Rattle.lnbd_course.specs.Asks.{EndedAreDone, EndedAsksOnce};
ghost use Rattle.lnbd_course.specs.Cells.{PartsAreInCells};
ghost use Rattle.lnbd_course.specs.Counts.{EndedSums};
ghost use Rattle.lnbd_course.specs.Driven.{EndedAreDriven};
ghost use Rattle.lnbd_course.specs.Failed.{TurnsFail};
ghost use Rattle.lnbd_course.specs.Flushes.{EndedFlushed, EndedFlushesOnce, EndedUnflushed};
ghost use Rattle.lnbd_course.specs.Laws.{NothingIsOnCourse, OpensOnCourse, SettlingKeeps, TurnsKeep, CallsKeep, SourceAsksKeep, DestinationAsksKeep, BoardMovesKeep, OthersKeep, TakingKeeps, FinishedCarries};
ghost use Rattle.lnbd_course.specs.Betweens.{NothingIsBetween, OpensBetween, SettlingKeepsBetween, AgreeingSettles, TurnsKeepBetween, CallsKeepBetween, SourceAsksKeepBetween, DestinationAsksKeepBetween, BoardMovesKeepBetween, OthersKeepBetween, TakingKeepsBetween, LinksAreOfSides, EndedCarries};
ghost use Rattle.lnbd_course.specs.Slices.{EndedAreBegun, QuietAreBegun, QuietAsks};
ghost use Rattle.lnbd_course.specs.Fronts.{FrontsHaveFew, FrontsHaveNone, NothingWasBefore};
ghost use Rattle.lnbd_course.specs.Little.{HandlesAreAskedLittle};
ghost use Rattle.lnbd_course.specs.Parts.{PartsAskOnce};
ghost use Rattle.lnbd_course.specs.Passed.{HeardWereFirst, HeardWereTold, NoneAreAwaited};
ghost use Rattle.lnbd_course.specs.Runs.{PartsWriteRuns, RunsAreWhole, RunsThatTouchDiffer};
ghost use Rattle.lnbd_course.specs.Reached.{ToldAreKnown};
ghost use Rattle.lnbd_course.specs.Spared.{PartsSpare};
ghost use Rattle.lnbd_course.specs.Spares.{EndedAreDense, EndedSpares};
ghost use Rattle.lnbd_course.specs.Orders.{BeginningAsks, GoingAsks, OverAsksNothing};
ghost use Rattle.lnbd_course.specs.Taken.{BuffersAreNoMatter, TakenAreSpelled};
ghost use Rattle.lnbd_course.specs.Told.{NothingIsTold, OpeningTells, SettlingTells, TurnsTell, CallsTell, SourceAsksTell, DestinationAsksTell, ExtentsAskTell, BoardMovesTell, OthersTell, HearingTells, FewerTell, WindowsTell, TakingTells, KnownWasTold, SidesAreOfSource};
ghost use Rattle.lnbd_course.specs.Spread.{HandlesHaveFew, LinksHaveFew, OthersHaveNone, OverHasNone};
ghost use Rattle.lnbd_course.specs.Unfailed.{TurnsTellContent, UnfailedShows};
ghost use Rattle.lnbd_course.specs.UnderWay.{QuietAwaits, QuietCounts};

/// A copy is on its course before it has a handle, with each one that begins on a link which was just
/// made, and where it is settled how it writes.
pub fn beginning_keeps()
    ensures nothing { NothingIsOnCourse }
    ensures opens { OpensOnCourse }
    ensures settling { SettlingKeeps }
{}

/// It stays so in a turn in which each handle took its part.
pub fn turns_keep()
    ensures { TurnsKeep }
{}

/// It stays so where the wires wait, or shut a link.
pub fn calls_keep()
    ensures { CallsKeep }
{}

/// It stays so where a handle of a side is asked what the board says.
pub fn asking_keeps()
    ensures source { SourceAsksKeep }
    ensures destination { DestinationAsksKeep }
{}

/// A handle that was asked for a read stands for the history in which it was asked without the buffer that
/// is to be filled; and a command that was taken, and whose numbers have room, fits its request.
pub fn taken_are_spelled<K>()
    ensures buffers { BuffersAreNoMatter K }
    ensures spelled { TakenAreSpelled K }
{}

/// What the board says is to be asked keeps the invariant, as a command of a handle of its side.
pub fn board_asks()
    ensures begins { BeginningAsks }
    ensures goes { GoingAsks }
    ensures over { OverAsksNothing }
{}

/// It stays so where the board goes on and nothing is asked.
pub fn board_moves_keep()
    ensures { BoardMovesKeep }
{}

/// It stays so where a caller does something else with a handle, but that it turns opt mode on.
pub fn others_keep()
    ensures { OthersKeep }
{}

/// It stays so where a handle is taken out.
pub fn taking_keeps()
    ensures { TakingKeeps }
{}

/// A copy that is finished has carried each byte, whatever its servers keep.
pub fn finished_carries()
    ensures { FinishedCarries }
{}

/// What has carried has copied, whatever contents the exports have over which both servers are honest.
pub fn carrying_copies()
    ensures { CarryingCopies }
{}

/// What was told as zero stays known beside the course of a copy: before it has a handle, with each one
/// that begins on a link which was just made, and where it is settled how the copy writes.
pub fn beginning_tells()
    ensures nothing { NothingIsTold }
    ensures opens { OpeningTells }
    ensures settling { SettlingTells }
{}

/// It stays so in a turn in which each handle took its part.
pub fn turns_tell()
    ensures { TurnsTell }
{}

/// It stays so where the wires wait, or shut a link.
pub fn calls_tell()
    ensures { CallsTell }
{}

/// It stays so where a handle of a side is asked what the board says; and where extents are asked for, those
/// of their range are waited for.
pub fn asking_tells()
    ensures source { SourceAsksTell }
    ensures destination { DestinationAsksTell }
    ensures extents { ExtentsAskTell }
{}

/// It stays so where the board goes on and nothing is asked.
pub fn board_moves_tell()
    ensures { BoardMovesTell }
{}

/// It stays so where a caller does something else with a handle, but that it turns opt mode on.
pub fn others_tell()
    ensures { OthersTell }
{}

/// Where the range that was waited for was answered, what the board holds of it as told as zero is known. Of
/// what is known some may be left out, as where a window is planned.
pub fn hearing_tells()
    ensures hearing { HearingTells }
    ensures fewer { FewerTell }
    ensures windows { WindowsTell }
{}

/// It stays so where a handle is taken out.
pub fn taking_tells()
    ensures { TakingTells }
{}

/// With no handle held, each position that is known as zero was told so by what was dealt with the source.
pub fn known_was_told()
    ensures told { KnownWasTold }
    ensures sides { SidesAreOfSource }
{}

/// A copy from one place to another is so before it has a handle, with each one that begins for its side on a
/// link which was just made, where it is settled how it writes, and where the source's size is settled.
pub fn beginning_keeps_between()
    ensures nothing { NothingIsBetween }
    ensures opens { OpensBetween }
    ensures settling { SettlingKeepsBetween }
    ensures agreeing { AgreeingSettles }
{}

/// It stays so in a turn in which each handle took its part, and where the wires wait, or shut a link.
pub fn turns_keep_between()
    ensures turns { TurnsKeepBetween }
    ensures calls { CallsKeepBetween }
{}

/// An error that a board without one has after a turn, but that of a lost connection, is that of a command
/// which the calls show.
pub fn turns_fail()
    ensures { TurnsFail }
{}

/// It stays so where a handle of a side is asked what the board says, where the board goes on, and where a
/// caller does something else with a handle, but that it sets a name or turns opt mode on.
pub fn asking_keeps_between()
    ensures source { SourceAsksKeepBetween }
    ensures destination { DestinationAsksKeepBetween }
    ensures board { BoardMovesKeepBetween }
    ensures others { OthersKeepBetween }
{}

/// It stays so where a handle is taken out.
pub fn taking_keeps_between()
    ensures { TakingKeepsBetween }
{}

/// In the end each link is of its side's export, both sides told their sizes, and so the copy has carried each byte.
pub fn ended_carries()
    ensures links { LinksAreOfSides }
    ensures carries { EndedCarries }
{}

/// Of what a copy asks nothing is asked twice, and nothing past the source's end; and where all slices are over, all of it is done.
pub fn ended_asks_once()
    ensures once { EndedAsksOnce }
    ensures done { EndedAreDone }
    ensures slices { EndedAreBegun }
{}

/// Where all slices are over, what the board counted is the summary of a copy's calls.
pub fn ended_sums()
    ensures { EndedSums }
{}

/// No READ covers a block of the source that one answer told as zero whole, and no WRITE contains a block of
/// zeros that was found.
pub fn ended_spares()
    ensures reads { EndedSpares }
    ensures writes { EndedAreDense }
{}

/// The destination is flushed once at most, and not before the board says that it is asked to; and its flush is
/// done where the board says that it was answered.
pub fn ended_flushes()
    ensures once { EndedFlushesOnce }
    ensures none { EndedUnflushed }
    ensures done { EndedFlushed }
{}

/// In the end all is done that a copy asked: also each block status, and a flush.
pub fn ended_all_done()
    ensures { EndedAreAllDone }
{}

/// Where no handle has anything to write, what is under way by the board is unanswered by the calls of a copy.
pub fn quiet_counts()
    ensures requests { QuietCounts }
    ensures extents { QuietAwaits }
    ensures range { QuietAsks }
    ensures slices { QuietAreBegun }
{}

/// On the link of a handle no more is unanswered than rows of the board count for it, if each command of a slice that the handle
/// was asked is of a slice whose row counts; and so it is on each link. None is on a link of the other side, nor where no
/// slice is begun and not over.
pub fn handles_have_few()
    ensures handles { HandlesHaveFew }
    ensures links { LinksHaveFew }
    ensures others { OthersHaveNone }
    ensures over { OverHasNone }
{}

/// Where no error was told and no position is planned twice, a handle was asked to write no more, with the heads of its
/// requests, than a head and a byte for each byte of the source, a head for each of its questions for extents, and one for a
/// flush, if each of its commands but a flush has a byte.
pub fn handles_are_asked_little()
    ensures { HandlesAreAskedLittle }
{}

/// A range whose extents were heard was answered; what is not planned yet is not read; and what was answered before it was
/// read stays so.
pub fn ended_answers()
    ensures ranges { RangesWereAnswered }
    ensures behind { NothingIsReadBehind }
    ensures stay { AnswersStay }
{}

/// In the end each link was driven by one handle, or by none.
pub fn ended_driven()
    ensures { EndedAreDriven }
{}

/// In a turn, whole or short, nothing is written but what handles had been asked before it: so what a copy asked is
/// asked once, also where the turn fails.
pub fn parts_ask_once()
    ensures { PartsAskOnce }
{}

/// In a turn, whole or short, what is asked is no larger than the cells at whose multiples slices are cut.
pub fn parts_are_in_cells()
    ensures { PartsAreInCells }
{}

/// In a turn, whole or short, what is read stays what handles had been asked to read, and of block statuses only one more
/// can be done: that behind all which is planned. So no READ covers a block that one answer told as zero whole.
pub fn parts_spare()
    ensures { PartsSpare }
{}

/// In a turn, whole or short, each change that is asked is a longest run of what a READ told that was done before it, of zeros
/// that were found or of other bytes; or of what was told as zero.
pub fn parts_write_runs()
    ensures { PartsWriteRuns }
{}

/// Where zeros are not looked for, such a run is a WRITE of all that its READ read; and of two runs of one READ that touch, one
/// is a WRITE_ZEROES, and the other is not.
pub fn runs_are_longest()
    ensures whole { RunsAreWhole }
    ensures differ { RunsThatTouchDiffer }
{}

/// At no moment of a turn is more unanswered on a link than rows of the board counted when it began, since nothing is asked in
/// it, and what is done stays done. And what was asked stays asked.
pub fn fronts_have_few()
    ensures handles { FrontsHaveFew }
    ensures others { FrontsHaveNone }
    ensures nothing { NothingWasBefore }
{}

/// While a copy's board was told of no error, no command failed by its calls.
pub fn unfailed_shows()
    ensures { UnfailedShows }
{}

/// Faulty content that a command came to in a turn, by the calls, is the error of the copy's board, whatever else it was told.
pub fn turns_tell_content()
    ensures { TurnsTellContent }
{}

/// Each position that a block status of the source told of is known so, while the extents that are waited for are not answered.
pub fn told_are_known()
    ensures { ToldAreKnown }
{}

/// What is heard of extents was told by the calls, and the first positions of its range are the first that were asked for; and
/// no block status is unanswered while no extents are waited for.
pub fn heard_were_told()
    ensures told { HeardWereTold }
    ensures first { HeardWereFirst }
    ensures none { NoneAreAwaited }
{}
