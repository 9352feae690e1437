//! Laws of the course of a copy of which one side is no export, but a file. Each is the contract of a function
//! that does nothing.

ghost use Rattle.lnbd_course.specs.FarLaws.{NothingIsFar, OpensFar, SettlingKeepsFar, AgreeingSettlesFar, TurnsKeepFar, CallsKeepFar, AskingKeepsFar, ExtentsKeepFar, OthersKeepFar, TakingKeepsFar};
ghost use Rattle.lnbd_course.specs.FarLaws.{BoardMovesKeepFar, UnaskedMovesKeepFar, ChangesKeepFar, FirstChangesKeepFar, ReadsKeepFar, HearingKeepsFar, FewerKeepFar};
ghost use Rattle.lnbd_course.specs.FarLaws.{SizeWasToldFar, KnownWasToldFar, ToFileEnds, FromFileEnds};
ghost use Rattle.lnbd_course.specs.FarShows.{QuietCountsFar, TurnsFailFar, TurnsTellContentFar, UnfailedShowsFar};
ghost use Rattle.lnbd_course.specs.Spared.{PartsSpareFar};
ghost use Rattle.lnbd_course.specs.FarEnds.{EndedAsksOnceFar, EndedSumsFar, EndedFlushesOnceFar, EndedUnflushedFar, EndedFlushedFar, EndedAreAllDoneFar, EndedSparesFar, EndedAreDenseFar};

/// A copy to or from a file is on its course before it has a handle, with each one that begins on a link which
/// was just made to its export, where it is settled how it writes, and where the export's size is settled.
pub fn beginning_keeps_far()
    ensures nothing { NothingIsFar }
    ensures opens { OpensFar }
    ensures settling { SettlingKeepsFar }
    ensures agreeing { AgreeingSettlesFar }
{}

/// It stays so in a turn in which each handle took its part, and where the wires wait, or shut a link.
pub fn turns_keep_far()
    ensures turns { TurnsKeepFar }
    ensures calls { CallsKeepFar }
{}

/// It stays so where a handle is asked what the board says, or for extents, where a caller does something else
/// with one, and where one is taken out.
pub fn asking_keeps_far()
    ensures asks { AskingKeepsFar }
    ensures extents { ExtentsKeepFar }
    ensures others { OthersKeepFar }
    ensures taking { TakingKeepsFar }
{}

/// It stays so where the board goes on and nothing is asked, whatever it was told of extents if none were
/// waited for.
pub fn board_keeps_far()
    ensures moves { BoardMovesKeepFar }
    ensures unasked { UnaskedMovesKeepFar }
{}

/// It stays so where what the board asks of the file is done at once: a change, the first change of a slice,
/// or the read of one. Then one request more was asked of the file.
pub fn file_keeps_far()
    ensures changes { ChangesKeepFar }
    ensures first { FirstChangesKeepFar }
    ensures reads { ReadsKeepFar }
{}

/// It stays so where extents that were waited for are heard, and where less is known of them.
pub fn hearing_keeps_far()
    ensures hearing { HearingKeepsFar }
    ensures fewer { FewerKeepFar }
{}

/// While the board was told of no error no command failed by the calls, and where no handle has anything to write
/// as many are unanswered as rows have a request under way. An error that a board without one has after a turn, but
/// that of a lost connection, is that of a command which the calls show; and faulty content is the board's error.
pub fn calls_show_far()
    ensures unfailed { UnfailedShowsFar }
    ensures quiet { QuietCountsFar }
    ensures fails { TurnsFailFar }
    ensures content { TurnsTellContentFar }
{}

/// With no handle held the export told its size and each position that is known as zero; and where all slices
/// are over, a file that was written is what the source holds, and the destination holds a file that was read,
/// if the export's server is honest.
pub fn ended_far()
    ensures size { SizeWasToldFar }
    ensures zero { KnownWasToldFar }
    ensures to_file { ToFileEnds }
    ensures from_file { FromFileEnds }
{}

/// Of what was asked of both sides nothing is asked twice, and nothing past the end; where all slices are over,
/// what the board counted is its summary, and all is done that was asked of the export.
pub fn ended_asks_once_far()
    ensures once { EndedAsksOnceFar }
    ensures sums { EndedSumsFar }
    ensures done { EndedAreAllDoneFar }
{}

/// An export that a file is copied to is flushed once at most, not at all where the board asked for no flush, and
/// its flush is done where the board says that it was answered.
pub fn ended_flushes_far()
    ensures once { EndedFlushesOnceFar }
    ensures none { EndedUnflushedFar }
    ensures done { EndedFlushedFar }
{}

/// No READ covers a block of the source that one answer told as zero whole, and no WRITE contains a block of zeros
/// that was found in a file.
pub fn ended_spares_far()
    ensures reads { EndedSparesFar }
    ensures writes { EndedAreDenseFar }
{}

/// In a turn, whole or short, no READ of a copy to a file covers a block that one answer told as zero whole, where such
/// blocks are planned as zero, and extents are waited for behind all that is planned.
pub fn parts_spare_far()
    ensures { PartsSpareFar }
{}
