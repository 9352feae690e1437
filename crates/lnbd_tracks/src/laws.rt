//! Laws of what the handles of a copy were asked. Each is the contract of a function that does nothing.

ghost use Rattle.lnbd_tracks.specs.Laws.{NothingTracks, OpeningTracks, OneHappens, IssueTracks, OthersTrack, BytesComeBack, SourceKeeps, DestinationKeeps, FinishedAreDone, FinishedTracks};
ghost use Rattle.lnbd_tracks.specs.Awaiting.{AskingAwaits, ComingAwaits, OthersAwait};
ghost use Rattle.lnbd_tracks.specs.Dealing.{DoneIsWritten, TrackedAreDealt};
ghost use Rattle.lnbd_tracks.specs.Failing.{AnsweredIsWritten, DestinationFails, FailuresAreKnown, FailuresStay, SourceFails};
ghost use Rattle.lnbd_tracks.specs.Heeding.{NothingHeeds, ComingHeeds, OthersHeed, AskingHeeds, HearingHeeds};
ghost use Rattle.lnbd_tracks.specs.Mapping.{NothingMaps, ComingMaps, OthersMap, AskingMaps, HearingMaps, ZeroesStay};
ghost use Rattle.lnbd_tracks.specs.Unfailed.{ComingTellsContent, ComingUnfailed, OthersTellContent, OthersUnfailed};
ghost use Rattle.lnbd_tracks.specs.Saying.{DrivenTells};
ghost use Rattle.lnbd_tracks.specs.Unanswered.{OverCame, TrackedAreUnanswered, WaitingLives};

/// Before any handle was asked anything, nothing was asked; and a handle that begins changes nothing.
pub fn nothing_tracks()
    ensures nothing { NothingTracks }
    ensures opening { OpeningTracks }
{}

/// Of handles with links of their own, what happens on one happens on its link and on no other.
pub fn one_happens()
    ensures { OneHappens }
{}

/// A command that is asked is one request more, under the next cookie, which waits.
pub fn asking_tracks()
    ensures { IssueTracks }
{}

/// What brings neither a command nor bytes nor an end changes no request.
pub fn others_track()
    ensures { OthersTrack }
{}

/// A command without an error has its bytes back: a read as many as were asked for, and any other those
/// that it was asked with.
pub fn bytes_come_back<K>()
    ensures { BytesComeBack K }
{}

/// Whatever happens on a handle of a copy, but that it is asked, keeps the invariant of the copy, if no
/// error is told.
pub fn what_happens_keeps()
    ensures source { SourceKeeps }
    ensures destination { DestinationKeeps }
{}

/// Where the board of a copy is empty, each request that reads or changes is done.
pub fn finished_tracks()
    ensures lists { FinishedAreDone }
    ensures handles { FinishedTracks }
{}

/// A command that is done was wholly written, and so was one that was answered and failed.
pub fn done_is_written<K>()
    ensures done { DoneIsWritten K }
    ensures answered { AnsweredIsWritten K }
{}

/// Where no callback has a say, a failure of a command is known by its number.
pub fn failures_are_known<K>()
    ensures { FailuresAreKnown K }
{}

/// An error that the board has, whatever happens on a handle of a copy but that it is asked, is one that a
/// command came to. What a command came to stays.
pub fn errors_are_told()
    ensures source { SourceFails }
    ensures destination { DestinationFails }
    ensures stay { FailuresStay }
{}

/// What the handles of an export's links were asked is what was dealt with the export.
pub fn tracked_are_dealt()
    ensures { TrackedAreDealt }
{}

/// What a board knows of extents came of one block status of the source, whatever happens.
pub fn mapping_keeps()
    ensures nothing { NothingMaps }
    ensures coming { ComingMaps }
    ensures others { OthersMap }
    ensures asking { AskingMaps }
{}

/// Where that block status was answered, it told as zero what the board holds as told as zero.
pub fn mapped_are_told()
    ensures { HearingMaps }
{}

/// What a block status that is done told as zero stays told.
pub fn zeroes_stay()
    ensures { ZeroesStay }
{}

/// All that is told of extents is held by the board, whatever happens, and then known.
pub fn heeding_keeps()
    ensures nothing { NothingHeeds }
    ensures coming { ComingHeeds }
    ensures others { OthersHeed }
    ensures asking { AskingHeeds }
    ensures hearing { HearingHeeds }
{}

/// As many of the requests that were dealt with an export are unanswered as of the list that tracks its
/// handles.
pub fn tracked_are_unanswered()
    ensures { TrackedAreUnanswered }
{}

/// A block status of which the board was told no end is under way, whatever happens, until the board is told
/// of an error.
pub fn awaiting_keeps()
    ensures coming { ComingAwaits }
    ensures others { OthersAwait }
    ensures asking { AskingAwaits }
{}

/// While a board was told of no error, no command of a copy came to one.
pub fn unfailed_keeps()
    ensures coming { ComingUnfailed }
    ensures others { OthersUnfailed }
{}

/// Faulty content that a command of a copy came to is its board's error, whatever else it was told.
pub fn content_is_told()
    ensures coming { ComingTellsContent }
    ensures others { OthersTellContent }
{}

/// A command of a handle waits only while the handle lives.
pub fn waiting_lives<K>()
    ensures { WaitingLives K }
{}

/// A command of a copy that is over came to something.
pub fn over_came()
    ensures { OverCame }
{}

/// The link of a handle tells of the positions of which its history tells.
pub fn driven_tells<K>()
    ensures { DrivenTells K }
{}
