//! Laws of handles that drive links, each one of its own. Each is the contract of a function that
//! does nothing.

ghost use Rattle.lnbd_drives.specs.Laws.{TurnsDrive, ShortTurnsDrive, TurnsPassOthers, PassingCallsDrive, OtherCallsPass, CallersDrive, NewDrive, TakenDrive, DrivenSaid, AllSaid, NothingWaits, DoneSaid, SaidStays};
ghost use Rattle.lnbd_drives.specs.Exports.{HandlesAreOf, HandlesTell, ExportWasTold, InfoWasTold, TurnsGiveNone};

use lnbd_callbacks::Caller;

/// After a turn handles still drive their links, by the calls before it and its own.
pub fn turns_drive<K: Caller>()
    ensures { TurnsDrive K.steps }
{}

/// So they do where memory ran out in it, but then bytes may be unread.
pub fn short_turns_drive<K: Caller>()
    ensures { ShortTurnsDrive K.steps }
{}

/// A turn reads and writes the links of its handles alone.
pub fn turns_pass_others<K: Caller>()
    ensures { TurnsPassOthers K.steps }
{}

/// Calls on other links change nothing.
pub fn passing_calls_drive<K>()
    ensures { PassingCallsDrive K }
{}

/// Calls that read and write no link at all are on no link of the handles.
pub fn other_calls_pass<K>()
    ensures { OtherCallsPass K }
{}

/// What a caller does with one of the handles changes nothing, where a command fits its request and
/// opt mode stays off.
pub fn callers_drive<K>()
    ensures { CallersDrive K }
{}

/// Without one of the handles the others drive their links.
pub fn taken_drive<K>()
    ensures { TakenDrive K }
{}

/// A handle that was just created drives a link that no call has read or written.
pub fn new_drive<K>()
    ensures { NewDrive K }
{}

/// The link of each handle says what its history says.
pub fn driven_said<K>()
    ensures { DrivenSaid K }
{}

/// Where each command was wholly written, the link says all of them.
pub fn all_said<K>()
    ensures { AllSaid K }
{}

/// Where a handle reads and has nothing to write, each command was wholly written.
pub fn nothing_waits<K>()
    ensures { NothingWaits K }
{}

/// A command that is done was wholly written, and the link says that it is done with the same bytes.
pub fn done_said<K>()
    ensures { DoneSaid K }
{}

/// What a link says stays, whatever is called on others.
pub fn said_stays()
    ensures { SaidStays }
{}

/// The link of each handle is of the export of the name that was set on it.
pub fn handles_are_of<K>()
    ensures { HandlesAreOf K }
{}

/// The link of each handle tells what the handle was told of its export.
pub fn handles_tell<K>()
    ensures { HandlesTell K }
{}

/// A handle that may make requests and has nothing to write was told the export of which it tells: its
/// size, its flags, its block sizes, its name and its description.
pub fn export_was_told<K>()
    ensures { ExportWasTold K }
{}

/// A handle that may make requests and has nothing to write was told the size of which it tells.
pub fn info_was_told<K>()
    ensures { InfoWasTold K }
{}

/// A turn makes no link.
pub fn turns_give_none<K: Caller>()
    ensures { TurnsGiveNone K.steps }
{}
