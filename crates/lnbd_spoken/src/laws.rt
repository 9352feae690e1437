//! Laws of clients whose links handles drive. Each is the contract of a function that does nothing.

ghost use Rattle.lnbd_spoken.specs.Laws.{DrivenSpeakWell, DrivenStaySo, UnusedAreDriven};
ghost use Rattle.lnbd_spoken.specs.Little.{DrivenWriteLittle};

/// A client whose link one handle drives speaks well: its flags once it was greeted, one option after
/// another, requests once they may be made and in order, and nothing after the end.
pub fn driven_speak_well<K>()
    ensures { DrivenSpeakWell K }
{}

/// A link that no call reads or writes is driven, by a handle to which nothing happened yet.
pub fn unused_are_driven<K>()
    ensures { UnusedAreDriven K }
{}

/// A link that a handle drove stays so while no call reads or writes it, whatever becomes of the handle.
pub fn driven_stay_so<K>()
    ensures { DrivenStaySo K }
{}

/// A handle that isn't in opt mode writes no more on its link than a handshake has and what it was asked: a head
/// for each command, and the bytes of its writes.
pub fn driven_write_little<K>()
    ensures { DrivenWriteLittle K }
{}
