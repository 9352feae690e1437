//! The laws, each as the contract of a function that does nothing.

ghost use Rattle.lnbd_lively.specs.Ending.{DrivenAnswer, DrivenReadsBring, DrivenSpeakFairly, ServedSpeakFairly};
ghost use Rattle.lnbd_lively.specs.Fair.{FairSessionsGoOn, FrontsAreHeard, OptionsLeaveOpen, ServedAnswer};
ghost use Rattle.lnbd_lively.specs.Known.{GoIsKnown};
ghost use Rattle.lnbd_lively.specs.Lively.{OpenAnswer};
ghost use Rattle.lnbd_lively.specs.Moving.{FirstReadsBring, FirstWritesTake, WaitedReadsBring};

/// Where a handle waits only to read, the session at the other end of its link has something to send
/// while that isn't at its end.
pub fn open_answer<K>()
    ensures { OpenAnswer K }
{}

/// The first read of an open link after a pause that wanted it brings bytes, where its session has
/// something to send, and the first write takes some.
pub fn first_calls_move()
    ensures reads { FirstReadsBring }
    ensures writes { FirstWritesTake }
{}

/// A read brings bytes that a handle waits for, the first of its link since a pause that wanted it,
/// while the session isn't at its end.
pub fn waited_reads_bring<K>()
    ensures { WaitedReadsBring K }
{}

/// A session isn't at its end whose client says one thing after another, each as it may and within the
/// limits, and nothing that ends the session.
pub fn fair_sessions_go_on()
    ensures { FairSessionsGoOn }
{}

/// What a client may say at a stage of its session, and each front of it, is heard as a client's, and no
/// option ends the session but ABORT and EXPORT_NAME.
pub fn clients_are_heard()
    ensures fronts { FrontsAreHeard }
    ensures options { OptionsLeaveOpen }
{}

/// Where a handle waits only to read, and its client said nothing by which a session ends, the session
/// has something to send.
pub fn served_answer<K>()
    ensures { ServedAnswer K }
{}

/// A handle that drives a link, asks for no end and never EXPORT_NAME, says one thing after another, each
/// as it may and within the limits of a session.
pub fn driven_speak_fairly<K>()
    ensures { DrivenSpeakFairly K }
{}

/// Over served wires it never asks EXPORT_NAME, so it is enough that it asks for no end.
pub fn served_speak_fairly<K>()
    ensures { ServedSpeakFairly K }
{}

/// So where it waits only to read, the session at the other end of its link has something to send.
pub fn driven_answer<K>()
    ensures { DrivenAnswer K }
{}

/// And a read brings bytes that it waits for, the first of its link since a pause that wanted it.
pub fn driven_reads_bring<K>()
    ensures { DrivenReadsBring K }
{}

/// A session that isn't at its end never refused GO as an option that it doesn't know.
pub fn go_is_known()
    ensures { GoIsKnown }
{}
