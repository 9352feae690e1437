//! What the wires count, and the faults that it makes. Which calls of theirs were made is no matter here.

ghost use Rattle.std.specs.Prelude.{◌≡◌, ◌≤◌, ◌<◌, true, IfErr, OnOk};
ghost use Rattle.lnbd_link.specs.Count.{Rises, patience};
ghost use Rattle.lnbd_copy.specs.Causes.{AreWell, HasCause, tells_no_count};
ghost use Rattle.lnbd_conduct.specs.Decided.{is_of_link};
ghost use Rattle.lnbd_copy.specs.Grounds.{fault_by, fault_of};
ghost use Rattle.lnbd_conduct.specs.Grounds.{needs_no_ground};
ghost use Rattle.lnbd_copy.specs.Patient.{may_end_waiting};

use lnbd_link::{Wires, is_long, rose};
use lnbd_model::{Broken, Cause, ENOTCONN, EPROTO};
use lnbd_plan::CopyFault;

/// What the wires had counted when a copy began.
#[derive(Clone, Copy, Debug, PartialEq, Eq)]
pub struct Counts {
    /// How often a call failed.
    pub faults: u64,
    /// How long they waited.
    pub idles: u64,
}

impl Counts {
    pub fn of<W: Wires>(wires: &W) -> Counts
        ensures { result ≡ record { faults = W.faults wires.now; idles = W.idles wires.now } }
    {
        Counts {
            faults: wires.faults(),
            idles: wires.idles(),
        }
    }
}

/// A call of the wires failed, if so.
pub(crate) fn check_faults<W: Wires>(wires: &W, start: Counts) -> Result<(), CopyFault>
    requires counted { start.faults ≤ W.faults wires.now }
    ensures well { OnOk result (¬ Rises 1 start.faults (W.faults wires.now)) }
    ensures causes { IfErr result (λ told. HasCause start (W.faults wires.now) (W.idles wires.now) told) }
    ensures free { IfErr result (λ told. needs_no_ground told ≡ true) }
    ensures link { IfErr result (λ told. is_of_link told ≡ true) }
{
    let after = wires.faults();
    if rose(1, start.faults, after) {
        return Err(CopyFault::Link {
            before: start.faults,
            after,
        });
    }
    Ok(())
}

/// The wires waited for as long as is borne, if so. Else their count of waiting does not stand at its end.
pub fn check_idles<W: Wires>(wires: &W, start: Counts) -> Result<(), CopyFault>
    requires counted { start.idles ≤ W.idles wires.now }
    ensures open_ { OnOk result (W.idles wires.now < 18446744073709551615) }
    ensures well { OnOk result (¬ Rises patience start.idles (W.idles wires.now)) }
    ensures causes { IfErr result (λ told. HasCause start (W.faults wires.now) (W.idles wires.now) told) }
    ensures free { IfErr result (λ told. needs_no_ground told ≡ true) }
    ensures silent { IfErr result (λ told. may_end_waiting told ≡ true) }
{
    let idles = wires.idles();
    if is_long(start.idles, idles) {
        return Err(CopyFault::Silent { idles });
    }
    Ok(())
}

/// The last look at what the wires counted: a call of theirs failed, or else they waited for as long as is borne, if so.
pub fn check_counts<W: Wires>(wires: &W, start: Counts) -> Result<(), CopyFault>
    requires faults { start.faults ≤ W.faults wires.now }
    requires idles { start.idles ≤ W.idles wires.now }
    ensures well { OnOk result (AreWell start (W.faults wires.now) (W.idles wires.now)) }
    ensures causes { IfErr result (λ told. HasCause start (W.faults wires.now) (W.idles wires.now) told) }
    ensures free { IfErr result (λ told. needs_no_ground told ≡ true) }
{
    check_faults(wires, start)?;
    check_idles(wires, start)
}

/// Why a copy ends where this connection is dead. A failed link is told by the wires' count before: if it were not counted it would
/// count as want of memory.
pub(crate) fn of_death(death: Cause) -> CopyFault
    ensures free { tells_no_count result ≡ true }
    ensures value { result ≡ fault_of death }
{
    match death {
        Cause::Broke(breach) => CopyFault::Broke(Broken::Breach(breach)),
        Cause::Refused { option, code } => CopyFault::Peer {
            option: Some(option),
            code,
        },
        Cause::Ended => CopyFault::Broke(Broken::Ended),
        Cause::LinkFailed => CopyFault::NoMemory,
    }
}

/// Why a copy ends where one of its commands came to this error. That one was lost is told by its connection's state before: where none is
/// dead it would count as want of memory.
pub(crate) fn of_failure(error: u32) -> CopyFault
    ensures free { tells_no_count result ≡ true }
    ensures value { result ≡ fault_by error }
{
    match error {
        EPROTO => CopyFault::Broke(Broken::Content),
        ENOTCONN => CopyFault::NoMemory,
        code => CopyFault::Peer { option: None, code },
    }
}
