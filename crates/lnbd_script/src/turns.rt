//! Turns of a script's handle on its link.

ghost use Rattle.std.specs.Prelude.{◌≡◌, ◌||◌, [], IfOk, OnErr, OnOk};
ghost use Rattle.std.specs.List.{list_any};
ghost use Rattle.lnbd_script.specs.Seen.{Counts, Goes, IsAt, Seen};
ghost use Rattle.lnbd_script.specs.Steps.{TurnsOnce, is_bytes, is_stirring};
ghost use Rattle.lnbd_script.specs.Turns.{TurnsShort, WritesAll, stirs};

use crate::session::Session;
use crate::told::Moved;
use lnbd_link::Wires;
use lnbd_model::NoMemory;
use lnbd_poll::Inbox;

fn is_bytes(moved: Moved) -> bool
    ensures { result ≡ is_bytes moved }
{
    matches!(moved, Moved::Bytes(_))
}

/// Whether something happened.
fn is_stirring(moved: Moved) -> bool
    ensures { result ≡ is_stirring moved }
{
    match moved {
        Moved::Bytes(_) | Moved::Ended | Moved::Failed => true,
        Moved::NotReady | Moved::Idle => false,
    }
}

/// Writes until nothing waits or a write takes nothing. Whether something happened.
fn write_all<W: Wires>(session: &mut Session, wires: &mut W, link: u32) -> bool
    ensures writes { Goes (W.told wires.old) (W.told wires.new) session.old session.new (λ before calls after. WritesAll link before calls after × (result ≡ list_any stirs calls)) }
    ensures counts { Counts session.old.first session.new.first (W.faults wires.old) (W.faults wires.new) (W.idles wires.old) (W.idles wires.new) }
    ensures link { session.new.link ≡ session.old.link }
{
    let mut stirred = false;
    'writing: loop {
        let moved = session.write(wires, link);
        stirred = either(stirred, is_stirring(moved));
        if !is_bytes(moved) {
            return stirred;
        }
    }
}

/// One turn: it writes until nothing waits or a write takes nothing, and then reads once, where the handle reads. Whether
/// something happened.
pub(crate) fn turn<W: Wires>(
    session: &mut Session,
    wires: &mut W,
    link: u32,
    inbox: &mut Inbox,
) -> Result<bool, NoMemory>
    requires unread { inbox.old ≡ [] }
    ensures ok { IfOk result (λ stirred. Goes (W.told wires.old) (W.told wires.new) session.old session.new (λ before calls after. TurnsOnce link stirred before calls after)) }
    ensures short { OnErr result (Goes (W.told wires.old) (W.told wires.new) session.old session.new (λ before calls after. TurnsShort link before calls after)) }
    ensures counts { Counts session.old.first session.new.first (W.faults wires.old) (W.faults wires.new) (W.idles wires.old) (W.idles wires.new) }
    ensures link { session.new.link ≡ session.old.link }
    ensures unread { OnOk result ((seen : Seen) → IsAt seen session.old → inbox.new ≡ []) }
{
    let wrote = write_all(session, wires, link);
    match session.read(wires, link, inbox) {
        Ok(moved) => Ok(either(wrote, is_stirring(moved))),
        Err(_) => Err(NoMemory),
    }
}

pub(crate) fn either(a: bool, b: bool) -> bool
    ensures { result ≡ (a || b) }
{
    a || b
}
