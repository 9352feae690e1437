//! Turns over one handle and its link until what is awaited is there. What was asked, and what is made of the answers, is no
//! matter here.

ghost use Rattle.std.specs.Prelude.{◌≡◌, ◌≤◌, ◌<◌, IfOk, OnErr, Err, length};
ghost use Rattle.lnbd_handle.specs.Histories.{ForEach};
ghost use Rattle.lnbd_link.specs.Contents.{Keeps};
ghost use Rattle.lnbd_link.specs.Count.{Rises, patience};
ghost use Rattle.lnbd_poll.specs.Seen.{Goes, Seen};
ghost use Rattle.lnbd_poll.specs.Steps.{TookEnough, TookShort};
ghost use Rattle.lnbd_poll.specs.States.{is_negotiating};
ghost use Rattle.lnbd_waits.specs.Waits.{Holds, Waited, is_awaited, is_closing};

use lnbd_callbacks::Caller;
use lnbd_handle::Handle;
use lnbd_link::{Wires, is_long};
use lnbd_model::{NoMemory, State};
use lnbd_poll::{Handles, Turn};

/// What is awaited.
#[derive(Clone, Copy, Debug, PartialEq, Eq)]
pub enum Awaited {
    /// Negotiation comes to a stand, and each command is answered.
    Answers,
    /// What waits to go out is written.
    Written,
    /// The connection ends, as was asked.
    End,
}

/// Why it did not come.
#[derive(Clone, Copy, Debug, PartialEq, Eq)]
pub enum Halt {
    /// The wires were idle for too long.
    Silent,
    /// Memory ran out.
    NoMemory,
}

fn is_negotiating(state: State) -> bool
    ensures { result ≡ is_negotiating state }
{
    matches!(state, State::Negotiating)
}

fn is_closing(state: State) -> bool
    ensures { result ≡ is_closing state }
{
    matches!(state, State::Closing)
}

/// Whether it is still to come to a handle.
fn is_to_come<K>(handle: &Handle<K>, awaited: Awaited) -> bool
    ensures { ForEach handle.now.machine (λ history. result ≡ is_awaited awaited history) }
{
    match awaited {
        Awaited::Answers => is_negotiating(handle.state()) || handle.in_flight() != 0,
        Awaited::Written => handle.is_waiting(),
        Awaited::End => is_closing(handle.state()),
    }
}

/// Whether what is awaited is still to come.
fn is_awaited<K>(handles: &Handles<K>, awaited: Awaited) -> bool
    requires { length handles.now ≡ 1 }
    ensures { (seen : Seen K) → Holds handles.now seen → result ≡ is_awaited awaited seen.history }
{
    is_to_come(handles.get(0), awaited)
}

/// One turn of the one handle that is held.
fn turn<K: Caller, W: Wires>(
    handles: &mut Handles<K>,
    wires: &mut W,
    world: &mut K::World,
) -> Result<Turn, NoMemory>
    ensures ok { IfOk result (λ told. Goes (W.told wires.old) (W.told wires.new) (Holds handles.old) (Holds handles.new) (λ before calls after. TookEnough K.steps (W.faults wires.old) (W.faults wires.new) told before world.old calls after world.new)) }
    ensures short { OnErr result (Goes (W.told wires.old) (W.told wires.new) (Holds handles.old) (Holds handles.new) (λ before calls after. TookShort K.steps (W.faults wires.old) (W.faults wires.new) before world.old calls after world.new)) }
    ensures contents { Keeps (W.contents wires.old) (W.contents wires.new) }
    ensures faults { W.faults wires.old ≤ W.faults wires.new }
    ensures idles { W.idles wires.old ≤ W.idles wires.new }
{
    handles.turn(wires, world)
}

/// Takes turns while it is to come, with a pause after each in which nothing happened. `start` is the count of waiting from
/// which patience is counted: no turn comes behind the pause by which it is over. It ends for every peer: what may still come
/// and go is bounded, and so is the waiting that is borne.
pub fn settle<K: Caller, W: Wires>(
    handles: &mut Handles<K>,
    wires: &mut W,
    world: &mut K::World,
    awaited: Awaited,
    start: u64,
) -> Result<(), Halt>
    requires reached { (seen : Seen K) × Holds handles.old seen }
    requires started { start ≤ W.idles wires.old }
    ensures waits { Goes (W.told wires.old) (W.told wires.new) (Holds handles.old) (Holds handles.new) (λ before calls after. Waited K.steps awaited (W.faults wires.old) (W.faults wires.new) result before world.old calls after world.new) }
    ensures silent { result ≡ Err Halt.Silent → Rises patience start (W.idles wires.new) }
    ensures contents { Keeps (W.contents wires.old) (W.contents wires.new) }
    ensures faults { W.faults wires.old ≤ W.faults wires.new }
    ensures idles { W.idles wires.old ≤ W.idles wires.new }
{
    'turns: while is_awaited(handles, awaited) {
        match turn(handles, wires, world) {
            Ok(Turn::Moved(_)) => continue,
            Ok(Turn::Still) => {
                // (a count that can be read has an end, so that it does not fall in the pause)
                let _before = wires.idles();
                handles.pause(wires);
                if is_long(start, wires.idles()) {
                    return Err(Halt::Silent);
                }
            }
            Err(_) => return Err(Halt::NoMemory),
        }
    }
    Ok(())
}
