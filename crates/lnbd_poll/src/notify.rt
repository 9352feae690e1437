//! One read and one write of a handle over its link.

ghost use Rattle.std.specs.Prelude.{◌≡◌, ◌≢◌, ◌≤◌, ◌<◌, ◌==◌, ℕ, List, [], true, false, length, IfNone, IfSome};
ghost use Rattle.lnbd_history.specs.Answers.{is_living};
ghost use Rattle.lnbd_history.specs.Events.{History};
ghost use Rattle.lnbd_history.specs.Outgoing.{total};
ghost use Rattle.lnbd_machine.specs.Now.{direction_now, out_now};
ghost use Rattle.lnbd_standing.specs.Standing.{StandsFor};
ghost use Rattle.lnbd_handle.specs.Histories.{max_unretired};
ghost use Rattle.lnbd_handle.specs.Placing.{place_size};
ghost use Rattle.lnbd_link.specs.Answers.{IfMoved, IfSent, ReadFailed, WriteFailed};
ghost use Rattle.lnbd_link.specs.Call.{Read, read_told, write_told};
ghost use Rattle.lnbd_link.specs.Contents.{Keeps};
ghost use Rattle.lnbd_link.specs.Count.{Rises};
ghost use Rattle.lnbd_link.specs.Part.{Adds};
ghost use Rattle.lnbd_poll.specs.Seen.{Goes, IsAt, gives_bytes};
ghost use Rattle.lnbd_poll.specs.Notices.{Arrives, Hears, ReadsOnce, Sends, WritesOnce, room_of};
ghost use Rattle.lnbd_poll.specs.Turns.{is_moved};
ghost use Rattle.lnbd_poll.specs.Steps.{Becomes};

use crate::inbox::Inbox;
use crate::noticed::Noticed;
use lnbd_callbacks::Caller;
use lnbd_handle::Handle;
use lnbd_link::{Got, Took, Wires};

/// Hands the handle what is unread.
fn hand_over<K: Caller>(handle: &mut Handle<K>, inbox: &mut Inbox, world: &mut K::World) -> Noticed
    requires living { is_living handle.old.machine.known.stage ≡ true }
    ensures arrives { (unread : List ℕ) → Becomes unread handle.old.machine handle.new.machine inbox.new (λ before after. Arrives K.steps inbox.old result before after world.old world.new) }
    ensures moves { result ≢ Noticed.LinkFailed }
{
    let unread = inbox.len();
    match handle.arrive(inbox.bytes(), world) {
        Ok(()) => {
            inbox.take(unread);
            Noticed::Moved(unread)
        }
        Err(short) => {
            inbox.take(short.taken);
            Noticed::NoMemory
        }
    }
}

/// Takes what a read answered.
fn hear<K: Caller>(
    handle: &mut Handle<K>,
    inbox: &mut Inbox,
    got: Got,
    world: &mut K::World,
) -> Noticed
    requires living { is_living handle.old.machine.known.stage ≡ true }
    requires count { IfMoved got (λ n. (0 < n) × (n ≡ length inbox.old)) }
    requires none { gives_bytes got ≡ false → inbox.old ≡ [] }
    ensures hears { Becomes [] handle.old.machine handle.new.machine inbox.new (λ before after. Hears K.steps (read_told got inbox.old) result before after world.old world.new) }
    ensures blames { result ≡ Noticed.LinkFailed → ReadFailed got }
{
    match got {
        Got::Bytes(_) => hand_over(handle, inbox, world),
        Got::NotReady => Noticed::NotReady,
        Got::End => {
            handle.ended(world);
            Noticed::Ended
        }
        Got::Failed => {
            handle.link_failed(world);
            Noticed::LinkFailed
        }
    }
}

/// Reads once straight into the place of a handle, and tells what came there. None where it has no place: then nothing is read.
pub fn read_placed<K, W: Wires>(handle: &mut Handle<K>, wires: &mut W, link: u32) -> Option<Got>
    ensures same { handle.new.machine ≡ handle.old.machine }
    ensures none { IfNone result ((place_size handle.old.machine ≡ 0) × (wires.new ≡ wires.old)) }
    ensures told { IfSome result (λ got. Adds (W.told wires.old) (W.told wires.new) (Read link (room_of (place_size handle.old.machine)) (read_told got handle.new.place))) }
    ensures count { IfSome result (λ got. IfMoved got (λ n. (0 < n) × (n ≤ length handle.new.place))) }
    ensures contents { Keeps (W.contents wires.old) (W.contents wires.new) }
    ensures faults { W.faults wires.old ≤ W.faults wires.new }
    ensures cause { IfSome result (λ got. ReadFailed got → Rises 1 (W.faults wires.old) (W.faults wires.new)) }
    ensures idles { W.idles wires.old ≤ W.idles wires.new }
{
    let place = handle.place();
    if place.is_empty() {
        return None;
    }
    Some(wires.read(link, place))
}

/// Takes what a read into its place answered.
fn hear_placed<K: Caller>(handle: &mut Handle<K>, got: Got, world: &mut K::World) -> Noticed
    requires living { is_living handle.old.machine.known.stage ≡ true }
    requires count { IfMoved got (λ n. (0 < n) × (n ≤ length handle.old.place)) }
    ensures hears { Becomes [] handle.old.machine handle.new.machine [] (λ before after. Hears K.steps (read_told got handle.old.place) result before after world.old world.new) }
    ensures blames { result ≡ Noticed.LinkFailed → ReadFailed got }
{
    match got {
        Got::Bytes(n) => {
            handle.placed(n);
            Noticed::Moved(n)
        }
        Got::NotReady => Noticed::NotReady,
        Got::End => {
            handle.ended(world);
            Noticed::Ended
        }
        Got::Failed => {
            handle.link_failed(world);
            Noticed::LinkFailed
        }
    }
}

/// Whether a handle reads.
fn is_reading<K>(handle: &Handle<K>) -> bool
    ensures yes { result ≡ true → (direction_now handle.now.machine.known == 0) ≡ false }
    ensures living { result ≡ true → is_living handle.now.machine.known.stage ≡ true }
    ensures no { result ≡ false → (direction_now handle.now.machine.known == 0) ≡ true }
{
    handle.is_reading()
}

/// Whether bytes of a handle wait to go out.
fn is_waiting<K>(handle: &Handle<K>) -> bool
    ensures value { result ≡ (direction_now handle.now.machine.known == 3) }
    ensures some { result ≡ true → 0 < length (out_now handle.now.machine.known) }
{
    handle.is_waiting()
}

/// Hands the handle what the inbox holds (libnbd, nbd_aio_notify_read). Where it holds nothing it reads once, straight into the
/// handle's place where it has one, else into the inbox. Where the peer ended or the link failed the handle is told.
///
/// `Moved`: so many bytes arrived. `NoMemory`: only the first of them did, and the others stay in the inbox. `NotReady` and
/// `Ended` are what the wires answered, and `Idle` is a handle that doesn't read.
pub fn notify_read<K: Caller, W: Wires>(
    handle: &mut Handle<K>,
    inbox: &mut Inbox,
    wires: &mut W,
    link: u32,
    world: &mut K::World,
) -> Noticed
    ensures reads { Goes (W.told wires.old) (W.told wires.new) (λ seen. IsAt link handle.old.machine inbox.old seen) (λ seen. IsAt link handle.new.machine inbox.new seen) (λ before calls after. ReadsOnce K.steps result before world.old calls after world.new) }

    // A link is blamed only where the wires counted a fault.
    ensures blames { result ≡ Noticed.LinkFailed → Rises 1 (W.faults wires.old) (W.faults wires.new) }
    ensures contents { Keeps (W.contents wires.old) (W.contents wires.new) }
    ensures faults { W.faults wires.old ≤ W.faults wires.new }
    ensures idles { W.idles wires.old ≤ W.idles wires.new }
{
    if !is_reading(handle) {
        return Noticed::Idle;
    }
    if !inbox.is_empty() {
        return hand_over(handle, inbox, world);
    }
    match read_placed(handle, wires, link) {
        Some(got) => hear_placed(handle, got, world),
        None => {
            let got = inbox.read(wires, link);
            hear(handle, inbox, got, world)
        }
    }
}

/// Counts what a write answered.
fn count<K>(handle: &mut Handle<K>, took: Took) -> Noticed
    requires count { IfSent took (λ n. (0 < n) × (n ≤ length (out_now handle.old.machine.known))) }
    ensures sends { (history : History K) → StandsFor max_unretired history handle.old.machine → (after : History K) × Sends (write_told took (out_now handle.old.machine.known)) result history after × StandsFor max_unretired after handle.new.machine }
    ensures less { is_moved result ≡ true → total handle.new.machine.known.waits < total handle.old.machine.known.waits }
    ensures blames { result ≡ Noticed.LinkFailed → WriteFailed took }
{
    match took {
        Took::Bytes(n) => {
            handle.wrote(n);
            Noticed::Moved(n)
        }
        Took::NotReady => Noticed::NotReady,
        Took::Failed => Noticed::LinkFailed,
    }
}

/// Offers once what waits to go out (libnbd, nbd_aio_notify_write). Where the link failed, the caller is to tell the handle.
///
/// `Moved`: so many bytes went out. `NotReady` is what the wires answered, and `Idle` is a handle of which nothing waits. It
/// takes no memory.
pub fn notify_write<K: Caller, W: Wires>(
    handle: &mut Handle<K>,
    wires: &mut W,
    link: u32,
) -> Noticed
    ensures writes { Goes (W.told wires.old) (W.told wires.new) (λ history. StandsFor max_unretired history handle.old.machine) (λ history. StandsFor max_unretired history handle.new.machine) (λ before calls after. WritesOnce link result before calls after) }

    // Less is left to write.
    ensures less { is_moved result ≡ true → total handle.new.machine.known.waits < total handle.old.machine.known.waits }

    // A link is blamed only where the wires counted a fault.
    ensures blames { result ≡ Noticed.LinkFailed → Rises 1 (W.faults wires.old) (W.faults wires.new) }
    ensures contents { Keeps (W.contents wires.old) (W.contents wires.new) }
    ensures faults { W.faults wires.old ≤ W.faults wires.new }
    ensures idles { W.idles wires.old ≤ W.idles wires.new }
{
    if !is_waiting(handle) {
        return Noticed::Idle;
    }
    let took = wires.write(link, handle.out());
    count(handle, took)
}
