//! Takes straight from what arrived, record by record, where nothing is held, and holds what is left, which is no whole record yet. Records
//! that arrive whole never leave this path; bytes that come behind held ones are taken by `pieces`, and what follows their record here again.

ghost use Rattle.std.specs.Prelude.{◌≡◌, ◌≤◌, [], true, false, None, length, vec_len, IsOk, OnOk, OnErr};
ghost use Rattle.lnbd_handle.specs.Announcing.{announced_by_front};
ghost use Rattle.lnbd_handle.specs.Held.{held_in};
ghost use Rattle.lnbd_handle.specs.Room.{AreOrdered, ComeSimply, IsCalm, IsKept, KeepsFrontAt, ReadsFit};
ghost use Rattle.lnbd_handle.specs.Seen.{IsSound, state_of};
ghost use Rattle.lnbd_handle.specs.Turns.{Arrives, Drained, ShowsNothing};

use crate::connection::Connection;
use crate::kinds::{Short, Taken, Turn};
use crate::pending::Pending;
use crate::turns::{replies_of, turn};
use lnbd_arrivals::Announced;
use lnbd_callbacks::Caller;
use lnbd_model::NoMemory;

/// Takes the records of a buffer.
fn drain<K: Caller>(connection: &mut Connection<K>, world: &mut K::World, buffer: &[u8]) -> Taken
    requires { IsSound connection.old }
    ensures drained { Drained K.steps connection.old world.old buffer.now result connection.new world.new }
    ensures sound { IsSound connection.new }
    ensures memory { IsCalm (state_of connection.old) → result.short ≡ false }
{
    let all = buffer.len();
    let mut used = 0;
    while used < all {
        let (_, rest) = buffer.split_at(used);
        match turn(connection, world, rest) {
            Turn::Nothing(announced) => return Taken {
                used,
                short: false,
                announced,
            },
            Turn::All => return Taken {
                used: all,
                short: false,
                announced: None,
            },
            Turn::Took(n) => used += n,
            Turn::Short => return Taken {
                used,
                short: true,
                announced: None,
            },
        }
    }
    Taken {
        used,
        short: false,
        announced: None,
    }
}

/// Takes bytes where none are held: records straight from what arrived.
pub(crate) fn take_fresh<K: Caller>(
    connection: &mut Connection<K>,
    pending: &mut Pending,
    world: &mut K::World,
    bytes: &[u8],
) -> Result<(), Short>
    requires sound { IsSound connection.old }
    requires fresh { held_in pending.old ≡ [] }
    requires unannounced { pending.old.announced ≡ None }
    requires kept { IsKept pending.old }
    requires fits { ReadsFit (vec_len pending.old.content) connection.old.commands.rows }
    requires ordered { AreOrdered connection.old.talk.structured connection.old.talk.extended }
    ensures arrives { Arrives K.steps connection.old (held_in pending.old) world.old bytes.now result connection.new (held_in pending.new) world.new }
    ensures sound { IsSound connection.new }
    ensures kept { IsKept pending.new }
    ensures room { vec_len pending.new.content ≡ vec_len pending.old.content }
    ensures said { KeepsFrontAt (state_of connection.new) pending.new }
    ensures memory { IsCalm (state_of connection.old) → IsOk result }
{
    let taken = drain(connection, world, bytes);
    if taken.short {
        return Err(Short { taken: taken.used });
    }
    let (_, rest) = bytes.split_at(taken.used);
    if hold_rest(connection, pending, rest, taken.announced).is_err() {
        return Err(Short { taken: taken.used });
    }
    Ok(())
}

/// Holds the front of a record, where nothing is held: of a reply that brings data to a read the data apart.
fn hold_rest<K>(
    connection: &Connection<K>,
    pending: &mut Pending,
    rest: &[u8],
    announced: Option<Announced>,
) -> Result<(), NoMemory>
    requires empty { held_in pending.old ≡ [] }
    requires kept { IsKept pending.old }
    requires fits { ReadsFit (vec_len pending.old.content) connection.now.commands.rows }
    requires ordered { AreOrdered connection.now.talk.structured connection.now.talk.extended }
    requires partial { ShowsNothing (state_of connection.now) rest.now }
    requires announces { announced ≡ announced_by_front (state_of connection.now) rest.now }
    ensures ok { OnOk result (held_in pending.new ≡ rest.now) }
    ensures err { OnErr result (held_in pending.new ≡ []) }
    ensures kept { IsKept pending.new }
    ensures room { vec_len pending.new.content ≡ vec_len pending.old.content }
    ensures said { KeepsFrontAt (state_of connection.now) pending.new }
    ensures memory { ComeSimply (state_of connection.now) → IsOk result }
{
    match announced {
        Some(announced) => {
            let (front, data) = rest.split_at(replies_of(connection).front_size());
            pending.hold_apart(front, announced, data)
        }
        None => pending.hold(rest),
    }
}
