//! The path of bytes that come in pieces. `Handle::arrive` takes it where bytes are held already (`Pending` is not empty), and bytes in
//! place (`Handle::place`, `Handle::placed`) join it: they are held as if they had been handed in. Of the record that the held bytes begin so
//! many are held as it lacks and no more; the record that ends in them is taken, and what follows goes the way of `drain`. So a record that
//! arrives whole is never held. What a handle answers does not hang on how much is held, only what is copied and what memory is wanted.
//!
//! The front of a reply that brings data to a read is judged by the turn that finds it, and what it announces is kept with it: the data behind it
//! are held apart, and its command is looked up once more, when it is filed.
//!
//! Its other parts: the bytes held (`pending`), and such a reply filed once its data are all there (`filing`).

ghost use Rattle.std.specs.Prelude.{◌≡◌, ◌≢◌, ◌≤◌, ◌<◌, ◌+◌, ◌++◌, Some, None, length, vec_len, vec_capacity, IfSome, IsOk, if◌then◌else◌, IfNone, nat_lt, ◌||◌, not, ◌==◌};
ghost use Rattle.lnbd_records.specs.Handshake.{option_reply_magic};
ghost use Rattle.lnbd_records.specs.Numbers.{number_at};
ghost use Rattle.lnbd_history.specs.declared.kinds.Phase.TheVariants.{Ready};
ghost use Rattle.lnbd_machine.specs.Laws.{IsPartial};
ghost use Rattle.lnbd_arrivals.specs.Frames.{front_size};
ghost use Rattle.lnbd_arrivals.specs.declared.replies.Replies.TheVariants.{Extended, Structured};
ghost use Rattle.lnbd_handle.specs.Announcing.{announced_by_front, replies_in};
ghost use Rattle.lnbd_handle.specs.Held.{held_in};
ghost use Rattle.lnbd_handle.specs.Room.{AreWithin, HasPlacesAt, IsCalm, IsKept, IsQuiet, KeepsFrontAt};
ghost use Rattle.lnbd_handle.specs.Seen.{IsSound, machine_of, state_of};
ghost use Rattle.lnbd_handle.specs.Turns.{Arrives, HoldMeans};

use crate::connection::Connection;
use crate::drain::take_fresh;
use crate::filing::file_data;
use crate::kinds::{Holding, Short, Turn};
use crate::pending::Pending;
use crate::turns::{by_name_size, has_no_zeroes, replies_of, turn};
use lnbd_arrivals::{Announced, Replies};
use lnbd_callbacks::Caller;
use lnbd_history::Phase;
use lnbd_options::{Read64, read_head};
use lnbd_wire::{Read, read_chunk_head, read_chunk_head_ext};

/// How many bytes an option reply has, as far as these show: a whole head tells it.
fn option_size(bytes: &[u8]) -> usize
    ensures { result ≡ (if nat_lt (length bytes.now) 20 || not (number_at 0 8 bytes.now == option_reply_magic) then 20 else 20 + number_at 16 4 bytes.now) }
{
    match read_head(bytes) {
        Read64::Value(head) => 20 + head.length as usize,
        Read64::NeedMore => 20,
        Read64::BadMagic(_) => 20,
    }
}

/// Of a chunk that has so many bytes first the front alone, which shows whether it brings data.
fn front_first(front: usize, size: usize, bytes: &[u8]) -> usize
    ensures { length bytes.now < front → result ≤ front }
{
    if bytes.len() < front {
        size.min(front)
    } else {
        size
    }
}

/// How many bytes a chunk has, as far as these show. A simple reply in its place has no more than its head.
fn chunk_size(bytes: &[u8]) -> usize
    ensures { length bytes.now < front_size Structured → result ≤ front_size Structured }
{
    match read_chunk_head(bytes) {
        Read::Value(head) => front_first(28, (head.length as usize).saturating_add(20), bytes),
        Read::NeedMore => 20,
        Read::BadMagic(_) => 16,
    }
}

/// The same with extended headers.
fn extended_chunk_size(bytes: &[u8]) -> usize
    ensures { length bytes.now < front_size Extended → result ≤ front_size Extended }
{
    match read_chunk_head_ext(bytes) {
        Read::Value(head) => front_first(40, (head.length as usize).saturating_add(32), bytes),
        Read::NeedMore => 32,
        Read::BadMagic(_) => 16,
    }
}

/// How many bytes a reply has that announces no data, as far as these show. Of a simple one that is its head.
fn frame_size(replies: Replies, bytes: &[u8]) -> usize
    ensures { length bytes.now < front_size replies → result ≤ front_size replies }
{
    if bytes.len() < 16 {
        return 16;
    }
    match replies {
        Replies::Simple => 16,
        Replies::Structured => chunk_size(bytes),
        Replies::Extended => extended_chunk_size(bytes),
    }
}

/// How many bytes the record at the front has in this phase, as far as these show, where it announces no data.
fn size_at<K>(connection: &Connection<K>, phase: Phase, bytes: &[u8]) -> usize
    ensures { phase ≡ Ready → length bytes.now < front_size (replies_in (state_of connection.now)) → result ≤ front_size (replies_in (state_of connection.now)) }
{
    match phase {
        Phase::Greeting => 18,
        Phase::Asked(_) => option_size(bytes),
        Phase::OptMode => option_size(bytes),
        Phase::AskedByName => by_name_size(has_no_zeroes(connection.flags)),
        Phase::Ready => frame_size(replies_of(connection), bytes),
        Phase::Refused(_) => 0,
    }
}

/// How many bytes the record that these begin still lacks, as far as they show, and one at least.
fn lacking<K>(connection: &Connection<K>, pending: &Pending) -> usize
    ensures some { 0 < result }
    ensures data { IfSome pending.now.announced (λ announced. pending.now.came < announced.size → pending.now.came + result ≤ announced.size) }
    ensures front { IfNone pending.now.announced (connection.now.talk.phase ≡ Ready → AreWithin (front_size (replies_in (state_of connection.now))) None pending.now result) }
{
    let lacks = match pending.announced {
        Some(announced) => announced.size.saturating_sub(pending.came),
        None => {
            let size = size_at(connection, connection.talk.phase(), &pending.head);
            size.saturating_sub(pending.head.len())
        }
    };
    lacks.max(1)
}

/// Holds bytes behind those that are held as the front of a record, which show nothing yet, and takes the record that ends in
/// them, if one does. Where none does it is told what they announce then.
fn hold_front<K: Caller>(
    connection: &mut Connection<K>,
    head: &mut Vec<u8>,
    announced: &mut Option<Announced>,
    world: &mut K::World,
    front: &[u8],
) -> Holding
    requires sound { IsSound connection.old }
    requires partial { IsPartial (machine_of connection.old head.old.items) }
    ensures means { HoldMeans K.steps connection.old head.old.items world.old front.now result connection.new head.new.items world.new }
    ensures sound { IsSound connection.new }
    ensures still { result ≡ Holding.More → connection.new ≡ connection.old }
    ensures joined { result ≡ Holding.More → head.new.items ≡ head.old.items ++ front.now }
    ensures told { result ≡ Holding.More → announced.new ≡ announced_by_front (state_of connection.new) head.new.items }
    ensures untold { result ≢ Holding.More → announced.new ≡ announced.old }
    ensures capacity { vec_capacity head.old ≤ vec_capacity head.new }
    ensures memory { IsCalm (state_of connection.old) → vec_len head.old + length front.now ≤ vec_capacity head.old → result ≢ Holding.Short }
{
    let before = head.len();
    if head.extend_from_slice(front).is_err() {
        return Holding::Short;
    }
    match turn(connection, world, head) {
        Turn::Nothing(told) => {
            *announced = told;
            Holding::More
        }
        Turn::All => {
            head.clear();
            Holding::Took(front.len())
        }
        Turn::Took(n) => {
            head.clear();
            Holding::Took(n - before)
        }
        Turn::Short => {
            head.truncate(before);
            Holding::Short
        }
    }
}

/// The same where no data are held apart.
fn hold_record<K: Caller>(
    connection: &mut Connection<K>,
    pending: &mut Pending,
    world: &mut K::World,
    front: &[u8],
) -> Holding
    requires sound { IsSound connection.old }
    requires partial { IsPartial (machine_of connection.old (held_in pending.old)) }
    requires places { HasPlacesAt (state_of connection.old) pending.old }
    requires unannounced { pending.old.announced ≡ None }
    requires within { connection.old.talk.phase ≡ Ready → AreWithin (front_size (replies_in (state_of connection.old))) None pending.old (length front.now) }
    ensures means { HoldMeans K.steps connection.old (held_in pending.old) world.old front.now result connection.new (held_in pending.new) world.new }
    ensures sound { IsSound connection.new }
    ensures still { result ≡ Holding.More → connection.new ≡ connection.old }
    ensures kept { IsKept pending.new }
    ensures room { vec_len pending.new.content ≡ vec_len pending.old.content }
    ensures memory { IsQuiet (state_of connection.old) → result ≢ Holding.Short }
    ensures said { KeepsFrontAt (state_of connection.new) pending.new }
{
    hold_front(
        connection,
        &mut pending.head,
        &mut pending.announced,
        world,
        front,
    )
}

/// Holds data of a reply, and takes the reply that ends in them.
fn hold_content<K: Caller>(
    connection: &mut Connection<K>,
    pending: &mut Pending,
    world: &mut K::World,
    announced: Announced,
    front: &[u8],
) -> Holding
    requires sound { IsSound connection.old }
    requires partial { IsPartial (machine_of connection.old (held_in pending.old)) }
    requires places { HasPlacesAt (state_of connection.old) pending.old }
    requires announces { pending.old.announced ≡ Some announced }
    requires fits { pending.old.came + length front.now ≤ announced.size }
    ensures means { HoldMeans K.steps connection.old (held_in pending.old) world.old front.now result connection.new (held_in pending.new) world.new }
    ensures sound { IsSound connection.new }
    ensures still { result ≡ Holding.More → connection.new ≡ connection.old }
    ensures kept { IsKept pending.new }
    ensures room { vec_len pending.new.content ≡ vec_len pending.old.content }
    ensures memory { IsCalm (state_of connection.old) → result ≢ Holding.Short }
    ensures said { KeepsFrontAt (state_of connection.new) pending.new }
{
    let before = pending.came;
    pending.put(front);
    if pending.came < announced.size {
        return Holding::More;
    }
    let filed = file_data(
        &mut connection.commands,
        connection.talk.contexts(),
        connection.alloc,
        &mut pending.content,
        world,
        announced,
    );
    match filed {
        Ok(()) => {
            pending.clear();
            Holding::Took(front.len())
        }
        Err(_) => {
            pending.came = before;
            Holding::Short
        }
    }
}

/// Holds bytes behind those that are held, which show nothing yet, and takes the record that ends in them, if one does.
fn hold<K: Caller>(
    connection: &mut Connection<K>,
    pending: &mut Pending,
    world: &mut K::World,
    front: &[u8],
) -> Holding
    requires sound { IsSound connection.old }
    requires partial { IsPartial (machine_of connection.old (held_in pending.old)) }
    requires places { HasPlacesAt (state_of connection.old) pending.old }
    requires within { connection.old.talk.phase ≡ Ready → AreWithin (front_size (replies_in (state_of connection.old))) pending.old.announced pending.old (length front.now) }
    ensures means { HoldMeans K.steps connection.old (held_in pending.old) world.old front.now result connection.new (held_in pending.new) world.new }
    ensures sound { IsSound connection.new }
    ensures still { result ≡ Holding.More → connection.new ≡ connection.old }
    ensures kept { IsKept pending.new }
    ensures room { vec_len pending.new.content ≡ vec_len pending.old.content }
    ensures memory { IsQuiet (state_of connection.old) → result ≢ Holding.Short }
    ensures said { KeepsFrontAt (state_of connection.new) pending.new }
{
    match pending.announced {
        Some(announced) => hold_content(connection, pending, world, announced, front),
        None => hold_record(connection, pending, world, front),
    }
}

/// Takes bytes behind those that are held, which show nothing yet. Of the record that these begin so many are held as it
/// lacks; what follows is taken straight from what arrived.
pub(crate) fn take_behind<K: Caller>(
    connection: &mut Connection<K>,
    pending: &mut Pending,
    world: &mut K::World,
    bytes: &[u8],
) -> Result<(), Short>
    requires sound { IsSound connection.old }
    requires partial { IsPartial (machine_of connection.old (held_in pending.old)) }
    requires places { HasPlacesAt (state_of connection.old) pending.old }
    ensures arrives { Arrives K.steps connection.old (held_in pending.old) world.old bytes.now result connection.new (held_in pending.new) world.new }
    ensures sound { IsSound connection.new }
    ensures kept { IsKept pending.new }
    ensures room { vec_len pending.new.content ≡ vec_len pending.old.content }
    ensures said { KeepsFrontAt (state_of connection.new) pending.new }
    ensures memory { IsQuiet (state_of connection.old) → IsOk result }
{
    let mut used = 0;
    while used < bytes.len() {
        let (_, rest) = bytes.split_at(used);
        let most = lacking(connection, pending).min(rest.len());
        let (front, _) = rest.split_at(most);
        match hold(connection, pending, world, front) {
            Holding::More => used += most,
            Holding::Took(n) => {
                let (_, rest) = rest.split_at(n);
                return match take_fresh(connection, pending, world, rest) {
                    Ok(()) => Ok(()),
                    Err(short) => Err(Short {
                        taken: used + n + short.taken,
                    }),
                };
            }
            Holding::Short => return Err(Short { taken: used }),
        }
    }
    Ok(())
}
