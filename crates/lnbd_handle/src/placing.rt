//! The place of the data that are still to come of a reply to READ, a simple one or a chunk. A reader that receives them straight into it spares a copy:
//! they are held there as if they had been handed in. What the bytes mean is not known here.

ghost use Rattle.std.specs.Prelude.{◌≡◌, ◌≤◌, ◌+◌, ◌-◌, [], length, take, true, vec_len};
ghost use Rattle.std.specs.Borrow.{sem};
ghost use Rattle.lnbd_history.specs.Answers.{is_living};
ghost use Rattle.lnbd_history.specs.Events.{Arrived};
ghost use Rattle.lnbd_commands.specs.Commands.{waiting_at};
ghost use Rattle.lnbd_commands.specs.Faulty.{HasAsked};
ghost use Rattle.lnbd_machine.specs.Laws.{IsPartial};
ghost use Rattle.lnbd_machine.specs.Machine.{calls, step};
ghost use Rattle.lnbd_handle.specs.Held.{held_in};
ghost use Rattle.lnbd_handle.specs.Histories.{ForEach};
ghost use Rattle.lnbd_handle.specs.Placing.{AddsSilently, has_fault, place_size};
ghost use Rattle.lnbd_handle.specs.Room.{HasPlacesAt};
ghost use Rattle.lnbd_handle.specs.Seen.{machine_of, state_of};

use crate::connection::Connection;
use crate::handle::Handle;
use crate::pending::Pending;
use lnbd_arrivals::{Announced, Carrier};

/// Whether the data that are announced have a content fault, as those of a chunk may.
fn has_fault<K>(connection: &Connection<K>, announced: &Announced) -> bool
    requires { HasAsked (waiting_at announced.now.cookie connection.now.commands) announced.now.offset announced.now.size }
    ensures { result ≡ has_fault connection.now.commands.rows announced.now }
{
    match announced.carrier {
        Carrier::Reply => false,
        Carrier::Chunk { .. } => connection
            .commands
            .is_faulty(announced.cookie, announced.offset, announced.size as u64),
    }
}

/// How many bytes the place has.
fn place_size<K>(connection: &Connection<K>, pending: &Pending) -> usize
    requires partial { IsPartial (machine_of connection.now (held_in pending.now)) }
    requires places { HasPlacesAt (state_of connection.now) pending.now }
    ensures size { result ≡ place_size (machine_of connection.now (held_in pending.now)) }
    ensures fits { pending.now.came + result ≤ vec_len pending.now.content }
{
    match pending.announced {
        Some(announced) => {
            if has_fault(connection, &announced) {
                return 0;
            }
            left_of(announced.size, pending.came)
        }
        None => 0,
    }
}

/// How many data are still to come but for the last one, where so many came.
fn left_of(size: usize, came: usize) -> usize
    ensures { result ≡ size - came - 1 }
{
    size.saturating_sub(came).saturating_sub(1)
}

impl<K> Handle<K> {
    ghost use Rattle.lnbd_handle.specs.Lends.{lends_place};

    /// The place of the data that are still to come: where the bytes that arrived end within the data of a reply to READ, a simple one or a
    /// chunk without a content fault, those that it lacks, the last one left out, which comes by `arrive`; else nothing. It takes no memory and
    /// changes no answer.
    pub fn place(&mut self) -> &mut [u8]
        ensures* writes_back { sem 𝓛 (lends_place K.row self.entry result) }
        ensures value { result.now ≡ self.old.place }
        ensures size { length self.old.place ≡ place_size self.old.machine }
    {
        let size = place_size(&self.connection, &self.pending);
        let from = self.pending.came;
        let pending = &mut self.pending;
        pending.content.slice_mut(from..from + size)
    }

    /// So many bytes of the place, as they now stand, have arrived. No callback is called, and it takes no memory.
    pub fn placed(&mut self, n: usize)
        requires { n ≤ length self.old.place }
        ensures step { self.new.machine ≡ step self.old.machine (Arrived (take n self.old.place) []) }
        ensures silent { calls self.old.machine (Arrived (take n self.old.place) []) ≡ [] }
        ensures stands { is_living self.old.machine.known.stage ≡ true → ForEach self.old.machine (AddsSilently (Arrived (take n self.old.place) []) self.new.machine) }
    {
        self.pending.came += n;
    }
}
