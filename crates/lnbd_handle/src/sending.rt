//! What goes out: how bytes that went out are counted, and DISC.

ghost use Rattle.std.specs.Prelude.{◌≡◌, ◌≤◌, ◌+◌, ◌++◌, ◌∷◌, [], false, length, nat_lt};
ghost use Rattle.lnbd_history.specs.declared.kinds.Phase.TheVariants.{Ready};
ghost use Rattle.lnbd_history.specs.declared.kinds.Stage.TheVariants as stage;
ghost use Rattle.lnbd_history.specs.Outgoing.{disconnect_part, out};
ghost use Rattle.lnbd_machine.specs.Machine.{asking, writing};
ghost use Rattle.lnbd_machine.specs.Now.{out_now};
ghost use Rattle.lnbd_outgoing.specs.Pieces.{head_bytes};
ghost use Rattle.lnbd_outgoing.specs.Queue.{AreFirstOwn};
ghost use Rattle.lnbd_handle.specs.Seen.{IsSound, state_of, waits_in, writes_in};

use crate::connection::Connection;
use lnbd_history::Stage;
use lnbd_outgoing::{Piece, RequestBytes};
use lnbd_wire::{put_disconnect, put_disconnect_ext};

/// The own bytes of the write that is offered, where a write's are: they stand in its command's buffer.
fn own_bytes<K>(connection: &Connection<K>) -> &[u8]
    ensures { AreFirstOwn (writes_in connection.now.commands) connection.now.queue.pieces result.now }
{
    match connection.queue.first_write() {
        Some(cookie) => connection.commands.payload(cookie),
        None => &[],
    }
}

/// Whether bytes are offered. No command is looked up for it.
pub(crate) fn is_offering<K>(connection: &Connection<K>) -> bool
    requires { IsSound connection.now }
    ensures { result ≡ nat_lt 0 (length (out_now (state_of connection.now))) }
{
    !connection.queue.is_empty()
}

/// The bytes that are offered: the rest of the first part that waits.
pub(crate) fn offered<K>(connection: &Connection<K>) -> &[u8]
    requires { IsSound connection.now }
    ensures { result.now ≡ out_now (state_of connection.now) }
{
    connection.queue.out(own_bytes(connection))
}

/// So many of the bytes that are offered have gone out.
pub(crate) fn count_written<K>(connection: &mut Connection<K>, n: usize)
    requires sound { IsSound connection.old }
    requires within { n ≤ length (out (waits_in connection.old)) }
    ensures state { state_of connection.new ≡ writing n (state_of connection.old) }
    ensures sound { IsSound connection.new }
{
    let _issued = connection.commands.issued();
    if connection.queue.wrote(n) {
        connection.written += 1;
    }
}

/// The request that ends a session, with extended headers on or off.
fn disconnect(extended: bool) -> RequestBytes
    ensures { head_bytes result ≡ (disconnect_part extended).bytes }
{
    if extended {
        let mut head = [0; 32];
        put_disconnect_ext(&mut head);
        RequestBytes::Extended(head)
    } else {
        let mut head = [0; 28];
        put_disconnect(&mut head);
        RequestBytes::Compact(head)
    }
}

/// Queues DISC, for which there is always room.
pub(crate) fn say_goodbye<K>(connection: &mut Connection<K>)
    requires sound { IsSound connection.old }
    requires open { connection.old.stage ≡ stage.Open }
    requires ready { connection.old.talk.phase ≡ Ready }
    ensures state { state_of connection.new ≡ asking (disconnect_part connection.old.talk.extended ∷ []) (record (state_of connection.old) { stage = stage.Disconnecting }) }
    ensures sound { IsSound connection.new }
{
    connection.stage = Stage::Disconnecting;
    let head = disconnect(connection.talk.extended());
    connection.queue.push_last(Piece::Head(head));
}
