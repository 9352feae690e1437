//! How negotiation is given up: ABORT goes out, and what arrives from then on is passed over. So many bytes may come and no
//! more.

ghost use Rattle.std.specs.Prelude.{◌≡◌, ◌≢◌, ◌∷◌, []};
ghost use Rattle.lnbd_records.specs.Limits.{max_passed};
ghost use Rattle.lnbd_history.specs.declared.kinds.Stage.TheVariants.{Aborting, Open};
ghost use Rattle.lnbd_history.specs.Outgoing.{abort_part};
ghost use Rattle.lnbd_machine.specs.Machine.{asking};
ghost use Rattle.lnbd_handle.specs.Seen.{IsSound, state_of};
ghost use Rattle.lnbd_handle.specs.Turns.{TurnMeans};

use crate::connection::Connection;
use crate::deaths::die;
use crate::kinds::Turn;
use lnbd_callbacks::Caller;
use lnbd_history::Stage;
use lnbd_model::{Breach, Cause};
use lnbd_negotiate::abort_request;
use lnbd_outgoing::Piece;
use lnbd_records::names::MAX_PASSED;

/// Queues ABORT, for which there is always room.
pub(crate) fn abort<K>(connection: &mut Connection<K>)
    requires sound { IsSound connection.old }
    requires open { connection.old.stage ≡ Open }
    ensures state { state_of connection.new ≡ asking (abort_part ∷ []) (record (state_of connection.old) { stage = Aborting }) }
    ensures sound { IsSound connection.new }
{
    connection.stage = Stage::Aborting;
    connection.queue.push_last(Piece::Abort(abort_request()));
}

/// Passes bytes over. One too many is a breach.
pub(crate) fn turn_aborting<K: Caller>(
    connection: &mut Connection<K>,
    world: &mut K::World,
    rest: &[u8],
) -> Turn
    requires sound { IsSound connection.old }
    requires aborting { connection.old.stage ≡ Aborting }
    ensures means { TurnMeans K.steps connection.old world.old rest.now result connection.new world.new }
    ensures sound { IsSound connection.new }
    ensures memory { result ≢ Turn.Short }
{
    let count = rest.len();
    if count == 0 {
        return Turn::Nothing(None);
    }
    let left = (MAX_PASSED as usize).saturating_sub(connection.passed);
    if count <= left {
        connection.passed += count;
        return Turn::Took(count);
    }
    connection.passed += left;
    die(connection, world, Cause::Broke(Breach::TooManyReplies));
    Turn::All
}
