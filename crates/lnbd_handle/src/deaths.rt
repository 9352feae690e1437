//! How a connection ends: it dies, and each command in flight fails, or it is closed as was asked.

ghost use Rattle.std.specs.Prelude.{◌≡◌, []};
ghost use Rattle.lnbd_history.specs.declared.kinds.Stage.TheVariants.{Closed, Dead};
ghost use Rattle.lnbd_machine.specs.Machine.{ended_closing, flying, kill};
ghost use Rattle.lnbd_handle.specs.Runs.{Acts};
ghost use Rattle.lnbd_handle.specs.Seen.{IsSound, state_of};

use crate::connection::Connection;
use lnbd_callbacks::Caller;
use lnbd_history::Stage;
use lnbd_model::Cause;

/// The connection dies of this cause. It takes no memory.
pub(crate) fn die<K: Caller>(connection: &mut Connection<K>, world: &mut K::World, cause: Cause)
    requires { IsSound connection.old }
    ensures acts { Acts K.steps (kill cause) (state_of connection.old) (state_of connection.new) world.old world.new }
    ensures sound { IsSound connection.new }
    ensures dead { connection.new.stage ≡ Dead cause }
{
    connection.stage = Stage::Dead(cause);
    connection.queue.clear();
    connection.commands.lose_all(world);
}

/// The connection ends as was asked: no command is in flight.
fn shut<K>(connection: &mut Connection<K>)
    requires { IsSound connection.old }
    ensures state { state_of connection.new ≡ record (state_of connection.old) { stage = Closed; waits = [] } }
    ensures sound { IsSound connection.new }
{
    connection.stage = Stage::Closed;
    connection.queue.clear();
}

/// The peer ends a connection whose end was asked for: it dies where a command is in flight.
pub(crate) fn end_closing<K: Caller>(connection: &mut Connection<K>, world: &mut K::World)
    requires { IsSound connection.old }
    ensures acts { Acts K.steps (ended_closing (flying connection.old.commands.rows)) (state_of connection.old) (state_of connection.new) world.old world.new }
    ensures sound { IsSound connection.new }
{
    if connection.commands.in_flight() == 0 {
        shut(connection);
    } else {
        die(connection, world, Cause::Ended);
    }
}
