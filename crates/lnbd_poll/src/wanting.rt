//! What a pause is to wait for on a handle's link.

ghost use Rattle.std.specs.Prelude.{◌≡◌, ◌≤◌, ◌<◌, ◌+◌, ◌++◌, [], vec_len, vec_capacity};
ghost use Rattle.lnbd_machine.specs.Now.{direction_now, in_flight_now, state_now};
ghost use Rattle.lnbd_poll.specs.Held.{is_on_its_way, is_wanting, want_of, with_want};

use lnbd_handle::Handle;
use lnbd_link::Want;
use lnbd_model::State;

/// Whether a handle negotiates, or asked for the end of its connection.
fn is_on_its_way(state: State) -> bool
    ensures { result ≡ is_on_its_way state }
{
    matches!(state, State::Negotiating | State::Closing)
}

/// Whether a handle waits for its link: it negotiates or asked for the end of its connection, has commands in flight, or bytes that
/// wait to go out.
pub fn is_wanting<K>(handle: &Handle<K>) -> bool
    ensures { result ≡ is_wanting (state_now handle.now.machine.known) (in_flight_now handle.now.machine.known) (direction_now handle.now.machine.known) }
{
    is_on_its_way(handle.state()) || handle.in_flight() != 0 || handle.is_waiting()
}

/// What a pause is to wait for on a handle's link, where the handle waits for it: the link in the handle's direction.
pub fn want_of<K>(handle: &Handle<K>, link: u32) -> Option<Want>
    ensures { result ≡ want_of link (state_now handle.now.machine.known) (in_flight_now handle.now.machine.known) (direction_now handle.now.machine.known) }
{
    if is_wanting(handle) {
        Some(Want {
            link,
            direction: handle.direction(),
        })
    } else {
        None
    }
}

/// Adds what a pause is to wait for, if anything.
pub fn push_want(wants: &mut Vec<Want>, want: Option<Want>)
    requires { vec_len wants.old < vec_capacity wants.old }
    ensures items { wants.new.items ≡ wants.old.items ++ with_want want [] }
    ensures len { vec_len wants.new ≤ vec_len wants.old + 1 }
    ensures room { vec_capacity wants.new ≡ vec_capacity wants.old }
{
    match want {
        Some(want) => wants.push_reserved(want),
        None => {}
    }
}
