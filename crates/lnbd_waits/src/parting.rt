//! The end is asked for.

ghost use Rattle.std.specs.Prelude.{◌≡◌, length};
ghost use Rattle.lnbd_poll.specs.Seen.{Seen};
ghost use Rattle.lnbd_waits.specs.Begun.{parting};
ghost use Rattle.lnbd_waits.specs.Waits.{Holds};

use lnbd_poll::Handles;

/// Asks for the end, where commands may be issued.
pub fn part<K>(handles: &mut Handles<K>)
    requires { length handles.old ≡ 1 }
    ensures { (seen : Seen K) → Holds handles.old seen → Holds handles.new (parting seen) }
{
    let _ = handles.get_mut(0).aio_disconnect();
}
