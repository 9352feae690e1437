//! The done marks: each stands in the order in which the rows were done.

ghost use Rattle.std.specs.Prelude.{◌≡◌, true, slice_get};
ghost use Rattle.std.specs.VecDeque.{deque_capacity};
ghost use Rattle.lnbd_inflight.specs.Done.{is_done, forgetting, IsOnce};
ghost use Rattle.lnbd_inflight.specs.Marks.{order_of};

use std::collections::VecDeque;

/// A done cookie. The stamps rise in the order of the marks, until they come to their end and stand still. They
/// only say where to look.
#[derive(Clone, Copy)]
pub struct Mark {
    pub cookie: u64,
    pub stamp: u64,
}

/// Takes the mark of a cookie off the order, where it is done.
pub fn forget(order: &mut VecDeque<Mark>, cookie: u64, done: bool, stamp: u64)
    requires once { IsOnce (order_of order.old.items) }
    requires agrees { done ≡ is_done cookie (order_of order.old.items) }
    ensures items { order_of order.new.items ≡ forgetting cookie (order_of order.old.items) }
    ensures capacity { deque_capacity order.new ≡ deque_capacity order.old }
{
    if done {
        let at = spot_of(order, cookie, stamp);
        let _mark = order.remove(at);
    }
}

/// Where the mark of a done cookie stands in the order.
fn spot_of(order: &VecDeque<Mark>, cookie: u64, stamp: u64) -> usize
    requires { is_done cookie (order_of order.now.items) ≡ true }
    ensures { slice_get (order_of order.now.items) result ≡ Some cookie }
{
    let at = order.partition_point(|mark| mark.stamp < stamp);
    if let Some(mark) = order.get(at) {
        if mark.cookie == cookie {
            return at;
        }
    }
    scanned(order, cookie)
}

/// The same by going over the order, for stamps that have come to their end.
fn scanned(order: &VecDeque<Mark>, cookie: u64) -> usize
    requires { is_done cookie (order_of order.now.items) ≡ true }
    ensures { slice_get (order_of order.now.items) result ≡ Some cookie }
{
    for at in 0..order.len() {
        if order[at].cookie == cookie {
            return at;
        }
    }
    unreachable!()
}
