//! Ranges of 512 positions that are added to a set. The words, any number of times: how many, the order in which they are
//! added, and how far they are apart; ranges at a distance of 512 touch. Tells how many ranges the set has then.

ghost use Rattle.std.specs.Prelude.{◌<◌, ◌^◌};

use crate::order::Order;
use crate::played::Played;
use anyhow::Result;
use lnbd_extents::{AddFault, Ranges};
use std::alloc::Global;

fn fill(alloc: Global, order: Order, count: u32, distance: u32) -> Result<usize, AddFault>
    requires { distance < 2 ^ 16 }
{
    let mut ranges = Ranges::new(alloc);
    for done in 0..count {
        ranges.add(order.number_at(done, count) * distance as u64, 512)?;
    }
    Ok(ranges.count())
}

pub fn play(played: &mut Played) -> Result<()> {
    for _ in 0..played.left() / 3 {
        let count = played.number()?;
        let order = Order::taken_from(played)?;
        let distance = played.number()?.min(65_535);
        let ranges = fill(played.alloc(), order, count, distance)?;
        played.tell(ranges as u64)?;
    }
    Ok(())
}
