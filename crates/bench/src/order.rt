//! The order in which so many things are taken.

ghost use Rattle.std.specs.Prelude.{◌<◌, ◌^◌};

use crate::played::Played;
use anyhow::{Result, bail};

#[derive(Clone, Copy)]
pub enum Order {
    Rising,
    Falling,
    /// A permutation where the count is no multiple of 7,919.
    Mixed,
}

impl Order {
    /// The order that the next word names.
    pub fn taken_from(played: &mut Played) -> Result<Order> {
        match played.word()?.as_str() {
            "rising" => Ok(Order::Rising),
            "falling" => Ok(Order::Falling),
            "mixed" => Ok(Order::Mixed),
            _ => bail!("there is no such order"),
        }
    }

    /// The number of the one that is taken behind so many others.
    pub fn number_at(self, done: u32, count: u32) -> u64
        requires { done < count }
        ensures { result < 2 ^ 32 }
    {
        match self {
            Order::Rising => done as u64,
            Order::Falling => (count - 1 - done) as u64,
            Order::Mixed => done as u64 * 7919 % count as u64,
        }
    }
}
