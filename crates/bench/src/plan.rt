//! A window over ranges of 512 zeros, each 512 positions behind the last, that is planned, and all of its slices taken. The
//! words, any number of times: how many rounds, and how many ranges. Tells how many zeros the slices have.

ghost use Rattle.std.specs.Prelude.{◌≤◌, ◌^◌};

use crate::played::Played;
use anyhow::Result;
use lnbd_extents::{AddFault, Ranges};
use lnbd_model::NoMemory;
use lnbd_plan::Plan;
use std::alloc::Global;

/// Slices are cut at its multiples.
const CELL: u32 = 262144;

fn ranges(alloc: Global, count: u32) -> Result<Ranges, AddFault> {
    let mut ranges = Ranges::new(alloc);
    for number in 0..count {
        ranges.add(number as u64 * 1024, 512)?;
    }
    Ok(ranges)
}

/// How many zeros the slices have that are still to come.
fn take_all(plan: &mut Plan) -> u64 {
    let mut zeros = 0u64;
    for _ in 0..plan.left() {
        if let Some(slice) = plan.next() {
            if slice.zero {
                zeros = zeros.wrapping_add(slice.length);
            }
        }
    }
    zeros
}

/// The zeros of all rounds.
fn zeros(alloc: Global, zero: &Ranges, rounds: u32, length: u64) -> Result<u64, NoMemory>
    requires { length ≤ 2 ^ 42 }
{
    let mut zeros = 0u64;
    for _ in 0..rounds {
        let mut plan = Plan::new(alloc, CELL, CELL as u64, true);
        plan.window(0, length, zero)?;
        zeros = zeros.wrapping_add(take_all(&mut plan));
    }
    Ok(zeros)
}

pub fn play(played: &mut Played) -> Result<()> {
    for _ in 0..played.left() / 2 {
        let rounds = played.number()?;
        let count = played.number()?;
        let ranges = ranges(played.alloc(), count)?;
        let zeros = zeros(played.alloc(), &ranges, rounds, count as u64 * 1024)?;
        played.tell(zeros)?;
    }
    Ok(())
}
