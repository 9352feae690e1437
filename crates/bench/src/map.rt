//! A map that is joined from told extents, of which each two neighbours are equal. The words: `text` or `json`, and how many
//! extents. Tells how many bytes its text or its JSON has.

ghost use Rattle.std.specs.Prelude.{◌≡◌, ◌*◌, ◌^◌, ◌≤◌, IfOk};
ghost use Rattle.lnbd_extents.specs.Lists.{span};

use crate::played::Played;
use anyhow::{Result, bail};
use lnbd_info::{joined, write_map, write_map_json};
use lnbd_model::{Extent, NoMemory};
use std::alloc::Global;

/// So many extents of 512 bytes, two data ones, two zero ones, and so on.
fn told(alloc: Global, count: u32) -> Result<Vec<Extent>, NoMemory>
    ensures { IfOk result (λ told. span told.items ≡ 512 * count) }
{
    let mut told = Vec::new(alloc);
    'told: for done in 0..count {
        let flags = if done % 4 < 2 { 0 } else { 3 };
        told.push(Extent { length: 512, flags })?;
    }
    Ok(told)
}

/// How many bytes the map of so many told extents has.
fn bytes_of(alloc: Global, count: u32, json: bool) -> Result<usize, NoMemory> {
    let told = told(alloc, count)?;
    let map = joined(alloc, &told)?;
    let mut out = Vec::new(alloc);
    if json {
        write_map_json(alloc, &map, true, &mut out)?;
    } else {
        write_map(alloc, &map, true, &mut out)?;
    }
    Ok(out.len())
}

pub fn play(played: &mut Played) -> Result<()> {
    let json = match played.word()?.as_str() {
        "text" => false,
        "json" => true,
        _ => bail!("there is no such form of a map"),
    };
    let count = played.number()?;
    let bytes = bytes_of(played.alloc(), count, json)?;
    played.tell(bytes as u64)
}
