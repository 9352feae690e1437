//! The benchmarks. The first word names one, whose module says which words it takes behind that; it prints the numbers
//! that the work came to, so that none of it can be left out. With no words each is played once on a tiny input. No time is
//! taken here: the scripts of `bench` do that.
#![tactic(auto)]

mod chunks;
mod commands;
mod copies;
mod extents;
mod handle;
mod heads;
mod lines;
mod map;
mod memnet;
mod order;
mod pieces;
mod plan;
mod played;
mod session;
mod table;
mod wires;

use anyhow::{Result, bail};
use played::Played;
use std::alloc::Global;
use std::env::{self, Args};

/// Each benchmark on tiny inputs, a line each.
const EACH: &str = "\
chunks chunks 3 5
chunks heard 3 5
chunks extents 3 1
chunks whole 3 5
chunks simple 3 5
extents 100 rising 1024 100 falling 1024 100 mixed 1024
handle read 1 1000
handle orders 1 64 0
handle orders 1 64 1
handle stream 2 65536
handle copies 2 65536
handle deaths 1 3
heads 1
lines 4
map text 8
map json 8
memnet served 2
memnet copied 2
pieces 2 zeros 2 data 2 mixed 2 ends
plan 2 1000
table 2 100 rising 2 100 falling 2 100 mixed
wires 100000";

/// Plays the benchmark of this name.
fn play_named(rt: &HostRuntime, name: &str, played: &mut Played) -> Result<()> {
    match name {
        "chunks" => chunks::play(played),
        "extents" => extents::play(played),
        "handle" => handle::play(played),
        "heads" => heads::play(played),
        "lines" => lines::play(played),
        "map" => map::play(played),
        "memnet" => memnet::play(played),
        "pieces" => pieces::play(played),
        "plan" => plan::play(played),
        "table" => table::play(played),
        "wires" => wires::play(rt, played),
        _ => bail!("there is no such benchmark"),
    }
}

/// Plays the benchmark that the first word names, and prints what it came to.
fn play(rt: &HostRuntime, words: Args) -> Result<()> {
    let mut played = Played::new(rt.alloc(), words);
    let name = played.word()?;
    play_named(rt, name.as_str(), &mut played)?;
    println!(rt; "{name}: {:?}", played.told())?;
    Ok(())
}

/// The words of a line.
fn words_of(alloc: Global, line: &str) -> Result<Args> {
    let mut words = Vec::new(alloc);
    for word in line.split(' ') {
        words.push(String::from_str(alloc, word)?)?;
    }
    Ok(words.into_iter())
}

fn main(rt: HostRuntime) -> Result<()> {
    let mut words = env::args(&rt)?;
    words.next();
    if words.len() > 0 {
        return play(&rt, words);
    }
    for line in EACH.split('\n') {
        play(&rt, words_of(rt.alloc(), line)?)?;
    }
    Ok(())
}
