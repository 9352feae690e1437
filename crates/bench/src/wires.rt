//! Bytes that move over a Unix socket from one of its own links to another, 64 KiB at a time, by the system's sockets as the
//! program uses them. The word: how many bytes. Tells how many came. `bench/wires.rs` does the same in Rust.

ghost use Rattle.std.specs.Prelude.{◌<◌, length};

use crate::played::Played;
use anyhow::{Result, bail};
use lnbd_link::{Accepted, Got, Took, WireFailed, Wires};
use lnbd_model::{Target, Text};
use lnbd_sockets::SocketWires;
use std::{fs, process};

/// How many bytes a read or a write has room for.
const SLICE: usize = 65536;

/// The two ends of a link.
fn ends<W: Wires>(wires: &mut W, at: &Target) -> Result<(u32, u32), WireFailed> {
    let listener = wires.listen(at)?;
    let from = wires.connect(at)?;
    match wires.accept(listener) {
        Accepted::Link(to) => Ok((from, to)),
        Accepted::NotReady | Accepted::Failed => Err(WireFailed),
    }
}

/// Writes on the one link and reads from the other in turns, and tells how many bytes came.
fn pump<W: Wires>(wires: &mut W, from: u32, to: u32, size: u64, buffer: &mut [u8]) -> u64
    requires { 0 < length buffer.old }
{
    let mut sent = 0u64;
    let mut read = 0u64;
    for _ in 0..u64::MAX {
        if sent < size {
            let most = (size - sent).min(buffer.len() as u64) as usize;
            if let Took::Bytes(n) = wires.write(from, &buffer[..most]) {
                sent = sent.saturating_add(n as u64);
            }
        }
        match wires.read(to, buffer) {
            Got::Bytes(n) => read = read.saturating_add(n as u64),
            Got::NotReady => {}
            Got::End | Got::Failed => break,
        }
        if read >= size {
            break;
        }
    }
    read
}

pub fn play(rt: &HostRuntime, played: &mut Played) -> Result<()> {
    let size = played.number()? as u64;
    let alloc = played.alloc();
    let path = format!(in alloc; "/tmp/bench-wires-{}", process::id(rt.process()))?;
    let at = Target::Unix {
        path: Text::from_bytes(alloc, path.as_bytes())?,
    };
    let mut wires = SocketWires::new(alloc, rt)?;
    let mut buffer = vec![in alloc; 1u8; SLICE]?;
    let moved = match ends(&mut wires, &at) {
        Ok((from, to)) => pump(&mut wires, from, to, size, &mut buffer),
        Err(WireFailed) => 0,
    };
    fs::remove_file(rt, path.as_str())?;
    if moved != size {
        bail!("not all bytes came");
    }
    played.tell(moved)
}
