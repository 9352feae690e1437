//! Connects the system's sockets to a server and prints the first 18 bytes that it sends, in hex: of an
//! NBD server its hello. For the checks against real servers. It knows nothing of the protocol.
#![tactic(auto)]

ghost use Rattle.std.specs.Prelude.{◌<◌, ◌≤◌, length};

use lnbd_link::{Got, Want, Wires};
use lnbd_model::{Target, Text};
use lnbd_sockets::SocketWires;
use std::alloc::Global;
use std::env;
use std::process::ExitCode;

// The bytes that a server's hello has in the newstyle handshake.
const HELLO: usize = 18;

fn main(rt: HostRuntime) -> anyhow::Result<ExitCode> {
    let alloc = rt.alloc();
    let mut words = env::args(&rt)?.skip(1);
    let Some(to) = target(alloc, words.next(), words.next(), words.next()) else {
        println!(rt; "usage: probe_hello tcp HOST PORT | unix PATH")?;
        return Ok(ExitCode::from(1));
    };
    let mut wires = SocketWires::new(alloc, &rt)?;
    let Ok(link) = wires.connect(&to) else {
        println!(rt; "not connected: {} faults", wires.faults())?;
        return Ok(ExitCode::from(5));
    };
    let mut hello = [0; HELLO];
    let read = fill(&mut wires, link, &mut hello);
    for byte in &hello[..read] {
        print!(rt; "{byte:02x}")?;
    }
    println!(rt; "")?;
    wires.shut(link);
    Ok(ExitCode::from(if read == HELLO { 0 } else { 5 }))
}

// The address that the words name.
fn target(
    alloc: Global,
    kind: Option<String>,
    place: Option<String>,
    port: Option<String>,
) -> Option<Target> {
    let text = Text::from_bytes(alloc, place?.as_bytes()).ok()?;
    match (kind?.as_str(), port) {
        ("tcp", Some(port)) => Some(Target::Tcp {
            host: text,
            port: port.parse().ok()?,
        }),
        ("unix", None) => Some(Target::Unix { path: text }),
        _ => None,
    }
}

// Reads until the slice is full, the peer ends or the link fails, and tells how many bytes came.
fn fill<W: Wires>(wires: &mut W, link: u32, into: &mut [u8]) -> usize
    ensures { result ≤ length into.new }
{
    let mut read = 0;
    for _ in 0..u64::MAX {
        if read >= into.len() {
            break;
        }
        match wires.read(link, &mut into[read..]) {
            Got::Bytes(n) => read += n,
            Got::NotReady => wires.pause(&[Want { link, direction: 1 }]),
            Got::End | Got::Failed => break,
        }
    }
    read
}
