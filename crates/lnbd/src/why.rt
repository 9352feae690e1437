//! One more line for a person behind a status line, where the environment asks for it: from what the adapter kept of the last call of
//! the system that failed, and of the last bytes that each peer sent. Nothing rests on it, no status and no other output.

use lnbd_sockets::SocketWires;
use std::alloc::Global;
use std::fs::Files;
use std::io;
use std::net::{Net, TcpListener, TcpStream};

/// What has to stand in the environment, and as what.
pub const NAME: &str = "LNBD_WHY";

pub const YES: &str = "1";

/// How many bytes of the status line, and of what came last on each link, are kept.
pub const LINE: usize = 200;

pub const HEARD: usize = 512;

/// Where an error reply has its number: behind its magic, and behind the head of a chunk (NBD protocol, "Simple reply
/// message", "Structured reply chunk message", "Extended reply chunk message").
const SIMPLE: (u32, usize) = (0x67446698, 4);

const STRUCTURED: (u32, usize) = (0x668e33ef, 20);

const EXTENDED: (u32, usize) = (0x6e8a278c, 32);

/// The last four of the eight bytes by which a reply to an option begins, and where its type stands behind them.
const OPTION: (u32, usize) = (0x045565a9, 8);

/// What is added to the number of an error that answers an option.
const ERROR_BIT: u32 = 0x8000_0000;

/// The number at this place, in the order of the net. None where the bytes end before.
fn number_at(bytes: &[u8], at: usize) -> Option<u32> {
    let four = bytes.get(at..at.checked_add(4)?)?;
    Some(u32::from_be_bytes([four[0], four[1], four[2], four[3]]))
}

/// Whether a record that begins with this number tells this error.
fn tells(heard: &[u8], form: (u32, usize), code: u32) -> bool {
    for at in 0..heard.len() {
        if number_at(heard, at) == Some(form.0)
            && number_at(heard, at.saturating_add(form.1)) == Some(code)
        {
            return true;
        }
    }
    false
}

/// Whether a command was answered by this error.
fn tells_command(heard: &[u8], code: u32) -> bool {
    tells(heard, SIMPLE, code) || tells(heard, STRUCTURED, code) || tells(heard, EXTENDED, code)
}

/// The place of the one peer that told this error; None where several may have.
fn teller<'w, R: Net<Listener = TcpListener, Stream = TcpStream> + Files>(
    wires: &'w SocketWires<'_, R>,
    of_option: bool,
    code: u32,
) -> Option<&'w str> {
    let mut found: Option<&'w str> = None;
    for number in 0..wires.count() {
        if let Some((place, heard)) = wires.heard(number) {
            let told = if of_option {
                tells(heard, OPTION, code.wrapping_add(ERROR_BIT))
            } else {
                tells_command(heard, code)
            };
            match found {
                Some(other) if told && other != place => return None,
                _ if told => found = Some(place),
                _ => {}
            }
        }
    }
    found
}

/// The one place that any link led to; None where there were several.
fn only_place<'w, R: Net<Listener = TcpListener, Stream = TcpStream> + Files>(
    wires: &'w SocketWires<'_, R>,
) -> Option<&'w str> {
    let mut found: Option<&'w str> = None;
    for number in 0..wires.count() {
        if let Some((place, _)) = wires.heard(number) {
            match found {
                Some(other) if other != place => return None,
                _ => found = Some(place),
            }
        }
    }
    found
}

/// What a server says by this error of an option (NBD protocol, "Option reply types").
fn of_option(code: u32) -> &'static str {
    match code {
        1 => "does not know what was asked (an old server?)",
        2 => "forbids it by its own rules",
        3 => "found the request faulty",
        4 => "can't do it on its platform",
        5 => "wants TLS, which lnbd does not speak",
        6 => "has no such export (nbdinfo --list tells them)",
        7 => "is shutting down",
        8 => "wants its block sizes asked for",
        9 => "found the request too big",
        _ => "refused an option",
    }
}

/// What a broken rule of the protocol says of the peer, where that is plain.
fn of_breach(name: &str) -> &'static str {
    match name {
        "BadHello" => "is no NBD server",
        "OldStyle" | "NotFixed" => "speaks only an older handshake",
        "Ended" => "ended the connection",
        _ => "broke the protocol (docs/errors.md has the name)",
    }
}

/// Which call of the system failed last, on which place, and what the system says of it.
fn of_link<R: Net<Listener = TcpListener, Stream = TcpStream> + Files>(
    alloc: Global,
    wires: &SocketWires<'_, R>,
) -> Option<String> {
    let failure = wires.failure()?;
    format!(in alloc; "{} {}: {}", failure.asked, failure.place, failure.words).ok()
}

/// What a server says that answered an option by the error of this number.
fn of_option_error<R: Net<Listener = TcpListener, Stream = TcpStream> + Files>(
    alloc: Global,
    number: &str,
    wires: &SocketWires<'_, R>,
    server: &str,
) -> Option<String> {
    let code = number.parse::<u32>().ok()?;
    let place = teller(wires, true, code).unwrap_or(server);
    let said = of_option(code);
    format!(in alloc; "{place} {said}").ok()
}

/// What the system says of the error of this number.
fn of_system(alloc: Global, code: u32) -> Option<String> {
    let error = io::Error::from_raw_os_error(i32::try_from(code).ok()?);
    format!(in alloc; "{error}").ok()
}

/// What a server says that answered a command by the error of this number.
fn of_command_error<R: Net<Listener = TcpListener, Stream = TcpStream> + Files>(
    alloc: Global,
    number: &str,
    wires: &SocketWires<'_, R>,
    server: &str,
) -> Option<String> {
    let code = number.parse::<u32>().ok()?;
    let place = teller(wires, false, code).unwrap_or(server);
    let text = of_system(alloc, code)?;
    let said = text.as_str().split(" (os error ").next().unwrap_or("");
    format!(in alloc; "{place}: {said}").ok()
}

/// The words for a person behind this status line; None where nothing more is known.
pub fn why<R: Net<Listener = TcpListener, Stream = TcpStream> + Files>(
    alloc: Global,
    line: &str,
    wires: &SocketWires<'_, R>,
) -> Option<String> {
    let mut words = line.trim_end().split(' ').skip(1);
    let first = words.next().unwrap_or("");
    let second = words.next().unwrap_or("");
    let third = words.next().unwrap_or("");
    let fourth = words.next().unwrap_or("");
    let last = words.last().unwrap_or("");
    let server = only_place(wires).unwrap_or("one of the servers");
    match (first, second, third) {
        ("usage", _, _) => format!(in alloc; "see lnbd --help").ok(),
        ("link", _, _) => of_link(alloc, wires),
        ("peer", "error", "option") => of_option_error(alloc, last, wires, server),
        ("peer", "error", "command") => of_command_error(alloc, fourth, wires, server),
        ("peer", "broke", name) => format!(in alloc; "{server} {}", of_breach(name)).ok(),
        _ => None,
    }
}
