//! Calls of wires as data, and their answers as text.

use lnbd_link::{Accepted, Got, Took, Want, WireFailed, Wires};
use lnbd_model::Target;
use std::alloc::{AllocError, Global};
use std::process::Abort;
use std::str::from_utf8;

/// A call of wires. Reads take up to three bytes, and writes offer five.
#[derive(Clone, Copy)]
pub enum Ask {
    Connect,
    Listen,
    Accept(u32),
    Read(u32),
    Write(u32),
    Pause,
    Shut(u32),
    Faults,
    Idles,
}

fn push_number(text: &mut String, number: u64) -> Result<(), AllocError> {
    write!(text, "{number}")
}

fn push_link(text: &mut String, link: Result<u32, WireFailed>) -> Result<(), AllocError> {
    match link {
        Ok(link) => push_number(text, u64::from(link)),
        Err(_) => text.push_str("failed"),
    }
}

fn push_accepted(text: &mut String, accepted: Accepted) -> Result<(), AllocError> {
    match accepted {
        Accepted::Link(link) => push_number(text, u64::from(link)),
        Accepted::NotReady => text.push_str("not ready"),
        Accepted::Failed => text.push_str("failed"),
    }
}

/// How many bytes came, and all that then stands in the slice.
fn push_got(text: &mut String, got: Got, into: &[u8]) -> Result<(), AllocError> {
    match got {
        Got::Bytes(n) => {
            push_number(text, n as u64)?;
            text.push_str(" ")?;
            text.push_str(from_utf8(into).unwrap_or("?"))
        }
        Got::NotReady => text.push_str("not ready"),
        Got::End => text.push_str("end"),
        Got::Failed => text.push_str("failed"),
    }
}

fn push_took(text: &mut String, took: Took) -> Result<(), AllocError> {
    match took {
        Took::Bytes(n) => push_number(text, n as u64),
        Took::NotReady => text.push_str("not ready"),
        Took::Failed => text.push_str("failed"),
    }
}

/// Makes a call, and appends its answer.
fn push_answer<W: Wires>(
    text: &mut String,
    wires: &mut W,
    ask: Ask,
    to: &Target,
) -> Result<(), AllocError> {
    match ask {
        Ask::Connect => push_link(text, wires.connect(to)),
        Ask::Listen => push_link(text, wires.listen(to)),
        Ask::Accept(listener) => push_accepted(text, wires.accept(listener)),
        Ask::Read(link) => {
            let mut into = *b"...";
            let got = wires.read(link, &mut into);
            push_got(text, got, &into)
        }
        Ask::Write(link) => push_took(text, wires.write(link, b"hello")),
        Ask::Pause => {
            wires.pause(&[Want {
                link: 1,
                direction: 1,
            }]);
            Ok(())
        }
        Ask::Shut(link) => {
            wires.shut(link);
            Ok(())
        }
        Ask::Faults => push_number(text, wires.faults()),
        Ask::Idles => push_number(text, wires.idles()),
    }
}

/// The one comparison of all tests.
pub fn same(rt: &impl Abort, found: &str, wanted: &str) {
    assert_eq!(rt; found, wanted);
}

/// Makes these calls. Their answers, a line each.
pub fn play<W: Wires>(
    alloc: Global,
    wires: &mut W,
    asks: &[Ask],
    to: &Target,
) -> Result<String, AllocError> {
    let mut text = String::new(alloc);
    for ask in asks {
        push_answer(&mut text, wires, *ask, to)?;
        text.push_str(", ")?;
    }
    Ok(text)
}
