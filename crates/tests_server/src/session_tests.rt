//! Sessions as the bytes of a client and the bytes that go out, cut anywhere, with enough memory.

use crate::client::{BEGIN, DISC};
use crate::told::{Told, same};
use lnbd_model::{NoMemory, Text};
use lnbd_server::{Export, Session, TakeFault, generate};
use std::alloc::Global;

/// The client's flags.
const FLAGS: &[u8] = b"\0\0\0\x03";

/// A read of 4 bytes with cookie 7, and the end.
const REQUESTS: &[u8] = b"\x25\x60\x95\x13\0\0\0\0\0\0\0\0\0\0\0\x07\0\0\0\0\0\0\0\0\0\0\0\x04\
\x25\x60\x95\x13\0\0\0\x02\0\0\0\0\0\0\0\0\0\0\0\0\0\0\0\0\0\0\0\0";

/// What the server sends: its hello; what answers GO, which is size and flags of an export of 64 KiB, the sizes of blocks, and
/// ACK; and the reply to the read.
const SENT: &[u8] = b"NBDMAGICIHAVEOPT\0\x03\
\0\x03\xe8\x89\x04\x55\x65\xa9\0\0\0\x07\0\0\0\x03\0\0\0\x0c\0\0\0\0\0\0\0\x01\0\0\x05\x6d\
\0\x03\xe8\x89\x04\x55\x65\xa9\0\0\0\x07\0\0\0\x03\0\0\0\x0e\0\x03\0\0\0\x01\0\0\x10\0\x02\0\0\0\
\0\x03\xe8\x89\x04\x55\x65\xa9\0\0\0\x07\0\0\0\x01\0\0\0\0\
\x67\x44\x66\x98\0\0\0\0\0\0\0\0\0\0\0\x07\x79\x7a\x7b\x7c";

/// What a client sends first and then, and whether that is no client's.
type Case = (&'static [u8], &'static [u8], bool);

static CASES: [Case; 11] = [
    // Other flags.
    (b"", b"\0\0\0\x04", true),
    (b"", b"\0\0\0\0", true),
    (b"", b"\0\0\0\x07", true),
    (b"", b"\0\0\0\x01", false),
    // Another magic number, too much data, and EXPORT_NAME with another name.
    (FLAGS, b"IHAVEOPX", true),
    (FLAGS, b"IHAVEOPT\0\0\0\x03\0\x02\0\x01", true),
    (FLAGS, b"IHAVEOPT\0\0\0\x01\0\0\0\x01x", true),
    // A reply in place of a request, an extended one, and a write of more than 32 MiB.
    (BEGIN, b"\x67\x44\x66\x98", true),
    (
        BEGIN,
        b"\x21\xe4\x1c\x71\0\0\0\0\0\0\0\0\0\0\0\x07\0\0\0\0\0\0\0\0\0\0\0\0\0\0\0\x04",
        true,
    ),
    (
        BEGIN,
        b"\x25\x60\x95\x13\0\0\0\x01\0\0\0\0\0\0\0\x07\0\0\0\0\0\0\0\0\x02\0\0\x01",
        true,
    ),
    (BEGIN, DISC, false),
];

/// Bytes behind others.
fn joined(alloc: Global, first: &[u8], then: &[u8]) -> Result<Vec<u8>, NoMemory> {
    let mut all = Vec::from_slice(alloc, first)?;
    all.extend_from_slice(then)?;
    Ok(all)
}

/// Makes all pending replies in order.
fn answer_all(session: &mut Session, export: &mut Export) -> Result<(), NoMemory> {
    for _ in 0..session.pending() {
        if session.pending() > 0 {
            session.answer(0, export)?;
        }
    }
    Ok(())
}

/// Hands in bytes, makes all pending replies, and takes what waits to go out.
fn hand_in(
    session: &mut Session,
    bytes: &[u8],
    export: &mut Export,
    sent: &mut Vec<u8>,
) -> Result<(), NoMemory> {
    if let Err(TakeFault::NoMemory { .. }) = session.take(bytes, export) {
        return Err(NoMemory);
    }
    answer_all(session, export)?;
    sent.extend_from_slice(session.out())?;
    let n = session.out().len();
    session.gave(n);
    Ok(())
}

/// Hands in bytes in two parts.
fn hand_in_cut(
    session: &mut Session,
    bytes: &[u8],
    cut: usize,
    export: &mut Export,
    sent: &mut Vec<u8>,
) -> Result<(), NoMemory> {
    let (first, second) = bytes.split_at(cut.min(bytes.len()));
    hand_in(session, first, export, sent)?;
    hand_in(session, second, export, sent)
}

/// Whether bytes that come in two parts are no client's; and what goes out then.
fn is_broken(
    alloc: Global,
    bytes: &[u8],
    cut: usize,
    sent: &mut Vec<u8>,
) -> Result<bool, NoMemory> {
    let mut export = generate(alloc, Text::empty(alloc), 0, 65536, false)?;
    let mut session = Session::new(alloc, true, true)?;
    hand_in_cut(&mut session, bytes, cut, &mut export, sent)?;
    Ok(session.broken())
}

/// This cut of a client's bytes, where what goes out is something else.
fn push_cut(told: &mut Told, alloc: Global, client: &[u8], cut: usize) -> Result<(), NoMemory> {
    let mut sent = Vec::new(alloc);
    let is_broken = is_broken(alloc, client, cut, &mut sent)?;
    if is_broken || sent.as_slice() != SENT {
        told.push("cut ");
        told.numbers(&[cut as u64]);
    }
    Ok(())
}

fn push_cuts(told: &mut Told, alloc: Global) -> Result<(), NoMemory> {
    let client = joined(alloc, BEGIN, REQUESTS)?;
    for cut in 0..=client.len() {
        push_cut(told, alloc, &client, cut)?;
    }
    Ok(())
}

/// This case, where it comes to something else.
fn push_case(told: &mut Told, alloc: Global, row: u64, case: &Case) -> Result<(), NoMemory> {
    let bytes = joined(alloc, case.0, case.1)?;
    let mut sent = Vec::new(alloc);
    if is_broken(alloc, &bytes, 0, &mut sent)? != case.2 {
        told.push("case ");
        told.numbers(&[row]);
    }
    Ok(())
}

fn push_cases(told: &mut Told, alloc: Global) -> Result<(), NoMemory> {
    for (row, case) in CASES.iter().enumerate() {
        push_case(told, alloc, row as u64, case)?;
    }
    Ok(())
}

// A read by simple replies, all in one piece and cut at each byte; and bytes that are no client's.
#[test]
fn sessions_are_answered_however_they_are_cut(rt: HostRuntime) -> Result<(), NoMemory> {
    let mut told = Told::new(rt.alloc());
    push_cuts(&mut told, rt.alloc())?;
    push_cases(&mut told, rt.alloc())?;
    same(&rt, &told, "");
    Ok(())
}
