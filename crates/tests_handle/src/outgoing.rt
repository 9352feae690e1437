//! A whole session's bytes in the parts in which they go out, and the own bytes of a write.

use lnbd_model::Bytes;
use lnbd_outgoing::{Piece, Queue, RequestBytes};
use std::test::Fail;

/// The client's flags, and GO for the empty name, which asks for NAME, DESCRIPTION and BLOCK_SIZE.
const TALK: [u8; 32] = *b"\0\0\0\x03IHAVEOPT\0\0\0\x07\0\0\0\x0c\0\0\0\0\0\x03\0\x01\0\x02\0\x03";

/// READ of 512 bytes at 0 with the cookie 1.
const READ: [u8; 28] = *b"\x25\x60\x95\x13\0\0\0\0\0\0\0\0\0\0\0\x01\0\0\0\0\0\0\0\0\0\0\x02\0";

/// WRITE of 3 bytes at 0 with the cookie 1 and the flag PAYLOAD_LEN, with extended headers.
const WRITE: [u8; 32] =
    *b"\x21\xe4\x1c\x71\0\x20\0\x01\0\0\0\0\0\0\0\x01\0\0\0\0\0\0\0\0\0\0\0\0\0\0\0\x03";

const DISC: [u8; 28] = *b"\x25\x60\x95\x13\0\0\0\x02\0\0\0\0\0\0\0\0\0\0\0\0\0\0\0\0\0\0\0\0";

/// The bytes of the write with the cookie 1, where these are offered.
fn own(queue: &Queue) -> &'static [u8] {
    match queue.first_write() {
        Some(1) => b"abc",
        _ => b"",
    }
}

/// All goes out, a part after another, of which each has its size and '.', and '!' where a command ends with it.
fn went(queue: &mut Queue, out: &mut Vec<u8>) -> Result<(), Fail> {
    for _ in 0..8 {
        let own = own(queue);
        out.extend_from_slice(queue.out(own))?;
        let left = queue.left();
        let ends = queue.wrote(left);
        out.push(if ends { b'!' } else { b'.' })?;
    }
    Ok(())
}

#[test]
fn parts_go_out_in_order(rt: HostRuntime) -> Result<(), Fail> {
    let mut queue = Queue::new(rt.alloc())?;
    let talk = Vec::from_slice(rt.alloc(), &TALK)?;
    queue.reserve(4)?;
    queue.push(Piece::Text(Bytes::from_vec(talk)));
    queue.push(Piece::Whole(RequestBytes::Compact(READ)));
    queue.push_write(RequestBytes::Extended(WRITE), 1, 3);
    queue.push_last(Piece::Head(RequestBytes::Compact(DISC)));
    let mut out = Vec::new(rt.alloc());
    let waits = !queue.is_empty();
    went(&mut queue, &mut out)?;
    let empty = queue.is_empty();
    let mut wanted = Vec::new(rt.alloc());
    let parts: [&[u8]; 10] = [
        &TALK, b".", &READ, b"!", &WRITE, b".", b"abc!", &DISC, b".", b"...",
    ];
    for part in parts {
        wanted.extend_from_slice(part)?;
    }
    assert!(rt; waits && empty && out.as_slice() == wanted.as_slice());
    Ok(())
}

#[test]
fn a_part_goes_out_in_pieces(rt: HostRuntime) -> Result<(), Fail> {
    let mut queue = Queue::new(rt.alloc())?;
    queue.reserve(2)?;
    queue.push_write(RequestBytes::Extended(WRITE), 1, 3);
    let mut out = Vec::new(rt.alloc());
    let left = queue.left();
    let mut ended = queue.wrote(left);
    if queue.left() > 1 {
        ended = queue.wrote(1) || ended;
    }
    out.extend_from_slice(queue.out(b"abc"))?;
    queue.clear();
    out.extend_from_slice(queue.out(b"abc"))?;
    assert!(rt; !ended && out.as_slice() == b"bc".as_slice());
    Ok(())
}
