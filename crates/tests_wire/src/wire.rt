//! The hello and the heads of the transmission phase: what each reads as, and that what is read is put as the same bytes.

use crate::told::{Told, same};
use lnbd_model::{Kind, NoMemory};
use lnbd_wire::{
    ChunkHead, ExtHead, ExtRequest, HelloRead, Read, RequestHead, SimpleHead, put_chunk_head,
    put_chunk_head_ext, put_disconnect, put_disconnect_ext, put_request, put_request_ext,
    put_simple, read_chunk_head, read_chunk_head_ext, read_hello, read_request, read_request_ext,
    read_simple,
};

#[derive(Clone, Copy)]
enum Head {
    Simple,
    Request,
    Chunk,
    ExtRequest,
    ExtChunk,
    Hello,
}

/// Bytes, and what they tell: the fields in their order, `more`, or another magic.
struct Case {
    head: Head,
    bytes: &'static [u8],
    told: &'static str,
}

// Replies to three requests, an error, and a cookie that nobody asked for; and what is told of other bytes.
static CASES: [Case; 44] = [
    Case {
        head: Head::Simple,
        bytes: b"\x67\x44\x66\x98\0\0\0\0\0\0\0\0\0\0\0\x01",
        told: "value 0 1",
    },
    Case {
        head: Head::Simple,
        bytes: b"\x67\x44\x66\x98\0\0\0\0\0\0\0\0\0\0\0\x02",
        told: "value 0 2",
    },
    Case {
        head: Head::Simple,
        bytes: b"\x67\x44\x66\x98\0\0\0\0\0\0\0\0\0\0\0\x03",
        told: "value 0 3",
    },
    Case {
        head: Head::Simple,
        bytes: b"\x67\x44\x66\x98\0\0\0\x1c\0\0\0\0\0\0\0\x01",
        told: "value 28 1",
    },
    Case {
        head: Head::Simple,
        bytes: b"\x67\x44\x66\x98\0\0\0\0\0\0\0\0\0\0\0\x63",
        told: "value 0 99",
    },
    Case {
        head: Head::Simple,
        bytes: b"\x67\x44\x66\x98\0\0\0\0\0\0\0\0\0\0\0",
        told: "more",
    },
    Case {
        head: Head::Simple,
        bytes: b"\x67\x44\x66",
        told: "more",
    },
    Case {
        head: Head::Simple,
        bytes: b"",
        told: "more",
    },
    Case {
        head: Head::Simple,
        bytes: b"\x44\x66\x98\0\0\0\0\0\0\0\0\0\0\0\x01",
        told: "magic 1147574272",
    },
    Case {
        head: Head::Simple,
        bytes: b"\xff\xff\xff\xff\xff\xff\xff\xff\xff\xff\xff\xff\xff\xff\xff\xff\xff",
        told: "magic 4294967295",
    },
    // A read of 512 bytes from the export's start, a write of 4 that is to be on disk, and the end of a session.
    Case {
        head: Head::Request,
        bytes: b"\x25\x60\x95\x13\0\0\0\0\0\0\0\0\0\0\0\x01\0\0\0\0\0\0\0\0\0\0\x02\0",
        told: "value 0 0 1 0 512",
    },
    Case {
        head: Head::Request,
        bytes: b"\x25\x60\x95\x13\0\x01\0\x01\0\0\0\0\0\0\0\x01\0\0\0\0\0\0\0\0\0\0\0\x04",
        told: "value 1 1 1 0 4",
    },
    Case {
        head: Head::Request,
        bytes: b"\x25\x60\x95\x13\0\0\0\x02\0\0\0\0\0\0\0\0\0\0\0\0\0\0\0\0\0\0\0\0",
        told: "value 0 2 0 0 0",
    },
    Case {
        head: Head::Request,
        bytes: b"\x25\x60\x95\x13\0\0\0\0\0\0\0\0\0\0\0\x01\0\0\0\0\0\0\0\0\0\0\x02",
        told: "more",
    },
    Case {
        head: Head::Request,
        bytes: b"\x25\x60",
        told: "more",
    },
    Case {
        head: Head::Request,
        bytes: b"\0\0\0\0\0\0\0\0\0\0\0\x01\0\0\0\0\0\0\0\0\0\0\x02\0",
        told: "magic 0",
    },
    // Two reads, the first in two chunks, the last of each with DONE.
    Case {
        head: Head::Chunk,
        bytes: b"\x66\x8e\x33\xef\0\0\0\x01\0\0\0\0\0\0\0\x01\0\0\0\x0c",
        told: "value 0 1 1 12",
    },
    Case {
        head: Head::Chunk,
        bytes: b"\x66\x8e\x33\xef\0\x01\0\x01\0\0\0\0\0\0\0\x02\0\0\0\x10",
        told: "value 1 1 2 16",
    },
    Case {
        head: Head::Chunk,
        bytes: b"\x66\x8e\x33\xef\0\x01\0\x01\0\0\0\0\0\0\0\x01\0\0\0\x0c",
        told: "value 1 1 1 12",
    },
    Case {
        head: Head::Chunk,
        bytes: b"\x66\x8e\x33\xef\0\0\0\x01\0\0\0\0\0\0\0\x01\0\0\0",
        told: "more",
    },
    Case {
        head: Head::Chunk,
        bytes: b"\x66",
        told: "more",
    },
    Case {
        head: Head::Chunk,
        bytes: b"\x67\x44\x66\x98",
        told: "magic 1732535960",
    },
    // 6 GiB of zeroes, a write of 4 bytes far into an export, and the end of a session, with extended headers.
    Case {
        head: Head::ExtRequest,
        bytes: b"\x21\xe4\x1c\x71\0\0\0\x06\0\0\0\0\0\0\0\x01\0\0\0\0\0\0\0\0\0\0\0\x01\x80\0\0\0",
        told: "value 0 6 1 0 6442450944",
    },
    Case {
        head: Head::ExtRequest,
        bytes: b"\x21\xe4\x1c\x71\0\x20\0\x01\0\0\0\0\0\0\0\x02\0\0\0\x02\0\0\x10\0\0\0\0\0\0\0\0\x04",
        told: "value 32 1 2 8589938688 4",
    },
    Case {
        head: Head::ExtRequest,
        bytes: b"\x21\xe4\x1c\x71\0\0\0\x02\0\0\0\0\0\0\0\0\0\0\0\0\0\0\0\0\0\0\0\0\0\0\0\0",
        told: "value 0 2 0 0 0",
    },
    Case {
        head: Head::ExtRequest,
        bytes: b"\x21\xe4\x1c\x71\0\0\0\x06\0\0\0\0\0\0\0\x01\0\0\0\0\0\0\0\0\0\0\0\x01",
        told: "more",
    },
    Case {
        head: Head::ExtRequest,
        bytes: b"\x21\xe4\x1c",
        told: "more",
    },
    Case {
        head: Head::ExtRequest,
        bytes: b"\x25\x60\x95\x13",
        told: "magic 627086611",
    },
    Case {
        head: Head::Request,
        bytes: b"\x21\xe4\x1c\x71\0\0\0\x02\0\0\0\0\0\0\0\0\0\0\0\0\0\0\0\0\0\0\0\0\0\0\0\0",
        told: "magic 568597617",
    },
    // The last chunk of a command without data, a block status of one descriptor, and data far into an export.
    Case {
        head: Head::ExtChunk,
        bytes: b"\x6e\x8a\x27\x8c\0\x01\0\0\0\0\0\0\0\0\0\x01\0\0\0\0\0\0\0\0\0\0\0\0\0\0\0\0",
        told: "value 1 0 1 0 0",
    },
    Case {
        head: Head::ExtChunk,
        bytes: b"\x6e\x8a\x27\x8c\0\x01\0\x06\0\0\0\0\0\0\0\x01\0\0\0\0\0\0\0\0\0\0\0\0\0\0\0\x18",
        told: "value 1 6 1 0 24",
    },
    Case {
        head: Head::ExtChunk,
        bytes: b"\x6e\x8a\x27\x8c\0\0\0\x01\0\0\0\0\0\0\0\x02\0\0\0\x02\0\0\x10\0\0\0\0\0\0\0\0\x0c",
        told: "value 0 1 2 8589938688 12",
    },
    Case {
        head: Head::ExtChunk,
        bytes: b"\x6e\x8a\x27\x8c\0\x01\0\0\0\0\0\0\0\0\0\x01\0\0\0\0\0\0\0\0\0\0\0\0\0\0\0",
        told: "more",
    },
    Case {
        head: Head::ExtChunk,
        bytes: b"\x6e\x8a\x27",
        told: "more",
    },
    Case {
        head: Head::ExtChunk,
        bytes: b"\x66\x8e\x33\xef",
        told: "magic 1720595439",
    },
    Case {
        head: Head::Chunk,
        bytes: b"\x6e\x8a\x27\x8c\0\0\0\x01\0\0\0\0\0\0\0\x02\0\0\0\x02\0\0\x10\0\0\0\0\0\0\0\0\x0c",
        told: "magic 1854547852",
    },
    // Both flags, the first alone and none; the oldstyle negotiation's second number.
    Case {
        head: Head::Hello,
        bytes: b"NBDMAGICIHAVEOPT\x00\x03",
        told: "value 3",
    },
    Case {
        head: Head::Hello,
        bytes: b"NBDMAGICIHAVEOPT\0\x01",
        told: "value 1",
    },
    Case {
        head: Head::Hello,
        bytes: b"NBDMAGICIHAVEOPT\0\0",
        told: "value 0",
    },
    Case {
        head: Head::Hello,
        bytes: b"NBDMAGICIHAVEOPT\x00",
        told: "more",
    },
    Case {
        head: Head::Hello,
        bytes: b"NBDMAGICI",
        told: "more",
    },
    Case {
        head: Head::Hello,
        bytes: b"NBDMAGI",
        told: "more",
    },
    Case {
        head: Head::Hello,
        bytes: b"NBDMAGIC\x00\x00\x42\x02\x81\x86\x12\x53",
        told: "second 72578530415187",
    },
    Case {
        head: Head::Hello,
        bytes: b"IHAVEOPT",
        told: "first 5280542401877725268",
    },
];

/// What was read: fields, or the number that stands in place of the magic.
fn push_told(told: &mut Told, word: &str, numbers: &[u64]) {
    told.push(word);
    told.numbers(numbers);
}

fn push_put(told: &mut Told, is_same: bool) {
    if !is_same {
        told.push(", put otherwise");
    }
}

fn simple(told: &mut Told, bytes: &[u8]) {
    match read_simple(bytes) {
        Read::Value(SimpleHead { error, cookie }) => {
            push_told(told, "value", &[error as u64, cookie]);
            let mut out = [0; 16];
            put_simple(error, cookie, &mut out);
            push_put(told, out.as_slice() == bytes);
        }
        Read::NeedMore => push_told(told, "more", &[]),
        Read::BadMagic(magic) => push_told(told, "magic", &[magic as u64]),
    }
}

fn request(told: &mut Told, bytes: &[u8]) {
    match read_request(bytes) {
        Read::Value(head) => {
            let RequestHead {
                flags,
                kind,
                cookie,
                offset,
                length,
            } = head;
            push_told(
                told,
                "value",
                &[flags as u64, kind as u64, cookie, offset, length as u64],
            );
            let mut out = [0; 28];
            match Kind::from_code(kind) {
                Some(kind) => put_request(kind, flags, cookie, offset, length, &mut out),
                None => put_disconnect(&mut out),
            }
            push_put(told, out.as_slice() == bytes);
        }
        Read::NeedMore => push_told(told, "more", &[]),
        Read::BadMagic(magic) => push_told(told, "magic", &[magic as u64]),
    }
}

fn extended_request(told: &mut Told, bytes: &[u8]) {
    match read_request_ext(bytes) {
        Read::Value(head) => {
            let ExtRequest {
                flags,
                kind,
                cookie,
                offset,
                length,
            } = head;
            push_told(
                told,
                "value",
                &[flags as u64, kind as u64, cookie, offset, length],
            );
            let mut out = [0; 32];
            match Kind::from_code(kind) {
                Some(kind) => put_request_ext(kind, flags, cookie, offset, length, &mut out),
                None => put_disconnect_ext(&mut out),
            }
            push_put(told, out.as_slice() == bytes);
        }
        Read::NeedMore => push_told(told, "more", &[]),
        Read::BadMagic(magic) => push_told(told, "magic", &[magic as u64]),
    }
}

fn chunk(told: &mut Told, bytes: &[u8]) {
    match read_chunk_head(bytes) {
        Read::Value(head) => {
            let ChunkHead {
                flags,
                kind,
                cookie,
                length,
            } = head;
            push_told(
                told,
                "value",
                &[flags as u64, kind as u64, cookie, length as u64],
            );
            let mut out = [0; 20];
            put_chunk_head(&head, &mut out);
            push_put(told, out.as_slice() == bytes);
        }
        Read::NeedMore => push_told(told, "more", &[]),
        Read::BadMagic(magic) => push_told(told, "magic", &[magic as u64]),
    }
}

fn extended_chunk(told: &mut Told, bytes: &[u8]) {
    match read_chunk_head_ext(bytes) {
        Read::Value(head) => {
            let ExtHead {
                flags,
                kind,
                cookie,
                offset,
                length,
            } = head;
            push_told(
                told,
                "value",
                &[flags as u64, kind as u64, cookie, offset, length],
            );
            let mut out = [0; 32];
            put_chunk_head_ext(&head, &mut out);
            push_put(told, out.as_slice() == bytes);
        }
        Read::NeedMore => push_told(told, "more", &[]),
        Read::BadMagic(magic) => push_told(told, "magic", &[magic as u64]),
    }
}

fn hello(told: &mut Told, bytes: &[u8]) {
    match read_hello(bytes) {
        HelloRead::Value(flags) => push_told(told, "value", &[flags as u64]),
        HelloRead::NeedMore => push_told(told, "more", &[]),
        HelloRead::BadFirst(magic) => push_told(told, "first", &[magic]),
        HelloRead::BadSecond(magic) => push_told(told, "second", &[magic]),
    }
}

fn push_read(told: &mut Told, head: Head, bytes: &[u8]) {
    match head {
        Head::Simple => simple(told, bytes),
        Head::Request => request(told, bytes),
        Head::Chunk => chunk(told, bytes),
        Head::ExtRequest => extended_request(told, bytes),
        Head::ExtChunk => extended_chunk(told, bytes),
        Head::Hello => hello(told, bytes),
    }
}

#[test]
fn heads_are_put_and_read(rt: HostRuntime) -> Result<(), NoMemory> {
    let mut wrong = Told::new(rt.alloc());
    for case in &CASES {
        let mut told = Told::new(rt.alloc());
        push_read(&mut told, case.head, case.bytes);
        wrong.compare(case.told, told.as_str(), case.told);
    }
    same(&rt, wrong.as_str(), "");
    Ok(())
}
