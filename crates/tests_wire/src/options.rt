//! Options: their requests and replies as they stand on the wire, put and read.

use crate::told::{Told, same, text};
use lnbd_model::{NoMemory, Text, Texts};
use lnbd_options::{
    Info, OptionFault, OptionHead, Read64, Request, put_info, put_meta, put_option, read_asked,
    read_context, read_head, read_info, read_server,
};
use std::alloc::Global;

/// What bytes are read as.
#[derive(Clone, Copy)]
enum Body {
    Asked(u32),
    Head,
    Info,
    Server,
    Context,
}

struct Case {
    body: Body,
    bytes: &'static [u8],
    told: &'static str,
}

static CASES: [Case; 33] = [
    // GO for the export with no name, and one query for a context of the export "a".
    Case {
        body: Body::Asked(7),
        bytes: b"\x00\x00\x00\x00\x00\x03\x00\x01\x00\x02\x00\x03",
        told: "  1 1",
    },
    Case {
        body: Body::Asked(10),
        bytes: b"\x00\x00\x00\x01a\x00\x00\x00\x01\x00\x00\x00\x0fbase:allocation",
        told: " a 1 base:allocation",
    },
    // Bodies that do not fit, and texts that are none; a request of another option is not read.
    Case {
        body: Body::Asked(1),
        bytes: b"\xff",
        told: " bad text",
    },
    Case {
        body: Body::Asked(3),
        bytes: b"x",
        told: " bad length",
    },
    Case {
        body: Body::Asked(11),
        bytes: b"x",
        told: " bad length",
    },
    Case {
        body: Body::Asked(11),
        bytes: b"",
        told: " plain",
    },
    Case {
        body: Body::Asked(5),
        bytes: b"x",
        told: " plain",
    },
    Case {
        body: Body::Asked(6),
        bytes: b"\x00\x00\x00\x00\x00\x01\x00",
        told: " bad length",
    },
    Case {
        body: Body::Asked(10),
        bytes: b"\x00\x00\x00\x01\xff\x00\x00\x00\x00",
        told: " bad text",
    },
    Case {
        body: Body::Asked(10),
        bytes: b"\x00\x00\x00\x01\xff\x00\x00\x00\x01",
        told: " bad length",
    },
    Case {
        body: Body::Asked(10),
        bytes: b"\x00\x00\x00\x00\x00\x00\x00\x00\x00",
        told: " bad length",
    },
    Case {
        body: Body::Asked(10),
        bytes: b"\xff\xff\xff\xff\x00\x00\x00\x00",
        told: " bad length",
    },
    // INFO and ACK to GO, UNSUP and TLS_REQD to GO, ACK to STRUCTURED_REPLY and to EXTENDED_HEADERS, SERVER to LIST, UNKNOWN to INFO.
    Case {
        body: Body::Head,
        bytes: b"\0\x03\xe8\x89\x04\x55\x65\xa9\0\0\0\x07\0\0\0\x03\0\0\0\x0c",
        told: " 7 3 12",
    },
    Case {
        body: Body::Head,
        bytes: b"\0\x03\xe8\x89\x04\x55\x65\xa9\0\0\0\x07\0\0\0\x01\0\0\0\0",
        told: " 7 1 0",
    },
    Case {
        body: Body::Head,
        bytes: b"\0\x03\xe8\x89\x04\x55\x65\xa9\0\0\0\x07\x80\0\0\x01\0\0\0\0",
        told: " 7 2147483649 0",
    },
    Case {
        body: Body::Head,
        bytes: b"\0\x03\xe8\x89\x04\x55\x65\xa9\0\0\0\x07\x80\0\0\x05\0\0\0\0",
        told: " 7 2147483653 0",
    },
    Case {
        body: Body::Head,
        bytes: b"\0\x03\xe8\x89\x04\x55\x65\xa9\0\0\0\x08\0\0\0\x01\0\0\0\0",
        told: " 8 1 0",
    },
    Case {
        body: Body::Head,
        bytes: b"\0\x03\xe8\x89\x04\x55\x65\xa9\0\0\0\x0b\0\0\0\x01\0\0\0\0",
        told: " 11 1 0",
    },
    Case {
        body: Body::Head,
        bytes: b"\0\x03\xe8\x89\x04\x55\x65\xa9\0\0\0\x03\0\0\0\x02\0\0\0\x06",
        told: " 3 2 6",
    },
    Case {
        body: Body::Head,
        bytes: b"\0\x03\xe8\x89\x04\x55\x65\xa9\0\0\0\x06\x80\0\0\x06\0\0\0\0",
        told: " 6 2147483654 0",
    },
    Case {
        body: Body::Head,
        bytes: b"\0\x03\xe8\x89\x04\x55\x65\xa9\0\0\0\x07\0\0\0\x03\0\0\0",
        told: " more",
    },
    Case {
        body: Body::Head,
        bytes: b"\0\x03\xe8\x89\x04\x55\x65",
        told: " more",
    },
    Case {
        body: Body::Head,
        bytes: b"IHAVEOPT",
        told: " magic 5280542401877725268",
    },
    // An export of 1 MiB and one of 2^63 - 1 bytes, with the flags 1; block sizes that count, and such that do not.
    Case {
        body: Body::Info,
        bytes: b"\x00\x00\x00\x00\x00\x00\x00\x10\x00\x00\x00\x01",
        told: " 1048576 1",
    },
    Case {
        body: Body::Info,
        bytes: b"\0\0\x7f\xff\xff\xff\xff\xff\xff\xff\0\x01",
        told: " 9223372036854775807 1",
    },
    Case {
        body: Body::Info,
        bytes: b"\x00\x03\x00\x00\x02\x00\x00\x00\x10\x00\x00\x01\x00\x00",
        told: " 512 4096 65536",
    },
    Case {
        body: Body::Info,
        bytes: b"\x00\x03\x00\x00\x02\x00\x00\x00\x0b\xb8\x00\x01\x00\x00",
        told: " passed",
    },
    Case {
        body: Body::Info,
        bytes: b"\x00",
        told: " bad length",
    },
    Case {
        body: Body::Info,
        bytes: b"\x00\x01\xc0\x80",
        told: " bad text",
    },
    // An export of a list, and a context.
    Case {
        body: Body::Server,
        bytes: b"\x00\x00\x00\x01ax",
        told: " a x",
    },
    Case {
        body: Body::Server,
        bytes: b"\x00\x00\x00\x03ax",
        told: " bad length",
    },
    Case {
        body: Body::Context,
        bytes: b"\x00\x00\x00\x01base:allocation",
        told: " 1 base:allocation",
    },
    Case {
        body: Body::Context,
        bytes: b"\x00\x00\x01",
        told: " bad length",
    },
];

fn fault_name(fault: OptionFault) -> &'static str {
    match fault {
        OptionFault::NoMemory => "no memory",
        OptionFault::BadOptionLength => "bad length",
        OptionFault::BadText => "bad text",
    }
}

fn yes(is: bool) -> u64 {
    if is { 1 } else { 0 }
}

fn push_asked(alloc: Global, told: &mut Told, option: u32, bytes: &[u8]) {
    match read_asked(alloc, option, bytes) {
        Ok(Request::Name(name)) => told.number(name.len() as u64),
        Ok(
            Request::Info {
                name,
                wants_name,
                wants_description,
            },
        ) => {
            told.word(name.as_str());
            told.numbers(&[yes(wants_name), yes(wants_description)]);
        }
        Ok(Request::Meta { name, queries }) => {
            told.word(name.as_str());
            told.number(queries.len() as u64);
            told.word(queries.get(0).map_or("none", Text::as_str));
        }
        Ok(Request::Plain) => told.word("plain"),
        Err(fault) => told.word(fault_name(fault)),
    }
}

fn push_head(told: &mut Told, bytes: &[u8]) {
    match read_head(bytes) {
        Read64::Value(
            OptionHead {
                option,
                kind,
                length,
            },
        ) => { told.numbers(&[option as u64, kind as u64, length as u64]) }
        Read64::NeedMore => told.word("more"),
        Read64::BadMagic(magic) => {
            told.word("magic");
            told.number(magic);
        }
    }
}

fn push_info(alloc: Global, told: &mut Told, bytes: &[u8]) {
    match read_info(alloc, bytes) {
        Ok(Info::Export { size, flags }) => told.numbers(&[size, flags as u64]),
        Ok(Info::Name(name)) => told.word(name.as_str()),
        Ok(Info::Description(description)) => told.word(description.as_str()),
        Ok(Info::Blocks(blocks)) => {
            let (minimum, preferred) = (blocks.minimum as u64, blocks.preferred as u64);
            told.numbers(&[minimum, preferred, blocks.maximum as u64]);
        }
        Ok(Info::Passed) => told.word("passed"),
        Err(fault) => told.word(fault_name(fault)),
    }
}

fn push_server(alloc: Global, told: &mut Told, bytes: &[u8]) {
    match read_server(alloc, bytes) {
        Ok(listed) => {
            told.word(listed.name.as_str());
            told.word(listed.description.as_str());
        }
        Err(fault) => told.word(fault_name(fault)),
    }
}

fn push_context(alloc: Global, told: &mut Told, bytes: &[u8]) {
    match read_context(alloc, bytes) {
        Ok(context) => {
            told.number(context.id as u64);
            told.word(context.name.as_str());
        }
        Err(fault) => told.word(fault_name(fault)),
    }
}

fn push_read(alloc: Global, told: &mut Told, body: Body, bytes: &[u8]) {
    match body {
        Body::Asked(option) => push_asked(alloc, told, option, bytes),
        Body::Head => push_head(told, bytes),
        Body::Info => push_info(alloc, told, bytes),
        Body::Server => push_server(alloc, told, bytes),
        Body::Context => push_context(alloc, told, bytes),
    }
}

#[test]
fn bodies_are_read(rt: HostRuntime) -> Result<(), NoMemory> {
    let mut wrong = Told::new(rt.alloc());
    for case in &CASES {
        let mut told = Told::new(rt.alloc());
        push_read(rt.alloc(), &mut told, case.body, case.bytes);
        wrong.compare(case.told, told.as_str(), case.told);
    }
    let long = vec![in rt.alloc(); 97; 4097]?;
    let mut told = Told::new(rt.alloc());
    push_asked(rt.alloc(), &mut told, 1, &long);
    push_asked(rt.alloc(), &mut told, 1, &long[1..]);
    wrong.compare("long names", told.as_str(), " bad text 4096");
    same(&rt, wrong.as_str(), "");
    Ok(())
}

/// GO for the export with no name; EXPORT_NAME for the empty name, LIST, STRUCTURED_REPLY and EXTENDED_HEADERS; one query for a context of
/// the export "a".
const REQUESTS: &[u8] =
    b"IHAVEOPT\x00\x00\x00\x07\x00\x00\x00\x0c\x00\x00\x00\x00\x00\x03\x00\x01\x00\x02\x00\x03\
IHAVEOPT\0\0\0\x01\0\0\0\0IHAVEOPT\0\0\0\x03\0\0\0\0IHAVEOPT\0\0\0\x08\0\0\0\0IHAVEOPT\0\0\0\x0b\0\0\0\0\
\x00\x00\x00\x01a\x00\x00\x00\x01\x00\x00\x00\x0fbase:allocation";

#[test]
fn requests_are_put(rt: HostRuntime) -> Result<(), NoMemory> {
    let alloc = rt.alloc();
    let mut body = Vec::new(alloc);
    put_info(alloc, &Text::empty(alloc), &mut body)?;
    let mut out = Vec::new(alloc);
    if body.len() == 12 {
        put_option(alloc, 7, &body, &mut out)?;
    }
    for option in [1, 3, 8, 11] {
        put_option(alloc, option, &[], &mut out)?;
    }
    let mut queries = Texts::new(alloc);
    queries.push(text(alloc, "base:allocation")?)?;
    put_meta(alloc, &text(alloc, "a")?, &queries, &mut out)?;
    let told = if out.as_slice() == REQUESTS {
        "put"
    } else {
        "put otherwise"
    };
    same(&rt, told, "put");
    Ok(())
}
