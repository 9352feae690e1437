//! What is told of an export, and its map, over links in memory. The replies are spelled as the NBD protocol has them.

use crate::asks::same;
use crate::peer::{Peer, Told, address, wires_to};
use lnbd_ask::{InfoFault, collect, map};
use lnbd_link::ListWires;
use lnbd_model::{Broken, Place, Text};
use std::alloc::{AllocError, Global};
use std::test::Fail;

/// The server's hello.
const HELLO: Told<'static> = Told::Bytes(b"NBDMAGICIHAVEOPT\0\x03");

/// It doesn't know EXTENDED_HEADERS, acknowledges STRUCTURED_REPLY, and agrees to base:allocation under the number 1.
const AGREED: Told<'static> = Told::Bytes(
    b"\0\x03\xe8\x89\x04\x55\x65\xa9\0\0\0\x0b\x80\0\0\x01\0\0\0\0\
\0\x03\xe8\x89\x04\x55\x65\xa9\0\0\0\x08\0\0\0\x01\0\0\0\0\
\0\x03\xe8\x89\x04\x55\x65\xa9\0\0\0\x0a\0\0\0\x04\0\0\0\x13\0\0\0\x01base:allocation\
\0\x03\xe8\x89\x04\x55\x65\xa9\0\0\0\x0a\0\0\0\x01\0\0\0\0",
);

/// The same, but it agrees to no context.
const NOT_AGREED: Told<'static> = Told::Bytes(
    b"\0\x03\xe8\x89\x04\x55\x65\xa9\0\0\0\x0b\x80\0\0\x01\0\0\0\0\
\0\x03\xe8\x89\x04\x55\x65\xa9\0\0\0\x08\0\0\0\x01\0\0\0\0\
\0\x03\xe8\x89\x04\x55\x65\xa9\0\0\0\x0a\0\0\0\x01\0\0\0\0",
);

/// GO's reply for an export of 4,096 bytes with the flags 1, and its ACK.
const SMALL: Told<'static> = Told::Bytes(
    b"\0\x03\xe8\x89\x04\x55\x65\xa9\0\0\0\x07\0\0\0\x03\0\0\0\x0c\0\0\0\0\0\0\0\0\x10\0\0\x01\
\0\x03\xe8\x89\x04\x55\x65\xa9\0\0\0\x07\0\0\0\x01\0\0\0\0",
);

/// The same of 16,384 bytes.
const LARGE: Told<'static> = Told::Bytes(
    b"\0\x03\xe8\x89\x04\x55\x65\xa9\0\0\0\x07\0\0\0\x03\0\0\0\x0c\0\0\0\0\0\0\0\0\x40\0\0\x01\
\0\x03\xe8\x89\x04\x55\x65\xa9\0\0\0\x07\0\0\0\x01\0\0\0\0",
);

/// The same of 8,292 bytes with block sizes of 4,096, 4,096 and 65,536.
const BLOCKS: Told<'static> = Told::Bytes(
    b"\0\x03\xe8\x89\x04\x55\x65\xa9\0\0\0\x07\0\0\0\x03\0\0\0\x0c\0\0\0\0\0\0\0\0\x20\x64\0\x01\
\0\x03\xe8\x89\x04\x55\x65\xa9\0\0\0\x07\0\0\0\x03\0\0\0\x0e\0\x03\0\0\x10\0\0\0\x10\0\0\x01\0\0\
\0\x03\xe8\x89\x04\x55\x65\xa9\0\0\0\x07\0\0\0\x01\0\0\0\0",
);

/// GO is answered by TLS_REQD.
const NO_GO: Told<'static> = Told::Bytes(
    b"\0\x03\xe8\x89\x04\x55\x65\xa9\0\0\0\x07\x80\0\0\x05\0\0\0\0",
);

/// The last chunk of the first block status, with one descriptor of the context 1: of no bytes, of 512 with the flags 3, and of 4,096.
const NO_BYTES: Told<'static> = Told::Bytes(
    b"\x66\x8e\x33\xef\0\x01\0\x05\0\0\0\0\0\0\0\x01\0\0\0\x0c\0\0\0\x01\0\0\0\0\0\0\0\0",
);

const HALF_A_KIB: Told<'static> = Told::Bytes(
    b"\x66\x8e\x33\xef\0\x01\0\x05\0\0\0\0\0\0\0\x01\0\0\0\x0c\0\0\0\x01\0\0\x02\0\0\0\0\x03",
);

const FIRST: Told<'static> = Told::Bytes(
    b"\x66\x8e\x33\xef\0\x01\0\x05\0\0\0\0\0\0\0\x01\0\0\0\x0c\0\0\0\x01\0\0\x10\0\0\0\0\0",
);

/// Of the second: 65,280 bytes with the flags 2, and 4,096 with the flags 3. Of the third and the fourth: 4,096 bytes.
const TOO_MANY: Told<'static> = Told::Bytes(
    b"\x66\x8e\x33\xef\0\x01\0\x05\0\0\0\0\0\0\0\x02\0\0\0\x0c\0\0\0\x01\0\0\xff\0\0\0\0\x02",
);

const SECOND: Told<'static> = Told::Bytes(
    b"\x66\x8e\x33\xef\0\x01\0\x05\0\0\0\0\0\0\0\x02\0\0\0\x0c\0\0\0\x01\0\0\x10\0\0\0\0\x03",
);

const THIRD: Told<'static> = Told::Bytes(
    b"\x66\x8e\x33\xef\0\x01\0\x05\0\0\0\0\0\0\0\x03\0\0\0\x0c\0\0\0\x01\0\0\x10\0\0\0\0\x03",
);

const FOURTH: Told<'static> = Told::Bytes(
    b"\x66\x8e\x33\xef\0\x01\0\x05\0\0\0\0\0\0\0\x04\0\0\0\x0c\0\0\0\x01\0\0\x10\0\0\0\0\0",
);

/// The command of the cookie 1 failed with EIO.
const FAILED: Told<'static> = Told::Bytes(
    b"\x66\x8e\x33\xef\0\x01\x80\x01\0\0\0\0\0\0\0\x01\0\0\0\x06\0\0\0\x05\0\0",
);

/// A peer that ends the connection at once.
const ENDING: Peer<'static> = Peer {
    fails: false,
    reads: &[],
    writes: &[],
};

/// Peers that are asked what they tell of the export.
const TELLING: &[Peer] = &[
    Peer {
        reads: &[HELLO, Told::Nothing, AGREED, SMALL],
        ..ENDING
    },
    Peer {
        fails: true,
        ..ENDING
    },
    ENDING,
    // Nothing comes, and each pause lasts 500,000,000.
    Peer {
        reads: &[Told::Nothing, Told::Nothing, Told::Nothing],
        ..ENDING
    },
    Peer {
        reads: &[HELLO, AGREED, NO_GO],
        ..ENDING
    },
];

/// Size, flags, how many contexts, and which of structured replies and extended headers are on; or the cause.
const TOLD: &str = "4096 1 1 structured, link 0 1, ended, silent 1000000000, option 7 5, ";

/// Peers that are asked for the map of base:allocation.
const MAPPED: &[Peer] = &[
    // Equal neighbours are joined.
    Peer {
        reads: &[HELLO, AGREED, LARGE, FIRST, SECOND, THIRD, FOURTH],
        ..ENDING
    },
    // Of the first block 512 bytes are told, of the second more than there is; 100 bytes cannot be asked for.
    Peer {
        reads: &[HELLO, AGREED, BLOCKS, HALF_A_KIB, TOO_MANY],
        ..ENDING
    },
    Peer {
        reads: &[HELLO, NOT_AGREED, LARGE],
        ..ENDING
    },
    Peer {
        reads: &[HELLO, AGREED, LARGE, FAILED],
        ..ENDING
    },
    Peer {
        reads: &[HELLO, AGREED, LARGE, NO_BYTES],
        ..ENDING
    },
];

/// Length and flags of each extent, or the cause.
const MAPS: &str = "4096 0 8192 3 4096 0 , 4096 3 4096 2 100 0 , no context, command 5, content, ";

fn push_fault(text: &mut String, fault: InfoFault) -> Result<(), AllocError> {
    match fault {
        InfoFault::NoMemory => text.push_str("no memory"),
        InfoFault::Link { before, after } => write!(text, "link {before} {after}"),
        InfoFault::Broke(Broken::Ended) => text.push_str("ended"),
        InfoFault::Broke(Broken::Content) => text.push_str("content"),
        InfoFault::Broke(_) => text.push_str("broke"),
        InfoFault::Peer {
            option: Some(option),
            code,
        } => write!(text, "option {option} {code}"),
        InfoFault::Peer { option: None, code } => write!(text, "command {code}"),
        InfoFault::Silent { idles } => write!(text, "silent {idles}"),
        InfoFault::NoContext => text.push_str("no context"),
    }
}

/// What the peer behind these wires tells of the export.
fn push_told(
    text: &mut String,
    alloc: Global,
    place: &Place,
    wires: &mut ListWires,
) -> Result<(), AllocError> {
    let info = match collect(alloc, place, wires) {
        Ok(found) => found.info,
        Err(fault) => return push_fault(text, fault),
    };
    let count = info.contexts.len();
    write!(text, "{} {} {count}", info.size, info.flags)?;
    if info.structured {
        text.push_str(" structured")?;
    }
    if info.extended {
        text.push_str(" extended")?;
    }
    Ok(())
}

/// The map that the peer behind these wires tells.
fn push_map(
    text: &mut String,
    alloc: Global,
    place: &Place,
    context: &Text,
    wires: &mut ListWires,
) -> Result<(), AllocError> {
    match map(alloc, place, context, wires) {
        Ok(extents) => {
            for extent in extents.as_slice() {
                write!(text, "{} {} ", extent.length, extent.flags)?;
            }
            Ok(())
        }
        Err(fault) => push_fault(text, fault),
    }
}

/// What each of the first peers tells of the export.
fn push_all_told(text: &mut String, alloc: Global, place: &Place) -> Result<(), Fail> {
    for peer in TELLING {
        let mut wires = wires_to(alloc, peer, &ENDING, 10_000, 500_000_000)?;
        push_told(text, alloc, place, &mut wires)?;
        text.push_str(", ")?;
    }
    Ok(())
}

/// The map that each of the others tells.
fn push_maps(text: &mut String, alloc: Global, place: &Place, context: &Text) -> Result<(), Fail> {
    for peer in MAPPED {
        let mut wires = wires_to(alloc, peer, &ENDING, 10_000, 500_000_000)?;
        push_map(text, alloc, place, context, &mut wires)?;
        text.push_str(", ")?;
    }
    Ok(())
}

fn place_of(alloc: Global) -> Result<Place, Fail> {
    Ok(Place {
        to: address(alloc, b"ab")?,
        name: Text::from_bytes(alloc, b"disk")?,
    })
}

#[test]
fn an_export_is_told(rt: HostRuntime) -> Result<(), Fail> {
    let place = place_of(rt.alloc())?;
    let mut found = String::new(rt.alloc());
    push_all_told(&mut found, rt.alloc(), &place)?;
    same(&rt, found.as_str(), TOLD);
    Ok(())
}

#[test]
fn an_export_is_mapped(rt: HostRuntime) -> Result<(), Fail> {
    let place = place_of(rt.alloc())?;
    let context = Text::from_bytes(rt.alloc(), b"base:allocation")?;
    let mut found = String::new(rt.alloc());
    push_maps(&mut found, rt.alloc(), &place, &context)?;
    same(&rt, found.as_str(), MAPS);
    Ok(())
}
