//! Dumps as text. What they expect was worked out by a few lines of Python over the whole list of bytes.

use crate::told::same;
use lnbd_hexdump::Dumper;
use lnbd_model::NoMemory;
use std::str::from_utf8;

/// A step of a dump that is told piece by piece.
enum Step {
    /// A dump begins at this position.
    From(u64),
    /// These bytes come next.
    Bytes(&'static [u8]),
    /// So many zeros come next.
    Zeros(u64),
    /// No more bytes come.
    End,
}

static STEPS: [Step; 37] = [
    // Alike groups, cut within one, and a part of a group.
    Step::From(0),
    Step::Bytes(b"\0\0\0\0\0"),
    Step::Zeros(43),
    Step::Bytes(b"Hi\n"),
    Step::End,
    // One byte, none, and none in pieces.
    Step::From(49),
    Step::Bytes(b"i"),
    Step::End,
    Step::From(49),
    Step::End,
    Step::From(49),
    Step::Bytes(b""),
    Step::Zeros(0),
    Step::End,
    // The last group has its line, though it equals the one before.
    Step::From(0),
    Step::Zeros(32),
    Step::End,
    // Two runs one behind the other have a star each.
    Step::From(0),
    Step::Zeros(48),
    Step::Bytes(b"AAAAAAA"),
    Step::Bytes(b"AAAAAAAAAAAAAAAAAAAAAAAAAAAAAAAAAAAAAAAAA"),
    Step::Bytes(b"A"),
    Step::End,
    // What is a letter, and a position that wants an eleventh digit.
    Step::From(1099511627760),
    Step::Bytes(b"\x1f ~\x7f\x80\xff|\n0123456789"),
    Step::End,
    // Zeros in number behind a part of a group, and as many as positions allow.
    Step::From(7),
    Step::Bytes(b"\xff"),
    Step::Zeros(1000003),
    Step::End,
    Step::From(0),
    Step::Zeros(4611686018427387904),
    Step::Zeros(3),
    Step::Zeros(4611686018427387898),
    Step::Zeros(3),
    Step::Zeros(1),
    Step::End,
];

// A step for which there is no room is told so.
#[test]
fn dumps_are_their_lines(rt: HostRuntime) -> Result<(), NoMemory> {
    let mut text = Vec::new(rt.alloc());
    let mut dumper = Dumper::new(rt.alloc(), 0)?;
    for step in &STEPS {
        match step {
            Step::From(first) => dumper = Dumper::new(rt.alloc(), *first)?,
            Step::Bytes(bytes) if dumper.has_room(bytes.len() as u64) => {
                dumper.feed(bytes, &mut text)?
            }
            Step::Zeros(count) if dumper.has_room(*count) => {
                dumper.feed_zeros(*count, &mut text)?
            }
            Step::End => {
                dumper.end(&mut text)?;
                text.extend_from_slice(b"--\n")?;
            }
            _ => text.extend_from_slice(b"no room\n")?,
        }
    }
    same(
        &rt,
        from_utf8(text.as_slice()).unwrap_or("?"),
        "0000000000: 00 00 00 00 00 00 00 00 00 00 00 00 00 00 00 00  |................|
*
0000000030: 48 69 0a                                         |Hi.|
--
0000000031: 69                                               |i|
--
--
--
0000000000: 00 00 00 00 00 00 00 00 00 00 00 00 00 00 00 00  |................|
0000000010: 00 00 00 00 00 00 00 00 00 00 00 00 00 00 00 00  |................|
--
0000000000: 00 00 00 00 00 00 00 00 00 00 00 00 00 00 00 00  |................|
*
0000000030: 41 41 41 41 41 41 41 41 41 41 41 41 41 41 41 41  |AAAAAAAAAAAAAAAA|
*
0000000060: 41                                               |A|
--
fffffffff0: 1f 20 7e 7f 80 ff 7c 0a 30 31 32 33 34 35 36 37  |. ~...|.01234567|
10000000000: 38 39                                            |89|
--
0000000007: ff 00 00 00 00 00 00 00 00 00 00 00 00 00 00 00  |................|
0000000017: 00 00 00 00 00 00 00 00 00 00 00 00 00 00 00 00  |................|
*
00000f4247: 00 00 00 00                                      |....|
--
0000000000: 00 00 00 00 00 00 00 00 00 00 00 00 00 00 00 00  |................|
*
no room
7ffffffffffffff0: 00 00 00 00 00 00 00 00 00 00 00 00 00 00 00 00  |................|
--
",
    );
    Ok(())
}
