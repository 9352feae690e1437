//! nbddump: what is printed of an export, what is asked of its server, and why no more is printed.

use crate::session::hold;
use std::alloc::Global;
use std::test::Fail;

/// The names of bytes.
const NAMES: &str = "# GO's reply for an export of 51 bytes with the flags 1, and its ACK.
GO_51 0003e889045565a9 00000007 00000003 0000000c 0000 0000000000000033 0001
GO_51 0003e889045565a9 00000007 00000001 00000000
# The same for an export of no bytes.
GO_0 0003e889045565a9 00000007 00000003 0000000c 0000 0000000000000000 0001
GO_0 0003e889045565a9 00000007 00000001 00000000
# The same for an export of 5,000 bytes in blocks of 4,096.
GO_5000 0003e889045565a9 00000007 00000003 0000000c 0000 0000000000001388 0001
GO_5000 0003e889045565a9 00000007 00000003 0000000e 0003 00001000 00001000 02000000
GO_5000 0003e889045565a9 00000007 00000001 00000000
# The same for an export of 8,192 bytes in blocks of 4,096.
GO_8192 0003e889045565a9 00000007 00000003 0000000c 0000 0000000000002000 0001
GO_8192 0003e889045565a9 00000007 00000003 0000000e 0003 00001000 00001000 02000000
GO_8192 0003e889045565a9 00000007 00000001 00000000
# Neither EXTENDED_HEADERS nor STRUCTURED_REPLY is known.
PLAIN 0003e889045565a9 0000000b 80000001 00000000
PLAIN 0003e889045565a9 00000008 80000001 00000000
# 48 bytes are told as zero, and three that are not.
ZEROS 668e33ef 0001 0005 0000000000000001 00000014 00000001 00000030 00000003 00000003 00000000
# One byte is told that is not zero.
BYTE 668e33ef 0001 0005 0000000000000001 0000000c 00000001 00000001 00000000
# The last three bytes, and the one in their middle.
LAST 668e33ef 0001 0001 0000000000000002 0000000b 0000000000000030 48690a
MIDDLE 668e33ef 0001 0001 0000000000000002 00000009 0000000000000031 69
# BLOCK_STATUS of all bytes, READ of the last three, and READ of all where nothing is asked before.
ASK_STATUS 25609513 0000 0007 0000000000000001 0000000000000000 00000033
ASK_LAST 25609513 0000 0000 0000000000000002 0000000000000030 00000003
ASK_BYTES 25609513 0000 0000 0000000000000001 0000000000000000 00000033";

/// An export is dumped over a link.
const DUMP: &str = ".words nbddump nbd://h";

const DUMPED: &str = "= zeros that are not read, and what follows
<1 HELLO
<1 AGREED
<1 GO_51
<1 ZEROS
<1 LAST
.last 0000000000: 00 00 00 00 00 00 00 00 00 00 00 00 00 00 00 00  |................|
.last *
.last 0000000030: 48 69 0a                                         |Hi.|
> ASK_ALL
> ASK_GO
> ASK_STATUS
> ASK_LAST
> DISC

= one byte
.words nbddump --offset 49 --length 1 nbd://h
<1 HELLO
<1 AGREED
<1 GO_51
<1 BYTE
<1 MIDDLE
.last 0000000031: 69                                               |i|
> ASK_ALL
> ASK_GO
> 25609513 0000 0007 0000000000000001 0000000000000031 00000001
> 25609513 0000 0000 0000000000000002 0000000000000031 00000001
> DISC

= an export of no bytes
<1 HELLO
<1 AGREED
<1 GO_0
> ASK_ALL
> ASK_GO
> DISC

= no bytes at the end
.words nbddump --offset 51 nbd://h
<1 HELLO
<1 AGREED
<1 GO_51
> ASK_ALL
> ASK_GO
> DISC

= all is read where no status is agreed
<1 HELLO
<1 NOT_AGREED
<1 GO_51
<1 668e33ef 0001 0001 0000000000000001 0000003b 0000000000000000 00*48 48690a
.last 0000000000: 00 00 00 00 00 00 00 00 00 00 00 00 00 00 00 00  |................|
.last *
.last 0000000030: 48 69 0a                                         |Hi.|
> ASK_ALL
> ASK_GO
> ASK_BYTES
> DISC

= all is read where no structured replies are known
<1 HELLO
<1 PLAIN
<1 GO_51
<1 67446698 00000000 0000000000000001 00*48 48690a
.last 0000000000: 00 00 00 00 00 00 00 00 00 00 00 00 00 00 00 00  |................|
.last *
.last 0000000030: 48 69 0a                                         |Hi.|
> 00000003 49484156454f5054 0000000b 00000000 49484156454f5054 00000008 00000000
> ASK_GO
> ASK_BYTES
> DISC

= extents of one byte, of which the one in the middle is told as zero
.words nbddump nbd://h --offset=48
<1 HELLO
<1 AGREED
<1 GO_51
<1 668e33ef 0001 0005 0000000000000001 0000001c 00000001 00000001 00000000 00000001 00000003 00000001 00000000
<1 668e33ef 0001 0001 0000000000000002 00000009 0000000000000030 48
<1 668e33ef 0001 0001 0000000000000003 00000009 0000000000000032 0a
.last 0000000030: 48 00 0a                                         |H..|
> ASK_ALL
> ASK_GO
> 25609513 0000 0007 0000000000000001 0000000000000030 00000003
> 25609513 0000 0000 0000000000000002 0000000000000030 00000001
> 25609513 0000 0000 0000000000000003 0000000000000032 00000001
> DISC

= whole blocks are asked for and read; one told as zero in part is read, and one told whole is not
.words nbddump --length=2 --offset=4095 nbd://h
.uncut
.wires-room 16384
<1 HELLO
<1 AGREED
<1 GO_8192
# One byte that is zero.
<1 668e33ef 0001 0005 0000000000000001 0000000c 00000001 00000001 00000003
<1 668e33ef 0001 0001 0000000000000002 00001008 0000000000000000 00*4095 41
<1 668e33ef 0001 0005 0000000000000003 0000000c 00000001 00001000 00000003
.last 0000000fff: 41 00                                            |A.|
> ASK_ALL
> ASK_GO
> 25609513 0000 0007 0000000000000001 0000000000000000 00002000
> 25609513 0000 0000 0000000000000002 0000000000000000 00001000
> 25609513 0000 0007 0000000000000003 0000000000001000 00001000
> DISC";

const NOT_DUMPED: &str = "= an offset past the end
.words nbddump --offset 52 nbd://h
<1 HELLO
<1 AGREED
<1 GO_51
.err lnbd: rule range 52 0 51
.status 6
> ASK_ALL
> ASK_GO
> DISC

= a length past the end
.words nbddump --length=18446744073709551615 nbd://h --offset=1
<1 HELLO
<1 AGREED
<1 GO_51
.err lnbd: rule range 1 18446744073709551615 51
.status 6
> ASK_ALL
> ASK_GO
> DISC

= last bytes that lie in no whole block
.words nbddump --offset 4096 --length 3 nbd://h
<1 HELLO
<1 AGREED
<1 GO_5000
.err lnbd: rule uneven 5000 4096
.status 6
> ASK_ALL
> ASK_GO
> DISC

= a read that is answered by an error: what was printed before stays
<1 HELLO
<1 AGREED
<1 GO_51
<1 ZEROS
<1 668e33ef 0001 8001 0000000000000002 00000006 00000005 0000
.last 0000000000: 00 00 00 00 00 00 00 00 00 00 00 00 00 00 00 00  |................|
.last *
.err lnbd: peer error command 5
.status 3
> ASK_ALL
> ASK_GO
> ASK_STATUS
> ASK_LAST

= a server that ends the connection
<1 HELLO
<1 AGREED
<1 GO_51
.err lnbd: peer broke Ended
.status 4
> ASK_ALL
> ASK_GO
> ASK_STATUS

= an agreed context of which nothing is told
<1 HELLO
<1 AGREED
<1 GO_51
<1 668e33ef 0001 0000 0000000000000001 00000000
.err lnbd: peer broke Content
.status 4
> ASK_ALL
> ASK_GO
> ASK_STATUS

= a server that refuses the export
<1 HELLO
<1 AGREED
<1 0003e889045565a9 00000007 80000006 00000000
.err lnbd: peer error option 7 code 6
.status 3
> ASK_ALL
> ASK_GO

= a server that is silent
.pause 500000000
<1 nothing
<1 nothing
<1 nothing
.err lnbd: peer silent
.status 7
.waited 1000000000

= a link that can't be had
.unreachable
.err lnbd: link fault
.status 5

= an output that fails
.uncut
.output-fails-at 0
<1 HELLO
<1 AGREED
<1 GO_51
<1 ZEROS
<1 LAST
.err lnbd: output fault
.status 8
> ASK_ALL
> ASK_GO
> ASK_STATUS
> ASK_LAST";

/// Of how many bytes the status is asked at once, and how often it is asked of a terabyte.
const AT_ONCE: u64 = 134_217_728;

const QUESTIONS: u64 = 8192;

/// A terabyte of zeros, but for the replies to all questions, and for what goes out.
const TERABYTE: &str = "= a terabyte of zeros is three lines, and no byte of it is read
.uncut
.words nbddump nbd://h
.wires-room 1048576
<1 HELLO
<1 AGREED
# GO's reply for an export of a terabyte with the flags 1, and its ACK.
<1 0003e889045565a9 00000007 00000003 0000000c 0000 0000010000000000 0001 0003e889045565a9 00000007 00000001 00000000
.last 0000000000: 00 00 00 00 00 00 00 00 00 00 00 00 00 00 00 00  |................|
.last *
.last fffffffff0: 00 00 00 00 00 00 00 00 00 00 00 00 00 00 00 00  |................|";

/// Appends the replies to all questions: all is told as zero.
fn push_replies(text: &mut String) -> Result<(), Fail> {
    for number in 0..QUESTIONS {
        let cookie = number.saturating_add(1);
        write!(text, "\n<1 668e33ef 0001 0005 {cookie:016x}")?;
        text.push_str(" 0000000c 00000001 08000000 00000003")?;
    }
    Ok(())
}

/// Appends all questions.
fn push_questions(text: &mut String) -> Result<(), Fail> {
    for number in 0..QUESTIONS {
        let cookie = number.saturating_add(1);
        let offset = number.saturating_mul(AT_ONCE);
        write!(
            text,
            "\n> 25609513 0000 0007 {cookie:016x} {offset:016x} 08000000"
        )?;
    }
    Ok(())
}

fn terabyte(alloc: Global) -> Result<String, Fail> {
    let mut text = String::from_str(alloc, TERABYTE)?;
    push_replies(&mut text)?;
    text.push_str("\n> ASK_ALL\n> ASK_GO")?;
    push_questions(&mut text)?;
    text.push_str("\n> DISC")?;
    Ok(text)
}

#[test]
fn a_terabyte_of_zeros_is_dumped(rt: HostRuntime) -> Result<(), Fail> {
    let text = terabyte(rt.alloc())?;
    hold(&rt, rt.alloc(), "", &[("", text.as_str())])
}

#[test]
fn exports_are_dumped_over_a_link(rt: HostRuntime) -> Result<(), Fail> {
    hold(
        &rt,
        rt.alloc(),
        NAMES,
        &[(DUMP, DUMPED), (DUMP, NOT_DUMPED)],
    )
}
