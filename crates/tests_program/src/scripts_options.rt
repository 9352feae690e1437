//! Scripts: options, extended headers, structured replies and callbacks.

use crate::session::hold;
use std::test::Fail;

/// The names of bytes.
const NAMES: &str = "# The client's flags.
FLAGS 00000003
# STRUCTURED_REPLY, and its ACK.
ASK_STRUCTURED 49484156454f5054 00000008 00000000
STRUCTURED 0003e889045565a9 00000008 00000001 00000000
# EXTENDED_HEADERS, and its ACK.
ASK_EXTENDED 49484156454f5054 0000000b 00000000
EXTENDED 0003e889045565a9 0000000b 00000001 00000000
# SET_META_CONTEXT for base:allocation alone.
ASK_ALLOCATION 49484156454f5054 0000000a 0000001b 00000000 00000001 0000000f 626173653a616c6c6f636174696f6e
# GO's reply for an export of 8 GiB with the flags HAS_FLAGS and SEND_WRITE_ZEROES, and its ACK.
GO_LARGE 0003e889045565a9 00000007 00000003 0000000c 0000 0000000200000000 0041
GO_LARGE 0003e889045565a9 00000007 00000001 00000000";

const OPTIONS: &str =
    "= in opt mode the caller asks each option, and the first that is refused decides
<1 HELLO
<1 STRUCTURED
<1 0003e889045565a9 00000003 00000002 00000006 00000001 61 78 0003e889045565a9 00000003 00000001 00000000
<1 0003e889045565a9 0000000a 00000001 00000000
<1 0003e889045565a9 00000006 80000006 00000000
<1 GO
answer→none
opt-list→refused state created
optmode on→ok
structured on→ok
connect tcp localhost 10809→connected
structured off→refused state negotiating
settle→settled
state→opt-mode
opt-list→ok
settle→settled
listing→export \"a\" \"x\"
end
context base:allocation→ok
opt-meta→ok
settle→settled
answer→ok
opt-info→ok
settle→settled
answer→refused 6 6
opt-go→ok
settle→settled
state→ready
opt-list→refused state ready
.last opened 0 freed 0
.err lnbd: peer error option 6 code 6
.status 3
> FLAGS
> ASK_STRUCTURED
> 49484156454f5054 00000003 00000000
> ASK_ALLOCATION
> 49484156454f5054 00000006 0000000c 00000000 0003 0001 0002 0003
> ASK_GO

= an abort ends the connection, and contexts need structured replies
<1 HELLO
<1 nothing
optmode on→ok
connect tcp localhost 10809→connected
settle→settled
opt-meta→refused not-structured
opt-abort→ok
state→closing
settle→settled
state→closed
.last opened 0 freed 0
> FLAGS
> 49484156454f5054 00000002 00000000";

const EXTENDED_HEADERS: &str = "= extended headers carry lengths of 64 bits
<1 HELLO
<1 EXTENDED
<1 GO_LARGE
<1 6e8a278c 0001 0000 0000000000000001 0000000000000000 0000000000000000
extended on→ok
connect tcp localhost 10809→connected
settle→settled
zero 6442450944 0→cookie 1
settle→settled
done 1→done 0 -
.last opened 1 freed 1
> FLAGS
> ASK_EXTENDED
> ASK_GO
> 21e41c71 0000 0006 0000000000000001 0000000000000000 0000000180000000

= of lengths that no export has the greatest is past the end, and one more too many
<1 HELLO
<1 EXTENDED
<1 GO_LARGE
extended on→ok
connect tcp localhost 10809→connected
settle→settled
zero 9223372036854775807 0→refused bounds 8589934592
zero 9223372036854775808 0→refused too-big 9223372036854775807
.last opened 2 freed 2
> FLAGS
> ASK_EXTENDED
> ASK_GO

= without them so many bytes are too many
<1 HELLO
<1 GO_LARGE
connect tcp localhost 10809→connected
settle→settled
zero 6442450944 0→refused too-big 4294967295
.last opened 1 freed 1
> HANDSHAKE

= a simple reply under extended headers breaks the protocol
<1 HELLO
<1 EXTENDED
<1 GO_LARGE
<1 67446698
extended on→ok
connect tcp localhost 10809→connected
settle→settled
pwrite hex:01020304 0→cookie 1
settle→settled
state→dead broke MixedHeaders
.last opened 1 freed 1
.err lnbd: peer broke MixedHeaders
.status 4
> FLAGS
> ASK_EXTENDED
> ASK_GO
> 21e41c71 0020 0001 0000000000000001 0000000000000000 0000000000000004 01020304

= extents come with flags of 64 bits
<1 HELLO
<1 EXTENDED
<1 0003e889045565a9 0000000a 00000004 00000013 00000001 626173653a616c6c6f636174696f6e 0003e889045565a9 0000000a 00000001 00000000
<1 GO
<1 6e8a278c 0001 0006 0000000000000001 0000000000000000 0000000000000018 00000001 00000001 0000000000002000 0000000000000003
extended on→ok
context base:allocation→ok
connect tcp localhost 10809→connected
settle→settled
block-status 8192 0→cookie 1
settle→settled
done 1→done 0 -
heard→extents base:allocation 0 0 8192:3
complete 0 0 -
end
.last opened 2 freed 2
> FLAGS
> ASK_EXTENDED
> ASK_ALLOCATION
> ASK_GO
> 21e41c71 0000 0007 0000000000000001 0000000000000000 0000000000002000";

const CHUNKS: &str = "= chunks of two reads come mixed, and each callback hears its own
<1 HELLO
<1 STRUCTURED
<1 GO
<1 668e33ef 0000 0001 0000000000000001 0000000c 000000
<1 0000000000 11111111 668e33ef 0001 0001 0000000000000002 00000010 0000000000000008 2222222222222222 668e33ef 0001 0001 0000000000000001 0000000c 0000000000000004 33333333
structured on→ok
connect tcp localhost 10809→connected
settle→settled
pread-structured 8 0→cookie 1
pread-structured 8 8→cookie 2
settle→settled
peek→cookie 2
done 1→done 8 11*4 33*4
log→chunk 1 0 4 1 0
chunk 3 8 8 1 0
freed 3
completed 4 0
freed 4
chunk 1 4 4 1 0
freed 1
completed 2 0
freed 2
end
heard→chunk 0 1 0 11*4
chunk 8 1 0 22*8
complete 0 8 22*8
chunk 4 1 0 33*4
complete 0 8 11*4 33*4
end
heard→end
.last opened 4 freed 4
> FLAGS
> ASK_STRUCTURED
> ASK_GO
> 25609513 0000 0000 0000000000000001 0000000000000000 00000008
> 25609513 0000 0000 0000000000000002 0000000000000008 00000008

= a byte that no chunk tells fails its read alone
<1 HELLO
<1 STRUCTURED
<1 GO
<1 668e33ef 0000 0002 0000000000000001 0000000c 0000000000000000 00000008 668e33ef 0000 0001 0000000000000001 0000000f 0000000000000008 55*7 668e33ef 0001 0000 0000000000000001 00000000
structured on→ok
connect tcp localhost 10809→connected
settle→settled
pread 16 0→cookie 1
settle→settled
done 1→failed 71 16 00*16
state→ready
.last opened 1 freed 1
.err lnbd: peer broke Content
.status 4
> FLAGS
> ASK_STRUCTURED
> ASK_GO
> 25609513 0000 0000 0000000000000001 0000000000000000 00000010

= each agreed context is told once
<1 HELLO
<1 STRUCTURED
# base:allocation and qemu:dirty-bitmap:b.
<1 0003e889045565a9 0000000a 00000004 00000013 00000001 626173653a616c6c6f636174696f6e 0003e889045565a9 0000000a 00000004 00000017 00000002 71656d753a64697274792d6269746d61703a62 \
    0003e889045565a9 0000000a 00000001 00000000
<1 GO
<1 668e33ef 0000 0005 0000000000000001 0000000c 00000001 00002000 00000000 668e33ef 0001 0005 0000000000000001 0000000c 00000001 00002000 00000000
<1 668e33ef 0000 0005 0000000000000002 0000000c 00000001 00001000 00000003 668e33ef 0001 0005 0000000000000002 0000000c 00000002 00001000 00000001
structured on→ok
context base:allocation→ok
context qemu:dirty-bitmap:b→ok
connect tcp localhost 10809→connected
settle→settled
info→info 1048576 1 - - - true
context 1 base:allocation
context 2 qemu:dirty-bitmap:b
end
block-status 8192 0→cookie 1
settle→settled
done 1→failed 71 0 -
block-status 8192 0 8→cookie 2
settle→settled
done 2→done 0 -
heard→extents base:allocation 0 0 8192:0
complete 71 0 -
extents base:allocation 0 0 4096:3
extents qemu:dirty-bitmap:b 0 0 4096:1
complete 0 0 -
end
state→ready
.last opened 4 freed 4
.err lnbd: peer broke Content
.status 4
> FLAGS
> ASK_STRUCTURED
> 49484156454f5054 0000000a 00000032 00000000 00000002 0000000f 626173653a616c6c6f636174696f6e 00000013 71656d753a64697274792d6269746d61703a62
> ASK_GO
> 25609513 0000 0007 0000000000000001 0000000000000000 00002000
> 25609513 0008 0007 0000000000000002 0000000000000000 00002000";

const CALLBACKS: &str = "= a completion that answers so retires its command
<1 HELLO
<1 GO
<1 67446698 00000000 0000000000000001 ab*512
connect tcp localhost 10809→connected
settle→settled
auto pread 512 0→cookie 1
settle→settled
done 1→no-such-cookie
log→completed 1 0
freed 1
end
heard→complete 0 512 ab*512
end
close→closed 1 1
state→gone
.last opened 1 freed 1
> HANDSHAKE
> 25609513 0000 0000 0000000000000001 0000000000000000 00000200

= an error of the command's own callback is none of the peer
<1 HELLO
<1 GO
<1 67446698 00000000 0000000000000001 ab*512
connect tcp localhost 10809→connected
settle→settled
fail 5 pread-structured 512 0→cookie 1
settle→settled
done 1→failed 5 512 00*512
log→chunk 1 0 512 1 0
freed 1
completed 2 5
freed 2
end
heard→chunk 0 1 0 ab*512
complete 5 512 00*512
end
.last opened 2 freed 2
> HANDSHAKE
> 25609513 0000 0000 0000000000000001 0000000000000000 00000200

= so is the number of content at fault
<1 HELLO
<1 GO
<1 67446698 00000000 0000000000000001 ab*2
connect tcp localhost 10809→connected
settle→settled
fail 71 pread-structured 2 0→cookie 1
settle→settled
done 1→failed 71 2 00*2
.last opened 2 freed 2
> HANDSHAKE
> 25609513 0000 0000 0000000000000001 0000000000000000 00000002

= the same number is the peer's where the peer told it first
<1 HELLO
<1 GO
<1 67446698 00000005 0000000000000001
connect tcp localhost 10809→connected
settle→settled
fail 5 pread-structured 1 0→cookie 1
settle→settled
heard→complete 5 1 00*1
end
.last opened 2 freed 2
.err lnbd: peer error command 5
.status 3
> HANDSHAKE
> 25609513 0000 0000 0000000000000001 0000000000000000 00000001";

#[test]
fn options_chunks_and_callbacks_are_answered(rt: HostRuntime) -> Result<(), Fail> {
    hold(
        &rt,
        rt.alloc(),
        NAMES,
        &[
            ("", OPTIONS),
            ("", EXTENDED_HEADERS),
            ("", CHUNKS),
            ("", CALLBACKS),
        ],
    )
}
