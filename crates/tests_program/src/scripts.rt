//! Scripts: handshakes, reads and other commands, and the answer of each line in each state.

use crate::session::hold;
use std::test::Fail;

/// The names of bytes.
const NAMES: &str = "# Replies to the third, the first and the second of three reads.
DISORDERED 67446698 00000000 0000000000000003 33
DISORDERED 67446698 00000000 0000000000000001 11
DISORDERED 67446698 00000000 0000000000000002 22";

const READS: &str = "= a read and the end
<1 HELLO
<1 GO
<1 67446698 00000000 0000000000000001 ab*512
connect tcp localhost 10809→connected
settle→settled
state→ready
pread 512 0→cookie 1
settle→settled
log→completed 1 0
freed 1
end
done 1→done 512 ab*512
disconnect→ok
settle→settled
.last opened 1 freed 1
# The read, and DISC.
> HANDSHAKE
> 25609513 0000 0000 0000000000000001 0000000000000000 00000200
> 25609513 0000 0002 0000000000000000 0000000000000000 00000000

= a read of nothing is refused and its callback freed
<1 HELLO
<1 GO
connect tcp localhost 10809→connected
settle→settled
pread 0 0→refused zero-size
log→freed 1
end
.last opened 1 freed 1
> HANDSHAKE

= what a head announces is read straight into its place, but for the last byte
.uncut
.wires-room 262144
<1 HELLO
<1 GO
<1 67446698 00000000 0000000000000001 ab*200000
connect tcp localhost 10809→connected
settle→settled
pread 200000 0→cookie 1
write→moved 28
read→moved 65536
read→moved 134479
read→moved 1
done 1→done 200000 ab*200000
.last opened 1 freed 1
> HANDSHAKE
> 25609513 0000 0000 0000000000000001 0000000000000000 00030d40

= an error of the peer fails its command alone
<1 HELLO
<1 GO
<1 67446698 00000005 0000000000000001 67446698 00000000 0000000000000002 ab*2 cd
connect tcp localhost 10809→connected
settle→settled
pread 512 0→cookie 1
pread 3 512→cookie 2
settle→settled
state→ready
log→completed 1 5
freed 1
completed 2 0
freed 2
end
done 1→failed 5 512 00*512
done 2→done 3 ab*2 cd*1
.last opened 2 freed 2
.err lnbd: peer error command 5
.status 3
> HANDSHAKE
> 25609513 0000 0000 0000000000000001 0000000000000000 00000200
> 25609513 0000 0000 0000000000000002 0000000000000200 00000003";

const COMMANDS: &str = "= each command is written with its flags, and each reply goes to its own
<1 HELLO
# The flags tell FLUSH, FUA, TRIM, WRITE_ZEROES and CACHE.
<1 0003e889045565a9 00000007 00000003 0000000c 0000 0000000000100000 056d 0003e889045565a9 00000007 00000001 00000000
<1 67446698 0000001c 0000000000000001
<1 67446698 00000000 0000000000000005 67446698 00000000 0000000000000002 67446698 00000000 0000000000000004 67446698 00000000 0000000000000003
connect tcp localhost 10809→connected
settle→settled
pwrite hex:01020304 0 1→cookie 1
settle→settled
done 1→failed 28 4 01*1 02*1 03*1 04*1
flush→cookie 2
zero 4096 0 2→cookie 3
cache 4096 0→cookie 4
trim 4096 0→cookie 5
trim 4096 0 2→refused bad-flags 2
settle→settled
peek→cookie 5
done 2→done 0 -
done 3→done 0 -
done 4→done 0 -
done 5→done 0 -
.last opened 6 freed 6
.err lnbd: peer error command 28
.status 3
> HANDSHAKE
> 25609513 0001 0001 0000000000000001 0000000000000000 00000004 01020304
> 25609513 0000 0003 0000000000000002 0000000000000000 00000000
> 25609513 0002 0006 0000000000000003 0000000000000000 00001000
> 25609513 0000 0005 0000000000000004 0000000000000000 00001000
> 25609513 0000 0004 0000000000000005 0000000000000000 00001000

= a fill goes out as its bytes, behind the head of its write
.by-lines 2
<1 HELLO
<1 GO
<1 67446698 00000000 0000000000000001
connect tcp localhost 10809→connected
settle→settled
pwrite fill:0f:300 512→cookie 1
pwrite hex: 0→refused zero-size
write→moved 28
write→moved 300
write→idle
read→moved 16
done 1→done 300 0f*300
.last opened 2 freed 2
> HANDSHAKE
> 25609513 0000 0001 0000000000000001 0000000000000200 0000012c 0f*300

= what the export lacks and what its blocks do not allow is refused
<1 HELLO
# READ_ONLY, and blocks of 512, 4,096 and 65,536 bytes.
<1 0003e889045565a9 00000007 00000003 0000000c 0000 0000000000100000 0003 0003e889045565a9 00000007 00000003 0000000e 0003 00000200 00001000 00010000 0003e889045565a9 00000007 00000001 00000000
pread 1 0→refused not-ready created
connect tcp localhost 10809→connected
settle→settled
pwrite fill:aa:512 0→refused unsupported read-only
flush→refused unsupported flush
block-status 512 0→refused unsupported context
pread 131072 0→refused too-big 65536
pread 512 1→refused align 512
pread 512 0 1→refused bad-flags 1
disconnect→ok
pread 1 0→refused closing
.last opened 9 freed 9
> HANDSHAKE

= blocks of which one is no power of two count for nothing
<1 HELLO
# READ_ONLY, and blocks of 512, 3,000 and 65,536 bytes.
<1 0003e889045565a9 00000007 00000003 0000000c 0000 0000000000100000 0003 0003e889045565a9 00000007 00000003 0000000e 0003 00000200 00000bb8 00010000 0003e889045565a9 00000007 00000001 00000000
connect tcp localhost 10809→connected
settle→settled
info→info 1048576 3 - - - false
end
pread 1 1→cookie 1
.last opened 1 freed 1
> HANDSHAKE

= a client that is not strict asks what it likes, and the server judges
<1 HELLO
<1 GO
<1 67446698 00000016 0000000000000001 67446698 00000000 0000000000000002 67446698 00000016 0000000000000003
strict 32→refused strict 32
strict 0→ok
connect tcp localhost 10809→connected
settle→settled
pread 1 1048576→cookie 1
pread 0 0→cookie 2
pread 1 0 2→cookie 3
pread 1 0 32→refused bad-flags 32
strict 27→ok
pread 0 0→refused zero-size
settle→settled
done 1→failed 22 1 00*1
done 2→done 0 -
done 3→failed 22 1 00*1
.last opened 5 freed 5
.err lnbd: peer error command 22
.status 3
> HANDSHAKE
> 25609513 0000 0000 0000000000000001 0000000000100000 00000001
> 25609513 0000 0000 0000000000000002 0000000000000000 00000000
> 25609513 0002 0000 0000000000000003 0000000000000000 00000001

= a read that ends past the largest export is refused
<1 HELLO
<1 0003e889045565a9 00000007 00000003 0000000c 0000 7fffffffffffffff 0001 0003e889045565a9 00000007 00000001 00000000
connect tcp localhost 10809→connected
settle→settled
pread 1 9223372036854775806→cookie 1
pread 1 9223372036854775807→refused bounds 9223372036854775807
.last opened 2 freed 2
> HANDSHAKE";

const STATES: &str = "= each line has its answer in each state
<1 HELLO
<1 GO
read→idle
write→idle
settle→settled
direction→0
in-flight→0
peek→none-left
info→info none
export blue→ok
disconnect→refused not-ready created
pread 1 0→refused not-ready created
log→freed 1
end
clear-log→ok
log→end
done 1→no-such-cookie
connect tcp localhost 10809→connected
connect unix /socket→refused state negotiating
export red→refused state negotiating
direction→1
settle→settled
pread 1 0→cookie 1
direction→3
in-flight→1
peek→none-done
done 1→not-yet
info→info 1048576 1 - - - false
end
disconnect→ok
disconnect→refused closing
pread 1 0→refused closing
state→closing
.last opened 3 freed 3
# The client's flags, and GO for the export that was named before the connect.
> 00000003
> 49484156454f5054 00000007 00000010 00000004 626c7565 0003 0001 0002 0003

= a close frees what is in flight and completes none
<1 HELLO
<1 GO
connect tcp localhost 10809→connected
settle→settled
pread 1 0→cookie 1
close→closed 1 1
log→gone
settle→gone
.last opened 1 freed 1
> HANDSHAKE";

const HANDSHAKES: &str = "= an oldstyle server is refused before its flags
<1 4e42444d41474943 0000420281861253
connect tcp localhost 10809→connected
settle→settled
state→dead broke OldStyle
.last opened 0 freed 0
.err lnbd: peer broke OldStyle
.status 4

= a server without fixed newstyle is refused
<1 4e42444d41474943 49484156454f5054 0000
connect tcp localhost 10809→connected
settle→settled
state→dead broke NotFixed
.last opened 0 freed 0
.err lnbd: peer broke NotFixed
.status 4

= where GO is not known the export is asked by its name
.by-lines 0
<1 4e42444d41474943 49484156454f5054 0001
# UNSUP, then the size, the flags and 124 zero bytes in two reads.
<1 0003e889045565a9 00000007 80000001 00000000
<1 0000000000001000 0001 00*100
<1 00*24
connect tcp localhost 10809→connected
read→moved 18
write→moved 4
write→moved 28
read→moved 20
write→moved 16
read→moved 110
state→negotiating
read→moved 24
state→ready
info→info 4096 1 - - - false
end
.last opened 0 freed 0
# The client's flags, GO, and EXPORT_NAME for the empty name.
> 00000001
> 49484156454f5054 00000007 0000000c 00000000 0003 0001 0002 0003
> 49484156454f5054 00000001 00000000

= a server that wants TLS ends the handshake
.by-lines 0
<1 4e42444d41474943 49484156454f5054 0001
<1 0003e889045565a9 00000007 80000005 00000000
connect tcp localhost 10809→connected
read→moved 18
write→moved 4
write→moved 28
read→moved 20
state→dead refused 7 5
.last opened 0 freed 0
.err lnbd: peer error option 7 code 5
.status 3
> 00000001
> 49484156454f5054 00000007 0000000c 00000000 0003 0001 0002 0003";

/// All but how these replies come.
const DISORDER: &str = "connect tcp localhost 10809→connected
settle→settled
pread 1 0→cookie 1
pread 1 1→cookie 2
pread 1 2→cookie 3
settle→settled
peek→cookie 3
done 1→done 1 11*1
done 2→done 1 22*1
done 3→done 1 33*1
peek→none-left
.last opened 3 freed 3
> HANDSHAKE
> 25609513 0000 0000 0000000000000001 0000000000000000 00000001
> 25609513 0000 0000 0000000000000002 0000000000000001 00000001
> 25609513 0000 0000 0000000000000003 0000000000000002 00000001";

const DISORDERED_READS: &str = "= replies come in any order, byte by byte
<1 HELLO
<1 GO
<1 each DISORDERED

= replies come in any order, all at once
<1 HELLO
<1 GO
<1 DISORDERED";

#[test]
fn scripts_are_answered(rt: HostRuntime) -> Result<(), Fail> {
    hold(
        &rt,
        rt.alloc(),
        NAMES,
        &[
            ("", READS),
            ("", COMMANDS),
            ("", STATES),
            ("", HANDSHAKES),
            (DISORDER, DISORDERED_READS),
        ],
    )
}
