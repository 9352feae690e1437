//! Links and faults: several links, addresses, deaths, which event decides, and the outside that fails. And scripts and words that
//! are refused before anything is played.

use crate::session::hold;
use lnbd_link::WriteAnswer;
use std::test::Fail;

const SEVERAL: &str =
    "= each handle has its own link's bytes, and a breach on one leaves the other ready
.by-lines 6
<1 HELLO
<1 GO
# Two turns in which the other handle negotiates, and one in which it is answered first.
<1 nothing
<1 nothing
<1 nothing
<1 67446698 00000000 0000000000000001 11
<1 00000000
<2 HELLO
<2 GO
<2 67446698 00000000 0000000000000001 22
# Two for the turns in which the other handle is answered, by one read or by two.
<2 nothing
<2 nothing
connect tcp localhost 10809→connected
settle→settled
handle 1→ok
state→created
connect tcp localhost 10809→connected
settle→settled
pread 1 0→cookie 1
handle 0→ok
pread 1 0→cookie 1
settle→settled
done 1→done 1 11*1
read→moved 4
state→dead broke BadReplyMagic
handle 1→ok
done 1→done 1 22*1
state→ready
.last opened 2 freed 2
.err lnbd: peer broke BadReplyMagic
.status 4
> HANDSHAKE
> HANDSHAKE
> 25609513 0000 0000 0000000000000001 0000000000000000 00000001
> 25609513 0000 0000 0000000000000001 0000000000000000 00000001

= a reply to a command of another link breaks the protocol on its own alone
<1 HELLO
<1 GO
# As many turns as the other handle negotiates.
<1 nothing
<1 nothing
<1 67446698 00000000 0000000000000001 11
<2 HELLO
<2 GO
# One turn, in which the reply comes to the wrong link, or a part of it.
<2 nothing
<2 67446698 00000000 0000000000000001 22
connect tcp localhost 10809→connected
settle→settled
handle 1→ok
connect tcp localhost 10809→connected
settle→settled
pread 1 0→cookie 1
settle→settled
done 1→done 1 22*1
state→ready
handle 0→ok
state→dead broke UnknownCookie
.last opened 1 freed 1
.err lnbd: peer broke UnknownCookie
.status 4
> HANDSHAKE
> HANDSHAKE
> 25609513 0000 0000 0000000000000001 0000000000000000 00000001

= a handle that is closed is gone, and another is not
close→closed 0 0
state→gone
settle→gone
close→gone
handle 15→ok
state→created
settle→settled
handle 0→ok
log→gone
.last opened 0 freed 0

= the waiting of two settles counts together
.pause 400000000
<1 nothing
<1 HELLO
<1 GO
# One for the turn that writes, two for those in which nothing moves.
<1 nothing
<1 nothing
<1 nothing
<1 67446698 00000000 0000000000000001 11
connect tcp localhost 10809→connected
settle→settled
pread 1 0→cookie 1
settle→
done 1→
.err lnbd: peer silent
.status 7
> HANDSHAKE
> 25609513 0000 0000 0000000000000001 0000000000000000 00000001
.waited 1200000000";

const ADDRESSES: &str = "= a connect by an address names its export
<1 HELLO
<1 GO
connect nbd://localhost/blue→connected
connect nbd://localhost→refused state negotiating
settle→settled
state→ready
.last opened 0 freed 0
# The client's flags, and GO for `blue`.
> 00000003
> 49484156454f5054 00000007 00000010 00000004 626c7565 0003 0001 0002 0003

= an address that is not reached names no export
.unreachable
<2 HELLO
<2 GO
export blue→ok
connect nbd+unix:///red?socket=/s→connect failed
state→created
connect tcp localhost 10809→connected
settle→settled
state→ready
.last opened 0 freed 0
.err lnbd: link fault
.status 5
> 00000003
> 49484156454f5054 00000007 00000010 00000004 626c7565 0003 0001 0002 0003

= an address over TLS makes its line a faulty one
<1 HELLO
state→
connect nbds://localhost→
.err lnbd: script line 2
.status 1";

const DEATHS: &str = "= an end fails all that were left
# The client's flags, GO and three requests go out whole, and ten bytes of the next.
.writes 99 99 99 99 99 10
<1 HELLO
<1 GO
connect tcp localhost 10809→connected
settle→settled
pread 512 0→cookie 1
pread 512 0→cookie 2
pread 512 0→cookie 3
pread 512 0→cookie 4
pread 512 0→cookie 5
write→moved 28
write→moved 28
write→moved 28
write→moved 10
read→ended
state→dead ended
log→completed 1 107
freed 1
completed 2 107
freed 2
completed 3 107
freed 3
completed 4 107
freed 4
completed 5 107
freed 5
end
done 5→failed 107 512 00*512
pread 1 0→refused dead ended
.last opened 6 freed 6
.err lnbd: peer broke Ended
.status 4
> HANDSHAKE
> 25609513 0000 0000 0000000000000001 0000000000000000 00000200
> 25609513 0000 0000 0000000000000002 0000000000000000 00000200
> 25609513 0000 0000 0000000000000003 0000000000000000 00000200
> 25609513 0000 0000 0000

= a reply to no command breaks the protocol
<1 HELLO
<1 GO
<1 67446698 00000000 0000000000000063
connect tcp localhost 10809→connected
settle→settled
pread 512 0→cookie 1
settle→settled
state→dead broke UnknownCookie
done 1→failed 107 512 00*512
read→idle
.last opened 1 freed 1
.err lnbd: peer broke UnknownCookie
.status 4
> HANDSHAKE
> 25609513 0000 0000 0000000000000001 0000000000000000 00000200

= a link that fails fails its command
<1 HELLO
<1 GO
<1 failure
connect tcp localhost 10809→connected
settle→settled
pread 512 0→cookie 1
read→failed
state→dead link-failed
done 1→failed 107 512 00*512
write→idle
.last opened 1 freed 1
.err lnbd: link fault
.status 5
> HANDSHAKE";

const FIRST_EVENTS: &str = "= of an error and a later end the error decides
<1 HELLO
<1 GO
<1 67446698 00000005 0000000000000001
connect tcp localhost 10809→connected
settle→settled
pread 1 0→cookie 1
pread 1 0→cookie 2
settle→settled
state→dead ended
done 1→failed 5 1 00*1
done 2→failed 107 1 00*1
.last opened 2 freed 2
.err lnbd: peer error command 5
.status 3
> HANDSHAKE
> 25609513 0000 0000 0000000000000001 0000000000000000 00000001
> 25609513 0000 0000 0000000000000002 0000000000000000 00000001

= of an error and a breach in one read the breach decides
.uncut
<1 HELLO
<1 GO
<1 67446698 00000005 0000000000000001 67446698 00000000 0000000000000063
connect tcp localhost 10809→connected
settle→settled
pread 1 0→cookie 1
settle→settled
state→dead broke UnknownCookie
done 1→failed 5 1 00*1
.last opened 1 freed 1
.err lnbd: peer broke UnknownCookie
.status 4
> HANDSHAKE
> 25609513 0000 0000 0000000000000001 0000000000000000 00000001

= silence decides over an earlier error
.pause 1000000000
<1 HELLO
<1 GO
<1 67446698 00000005 0000000000000001
# One for the turn that writes, one for the turn in which nothing moves.
<1 nothing
<1 nothing
connect tcp localhost 10809→connected
settle→settled
pread 1 0→cookie 1
settle→settled
pread 1 0→cookie 2
settle→
state→
.err lnbd: peer silent
.status 7
> HANDSHAKE
> 25609513 0000 0000 0000000000000001 0000000000000000 00000001
> 25609513 0000 0000 0000000000000002 0000000000000000 00000001
.waited 1000000000";

const OUTSIDES: &str = "= a connect that fails leaves the handle as it was created
.unreachable
connect tcp localhost 10809→connect failed
state→created
.last opened 0 freed 0
.err lnbd: link fault
.status 5

= a peer that is silent for two pauses of 500,000,000 ends the run
.pause 500000000
<1 nothing
<1 nothing
<1 HELLO
connect tcp localhost 10809→connected
settle→
state→
.err lnbd: peer silent
.status 7
.waited 1000000000

= an input that fails at once
.input-fails-at 0
state→
.err lnbd: input fault
.status 10

= an input that fails behind the script: no line of it is played
.input-fails-at 1
<1 HELLO
connect tcp localhost 10809→
read→
.err lnbd: input fault
.status 10

= an output that fails at once
.output-fails-at 0
state→
.err lnbd: output fault
.status 8

= an output that is full after the first line
.output-room 10
<1 HELLO
connect tcp localhost 10809→connected
state→
.err lnbd: output fault
.status 8";

const SCRIPTS: &str = "= an empty script opens nothing
.last opened 0 freed 0

= of a script with a faulty line no line is played
<1 HELLO
connect tcp localhost 10809→
preed 1 0→
.err lnbd: script line 2
.status 1

= the tool takes no further word
.words nbdcalls state
state→
.err lnbd: usage
.status 1";

#[test]
fn links_and_faults_are_told(rt: HostRuntime) -> Result<(), Fail> {
    hold(
        &rt,
        rt.alloc(),
        "",
        &[
            ("", SEVERAL),
            ("", ADDRESSES),
            ("", DEATHS),
            ("", FIRST_EVENTS),
            ("", OUTSIDES),
            ("", SCRIPTS),
        ],
    )
}
