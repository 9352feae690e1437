//! Information: nbdinfo tells an export, maps one and lists those of a server, or tells why it found nothing.

use crate::session::hold;
use std::test::Fail;

/// The names of bytes.
const NAMES: &str = "# GO's reply for an export of 4,096 bytes with the flags 1, and its ACK.
GO_4096 0003e889045565a9 00000007 00000003 0000000c 0000 0000000000001000 0001
GO_4096 0003e889045565a9 00000007 00000001 00000000
# The same with the flags 3, of which one tells that it is read-only.
READ_ONLY 0003e889045565a9 00000007 00000003 0000000c 0000 0000000000001000 0003
READ_ONLY 0003e889045565a9 00000007 00000001 00000000
# AGREED for the context x:y.
OTHER 0003e889045565a9 0000000b 80000001 00000000
OTHER 0003e889045565a9 00000008 00000001 00000000
OTHER 0003e889045565a9 0000000a 00000004 00000007 00000001 783a79
OTHER 0003e889045565a9 0000000a 00000001 00000000
# GO's reply for an export of 16,384 bytes with the flags 1, and its ACK.
GO_16384 0003e889045565a9 00000007 00000003 0000000c 0000 0000000000004000 0001
GO_16384 0003e889045565a9 00000007 00000001 00000000
# One descriptor for each question: 4096:0, 4096:3, 4096:3, 4096:0.
FIRST 668e33ef 0001 0005 0000000000000001 0000000c 00000001 00001000 00000000
SECOND 668e33ef 0001 0005 0000000000000002 0000000c 00000001 00001000 00000003
THIRD 668e33ef 0001 0005 0000000000000003 0000000c 00000001 00001000 00000003
FOURTH 668e33ef 0001 0005 0000000000000004 0000000c 00000001 00001000 00000000
# 65536:0, which is more than there is.
TOO_LONG 668e33ef 0001 0005 0000000000000001 0000000c 00000001 00010000 00000000
# The client's flags, EXTENDED_HEADERS and STRUCTURED_REPLY.
ASK_STRUCTURED 00000003 49484156454f5054 0000000b 00000000
ASK_STRUCTURED 49484156454f5054 00000008 00000000
# SET_META_CONTEXT for the empty name and base:allocation.
CONTEXT 49484156454f5054 0000000a 0000001b 00000000 00000001 0000000f 626173653a616c6c6f636174696f6e
# BLOCK_STATUS from 0 on, and from each multiple of 4,096.
FROM_0 25609513 0000 0007 0000000000000001 0000000000000000 00004000
FROM_1 25609513 0000 0007 0000000000000002 0000000000001000 00003000
FROM_2 25609513 0000 0007 0000000000000003 0000000000002000 00002000
FROM_3 25609513 0000 0007 0000000000000004 0000000000003000 00001000
# EXTENDED_HEADERS isn't known, and STRUCTURED_REPLY is acknowledged.
STRUCTURED 0003e889045565a9 0000000b 80000001 00000000
STRUCTURED 0003e889045565a9 00000008 00000001 00000000
# Three exports: an empty name that is described as \"root disk\", \"blue\", and \"été 2\".
LISTED 0003e889045565a9 00000003 00000002 0000000d 00000000 726f6f74206469736b
LISTED 0003e889045565a9 00000003 00000002 00000008 00000004 626c7565
LISTED 0003e889045565a9 00000003 00000002 0000000b 00000007 c3a974c3a92032
LISTED 0003e889045565a9 00000003 00000001 00000000
# INFO's reply for an export of 512 bytes with the flags 3, and its ACK.
INFO_512 0003e889045565a9 00000006 00000003 0000000c 0000 0000000000000200 0003
INFO_512 0003e889045565a9 00000006 00000001 00000000
# INFO is answered by UNKNOWN.
UNKNOWN 0003e889045565a9 00000006 80000006 00000000
# ABORT's ACK, which is passed over.
ABORTED 0003e889045565a9 00000002 00000001 00000000
# The client's flags, EXTENDED_HEADERS, STRUCTURED_REPLY and LIST.
ASK_LIST 00000003 49484156454f5054 0000000b 00000000
ASK_LIST 49484156454f5054 00000008 00000000
ASK_LIST 49484156454f5054 00000003 00000000
# INFO for each of the three, with NAME, DESCRIPTION and BLOCK_SIZE.
ASK_INFOS 49484156454f5054 00000006 0000000c 00000000 0003 0001 0002 0003
ASK_INFOS 49484156454f5054 00000006 00000010 00000004 626c7565 0003 0001 0002 0003
ASK_INFOS 49484156454f5054 00000006 00000013 00000007 c3a974c3a92032 0003 0001 0002 0003
ABORT 49484156454f5054 00000002 00000000";

/// An export is told over a link.
const INFO: &str = "<1 HELLO
<1 AGREED
<1 GO_4096
> ASK_ALL
> ASK_GO
> DISC";

const TOLD: &str = "= what is told of an export
.words nbdinfo nbd://h/
.last protocol: newstyle-fixed without TLS, using structured packets
.last export=\"\":
.last \texport-size: 4096
.last \tcontexts:
.last \t\tbase:allocation
.last \tis_rotational: false
.last \tis_read_only: false
.last \tcan_cache: false
.last \tcan_df: false
.last \tcan_fast_zero: false
.last \tcan_flush: false
.last \tcan_fua: false
.last \tcan_multi_conn: false
.last \tcan_trim: false
.last \tcan_zero: false

= the same as JSON
.words nbdinfo --json nbd://h
.last {\"TLS\":false,\"exports\":[{\"can_cache\":false,\"can_df\":false,\"can_fast_zero\":false,\"can_flush\":false,\"can_fua\":false,\"can_multi_conn\":false,\"can_trim\":false,\
    \"can_zero\":false,\"contexts\":[\"base:allocation\"],\"export-name\":\"\",\"export-size\":4096,\"is_read_only\":false,\"is_rotational\":false}],\"protocol\":\"newstyle-fixed\",\
    \"structured\":true}

= the size alone
.words nbdinfo nbd://h --size
.last 4096

= what is false
.words nbdinfo --is read-only nbd://h
.status 2

= what is true
.words nbdinfo --is=read-only nbd://h
<1 HELLO
<1 AGREED
<1 READ_ONLY

= what is true of every export
.words nbdinfo --can connect nbd://h

= a server that comes late
.words nbdinfo --size nbd://h
<1 HELLO
<1 nothing
<1 AGREED
<1 nothing
<1 nothing
<1 GO_4096
.last 4096
.waited 1";

const REFUSED: &str = "= an address that asks for TLS
.words nbdinfo nbds://h/
.err lnbd: uri Tls
.status 1

= a name that no question has
.words nbdinfo --can fly nbd://h
.err lnbd: usage
.status 1

= a link that can't be had
.words nbdinfo nbd://h
.unreachable
.err lnbd: link fault
.status 5

= a server that refuses the export
.words nbdinfo nbd://h
<1 HELLO
<1 AGREED
<1 0003e889045565a9 00000007 80000005 00000000
.err lnbd: peer error option 7 code 5
.status 3
> ASK_ALL
> ASK_GO

= a server that ends the connection
.words nbdinfo nbd://h
<1 HELLO
<1 AGREED
.err lnbd: peer broke Ended
.status 4
> ASK_ALL
> ASK_GO

= a server that is silent
.words nbdinfo nbd://h
.pause 500000000
<1 nothing
<1 nothing
<1 nothing
.err lnbd: peer silent
.status 7
.waited 1000000000";

/// An export is mapped over a link.
const MAP: &str = ".words nbdinfo --map nbd://h
<1 HELLO
<1 AGREED
<1 GO_16384
<1 FIRST
<1 SECOND
<1 THIRD
<1 FOURTH
> ASK_STRUCTURED
> CONTEXT
> ASK_GO
> FROM_0
> FROM_1
> FROM_2
> FROM_3
> DISC";

const MAPPED: &str = "= a map
.last          0        4096    0  data
.last       4096        8192    3  hole,zero
.last      12288        4096    0  data

= the same as JSON
.words nbdinfo --map --json nbd://h
.last [{\"description\":\"data\",\"length\":4096,\"offset\":0,\"type\":0},{\"description\":\"hole,zero\",\"length\":8192,\"offset\":4096,\"type\":3},{\"description\":\"data\",\
    \"length\":4096,\"offset\":12288,\"type\":0}]

= its sums
.words nbdinfo --map --totals nbd://h
.last       8192   50.0%    0  data
.last       8192   50.0%    3  hole,zero

= its sums as JSON
.words nbdinfo --map --json --totals nbd://h
.last [{\"description\":\"data\",\"size\":8192,\"type\":0},{\"description\":\"hole,zero\",\"size\":8192,\"type\":3}]

= an answer that tells more than was asked for
<1 HELLO
<1 AGREED
<1 GO_16384
<1 TOO_LONG
.last          0       16384    0  data
> ASK_STRUCTURED
> CONTEXT
> ASK_GO
> FROM_0
> DISC

= flags of another context, for which there are no words
.words nbdinfo --map=x:y nbd://h
<1 HELLO
<1 OTHER
<1 GO_16384
<1 TOO_LONG
.last          0       16384    0
> ASK_STRUCTURED
> 49484156454f5054 0000000a 0000000f 00000000 00000001 00000003 783a79
> ASK_GO
> FROM_0
> DISC

= the largest export is asked for by 128 MiB, until its server ends
<1 HELLO
<1 AGREED
<1 0003e889045565a9 00000007 00000003 0000000c 0000 7fffffffffffffff 0001 0003e889045565a9 00000007 00000001 00000000
<1 668e33ef 0001 0005 0000000000000001 0000000c 00000001 ffffffff 00000003
.err lnbd: peer broke Ended
.status 4
> ASK_STRUCTURED
> CONTEXT
> ASK_GO
> 25609513 0000 0007 0000000000000001 0000000000000000 08000000
> 25609513 0000 0007 0000000000000002 0000000008000000 08000000

= a context that is not agreed
<1 HELLO
<1 NOT_AGREED
<1 GO_16384
.err lnbd: rule no-context base:allocation
.status 6
> ASK_STRUCTURED
> CONTEXT
> ASK_GO
> DISC";

/// Three exports are told over a link.
const LIST: &str = ".words nbdinfo --list nbd://h
<1 HELLO
<1 STRUCTURED
<1 LISTED
<1 INFO_512
<1 INFO_512
<1 INFO_512
<1 ABORTED
> ASK_LIST
> ASK_INFOS
> ABORT";

const LISTED_EXPORTS: &str = "= what is told of each export that is listed
.last protocol: newstyle-fixed without TLS, using structured packets
.last export=\"\":
.last \tdescription: \"root disk\"
.last \texport-size: 512
.last \tis_rotational: false
.last \tis_read_only: true
.last \tcan_cache: false
.last \tcan_df: false
.last \tcan_fast_zero: false
.last \tcan_flush: false
.last \tcan_fua: false
.last \tcan_multi_conn: false
.last \tcan_trim: false
.last \tcan_zero: false
.last export=\"blue\":
.last \texport-size: 512
.last \tis_rotational: false
.last \tis_read_only: true
.last \tcan_cache: false
.last \tcan_df: false
.last \tcan_fast_zero: false
.last \tcan_flush: false
.last \tcan_fua: false
.last \tcan_multi_conn: false
.last \tcan_trim: false
.last \tcan_zero: false
.last export=\"été 2\":
.last \texport-size: 512
.last \tis_rotational: false
.last \tis_read_only: true
.last \tcan_cache: false
.last \tcan_df: false
.last \tcan_fast_zero: false
.last \tcan_flush: false
.last \tcan_fua: false
.last \tcan_multi_conn: false
.last \tcan_trim: false
.last \tcan_zero: false

= an export that is refused
<1 HELLO
<1 STRUCTURED
<1 LISTED
<1 INFO_512
<1 UNKNOWN
<1 INFO_512
<1 ABORTED
.last protocol: newstyle-fixed without TLS, using structured packets
.last export=\"\":
.last \tdescription: \"root disk\"
.last \texport-size: 512
.last \tis_rotational: false
.last \tis_read_only: true
.last \tcan_cache: false
.last \tcan_df: false
.last \tcan_fast_zero: false
.last \tcan_flush: false
.last \tcan_fua: false
.last \tcan_multi_conn: false
.last \tcan_trim: false
.last \tcan_zero: false
.last export=\"blue\":
.last \terror: 6
.last export=\"été 2\":
.last \texport-size: 512
.last \tis_rotational: false
.last \tis_read_only: true
.last \tcan_cache: false
.last \tcan_df: false
.last \tcan_fast_zero: false
.last \tcan_flush: false
.last \tcan_fua: false
.last \tcan_multi_conn: false
.last \tcan_trim: false
.last \tcan_zero: false
.err lnbd: peer error option 6 code 6
.status 3

= no export, as JSON
.words nbdinfo --json --list nbd://h
<1 HELLO
<1 STRUCTURED
<1 0003e889045565a9 00000003 00000001 00000000
<1 ABORTED
.last {\"TLS\":false,\"exports\":[],\"protocol\":\"newstyle-fixed\",\"structured\":false}
> ASK_LIST
> ABORT

= a server that lists nothing by its policy
<1 HELLO
<1 STRUCTURED
<1 0003e889045565a9 00000003 80000002 00000000
<1 ABORTED
.err lnbd: peer error option 3 code 2
.status 3
> ASK_LIST
> ABORT";

#[test]
fn nbdinfo_tells_maps_and_lists(rt: HostRuntime) -> Result<(), Fail> {
    hold(
        &rt,
        rt.alloc(),
        NAMES,
        &[
            (INFO, TOLD),
            ("", REFUSED),
            (MAP, MAPPED),
            (LIST, LISTED_EXPORTS),
        ],
    )
}
