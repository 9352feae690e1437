//! The selftest, in which nothing comes or goes on any link.

use crate::session::hold;
use std::test::Fail;

const TESTED: &str = "= sixteen blocks, four of them zeros
.words selftest 0 65536
.last seed 0 size 65536 read 49152 written 49152 zeroed 16384 equal

= exports of no bytes
.words selftest 7 0
.last seed 7 size 0 read 0 written 0 zeroed 0 equal

= exports of one byte
.words selftest 0 1
.last seed 0 size 1 read 1 written 1 zeroed 0 equal

= a block of which there is one byte
.words selftest 0 8193
.last seed 0 size 8193 read 4097 written 4097 zeroed 4096 equal";

/// The most bytes that there may be. Of the 4,096 blocks of this seed 1,019 are zeros.
const LARGEST: &str = "= as many bytes as there may be
.words selftest 5 16777216
.last seed 5 size 16777216 read 12603392 written 12603392 zeroed 4173824 equal";

const NOT_TESTED: &str = "= one byte more than there may be
.words selftest 0 16777217
.err lnbd: rule selftest-size 16777217 16777216
.status 6

= no size
.words selftest 0
.err lnbd: usage
.status 1

= a size that is no number
.words selftest 0 1k
.err lnbd: usage
.status 1

= a third word
.words selftest 0 1 1
.err lnbd: usage
.status 1

= an output that fails
.words selftest 0 1
.output-fails-at 0
.err lnbd: output fault
.status 8";

#[test]
fn selftest_copies_in_memory(rt: HostRuntime) -> Result<(), Fail> {
    hold(
        &rt,
        rt.alloc(),
        "",
        &[("", TESTED), ("", LARGEST), ("", NOT_TESTED)],
    )
}
