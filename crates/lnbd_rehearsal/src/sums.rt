//! What a copy of the bytes that a seed gives is to tell, by their blocks alone. What a copy did is not known here.

ghost use Rattle.std.specs.Prelude.{◌≡◌, ◌<◌, ◌≤◌, ◌^◌, drop, if◌then◌else◌, length, take, true};
ghost use Rattle.lnbd_export.specs.Generated.{is_zero_block};
ghost use Rattle.lnbd_rehearsal.specs.Sums.{block_of, blocks, holds_data, sums_of};

use lnbd_plan::Summary;

/// How many bytes a block has; the last may have fewer.
const BLOCK: usize = 4096;

/// What a block's number is multiplied with.
const FACTOR: u64 = 2_654_435_761;

/// Whether the seed makes a block zeros, which are then told as such.
fn is_zero_block(seed: u64, block: u64) -> bool
    requires { block < 2 ^ 63 }
    ensures { result ≡ is_zero_block seed block }
{
    let odd = seed.wrapping_mul(2).wrapping_add(1);
    let mixed = odd.wrapping_mul(block + 1).wrapping_mul(FACTOR) % (1 << 32);
    mixed < 1 << 30
}

/// The first bytes, as far as there are so many.
#[tactic(auto, using(std::proofs::lemmas::List::take_all))]
fn first(bytes: &[u8], count: usize) -> &[u8]
    ensures bytes { result.now ≡ take count bytes.now }
    ensures few { length result.now ≤ count }
{
    match bytes.split_at_checked(count) {
        Some((first, _)) => first,
        None => bytes,
    }
}

/// The bytes behind the first so many.
#[tactic(auto, using(std::proofs::lemmas::List::drop_all))]
fn behind(bytes: &[u8], count: usize) -> &[u8]
    ensures { result.now ≡ drop count bytes.now }
{
    match bytes.split_at_checked(count) {
        Some((_, rest)) => rest,
        None => &[],
    }
}

/// The bytes of a block.
fn block_of(bytes: &[u8], block: usize) -> &[u8]
    requires { block < 2 ^ 32 }
    ensures bytes { result.now ≡ block_of bytes.now block }
    ensures few { length result.now ≤ 4096 }
{
    first(behind(bytes, block * BLOCK), BLOCK)
}

/// Whether a byte isn't zero.
fn holds_data(bytes: &[u8]) -> bool
    ensures { result ≡ holds_data bytes.now }
{
    bytes.iter().any(|byte| *byte != 0)
}

/// How many blocks there are.
fn blocks(bytes: &[u8]) -> usize
    requires { length bytes.now ≤ 16777216 }
    ensures number { result ≡ blocks bytes.now }
    ensures few { result ≤ 4096 }
{
    bytes.len().div_ceil(BLOCK)
}

/// So many, or none.
fn if_such(such: bool, count: u64) -> u64
    ensures count { result ≡ (if such then count else 0) }
    ensures few { result ≤ count }
{
    if such { count } else { 0 }
}

/// The sums of these bytes' blocks.
pub(crate) fn sums_of(seed: u64, bytes: &[u8]) -> Summary
    requires { length bytes.now ≤ 16777216 }
    ensures { result ≡ sums_of seed bytes.now }
{
    let mut read = 0;
    let mut written = 0;
    for block in 0..blocks(bytes) {
        let held = block_of(bytes, block);
        let count = held.len() as u64;
        read += if_such(!is_zero_block(seed, block as u64), count);
        written += if_such(holds_data(held), count);
    }
    let size = bytes.len() as u64;
    Summary {
        read,
        written,
        zeroed: size.saturating_sub(written),
        skipped: 0,
    }
}

/// Whether these sums are the same.
pub(crate) fn is_same(one: Summary, other: Summary) -> bool
    ensures { result ≡ true → one ≡ other }
{
    one == other
}
