//! The contents that a seed gives.

ghost use Rattle.std.specs.Prelude.{◌≡◌, ℕ, ◌+◌, ◌-◌, ◌*◌, ◌/◌, ◌%◌, ◌<◌, ◌≤◌, ◌^◌, ◌&&◌, IfOk, OnOk, nat_lt, length, get_or};
ghost use Rattle.lnbd_export.specs.Spans.{is_told_by};
ghost use Rattle.lnbd_export.specs.Generated.{mixed, is_zero_block, byte_in, byte_at, block_size, IsGenerated};

use crate::export::Export;
use crate::spans::Spans;
use crate::zeros::Zeros;
use lnbd_model::{NoMemory, Text};
use std::alloc::Global;

/// How many bytes a block has; the last may have fewer.
const BLOCK: u64 = 4096;

/// What a block's number is multiplied with.
const FACTOR: u64 = 2_654_435_761;

/// Below this number a block is zero.
const ZERO_BELOW: u64 = 1 << 30;

/// An export whose contents and zero ranges a seed gives, with an empty description.
pub fn generate(
    alloc: Global,
    name: Text,
    seed: u64,
    size: u64,
    read_only: bool,
) -> Result<Export, NoMemory>
    requires { size ≤ 2 ^ 30 }
    ensures { IfOk result (λ export. IsGenerated name seed size read_only export) }
{
    let content = content(alloc, seed, size)?;
    let zeros = zeros(alloc, seed, size)?;
    let description = Text::empty(alloc);
    Ok(Export::telling(name, description, content, Zeros::Turning(zeros), read_only))
}

/// The number of a block, below 2^32.
fn mixed(seed: u64, block: u64) -> u64
    requires { block < 2 ^ 63 }
    ensures number { result ≡ mixed seed block }
    ensures small { result < 2 ^ 32 }
{
    let odd = seed.wrapping_mul(2).wrapping_add(1);
    odd.wrapping_mul(block + 1).wrapping_mul(FACTOR) % (1 << 32)
}

fn content(alloc: Global, seed: u64, size: u64) -> Result<Vec<u8>, NoMemory>
    requires { size ≤ 2 ^ 30 }
    ensures length { IfOk result (λ v. length v.items ≡ size) }
    ensures bytes { IfOk result (λ v. (p : ℕ) → p < size → get_or v.items p 0 ≡ byte_at seed p) }
{
    let rising = rising(alloc)?;
    let mut content = Vec::with_capacity(alloc, size as usize)?;
    let mut start = 0;
    while start < size {
        let block = start / BLOCK;
        let count = BLOCK.min(size - start);
        push_block(&mut content, &rising, seed, block, count)?;
        start += count;
    }
    Ok(content)
}

/// The bytes 0 to 255, over and over: each block that is not zero is a part of these.
fn rising(alloc: Global) -> Result<Vec<u8>, NoMemory>
    ensures length { IfOk result (λ v. length v.items ≡ block_size + 256) }
    ensures bytes { IfOk result (λ v. (i : ℕ) → i < block_size + 256 → get_or v.items i 0 ≡ i % 256) }
{
    let count = BLOCK + 256;
    let mut rising = Vec::with_capacity(alloc, count as usize)?;
    for i in 0..count {
        rising.push((i % 256) as u8)?;
    }
    Ok(rising)
}

/// Pushes the first bytes of a block.
fn push_block(
    content: &mut Vec<u8>,
    rising: &[u8],
    seed: u64,
    block: u64,
    count: u64,
) -> Result<(), NoMemory>
    requires block { block < 2 ^ 18 }
    requires count { count ≤ block_size }
    requires place { length content.old.items ≡ block * block_size }
    requires bytes { (p : ℕ) → p < length content.old.items → get_or content.old.items p 0 ≡ byte_at seed p }
    requires length { length rising.now ≡ block_size + 256 }
    requires rising { (i : ℕ) → i < block_size + 256 → get_or rising.now i 0 ≡ i % 256 }
    ensures length { OnOk result (length content.new.items ≡ length content.old.items + count) }
    ensures bytes { OnOk result ((p : ℕ) → p < length content.old.items + count → get_or content.new.items p 0 ≡ byte_at seed p) }
{
    let number = mixed(seed, block);
    if number < ZERO_BELOW {
        content.resize(content.len() + count as usize, 0)?;
        return Ok(());
    }
    let first = (number / 256 % 256) as usize;
    content.extend_from_slice(&rising[first..first + count as usize])?;
    Ok(())
}

/// The zero blocks.
fn zeros(alloc: Global, seed: u64, size: u64) -> Result<Spans, NoMemory>
    requires { size ≤ 2 ^ 30 }
    ensures { IfOk result (λ zeros. (p : ℕ) → is_told_by zeros.spans.items p ≡ nat_lt p size && is_zero_block seed (p / block_size)) }
{
    let mut zeros = Spans::new(alloc);
    let mut start = 0;
    while start < size {
        let count = BLOCK.min(size - start);
        tell_block(&mut zeros, seed, start, count)?;
        start += count;
    }
    Ok(zeros)
}

/// Tells the positions of a block as zero, where they are zeros.
fn tell_block(zeros: &mut Spans, seed: u64, start: u64, count: u64) -> Result<(), NoMemory>
    requires small { start < 2 ^ 30 }
    requires aligned { start % block_size ≡ 0 }
    requires count { count ≤ block_size }
    requires before { (p : ℕ) → is_told_by zeros.old.spans.items p ≡ nat_lt p start && is_zero_block seed (p / block_size) }
    ensures { OnOk result ((p : ℕ) → is_told_by zeros.new.spans.items p ≡ nat_lt p (start + count) && is_zero_block seed (p / block_size)) }
{
    if mixed(seed, start / BLOCK) < ZERO_BELOW {
        return zeros.tell(start, count, true);
    }
    Ok(())
}
