//! Which range of an export is shown, and which whole blocks are read for it.

ghost use Rattle.std.specs.Prelude.{◌≡◌, ◌<◌, ◌≤◌, ◌+◌, ◌^◌, Err, IfOk};
ghost use Rattle.lnbd_reel.specs.Ranges.{Covers, IsUneven, block_end, length_given, length_shown};

/// Why a range can't be shown.
#[derive(Clone, Copy, Debug, PartialEq, Eq)]
pub enum Misfit {
    /// The export has no such range.
    Range,
    /// Its last bytes lie in no whole block.
    Uneven,
}

/// A range, and the whole blocks that have it.
#[derive(Clone, Copy, Debug, PartialEq, Eq)]
pub struct Span {
    /// How many bytes are shown.
    pub count: u64,
    /// Where the first block begins.
    pub first: u64,
    /// Where the last block ends.
    pub last: u64,
}

/// Where the block ends that has the byte before this place.
fn block_end(end: u64, block: u64) -> u64
    requires room { (end ≤ 2 ^ 63) × (0 < block) × (block ≤ 65536) }
    ensures { result ≡ block_end block end }
{
    (end + block - 1) / block * block
}

/// The range of this length from here on, of an export of this size and these blocks.
pub fn span_of(offset: u64, length: Option<u64>, size: u64, block: u64) -> Result<Span, Misfit>
    requires size { size < 2 ^ 63 }
    requires block { (0 < block) × (block ≤ 65536) }
    ensures range { result ≡ Err Misfit.Range → size < offset + length_given length }
    ensures uneven { result ≡ Err Misfit.Uneven → (offset + length_given length ≤ size) × IsUneven offset (length_shown offset length size) size block }
    ensures covers { IfOk result (λ span. 0 < span.count → Covers offset span.count size block span.first span.last) }
    ensures fits { IfOk result (λ span. offset + length_given length ≤ size) }
    ensures even { IfOk result (λ span. IsUneven offset (length_shown offset length size) size block → ⊥) }
    ensures count { IfOk result (λ span. span.count ≡ length_shown offset length size) }
{
    let given = length.unwrap_or(0);
    if offset > size || given > size - offset {
        return Err(Misfit::Range);
    }
    let count = length.unwrap_or(size - offset);
    if count == 0 {
        return Ok(Span {
            count,
            first: offset,
            last: offset,
        });
    }
    let last = block_end(offset + count, block);
    if last > size {
        return Err(Misfit::Uneven);
    }
    Ok(Span {
        count,
        first: offset / block * block,
        last,
    })
}
