//! How a part is cut to a range.

ghost use Rattle.std.specs.Prelude.{◌≡◌, ◌<◌, ◌≤◌, ◌+◌, ◌-◌, ◌^◌, length, take, drop};
ghost use Rattle.lnbd_reel.specs.Said.{shown_to};

/// From where to where a part lies in the range.
pub fn cut(start: u64, count: u64, offset: u64, end: u64) -> (u64, u64)
    requires order { offset ≤ end }
    requires room { start + count < 2 ^ 64 }
    ensures order { result.0 ≤ result.1 }
    ensures within { result.1 ≤ count }
    ensures shown { shown_to offset end (start + count) ≡ shown_to offset end start + (result.1 - result.0) }
    ensures place { result.0 < result.1 → start + result.0 ≡ offset + shown_to offset end start }
{
    let from = start.max(offset);
    let to = (start + count).min(end);
    if from >= to {
        return (0, 0);
    }
    (from - start, to - start)
}

/// Some bytes in the middle of others.
pub fn middle(bytes: &[u8], from: u64, to: u64) -> &[u8]
    requires order { from ≤ to }
    ensures bytes { result.now ≡ take (to - from) (drop from bytes.now) }
    ensures few { length result.now ≤ to - from }
{
    let size = bytes.len();
    let from = (from as usize).min(size);
    let to = (to as usize).min(size);
    &bytes[from..to]
}
