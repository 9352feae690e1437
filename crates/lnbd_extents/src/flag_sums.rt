//! Sums of the lengths of extents, by their flags.

ghost use Rattle.std.specs.Prelude.{◌≡◌, ℕ, ◌+◌, ◌^◌, ◌<◌, ◌≤◌, IfOk, OnOk, OnErr, unwrap_or};
ghost use Rattle.lnbd_keyed.specs.Keyed.{value_at, with_pair, IsRising};
ghost use Rattle.lnbd_extents.specs.Lists.{span, by_flags, total_at};

use lnbd_keyed::{place_of, rank_of};
use lnbd_model::{Extent, NoMemory};
use std::alloc::Global;

/// One extent for each value of the flags that is told, with the sum of the lengths that have it, in
/// rising order of flags.
pub fn totals(alloc: Global, list: &[Extent]) -> Result<Vec<Extent>, NoMemory>
    requires { span list.now ≤ 2 ^ 63 }
    ensures rising { IfOk result (λ totals. IsRising (by_flags totals.items)) }
    ensures sums { IfOk result (λ totals. (flags : ℕ) →
        value_at flags (by_flags totals.items) ≡ total_at list.now flags) }
{
    let rows = sums(alloc, list)?;
    as_extents(alloc, &rows)
}

/// The sums as rows of flags and length.
fn sums(alloc: Global, list: &[Extent]) -> Result<Vec<(u64, u64)>, NoMemory>
    requires { span list.now ≤ 2 ^ 63 }
    ensures rising { IfOk result (λ rows. IsRising rows.items) }
    ensures sums { IfOk result (λ rows. (flags : ℕ) → value_at flags rows.items ≡ total_at list.now flags) }
{
    let mut rows = Vec::new(alloc);
    for extent in list {
        add_to(&mut rows, extent.flags, extent.length)?;
    }
    Ok(rows)
}

/// Adds a length to the row of its flags, or puts that row in.
fn add_to(rows: &mut Vec<(u64, u64)>, flags: u64, length: u64) -> Result<(), NoMemory>
    requires rising { IsRising rows.old.items }
    requires room { unwrap_or (value_at flags rows.old.items) 0 + length < 2 ^ 64 }
    ensures ok { OnOk result (rows.new.items ≡
        with_pair flags (unwrap_or (value_at flags rows.old.items) 0 + length) rows.old.items) }
    ensures err { OnErr result (rows.new.items ≡ rows.old.items) }
{
    if let Some(at) = place_of(rows, flags) {
        rows[at].1 += length;
        return Ok(());
    }
    let at = rank_of(rows, flags);
    if rows.insert(at, (flags, length)).is_err() {
        return Err(NoMemory);
    }
    Ok(())
}

fn as_extents(alloc: Global, rows: &[(u64, u64)]) -> Result<Vec<Extent>, NoMemory>
    ensures { IfOk result (λ extents. by_flags extents.items ≡ rows.now) }
{
    let mut extents = Vec::new(alloc);
    for row in rows {
        extents.push(Extent {
            length: row.1,
            flags: row.0,
        })?;
    }
    Ok(extents)
}
