//! Lists of extents, laid end to end: joining and cutting. No list of ranges stands here.

ghost use Rattle.std.specs.Prelude.{◌≡◌, ℕ, ◌+◌, ◌^◌, ◌<◌, ◌≤◌, [], ◌∷◌, ◌++◌, OnOk, OnErr, min};
ghost use Rattle.lnbd_extents.specs.Lists.{span, flags_at, AreJoined, joining, with_extent, clipped};

use lnbd_model::{Extent, NoMemory};

/// Adds an extent at the end, in one extent with the last where their flags are the same. An empty
/// one adds nothing.
///
/// On `NoMemory` the list is as before.
pub fn push_joined(list: &mut Vec<Extent>, extent: Extent) -> Result<(), NoMemory>
    requires { span list.old.items + extent.length ≤ 2 ^ 63 }
    ensures ok { OnOk result (list.new.items ≡ with_extent list.old.items extent) }

    // Each position keeps its flags, and the list stays joined.
    ensures flags { OnOk result ((p : ℕ) →
        flags_at list.new.items p ≡ flags_at (list.old.items ++ extent ∷ []) p) }
    ensures length { OnOk result (span list.new.items ≡ span list.old.items + extent.length) }
    ensures joined { OnOk result (AreJoined list.old.items → AreJoined list.new.items) }
    ensures err { OnErr result (list.new.items ≡ list.old.items) }
{
    if extent.length == 0 {
        return Ok(());
    }
    put_last(list, extent)
}

/// Adds an extent that isn't empty.
fn put_last(list: &mut Vec<Extent>, extent: Extent) -> Result<(), NoMemory>
    requires { span list.old.items + extent.length ≤ 2 ^ 63 }
    ensures ok { OnOk result (list.new.items ≡ joining list.old.items extent) }
    ensures err { OnErr result (list.new.items ≡ list.old.items) }
{
    let count = list.len();
    if count > 0 && list[count - 1].flags == extent.flags {
        list[count - 1].length += extent.length;
        return Ok(());
    }
    list.push(extent)?;
    Ok(())
}

/// Appends the entries, laid end to end, up to `length`.
///
/// On `NoMemory` the list is as before.
pub fn clip(entries: &[Extent], length: u64, out: &mut Vec<Extent>) -> Result<(), NoMemory>
    ensures ok { OnOk result (out.new.items ≡ out.old.items ++ clipped length entries.now) }

    // Each position below `length` keeps its flags, behind what was there, and no other is told.
    ensures flags { OnOk result ((p : ℕ) → p < length →
        flags_at out.new.items (span out.old.items + p) ≡ flags_at entries.now p) }
    ensures end { OnOk result (span out.new.items ≡ span out.old.items + min length (span entries.now)) }
    ensures err { OnErr result (out.new.items ≡ out.old.items) }
{
    append_clipped(entries, length, out)
}

/// Appends the front of the entries. The room for all of them is taken first.
fn append_clipped(entries: &[Extent], length: u64, out: &mut Vec<Extent>) -> Result<(), NoMemory>
    ensures ok { OnOk result (out.new.items ≡ out.old.items ++ clipped length entries.now) }
    ensures err { OnErr result (out.new.items ≡ out.old.items) }
{
    out.reserve(entries.len())?;
    let mut left = length;
    for entry in entries {
        if left <= entry.length {
            if left > 0 {
                out.push_reserved(Extent {
                    length: left,
                    flags: entry.flags,
                });
            }
            return Ok(());
        }
        out.push_reserved(*entry);
        left -= entry.length;
    }
    Ok(())
}
