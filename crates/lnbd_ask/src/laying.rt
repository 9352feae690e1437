//! What counts of an answer to a block status, and the map that the answers make. Nothing is asked here.

ghost use Rattle.std.specs.Prelude.{◌≡◌, ◌≤◌, ◌<◌, ◌+◌, IfOk, OnOk, min};
ghost use Rattle.lnbd_extents.specs.Lists.{clipped, span, with_extent};
ghost use Rattle.lnbd_ask.specs.Maps.{counting, first_flags, reached, size_end};
ghost use Rattle.lnbd_ask.specs.MapSteps.{with_all};

use lnbd_extents::push_joined;
use lnbd_model::{Extent, NoMemory};

/// The flags of the first extent.
fn first_flags(told: &[Extent]) -> u64
    ensures { result ≡ first_flags told.now }
{
    match told.first() {
        Some(extent) => extent.flags,
        None => 0,
    }
}

/// How far extents reach into a range of this length.
fn reached(told: &[Extent], length: u64) -> u64
    ensures { result ≡ reached length told.now }
{
    let mut left = length;
    'told: for extent in told {
        left = left.saturating_sub(extent.length);
    }
    length - left
}

/// Adds the extents to a map, up to this length.
fn lay_front(map: &mut Vec<Extent>, told: &[Extent], length: u64) -> Result<(), NoMemory>
    requires { span map.old.items + length ≤ size_end }
    ensures { OnOk result (map.new.items ≡ with_all map.old.items (clipped length told.now)) }
{
    let mut left = length;
    'told: for extent in told {
        if left <= extent.length {
            return lay_last(map, left, extent.flags);
        }
        push_joined(map, *extent)?;
        left -= extent.length;
    }
    Ok(())
}

/// Adds one extent more, if it isn't empty.
fn lay_last(map: &mut Vec<Extent>, length: u64, flags: u64) -> Result<(), NoMemory>
    requires { span map.old.items + length ≤ size_end }
    ensures { OnOk result (map.new.items ≡ with_extent map.old.items (record { length = length; flags = flags })) }
{
    push_joined(map, Extent { length, flags })
}

/// Adds to a map what counts of an answer to a range of this length, and tells how many bytes that is.
pub(crate) fn lay(
    map: &mut Vec<Extent>,
    told: &[Extent],
    block: u64,
    length: u64,
) -> Result<u64, NoMemory>
    requires some { 0 < block }
    requires fits { block ≤ length }
    requires room { span map.old.items + length ≤ size_end }
    ensures map { OnOk result (map.new.items ≡ with_all map.old.items (counting block length told.now)) }
    ensures passed { IfOk result (λ passed. passed ≡ span (counting block length told.now)) }
{
    let reach = reached(told, length);
    if reach < block {
        lay_last(map, block, first_flags(told))?;
        return Ok(block);
    }
    let passed = reach - reach % block;
    lay_front(map, told, passed)?;
    Ok(passed)
}
