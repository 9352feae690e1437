//! The JSON of a map and of its totals: an array on one line, written one object after another, so that
//! no more than one of them is held as a value at a time.

ghost use Rattle.std.specs.Prelude.{◌≡◌, ℕ, ◌≤◌, ◌++◌, List, IfOk, OnErr, OnOk, map as each, string_bytes};
ghost use Rattle.serde_json.specs.View.{items_of, members_view};
ghost use Rattle.serde_json.specs.Written.{comma_if, compact_text};
ghost use Rattle.lnbd_extents.specs.Lists.{span};
ghost use Rattle.lnbd_info.specs.Json.{array_of, with_members};
ghost use Rattle.lnbd_info.specs.Map.{size_end};
ghost use Rattle.lnbd_info.specs.MapJson.{IsTotalsJson, allocation_member, extent_data, extents_data, map_json, total_data};

use crate::map::allocation_words;
use crate::members::{Members, put_text};
use lnbd_extents::totals;
use lnbd_model::{Extent, NoMemory};
use serde_json::{Value, put};
use std::alloc::{AllocError, Global};

/// Appends the JSON of a map on one line: for each extent its offset, length and flags, and where
/// `allocation` holds, for a map of base:allocation, the words for them.
///
/// On `NoMemory` nothing was appended.
pub fn write_map_json(
    alloc: Global,
    map: &[Extent],
    allocation: bool,
    out: &mut Vec<u8>,
) -> Result<(), NoMemory>
    requires { span map.now ≤ size_end }
    ensures ok { OnOk result (out.new.items ≡ out.old.items ++ map_json allocation map.now) }
    ensures err { OnErr result (out.new.items ≡ out.old.items) }
{
    let mut text = String::new(alloc);
    push_extents(alloc, &mut text, map, allocation)?;
    text.push_str("\n")?;
    out.extend_from_slice(text.as_bytes())?;
    Ok(())
}

fn push_extents(
    alloc: Global,
    text: &mut String,
    map: &[Extent],
    allocation: bool,
) -> Result<(), AllocError>
    requires { span map.now ≤ size_end }
    ensures { OnOk result (string_bytes text.new ≡ string_bytes text.old ++ compact_text (array_of (extents_data allocation 0 map.now))) }
{
    text.push_str("[")?;
    let mut later = false;
    let mut offset = 0u64;
    'extents: for extent in map {
        let item = extent_json(alloc, offset, *extent, allocation)?;
        push_item(text, later, item.as_str())?;
        later = true;
        offset += extent.length;
    }
    text.push_str("]")
}

/// An item of an array, behind a comma if it is a later one.
fn push_item(text: &mut String, later: bool, item: &str) -> Result<(), AllocError>
    ensures { OnOk result (string_bytes text.new ≡ string_bytes text.old ++ (comma_if later ++ item.now)) }
{
    if later {
        text.push_str(",")?;
    }
    text.push_str(item)
}

fn extent_json(
    alloc: Global,
    offset: u64,
    extent: Extent,
    allocation: bool,
) -> Result<String, AllocError>
    ensures { IfOk result (λ text. string_bytes text ≡ compact_text (extent_data allocation offset extent)) }
{
    let mut members = Members::new(alloc);
    put_allocation(alloc, &mut members, extent.flags, allocation)?;
    put(&mut members, alloc, "length", Value::from(extent.length))?;
    put(&mut members, alloc, "offset", Value::from(offset))?;
    put(&mut members, alloc, "type", Value::from(extent.flags))?;
    Value::Object(members).to_string(alloc)
}

fn put_allocation(
    alloc: Global,
    members: &mut Members,
    flags: u64,
    allocation: bool,
) -> Result<(), AllocError>
    ensures { OnOk result (members_view members.new.entries
        ≡ with_members (allocation_member allocation flags) (members_view members.old.entries)) }
{
    if !allocation {
        return Ok(());
    }
    put_text(alloc, members, "description", allocation_words(flags))
}

/// Appends the JSON of the totals of a map on one line: for each value of the flags, in rising order, the
/// sum of the lengths that have it, and the flags as in `write_map_json`.
///
/// On `NoMemory` nothing was appended.
pub fn write_totals_json(
    alloc: Global,
    map: &[Extent],
    allocation: bool,
    out: &mut Vec<u8>,
) -> Result<(), NoMemory>
    requires { span map.now ≤ size_end }
    ensures ok { OnOk result ((text : List ℕ) × IsTotalsJson allocation map.now text × (out.new.items ≡ out.old.items ++ text)) }
    ensures err { OnErr result (out.new.items ≡ out.old.items) }
{
    let totals = totals(alloc, map)?;
    let mut text = String::new(alloc);
    push_totals_json(alloc, &mut text, &totals, allocation)?;
    text.push_str("\n")?;
    out.extend_from_slice(text.as_bytes())?;
    Ok(())
}

fn push_totals_json(
    alloc: Global,
    text: &mut String,
    totals: &[Extent],
    allocation: bool,
) -> Result<(), AllocError>
    ensures { OnOk result (string_bytes text.new ≡ string_bytes text.old ++ compact_text (array_of (each (total_data allocation) totals.now))) }
{
    text.push_str("[")?;
    let mut later = false;
    'totals: for total in totals {
        let item = total_json(alloc, *total, allocation)?;
        push_item(text, later, item.as_str())?;
        later = true;
    }
    text.push_str("]")
}

fn total_json(alloc: Global, total: Extent, allocation: bool) -> Result<String, AllocError>
    ensures { IfOk result (λ text. string_bytes text ≡ compact_text (total_data allocation total)) }
{
    let mut members = Members::new(alloc);
    put_allocation(alloc, &mut members, total.flags, allocation)?;
    put(&mut members, alloc, "size", Value::from(total.length))?;
    put(&mut members, alloc, "type", Value::from(total.flags))?;
    Value::Object(members).to_string(alloc)
}
