//! The lines of a map and of its totals, and the joining of what was told into a map.

ghost use Rattle.std.specs.Prelude.{◌≡◌, ℕ, ◌+◌, ◌<◌, ◌≤◌, ◌++◌, All, List, OnErr, OnOk, IfOk, string_bytes};
ghost use Rattle.lnbd_extents.specs.Lists.{span};
ghost use Rattle.lnbd_info.specs.Map.{AreFilled, IsMapOf, IsPartOf, IsTotalsText, allocation_text, flags_text, map_line, map_text, right, size_end, tenths, tenths_text, totals_line, totals_lines};

use lnbd_extents::{push_joined, totals};
use lnbd_model::{Extent, NoMemory};
use std::alloc::{AllocError, Global};

/// The extents that were told, laid end to end and with equal neighbours joined: the map that they make.
pub fn joined(alloc: Global, told: &[Extent]) -> Result<Vec<Extent>, NoMemory>
    requires { span told.now ≤ size_end }
    ensures { IfOk result (λ map. IsMapOf told.now map.items) }
{
    let mut map = Vec::new(alloc);
    'told: for extent in told {
        push_joined(&mut map, *extent)?;
    }
    Ok(map)
}

/// Appends a line for each extent of a map: offset, length and flags, and where `allocation` holds, for
/// a map of base:allocation, the words for them.
///
/// On `NoMemory` nothing was appended.
pub fn write_map(
    alloc: Global,
    map: &[Extent],
    allocation: bool,
    out: &mut Vec<u8>,
) -> Result<(), NoMemory>
    requires { span map.now ≤ size_end }
    ensures ok { OnOk result (out.new.items ≡ out.old.items ++ map_text allocation map.now) }
    ensures err { OnErr result (out.new.items ≡ out.old.items) }
{
    let mut text = String::new(alloc);
    push_map(&mut text, map, allocation)?;
    out.extend_from_slice(text.as_bytes())?;
    Ok(())
}

fn push_map(text: &mut String, map: &[Extent], allocation: bool) -> Result<(), AllocError>
    requires { span map.now ≤ size_end }
    ensures { OnOk result (string_bytes text.new ≡ string_bytes text.old ++ map_text allocation map.now) }
{
    let mut offset = 0u64;
    'extents: for extent in map {
        push_map_line(text, offset, *extent, allocation)?;
        offset += extent.length;
    }
    Ok(())
}

fn push_map_line(
    text: &mut String,
    offset: u64,
    extent: Extent,
    allocation: bool,
) -> Result<(), AllocError>
    ensures { OnOk result (string_bytes text.new ≡ string_bytes text.old ++ map_line allocation offset extent) }
{
    let length = extent.length;
    write!(text, "{offset:>10}  {length:>10}  ")?;
    push_flags(text, extent.flags, allocation)?;
    text.push_str("\n")
}

fn push_flags(text: &mut String, flags: u64, allocation: bool) -> Result<(), AllocError>
    ensures { OnOk result (string_bytes text.new ≡ string_bytes text.old ++ flags_text allocation flags) }
{
    write!(text, "{flags:>3}")?;
    if allocation {
        let words = allocation_words(flags);
        return write!(text, "  {words}");
    }
    Ok(())
}

/// Flags of base:allocation in words (NBD protocol, "base:allocation metadata context").
pub(crate) fn allocation_words(flags: u64) -> &'static str
    ensures { result.now ≡ allocation_text flags }
{
    match flags {
        0 => "data",
        1 => "hole",
        2 => "zero",
        3 => "hole,zero",
        _ => "unknown",
    }
}

/// Appends a line for each value of the flags of a map, in rising order: the sum of the lengths that
/// have it, how much that is of the whole in percent, rounded down, and the flags as in `write_map`.
///
/// On `NoMemory` nothing was appended.
pub fn write_totals(
    alloc: Global,
    map: &[Extent],
    allocation: bool,
    out: &mut Vec<u8>,
) -> Result<(), NoMemory>
    requires filled { AreFilled map.now }
    requires room { span map.now ≤ size_end }
    ensures ok { OnOk result ((text : List ℕ) × IsTotalsText allocation map.now text × (out.new.items ≡ out.old.items ++ text)) }
    ensures err { OnErr result (out.new.items ≡ out.old.items) }
{
    let totals = totals(alloc, map)?;
    let mut text = String::new(alloc);
    push_totals(&mut text, &totals, whole_of(map), allocation)?;
    out.extend_from_slice(text.as_bytes())?;
    Ok(())
}

fn push_totals(
    text: &mut String,
    totals: &[Extent],
    whole: u64,
    allocation: bool,
) -> Result<(), AllocError>
    requires { All (IsPartOf whole) totals.now }
    ensures { OnOk result (string_bytes text.new ≡ string_bytes text.old ++ totals_lines allocation whole totals.now) }
{
    'totals: for total in totals {
        push_totals_line(text, whole, *total, allocation)?;
    }
    Ok(())
}

fn push_totals_line(
    text: &mut String,
    whole: u64,
    total: Extent,
    allocation: bool,
) -> Result<(), AllocError>
    requires { IsPartOf whole total }
    ensures { OnOk result (string_bytes text.new ≡ string_bytes text.old ++ totals_line allocation whole total) }
{
    let sum = total.length;
    write!(text, "{sum:>10}  ")?;
    push_percentage(text, tenths_of(sum, whole))?;
    text.push_str("%  ")?;
    push_flags(text, total.flags, allocation)?;
    text.push_str("\n")
}

/// A number of tenths, with a point before the last digit.
fn push_percentage(text: &mut String, tenths: u64) -> Result<(), AllocError>
    ensures { OnOk result (string_bytes text.new ≡ string_bytes text.old ++ right 5 (tenths_text tenths)) }
{
    let ones = tenths / 10;
    let tenth = tenths % 10;
    write!(text, "{ones:>3}.{tenth}")
}

/// How many tenths of a percent some bytes are of a whole, rounded down.
fn tenths_of(sum: u64, whole: u64) -> u64
    requires some { 0 < sum }
    requires part { sum ≤ whole }
    ensures { result ≡ tenths sum whole }
{
    (sum as u128 * 1000 / whole as u128) as u64
}

/// How many bytes the extents span.
fn whole_of(map: &[Extent]) -> u64
    requires { span map.now ≤ size_end }
    ensures { result ≡ span map.now }
{
    let mut whole = 0u64;
    'extents: for extent in map {
        whole += extent.length;
    }
    whole
}
