//! The words of nbdcopy.

ghost use Rattle.std.specs.Prelude.{◌≡◌, ◌∷◌, ℕ, IfOk, IsErrOf, List, MatchOption, codes, map, string_bytes, true};
ghost use Rattle.clap.specs.Matches.{found_of};
ghost use Rattle.clap.specs.Walk.{first_of, rows_of};
ghost use Rattle.lnbd_args.specs.Clap.{Tells};
ghost use Rattle.lnbd_args.specs.Tools.{Asks, IsCopyOptions, IsMisplaced, IsRequestSize, IsSparse, Reads, Wanted, copy, copy_rules};
ghost use Rattle.lnbd_args.specs.Words.{Part};
ghost use Rattle.lnbd_args.specs.Written.{asked_of};
ghost use Rattle.lnbd_plan.specs.declared.options.CopyOptions.{CopyOptions};
ghost use Rattle.lnbd_uri.specs.declared.fault.UriFault.{UriFault};

use crate::asked::Asked;
use crate::command::read_parts;
use crate::fault::ArgsFault;
use crate::look::{is_given, value, within};
use crate::rule::copy_rules;
use crate::side::{are_sides, side};
use clap::ArgMatches;
use lnbd_plan::CopyOptions;
use lnbd_store::Side;
use std::alloc::Global;

/// `--request-size`
fn request_size(found: &ArgMatches) -> Option<u32>
    ensures { MatchOption result ((n : ℕ) → ¬ IsRequestSize (first_of (codes "request-size") (rows_of (found_of found.now))) n)
        (λ n. IsRequestSize (first_of (codes "request-size") (rows_of (found_of found.now))) n) }
{
    let n = within(found, "request-size", 262144, 4096, 33554432)?;
    if !n.is_power_of_two() {
        return None;
    }
    Some(n)
}

/// `--sparse`
fn sparse(found: &ArgMatches) -> Option<u32>
    ensures { MatchOption result ((n : ℕ) → ¬ IsSparse (first_of (codes "sparse") (rows_of (found_of found.now))) n)
        (λ n. IsSparse (first_of (codes "sparse") (rows_of (found_of found.now))) n) }
{
    let n = within(found, "sparse", 4096, 0, 33554432)?;
    if n == 0 {
        return Some(0);
    }
    if n < 512 {
        return None;
    }
    if !n.is_power_of_two() {
        return None;
    }
    Some(n)
}

/// The options of a copy.
fn copy_options(found: &ArgMatches) -> Option<CopyOptions>
    ensures { (parts : List Part) → Tells copy_rules true (rows_of (found_of found.now)) parts
        → MatchOption result ((options : CopyOptions) → ¬ IsCopyOptions parts options) (λ options. IsCopyOptions parts options) }
{
    let connections = within(found, "connections", 4, 1, 16)?;
    let requests = within(found, "requests", 64, 1, 512)?;
    let request_size = request_size(found)?;
    let sparse = sparse(found)?;
    Some(CopyOptions {
        connections,
        requests,
        request_size,
        sparse,
        extents: !is_given(found, "no-extents"),
        allocated: is_given(found, "allocated"),
        destination_is_zero: is_given(found, "destination-is-zero"),
        flush: is_given(found, "flush"),
    })
}

/// The options and the sides in the words behind `nbdcopy`.
fn copy_words<'a>(
    alloc: Global,
    words: &'a [String],
) -> Result<(CopyOptions, &'a str, &'a str), ArgsFault>
    ensures reads { IfOk result (λ w. Reads (codes "nbdcopy" ∷ map string_bytes words.entry.now) (copy w.0 w.1.now w.2.now)) }
    ensures usage { IsErrOf result ArgsFault.Usage → (wanted : Wanted) → ¬ Reads (codes "nbdcopy" ∷ map string_bytes words.entry.now) wanted }
    ensures no_address { (fault : UriFault) → ¬ IsErrOf result (ArgsFault.Uri fault) }
{
    let rules = copy_rules();
    let found = read_parts(alloc, &rules, true, words)?;
    let Some(options) = copy_options(&found) else {
        return Err(ArgsFault::Usage);
    };
    let Some(first) = value(&found, "FIRST") else {
        return Err(ArgsFault::Usage);
    };
    let Some(second) = value(&found, "SECOND") else {
        return Err(ArgsFault::Usage);
    };
    if !are_sides(first, second) {
        return Err(ArgsFault::Usage);
    }
    Ok((options, first, second))
}

/// What a copy with these sides is asked as.
fn asked_of(options: CopyOptions, from: Side, to: Side) -> Asked
    ensures { result ≡ asked_of options from to }
{
    match (from, to) {
        (Side::Nbd(from), Side::Nbd(to)) => Asked::Copy { options, from, to },
        (from, to) => Asked::FileCopy { options, from, to },
    }
}

/// What the words behind `nbdcopy` ask for.
pub(crate) fn copy(alloc: Global, words: &[String]) -> Result<Asked, ArgsFault>
    ensures asked { IfOk result (λ asked. Asks (codes "nbdcopy" ∷ map string_bytes words.now) asked) }
    ensures usage { IsErrOf result ArgsFault.Usage → (wanted : Wanted) → ¬ Reads (codes "nbdcopy" ∷ map string_bytes words.now) wanted }
    ensures address { (fault : UriFault) → IsErrOf result (ArgsFault.Uri fault) → IsMisplaced (codes "nbdcopy" ∷ map string_bytes words.now) fault }
{
    let (options, first, second) = copy_words(alloc, words)?;
    let from = side(alloc, first)?;
    let to = side(alloc, second)?;
    Ok(asked_of(options, from, to))
}
