//! The words of nbddump.

ghost use Rattle.std.specs.Prelude.{◌∷◌, ℕ, IfOk, IsErrOf, List, MatchOption, Option, codes, map, string_bytes, false};
ghost use Rattle.clap.specs.Matches.{found_of};
ghost use Rattle.clap.specs.Walk.{first_of, rows_of};
ghost use Rattle.lnbd_args.specs.Clap.{Tells};
ghost use Rattle.lnbd_args.specs.Tools.{Asks, IsLength, IsMisplaced, IsRange, Reads, Wanted, dump, dump_rules};
ghost use Rattle.lnbd_args.specs.Words.{Part};
ghost use Rattle.lnbd_uri.specs.declared.fault.UriFault.{UriFault};

use crate::address::place;
use crate::asked::Asked;
use crate::command::read_parts;
use crate::fault::ArgsFault;
use crate::look::{number_or, value};
use crate::number::number;
use crate::rule::dump_rules;
use clap::ArgMatches;
use std::alloc::Global;

/// `--length`, if it is given
fn length(found: &ArgMatches) -> Option<Option<u64>>
    ensures { MatchOption result ((length : Option ℕ) → ¬ IsLength (first_of (codes "length") (rows_of (found_of found.now))) length)
        (λ length. IsLength (first_of (codes "length") (rows_of (found_of found.now))) length) }
{
    let Some(digits) = value(found, "length") else {
        return Some(None);
    };
    let length = number(digits)?;
    Some(Some(length))
}

/// From where on bytes are shown, and how many.
fn range(found: &ArgMatches) -> Option<(u64, Option<u64>)>
    ensures { (parts : List Part) → Tells dump_rules false (rows_of (found_of found.now)) parts
        → MatchOption result ((offset : ℕ) (length : Option ℕ) → ¬ IsRange parts offset length) (λ r. IsRange parts r.0 r.1) }
{
    let offset = number_or(found, "offset", 0)?;
    let length = length(found)?;
    Some((offset, length))
}

/// The range and the address in the words behind `nbddump`.
fn dump_words<'a>(
    alloc: Global,
    words: &'a [String],
) -> Result<(u64, Option<u64>, &'a str), ArgsFault>
    ensures reads { IfOk result (λ w. Reads (codes "nbddump" ∷ map string_bytes words.entry.now) (dump w.0 w.1 w.2.now)) }
    ensures usage { IsErrOf result ArgsFault.Usage → (wanted : Wanted) → ¬ Reads (codes "nbddump" ∷ map string_bytes words.entry.now) wanted }
    ensures no_address { (fault : UriFault) → ¬ IsErrOf result (ArgsFault.Uri fault) }
{
    let rules = dump_rules();
    let found = read_parts(alloc, &rules, false, words)?;
    let Some((offset, length)) = range(&found) else {
        return Err(ArgsFault::Usage);
    };
    let Some(address) = value(&found, "FIRST") else {
        return Err(ArgsFault::Usage);
    };
    Ok((offset, length, address))
}

/// What the words behind `nbddump` ask for.
pub(crate) fn dump(alloc: Global, words: &[String]) -> Result<Asked, ArgsFault>
    ensures asked { IfOk result (λ asked. Asks (codes "nbddump" ∷ map string_bytes words.now) asked) }
    ensures usage { IsErrOf result ArgsFault.Usage → (wanted : Wanted) → ¬ Reads (codes "nbddump" ∷ map string_bytes words.now) wanted }
    ensures address { (fault : UriFault) → IsErrOf result (ArgsFault.Uri fault) → IsMisplaced (codes "nbddump" ∷ map string_bytes words.now) fault }
{
    let (offset, length, address) = dump_words(alloc, words)?;
    let place = place(alloc, address)?;
    Ok(Asked::Dump {
        place,
        offset,
        length,
    })
}
