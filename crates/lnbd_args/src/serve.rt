//! The words of serve.

ghost use Rattle.std.specs.Prelude.{◌≡◌, ◌≤◌, ◌∷◌, ℕ, Bool, IfOk, IsErrOf, List, MatchOption, None, Some, codes, length, map, string_bytes, false};
ghost use Rattle.clap.specs.Matches.{found_of};
ghost use Rattle.clap.specs.Walk.{first_of, rows_of};
ghost use Rattle.lnbd_model.specs.Text.{text_limit};
ghost use Rattle.lnbd_args.specs.Clap.{Tells};
ghost use Rattle.lnbd_args.specs.Tools.{Asks, Hosts, IsContent, IsMisplaced, IsServe, IsSize, Reads, Wanted, given_address, serve_rules};
ghost use Rattle.lnbd_args.specs.Words.{Part, Word, value_of};
ghost use Rattle.lnbd_store.specs.declared.serving.Content.{Content};
ghost use Rattle.lnbd_uri.specs.declared.fault.UriFault.{UriFault};

use crate::address::place;
use crate::asked::Asked;
use crate::command::read_parts;
use crate::fault::ArgsFault;
use crate::look::{has_value, is_given, number_or, value, within};
use crate::number::number;
use crate::rule::serve_rules;
use crate::split::split;
use crate::text::{text, texts};
use clap::ArgMatches;
use lnbd_model::{Text, Texts};
use lnbd_store::{Content, Serving};
use std::alloc::Global;

/// `--size`
fn size(found: &ArgMatches) -> Option<u64>
    ensures { MatchOption result ((n : ℕ) → ¬ IsSize (first_of (codes "size") (rows_of (found_of found.now))) n)
        (λ n. IsSize (first_of (codes "size") (rows_of (found_of found.now))) n) }
{
    let digits = value(found, "size")?;
    let size = number(digits)?;
    if size > 1_073_741_824 {
        return None;
    }
    Some(size)
}

/// Bytes that a number gives.
fn made(found: &ArgMatches) -> Option<Content>
    ensures { (parts : List Part) → Tells serve_rules false (rows_of (found_of found.now)) parts → value_of (codes "file") parts ≡ None
        → MatchOption result ((content : Content) → ¬ IsContent parts content) (λ content. IsContent parts content) }
{
    let size = size(found)?;
    let seed = number_or(found, "seed", 0)?;
    Some(Content::Made { seed, size })
}

/// The bytes of the file at this path.
fn file(alloc: Global, found: &ArgMatches, path: &str) -> Result<Content, ArgsFault>
    ensures content { (parts : List Part) → Tells serve_rules false (rows_of (found_of found.now)) parts → value_of (codes "file") parts ≡ Some path.now
        → IfOk result (λ content. IsContent parts content) }
    ensures usage { (parts : List Part) → Tells serve_rules false (rows_of (found_of found.now)) parts → value_of (codes "file") parts ≡ Some path.now
        → IsErrOf result ArgsFault.Usage → (content : Content) → ¬ IsContent parts content }
    ensures no_address { (fault : UriFault) → ¬ IsErrOf result (ArgsFault.Uri fault) }
{
    if has_value(found, "size") {
        return Err(ArgsFault::Usage);
    }
    if has_value(found, "seed") {
        return Err(ArgsFault::Usage);
    }
    let path = text(alloc, path)?;
    Ok(Content::File(path))
}

/// What is served.
fn content(alloc: Global, found: &ArgMatches) -> Result<Content, ArgsFault>
    ensures content { (parts : List Part) → Tells serve_rules false (rows_of (found_of found.now)) parts → IfOk result (λ content. IsContent parts content) }
    ensures usage { (parts : List Part) → Tells serve_rules false (rows_of (found_of found.now)) parts
        → IsErrOf result ArgsFault.Usage → (content : Content) → ¬ IsContent parts content }
    ensures no_address { (fault : UriFault) → ¬ IsErrOf result (ArgsFault.Uri fault) }
{
    match value(found, "file") {
        None => made(found).ok_or(ArgsFault::Usage),
        Some(path) => file(alloc, found, path),
    }
}

/// What is served, whether it is read-only, and the sessions.
fn served(alloc: Global, found: &ArgMatches) -> Result<(Content, bool, u32), ArgsFault>
    ensures served { (parts : List Part) → Tells serve_rules false (rows_of (found_of found.now)) parts → IfOk result (λ s. IsServe parts s.0 s.1 s.2) }
    ensures usage { (parts : List Part) → Tells serve_rules false (rows_of (found_of found.now)) parts
        → IsErrOf result ArgsFault.Usage → (content : Content) (read_only : Bool) (sessions : ℕ) → ¬ IsServe parts content read_only sessions }
    ensures no_address { (fault : UriFault) → ¬ IsErrOf result (ArgsFault.Uri fault) }
{
    let Some(sessions) = within(found, "sessions", 1, 1, 1_000_000) else {
        return Err(ArgsFault::Usage);
    };
    let read_only = is_given(found, "read-only");
    let content = content(alloc, found)?;
    Ok((content, read_only, sessions))
}

/// The options and the address in serve's own words.
fn hosted<'a>(
    alloc: Global,
    own: &'a [String],
) -> Result<((Content, bool, u32), &'a str), ArgsFault>
    ensures hosts { IfOk result (λ w. Hosts (map string_bytes own.entry.now) w.0.0 w.0.1 w.0.2 w.1.now) }
    ensures usage { IsErrOf result ArgsFault.Usage
        → (content : Content) (read_only : Bool) (sessions : ℕ) (address : Word) → ¬ Hosts (map string_bytes own.entry.now) content read_only sessions address }
    ensures no_address { (fault : UriFault) → ¬ IsErrOf result (ArgsFault.Uri fault) }
{
    let rules = serve_rules();
    let found = read_parts(alloc, &rules, false, own)?;
    let Some(address) = value(&found, "FIRST") else {
        return Err(ArgsFault::Usage);
    };
    let options = served(alloc, &found)?;
    Ok((options, address))
}

/// The address that the program is given, if one is run.
fn given_address(alloc: Global, run: &Texts, address: &str) -> Result<Text, ArgsFault>
    ensures given { IfOk result (λ given. given ≡ given_address run.now address.now) }
    ensures short { IfOk result (λ given. length (given_address run.now address.now) ≤ text_limit) }
    ensures usage { IsErrOf result ArgsFault.Usage → ¬ (length (given_address run.now address.now) ≤ text_limit) }
    ensures no_address { (fault : UriFault) → ¬ IsErrOf result (ArgsFault.Uri fault) }
{
    if run.as_slice().is_empty() {
        return Ok(Text::empty(alloc));
    }
    text(alloc, address)
}

/// What the words behind `serve` ask for.
pub(crate) fn serve(alloc: Global, words: &[String]) -> Result<Asked, ArgsFault>
    ensures asked { IfOk result (λ asked. Asks (codes "serve" ∷ map string_bytes words.now) asked) }
    ensures usage { IsErrOf result ArgsFault.Usage → (wanted : Wanted) → ¬ Reads (codes "serve" ∷ map string_bytes words.now) wanted }
    ensures address { (fault : UriFault) → IsErrOf result (ArgsFault.Uri fault) → IsMisplaced (codes "serve" ∷ map string_bytes words.now) fault }
{
    let Some((own, rest)) = split(words) else {
        return Err(ArgsFault::Usage);
    };
    let ((content, read_only, sessions), address) = hosted(alloc, own)?;
    let run = texts(alloc, rest)?;
    let uri = given_address(alloc, &run, address)?;
    let place = place(alloc, address)?;
    Ok(Asked::Serve(Serving {
        place,
        content,
        read_only,
        sessions,
        uri,
        run,
    }))
}
