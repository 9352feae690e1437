//! The words of nbdinfo.

ghost use Rattle.std.specs.Prelude.{◌≡◌, ◌∷◌, ◌++◌, [], ℕ, IfOk, IsErrOf, List, MatchOption, OnOk, codes, false, map, option_map, string_bytes};
ghost use Rattle.clap.specs.Matches.{found_of};
ghost use Rattle.clap.specs.Walk.{rows_of};
ghost use Rattle.lnbd_args.specs.Clap.{Tells};
ghost use Rattle.lnbd_args.specs.Tools.{Asks, IsContext, IsMisplaced, IsNameOf, IsWhat, Reads, Wanted, chosen, info_rules, is_fitting, mapped, with_map};
ghost use Rattle.lnbd_args.specs.Words.{Part};
ghost use Rattle.lnbd_args.specs.declared.asked.Predicate.{Predicate};
ghost use Rattle.lnbd_args.specs.declared.asked.What.{What};
ghost use Rattle.lnbd_uri.specs.declared.fault.UriFault.{UriFault};
ghost use Rattle.lnbd_args.specs.Written.{IsTopic, chosen_by, step_of};
ghost use Rattle.lnbd_args.specs.declared.info.Topic.{Topic};

use crate::address::place;
use crate::asked::{Asked, Predicate, What};
use crate::command::read_parts;
use crate::fault::ArgsFault;
use crate::look::{has_value, is_given, value};
use crate::rule::info_rules;
use crate::text::text;
use clap::ArgMatches;
use lnbd_model::Text;
use std::alloc::{AllocError, Global};

/// What is asked of the export.
#[derive(Clone, Copy, Debug)]
pub(crate) enum Topic {
    Listing,
    List,
    Size,
    Map,
    Is,
    Can,
}

/// `--context=NAME`
fn context_word(alloc: Global, name: &str) -> Result<String, AllocError>
    ensures { IfOk result (λ word. string_bytes word ≡ codes "--context=" ++ name.now) }
{
    let mut word = String::from_str(alloc, "--context=")?;
    word.push_str(name)?;
    Ok(word)
}

/// Adds the words that stand for one before `--`.
fn push_mapped(alloc: Global, words: &mut Vec<String>, word: &String) -> Result<(), AllocError>
    ensures { OnOk result (map string_bytes words.new.items ≡ map string_bytes words.old.items ++ mapped (string_bytes word.now)) }
{
    match word.as_str().strip_prefix("--map=") {
        Some(name) => {
            words.push(String::from_str(alloc, "--map")?)?;
            words.push(context_word(alloc, name)?)?;
        }
        None => words.push(word.clone()?)?,
    }
    Ok(())
}

/// Adds what one word more adds.
fn push_next(
    alloc: Global,
    words: &mut Vec<String>,
    word: &String,
    is_ended: bool,
) -> Result<(), AllocError>
    ensures { OnOk result (map string_bytes words.new.items ≡ map string_bytes words.old.items ++ step_of is_ended (string_bytes word.now)) }
{
    if is_ended {
        words.push(word.clone()?)?;
        return Ok(());
    }
    push_mapped(alloc, words, word)
}

/// The words, where `--map` and `--context=NAME` stand in the place of each `--map=NAME` before
/// `--`.
fn with_map(alloc: Global, words: &[String]) -> Result<Vec<String>, AllocError>
    ensures { IfOk result (λ mapped. map string_bytes mapped.items ≡ with_map (map string_bytes words.now)) }
{
    let mut mapped = Vec::new(alloc);
    let mut is_ended = false;
    for word in words {
        is_ended = is_ended | (word.as_str() == "--");
        push_next(alloc, &mut mapped, word, is_ended)?;
    }
    Ok(mapped)
}

/// What is asked of the export, by which options ask: one of them at most.
fn topic_of(list: bool, size: bool, map: bool, is: bool, can: bool) -> Option<Topic>
    ensures { MatchOption result ((topic : Topic) → ¬ IsTopic (chosen_by list size map is can) topic) (λ topic. IsTopic (chosen_by list size map is can) topic) }
{
    match (list, size, map, is, can) {
        (false, false, false, false, false) => Some(Topic::Listing),
        (true, false, false, false, false) => Some(Topic::List),
        (false, true, false, false, false) => Some(Topic::Size),
        (false, false, true, false, false) => Some(Topic::Map),
        (false, false, false, true, false) => Some(Topic::Is),
        (false, false, false, false, true) => Some(Topic::Can),
        _ => None,
    }
}

/// The same, from what clap found.
fn asked_topic(found: &ArgMatches) -> Option<Topic>
    ensures { (parts : List Part) → Tells info_rules false (rows_of (found_of found.now)) parts
        → MatchOption result ((topic : Topic) → ¬ IsTopic (chosen parts) topic) (λ topic. IsTopic (chosen parts) topic) }
{
    let list = is_given(found, "list");
    let size = is_given(found, "size");
    let map = is_given(found, "map");
    let is = has_value(found, "is");
    let can = has_value(found, "can");
    topic_of(list, size, map, is, can)
}

/// What `--is NAME` asks.
fn is_predicate(name: &str) -> Option<Predicate>
    ensures { MatchOption result ((p : Predicate) → ¬ IsNameOf p (codes "is") name.now) (λ p. IsNameOf p (codes "is") name.now) }
{
    match name {
        "read-only" => Some(Predicate::IsReadOnly),
        "rotational" => Some(Predicate::IsRotational),
        "tls" => Some(Predicate::IsTls),
        _ => None,
    }
}

/// What `--can NAME` asks.
fn can_predicate(name: &str) -> Option<Predicate>
    ensures { MatchOption result ((p : Predicate) → ¬ IsNameOf p (codes "can") name.now) (λ p. IsNameOf p (codes "can") name.now) }
{
    match name {
        "cache" => Some(Predicate::CanCache),
        "df" => Some(Predicate::CanDf),
        "fast-zero" => Some(Predicate::CanFastZero),
        "flush" => Some(Predicate::CanFlush),
        "fua" => Some(Predicate::CanFua),
        "multi-conn" => Some(Predicate::CanMultiConn),
        "trim" => Some(Predicate::CanTrim),
        "zero" => Some(Predicate::CanZero),
        "write" => Some(Predicate::CanWrite),
        "read" => Some(Predicate::CanRead),
        "connect" => Some(Predicate::CanConnect),
        "structured-reply" => Some(Predicate::CanStructuredReply),
        _ => None,
    }
}

/// The context of a map.
fn context(alloc: Global, given: Option<&str>) -> Result<Text, ArgsFault>
    ensures context { IfOk result (λ text. IsContext (option_map (λ s. s.now) given.entry) text) }
    ensures usage { IsErrOf result ArgsFault.Usage → (text : List ℕ) → ¬ IsContext (option_map (λ s. s.now) given.entry) text }
    ensures no_address { (fault : UriFault) → ¬ IsErrOf result (ArgsFault.Uri fault) }
{
    let name = match given {
        Some(name) => name,
        None => "base:allocation",
    };
    text(alloc, name)
}

/// `--map`, with or without `--totals`
fn map_what(alloc: Global, found: &ArgMatches) -> Result<What, ArgsFault>
    ensures what { (parts : List Part) → Tells info_rules false (rows_of (found_of found.now)) parts → chosen parts ≡ codes "map" ∷ []
        → IfOk result (λ what. IsWhat parts what) }
    ensures usage { (parts : List Part) → Tells info_rules false (rows_of (found_of found.now)) parts → chosen parts ≡ codes "map" ∷ []
        → IsErrOf result ArgsFault.Usage → (what : What) → ¬ IsWhat parts what }
    ensures no_address { (fault : UriFault) → ¬ IsErrOf result (ArgsFault.Uri fault) }
{
    let given = value(found, "context");
    let context = context(alloc, given)?;
    if is_given(found, "totals") {
        return Ok(What::Totals(context));
    }
    Ok(What::Map(context))
}

/// `--is NAME`
fn is_what(found: &ArgMatches) -> Option<What>
    ensures { (parts : List Part) → Tells info_rules false (rows_of (found_of found.now)) parts → chosen parts ≡ codes "is" ∷ []
        → MatchOption result ((what : What) → ¬ IsWhat parts what) (λ what. IsWhat parts what) }
{
    let name = value(found, "is")?;
    let predicate = is_predicate(name)?;
    Some(What::Test(predicate))
}

/// `--can NAME`
fn can_what(found: &ArgMatches) -> Option<What>
    ensures { (parts : List Part) → Tells info_rules false (rows_of (found_of found.now)) parts → chosen parts ≡ codes "can" ∷ []
        → MatchOption result ((what : What) → ¬ IsWhat parts what) (λ what. IsWhat parts what) }
{
    let name = value(found, "can")?;
    let predicate = can_predicate(name)?;
    Some(What::Test(predicate))
}

/// What the options ask of the export.
fn what(alloc: Global, found: &ArgMatches) -> Result<What, ArgsFault>
    ensures what { (parts : List Part) → Tells info_rules false (rows_of (found_of found.now)) parts → IfOk result (λ what. IsWhat parts what) }
    ensures usage { (parts : List Part) → Tells info_rules false (rows_of (found_of found.now)) parts
        → IsErrOf result ArgsFault.Usage → (what : What) → ¬ IsWhat parts what }
    ensures no_address { (fault : UriFault) → ¬ IsErrOf result (ArgsFault.Uri fault) }
{
    match asked_topic(found) {
        Some(Topic::Listing) => Ok(What::Listing),
        Some(Topic::List) => Ok(What::List),
        Some(Topic::Size) => Ok(What::Size),
        Some(Topic::Map) => map_what(alloc, found),
        Some(Topic::Is) => is_what(found).ok_or(ArgsFault::Usage),
        Some(Topic::Can) => can_what(found).ok_or(ArgsFault::Usage),
        None => Err(ArgsFault::Usage),
    }
}

/// Whether totals and context stand with map alone, and json with none of size, is and can.
fn is_fitting(found: &ArgMatches) -> bool
    ensures { (parts : List Part) → Tells info_rules false (rows_of (found_of found.now)) parts → result ≡ is_fitting parts }
{
    let map = is_given(found, "map");
    let totals = is_given(found, "totals");
    let context = has_value(found, "context");
    let json = is_given(found, "json");
    let size = is_given(found, "size");
    let is = has_value(found, "is");
    let can = has_value(found, "can");
    (map | !(totals | context)) & (!json | !(size | is | can))
}

/// What the words behind `nbdinfo` ask for.
pub(crate) fn info(alloc: Global, words: &[String]) -> Result<Asked, ArgsFault>
    ensures asked { IfOk result (λ asked. Asks (codes "nbdinfo" ∷ map string_bytes words.now) asked) }
    ensures usage { IsErrOf result ArgsFault.Usage → (wanted : Wanted) → ¬ Reads (codes "nbdinfo" ∷ map string_bytes words.now) wanted }
    ensures address { (fault : UriFault) → IsErrOf result (ArgsFault.Uri fault) → IsMisplaced (codes "nbdinfo" ∷ map string_bytes words.now) fault }
{
    let mapped = match with_map(alloc, words) {
        Ok(mapped) => mapped,
        Err(_) => return Err(ArgsFault::NoMemory),
    };
    let rules = info_rules();
    let found = read_parts(alloc, &rules, false, &mapped)?;
    if !is_fitting(&found) {
        return Err(ArgsFault::Usage);
    }
    let what = what(alloc, &found)?;
    let Some(address) = value(&found, "FIRST") else {
        return Err(ArgsFault::Usage);
    };
    let place = place(alloc, address)?;
    let json = is_given(&found, "json");
    Ok(Asked::Info { what, json, place })
}
