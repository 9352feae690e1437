//! The JSON of a listing.

ghost use Rattle.std.specs.Prelude.{◌≡◌, ◌++◌, ◌∷◌, [], IfOk, OnErr, OnOk, map as each, string_bytes};
ghost use Rattle.std.specs.Option.{option_copied};
ghost use Rattle.serde_json.specs.Data.{array};
ghost use Rattle.serde_json.specs.View.{items_of, members_view, view};
ghost use Rattle.serde_json.specs.Written.{compact_text};
ghost use Rattle.lnbd_info.specs.Json.{with_members};
ghost use Rattle.lnbd_info.specs.ListingJson.{answer_member, are_structured, blocks_members, context_data, contexts_member, description_member, entry_data, listing_data, listing_json, outcome_members, sizes_members, told_members};

use crate::members::{Members, put_text};
use crate::predicates::{QUESTIONS, is_true, key_of};
use crate::told::{Entry, description_of, first_told, shown_contexts};
use lnbd_args::Predicate;
use lnbd_model::{Blocks, Context, ExportInfo, Listed, NoMemory};
use serde_json::{Value, push, put};
use std::alloc::{AllocError, Global};

/// Appends the JSON of a listing on one line (nbdinfo(1), `--json`). The agreed meta contexts stand
/// there only where `contexts` holds, for a plain listing.
///
/// On `NoMemory` nothing was appended.
pub fn write_json(
    alloc: Global,
    entries: &[Entry],
    contexts: bool,
    out: &mut Vec<u8>,
) -> Result<(), NoMemory>
    ensures ok { OnOk result (out.new.items ≡ out.old.items ++ listing_json contexts entries.now) }
    ensures err { OnErr result (out.new.items ≡ out.old.items) }
{
    let mut text = listing_text(alloc, entries, contexts)?;
    text.push_str("\n")?;
    out.extend_from_slice(text.as_bytes())?;
    Ok(())
}

/// The JSON of a listing, without the end of its line.
fn listing_text(alloc: Global, entries: &[Entry], contexts: bool) -> Result<String, AllocError>
    ensures { IfOk result (λ text. string_bytes text ≡ compact_text (listing_data contexts entries.now)) }
{
    let value = listing_value(alloc, entries, contexts)?;
    value.to_string(alloc)
}

fn listing_value(alloc: Global, entries: &[Entry], contexts: bool) -> Result<Value, AllocError>
    ensures { IfOk result (λ value. view value ≡ listing_data contexts entries.now) }
{
    let exports = entries_value(alloc, entries, contexts)?;
    let structured = are_structured(first_told(entries));
    let mut members = Members::new(alloc);
    put_text(alloc, &mut members, "protocol", "newstyle-fixed")?;
    put(&mut members, alloc, "TLS", Value::from(false))?;
    put(&mut members, alloc, "structured", Value::from(structured))?;
    put(&mut members, alloc, "exports", exports)?;
    Ok(Value::Object(members))
}

/// Whether replies are structured, by what was told of an export.
fn are_structured(told: Option<&ExportInfo>) -> bool
    ensures { result ≡ are_structured (option_copied told.entry) }
{
    match told {
        Some(info) => info.structured,
        None => false,
    }
}

fn entries_value(alloc: Global, entries: &[Entry], contexts: bool) -> Result<Value, AllocError>
    ensures { IfOk result (λ value. view value ≡ array (items_of (each (entry_data contexts) entries.now))) }
{
    let mut values = Vec::new(alloc);
    'entries: for entry in entries {
        let value = entry_value(alloc, entry, contexts)?;
        push(&mut values, value)?;
    }
    Ok(Value::Array(values))
}

fn entry_value(alloc: Global, entry: &Entry, contexts: bool) -> Result<Value, AllocError>
    ensures { IfOk result (λ value. view value ≡ entry_data contexts entry.now) }
{
    let mut members = Members::new(alloc);
    put_text(
        alloc,
        &mut members,
        "export-name",
        entry.listed.name.as_str(),
    )?;
    put_outcome(alloc, &mut members, entry, contexts)?;
    Ok(Value::Object(members))
}

fn put_outcome(
    alloc: Global,
    members: &mut Members,
    entry: &Entry,
    contexts: bool,
) -> Result<(), AllocError>
    ensures { OnOk result (members_view members.new.entries
        ≡ with_members (outcome_members contexts entry.now.listed entry.now.told) (members_view members.old.entries)) }
{
    match &entry.told {
        Ok(info) => put_told(alloc, members, &entry.listed, info, contexts),
        Err(code) => put(members, alloc, "error", Value::from(*code)),
    }
}

fn put_told(
    alloc: Global,
    members: &mut Members,
    listed: &Listed,
    info: &ExportInfo,
    contexts: bool,
) -> Result<(), AllocError>
    ensures { OnOk result (members_view members.new.entries
        ≡ with_members (told_members contexts listed.now info.now) (members_view members.old.entries)) }
{
    put_description(alloc, members, description_of(listed, info))?;
    put(members, alloc, "export-size", Value::from(info.size))?;
    put_contexts(alloc, members, shown_contexts(info, contexts))?;
    put_answers(alloc, members, info, &QUESTIONS)?;
    put_blocks(alloc, members, info.blocks)
}

fn put_description(
    alloc: Global,
    members: &mut Members,
    description: &str,
) -> Result<(), AllocError>
    ensures { OnOk result (members_view members.new.entries
        ≡ with_members (description_member description.now) (members_view members.old.entries)) }
{
    if description.is_empty() {
        return Ok(());
    }
    put_text(alloc, members, "description", description)
}

fn put_contexts(
    alloc: Global,
    members: &mut Members,
    contexts: &[Context],
) -> Result<(), AllocError>
    ensures { OnOk result (members_view members.new.entries
        ≡ with_members (contexts_member contexts.now) (members_view members.old.entries)) }
{
    if contexts.is_empty() {
        return Ok(());
    }
    let names = names_value(alloc, contexts)?;
    put(members, alloc, "contexts", names)
}

fn names_value(alloc: Global, contexts: &[Context]) -> Result<Value, AllocError>
    ensures { IfOk result (λ value. view value ≡ array (items_of (each context_data contexts.now))) }
{
    let mut values = Vec::new(alloc);
    'contexts: for context in contexts {
        let value = Value::try_from_str(alloc, context.name.as_str())?;
        push(&mut values, value)?;
    }
    Ok(Value::Array(values))
}

fn put_answers(
    alloc: Global,
    members: &mut Members,
    info: &ExportInfo,
    questions: &[Predicate],
) -> Result<(), AllocError>
    ensures { OnOk result (members_view members.new.entries
        ≡ with_members (each (answer_member info.now) questions.now) (members_view members.old.entries)) }
{
    'questions: for question in questions {
        put_answer(alloc, members, info, *question)?;
    }
    Ok(())
}

fn put_answer(
    alloc: Global,
    members: &mut Members,
    info: &ExportInfo,
    question: Predicate,
) -> Result<(), AllocError>
    ensures { OnOk result (members_view members.new.entries
        ≡ with_members (answer_member info.now question ∷ []) (members_view members.old.entries)) }
{
    let answer = Value::from(is_true(question, info));
    put(members, alloc, key_of(question), answer)
}

fn put_blocks(
    alloc: Global,
    members: &mut Members,
    blocks: Option<Blocks>,
) -> Result<(), AllocError>
    ensures { OnOk result (members_view members.new.entries
        ≡ with_members (blocks_members blocks) (members_view members.old.entries)) }
{
    match blocks {
        Some(blocks) => put_sizes(alloc, members, blocks),
        None => Ok(()),
    }
}

fn put_sizes(alloc: Global, members: &mut Members, blocks: Blocks) -> Result<(), AllocError>
    ensures { OnOk result (members_view members.new.entries
        ≡ with_members (sizes_members blocks) (members_view members.old.entries)) }
{
    put(members, alloc, "block_minimum", Value::from(blocks.minimum))?;
    put(
        members,
        alloc,
        "block_preferred",
        Value::from(blocks.preferred),
    )?;
    put(members, alloc, "block_maximum", Value::from(blocks.maximum))
}
