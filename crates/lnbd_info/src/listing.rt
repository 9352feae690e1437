//! The text of a listing: a line for the protocol, and the lines of each export.

ghost use Rattle.std.specs.Prelude.{◌≡◌, ◌++◌, OnErr, OnOk, decimal, flat_map, string_bytes};
ghost use Rattle.std.specs.Option.{option_copied};
ghost use Rattle.lnbd_info.specs.Listing.{answer_line, blocks_lines, context_line, contexts_lines, description_line, entry_text, line, listing_text, outcome_lines, packets_text, protocol_line, size_text, sizes_lines, told_lines};

use crate::predicates::{QUESTIONS, is_true, key_of};
use crate::told::{Entry, description_of, first_told, shown_contexts};
use lnbd_args::Predicate;
use lnbd_model::{Blocks, Context, ExportInfo, Listed, NoMemory};
use lnbd_texts::push_quoted;
use std::alloc::{AllocError, Global};

/// Appends the size of an export in bytes, in decimal, and an end of line (nbdinfo(1), `--size`).
///
/// On `NoMemory` nothing was appended.
pub fn write_size(alloc: Global, info: &ExportInfo, out: &mut Vec<u8>) -> Result<(), NoMemory>
    ensures ok { OnOk result (out.new.items ≡ out.old.items ++ size_text info.now) }
    ensures err { OnErr result (out.new.items ≡ out.old.items) }
{
    let size = info.size;
    let text = format!(in alloc; "{size}\n")?;
    out.extend_from_slice(text.as_bytes())?;
    Ok(())
}

/// Appends a line for the protocol and the lines of each export (nbdinfo(1), "The output"). The
/// agreed meta contexts stand there only where `contexts` holds, for a plain listing.
///
/// On `NoMemory` nothing was appended.
pub fn write_listing(
    alloc: Global,
    entries: &[Entry],
    contexts: bool,
    out: &mut Vec<u8>,
) -> Result<(), NoMemory>
    ensures ok { OnOk result (out.new.items ≡ out.old.items ++ listing_text contexts entries.now) }
    ensures err { OnErr result (out.new.items ≡ out.old.items) }
{
    let mut text = String::new(alloc);
    push_listing(&mut text, entries, contexts)?;
    out.extend_from_slice(text.as_bytes())?;
    Ok(())
}

fn push_listing(text: &mut String, entries: &[Entry], contexts: bool) -> Result<(), AllocError>
    ensures { OnOk result (string_bytes text.new ≡ string_bytes text.old ++ listing_text contexts entries.now) }
{
    push_protocol(text, first_told(entries))?;
    push_entries(text, entries, contexts)
}

fn push_protocol(text: &mut String, told: Option<&ExportInfo>) -> Result<(), AllocError>
    ensures { OnOk result (string_bytes text.new ≡ string_bytes text.old ++ protocol_line (option_copied told.entry)) }
{
    let packets = packets_of(told);
    write!(
        text,
        "protocol: newstyle-fixed without TLS, using {packets} packets\n"
    )
}

/// The packets that are spoken, by what was told of an export.
fn packets_of(told: Option<&ExportInfo>) -> &'static str
    ensures { result.now ≡ packets_text (option_copied told.entry) }
{
    match told {
        Some(info) if info.extended => "extended",
        Some(info) if info.structured => "structured",
        _ => "simple",
    }
}

fn push_entries(text: &mut String, entries: &[Entry], contexts: bool) -> Result<(), AllocError>
    ensures { OnOk result (string_bytes text.new ≡ string_bytes text.old ++ flat_map (entry_text contexts) entries.now) }
{
    'entries: for entry in entries {
        push_entry(text, entry, contexts)?;
    }
    Ok(())
}

fn push_entry(text: &mut String, entry: &Entry, contexts: bool) -> Result<(), AllocError>
    ensures { OnOk result (string_bytes text.new ≡ string_bytes text.old ++ entry_text contexts entry.now) }
{
    text.push_str("export=")?;
    push_quoted(text, entry.listed.name.as_str())?;
    text.push_str(":\n")?;
    push_outcome(text, entry, contexts)
}

fn push_outcome(text: &mut String, entry: &Entry, contexts: bool) -> Result<(), AllocError>
    ensures { OnOk result (string_bytes text.new ≡ string_bytes text.old ++ outcome_lines contexts entry.now.listed entry.now.told) }
{
    match &entry.told {
        Ok(info) => push_told(text, &entry.listed, info, contexts),
        Err(code) => push_number(text, "error", *code as u64),
    }
}

fn push_told(
    text: &mut String,
    listed: &Listed,
    info: &ExportInfo,
    contexts: bool,
) -> Result<(), AllocError>
    ensures { OnOk result (string_bytes text.new ≡ string_bytes text.old ++ told_lines contexts listed.now info.now) }
{
    push_description(text, description_of(listed, info))?;
    push_number(text, "export-size", info.size)?;
    push_contexts(text, shown_contexts(info, contexts))?;
    push_answers(text, info, &QUESTIONS)?;
    push_blocks(text, info.blocks)
}

fn push_description(text: &mut String, description: &str) -> Result<(), AllocError>
    ensures { OnOk result (string_bytes text.new ≡ string_bytes text.old ++ description_line description.now) }
{
    if description.is_empty() {
        return Ok(());
    }
    text.push_str("\tdescription: ")?;
    push_quoted(text, description)?;
    text.push_str("\n")
}

/// A line of a name and a number.
fn push_number(text: &mut String, name: &str, number: u64) -> Result<(), AllocError>
    ensures { OnOk result (string_bytes text.new ≡ string_bytes text.old ++ line name.now (decimal number)) }
{
    write!(text, "\t{name}: {number}\n")
}

fn push_contexts(text: &mut String, contexts: &[Context]) -> Result<(), AllocError>
    ensures { OnOk result (string_bytes text.new ≡ string_bytes text.old ++ contexts_lines contexts.now) }
{
    if contexts.is_empty() {
        return Ok(());
    }
    text.push_str("\tcontexts:\n")?;
    push_names(text, contexts)
}

fn push_names(text: &mut String, contexts: &[Context]) -> Result<(), AllocError>
    ensures { OnOk result (string_bytes text.new ≡ string_bytes text.old ++ flat_map context_line contexts.now) }
{
    'contexts: for context in contexts {
        push_name(text, context)?;
    }
    Ok(())
}

fn push_name(text: &mut String, context: &Context) -> Result<(), AllocError>
    ensures { OnOk result (string_bytes text.new ≡ string_bytes text.old ++ context_line context.now) }
{
    let name = context.name.as_str();
    write!(text, "\t\t{name}\n")
}

fn push_answers(
    text: &mut String,
    info: &ExportInfo,
    questions: &[Predicate],
) -> Result<(), AllocError>
    ensures { OnOk result (string_bytes text.new ≡ string_bytes text.old ++ flat_map (answer_line info.now) questions.now) }
{
    'questions: for question in questions {
        push_answer(text, info, *question)?;
    }
    Ok(())
}

fn push_answer(text: &mut String, info: &ExportInfo, question: Predicate) -> Result<(), AllocError>
    ensures { OnOk result (string_bytes text.new ≡ string_bytes text.old ++ answer_line info.now question) }
{
    let key = key_of(question);
    let answer = is_true(question, info);
    write!(text, "\t{key}: {answer}\n")
}

fn push_blocks(text: &mut String, blocks: Option<Blocks>) -> Result<(), AllocError>
    ensures { OnOk result (string_bytes text.new ≡ string_bytes text.old ++ blocks_lines blocks) }
{
    match blocks {
        Some(blocks) => push_sizes(text, blocks),
        None => Ok(()),
    }
}

fn push_sizes(text: &mut String, blocks: Blocks) -> Result<(), AllocError>
    ensures { OnOk result (string_bytes text.new ≡ string_bytes text.old ++ sizes_lines blocks) }
{
    push_number(text, "block_size_minimum", blocks.minimum as u64)?;
    push_number(text, "block_size_preferred", blocks.preferred as u64)?;
    push_number(text, "block_size_maximum", blocks.maximum as u64)
}
