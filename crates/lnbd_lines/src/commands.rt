//! A command of a script, from its text.

ghost use Rattle.std.specs.Prelude.{◌≡◌, ◌≤◌, MatchOption, IfOk, List, ℕ};
ghost use Rattle.lnbd_lines.specs.Grammar.{Follows, IsCommand, IsRange, IsWrite, max_bytes};
ghost use Rattle.lnbd_lines.specs.Written.{HasNoRange, HasNoRead, IsWriteOf};
ghost use Rattle.lnbd_lines.specs.declared.command.Command.{Command};
ghost use Rattle.lnbd_lines.specs.declared.command.Payload.{Payload};
ghost use Rattle.lnbd_lines.specs.declared.command.Range.{Range};

use crate::command::{Command, Payload, Range};
use crate::number::{MOST_BYTES, flags};
use crate::payloads::payload;
use crate::ranges::{place, range_behind};
use crate::word::cut;
use lnbd_model::NoMemory;
use std::alloc::Global;

/// The range of a read behind this front: one of so many bytes as a read may ask for.
fn read_behind(text: &str, front: &str) -> Option<Range>
    ensures { MatchOption result ((range : Range) → ¬ (Follows front.now (λ rest. IsRange rest range) text.now × (range.length ≤ max_bytes))) (λ range. Follows front.now (λ rest. IsRange rest range) text.now × (range.length ≤ max_bytes)) }
{
    let Some(range) = range_behind(text, front) else {
        return None;
    };
    if range.length > MOST_BYTES {
        return None;
    }
    Some(range)
}

/// A read.
fn read(text: &str) -> Option<Command>
    ensures { MatchOption result (HasNoRead text.now) (λ command. IsCommand text.now command) }
{
    if let Some(range) = read_behind(text, "pread ") {
        return Some(Command::Pread(range));
    }
    match read_behind(text, "pread-structured ") {
        Some(range) => Some(Command::PreadStructured(range)),
        None => None,
    }
}

/// `BYTES OFF [FLAGS]`.
fn write(alloc: Global, text: &str) -> Result<Option<Command>, NoMemory>
    ensures { IfOk result (λ found. MatchOption found ((payload : Payload) (offset flags : ℕ) → ¬ IsWrite text.now payload offset flags) (λ command. IsWriteOf text.now command)) }
{
    let Some((bytes, rest)) = cut(text) else {
        return Ok(None);
    };
    let Some((offset, flags)) = place(rest) else {
        return Ok(None);
    };
    match payload(alloc, bytes)? {
        Some(payload) => Ok(Some(Command::Pwrite {
            payload,
            offset,
            flags,
        })),
        None => Ok(None),
    }
}

/// `pwrite BYTES OFF [FLAGS]`.
fn pwrite(alloc: Global, text: &str) -> Result<Option<Command>, NoMemory>
    ensures { IfOk result (λ found. MatchOption found ((payload : Payload) (offset flags : ℕ) → ¬ IsCommand text.now (Command.Pwrite payload offset flags)) (λ command. IsCommand text.now command)) }
{
    let Some(rest) = text.strip_prefix("pwrite ") else {
        return Ok(None);
    };
    write(alloc, rest)
}

/// `flush [FLAGS]`.
fn flush(text: &str) -> Option<Command>
    ensures { MatchOption result ((flags : ℕ) → ¬ IsCommand text.now (Command.Flush flags)) (λ command. IsCommand text.now command) }
{
    if text == "flush" {
        return Some(Command::Flush { flags: 0 });
    }
    let Some(rest) = text.strip_prefix("flush ") else {
        return None;
    };
    match flags(rest) {
        Some(flags) => Some(Command::Flush { flags }),
        None => None,
    }
}

/// A command with a range and no payload, but for a read.
fn ranged(text: &str) -> Option<Command>
    ensures { MatchOption result (HasNoRange text.now) (λ command. IsCommand text.now command) }
{
    if let Some(range) = range_behind(text, "trim ") {
        return Some(Command::Trim(range));
    }
    if let Some(range) = range_behind(text, "zero ") {
        return Some(Command::Zero(range));
    }
    if let Some(range) = range_behind(text, "cache ") {
        return Some(Command::Cache(range));
    }
    match range_behind(text, "block-status ") {
        Some(range) => Some(Command::BlockStatus(range)),
        None => None,
    }
}

/// The command that the text spells, if it spells one.
pub(crate) fn command(alloc: Global, text: &str) -> Result<Option<Command>, NoMemory>
    ensures { IfOk result (λ found. MatchOption found ((command : Command) → ¬ IsCommand text.now command) (λ command. IsCommand text.now command)) }
{
    if let Some(command) = read(text) {
        return Ok(Some(command));
    }
    if let Some(command) = ranged(text) {
        return Ok(Some(command));
    }
    if let Some(command) = flush(text) {
        return Ok(Some(command));
    }
    pwrite(alloc, text)
}
