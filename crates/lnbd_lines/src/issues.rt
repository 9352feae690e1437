//! A command of a script with what its callbacks answer, from its text.

ghost use Rattle.std.specs.Prelude.{IfOk, MatchOption, ℕ};
ghost use Rattle.lnbd_lines.specs.Grammar.{Asks, IsFailing};
ghost use Rattle.lnbd_lines.specs.Written.{HasNoIssue};
ghost use Rattle.lnbd_lines.specs.declared.command.Command.{Command};
ghost use Rattle.lnbd_lines.specs.declared.line.Line.{Line};
ghost use Rattle.lnbd_lines.specs.declared.command.Manner.{Manner};

use crate::command::{Command, Manner};
use crate::commands::command;
use crate::line::Line;
use crate::number::flags;
use crate::word::cut;
use lnbd_model::NoMemory;
use std::alloc::Global;

/// `COMMAND`.
fn kept(alloc: Global, text: &str) -> Result<Option<Line>, NoMemory>
    ensures { IfOk result (λ asked. MatchOption asked ((command : Command) → ¬ Asks text.now (Line.Command Manner.Keep command)) (λ line. Asks text.now line)) }
{
    match command(alloc, text)? {
        Some(command) => Ok(Some(Line::Command {
            manner: Manner::Keep,
            command,
        })),
        None => Ok(None),
    }
}

/// `auto COMMAND`.
fn retired(alloc: Global, text: &str) -> Result<Option<Line>, NoMemory>
    ensures { IfOk result (λ asked. MatchOption asked ((command : Command) → ¬ Asks text.now (Line.Command Manner.Retire command)) (λ line. Asks text.now line)) }
{
    let Some(rest) = text.strip_prefix("auto ") else {
        return Ok(None);
    };
    match command(alloc, rest)? {
        Some(command) => Ok(Some(Line::Command {
            manner: Manner::Retire,
            command,
        })),
        None => Ok(None),
    }
}

/// `N COMMAND`.
fn failing(alloc: Global, text: &str) -> Result<Option<(u32, Command)>, NoMemory>
    ensures { IfOk result (λ found. MatchOption found ((error : ℕ) (command : Command) → ¬ IsFailing text.now error command) (λ found. IsFailing text.now found.0 found.1)) }
{
    let Some((digits, rest)) = cut(text) else {
        return Ok(None);
    };
    let Some(error) = flags(digits) else {
        return Ok(None);
    };
    match command(alloc, rest)? {
        Some(command) => Ok(Some((error, command))),
        None => Ok(None),
    }
}

/// `fail N COMMAND`.
fn failed(alloc: Global, text: &str) -> Result<Option<Line>, NoMemory>
    ensures { IfOk result (λ asked. MatchOption asked ((error : ℕ) (command : Command) → ¬ Asks text.now (Line.Command (Manner.Fail error) command)) (λ line. Asks text.now line)) }
{
    let Some(rest) = text.strip_prefix("fail ") else {
        return Ok(None);
    };
    match failing(alloc, rest)? {
        Some((error, command)) => Ok(Some(Line::Command {
            manner: Manner::Fail { error },
            command,
        })),
        None => Ok(None),
    }
}

/// A line that issues a command.
pub(crate) fn issue(alloc: Global, text: &str) -> Result<Option<Line>, NoMemory>
    ensures { IfOk result (λ asked. MatchOption asked (HasNoIssue text.now) (λ line. Asks text.now line)) }
{
    if let Some(line) = kept(alloc, text)? {
        return Ok(Some(line));
    }
    if let Some(line) = retired(alloc, text)? {
        return Ok(Some(line));
    }
    failed(alloc, text)
}
