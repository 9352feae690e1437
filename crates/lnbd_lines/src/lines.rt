//! One line of a script: what it asks for, or that it is outside the grammar.

ghost use Rattle.std.specs.Prelude.{◌≤◌, ◌↔◌, IfOk, IsErrOf, IsTrue, List, MatchOption, ℕ};
ghost use Rattle.lnbd_model.specs.declared.target.Place.{Place};
ghost use Rattle.lnbd_model.specs.declared.target.Target.{Target};
ghost use Rattle.lnbd_uri.specs.Address.{IsAddress};
ghost use Rattle.lnbd_lines.specs.Grammar.{Asks, IsLawful, IsLine, IsNumber, IsPassedOver, IsTcp};
ghost use Rattle.lnbd_lines.specs.Written.{HasNoOption, HasNoSwitch, HasNoWord, IsNotNamed, IsNotPlain, IsTcpTarget};
ghost use Rattle.lnbd_lines.specs.declared.line.Line.{Line};
ghost use Rattle.lnbd_lines.specs.declared.fault.LineFault.{LineFault};

use crate::fault::LineFault;
use crate::issues::issue;
use crate::line::Line;
use crate::negotiation::{Opt, Switch};
use crate::number::{flags, handle_number, number};
use crate::word::{cut, short};
use lnbd_model::{NoMemory, Place, Target};
use lnbd_uri::{UriFault, parse};
use std::alloc::Global;
use std::str::from_utf8;

/// A line of one word.
fn word(text: &str) -> Option<Line>
    ensures { MatchOption result (HasNoWord text.now) (λ line. Asks text.now line) }
{
    match text {
        "settle" => Some(Line::Settle),
        "log" => Some(Line::Log),
        "heard" => Some(Line::Heard),
        "clear-log" => Some(Line::ClearLog),
        "peek" => Some(Line::Peek),
        "in-flight" => Some(Line::InFlight),
        "direction" => Some(Line::Direction),
        "state" => Some(Line::State),
        "info" => Some(Line::Info),
        "answer" => Some(Line::Answer),
        "listing" => Some(Line::Listing),
        "read" => Some(Line::Read),
        "write" => Some(Line::Write),
        "disconnect" => Some(Line::Disconnect),
        "close" => Some(Line::Close),
        _ => None,
    }
}

/// A line that asks for an option.
fn option(text: &str) -> Option<Line>
    ensures { MatchOption result (HasNoOption text.now) (λ line. Asks text.now line) }
{
    match text {
        "opt-list" => Some(Line::Ask(Opt::List)),
        "opt-info" => Some(Line::Ask(Opt::Info)),
        "opt-meta" => Some(Line::Ask(Opt::Meta)),
        "opt-go" => Some(Line::Ask(Opt::Go)),
        "opt-abort" => Some(Line::Ask(Opt::Abort)),
        _ => None,
    }
}

/// A line that turns a setting on or off.
fn switched(text: &str) -> Option<Line>
    ensures { MatchOption result (HasNoSwitch text.now) (λ line. Asks text.now line) }
{
    let (switch, on) = match text {
        "structured on" => (Switch::Structured, true),
        "structured off" => (Switch::Structured, false),
        "extended on" => (Switch::Extended, true),
        "extended off" => (Switch::Extended, false),
        "optmode on" => (Switch::OptMode, true),
        "optmode off" => (Switch::OptMode, false),
        _ => return None,
    };
    Some(Line::Switch { switch, on })
}

/// `done C`.
fn done(text: &str) -> Option<Line>
    ensures { MatchOption result ((cookie : ℕ) → ¬ Asks text.now (Line.Done cookie)) (λ line. Asks text.now line) }
{
    let Some(rest) = text.strip_prefix("done ") else {
        return None;
    };
    let Some(cookie) = number(rest) else {
        return None;
    };
    Some(Line::Done { cookie })
}

/// `strict N`.
fn strict(text: &str) -> Option<Line>
    ensures { MatchOption result ((bits : ℕ) → ¬ Asks text.now (Line.Strict bits)) (λ line. Asks text.now line) }
{
    let Some(rest) = text.strip_prefix("strict ") else {
        return None;
    };
    let Some(bits) = flags(rest) else {
        return None;
    };
    Some(Line::Strict { bits })
}

/// `handle N`.
fn handle(text: &str) -> Option<Line>
    ensures { MatchOption result ((number : ℕ) → ¬ Asks text.now (Line.Handle number)) (λ line. Asks text.now line) }
{
    let Some(rest) = text.strip_prefix("handle ") else {
        return None;
    };
    let Some(number) = handle_number(rest) else {
        return None;
    };
    Some(Line::Handle { number })
}

/// The number from 1 to 65535 that the digits spell.
fn port(digits: &str) -> Option<u16>
    ensures { MatchOption result ((value : ℕ) → IsNumber digits.now value → 1 ≤ value → ¬ (value ≤ 65535)) (λ value. IsNumber digits.now value × (1 ≤ value)) }
{
    match number(digits) {
        Some(port) if 1 <= port && port <= 65535 => Some(port as u16),
        _ => None,
    }
}

/// `HOST PORT`.
fn tcp(alloc: Global, text: &str) -> Result<Option<Target>, NoMemory>
    ensures { IfOk result (λ target. MatchOption target ((host : List ℕ) (port : ℕ) → ¬ IsTcp text.now host port) (λ target. IsTcpTarget text.now target)) }
{
    let Some((host, digits)) = cut(text) else {
        return Ok(None);
    };
    let Some(port) = port(digits) else {
        return Ok(None);
    };
    if host.is_empty() {
        return Ok(None);
    }
    let Some(host) = short(alloc, host)? else {
        return Ok(None);
    };
    Ok(Some(Target::Tcp { host, port }))
}

/// `connect tcp HOST PORT`.
fn connect_tcp(alloc: Global, text: &str) -> Result<Option<Line>, NoMemory>
    ensures { IfOk result (λ asked. MatchOption asked ((host : List ℕ) (port : ℕ) → ¬ Asks text.now (Line.Connect (Target.Tcp host port))) (λ line. Asks text.now line)) }
{
    let Some(rest) = text.strip_prefix("connect tcp ") else {
        return Ok(None);
    };
    let Some(target) = tcp(alloc, rest)? else {
        return Ok(None);
    };
    Ok(Some(Line::Connect(target)))
}

/// `connect unix PATH`.
fn connect_unix(alloc: Global, text: &str) -> Result<Option<Line>, NoMemory>
    ensures { IfOk result (λ asked. MatchOption asked ((path : List ℕ) → ¬ Asks text.now (Line.Connect (Target.Unix path))) (λ line. Asks text.now line)) }
{
    let Some(rest) = text.strip_prefix("connect unix ") else {
        return Ok(None);
    };
    if rest.is_empty() {
        return Ok(None);
    }
    let Some(path) = short(alloc, rest)? else {
        return Ok(None);
    };
    Ok(Some(Line::Connect(Target::Unix { path })))
}

/// The place of an address.
fn address(alloc: Global, text: &str) -> Result<Option<Place>, NoMemory>
    ensures { IfOk result (λ place. MatchOption place ((place : Place) → ¬ IsAddress text.now place) (λ place. IsAddress text.now place)) }
{
    match parse(alloc, text) {
        Ok(place) => Ok(Some(place)),
        Err(fault) => match fault {
            UriFault::NoMemory => Err(NoMemory),
            _ => Ok(None),
        },
    }
}

/// `connect URI`.
fn connect_uri(alloc: Global, text: &str) -> Result<Option<Line>, NoMemory>
    ensures { IfOk result (λ asked. MatchOption asked ((place : Place) → ¬ Asks text.now (Line.ConnectUri place)) (λ line. Asks text.now line)) }
{
    let Some(rest) = text.strip_prefix("connect ") else {
        return Ok(None);
    };
    let Some(place) = address(alloc, rest)? else {
        return Ok(None);
    };
    Ok(Some(Line::ConnectUri(place)))
}

/// `export TEXT`.
fn export(alloc: Global, text: &str) -> Result<Option<Line>, NoMemory>
    ensures { IfOk result (λ asked. MatchOption asked ((name : List ℕ) → ¬ Asks text.now (Line.Export name)) (λ line. Asks text.now line)) }
{
    let Some(rest) = text.strip_prefix("export ") else {
        return Ok(None);
    };
    let Some(name) = short(alloc, rest)? else {
        return Ok(None);
    };
    Ok(Some(Line::Export { name }))
}

/// `context TEXT`.
fn context(alloc: Global, text: &str) -> Result<Option<Line>, NoMemory>
    ensures { IfOk result (λ asked. MatchOption asked ((name : List ℕ) → ¬ Asks text.now (Line.Context name)) (λ line. Asks text.now line)) }
{
    let Some(rest) = text.strip_prefix("context ") else {
        return Ok(None);
    };
    let Some(name) = short(alloc, rest)? else {
        return Ok(None);
    };
    Ok(Some(Line::Context { name }))
}

/// A line that takes no memory, but for a command.
fn plain(text: &str) -> Option<Line>
    ensures { MatchOption result (IsNotPlain text.now) (λ line. Asks text.now line) }
{
    if let Some(line) = word(text) {
        return Some(line);
    }
    if let Some(line) = option(text) {
        return Some(line);
    }
    if let Some(line) = switched(text) {
        return Some(line);
    }
    if let Some(line) = done(text) {
        return Some(line);
    }
    if let Some(line) = strict(text) {
        return Some(line);
    }
    handle(text)
}

/// A line that tells a name, a host, a path or an address.
fn named(alloc: Global, text: &str) -> Result<Option<Line>, NoMemory>
    ensures { IfOk result (λ asked. MatchOption asked (IsNotNamed text.now) (λ line. Asks text.now line)) }
{
    if let Some(line) = connect_tcp(alloc, text)? {
        return Ok(Some(line));
    }
    if let Some(line) = connect_unix(alloc, text)? {
        return Ok(Some(line));
    }
    if let Some(line) = connect_uri(alloc, text)? {
        return Ok(Some(line));
    }
    if let Some(line) = export(alloc, text)? {
        return Ok(Some(line));
    }
    context(alloc, text)
}

/// What the text of a line asks for, if it asks for anything.
fn asked(alloc: Global, text: &str) -> Result<Option<Line>, NoMemory>
    ensures { IfOk result (λ asked. MatchOption asked ((line : Line) → ¬ Asks text.now line) (λ line. Asks text.now line)) }
{
    if let Some(line) = issue(alloc, text)? {
        return Ok(Some(line));
    }
    if let Some(line) = plain(text) {
        return Ok(Some(line));
    }
    named(alloc, text)
}

/// Whether the line is empty, or a comment.
fn is_passed_over(text: &str) -> bool
    ensures { IsTrue result ↔ IsPassedOver text.now }
{
    text.is_empty() || text.starts_with("#")
}

/// What a line asks for, or nothing where it is passed over.
pub(crate) fn read(alloc: Global, line: &[u8]) -> Result<Option<Line>, LineFault>
    ensures asked { IfOk result (λ asked. IsLine line.now asked) }
    ensures outside { IsErrOf result LineFault.Outside → ¬ IsLawful line.now }
{
    let Ok(text) = from_utf8(line) else {
        return Err(LineFault::Outside);
    };
    if is_passed_over(text) {
        return Ok(None);
    }
    match asked(alloc, text)? {
        Some(line) => Ok(Some(line)),
        None => Err(LineFault::Outside),
    }
}
