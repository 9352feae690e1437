//! `LEN OFF [FLAGS]` and `OFF [FLAGS]`.

ghost use Rattle.std.specs.Prelude.{MatchOption, List, ℕ};
ghost use Rattle.lnbd_lines.specs.Grammar.{Follows, IsFlags, IsNumber, IsPlace, IsRange};
ghost use Rattle.lnbd_lines.specs.declared.command.Range.{Range};

use crate::command::Range;
use crate::number::{self, number};
use crate::word::cut;

/// `OFF FLAGS`.
fn flagged(offset: &str, flags: &str) -> Option<(u64, u32)>
    ensures { MatchOption result ((value mask : ℕ) → IsNumber offset.now value → ¬ IsFlags flags.now mask) (λ place. IsNumber offset.now place.0 × IsFlags flags.now place.1) }
{
    let Some(offset) = number(offset) else {
        return None;
    };
    let Some(flags) = number::flags(flags) else {
        return None;
    };
    Some((offset, flags))
}

/// `OFF`, or `OFF FLAGS`.
pub(crate) fn place(text: &str) -> Option<(u64, u32)>
    ensures { MatchOption result ((offset flags : ℕ) → ¬ IsPlace text.now offset flags) (λ place. IsPlace text.now place.0 place.1) }
{
    match cut(text) {
        Some((offset, flags)) => flagged(offset, flags),
        None => match number(text) {
            Some(offset) => Some((offset, 0)),
            None => None,
        },
    }
}

/// `LEN OFF [FLAGS]`.
fn range(text: &str) -> Option<Range>
    ensures { MatchOption result ((range : Range) → ¬ IsRange text.now range) (λ range. IsRange text.now range) }
{
    let Some((length, rest)) = cut(text) else {
        return None;
    };
    let Some(length) = number(length) else {
        return None;
    };
    let Some((offset, flags)) = place(rest) else {
        return None;
    };
    Some(Range {
        length,
        offset,
        flags,
    })
}

/// The range behind this front.
pub(crate) fn range_behind(text: &str, front: &str) -> Option<Range>
    ensures { MatchOption result ((range : Range) → ¬ Follows front.now (λ rest. IsRange rest range) text.now) (λ range. Follows front.now (λ rest. IsRange rest range) text.now) }
{
    let Some(rest) = text.strip_prefix(front) else {
        return None;
    };
    range(rest)
}
