//! Words of a line, separated by one space, and parts of a word.

ghost use Rattle.std.specs.Prelude.{◌≡◌, ◌≤◌, ◌<◌, MatchOption, IfOk, List, length, ℕ};
ghost use Rattle.lnbd_lines.specs.Grammar.{IsCut, colon, space};

use lnbd_model::{NoMemory, Text, TextFault};
use std::alloc::Global;

/// The first word, and what stands behind the space that ends it.
pub(crate) fn cut(text: &str) -> Option<(&str, &str)>
    ensures { MatchOption result ((word rest : List ℕ) → ¬ IsCut space text.now word rest) (λ parts. IsCut space text.now parts.0.now parts.1.now) }
{
    text.split_once(' ')
}

/// What stands before the first colon, and behind it.
pub(crate) fn cut_at_colon(text: &str) -> Option<(&str, &str)>
    ensures { MatchOption result ((word rest : List ℕ) → ¬ IsCut colon text.now word rest) (λ parts. IsCut colon text.now parts.0.now parts.1.now) }
{
    text.split_once(':')
}

/// The text, where it has at most 4,096 bytes.
pub(crate) fn short(alloc: Global, text: &str) -> Result<Option<Text>, NoMemory>
    ensures { IfOk result (λ short. MatchOption short (4096 < length text.now) (λ short. (short ≡ text.now) × (length text.now ≤ 4096))) }
{
    match Text::from_bytes(alloc, text.as_bytes()) {
        Ok(text) => Ok(Some(text)),
        Err(TextFault::NoMemory) => Err(NoMemory),
        Err(_) => Ok(None),
    }
}
