//! Words that are kept, as texts.

ghost use Rattle.std.specs.Prelude.{◌≡◌, ◌≤◌, IfOk, IsErrOf, length, map, string_bytes};
ghost use Rattle.lnbd_model.specs.Text.{text_limit};
ghost use Rattle.lnbd_args.specs.Tools.{AreShort};
ghost use Rattle.lnbd_uri.specs.declared.fault.UriFault.{UriFault};

use crate::fault::ArgsFault;
use lnbd_model::{Text, TextFault, Texts};
use std::alloc::Global;

/// The word, 4,096 bytes at most.
pub(crate) fn text(alloc: Global, word: &str) -> Result<Text, ArgsFault>
    ensures text { IfOk result (λ text. text ≡ word.now) }
    ensures short { IfOk result (λ text. length word.now ≤ text_limit) }
    ensures usage { IsErrOf result ArgsFault.Usage → ¬ (length word.now ≤ text_limit) }
    ensures no_address { (fault : UriFault) → ¬ IsErrOf result (ArgsFault.Uri fault) }
{
    match Text::from_bytes(alloc, word.as_bytes()) {
        Ok(text) => Ok(text),
        Err(TextFault::NoMemory) => Err(ArgsFault::NoMemory),
        Err(_) => Err(ArgsFault::Usage),
    }
}

/// The words, each of 4,096 bytes at most.
pub(crate) fn texts(alloc: Global, words: &[String]) -> Result<Texts, ArgsFault>
    ensures texts { IfOk result (λ texts. texts ≡ map string_bytes words.now) }
    ensures short { IfOk result (λ texts. AreShort (map string_bytes words.now)) }
    ensures usage { IsErrOf result ArgsFault.Usage → ¬ AreShort (map string_bytes words.now) }
    ensures no_address { (fault : UriFault) → ¬ IsErrOf result (ArgsFault.Uri fault) }
{
    let mut texts = Texts::new(alloc);
    for word in words {
        let kept = text(alloc, word.as_str())?;
        let Ok(()) = texts.push(kept) else {
            return Err(ArgsFault::NoMemory);
        };
    }
    Ok(texts)
}
