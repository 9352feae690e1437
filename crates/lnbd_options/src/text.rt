//! Bytes that are to be a text.

ghost use Rattle.lnbd_options.specs.Answers.{TextAs};

use crate::fault::OptionFault;
use lnbd_model::{Text, TextFault};
use std::alloc::Global;

/// The text that these bytes spell.
#[tactic(auto, using(crate::proofs::TextLemmas::not_utf8, crate::proofs::TextLemmas::too_long))]
pub fn text(alloc: Global, bytes: &[u8]) -> Result<Text, OptionFault>
    ensures { TextAs bytes.now result }
{
    match Text::from_bytes(alloc, bytes) {
        Ok(text) => Ok(text),
        Err(TextFault::NoMemory) => Err(OptionFault::NoMemory),
        Err(TextFault::NotUtf8) => Err(OptionFault::BadText),
        Err(TextFault::TooLong(_)) => Err(OptionFault::BadText),
    }
}
