//! What the options of opt mode came to.

ghost use Rattle.std.specs.Prelude.{◌≡◌, ◌++◌, OnOk, string_bytes};
ghost use Rattle.lnbd_texts.specs.Options.{answer_text, listed_text, listing_text};

use crate::quoted::push_quoted;
use lnbd_history::OptAnswer;
use lnbd_model::Listed;
use std::alloc::AllocError;

/// The answer to the option that was asked last, or that none is answered yet.
pub fn push_opt_answer(text: &mut String, answer: Option<OptAnswer>) -> Result<(), AllocError>
    ensures { OnOk result (string_bytes text.new ≡ string_bytes text.old ++ answer_text answer) }
{
    match answer {
        None => text.push_str("none"),
        Some(OptAnswer::Ok) => text.push_str("ok"),
        Some(OptAnswer::Refused { option, code }) => write!(text, "refused {option} {code}"),
    }
}

/// A line for each export that the server listed, and the end.
pub fn push_listing(text: &mut String, listing: &[Listed]) -> Result<(), AllocError>
    ensures { OnOk result (string_bytes text.new ≡ string_bytes text.old ++ listing_text listing.now) }
{
    'exports: for listed in listing {
        push_listed(text, listed)?;
        text.push_str("\n")?;
    }
    text.push_str("end")
}

/// The name and the description of an export, in quotes.
fn push_listed(text: &mut String, listed: &Listed) -> Result<(), AllocError>
    ensures { OnOk result (string_bytes text.new ≡ string_bytes text.old ++ listed_text listed.now) }
{
    text.push_str("export ")?;
    push_quoted(text, listed.name.as_str())?;
    text.push_str(" ")?;
    push_quoted(text, listed.description.as_str())
}
