//! What was told of an export.

ghost use Rattle.std.specs.Prelude.{◌≡◌, ◌++◌, OnOk, option_copied, string_bytes};
ghost use Rattle.lnbd_texts.specs.Information.{blocks_text, context_text, truth_text, told_text, info_text};
ghost use Rattle.lnbd_texts.specs.Words.{lines};

use lnbd_model::{Blocks, Context, ExportInfo};
use std::alloc::AllocError;

/// What is known of the export, then a line for each context, and the end.
pub fn push_info(text: &mut String, info: Option<&ExportInfo>) -> Result<(), AllocError>
    ensures { OnOk result (string_bytes text.new ≡ string_bytes text.old ++ info_text (option_copied info.entry)) }
{
    let Some(info) = info else {
        return text.push_str("info none");
    };
    push_told(text, info)?;
    text.push_str("\n")?;
    push_contexts(text, info.contexts.as_slice())
}

/// The size, the flags, the block sizes and the kind of replies.
fn push_told(text: &mut String, info: &ExportInfo) -> Result<(), AllocError>
    ensures { OnOk result (string_bytes text.new ≡ string_bytes text.old ++ told_text info.now) }
{
    let size = info.size;
    let flags = info.flags;
    write!(text, "info {size} {flags} ")?;
    push_blocks(text, info.blocks)?;
    text.push_str(" ")?;
    text.push_str(truth(info.structured))
}

fn push_contexts(text: &mut String, contexts: &[Context]) -> Result<(), AllocError>
    ensures { OnOk result (string_bytes text.new ≡ string_bytes text.old ++ lines context_text contexts.now) }
{
    'contexts: for context in contexts {
        push_context(text, context)?;
        text.push_str("\n")?;
    }
    text.push_str("end")
}

fn push_context(text: &mut String, context: &Context) -> Result<(), AllocError>
    ensures { OnOk result (string_bytes text.new ≡ string_bytes text.old ++ context_text context.now) }
{
    let id = context.id;
    write!(text, "context {id} ")?;
    text.push_str(context.name.as_str())
}

fn push_blocks(text: &mut String, blocks: Option<Blocks>) -> Result<(), AllocError>
    ensures { OnOk result (string_bytes text.new ≡ string_bytes text.old ++ blocks_text blocks) }
{
    match blocks {
        None => text.push_str("- - -"),
        Some(blocks) => {
            let Blocks {
                minimum,
                preferred,
                maximum,
            } = blocks;
            write!(text, "{minimum} {preferred} {maximum}")
        }
    }
}

fn truth(holds: bool) -> &'static str
    ensures { result.now ≡ truth_text holds }
{
    if holds { "true" } else { "false" }
}
