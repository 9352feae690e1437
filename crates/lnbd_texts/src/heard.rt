//! What the callbacks of commands hear.

ghost use Rattle.std.specs.Prelude.{◌≡◌, ◌++◌, OnOk, flat_map, string_bytes};
ghost use Rattle.lnbd_texts.specs.Heard.{chunk_text, complete_text, extent_text, extents_text};

use crate::runs::push_runs;
use lnbd_model::Extent;
use std::alloc::AllocError;

/// A piece of a read: its offset, the status of its chunk, the error, and its bytes.
pub fn push_chunk(
    text: &mut String,
    bytes: &[u8],
    offset: u64,
    status: u32,
    error: u32,
) -> Result<(), AllocError>
    ensures { OnOk result (string_bytes text.new ≡ string_bytes text.old ++ chunk_text bytes.now offset status error) }
{
    write!(text, "chunk {offset} {status} {error} ")?;
    push_runs(text, bytes)
}

/// Extents of a meta context: its name, the offset, the error, and the length and flags of each.
pub fn push_extents(
    text: &mut String,
    context: &str,
    offset: u64,
    entries: &[Extent],
    error: u32,
) -> Result<(), AllocError>
    ensures { OnOk result (string_bytes text.new ≡ string_bytes text.old ++ extents_text context.now offset entries.now error) }
{
    text.push_str("extents ")?;
    text.push_str(context)?;
    write!(text, " {offset} {error}")?;
    push_entries(text, entries)
}

fn push_entries(text: &mut String, entries: &[Extent]) -> Result<(), AllocError>
    ensures { OnOk result (string_bytes text.new ≡ string_bytes text.old ++ flat_map extent_text entries.now) }
{
    'entries: for extent in entries {
        push_entry(text, *extent)?;
    }
    Ok(())
}

fn push_entry(text: &mut String, extent: Extent) -> Result<(), AllocError>
    ensures { OnOk result (string_bytes text.new ≡ string_bytes text.old ++ extent_text extent) }
{
    let Extent { length, flags } = extent;
    write!(text, " {length}:{flags}")
}

/// The end of a command: its error, how many bytes it has, and these.
pub fn push_complete(text: &mut String, error: u32, bytes: &[u8]) -> Result<(), AllocError>
    ensures { OnOk result (string_bytes text.new ≡ string_bytes text.old ++ complete_text error bytes.now) }
{
    let count = bytes.len();
    write!(text, "complete {error} {count} ")?;
    push_runs(text, bytes)
}
