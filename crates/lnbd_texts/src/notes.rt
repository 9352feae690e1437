//! The notes of the calls on callbacks.

ghost use Rattle.std.specs.Prelude.{◌≡◌, ◌++◌, OnOk, string_bytes};
ghost use Rattle.lnbd_texts.specs.Notes.{note_text, log_text};

use lnbd_model::Note;
use std::alloc::AllocError;

/// A line for each note, the earliest first, and the end.
pub fn push_log(text: &mut String, notes: &[Note]) -> Result<(), AllocError>
    ensures { OnOk result (string_bytes text.new ≡ string_bytes text.old ++ log_text notes.now) }
{
    'notes: for note in notes {
        push_note(text, note)?;
        text.push_str("\n")?;
    }
    text.push_str("end")
}

/// One note, without the end of its line.
pub fn push_note(text: &mut String, note: &Note) -> Result<(), AllocError>
    ensures { OnOk result (string_bytes text.new ≡ string_bytes text.old ++ note_text note.now) }
{
    match note {
        Note::Chunk {
            slot,
            offset,
            length,
            status,
            error,
            heard: _,
        } => write!(text, "chunk {slot} {offset} {length} {status} {error}"),
        Note::Extents {
            slot,
            context,
            offset,
            count,
            error,
            heard: _,
        } => write!(text, "extents {slot} {context} {offset} {count} {error}"),
        Note::Completed {
            slot,
            error,
            kept: _,
        } => write!(text, "completed {slot} {error}"),
        Note::Freed { slot } => write!(text, "freed {slot}"),
    }
}
