//! Bytes as the runs of equal ones that they are made of. One walk over the bytes, from the left.

ghost use Rattle.std.specs.Prelude.{◌≡◌, ◌<◌, ◌≤◌, ◌+◌, ◌==◌, ◌∷◌, ◌++◌, OnOk, drop, length, slice_index, string_bytes, take_while};
ghost use Rattle.lnbd_texts.specs.Runs.{runs, run_text, runs_text};

use std::alloc::AllocError;

/// Each longest run of equal bytes, with its length; `-` for no bytes.
pub fn push_runs(text: &mut String, bytes: &[u8]) -> Result<(), AllocError>
    ensures { OnOk result (string_bytes text.new ≡ string_bytes text.old ++ runs_text bytes.now) }
{
    if bytes.is_empty() {
        return text.push_str("-");
    }
    let first = run_at(bytes, 0);
    push_run(text, bytes[0], first)?;
    let mut at = first;
    'runs: while at < bytes.len() {
        text.push_str(" ")?;
        let count = run_at(bytes, at);
        push_run(text, bytes[at], count)?;
        at += count;
    }
    Ok(())
}

fn push_run(text: &mut String, byte: u8, count: usize) -> Result<(), AllocError>
    ensures { OnOk result (string_bytes text.new ≡ string_bytes text.old ++ run_text (byte, count)) }
{
    write!(text, "{byte:02x}*{count}")
}

/// How many bytes the run has that begins at this place.
fn run_at(bytes: &[u8], at: usize) -> usize
    requires { at < length bytes.now }
    ensures longest { runs (drop at bytes.now) ≡ (slice_index bytes.now at, result) ∷ runs (drop (at + result) bytes.now) }
    ensures some { 0 < result }
    ensures within { at + result ≤ length bytes.now }
{
    let byte = bytes[at];
    count_equal(&bytes[at..], byte)
}

/// How many bytes at the front are equal to this one.
fn count_equal(bytes: &[u8], byte: u8) -> usize
    ensures { result ≡ length (take_while (λ other. other == byte) bytes.now) }
{
    bytes.iter().take_while(|other| **other == byte).count()
}
