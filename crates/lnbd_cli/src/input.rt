//! The script that an input holds.

ghost use Rattle.std.specs.Prelude.{◌≡◌, ◌<◌, ◌≤◌, IfOk, OnOk, IsErrOf, IfErr, List, ℕ, Some, length, take};
ghost use Rattle.lnbd_link.specs.Count.{Rises};
ghost use Rattle.lnbd_lines.specs.Scripts.{IsFault, IsScript};
ghost use Rattle.lnbd_lines.specs.declared.line.Line.{Line};
ghost use Rattle.lnbd_cli.specs.Inputs.{IsCaused, ReadAtMost, ReadUpTo, ReadsScript};
ghost use Rattle.lnbd_cli.specs.Limits.{most_read};

use lnbd_link::{Source, SourceGot};
use lnbd_script::{Script, ScriptFault, parse};
use std::alloc::Global;

/// A script has at most 16,777,216 bytes; one more shows that it is too long.
const LIMIT: usize = 16_777_217;

/// Why no script was read.
#[derive(Clone, Copy, Debug, PartialEq, Eq)]
pub(crate) enum Unread {
    /// The line of this number is none of a script, or it is too long, which 0 tells.
    Line(u32),
    /// The input failed.
    Failed,
    NoMemory,
}

/// Why no bytes were read.
#[derive(Clone, Copy, Debug, PartialEq, Eq)]
enum Short {
    Failed,
    NoMemory,
}

/// Reads an input to its end, or to one byte more than a script has at most.
fn read_all<I: Source>(alloc: Global, input: &mut I) -> Result<Vec<u8>, Short>
    ensures came { IfOk result (λ v. (all : List ℕ) → I.left input.old ≡ Some all → v.items ≡ take most_read all) }
    ensures left { OnOk result (ReadUpTo most_read (I.left input.old) (I.left input.new)) }
    ensures most { ReadAtMost most_read (I.left input.old) (I.left input.new) }
    ensures later { I.faults input.old ≤ I.faults input.new }
    ensures well { OnOk result (I.faults input.new ≡ I.faults input.old) }
    ensures failed { IsErrOf result Short.Failed → Rises 1 (I.faults input.old) (I.faults input.new) }
{
    let mut bytes = Vec::new(alloc);
    let mut buffer = [0; 65536];
    'reading: while bytes.len() < LIMIT {
        let room = (LIMIT - bytes.len()).min(65536);
        match input.read(&mut buffer[..room]) {
            SourceGot::Bytes(n) => {
                if bytes.extend_from_slice(&buffer[..n]).is_err() {
                    return Err(Short::NoMemory);
                }
            }
            SourceGot::End => return Ok(bytes),
            SourceGot::Failed => return Err(Short::Failed),
        }
    }
    Ok(bytes)
}

/// Reads the script that the input holds.
pub(crate) fn read_script<I: Source>(alloc: Global, input: &mut I) -> Result<Script, Unread>
    ensures reads { (all : List ℕ) → I.left input.old ≡ Some all → ReadsScript result all (I.left input.new) }
    ensures most { ReadAtMost most_read (I.left input.old) (I.left input.new) }
    ensures well { OnOk result (I.faults input.new ≡ I.faults input.old) }
    ensures cause { IfErr result (λ unread. IsCaused unread (I.faults input.old) (I.faults input.new)) }
{
    let bytes = match read_all(alloc, input) {
        Ok(bytes) => bytes,
        Err(Short::Failed) => return Err(Unread::Failed),
        Err(Short::NoMemory) => return Err(Unread::NoMemory),
    };
    match parse(alloc, &bytes) {
        Ok(script) => Ok(script),
        Err(ScriptFault::Line(number)) => Err(Unread::Line(number)),
        Err(ScriptFault::NoMemory) => Err(Unread::NoMemory),
    }
}
