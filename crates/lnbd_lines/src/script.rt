//! Scripts, and their text.

ghost use Rattle.std.specs.Prelude.{◌≡◌, ◌==◌, ◌≤◌, ◌<◌, ◌↔◌, ◌⊎◌, ◌∷◌, IfOk, IfSome, IsErrOf, List, length, option_copied, ℕ};
ghost use Rattle.std.specs.List.{position};
ghost use Rattle.lnbd_lines.specs.Grammar.{IsLawful};
ghost use Rattle.lnbd_lines.specs.Scripts.{IsFault, IsScript, lines_of, max_script};
ghost use Rattle.lnbd_lines.specs.Written.{IsAdded, lines_behind};
ghost use Rattle.lnbd_lines.specs.declared.fault.LineFault.{LineFault};
ghost use Rattle.lnbd_lines.specs.declared.fault.ScriptFault.{ScriptFault};
ghost use Rattle.lnbd_lines.specs.declared.line.Line.{Line};

use crate::fault::{LineFault, ScriptFault};
use crate::line::Line;
use crate::lines::read;
use std::alloc::Global;
use std::marker::Model;

/// The most bytes that a script has.
const LIMIT: usize = 16_777_216;

/// A script. Contracts see the list of what its lines ask for.
#[derive(Debug, Drop)]
pub struct Script {
    lines: Vec<Line>,
}

impl Model for Script {
    ghost use Rattle.std.specs.Prelude.{List};
    ghost use Rattle.lnbd_lines.specs.declared.line.Line.{Line};

    ghost Value = { List Line };

    ghost view = { λ a. a.lines.items };
}

impl Script {
    /// What the lines ask for, in order.
    pub fn lines(&self) -> &[Line]
        ensures { result.now ≡ self.now }
    {
        &self.lines
    }

    /// Adds what this line asks for.
    fn add(&mut self, alloc: Global, line: &[u8]) -> Result<(), LineFault>
        ensures ok { IsAdded result line.now self.old self.new }
        ensures outside { IsErrOf result LineFault.Outside → ¬ IsLawful line.now }
    {
        match read(alloc, line)? {
            None => Ok(()),
            Some(asked) => match self.lines.push(asked) {
                Ok(()) => Ok(()),
                Err(_) => Err(LineFault::NoMemory),
            },
        }
    }
}

/// The place of the first LF.
fn first_end(text: &[u8]) -> Option<usize>
    ensures { result ≡ position (λ b. b == 10) text.now }
{
    text.iter().position(|byte| *byte == b'\n')
}

/// The first line, and what stands behind the LF that ends it.
fn first_line(text: &[u8]) -> (&[u8], Option<&[u8]>)
    ensures cut { lines_of text.now ≡ result.0.now ∷ lines_behind (option_copied result.1) }
    ensures shorter { IfSome result.1 (λ rest. length rest.now < length text.now) }
{
    match first_end(text) {
        Some(end) => (&text[..end], Some(&text[end + 1..])),
        None => (text, None),
    }
}

/// The script of bytes that are not too many.
fn read_all(alloc: Global, bytes: &[u8]) -> Result<Script, ScriptFault>
    requires { length bytes.now ≤ max_script }
    ensures script { IfOk result (λ script. IsScript bytes.now script) }
    ensures fault { (n : ℕ) → IsErrOf result (ScriptFault.Line n) → IsFault bytes.now n }
{
    let mut script = Script {
        lines: Vec::new(alloc),
    };
    let mut number = 0u32;
    let mut rest = Some(bytes);
    while let Some(text) = rest {
        let (line, behind) = first_line(text);
        number += 1;
        match script.add(alloc, line) {
            Ok(()) => rest = behind,
            Err(LineFault::NoMemory) => return Err(ScriptFault::NoMemory),
            Err(LineFault::Outside) => return Err(ScriptFault::Line(number)),
        }
    }
    Ok(script)
}

/// The script that the bytes spell: lines that are ended by LF, of which the last may lack it. Empty
/// lines and lines that begin with `#` are passed over.
///
/// # Errors
///
/// `Line` with the number of the first line that is none of a script, or with 0 where there are more
/// than 16,777,216 bytes. `NoMemory` may come in place of a script and of a line from 1 on.
pub fn parse(alloc: Global, bytes: &[u8]) -> Result<Script, ScriptFault>
    ensures script { IfOk result (λ script. IsScript bytes.now script) }
    ensures fault { (n : ℕ) → IsErrOf result (ScriptFault.Line n) → IsFault bytes.now n }

    // Where the bytes are a script, or have a fault, nothing but want of memory keeps that answer back.
    ensures accepts { (script : List Line) → IsScript bytes.now script → (result ≡ Ok script) ⊎ IsErrOf result ScriptFault.NoMemory }
    ensures refuses { (n : ℕ) → IsFault bytes.now n → IsErrOf result (ScriptFault.Line n) ⊎ IsErrOf result ScriptFault.NoMemory }

    // No memory is taken for bytes that are too many.
    ensures too_long { IsErrOf result (ScriptFault.Line 0) ↔ (max_script < length bytes.now) }
{
    if bytes.len() > LIMIT {
        return Err(ScriptFault::Line(0));
    }
    read_all(alloc, bytes)
}
