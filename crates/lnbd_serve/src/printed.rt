//! What is printed of serving: a line before the first client, and one after the last.

ghost use Rattle.std.specs.Prelude.{◌≡◌, ◌≤◌, Err, OnOk, string_bytes};
ghost use Rattle.lnbd_link.specs.Count.{Rises};
ghost use Rattle.lnbd_serve.specs.Printed.{Prints, ended, fault_of, serving_line, sessions_line};
ghost use Rattle.lnbd_serve.specs.declared.printed.Unprinted.TheVariants.{NoMemory as OutOfMemory};

use crate::fault::ServeFault;
use lnbd_link::{Sink, put};
use std::alloc::{AllocError, Global};

/// Why a line was not printed whole.
#[derive(Clone, Copy, Debug, PartialEq, Eq)]
pub enum Unprinted {
    /// Memory ran out; nothing of it was printed.
    NoMemory,
    /// The output failed; a front of it was printed.
    Output,
}

impl From<AllocError> for Unprinted {
    ghost from_gives = { λ _ why. why ≡ OutOfMemory };

    fn from(_error: AllocError) -> Unprinted {
        Unprinted::NoMemory
    }
}

impl Unprinted {
    /// What serving answers then.
    pub fn fault(self) -> ServeFault
        ensures { result ≡ fault_of self }
    {
        match self {
            Unprinted::NoMemory => ServeFault::NoMemory,
            Unprinted::Output => ServeFault::Output,
        }
    }
}

/// Prints a text and the end of its line.
fn print<O: Sink>(text: &mut String, out: &mut O) -> Result<(), Unprinted>
    ensures prints { Prints result (O.taken out.old) (O.taken out.new) (ended (string_bytes text.old)) }
    ensures later { O.faults out.old ≤ O.faults out.new }
    ensures well { OnOk result (O.faults out.new ≡ O.faults out.old) }
    ensures output { result ≡ Err Unprinted.Output → Rises 1 (O.faults out.old) (O.faults out.new) }
{
    text.push_str("\n")?;
    match put(out, text.as_bytes()) {
        Ok(()) => Ok(()),
        Err(_) => Err(Unprinted::Output),
    }
}

/// Prints the line before the first client.
pub fn print_serving<O: Sink>(alloc: Global, size: u64, out: &mut O) -> Result<(), Unprinted>
    ensures prints { Prints result (O.taken out.old) (O.taken out.new) (serving_line size) }
    ensures later { O.faults out.old ≤ O.faults out.new }
    ensures well { OnOk result (O.faults out.new ≡ O.faults out.old) }
    ensures output { result ≡ Err Unprinted.Output → Rises 1 (O.faults out.old) (O.faults out.new) }
{
    let mut text = String::new(alloc);
    write!(text, "serving {size}")?;
    print(&mut text, out)
}

/// Prints the line after the last client.
pub fn print_sessions<O: Sink>(alloc: Global, sessions: u32, out: &mut O) -> Result<(), Unprinted>
    ensures prints { Prints result (O.taken out.old) (O.taken out.new) (sessions_line sessions) }
    ensures later { O.faults out.old ≤ O.faults out.new }
    ensures well { OnOk result (O.faults out.new ≡ O.faults out.old) }
    ensures output { result ≡ Err Unprinted.Output → Rises 1 (O.faults out.old) (O.faults out.new) }
{
    let mut text = String::new(alloc);
    write!(text, "sessions {sessions}")?;
    print(&mut text, out)
}
