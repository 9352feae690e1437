//! Whole writes to a sink. No text is made here.

ghost use Rattle.std.specs.Prelude.{◌≡◌, ◌≤◌, OnOk, OnErr, length, drop};
ghost use Rattle.lnbd_link.specs.Count.{Rises};
ghost use Rattle.lnbd_link.specs.Part.{Takes, TakesFront};

use crate::sink::{Sink, SinkTook};

/// The output failed.
#[derive(Clone, Copy, Debug, PartialEq, Eq)]
pub struct SinkFailed;

/// Writes all, unless the output fails: then it took a front.
pub fn put<O: Sink>(out: &mut O, bytes: &[u8]) -> Result<(), SinkFailed>
    ensures all { OnOk result (Takes (O.taken out.old) (O.taken out.new) bytes.now) }
    ensures front { OnErr result (TakesFront (O.taken out.old) (O.taken out.new) bytes.now) }
    ensures later { O.faults out.old ≤ O.faults out.new }
    ensures well { OnOk result (O.faults out.new ≡ O.faults out.old) }
    ensures failed { OnErr result (Rises 1 (O.faults out.old) (O.faults out.new)) }
{
    let mut at = 0;
    'writing: while at < bytes.len() {
        match out.write(after(bytes, at)) {
            SinkTook::Bytes(n) => at += n,
            SinkTook::Failed => return Err(SinkFailed),
        }
    }
    Ok(())
}

fn after(bytes: &[u8], at: usize) -> &[u8]
    requires { at ≤ length bytes.now }
    ensures { result.now ≡ drop at bytes.now }
{
    &bytes[at..]
}
