//! What the words ask for. Whether it can be done is no matter here.

ghost use Rattle.std.specs.Prelude.{◌≡◌, ◌⊎◌, Ok, Err, IfErr, IfOk};
ghost use Rattle.lnbd_args.specs.declared.asked.Asked.{Asked};
ghost use Rattle.lnbd_cli.specs.declared.ending.Fault.TheVariants as fault;
ghost use Rattle.lnbd_cli.specs.Asks.{Ask, Refuses};

use crate::ending::Fault;
use lnbd_args::{ArgsFault, Asked, read_words};
use std::alloc::Global;

/// What the words ask for.
pub(crate) fn read(alloc: Global, words: &[String]) -> Result<Asked, Fault>
    ensures asks { IfOk result (λ asked. Ask words.now asked) }
    ensures accepts { (asked : Asked) → Ask words.now asked → (result ≡ Ok asked) ⊎ (result ≡ Err fault.NoMemory) }
    ensures refuses { IfErr result (Refuses words.now) }
{
    match read_words(alloc, words) {
        Ok(asked) => Ok(asked),
        Err(ArgsFault::Usage) => Err(Fault::Usage),
        Err(ArgsFault::Uri(fault)) => Err(Fault::Uri(fault)),
        Err(ArgsFault::NoMemory) => Err(Fault::NoMemory),
    }
}
