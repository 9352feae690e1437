//! The words of selftest.

ghost use Rattle.std.specs.Prelude.{◌∷◌, IfOk, IsErrOf, codes, map, string_bytes};
ghost use Rattle.lnbd_args.specs.Tools.{Asks, Reads, Wanted};
ghost use Rattle.lnbd_uri.specs.declared.fault.UriFault.{UriFault};

use crate::asked::Asked;
use crate::command::read_parts;
use crate::fault::ArgsFault;
use crate::look::value;
use crate::number::number;
use std::alloc::Global;

/// What the words behind `selftest` ask for.
pub(crate) fn selftest(alloc: Global, words: &[String]) -> Result<Asked, ArgsFault>
    ensures asked { IfOk result (λ asked. Asks (codes "selftest" ∷ map string_bytes words.now) asked) }
    ensures usage { IsErrOf result ArgsFault.Usage → (wanted : Wanted) → ¬ Reads (codes "selftest" ∷ map string_bytes words.now) wanted }
    ensures no_address { (fault : UriFault) → ¬ IsErrOf result (ArgsFault.Uri fault) }
{
    let found = read_parts(alloc, &[], true, words)?;
    let Some(seed) = value(&found, "FIRST") else {
        return Err(ArgsFault::Usage);
    };
    let Some(size) = value(&found, "SECOND") else {
        return Err(ArgsFault::Usage);
    };
    let Some(seed) = number(seed) else {
        return Err(ArgsFault::Usage);
    };
    let Some(size) = number(size) else {
        return Err(ArgsFault::Usage);
    };
    Ok(Asked::Selftest { seed, size })
}
