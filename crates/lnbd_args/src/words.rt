//! From the words to what they ask for.

ghost use Rattle.std.specs.Prelude.{◌≡◌, ◌⊎◌, ◌∷◌, IfOk, Ok, IsErrOf, codes, map, string_bytes};
ghost use Rattle.lnbd_args.specs.Tools.{Asks, IsMisplaced, Reads, Wanted};
ghost use Rattle.lnbd_args.specs.declared.asked.Asked.{Asked};
ghost use Rattle.lnbd_uri.specs.declared.fault.UriFault.{UriFault};

use crate::asked::Asked;
use crate::copy::copy;
use crate::dump::dump;
use crate::fault::ArgsFault;
use crate::info::info;
use crate::selftest::selftest;
use crate::serve::serve;
use std::alloc::Global;

/// What the words of nbdcalls ask for, which are its name alone.
fn calls(words: &[String]) -> Result<Asked, ArgsFault>
    ensures asked { IfOk result (λ asked. Asks (codes "nbdcalls" ∷ map string_bytes words.now) asked) }
    ensures usage { IsErrOf result ArgsFault.Usage → (wanted : Wanted) → ¬ Reads (codes "nbdcalls" ∷ map string_bytes words.now) wanted }
    ensures no_address { (fault : UriFault) → ¬ IsErrOf result (ArgsFault.Uri fault) }
{
    if words.is_empty() {
        Ok(Asked::Calls)
    } else {
        Err(ArgsFault::Usage)
    }
}

/// What the words ask for, by the tool that the first names.
fn asked(alloc: Global, words: &[String]) -> Result<Asked, ArgsFault>
    ensures asked { IfOk result (λ asked. Asks (map string_bytes words.now) asked) }
    ensures usage { IsErrOf result ArgsFault.Usage → (wanted : Wanted) → ¬ Reads (map string_bytes words.now) wanted }
    ensures address { (fault : UriFault) → IsErrOf result (ArgsFault.Uri fault) → IsMisplaced (map string_bytes words.now) fault }
{
    let Some((tool, rest)) = words.split_first() else {
        return Err(ArgsFault::Usage);
    };
    match tool.as_str() {
        "nbdcalls" => calls(rest),
        "nbdcopy" => copy(alloc, rest),
        "nbddump" => dump(alloc, rest),
        "nbdinfo" => info(alloc, rest),
        "serve" => serve(alloc, rest),
        "selftest" => selftest(alloc, rest),
        _ => Err(ArgsFault::Usage),
    }
}

/// Reads the words of a command line, of which the first names the tool. Each tool has its options, in
/// any order and each once at most, before or after its places, until a word `--`
/// (`specs/Words.antt`, `specs/Tools.antt`).
///
/// # Errors
///
/// `Usage` where the words are none of the tools', `Uri` with the fault of the first address that is
/// none where they are, and `NoMemory`, which may come in place of every other answer.
pub fn read_words(alloc: Global, words: &[String]) -> Result<Asked, ArgsFault>
    ensures asked { IfOk result (λ asked. Asks (map string_bytes words.now) asked) }
    ensures usage { IsErrOf result ArgsFault.Usage → (wanted : Wanted) → ¬ Reads (map string_bytes words.now) wanted }
    ensures address { (fault : UriFault) → IsErrOf result (ArgsFault.Uri fault) → IsMisplaced (map string_bytes words.now) fault }

    // Nothing but want of memory keeps the answer back that the words have.
    ensures accepts { (asked : Asked) → Asks (map string_bytes words.now) asked → (result ≡ Ok asked) ⊎ IsErrOf result ArgsFault.NoMemory }
    ensures refuses { ((wanted : Wanted) → ¬ Reads (map string_bytes words.now) wanted) → IsErrOf result ArgsFault.Usage ⊎ IsErrOf result ArgsFault.NoMemory }
    ensures misplaced { (fault : UriFault) → IsMisplaced (map string_bytes words.now) fault → IsErrOf result (ArgsFault.Uri fault) ⊎ IsErrOf result ArgsFault.NoMemory }
{
    asked(alloc, words)
}
