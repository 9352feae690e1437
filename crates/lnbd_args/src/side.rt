//! The sides of a copy: which words are addresses, and which are paths of files.

ghost use Rattle.std.specs.Prelude.{◌≡◌, ◌↔◌, IfOk, IfErr, IsTrue, false, true};
ghost use Rattle.lnbd_args.specs.Tools.{AreSides, IsFaultOf, IsPath, IsSideOf, is_path};

use crate::address::place;
use crate::fault::ArgsFault;
use crate::text::text;
use lnbd_model::Text;
use lnbd_store::Side;
use std::alloc::Global;

/// Whether a word is a file's path, and no address.
fn is_path(word: &str) -> bool
    ensures { result ≡ is_path word.now }
{
    !word.contains("://")
}

/// Whether a word can be a side of a copy: an address, or a path that is neither empty nor too long.
fn is_side(word: &str) -> bool
    ensures { IsTrue result ↔ (is_path word.now ≡ true → IsPath word.now) }
{
    !is_path(word) || (!word.is_empty() && word.len() <= Text::LIMIT as usize)
}

/// Whether the words can be the sides of a copy.
pub(crate) fn are_sides(from: &str, to: &str) -> bool
    ensures { IsTrue result ↔ AreSides from.now to.now }
{
    if is_path(from) && from == to {
        return false;
    }
    is_side(from) && is_side(to)
}

/// The side that the word stands for.
pub(crate) fn side(alloc: Global, word: &str) -> Result<Side, ArgsFault>
    requires { is_path word.now ≡ true → IsPath word.now }
    ensures side { IfOk result (λ side. IsSideOf word.now side) }
    ensures fault { IfErr result (λ fault. is_path word.now ≡ false → IsFaultOf word.now fault) }
    ensures no_address { IfErr result (λ fault. is_path word.now ≡ true → fault ≡ ArgsFault.NoMemory) }
{
    if is_path(word) {
        let path = text(alloc, word)?;
        return Ok(Side::File(path));
    }
    let place = place(alloc, word)?;
    Ok(Side::Nbd(place))
}
