//! Whether the extents of a meta context are at fault, and whether all contexts were told. Nothing is kept here.

ghost use Rattle.std.specs.Prelude.{◌≡◌, is_some};
ghost use Rattle.lnbd_outcome.specs.Facts.{has};
ghost use Rattle.lnbd_outcome.specs.Faults.{context_of, any_empty, all_contexts};

use lnbd_model::{Context, Extent};

/// Whether the meta context with this number is agreed.
pub(crate) fn is_agreed(contexts: &[Context], id: u32) -> bool
    ensures { result ≡ is_some (context_of id contexts.now) }
{
    for context in contexts {
        if context.id == id {
            return true;
        }
    }
    false
}

/// Whether this number is among these.
pub(crate) fn is_among(ids: &[u32], id: u32) -> bool
    ensures { result ≡ has ids.now id }
{
    for first in ids {
        if *first == id {
            return true;
        }
    }
    false
}

/// Whether one of the extents has no bytes.
pub(crate) fn any_empty(extents: &[Extent]) -> bool
    ensures { result ≡ any_empty extents.now }
{
    for extent in extents {
        if extent.length == 0 {
            return true;
        }
    }
    false
}

/// Whether each of these meta contexts was told.
pub(crate) fn all_told(told: &[u32], contexts: &[Context]) -> bool
    ensures { result ≡ all_contexts (has told.now) contexts.now }
{
    for context in contexts {
        if !is_among(told, context.id) {
            return false;
        }
    }
    true
}
