//! The callbacks of a handle that issues no command.

ghost use Rattle.lnbd_ask.specs.Quiet.{Passes};

use lnbd_callbacks::{Caller, Heard, Verdict};
use lnbd_model::{Bytes, Extent};

/// A callback that is never called.
#[derive(Clone, Copy, Debug, PartialEq, Eq)]
pub(crate) struct Quiet;

impl Caller for Quiet {
    type World = ();

    ghost steps = { λ before calls after. Passes before calls after };

    fn chunk(&self, _: &mut (), _: &[u8], _: u64, _: u32, _: u32) -> Heard {
        Heard::Going
    }

    fn extents(&self, _: &mut (), _: &[u8], _: u64, _: &[Extent], _: u32) -> Heard {
        Heard::Going
    }

    fn complete(&self, _: &mut (), _: u32, _: Bytes) -> Verdict {
        Verdict::Retire
    }

    fn free(self, _: &mut ()) {}

    ghost empty = { λ world. tt };

    ghost append = { λ a b c first second one two. tt };
}
