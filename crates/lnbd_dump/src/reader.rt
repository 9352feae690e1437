//! The callbacks of commands: the handle keeps what a command came to until its turn comes, and the extents that were told last
//! are kept here. What is made of them is not known here.

ghost use Rattle.std.specs.Prelude.{◌≡◌, Some, None, false, bytes_eq};
ghost use Rattle.lnbd_waits.specs.Begun.{base_allocation};
ghost use Rattle.lnbd_dump.specs.Heard.{Hears, kept, now_heard};
ghost use Rattle.lnbd_dump.specs.HeardLaws.{hears_none, hears_on};

use lnbd_callbacks::{Caller, Heard, Verdict};
use lnbd_model::{Bytes, Extent};
use std::alloc::Global;

/// The extents of base:allocation that were told last.
#[derive(Debug, Drop)]
pub(crate) struct Latest {
    /// Whether any were told.
    pub(crate) any: bool,
    /// Where the first of them begins.
    pub(crate) at: u64,
    /// These extents.
    pub(crate) extents: Vec<Extent>,
    /// Whether memory ran out for what was told.
    pub(crate) short: bool,
}

/// Whether this is the name of base:allocation.
pub(crate) fn is_allocation(name: &[u8]) -> bool
    ensures { result ≡ bytes_eq name.now base_allocation }
{
    name == b"base:allocation".as_slice()
}

impl Latest {
    /// None were told yet.
    pub(crate) fn new(alloc: Global) -> Latest
        ensures { kept result ≡ None }
    {
        Latest {
            any: false,
            at: 0,
            extents: Vec::new(alloc),
            short: false,
        }
    }

    /// Keeps extents that were told of the context of this name, if it is the one.
    fn hear(&mut self, name: &[u8], at: u64, entries: &[Extent])
        ensures { self.new.short ≡ false → (self.old.short ≡ false) × (kept self.new ≡ now_heard name.now at entries.now (kept self.old)) }
    {
        if !is_allocation(name) {
            return;
        }
        self.any = true;
        self.at = at;
        self.extents.clear();
        match self.extents.extend_from_slice(entries) {
            Ok(()) => {}
            Err(_) => self.short = true,
        }
    }
}

/// A callback that has what it is handed kept.
#[derive(Clone, Copy, Debug, PartialEq, Eq)]
pub(crate) struct Reader;

impl Caller for Reader {
    type World = Latest;

    ghost steps = { λ before calls after. Hears before calls after };

    fn chunk(&self, _: &mut Latest, _: &[u8], _: u64, _: u32, _: u32) -> Heard {
        Heard::Going
    }

    fn extents(
        &self,
        world: &mut Latest,
        context: &[u8],
        offset: u64,
        entries: &[Extent],
        _: u32,
    ) -> Heard {
        world.hear(context, offset, entries);
        Heard::Going
    }

    fn complete(&self, _: &mut Latest, error: u32, buf: Bytes) -> Verdict {
        Verdict::Keep { error, buf }
    }

    fn free(self, _: &mut Latest) {}

    ghost empty = { λ world. hears_none world };

    ghost append = { λ a b c first second one two. hears_on a b c first second one two };
}
