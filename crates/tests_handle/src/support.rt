//! What several tables use: callbacks that write in words what they hear, and the list of rows that came out wrong.

use lnbd_callbacks::{Caller, Heard, Verdict};
use lnbd_model::{Bytes, Context, Contexts, Extent, Text};
use std::alloc::Global;
use std::fmt::Write;
use std::str::from_utf8;
use std::test::Fail;

/// Writes a line for each call into its world, gives one answer to all that it is told, and keeps its result or doesn't.
#[derive(Clone, Copy)]
pub struct Scribe {
    pub heard: Heard,
    pub keeps: bool,
}

impl Caller for Scribe {
    type World = String;

    ghost steps = { λ before calls after. Unit {0} };

    fn chunk(
        &self,
        world: &mut String,
        bytes: &[u8],
        offset: u64,
        status: u32,
        error: u32,
    ) -> Heard {
        let _ = writeln!(
            world,
            "status {status} at {offset}: {bytes:?}, error {error}"
        );
        self.heard
    }

    fn extents(
        &self,
        world: &mut String,
        context: &[u8],
        offset: u64,
        entries: &[Extent],
        error: u32,
    ) -> Heard {
        let name = from_utf8(context).unwrap_or("no text");
        for Extent { length, flags } in entries {
            let _ = writeln!(world, "{name} at {offset}: {length} {flags}, error {error}");
        }
        self.heard
    }

    fn complete(&self, world: &mut String, error: u32, buf: Bytes) -> Verdict {
        let _ = writeln!(world, "completed, error {error}");
        if self.keeps {
            Verdict::Keep { error, buf }
        } else {
            Verdict::Retire
        }
    }

    fn free(self, world: &mut String) {
        let _ = writeln!(world, "freed");
    }

    ghost empty = { λ world. tt };

    ghost append = { λ a b c first second one two. tt };
}

/// One meta context, base:allocation with the number 7.
pub fn allocation(alloc: Global) -> Result<Context, Fail> {
    let name = Text::from_bytes(alloc, b"base:allocation")?;
    Ok(Context { id: 7, name })
}

/// That context alone.
pub fn contexts(alloc: Global) -> Result<Contexts, Fail> {
    let mut contexts = Contexts::new(alloc);
    contexts.push(allocation(alloc)?)?;
    Ok(contexts)
}

/// Adds what a row shows to those that came out wrong, unless it holds.
pub fn note_row(wrong: &mut String, shows: &str, holds: bool) -> Result<(), Fail> {
    if !holds {
        wrong.push_str(shows)?;
        wrong.push_str("; ")?;
    }
    Ok(())
}
