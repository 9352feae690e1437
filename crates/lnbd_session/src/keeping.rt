//! A callback that leaves each result with the handle, and the world where it keeps the extents and the chunks that it is told. Nothing is told twice, and
//! nothing is taken here.

ghost use Rattle.std.specs.Prelude.{◌≡◌, [], IfOk};
ghost use Rattle.lnbd_callbacks.specs.Calls.{counted};
ghost use Rattle.lnbd_session.specs.Keeps.{KeepsChunk, KeepsExtents, told_extents};

use lnbd_callbacks::{Caller, Heard, Verdict};
use lnbd_model::{Bytes, ENOMEM, Extent, Extents, NoMemory};
use std::alloc::Global;

/// Extents of one meta context that a command was told at once (libnbd, the extent callback of nbd_block_status_64).
#[derive(Drop)]
pub struct ToldExtents {
    /// The command's cookie.
    pub cookie: u64,
    /// The name of the meta context.
    pub context: Bytes,
    /// Where the first of them begins, in bytes; each other begins where the one before it ends.
    pub offset: u64,
    pub extents: Extents,
    /// The error that was told with them, 0 for none.
    pub error: u32,
}

impl ToldExtents {
    /// These extents, copied.
    fn copied(
        alloc: Global,
        cookie: u64,
        context: &[u8],
        offset: u64,
        entries: &[Extent],
        error: u32,
    ) -> Result<ToldExtents, NoMemory>
        ensures { IfOk result (λ told. told ≡ told_extents cookie context.now offset entries.now error) }
    {
        let context = Vec::from_slice(alloc, context)?;
        let extents = Vec::from_slice(alloc, entries)?;
        Ok(ToldExtents {
            cookie,
            context: Bytes::from_vec(context),
            offset,
            extents: Extents::from_vec(extents),
            error,
        })
    }
}

/// A piece of a read that a command was told (libnbd, the chunk callback of nbd_pread_structured). Its bytes stand in the command's result.
#[derive(Clone, Copy)]
pub struct ToldChunk {
    /// The command's cookie.
    pub cookie: u64,
    /// Where it begins, in bytes.
    pub offset: u64,
    /// How many bytes it has.
    pub length: u64,
    /// Data 1, a hole 2, an error 3 (libnbd, LIBNBD_READ_DATA, LIBNBD_READ_HOLE and LIBNBD_READ_ERROR).
    pub status: u32,
    /// The error that was told with it, 0 for none.
    pub error: u32,
}

/// What was told and is not cleared, the earliest first.
#[derive(Drop)]
pub struct Told {
    alloc: Global,
    pub extents: Vec<ToldExtents>,
    pub chunks: Vec<ToldChunk>,
}

impl Told {
    /// Nothing. It takes no memory.
    pub fn new(alloc: Global) -> Told
        ensures extents { result.extents.items ≡ [] }
        ensures chunks { result.chunks.items ≡ [] }
    {
        Told {
            alloc,
            extents: Vec::new(alloc),
            chunks: Vec::new(alloc),
        }
    }

    /// Keeps a piece of a read, or nothing where there is no memory.
    fn keep_chunk(&mut self, chunk: ToldChunk) -> Heard
        ensures { KeepsChunk chunk (counted result) self.old self.new }
    {
        match self.chunks.push(chunk) {
            Ok(()) => Heard::Going,
            Err(_) => Heard::Fail(ENOMEM),
        }
    }

    /// Keeps extents, or nothing where there is no memory.
    fn keep_extents(&mut self, extents: ToldExtents) -> Heard
        ensures { KeepsExtents extents (counted result) self.old self.new }
    {
        match self.extents.push(extents) {
            Ok(()) => Heard::Going,
            Err(_) => Heard::Fail(ENOMEM),
        }
    }
}

/// Keeps what its command is told, and leaves the result with the handle.
#[derive(Clone, Copy)]
pub struct Keeping {
    /// The cookie of its command.
    pub cookie: u64,
}

/// Where there is no memory to keep what is told, nothing of it is kept and the command fails with ENOMEM, 12.
impl Caller for Keeping {
    type World = Told;

    ghost use Rattle.lnbd_session.specs.Keeps.{Keeps};
    ghost use Rattle.lnbd_callbacks.specs.Steps.{OneByOne, OneByOne-empty, OneByOne-append};

    ghost steps = { OneByOne Keeps };

    fn chunk(&self, told: &mut Told, bytes: &[u8], offset: u64, status: u32, error: u32) -> Heard {
        let chunk = ToldChunk {
            cookie: self.cookie,
            offset,
            length: bytes.len() as u64,
            status,
            error,
        };
        told.keep_chunk(chunk)
    }

    fn extents(
        &self,
        told: &mut Told,
        context: &[u8],
        offset: u64,
        entries: &[Extent],
        error: u32,
    ) -> Heard {
        let copied = ToldExtents::copied(told.alloc, self.cookie, context, offset, entries, error);
        let Ok(extents) = copied else {
            return Heard::Fail(ENOMEM);
        };
        told.keep_extents(extents)
    }

    fn complete(&self, _: &mut Told, error: u32, buf: Bytes) -> Verdict {
        Verdict::Keep { error, buf }
    }

    fn free(self, _: &mut Told) {}

    ghost empty = { OneByOne-empty Keeps };

    ghost append = { OneByOne-append Keeps };
}
