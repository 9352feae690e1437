//! What a client's callback offers and answers. When it is called is not said here.

ghost use Rattle.std.specs.Prelude.{◌≡◌, ◌≢◌, List, [], ◌∷◌, ◌++◌};

use lnbd_model::{Bytes, EPROTO, Extent};

/// What a chunk or extents callback answers (libnbd, nbd_aio_pread_structured: its return value and
/// `*error`).
#[derive(Clone, Copy, Debug, PartialEq, Eq)]
pub enum Heard {
    /// All is well.
    Going,
    /// The command fails with this error, unless an earlier one stands. 0 counts as 71, EPROTO.
    Fail(u32),
}

/// What a completion callback answers (libnbd, nbd_aio_pread: auto-retirement).
#[derive(Debug, Drop)]
pub enum Verdict {
    /// The command stays until it is asked for, with this error, 0 for none, and these bytes.
    Keep { error: u32, buf: Bytes },
    /// The command is retired at once.
    Retire,
}

impl Heard {
    ghost use Rattle.lnbd_callbacks.specs.Calls.{counted, heard_number};

    /// The answer as it counts: `Fail(0)` is `Fail(71)`.
    pub fn counted(self) -> Heard
        ensures value { result ≡ counted self }
        ensures never_zero { result ≢ Heard.Fail 0 }
    {
        match self {
            Heard::Fail(0) => Heard::Fail(EPROTO),
            heard => heard,
        }
    }

    /// The number of a note: 0 for `Going`, and else that of `Fail`.
    pub fn number(self) -> u32
        ensures { result ≡ heard_number self }
    {
        match self {
            Heard::Going => 0,
            Heard::Fail(number) => number,
        }
    }
}

impl Verdict {
    ghost use Rattle.lnbd_callbacks.specs.Calls.{is_keep};

    /// Whether the result is kept.
    pub fn is_keep(&self) -> bool
        ensures { result ≡ is_keep self.now }
    {
        matches!(self, Verdict::Keep { .. })
    }
}

/// A client's callback. It is owned by a command until `free` spends it, and may read and change a
/// world of the client's own that is handed to each call.
///
/// A type that implements it says by `steps` which world may stand after a list of calls, from the
/// world before. `OneByOne` makes that of a relation of one call, with both laws.
pub trait Caller {
    /// What the callbacks of one handle share.
    type World;

    ghost use Rattle.lnbd_callbacks.specs.Calls.{Call, Chunk, Extents, Complete, Free, counted};

    /// These calls, in order, with these answers, may lead from one world to the other.
    ghost steps: { Self.World → List (Call Self) → Self.World → Type 0 };

    /// A piece of a read was told: these bytes from this offset on, with the status of the chunk and
    /// the error that it told, 0 for none (libnbd, nbd_aio_pread_structured).
    fn chunk(
        &self,
        world: &mut Self::World,
        bytes: &[u8],
        offset: u64,
        status: u32,
        error: u32,
    ) -> Heard
        ensures { steps world.old (Chunk self.now bytes.now offset status error (counted result) ∷ []) world.new };

    /// Extents of the meta context of this name were told, from this offset on (libnbd,
    /// nbd_aio_block_status).
    fn extents(
        &self,
        world: &mut Self::World,
        context: &[u8],
        offset: u64,
        entries: &[Extent],
        error: u32,
    ) -> Heard
        ensures { steps world.old (Extents self.now context.now offset entries.now error (counted result) ∷ []) world.new };

    /// The command completed with this error, 0 for none, and these bytes.
    fn complete(&self, world: &mut Self::World, error: u32, buf: Bytes) -> Verdict
        ensures { steps world.old (Complete self.now error buf result ∷ []) world.new };

    /// The callback ends. It is called last, and once.
    fn free(self, world: &mut Self::World)
        ensures { steps world.old (Free self ∷ []) world.new };

    /// No calls leave the world as it is.
    ghost empty: { (world : Self.World) → steps world [] world };

    /// Some calls, and then others, are those calls joined.
    ghost append: { (a b c : Self.World) (first second : List (Call Self)) → steps a first b → steps b second c → steps a (first ++ second) c };
}
