//! How a server replies to commands, by what was agreed.

ghost use Rattle.std.specs.Prelude.{◌≡◌, ℕ, List, Option, false};
ghost use Rattle.lnbd_chunks.specs.Chunk.{Waiting as Known};
ghost use Rattle.lnbd_history.specs.Arrivals.{shows_frame};
ghost use Rattle.lnbd_arrivals.specs.Frames.{front_size, is_extended, is_structured, replies_by, shows_by};
ghost use Rattle.lnbd_arrivals.specs.declared.replies.Replies.TheVariants.{Simple};

/// How a server replies to commands.
#[derive(Clone, Copy, Debug, PartialEq, Eq)]
pub enum Replies {
    /// By simple replies alone (NBD protocol, "Simple reply message").
    Simple,
    /// By chunks, and to commands that are no reads by simple replies too (NBD protocol, "Structured reply chunk message").
    Structured,
    /// By chunks with extended headers alone (NBD protocol, "Extended reply chunk message").
    Extended,
}

impl Replies {
    /// Where structured replies and extended headers are on or not. Under extended headers nothing hangs on structured replies.
    #[tactic(auto, unfolding(lnbd_history::specs::Arrivals::shows_frame, lnbd_chunks::specs::Reply::shows_reply))]
    pub fn agreed(structured: bool, extended: bool) -> Replies
        ensures shows { (waited : ℕ → Option Known) (bytes : List ℕ) → shows_by result waited bytes ≡ shows_frame structured extended waited bytes }
        ensures simple { structured ≡ false → extended ≡ false → result ≡ Simple }
        ensures is { result ≡ replies_by structured extended }
    {
        if extended {
            Replies::Extended
        } else if structured {
            Replies::Structured
        } else {
            Replies::Simple
        }
    }

    /// Whether structured replies are on.
    pub fn is_structured(self) -> bool
        ensures { result ≡ is_structured self }
    {
        match self {
            Replies::Simple => false,
            Replies::Structured => true,
            Replies::Extended => true,
        }
    }

    /// Whether extended headers are on.
    pub fn is_extended(self) -> bool
        ensures { result ≡ is_extended self }
    {
        match self {
            Replies::Simple => false,
            Replies::Structured => false,
            Replies::Extended => true,
        }
    }

    /// How many bytes stand before the data of a reply that brings data to a read: its head, and in a chunk behind it their place.
    pub fn front_size(self) -> usize
        ensures { result ≡ front_size self }
    {
        match self {
            Replies::Simple => 16,
            Replies::Structured => 28,
            Replies::Extended => 40,
        }
    }
}
