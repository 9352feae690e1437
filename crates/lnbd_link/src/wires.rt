//! Links over which bytes move: the trait, its answers and what a pause wants. Which bytes they are
//! is no matter here.

ghost use Rattle.std.specs.Prelude.{◌≡◌, ◌<◌, ◌≤◌, ◌^◌, ℕ, List, Option, Some, true, false, length, IfOk, OnErr};
ghost use Rattle.lnbd_link.specs.Count.{Rises};
ghost use Rattle.lnbd_link.specs.Part.{Adds};
ghost use Rattle.lnbd_link.specs.Call.{Call, link_told, read_told, write_told};
ghost use Rattle.lnbd_link.specs.Call.{Connect, Listen, Accept, Read, Write, Pause, Shut};
ghost use Rattle.lnbd_link.specs.Failed.{failed};
ghost use Rattle.lnbd_link.specs.Numbers.{is_given, is_open};
ghost use Rattle.lnbd_link.specs.Listed.{is_read_fault, is_write_fault};
ghost use Rattle.lnbd_link.specs.Contents.{Stored, Keeps};
ghost use Rattle.lnbd_link.specs.Room.{got_len, took_len};
ghost use Rattle.lnbd_link.specs.Answers.{IfLink, AcceptFailed, IfMoved, ReadFailed, IfSent, WriteFailed};

use lnbd_model::Target;

/// A connection or a listener could not be had.
#[derive(Clone, Copy, Debug, PartialEq, Eq)]
pub struct WireFailed;

/// What an accept answers.
#[derive(Clone, Copy, Debug, PartialEq, Eq)]
pub enum Accepted {
    /// The number of the new link.
    Link(u32),
    /// No peer has asked for a link yet.
    NotReady,
    /// The listener is of no use.
    Failed,
}

/// What a read of a link answers.
#[derive(Clone, Copy, Debug, PartialEq, Eq)]
pub enum Got {
    /// So many bytes were put at the front of the slice.
    Bytes(usize),
    /// No byte has come yet.
    NotReady,
    /// The peer sends no more.
    End,
    /// The link is of no use.
    Failed,
}

impl Got {
    /// How many bytes came.
    pub fn moved(self) -> usize
        ensures { result ≡ got_len self }
    {
        match self {
            Got::Bytes(n) => n,
            Got::NotReady | Got::End | Got::Failed => 0,
        }
    }

    /// Whether the read failed.
    pub fn is_failed(self) -> bool
        ensures failed { result ≡ true → ReadFailed self }
        ensures told { (into : List ℕ) → result ≡ is_read_fault (read_told self into) }
    {
        match self {
            Got::Failed => true,
            Got::Bytes(_) | Got::NotReady | Got::End => false,
        }
    }
}

/// What a write on a link answers.
#[derive(Clone, Copy, Debug, PartialEq, Eq)]
pub enum Took {
    /// The link took so many of the bytes, from the front.
    Bytes(usize),
    /// The link takes no byte yet.
    NotReady,
    /// The link is of no use.
    Failed,
}

impl Took {
    /// How many bytes were taken.
    pub fn moved(self) -> usize
        ensures { result ≡ took_len self }
    {
        match self {
            Took::Bytes(n) => n,
            Took::NotReady | Took::Failed => 0,
        }
    }

    /// Whether the write failed.
    pub fn is_failed(self) -> bool
        ensures failed { result ≡ true → WriteFailed self }
        ensures told { (from : List ℕ) → result ≡ is_write_fault (write_told self from) }
    {
        match self {
            Took::Failed => true,
            Took::Bytes(_) | Took::NotReady => false,
        }
    }
}

/// A link or listener that a pause waits for.
#[derive(Clone, Copy, Debug, PartialEq, Eq)]
pub struct Want {
    pub link: u32,
    /// 1 to read or accept, 2 to write, 3 for both: libnbd's `aio_get_direction`.
    pub direction: u32,
}

/// Links over which bytes move. They may tell their transcript, the list of all calls with their
/// answers, and what the exports behind them hold.
pub trait Wires {
    /// The calls so far with their answers, the oldest first, where they are told.
    ghost told: { Self → Option (List Call) };

    /// What each export held at the start and holds now, where it is told.
    ghost contents: { Self → Option (List Stored) };

    /// How often a call failed.
    ghost faults: { Self → ℕ };

    /// How long the wires have waited.
    ghost idles: { Self → ℕ };

    /// A new link to this address, under a number that was never given before.
    fn connect(&mut self, to: &Target) -> Result<u32, WireFailed>
        ensures told { Adds (told self.old) (told self.new) (Connect to.now (link_told result)) }
        ensures fresh { IfOk result (λ link. (calls : List Call) → told self.old ≡ Some calls → is_given link calls ≡ false) }
        ensures contents { Keeps (contents self.old) (contents self.new) }
        ensures faults { faults self.old ≤ faults self.new }
        ensures cause { OnErr result (Rises 1 (faults self.old) (faults self.new)) }
        ensures idles { idles self.old ≤ idles self.new };

    /// A listener at this address, under a number that was never given before.
    fn listen(&mut self, at: &Target) -> Result<u32, WireFailed>
        ensures told { Adds (told self.old) (told self.new) (Listen at.now (link_told result)) }
        ensures fresh { IfOk result (λ link. (calls : List Call) → told self.old ≡ Some calls → is_given link calls ≡ false) }
        ensures contents { Keeps (contents self.old) (contents self.new) }
        ensures faults { faults self.old ≤ faults self.new }
        ensures cause { OnErr result (Rises 1 (faults self.old) (faults self.new)) }
        ensures idles { idles self.old ≤ idles self.new };

    /// A new link from a peer, under a number that was never given before. `Failed` where the listener isn't open.
    fn accept(&mut self, listener: u32) -> Accepted
        ensures told { Adds (told self.old) (told self.new) (Accept listener result) }
        ensures fresh { IfLink result (λ link. (calls : List Call) → told self.old ≡ Some calls → is_given link calls ≡ false) }
        ensures opened { (calls : List Call) → told self.old ≡ Some calls → is_open listener calls ≡ false → AcceptFailed result }
        ensures contents { Keeps (contents self.old) (contents self.new) }
        ensures faults { faults self.old ≤ faults self.new }
        ensures cause { AcceptFailed result → Rises 1 (faults self.old) (faults self.new) }
        ensures idles { idles self.old ≤ idles self.new };

    /// Bytes that the peer sent. `Failed` where the link isn't open.
    fn read(&mut self, link: u32, into: &mut [u8]) -> Got
        requires { 0 < length into.old }
        ensures told { Adds (told self.old) (told self.new) (Read link (length into.old) (read_told result into.new)) }
        ensures count { IfMoved result (λ n. (0 < n) × (n ≤ length into.old)) }
        ensures opened { (calls : List Call) → told self.old ≡ Some calls → is_open link calls ≡ false → ReadFailed result }
        ensures contents { Keeps (contents self.old) (contents self.new) }
        ensures faults { faults self.old ≤ faults self.new }
        ensures cause { ReadFailed result → Rises 1 (faults self.old) (faults self.new) }
        ensures idles { idles self.old ≤ idles self.new };

    /// Hands over bytes for the peer, of which a front is taken. `Failed` where the link isn't open.
    fn write(&mut self, link: u32, from: &[u8]) -> Took
        requires { 0 < length from.now }
        ensures told { Adds (told self.old) (told self.new) (Write link (length from.now) (write_told result from.now)) }
        ensures count { IfSent result (λ n. (0 < n) × (n ≤ length from.now)) }
        ensures opened { (calls : List Call) → told self.old ≡ Some calls → is_open link calls ≡ false → WriteFailed result }
        ensures contents { Keeps (contents self.old) (contents self.new) }
        ensures faults { faults self.old ≤ faults self.new }
        ensures cause { WriteFailed result → Rises 1 (faults self.old) (faults self.new) }
        ensures idles { idles self.old ≤ idles self.new };

    /// Waits until a wanted link can move bytes in its wanted direction, or a wanted listener has a peer.
    fn pause(&mut self, wants: &[Want])
        ensures told { Adds (told self.old) (told self.new) (Pause wants.now) }
        ensures contents { Keeps (contents self.old) (contents self.new) }
        ensures faults { faults self.old ≤ faults self.new }
        ensures idles { Rises 1 (idles self.old) (idles self.new) };

    /// Closes a link or listener, if it is open.
    fn shut(&mut self, link: u32)
        ensures told { Adds (told self.old) (told self.new) (Shut link) }
        ensures contents { Keeps (contents self.old) (contents self.new) }
        ensures faults { faults self.old ≤ faults self.new }
        ensures idles { idles self.old ≤ idles self.new };

    /// The count of failed calls. Where the calls are told, so many of them failed: fewer than 2 ^ 63, since they stand in memory.
    fn faults(&self) -> u64
        ensures count { result ≡ faults self.now }
        ensures tallied { (calls : List Call) → told self.now ≡ Some calls → result ≡ failed calls }
        ensures few { (calls : List Call) → told self.now ≡ Some calls → failed calls < 2 ^ 63 };

    /// The count of waiting.
    fn idles(&self) -> u64
        ensures { result ≡ idles self.now };
}
