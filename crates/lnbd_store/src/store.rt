//! Files by their paths: the trait, and its answers. What the bytes of a file mean is no matter here.

ghost use Rattle.std.specs.Prelude.{◌≡◌, ◌<◌, ◌≤◌, ◌^◌, ℕ, List, Option, length, IfOk, OnErr};
ghost use Rattle.lnbd_link.specs.Count.{Rises};
ghost use Rattle.lnbd_link.specs.Part.{Adds};
ghost use Rattle.lnbd_store.specs.Shelf.{Shelf, Goes};
ghost use Rattle.lnbd_store.specs.Call.{Call, number_told, done_told, read_told, write_told};
ghost use Rattle.lnbd_store.specs.Call.{Open, Length, ReadAt, WriteAt, Cut, Sync, PartAt};
ghost use Rattle.lnbd_store.specs.Answers.{IfGot, GotFailed, GivesMore, got_len, IfTook, TookFailed, TakesMore, took_len, part_len};
ghost use Rattle.lnbd_store.specs.Effects.{OpensAs, MeasuresAs, ReadsAs, WritesAs, CutsAs, SyncsAs, PartsAs};

use lnbd_model::Text;

/// A call on a store failed.
#[derive(Clone, Copy, Debug, PartialEq, Eq)]
pub struct StoreFailed;

/// What a read of a file answers.
#[derive(Clone, Copy, Debug, PartialEq, Eq)]
pub enum StoreGot {
    /// So many bytes were put at the front of the slice.
    Bytes(usize),
    /// The file ends at or before the place.
    End,
    /// No byte came.
    Failed,
}

impl StoreGot {
    /// How many bytes came.
    pub fn moved(self) -> usize
        ensures { result ≡ got_len self }
    {
        match self {
            StoreGot::Bytes(n) => n,
            StoreGot::End | StoreGot::Failed => 0,
        }
    }
}

/// What a write to a file answers.
#[derive(Clone, Copy, Debug, PartialEq, Eq)]
pub enum StoreTook {
    /// The file took so many of the bytes, from the front.
    Bytes(usize),
    /// The file took none.
    Failed,
}

impl StoreTook {
    /// How many bytes were taken.
    pub fn moved(self) -> usize
        ensures { result ≡ took_len self }
    {
        match self {
            StoreTook::Bytes(n) => n,
            StoreTook::Failed => 0,
        }
    }
}

/// What lies in a file from a place on, up to its end.
#[derive(Clone, Copy, Debug, PartialEq, Eq)]
pub enum StorePart {
    /// So many bytes, which have to be read: they may be any.
    Bytes(u64),
    /// So many zeros.
    Zeros(u64),
}

/// Files by their paths. A store may tell its transcript, the list of all calls with their answers, and
/// what its files hold. Where files are told, a call that failed left them as they were.
pub trait Store {
    /// The calls so far with their answers, the oldest first, where they are told.
    ghost told: { Self → Option (List Call) };

    /// The files by their paths, and the paths of the numbers that opens answered, where they are told.
    ghost shelf: { Self → Option Shelf };

    /// How often a call failed.
    ghost faults: { Self → ℕ };

    /// How many bytes reads gave.
    ghost given: { Self → ℕ };

    /// How many bytes writes took.
    ghost taken: { Self → ℕ };

    /// A number for the file at a path, which had none before. For writing, a missing file is made, empty;
    /// one that is there keeps its bytes. `StoreFailed` where it is missing and is to be read.
    fn open(&mut self, path: &Text, write: bool) -> Result<u32, StoreFailed>
        ensures told { Adds (told self.old) (told self.new) (Open path.now write (number_told result)) }
        ensures shelf { Goes (shelf self.old) (shelf self.new) (OpensAs path.now write result) }
        ensures faults { faults self.old ≤ faults self.new }
        ensures cause { OnErr result (Rises 1 (faults self.old) (faults self.new)) }
        ensures given { given self.new ≡ given self.old }
        ensures taken { taken self.new ≡ taken self.old };

    /// How many bytes the file has. `StoreFailed` where no open answered the number.
    fn length(&mut self, file: u32) -> Result<u64, StoreFailed>
        ensures told { Adds (told self.old) (told self.new) (Length file (number_told result)) }
        ensures shelf { Goes (shelf self.old) (shelf self.new) (MeasuresAs file result) }
        ensures few { IfOk result (λ n. n < 2 ^ 63) }
        ensures faults { faults self.old ≤ faults self.new }
        ensures cause { OnErr result (Rises 1 (faults self.old) (faults self.new)) }
        ensures given { given self.new ≡ given self.old }
        ensures taken { taken self.new ≡ taken self.old };

    /// Bytes of the file from a place on. `Failed` where no open answered the number.
    fn read_at(&mut self, file: u32, offset: u64, into: &mut [u8]) -> StoreGot
        requires { 0 < length into.old }
        ensures told { Adds (told self.old) (told self.new) (ReadAt file offset (length into.old) (read_told result into.new)) }
        ensures shelf { Goes (shelf self.old) (shelf self.new) (ReadsAs file offset result into.new) }
        ensures count { IfGot result (λ n. (0 < n) × (n ≤ length into.old)) }
        ensures faults { faults self.old ≤ faults self.new }
        ensures cause { GotFailed result → Rises 1 (faults self.old) (faults self.new) }
        ensures given { GivesMore result (given self.old) (given self.new) }
        ensures taken { taken self.new ≡ taken self.old };

    /// Puts bytes into the file at a place, of which a front is taken; zeros fill what lies between its end
    /// and the place. `Failed` where no open answered the number.
    fn write_at(&mut self, file: u32, offset: u64, from: &[u8]) -> StoreTook
        requires { 0 < length from.now }
        ensures told { Adds (told self.old) (told self.new) (WriteAt file offset (length from.now) (write_told result from.now)) }
        ensures shelf { Goes (shelf self.old) (shelf self.new) (WritesAs file offset result from.now) }
        ensures count { IfTook result (λ n. (0 < n) × (n ≤ length from.now)) }
        ensures faults { faults self.old ≤ faults self.new }
        ensures cause { TookFailed result → Rises 1 (faults self.old) (faults self.new) }
        ensures given { given self.new ≡ given self.old }
        ensures taken { TakesMore result (taken self.old) (taken self.new) };

    /// The file has so many bytes from now on: its first ones, and zeros behind them. `StoreFailed` where no
    /// open answered the number.
    fn cut(&mut self, file: u32, length: u64) -> Result<(), StoreFailed>
        ensures told { Adds (told self.old) (told self.new) (Cut file length (done_told result)) }
        ensures shelf { Goes (shelf self.old) (shelf self.new) (CutsAs file length result) }
        ensures faults { faults self.old ≤ faults self.new }
        ensures cause { OnErr result (Rises 1 (faults self.old) (faults self.new)) }
        ensures given { given self.new ≡ given self.old }
        ensures taken { taken self.new ≡ taken self.old };

    /// What was written has reached the medium. `StoreFailed` where no open answered the number.
    fn sync(&mut self, file: u32) -> Result<(), StoreFailed>
        ensures told { Adds (told self.old) (told self.new) (Sync file (done_told result)) }
        ensures shelf { Goes (shelf self.old) (shelf self.new) (SyncsAs file result) }
        ensures faults { faults self.old ≤ faults self.new }
        ensures cause { OnErr result (Rises 1 (faults self.old) (faults self.new)) }
        ensures given { given self.new ≡ given self.old }
        ensures taken { taken self.new ≡ taken self.old };

    /// What lies in the file from a place on, for at least one position. It never fails: what is not known is bytes, up to `u64::MAX`.
    fn part_at(&mut self, file: u32, offset: u64) -> StorePart
        ensures told { Adds (told self.old) (told self.new) (PartAt file offset result) }
        ensures shelf { Goes (shelf self.old) (shelf self.new) (PartsAs file offset result) }
        ensures some { 0 < part_len result }
        ensures faults { faults self.new ≡ faults self.old }
        ensures given { given self.new ≡ given self.old }
        ensures taken { taken self.new ≡ taken self.old };

    /// The count of failed calls.
    fn faults(&self) -> u64
        ensures { result ≡ faults self.now };
}
