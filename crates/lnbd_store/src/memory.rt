//! Files in memory as a store: one of its calls may fail. It tells what its files hold, and its calls while
//! memory lasts. What a call does to a file stands in `files`.

ghost use Rattle.std.specs.Prelude.{◌≡◌, ◌<◌, ◌≤◌, ◌^◌, ℕ, true, false, length, [], Some, None, IfSome, IfNone, IfOk, IsErr, OnErr};
ghost use Rattle.lnbd_link.specs.Count.{Rises, raised_by};
ghost use Rattle.lnbd_link.specs.FailAt.{is_call};
ghost use Rattle.lnbd_link.specs.Part.{Adds};
ghost use Rattle.lnbd_store.specs.Answers.{IfGot, GotFailed, GivesMore, IfTook, TookFailed, TakesMore, part_len};
ghost use Rattle.lnbd_store.specs.Call.{number_told, done_told, read_told, write_told};
ghost use Rattle.lnbd_store.specs.Call.{Open, Length, ReadAt, WriteAt, Cut, Sync, PartAt};
ghost use Rattle.lnbd_store.specs.Effects.{OpensAs, MeasuresAs, ReadsAs, WritesAs, CutsAs, SyncsAs, PartsAs};
ghost use Rattle.lnbd_store.specs.Log.{call_of};
ghost use Rattle.lnbd_store.specs.Memory.{Counts, IsDue, IsMissing, Blames, Stays, file_in, shelf_of};
ghost use Rattle.lnbd_store.specs.Shelf.{Goes};

use crate::file::StoreFile;
use crate::files::{Files, Lack, give};
use crate::log::{Kept, Log, kept_cut, kept_length, kept_open, kept_read, kept_sync, kept_write};
use crate::store::{Store, StoreFailed, StoreGot, StorePart, StoreTook};
use lnbd_link::raised;
use lnbd_model::{NoMemory, Text};
use std::alloc::Global;
use std::marker::Model;

/// Files in memory. Contracts see them with the paths of their numbers, the calls while they are told, which
/// call is to fail, and the counts.
#[derive(Drop)]
pub struct MemoryStore {
    alloc: Global,
    files: Files,
    log: Log,
    calls: u64,
    fail_at: Option<u64>,
    faults: u64,
    given: u64,
    taken: u64,
}

impl Model for MemoryStore {
    ghost use Rattle.lnbd_store.specs.Memory.{Held};

    ghost Value = { Held };

    ghost view = { λ a. record { filed = a.files; told = a.log; calls = a.calls; fail_at = a.fail_at; faults = a.faults; given = a.given; taken = a.taken } };
}

impl MemoryStore {
    /// These files; of two at one path the first counts. The call of number `fail_at`, from 0, fails. Where
    /// memory runs out inside, `faults` rises, and the transcript isn't told from then on.
    pub fn new(alloc: Global, files: Vec<StoreFile>, fail_at: Option<u64>) -> MemoryStore
        ensures told { ⟦<MemoryStore as Store>⟧.told result ≡ Some [] }
        ensures shelf { ⟦<MemoryStore as Store>⟧.shelf result ≡ Some (shelf_of (record { files = files.items; opened = [] })) }
        ensures state { result ≡ record { filed = record { files = files.items; opened = [] }; told = Some []; calls = 0; fail_at = fail_at; faults = 0; given = 0; taken = 0 } }
    {
        MemoryStore {
            alloc,
            files: Files::new(alloc, files),
            log: Log::new(alloc),
            calls: 0,
            fail_at,
            faults: 0,
            given: 0,
            taken: 0,
        }
    }

    /// The bytes of the file at a path.
    pub fn bytes_at(&self, path: &[u8]) -> Option<&[u8]>
        ensures some { IfSome result (λ bytes. file_in path.now self.now.filed.files ≡ Some bytes.now) }
        ensures none { IfNone result (file_in path.now self.now.filed.files ≡ None) }
    {
        self.files.at(path)
    }

    /// How many bytes reads gave.
    pub fn given(&self) -> u64
        ensures { result ≡ self.now.given }
    {
        self.given
    }

    /// How many bytes writes took.
    pub fn taken(&self) -> u64
        ensures { result ≡ self.now.taken }
    {
        self.taken
    }

    /// Counts a call. Whether it is the one that fails.
    fn fails(&mut self) -> bool
        ensures now { self.new ≡ record self.old { calls = raised_by 1 self.old.calls; faults = self.new.faults } }
        ensures due { result ≡ is_call self.old.fail_at self.old.calls }
        ensures faults { self.old.faults ≤ self.new.faults }
        ensures cause { result ≡ true → Rises 1 self.old.faults self.new.faults }
    {
        let call = self.calls;
        self.calls = raised(call, 1);
        let due = is_call(self.fail_at, call);
        if due {
            self.faults = raised(self.faults, 1);
        }
        due
    }

    /// A call fails. Where memory ran out in it, nothing is told from then on.
    fn lack(&mut self, lack: Lack)
        ensures now { self.new ≡ record self.old { told = self.new.told; faults = self.new.faults } }
        ensures faults { self.old.faults ≤ self.new.faults }
        ensures cause { Rises 1 self.old.faults self.new.faults }
        ensures told { Stays self.old.told self.new.told }
        ensures short { lack ≡ Lack.Memory → self.new.told ≡ None }
    {
        self.faults = raised(self.faults, 1);
        match lack {
            Lack::File => {}
            Lack::Memory => self.log.stop(),
        }
    }

    /// Tells a call. Where there is no memory for it, nothing is told from then on.
    fn tell(&mut self, call: Result<Kept, NoMemory>)
        ensures now { self.new ≡ record self.old { told = self.new.told; faults = self.new.faults } }
        ensures told { IfOk call (λ kept. Adds self.old.told self.new.told (call_of kept)) }
        ensures short { OnErr call (self.new.told ≡ None) }
        ensures faults { self.old.faults ≤ self.new.faults }
    {
        match call {
            Ok(kept) => match self.log.add(kept) {
                Ok(()) => {}
                Err(_) => self.faults = raised(self.faults, 1),
            },
            Err(_) => {
                self.log.stop();
                self.faults = raised(self.faults, 1);
            }
        }
    }

    #[tactic(auto, using(crate::proofs::StoreLemmas::same_filed))]
    fn opens(&mut self, path: &Text, write: bool) -> Result<u32, StoreFailed>
        ensures told { Stays self.old.told self.new.told }
        ensures shelf { OpensAs path.now write result (shelf_of self.old.filed) (shelf_of self.new.filed) }
        ensures others { self.new ≡ record self.old { filed = self.new.filed; told = self.new.told; calls = raised_by 1 self.old.calls; faults = self.new.faults } }
        ensures faults { self.old.faults ≤ self.new.faults }
        ensures cause { OnErr result (Rises 1 self.old.faults self.new.faults) }
        ensures due { IsDue self.old → IsErr result }
        ensures only { OnErr result (Blames ((write ≡ false) × (file_in path.now self.old.filed.files ≡ None)) self.old self.new) }
    {
        if self.fails() {
            return Err(StoreFailed);
        }
        match self.files.open(path, write) {
            Ok(number) => Ok(number),
            Err(lack) => {
                self.lack(lack);
                Err(StoreFailed)
            }
        }
    }

    #[tactic(auto, using(crate::proofs::StoreLemmas::same_filed, crate::proofs::StoreLemmas::reads_filed))]
    fn measures(&mut self, file: u32) -> Result<u64, StoreFailed>
        ensures told { Stays self.old.told self.new.told }
        ensures shelf { MeasuresAs file result (shelf_of self.old.filed) (shelf_of self.new.filed) }
        ensures few { IfOk result (λ n. n < 2 ^ 63) }
        ensures others { self.new ≡ record self.old { told = self.new.told; calls = raised_by 1 self.old.calls; faults = self.new.faults } }
        ensures faults { self.old.faults ≤ self.new.faults }
        ensures cause { OnErr result (Rises 1 self.old.faults self.new.faults) }
        ensures due { IsDue self.old → IsErr result }
        ensures only { OnErr result (Blames (IsMissing file self.old.filed) self.old self.new) }
    {
        if self.fails() {
            return Err(StoreFailed);
        }
        let lack = match self.files.bytes(file) {
            Some(bytes) if bytes.len() <= i64::MAX as usize => return Ok(bytes.len() as u64),
            Some(_) => Lack::Memory,
            None => Lack::File,
        };
        self.lack(lack);
        Err(StoreFailed)
    }

    #[tactic(auto, using(crate::proofs::StoreLemmas::same_filed, crate::proofs::StoreLemmas::reads_filed))]
    fn reads(&mut self, file: u32, offset: u64, into: &mut [u8]) -> StoreGot
        requires { 0 < length into.old }
        ensures told { Stays self.old.told self.new.told }
        ensures shelf { ReadsAs file offset result into.new (shelf_of self.old.filed) (shelf_of self.new.filed) }
        ensures count { IfGot result (λ n. (0 < n) × (n ≤ length into.old)) }
        ensures others { self.new ≡ record self.old { told = self.new.told; calls = raised_by 1 self.old.calls; faults = self.new.faults; given = self.new.given } }
        ensures faults { self.old.faults ≤ self.new.faults }
        ensures cause { GotFailed result → Rises 1 self.old.faults self.new.faults }
        ensures given { GivesMore result self.old.given self.new.given }
        ensures due { IsDue self.old → GotFailed result }
        ensures only { GotFailed result → Blames (IsMissing file self.old.filed) self.old self.new }
    {
        if self.fails() {
            return StoreGot::Failed;
        }
        match self.files.bytes(file) {
            Some(bytes) => {
                let n = give(bytes, offset, into);
                if n == 0 {
                    return StoreGot::End;
                }
                self.given = raised(self.given, n as u64);
                StoreGot::Bytes(n)
            }
            None => {
                self.lack(Lack::File);
                StoreGot::Failed
            }
        }
    }

    #[tactic(auto, using(crate::proofs::StoreLemmas::same_filed))]
    fn writes(&mut self, file: u32, offset: u64, from: &[u8]) -> StoreTook
        requires { 0 < length from.now }
        ensures told { Stays self.old.told self.new.told }
        ensures shelf { WritesAs file offset result from.now (shelf_of self.old.filed) (shelf_of self.new.filed) }
        ensures count { IfTook result (λ n. (0 < n) × (n ≤ length from.now)) }
        ensures others { self.new ≡ record self.old { filed = self.new.filed; told = self.new.told; calls = raised_by 1 self.old.calls; faults = self.new.faults; taken = self.new.taken } }
        ensures faults { self.old.faults ≤ self.new.faults }
        ensures cause { TookFailed result → Rises 1 self.old.faults self.new.faults }
        ensures taken { TakesMore result self.old.taken self.new.taken }
        ensures due { IsDue self.old → TookFailed result }
        ensures only { TookFailed result → Blames (IsMissing file self.old.filed) self.old self.new }
    {
        if self.fails() {
            return StoreTook::Failed;
        }
        match self.files.put(file, offset, from) {
            Ok(()) => {
                self.taken = raised(self.taken, from.len() as u64);
                StoreTook::Bytes(from.len())
            }
            Err(lack) => {
                self.lack(lack);
                StoreTook::Failed
            }
        }
    }

    #[tactic(auto, using(crate::proofs::StoreLemmas::same_filed))]
    fn cuts(&mut self, file: u32, size: u64) -> Result<(), StoreFailed>
        ensures told { Stays self.old.told self.new.told }
        ensures shelf { CutsAs file size result (shelf_of self.old.filed) (shelf_of self.new.filed) }
        ensures others { self.new ≡ record self.old { filed = self.new.filed; told = self.new.told; calls = raised_by 1 self.old.calls; faults = self.new.faults } }
        ensures faults { self.old.faults ≤ self.new.faults }
        ensures cause { OnErr result (Rises 1 self.old.faults self.new.faults) }
        ensures due { IsDue self.old → IsErr result }
        ensures only { OnErr result (Blames (IsMissing file self.old.filed) self.old self.new) }
    {
        if self.fails() {
            return Err(StoreFailed);
        }
        match self.files.cut(file, size) {
            Ok(()) => Ok(()),
            Err(lack) => {
                self.lack(lack);
                Err(StoreFailed)
            }
        }
    }

    #[tactic(auto, using(crate::proofs::StoreLemmas::same_filed, crate::proofs::StoreLemmas::reads_filed))]
    fn syncs(&mut self, file: u32) -> Result<(), StoreFailed>
        ensures told { Stays self.old.told self.new.told }
        ensures shelf { SyncsAs file result (shelf_of self.old.filed) (shelf_of self.new.filed) }
        ensures others { self.new ≡ record self.old { told = self.new.told; calls = raised_by 1 self.old.calls; faults = self.new.faults } }
        ensures faults { self.old.faults ≤ self.new.faults }
        ensures cause { OnErr result (Rises 1 self.old.faults self.new.faults) }
        ensures due { IsDue self.old → IsErr result }
        ensures only { OnErr result (Blames (IsMissing file self.old.filed) self.old self.new) }
    {
        if self.fails() {
            return Err(StoreFailed);
        }
        match self.files.bytes(file) {
            Some(_) => Ok(()),
            None => {
                self.lack(Lack::File);
                Err(StoreFailed)
            }
        }
    }
}

/// Whether this call is the one that fails.
fn is_call(fail_at: Option<u64>, call: u64) -> bool
    ensures { result ≡ is_call fail_at call }
{
    match fail_at {
        Some(n) => n == call,
        None => false,
    }
}

impl Store for MemoryStore {
    ghost told = { λ s. s.told };

    ghost shelf = { λ s. Some (shelf_of s.filed) };

    ghost faults = { λ s. s.faults };

    ghost given = { λ s. s.given };

    ghost taken = { λ s. s.taken };

    #[tactic(auto, using(crate::proofs::StoreLemmas::goes_told, crate::proofs::ToldLemmas::told_then))]
    fn open(&mut self, path: &Text, write: bool) -> Result<u32, StoreFailed>
        ensures told { Adds self.old.told self.new.told (Open path.now write (number_told result)) }
        ensures shelf { Goes (Some (shelf_of self.old.filed)) (Some (shelf_of self.new.filed)) (OpensAs path.now write result) }
        ensures faults { self.old.faults ≤ self.new.faults }
        ensures cause { OnErr result (Rises 1 self.old.faults self.new.faults) }
        ensures given { self.new.given ≡ self.old.given }
        ensures taken { self.new.taken ≡ self.old.taken }
        ensures counts { Counts self.old self.new }
        ensures due { IsDue self.old → IsErr result }
        ensures only { OnErr result (Blames ((write ≡ false) × (file_in path.now self.old.filed.files ≡ None)) self.old self.new) }
    {
        let answer = self.opens(path, write);
        self.tell(kept_open(self.alloc, path, write, answer));
        answer
    }

    #[tactic(auto, using(crate::proofs::StoreLemmas::goes_told, crate::proofs::ToldLemmas::told_as))]
    fn length(&mut self, file: u32) -> Result<u64, StoreFailed>
        ensures told { Adds self.old.told self.new.told (Length file (number_told result)) }
        ensures shelf { Goes (Some (shelf_of self.old.filed)) (Some (shelf_of self.new.filed)) (MeasuresAs file result) }
        ensures few { IfOk result (λ n. n < 2 ^ 63) }
        ensures faults { self.old.faults ≤ self.new.faults }
        ensures cause { OnErr result (Rises 1 self.old.faults self.new.faults) }
        ensures given { self.new.given ≡ self.old.given }
        ensures taken { self.new.taken ≡ self.old.taken }
        ensures counts { Counts self.old self.new }
        ensures due { IsDue self.old → IsErr result }
        ensures only { OnErr result (Blames (IsMissing file self.old.filed) self.old self.new) }
    {
        let answer = self.measures(file);
        self.tell(Ok(kept_length(file, answer)));
        answer
    }

    #[tactic(auto, using(crate::proofs::StoreLemmas::goes_told, crate::proofs::ToldLemmas::told_then))]
    fn read_at(&mut self, file: u32, offset: u64, into: &mut [u8]) -> StoreGot
        requires { 0 < length into.old }
        ensures told { Adds self.old.told self.new.told (ReadAt file offset (length into.old) (read_told result into.new)) }
        ensures shelf { Goes (Some (shelf_of self.old.filed)) (Some (shelf_of self.new.filed)) (ReadsAs file offset result into.new) }
        ensures count { IfGot result (λ n. (0 < n) × (n ≤ length into.old)) }
        ensures faults { self.old.faults ≤ self.new.faults }
        ensures cause { GotFailed result → Rises 1 self.old.faults self.new.faults }
        ensures given { GivesMore result self.old.given self.new.given }
        ensures taken { self.new.taken ≡ self.old.taken }
        ensures counts { Counts self.old self.new }
        ensures due { IsDue self.old → GotFailed result }
        ensures only { GotFailed result → Blames (IsMissing file self.old.filed) self.old self.new }
    {
        let got = self.reads(file, offset, into);
        self.tell(kept_read(self.alloc, file, offset, into, got));
        got
    }

    #[tactic(auto, using(crate::proofs::StoreLemmas::goes_told, crate::proofs::ToldLemmas::told_then))]
    fn write_at(&mut self, file: u32, offset: u64, from: &[u8]) -> StoreTook
        requires { 0 < length from.now }
        ensures told { Adds self.old.told self.new.told (WriteAt file offset (length from.now) (write_told result from.now)) }
        ensures shelf { Goes (Some (shelf_of self.old.filed)) (Some (shelf_of self.new.filed)) (WritesAs file offset result from.now) }
        ensures count { IfTook result (λ n. (0 < n) × (n ≤ length from.now)) }
        ensures faults { self.old.faults ≤ self.new.faults }
        ensures cause { TookFailed result → Rises 1 self.old.faults self.new.faults }
        ensures given { self.new.given ≡ self.old.given }
        ensures taken { TakesMore result self.old.taken self.new.taken }
        ensures counts { Counts self.old self.new }
        ensures due { IsDue self.old → TookFailed result }
        ensures only { TookFailed result → Blames (IsMissing file self.old.filed) self.old self.new }
    {
        let took = self.writes(file, offset, from);
        self.tell(kept_write(self.alloc, file, offset, from, took));
        took
    }

    #[tactic(auto, using(crate::proofs::StoreLemmas::goes_told, crate::proofs::ToldLemmas::told_as))]
    fn cut(&mut self, file: u32, length: u64) -> Result<(), StoreFailed>
        ensures told { Adds self.old.told self.new.told (Cut file length (done_told result)) }
        ensures shelf { Goes (Some (shelf_of self.old.filed)) (Some (shelf_of self.new.filed)) (CutsAs file length result) }
        ensures faults { self.old.faults ≤ self.new.faults }
        ensures cause { OnErr result (Rises 1 self.old.faults self.new.faults) }
        ensures given { self.new.given ≡ self.old.given }
        ensures taken { self.new.taken ≡ self.old.taken }
        ensures counts { Counts self.old self.new }
        ensures due { IsDue self.old → IsErr result }
        ensures only { OnErr result (Blames (IsMissing file self.old.filed) self.old self.new) }
    {
        let answer = self.cuts(file, length);
        self.tell(Ok(kept_cut(file, length, answer)));
        answer
    }

    #[tactic(auto, using(crate::proofs::StoreLemmas::goes_told, crate::proofs::ToldLemmas::told_as))]
    fn sync(&mut self, file: u32) -> Result<(), StoreFailed>
        ensures told { Adds self.old.told self.new.told (Sync file (done_told result)) }
        ensures shelf { Goes (Some (shelf_of self.old.filed)) (Some (shelf_of self.new.filed)) (SyncsAs file result) }
        ensures faults { self.old.faults ≤ self.new.faults }
        ensures cause { OnErr result (Rises 1 self.old.faults self.new.faults) }
        ensures given { self.new.given ≡ self.old.given }
        ensures taken { self.new.taken ≡ self.old.taken }
        ensures counts { Counts self.old self.new }
        ensures due { IsDue self.old → IsErr result }
        ensures only { OnErr result (Blames (IsMissing file self.old.filed) self.old self.new) }
    {
        let answer = self.syncs(file);
        self.tell(Ok(kept_sync(file, answer)));
        answer
    }

    /// It looks for no zeros. Where there is no memory to tell the call, nothing is told from then on, and it has not failed.
    #[tactic(auto, using(crate::proofs::StoreLemmas::goes_told, crate::proofs::StoreLemmas::same_filed))]
    fn part_at(&mut self, file: u32, offset: u64) -> StorePart
        ensures told { Adds self.old.told self.new.told (PartAt file offset result) }
        ensures shelf { Goes (Some (shelf_of self.old.filed)) (Some (shelf_of self.new.filed)) (PartsAs file offset result) }
        ensures some { 0 < part_len result }
        ensures faults { self.new.faults ≡ self.old.faults }
        ensures given { self.new.given ≡ self.old.given }
        ensures taken { self.new.taken ≡ self.old.taken }
        ensures same { self.new ≡ record self.old { told = self.new.told } }
    {
        let answer = StorePart::Bytes(u64::MAX);
        let _ = self.log.add(Kept::PartAt {
            file,
            offset,
            answer,
        });
        answer
    }

    fn faults(&self) -> u64 {
        self.faults
    }
}
