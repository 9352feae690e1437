//! Files and the numbers under which they were opened. Which call is to fail is not known here.

ghost use Rattle.std.specs.Prelude.{◌≡◌, ◌+◌, ◌<◌, ◌≤◌, ℕ, List, length, [], ◌∷◌, ◌++◌, Some, None, false, IfSome, IfNone, IfOk, IsErrOf, OnOk, OnErr};
ghost use Rattle.lnbd_store.specs.Bytes.{put_at, cut_to};
ghost use Rattle.lnbd_store.specs.Effects.{IsAt};
ghost use Rattle.lnbd_store.specs.Memory.{IsPlace, IsPut, IsOf, IsMissing, file_in, shelf_of};
ghost use Rattle.lnbd_store.specs.Shelf.{Opens, Changes, HasBytes};

use crate::contents::Contents;
use crate::file::StoreFile;
use lnbd_model::{NoMemory, Text};
use std::alloc::Global;
use std::marker::Model;

/// Why nothing came of a call.
#[derive(Clone, Copy)]
pub(crate) enum Lack {
    /// The number is that of no file, or there is no file at the path.
    File,
    /// Memory ran out.
    Memory,
}

impl From<NoMemory> for Lack {
    ghost use Rattle.std.specs.Prelude.{◌≡◌};
    ghost use Rattle.lnbd_store.specs.declared.files.Lack.TheVariants.{Memory};

    ghost from_gives = { λ _ lack. lack ≡ Memory };

    fn from(_fault: NoMemory) -> Lack {
        Lack::Memory
    }
}

/// Files, and the path of each number. Of two files at one path the first counts.
#[derive(Drop)]
pub(crate) struct Files {
    alloc: Global,
    files: Vec<StoreFile>,
    opened: Vec<Text>,
}

impl Model for Files {
    ghost use Rattle.lnbd_store.specs.Memory.{Filed};

    ghost Value = { Filed };

    ghost view = { λ a. record { files = a.files.items; opened = a.opened.items } };
}

impl Files {
    /// These files, of which none was opened.
    pub fn new(alloc: Global, files: Vec<StoreFile>) -> Files
        ensures { result ≡ record { files = files.items; opened = [] } }
    {
        Files {
            alloc,
            files,
            opened: Vec::new(alloc),
        }
    }

    /// A number for the file at a path, which is made where it is missing and may be.
    pub fn open(&mut self, path: &Text, write: bool) -> Result<u32, Lack>
        ensures ok { IfOk result (λ n. Opens path.now write n (shelf_of self.old) (shelf_of self.new)) }
        ensures err { OnErr result (self.new ≡ self.old) }
        ensures missing { IsErrOf result Lack.File → (write ≡ false) × (file_in path.now self.old.files ≡ None) }
    {
        match place(&self.files, path.as_bytes()) {
            Some(_) => Ok(number(self.alloc, &mut self.opened, path)?),
            None => {
                if !write {
                    return Err(Lack::File);
                }
                Ok(self.make(path)?)
            }
        }
    }

    /// A number for a file that is made, empty.
    fn make(&mut self, path: &Text) -> Result<u32, NoMemory>
        ensures number { IfOk result (λ n. n ≡ length self.old.opened) }
        ensures made { OnOk result (self.new ≡ record { files = self.old.files ++ record { path = path.now; bytes = [] } ∷ []; opened = self.old.opened ++ path.now ∷ [] }) }
        ensures err { OnErr result (self.new ≡ self.old) }
    {
        let file = StoreFile {
            path: path.try_clone(self.alloc)?,
            bytes: Contents::from_vec(Vec::new(self.alloc)),
        };
        self.files.reserve(1)?;
        let number = number(self.alloc, &mut self.opened, path)?;
        if let Err(_) = self.files.push(file) {
            unreachable!()
        }
        Ok(number)
    }

    /// The bytes of the file at a path.
    pub fn at(&self, path: &[u8]) -> Option<&[u8]>
        ensures some { IfSome result (λ bytes. file_in path.now self.now.files ≡ Some bytes.now) }
        ensures none { IfNone result (file_in path.now self.now.files ≡ None) }
    {
        match place(&self.files, path) {
            None => None,
            Some(i) => Some(self.files[i].bytes.as_slice()),
        }
    }

    /// The bytes of the file of a number.
    pub fn bytes(&self, file: u32) -> Option<&[u8]>
        ensures some { IfSome result (λ bytes. HasBytes file (shelf_of self.now) bytes.now) }
        ensures none { IfNone result (IsMissing file self.now) }
    {
        match self.place_of(file) {
            None => None,
            Some(i) => Some(self.files[i].bytes.as_slice()),
        }
    }

    /// Puts bytes into the file of a number.
    pub fn put(&mut self, file: u32, offset: u64, from: &[u8]) -> Result<(), Lack>
        ensures ok { OnOk result (Changes file (put_at offset from.now) (shelf_of self.old) (shelf_of self.new)) }
        ensures err { OnErr result (self.new ≡ self.old) }
        ensures missing { IsErrOf result Lack.File → IsMissing file self.old }
    {
        match self.place_of(file) {
            None => Err(Lack::File),
            Some(i) => Ok(put(&mut self.files, i, offset, from)?),
        }
    }

    /// Cuts the file of a number.
    pub fn cut(&mut self, file: u32, size: u64) -> Result<(), Lack>
        ensures ok { OnOk result (Changes file (cut_to size) (shelf_of self.old) (shelf_of self.new)) }
        ensures err { OnErr result (self.new ≡ self.old) }
        ensures missing { IsErrOf result Lack.File → IsMissing file self.old }
    {
        match self.place_of(file) {
            None => Err(Lack::File),
            Some(i) => Ok(cut(&mut self.files, i, size)?),
        }
    }

    /// The place of the file of a number.
    #[tactic(auto, using(crate::proofs::StoreLemmas::missing_number, crate::proofs::StoreLemmas::missing_file))]
    fn place_of(&self, file: u32) -> Option<usize>
        ensures some { IfSome result (λ i. (i < length self.now.files) × IsOf file self.now i) }
        ensures none { IfNone result (IsMissing file self.now) }
    {
        match self.opened.get(file as usize) {
            None => None,
            Some(path) => place(&self.files, path.as_bytes()),
        }
    }
}

/// A number more, with this path.
fn number(alloc: Global, opened: &mut Vec<Text>, path: &Text) -> Result<u32, NoMemory>
    ensures ok { IfOk result (λ n. (n ≡ length opened.old.items) × (opened.new.items ≡ opened.old.items ++ path.now ∷ [])) }
    ensures err { OnErr result (opened.new.items ≡ opened.old.items) }
{
    let number = opened.len();
    if number > u32::MAX as usize {
        return Err(NoMemory);
    }
    opened.push(path.try_clone(alloc)?)?;
    Ok(number as u32)
}

/// The place of the first file at a path.
fn place(files: &[StoreFile], path: &[u8]) -> Option<usize>
    ensures some { IfSome result (λ i. (i < length files.now) × IsPlace path.now files.now i) }
    ensures none { IfNone result (file_in path.now files.now ≡ None) }
{
    'files: for i in 0..files.len() {
        if files[i].path.as_bytes() == path {
            return Some(i);
        }
    }
    None
}

/// Puts bytes into the file at a place of the list.
fn put(files: &mut Vec<StoreFile>, i: usize, offset: u64, from: &[u8]) -> Result<(), NoMemory>
    requires { i < length files.old.items }
    ensures ok { OnOk result ((path : List ℕ) → IsPlace path files.old.items i → IsPut path (put_at offset from.now) files.old.items files.new.items) }
    ensures err { OnErr result (files.new.items ≡ files.old.items) }
{
    files[i].put(offset, from)
}

/// Cuts the file at a place of the list.
fn cut(files: &mut Vec<StoreFile>, i: usize, size: u64) -> Result<(), NoMemory>
    requires { i < length files.old.items }
    ensures ok { OnOk result ((path : List ℕ) → IsPlace path files.old.items i → IsPut path (cut_to size) files.old.items files.new.items) }
    ensures err { OnErr result (files.new.items ≡ files.old.items) }
{
    files[i].cut(size)
}

/// Bytes from a place on, as many as there are room for. How many.
pub(crate) fn give(bytes: &[u8], offset: u64, into: &mut [u8]) -> usize
    requires { 0 < length into.old }
    ensures count { result ≤ length into.old }
    ensures end { result ≡ 0 → length bytes.now ≤ offset }
    ensures bytes { 0 < result → IsAt offset result into.new bytes.now }
{
    if offset >= bytes.len() as u64 {
        return 0;
    }
    let at = offset as usize;
    let n = into.len().min(bytes.len() - at);
    into[..n].copy_from_slice(&bytes[at..at + n]);
    n
}
