//! Files of the system by the numbers of their places, and the counts.

ghost use Rattle.std.specs.Prelude.{None};

use crate::calls;
use lnbd_link::raised;
use lnbd_model::Text;
use lnbd_store::{Store, StoreFailed, StoreGot, StorePart, StoreTook};
use std::alloc::Global;
use std::fs::{File, Files};

/// A file that is open, and the path at which it was opened.
#[derive(Drop)]
struct Opened {
    file: File,
    path: Text,
}

/// Files of the system. Each stays open until the store goes.
#[derive(Drop)]
pub struct FileStore<'a, R: Files<File = File>> {
    alloc: Global,
    files: &'a R,
    opened: Vec<Opened>,
    faults: u64,
    given: u64,
    taken: u64,
}

impl<'a, R: Files<File = File>> FileStore<'a, R> {
    pub fn new(alloc: Global, files: &'a R) -> Self {
        FileStore {
            alloc,
            files,
            opened: Vec::new(alloc),
            faults: 0,
            given: 0,
            taken: 0,
        }
    }
}

/// Whether this file is open already under another name: as a link to it, say, or as `./a` and `a`.
fn is_open_elsewhere(opened: &[Opened], file: &File, path: &Text) -> bool {
    for one in opened {
        if one.path.as_str() != path.as_str() && calls::is_same(&one.file, file) {
            return true;
        }
    }
    false
}

/// Opens a file, and keeps it behind the others. Its number. One that is open under another name is not opened for writing: what is read under
/// that name would be cut and written over.
fn keep<R: Files<File = File>>(
    alloc: Global,
    files: &R,
    opened: &mut Vec<Opened>,
    path: &Text,
    write: bool,
) -> Option<u32> {
    let number = u32::try_from(opened.len()).ok()?;
    let file = calls::open(files, path.as_str(), write)?;
    if write && is_open_elsewhere(opened, &file, path) {
        return None;
    }
    let path = path.try_clone(alloc).ok()?;
    opened.push(Opened { file, path }).ok()?;
    Some(number)
}

/// The open file of a number.
fn file_of(opened: &[Opened], number: u32) -> Option<&File> {
    let one = opened.get(number as usize)?;
    Some(&one.file)
}

impl<'a, R: Files<File = File>> Store for FileStore<'a, R> {
    ghost told = { λ _. None };

    ghost shelf = { λ _. None };

    ghost faults = { λ s. s.faults };

    ghost given = { λ s. s.given };

    ghost taken = { λ s. s.taken };

    fn open(&mut self, path: &Text, write: bool) -> Result<u32, StoreFailed> {
        match keep(self.alloc, self.files, &mut self.opened, path, write) {
            Some(number) => Ok(number),
            None => {
                self.faults = raised(self.faults, 1);
                Err(StoreFailed)
            }
        }
    }

    fn length(&mut self, file: u32) -> Result<u64, StoreFailed> {
        match calls::length_of(file_of(&self.opened, file)) {
            Some(length) => Ok(length),
            None => {
                self.faults = raised(self.faults, 1);
                Err(StoreFailed)
            }
        }
    }

    fn read_at(&mut self, file: u32, offset: u64, into: &mut [u8]) -> StoreGot {
        match calls::read(file_of(&self.opened, file), offset, into) {
            Some(0) => StoreGot::End,
            Some(n) => {
                self.given = raised(self.given, n as u64);
                StoreGot::Bytes(n)
            }
            None => {
                self.faults = raised(self.faults, 1);
                StoreGot::Failed
            }
        }
    }

    fn write_at(&mut self, file: u32, offset: u64, from: &[u8]) -> StoreTook {
        match calls::write(file_of(&self.opened, file), offset, from) {
            Some(n) if n > 0 => {
                self.taken = raised(self.taken, n as u64);
                StoreTook::Bytes(n)
            }
            _ => {
                self.faults = raised(self.faults, 1);
                StoreTook::Failed
            }
        }
    }

    fn cut(&mut self, file: u32, length: u64) -> Result<(), StoreFailed> {
        match calls::cut(file_of(&self.opened, file), length) {
            Some(()) => Ok(()),
            None => {
                self.faults = raised(self.faults, 1);
                Err(StoreFailed)
            }
        }
    }

    fn sync(&mut self, file: u32) -> Result<(), StoreFailed> {
        match calls::sync(file_of(&self.opened, file)) {
            Some(()) => Ok(()),
            None => {
                self.faults = raised(self.faults, 1);
                Err(StoreFailed)
            }
        }
    }

    fn part_at(&mut self, file: u32, offset: u64) -> StorePart {
        calls::part(file_of(&self.opened, file), offset)
    }

    fn faults(&self) -> u64 {
        self.faults
    }
}
