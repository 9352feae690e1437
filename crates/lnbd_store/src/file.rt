//! A file in memory: its bytes with its path.

ghost use Rattle.std.specs.Prelude.{◌≡◌, ◌+◌, ◌≤◌, OnOk, OnErr, length};
ghost use Rattle.lnbd_store.specs.Bytes.{put_at, cut_to};

use crate::contents::Contents;
use lnbd_model::{NoMemory, Text};

/// A file with its path.
#[derive(Debug, Drop)]
pub struct StoreFile {
    pub path: Text,
    pub bytes: Contents,
}

impl StoreFile {
    /// Puts bytes at a place, behind zeros where it is past the end.
    pub(crate) fn put(&mut self, offset: u64, from: &[u8]) -> Result<(), NoMemory>
        ensures ok { OnOk result (self.new ≡ record self.old { bytes = put_at offset from.now self.old.bytes }) }
        ensures err { OnErr result (self.new ≡ self.old) }
    {
        if from.len() as u64 > u64::MAX - offset {
            return Err(NoMemory);
        }
        self.bytes.put(offset as usize, from)
    }

    /// Cuts it to so many bytes, or puts zeros behind it.
    pub(crate) fn cut(&mut self, size: u64) -> Result<(), NoMemory>
        ensures ok { OnOk result (self.new ≡ record self.old { bytes = cut_to size self.old.bytes }) }
        ensures err { OnErr result (self.new ≡ self.old) }
    {
        self.bytes.cut(size as usize)
    }
}
