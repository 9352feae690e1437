//! The bytes of a file in memory. Whose they are is not known here.

ghost use Rattle.std.specs.Prelude.{◌≡◌, ◌+◌, ◌≤◌, OnOk, OnErr, length, vec_len};
ghost use Rattle.lnbd_store.specs.Bytes.{put_at, cut_to, put, Grown};

use lnbd_model::NoMemory;
use std::marker::Model;

/// Bytes of a file. Contracts see their list.
#[derive(Debug, Drop)]
pub struct Contents {
    items: Vec<u8>,
}

impl Model for Contents {
    ghost use Rattle.std.specs.Prelude.{List, ℕ};

    ghost Value = { List ℕ };

    ghost view = { λ a. a.items.items };
}

impl Contents {
    /// What this vector holds.
    pub fn from_vec(items: Vec<u8>) -> Self
        ensures { result ≡ items.items }
    {
        Contents { items }
    }

    /// The vector again.
    pub fn into_vec(self) -> Vec<u8>
        ensures { result.items ≡ self }
    {
        let Contents { items } = self;
        items
    }

    /// All of them, in order.
    pub fn as_slice(&self) -> &[u8]
        ensures { result.now ≡ self.now }
    {
        self.items.as_slice()
    }

    /// Puts bytes at a place, behind zeros where it is past the end.
    pub(crate) fn put(&mut self, offset: usize, from: &[u8]) -> Result<(), NoMemory>
        requires { offset + length from.now ≤ 18446744073709551615 }
        ensures ok { OnOk result (self.new ≡ put_at offset from.now self.old) }
        ensures err { OnErr result (self.new ≡ self.old) }
    {
        grow(&mut self.items, offset + from.len())?;
        paste(&mut self.items, offset, from);
        Ok(())
    }

    /// Cuts them to so many, or puts zeros behind them.
    pub(crate) fn cut(&mut self, size: usize) -> Result<(), NoMemory>
        ensures ok { OnOk result (self.new ≡ cut_to size self.old) }
        ensures err { OnErr result (self.new ≡ self.old) }
    {
        self.items.resize(size, 0)?;
        Ok(())
    }
}

/// Puts zeros behind the bytes, where they end before this.
#[tactic(auto, using(crate::proofs::ByteLemmas::grown_there, crate::proofs::ByteLemmas::grown_to))]
fn grow(bytes: &mut Vec<u8>, end: usize) -> Result<(), NoMemory>
    ensures ok { OnOk result (Grown end bytes.old.items bytes.new.items) }
    ensures err { OnErr result (bytes.new.items ≡ bytes.old.items) }
{
    if bytes.len() < end {
        bytes.resize(end, 0)?;
    }
    Ok(())
}

/// Puts bytes over those that are there.
fn paste(to: &mut Vec<u8>, at: usize, from: &[u8])
    requires { at + length from.now ≤ vec_len to.old }
    ensures { to.new.items ≡ put at from.now to.old.items }
{
    to[at..at + from.len()].copy_from_slice(from);
}
