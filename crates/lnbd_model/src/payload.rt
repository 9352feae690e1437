//! Vectors of bytes, extents and notes that stand in public values. Contracts see their lists, so that
//! two with the same contents are equal whatever their capacity. They are made from a `Vec` and give
//! it back without taking memory.

ghost use Rattle.std.specs.Prelude.{◌≡◌, length};

use crate::export::Extent;
use crate::note::Note;
use std::marker::Model;

/// Bytes of a payload, as a command reads or writes them.
#[derive(Debug, Drop)]
pub struct Bytes {
    items: Vec<u8>,
}

impl Model for Bytes {
    ghost use Rattle.std.specs.Prelude.{List, ℕ};

    ghost Value = { List ℕ };

    ghost view = { λ a. a.items.items };
}

impl Bytes {
    /// What this vector holds.
    pub fn from_vec(items: Vec<u8>) -> Self
        ensures { result ≡ items.items }
    {
        Bytes { items }
    }

    /// The vector again.
    pub fn into_vec(self) -> Vec<u8>
        ensures { result.items ≡ self }
    {
        let Bytes { items } = self;
        items
    }

    /// All of them, in order.
    pub fn as_slice(&self) -> &[u8]
        ensures { result.now ≡ self.now }
    {
        self.items.as_slice()
    }

    /// How many there are.
    pub fn len(&self) -> usize
        ensures { result ≡ length self.now }
    {
        self.items.len()
    }
}

/// Extents, one after another.
#[derive(Debug, Drop)]
pub struct Extents {
    items: Vec<Extent>,
}

impl Model for Extents {
    ghost use Rattle.std.specs.Prelude.{List};
    ghost use Rattle.lnbd_model.specs.declared.export.Extent.{Extent};

    ghost Value = { List Extent };

    ghost view = { λ a. a.items.items };
}

impl Extents {
    /// What this vector holds.
    pub fn from_vec(items: Vec<Extent>) -> Self
        ensures { result ≡ items.items }
    {
        Extents { items }
    }

    /// The vector again.
    pub fn into_vec(self) -> Vec<Extent>
        ensures { result.items ≡ self }
    {
        let Extents { items } = self;
        items
    }

    /// All of them, in order.
    pub fn as_slice(&self) -> &[Extent]
        ensures { result.now ≡ self.now }
    {
        self.items.as_slice()
    }

    /// How many there are.
    pub fn len(&self) -> usize
        ensures { result ≡ length self.now }
    {
        self.items.len()
    }
}

/// Notes of calls on callbacks, the earliest first.
#[derive(Debug, Drop)]
pub struct Notes {
    items: Vec<Note>,
}

impl Model for Notes {
    ghost use Rattle.std.specs.Prelude.{List};
    ghost use Rattle.lnbd_model.specs.declared.note.Note.{Note};

    ghost Value = { List Note };

    ghost view = { λ a. a.items.items };
}

impl Notes {
    /// What this vector holds.
    pub fn from_vec(items: Vec<Note>) -> Self
        ensures { result ≡ items.items }
    {
        Notes { items }
    }

    /// The vector again.
    pub fn into_vec(self) -> Vec<Note>
        ensures { result.items ≡ self }
    {
        let Notes { items } = self;
        items
    }

    /// All of them, in order.
    pub fn as_slice(&self) -> &[Note]
        ensures { result.now ≡ self.now }
    {
        self.items.as_slice()
    }

    /// How many there are.
    pub fn len(&self) -> usize
        ensures { result ≡ length self.now }
    {
        self.items.len()
    }
}
