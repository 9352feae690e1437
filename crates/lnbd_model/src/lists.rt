//! Lists of texts, contexts and listed exports, which contracts see as plain lists. No look-up by
//! name or number stands here.

ghost use Rattle.std.specs.Prelude.{◌≡◌, ◌++◌, ◌∷◌, [], OnOk, OnErr, length, slice_get};
ghost use Rattle.std.specs.Option.{option_copied};

use crate::export::{Context, Listed};
use crate::fault::NoMemory;
use crate::text::Text;
use std::alloc::Global;
use std::marker::Model;

/// A list of texts.
#[derive(Debug, Drop)]
pub struct Texts {
    items: Vec<Text>,
}

impl Model for Texts {
    ghost use Rattle.std.specs.Prelude.{List, ℕ};

    ghost Value = { List (List ℕ) };

    ghost view = { λ a. a.items.items };
}

impl Texts {
    /// The empty list. It takes no memory.
    pub fn new(alloc: Global) -> Self
        ensures { result ≡ [] }
    {
        Texts {
            items: Vec::new(alloc),
        }
    }

    /// How many stand in the list.
    pub fn len(&self) -> usize
        ensures { result ≡ length self.now }
    {
        self.items.len()
    }

    /// The text at this place, counted from 0. None where the list is not as long.
    pub fn get(&self, index: usize) -> Option<&Text>
        ensures { option_copied result ≡ slice_get self.now index }
    {
        self.items.get(index)
    }

    /// All of them, in order.
    pub fn as_slice(&self) -> &[Text]
        ensures { result.now ≡ self.now }
    {
        &self.items
    }

    /// Adds one at the end. On `NoMemory` the list is as before and the text is dropped.
    pub fn push(&mut self, item: Text) -> Result<(), NoMemory>
        ensures ok { OnOk result (self.new ≡ self.old ++ item ∷ []) }
        ensures err { OnErr result (self.new ≡ self.old) }
    {
        self.items.push(item)?;
        Ok(())
    }
}

/// The meta contexts that were agreed, in the order in which the server told them.
#[derive(Debug, Drop)]
pub struct Contexts {
    items: Vec<Context>,
}

impl Model for Contexts {
    ghost use Rattle.std.specs.Prelude.{List};
    ghost use Rattle.lnbd_model.specs.declared.export.Context.{Context};

    ghost Value = { List Context };

    ghost view = { λ a. a.items.items };
}

impl Contexts {
    /// The empty list. It takes no memory.
    pub fn new(alloc: Global) -> Self
        ensures { result ≡ [] }
    {
        Contexts {
            items: Vec::new(alloc),
        }
    }

    /// How many stand in the list.
    pub fn len(&self) -> usize
        ensures { result ≡ length self.now }
    {
        self.items.len()
    }

    /// The context at this place, counted from 0. None where the list is not as long.
    pub fn get(&self, index: usize) -> Option<&Context>
        ensures { option_copied result ≡ slice_get self.now index }
    {
        self.items.get(index)
    }

    /// All of them, in order.
    pub fn as_slice(&self) -> &[Context]
        ensures { result.now ≡ self.now }
    {
        &self.items
    }

    /// Adds one at the end. On `NoMemory` the list is as before and the context is dropped.
    pub fn push(&mut self, item: Context) -> Result<(), NoMemory>
        ensures ok { OnOk result (self.new ≡ self.old ++ item ∷ []) }
        ensures err { OnErr result (self.new ≡ self.old) }
    {
        self.items.push(item)?;
        Ok(())
    }
}

/// The exports that a server listed, in its order.
#[derive(Debug, Drop)]
pub struct Listing {
    items: Vec<Listed>,
}

impl Model for Listing {
    ghost use Rattle.std.specs.Prelude.{List};
    ghost use Rattle.lnbd_model.specs.declared.export.Listed.{Listed};

    ghost Value = { List Listed };

    ghost view = { λ a. a.items.items };
}

impl Listing {
    /// The empty list. It takes no memory.
    pub fn new(alloc: Global) -> Self
        ensures { result ≡ [] }
    {
        Listing {
            items: Vec::new(alloc),
        }
    }

    /// How many stand in the list.
    pub fn len(&self) -> usize
        ensures { result ≡ length self.now }
    {
        self.items.len()
    }

    /// The entry at this place, counted from 0. None where the list is not as long.
    pub fn get(&self, index: usize) -> Option<&Listed>
        ensures { option_copied result ≡ slice_get self.now index }
    {
        self.items.get(index)
    }

    /// All of them, in order.
    pub fn as_slice(&self) -> &[Listed]
        ensures { result.now ≡ self.now }
    {
        &self.items
    }

    /// Adds one at the end. On `NoMemory` the list is as before and the entry is dropped.
    pub fn push(&mut self, item: Listed) -> Result<(), NoMemory>
        ensures ok { OnOk result (self.new ≡ self.old ++ item ∷ []) }
        ensures err { OnErr result (self.new ≡ self.old) }
    {
        self.items.push(item)?;
        Ok(())
    }
}
