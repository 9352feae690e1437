//! The pieces of a slice that are left to be written.

ghost use Rattle.std.specs.Prelude.{◌≡◌, [], ◌++◌, option_to_list, slice_get, IfNone};
ghost use Rattle.std.specs.Option.{option_copied};

use lnbd_plan::Slice;
use std::alloc::Global;
use std::collections::VecDeque;
use std::marker::Model;

/// Pieces, the first to be written first.
#[derive(Debug, Drop)]
pub struct Pieces {
    items: VecDeque<Slice>,
}

impl Model for Pieces {
    ghost use Rattle.std.specs.Prelude.{List};
    ghost use Rattle.lnbd_plan.specs.declared.grid.Slice.{Slice};

    ghost Value = { List Slice };

    ghost view = { λ p. p.items.items };
}

impl Pieces {
    /// No pieces. It takes no memory.
    pub fn new(alloc: Global) -> Pieces
        ensures { result ≡ [] }
    {
        Pieces {
            items: VecDeque::new(alloc),
        }
    }

    /// These pieces.
    pub fn from_vec(items: Vec<Slice>) -> Pieces
        ensures { result ≡ items.items }
    {
        Pieces {
            items: VecDeque::from_vec(items),
        }
    }

    /// The first piece, if one is left.
    pub fn first(&self) -> Option<Slice>
        ensures { result ≡ slice_get self.now 0 }
    {
        self.items.front().copied()
    }

    /// Takes the first piece away, if one is left.
    pub fn pop(&mut self) -> Option<Slice>
        ensures pieces { self.old ≡ option_to_list result ++ self.new }
        ensures none { IfNone result (self.old ≡ []) }
    {
        self.items.pop_front()
    }
}
