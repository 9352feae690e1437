//! How the calls on the wires beneath are told: one mark a call. Which calls are made is no matter here.

ghost use Rattle.std.specs.Prelude.{◌≡◌, [], IfOk};
ghost use Rattle.lnbd_inbound.specs.Retold.{added};

use lnbd_model::NoMemory;
use std::alloc::Global;
use std::marker::Model;

/// How a call beneath is told.
#[derive(Clone, Copy)]
pub enum Mark {
    /// As it is.
    Same,
    /// A connect as a listen, and a listen as a connect.
    Swapped,
    /// A connect as an accept that answers its link, and an end as an accept that no peer waits for.
    Accepts,
    /// A failed accept as a failed read of the listener, with room for so many bytes.
    Reads(usize),
    /// A failed accept as a failed write on the listener, of so many bytes.
    Writes(usize),
}

/// Contracts see the marks and how many more fit.
#[derive(Drop)]
pub struct Marks {
    kept: Vec<Mark>,
    room: usize,
}

impl Model for Marks {
    ghost use Rattle.std.specs.Prelude.{◌≤◌, ◌+◌, ℕ, List, vec_len, vec_capacity};
    ghost use Rattle.lnbd_inbound.specs.declared.marks.Mark.{Mark};

    ghost Value = { List Mark × ℕ };

    ghost view = { λ a. (a.kept.items, a.room) };

    ghost invariant = { λ a. vec_len a.kept + a.room ≤ vec_capacity a.kept };
}

impl Marks {
    /// No mark, and room for so many.
    pub fn new(alloc: Global, room: usize) -> Result<Marks, NoMemory>
        ensures { IfOk result (λ marks. marks ≡ ([], room)) }
    {
        Ok(Marks {
            kept: Vec::with_capacity(alloc, room)?,
            room,
        })
    }

    /// Adds a mark where one fits. It takes no memory.
    pub fn add(&mut self, mark: Mark)
        ensures { self.new ≡ added mark self.old }
    {
        if self.room > 0 {
            if let Err(_) = self.kept.push(mark) {
                unreachable!()
            }
            self.room -= 1;
        }
    }
}
