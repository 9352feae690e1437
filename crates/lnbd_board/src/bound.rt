//! How many slices are bound to each connection of a side.

ghost use Rattle.std.specs.Prelude.{◌≡◌, ◌<◌, ◌-◌, replicate, length, slice_set, slice_index, IfOk};
ghost use Rattle.lnbd_board.specs.Board.{risen};
ghost use Rattle.lnbd_board.specs.Bound.{IsFewest};

use lnbd_model::NoMemory;
use std::alloc::Global;
use std::marker::Model;

/// How many slices are bound to each connection of a side, by the connections' numbers.
#[derive(Debug, Drop)]
pub struct Bound {
    counts: Vec<u64>,
}

impl Model for Bound {
    ghost use Rattle.std.specs.Prelude.{List, ℕ};

    ghost Value = { List ℕ };

    ghost view = { λ b. b.counts.items };
}

impl Bound {
    /// So many connections, to which no slices are bound.
    pub fn new(alloc: Global, connections: usize) -> Result<Bound, NoMemory>
        ensures { IfOk result (λ bound. bound ≡ replicate connections 0) }
    {
        let mut counts = Vec::new(alloc);
        counts.resize(connections, 0)?;
        Ok(Bound { counts })
    }

    /// The connection with the fewest bound slices; of several, that with the lowest number.
    pub fn fewest(&self) -> usize
        requires { 0 < length self.now }
        ensures { IsFewest self.now result }
    {
        least(&self.counts)
    }

    /// A slice is bound to a connection.
    pub fn bind(&mut self, connection: usize)
        requires { connection < length self.old }
        ensures { self.new ≡ slice_set self.old connection (risen (slice_index self.old connection) 1) }
    {
        self.counts[connection] = self.counts[connection].saturating_add(1);
    }

    /// A slice that was bound to a connection is over.
    pub fn release(&mut self, connection: usize)
        requires { connection < length self.old }
        ensures { self.new ≡ slice_set self.old connection (slice_index self.old connection - 1) }
    {
        self.counts[connection] = self.counts[connection].saturating_sub(1);
    }
}

/// The first place of the least number.
fn least(counts: &[u64]) -> usize
    requires { 0 < length counts.now }
    ensures { IsFewest counts.now result }
{
    let mut best = 0;
    'places: for at in 0..counts.len() {
        if counts[at] < counts[best] {
            best = at;
        }
    }
    best
}
