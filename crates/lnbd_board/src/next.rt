//! What a board says when it is asked what comes next.

use crate::ask::Change;

/// What comes next of the slices that something came for. Connections are numbered as the slice was bound.
#[derive(Debug, Drop)]
pub enum Next {
    /// Nothing came that was not looked at.
    Nothing,
    /// The slice of this number is over, and no longer bound to these connections of the two sides.
    Over {
        slice: u64,
        source: usize,
        destination: usize,
    },
    /// A change is to be asked for the slice of this number, on this connection of the destination.
    Asks {
        slice: u64,
        destination: usize,
        change: Change,
    },
}
