//! A slice, and where the cells of a grid end that lies on the multiples of a number.

ghost use Rattle.std.specs.Prelude.{◌≡◌, ◌<◌, ◌-◌, ◌%◌, min};

/// A run of positions, zero or not.
#[derive(Clone, Copy, Debug, PartialEq, Eq)]
pub struct Slice {
    /// Its first position.
    pub start: u64,
    /// How many positions it has.
    pub length: u64,
    /// Whether its bytes are zero.
    pub zero: bool,
}

/// How many positions the cell has from here on, if no more than so many are left.
pub(crate) fn rest_of_cell(position: u64, cell: u64, left: u64) -> u64
    requires { 0 < cell }
    ensures { result ≡ min (cell - position % cell) left }
{
    (cell - position % cell).min(left)
}
