//! Which handle of a copy is which connection. What is asked on it is not known here.

ghost use Rattle.std.specs.Prelude.{◌≡◌, ◌<◌, ◌≤◌, ◌+◌, ◌-◌, ◌^◌, true, false};
ghost use Rattle.lnbd_conduct.specs.Sides.{first_of, connection_of, is_source};

/// How many connections each side has. The first handle that is held is the source's first connection and the second the
/// destination's; behind them stand the others of the source, and then those of the destination.
#[derive(Clone, Copy, Debug, PartialEq, Eq)]
pub struct Sides {
    pub source: u32,
    pub destination: u32,
}

/// The handle of the source's first connection, and of the destination's.
pub const FIRST_SOURCE: usize = 0;

pub const FIRST_DESTINATION: usize = 1;

/// One connection to each side: so many there are until it is settled how many are to be made.
pub const ONE_EACH: Sides = Sides {
    source: 1,
    destination: 1,
};

impl Sides {
    /// The handle of a connection of the source.
    pub fn source(self, connection: usize) -> usize
        requires { connection < self.source }
        ensures side { is_source self result ≡ true }
        ensures here { connection_of self result ≡ connection }
        ensures few { result ≤ self.source }
    {
        if connection == 0 {
            return FIRST_SOURCE;
        }
        connection + 1
    }

    /// The handle of a connection of the destination. There are fewer handles than the greatest number.
    pub fn destination(self, connection: usize) -> usize
        requires { 0 < self.source }
        ensures side { is_source self result ≡ false }
        ensures here { result < 2 ^ 64 - 1 → connection_of self result ≡ connection }
        ensures few { connection < self.destination → result < self.source + self.destination }
    {
        if connection == 0 {
            return FIRST_DESTINATION;
        }
        connection.saturating_add(self.source as usize)
    }

    /// Whether this handle is a connection of the source.
    pub fn is_source(self, index: usize) -> bool
        ensures { result ≡ is_source self index }
    {
        index == FIRST_SOURCE || FIRST_DESTINATION < index && index <= self.source as usize
    }

    /// The first handle of the side that this one is on.
    pub fn first(self, index: usize) -> usize
        ensures few { result ≤ 1 }
        ensures before { result ≤ index }
        ensures value { result ≡ first_of self index }
    {
        if self.is_source(index) {
            FIRST_SOURCE
        } else {
            FIRST_DESTINATION
        }
    }
}
