//! How a copy writes.

ghost use Rattle.std.specs.Prelude.{◌≡◌};

/// How a copy writes, as both sides and its options have settled.
#[derive(Clone, Copy, Debug)]
pub struct How {
    /// The size of blocks that are looked at for zeros, in bytes. 0: none are.
    pub block: u32,
    /// The destination reads as zeroes: zero pieces are passed over.
    pub skip: bool,
    /// The destination takes WRITE_ZEROES.
    pub zeroes: bool,
    /// Zeroes are written as allocated.
    pub allocated: bool,
}

impl How {
    ghost use Rattle.lnbd_board.specs.Pieces.{detects};

    /// Whether blocks are looked at for zeros.
    pub(crate) fn detects(self) -> bool
        ensures { result ≡ detects self }
    {
        self.block != 0 && (self.zeroes || self.skip)
    }
}
