//! What a board wants to be asked next.

ghost use Rattle.std.specs.Prelude.{◌≡◌};

use lnbd_model::Bytes;

/// A change of the destination. It is asked with the ticket of its slice.
#[derive(Debug, Drop)]
pub enum Change {
    /// WRITE of these bytes from this position on, without flags. The buffer comes back to the board.
    Write {
        offset: u64,
        bytes: Bytes,
    },
    /// WRITE_ZEROES with these flags.
    Zero {
        offset: u64,
        length: u64,
        flags: u32,
    },
}

/// The first request of a slice.
#[derive(Debug, Drop)]
pub enum Ask {
    /// READ into this buffer from this position on, without flags. The buffer comes back to the board.
    Read { offset: u64, buf: Bytes },
    Change(Change),
}

impl Change {
    ghost use Rattle.lnbd_board.specs.Asks.{written_by, zeroed_by};

    /// How many bytes it writes.
    pub(crate) fn written(&self) -> u64
        ensures { result ≡ written_by self.now }
    {
        match self {
            Change::Write { offset: _, bytes } => bytes.len() as u64,
            Change::Zero { .. } => 0,
        }
    }

    /// How many bytes it zeroes.
    pub(crate) fn zeroed(&self) -> u64
        ensures { result ≡ zeroed_by self.now }
    {
        match self {
            Change::Write { .. } => 0,
            Change::Zero {
                offset: _,
                length,
                flags: _,
            } => *length,
        }
    }
}

impl Ask {
    ghost use Rattle.lnbd_board.specs.Asks.{read_by, written_first, zeroed_first};

    /// How many bytes it reads.
    pub(crate) fn read(&self) -> u64
        ensures { result ≡ read_by self.now }
    {
        match self {
            Ask::Read { offset: _, buf } => buf.len() as u64,
            Ask::Change(_) => 0,
        }
    }

    /// How many bytes it writes.
    pub(crate) fn written(&self) -> u64
        ensures { result ≡ written_first self.now }
    {
        match self {
            Ask::Read { .. } => 0,
            Ask::Change(change) => change.written(),
        }
    }

    /// How many bytes it zeroes.
    pub(crate) fn zeroed(&self) -> u64
        ensures { result ≡ zeroed_first self.now }
    {
        match self {
            Ask::Read { .. } => 0,
            Ask::Change(change) => change.zeroed(),
        }
    }
}
