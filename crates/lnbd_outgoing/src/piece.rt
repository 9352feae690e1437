//! The pieces of a queue, and where their bytes are.

ghost use Rattle.std.specs.Prelude.{◌≡◌, ◌≤◌, length};
ghost use Rattle.lnbd_outgoing.specs.Pieces.{Writes, head_bytes, part_of, size_of, ends_of, write_of, AreOwn};

use lnbd_model::Bytes;

/// The head of a request (NBD protocol, "Request message" and "Extended request message").
#[derive(Clone, Copy, Debug, PartialEq, Eq)]
pub enum RequestBytes {
    /// While extended headers are off.
    Compact([u8; 28]),
    /// While they are on.
    Extended([u8; 32]),
}

impl RequestBytes {
    pub(crate) fn as_slice(&self) -> &[u8]
        ensures { result.now ≡ head_bytes self.now }
    {
        match self {
            RequestBytes::Compact(bytes) => bytes,
            RequestBytes::Extended(bytes) => bytes,
        }
    }
}

/// What is to be sent, and where its bytes are.
#[derive(Debug, Drop)]
pub enum Piece {
    /// The client's flags, or the request of an option.
    Text(Bytes),
    /// The request of ABORT.
    Abort([u8; 16]),
    /// A command's head, with which the command ends.
    Whole(RequestBytes),
    /// A command's head before its own bytes, or the head of DISC.
    Head(RequestBytes),
    /// So many bytes of the write with this cookie, which stay in its buffer.
    Own { cookie: u64, size: usize },
}

impl Piece {
    ghost use Rattle.std.specs.Prelude.{◌≡◌, ◌≤◌, length};

    /// How many bytes the piece has.
    pub(crate) fn size(&self) -> usize
        ensures { result ≡ size_of self.now }
    {
        match self {
            Piece::Text(bytes) => bytes.len(),
            Piece::Abort(bytes) => bytes.as_slice().len(),
            Piece::Whole(head) => head.as_slice().len(),
            Piece::Head(head) => head.as_slice().len(),
            Piece::Own { cookie: _, size } => *size,
        }
    }

    /// The bytes of the piece, where these are the own bytes of the write that it names.
    pub(crate) fn bytes<'a>(&'a self, own: &'a [u8]) -> &'a [u8]
        ensures { (writes : Writes) → AreOwn writes self.now own.now → result.now ≡ (part_of writes self.now).bytes }
    {
        match self {
            Piece::Text(bytes) => bytes.as_slice(),
            Piece::Abort(bytes) => bytes,
            Piece::Whole(head) => head.as_slice(),
            Piece::Head(head) => head.as_slice(),
            Piece::Own { cookie: _, size: _ } => own,
        }
    }

    /// The cookie of the write that the piece names, if it names one.
    pub(crate) fn write(&self) -> Option<u64>
        ensures { result ≡ write_of self.now }
    {
        match self {
            Piece::Own { cookie, size: _ } => Some(*cookie),
            _ => None,
        }
    }

    /// Whether a command ends with the piece.
    pub(crate) fn ends(&self) -> bool
        ensures part { (writes : Writes) → result ≡ (part_of writes self.now).ends }
        ensures piece { result ≡ ends_of self.now }
    {
        match self {
            Piece::Text(_) => false,
            Piece::Abort(_) => false,
            Piece::Whole(_) => true,
            Piece::Head(_) => false,
            Piece::Own { cookie: _, size: _ } => true,
        }
    }
}
