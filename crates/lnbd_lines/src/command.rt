//! Commands that a line of a script issues. How they are spelled stands in `specs/Grammar.antt`.

use lnbd_model::Bytes;

/// A range of the export, and command flags.
#[derive(Clone, Copy, Debug, PartialEq, Eq)]
pub struct Range {
    /// In bytes.
    pub length: u64,
    /// In bytes.
    pub offset: u64,
    /// As in the NBD protocol, "Command flags"; 0 where the line tells none.
    pub flags: u32,
}

/// What a write sends.
#[derive(Debug, Drop)]
pub enum Payload {
    /// `hex:` and pairs of digits: these bytes.
    Hex(Bytes),
    /// `fill:XX:LEN`: one byte, so often; at most 67,108,864 times.
    Fill { byte: u8, length: u32 },
}

/// A command.
#[derive(Debug, Drop)]
pub enum Command {
    /// `pread LEN OFF [FLAGS]`: read so many bytes, at most 67,108,864 (nbd_aio_pread(3)).
    Pread(Range),
    /// `pread-structured LEN OFF [FLAGS]`: the same, with a callback that hears each piece (nbd_aio_pread_structured(3)).
    PreadStructured(Range),
    /// `pwrite BYTES OFF [FLAGS]`: write these bytes from this offset on (nbd_aio_pwrite(3)).
    Pwrite {
        payload: Payload,
        offset: u64,
        flags: u32,
    },
    /// `flush [FLAGS]`: have the server put what was written on stable storage (nbd_aio_flush(3)).
    Flush {
        flags: u32,
    },
    /// `trim LEN OFF [FLAGS]`: tell that the range is not needed any more (nbd_aio_trim(3)).
    Trim(Range),
    /// `zero LEN OFF [FLAGS]`: write zeroes over the range (nbd_aio_zero(3)).
    Zero(Range),
    /// `cache LEN OFF [FLAGS]`: have the server read the range ahead (nbd_aio_cache(3)).
    Cache(Range),
    /// `block-status LEN OFF [FLAGS]`: ask what the range consists of (nbd_aio_block_status(3)).
    BlockStatus(Range),
}

/// What the callbacks of a command answer.
#[derive(Clone, Copy, Debug, PartialEq, Eq)]
pub enum Manner {
    /// The result is kept until it is asked for.
    Keep,
    /// `auto COMMAND`: the command is retired as soon as it completes.
    Retire,
    /// `fail N COMMAND`: the chunk or extents callback fails the command by this error.
    Fail { error: u32 },
}
