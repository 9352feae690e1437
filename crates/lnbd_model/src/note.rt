//! Notes of the calls on callbacks, one for each call.

/// One call on a callback. `slot` is the callback's number, from 1 in order of admission; `heard` is 0
/// where it answered that all is well, and else the number with which it failed the command.
#[derive(Clone, Copy, Debug, PartialEq, Eq)]
pub enum Note {
    /// A piece of a read was told.
    Chunk {
        slot: u64,
        offset: u64,
        length: u64,
        status: u32,
        error: u32,
        heard: u32,
    },
    /// Extents of a meta context were told.
    Extents {
        slot: u64,
        context: u32,
        offset: u64,
        count: u32,
        error: u32,
        heard: u32,
    },
    /// The command completed; `kept` says that its result is kept until it is asked for.
    Completed {
        slot: u64,
        error: u32,
        kept: bool,
    },
    /// The callback was freed.
    Freed {
        slot: u64,
    },
}
