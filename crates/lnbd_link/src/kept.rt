//! A call as it is kept: without its bytes and its wants, which stand in lists of their own.

use crate::wires::{Accepted, Got, Took};

/// What kind of address it is, without its text.
#[derive(Clone, Copy)]
pub enum Reach {
    Tcp(u16),
    Unix,
}

/// One call, with how many of the kept bytes and wants belong to it.
#[derive(Clone, Copy)]
pub enum Kept {
    Connect {
        to: Reach,
        text: usize,
        link: Option<u32>,
    },
    Listen {
        at: Reach,
        text: usize,
        listener: Option<u32>,
    },
    Accept {
        listener: u32,
        answer: Accepted,
    },
    Read {
        link: u32,
        room: usize,
        got: Got,
    },
    Write {
        link: u32,
        offered: usize,
        took: Took,
    },
    Pause {
        wants: usize,
    },
    Shut {
        link: u32,
    },
}
