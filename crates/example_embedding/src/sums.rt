//! What the reads brought, which the callbacks add up. It knows no socket.

use lnbd_callbacks::{Caller, Heard, Verdict};
use lnbd_model::{Bytes, Extent};

/// How many bytes came, their sum, and how many reads failed.
#[derive(Clone, Copy)]
pub struct Sums {
    pub bytes: u64,
    pub sum: u64,
    pub failed: u64,
}

impl Sums {
    pub fn new() -> Sums {
        Sums {
            bytes: 0,
            sum: 0,
            failed: 0,
        }
    }
}

/// Adds what a read brought. The command is done with then: its buffer is let go.
#[derive(Clone, Copy)]
pub struct Adding;

impl Caller for Adding {
    type World = Sums;

    ghost steps = { λ before calls after. Unit {0} };

    fn chunk(&self, _: &mut Sums, _: &[u8], _: u64, _: u32, _: u32) -> Heard {
        Heard::Going
    }

    fn extents(&self, _: &mut Sums, _: &[u8], _: u64, _: &[Extent], _: u32) -> Heard {
        Heard::Going
    }

    fn complete(&self, sums: &mut Sums, error: u32, buf: Bytes) -> Verdict {
        if error != 0 {
            sums.failed = sums.failed.wrapping_add(1);
            return Verdict::Retire;
        }
        for byte in buf.as_slice() {
            sums.sum = sums.sum.wrapping_add(u64::from(*byte));
        }
        sums.bytes = sums.bytes.wrapping_add(buf.as_slice().len() as u64);
        Verdict::Retire
    }

    fn free(self, _: &mut Sums) {}

    ghost empty = { λ world. tt };

    ghost append = { λ a b c first second one two. tt };
}
