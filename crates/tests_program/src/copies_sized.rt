//! Copies of few bytes: nothing, one byte, and a byte more and less than a block.

use crate::copies_dealt::{IDLE, TRANSFER};
use crate::played::Transfer;

/// Nothing, few bytes, and what is read or told as zero among them.
pub static SIZES: [Transfer<'static>; 8] = [
    Transfer {
        shows: "exports of no bytes",
        source: &[],
        destination: &[],
        holds: &[],
        asks: &[IDLE, IDLE, IDLE, IDLE, IDLE, IDLE, IDLE, IDLE],
        ..TRANSFER
    },
    Transfer {
        shows: "one byte",
        source: &[(0xdd, 1)],
        destination: &[(0x11, 1)],
        holds: &[(0xdd, 1)],
        asks: &[
            "status 0 1, read 0 1, disc",
            "write 0 1, disc",
            IDLE,
            IDLE,
            IDLE,
            IDLE,
            IDLE,
            IDLE,
        ],
        ..TRANSFER
    },
    Transfer {
        shows: "a byte less than a block, and all of it zeros that were read",
        options: &["--no-extents"],
        source: &[(0, 4095)],
        destination: &[(0x11, 4095)],
        holds: &[(0, 4095)],
        asks: &[
            "read 0 4095, disc",
            "zero 0 4095, disc",
            IDLE,
            IDLE,
            IDLE,
            IDLE,
            IDLE,
            IDLE,
        ],
        ..TRANSFER
    },
    Transfer {
        shows: "a block",
        source: &[(0xdd, 4096)],
        destination: &[(0x11, 4096)],
        holds: &[(0xdd, 4096)],
        asks: &[
            "status 0 4096, read 0 4096, disc",
            "write 0 4096, disc",
            IDLE,
            IDLE,
            IDLE,
            IDLE,
            IDLE,
            IDLE,
        ],
        ..TRANSFER
    },
    Transfer {
        shows: "a block of zeros that were read and a byte",
        options: &["--no-extents"],
        source: &[(0, 4096), (0xdd, 1)],
        destination: &[(0x11, 4097)],
        holds: &[(0, 4096), (0xdd, 1)],
        asks: &[
            "read 0 4097, disc",
            "zero 0 4096, write 4096 1, disc",
            IDLE,
            IDLE,
            IDLE,
            IDLE,
            IDLE,
            IDLE,
        ],
        ..TRANSFER
    },
    Transfer {
        shows: "a block that is told as zero and a byte",
        source: &[(0, 4096), (0xdd, 1)],
        destination: &[(0x11, 4097)],
        holds: &[(0, 4096), (0xdd, 1)],
        asks: &[
            "status 0 4097, disc",
            "zero 0 4096, disc",
            "read 4096 1, disc",
            IDLE,
            IDLE,
            "write 4096 1, disc",
            IDLE,
            IDLE,
        ],
        ..TRANSFER
    },
    Transfer {
        shows: "zeros that were read are passed over where the destination is zero",
        options: &["--destination-is-zero", "--no-extents"],
        source: &[(0, 4096), (0xcc, 4096)],
        destination: &[(0, 8192)],
        holds: &[(0, 4096), (0xcc, 4096)],
        asks: &[
            "read 0 8192, disc",
            "write 4096 4096, disc",
            IDLE,
            IDLE,
            IDLE,
            IDLE,
            IDLE,
            IDLE,
        ],
        ..TRANSFER
    },
    Transfer {
        shows: "extents of one byte",
        source: &[(0xaa, 1), (0, 1), (0xbb, 1), (0, 1)],
        destination: &[(0x11, 4)],
        holds: &[(0xaa, 1), (0, 1), (0xbb, 1), (0, 1)],
        asks: &[
            "status 0 4, read 0 1, disc",
            "write 0 1, disc",
            IDLE,
            "read 2 1, disc",
            IDLE,
            "zero 1 1, disc",
            "write 2 1, disc",
            "zero 3 1, disc",
        ],
        ..TRANSFER
    },
];
