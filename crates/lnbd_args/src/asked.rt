//! What the words ask for. How it is spelled stands in `specs/Tools.antt`, and no reading of words
//! here.

use lnbd_model::{Place, Text};
use lnbd_plan::CopyOptions;
use lnbd_store::{Serving, Side};

/// A yes or no question about an export (nbdinfo(1), `--is` and `--can`).
#[derive(Clone, Copy, Debug, PartialEq, Eq)]
pub enum Predicate {
    /// `--is read-only`
    IsReadOnly,
    /// `--is rotational`
    IsRotational,
    /// `--is tls`
    IsTls,
    /// `--can cache`
    CanCache,
    /// `--can df`
    CanDf,
    /// `--can fast-zero`
    CanFastZero,
    /// `--can flush`
    CanFlush,
    /// `--can fua`
    CanFua,
    /// `--can multi-conn`
    CanMultiConn,
    /// `--can trim`
    CanTrim,
    /// `--can zero`
    CanZero,
    /// `--can write`
    CanWrite,
    /// `--can read`
    CanRead,
    /// `--can connect`
    CanConnect,
    /// `--can structured-reply`
    CanStructuredReply,
}

/// What nbdinfo tells.
#[derive(Debug, Drop)]
pub enum What {
    /// The one export.
    Listing,
    /// `--list`: each export of the server.
    List,
    /// `--size`
    Size,
    /// `--map`: the extents of this context.
    Map(Text),
    /// `--map --totals`: the sums of the extents of this context.
    Totals(Text),
    /// `--is` or `--can`
    Test(Predicate),
}

/// What the words ask for.
#[derive(Debug, Drop)]
pub enum Asked {
    /// nbdcalls
    Calls,
    /// nbdcopy from an export to an export.
    Copy {
        options: CopyOptions,
        from: Place,
        to: Place,
    },
    /// nbdcopy where a side is a file.
    FileCopy {
        options: CopyOptions,
        from: Side,
        to: Side,
    },
    /// nbddump: the bytes from an offset on, as many as are given or all that follow.
    Dump {
        place: Place,
        offset: u64,
        length: Option<u64>,
    },
    /// nbdinfo
    Info {
        what: What,
        /// It is told as JSON, and else as text.
        json: bool,
        place: Place,
    },
    /// serve: a size of 1,073,741,824 at most, or a file; 1 to 1,000,000 clients; and a program, if
    /// one is run.
    Serve(Serving),
    /// selftest: the number that the content is made from, and its bytes, which have no limit here.
    Selftest {
        seed: u64,
        size: u64,
    },
}
