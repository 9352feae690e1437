//! A copy of which a side is a file, as one value: what may be copied so, and which way a run of it goes. How each way goes is known by `between`,
//! `to_file` and `from_file`.

ghost use Rattle.std.specs.Prelude.{◌≡◌, IsOkAnd};
ghost use Rattle.lnbd_conduct.specs.Limits.{AreLimited};
ghost use Rattle.lnbd_copyfile.specs.FileCopy.{AreFileSides, Download, DownloadRuns, Downloads, Duplicates, Duplication, DuplicationRuns, Upload, UploadRuns, Uploads};

use crate::between::copy_between;
use crate::fault::FileFault;
use crate::from_file::copy_from_file;
use crate::to_file::copy_to_file;
use lnbd_link::Wires;
use lnbd_model::NoMemory;
use lnbd_plan::{CopyOptions, Summary};
use lnbd_store::{Side, Store};
use std::alloc::Global;
use std::marker::Model;

/// A copy of which a side is a file, and which has not begun. Contracts see its options and its sides.
#[derive(Debug, Drop)]
pub struct FileCopy {
    alloc: Global,
    options: CopyOptions,
    from: Side,
    to: Side,
}

impl Model for FileCopy {
    ghost use Rattle.lnbd_conduct.specs.Limits.{AreLimited};
    ghost use Rattle.lnbd_copyfile.specs.FileCopy.{AreFileSides, Seen};

    ghost Value = { Seen };

    ghost view = { λ c. record { options = c.options; from = c.from; to = c.to } };

    ghost invariant = { λ c. AreLimited c.options × AreFileSides c.from c.to };
}

impl FileCopy {
    /// A copy from one side to the other, by options within their limits. A side is a file, and two files are two. It is always made: it takes no
    /// memory so far.
    pub fn new(
        alloc: Global,
        options: CopyOptions,
        from: Side,
        to: Side,
    ) -> Result<FileCopy, NoMemory>
        requires limited { AreLimited options }
        requires sides { AreFileSides from to }
        ensures made { IsOkAnd result (λ copy. copy ≡ record { options = options; from = from; to = to }) }
    {
        Ok(FileCopy {
            alloc,
            options,
            from,
            to,
        })
    }

    /// Copies.
    ///
    /// Of two files the source is opened and measured; the destination is opened, made where it is missing, cut to nothing and then to the source's
    /// length, so that nothing of what it had is left; and slices of at most `request_size` bytes are read and written one after another. Whole
    /// blocks of `sparse` zeros are passed over, unless they are to be allocated. `connections`, `requests`, `extents` and `destination_is_zero`
    /// change nothing then.
    ///
    /// To a file all connections are made first; then the file is opened and cut to the export's size in the same way, and slices are read and
    /// written as their bytes come. What was told to be zero and, with `sparse`, pieces of zeros are passed over, unless they are to be allocated.
    /// `destination_is_zero` changes nothing then.
    ///
    /// From a file it is opened and measured; then the export is connected to, which must not be smaller; and slices of the file are read and
    /// written, many at once. Whole blocks of `sparse` zeros are written as zeroes, or passed over where the export is known to read as zeroes.
    /// `extents` changes nothing then.
    ///
    /// On a fault the destination may be cut and written in part.
    ///
    /// # Errors
    ///
    /// `Copy` with what ends a copy between exports, and where memory ran out; `Store` where a call on the store failed; `Changed` where a file ended
    /// before its length.
    pub fn run<W: Wires, S: Store>(self, wires: &mut W, store: &mut S) -> Result<Summary, FileFault>
        ensures between { (d : Duplication) → Duplicates self d → DuplicationRuns d wires.old wires.new S.told S.shelf S.given S.taken S.faults store.old store.new result }
        ensures download { (d : Download) → Downloads self d → DownloadRuns d W.told W.faults W.idles W.contents wires.old wires.new S.told S.shelf S.taken S.faults store.old store.new result }
        ensures upload { (u : Upload) → Uploads self u → UploadRuns u W.told W.faults W.idles W.contents wires.old wires.new S.told S.shelf S.given S.taken S.faults store.old store.new result }
    {
        let FileCopy {
            alloc,
            options,
            from,
            to,
        } = self;
        match (from, to) {
            (Side::File(from), Side::File(to)) => copy_between(alloc, options, &from, &to, store),
            (Side::Nbd(from), Side::File(to)) => {
                copy_to_file(alloc, options, &from, &to, wires, store)
            }
            (Side::File(from), Side::Nbd(to)) => {
                copy_from_file(alloc, options, &from, &to, wires, store)
            }
            (Side::Nbd(_), Side::Nbd(_)) => unreachable!(),
        }
    }
}
