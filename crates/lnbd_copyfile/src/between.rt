//! A copy between two files, from their opening to the answer, over any store. No export is known here.

ghost use Rattle.std.specs.Prelude.{◌≡◌, ◌≢◌, ◌-◌, ◌<◌, ◌≤◌, ◌^◌, Err, IfErr, IfOk, OnErr, Some, true};
ghost use Rattle.lnbd_link.specs.Count.{Rises};
ghost use Rattle.lnbd_store.specs.Shelf.{Goes, Shelf};
ghost use Rattle.lnbd_touched.specs.Grown.{Grew};
ghost use Rattle.lnbd_copyfile.specs.Between.{HasCopied, HasPassed, IsSummed, copied_length};
ghost use Rattle.lnbd_copyfile.specs.Calls.{HasDone, IsOpening, NotDone, NotOpened, stop_of};
ghost use Rattle.lnbd_copyfile.specs.Causes.{HasCause, IsChanged, TellsChange};
ghost use Rattle.lnbd_copyfile.specs.Steps.{IsSource};
ghost use Rattle.lnbd_copyfile.specs.Zeros.{block_of};

use crate::fault::{FileFault, Stop};
use crate::filling::{Amounts, Way, fill};
use lnbd_model::Text;
use lnbd_plan::{CopyOptions, Summary};
use lnbd_store::{Store, StoreFailed};
use std::alloc::Global;

/// A file that is open for reading, and its length.
#[derive(Clone, Copy)]
pub(crate) struct Source {
    pub(crate) file: u32,
    pub(crate) size: u64,
}

/// Opens the file at a path for reading, and asks for its length.
pub(crate) fn open_source<S: Store>(store: &mut S, path: &Text) -> Result<Source, StoreFailed>
    ensures source { IfOk result (λ source. Goes (S.shelf store.old) (S.shelf store.new) (IsSource path.now source.file source.size)) }
    ensures opening { IfOk result (λ source. Grew (S.told store.old) (S.told store.new) (IsOpening path.now source.file source.size)) }
    ensures unopened { OnErr result (Grew (S.told store.old) (S.told store.new) (NotOpened path.now)) }
    ensures few { IfOk result (λ source. source.size < 2 ^ 63) }
    ensures failed { OnErr result (Rises 1 (S.faults store.old) (S.faults store.new)) }
    ensures later { S.faults store.old ≤ S.faults store.new }
    ensures given { S.given store.new ≡ S.given store.old }
    ensures taken { S.taken store.new ≡ S.taken store.old }
{
    let file = store.open(path, false)?;
    let size = store.length(file)?;
    Ok(Source { file, size })
}

/// The blocks of zeros that are passed over; 0 where none are.
fn block_of(options: CopyOptions) -> u32
    ensures { result ≡ block_of options }
{
    if options.allocated || options.request_size < options.sparse {
        return 0;
    }
    options.sparse
}

/// What a copy did that read and wrote so many of a file's bytes.
fn summary_of(size: u64, amounts: Amounts) -> Summary
    requires { amounts.written ≤ size }
    ensures { result ≡ record { read = amounts.read; written = amounts.written; zeroed = 0; skipped = size - amounts.written } }
{
    Summary {
        read: amounts.read,
        written: amounts.written,
        zeroed: 0,
        skipped: size - amounts.written,
    }
}

/// Copies, and says what stopped it.
fn copy<S: Store>(
    alloc: Global,
    options: CopyOptions,
    from: &Text,
    to: &Text,
    store: &mut S,
) -> Result<Summary, Stop>
    requires apart { from.now ≢ to.now }
    requires cell { 0 < options.request_size }
    ensures between { IfOk result (λ summary. HasCopied from.now to.now (copied_length summary) (S.shelf store.old) (S.shelf store.new)) }
    ensures stores { IfOk result (λ summary. Grew (S.told store.old) (S.told store.new) (HasDone from.now to.now (copied_length summary) options)) }
    ensures sums { IfOk result (λ summary. IsSummed summary (S.given store.old) (S.given store.new) (S.taken store.old) (S.taken store.new)) }
    ensures passed { IfOk result (λ summary. HasPassed options from.now summary.skipped (S.shelf store.new)) }
    ensures allocated { options.allocated ≡ true → IfOk result (λ summary. summary.skipped ≡ 0) }
    ensures stopped { IfErr result (λ why. Grew (S.told store.old) (S.told store.new) (NotDone from.now to.now options why)) }
    ensures changed { IfErr result (λ why. IsChanged why → (now : Shelf) → S.shelf store.new ≡ Some now → ⊥) }
    ensures failed { result ≡ Err Stop.Failed → Rises 1 (S.faults store.old) (S.faults store.new) }
    ensures later { S.faults store.old ≤ S.faults store.new }
{
    let source = match open_source(store, from) {
        Ok(source) => source,
        Err(_) => return Err(Stop::Failed),
    };
    let way = Way {
        from: source.file,
        size: source.size,
        cell: options.request_size,
        block: block_of(options),
        flush: options.flush,
    };
    match fill(alloc, store, way, to) {
        Ok(amounts) => Ok(summary_of(source.size, amounts)),
        Err(why) => Err(why),
    }
}

/// Copies the file at a path to another path. The source is opened and measured; the destination is opened, made where it is missing, cut to
/// nothing and then to the source's length, so that nothing of what it had is left; and slices of at most `request_size` bytes are read and
/// written one after another. Whole blocks of `sparse` zeros are passed over, unless they are to be allocated: the file has zeros there.
/// Slices of which the store tells that they lie in a hole are not even read then.
///
/// On a fault the destination may be cut and written in part. `connections`, `requests`, `extents` and `destination_is_zero` change nothing here.
pub(crate) fn copy_between<S: Store>(
    alloc: Global,
    options: CopyOptions,
    from: &Text,
    to: &Text,
    store: &mut S,
) -> Result<Summary, FileFault>
    requires apart { from.now ≢ to.now }
    requires cell { 0 < options.request_size }

    // Where the store tells its files, the destination is exactly the source, and every other file is as it was.
    ensures between { IfOk result (λ summary. HasCopied from.now to.now (copied_length summary) (S.shelf store.old) (S.shelf store.new)) }

    // Which calls were made: each read asks for the rest of a slice. Where its holes lie is asked of the source alone.
    ensures stores { IfOk result (λ summary. Grew (S.told store.old) (S.told store.new) (HasDone from.now to.now (copied_length summary) options)) }
    ensures stopped { IfErr result (λ why. Grew (S.told store.old) (S.told store.new) (NotDone from.now to.now options (stop_of why))) }

    // How many bytes were read, written and passed over.
    ensures sums { IfOk result (λ summary. IsSummed summary (S.given store.old) (S.given store.new) (S.taken store.old) (S.taken store.new)) }
    ensures passed { IfOk result (λ summary. HasPassed options from.now summary.skipped (S.shelf store.new)) }
    ensures allocated { options.allocated ≡ true → IfOk result (λ summary. summary.skipped ≡ 0) }

    // What a fault comes from. A store that tells its files has none that changed.
    ensures store_fault { IfErr result (HasCause (S.faults store.old) (S.faults store.new)) }
    ensures changed { IfErr result (λ why. TellsChange why → (now : Shelf) → S.shelf store.new ≡ Some now → ⊥) }
{
    let before = store.faults();
    match copy(alloc, options, from, to, store) {
        Ok(summary) => Ok(summary),
        Err(why) => Err(why.fault(before, store.faults())),
    }
}
