//! Exports in memory behind wires that serve: a source at `localhost` and a destination at a Unix socket, or one export alone.

ghost use Rattle.std.specs.Prelude.{◌≡◌, ◌≢◌, ℕ, List, IfOk, map};
ghost use Rattle.lnbd_model.specs.declared.target.Target.TheVariants.{Unix};
ghost use Rattle.lnbd_memnet.specs.Network.{AreApart, hosted_of};
ghost use Rattle.lnbd_memnet.specs.Schedule.{Moves};

use crate::outside::Outside;
use lnbd_export::Export;
use lnbd_extents::Ranges;
use lnbd_memnet::{Schedule, Served, ServedWires};
use lnbd_model::{Target, Text, TextFault};
use std::alloc::Global;
use std::test::Fail;

/// So many bytes of one value. Zeros are told as zero.
pub type Run = (u8, usize);

/// What an export is made of.
#[derive(Clone, Copy)]
pub struct Disk<'a> {
    pub name: &'a [u8],
    pub runs: &'a [Run],
    pub read_only: bool,
}

/// The bytes of these runs.
fn bytes_of(alloc: Global, runs: &[Run]) -> Result<Vec<u8>, Fail> {
    let mut bytes = Vec::new(alloc);
    for (byte, count) in runs {
        bytes.resize(bytes.len().saturating_add(*count), *byte)?;
    }
    Ok(bytes)
}

/// Tells the zeros of these runs as such.
fn tell_zeros(export: &mut Export, runs: &[Run]) -> Result<(), Fail> {
    let mut start = 0u64;
    for (byte, count) in runs {
        let end = start.saturating_add(*count as u64);
        if *byte == 0 && end <= export.size() {
            export.zero(start, end - start)?;
        }
        start = end;
    }
    Ok(())
}

fn export_of(alloc: Global, disk: &Disk) -> Result<Export, Fail> {
    let mut export = Export::new(
        Text::from_bytes(alloc, disk.name)?,
        Text::empty(alloc),
        bytes_of(alloc, disk.runs)?,
        Ranges::new(alloc),
        disk.read_only,
    );
    tell_zeros(&mut export, disk.runs)?;
    Ok(export)
}

/// Where the source is.
pub fn source_at(alloc: Global) -> Result<Target, TextFault>
    ensures { IfOk result (λ at. (path : List ℕ) → at ≢ Unix path) }
{
    Ok(Target::Tcp {
        host: Text::from_bytes(alloc, b"localhost")?,
        port: 10809,
    })
}

/// Where the destination is.
pub fn destination_at(alloc: Global) -> Result<Target, TextFault>
    ensures { IfOk result (λ at. (path : List ℕ) × (at ≡ Unix path)) }
{
    Ok(Target::Unix {
        path: Text::from_bytes(alloc, b"/tmp/s")?,
    })
}

/// Both exports, the source first.
fn exports(alloc: Global, source: Export, destination: Export) -> Result<Vec<Served>, Fail>
    ensures { IfOk result (λ exports. AreApart (map hosted_of exports.items)) }
{
    let source = Served {
        at: source_at(alloc)?,
        export: source,
    };
    let destination = Served {
        at: destination_at(alloc)?,
        export: destination,
    };
    Ok(vec![in alloc; source, destination]?)
}

/// Wires to both, by this schedule.
pub fn wires(
    alloc: Global,
    source: &Disk,
    destination: &Disk,
    schedule: Schedule,
) -> Result<ServedWires, Fail>
    requires { Moves schedule }
{
    let source = export_of(alloc, source)?;
    let destination = export_of(alloc, destination)?;
    let exports = exports(alloc, source, destination)?;
    Ok(ServedWires::new(alloc, exports, schedule)?)
}

/// One export alone, at the Unix socket `a`.
#[tactic(auto, using(lnbd_memnet::proofs::Apart::one_apart))]
fn one_export(alloc: Global, export: Export) -> Result<Vec<Served>, Fail>
    ensures { IfOk result (λ exports. AreApart (map hosted_of exports.items)) }
{
    let at = Target::Unix {
        path: Text::from_bytes(alloc, b"a")?,
    };
    let mut exports = Vec::new(alloc);
    exports.push(Served { at, export })?;
    Ok(exports)
}

/// Wires to one export alone, by this schedule.
pub fn alone(alloc: Global, disk: &Disk, schedule: Schedule) -> Result<ServedWires, Fail>
    requires { Moves schedule }
{
    let export = export_of(alloc, disk)?;
    Ok(ServedWires::new(alloc, one_export(alloc, export)?, schedule)?)
}

/// Whether these bytes are those of the runs.
fn are_of(bytes: &[u8], runs: &[Run]) -> bool {
    let mut rest = bytes;
    for (byte, count) in runs {
        if rest.len() < *count {
            return false;
        }
        let (run, behind) = rest.split_at(*count);
        if !is_all(run, *byte) {
            return false;
        }
        rest = behind;
    }
    rest.is_empty()
}

/// Whether all of these bytes have one value.
fn is_all(bytes: &[u8], value: u8) -> bool {
    for byte in bytes {
        if *byte != value {
            return false;
        }
    }
    true
}

/// Whether the export at this place holds these runs.
pub fn holds(wires: &Outside, place: usize, runs: &[Run]) -> bool {
    match wires.exported(place) {
        Some(bytes) => are_of(bytes, runs),
        None => false,
    }
}
