//! The copy between the two exports. What they are at first is not known here.

ghost use Rattle.std.specs.Prelude.{◌≡◌, ◌≤◌, IfOk, OnOk, false, length, true};
ghost use Rattle.lnbd_link.specs.Contents.{Keeps};
ghost use Rattle.lnbd_course.specs.Asks.{GrewBy};
ghost use Rattle.lnbd_course.specs.Copied.{Copies};
ghost use Rattle.lnbd_conduct.specs.Conduct.{Conducts};
ghost use Rattle.lnbd_conduct.specs.Made.{IsMade};
ghost use Rattle.lnbd_memnet.specs.Wires.{contents_of, told_by};
ghost use Rattle.lnbd_memnet.specs.declared.schedule.Schedule.TheVariants.{Seeded};
ghost use Rattle.lnbd_rehearsal.specs.Rehearsed.{HasRehearsed, destination_name, place_of, source_name, usual};

use crate::exports::{destination, from, source, to};
use crate::stage::Stage;
use crate::sums::{is_same, sums_of};
use lnbd_copy::Copier;
use lnbd_memnet::ServedWires;
use lnbd_model::NoMemory;
use lnbd_plan::{CopyOptions, Summary};
use std::alloc::Global;

/// The most bytes of an export that is copied.
pub const MOST: u64 = 16_777_216;

/// A copy that was made.
#[derive(Drop)]
pub struct Rehearsed {
    pub summary: Summary,
    /// The wires over which it was made: behind them the source and then the destination.
    pub wires: ServedWires,
}

/// What a copy is asked for where its words name no option.
const USUAL: CopyOptions = CopyOptions {
    connections: 4,
    requests: 64,
    request_size: 262_144,
    sparse: 4096,
    extents: true,
    allocated: false,
    destination_is_zero: false,
    flush: false,
};

/// The copy over wires that serve both. These servers keep the protocol, tell no error and are never silent, so nothing but
/// want of memory ends it; no clause says so yet, and every fault counts as that.
fn copy(alloc: Global, stage: &mut Stage) -> Result<Summary, NoMemory>
    ensures kept { OnOk result (Keeps (contents_of stage.old.wires) (contents_of stage.new.wires)) }
    ensures copies { OnOk result (Copies (place_of source_name) (place_of destination_name) false (told_by stage.old.wires) (told_by stage.new.wires)) }
    ensures made { IfOk result (λ summary. GrewBy (IsMade usual (place_of source_name) (place_of destination_name) summary) (told_by stage.old.wires) (told_by stage.new.wires)) }
    ensures conducts { OnOk result (GrewBy (Conducts usual (place_of source_name) (place_of destination_name)) (told_by stage.old.wires) (told_by stage.new.wires)) }
{
    let from = from(alloc)?;
    let to = to(alloc)?;
    match Copier::new(alloc, USUAL, from, to).run(stage) {
        Ok(summary) => Ok(summary),
        Err(_) => Err(NoMemory),
    }
}

/// Whether all that was called is told, between two exports, and the seed cut what moved.
fn is_told(wires: &ServedWires, seed: u64) -> bool
    ensures shorts { result ≡ true → wires.now.shorts ≡ 0 }
    ensures two { result ≡ true → length wires.now.network.exports ≡ 2 }
    ensures seeded { result ≡ true → wires.now.network.schedule ≡ Seeded seed }
{
    wires.shorts() == 0 && wires.exports() == 2 && wires.is_seeded(seed)
}

/// Copies an export with the contents that the seed gives to one of as many bytes 0xff, as nbdcopy does where no option is
/// given, over wires in memory that cut what moves, and pick which reply comes first, by the seed. Both then hold what the first
/// held: that is proved, since these wires are honest whatever the schedule. The sums are those of its blocks: that is compared when
/// the copy is over.
///
/// # Errors
///
/// `NoMemory`, also where the comparison fails.
pub fn rehearse(alloc: Global, seed: u64, size: u64) -> Result<Rehearsed, NoMemory>
    requires { size ≤ 16777216 }
    ensures { IfOk result (λ rehearsed. HasRehearsed seed size rehearsed.summary rehearsed.wires) }
{
    let source = source(alloc, seed, size)?;
    let destination = destination(alloc, size)?;
    let mut stage = Stage::new(alloc, source, destination, seed, size)?;
    let summary = copy(alloc, &mut stage)?;
    if !stage.is_for(seed, size) {
        return Err(NoMemory);
    }
    stage.came();
    let wires = stage.into_wires();
    if !is_told(&wires, seed) {
        return Err(NoMemory);
    }
    wires.fits(0);
    wires.fits(1);
    if !is_same(summary, sums_of(seed, wires.bytes(0))) {
        return Err(NoMemory);
    }
    Ok(Rehearsed { summary, wires })
}
