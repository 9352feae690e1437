//! Plans of copies and the pieces of bytes, by worked examples.

ghost use Rattle.std.specs.Prelude.{◌≡◌};

use crate::told::{Told, same};
use lnbd_extents::Ranges;
use lnbd_model::NoMemory;
use lnbd_plan::{CopyFault, Plan, Rule, Slice, pieces};

/// The greatest position.
const LAST: u64 = (1 << 63) - 1;

fn push_slice(told: &mut Told, slice: &Slice) {
    told.numbers(&[slice.start, slice.length]);
    told.push(if slice.zero { " zero;" } else { " data;" });
}

// The first and the last block are cut by the ends of the bytes; a block that has one other byte is data; a short block
// at the end is a block too. Then no bytes; one block that is greater than the bytes; bytes that lie in two such blocks; blocks of one byte.
#[test]
fn bytes_have_their_pieces(rt: HostRuntime) -> Result<(), NoMemory> {
    let mut found = Vec::new(rt.alloc());
    pieces(6, &[0, 0, 0, 0, 0, 0, 0, 0, 0, 0, 5, 0, 0], 4, &mut found)?;
    pieces(16, &[7, 0, 0, 0, 0, 0], 4, &mut found)?;
    pieces(5, &[], 1, &mut found)?;
    pieces(1, &[0, 0, 9], 4096, &mut found)?;
    pieces(4294967294, &[0, 0, 9], 4294967295, &mut found)?;
    pieces(LAST - 2, &[0, 0, 9], 1, &mut found)?;
    let mut told = Told::new(rt.alloc());
    for slice in &found {
        push_slice(&mut told, slice);
    }
    same(
        &rt,
        told.as_str(),
        " 6 10 zero; 16 3 data; 16 4 data; 20 2 zero; 1 3 data; 4294967294 1 zero; 4294967295 2 data; 9223372036854775805 2 zero; 9223372036854775807 1 data;",
    );
    Ok(())
}

/// Takes the next slice, or tells that none is left.
fn push_next(told: &mut Told, plan: &mut Plan)
    ensures { plan.new.end ≡ plan.old.end }
{
    match plan.next() {
        Some(slice) => push_slice(told, &slice),
        None => told.push(" none;"),
    }
}

/// How many slices are left, and all of these.
fn push_left(told: &mut Told, plan: &mut Plan)
    ensures { plan.new.end ≡ plan.old.end }
{
    let left = plan.left();
    told.number(left);
    told.push(":");
    for _ in 0..left {
        push_next(told, plan);
    }
}

// A range told zero from 100 to 700, cells of 256 and zero cells of 512. The next window goes on, and begins a slice, though no multiple lies there.
#[test]
fn windows_go_on(rt: HostRuntime) -> Result<(), NoMemory> {
    let mut told = Told::new(rt.alloc());
    let mut zero = Ranges::new(rt.alloc());
    zero.hold(100, 600)?;
    let mut plan = Plan::new(rt.alloc(), 256, 512, true);
    plan.window(0, 1000, &zero)?;
    push_next(&mut told, &mut plan);
    plan.window(1000, 50, &zero)?;
    push_left(&mut told, &mut plan);
    push_next(&mut told, &mut plan);
    same(
        &rt,
        told.as_str(),
        " 0 100 data; 6: 100 412 zero; 512 188 zero; 700 68 data; 768 232 data; 1000 24 data; 1024 26 data; none;",
    );
    Ok(())
}

// Ranges at both ends and zero ranges left out; and zeros that are copied are cut, too: each position is a slice here.
#[test]
fn zeros_are_left_out_or_cut(rt: HostRuntime) -> Result<(), NoMemory> {
    let mut told = Told::new(rt.alloc());
    let mut zero = Ranges::new(rt.alloc());
    zero.hold(0, 10)?;
    zero.hold(90, 20)?;
    let mut plan = Plan::new(rt.alloc(), 64, 64, false);
    plan.window(0, 100, &zero)?;
    plan.window(100, 0, &zero)?;
    push_left(&mut told, &mut plan);
    let mut zero = Ranges::new(rt.alloc());
    zero.hold(1, 2)?;
    let mut plan = Plan::new(rt.alloc(), 1, 1, true);
    plan.window(0, 4, &zero)?;
    push_left(&mut told, &mut plan);
    same(
        &rt,
        told.as_str(),
        " 2: 10 54 data; 64 26 data; 4: 0 1 data; 1 1 zero; 2 1 zero; 3 1 data;",
    );
    Ok(())
}

// Windows of no positions, of one, and of all that are left, with ranges at both ends; and one of the greatest length.
#[test]
fn windows_reach_the_edges(rt: HostRuntime) -> Result<(), NoMemory> {
    let mut told = Told::new(rt.alloc());
    let mut zero = Ranges::new(rt.alloc());
    zero.hold(0, 1)?;
    zero.hold(LAST, 1)?;
    let mut plan = Plan::new(rt.alloc(), 4294967295, 1 << 27, true);
    plan.window(0, 0, &zero)?;
    push_left(&mut told, &mut plan);
    push_next(&mut told, &mut plan);
    plan.window(0, 1, &zero)?;
    push_left(&mut told, &mut plan);
    plan.window(1, LAST, &zero)?;
    push_next(&mut told, &mut plan);
    let zero = Ranges::new(rt.alloc());
    let mut plan = Plan::new(rt.alloc(), 1 << 31, 1, true);
    plan.window(0, 1 << 63, &zero)?;
    told.number(plan.left());
    push_next(&mut told, &mut plan);
    same(
        &rt,
        told.as_str(),
        " 0: none; 1: 0 1 zero; 1 4294967294 data; 4294967296 0 2147483648 data;",
    );
    Ok(())
}

// The text of each rule, as the program prints it.
#[test]
fn rules_are_printed(rt: HostRuntime) -> Result<(), NoMemory> {
    let mut told = Told::new(rt.alloc());
    for fault in [
        CopyFault::Rule(Rule::ReadOnly),
        CopyFault::Rule(Rule::Smaller {
            source: 513,
            destination: 512,
        }),
        CopyFault::Rule(Rule::Uneven {
            length: 513,
            block: 512,
        }),
        CopyFault::Rule(Rule::Unfit {
            minimum: 1024,
            maximum: 512,
        }),
        CopyFault::from(NoMemory),
    ] {
        let text = told.text();
        let appended = write!(text, "{fault}; ");
        told.keep(appended);
    }
    same(
        &rt,
        told.as_str(),
        "rule read-only; rule smaller 513 512; rule uneven 513 512; rule unfit 1024 512; no memory; ",
    );
    Ok(())
}
