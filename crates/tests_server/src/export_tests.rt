//! An export: its contents, the errors of requests, and what is told as zero. Each call once, with enough memory.

ghost use Rattle.std.specs.Prelude.{◌≡◌, Some};

use crate::told::{Told, same, text};
use lnbd_export::{Agreed, Export, Replies, Request, generate};
use lnbd_extents::Ranges;
use lnbd_model::{EINVAL, ENOSPC, EPERM, Extent, Kind, NoMemory, Text};
use std::alloc::Global;

const SIMPLE: Agreed = Agreed {
    replies: Replies::Simple,
    allocation: false,
};

const STRUCTURED: Agreed = Agreed {
    replies: Replies::Structured,
    allocation: true,
};

const EXTENDED: Agreed = Agreed {
    replies: Replies::Extended,
    allocation: true,
};

/// What was agreed, a request's kind, flags, offset and length, and whether an export of 4,096 bytes refuses it: one that can be
/// written, and one that is read only.
type Case = (Agreed, Kind, u16, u64, u64, &'static str);

static CASES: [Case; 24] = [
    // Ranges up to the end, and one byte past it.
    (SIMPLE, Kind::Read, 0, 0, 4096, "none none"),
    (SIMPLE, Kind::Read, 0, 4096, 0, "none none"),
    (SIMPLE, Kind::Read, 0, 1, 4096, "EINVAL EINVAL"),
    (SIMPLE, Kind::Read, 0, u64::MAX, 2, "EINVAL EINVAL"),
    (SIMPLE, Kind::Trim, 0, 4096, 1, "EINVAL EPERM"),
    (SIMPLE, Kind::Cache, 0, 0, 4097, "EINVAL EINVAL"),
    (SIMPLE, Kind::Write, 0, 4096, 1, "ENOSPC EPERM"),
    (SIMPLE, Kind::Zero, 0, 4095, 2, "ENOSPC EPERM"),
    (SIMPLE, Kind::Write, 1, 4095, 1, "none EPERM"),
    (SIMPLE, Kind::Flush, 0, u64::MAX, 9, "none none"),
    // Flags that the command may not have come first.
    (SIMPLE, Kind::Read, 4, 0, 1, "EINVAL EINVAL"),
    (STRUCTURED, Kind::Read, 4, 0, 1, "none none"),
    (STRUCTURED, Kind::Read, 32, 0, 1, "EINVAL EINVAL"),
    (STRUCTURED, Kind::Write, 32, 4096, 1, "EINVAL EINVAL"),
    (EXTENDED, Kind::Write, 33, 0, 1, "none EPERM"),
    (EXTENDED, Kind::Zero, 3, 0, 1, "none EPERM"),
    (EXTENDED, Kind::Zero, 16, 0, 1, "EINVAL EINVAL"),
    (EXTENDED, Kind::Trim, 2, 0, 1, "EINVAL EINVAL"),
    (SIMPLE, Kind::Flush, 1, 0, 0, "EINVAL EINVAL"),
    // A read of more than 32 MiB, and a block status of nothing or without its context.
    (EXTENDED, Kind::Read, 0, 0, 33_554_433, "EINVAL EINVAL"),
    (STRUCTURED, Kind::BlockStatus, 8, 0, 4096, "none none"),
    (STRUCTURED, Kind::BlockStatus, 0, 0, 0, "EINVAL EINVAL"),
    (SIMPLE, Kind::BlockStatus, 0, 0, 1, "EINVAL EINVAL"),
    (STRUCTURED, Kind::BlockStatus, 0, 4095, 2, "EINVAL EINVAL"),
];

/// The name of an error.
fn name_of(error: Option<u32>) -> &'static str {
    match error {
        None => "none",
        Some(EINVAL) => "EINVAL",
        Some(EPERM) => "EPERM",
        Some(ENOSPC) => "ENOSPC",
        Some(_) => "another",
    }
}

fn request_of(case: &Case) -> Request {
    Request {
        kind: Some(case.1),
        flags: case.2,
        cookie: 1,
        offset: case.3,
        length: case.4,
    }
}

/// How both exports refuse a request.
fn push_refusals(
    told: &mut Told,
    writable: &Export,
    locked: &Export,
    terms: Agreed,
    request: Request,
) {
    told.push(name_of(writable.refusal(terms, request)));
    told.push(" ");
    told.push(name_of(locked.refusal(terms, request)));
}

/// Each case that comes to something else, by its number.
fn push_cases(told: &mut Told, alloc: Global, writable: &Export, locked: &Export) {
    for (row, case) in CASES.iter().enumerate() {
        let mut refusals = Told::new(alloc);
        push_refusals(&mut refusals, writable, locked, case.0, request_of(case));
        told.compare(row as u64, &refusals, case.5);
    }
}

/// A command that has no number.
fn push_unknown(told: &mut Told, writable: &Export) {
    let unknown = Request {
        kind: None,
        flags: 0,
        cookie: 1,
        offset: 0,
        length: 0,
    };
    told.push(name_of(writable.refusal(SIMPLE, unknown)));
}

#[test]
fn errors_in_their_order(rt: HostRuntime) -> Result<(), NoMemory> {
    let alloc = rt.alloc();
    let writable = generate(alloc, Text::empty(alloc), 7, 4096, false)?;
    let locked = generate(alloc, Text::empty(alloc), 7, 4096, true)?;
    let mut told = Told::new(alloc);
    push_cases(&mut told, alloc, &writable, &locked);
    push_unknown(&mut told, &writable);
    same(&rt, &told, "EINVAL");
    Ok(())
}

/// A request that changes an export.
#[derive(Clone, Copy)]
enum Change<'a> {
    Write(u64, &'a [u8]),
    Zero(u64, u64),
    Trim(u64, u64),
    Flush,
    Cache(u64, u64),
}

fn request(kind: Kind, offset: u64, length: u64) -> Request
    ensures kind { result.kind ≡ Some kind }
    ensures size { result.length ≡ length }
{
    Request {
        kind: Some(kind),
        flags: 0,
        cookie: 1,
        offset,
        length,
    }
}

fn perform(export: &mut Export, change: Change) -> Result<(), NoMemory> {
    match change {
        Change::Write(offset, bytes) => {
            let asked = request(Kind::Write, offset, bytes.len() as u64);
            export.perform(SIMPLE, asked, bytes)
        }
        Change::Zero(offset, length) => export.perform(
            SIMPLE,
            request(Kind::Zero, offset, length),
            &[],
        ),
        Change::Trim(offset, length) => export.perform(
            SIMPLE,
            request(Kind::Trim, offset, length),
            &[],
        ),
        Change::Flush => export.perform(SIMPLE, request(Kind::Flush, 0, 0), &[]),
        Change::Cache(offset, length) => export.perform(
            SIMPLE,
            request(Kind::Cache, offset, length),
            &[],
        ),
    }
}

/// Makes these changes.
fn make(told: &mut Told, export: &mut Export, changes: &[Change]) {
    for change in changes {
        if perform(export, *change).is_err() {
            told.lack();
        }
    }
}

/// Appends the bytes that an export holds, as numbers.
fn push_held(told: &mut Told, export: &Export) {
    for byte in export.bytes() {
        told.numbers(&[u64::from(*byte)]);
    }
}

fn push_extents(told: &mut Told, extents: &[Extent]) {
    for extent in extents {
        told.numbers(&[extent.length, extent.flags]);
    }
}

/// Length and flags of what is told of this range, of so many extents at most.
fn push_statuses(
    told: &mut Told,
    alloc: Global,
    export: &Export,
    offset: u64,
    length: u64,
    most: usize,
) {
    let size = export.size();
    if offset > size || length > size - offset {
        return;
    }
    told.push(": ");
    match export.statuses(alloc, offset, length, most) {
        Ok(extents) => push_extents(told, extents.as_slice()),
        Err(_) => told.lack(),
    }
}

/// Sixteen fives, of which none is told as zero.
fn fives(alloc: Global) -> Result<Export, NoMemory> {
    let name = text(alloc, "disk")?;
    let description = text(alloc, "sixteen bytes")?;
    let content = vec![in alloc; 5; 16]?;
    Ok(Export::new(name, description, content, Ranges::new(alloc), false))
}

/// Sixteen zeros, of which two ranges are told.
fn zeros(alloc: Global) -> Result<Export, NoMemory> {
    let mut ranges = Ranges::new(alloc);
    ranges.hold(2, 3)?;
    ranges.hold(8, 4)?;
    let content = vec![in alloc; 0; 16]?;
    Ok(Export::new(
        Text::empty(alloc),
        Text::empty(alloc),
        content,
        ranges,
        false,
    ))
}

/// Makes changes, and appends the bytes that then stand, and what a block status of all sixteen tells.
fn push_play(told: &mut Told, alloc: Global, export: &mut Export, changes: &[Change]) {
    make(told, export, changes);
    push_held(told, export);
    push_statuses(told, alloc, export, 0, 16, 9);
}

static TO_FIVES: [Change<'static>; 6] = [
    Change::Zero(2, 6),
    Change::Trim(8, 4),
    Change::Write(5, &[0, 9]),
    Change::Write(15, &[1, 1]),
    Change::Flush,
    Change::Cache(0, 16),
];

/// An export's name, the length of its description, and whether it is read only.
fn push_name(told: &mut Told, export: &Export) {
    told.push(export.name().as_str());
    told.push(" ");
    told.number(export.description().len() as u64);
    told.push(" ");
    told.holds(export.is_read_only());
    told.push("\n");
}

fn push_fives(told: &mut Told, alloc: Global) -> Result<(), NoMemory> {
    let mut export = fives(alloc)?;
    push_play(told, alloc, &mut export, &TO_FIVES);
    push_statuses(told, alloc, &export, 3, 8, 1);
    push_name(told, &export);
    Ok(())
}

static TO_ZEROS: [Change<'static>; 3] = [
    Change::Write(9, &[7]),
    Change::Trim(4, 4),
    Change::Write(12, &[1, 2, 3]),
];

static TO_ALL: [Change<'static>; 1] = [Change::Zero(0, 16)];

fn push_zeros(told: &mut Told, alloc: Global) -> Result<(), NoMemory> {
    let mut export = zeros(alloc)?;
    push_statuses(told, alloc, &export, 0, 16, 9);
    push_play(told, alloc, &mut export, &TO_ZEROS);
    push_play(told, alloc, &mut export, &TO_ALL);
    Ok(())
}

// Zeros are told where they were put or handed in, and no longer where bytes were written since. A write past the end does nothing.
#[test]
fn what_is_told_as_zero(rt: HostRuntime) -> Result<(), NoMemory> {
    let mut told = Told::new(rt.alloc());
    push_fives(&mut told, rt.alloc())?;
    push_zeros(&mut told, rt.alloc())?;
    same(
        &rt,
        &told,
        "5 5 0 0 0 0 9 0 0 0 0 0 5 5 5 5 : 2 0 3 3 2 0 5 3 4 0 : 2 3 disk 13 false\n\
: 2 0 3 3 3 0 4 3 4 0 0 0 0 0 0 0 0 0 0 7 0 0 1 2 3 0 : 2 0 7 3 1 0 2 3 4 0 0 0 0 0 0 0 0 0 0 0 0 0 0 0 0 0 : 16 3 ",
    );
    Ok(())
}

/// The size, bytes at some places, and how many bytes a read of three gives.
fn push_content(told: &mut Told, export: &Export) {
    told.numbers(&[export.size()]);
    for at in [0, 1, 2, 3, 134, 135, 4096, 4097, 4098, 4099] {
        if let Some(byte) = export.bytes().get(at) {
            told.numbers(&[u64::from(*byte)]);
        }
    }
    if export.size() >= 137 {
        told.number(export.read(134, 3).len() as u64);
    }
}

// Of the first sixteen blocks of seed 0 the second, the fifth, the tenth and the thirteenth are zeros.
#[test]
fn contents_of_a_seed(rt: HostRuntime) -> Result<(), NoMemory> {
    let export = generate(rt.alloc(), Text::empty(rt.alloc()), 0, 65536, false)?;
    let mut told = Told::new(rt.alloc());
    push_content(&mut told, &export);
    same(&rt, &told, "65536 121 122 123 124 255 0 0 0 0 0 3");
    Ok(())
}
