//! Maps, texts and lists, extents, and numbers in bytes: `lnbd_keyed`, `lnbd_model`, `lnbd_extents`, `lnbd_records`.

ghost use Rattle.std.specs.Prelude.{◌≡◌, ◌+◌, ◌≤◌, ◌^◌};

use crate::told::{Told, same, stretched, text};
use lnbd_extents::{AddFault, Ranges, clip, push_joined, totals};
use lnbd_keyed::{place_in, place_of, rank_of};
use lnbd_model::{
    Breach, Context, Contexts, Extent, Kind, Listed, Listing, NoMemory, Text, TextFault, Texts,
    told_error,
};
use lnbd_records::{push_u16, push_u32, push_u64, u16_at, u32_at, u64_at};
use std::alloc::Global;

#[test]
fn keys_are_found(rt: HostRuntime) -> Result<(), NoMemory> {
    let rows = [(2u64, 'a'), (5, 'b'), (9, 'c')];
    let mut told = Told::new(rt.alloc());
    told.number(rank_of(&rows, 6) as u64);
    told.number(rank_of(&rows, 10) as u64);
    told.number(place_in(&rows, 9) as u64);
    told.number(place_of(&rows, 5).unwrap_or(9) as u64);
    told.number(place_of(&rows, 6).unwrap_or(9) as u64);
    same(&rt, told.as_str(), " 2 3 2 1 9");
    Ok(())
}

fn text_fault(alloc: Global, bytes: &[u8]) -> &'static str {
    match Text::from_bytes(alloc, bytes) {
        Ok(_) => "text",
        Err(TextFault::NotUtf8) => "not UTF-8",
        Err(TextFault::TooLong(4096)) => "too long",
        Err(_) => "another fault",
    }
}

// A text has 4,096 bytes of UTF-8 at most, and lists hold what was pushed.
#[test]
fn texts_and_lists_hold_what_was_put(rt: HostRuntime) -> Result<(), NoMemory> {
    let alloc = rt.alloc();
    let mut told = Told::new(alloc);
    for letters in [4096, 4097] {
        let long = stretched(alloc, "", letters, "")?;
        told.word(text_fault(alloc, long.as_bytes()));
    }
    told.word(text_fault(alloc, &[0xff]));
    told.word(text(alloc, "a b")?.try_clone(alloc)?.as_str());
    let mut texts = Texts::new(alloc);
    texts.push(text(alloc, "blue")?)?;
    told.word(texts.get(0).map_or("none", Text::as_str));
    told.word(texts.get(1).map_or("none", Text::as_str));
    push_lists(alloc, &mut told)?;
    same(
        &rt,
        told.as_str(),
        " text too long not UTF-8 a b blue none 7 base:allocation root disk",
    );
    Ok(())
}

fn push_lists(alloc: Global, told: &mut Told) -> Result<(), NoMemory> {
    let mut contexts = Contexts::new(alloc);
    contexts.push(Context {
        id: 7,
        name: text(alloc, "base:allocation")?,
    })?;
    if let Some(context) = contexts.get(0) {
        told.number(context.id as u64);
        told.word(context.name.as_str());
    }
    let mut listing = Listing::new(alloc);
    listing.push(Listed {
        name: Text::empty(alloc),
        description: text(alloc, "root disk")?,
    })?;
    if let Some(listed) = listing.get(0) {
        told.word(listed.description.as_str());
    }
    Ok(())
}

#[test]
fn numbers_have_their_names(rt: HostRuntime) -> Result<(), NoMemory> {
    let mut told = Told::new(rt.alloc());
    told.number(Kind::BlockStatus.code() as u64);
    told.word(if Kind::from_code(2).is_none() {
        "none"
    } else {
        "some"
    });
    told.word(Breach::from_number(13).map_or("none", Breach::name));
    told.word(Breach::TooManyErrors.name());
    told.numbers(&[told_error(28) as u64, told_error(107) as u64]);
    same(
        &rt,
        told.as_str(),
        " 7 none UnknownCookie TooManyErrors 28 22",
    );
    Ok(())
}

// The magic numbers as the protocol document writes them, and the reply to EXPORT_NAME for an export of 4,096 bytes with the flags 1.
#[test]
fn numbers_stand_highest_byte_first(rt: HostRuntime) -> Result<(), NoMemory> {
    let bytes = b"..NBDMAGICIHAVEOPT\0\0\0\0\0\0\x10\0\0\x01";
    let mut out = Vec::from_slice(rt.alloc(), b"..")?;
    push_u64(&mut out, 0x4e42444d41474943)?;
    push_u32(&mut out, 0x49484156)?;
    push_u16(&mut out, 0x454f)?;
    push_u16(&mut out, 0x5054)?;
    push_u64(&mut out, 4096)?;
    push_u16(&mut out, 1)?;
    let mut told = Told::new(rt.alloc());
    told.word(if out.as_slice() == bytes.as_slice() {
        "put"
    } else {
        "put otherwise"
    });
    if u64_at(bytes, 2) == 0x4e42444d41474943 && u64_at(bytes, 10) == 0x49484156454f5054 {
        told.word("magics");
    }
    if u32_at(bytes, 2) == 0x4e42444d && u16_at(bytes, 4) == 0x444d {
        told.word("parts");
    }
    told.numbers(&[u64_at(bytes, 18), u16_at(bytes, 26) as u64]);
    same(&rt, told.as_str(), " put magics parts 4096 1");
    Ok(())
}

fn add(ranges: &mut Ranges, start: u64, length: u64) -> Result<&'static str, NoMemory>
    requires { start + length ≤ 2 ^ 63 }
{
    match ranges.add(start, length) {
        Ok(()) => Ok("added"),
        Err(AddFault::Overlap) => Ok("overlap"),
        Err(_) => Err(NoMemory),
    }
}

fn yes(is: bool) -> u64 {
    if is { 1 } else { 0 }
}

fn push_ranges(told: &mut Told, ranges: &Ranges) {
    for at in 0..ranges.count() {
        let (start, length) = ranges.get(at);
        told.numbers(&[start, length]);
    }
    told.push(";");
}

#[test]
fn ranges_join_and_part(rt: HostRuntime) -> Result<(), NoMemory> {
    let mut told = Told::new(rt.alloc());
    let mut ranges = Ranges::new(rt.alloc());
    told.word(add(&mut ranges, 0, 512)?);
    told.word(add(&mut ranges, 1024, 512)?);
    told.word(add(&mut ranges, 512, 512)?);
    push_ranges(&mut told, &ranges);
    told.word(add(&mut ranges, 1535, 1)?);
    told.number(yes(ranges.covers(0, 1536)));
    told.number(yes(ranges.covers(0, 1537)));
    told.number(yes(ranges.meets(1536, 4096)));
    ranges.release(512, 512)?;
    push_ranges(&mut told, &ranges);
    told.number(ranges.place(1024) as u64);
    ranges.hold(256, 4096)?;
    push_ranges(&mut told, &ranges);
    same(
        &rt,
        told.as_str(),
        " added added added 0 1536; overlap 1 0 0 0 512 1024 512; 2 0 4352;",
    );
    Ok(())
}

fn extent(length: u64, flags: u64) -> Extent
    ensures { result.length ≡ length }
{
    Extent { length, flags }
}

fn push_extents(told: &mut Told, extents: &[Extent]) {
    for extent in extents {
        told.numbers(&[extent.length, extent.flags]);
    }
    told.push(";");
}

// Extents that are told one by one, an export of 16 KiB, and one whose only extent is told past its end.
#[test]
fn extents_join_part_and_sum(rt: HostRuntime) -> Result<(), NoMemory> {
    let mut told = Told::new(rt.alloc());
    let mut map = Vec::new(rt.alloc());
    push_joined(&mut map, extent(4096, 0))?;
    push_joined(&mut map, extent(4096, 3))?;
    push_joined(&mut map, extent(8192, 3))?;
    push_joined(&mut map, extent(512, 0))?;
    push_extents(&mut told, &map);
    push_extents(&mut told, &totals(rt.alloc(), &map)?);
    let mut front = Vec::new(rt.alloc());
    clip(&map, 5000, &mut front)?;
    push_extents(&mut told, &front);
    let mut whole = Vec::new(rt.alloc());
    clip(&[extent(65536, 0)], 16384, &mut whole)?;
    push_extents(&mut told, &whole);
    same(
        &rt,
        told.as_str(),
        " 4096 0 12288 3 512 0; 4608 0 12288 3; 4096 0 904 3; 16384 0;",
    );
    Ok(())
}
