//! What nbdinfo prints, over the examples of the manual page.

ghost use Rattle.std.specs.Prelude.{◌≡◌, ◌≤◌, ◌^◌};
ghost use Rattle.lnbd_extents.specs.Lists.{span};
ghost use Rattle.lnbd_info.specs.Map.{AreFilled};

use crate::told::{Told, same, text};
use lnbd_args::Predicate;
use lnbd_info::{
    Entry, Found, is_true, joined, write_json, write_listing, write_map, write_map_json,
    write_size, write_totals, write_totals_json,
};
use lnbd_model::{
    Blocks, Context, Contexts, ExportInfo, Extent, Listed, NoMemory, Place, Target, Text,
};
use std::alloc::Global;
use std::str::from_utf8;

fn extent(length: u64, flags: u64) -> Extent
    ensures { result.length ≡ length }
{
    Extent { length, flags }
}

/// A map and its totals, as text and as JSON.
fn push_map(
    alloc: Global,
    out: &mut Vec<u8>,
    map: &[Extent],
    allocation: bool,
) -> Result<(), NoMemory>
    requires filled { AreFilled map.now }
    requires room { span map.now ≤ 2 ^ 63 }
{
    write_map(alloc, map, allocation, out)?;
    write_totals(alloc, map, allocation, out)?;
    write_map_json(alloc, map, allocation, out)?;
    write_totals_json(alloc, map, allocation, out)
}

// Equal neighbours are one extent.
const MAPS: &str = "         0        4096    0  data
      4096        8192    3  hole,zero
     12288        4096    0  data
      8192   50.0%    0  data
      8192   50.0%    3  hole,zero
[{\"description\":\"data\",\"length\":4096,\"offset\":0,\"type\":0},{\"description\":\"hole,zero\",\"length\":8192,\"offset\":4096,\"type\":3},{\"description\":\"data\",\
\"length\":4096,\"offset\":12288,\"type\":0}]
[{\"description\":\"data\",\"size\":8192,\"type\":0},{\"description\":\"hole,zero\",\"size\":8192,\"type\":3}]
         0       16384    0
     16384           1  1000
     16384   99.9%    0
         1    0.0%  1000
[{\"length\":16384,\"offset\":0,\"type\":0},{\"length\":1,\"offset\":16384,\"type\":1000}]
[{\"size\":16384,\"type\":0},{\"size\":1,\"type\":1000}]
[]\n[]\n         0        4096    0  data
      4096        8192    3  hole,zero
     12288        4096    0  data
";

#[test]
fn a_map_is_told_as_text_and_as_json(rt: HostRuntime) -> Result<(), NoMemory> {
    let alloc = rt.alloc();
    let mut out = Vec::new(alloc);
    let map = [extent(4096, 0), extent(8192, 3), extent(4096, 0)];
    push_map(alloc, &mut out, &map, true)?;
    push_map(alloc, &mut out, &[extent(16384, 0), extent(1, 1000)], false)?;
    push_map(alloc, &mut out, &[], true)?;
    let told = [
        extent(4096, 0),
        extent(4096, 3),
        extent(4096, 3),
        extent(4096, 0),
    ];
    write_map(alloc, &joined(alloc, &told)?, true, &mut out)?;
    same(&rt, from_utf8(&out).unwrap_or(""), MAPS);
    Ok(())
}

/// An export of this size and these flags, told under structured replies.
fn export(alloc: Global, size: u64, flags: u16) -> ExportInfo {
    ExportInfo {
        size,
        flags,
        blocks: None,
        name: None,
        description: None,
        contexts: Contexts::new(alloc),
        structured: true,
        extended: false,
    }
}

fn entry(
    alloc: Global,
    name: &str,
    description: &str,
    told: Result<ExportInfo, u32>,
) -> Result<Entry, NoMemory> {
    let name = text(alloc, name)?;
    let description = text(alloc, description)?;
    Ok(Entry {
        listed: Listed { name, description },
        told,
    })
}

/// All that can be told: extended headers, every flag, sizes of blocks and a description.
fn all_told(alloc: Global) -> Result<ExportInfo, NoMemory> {
    let mut info = export(alloc, 9, 0xfff);
    info.extended = true;
    info.description = Some(text(alloc, "told")?);
    info.blocks = Some(Blocks {
        minimum: 1,
        preferred: 4096,
        maximum: 4294967295,
    });
    Ok(info)
}

/// An export that was asked for by its address, with its contexts.
fn found(alloc: Global) -> Result<Entry, NoMemory> {
    let mut info = export(alloc, 4096, 1);
    info.contexts.push(Context {
        id: 1,
        name: text(alloc, "base:allocation")?,
    })?;
    let path = text(alloc, "/tmp/s")?;
    let place = Place {
        to: Target::Unix { path },
        name: Text::empty(alloc),
    };
    Entry::of_found(alloc, Found { info, place })
}

const LISTS: &str = "protocol: newstyle-fixed without TLS, using structured packets
export=\"\":
\tdescription: \"root disk\"
\texport-size: 512
\tis_rotational: false
\tis_read_only: true
\tcan_cache: false
\tcan_df: false
\tcan_fast_zero: false
\tcan_flush: false
\tcan_fua: false
\tcan_multi_conn: false
\tcan_trim: false
\tcan_zero: false
export=\"blue\":
\terror: 6
export=\"été 2\":
\texport-size: 512
\tis_rotational: false
\tis_read_only: true
\tcan_cache: false
\tcan_df: false
\tcan_fast_zero: false
\tcan_flush: false
\tcan_fua: false
\tcan_multi_conn: false
\tcan_trim: false
\tcan_zero: false
protocol: newstyle-fixed without TLS, using simple packets
export=\"a\":
\terror: 1
{\"TLS\":false,\"exports\":[{\"error\":1,\"export-name\":\"a\"}],\"protocol\":\"newstyle-fixed\",\"structured\":false}
{\"TLS\":false,\"exports\":[{\"can_cache\":false,\"can_df\":false,\"can_fast_zero\":false,\"can_flush\":false,\"can_fua\":false,\"can_multi_conn\":false,\"can_trim\":false,\
\"can_zero\":false,\"contexts\":[\"base:allocation\"],\"export-name\":\"\",\"export-size\":4096,\"is_read_only\":false,\"is_rotational\":false}],\"protocol\":\"newstyle-fixed\",\"structured\":true}
protocol: newstyle-fixed without TLS, using extended packets
export=\"\":
\tdescription: \"told\"
\texport-size: 9
\tis_rotational: true
\tis_read_only: true
\tcan_cache: true
\tcan_df: true
\tcan_fast_zero: true
\tcan_flush: true
\tcan_fua: true
\tcan_multi_conn: true
\tcan_trim: true
\tcan_zero: true
\tblock_size_minimum: 1
\tblock_size_preferred: 4096
\tblock_size_maximum: 4294967295
{\"TLS\":false,\"exports\":[{\"block_maximum\":4294967295,\"block_minimum\":1,\"block_preferred\":4096,\"can_cache\":true,\"can_df\":true,\"can_fast_zero\":true,\"can_flush\":true,\
\"can_fua\":true,\"can_multi_conn\":true,\"can_trim\":true,\"can_zero\":true,\"description\":\"told\",\"export-name\":\"\",\"export-size\":9,\"is_read_only\":true,\
\"is_rotational\":true}],\"protocol\":\"newstyle-fixed\",\"structured\":true}
";

/// Three exports, of which the second one is refused.
fn push_three(alloc: Global, out: &mut Vec<u8>) -> Result<(), NoMemory> {
    let list = [
        entry(alloc, "", "root disk", Ok(export(alloc, 512, 3)))?,
        entry(alloc, "blue", "", Err(6))?,
        entry(alloc, "été 2", "", Ok(export(alloc, 512, 3)))?,
    ];
    write_listing(alloc, &list, false, out)
}

/// One, as text and as JSON.
fn push_one(
    alloc: Global,
    out: &mut Vec<u8>,
    entry: Entry,
    contexts: bool,
) -> Result<(), NoMemory> {
    let list = [entry];
    write_listing(alloc, &list, contexts, out)?;
    write_json(alloc, &list, contexts, out)
}

#[test]
fn exports_are_told(rt: HostRuntime) -> Result<(), NoMemory> {
    let alloc = rt.alloc();
    let mut out = Vec::new(alloc);
    push_three(alloc, &mut out)?;
    push_one(alloc, &mut out, entry(alloc, "a", "b", Err(1))?, false)?;
    write_json(alloc, &[found(alloc)?], true, &mut out)?;
    let all = entry(alloc, "", "", Ok(all_told(alloc)?))?;
    push_one(alloc, &mut out, all, true)?;
    same(&rt, from_utf8(&out).unwrap_or(""), LISTS);
    Ok(())
}

static QUESTIONS: [(Predicate, u16); 8] = [
    (Predicate::IsReadOnly, 1),
    (Predicate::IsReadOnly, 3),
    (Predicate::CanConnect, 1),
    (Predicate::CanConnect, 3),
    (Predicate::CanWrite, 3),
    (Predicate::IsRotational, 16),
    (Predicate::CanMultiConn, 256),
    (Predicate::CanStructuredReply, 0),
];

#[test]
fn questions_have_their_answers(rt: HostRuntime) -> Result<(), NoMemory> {
    let mut answers = Told::new(rt.alloc());
    for (question, flags) in &QUESTIONS {
        let is = is_true(*question, &export(rt.alloc(), 4096, *flags));
        answers.number(if is { 1 } else { 0 });
    }
    let mut out = Vec::new(rt.alloc());
    write_size(rt.alloc(), &export(rt.alloc(), 65536, 1), &mut out)?;
    answers.push(from_utf8(&out).unwrap_or(""));
    same(&rt, answers.as_str(), " 0 1 1 1 0 1 1 165536\n");
    Ok(())
}
