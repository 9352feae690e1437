//! The bodies of option replies, read on the client's side.

ghost use Rattle.std.specs.Prelude.{◌≡◌, ◌≤◌, ◌&&◌, length, Some};
ghost use Rattle.lnbd_records.specs.Options.{rep_info, rep_meta_context, rep_server};
ghost use Rattle.lnbd_records.specs.Told as told;
ghost use Rattle.lnbd_records.specs.Replies.{server_body, context_body, info_body, info_of_type, are_blocks, blocks_told, body_of, is_text};
ghost use Rattle.lnbd_options.specs.Answers.{ReadAs, info_told};

use crate::fault::OptionFault;
use crate::text::text;
use lnbd_model::{Blocks, Context, Listed, Text};
use lnbd_records::names::{
    INFO_BLOCK_SIZE, INFO_DESCRIPTION, INFO_EXPORT, INFO_NAME, MAX_MINIMUM_BLOCK,
};
use lnbd_records::{u16_at, u32_at, u64_at};
use std::alloc::Global;

/// What one INFO reply tells of an export (NBD protocol, "Metadata and information types").
#[derive(Debug, Drop)]
pub enum Info {
    /// The size in bytes and the transmission flags.
    Export { size: u64, flags: u16 },
    Name(Text),
    Description(Text),
    /// Block sizes that meet the test.
    Blocks(Blocks),
    /// Information of another type, or block sizes that don't meet the test.
    Passed,
}

/// Reads the body of an INFO reply. Block sizes count where minimum and preferred are powers of two,
/// the minimum is at most 65,536 and at most the preferred size, and the maximum is a non-zero multiple
/// of the minimum or 0xffffffff.
#[tactic(auto, unfolding(lnbd_records::specs::Replies::body_of))]
pub fn read_info(alloc: Global, bytes: &[u8]) -> Result<Info, OptionFault>
    ensures { ReadAs info_told (body_of rep_info bytes.now) result }
{
    if bytes.len() < 2 {
        return Err(OptionFault::BadOptionLength);
    }
    let kind = u16_at(bytes, 0);
    info_of(alloc, kind, bytes)
}

/// Reads the body of a SERVER reply.
#[tactic(auto, unfolding(lnbd_records::specs::Replies::body_of))]
pub fn read_server(alloc: Global, bytes: &[u8]) -> Result<Listed, OptionFault>
    ensures { ReadAs told.Server (body_of rep_server bytes.now) result }
{
    if bytes.len() < 4 {
        return Err(OptionFault::BadOptionLength);
    }
    let size = u32_at(bytes, 0) as usize;
    if bytes.len() - 4 < size {
        return Err(OptionFault::BadOptionLength);
    }
    let (_, description) = bytes.split_at(4 + size);
    let (_, rest) = bytes.split_at(4);
    let (name, _) = rest.split_at(size);
    listed(alloc, name, description)
}

/// Reads the body of a META_CONTEXT reply.
#[tactic(auto, unfolding(lnbd_records::specs::Replies::body_of))]
pub fn read_context(alloc: Global, bytes: &[u8]) -> Result<Context, OptionFault>
    ensures { ReadAs told.Context (body_of rep_meta_context bytes.now) result }
{
    if bytes.len() < 4 {
        return Err(OptionFault::BadOptionLength);
    }
    let id = u32_at(bytes, 0);
    let (_, name) = bytes.split_at(4);
    context(alloc, id, name)
}

fn info_of(alloc: Global, kind: u16, bytes: &[u8]) -> Result<Info, OptionFault>
    requires { 2 ≤ length bytes.now }
    ensures { ReadAs info_told (info_of_type kind bytes.now) result }
{
    let (_, rest) = bytes.split_at(2);
    if kind == INFO_EXPORT {
        if bytes.len() != 12 {
            return Err(OptionFault::BadOptionLength);
        }
        let size = u64_at(bytes, 2);
        let flags = u16_at(bytes, 10);
        Ok(Info::Export { size, flags })
    } else if kind == INFO_NAME {
        name(alloc, rest)
    } else if kind == INFO_DESCRIPTION {
        description(alloc, rest)
    } else if kind == INFO_BLOCK_SIZE {
        if bytes.len() != 14 {
            return Err(OptionFault::BadOptionLength);
        }
        let minimum = u32_at(bytes, 2);
        let preferred = u32_at(bytes, 6);
        let maximum = u32_at(bytes, 10);
        Ok(blocks(minimum, preferred, maximum))
    } else {
        Ok(Info::Passed)
    }
}

fn name(alloc: Global, bytes: &[u8]) -> Result<Info, OptionFault>
    ensures { ReadAs info_told (Some (record { told = told.Name bytes.now; texts = is_text bytes.now })) result }
{
    Ok(Info::Name(text(alloc, bytes)?))
}

fn description(alloc: Global, bytes: &[u8]) -> Result<Info, OptionFault>
    ensures { ReadAs info_told (Some (record { told = told.Description bytes.now; texts = is_text bytes.now })) result }
{
    Ok(Info::Description(text(alloc, bytes)?))
}

/// Whether told sizes of blocks meet the test.
#[tactic(auto, unfolding(lnbd_records::specs::Replies::are_blocks))]
fn are_blocks(minimum: u32, preferred: u32, maximum: u32) -> bool
    ensures { result ≡ are_blocks minimum preferred maximum }
{
    minimum.is_power_of_two()
        && preferred.is_power_of_two()
        && minimum <= MAX_MINIMUM_BLOCK
        && minimum <= preferred
        && (maximum == u32::MAX || (maximum > 0 && maximum % minimum == 0))
}

fn blocks(minimum: u32, preferred: u32, maximum: u32) -> Info
    ensures { info_told result ≡ blocks_told minimum preferred maximum }
{
    if are_blocks(minimum, preferred, maximum) {
        Info::Blocks(Blocks {
            minimum,
            preferred,
            maximum,
        })
    } else {
        Info::Passed
    }
}

fn listed(alloc: Global, name: &[u8], description: &[u8]) -> Result<Listed, OptionFault>
    ensures { ReadAs told.Server (Some (record {
      told = told.Server (record { name = name.now; description = description.now });
      texts = is_text name.now && is_text description.now;
    })) result }
{
    let name = text(alloc, name)?;
    let description = text(alloc, description)?;
    Ok(Listed { name, description })
}

fn context(alloc: Global, id: u32, name: &[u8]) -> Result<Context, OptionFault>
    ensures { ReadAs told.Context (Some (record {
      told = told.Context (record { id = id; name = name.now });
      texts = is_text name.now;
    })) result }
{
    let name = text(alloc, name)?;
    Ok(Context { id, name })
}
