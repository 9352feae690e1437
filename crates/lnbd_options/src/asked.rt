//! The bodies of option requests, read on the server's side.

ghost use Rattle.std.specs.Prelude.{◌≡◌, ◌*◌, ◌==◌, ◌&&◌, not, true, length, is_some, Some, None, if◌then◌else◌};
ghost use Rattle.std.specs.List.{list_any};
ghost use Rattle.lnbd_records.specs.Requests.{asked_of, info_asked, meta_asked, types_in, texts_in};
ghost use Rattle.lnbd_records.specs.Requests as asked;
ghost use Rattle.lnbd_options.specs.Answers.{AskedAs, TextsAs};

use crate::fault::OptionFault;
use crate::text::text;
use lnbd_model::{Text, Texts};
use lnbd_records::names::{
    INFO_DESCRIPTION, INFO_NAME, OPT_ABORT, OPT_EXPORT_NAME, OPT_EXTENDED_HEADERS, OPT_GO,
    OPT_INFO, OPT_LIST, OPT_SET_META_CONTEXT, OPT_STRUCTURED_REPLY,
};
use lnbd_records::{u16_at, u32_at};
use std::alloc::Global;

/// What an option request asks (NBD protocol, "Option types").
#[derive(Debug, Drop)]
pub enum Request {
    /// EXPORT_NAME.
    Name(Text),
    /// INFO or GO, and whether the name and the description are asked for.
    Info {
        name: Text,
        wants_name: bool,
        wants_description: bool,
    },
    /// SET_META_CONTEXT.
    Meta {
        name: Text,
        queries: Texts,
    },
    /// Another option.
    Plain,
}

/// Reads the body of an option request. ABORT, LIST, STRUCTURED_REPLY and EXTENDED_HEADERS fit only
/// without bytes; the bytes of an option that isn't known are not read.
#[tactic(auto, unfolding(lnbd_records::specs::Requests::asked_of))]
pub fn read_asked(alloc: Global, option: u32, bytes: &[u8]) -> Result<Request, OptionFault>
    ensures { AskedAs (asked_of option bytes.now) result }
{
    if option == OPT_EXPORT_NAME {
        name(alloc, bytes)
    } else if option == OPT_INFO || option == OPT_GO {
        info(alloc, bytes)
    } else if option == OPT_SET_META_CONTEXT {
        meta(alloc, bytes)
    } else {
        plain(option, bytes)
    }
}

fn name(alloc: Global, bytes: &[u8]) -> Result<Request, OptionFault>
    ensures { AskedAs (Some (asked.Name bytes.now)) result }
{
    Ok(Request::Name(text(alloc, bytes)?))
}

fn info(alloc: Global, bytes: &[u8]) -> Result<Request, OptionFault>
    ensures { AskedAs (info_asked bytes.now) result }
{
    if bytes.len() < 4 {
        return Err(OptionFault::BadOptionLength);
    }
    let size = u32_at(bytes, 0) as usize;
    if bytes.len() - 4 < size || bytes.len() - 4 - size < 2 {
        return Err(OptionFault::BadOptionLength);
    }
    let count = u16_at(bytes, 4 + size) as usize;
    if bytes.len() != 6 + size + 2 * count {
        return Err(OptionFault::BadOptionLength);
    }
    let (_, types) = bytes.split_at(6 + size);
    let (_, rest) = bytes.split_at(4);
    let (name, _) = rest.split_at(size);
    info_of(alloc, name, types, count)
}

fn info_of(alloc: Global, name: &[u8], types: &[u8], count: usize) -> Result<Request, OptionFault>
    requires { length types.now ≡ 2 * count }
    ensures { AskedAs (Some (asked.Info name.now (types_in count types.now))) result }
{
    let name = text(alloc, name)?;
    let wants_name = has_type(types, count, INFO_NAME);
    let wants_description = has_type(types, count, INFO_DESCRIPTION);
    Ok(Request::Info {
        name,
        wants_name,
        wants_description,
    })
}

/// Whether this type is among so many.
fn has_type(types: &[u8], count: usize, wanted: u16) -> bool
    requires { length types.now ≡ 2 * count }
    ensures { result ≡ list_any (λ type. type == wanted) (types_in count types.now) }
{
    for index in 0..count {
        let found = u16_at(types, 2 * index);
        if found == wanted {
            return true;
        }
    }
    false
}

fn meta(alloc: Global, bytes: &[u8]) -> Result<Request, OptionFault>
    ensures { AskedAs (meta_asked bytes.now) result }
{
    if bytes.len() < 4 {
        return Err(OptionFault::BadOptionLength);
    }
    let size = u32_at(bytes, 0) as usize;
    if bytes.len() - 4 < size || bytes.len() - 4 - size < 4 {
        return Err(OptionFault::BadOptionLength);
    }
    let count = u32_at(bytes, 4 + size);
    let (_, queries) = bytes.split_at(8 + size);
    if !are_there(queries, count) {
        return Err(OptionFault::BadOptionLength);
    }
    let (_, rest) = bytes.split_at(4);
    let (name, _) = rest.split_at(size);
    meta_of(alloc, name, queries, count)
}

fn meta_of(alloc: Global, name: &[u8], queries: &[u8], count: u32) -> Result<Request, OptionFault>
    requires { is_some (texts_in count queries.now) ≡ true }
    ensures { AskedAs (asked.with_name name.now (texts_in count queries.now)) result }
{
    let name = text(alloc, name)?;
    let queries = texts(alloc, queries, count)?;
    Ok(Request::Meta { name, queries })
}

/// Whether so many texts, each behind its length, are all that stands there.
fn are_there(bytes: &[u8], count: u32) -> bool
    ensures { result ≡ is_some (texts_in count bytes.now) }
{
    let mut rest = bytes;
    for _index in 0..count {
        if rest.len() < 4 {
            return false;
        }
        let size = u32_at(rest, 0) as usize;
        if rest.len() - 4 < size {
            return false;
        }
        let (_, behind) = rest.split_at(4 + size);
        rest = behind;
    }
    rest.is_empty()
}

/// The texts that stand there, each behind its length.
fn texts(alloc: Global, bytes: &[u8], count: u32) -> Result<Texts, OptionFault>
    requires { is_some (texts_in count bytes.now) ≡ true }
    ensures { TextsAs (texts_in count bytes.now) result }
{
    let mut list = Texts::new(alloc);
    let mut rest = bytes;
    for _index in 0..count {
        let size = u32_at(rest, 0) as usize;
        let (_, behind) = rest.split_at(4 + size);
        let (_, part) = rest.split_at(4);
        let (part, _) = part.split_at(size);
        let one = text(alloc, part)?;
        list.push(one)?;
        rest = behind;
    }
    Ok(list)
}

/// Whether the option fits only without data.
fn has_no_data(option: u32) -> bool
    ensures { result ≡ asked.has_no_data option }
{
    option == OPT_ABORT
        || option == OPT_LIST
        || option == OPT_STRUCTURED_REPLY
        || option == OPT_EXTENDED_HEADERS
}

fn plain(option: u32, bytes: &[u8]) -> Result<Request, OptionFault>
    ensures { AskedAs (if asked.has_no_data option && not (length bytes.now == 0) then None else Some asked.Plain) result }
{
    if has_no_data(option) && !bytes.is_empty() {
        Err(OptionFault::BadOptionLength)
    } else {
        Ok(Request::Plain)
    }
}
