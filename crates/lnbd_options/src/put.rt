//! Option requests and their bodies, put behind what a vector holds.

ghost use Rattle.std.specs.Prelude.{◌≡◌, ◌<◌, ◌^◌, ◌++◌, ◌∷◌, [], OnOk, OnErr, IfOk, length};
ghost use Rattle.lnbd_records.specs.Numbers.{number, row, counted};
ghost use Rattle.lnbd_records.specs.Handshake.{option_head, option_request};
ghost use Rattle.lnbd_records.specs.Requests.{all_counted, asked_information, information_types, info_request, meta_request};

use lnbd_model::{NoMemory, Text, Texts};
use lnbd_records::names::{INFO_BLOCK_SIZE, INFO_DESCRIPTION, INFO_NAME, OPTION_MAGIC};
use lnbd_records::{push_u16, push_u32, push_u64};
use std::alloc::Global;

/// Puts an option request with this body. On `NoMemory` `out` holds what it held.
pub fn put_option(
    alloc: Global,
    option: u32,
    body: &[u8],
    out: &mut Vec<u8>,
) -> Result<(), NoMemory>
    requires { length body.now < 2 ^ 32 }
    ensures ok { OnOk result (out.new.items ≡ out.old.items ++ option_request option body.now) }
    ensures err { OnErr result (out.new.items ≡ out.old.items) }
{
    let request = request(alloc, option, body)?;
    out.extend_from_slice(&request)?;
    Ok(())
}

/// Puts the body of INFO or GO: the export's name, and that its name, description and block sizes are
/// asked for. On `NoMemory` `out` holds what it held.
pub fn put_info(alloc: Global, name: &Text, out: &mut Vec<u8>) -> Result<(), NoMemory>
    ensures ok { OnOk result (out.new.items ≡ out.old.items ++ info_request name.now asked_information) }
    ensures err { OnErr result (out.new.items ≡ out.old.items) }
{
    let body = info_body(alloc, name)?;
    out.extend_from_slice(&body)?;
    Ok(())
}

/// Puts the body of SET_META_CONTEXT: the export's name, and the contexts that are asked for. On
/// `NoMemory` `out` holds what it held.
pub fn put_meta(
    alloc: Global,
    name: &Text,
    queries: &Texts,
    out: &mut Vec<u8>,
) -> Result<(), NoMemory>
    requires { length queries.now < 2 ^ 32 }
    ensures ok { OnOk result (out.new.items ≡ out.old.items ++ meta_request name.now queries.now) }
    ensures err { OnErr result (out.new.items ≡ out.old.items) }
{
    let body = meta_body(alloc, name, queries)?;
    out.extend_from_slice(&body)?;
    Ok(())
}

fn request(alloc: Global, option: u32, body: &[u8]) -> Result<Vec<u8>, NoMemory>
    requires { length body.now < 2 ^ 32 }
    ensures { IfOk result (λ v. v.items ≡ option_request option body.now) }
{
    let mut out = Vec::new(alloc);
    put_head(&mut out, option, body.len() as u32)?;
    out.extend_from_slice(body)?;
    Ok(out)
}

fn info_body(alloc: Global, name: &Text) -> Result<Vec<u8>, NoMemory>
    ensures { IfOk result (λ v. v.items ≡ info_request name.now asked_information) }
{
    let mut out = Vec::new(alloc);
    put_text(&mut out, name)?;
    put_types(&mut out)?;
    Ok(out)
}

fn meta_body(alloc: Global, name: &Text, queries: &Texts) -> Result<Vec<u8>, NoMemory>
    requires { length queries.now < 2 ^ 32 }
    ensures { IfOk result (λ v. v.items ≡ meta_request name.now queries.now) }
{
    let mut out = Vec::new(alloc);
    put_text(&mut out, name)?;
    push_u32(&mut out, queries.len() as u32)?;
    put_texts(&mut out, queries)?;
    Ok(out)
}

fn put_head(out: &mut Vec<u8>, option: u32, length: u32) -> Result<(), NoMemory>
    ensures { OnOk result (out.new.items ≡ out.old.items ++ row (option_head option length)) }
{
    push_u64(out, OPTION_MAGIC)?;
    push_u32(out, option)?;
    push_u32(out, length)?;
    Ok(())
}

fn put_types(out: &mut Vec<u8>) -> Result<(), NoMemory>
    ensures { OnOk result (out.new.items ≡ out.old.items ++ row (information_types asked_information)) }
{
    push_u16(out, 3)?;
    push_u16(out, INFO_NAME)?;
    push_u16(out, INFO_DESCRIPTION)?;
    push_u16(out, INFO_BLOCK_SIZE)?;
    Ok(())
}

fn put_text(out: &mut Vec<u8>, name: &Text) -> Result<(), NoMemory>
    ensures { OnOk result (out.new.items ≡ out.old.items ++ counted name.now) }
{
    let bytes = name.as_bytes();
    push_u32(out, bytes.len() as u32)?;
    out.extend_from_slice(bytes)?;
    Ok(())
}

fn put_texts(out: &mut Vec<u8>, list: &Texts) -> Result<(), NoMemory>
    ensures { OnOk result (out.new.items ≡ out.old.items ++ all_counted list.now) }
{
    for one in list.as_slice() {
        put_text(out, one)?;
    }
    Ok(())
}
