//! The requests of negotiation.

ghost use Rattle.std.specs.Prelude.{◌≡◌, ◌++◌, [], ◌≤◌, OnOk, OnErr, IfOk, length};
ghost use Rattle.std.specs.List.{concat};
ghost use Rattle.lnbd_records.specs.Handshake.{option_request};
ghost use Rattle.lnbd_records.specs.Limits.{max_contexts};
ghost use Rattle.lnbd_records.specs.Options.{opt_abort};
ghost use Rattle.lnbd_history.specs.Outgoing.{client_flags, option_body, request_at};

use crate::front::is_info;
use lnbd_history::Phase;
use lnbd_model::{NoMemory, Text, Texts};
use lnbd_options::{put_info, put_meta, put_option};
use lnbd_records::names::{
    FLAG_FIXED_NEWSTYLE, FLAG_NO_ZEROES, OPT_EXPORT_NAME, OPT_SET_META_CONTEXT,
};
use std::alloc::Global;

/// The handshake flags that are known.
const KNOWN_FLAGS: u16 = FLAG_FIXED_NEWSTYLE | FLAG_NO_ZEROES;

/// The flags that answer the server's handshake flags: of its bits the two that are known (NBD
/// protocol, "Client flags").
#[tactic(auto, unfolding(lnbd_records::specs::Numbers::row))]
pub fn client_flags(flags: u16) -> [u8; 4]
    ensures { result ≡ client_flags flags }
{
    u32::from(flags & KNOWN_FLAGS).to_be_bytes()
}

/// The request of ABORT.
#[tactic(auto, unfolding(lnbd_records::specs::Numbers::row))]
pub fn abort_request() -> [u8; 16]
    ensures { result ≡ option_request opt_abort [] }
{
    *b"IHAVEOPT\0\0\0\x02\0\0\0\0"
}

/// The body of an option's request.
fn body(alloc: Global, option: u32, name: &Text, wanted: &Texts) -> Result<Vec<u8>, NoMemory>
    requires { length wanted.now ≤ max_contexts }
    ensures { IfOk result (λ v. v.items ≡ option_body option name.now wanted.now) }
{
    let mut body = Vec::new(alloc);
    if is_info(option) {
        put_info(alloc, name, &mut body)?;
    } else if option == OPT_SET_META_CONTEXT {
        put_meta(alloc, name, wanted, &mut body)?;
    } else if option == OPT_EXPORT_NAME {
        body.extend_from_slice(name.as_bytes())?;
    }
    Ok(body)
}

/// Appends the request of an option. Seventeen texts have far fewer bytes than a length can tell.
fn put_request(
    alloc: Global,
    option: u32,
    name: &Text,
    wanted: &Texts,
    out: &mut Vec<u8>,
) -> Result<(), NoMemory>
    requires { length wanted.now ≤ max_contexts }
    ensures ok { OnOk result (out.new.items ≡ out.old.items ++ option_request option (option_body option name.now wanted.now)) }
    ensures err { OnErr result (out.new.items ≡ out.old.items) }
{
    let body = body(alloc, option, name, wanted)?;
    if u32::try_from(body.len()).is_err() {
        return Err(NoMemory);
    }
    put_option(alloc, option, &body, out)
}

/// Appends the request that is sent where negotiation comes to this phase.
pub fn put_request_at(
    alloc: Global,
    phase: Phase,
    name: &Text,
    wanted: &Texts,
    out: &mut Vec<u8>,
) -> Result<(), NoMemory>
    requires { length wanted.now ≤ max_contexts }
    ensures ok { OnOk result (out.new.items ≡ out.old.items ++ concat (request_at phase name.now wanted.now)) }
    ensures err { OnErr result (out.new.items ≡ out.old.items) }
{
    match phase {
        Phase::Asked(option) => put_request(alloc, option, name, wanted, out),
        Phase::AskedByName => put_request(alloc, OPT_EXPORT_NAME, name, wanted, out),
        _ => Ok(()),
    }
}
