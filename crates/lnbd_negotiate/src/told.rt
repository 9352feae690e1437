//! What one option reply tells.

ghost use Rattle.std.specs.Prelude.{◌≡◌};
ghost use Rattle.std.specs.Option.{option_map};
ghost use Rattle.lnbd_records.specs.Options.{rep_info, rep_meta_context, rep_server};
ghost use Rattle.lnbd_records.specs.Replies.{body_of};
ghost use Rattle.lnbd_history.specs.Agreement.{end_of};
ghost use Rattle.lnbd_options.specs.Answers.{ReadAs, info_told};
ghost use Rattle.lnbd_negotiate.specs.Told.{end, told_of};

use lnbd_model::{Blocks, Context, Listed, Text};
use lnbd_options::{Info, OptionFault, read_context, read_info, read_server};
use lnbd_records::names::{FIRST_REP_ERROR, REP_ACK, REP_INFO, REP_META_CONTEXT, REP_SERVER};
use std::alloc::Global;
use std::marker::Model;

/// An export's size and its transmission flags.
#[derive(Debug, Drop)]
pub struct Size {
    pub size: u64,
    pub flags: u16,
}

impl Model for Size {
    ghost use Rattle.lnbd_records.specs.Told.{Size};

    ghost Value = { Size };

    ghost view = { λ s. record { size = s.size; flags = s.flags } };
}

#[derive(Debug, Drop)]
pub enum Told {
    Ack,
    /// The code is the reply's type less 2^31.
    Error(u32),
    Server(Listed),
    Export(Size),
    Name(Text),
    Description(Text),
    Blocks(Blocks),
    /// Information that counts for nothing.
    Passed,
    Context(Context),
}

/// How an answer ends by this reply: not at all, by ACK, or by an error with its code.
pub fn end_of(told: &Told) -> Option<Option<u32>>
    ensures { end_of (told_of told.now) ≡ option_map end result }
{
    match told {
        Told::Ack => Some(None),
        Told::Error(code) => Some(Some(*code)),
        _ => None,
    }
}

/// What one piece of information tells.
fn told_by(info: Info) -> Told
    ensures { told_of result ≡ info_told info }
{
    match info {
        Info::Export { size, flags } => Told::Export(Size { size, flags }),
        Info::Name(name) => Told::Name(name),
        Info::Description(text) => Told::Description(text),
        Info::Blocks(blocks) => Told::Blocks(blocks),
        Info::Passed => Told::Passed,
    }
}

/// Reads the data of a reply of this type.
#[tactic(auto, unfolding(lnbd_records::specs::Replies::body_of))]
pub fn read_told(alloc: Global, kind: u32, bytes: &[u8]) -> Result<Told, OptionFault>
    ensures { ReadAs told_of (body_of kind bytes.now) result }
{
    if kind >= FIRST_REP_ERROR {
        return Ok(Told::Error(kind - FIRST_REP_ERROR));
    }
    match kind {
        REP_ACK => {
            if bytes.is_empty() {
                Ok(Told::Ack)
            } else {
                Err(OptionFault::BadOptionLength)
            }
        }
        REP_SERVER => server(alloc, bytes),
        REP_INFO => information(alloc, bytes),
        REP_META_CONTEXT => context(alloc, bytes),
        _ => Err(OptionFault::BadOptionLength),
    }
}

fn server(alloc: Global, bytes: &[u8]) -> Result<Told, OptionFault>
    ensures { ReadAs told_of (body_of rep_server bytes.now) result }
{
    match read_server(alloc, bytes) {
        Ok(listed) => Ok(Told::Server(listed)),
        Err(OptionFault::NoMemory) => Err(OptionFault::NoMemory),
        Err(OptionFault::BadOptionLength) => Err(OptionFault::BadOptionLength),
        Err(OptionFault::BadText) => Err(OptionFault::BadText),
    }
}

fn information(alloc: Global, bytes: &[u8]) -> Result<Told, OptionFault>
    ensures { ReadAs told_of (body_of rep_info bytes.now) result }
{
    match read_info(alloc, bytes) {
        Ok(info) => Ok(told_by(info)),
        Err(OptionFault::NoMemory) => Err(OptionFault::NoMemory),
        Err(OptionFault::BadOptionLength) => Err(OptionFault::BadOptionLength),
        Err(OptionFault::BadText) => Err(OptionFault::BadText),
    }
}

fn context(alloc: Global, bytes: &[u8]) -> Result<Told, OptionFault>
    ensures { ReadAs told_of (body_of rep_meta_context bytes.now) result }
{
    match read_context(alloc, bytes) {
        Ok(context) => Ok(Told::Context(context)),
        Err(OptionFault::NoMemory) => Err(OptionFault::NoMemory),
        Err(OptionFault::BadOptionLength) => Err(OptionFault::BadOptionLength),
        Err(OptionFault::BadText) => Err(OptionFault::BadText),
    }
}
