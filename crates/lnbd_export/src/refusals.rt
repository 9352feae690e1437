//! By what a request is judged beside the export: its flags, its kind and its length.

ghost use Rattle.std.specs.Prelude.{◌≡◌};
ghost use Rattle.lnbd_model.specs.Kind.{has_range};
ghost use Rattle.lnbd_export.specs.Requests.{is_structured, is_extended, flag_if, allowed, has_other_flags, is_unfit, is_change, range_error};

use crate::request::{Agreed, Replies};
use lnbd_model::{EINVAL, ENOSPC, Kind};
use lnbd_records::names::{
    CMD_FLAG_DF, CMD_FLAG_FUA, CMD_FLAG_NO_HOLE, CMD_FLAG_PAYLOAD_LEN, CMD_FLAG_REQ_ONE, MAX_DATA,
};

impl Replies {
    /// Whether structured replies are on, which come with extended headers too.
    pub fn is_structured(self) -> bool
        ensures { result ≡ is_structured self }
    {
        match self {
            Replies::Simple => false,
            Replies::Structured | Replies::Extended => true,
        }
    }

    /// Whether extended headers are on.
    pub fn is_extended(self) -> bool
        ensures { result ≡ is_extended self }
    {
        match self {
            Replies::Simple | Replies::Structured => false,
            Replies::Extended => true,
        }
    }
}

fn flag_if(on: bool, flag: u16) -> u16
    ensures { result ≡ flag_if on flag }
{
    if on { flag } else { 0 }
}

fn allowed(replies: Replies, kind: Kind) -> u16
    ensures { result ≡ allowed replies kind }
{
    match kind {
        Kind::Read => flag_if(replies.is_structured(), CMD_FLAG_DF),
        Kind::Write => CMD_FLAG_FUA | flag_if(replies.is_extended(), CMD_FLAG_PAYLOAD_LEN),
        Kind::Flush | Kind::Cache => 0,
        Kind::Trim => CMD_FLAG_FUA,
        Kind::Zero => CMD_FLAG_FUA | CMD_FLAG_NO_HOLE,
        Kind::BlockStatus => CMD_FLAG_REQ_ONE,
    }
}

/// Whether a flag is set that the command may not have.
pub(crate) fn has_other_flags(replies: Replies, kind: Kind, flags: u16) -> bool
    ensures { result ≡ has_other_flags replies kind flags }
{
    flags - (flags & allowed(replies, kind)) != 0
}

/// Whether a read is too long, or a block status asks for nothing that was agreed.
pub(crate) fn is_unfit(agreed: Agreed, kind: Kind, length: u64) -> bool
    ensures { result ≡ is_unfit agreed kind length }
{
    match kind {
        Kind::Read => length > MAX_DATA as u64,
        Kind::BlockStatus => length == 0 || !agreed.allocation,
        _ => false,
    }
}

/// Whether the command changes the export.
pub(crate) fn is_change(kind: Kind) -> bool
    ensures { result ≡ is_change kind }
{
    match kind {
        Kind::Write | Kind::Trim | Kind::Zero => true,
        _ => false,
    }
}

/// Whether the command has a range: all but FLUSH have one.
pub(crate) fn has_range(kind: Kind) -> bool
    ensures { result ≡ has_range kind }
{
    match kind {
        Kind::Flush => false,
        _ => true,
    }
}

/// The error of a range that isn't in the export.
pub(crate) fn range_error(kind: Kind) -> u32
    ensures { result ≡ range_error kind }
{
    match kind {
        Kind::Write | Kind::Zero => ENOSPC,
        _ => EINVAL,
    }
}
