//! The answers to yes or no questions about an export, by what was told of it.

ghost use Rattle.std.specs.Prelude.{◌≡◌};
ghost use Rattle.lnbd_records.specs.Numbers.{has_bit};
ghost use Rattle.lnbd_info.specs.Predicates.{is_true_of};
ghost use Rattle.lnbd_info.specs.Listing.{key_of};

use lnbd_args::Predicate;
use lnbd_model::ExportInfo;
use lnbd_records::names::{
    FLAG_CAN_MULTI_CONN, FLAG_READ_ONLY, FLAG_ROTATIONAL, FLAG_SEND_CACHE, FLAG_SEND_DF,
    FLAG_SEND_FAST_ZERO, FLAG_SEND_FLUSH, FLAG_SEND_FUA, FLAG_SEND_TRIM, FLAG_SEND_WRITE_ZEROES,
};

/// The questions that a listing answers, in the order of its lines.
pub(crate) const QUESTIONS: [Predicate; 10] = [
    Predicate::IsRotational,
    Predicate::IsReadOnly,
    Predicate::CanCache,
    Predicate::CanDf,
    Predicate::CanFastZero,
    Predicate::CanFlush,
    Predicate::CanFua,
    Predicate::CanMultiConn,
    Predicate::CanTrim,
    Predicate::CanZero,
];

/// The answer to a question about an export (nbdinfo(1), `--is` and `--can`).
pub fn is_true(predicate: Predicate, info: &ExportInfo) -> bool
    ensures { result ≡ is_true_of predicate info.now }
{
    let flags = info.flags;
    match predicate {
        Predicate::IsReadOnly => has(flags, FLAG_READ_ONLY),
        Predicate::IsRotational => has(flags, FLAG_ROTATIONAL),
        Predicate::IsTls => false,
        Predicate::CanCache => has(flags, FLAG_SEND_CACHE),
        Predicate::CanDf => has(flags, FLAG_SEND_DF),
        Predicate::CanFastZero => has(flags, FLAG_SEND_FAST_ZERO),
        Predicate::CanFlush => has(flags, FLAG_SEND_FLUSH),
        Predicate::CanFua => has(flags, FLAG_SEND_FUA),
        Predicate::CanMultiConn => has(flags, FLAG_CAN_MULTI_CONN),
        Predicate::CanTrim => has(flags, FLAG_SEND_TRIM),
        Predicate::CanZero => has(flags, FLAG_SEND_WRITE_ZEROES),
        Predicate::CanWrite => !has(flags, FLAG_READ_ONLY),
        Predicate::CanRead | Predicate::CanConnect => true,
        Predicate::CanStructuredReply => info.structured,
    }
}

fn has(flags: u16, flag: u16) -> bool
    ensures { result ≡ has_bit flag flags }
{
    flags & flag != 0
}

/// The name of a question's line in a listing, and of its key in JSON.
pub(crate) fn key_of(predicate: Predicate) -> &'static str
    ensures { result.now ≡ key_of predicate }
{
    match predicate {
        Predicate::IsReadOnly => "is_read_only",
        Predicate::IsRotational => "is_rotational",
        Predicate::IsTls => "is_tls",
        Predicate::CanCache => "can_cache",
        Predicate::CanDf => "can_df",
        Predicate::CanFastZero => "can_fast_zero",
        Predicate::CanFlush => "can_flush",
        Predicate::CanFua => "can_fua",
        Predicate::CanMultiConn => "can_multi_conn",
        Predicate::CanTrim => "can_trim",
        Predicate::CanZero => "can_zero",
        Predicate::CanWrite => "can_write",
        Predicate::CanRead => "can_read",
        Predicate::CanConnect => "can_connect",
        Predicate::CanStructuredReply => "can_structured_reply",
    }
}
