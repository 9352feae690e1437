//! What a whole option reply tells, or does wrong.

ghost use Rattle.std.specs.Prelude.{◌≡◌, None, is_none, not};
ghost use Rattle.lnbd_history.specs.Arrivals.{Sight, limit, is_too_big, is_ack, reply_verdict};
ghost use Rattle.lnbd_negotiate.specs.Told.{told_of};
ghost use Rattle.lnbd_negotiate.specs.Reading.{JudgedAs, broken_by, is_over};

use crate::front::is_info;
use crate::told::{Told, read_told};
use lnbd_model::Breach;
use lnbd_options::{OptionFault, OptionHead};
use lnbd_records::names::{FIRST_REP_ERROR, MAX_LISTED, MAX_REPLIES, OPT_LIST, REP_ACK};
use std::alloc::Global;

/// The first size that no export has.
pub const SIZE_END: u64 = 1 << 63;

#[derive(Debug, Drop)]
pub enum Ruling {
    NoMemory,
    Broken(Breach),
    Told(Told),
}

/// How many replies that neither acknowledge nor refuse an option may have.
fn limit(option: u32) -> u32
    ensures { result ≡ limit option }
{
    if option == OPT_LIST {
        MAX_LISTED
    } else {
        MAX_REPLIES
    }
}

fn is_over(option: u32, kind: u32, count: u32) -> bool
    ensures { result ≡ is_over option kind count }
{
    !(kind >= FIRST_REP_ERROR || kind == REP_ACK) && count >= limit(option)
}

fn is_ack(told: &Told) -> bool
    ensures { result ≡ is_ack (told_of told.now) }
{
    match told {
        Told::Ack => true,
        _ => false,
    }
}

fn is_too_big(told: &Told) -> bool
    ensures { result ≡ is_too_big (told_of told.now) }
{
    match told {
        Told::Export(size) => size.size >= SIZE_END,
        _ => false,
    }
}

/// Judges a whole reply whose head breaks nothing, where so many replies came to the option before, and a size was told by
/// them or wasn't. Of two faults the one with the lower number counts.
#[tactic(auto, unfolding(lnbd_stream::specs::Grammar::wants), using(crate::proofs::Judged::unbroken_verdict))]
pub fn judge(alloc: Global, count: u32, sized: bool, head: &OptionHead, body: &[u8]) -> Ruling
    ensures { (sight : Sight) → broken_by sight.phase head.now ≡ None → sight.count ≡ count → not (is_none sight.size) ≡ sized
        → JudgedAs (reply_verdict sight head.now.option head.now.kind head.now.length body.now) result }
{
    let over = is_over(head.option, head.kind, count);
    match read_told(alloc, head.kind, body) {
        Err(OptionFault::NoMemory) => Ruling::NoMemory,
        Err(OptionFault::BadOptionLength) => Ruling::Broken(Breach::BadOptionLength),
        Err(OptionFault::BadText) => {
            if over {
                Ruling::Broken(Breach::TooManyReplies)
            } else {
                Ruling::Broken(Breach::BadText)
            }
        }
        Ok(told) => {
            if over {
                Ruling::Broken(Breach::TooManyReplies)
            } else if is_ack(&told) && is_info(head.option) && !sized {
                Ruling::Broken(Breach::NoExportInfo)
            } else if is_too_big(&told) {
                Ruling::Broken(Breach::SizeTooBig)
            } else {
                Ruling::Told(told)
            }
        }
    }
}
