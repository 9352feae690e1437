//! An option reply at the front of a buffer. Its head is read by `lnbd_options`; what is added here depends on the option that is asked.

ghost use Rattle.std.specs.Prelude.{◌≡◌};
ghost use Rattle.lnbd_records.specs.Requests.{is_info};
ghost use Rattle.lnbd_history.specs.Arrivals.{Sight, is_asked, is_named};
ghost use Rattle.lnbd_negotiate.specs.Reading.{IsHeadRead, IsHeaded, SeenAs, broken_by};

use lnbd_history::Phase;
use lnbd_model::Breach;
use lnbd_options::{OptionHead, Read64, read_head};
use lnbd_records::names::{
    FIRST_REP_ERROR, MAX_OPTION_REPLY, OPT_GO, OPT_INFO, OPT_LIST, OPT_SET_META_CONTEXT,
    OPTION_REPLY_HEAD_SIZE, REP_ACK, REP_INFO, REP_META_CONTEXT, REP_SERVER,
};

/// What the bytes at the front show of an option reply.
#[derive(Clone, Copy, Debug, PartialEq, Eq)]
pub enum Seen {
    /// Nothing yet: more bytes are needed.
    Nothing,
    /// A whole reply, whose head breaks nothing and whose data is still to be read (`Talk::apply_seen`).
    Whole(OptionHead),
    /// A breach, which the magic or the head shows.
    Broken(Breach),
}

pub fn is_asked(option: u32, phase: Phase) -> bool
    ensures { result ≡ is_asked option phase }
{
    match phase {
        Phase::Asked(asked) => option == asked,
        _ => false,
    }
}

pub fn is_info(option: u32) -> bool
    ensures { result ≡ is_info option }
{
    option == OPT_INFO || option == OPT_GO
}

pub fn is_named(option: u32, kind: u32) -> bool
    ensures { result ≡ is_named option kind }
{
    kind >= FIRST_REP_ERROR
        || kind == REP_ACK
        || (kind == REP_SERVER && option == OPT_LIST)
        || (kind == REP_INFO && is_info(option))
        || (kind == REP_META_CONTEXT && option == OPT_SET_META_CONTEXT)
}

/// What the head of a reply alone breaks at this phase, if anything.
#[tactic(auto, unfolding(crate::specs::Reading::broken_by, lnbd_stream::specs::Grammar::wants))]
pub fn broken_by(phase: Phase, head: &OptionHead) -> Option<Breach>
    ensures { result ≡ broken_by phase head.now }
{
    if !is_asked(head.option, phase) {
        return Some(Breach::WrongOption);
    }
    if head.length > MAX_OPTION_REPLY {
        return Some(Breach::BadOptionLength);
    }
    if !is_named(head.option, head.kind) {
        return Some(Breach::UnexpectedReply);
    }
    None
}

/// The head at the front of the bytes.
fn head_at(bytes: &[u8]) -> Read64<OptionHead>
    ensures { IsHeadRead bytes.now result }
{
    read_head(bytes)
}

/// What the bytes at the front show, where negotiation stands at this phase (NBD protocol, "Option
/// haggling").
pub fn look(phase: Phase, bytes: &[u8]) -> Seen
    ensures { (sight : Sight) → sight.phase ≡ phase → SeenAs sight bytes.now result }
{
    match head_at(bytes) {
        Read64::NeedMore => Seen::Nothing,
        Read64::BadMagic(_) => Seen::Broken(Breach::BadOptionMagic),
        Read64::Value(head) => look_reply(phase, head, bytes),
    }
}

/// The same of bytes that begin with this head.
fn look_reply(phase: Phase, head: OptionHead, bytes: &[u8]) -> Seen
    requires { IsHeaded bytes.now head }
    ensures { (sight : Sight) → sight.phase ≡ phase → SeenAs sight bytes.now result }
{
    match broken_by(phase, &head) {
        Some(breach) => Seen::Broken(breach),
        None => {
            if bytes.len() - OPTION_REPLY_HEAD_SIZE < head.length as usize {
                Seen::Nothing
            } else {
                Seen::Whole(head)
            }
        }
    }
}
