//! How options are answered. When they come, and what becomes of the answer, is not known here.

ghost use Rattle.std.specs.Prelude.{◌≡◌, ◌+◌, ◌<◌, ◌≤◌, ◌^◌, ◌++◌, ◌∷◌, [], OnOk, IfOk, Some, bytes_eq, length, replicate};
ghost use Rattle.lnbd_records.specs.Handshake.{export_name_reply, option_reply_head, padding};
ghost use Rattle.lnbd_records.specs.Numbers.{row};
ghost use Rattle.lnbd_server.specs.Options.{
  flags_of,
  put_reply,
  put_replies,
  acknowledged,
  refused,
  information,
  listing,
  contexts,
  has_allocation,
  with_structured,
  option_answer,
  answer_of,
  blocks_told,
  size_told,
  without_allocation,
  stage_after,
  told_if,
  text_told,
  allocation_told,
  name_answer,
  info_answer,
  meta_answer,
  plain_answer,
  invalid_answer,
  switched,
  going,
};
ghost use Rattle.lnbd_export.specs.Export.{size};
ghost use Rattle.lnbd_export.specs.Requests.{flag_if};
ghost use Rattle.lnbd_server.specs.Views.{answer_as};

use crate::stage::{Offers, Stage};
use lnbd_export::{Agreed, Export, Replies};
use lnbd_model::{NoMemory, Text, Texts};
use lnbd_options::{OptionFault, Request, read_asked};
use lnbd_records::names::{
    ERR_INVALID, ERR_UNKNOWN, ERR_UNSUP, FIRST_REP_ERROR, FLAG_CAN_MULTI_CONN, FLAG_HAS_FLAGS,
    FLAG_READ_ONLY, FLAG_SEND_CACHE, FLAG_SEND_DF, FLAG_SEND_FLUSH, FLAG_SEND_FUA, FLAG_SEND_TRIM,
    FLAG_SEND_WRITE_ZEROES, INFO_DESCRIPTION, INFO_NAME, OPT_ABORT, OPT_EXPORT_NAME,
    OPT_EXTENDED_HEADERS, OPT_GO, OPT_LIST, OPT_SET_META_CONTEXT, OPT_STRUCTURED_REPLY,
    OPTION_REPLY_MAGIC, REP_ACK, REP_INFO, REP_META_CONTEXT, REP_SERVER,
};
use lnbd_records::{push_u16, push_u32, push_u64};
use std::alloc::Global;

/// What answering an option changes.
#[derive(Debug, Drop)]
pub(crate) struct Answer {
    pub bytes: Vec<u8>,
    pub agreed: Agreed,
    pub stage: Stage,
}

const ALLOCATION: &str = "base:allocation";

/// The transmission flags that do not depend on the session or the export.
const FLAGS: u16 = FLAG_HAS_FLAGS
    | FLAG_SEND_FLUSH
    | FLAG_SEND_FUA
    | FLAG_SEND_TRIM
    | FLAG_SEND_WRITE_ZEROES
    | FLAG_CAN_MULTI_CONN
    | FLAG_SEND_CACHE;

/// Answers an option request (NBD protocol, "Option haggling").
pub(crate) fn answer_option(
    alloc: Global,
    offers: Offers,
    export: &Export,
    no_zeroes: bool,
    agreed: Agreed,
    option: u32,
    body: &[u8],
) -> Result<Answer, NoMemory>
    ensures { IfOk result (λ answer. answer_as answer ≡ option_answer offers export.now no_zeroes agreed option body.now) }
{
    match read_asked(alloc, option, body) {
        Ok(request) => answer_request(alloc, offers, export, no_zeroes, agreed, option, request),
        Err(fault) => match fault {
            OptionFault::NoMemory => Err(NoMemory),
            OptionFault::BadOptionLength => invalid(alloc, agreed, option),
            OptionFault::BadText => invalid(alloc, agreed, option),
        },
    }
}

/// Answers what an option request asks.
fn answer_request(
    alloc: Global,
    offers: Offers,
    export: &Export,
    no_zeroes: bool,
    agreed: Agreed,
    option: u32,
    request: Request,
) -> Result<Answer, NoMemory>
    ensures { IfOk result (λ answer. answer_as answer ≡ answer_of offers export.now no_zeroes agreed option (Some request)) }
{
    match request {
        Request::Name(name) => by_name(alloc, export, no_zeroes, agreed, &name),
        Request::Info {
            name,
            wants_name,
            wants_description,
        } => informed(
            alloc,
            export,
            agreed,
            option,
            &name,
            wants_name,
            wants_description,
        ),
        Request::Meta { name, queries } => in_context(
            alloc, export, agreed, option, &name, &queries,
        ),
        Request::Plain => plain(alloc, offers, export, agreed, option),
    }
}

/// A request that doesn't fit its option.
fn invalid(alloc: Global, agreed: Agreed, option: u32) -> Result<Answer, NoMemory>
    ensures { IfOk result (λ answer. answer_as answer ≡ invalid_answer agreed option) }
{
    if option == OPT_EXPORT_NAME {
        Ok(strayed(alloc, agreed))
    } else if option == OPT_SET_META_CONTEXT {
        refuse(alloc, option, ERR_INVALID, without_allocation(agreed))
    } else {
        refuse(alloc, option, ERR_INVALID, agreed)
    }
}

fn strayed(alloc: Global, agreed: Agreed) -> Answer
    ensures { answer_as result ≡ record { bytes = []; agreed = agreed; stage = Stage.Strayed } }
{
    Answer {
        bytes: Vec::new(alloc),
        agreed,
        stage: Stage::Strayed,
    }
}

fn without_allocation(agreed: Agreed) -> Agreed
    ensures { result ≡ without_allocation agreed }
{
    Agreed {
        replies: agreed.replies,
        allocation: false,
    }
}

/// An error, after which haggling goes on.
fn refuse(alloc: Global, option: u32, code: u32, agreed: Agreed) -> Result<Answer, NoMemory>
    requires { code ≤ 10 }
    ensures { IfOk result (λ answer. answer_as answer ≡ going option (refused code ∷ []) agreed) }
{
    let mut bytes = Vec::new(alloc);
    push_reply(&mut bytes, option, FIRST_REP_ERROR + code, &[], &[])?;
    Ok(Answer {
        bytes,
        agreed,
        stage: Stage::Haggling,
    })
}

/// ACK alone, after which haggling goes on.
fn acknowledge(alloc: Global, option: u32, agreed: Agreed) -> Result<Answer, NoMemory>
    ensures { IfOk result (λ answer. answer_as answer ≡ going option (acknowledged ∷ []) agreed) }
{
    let mut bytes = Vec::new(alloc);
    push_reply(&mut bytes, option, REP_ACK, &[], &[])?;
    Ok(Answer {
        bytes,
        agreed,
        stage: Stage::Haggling,
    })
}

/// EXPORT_NAME.
fn by_name(
    alloc: Global,
    export: &Export,
    no_zeroes: bool,
    agreed: Agreed,
    name: &Text,
) -> Result<Answer, NoMemory>
    ensures { IfOk result (λ answer. answer_as answer ≡ name_answer export.now no_zeroes agreed name.now) }
{
    if is_name(name, export) {
        named(alloc, export, no_zeroes, agreed)
    } else {
        Ok(strayed(alloc, agreed))
    }
}

/// The reply to EXPORT_NAME, which has no head.
fn named(
    alloc: Global,
    export: &Export,
    no_zeroes: bool,
    agreed: Agreed,
) -> Result<Answer, NoMemory>
    ensures { IfOk result (λ answer. answer_as answer ≡ record {
      bytes = row (export_name_reply (size export.now) (flags_of agreed.replies export.now)) ++ replicate (padding no_zeroes) 0;
      agreed = agreed;
      stage = Stage.Serving;
    }) }
{
    let mut bytes = Vec::new(alloc);
    push_u64(&mut bytes, export.size())?;
    push_u16(&mut bytes, flags_of(agreed.replies, export))?;
    push_padding(&mut bytes, no_zeroes)?;
    Ok(Answer {
        bytes,
        agreed,
        stage: Stage::Serving,
    })
}

/// The zeros behind the reply to EXPORT_NAME, unless it was agreed that there are none.
fn push_padding(bytes: &mut Vec<u8>, no_zeroes: bool) -> Result<(), NoMemory>
    ensures { OnOk result (bytes.new.items ≡ bytes.old.items ++ replicate (padding no_zeroes) 0) }
{
    if no_zeroes {
        return Ok(());
    }
    bytes.extend_from_slice(&[0; 124])?;
    Ok(())
}

/// INFO and GO.
fn informed(
    alloc: Global,
    export: &Export,
    agreed: Agreed,
    option: u32,
    name: &Text,
    wants_name: bool,
    wants_description: bool,
) -> Result<Answer, NoMemory>
    ensures { IfOk result (λ answer. answer_as answer ≡ info_answer export.now agreed option name.now wants_name wants_description) }
{
    if is_name(name, export) {
        told(alloc, export, agreed, option, wants_name, wants_description)
    } else {
        refuse(alloc, option, ERR_UNKNOWN, agreed)
    }
}

/// What is told of the export; GO then begins the transmission.
fn told(
    alloc: Global,
    export: &Export,
    agreed: Agreed,
    option: u32,
    wants_name: bool,
    wants_description: bool,
) -> Result<Answer, NoMemory>
    ensures { IfOk result (λ answer. answer_as answer ≡ record {
      bytes = put_replies option (information agreed.replies export.now wants_name wants_description);
      agreed = agreed;
      stage = stage_after option;
    }) }
{
    let bytes = information(
        alloc,
        export,
        agreed.replies,
        option,
        wants_name,
        wants_description,
    )?;
    Ok(Answer {
        bytes,
        agreed,
        stage: stage_after(option),
    })
}

fn stage_after(option: u32) -> Stage
    ensures { result ≡ stage_after option }
{
    if option == OPT_GO {
        Stage::Serving
    } else {
        Stage::Haggling
    }
}

fn information(
    alloc: Global,
    export: &Export,
    replies: Replies,
    option: u32,
    wants_name: bool,
    wants_description: bool,
) -> Result<Vec<u8>, NoMemory>
    ensures { IfOk result (λ bytes. bytes.items ≡ put_replies option (information replies export.now wants_name wants_description)) }
{
    let mut bytes = Vec::new(alloc);
    push_size(
        alloc,
        &mut bytes,
        option,
        export.size(),
        flags_of(replies, export),
    )?;
    push_text(&mut bytes, option, wants_name, INFO_NAME, export.name())?;
    push_text(
        &mut bytes,
        option,
        wants_description,
        INFO_DESCRIPTION,
        export.description(),
    )?;
    push_blocks(&mut bytes, option)?;
    push_reply(&mut bytes, option, REP_ACK, &[], &[])?;
    Ok(bytes)
}

/// INFO with the size and the flags.
fn push_size(
    alloc: Global,
    bytes: &mut Vec<u8>,
    option: u32,
    size: u64,
    flags: u16,
) -> Result<(), NoMemory>
    ensures { OnOk result (bytes.new.items ≡ bytes.old.items ++ put_reply option (size_told size flags)) }
{
    let mut body = Vec::new(alloc);
    push_u16(&mut body, 0)?;
    push_u64(&mut body, size)?;
    push_u16(&mut body, flags)?;
    push_reply(bytes, option, REP_INFO, &body, &[])
}

/// INFO with a text, where it is asked for.
fn push_text(
    bytes: &mut Vec<u8>,
    option: u32,
    asked: bool,
    kind: u16,
    text: &Text,
) -> Result<(), NoMemory>
    ensures { OnOk result (bytes.new.items ≡ bytes.old.items ++ put_replies option (told_if asked kind text.now)) }
{
    if asked {
        return push_told(bytes, option, kind, text);
    }
    Ok(())
}

fn push_told(bytes: &mut Vec<u8>, option: u32, kind: u16, text: &Text) -> Result<(), NoMemory>
    ensures { OnOk result (bytes.new.items ≡ bytes.old.items ++ put_reply option (text_told kind text.now)) }
{
    let number = kind.to_be_bytes();
    push_reply(bytes, option, REP_INFO, &number, text.as_bytes())
}

/// INFO with the sizes of blocks: 1, 4096 and 33,554,432.
fn push_blocks(bytes: &mut Vec<u8>, option: u32) -> Result<(), NoMemory>
    ensures { OnOk result (bytes.new.items ≡ bytes.old.items ++ put_reply option blocks_told) }
{
    push_reply(
        bytes,
        option,
        REP_INFO,
        b"\x00\x03\x00\x00\x00\x01\x00\x00\x10\x00\x02\x00\x00\x00",
        &[],
    )
}

/// The transmission flags of the export.
fn flags_of(replies: Replies, export: &Export) -> u16
    ensures { result ≡ flags_of replies export.now }
{
    FLAGS
        + flag_if(replies.is_structured(), FLAG_SEND_DF)
        + flag_if(export.is_read_only(), FLAG_READ_ONLY)
}

fn flag_if(on: bool, flag: u16) -> u16
    ensures { result ≡ flag_if on flag }
{
    if on { flag } else { 0 }
}

/// SET_META_CONTEXT.
fn in_context(
    alloc: Global,
    export: &Export,
    agreed: Agreed,
    option: u32,
    name: &Text,
    queries: &Texts,
) -> Result<Answer, NoMemory>
    ensures { IfOk result (λ answer. answer_as answer ≡ meta_answer export.now agreed option name.now queries.now) }
{
    if !agreed.replies.is_structured() {
        refuse(alloc, option, ERR_INVALID, without_allocation(agreed))
    } else if is_name(name, export) {
        agree(alloc, option, agreed, has_allocation(queries))
    } else {
        refuse(alloc, option, ERR_UNKNOWN, without_allocation(agreed))
    }
}

/// Whether base:allocation is agreed from here on.
fn agree(alloc: Global, option: u32, agreed: Agreed, allocation: bool) -> Result<Answer, NoMemory>
    ensures { IfOk result (λ answer. answer_as answer ≡ going option (contexts allocation) (record { replies = agreed.replies; allocation = allocation })) }
{
    let bytes = contexts(alloc, option, allocation)?;
    let replies = agreed.replies;
    Ok(Answer {
        bytes,
        agreed: Agreed {
            replies,
            allocation,
        },
        stage: Stage::Haggling,
    })
}

/// Whether this is the export's name.
fn is_name(name: &Text, export: &Export) -> bool
    ensures { result ≡ bytes_eq name.now export.now.name }
{
    name.as_str() == export.name().as_str()
}

/// Whether base:allocation is among the queries.
fn has_allocation(queries: &Texts) -> bool
    ensures { result ≡ has_allocation queries.now }
{
    for query in queries.as_slice() {
        if query.as_str() == ALLOCATION {
            return true;
        }
    }
    false
}

fn contexts(alloc: Global, option: u32, allocation: bool) -> Result<Vec<u8>, NoMemory>
    ensures { IfOk result (λ bytes. bytes.items ≡ put_replies option (contexts allocation)) }
{
    if allocation {
        allocated(alloc, option)
    } else {
        unallocated(alloc, option)
    }
}

fn allocated(alloc: Global, option: u32) -> Result<Vec<u8>, NoMemory>
    ensures { IfOk result (λ bytes. bytes.items ≡ put_replies option (allocation_told ∷ acknowledged ∷ [])) }
{
    let mut bytes = Vec::new(alloc);
    push_reply(
        &mut bytes,
        option,
        REP_META_CONTEXT,
        &[0, 0, 0, 1],
        ALLOCATION.as_bytes(),
    )?;
    push_reply(&mut bytes, option, REP_ACK, &[], &[])?;
    Ok(bytes)
}

fn unallocated(alloc: Global, option: u32) -> Result<Vec<u8>, NoMemory>
    ensures { IfOk result (λ bytes. bytes.items ≡ put_replies option (acknowledged ∷ [])) }
{
    let mut bytes = Vec::new(alloc);
    push_reply(&mut bytes, option, REP_ACK, &[], &[])?;
    Ok(bytes)
}

/// The options without data, and those that aren't known.
fn plain(
    alloc: Global,
    offers: Offers,
    export: &Export,
    agreed: Agreed,
    option: u32,
) -> Result<Answer, NoMemory>
    ensures { IfOk result (λ answer. answer_as answer ≡ plain_answer offers export.now agreed option) }
{
    if option == OPT_ABORT {
        aborted(alloc, agreed, option)
    } else if option == OPT_LIST {
        listed(alloc, export, agreed, option)
    } else if option == OPT_STRUCTURED_REPLY {
        let replies = with_structured(agreed.replies);
        switch(alloc, offers.structured, replies, option, agreed)
    } else if option == OPT_EXTENDED_HEADERS {
        switch(alloc, offers.extended, Replies::Extended, option, agreed)
    } else {
        refuse(alloc, option, ERR_UNSUP, agreed)
    }
}

/// ABORT.
fn aborted(alloc: Global, agreed: Agreed, option: u32) -> Result<Answer, NoMemory>
    ensures { IfOk result (λ answer. answer_as answer ≡ record { bytes = put_replies option (acknowledged ∷ []); agreed = agreed; stage = Stage.Ended }) }
{
    let mut bytes = Vec::new(alloc);
    push_reply(&mut bytes, option, REP_ACK, &[], &[])?;
    Ok(Answer {
        bytes,
        agreed,
        stage: Stage::Ended,
    })
}

fn with_structured(replies: Replies) -> Replies
    ensures { result ≡ with_structured replies }
{
    match replies {
        Replies::Simple | Replies::Structured => Replies::Structured,
        Replies::Extended => Replies::Extended,
    }
}

/// Another form of replies, where it is offered.
fn switch(
    alloc: Global,
    on: bool,
    replies: Replies,
    option: u32,
    agreed: Agreed,
) -> Result<Answer, NoMemory>
    ensures { IfOk result (λ answer. answer_as answer ≡ switched on replies option agreed) }
{
    if on {
        let allocation = agreed.allocation;
        let agreed = Agreed {
            replies,
            allocation,
        };
        acknowledge(alloc, option, agreed)
    } else {
        refuse(alloc, option, ERR_UNSUP, agreed)
    }
}

/// LIST: the one export.
fn listed(alloc: Global, export: &Export, agreed: Agreed, option: u32) -> Result<Answer, NoMemory>
    ensures { IfOk result (λ answer. answer_as answer ≡ going option (listing export.now) agreed) }
{
    let mut bytes = Vec::new(alloc);
    let mut name = Vec::new(alloc);
    push_u32(&mut name, export.name().len() as u32)?;
    name.extend_from_slice(export.name().as_bytes())?;
    push_reply(
        &mut bytes,
        option,
        REP_SERVER,
        &name,
        export.description().as_bytes(),
    )?;
    push_reply(&mut bytes, option, REP_ACK, &[], &[])?;
    Ok(Answer {
        bytes,
        agreed,
        stage: Stage::Haggling,
    })
}

/// Puts an option reply whose data stands in two pieces.
fn push_reply(
    out: &mut Vec<u8>,
    option: u32,
    kind: u32,
    first: &[u8],
    second: &[u8],
) -> Result<(), NoMemory>
    requires { length first.now + length second.now < 2 ^ 32 }
    ensures { OnOk result (out.new.items ≡ out.old.items ++ put_reply option (record { type = kind; body = first.now ++ second.now })) }
{
    push_head(out, option, kind, (first.len() + second.len()) as u32)?;
    out.extend_from_slice(first)?;
    out.extend_from_slice(second)?;
    Ok(())
}

fn push_head(out: &mut Vec<u8>, option: u32, kind: u32, size: u32) -> Result<(), NoMemory>
    ensures { OnOk result (out.new.items ≡ out.old.items ++ row (option_reply_head option kind size)) }
{
    push_u64(out, OPTION_REPLY_MAGIC)?;
    push_u32(out, option)?;
    push_u32(out, kind)?;
    push_u32(out, size)?;
    Ok(())
}
