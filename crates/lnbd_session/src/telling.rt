//! What is known of a connection: where it stands, what was told of its export and what is agreed. Nothing changes here.

ghost use Rattle.std.specs.Prelude.{◌≡◌, IfErr, IfOk, Ok, Err};
ghost use Rattle.lnbd_machine.specs.Now.{info_now, state_now};
ghost use Rattle.lnbd_session.specs.Tells.{agreed_told, answer_told, blocks_told, context_told, death_told, description_told};
ghost use Rattle.lnbd_session.specs.Tells.{direction_number, flags_told, listed_told, name_told, size_told, state_number};

use crate::code::Code;
use crate::session::Session;
use lnbd_handle::OptAnswer;
use lnbd_model::{Blocks, Cause, Context, Listed, State, Text};

/// A state as a number, from 0.
pub fn state_number(state: State) -> i32
    ensures { result ≡ state_number state }
{
    match state {
        State::Created => 0,
        State::Negotiating => 1,
        State::OptMode => 2,
        State::Ready => 3,
        State::Closing => 4,
        State::Closed => 5,
        State::Dead(_) => 6,
    }
}

/// A direction as the number that C gets: 0 where nothing may be read or written, 3 where bytes wait, and else 1.
pub fn direction_number(direction: u32) -> i32
    ensures { result ≡ direction_number direction }
{
    if direction == 0 {
        0
    } else if direction == 3 {
        3
    } else {
        1
    }
}

/// Why a connection is gone.
#[derive(Clone, Copy)]
pub struct Death {
    /// The peer broke the protocol 0, refused the export 1, ended the connection 2; reading or writing failed 3.
    pub kind: u32,
    /// The number of the breach, or the code of the refusal; else 0.
    pub detail: u32,
}

/// Why a connection in this state is gone. BadState: it is not.
pub fn death_of(state: State) -> Result<Death, Code>
    ensures { result ≡ death_told state }
{
    match state {
        State::Dead(Cause::Broke(breach)) => Ok(Death {
            kind: 0,
            detail: breach.number() as u32,
        }),
        State::Dead(Cause::Refused { code, .. }) => Ok(Death {
            kind: 1,
            detail: code,
        }),
        State::Dead(Cause::Ended) => Ok(Death { kind: 2, detail: 0 }),
        State::Dead(Cause::LinkFailed) => Ok(Death { kind: 3, detail: 0 }),
        _ => Err(Code::BadState),
    }
}

/// What is agreed of replies.
#[derive(Clone, Copy)]
pub struct Agreed {
    /// 1 where structured replies are on, else 0.
    pub structured: u32,
    /// 1 where extended headers are on, else 0.
    pub extended: u32,
}

/// The answer to an option.
#[derive(Clone, Copy)]
pub struct Refusal {
    /// The number of the option that the server refused, or 0: it was acknowledged.
    pub option: u32,
    /// The reply's type less 2^31, or 0.
    pub code: u32,
}

impl Session {
    /// Why the connection is gone. BadState: it is not.
    pub fn death(&self) -> Result<Death, Code>
        ensures { result ≡ death_told (state_now self.now.handle.machine.known) }
    {
        death_of(self.handle.state())
    }

    /// The export's size in bytes (libnbd, nbd_get_size). BadState: nothing was told of an export yet, and so below.
    pub fn size(&self) -> Result<u64, Code>
        ensures { result ≡ size_told (info_now self.now.handle.machine.known) }
    {
        match self.handle.info() {
            Some(info) => Ok(info.size),
            None => Err(Code::BadState),
        }
    }

    /// The transmission flags (NBD protocol, "Transmission flags").
    pub fn flags(&self) -> Result<u32, Code>
        ensures { result ≡ flags_told (info_now self.now.handle.machine.known) }
    {
        match self.handle.info() {
            Some(info) => Ok(info.flags as u32),
            None => Err(Code::BadState),
        }
    }

    /// The block sizes in bytes (libnbd, nbd_get_block_size). Unsupported: the server told none.
    pub fn blocks(&self) -> Result<Blocks, Code>
        ensures { result ≡ blocks_told (info_now self.now.handle.machine.known) }
    {
        match self.handle.info() {
            Some(info) => match info.blocks {
                Some(blocks) => Ok(blocks),
                None => Err(Code::Unsupported),
            },
            None => Err(Code::BadState),
        }
    }

    /// Whether structured replies and extended headers are on (libnbd, nbd_get_structured_replies_negotiated).
    pub fn agreed(&self) -> Result<Agreed, Code>
        ensures { result ≡ agreed_told (info_now self.now.handle.machine.known) }
    {
        match self.handle.info() {
            Some(info) => Ok(Agreed {
                structured: info.structured as u32,
                extended: info.extended as u32,
            }),
            None => Err(Code::BadState),
        }
    }

    /// The export's name as the server spells it (libnbd, nbd_get_canonical_export_name). Unsupported: the server told none.
    pub fn canonical_export_name(&self) -> Result<&Text, Code>
        ensures ok { IfOk result (λ text. name_told (info_now self.now.handle.machine.known) ≡ Ok text.now) }
        ensures err { IfErr result (λ code. name_told (info_now self.now.handle.machine.known) ≡ Err code) }
    {
        match self.handle.info() {
            Some(info) => match &info.name {
                Some(name) => Ok(name),
                None => Err(Code::Unsupported),
            },
            None => Err(Code::BadState),
        }
    }

    /// The export's description (libnbd, nbd_get_export_description). Unsupported: the server told none.
    pub fn export_description(&self) -> Result<&Text, Code>
        ensures ok { IfOk result (λ text. description_told (info_now self.now.handle.machine.known) ≡ Ok text.now) }
        ensures err { IfErr result (λ code. description_told (info_now self.now.handle.machine.known) ≡ Err code) }
    {
        match self.handle.info() {
            Some(info) => match &info.description {
                Some(description) => Ok(description),
                None => Err(Code::Unsupported),
            },
            None => Err(Code::BadState),
        }
    }

    /// The meta context at this index of those that are agreed. TooMany: there are not so many.
    pub fn meta_context(&self, index: usize) -> Result<&Context, Code>
        ensures ok { IfOk result (λ context. context_told index (info_now self.now.handle.machine.known) ≡ Ok context.now) }
        ensures err { IfErr result (λ code. context_told index (info_now self.now.handle.machine.known) ≡ Err code) }
    {
        match self.handle.info() {
            Some(info) => match info.contexts.get(index) {
                Some(context) => Ok(context),
                None => Err(Code::TooMany),
            },
            None => Err(Code::BadState),
        }
    }

    /// The export at this index of those that the server listed last (libnbd, the list callback of nbd_opt_list). TooMany: there are not so many.
    pub fn listed(&self, index: usize) -> Result<&Listed, Code>
        ensures ok { IfOk result (λ listed. listed_told index self.now.handle.machine.known.talk.listing ≡ Ok listed.now) }
        ensures err { IfErr result (λ code. listed_told index self.now.handle.machine.known.talk.listing ≡ Err code) }
    {
        match self.handle.listed().get(index) {
            Some(listed) => Ok(listed),
            None => Err(Code::TooMany),
        }
    }

    /// The last answer to an option that was asked. NotYet: none is answered.
    pub fn opt_answer(&self) -> Result<Refusal, Code>
        ensures { result ≡ answer_told self.now.handle.machine.known.talk.answer }
    {
        match self.handle.opt_answer() {
            Some(OptAnswer::Ok) => Ok(Refusal { option: 0, code: 0 }),
            Some(OptAnswer::Refused { option, code }) => Ok(Refusal { option, code }),
            None => Err(Code::NotYet),
        }
    }
}
