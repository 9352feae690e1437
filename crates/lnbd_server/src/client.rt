//! What the bytes of a client show, at each stage of a session. What then happens is not known here.

ghost use Rattle.std.specs.Prelude.{◌≡◌, ◌≤◌, ◌+◌, length, false};
ghost use Rattle.lnbd_server.specs.Client.{says, says_flags, says_option, says_request, says_extended, says_asked, kind_of, data_size, lacks_data};
ghost use Rattle.lnbd_server.specs.Session.{is_closed};
ghost use Rattle.lnbd_server.specs.Seen.{heard_of, IsThere, used_of};

use crate::stage::Stage;
use lnbd_export::Request;
use lnbd_model::Kind;
use lnbd_records::names::{
    CMD_FLAG_PAYLOAD_LEN, FLAG_FIXED_NEWSTYLE, FLAG_NO_ZEROES, MAX_DATA, OPTION_MAGIC, TYPE_DISC,
    TYPE_WRITE,
};
use lnbd_records::{u32_at, u64_at};
use lnbd_wire::{Read, read_request, read_request_ext};

/// What each client has to say, and what it may say.
const FIXED_NEWSTYLE: u32 = FLAG_FIXED_NEWSTYLE as u32;

const BOTH: u32 = (FLAG_FIXED_NEWSTYLE | FLAG_NO_ZEROES) as u32;

/// The bytes of a request's head: with extended headers it has a length of 64 bits.
const REQUEST_HEAD_SIZE: usize = 28;

const EXTENDED_HEAD_SIZE: usize = 32;

/// The longest data of an option request that is read.
const MAX_OPTION_REQUEST: u32 = 131_072;

/// What some bytes show.
#[derive(Clone, Copy, Debug, PartialEq, Eq)]
pub(crate) enum Seen {
    Nothing,
    Flags(u32),
    /// So many bytes of data stand behind 16 others.
    OptionRequest {
        option: u32,
        length: usize,
    },
    /// So many bytes of data stand behind a head.
    Asks {
        request: Request,
        head: usize,
        payload: usize,
    },
    Disconnect {
        size: usize,
    },
    Stray,
}

impl Seen {
    /// How many of so many bytes are used.
    pub fn used(self, all: usize) -> usize
        requires { used_of self all ≤ all }
        ensures { result ≡ used_of self all }
    {
        match self {
            Seen::Nothing | Seen::Stray => all,
            Seen::Flags(_) => 4,
            Seen::OptionRequest { length, .. } => 16 + length,
            Seen::Asks { head, payload, .. } => head + payload,
            Seen::Disconnect { size } => size,
        }
    }
}

/// What these bytes show at a stage. After the end of a session nothing is looked for.
pub(crate) fn look(stage: Stage, extended: bool, bytes: &[u8]) -> Seen
    requires { is_closed stage ≡ false }
    ensures said { says stage extended bytes.now ≡ heard_of result bytes.now }
    ensures there { IsThere result bytes.now }
{
    match stage {
        Stage::Greeting => look_for_flags(bytes),
        Stage::Haggling => look_for_option(bytes),
        Stage::Serving => {
            if extended {
                look_for_extended(bytes)
            } else {
                look_for_request(bytes)
            }
        }
        Stage::Ended | Stage::Strayed => Seen::Nothing,
    }
}

#[tactic(auto, unfolding(crate::specs::Client::says_flags, lnbd_stream::specs::Grammar::once, lnbd_stream::specs::Grammar::wants))]
fn look_for_flags(bytes: &[u8]) -> Seen
    ensures said { says_flags bytes.now ≡ heard_of result bytes.now }
    ensures there { IsThere result bytes.now }
{
    if bytes.len() < 4 {
        return Seen::Nothing;
    }
    let flags = u32_at(bytes, 0);
    if flags == FIXED_NEWSTYLE || flags == BOTH {
        Seen::Flags(flags)
    } else {
        Seen::Stray
    }
}

#[tactic(auto, unfolding(crate::specs::Client::says_option, lnbd_stream::specs::Grammar::once, lnbd_stream::specs::Grammar::wants))]
fn look_for_option(bytes: &[u8]) -> Seen
    ensures said { says_option bytes.now ≡ heard_of result bytes.now }
    ensures there { IsThere result bytes.now }
{
    if bytes.len() < 8 {
        return Seen::Nothing;
    }
    if u64_at(bytes, 0) != OPTION_MAGIC {
        return Seen::Stray;
    }
    if bytes.len() < 16 {
        return Seen::Nothing;
    }
    let length = u32_at(bytes, 12);
    if length > MAX_OPTION_REQUEST {
        return Seen::Stray;
    }
    let length = length as usize;
    if bytes.len() < 16 + length {
        return Seen::Nothing;
    }
    let option = u32_at(bytes, 8);
    Seen::OptionRequest { option, length }
}

fn look_for_request(bytes: &[u8]) -> Seen
    ensures said { says_request bytes.now ≡ heard_of result bytes.now }
    ensures there { IsThere result bytes.now }
{
    match read_request(bytes) {
        Read::NeedMore => Seen::Nothing,
        Read::BadMagic(_) => Seen::Stray,
        Read::Value(head) => look_for_data(
            false,
            REQUEST_HEAD_SIZE,
            head.kind,
            head.flags,
            head.cookie,
            head.offset,
            head.length as u64,
            bytes,
        ),
    }
}

fn look_for_extended(bytes: &[u8]) -> Seen
    ensures said { says_extended bytes.now ≡ heard_of result bytes.now }
    ensures there { IsThere result bytes.now }
{
    match read_request_ext(bytes) {
        Read::NeedMore => Seen::Nothing,
        Read::BadMagic(_) => Seen::Stray,
        Read::Value(head) => look_for_data(
            true,
            EXTENDED_HEAD_SIZE,
            head.kind,
            head.flags,
            head.cookie,
            head.offset,
            head.length,
            bytes,
        ),
    }
}

/// A request whose head was read, with the data that follows it.
#[tactic(auto, unfolding(crate::specs::Client::says_asked, lnbd_stream::specs::Grammar::once, lnbd_stream::specs::Grammar::wants))]
fn look_for_data(
    extended: bool,
    head: usize,
    kind: u16,
    flags: u16,
    cookie: u64,
    offset: u64,
    size: u64,
    bytes: &[u8],
) -> Seen
    requires small { head ≤ 32 }
    requires there { head ≤ length bytes.now }
    ensures said { says_asked extended head kind flags cookie offset size bytes.now ≡ heard_of result bytes.now }
    ensures there { IsThere result bytes.now }
{
    let payload = data_size(extended, kind, flags, size);
    if lacks_data(extended, kind, flags) || payload > MAX_DATA as u64 {
        return Seen::Stray;
    }
    let payload = payload as usize;
    if bytes.len() < head + payload {
        return Seen::Nothing;
    }
    if kind == TYPE_DISC {
        return Seen::Disconnect {
            size: head + payload,
        };
    }
    let request = Request {
        kind: kind_of(kind),
        flags,
        cookie,
        offset,
        length: size,
    };
    Seen::Asks {
        request,
        head,
        payload,
    }
}

/// How many bytes of data follow a head.
fn data_size(extended: bool, kind: u16, flags: u16, length: u64) -> u64
    ensures { result ≡ data_size extended kind flags length }
{
    let has_data = if extended {
        flags & CMD_FLAG_PAYLOAD_LEN != 0
    } else {
        kind == TYPE_WRITE
    };
    if has_data { length } else { 0 }
}

/// Whether a write doesn't say that its data follows.
fn lacks_data(extended: bool, kind: u16, flags: u16) -> bool
    ensures { result ≡ lacks_data extended kind flags }
{
    extended && kind == TYPE_WRITE && flags & CMD_FLAG_PAYLOAD_LEN == 0
}

/// The command of a type, if one has it.
fn kind_of(kind: u16) -> Option<Kind>
    ensures { result ≡ kind_of kind }
{
    Kind::from_code(kind)
}
