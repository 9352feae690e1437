//! Whether and why a command is refused: by the first rule that holds. What a refusal does is not said here.

ghost use Rattle.std.specs.Prelude.{◌≡◌, ◌≤◌, ◌+◌, ◌-◌, ◌%◌, ◌==◌, ◌&&◌, if◌then◌else◌, not, None, nat_lt, bit_and};
ghost use Rattle.lnbd_model.specs.Kind.{has_range};
ghost use Rattle.lnbd_records.specs.Numbers.{has_bit as has_flag};
ghost use Rattle.lnbd_records.specs.Flags.{cmd_flag_df, cmd_flag_fast_zero, cmd_flag_fua, flag_read_only, flag_send_df, flag_send_fast_zero, flag_send_fua};
ghost use Rattle.lnbd_history.specs.Agreement.{is_empty as has_none};
ghost use Rattle.lnbd_history.specs.Refusals as rule;
ghost use Rattle.lnbd_history.specs.Strict.{strict_align};
ghost use Rattle.lnbd_machine.specs.Now.{terms_now};
ghost use Rattle.lnbd_handle.specs.Issues.{by_flags, by_rules, seen_terms};
ghost use Rattle.lnbd_handle.specs.Seen.{state_of};
ghost use Rattle.lnbd_handle.specs.Histories.{max_unretired};

use crate::connection::Connection;
use crate::standing::{by_state, state_at};
use crate::strict;
use lnbd_model::{Blocks, Contexts, Kind, Lack, State, Why};
use lnbd_records::names::{
    CMD_FLAG_DF, CMD_FLAG_FAST_ZERO, CMD_FLAG_FUA, CMD_FLAG_NO_HOLE, CMD_FLAG_REQ_ONE,
    FLAG_READ_ONLY, FLAG_SEND_CACHE, FLAG_SEND_DF, FLAG_SEND_FAST_ZERO, FLAG_SEND_FLUSH,
    FLAG_SEND_FUA, FLAG_SEND_TRIM, FLAG_SEND_WRITE_ZEROES, MAX_DATA, MAX_EXTENDED_RANGE, MAX_RANGE,
};

/// The most commands that are not retired.
const MAX_UNRETIRED: u32 = 1024;

/// All command flags but PAYLOAD_LEN, which is the client's own.
const SENDABLE_FLAGS: u32 = 0xffdf;

/// All by which a command is judged.
#[derive(Clone, Copy)]
pub(crate) struct Terms {
    pub(crate) state: State,
    /// How many commands are not retired.
    pub(crate) held: usize,
    /// The size of the export, in bytes.
    pub(crate) size: u64,
    /// Transmission flags.
    pub(crate) flags: u16,
    pub(crate) blocks: Option<Blocks>,
    /// Whether a meta context is agreed.
    pub(crate) has_context: bool,
    pub(crate) structured: bool,
    pub(crate) extended: bool,
    /// The bits of strict mode.
    pub(crate) strict: u32,
}

fn has_flag(flags: u32, flag: u32) -> bool
    ensures { result ≡ has_flag flag flags }
{
    flags & flag != 0
}

/// The command flags that are not allowed.
fn excess(flags: u32, allowed: u32) -> u32
    ensures { result ≡ flags - bit_and flags allowed }
{
    flags - (flags & allowed)
}

/// The most bytes of one read or write.
fn payload_limit(blocks: Option<Blocks>) -> u64
    ensures { result ≡ rule.payload_limit blocks }
{
    match blocks {
        None => MAX_DATA as u64,
        Some(blocks) => {
            if MAX_DATA <= blocks.maximum {
                MAX_DATA as u64
            } else {
                blocks.maximum as u64
            }
        }
    }
}

/// The longest range of a command without data.
fn range_limit(extended: bool) -> u64
    ensures { result ≡ rule.range_limit extended }
{
    if extended {
        MAX_EXTENDED_RANGE
    } else {
        MAX_RANGE
    }
}

/// Of what offsets and lengths are multiples.
fn minimum(blocks: Option<Blocks>) -> u32
    ensures { result ≡ rule.minimum blocks }
{
    match blocks {
        None => 1,
        Some(blocks) => blocks.minimum,
    }
}

fn is_multiple(value: u64, unit: u32) -> bool
    ensures { result ≡ (value % unit == 0) }
{
    if unit == 0 {
        value == 0
    } else {
        value % unit as u64 == 0
    }
}

/// Whether offset and length consist of whole units.
fn is_aligned(unit: u32, offset: u64, length: u64) -> bool
    ensures { result ≡ rule.is_aligned unit offset length }
{
    is_multiple(offset, unit) && is_multiple(length, unit)
}

/// Whether a range ends past this size.
fn ends_past(size: u64, offset: u64, length: u64) -> bool
    ensures { result ≡ nat_lt size (offset + length) }
{
    match offset.checked_add(length) {
        Some(end) => size < end,
        None => true,
    }
}

/// Flush has no range.
fn has_range(kind: Kind) -> bool
    ensures { result ≡ has_range kind }
{
    match kind {
        Kind::Flush => false,
        _ => true,
    }
}

fn has_context(contexts: &Contexts) -> bool
    ensures { result ≡ not (has_none contexts.now) }
{
    contexts.len() != 0
}

impl Terms {
    /// Whether the export has this transmission flag.
    fn tells(self, flag: u16) -> bool
        ensures { result ≡ has_flag flag self.flags }
    {
        has_flag(self.flags as u32, flag as u32)
    }

    /// Whether the client is strict on the rule of this bit.
    fn is_strict(self, bit: u32) -> bool
        ensures { result ≡ has_flag bit self.strict }
    {
        has_flag(self.strict, bit)
    }

    /// What is lacking unless the export has this flag.
    fn unless(self, flag: u16, lack: Lack) -> Option<Lack>
        ensures { result ≡ (if has_flag flag self.flags then None else Some lack) }
    {
        if self.tells(flag) { None } else { Some(lack) }
    }

    /// The same of a command that writes.
    fn unless_read_only(self, lack: Option<Lack>) -> Option<Lack>
        ensures { result ≡ (if has_flag flag_read_only self.flags then Some Lack.ReadOnly else lack) }
    {
        if self.tells(FLAG_READ_ONLY) {
            Some(Lack::ReadOnly)
        } else {
            lack
        }
    }

    /// What the export lacks of what the command needs.
    fn lack_of(self, kind: Kind) -> Option<Lack>
        ensures { result ≡ rule.lack_of (seen_terms self) kind }
    {
        match kind {
            Kind::Read => None,
            Kind::Write => self.unless_read_only(None),
            Kind::Flush => self.unless(FLAG_SEND_FLUSH, Lack::Flush),
            Kind::Trim => self.unless_read_only(self.unless(FLAG_SEND_TRIM, Lack::Trim)),
            Kind::Cache => self.unless(FLAG_SEND_CACHE, Lack::Cache),
            Kind::Zero => self.unless_read_only(self.unless(FLAG_SEND_WRITE_ZEROES, Lack::Zero)),
            Kind::BlockStatus => {
                if self.has_context {
                    None
                } else {
                    Some(Lack::Context)
                }
            }
        }
    }

    /// FUA, where the export takes it.
    fn fua(self) -> u32
        ensures value { result ≡ rule.flag_if (has_flag flag_send_fua self.flags) cmd_flag_fua }
        ensures small { result ≤ cmd_flag_fua }
    {
        if self.tells(FLAG_SEND_FUA) {
            CMD_FLAG_FUA as u32
        } else {
            0
        }
    }

    /// DF, where the export takes it and structured replies are on.
    fn df(self) -> u32
        ensures { result ≡ rule.flag_if (has_flag flag_send_df self.flags && self.structured) cmd_flag_df }
    {
        if self.tells(FLAG_SEND_DF) && self.structured {
            CMD_FLAG_DF as u32
        } else {
            0
        }
    }

    /// FAST_ZERO, where the export takes it.
    fn fast_zero(self) -> u32
        ensures value { result ≡ rule.flag_if (has_flag flag_send_fast_zero self.flags) cmd_flag_fast_zero }
        ensures small { result ≤ cmd_flag_fast_zero }
    {
        if self.tells(FLAG_SEND_FAST_ZERO) {
            CMD_FLAG_FAST_ZERO as u32
        } else {
            0
        }
    }

    /// The command flags that a command of this kind allows.
    fn allowed(self, kind: Kind) -> u32
        ensures { result ≡ rule.allowed (seen_terms self) kind }
    {
        match kind {
            Kind::Read => self.df(),
            Kind::Write => self.fua(),
            Kind::Flush => 0,
            Kind::Trim => self.fua(),
            Kind::Cache => 0,
            Kind::Zero => self.fua() + CMD_FLAG_NO_HOLE as u32 + self.fast_zero(),
            Kind::BlockStatus => CMD_FLAG_REQ_ONE as u32,
        }
    }

    /// Those that a command may have now.
    fn allowed_now(self, kind: Kind) -> u32
        ensures { result ≡ rule.allowed_now (seen_terms self) kind }
    {
        if self.is_strict(strict::FLAGS) {
            self.allowed(kind)
        } else {
            SENDABLE_FLAGS
        }
    }

    /// The longest range of a command of this kind.
    fn length_limit(self, kind: Kind) -> u64
        ensures { result ≡ rule.length_limit (seen_terms self) kind }
    {
        match kind {
            Kind::Read => payload_limit(self.blocks),
            Kind::Write => payload_limit(self.blocks),
            _ => range_limit(self.extended),
        }
    }

    /// Why a range is refused that does not begin or end with a block.
    fn by_blocks(self, offset: u64, length: u64) -> Option<Why>
        ensures { result ≡ rule.refuse (has_flag strict_align self.strict && not (rule.is_aligned (rule.minimum self.blocks) offset length)) (Why.Align (rule.minimum self.blocks)) None }
    {
        let unit = minimum(self.blocks);
        if self.is_strict(strict::ALIGN) && !is_aligned(unit, offset, length) {
            Some(Why::Align(unit))
        } else {
            None
        }
    }

    /// Why a command of this kind is refused by its range.
    fn by_range(self, kind: Kind, offset: u64, length: u64) -> Option<Why>
        ensures { result ≡ rule.by_range (seen_terms self) kind offset length }
    {
        if self.is_strict(strict::ZERO_SIZE) && length == 0 {
            return Some(Why::ZeroSize);
        }
        let limit = self.length_limit(kind);
        if limit < length {
            return Some(Why::TooBig(limit));
        }
        if self.is_strict(strict::BOUNDS) && ends_past(self.size, offset, length) {
            return Some(Why::Bounds(self.size));
        }
        self.by_blocks(offset, length)
    }

    /// Why it is refused by its flags or its range.
    fn by_flags(self, kind: Kind, flags: u32, offset: u64, length: u64) -> Option<Why>
        ensures { result ≡ by_flags (seen_terms self) kind flags offset length }
    {
        let bad = excess(flags, self.allowed_now(kind));
        if bad != 0 {
            return Some(Why::BadFlags(bad));
        }
        if has_range(kind) {
            self.by_range(kind, offset, length)
        } else {
            None
        }
    }

    /// Why it is refused in a state in which commands may be issued.
    fn by_rules(self, kind: Kind, flags: u32, offset: u64, length: u64) -> Option<Why>
        ensures { result ≡ by_rules (seen_terms self) kind flags offset length }
    {
        if MAX_UNRETIRED as usize <= self.held {
            return Some(Why::TooMany(MAX_UNRETIRED));
        }
        if self.is_strict(strict::COMMANDS) {
            if let Some(lack) = self.lack_of(kind) {
                return Some(Why::Unsupported(lack));
            }
        }
        self.by_flags(kind, flags, offset, length)
    }

    /// Why a command of this kind, with these flags and this range, is refused.
    pub(crate) fn refusal(self, kind: Kind, flags: u32, offset: u64, length: u64) -> Option<Why>
        ensures { result ≡ rule.refusal max_unretired (seen_terms self) kind flags offset length }
    {
        match by_state(self.state) {
            Some(why) => Some(why),
            None => self.by_rules(kind, flags, offset, length),
        }
    }
}

impl<K> Connection<K> {
    /// By what a command is judged now.
    pub(crate) fn terms(&self) -> Terms
        ensures { seen_terms result ≡ terms_now (state_of self.now) }
    {
        let (size, flags, blocks) = match self.talk.info() {
            Some(info) => (info.size, info.flags, info.blocks),
            None => (0, 0, None),
        };
        Terms {
            state: state_at(self.stage, self.talk.phase()),
            held: self.commands.held(),
            size,
            flags,
            blocks,
            has_context: has_context(self.talk.contexts()),
            structured: self.talk.structured(),
            extended: self.talk.extended(),
            strict: self.strict,
        }
    }
}
