//! The grammar of a chunk's front: its form, how long it may be, which commands it may be for, and the breach that its head and the first
//! bytes behind it show. What was told before is not known here.

ghost use Rattle.std.specs.Prelude.{◌≡◌, Some, None, true};
ghost use Rattle.lnbd_chunks.specs.Chunk.{form_of, is_error, fits_length, fits_command, may_come, lies_within, fits_message, shows_data, shows_hole, shows_extended_status, shows_error, shows_payload};
ghost use Rattle.lnbd_records.specs.Flags.{reply_flag_done};
ghost use Rattle.lnbd_records.specs.Numbers.{has_bit};
ghost use Rattle.lnbd_chunks.specs.Laws.{breach_in, breach_of};
ghost use Rattle.lnbd_structured.specs.Assembly.{head_of};
ghost use Rattle.lnbd_structured.specs.Waiting.{seen_waiting};

use lnbd_chunks::Form;
use lnbd_model::{Breach, Kind};
use lnbd_records::names::{
    FIRST_REPLY_TYPE_ERROR, MAX_DATA, MAX_DESCRIPTORS, MAX_FAULTS, MAX_OTHER_ERROR, MAX_TEXT,
    REPLY_FLAG_DONE, REPLY_TYPE_BLOCK_STATUS, REPLY_TYPE_BLOCK_STATUS_EXT, REPLY_TYPE_ERROR,
    REPLY_TYPE_ERROR_OFFSET, REPLY_TYPE_NONE, REPLY_TYPE_OFFSET_DATA, REPLY_TYPE_OFFSET_HOLE,
};
use lnbd_records::{u16_at, u32_at, u64_at};
use lnbd_wire::ExtHead;

/// What is known of a command in flight: by this its replies are judged.
#[derive(Clone, Copy, Debug, PartialEq, Eq)]
pub struct Waiting {
    pub kind: Kind,
    /// In bytes, and so the length.
    pub offset: u64,
    pub length: u64,
    /// How many of its chunks so far were errors or had a content fault.
    pub faults: u32,
}

/// Whether a chunk with these flags is the last of its command (NBD protocol, "Structured reply flags").
pub fn is_done(flags: u16) -> bool
    ensures { result ≡ has_bit reply_flag_done flags }
{
    flags & REPLY_FLAG_DONE != 0
}

/// The form of a chunk of this type, with extended headers or without (NBD protocol, "Structured reply types").
pub fn form_of(extended: bool, kind: u16) -> Form
    ensures { result ≡ form_of extended kind }
{
    if kind == REPLY_TYPE_NONE {
        Form::Empty
    } else if kind == REPLY_TYPE_OFFSET_DATA {
        Form::Data
    } else if kind == REPLY_TYPE_OFFSET_HOLE {
        Form::Hole
    } else if kind == REPLY_TYPE_BLOCK_STATUS {
        if extended {
            Form::Unknown
        } else {
            Form::Status
        }
    } else if kind == REPLY_TYPE_BLOCK_STATUS_EXT {
        if extended {
            Form::ExtendedStatus
        } else {
            Form::Unknown
        }
    } else if kind == REPLY_TYPE_ERROR {
        Form::Error
    } else if kind == REPLY_TYPE_ERROR_OFFSET {
        Form::ErrorAt
    } else if kind >= FIRST_REPLY_TYPE_ERROR {
        Form::OtherError
    } else {
        Form::Unknown
    }
}

fn is_error(form: Form) -> bool
    ensures { result ≡ is_error form }
{
    match form {
        Form::Error => true,
        Form::ErrorAt => true,
        Form::OtherError => true,
        Form::Empty => false,
        Form::Data => false,
        Form::Hole => false,
        Form::Status => false,
        Form::ExtendedStatus => false,
        Form::Unknown => false,
    }
}

/// Whether a payload of this form may have n bytes (NBD protocol, "Structured reply types"; this client takes at most 32 MiB of data, 1,048,576
/// descriptors, messages of 4,096 bytes and 65,536 bytes of an error of another type). A type that isn't lawful has no length to be judged.
pub fn fits_length(form: Form, n: u64) -> bool
    ensures { result ≡ fits_length form n }
{
    match form {
        Form::Empty => n == 0,
        Form::Data => 9 <= n && n <= 8 + MAX_DATA as u64,
        Form::Hole => n == 12,
        Form::Status => 12 <= n && n <= 4 + 8 * MAX_DESCRIPTORS && n % 8 == 4,
        Form::ExtendedStatus => 24 <= n && n <= 8 + 16 * MAX_DESCRIPTORS && n % 16 == 8,
        Form::Error => 6 <= n && n <= 6 + MAX_TEXT,
        Form::ErrorAt => 14 <= n && n <= 14 + MAX_TEXT,
        Form::OtherError => 6 <= n && n <= MAX_OTHER_ERROR,
        Form::Unknown => true,
    }
}

/// Whether a chunk of this form may be for a command of this kind (NBD protocol, "Structured reply types"): content for reads, the status of
/// extents for block status, errors for all. One without payload is the last.
pub fn fits_command(form: Form, done: bool, kind: Kind) -> bool
    ensures { result ≡ fits_command form done kind }
{
    match form {
        Form::Empty => done,
        Form::Data => kind == Kind::Read,
        Form::Hole => kind == Kind::Read,
        Form::Status => kind == Kind::BlockStatus,
        Form::ExtendedStatus => kind == Kind::BlockStatus,
        Form::Error => true,
        Form::ErrorAt => true,
        Form::OtherError => true,
        Form::Unknown => false,
    }
}

/// Whether a chunk of this form may come after so many chunks of its command that were errors or had a content fault: after 1,024 of them
/// only the last, if it is no error.
pub fn may_come(faults: u64, form: Form, done: bool) -> bool
    ensures { result ≡ may_come faults form done }
{
    faults < MAX_FAULTS || (done && !is_error(form))
}

/// Whether a message of so many bytes fits an error whose payload has n bytes (NBD protocol, "Structured reply types"): it ends the payload or
/// stands before an offset, and of another type it lies within the payload.
pub fn fits_message(form: Form, n: u64, message: u16) -> bool
    ensures { result ≡ fits_message form n message }
{
    let message = u64::from(message);
    match form {
        Form::Error => n == 6 + message,
        Form::ErrorAt => n == 14 + message,
        _ => message <= MAX_TEXT && 6 + message <= n,
    }
}

impl Waiting {
    /// Whether so many bytes from this place of the export on lie within what the command asked for.
    pub fn lies_within(&self, offset: u64, size: u64) -> bool
        ensures { result ≡ lies_within (seen_waiting self.now) offset size }
    {
        if offset < self.offset {
            return false;
        }
        let skipped = offset - self.offset;
        skipped <= self.length && size <= self.length - skipped
    }
}

/// The breach of a place whose data have n bytes less its own.
#[tactic(auto, unfolding(lnbd_chunks::specs::Chunk::shows_data, lnbd_stream::specs::Grammar::once, lnbd_stream::specs::Grammar::wants))]
fn data_breach(waiting: &Waiting, n: u64, fixed: &[u8]) -> Option<Breach>
    ensures { result ≡ breach_in (shows_data (λ breach. Some breach) (λ content. None) (seen_waiting waiting.now) n fixed.now) }
{
    if fixed.len() < 8 {
        return None;
    }
    if !waiting.lies_within(u64_at(fixed, 0), n.saturating_sub(8)) {
        return Some(Breach::OutOfRange);
    }
    None
}

/// The breach of zeros: their place is judged first.
#[tactic(auto, unfolding(lnbd_chunks::specs::Chunk::shows_hole, lnbd_stream::specs::Grammar::once, lnbd_stream::specs::Grammar::wants))]
fn hole_breach(waiting: &Waiting, fixed: &[u8]) -> Option<Breach>
    ensures { result ≡ breach_in (shows_hole (λ breach. Some breach) (λ content. None) (seen_waiting waiting.now) fixed.now) }
{
    if fixed.len() < 8 {
        return None;
    }
    let offset = u64_at(fixed, 0);
    if !waiting.lies_within(offset, 0) {
        return Some(Breach::OutOfRange);
    }
    if fixed.len() < 12 {
        return None;
    }
    if !waiting.lies_within(offset, u64::from(u32_at(fixed, 8))) {
        return Some(Breach::OutOfRange);
    }
    None
}

/// The breach of a count of descriptors.
#[tactic(auto, unfolding(lnbd_chunks::specs::Chunk::shows_extended_status, lnbd_stream::specs::Grammar::once, lnbd_stream::specs::Grammar::wants))]
fn count_breach(n: u64, fixed: &[u8]) -> Option<Breach>
    ensures { result ≡ breach_in (shows_extended_status (λ breach. Some breach) (λ content. None) n fixed.now) }
{
    if fixed.len() < 8 {
        return None;
    }
    if 8 + 16 * u64::from(u32_at(fixed, 4)) != n {
        return Some(Breach::BadChunkLength);
    }
    None
}

/// The breach of an error's front: the length of its message is judged first.
#[tactic(auto, unfolding(lnbd_chunks::specs::Chunk::shows_error, lnbd_stream::specs::Grammar::once, lnbd_stream::specs::Grammar::wants))]
fn error_breach(form: Form, n: u64, fixed: &[u8]) -> Option<Breach>
    ensures { result ≡ breach_in (shows_error (λ breach. Some breach) (λ content. None) form n fixed.now) }
{
    if fixed.len() < 6 {
        return None;
    }
    if !fits_message(form, n, u16_at(fixed, 4)) {
        return Some(Breach::BadChunkLength);
    }
    if u32_at(fixed, 0) == 0 {
        return Some(Breach::ZeroError);
    }
    None
}

/// The breach that a payload of n bytes shows by its first ones.
#[tactic(auto, unfolding(lnbd_chunks::specs::Chunk::shows_status, lnbd_stream::specs::Grammar::once))]
fn payload_breach(waiting: &Waiting, form: Form, n: u64, fixed: &[u8]) -> Option<Breach>
    ensures { result ≡ breach_in (shows_payload (λ breach. Some breach) (λ content. None) form (seen_waiting waiting.now) n fixed.now) }
{
    match form {
        Form::Empty => None,
        Form::Data => data_breach(waiting, n, fixed),
        Form::Hole => hole_breach(waiting, fixed),
        Form::Status => None,
        Form::ExtendedStatus => count_breach(n, fixed),
        Form::Error => error_breach(Form::Error, n, fixed),
        Form::ErrorAt => error_breach(Form::ErrorAt, n, fixed),
        Form::OtherError => error_breach(Form::OtherError, n, fixed),
        Form::Unknown => Some(Breach::BadChunkType),
    }
}

/// The breach that a chunk of this command shows by its head and the bytes behind it, of which the first twelve show all. A head without
/// extended headers is handed in with offset 0 (NBD protocol, "Structured reply chunk message" and "Extended reply chunk message").
#[tactic(auto, unfolding(lnbd_chunks::specs::Chunk::shows_chunk, lnbd_stream::specs::Grammar::wants))]
pub fn breach_shown(
    waiting: &Waiting,
    extended: bool,
    head: &ExtHead,
    fixed: &[u8],
) -> Option<Breach>
    ensures { result ≡ breach_of extended (seen_waiting waiting.now) (head_of head.now) fixed.now }
{
    let form = form_of(extended, head.kind);
    let done = is_done(head.flags);
    if !fits_length(form, head.length) {
        return Some(Breach::BadChunkLength);
    }
    if !fits_command(form, done, waiting.kind) {
        return Some(Breach::BadChunkType);
    }
    if !may_come(u64::from(waiting.faults), form, done) {
        return Some(Breach::TooManyErrors);
    }
    payload_breach(waiting, form, head.length, fixed)
}
