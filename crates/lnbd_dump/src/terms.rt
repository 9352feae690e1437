//! What is known of the export once negotiation came to a stand, and what is asked of it then.

ghost use Rattle.std.specs.Prelude.{◌≡◌, ◌≤◌, ◌<◌, ◌+◌, [], IfOk, length, if◌then◌else◌};
ghost use Rattle.std.specs.Option.{option_copied};
ghost use Rattle.lnbd_history.specs.Refusals.{payload_limit};
ghost use Rattle.lnbd_poll.specs.Seen.{Seen};
ghost use Rattle.lnbd_waits.specs.Waits.{Holds};
ghost use Rattle.lnbd_ask.specs.Maps.{least_block, size_end};
ghost use Rattle.lnbd_dump.specs.Conduct.{is_agreed, whole_blocks, max_piece};
ghost use Rattle.lnbd_dump.specs.Terms.{AreTerms, BeginsWith, IsKnown, IsKnownAt, IsSpan};
ghost use Rattle.lnbd_dump.specs.Showing.{HasNoCause};
ghost use Rattle.lnbd_dump.specs.Stops.{IsPlain};
ghost use Rattle.lnbd_dump.specs.declared.reader.Reader.{Reader as Calls};
ghost use Rattle.lnbd_records.specs.Limits.{max_minimum_block};

use crate::asking::Plan;
use crate::reader::{Reader, is_allocation};
use crate::stop::Stop;
use lnbd_ask::{SIZE_END, least_block};
use lnbd_model::{Blocks, Breach, Context, ExportInfo, State};
use lnbd_poll::Handles;
use lnbd_reel::{Misfit, Run, Runs, Span, span_of};
use lnbd_waits::Halt;
use std::alloc::Global;

/// The most bytes of one read.
const MAX_PIECE: u64 = 262_144;

/// The most bytes of a read of an export that tells no largest block.
const MAX_DATA: u32 = 33_554_432;

/// The most bytes of a read of an export of which this was told.
fn limit_of(told: Option<Blocks>) -> u64
    ensures { result ≡ payload_limit told }
{
    match told {
        Some(blocks) => {
            if MAX_DATA <= blocks.maximum {
                MAX_DATA as u64
            } else {
                blocks.maximum as u64
            }
        }
        None => MAX_DATA as u64,
    }
}

/// Whole blocks of so many bytes, but one at least.
fn whole_blocks(block: u64, size: u64) -> u64
    requires { (0 < block) × (block ≤ max_minimum_block) }
    ensures value { result ≡ whole_blocks block size }
    ensures some { 0 < result }
    ensures most { size ≤ max_piece → result ≤ max_piece }
{
    if size < block {
        return block;
    }
    size - size % block
}

/// Whether base:allocation is agreed.
fn is_agreed(contexts: &[Context]) -> bool
    ensures { result ≡ is_agreed contexts.now }
{
    'contexts: for context in contexts {
        if is_allocation(context.name.as_bytes()) {
            return true;
        }
    }
    false
}

/// What is known of an export.
#[derive(Clone, Copy, Debug, PartialEq, Eq)]
pub(crate) struct Terms {
    /// Its size.
    pub(crate) size: u64,
    /// Its least block.
    pub(crate) block: u64,
    /// The most bytes that are read of it at once.
    pub(crate) piece: u64,
    /// Whether base:allocation is agreed.
    pub(crate) agreed: bool,
}

fn terms_of(info: &ExportInfo) -> Terms
    ensures terms { AreTerms info.now result }
    ensures block { (0 < result.block) × (result.block ≤ max_minimum_block) }
    ensures piece { (0 < result.piece) × (result.piece ≤ max_piece) }
{
    let block = least_block(info.blocks);
    Terms {
        size: info.size,
        block,
        piece: whole_blocks(block, limit_of(info.blocks).min(MAX_PIECE)),
        agreed: is_agreed(info.contexts.as_slice()),
    }
}

/// What waits for the link in this direction: nothing is to be written.
const READING: u32 = 1;

/// What is known of the export of which this was told, where the handle is in this state and waits in this direction.
fn known_at(at: State, direction: u32, info: Option<&ExportInfo>) -> Result<Terms, Stop>
    ensures known { IsKnownAt at direction (option_copied info.entry) result }
    ensures block { IfOk result (λ terms. (0 < terms.block) × (terms.block ≤ max_minimum_block)) }
    ensures piece { IfOk result (λ terms. (0 < terms.piece) × (terms.piece ≤ max_piece)) }
    ensures size { IfOk result (λ terms. terms.size < size_end) }
    ensures plain { IsPlain result }
{
    match at {
        State::Dead(death) => Err(Stop::Died(death)),
        State::Ready => match info {
            Some(info) => {
                if direction != READING {
                    return Err(Stop::Halted(Halt::NoMemory));
                }
                if SIZE_END <= info.size {
                    return Err(Stop::Broke(Breach::SizeTooBig));
                }
                Ok(terms_of(info))
            }
            None => Err(Stop::Broke(Breach::NoExportInfo)),
        },
        _ => Err(Stop::Halted(Halt::NoMemory)),
    }
}

/// The same, of the one handle that is held.
pub(crate) fn known(handles: &Handles<Reader>) -> Result<Terms, Stop>
    requires { length handles.now ≡ 1 }
    ensures known { (seen : Seen Calls) → Holds handles.now seen → IsKnown result seen.history }
    ensures block { IfOk result (λ terms. (0 < terms.block) × (terms.block ≤ max_minimum_block)) }
    ensures piece { IfOk result (λ terms. (0 < terms.piece) × (terms.piece ≤ max_piece)) }
    ensures size { IfOk result (λ terms. terms.size < size_end) }
    ensures plain { IsPlain result }
{
    let handle = handles.get(0);
    known_at(handle.state(), handle.direction(), handle.info())
}

/// The blocks that have the range, or why there are none.
pub(crate) fn judge(terms: Terms, offset: u64, length: Option<u64>) -> Result<Span, Stop>
    requires block { (0 < terms.block) × (terms.block ≤ max_minimum_block) }
    requires size { terms.size < size_end }
    ensures judges { IsSpan terms offset length result }
    ensures plain { IsPlain result }
{
    match span_of(offset, length, terms.size, terms.block) {
        Ok(span) => Ok(span),
        Err(Misfit::Range) => Err(Stop::Range { size: terms.size }),
        Err(Misfit::Uneven) => Err(Stop::Uneven {
            size: terms.size,
            block: terms.block as u32,
        }),
    }
}

/// What is to be asked of these blocks: nothing is known of them yet, or all is to be read where no status can be asked.
pub(crate) fn plan_of(terms: Terms, span: Span) -> Plan
    ensures { result ≡ record { at = span.first; known = (if terms.agreed then span.first else span.last); end = span.last; block = terms.block; piece = terms.piece; agreed = terms.agreed } }
{
    let known = if terms.agreed { span.first } else { span.last };
    Plan {
        at: span.first,
        known,
        end: span.last,
        block: terms.block,
        piece: terms.piece,
        agreed: terms.agreed,
    }
}

/// What is to be begun of them first.
pub(crate) fn runs_of(alloc: Global, plan: Plan) -> Result<Runs, Stop>
    requires { plan.at ≤ plan.known }
    ensures begins { IfOk result (λ runs. BeginsWith plan runs) }
    ensures stops { HasNoCause result }
    ensures plain { IsPlain result }
{
    let mut runs = Runs::new(alloc);
    if plan.at == plan.known {
        return Ok(runs);
    }
    match runs.push(Run {
        end: plan.known,
        zero: false,
    }) {
        Ok(()) => Ok(runs),
        Err(_) => Err(Stop::Halted(Halt::NoMemory)),
    }
}
