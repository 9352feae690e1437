//! What both sides of a copy and its options settle before a slice begins: the rules between the sides, and the sizes by
//! which slices are cut.

ghost use Rattle.std.specs.Prelude.{◌≡◌, ◌<◌, ◌≤◌, ◌*◌, ◌/◌, false, Some, None, min};
ghost use Rattle.lnbd_records.specs.Limits.{max_data, max_minimum_block};
ghost use Rattle.lnbd_records.specs.Numbers.{has_bit};
ghost use Rattle.lnbd_copy.specs.Agreed.{IsWished};
ghost use Rattle.lnbd_conduct.specs.Terms.{IsLimited, max_under_way, broken_rule, connections, greatest_power, least_block, max_exponent, most_bytes, sparse_block};
ghost use Rattle.lnbd_conduct.specs.Settled.{AreSettledBy};
ghost use Rattle.lnbd_copy.specs.Terms.{IsGreatestPower};

use lnbd_board::How;
use lnbd_conduct::{Sides, Terms};
use lnbd_model::{Blocks, ExportInfo};
use lnbd_plan::{CopyOptions, Rule};
use lnbd_records::names::{
    FLAG_CAN_MULTI_CONN, FLAG_READ_ONLY, FLAG_SEND_FLUSH, FLAG_SEND_WRITE_ZEROES, MAX_DATA,
    MAX_MINIMUM_BLOCK,
};

/// How a copy writes while nothing is known of the destination.
pub const UNKNOWN: How = How {
    block: 0,
    skip: false,
    zeroes: false,
    allocated: false,
};

/// The most bytes of a request that zeroes.
pub(crate) const MAX_ZEROES: u64 = 134_217_728;

/// The most bytes of data slices that are begun and not over.
const MAX_UNDER_WAY: u64 = 1_073_741_824;

/// Whether a flag is told.
fn has(info: &ExportInfo, flag: u16) -> bool
    ensures { result ≡ has_bit flag info.now.flags }
{
    info.flags & flag != 0
}

/// The block of which all offsets and lengths are multiples.
fn least_block(told: Option<Blocks>) -> u32
    ensures value { result ≡ least_block told }
    ensures some { 0 < result }
    ensures most { result ≤ max_minimum_block }
{
    match told {
        Some(blocks) => {
            if 0 < blocks.minimum && blocks.minimum <= MAX_MINIMUM_BLOCK {
                blocks.minimum
            } else {
                1
            }
        }
        None => 1,
    }
}

/// The most bytes of a read or a write.
fn most_bytes(told: Option<Blocks>) -> u32
    ensures value { result ≡ most_bytes told }
    ensures most { result ≤ max_data }
{
    match told {
        Some(blocks) => blocks.maximum.min(MAX_DATA),
        None => MAX_DATA,
    }
}

/// The first rule between the sides that does not hold, if one doesn't.
pub fn broken_rule(source: &ExportInfo, destination: &ExportInfo) -> Option<Rule>
    ensures { result ≡ broken_rule source.now destination.now }
{
    let minimum = least_block(source.blocks).max(least_block(destination.blocks));
    let maximum = most_bytes(source.blocks).min(most_bytes(destination.blocks));
    if destination.flags & FLAG_READ_ONLY != 0 {
        return Some(Rule::ReadOnly);
    }
    if destination.size < source.size {
        return Some(Rule::Smaller {
            source: source.size,
            destination: destination.size,
        });
    }
    if source.size % minimum as u64 != 0 {
        return Some(Rule::Uneven {
            length: source.size,
            block: minimum,
        });
    }
    if maximum < minimum {
        return Some(Rule::Unfit { minimum, maximum });
    }
    None
}

/// The greatest power of two that is no larger than this; 1 where none is.
fn greatest_power(most: u32) -> u32
    requires { most ≤ max_data }
    ensures value { result ≡ greatest_power max_exponent most }
    ensures some { 0 < result }
    ensures greatest { 0 < most → IsGreatestPower most result }
{
    let mut power: u32 = 1;
    'powers: for exponent in 0..25u32 {
        let next: u32 = 2 << exponent;
        if next <= most {
            power = next;
        }
    }
    power
}

/// How many connections a side has.
fn connections(info: &ExportInfo, options: CopyOptions) -> u32
    ensures value { result ≡ connections options info.now }
    ensures some { 0 < result }
{
    if has(info, FLAG_CAN_MULTI_CONN) {
        return options.connections.max(1);
    }
    1
}

/// How many slices may be begun and not over.
fn most_begun(options: CopyOptions, sides: Sides, cell: u32) -> u64
    requires { 0 < cell }
    ensures { result ≡ min (options.requests * min sides.source sides.destination) (max_under_way / cell) }
{
    let fewer = sides.source.min(sides.destination) as u64;
    let requests = (options.requests as u64).saturating_mul(fewer);
    requests.min(MAX_UNDER_WAY / cell as u64)
}

/// The size of blocks that are looked at for zeros, in bytes; 0 where none are.
fn sparse_block(options: CopyOptions, destination: &ExportInfo, cell: u32) -> u32
    ensures { result ≡ sparse_block options destination.now cell }
{
    let block = options.sparse.max(least_block(destination.blocks));
    if options.sparse == 0 || cell < block {
        return 0;
    }
    block
}

/// What is settled, where the rules hold.
pub fn settled(options: CopyOptions, source: &ExportInfo, destination: &ExportInfo) -> Terms
    ensures cells { (0 < result.cell) × (0 < result.zero_cell) × (0 < result.grain) }
    ensures settles { AreSettledBy options source.now destination.now result }
    ensures size { result.size ≡ source.now.size }
    ensures wished { IsWished options result }
    ensures limited { IsLimited options result }
    ensures some { 0 < result.sides.source }
{
    let grain = least_block(source.blocks).max(least_block(destination.blocks));
    let most = most_bytes(source.blocks).min(most_bytes(destination.blocks));
    let cell = greatest_power(options.request_size.min(most)).max(grain);
    let sides = Sides {
        source: connections(source, options),
        destination: connections(destination, options),
    };
    let zeroes = has(destination, FLAG_SEND_WRITE_ZEROES);
    Terms {
        size: source.size,
        grain,
        cell,
        zero_cell: if zeroes { MAX_ZEROES } else { cell as u64 },
        how: How {
            block: sparse_block(options, destination, cell),
            skip: options.destination_is_zero,
            zeroes,
            allocated: options.allocated,
        },
        sides,
        limit: most_begun(options, sides, cell),
        flush: options.flush && has(destination, FLAG_SEND_FLUSH),
    }
}
