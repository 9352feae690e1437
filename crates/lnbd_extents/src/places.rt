//! Where positions lie among ranges that rise. Nothing is changed here.

ghost use Rattle.std.specs.Prelude.{◌≡◌, ℕ, ◌+◌, ◌-◌, ◌<◌, ◌≤◌, ◌^◌, length, get_or};
ghost use Rattle.lnbd_extents.specs.Ranges.{IsFrom};
ghost use Rattle.lnbd_extents.specs.Spots.{meets, covers, place, IsSpot, IsNext, IsPrevious};

/// Where positions are to be put.
#[derive(Clone, Copy, Debug, PartialEq, Eq)]
pub(crate) enum Spot {
    Overlap,
    Apart(usize),
    Before(usize),
    After(usize),
    Between(usize),
}

/// How positions lie to a range beside them.
#[derive(Clone, Copy, Debug, PartialEq, Eq)]
pub(crate) enum Side {
    Apart,
    Joins,
    Meets,
}

/// How many ranges start at this position or before it.
pub(crate) fn place_of(ranges: &[(u64, u64)], start: u64) -> usize
    requires { IsFrom 0 ranges.now }
    ensures place { result ≡ place start ranges.now }
    ensures within { result ≤ length ranges.now }
{
    let count = ranges.len();
    if count == 0 {
        return 0;
    }
    if ranges[count - 1].0 <= start {
        return count;
    }
    let mut low = 0;
    let mut high = count;
    while low < high {
        let middle = low + (high - low) / 2;
        if ranges[middle].0 <= start {
            low = middle + 1;
        } else {
            high = middle;
        }
    }
    low
}

/// How positions that end here lie to the range at this place.
fn next_side(ranges: &[(u64, u64)], at: usize, end: u64) -> Side
    requires { at ≤ length ranges.now }
    ensures { IsNext ranges.now at end result }
{
    if at == ranges.len() {
        return Side::Apart;
    }
    if end < ranges[at].0 {
        return Side::Apart;
    }
    if ranges[at].0 == end {
        Side::Joins
    } else {
        Side::Meets
    }
}

/// How positions that start here lie to the range in front of this place.
fn previous_side(ranges: &[(u64, u64)], at: usize, start: u64) -> Side
    requires within { at ≤ length ranges.now }
    requires started { 0 < at → (get_or ranges.now (at - 1) (0, 0)).0 ≤ start }
    ensures { IsPrevious ranges.now at start result }
{
    if at == 0 {
        return Side::Apart;
    }
    let reach = start - ranges[at - 1].0;
    if reach > ranges[at - 1].1 {
        return Side::Apart;
    }
    if reach == ranges[at - 1].1 {
        Side::Joins
    } else {
        Side::Meets
    }
}

/// Where these positions go among the ranges.
pub(crate) fn spot_of(ranges: &[(u64, u64)], start: u64, length: u64) -> Spot
    requires from { IsFrom 0 ranges.now }
    requires some { 0 < length }
    requires room { start + length < 2 ^ 64 }
    ensures { IsSpot ranges.now start length result }
{
    let at = place_of(ranges, start);
    let next = next_side(ranges, at, start + length);
    let previous = previous_side(ranges, at, start);
    match previous {
        Side::Meets => Spot::Overlap,
        Side::Joins => match next {
            Side::Meets => Spot::Overlap,
            Side::Joins => Spot::Between(at - 1),
            Side::Apart => Spot::After(at - 1),
        },
        Side::Apart => match next {
            Side::Meets => Spot::Overlap,
            Side::Joins => Spot::Before(at),
            Side::Apart => Spot::Apart(at),
        },
    }
}

/// Whether one of the ranges has all these positions.
pub(crate) fn has_all(ranges: &[(u64, u64)], start: u64, length: u64) -> bool
    requires longest { IsFrom 0 ranges.now }
    requires some { 0 < length }
    ensures { result ≡ covers start length ranges.now }
{
    let at = place_of(ranges, start);
    if at == 0 {
        return false;
    }
    let (first, count) = ranges[at - 1];
    let reach = start.saturating_sub(first);
    reach <= count && length <= count - reach
}

/// Whether some of these positions is held.
pub(crate) fn has_some(ranges: &[(u64, u64)], start: u64, length: u64) -> bool
    requires longest { IsFrom 0 ranges.now }
    requires some { 0 < length }
    requires room { start + length < 2 ^ 64 }
    ensures { result ≡ meets start length ranges.now }
{
    match spot_of(ranges, start, length) {
        Spot::Overlap => true,
        Spot::Apart(_) => false,
        Spot::Before(_) => false,
        Spot::After(_) => false,
        Spot::Between(_) => false,
    }
}
