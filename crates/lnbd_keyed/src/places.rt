//! Where a key stands, by binary search.

ghost use Rattle.std.specs.Prelude.{◌≡◌, ◌<◌, ◌≤◌, IsSome, IsNone, IfSome, IfNone, OnSome, length, None};
ghost use Rattle.lnbd_keyed.specs.Keyed.{value_at, place, rank, IsRising};

/// How many keys are below this one: the place where it stands, or where it would be put in.
///
/// A key above all others, as a new cookie is, is found at once.
pub fn rank_of<V>(rows: &[(u64, V)], key: u64) -> usize
    requires { IsRising rows.now }
    ensures rank { result ≡ rank key rows.now }
    ensures within { result ≤ length rows.now }
{
    let count = rows.len();
    if count == 0 {
        return 0;
    }
    if rows[count - 1].0 < key {
        return count;
    }
    let mut low = 0;
    let mut high = count;
    while low < high {
        let middle = low + (high - low) / 2;
        if rows[middle].0 < key {
            low = middle + 1;
        } else {
            high = middle;
        }
    }
    low
}

/// The place of a key, where it is held.
pub fn place_of<V>(rows: &[(u64, V)], key: u64) -> Option<usize>
    requires { IsRising rows.now }
    ensures place { IfSome result (λ at. at ≡ place key rows.now) }
    ensures within { IfSome result (λ at. at < length rows.now) }
    ensures held { OnSome result (IsSome (value_at key rows.now)) }
    ensures none { IfNone result (value_at key rows.now ≡ None) }
{
    let at = rank_of(rows, key);
    if at == rows.len() {
        return None;
    }
    if rows[at].0 == key { Some(at) } else { None }
}

/// The place of a key that is held.
pub fn place_in<V>(rows: &[(u64, V)], key: u64) -> usize
    requires rising { IsRising rows.now }
    requires held { IsSome (value_at key rows.now) }
    ensures place { result ≡ place key rows.now }
    ensures within { result < length rows.now }
{
    rank_of(rows, key)
}
