//! Counts of faults, of waiting and of calls: they never fall, and stand still at their type's end. How much
//! waiting is borne. And the one call that fails, by its count.

ghost use Rattle.std.specs.Prelude.{◌≡◌, ◌≤◌, ◌<◌, ◌+◌, true, false};
ghost use Rattle.lnbd_link.specs.Count.{patience, raised_by, Rises};
ghost use Rattle.lnbd_link.specs.FailAt.{is_call};

/// The count, raised by so much, or at its end.
pub fn raised(count: u64, by: u64) -> u64
    ensures value { result ≡ raised_by by count }
    ensures rises { Rises by count result }
    ensures never_falls { count ≤ result }
{
    count.saturating_add(by)
}

/// How many pauses in which nothing came are borne.
pub const PATIENCE: u64 = 1_000_000_000;

/// Whether a count rose by so much. One that stands at its end did.
pub fn rose(by: u64, before: u64, after: u64) -> bool
    ensures risen { result ≡ true → Rises by before after }
    ensures still { result ≡ false → ¬ Rises by before after }
    ensures within { result ≡ false → after < before + by }
    ensures open { result ≡ false → after < 18446744073709551615 }
{
    raised(before, by) <= after
}

/// Whether the waiting rose by as much as is borne.
pub fn is_long(start: u64, now: u64) -> bool
    ensures long { result ≡ true → Rises patience start now }
    ensures short { result ≡ false → ¬ Rises patience start now }
    ensures within { result ≡ false → now < start + patience }
    ensures open { result ≡ false → now < 18446744073709551615 }
{
    rose(PATIENCE, start, now)
}

/// Whether this call is the one that fails.
pub fn is_call(fail_at: Option<usize>, call: usize) -> bool
    ensures { result ≡ is_call fail_at call }
{
    match fail_at {
        Some(n) => n == call,
        None => false,
    }
}
