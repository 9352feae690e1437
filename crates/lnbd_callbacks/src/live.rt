//! The live callbacks of a desk, by number, and the notes that they own. Each change takes the time
//! of one look-up in an ordered map.

ghost use Rattle.std.specs.Prelude.{◌≡◌, ◌+◌, ◌≤◌, ◌<◌, ◌^◌, ◌++◌, ◌∷◌, [], true, false, OnOk, OnErr, vec_len, vec_capacity};
ghost use Rattle.lnbd_callbacks.specs.Sound.{owed_for};
ghost use Rattle.lnbd_keyed.specs.Keyed.{with_value, without, IsBelow};

use lnbd_model::{NoMemory, Note};
use std::collections::BTreeMap;

/// Each live number, with whether it is completed.
pub(crate) type Live = BTreeMap<u64, bool>;

/// Adds a number above all others.
pub(crate) fn enlist(live: &mut Live, number: u64) -> Result<(), NoMemory>
    requires { IsBelow live.old.entries number }
    ensures ok { OnOk result (live.new.entries ≡ live.old.entries ++ (number, false) ∷ []) }
    ensures err { OnErr result (live.new.entries ≡ live.old.entries) }
{
    match live.insert(number, false) {
        Ok(_) => Ok(()),
        Err(_) => Err(NoMemory),
    }
}

/// Adds a number above all others, and the next one, or neither.
pub(crate) fn enlist_two(live: &mut Live, number: u64) -> Result<(), NoMemory>
    requires above { IsBelow live.old.entries number }
    requires fits { number + 1 < 2 ^ 64 }
    ensures ok { OnOk result (live.new.entries ≡ live.old.entries ++ (number, false) ∷ [] ++ (number + 1, false) ∷ []) }
    ensures err { OnErr result (live.new.entries ≡ live.old.entries) }
{
    enlist(live, number)?;
    let Ok(()) = enlist(live, number + 1) else {
        strike(live, number);
        return Err(NoMemory);
    };
    Ok(())
}

/// Marks a number as completed.
pub(crate) fn complete_number(live: &mut Live, number: u64)
    ensures { live.new.entries ≡ with_value number true live.old.entries }
{
    if let Some(completed) = live.get_mut(&number) {
        *completed = true;
    }
}

/// Takes a number out.
pub(crate) fn strike(live: &mut Live, number: u64)
    ensures { live.new.entries ≡ without number live.old.entries }
{
    live.remove(&number);
}

/// How many notes a live callback still leaves.
pub(crate) fn owed_for(completed: bool) -> usize
    ensures { result ≡ owed_for completed }
{
    if completed { 1 } else { 2 }
}

/// Makes room for so many notes beside those that are owned and reserved.
pub(crate) fn make_room(
    notes: &mut Vec<Note>,
    owed: usize,
    room: usize,
    more: usize,
) -> Result<(), NoMemory>
    ensures items { notes.new.items ≡ notes.old.items }
    ensures len { vec_len notes.new ≡ vec_len notes.old }
    ensures kept { vec_capacity notes.old ≤ vec_capacity notes.new }
    ensures ok { OnOk result (vec_len notes.new + owed + room + more ≤ vec_capacity notes.new) }
{
    let Some(kept) = owed.checked_add(room) else {
        return Err(NoMemory);
    };
    let Some(needed) = kept.checked_add(more) else {
        return Err(NoMemory);
    };
    notes.reserve(needed)?;
    Ok(())
}
