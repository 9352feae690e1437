//! Putting the members of an object, by their keys.

ghost use Rattle.std.specs.Prelude.{◌≡◌, OnOk};
ghost use Rattle.serde_json.specs.Data.{put as with_member, string};
ghost use Rattle.serde_json.specs.View.{members_view};

use serde_json::{Map, Value, put};
use std::alloc::{AllocError, Global};

/// The members of an object, by their keys.
pub(crate) type Members = Map<String, Value>;

/// Puts a text at a key.
pub(crate) fn put_text(
    alloc: Global,
    members: &mut Members,
    key: &str,
    text: &str,
) -> Result<(), AllocError>
    ensures { OnOk result (members_view members.new.entries
        ≡ with_member key.now (string text.now) (members_view members.old.entries)) }
{
    let value = Value::try_from_str(alloc, text)?;
    put(members, alloc, key, value)
}
