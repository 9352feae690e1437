//! What was told of one export, and of each export of a list. How it was asked is not known here.

ghost use Rattle.std.specs.Prelude.{◌≡◌, [], IfOk, unwrap_or};
ghost use Rattle.std.specs.Option.{option_copied};
ghost use Rattle.lnbd_info.specs.Listing.{description_of, entry_of, first_told, shown_contexts};

use lnbd_model::{Context, ExportInfo, Listed, NoMemory, Place, Text};
use std::alloc::Global;

/// An export that was asked for by its address, and what its server told of it.
#[derive(Debug, Drop)]
pub struct Found {
    pub info: ExportInfo,
    /// Where it was asked for.
    pub place: Place,
}

/// One export of a listing: its name and description as the server listed them, and what the server
/// told of it when it was asked for by this name.
#[derive(Debug, Drop)]
pub struct Entry {
    pub listed: Listed,
    /// The code of the error reply (its type without bit 31), where the server refused to tell of it.
    pub told: Result<ExportInfo, u32>,
}

impl Entry {
    /// The one entry of a plain listing: the address's name, and the told description or an empty one.
    pub fn of_found(alloc: Global, found: Found) -> Result<Entry, NoMemory>
        ensures { IfOk result (λ entry. entry ≡ entry_of found) }
    {
        let Found { info, place } = found;
        let description = told_description(alloc, &info)?;
        Ok(Entry {
            listed: Listed {
                name: place.name,
                description,
            },
            told: Ok(info),
        })
    }
}

/// The told description again, or an empty one.
fn told_description(alloc: Global, info: &ExportInfo) -> Result<Text, NoMemory>
    ensures { IfOk result (λ text. text ≡ unwrap_or info.now.description []) }
{
    match &info.description {
        Some(text) => text.try_clone(alloc),
        None => Ok(Text::empty(alloc)),
    }
}

/// What was told of the first export that was not refused.
pub(crate) fn first_told(entries: &[Entry]) -> Option<&ExportInfo>
    ensures { option_copied result ≡ first_told entries.now }
{
    'entries: for entry in entries {
        if let Ok(info) = &entry.told {
            return Some(info);
        }
    }
    None
}

/// The listed description, and the told one where that is empty.
pub(crate) fn description_of<'a>(listed: &'a Listed, info: &'a ExportInfo) -> &'a str
    ensures { result.now ≡ description_of listed.entry.now info.entry.now }
{
    let listed = listed.description.as_str();
    if !listed.is_empty() {
        return listed;
    }
    match &info.description {
        Some(text) => text.as_str(),
        None => "",
    }
}

/// The agreed contexts, which a plain listing alone shows.
pub(crate) fn shown_contexts(info: &ExportInfo, contexts: bool) -> &[Context]
    ensures { result.now ≡ shown_contexts contexts info.now }
{
    if contexts {
        info.contexts.as_slice()
    } else {
        &[]
    }
}
