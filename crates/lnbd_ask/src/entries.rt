//! What was told of a server's exports, which contracts see as a plain list. How it was asked is no matter here.

ghost use Rattle.std.specs.Prelude.{◌≡◌, ◌++◌, ◌∷◌, [], IfOk, OnErr, OnOk};
ghost use Rattle.std.specs.Option.{option_copied};
ghost use Rattle.lnbd_ask.specs.Lists.{told_by};

use crate::copies::copy_info;
use lnbd_history::OptAnswer;
use lnbd_info::Entry;
use lnbd_model::{ExportInfo, Listed, Listing, NoMemory};
use std::alloc::Global;
use std::marker::Model;

/// The entries of a listing, in the server's order.
#[derive(Debug, Drop)]
pub struct Entries {
    items: Vec<Entry>,
}

impl Model for Entries {
    ghost use Rattle.std.specs.Prelude.{List};
    ghost use Rattle.lnbd_info.specs.declared.told.Entry.{Entry};

    ghost Value = { List Entry };

    ghost view = { λ a. a.items.items };
}

impl Entries {
    /// No entry. It takes no memory.
    pub(crate) fn new(alloc: Global) -> Self
        ensures { result ≡ [] }
    {
        Entries {
            items: Vec::new(alloc),
        }
    }

    /// All of them, in order.
    pub fn as_slice(&self) -> &[Entry]
        ensures { result.now ≡ self.now }
    {
        &self.items
    }

    /// Adds one at the end.
    pub(crate) fn push(&mut self, item: Entry) -> Result<(), NoMemory>
        ensures ok { OnOk result (self.new ≡ self.old ++ item ∷ []) }
        ensures err { OnErr result (self.new ≡ self.old) }
    {
        self.items.push(item)?;
        Ok(())
    }
}

fn copy_listed(alloc: Global, listed: &Listed) -> Result<Listed, NoMemory>
    ensures { IfOk result (λ copy. copy ≡ listed.now) }
{
    Ok(Listed {
        name: listed.name.try_clone(alloc)?,
        description: listed.description.try_clone(alloc)?,
    })
}

/// The same list again.
pub(crate) fn copy_listing(alloc: Global, listing: &Listing) -> Result<Listing, NoMemory>
    ensures { IfOk result (λ copy. copy ≡ listing.now) }
{
    let mut copy = Listing::new(alloc);
    'exports: for listed in listing.as_slice() {
        let listed = copy_listed(alloc, listed)?;
        copy.push(listed)?;
    }
    Ok(copy)
}

/// What the last answer tells of an export of which so much is known.
fn told_by(
    alloc: Global,
    answer: Option<OptAnswer>,
    info: Option<&ExportInfo>,
) -> Result<Result<ExportInfo, u32>, NoMemory>
    ensures { IfOk result (λ told. told ≡ told_by answer (option_copied info.entry)) }
{
    match (answer, info) {
        (Some(OptAnswer::Refused { code, .. }), _) => Ok(Err(code)),
        (Some(OptAnswer::Ok), Some(info)) => Ok(Ok(copy_info(alloc, info)?)),
        (_, _) => Ok(Err(0)),
    }
}

/// The entry of a listed export, by the last answer and what is known of it.
pub(crate) fn entry_of(
    alloc: Global,
    listed: &Listed,
    answer: Option<OptAnswer>,
    info: Option<&ExportInfo>,
) -> Result<Entry, NoMemory>
    ensures { IfOk result (λ entry. entry ≡ record { listed = listed.now; told = told_by answer (option_copied info.entry) }) }
{
    Ok(Entry {
        listed: copy_listed(alloc, listed)?,
        told: told_by(alloc, answer, info)?,
    })
}
