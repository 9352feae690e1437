//! Acts on the one handle that is held in opt mode. Where its state does not allow one, it is left out. No turn is taken here.

ghost use Rattle.std.specs.Prelude.{◌≡◌, OnErr, length, Err};
ghost use Rattle.lnbd_poll.specs.Seen.{Seen};
ghost use Rattle.lnbd_records.specs.Options.{opt_info, opt_list};
ghost use Rattle.lnbd_history.specs.Answers.{listed_after};
ghost use Rattle.lnbd_ask.specs.Lists.{aborting, asking, entry_after, naming, short_of};
ghost use Rattle.lnbd_ask.specs.Parts.{ActsOn, no_value};
ghost use Rattle.lnbd_waits.specs.Waits.{Holds};

use crate::entries::{copy_listing, entry_of};
use lnbd_handle::OptFault;
use lnbd_info::Entry;
use lnbd_model::{Listed, Listing, NoMemory, Text};
use lnbd_poll::Handles;
use lnbd_waits::Halt;
use std::alloc::Global;

/// What breaks off where an option was not asked: want of memory.
fn short_of(asked: Result<(), OptFault>) -> Result<(), Halt>
    ensures { result ≡ short_of asked }
{
    match asked {
        Err(OptFault::NoMemory) => Err(Halt::NoMemory),
        _ => Ok(()),
    }
}

/// Asks which exports the server has.
pub(crate) fn ask_list<K>(handles: &mut Handles<K>) -> Result<(), Halt>
    requires { length handles.old ≡ 1 }
    ensures { ActsOn (asking opt_list) no_value result handles.old handles.new }
{
    short_of(handles.get_mut(0).opt_list())
}

/// Asks what the export is whose name is set.
pub(crate) fn ask_info<K>(handles: &mut Handles<K>) -> Result<(), Halt>
    requires { length handles.old ≡ 1 }
    ensures { ActsOn (asking opt_info) no_value result handles.old handles.new }
{
    short_of(handles.get_mut(0).opt_info())
}

/// Sets the export's name.
fn set_name<K>(handles: &mut Handles<K>, name: Text)
    requires { length handles.old ≡ 1 }
    ensures { (seen : Seen K) → Holds handles.old seen → Holds handles.new (naming name seen) }
{
    let _ = handles.get_mut(0).set_export_name(name);
}

/// Names the export that is asked for.
pub(crate) fn name_export<K>(
    alloc: Global,
    handles: &mut Handles<K>,
    listed: &Listed,
) -> Result<(), Halt>
    requires { length handles.old ≡ 1 }
    ensures { ActsOn (naming listed.now.name) no_value result handles.old handles.new }
{
    match listed.name.try_clone(alloc) {
        Ok(name) => {
            set_name(handles, name);
            Ok(())
        }
        Err(_) => Err(Halt::NoMemory),
    }
}

/// Gives negotiation up.
pub(crate) fn abort<K>(handles: &mut Handles<K>)
    requires { length handles.old ≡ 1 }
    ensures { (seen : Seen K) → Holds handles.old seen → Holds handles.new (aborting seen) }
{
    let _ = handles.get_mut(0).opt_abort();
}

/// The exports that the last acknowledged LIST told.
pub(crate) fn tell_listing<K>(alloc: Global, handles: &Handles<K>) -> Result<Listing, Halt>
    requires { length handles.now ≡ 1 }
    ensures { ActsOn (λ (seen : Seen K). seen) (λ seen. listed_after seen.history) result handles.now handles.now }
{
    match copy_listing(alloc, handles.get(0).listed()) {
        Ok(listing) => Ok(listing),
        Err(_) => Err(Halt::NoMemory),
    }
}

/// The entry of a listed export, once it was asked for.
pub(crate) fn tell_entry<K>(
    alloc: Global,
    handles: &Handles<K>,
    listed: &Listed,
) -> Result<Entry, Halt>
    requires { length handles.now ≡ 1 }
    ensures { ActsOn (λ (seen : Seen K). seen) (entry_after listed.now) result handles.now handles.now }
{
    let handle = handles.get(0);
    match entry_of(alloc, listed, handle.opt_answer(), handle.info()) {
        Ok(entry) => Ok(entry),
        Err(_) => Err(Halt::NoMemory),
    }
}
