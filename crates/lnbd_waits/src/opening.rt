//! A handle's settings, before it is started.

ghost use Rattle.std.specs.Prelude.{[], IfOk, OnOk, string_bytes, codes, ◌≡◌};
ghost use Rattle.lnbd_handle.specs.Histories.{max_unretired};
ghost use Rattle.lnbd_standing.specs.Standing.{StandsFor};
ghost use Rattle.lnbd_waits.specs.Begun.{base_allocation, begun};

use lnbd_callbacks::Caller;
use lnbd_handle::{Handle, SetFault};
use lnbd_model::{NoMemory, Text, TextFault};
use std::alloc::Global;

/// The meta context of the blocks that are allocated (NBD protocol, "base:allocation metadata context").
pub fn base_allocation(alloc: Global) -> Result<Text, NoMemory>
    ensures { IfOk result (λ text. text ≡ base_allocation) }
{
    match Text::from_bytes(alloc, b"base:allocation") {
        Ok(text) => Ok(text),
        Err(_) => Err(NoMemory),
    }
}

/// Asks for extended headers, structured replies, this meta context and the export of this name, and starts.
fn begin<K>(handle: &mut Handle<K>, name: Text, context: Text) -> Result<(), SetFault>
    requires { StandsFor max_unretired [] handle.old.machine }
    ensures { OnOk result (StandsFor max_unretired (begun name context) handle.new.machine) }
{
    handle.set_request_extended_headers(true)?;
    handle.set_request_structured_replies(true)?;
    handle.add_meta_context(context)?;
    handle.set_export_name(name)?;
    handle.start()
}

/// A handle that is to ask for all this.
pub fn open<K: Caller>(
    alloc: Global,
    name: Text,
    context: Text,
    world: &mut K::World,
) -> Result<Handle<K>, NoMemory>
    ensures { IfOk result (λ handle. StandsFor max_unretired (begun name context) handle.machine) }
{
    let mut handle = Handle::create(alloc)?;
    match begin(&mut handle, name, context) {
        Ok(()) => Ok(handle),
        Err(_) => {
            let _ = handle.close(world);
            Err(NoMemory)
        }
    }
}
