//! The place of an address.

ghost use Rattle.std.specs.Prelude.{IfOk, IfErr};
ghost use Rattle.lnbd_uri.specs.Address.{IsAddress};
ghost use Rattle.lnbd_args.specs.Tools.{IsFaultOf};

use crate::fault::ArgsFault;
use lnbd_model::Place;
use lnbd_uri::{UriFault, parse};
use std::alloc::Global;

/// The place that the word is an address of.
pub(crate) fn place(alloc: Global, address: &str) -> Result<Place, ArgsFault>
    ensures place { IfOk result (λ place. IsAddress address.now place) }
    ensures fault { IfErr result (λ fault. IsFaultOf address.now fault) }
{
    match parse(alloc, address) {
        Ok(place) => Ok(place),
        Err(UriFault::NoMemory) => Err(ArgsFault::NoMemory),
        Err(fault) => Err(ArgsFault::Uri(fault)),
    }
}
