//! The two exports of a rehearsal, and where a copy finds them. What is copied is not known here.

ghost use Rattle.std.specs.Prelude.{◌≡◌, ◌≤◌, IfOk, false};
ghost use Rattle.lnbd_model.specs.declared.target.Target.TheVariants.{Unix};
ghost use Rattle.lnbd_export.specs.Generated.{IsGenerated};
ghost use Rattle.lnbd_rehearsal.specs.Rehearsed.{IsNoise, destination_name, source_name};

use lnbd_export::{Export, generate};
use lnbd_extents::Ranges;
use lnbd_memnet::Served;
use lnbd_model::{NoMemory, Place, Target, Text};
use std::alloc::Global;

/// What the destination is full of before the copy.
const NOISE: u8 = 0xff;

/// The name of the export from which is copied, and the path of its server's socket.
const SOURCE: &[u8] = b"source";

/// Those of the export to which is copied.
const DESTINATION: &[u8] = b"destination";

/// A name. None of these is anything but a text.
fn text(alloc: Global, name: &[u8]) -> Result<Text, NoMemory>
    ensures { IfOk result (λ text. text ≡ name.now) }
{
    match Text::from_bytes(alloc, name) {
        Ok(text) => Ok(text),
        Err(_) => Err(NoMemory),
    }
}

/// The socket of this path.
fn socket(alloc: Global, path: &[u8]) -> Result<Target, NoMemory>
    ensures { IfOk result (λ target. target ≡ Unix path.now) }
{
    Ok(Target::Unix {
        path: text(alloc, path)?,
    })
}

/// The export of this name, at the socket that is called so.
fn place(alloc: Global, name: &[u8]) -> Result<Place, NoMemory>
    ensures { IfOk result (λ place. place ≡ record { to = Unix name.now; name = name.now }) }
{
    Ok(Place {
        to: socket(alloc, name)?,
        name: text(alloc, name)?,
    })
}

/// Where the export is that is copied.
pub(crate) fn from(alloc: Global) -> Result<Place, NoMemory>
    ensures { IfOk result (λ place. place ≡ record { to = Unix source_name; name = source_name }) }
{
    place(alloc, SOURCE)
}

/// Where the export is to which is copied.
pub(crate) fn to(alloc: Global) -> Result<Place, NoMemory>
    ensures { IfOk result (λ place. place ≡ record { to = Unix destination_name; name = destination_name }) }
{
    place(alloc, DESTINATION)
}

/// An export with the contents that the seed gives.
pub(crate) fn source(alloc: Global, seed: u64, size: u64) -> Result<Served, NoMemory>
    requires { size ≤ 16777216 }
    ensures at { IfOk result (λ served. served.at ≡ Unix source_name) }
    ensures generated { IfOk result (λ served. IsGenerated source_name seed size false served.export) }
{
    let name = text(alloc, SOURCE)?;
    let export = generate(alloc, name, seed, size, false)?;
    Ok(Served {
        at: socket(alloc, SOURCE)?,
        export,
    })
}

/// An export of as many bytes, none of which is told as zero.
#[tactic(auto, using(crate::proofs::StageLemmas::noise_of))]
pub(crate) fn destination(alloc: Global, size: u64) -> Result<Served, NoMemory>
    ensures at { IfOk result (λ served. served.at ≡ Unix destination_name) }
    ensures noise { IfOk result (λ served. IsNoise size served.export) }
{
    let content = vec![in alloc; NOISE; size as usize]?;
    let name = text(alloc, DESTINATION)?;
    let export = Export::new(name, Text::empty(alloc), content, Ranges::new(alloc), false);
    Ok(Served {
        at: socket(alloc, DESTINATION)?,
        export,
    })
}
