//! Exports with the addresses of their servers. Which links are to them is not known here.

ghost use Rattle.std.specs.Prelude.{◌≡◌, ◌≢◌, true, false, IfOk};
ghost use Rattle.lnbd_export.specs.Export.{TellsTruly};
ghost use Rattle.lnbd_memnet.specs.Network.{hosted_of};

use lnbd_export::Export;
use lnbd_model::{Bytes, NoMemory, Target};
use std::alloc::Global;

/// An export, and the address at which it is served.
#[derive(Debug, Drop)]
pub struct Served {
    pub at: Target,
    pub export: Export,
}

/// The same with the bytes that it had when its wires were made.
#[derive(Debug, Drop)]
pub(crate) struct Hosted {
    pub at: Target,
    pub start: Bytes,
    pub export: Export,
}

impl Hosted {
    pub fn new(alloc: Global, served: Served) -> Result<Hosted, NoMemory>
        ensures is { IfOk result (λ hosted. hosted ≡ hosted_of served) }
        ensures truly { IfOk result (λ hosted. TellsTruly hosted.export) }
    {
        served.export.tells_zeros();
        let start = Bytes::from_vec(served.export.bytes().to_vec(alloc)?);
        Ok(Hosted {
            at: served.at,
            start,
            export: served.export,
        })
    }
}

/// Whether two addresses are one.
pub(crate) fn is_same(one: &Target, other: &Target) -> bool
    ensures same { result ≡ true → one.now ≡ other.now }
    ensures differs { result ≡ false → one.now ≢ other.now }
{
    match (one, other) {
        (Target::Tcp { host: a, port: m }, Target::Tcp { host: b, port: n }) => {
            *m == *n && a.as_bytes() == b.as_bytes()
        }
        (Target::Unix { path: a }, Target::Unix { path: b }) => a.as_bytes() == b.as_bytes(),
        _ => false,
    }
}

/// The same address again.
pub(crate) fn copied(alloc: Global, to: &Target) -> Result<Target, NoMemory>
    ensures { IfOk result (λ target. target ≡ to.now) }
{
    match to {
        Target::Tcp { host, port } => Ok(Target::Tcp {
            host: host.try_clone(alloc)?,
            port: *port,
        }),
        Target::Unix { path } => Ok(Target::Unix {
            path: path.try_clone(alloc)?,
        }),
    }
}
