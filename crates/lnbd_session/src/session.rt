//! What is held of one connection.

ghost use Rattle.std.specs.Prelude.{◌≡◌, [], IfOk};
ghost use Rattle.lnbd_machine.specs.Machine.{created};

use crate::keeping::{Keeping, Told};
use lnbd_handle::Handle;
use lnbd_model::{Bytes, NoMemory};
use std::alloc::Global;

/// One connection, what its callbacks keep, and the bytes of the result that was taken last. Letting it go closes the handle.
pub struct Session {
    pub handle: Handle<Keeping>,
    /// What commands were told and is not cleared.
    pub told: Told,
    /// The bytes of the result that was taken last.
    pub taken: Bytes,
    /// The cookie of the command that is issued next.
    pub next: u64,
}

impl Session {
    /// A session whose handle is in the state Created (libnbd, nbd_create).
    pub fn create(alloc: Global) -> Result<Session, NoMemory>
        ensures created { IfOk result (λ session. session.handle.machine ≡ created) }
        ensures taken { IfOk result (λ session. session.taken ≡ []) }
        ensures next { IfOk result (λ session. session.next ≡ 1) }
    {
        let handle = Handle::create(alloc)?;
        Ok(Session {
            handle,
            told: Told::new(alloc),
            taken: Bytes::from_vec(Vec::new(alloc)),
            next: 1,
        })
    }
}

impl Drop for Session {
    /// The handle is closed.
    fn drop(self) {
        let Session {
            handle,
            mut told,
            taken: _,
            next: _,
        } = self;
        let _ = handle.close(&mut told);
    }
}
