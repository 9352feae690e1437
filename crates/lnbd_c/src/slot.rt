//! What C holds of a session: a struct of its own, all zero at first, that owns a session or nothing.

ghost use Rattle.std.specs.Prelude.{◌≡◌, Some, None, if◌then◌else◌, is_some, option_map};

use crate::seal::Seal;
use c_loose::parts::Parts;
use lnbd_session::Session;
use std::alloc::Global;
use std::mem;

/// A session, or nothing where `holds` is 0. C sees two words, and sets both to 0 at first.
#[repr(C)]
pub struct HandleSlot {
    holds: u32,
    pub(crate) seal: Seal,
    ghost agrees: { holds ≡ (if is_some seal.held then 1 else 0) },
}

impl HandleSlot {
    /// Takes the session out.
    pub(crate) fn take(&mut self, alloc: Global) -> Option<Box<Session>>
        ensures value { option_map (λ b. b.value) result ≡ self.old.seal.held }
        ensures empty { self.new.seal.held ≡ None }
    {
        if self.holds == 0 {
            return None;
        }
        let seal = mem::replace(&mut self.seal, Seal::empty(alloc));
        self.holds = 0;
        Some(seal.into_parts().into_box())
    }

    /// Puts it in.
    pub(crate) fn put(&mut self, session: Box<Session>)
        requires { self.old.seal.held ≡ None }
        ensures { self.new.seal.held ≡ Some session.value }
    {
        self.seal = Seal::of_parts(Parts::of(session));
        self.holds = 1;
    }
}
