//! A box that C holds: its address, or nothing.

ghost use Rattle.std.specs.Prelude.{◌≡◌, Some, None, IsSome};
ghost use Rattle.std.specs.declared.option.Option.{Option};
ghost use Rattle.lnbd_session.specs.declared.session.Session.{Session};
ghost use Rattle.lnbd_c.specs.Sealing.{session_coded, seal_owns};

use c_loose::parts::Parts;
use lnbd_session::Session;
use std::alloc::Global;
use std::marker::Model;
use std::ptr;

/// The address of a session that it owns, or an address that means nothing. Its type names no session, so it may cross to C.
#[repr(C)]
#[derive(Drop)]
pub struct Seal {
    at: *mut u8,
    alloc: Global,
    pub ghost held: { Option Session } by { session_coded },
}

impl Model for Seal {
    ghost also_owns = { λ s. seal_owns s.alloc s.at s.held };
}

impl Seal {
    /// It owns what the box owned.
    pub fn of_parts(parts: Parts<Session, Global>) -> Seal
        ensures { result.held ≡ Some parts.value }
    {
        let Parts { ptr, alloc } = parts;
        Seal {
            at: ptr as *mut u8,
            alloc,
        }
    }

    /// What the box owned.
    pub fn into_parts(self) -> Parts<Session, Global>
        requires { IsSome self.held }
        ensures { self.held ≡ Some result.value }
    {
        let Seal { at, alloc } = self;
        Parts {
            ptr: at as *mut Session,
            alloc,
        }
    }

    /// It owns nothing.
    pub fn empty(alloc: Global) -> Seal
        ensures { result.held ≡ None }
    {
        Seal {
            at: ptr::null_mut(),
            alloc,
        }
    }
}

// What C holds may go to another thread.
unsafe impl Send for Seal {}
