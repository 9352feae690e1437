//! A box that C holds: its address, or nothing.

ghost use Rattle.std.specs.Prelude.{◌≡◌, Some, None, IsSome};
ghost use Rattle.std.specs.declared.option.Option.{Option};
ghost use Rattle.lnbd_session.specs.declared.buffer.Buffer.{Buffer};
ghost use Rattle.lnbd_c.specs.BufferSealing.{buffer_coded, buffer_owns};

use c_loose::parts::Parts;
use lnbd_session::Buffer;
use std::alloc::Global;
use std::marker::Model;
use std::ptr;

/// The address of a buffer that it owns, or an address that means nothing. Its type names no buffer, so it may cross to C.
#[repr(C)]
#[derive(Drop)]
pub struct BufferSeal {
    at: *mut u8,
    alloc: Global,
    pub ghost held: { Option Buffer } by { buffer_coded },
}

impl Model for BufferSeal {
    ghost also_owns = { λ s. buffer_owns s.alloc s.at s.held };
}

impl BufferSeal {
    /// It owns what the box owned.
    pub fn of_parts(parts: Parts<Buffer, Global>) -> BufferSeal
        ensures { result.held ≡ Some parts.value }
    {
        let Parts { ptr, alloc } = parts;
        BufferSeal {
            at: ptr as *mut u8,
            alloc,
        }
    }

    /// What the box owned.
    pub fn into_parts(self) -> Parts<Buffer, Global>
        requires { IsSome self.held }
        ensures { self.held ≡ Some result.value }
    {
        let BufferSeal { at, alloc } = self;
        Parts {
            ptr: at as *mut Buffer,
            alloc,
        }
    }

    /// It owns nothing.
    pub fn empty(alloc: Global) -> BufferSeal
        ensures { result.held ≡ None }
    {
        BufferSeal {
            at: ptr::null_mut(),
            alloc,
        }
    }
}

// What C holds may go to another thread.
unsafe impl Send for BufferSeal {}
