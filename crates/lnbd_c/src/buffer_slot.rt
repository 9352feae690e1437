//! What C holds of a buffer: a struct of its own, all zero at first, that owns a buffer or nothing.

ghost use Rattle.std.specs.Prelude.{◌≡◌, Some, None, if◌then◌else◌, is_some, option_map};

use crate::buffer_seal::BufferSeal;
use c_loose::parts::Parts;
use lnbd_session::Buffer;
use std::alloc::Global;
use std::mem;

/// A buffer, or nothing where `holds` is 0. C sees two words, and sets both to 0 at first.
#[repr(C)]
pub struct BufferSlot {
    holds: u32,
    pub(crate) seal: BufferSeal,
    ghost agrees: { holds ≡ (if is_some seal.held then 1 else 0) },
}

impl BufferSlot {
    /// Takes the buffer out.
    pub(crate) fn take(&mut self, alloc: Global) -> Option<Box<Buffer>>
        ensures value { option_map (λ b. b.value) result ≡ self.old.seal.held }
        ensures empty { self.new.seal.held ≡ None }
    {
        if self.holds == 0 {
            return None;
        }
        let seal = mem::replace(&mut self.seal, BufferSeal::empty(alloc));
        self.holds = 0;
        Some(seal.into_parts().into_box())
    }

    /// Puts it in.
    pub(crate) fn put(&mut self, buffer: Box<Buffer>)
        requires { self.old.seal.held ≡ None }
        ensures { self.new.seal.held ≡ Some buffer.value }
    {
        self.seal = BufferSeal::of_parts(Parts::of(buffer));
        self.holds = 1;
    }
}
