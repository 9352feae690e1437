//! The numbers of errors: those of the wire, and two of this library's own.

ghost use Rattle.std.specs.Prelude.{◌≡◌};
ghost use Rattle.lnbd_model.specs.Errors.{error_of};

/// Not permitted (NBD protocol, "Error values", and so the next seven).
pub const EPERM: u32 = 1;
/// An input or output error.
pub const EIO: u32 = 5;
/// The server has no memory.
pub const ENOMEM: u32 = 12;
/// An invalid argument; also what an unknown number counts as.
pub const EINVAL: u32 = 22;
/// No space left.
pub const ENOSPC: u32 = 28;
/// A value is too large.
pub const EOVERFLOW: u32 = 75;
/// The operation is not supported.
pub const ENOTSUP: u32 = 95;
/// The server is shutting down.
pub const ESHUTDOWN: u32 = 108;

/// A reply that is no lawful answer to its command. This library's own; a server's 71 counts as EINVAL.
pub const EPROTO: u32 = 71;
/// The connection was gone before the answer came. This library's own; a server's 107 counts as EINVAL.
pub const ENOTCONN: u32 = 107;

/// The error that a number of the wire tells: 0 is none, one of the protocol's eight is itself, and
/// each other number is EINVAL.
pub fn told_error(number: u32) -> u32
    ensures { result ≡ error_of number }
{
    match number {
        0 | EPERM | EIO | ENOMEM | EINVAL | ENOSPC | EOVERFLOW | ENOTSUP | ESHUTDOWN => number,
        _ => EINVAL,
    }
}
