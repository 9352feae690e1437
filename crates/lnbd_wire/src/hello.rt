//! The server's hello (NBD protocol, "Fixed newstyle negotiation").

ghost use Rattle.std.specs.Prelude.{◌≡◌, ◌↔◌};
ghost use Rattle.lnbd_wire.specs.declared.hello.HelloRead.{HelloRead};
ghost use Rattle.lnbd_wire.specs.Hello.{IsHelloRead};

use lnbd_records::names::{HELLO_SIZE, INIT_MAGIC, OPTION_MAGIC};
use lnbd_records::{u16_at, u64_at};

/// A hello at the front of what a server said.
#[derive(Clone, Copy, Debug, PartialEq, Eq)]
pub enum HelloRead {
    /// The handshake flags. Bytes may follow the hello.
    Value(u16),
    /// A hello so far, and too few bytes.
    NeedMore,
    /// Another first number.
    BadFirst(u64),
    /// Another second number.
    BadSecond(u64),
}

/// Reads a server's hello.
pub fn read_hello(bytes: &[u8]) -> HelloRead
    ensures { (read : HelloRead) → (result ≡ read) ↔ IsHelloRead bytes.now read }
{
    if bytes.len() < 8 {
        return HelloRead::NeedMore;
    }
    let first = u64_at(bytes, 0);
    if first != INIT_MAGIC {
        return HelloRead::BadFirst(first);
    }
    if bytes.len() < 16 {
        return HelloRead::NeedMore;
    }
    let second = u64_at(bytes, 8);
    if second != OPTION_MAGIC {
        return HelloRead::BadSecond(second);
    }
    if bytes.len() < HELLO_SIZE {
        return HelloRead::NeedMore;
    }
    let flags = u16_at(bytes, 16);
    HelloRead::Value(flags)
}
