//! The two replies that are no option replies: the server's hello, and the reply to EXPORT_NAME. The hello is read by
//! `lnbd_wire`; what is added here is the breach that another number is.

ghost use Rattle.std.specs.Prelude.{◌≡◌};
ghost use Rattle.lnbd_history.specs.Arrivals.{shows_hello, shows_by_name};
ghost use Rattle.lnbd_negotiate.specs.Reading.{GreetedAs, IsHelloShown, NamedAs, second_breach};

use lnbd_model::Breach;
use lnbd_records::names::{EXPORT_NAME_REPLY_SIZE, OLDSTYLE_MAGIC, PADDING_SIZE};
use lnbd_records::{u16_at, u64_at};
use lnbd_wire::{HelloRead, read_hello};

/// The whole reply to EXPORT_NAME where NO_ZEROES is not agreed.
const PADDED_REPLY_SIZE: usize = EXPORT_NAME_REPLY_SIZE + PADDING_SIZE;

/// What the bytes at the front show of a hello.
#[derive(Clone, Copy, Debug, PartialEq, Eq)]
pub enum Greeted {
    /// Nothing yet: more bytes are needed.
    Nothing,
    /// A whole hello of 18 bytes, with these handshake flags, which `Talk::hello` judges.
    Whole(u16),
    /// A breach, which one of the two numbers shows.
    Broken(Breach),
}

/// The hello at the front of the bytes.
fn hello_at(bytes: &[u8]) -> HelloRead
    ensures { IsHelloShown bytes.now result }
{
    read_hello(bytes)
}

/// The breach of a second number that is not IHAVEOPT.
fn second_breach(second: u64) -> Breach
    ensures { result ≡ second_breach second }
{
    if second == OLDSTYLE_MAGIC {
        Breach::OldStyle
    } else {
        Breach::BadHello
    }
}

/// What the bytes at the front show of the server's hello (NBD protocol, "Fixed newstyle negotiation").
pub fn look_hello(bytes: &[u8]) -> Greeted
    ensures { GreetedAs bytes.now result }
{
    match hello_at(bytes) {
        HelloRead::NeedMore => Greeted::Nothing,
        HelloRead::BadFirst(_) => Greeted::Broken(Breach::BadHello),
        HelloRead::BadSecond(second) => Greeted::Broken(second_breach(second)),
        HelloRead::Value(flags) => Greeted::Whole(flags),
    }
}

/// The size and the transmission flags that the bytes at the front tell, which `Talk::export_told`
/// judges. None where more bytes are needed: the reply has 10 bytes where NO_ZEROES is agreed, and 134
/// where it is not (NBD protocol, "Option types", EXPORT_NAME).
#[tactic(auto, unfolding(lnbd_history::specs::Arrivals::shows_by_name, lnbd_stream::specs::Grammar::once, lnbd_stream::specs::Grammar::wants))]
pub fn look_by_name(no_zeroes: bool, bytes: &[u8]) -> Option<(u64, u16)>
    ensures { NamedAs no_zeroes bytes.now result }
{
    let size = if no_zeroes {
        EXPORT_NAME_REPLY_SIZE
    } else {
        PADDED_REPLY_SIZE
    };
    if bytes.len() < size {
        return None;
    }
    Some((u64_at(bytes, 0), u16_at(bytes, 8)))
}
