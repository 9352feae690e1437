//! From an address to its place, or to the lowest of its faults.

ghost use Rattle.std.specs.Prelude.{◌≡◌, ◌≢◌, ◌⊎◌, ◌<◌, ℕ, length, IfOk, IfErr, IsErrOf, IsUtf8};
ghost use Rattle.lnbd_model.specs.Text.{IsText};
ghost use Rattle.lnbd_model.specs.declared.target.Place.{Place};
ghost use Rattle.lnbd_uri.specs.Address.{IsAddress, Means, tcp, unix};
ghost use Rattle.lnbd_uri.specs.Fault.{HasFault, IsDecoded, IsLowest, IsWritten, TextsFault};
ghost use Rattle.lnbd_uri.specs.declared.fault.UriFault.{UriFault};
ghost use Rattle.lnbd_uri.specs.Written.{parts_of, reading_of};

use crate::address::Address;
use crate::authority::{is_host, port_of};
use crate::escape::{decoded, is_escaped};
use crate::fault::UriFault;
use crate::parts::Parts;
use lnbd_model::{Place, Target, Text, TextFault};
use std::alloc::Global;
use std::str::from_utf8;

/// The text of these bytes.
fn text(alloc: Global, bytes: &[u8]) -> Result<Text, UriFault>
    requires { IsUtf8 bytes.now }
    ensures ok { IfOk result (λ text. (text ≡ bytes.now) × IsText text) }
    ensures fault { IfErr result (λ fault. fault ≢ UriFault.NoMemory → (fault ≡ UriFault.TooLong) × (4096 < length bytes.now)) }
{
    match Text::from_bytes(alloc, bytes) {
        Ok(text) => Ok(text),
        Err(TextFault::NoMemory) => Err(UriFault::NoMemory),
        Err(TextFault::NotUtf8) => Err(UriFault::NotUtf8),
        Err(TextFault::TooLong(_)) => Err(UriFault::TooLong),
    }
}

/// Two texts, of which each is to be UTF-8 before the length of either counts.
fn texts(alloc: Global, first: &[u8], second: &[u8]) -> Result<(Text, Text), UriFault>
    ensures first { IfOk result (λ texts. (texts.0 ≡ first.now) × IsText texts.0) }
    ensures second { IfOk result (λ texts. (texts.1 ≡ second.now) × IsText texts.1) }
    ensures fault { IfErr result (λ fault. TextsFault fault first.now second.now) }
{
    if from_utf8(first).is_err() || from_utf8(second).is_err() {
        return Err(UriFault::NotUtf8);
    }
    let first = text(alloc, first)?;
    let second = text(alloc, second)?;
    Ok((first, second))
}

/// The place of an address over TCP.
fn tcp_place(alloc: Global, parts: &Parts) -> Result<Place, UriFault>
    ensures place { IfOk result (λ place. Means (tcp (parts_of parts.now)) place.to place.name) }
    ensures fault { IfErr result (λ fault. fault ≢ UriFault.NoMemory → IsLowest fault (tcp (parts_of parts.now))) }
    ensures memory { IsErrOf result UriFault.NoMemory → IsDecoded (tcp (parts_of parts.now)) }
{
    if !is_host(parts.host) {
        return Err(UriFault::Host);
    }
    let Some(port) = port_of(parts.port) else {
        return Err(UriFault::Port);
    };
    let name = parts.written_name().as_bytes();
    if parts.fragment.is_some() || !is_escaped(name) {
        return Err(UriFault::Escape);
    }
    let name = decoded(alloc, name)?;
    let (host, name) = texts(alloc, parts.host.as_bytes(), &name)?;
    Ok(Place {
        to: Target::Tcp { host, port },
        name,
    })
}

/// The place of an address of a Unix socket.
fn unix_place(alloc: Global, parts: &Parts) -> Result<Place, UriFault>
    ensures place { IfOk result (λ place. Means (unix (parts_of parts.now)) place.to place.name) }
    ensures fault { IfErr result (λ fault. fault ≢ UriFault.NoMemory → IsLowest fault (unix (parts_of parts.now))) }
    ensures memory { IsErrOf result UriFault.NoMemory → IsDecoded (unix (parts_of parts.now)) }
{
    if parts.has_authority() {
        return Err(UriFault::Host);
    }
    let name = parts.written_name().as_bytes();
    let socket = parts.written_socket().as_bytes();
    if parts.fragment.is_some() || !is_escaped(name) || !is_escaped(socket) {
        return Err(UriFault::Escape);
    }
    if socket.is_empty() {
        return Err(UriFault::NoSocket);
    }
    let name = decoded(alloc, name)?;
    let path = decoded(alloc, socket)?;
    let (name, path) = texts(alloc, &name, &path)?;
    Ok(Place {
        to: Target::Unix { path },
        name,
    })
}

/// The place that an address means, or the lowest of its faults.
fn place_of(alloc: Global, address: &Address) -> Result<Place, UriFault>
    ensures place { IfOk result (λ place. Means (reading_of address.now) place.to place.name) }
    ensures fault { IfErr result (λ fault. fault ≢ UriFault.NoMemory → IsLowest fault (reading_of address.now)) }
    ensures memory { IsErrOf result UriFault.NoMemory → IsDecoded (reading_of address.now) }
{
    match address {
        Address::Unknown => Err(UriFault::Scheme),
        Address::Secured => Err(UriFault::Tls),
        Address::Tcp(parts) => tcp_place(alloc, parts),
        Address::Unix(parts) => unix_place(alloc, parts),
    }
}

/// The place that the text is an address of: `nbd://HOST[:PORT][/NAME][?QUERY]`, or
/// `nbd+unix://[/NAME]?QUERY` with a `socket=` part in its query (NBD URI specification, narrowed:
/// no TLS, no numeric IPv6 host, no user). The port is 10809 where none is written.
///
/// # Errors
///
/// The lowest fault that holds of the text, in the order of [`UriFault`]; `NoMemory` may come in its
/// place, and in place of a place.
pub fn parse(alloc: Global, text: &str) -> Result<Place, UriFault>
    ensures place { IfOk result (λ place. IsAddress text.now place) }
    ensures fault { IfErr result (λ fault. fault ≢ UriFault.NoMemory → HasFault text.now fault) }

    // Where the text is an address, or has a fault, nothing but want of memory keeps that answer back.
    ensures accepts { (place : Place) → IsAddress text.now place → (result ≡ Ok place) ⊎ IsErrOf result UriFault.NoMemory }
    ensures refuses { (fault : UriFault) → HasFault text.now fault → IsErrOf result fault ⊎ IsErrOf result UriFault.NoMemory }

    // No memory is taken before all that shows in the text as it is written was judged.
    ensures written { (fault : UriFault) → HasFault text.now fault → IsWritten fault → IsErrOf result fault }
{
    let address = Address::read(text);
    place_of(alloc, &address)
}
