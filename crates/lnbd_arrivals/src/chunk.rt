//! A whole chunk at the front of some bytes, and what its payload tells. Whether a chunk breaks a rule of the protocol is not judged here.

ghost use Rattle.std.specs.Prelude.{◌≡◌, ◌+◌, ◌≤◌, IfOk, length};
ghost use Rattle.lnbd_chunks.specs.Chunk.{is_done};
ghost use Rattle.lnbd_structured.specs.Assembly.{fixed_size, head_of};
ghost use Rattle.lnbd_structured.specs.Told.{content_in};
ghost use Rattle.lnbd_arrivals.specs.Heads.{head_size};
ghost use Rattle.lnbd_arrivals.specs.Payloads.{IsPayload, entries_of, form_in, payload_in, told_by, told_in};

use crate::heads::head_size;
use lnbd_chunks::Form;
use lnbd_model::{Extent, NoMemory};
use lnbd_records::{u32_at, u64_at};
use lnbd_structured::{Told, descriptors_in, extended_descriptors_in, form_of, is_done};
use lnbd_wire::ExtHead;
use std::alloc::Global;

/// A whole chunk at the front of some bytes (NBD protocol, "Structured reply chunk message" and "Extended reply chunk message").
#[derive(Clone, Copy, Debug, PartialEq, Eq)]
pub struct Chunk {
    /// Whether its head is an extended one.
    pub extended: bool,
    /// Its head. Without extended headers the offset is 0.
    pub head: ExtHead,
    /// How many bytes its head and its payload have.
    pub size: usize,
}

impl Chunk {
    /// The cookie of the command that it is for.
    pub fn cookie(&self) -> u64
        ensures { result ≡ self.now.head.cookie }
    {
        self.head.cookie
    }

    /// Whether it is the last of its command.
    pub fn is_last(&self) -> bool
        ensures { result ≡ is_done (head_of self.now.head) }
    {
        is_done(self.head.flags)
    }

    /// Its payload, in the bytes that it begins.
    pub fn payload<'a>(&self, bytes: &'a [u8]) -> &'a [u8]
        requires sized { self.now.size ≡ head_size self.now.extended + self.now.head.length }
        requires there { self.now.size ≤ length bytes.now }
        ensures { result.now ≡ payload_in self.now bytes.now }
    {
        let (_, rest) = bytes.split_at(head_size(self.extended));
        let (payload, _) = rest.split_at(self.head.length as usize);
        payload
    }

    /// The descriptors of its payload, if it is a block status; else none, which takes no memory. On `NoMemory` nothing has changed.
    pub fn entries(&self, alloc: Global, payload: &[u8]) -> Result<Vec<Extent>, NoMemory>
        requires { IsPayload self.now payload.now }
        ensures { IfOk result (λ entries. entries.items ≡ entries_of (form_in self.now) payload.now) }
    {
        entries_by(alloc, form_of(self.extended, self.head.kind), payload)
    }

    /// What its payload tells, whose descriptors are these.
    pub fn told<'a>(&self, payload: &'a [u8], entries: &'a [Extent]) -> Told<'a>
        requires payload { IsPayload self.now payload.now }
        requires entries { entries.now ≡ entries_of (form_in self.now) payload.now }
        ensures { content_in result ≡ told_in self.now payload.now }
    {
        told_by(form_of(self.extended, self.head.kind), payload, entries)
    }
}

/// The descriptors of a payload of this form.
fn entries_by(alloc: Global, form: Form, payload: &[u8]) -> Result<Vec<Extent>, NoMemory>
    requires { fixed_size form ≤ length payload.now }
    ensures { IfOk result (λ entries. entries.items ≡ entries_of form payload.now) }
{
    match form {
        Form::Status => {
            let (_, entries) = payload.split_at(4);
            descriptors_in(alloc, entries)
        }
        Form::ExtendedStatus => {
            let (_, entries) = payload.split_at(8);
            extended_descriptors_in(alloc, entries)
        }
        Form::Empty => Ok(Vec::new(alloc)),
        Form::Data => Ok(Vec::new(alloc)),
        Form::Hole => Ok(Vec::new(alloc)),
        Form::Error => Ok(Vec::new(alloc)),
        Form::ErrorAt => Ok(Vec::new(alloc)),
        Form::OtherError => Ok(Vec::new(alloc)),
        Form::Unknown => Ok(Vec::new(alloc)),
    }
}

/// What a payload of this form tells, whose descriptors are these.
fn told_by<'a>(form: Form, payload: &'a [u8], entries: &'a [Extent]) -> Told<'a>
    requires there { fixed_size form ≤ length payload.now }
    requires entries { entries.now ≡ entries_of form payload.now }
    ensures { content_in result ≡ told_by form payload.now }
{
    match form {
        Form::Empty => Told::Nothing,
        Form::Data => {
            let (_, bytes) = payload.split_at(8);
            Told::Data {
                offset: u64_at(payload, 0),
                bytes,
            }
        }
        Form::Hole => Told::Hole {
            offset: u64_at(payload, 0),
            length: u64::from(u32_at(payload, 8)),
        },
        Form::Status => Told::Status {
            context: u32_at(payload, 0),
            entries,
        },
        Form::ExtendedStatus => Told::Status {
            context: u32_at(payload, 0),
            entries,
        },
        Form::Error => Told::Error {
            number: u32_at(payload, 0),
            offset: None,
        },
        Form::ErrorAt => Told::Error {
            number: u32_at(payload, 0),
            offset: Some(u64_at(payload, payload.len() - 8)),
        },
        Form::OtherError => Told::Error {
            number: u32_at(payload, 0),
            offset: None,
        },
        Form::Unknown => Told::Nothing,
    }
}
