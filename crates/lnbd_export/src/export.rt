//! An export in memory: its bytes, and the ranges that it tells as zero. How requests come and how
//! replies go is not known here.

ghost use Rattle.std.specs.Prelude.{◌≡◌, ◌+◌, ◌<◌, ◌≤◌, ◌^◌, Some, true, IfOk, OnOk, OnErr, length, take, drop, replicate, vec_len};
ghost use Rattle.lnbd_extents.specs.Positions.{holds};
ghost use Rattle.lnbd_model.specs.Kind.{has_range};
ghost use Rattle.lnbd_export.specs.Export.{AreZeros, TellsTruly, flags, size, put, written, zeroed};
ghost use Rattle.lnbd_export.specs.Zeros.{told};
ghost use Rattle.lnbd_export.specs.Requests.{is_outside, refusal, refusal_of, done, effect};
ghost use Rattle.lnbd_export.specs.Statuses.{statuses};

use crate::refusals::{has_other_flags, has_range, is_change, is_unfit, range_error};
use crate::request::{Agreed, Request};
use crate::statuses::statuses;
use crate::zeros::Zeros;
use lnbd_extents::Ranges;
use lnbd_model::{EINVAL, EPERM, Extent, Kind, NoMemory, Text};
use std::alloc::Global;
use std::marker::Model;

/// What a server offers: bytes under a name, and the ranges that it tells as zero.
#[derive(Debug, Drop)]
pub struct Export {
    name: Text,
    description: Text,
    content: Vec<u8>,
    zeros: Zeros,
    read_only: bool,
}

impl Model for Export {
    ghost use Rattle.lnbd_export.specs.Zeros.{told};
    ghost use Rattle.lnbd_export.specs.Export.{Export as Kept, AreZeros, flags};
    ghost use Rattle.std.specs.Prelude.{length};

    ghost Value = { Kept };

    ghost view = { λ e. record { name = e.name; description = e.description; bytes = e.content.items; zeros = flags (told e.zeros) 0 (length e.content.items); read_only = e.read_only } };

    ghost invariant = { λ e. AreZeros e.content.items (told e.zeros) };
}

impl Export {
    /// An export with this content, of which these ranges are told as zero.
    pub fn new(
        name: Text,
        description: Text,
        content: Vec<u8>,
        zeros: Ranges,
        read_only: bool,
    ) -> Export
        requires { AreZeros content.items (holds zeros) }
        ensures { result ≡ record { name = name; description = description; bytes = content.items; zeros = flags (holds zeros) 0 (length content.items); read_only = read_only } }
    {
        Export::telling(name, description, content, Zeros::Given(zeros), read_only)
    }

    /// An export with this content, of which these positions are told as zero.
    pub(crate) fn telling(
        name: Text,
        description: Text,
        content: Vec<u8>,
        zeros: Zeros,
        read_only: bool,
    ) -> Export
        requires { AreZeros content.items (told zeros) }
        ensures { result ≡ record { name = name; description = description; bytes = content.items; zeros = flags (told zeros) 0 (length content.items); read_only = read_only } }
    {
        Export {
            name,
            description,
            content,
            zeros,
            read_only,
        }
    }

    /// Its bytes.
    pub fn bytes(&self) -> &[u8]
        ensures { result.now ≡ self.now.bytes }
    {
        &self.content
    }

    pub fn name(&self) -> &Text
        ensures { result.now ≡ self.now.name }
    {
        &self.name
    }

    pub fn description(&self) -> &Text
        ensures { result.now ≡ self.now.description }
    {
        &self.description
    }

    pub fn is_read_only(&self) -> bool
        ensures { result ≡ self.now.read_only }
    {
        self.read_only
    }

    /// How many bytes it has.
    pub fn size(&self) -> u64
        ensures size { result ≡ size self.now }
        ensures limit { result < 2 ^ 63 }
    {
        self.content.len() as u64
    }

    /// What is told as zero is zero.
    pub fn tells_zeros(&self)
        ensures { TellsTruly self.now }
    {
        let _ = &self.zeros;
    }

    /// The error with which a request is refused, if it is. It depends on nothing that a request changes.
    pub fn refusal(&self, agreed: Agreed, request: Request) -> Option<u32>
        ensures { result ≡ refusal agreed self.now request }
    {
        match request.kind {
            None => Some(EINVAL),
            Some(kind) => self.refusal_of(agreed, request, kind),
        }
    }

    fn refusal_of(&self, agreed: Agreed, request: Request, kind: Kind) -> Option<u32>
        ensures { result ≡ refusal_of agreed self.now request kind }
    {
        if has_other_flags(agreed.replies, kind, request.flags)
            || is_unfit(agreed, kind, request.length)
        {
            Some(EINVAL)
        } else if is_change(kind) && self.read_only {
            Some(EPERM)
        } else if has_range(kind) && self.is_outside(request.offset, request.length) {
            Some(range_error(kind))
        } else {
            None
        }
    }

    fn is_outside(&self, offset: u64, length: u64) -> bool
        ensures { result ≡ is_outside self.now offset length }
    {
        let size = self.content.len() as u64;
        offset > size || length > size - offset
    }

    /// The bytes of a range.
    pub fn read(&self, offset: u64, length: u64) -> &[u8]
        requires { offset + length ≤ size self.now }
        ensures { result.now ≡ take length (drop offset self.now.bytes) }
    {
        let (_, rest) = self.content.split_at(offset as usize);
        let (part, _) = rest.split_at(length as usize);
        part
    }

    /// The status of a range, but no more than `most` descriptors.
    pub fn statuses(
        &self,
        alloc: Global,
        offset: u64,
        length: u64,
        most: usize,
    ) -> Result<Vec<Extent>, NoMemory>
        requires { offset + length ≤ size self.now }
        ensures { IfOk result (λ all. all.items ≡ take most (statuses (take length (drop offset self.now.zeros)))) }
    {
        let _ = self.content.len();
        statuses(alloc, &self.zeros, offset, offset + length, most)
    }

    /// Puts bytes, which are no longer told as zero. On `NoMemory` nothing changes.
    pub fn write(&mut self, offset: u64, payload: &[u8]) -> Result<(), NoMemory>
        requires { offset + length payload.now ≤ size self.old }
        ensures ok { OnOk result (self.new ≡ written offset payload.now self.old) }
        ensures err { OnErr result (self.new ≡ self.old) }
    {
        let alloc = *self.content.allocator();
        self.zeros.tell(alloc, offset, payload.len() as u64, false)?;
        paste(&mut self.content, offset as usize, payload);
        Ok(())
    }

    /// Puts zeros, which are told as zero. On `NoMemory` nothing changes.
    pub fn zero(&mut self, offset: u64, length: u64) -> Result<(), NoMemory>
        requires { offset + length ≤ size self.old }
        ensures ok { OnOk result (self.new ≡ zeroed offset length self.old) }
        ensures err { OnErr result (self.new ≡ self.old) }
    {
        let alloc = *self.content.allocator();
        self.zeros.tell(alloc, offset, length, true)?;
        fill_zeros(&mut self.content, offset as usize, length as usize);
        Ok(())
    }

    /// Does what a request asks, with a write's data, unless it is refused. On `NoMemory` nothing changes.
    #[tactic(auto, using(crate::proofs::Allowed::in_range, crate::proofs::Allowed::refused_stays, crate::proofs::Allowed::not_refused))]
    pub fn perform(
        &mut self,
        agreed: Agreed,
        request: Request,
        payload: &[u8],
    ) -> Result<(), NoMemory>
        requires { request.kind ≡ Some Kind.Write → length payload.now ≡ request.length }
        ensures ok { OnOk result (self.new ≡ effect agreed request payload.now self.old) }
        ensures err { OnErr result (self.new ≡ self.old) }
    {
        match self.refusal(agreed, request) {
            Some(_) => Ok(()),
            None => match request.kind {
                Some(kind) => self.act(kind, request, payload),
                None => Ok(()),
            },
        }
    }

    /// Does what a command asks that isn't refused.
    fn act(&mut self, kind: Kind, request: Request, payload: &[u8]) -> Result<(), NoMemory>
        requires range { has_range kind ≡ true → request.offset + request.length ≤ size self.old }
        requires write { kind ≡ Kind.Write → length payload.now ≡ request.length }
        ensures ok { OnOk result (self.new ≡ done (Some kind) request payload.now self.old) }
        ensures err { OnErr result (self.new ≡ self.old) }
    {
        match kind {
            Kind::Write => self.write(request.offset, payload),
            Kind::Trim => self.zero(request.offset, request.length),
            Kind::Zero => self.zero(request.offset, request.length),
            Kind::Read => Ok(()),
            Kind::Flush => Ok(()),
            Kind::Cache => Ok(()),
            Kind::BlockStatus => Ok(()),
        }
    }
}

fn paste(to: &mut Vec<u8>, at: usize, from: &[u8])
    requires { at + length from.now ≤ vec_len to.old }
    ensures { to.new.items ≡ put at from.now to.old.items }
{
    to[at..at + from.len()].copy_from_slice(from);
}

fn fill_zeros(to: &mut Vec<u8>, at: usize, size: usize)
    requires { at + size ≤ vec_len to.old }
    ensures { to.new.items ≡ put at (replicate size 0) to.old.items }
{
    to[at..at + size].fill(0);
}
