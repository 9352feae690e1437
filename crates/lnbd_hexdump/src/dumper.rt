//! A dump that is told piece by piece. It keeps two groups, however many bytes there are. How a line looks is not known here.

ghost use Rattle.std.specs.Prelude.{◌≡◌, ◌<◌, ◌≤◌, ◌+◌, ◌-◌, ◌*◌, ◌/◌, ◌^◌, ◌++◌, [], ◌∷◌, ℕ, List, IfOk, OnOk, OnErr, false, length, replicate, drop, take, codes, nat_le};
ghost use Rattle.lnbd_hexdump.specs.Dump.{group_line};
ghost use Rattle.lnbd_hexdump.specs.Said.{Ends, Fed, Stands, gone_text, gone_after, made_room, reach, room_text, with_more};

use crate::line::{GROUP, push_line};
use std::alloc::{AllocError, Global};
use std::marker::Model;

/// No byte of a dump stands at this position or beyond.
const END: u64 = 1 << 63;

/// Enough zeros to fill the group that is kept, for two groups behind it that are alike, and for one that is kept.
const ZEROS: [u8; 64] = [0; 64];

/// The bytes from a place on.
fn rest_of(bytes: &[u8], at: usize) -> &[u8]
    requires { at ≤ length bytes.now }
    ensures { result.now ≡ drop at bytes.now }
{
    &bytes[at..]
}

/// So many zeros.
fn zeros(count: usize) -> &'static [u8]
    requires { count ≤ 64 }
    ensures { result.now ≡ replicate count 0 }
{
    &ZEROS[..count]
}

/// What is kept of a dump between two pieces.
#[derive(Drop)]
pub struct Dumper {
    at: u64,
    pending: Vec<u8>,
    before: Vec<u8>,
    repeated: bool,
}

impl Model for Dumper {
    ghost use Rattle.std.specs.Prelude.{◌≤◌, vec_len};
    ghost use Rattle.lnbd_hexdump.specs.Said.{Kept};

    ghost Value = { Kept };

    ghost invariant = { λ d. vec_len d.pending ≤ 16 };

    ghost view = { λ d. record { at = d.at; pending = d.pending.items; before = d.before.items; repeated = d.repeated } };
}

impl Dumper {
    /// No byte is known yet. The first will stand at this position.
    pub fn new(alloc: Global, first: u64) -> Result<Dumper, AllocError>
        ensures stands { IfOk result (λ dumper. Stands first [] dumper) }
        ensures reach { IfOk result (λ dumper. reach dumper ≡ first) }
    {
        Ok(Dumper {
            at: first,
            pending: Vec::with_capacity(alloc, GROUP)?,
            before: Vec::with_capacity(alloc, GROUP)?,
            repeated: false,
        })
    }

    /// Whether so many bytes may still come.
    pub fn has_room(&self, count: u64) -> bool
        ensures { result ≡ nat_le (reach self.now + count) (2 ^ 63) }
    {
        self.at <= END
            && count <= END - self.at
            && self.pending.len() as u64 <= END - self.at - count
    }

    /// The text of the group that is kept goes out.
    fn push_gone(&self, text: &mut Vec<u8>) -> Result<(), AllocError>
        ensures { OnOk result (text.new.items ≡ text.old.items ++ gone_text self.now) }
    {
        if self.pending.as_slice() != self.before.as_slice() {
            return push_line(text, self.at, &self.pending);
        }
        if self.repeated {
            return Ok(());
        }
        text.extend_from_slice(b"*\n")
    }

    /// The next group begins.
    fn turn(&mut self)
        requires { self.old.at + 16 < 2 ^ 64 }
        ensures { self.new ≡ gone_after self.old }
    {
        self.at += 16;
        self.repeated = self.pending.as_slice() == self.before.as_slice();
        std::mem::swap(&mut self.pending, &mut self.before);
        self.pending.clear();
    }

    /// A whole group goes out, since more bytes come.
    fn make_room(&mut self, text: &mut Vec<u8>) -> Result<(), AllocError>
        requires { reach self.old < 2 ^ 63 }
        ensures ok { OnOk result (self.new ≡ made_room self.old) }
        ensures reach { OnOk result (reach self.new ≡ reach self.old) }
        ensures text { OnOk result (text.new.items ≡ text.old.items ++ room_text self.old) }
    {
        if self.pending.len() < GROUP {
            return Ok(());
        }
        self.push_gone(text)?;
        self.turn();
        Ok(())
    }

    /// Takes a front of the bytes, as much as fits behind what is kept, and tells how much that is.
    fn take_front(&mut self, bytes: &[u8], text: &mut Vec<u8>) -> Result<usize, AllocError>
        requires some { 0 < length bytes.now }
        requires reach { reach self.old < 2 ^ 63 }
        ensures taken { IfOk result (λ n. (0 < n) × (n ≤ length bytes.now) × (length (made_room self.old).pending + n ≤ 16)) }
        ensures reach { IfOk result (λ n. reach self.new ≡ reach self.old + n) }
        ensures kept { IfOk result (λ n. self.new ≡ with_more (made_room self.old) (take n bytes.now)) }
        ensures text { OnOk result (text.new.items ≡ text.old.items ++ room_text self.old) }
    {
        self.make_room(text)?;
        let n = bytes.len().min(GROUP - self.pending.len());
        self.pending.extend_from_slice(&bytes[..n])?;
        Ok(n)
    }

    /// These bytes come next. What they let be said is pushed behind the text. Where memory runs out, the dump can't be gone on with.
    pub fn feed(&mut self, bytes: &[u8], text: &mut Vec<u8>) -> Result<(), AllocError>
        requires { reach self.old + length bytes.now ≤ 2 ^ 63 }
        ensures fed { OnOk result (Fed self.old self.new bytes.now text.old.items text.new.items) }
        ensures reach { OnOk result (reach self.new ≡ reach self.old + length bytes.now) }
    {
        let mut at = 0;
        'pieces: while at < bytes.len() {
            at += self.take_front(rest_of(bytes, at), text)?;
        }
        Ok(())
    }

    /// So many zeros come next. However many they are, what is done is that of a few.
    pub fn feed_zeros(&mut self, count: u64, text: &mut Vec<u8>) -> Result<(), AllocError>
        requires { reach self.old + count ≤ 2 ^ 63 }
        ensures fed { OnOk result (Fed self.old self.new (replicate count 0) text.old.items text.new.items) }
        ensures reach { OnOk result (reach self.new ≡ reach self.old + count) }
    {
        if count <= 64 {
            return self.feed(zeros(count as usize), text);
        }
        self.feed(zeros(64), text)?;
        let rest = count - 64;
        self.skip(rest / 16);
        self.feed(zeros((rest % 16) as usize), text)
    }

    /// So many groups as the one that is kept lie behind it and are not shown.
    fn skip(&mut self, groups: u64)
        requires { self.old.at + 16 * groups < 2 ^ 64 }
        ensures { self.new ≡ record self.old { at = self.old.at + 16 * groups } }
    {
        self.at += 16 * groups;
    }

    /// No more bytes come: the last group is shown.
    pub fn end(&self, text: &mut Vec<u8>) -> Result<(), AllocError>
        ensures { OnOk result (Ends self.now text.old.items text.new.items) }
    {
        if self.pending.is_empty() {
            return Ok(());
        }
        push_line(text, self.at, &self.pending)
    }
}
