//! Bytes that wait to go out. What they say is not known here.

ghost use Rattle.std.specs.Prelude.{◌≡◌, ◌+◌, ◌-◌, ◌≤◌, ◌++◌, ℕ, [], IfOk, OnOk, OnErr, length, take, drop};

use lnbd_model::NoMemory;
use std::alloc::Global;
use std::marker::Model;

/// Bytes that wait to go out. They stand in a row, behind those that have gone and before room for more. The row is
/// never cut: what is made goes where others have gone, and no byte is touched but to be copied.
#[derive(Debug, Drop)]
pub(crate) struct Outbox {
    row: Vec<u8>,
    gone: usize,
    end: usize,
}

impl Model for Outbox {
    ghost use Rattle.std.specs.Prelude.{List, ℕ, ◌≤◌, length, take, drop};

    ghost Value = { List ℕ };

    ghost view = { λ o. drop o.gone (take o.end o.row.items) };

    ghost invariant = { λ o. (o.gone ≤ o.end) × (o.end ≤ length o.row.items) };
}

impl Outbox {
    /// Nothing waits. It takes no memory.
    pub fn new(alloc: Global) -> Outbox
        ensures { result ≡ [] }
    {
        Outbox {
            row: Vec::new(alloc),
            gone: 0,
            end: 0,
        }
    }

    pub fn as_slice(&self) -> &[u8]
        ensures { result.now ≡ self.now }
    {
        let (row, _) = self.row.split_at(self.end);
        let (_, waiting) = row.split_at(self.gone);
        waiting
    }

    /// So many bytes have gone out.
    #[tactic(auto, using(crate::proofs::Outboxes::none_waits, crate::proofs::Outboxes::how_many))]
    pub fn give(&mut self, n: usize)
        requires { n ≤ length self.old }
        ensures { self.new ≡ drop n self.old }
    {
        let gone = self.gone + n;
        if gone == self.end {
            self.gone = 0;
            self.end = 0;
            return;
        }
        self.gone = gone;
    }

    /// Puts three pieces behind what waits. On `NoMemory` nothing changes.
    #[tactic(auto, using(crate::proofs::Outboxes::behind))]
    pub fn append(&mut self, first: &[u8], second: &[u8], third: &[u8]) -> Result<(), NoMemory>
        ensures ok { OnOk result (self.new ≡ self.old ++ (first.now ++ (second.now ++ third.now))) }
        ensures err { OnErr result (self.new ≡ self.old) }
    {
        let size = first.len().saturating_add(second.len());
        self.tidy(size.saturating_add(third.len()));
        self.end = put_all(&mut self.row, self.end, first, second, third)?;
        Ok(())
    }

    /// Moves what waits to the front where so many bytes have no room behind it, unless more waits than has gone: those of a
    /// client that always asks for more than it has read would else all be kept.
    fn tidy(&mut self, size: usize)
        ensures { self.new ≡ self.old }
    {
        let waiting = self.end - self.gone;
        if self.gone > waiting && size > self.row.len() - self.end {
            slide(&mut self.row, self.gone, self.end);
            self.gone = 0;
            self.end = waiting;
        }
    }
}

/// Moves what stands from `from` up to `end` to the front, where it has room before itself.
fn slide(row: &mut Vec<u8>, from: usize, end: usize)
    requires order { from ≤ end }
    requires room { end - from ≤ from }
    requires within { end ≤ length row.old.items }
    ensures moved { take (end - from) row.new.items ≡ drop from (take end row.old.items) }
    ensures size { length row.new.items ≡ length row.old.items }
{
    let (before, behind) = row.split_at_mut(from);
    let (moved, _) = behind.split_at(end - from);
    copy_front(before, moved);
}

/// Copies a piece to the front of a slice.
fn copy_front(to: &mut [u8], piece: &[u8])
    requires { length piece.now ≤ length to.old }
    ensures { to.new ≡ piece.now ++ drop (length piece.now) to.old }
{
    to[..piece.len()].copy_from_slice(piece);
}

/// Puts three pieces at this place of a row, one behind another: answers where they end. What stands before them stays,
/// also on `NoMemory`.
fn put_all(
    row: &mut Vec<u8>,
    at: usize,
    first: &[u8],
    second: &[u8],
    third: &[u8],
) -> Result<usize, NoMemory>
    requires { at ≤ length row.old.items }
    ensures ok { IfOk result (λ end. take end row.new.items ≡ take at row.old.items ++ (first.now ++ (second.now ++ third.now))) }
    ensures fits { IfOk result (λ end. (at ≤ end) × (end ≤ length row.new.items)) }
    ensures before { take at row.new.items ≡ take at row.old.items }
    ensures within { at ≤ length row.new.items }
{
    let one = put(row, at, first)?;
    let two = put(row, one, second)?;
    let three = put(row, two, third)?;
    Ok(three)
}

/// Puts a piece at this place of a row, which grows where it must: answers where it ends. What stands before it stays,
/// also on `NoMemory`.
#[tactic(auto, using(crate::proofs::Outboxes::front_stays, crate::proofs::Outboxes::piece_ends, crate::proofs::Outboxes::grown_ends, crate::proofs::Outboxes::grown_stays))]
fn put(row: &mut Vec<u8>, at: usize, piece: &[u8]) -> Result<usize, NoMemory>
    requires { at ≤ length row.old.items }
    ensures ok { IfOk result (λ end. take end row.new.items ≡ take at row.old.items ++ piece.now) }
    ensures fits { IfOk result (λ end. (at ≤ end) × (end ≤ length row.new.items)) }
    ensures before { (n : ℕ) → n ≤ at → take n row.new.items ≡ take n row.old.items }
    ensures within { at ≤ length row.new.items }
{
    let room = row.len() - at;
    if piece.len() <= room {
        paste(row, at, piece);
        return Ok(at + piece.len());
    }
    let (front, rest) = piece.split_at(room);
    row.extend_from_slice(rest)?;
    paste(row, at, front);
    Ok(row.len())
}

/// Copies a piece over what stands at this place.
fn paste(row: &mut Vec<u8>, at: usize, piece: &[u8])
    requires { at + length piece.now ≤ length row.old.items }
    ensures { row.new.items ≡ take at row.old.items ++ (piece.now ++ drop (at + length piece.now) row.old.items) }
{
    row[at..at + piece.len()].copy_from_slice(piece);
}
