//! A queue of pieces, with one cursor.

ghost use Rattle.std.specs.Prelude.{◌≡◌, ◌≤◌, ◌<◌, ◌-◌, ◌↔◌, ◌++◌, ◌∷◌, [], length, max, false, true, IsTrue, OnOk, OnErr, IfOk, IfErr};
ghost use Rattle.lnbd_history.specs.Outgoing.{out, wrote, ended, one_if, plain, last_of};
ghost use Rattle.lnbd_outgoing.specs.declared.piece.Piece.TheVariants.{Head, Own};
ghost use Rattle.lnbd_outgoing.specs.Pieces.{Writes, head_bytes, part_of, size_of, Fits};
ghost use Rattle.lnbd_outgoing.specs.Queue.{Queue, waits, left, left_after, ends_after, first_write, pushed, AllFit, AreFirstOwn};

use crate::piece::{Piece, RequestBytes};
use lnbd_model::{Bytes, NoMemory};
use std::alloc::Global;
use std::collections::VecDeque;
use std::marker::Model;

/// Pieces that wait to go out. Memory is taken by `new` and `reserve` alone. Beside the room that was
/// reserved there is always room for one piece more, until the last one is queued.
#[derive(Debug, Drop)]
pub struct Queue {
    pieces: VecDeque<Piece>,
    cursor: usize,
    room: usize,
    ended: bool,
}

impl Model for Queue {
    ghost use Rattle.std.specs.Prelude.{◌≡◌, ◌≤◌, ◌+◌, false};
    ghost use Rattle.std.specs.VecDeque.{deque_len, deque_capacity};
    ghost use Rattle.lnbd_outgoing.specs.Queue.{Queue, IsWithin, AllFull};

    ghost Value = { Queue };

    ghost view = { λ q. record { pieces = q.pieces.items; cursor = q.cursor; room = q.room; ended = q.ended } };

    ghost invariant = { λ q. (q.ended ≡ false → deque_len q.pieces + q.room + 1 ≤ deque_capacity q.pieces) × IsWithin q.cursor q.pieces.items × AllFull q.pieces.items };
}

impl Queue {
    /// A queue with no piece.
    pub fn new(alloc: Global) -> Result<Queue, NoMemory>
        ensures { IfOk result (λ q. q ≡ record { pieces = []; cursor = 0; room = 0; ended = false }) }
    {
        Ok(Queue {
            pieces: VecDeque::with_capacity(alloc, 1)?,
            cursor: 0,
            room: 0,
            ended: false,
        })
    }

    /// Whether nothing waits.
    pub fn is_empty(&self) -> bool
        ensures pieces { IsTrue result ↔ (self.now.pieces ≡ []) }
        ensures left { IsTrue result ↔ (left self.now ≡ 0) }
    {
        self.pieces.is_empty()
    }

    /// The cookie of the write whose own bytes are offered, where a write's are.
    pub fn first_write(&self) -> Option<u64>
        ensures { result ≡ first_write self.now.pieces }
    {
        match self.pieces.front() {
            None => None,
            Some(piece) => piece.write(),
        }
    }

    /// How many bytes are offered.
    pub fn left(&self) -> usize
        ensures { result ≡ left self.now }
    {
        match self.pieces.front() {
            None => 0,
            Some(piece) => piece.size() - self.cursor,
        }
    }

    /// What is offered: the rest of the first piece. Where `first_write` names a write, `own` are its
    /// own bytes.
    #[tactic(auto, using(crate::proofs::QueueLemmas::offered))]
    pub fn out<'a>(&'a self, own: &'a [u8]) -> &'a [u8]
        ensures { (writes : Writes) → AllFit writes self.now.pieces → AreFirstOwn writes self.now.pieces own.now → result.now ≡ out (waits writes self.now) }
    {
        match self.pieces.front() {
            None => &[],
            Some(piece) => piece.bytes(own).get(self.cursor..).unwrap_or(&[]),
        }
    }

    /// Makes room for so many pieces, the room that is there already among it.
    pub fn reserve(&mut self, pieces: u32) -> Result<(), NoMemory>
        requires { self.old.ended ≡ false }
        ensures ok { OnOk result (self.new ≡ record self.old { room = max self.old.room pieces }) }
        ensures err { OnErr result (self.new ≡ self.old) }
    {
        let pieces = pieces as usize;
        if self.room < pieces {
            self.pieces.reserve(pieces + 1)?;
            self.room = pieces;
        }
        Ok(())
    }

    /// Queues a piece.
    #[tactic(auto, using(crate::proofs::QueueLemmas::full_push, crate::proofs::QueueLemmas::waits_push, crate::proofs::QueueLemmas::fit_push))]
    pub fn push(&mut self, piece: Piece)
        requires open { self.old.ended ≡ false }
        requires room { 0 < self.old.room }
        requires some { 0 < size_of piece }
        ensures queued { self.new ≡ record (pushed piece self.old) { room = self.old.room - 1 } }
        ensures waits { (writes : Writes) → waits writes self.new ≡ waits writes self.old ++ part_of writes piece ∷ [] }
        ensures fits { (writes : Writes) → Fits writes piece → AllFit writes self.old.pieces → AllFit writes self.new.pieces }
    {
        self.room -= 1;
        self.pieces.push_back_reserved(piece);
    }

    /// Queues a write: its head, and its own bytes, which stay with the command.
    #[tactic(auto, using(crate::proofs::QueueLemmas::full_push, crate::proofs::QueueLemmas::waits_push, crate::proofs::QueueLemmas::fit_push))]
    pub fn push_write(&mut self, head: RequestBytes, cookie: u64, size: usize)
        requires open { self.old.ended ≡ false }
        requires room { 2 ≤ self.old.room }
        requires some { 0 < size }
        ensures queued { self.new ≡ record (pushed (Own cookie size) (pushed (Head head) self.old)) { room = self.old.room - 2 } }
        ensures waits { (writes : Writes) → waits writes self.new ≡ waits writes self.old ++ plain (head_bytes head) ∷ last_of (writes cookie) ∷ [] }
        ensures fits { (writes : Writes) → length (writes cookie) ≡ size → AllFit writes self.old.pieces → AllFit writes self.new.pieces }
    {
        self.room -= 2;
        self.pieces.push_back_reserved(Piece::Head(head));
        self.pieces.push_back_reserved(Piece::Own { cookie, size });
    }

    /// Queues the last piece of a connection, DISC or ABORT, for which there is always room.
    #[tactic(auto, using(crate::proofs::QueueLemmas::full_push, crate::proofs::QueueLemmas::waits_push, crate::proofs::QueueLemmas::fit_push))]
    pub fn push_last(&mut self, piece: Piece)
        requires open { self.old.ended ≡ false }
        requires some { 0 < size_of piece }
        ensures queued { self.new ≡ record (pushed piece self.old) { ended = true } }
        ensures waits { (writes : Writes) → waits writes self.new ≡ waits writes self.old ++ part_of writes piece ∷ [] }
        ensures fits { (writes : Writes) → Fits writes piece → AllFit writes self.old.pieces → AllFit writes self.new.pieces }
    {
        self.ended = true;
        self.pieces.push_back_reserved(piece);
    }

    /// So many bytes of what is offered have gone out. Tells whether a command ends with them.
    #[tactic(auto, using(crate::proofs::QueueLemmas::fits_length, crate::proofs::QueueLemmas::wrote_within, crate::proofs::QueueLemmas::stays_within))]
    pub fn wrote(&mut self, n: usize) -> bool
        requires { n ≤ left self.old }
        ensures waits { (writes : Writes) → AllFit writes self.old.pieces → waits writes self.new ≡ wrote (waits writes self.old) n }
        ensures ends { (writes : Writes) → AllFit writes self.old.pieces → one_if result ≡ ended (waits writes self.old) n }
        ensures fit { (writes : Writes) → AllFit writes self.old.pieces → AllFit writes self.new.pieces }
        ensures pieces { self.new.pieces ≡ left_after n self.old.cursor self.old.pieces }
        ensures last { result ≡ ends_after n self.old.cursor self.old.pieces }
        ensures room { self.new.room ≡ self.old.room }
        ensures ended { self.new.ended ≡ self.old.ended }
    {
        let Some(piece) = self.pieces.front() else {
            return false;
        };
        let size = piece.size();
        let last = piece.ends();
        let gone = self.cursor + n;
        if gone < size {
            self.cursor = gone;
            return false;
        }
        let _ = self.pieces.pop_front();
        self.cursor = 0;
        last
    }

    /// Drops all that waits.
    pub fn clear(&mut self)
        ensures { self.new ≡ record self.old { pieces = []; cursor = 0 } }
    {
        self.pieces.clear();
        self.cursor = 0;
    }
}
