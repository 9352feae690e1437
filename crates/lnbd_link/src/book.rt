//! The calls so far, and the numbers of links that they gave: which is next, and which are open. What
//! moves over a link is no matter here.

ghost use Rattle.std.specs.Prelude.{◌≡◌, ◌<◌, ◌≤◌, ◌+◌, ◌-◌, ◌^◌, [], None, true, false, length, min, IfOk, IfSome};
ghost use Rattle.lnbd_link.specs.Booked.{with_call, number_for};
ghost use Rattle.lnbd_link.specs.Call.{read_told, write_told};
ghost use Rattle.lnbd_link.specs.Call.{Connect, Listen, Accept, Read, Write, Pause, Shut};
ghost use Rattle.lnbd_link.specs.Connects.{connects};
ghost use Rattle.lnbd_link.specs.Numbers.{is_given, is_open};
ghost use Rattle.lnbd_link.specs.Room.{target_len, got_len, took_len};

use crate::log::Log;
use crate::wires::{Accepted, Got, Took, Want};
use lnbd_model::{NoMemory, Target};
use std::alloc::Global;
use std::marker::Model;

/// Contracts see the calls, the room that is left for more, and how many numbers there are.
#[derive(Drop)]
pub struct Book {
    log: Log,
    opened: Vec<bool>,
    next: usize,
}

impl Model for Book {
    ghost use Rattle.std.specs.Prelude.{vec_len};
    ghost use Rattle.lnbd_link.specs.Booked.{Booked};

    ghost Value = { Booked };

    ghost use Rattle.lnbd_link.specs.Book.{IsBooked};

    ghost view = { λ a. record { calls = a.log.0; room = a.log.1; numbers = vec_len a.opened } };

    ghost invariant = { λ a. IsBooked a };
}

impl Book {
    /// A book for so many numbers.
    pub fn new(alloc: Global, numbers: usize, room: usize) -> Result<Book, NoMemory>
        requires { numbers < 2 ^ 32 }
        ensures state { IfOk result (λ book. book ≡ record { calls = []; room = room; numbers = numbers }) }
        ensures small { IfOk result (λ book. room < 2 ^ 63) }
    {
        let opened = vec![in alloc; false; numbers]?;
        Ok(Book {
            log: Log::new(alloc, room)?,
            opened,
            next: 0,
        })
    }

    pub fn room(&self) -> usize
        ensures { result ≡ self.now.room }
    {
        self.log.room()
    }

    /// The number that the next connect is for: none is left where it is the count of numbers.
    pub fn next(&self) -> usize
        ensures { result ≡ min (connects self.now.calls) self.now.numbers }
    {
        self.next
    }

    pub fn is_open(&self, link: u32) -> bool
        ensures value { result ≡ is_open link self.now.calls }
        ensures within { result ≡ true → link < self.now.numbers }
    {
        let at = link as usize;
        at < self.opened.len() && self.opened[at]
    }

    /// A connect that fails, or gives its number where one is left.
    pub fn connect(&mut self, to: &Target, fails: bool) -> Option<u32>
        requires { 1 + target_len to.now ≤ self.old.room }
        ensures call { self.new ≡ with_call self.old (Connect to.now result) }
        ensures number { result ≡ number_for fails (connects self.old.calls) self.old.numbers }
        ensures fresh { IfSome result (λ link. is_given link self.old.calls ≡ false) }
    {
        let at = self.next;
        if at >= self.opened.len() {
            self.log.connect(to, None);
            return None;
        }
        self.next = at + 1;
        if fails {
            self.log.connect(to, None);
            return None;
        }
        let link = at as u32;
        self.log.connect(to, Some(link));
        self.opened[at] = true;
        Some(link)
    }

    /// A listen that fails.
    pub fn listen(&mut self, at: &Target)
        requires { 1 + target_len at.now ≤ self.old.room }
        ensures { self.new ≡ with_call self.old (Listen at.now None) }
    {
        self.log.listen(at, None);
    }

    /// An accept that fails.
    pub fn accept(&mut self, listener: u32)
        requires { 1 ≤ self.old.room }
        ensures { self.new ≡ with_call self.old (Accept listener Accepted.Failed) }
    {
        self.log.accept(listener, Accepted::Failed);
    }

    pub fn read(&mut self, link: u32, into: &[u8], got: Got)
        requires fits { 1 + got_len got ≤ self.old.room }
        requires moved { got_len got ≤ length into.now }
        ensures { self.new ≡ with_call self.old (Read link (length into.now) (read_told got into.now)) }
    {
        self.log.read(link, into, got);
    }

    pub fn write(&mut self, link: u32, from: &[u8], took: Took)
        requires fits { 1 + took_len took ≤ self.old.room }
        requires moved { took_len took ≤ length from.now }
        ensures { self.new ≡ with_call self.old (Write link (length from.now) (write_told took from.now)) }
    {
        self.log.write(link, from, took);
    }

    pub fn pause(&mut self, wants: &[Want])
        requires { 1 + length wants.now ≤ self.old.room }
        ensures { self.new ≡ with_call self.old (Pause wants.now) }
    {
        self.log.pause(wants);
    }

    pub fn shut(&mut self, link: u32)
        requires { 1 ≤ self.old.room }
        ensures { self.new ≡ with_call self.old (Shut link) }
    {
        self.log.shut(link);
        let at = link as usize;
        if at < self.opened.len() {
            self.opened[at] = false;
        }
    }
}
