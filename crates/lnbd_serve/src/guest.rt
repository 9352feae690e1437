//! One client with its link: what a turn does for it. Other clients are not known here.

ghost use Rattle.std.specs.Prelude.{◌≡◌, ◌≤◌, ◌<◌, [], true, false, length, IfOk, IfErr, OnOk, OnErr};
ghost use Rattle.lnbd_export.specs.Export.{Export as Kept};
ghost use Rattle.lnbd_server.specs.Session.{Takes};
ghost use Rattle.lnbd_serve.specs.Guests.{Breaks, Halts, MayRead, is_done, out_of, waiting_of};
ghost use Rattle.lnbd_serve.specs.Halls.{Rests, want_of};
ghost use Rattle.lnbd_serve.specs.Steps.{Attended, Counts, Flushed, GoesOn, HasRead, Replied, RepliedOnce, TakesPart, Went, Wrote, blames, both, doing_of};

use crate::guests::BOTH;
use lnbd_export::Export;
use lnbd_link::{Got, Took, Want, Wires};
use lnbd_server::{Session, TakeFault};

/// What ends a run at once.
#[derive(Clone, Copy, Debug, PartialEq, Eq)]
pub enum Halt {
    NoMemory,
    /// A call on a link or the listener failed.
    Link,
    /// Nothing came for too long.
    Silent,
}

/// What a turn did.
#[derive(Clone, Copy, Debug, PartialEq, Eq)]
pub enum Doing {
    /// Nothing: all answered that they aren't ready.
    Still,
    /// Bytes went out, or a reply was made.
    Sent,
    /// Something came: a client, bytes of one, or the end of one.
    News,
}

/// A client whose link is open.
#[derive(Debug, Drop)]
pub struct Guest {
    pub link: u32,
    pub session: Session,
    /// The last write on the link took nothing.
    pub full: bool,
    /// The client sends no more.
    pub gone: bool,
}

impl Guest {
    /// What a pause waits for on the link.
    pub fn want(&self) -> Want
        ensures { result ≡ want_of self.now }
    {
        Want {
            link: self.link,
            direction: BOTH,
        }
    }

    /// Whether the client's end came, or its session is over and all its replies went out.
    pub fn is_done(&self) -> bool
        ensures { result ≡ is_done self.now }
    {
        self.gone
            || self.session.is_closed()
                && self.session.pending() == 0
                && self.session.out().is_empty()
    }

    /// Whether bytes wait to go out.
    #[tactic(auto, using(crate::proofs::TurnLemmas::empty_is))]
    fn is_waiting(&self) -> bool
        ensures yes { result ≡ true → 0 < length (out_of self.now) }
        ensures no { result ≡ false → out_of self.now ≡ [] }
    {
        !self.session.out().is_empty()
    }

    /// Whether a reply is pending.
    fn is_asked(&self) -> bool
        ensures yes { result ≡ true → 0 < length (waiting_of self.now) }
        ensures no { result ≡ false → length (waiting_of self.now) ≡ 0 }
    {
        self.session.pending() > 0
    }

    /// Offers once what waits to go out. Whether a byte moved.
    fn write<W: Wires>(&mut self, wires: &mut W) -> Result<bool, Halt>
        requires { 0 < length (out_of self.old) }
        ensures ok { IfOk result (λ moved. Went (W.told wires.old) (W.told wires.new) (λ calls. Wrote moved self.old calls self.new)) }
        ensures err { IfErr result (λ why. Went (W.told wires.old) (W.told wires.new) (λ calls. (export : Kept) → Breaks self.old export calls self.new export why)) }
        ensures counts { Counts (blames result) (W.faults wires.old) (W.faults wires.new) (W.idles wires.old) (W.idles wires.new) }
    {
        match wires.write(self.link, self.session.out()) {
            Took::Bytes(n) => {
                self.session.gave(n);
                self.full = false;
                Ok(true)
            }
            Took::NotReady => {
                self.full = true;
                Ok(false)
            }
            Took::Failed => Err(Halt::Link),
        }
    }

    /// Writes until nothing waits or a write takes nothing. Whether a byte moved.
    fn flush<W: Wires>(&mut self, wires: &mut W) -> Result<bool, Halt>
        requires { self.old.gone ≡ false }
        ensures ok { IfOk result (λ moved. Went (W.told wires.old) (W.told wires.new) (λ calls. Flushed moved self.old calls self.new)) }
        ensures err { IfErr result (λ why. Went (W.told wires.old) (W.told wires.new) (λ calls. (export : Kept) → Halts self.old export calls self.new export why)) }
        ensures counts { Counts (blames result) (W.faults wires.old) (W.faults wires.new) (W.idles wires.old) (W.idles wires.new) }
    {
        let mut moved = false;
        'writing: while self.is_waiting() {
            match self.write(wires) {
                Ok(true) => moved = true,
                Ok(false) => return Ok(moved),
                Err(why) => return Err(why),
            }
        }
        Ok(moved)
    }

    /// Writes, makes the first reply that is pending, if one is, and writes.
    fn reply<W: Wires>(&mut self, wires: &mut W, export: &Export) -> Result<(), Halt>
        requires { self.old.gone ≡ false }
        ensures ok { OnOk result (Went (W.told wires.old) (W.told wires.new) (λ calls. Replied self.old export.now calls self.new)) }
        ensures err { IfErr result (λ why. Went (W.told wires.old) (W.told wires.new) (λ calls. Halts self.old export.now calls self.new export.now why)) }
        ensures counts { Counts (blames result) (W.faults wires.old) (W.faults wires.new) (W.idles wires.old) (W.idles wires.new) }
    {
        match self.flush(wires) {
            Ok(_) => {}
            Err(why) => return Err(why),
        }
        if !self.is_asked() {
            return Ok(());
        }
        match self.reply_once(wires, export) {
            Ok(()) => Ok(()),
            Err(why) => Err(why),
        }
    }

    /// Makes the first reply that is pending, and writes.
    fn reply_once<W: Wires>(&mut self, wires: &mut W, export: &Export) -> Result<(), Halt>
        requires here { self.old.gone ≡ false }
        requires some { 0 < length (waiting_of self.old) }
        ensures ok { OnOk result (Went (W.told wires.old) (W.told wires.new) (λ calls. RepliedOnce self.old export.now calls self.new)) }
        ensures err { IfErr result (λ why. Went (W.told wires.old) (W.told wires.new) (λ calls. Halts self.old export.now calls self.new export.now why)) }
        ensures counts { Counts (blames result) (W.faults wires.old) (W.faults wires.new) (W.idles wires.old) (W.idles wires.new) }
    {
        match self.session.answer(0, export) {
            Ok(()) => match self.flush(wires) {
                Ok(_) => Ok(()),
                Err(why) => Err(why),
            },
            Err(_) => Err(Halt::NoMemory),
        }
    }

    /// Takes bytes that came.
    fn take(&mut self, bytes: &[u8], export: &mut Export) -> Result<(), Halt>
        ensures ok { OnOk result (Takes self.old.session export.old bytes.now self.new.session export.new) }
        ensures err { IfErr result (λ why. TakesPart self.old.session export.old bytes.now self.new.session export.new why) }
        ensures same { self.new ≡ record self.old { session = self.new.session } }
    {
        match self.session.take(bytes, export) {
            Ok(()) => Ok(()),
            Err(TakeFault::Closed) => Ok(()),
            Err(TakeFault::NoMemory { .. }) => Err(Halt::NoMemory),
        }
    }

    /// Reads once. Whether anything came.
    fn read<W: Wires>(
        &mut self,
        wires: &mut W,
        export: &mut Export,
        buffer: &mut [u8],
    ) -> Result<bool, Halt>
        requires may { MayRead self.old }
        requires room { 0 < length buffer.old }
        ensures ok { IfOk result (λ came. Went (W.told wires.old) (W.told wires.new) (λ calls. HasRead came self.old export.old calls self.new export.new)) }
        ensures err { IfErr result (λ why. Went (W.told wires.old) (W.told wires.new) (λ calls. Breaks self.old export.old calls self.new export.new why)) }
        ensures counts { Counts (blames result) (W.faults wires.old) (W.faults wires.new) (W.idles wires.old) (W.idles wires.new) }
    {
        match wires.read(self.link, buffer) {
            Got::Bytes(n) => {
                let (bytes, _) = buffer.split_at(n);
                match self.take(bytes, export) {
                    Ok(()) => Ok(true),
                    Err(why) => Err(why),
                }
            }
            Got::NotReady => Ok(false),
            Got::End => {
                self.gone = true;
                Ok(true)
            }
            Got::Failed => Err(Halt::Link),
        }
    }

    /// A client's turn: it writes what waits and makes the first reply that is pending; where none is, it reads once and
    /// makes the first reply to that. Others that ask less are so answered before one that asks much has all its replies.
    pub fn attend<W: Wires>(
        &mut self,
        wires: &mut W,
        export: &mut Export,
        buffer: &mut [u8],
    ) -> Result<Doing, Halt>
        requires rests { Rests self.old }
        requires room { 0 < length buffer.old }
        ensures ok { IfOk result (λ did. Went (W.told wires.old) (W.told wires.new) (λ calls. Attended did self.old export.old calls self.new export.new)) }
        ensures err { IfErr result (λ why. Went (W.told wires.old) (W.told wires.new) (λ calls. Halts self.old export.old calls self.new export.new why)) }
        ensures counts { Counts (blames result) (W.faults wires.old) (W.faults wires.new) (W.idles wires.old) (W.idles wires.new) }
    {
        let moved = match self.flush(wires) {
            Ok(moved) => moved,
            Err(why) => return Err(why),
        };
        if self.is_asked() {
            return match self.reply_once(wires, export) {
                Ok(()) => Ok(Doing::Sent),
                Err(why) => Err(why),
            };
        }
        if self.session.is_closed() {
            return Ok(Doing::of(moved));
        }
        match self.read(wires, export, buffer) {
            Ok(true) => match self.go_on(wires, export) {
                Ok(()) => Ok(Doing::News),
                Err(why) => Err(why),
            },
            Ok(false) => Ok(Doing::of(moved)),
            Err(why) => Err(why),
        }
    }

    /// Makes the first reply to what was read, unless the client sends no more.
    fn go_on<W: Wires>(&mut self, wires: &mut W, export: &Export) -> Result<(), Halt>
        ensures ok { OnOk result (Went (W.told wires.old) (W.told wires.new) (λ calls. GoesOn self.old export.now calls self.new)) }
        ensures err { IfErr result (λ why. Went (W.told wires.old) (W.told wires.new) (λ calls. Halts self.old export.now calls self.new export.now why)) }
        ensures counts { Counts (blames result) (W.faults wires.old) (W.faults wires.new) (W.idles wires.old) (W.idles wires.new) }
    {
        if self.gone {
            return Ok(());
        }
        match self.reply(wires, export) {
            Ok(()) => Ok(()),
            Err(why) => Err(why),
        }
    }
}

impl Doing {
    /// What a turn did in which bytes went out or not, and nothing came.
    fn of(moved: bool) -> Doing
        ensures { result ≡ doing_of moved }
    {
        if moved { Doing::Sent } else { Doing::Still }
    }

    /// What two turns did.
    pub fn and(self, other: Doing) -> Doing
        ensures { result ≡ both self other }
    {
        match self {
            Doing::News => Doing::News,
            Doing::Still => other,
            Doing::Sent => match other {
                Doing::News => Doing::News,
                Doing::Still | Doing::Sent => Doing::Sent,
            },
        }
    }

    /// This, or news where a client came.
    pub fn or_news(self, came: bool) -> Doing
        ensures yes { came ≡ true → result ≡ Doing.News }
        ensures no { came ≡ false → result ≡ self }
    {
        if came { Doing::News } else { self }
    }
}
