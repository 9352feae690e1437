//! What is kept of one client: how far it is, what was agreed, whose replies are pending, the bytes of
//! what is not yet whole, and the bytes that wait to go out. How many bytes came is counted above.

ghost use Rattle.std.specs.Prelude.{◌≡◌, ◌<◌, ◌≤◌, [], length, take, drop, true, false, Some, None, IfOk, OnOk, OnErr};
ghost use Rattle.lnbd_model.specs.declared.kind.Kind.TheVariants.{Write};
ghost use Rattle.lnbd_stream.specs.Stream.{feed};
ghost use Rattle.lnbd_export.specs.Requests.{is_extended};
ghost use Rattle.lnbd_server.specs.Client.{Heard, says};
ghost use Rattle.lnbd_server.specs.Options.{option_answer};
ghost use Rattle.lnbd_server.specs.Seen.{heard_of, IsThere};
ghost use Rattle.lnbd_server.specs.Session.{begun, is_closed, is_strayed, state_of, with_export, answering, asking, entering, rules, MakesReply};

use crate::client::{Seen, look};
use crate::options::answer_option;
use crate::outbox::Outbox;
use crate::replies::put_reply;
use crate::stage::{Offers, Stage};
use lnbd_export::{Agreed, Export, Replies, Request};
use lnbd_model::NoMemory;
use lnbd_records::names::FLAG_NO_ZEROES;
use std::alloc::Global;
use std::marker::Model;
use std::mem::replace;

/// The hello: NBDMAGIC, IHAVEOPT and the flags FIXED_NEWSTYLE and NO_ZEROES.
const HELLO: &[u8] = b"NBDMAGICIHAVEOPT\x00\x03";

/// NO_ZEROES of the client's flags.
const NO_ZEROES: u32 = FLAG_NO_ZEROES as u32;

#[derive(Debug, Drop)]
pub(crate) struct Dialogue {
    alloc: Global,
    stage: Stage,
    no_zeroes: bool,
    agreed: Agreed,
    waiting: Vec<Request>,
    heard: Vec<u8>,
    out: Outbox,
}

impl Model for Dialogue {
    ghost use Rattle.std.specs.Prelude.{◌≡◌, None};
    ghost use Rattle.lnbd_export.specs.Requests.{is_extended};
    ghost use Rattle.lnbd_server.specs.Client.{says};
    ghost use Rattle.lnbd_server.specs.Session.{Dialogue as Kept};

    ghost Value = { Kept };

    ghost view = { λ d. record { stage = d.stage; no_zeroes = d.no_zeroes; agreed = d.agreed; waiting = d.waiting.items; heard = d.heard.items; out = d.out } };

    ghost invariant = { λ d. says d.stage (is_extended d.agreed.replies) d.heard.items ≡ None };
}

#[tactic(auto, using(crate::proofs::Says::empty_none))]
impl Dialogue {
    /// Nothing was heard, and the hello waits.
    pub fn new(alloc: Global) -> Result<Dialogue, NoMemory>
        ensures { IfOk result (λ dialogue. dialogue ≡ begun) }
    {
        let mut out = Outbox::new(alloc);
        out.append(HELLO, &[], &[])?;
        Ok(Dialogue {
            alloc,
            stage: Stage::Greeting,
            no_zeroes: false,
            agreed: Agreed {
                replies: Replies::Simple,
                allocation: false,
            },
            waiting: Vec::new(alloc),
            heard: Vec::new(alloc),
            out,
        })
    }

    pub fn is_closed(&self) -> bool
        ensures closed { result ≡ is_closed self.now.stage }
        ensures none { is_closed self.now.stage ≡ true → self.now.heard ≡ [] }
    {
        match self.stage {
            Stage::Greeting | Stage::Haggling | Stage::Serving => false,
            Stage::Ended | Stage::Strayed => true,
        }
    }

    pub fn is_strayed(&self) -> bool
        ensures { result ≡ is_strayed self.now.stage }
    {
        match self.stage {
            Stage::Strayed => true,
            _ => false,
        }
    }

    pub fn pending(&self) -> usize
        ensures { result ≡ length self.now.waiting }
    {
        self.waiting.len()
    }

    pub fn out(&self) -> &[u8]
        ensures { result.now ≡ self.now.out }
    {
        self.out.as_slice()
    }

    pub fn gave(&mut self, n: usize)
        requires { n ≤ length self.old.out }
        ensures { self.new ≡ record self.old { out = drop n self.old.out } }
    {
        self.out.give(n);
    }

    /// The bytes are no client's from here on.
    pub fn stray(&mut self)
        ensures { self.new ≡ record self.old { stage = Stage.Strayed; heard = [] } }
    {
        self.stage = Stage::Strayed;
        self.heard.clear();
    }

    /// Makes the pending reply at this place. On `NoMemory` nothing changes.
    pub fn answer(&mut self, pick: usize, export: &Export) -> Result<(), NoMemory>
        requires { pick < length self.old.waiting }
        ensures ok { OnOk result (MakesReply self.old pick export.now self.new) }
        ensures err { OnErr result (self.new ≡ self.old) }
    {
        let request = self.waiting[pick];
        put_reply(self.alloc, export, self.agreed, request, &mut self.out)?;
        self.waiting.remove(pick);
        Ok(())
    }

    /// Takes some of these bytes, at least one: up to the end of what is then whole, or all of them. On
    /// `NoMemory` nothing changes.
    pub fn step(
        &mut self,
        offers: Offers,
        bytes: &[u8],
        export: &mut Export,
    ) -> Result<usize, NoMemory>
        requires open { is_closed self.old.stage ≡ false }
        requires some { 0 < length bytes.now }
        ensures count { IfOk result (λ n. (0 < n) × (n ≤ length bytes.now)) }
        ensures ok { IfOk result (λ n. feed (rules offers) (with_export self.old export.old) (take n bytes.now) ≡ with_export self.new export.new) }
        ensures err { OnErr result ((self.new ≡ self.old) × (export.new ≡ export.old)) }
    {
        if self.heard.is_empty() {
            self.first(offers, bytes, export)
        } else {
            self.further(offers, bytes, export)
        }
    }

    /// A step where no byte is held.
    fn first(
        &mut self,
        offers: Offers,
        bytes: &[u8],
        export: &mut Export,
    ) -> Result<usize, NoMemory>
        requires open { is_closed self.old.stage ≡ false }
        requires some { 0 < length bytes.now }
        requires none { self.old.heard ≡ [] }
        ensures count { IfOk result (λ n. (0 < n) × (n ≤ length bytes.now)) }
        ensures ok { IfOk result (λ n. feed (rules offers) (with_export self.old export.old) (take n bytes.now) ≡ with_export self.new export.new) }
        ensures err { OnErr result ((self.new ≡ self.old) × (export.new ≡ export.old)) }
    {
        let seen = self.seen_in(bytes);
        match seen {
            Seen::Nothing => {
                self.hold(bytes)?;
                Ok(bytes.len())
            }
            _ => {
                self.enter(offers, seen, bytes, export)?;
                Ok(seen.used(bytes.len()))
            }
        }
    }

    /// A step where bytes are held.
    fn further(
        &mut self,
        offers: Offers,
        bytes: &[u8],
        export: &mut Export,
    ) -> Result<usize, NoMemory>
        requires open { is_closed self.old.stage ≡ false }
        requires some { 0 < length bytes.now }
        ensures count { IfOk result (λ n. (0 < n) × (n ≤ length bytes.now)) }
        ensures ok { IfOk result (λ n. feed (rules offers) (with_export self.old export.old) (take n bytes.now) ≡ with_export self.new export.new) }
        ensures err { OnErr result ((self.new ≡ self.old) × (export.new ≡ export.old)) }
    {
        let mut all = self.take_heard();
        let before = all.len();
        if all.extend_from_slice(bytes).is_err() {
            self.put_heard(all);
            return Err(NoMemory);
        }
        let seen = self.seen_in(&all);
        match seen {
            Seen::Nothing => {
                self.put_heard(all);
                Ok(bytes.len())
            }
            _ => match self.enter(offers, seen, &all, export) {
                Ok(()) => Ok(seen.used(all.len()) - before),
                Err(_) => {
                    all.truncate(before);
                    self.put_heard(all);
                    Err(NoMemory)
                }
            },
        }
    }

    /// What these bytes show.
    fn seen_in(&self, bytes: &[u8]) -> Seen
        requires { is_closed self.now.stage ≡ false }
        ensures said { says self.now.stage (is_extended self.now.agreed.replies) bytes.now ≡ heard_of result bytes.now }
        ensures there { IsThere result bytes.now }
    {
        look(self.stage, self.agreed.replies.is_extended(), bytes)
    }

    /// The bytes that are held, which show nothing.
    fn take_heard(&mut self) -> Vec<u8>
        ensures bytes { result.items ≡ self.old.heard }
        ensures shows { says self.old.stage (is_extended self.old.agreed.replies) self.old.heard ≡ None }
        ensures none { self.new ≡ record self.old { heard = [] } }
    {
        replace(&mut self.heard, Vec::new(self.alloc))
    }

    /// Holds these bytes.
    fn put_heard(&mut self, heard: Vec<u8>)
        requires { says self.old.stage (is_extended self.old.agreed.replies) heard.items ≡ None }
        ensures { self.new ≡ record self.old { heard = heard.items } }
    {
        self.heard = heard;
    }

    /// Holds bytes that show nothing yet.
    fn hold(&mut self, bytes: &[u8]) -> Result<(), NoMemory>
        requires none { self.old.heard ≡ [] }
        requires shows { says self.old.stage (is_extended self.old.agreed.replies) bytes.now ≡ None }
        ensures ok { OnOk result (self.new ≡ record self.old { heard = bytes.now }) }
        ensures err { OnErr result (self.new ≡ self.old) }
    {
        self.heard.extend_from_slice(bytes)?;
        Ok(())
    }

    /// Does what was seen in these bytes. On `NoMemory` nothing changes.
    fn enter(
        &mut self,
        offers: Offers,
        seen: Seen,
        bytes: &[u8],
        export: &mut Export,
    ) -> Result<(), NoMemory>
        requires none { self.old.heard ≡ [] }
        requires there { IsThere seen bytes.now }
        ensures ok { OnOk result ((heard : Heard) → heard_of seen bytes.now ≡ Some heard →
            state_of self.new export.new ≡ entering offers heard.said (state_of self.old export.old)) }
        ensures none { self.new.heard ≡ [] }
        ensures err { OnErr result ((self.new ≡ self.old) × (export.new ≡ export.old)) }
    {
        match seen {
            Seen::Nothing => Ok(()),
            Seen::Flags(flags) => {
                self.no_zeroes = flags & NO_ZEROES != 0;
                self.stage = Stage::Haggling;
                Ok(())
            }
            Seen::OptionRequest { option, length } => {
                let (_, rest) = bytes.split_at(16);
                let (body, _) = rest.split_at(length);
                self.answer_option(offers, option, body, export)
            }
            Seen::Asks {
                request,
                head,
                payload,
            } => {
                let (_, rest) = bytes.split_at(head);
                let (payload, _) = rest.split_at(payload);
                self.ask(request, payload, export)
            }
            Seen::Disconnect { .. } => {
                self.stage = Stage::Ended;
                Ok(())
            }
            Seen::Stray => {
                self.stage = Stage::Strayed;
                Ok(())
            }
        }
    }

    /// Answers an option.
    fn answer_option(
        &mut self,
        offers: Offers,
        option: u32,
        body: &[u8],
        export: &Export,
    ) -> Result<(), NoMemory>
        requires { self.old.heard ≡ [] }
        ensures ok { OnOk result (state_of self.new export.now ≡ answering (option_answer offers export.now self.old.no_zeroes self.old.agreed option body.now) (state_of self.old export.now)) }
        ensures none { self.new.heard ≡ [] }
        ensures err { OnErr result (self.new ≡ self.old) }
    {
        let answer = answer_option(
            self.alloc,
            offers,
            export,
            self.no_zeroes,
            self.agreed,
            option,
            body,
        )?;
        self.out.append(&answer.bytes, &[], &[])?;
        self.agreed = answer.agreed;
        self.stage = answer.stage;
        Ok(())
    }

    /// Does what a request asks; its reply is then pending.
    fn ask(&mut self, request: Request, payload: &[u8], export: &mut Export) -> Result<(), NoMemory>
        requires write { request.kind ≡ Some Write → length payload.now ≡ request.length }
        ensures ok { OnOk result (state_of self.new export.new ≡ asking request payload.now (state_of self.old export.old)) }
        ensures none { self.new.heard ≡ self.old.heard }
        ensures err { OnErr result ((self.new ≡ self.old) × (export.new ≡ export.old)) }
    {
        self.waiting.reserve(1)?;
        export.perform(self.agreed, request, payload)?;
        self.waiting.push_reserved(request);
        Ok(())
    }
}
