//! What is kept of one command that is answered by chunks. Where its content goes and who is told of it is not known here.

ghost use Rattle.std.specs.Prelude.{◌≡◌, ◌≤◌, ◌<◌, ◌+◌, ◌-◌, ◌^◌, ◌↔◌, ◌||◌, ◌&&◌, ℕ, Bool, List, true, false, None, Some, Err, OnOk, OnErr, IfOk, IsErrOf, if◌then◌else◌, length};
ghost use Rattle.lnbd_chunks.specs.Chunk.{form_of, is_done, lies_within};
ghost use Rattle.lnbd_model.specs.Kind.{is_read};
ghost use Rattle.lnbd_model.specs.declared.breach.Breach.{Breach};
ghost use Rattle.lnbd_model.specs.declared.export.Context.{Context as MetaContext};
ghost use Rattle.lnbd_outcome.specs.Facts.{is_bad, is_told};
ghost use Rattle.lnbd_outcome.specs.Pieces.{is_whole};
ghost use Rattle.lnbd_model.specs.Errors.{error_of};
ghost use Rattle.lnbd_outcome.specs.Outcome.{error_number, or_else, failing};
ghost use Rattle.lnbd_records.specs.Content as content;
ghost use Rattle.lnbd_records.specs.Limits.{max_data, max_faults};
ghost use Rattle.lnbd_structured.specs.Assembly.{Assembled, fresh, head_of, breach_shown, place_shown, judged_as, fixed_size, content_by, told_by, effect_of, ended_by, clashes, waiting_of, is_data};
ghost use Rattle.lnbd_structured.specs.Steps.{content_told, status_bad, status_told, error_told, failed, faulted, placed, with_failure, with_facts};
ghost use Rattle.lnbd_structured.specs.Told.{IsInside, content_in};
ghost use Rattle.lnbd_structured.specs.declared.effect.Effect.{Effect};
ghost use Rattle.lnbd_structured.specs.declared.effect.ChunkFault.{ChunkFault};

use crate::effect::{ChunkFault, Effect, Judged};
use crate::grammar::{Waiting, breach_shown, form_of};
use crate::status::{all_told, any_empty, is_agreed, is_among};
use crate::told::Told;
use lnbd_chunks::Form;
use lnbd_extents::{AddFault, Ranges};
use lnbd_model::{Breach, Contexts, EPROTO, Extent, Failure, Kind, NoMemory, Origin, told_error};
use lnbd_records::names::{CMD_FLAG_DF, CMD_FLAG_REQ_ONE};
use lnbd_records::{u32_at, u64_at};
use lnbd_wire::ExtHead;
use std::alloc::Global;
use std::marker::Model;

/// What is kept of a command in place of the chunks that came for it.
#[derive(Debug, Drop)]
pub struct Assembly {
    kind: Kind,
    offset: u64,
    length: u64,
    flags: u32,
    extended: bool,
    /// Counted from the command's offset, so that no sum is too large.
    told: Ranges,
    contexts: Vec<u32>,
    came: bool,
    faults: u32,
    failure: Option<Failure>,
}

impl Model for Assembly {
    ghost use Rattle.std.specs.Prelude.{◌≡◌, ◌<◌, ◌^◌, [], true};
    ghost use Rattle.lnbd_model.specs.Kind.{is_read};
    ghost use Rattle.lnbd_structured.specs.Assembly.{Assembled};
    ghost use Rattle.lnbd_records.specs.Limits.{max_data};
    ghost use Rattle.lnbd_structured.specs.Shift.{shift};

    ghost Value = { Assembled };

    ghost view = { λ a. record {
      query = record { kind = a.kind; flags = a.flags; offset = a.offset; length = a.length; payload = [] };
      extended = a.extended;
      facts = record { told = shift a.offset a.told; contexts = a.contexts.items; came = a.came; faults = a.faults; failure = a.failure };
    } };

    ghost invariant = { λ a. is_read a.kind ≡ true → a.length < 2 ^ 63 };
}

impl Assembly {
    /// A command to which nothing came. It takes no memory.
    pub fn new(
        alloc: Global,
        kind: Kind,
        offset: u64,
        length: u64,
        flags: u32,
        extended: bool,
    ) -> Assembly
        requires { is_read kind ≡ true → length < 2 ^ 63 }
        ensures { result ≡ fresh kind offset length flags extended }
    {
        Assembly {
            kind,
            offset,
            length,
            flags,
            extended,
            told: Ranges::new(alloc),
            contexts: Vec::new(alloc),
            came: false,
            faults: 0,
            failure: None,
        }
    }

    /// What the head of a chunk and the first bytes behind it show. `fixed` is a front of what `chunk` takes.
    pub fn judge(&self, head: &ExtHead, fixed: &[u8]) -> Judged
        ensures { result ≡ judged_as (breach_shown self.now (head_of head.now) fixed.now) (place_shown self.now (head_of head.now) fixed.now) }
    {
        if let Some(breach) = self.breach_in(head, fixed) {
            return Judged::Breach(breach);
        }
        match self.place_in(head, fixed) {
            Some((offset, length)) => Judged::Place { offset, length },
            None => Judged::Going,
        }
    }

    fn breach_in(&self, head: &ExtHead, fixed: &[u8]) -> Option<Breach>
        ensures { result ≡ breach_shown self.now (head_of head.now) fixed.now }
    {
        let waiting = Waiting {
            kind: self.kind,
            offset: self.offset,
            length: self.length,
            faults: self.faults,
        };
        breach_shown(&waiting, self.extended, head, fixed)
    }

    /// Where the data of a chunk go.
    fn place_in(&self, head: &ExtHead, fixed: &[u8]) -> Option<(u64, u64)>
        requires { breach_shown self.now (head_of head.now) fixed.now ≡ None }
        ensures { result ≡ place_shown self.now (head_of head.now) fixed.now }
    {
        if !is_data(form_of(self.extended, head.kind)) || fixed.len() < 8 {
            return None;
        }
        let offset = u64_at(fixed, 0);
        let length = head.length.saturating_sub(8);
        if self.clashes(offset, length) {
            None
        } else {
            Some((offset, length))
        }
    }

    /// Whether content came before where one chunk has the whole (DF).
    fn came_again(&self) -> bool
        ensures { result ≡ (is_whole self.now.query && self.now.facts.came) }
    {
        self.flags & CMD_FLAG_DF as u32 != 0 && self.came
    }

    /// Whether content at these places of the export would have a fault now: some of them were told, or content came where one chunk has the whole.
    pub fn clashes(&self, offset: u64, length: u64) -> bool
        requires read { is_read self.now.query.kind ≡ true }
        requires within { lies_within (waiting_of self.now) offset length ≡ true }
        ensures { result ≡ clashes self.now offset length }
    {
        if self.came_again() {
            return true;
        }
        self.told.meets(offset - self.offset, length)
    }

    /// Holds these places of the export as told, unless content there has a fault. Answers whether it has one.
    fn hold(&mut self, offset: u64, length: u64) -> Result<bool, NoMemory>
        requires read { is_read self.old.query.kind ≡ true }
        requires within { lies_within (waiting_of self.old) offset length ≡ true }
        ensures ok { IfOk result (λ bad. self.new ≡ (if bad then self.old else with_facts (placed offset length self.old.facts) self.old)) }
        ensures fault { IfOk result (λ bad. bad ≡ clashes self.old offset length) }
        ensures err { OnErr result (self.new ≡ self.old) }
    {
        if self.came_again() {
            return Ok(true);
        }
        match self.told.add(offset - self.offset, length) {
            Ok(()) => {
                self.came = true;
                Ok(false)
            }
            Err(AddFault::Overlap) => Ok(true),
            Err(AddFault::NoMemory) => Err(NoMemory),
        }
    }

    /// Tells content of these places of the export, unless it has a fault. Answers whether it has one.
    fn tell_content(&mut self, empty: bool, offset: u64, length: u64) -> Result<bool, NoMemory>
        requires read { is_read self.old.query.kind ≡ true }
        requires within { lies_within (waiting_of self.old) offset length ≡ true }
        requires few { self.old.facts.faults ≤ max_faults }
        ensures ok { OnOk result (self.new ≡ with_facts (content_told (empty || clashes self.old offset length) offset length self.old.facts) self.old) }
        ensures fault { IfOk result (λ bad. bad ≡ (empty || clashes self.old offset length)) }
        ensures err { OnErr result (self.new ≡ self.old) }
    {
        if empty {
            self.note_bad_content();
            return Ok(true);
        }
        if self.hold(offset, length)? {
            self.note_bad_content();
            return Ok(true);
        }
        Ok(false)
    }

    /// Tells the extents of a meta context, unless they have a fault. Answers whether they have one.
    fn tell_status(
        &mut self,
        id: u32,
        entries: &[Extent],
        contexts: &Contexts,
    ) -> Result<bool, NoMemory>
        requires few { self.old.facts.faults ≤ max_faults }
        ensures ok { OnOk result (self.new ≡ with_facts (status_told (status_bad self.old contexts.now id entries.now) id self.old.facts) self.old) }
        ensures fault { IfOk result (λ bad. bad ≡ status_bad self.old contexts.now id entries.now) }
        ensures err { OnErr result (self.new ≡ self.old) }
    {
        let single = self.flags & CMD_FLAG_REQ_ONE as u32 != 0;
        if !is_agreed(contexts.as_slice(), id)
            || is_among(&self.contexts, id)
            || any_empty(entries)
            || (single && entries.len() >= 2)
        {
            self.note_fault();
            return Ok(true);
        }
        match self.contexts.insert(0, id) {
            Ok(()) => Ok(false),
            Err(_) => Err(NoMemory),
        }
    }

    /// Counts a fault, which is the error of its command if it is the first one.
    fn note_fault(&mut self)
        requires few { self.old.facts.faults ≤ max_faults }
        ensures { self.new ≡ with_facts (faulted false self.old.facts) self.old }
    {
        self.faults += 1;
        self.keep_first(Origin::Content, EPROTO);
    }

    /// Counts content that has a fault.
    fn note_bad_content(&mut self)
        requires few { self.old.facts.faults ≤ max_faults }
        ensures { self.new ≡ with_facts (faulted true self.old.facts) self.old }
    {
        self.note_fault();
        self.came = true;
    }

    /// Keeps an error, unless it is 0 or another one came before.
    fn keep_first(&mut self, origin: Origin, error: u32)
        ensures { self.new ≡ with_facts (with_failure origin error self.old.facts) self.old }
    {
        let _ = &self.kind;
        self.failure = first_of(self.failure, origin, error);
    }
}

/// The earlier failure, or one from here with this error.
fn first_of(earlier: Option<Failure>, origin: Origin, error: u32) -> Option<Failure>
    ensures { result ≡ or_else earlier (failing origin error) }
{
    match earlier {
        Some(failure) => Some(failure),
        None => {
            if error == 0 {
                None
            } else {
                Some(Failure { origin, error })
            }
        }
    }
}

fn is_data(form: Form) -> bool
    ensures { result ≡ is_data form }
{
    match form {
        Form::Data => true,
        Form::Empty => false,
        Form::Hole => false,
        Form::Status => false,
        Form::ExtendedStatus => false,
        Form::Error => false,
        Form::ErrorAt => false,
        Form::OtherError => false,
        Form::Unknown => false,
    }
}

// What each form of chunk does.
impl Assembly {
    fn take_data(&mut self, offset: u64, size: u64) -> Result<Effect, NoMemory>
        requires read { is_read self.old.query.kind ≡ true }
        requires within { lies_within (waiting_of self.old) offset size ≡ true }
        requires few { self.old.facts.faults ≤ max_faults }
        ensures ok { OnOk result ((bytes : List ℕ) (contexts : List MetaContext) (last : Bool) → length bytes ≡ size → self.new ≡ told_by self.old contexts (content.Data offset bytes) last) }
        ensures effect { IfOk result (λ effect. (bytes : List ℕ) (contexts : List MetaContext) → length bytes ≡ size → effect ≡ effect_of self.old contexts (content.Data offset bytes)) }
        ensures err { OnErr result (self.new ≡ self.old) }
    {
        match self.tell_content(false, offset, size) {
            Ok(true) => Ok(Effect::Nothing),
            Ok(false) => Ok(Effect::Place {
                offset,
                length: size,
            }),
            Err(fault) => Err(fault),
        }
    }

    fn take_hole(&mut self, offset: u64, size: u64) -> Result<Effect, NoMemory>
        requires read { is_read self.old.query.kind ≡ true }
        requires within { lies_within (waiting_of self.old) offset size ≡ true }
        requires few { self.old.facts.faults ≤ max_faults }
        ensures ok { OnOk result ((contexts : List MetaContext) (last : Bool) → self.new ≡ told_by self.old contexts (content.Hole offset size) last) }
        ensures effect { IfOk result (λ effect. (contexts : List MetaContext) → effect ≡ effect_of self.old contexts (content.Hole offset size)) }
        ensures err { OnErr result (self.new ≡ self.old) }
    {
        match self.tell_content(size == 0, offset, size) {
            Ok(true) => Ok(Effect::Nothing),
            Ok(false) => Ok(Effect::Hole {
                offset,
                length: size,
            }),
            Err(fault) => Err(fault),
        }
    }

    fn take_status(
        &mut self,
        id: u32,
        entries: &[Extent],
        contexts: &Contexts,
    ) -> Result<Effect, NoMemory>
        requires few { self.old.facts.faults ≤ max_faults }
        ensures ok { OnOk result ((last : Bool) → self.new ≡ told_by self.old contexts.now (content.Status id entries.now) last) }
        ensures effect { IfOk result (λ effect. effect ≡ effect_of self.old contexts.now (content.Status id entries.now)) }
        ensures err { OnErr result (self.new ≡ self.old) }
    {
        match self.tell_status(id, entries, contexts) {
            Ok(true) => Ok(Effect::Nothing),
            Ok(false) => Ok(Effect::Told { context: id }),
            Err(fault) => Err(fault),
        }
    }

    /// An error with this number on the wire.
    fn take_error(&mut self, number: u32, offset: Option<u64>) -> Effect
        requires few { self.old.facts.faults ≤ max_faults }
        ensures new { self.new ≡ with_facts (error_told number self.old.facts) self.old }
        ensures effect { result ≡ Effect.Error offset (error_of number) }
    {
        let error = told_error(number);
        self.faults += 1;
        self.keep_first(Origin::Told, error);
        Effect::Error { offset, error }
    }

    /// Takes a chunk that shows no breach.
    fn take(
        &mut self,
        head: &ExtHead,
        fixed: &[u8],
        entries: &[Extent],
        contexts: &Contexts,
    ) -> Result<Effect, NoMemory>
        requires lawful { breach_shown self.old (head_of head.now) fixed.now ≡ None }
        requires whole { fixed_size (form_of self.old.extended head.now.kind) ≤ length fixed.now }
        requires few { self.old.facts.faults ≤ max_faults }
        ensures ok { OnOk result ((bytes : List ℕ) → length bytes ≡ head.now.length - 8 →
            self.new ≡ told_by self.old contexts.now (content_by (form_of self.old.extended head.now.kind) fixed.now entries.now bytes) (is_done (head_of head.now))) }
        ensures effect { IfOk result (λ effect. (bytes : List ℕ) → length bytes ≡ head.now.length - 8 →
            effect ≡ effect_of self.old contexts.now (content_by (form_of self.old.extended head.now.kind) fixed.now entries.now bytes)) }
        ensures err { OnErr result (self.new ≡ self.old) }
    {
        match form_of(self.extended, head.kind) {
            Form::Data => self.take_data(u64_at(fixed, 0), head.length.saturating_sub(8)),
            Form::Hole => self.take_hole(u64_at(fixed, 0), u64::from(u32_at(fixed, 8))),
            Form::Status => self.take_status(u32_at(fixed, 0), entries, contexts),
            Form::ExtendedStatus => self.take_status(u32_at(fixed, 0), entries, contexts),
            Form::Error => Ok(self.take_error(u32_at(fixed, 0), None)),
            Form::OtherError => Ok(self.take_error(u32_at(fixed, 0), None)),
            Form::ErrorAt => Ok(self.take_error(u32_at(fixed, 0), Some(u64_at(fixed, 6)))),
            Form::Empty => Ok(Effect::Nothing),
            Form::Unknown => Ok(Effect::Nothing),
        }
    }
}

impl Assembly {
    /// Takes a whole chunk: its head, the fixed numbers of its payload, and the descriptors of a block status. Of content the numbers are its
    /// place, and of zeros how many; of an error its front of six bytes, and its place if it has one; of a block status the meta context, and
    /// the count if there is one. `contexts` are those that are agreed. What the data are is not asked. On an Err nothing has changed.
    pub fn chunk(
        &mut self,
        head: &ExtHead,
        fixed: &[u8],
        entries: &[Extent],
        contexts: &Contexts,
    ) -> Result<Effect, ChunkFault>
        requires whole { fixed_size (form_of self.old.extended head.now.kind) ≤ length fixed.now }
        requires few { self.old.facts.faults ≤ max_faults }
        ensures ok { OnOk result ((bytes : List ℕ) → length bytes ≡ head.now.length - 8 →
            self.new ≡ told_by self.old contexts.now (content_by (form_of self.old.extended head.now.kind) fixed.now entries.now bytes) (is_done (head_of head.now))) }
        ensures effect { IfOk result (λ effect. (bytes : List ℕ) → length bytes ≡ head.now.length - 8 →
            effect ≡ effect_of self.old contexts.now (content_by (form_of self.old.extended head.now.kind) fixed.now entries.now bytes)) }
        ensures breach { (breach : Breach) → IsErrOf result (ChunkFault.Breach breach) ↔ (breach_shown self.old (head_of head.now) fixed.now ≡ Some breach) }
        ensures err { OnErr result (self.new ≡ self.old) }
    {
        match self.breach_in(head, fixed) {
            Some(breach) => Err(ChunkFault::Breach(breach)),
            None => match self.take(head, fixed, entries, contexts) {
                Ok(effect) => Ok(effect),
                Err(_) => Err(ChunkFault::NoMemory),
            },
        }
    }

    /// How many chunks so far were errors or had a content fault. After 1,024 of them only the last chunk may come.
    pub fn faults(&self) -> u32
        ensures { result ≡ self.now.facts.faults }
    {
        self.faults
    }

    /// The number of the first error so far, or 0.
    pub fn error(&self) -> u32
        ensures { result ≡ error_number self.now.facts.failure }
    {
        match self.failure {
            None => 0,
            Some(failure) => failure.error,
        }
    }

    /// The first error so far, with where it came from.
    pub fn failure(&self) -> Option<Failure>
        ensures { result ≡ self.now.facts.failure }
    {
        self.failure
    }

    /// Notes what the command's callback answered to the last chunk, 0 being no error.
    pub fn fail(&mut self, error: u32)
        ensures { self.new ≡ with_facts (failed error self.old.facts) self.old }
    {
        self.keep_first(Origin::Callback, error);
    }

    /// Whether all that was asked was told: each byte of a read, each agreed meta context of a block status.
    pub fn is_told(&self, contexts: &Contexts) -> bool
        ensures { result ≡ is_told self.now.query contexts.now self.now.facts }
    {
        match self.kind {
            Kind::Read => self.told.covers(0, self.length),
            Kind::BlockStatus => all_told(&self.contexts, contexts.as_slice()),
            Kind::Write | Kind::Flush | Kind::Trim | Kind::Cache | Kind::Zero => true,
        }
    }

    /// Ends the command after its last chunk: what was not told is its error, if it has none before. Answers the number of the first error, or 0.
    pub fn end(&mut self, contexts: &Contexts) -> u32
        ensures new { self.new ≡ ended_by self.old contexts.now }
        ensures error { result ≡ error_number self.new.facts.failure }
    {
        if !self.is_told(contexts) {
            self.keep_first(Origin::Content, EPROTO);
        }
        self.error()
    }
}

// What comes without its head.
impl Assembly {
    /// Takes what a chunk tells, whose breaches were judged before. `contexts` are those that are agreed. Answers whether it has a fault.
    /// For want of memory nothing has changed.
    #[tactic(auto, using(crate::proofs::ToldLemmas::hole_fault))]
    pub fn tell(&mut self, told: Told<'_>, contexts: &Contexts) -> Result<bool, NoMemory>
        requires few { self.old.facts.faults ≤ max_faults }
        requires inside { IsInside (waiting_of self.old) (content_in told) }
        ensures ok { OnOk result ((last : Bool) → self.new ≡ told_by self.old contexts.now (content_in told.entry) last) }
        ensures fault { IfOk result (λ bad. bad ≡ is_bad self.old.query contexts.now self.old.facts (content_in told.entry)) }
        ensures err { OnErr result (self.new ≡ self.old) }
    {
        match told {
            Told::Data { offset, bytes } => self.tell_content(false, offset, bytes.len() as u64),
            Told::Hole { offset, length } => self.tell_content(length == 0, offset, length),
            Told::Status { context, entries } => self.tell_status(context, entries, contexts),
            Told::Error { number, offset } => {
                self.take_error(number, offset);
                Ok(false)
            }
            Told::Nothing => Ok(false),
        }
    }

    /// Whether data of the whole read would have a fault now.
    #[tactic(auto, using(crate::proofs::ToldLemmas::whole_inside))]
    pub fn is_told_twice(&self) -> bool
        requires { is_read self.now.query.kind ≡ true }
        ensures { result ≡ clashes self.now self.now.query.offset self.now.query.length }
    {
        self.clashes(self.offset, self.length)
    }
}
