//! What each line does on a handle that is not closed. No text is made here.

ghost use Rattle.std.specs.Prelude.{◌≡◌, ◌≢◌, ◌-◌, bit_and, IfErr, IfOk, OnErr, OnOk, Ok, Err, None, Some, [], true, false};
ghost use Rattle.lnbd_machine.specs.Machine.{step};
ghost use Rattle.lnbd_machine.specs.Now.{state_now};
ghost use Rattle.lnbd_history.specs.declared.kinds.Stage.TheVariants.{Created};
ghost use Rattle.lnbd_history.specs.Answers.{state_after, completed_after};
ghost use Rattle.lnbd_history.specs.Events.{ClearLog, Name, Set};
ghost use Rattle.lnbd_history.specs.Laws.{may_name};
ghost use Rattle.lnbd_history.specs.Refusals.{by_state};
ghost use Rattle.lnbd_history.specs.Strict.{unknown_bits};
ghost use Rattle.lnbd_script.specs.Acts.{reach_of};
ghost use Rattle.lnbd_poll.specs.States.{is_opt_mode};
ghost use Rattle.lnbd_script.specs.Lines.{Adds, AddsContext, Connects, ConnectsTo, Disconnects, AsksFor, Does, Hears, ReadsOn, Sets, SetsStrict, WritesOn, connected, has_all_contexts, is_created, is_structured, lacks_structured, setting_of, taking};
ghost use Rattle.lnbd_script.specs.Seen.{Counts, Goes, IsAt, Seen, adding};
ghost use Rattle.lnbd_script.specs.Steps.{Becomes, Takes_option, halted, is_alone, is_close, linked_told, moved_end, option_told};
ghost use Rattle.lnbd_script.specs.Turns.{is_reading, is_waiting};
ghost use Rattle.lnbd_lines.specs.declared.line.Line.TheVariants.{ConnectUri};
ghost use Rattle.lnbd_script.specs.declared.reach.Reach.TheVariants as reach;
ghost use Rattle.lnbd_script.specs.declared.told.Halt.TheVariants as halt;
ghost use Rattle.lnbd_script.specs.declared.told.Told.TheVariants as told;

use crate::event::Event;
use crate::keeper::Keeper;
use crate::session::{Session, or_first};
use crate::told::{Halt, Linked, Moved, Told};
use lnbd_handle::strict::ALL;
use lnbd_handle::{Handle, OptFault, SetFault};
use lnbd_lines::{Line, Opt, Switch};
use lnbd_link::Wires;
use lnbd_model::{NoMemory, Place, State, Target, Text};
use lnbd_poll::Inbox;
use std::alloc::Global;
use std::mem::replace;

/// Turns a setting of a handle on or off.
fn turn(handle: &mut Handle<Keeper>, switch: Switch, on: bool) -> Result<(), SetFault>
    ensures ok { OnOk result (handle.new.machine ≡ step handle.old.machine (Set (setting_of switch on))) }
    ensures allowed { OnOk result (handle.old.machine.known.stage ≡ Created) }
    ensures refused { IfErr result (λ fault. (handle.old.machine.known.stage ≢ Created) × (fault ≡ SetFault.State (state_now handle.old.machine.known))) }
    ensures err { OnErr result (handle.new.machine ≡ handle.old.machine) }
{
    match switch {
        Switch::Structured => handle.set_request_structured_replies(on),
        Switch::Extended => handle.set_request_extended_headers(on),
        Switch::OptMode => handle.set_opt_mode(on),
    }
}

/// Hands an option to a handle.
fn opt(handle: &mut Handle<Keeper>, option: Opt) -> Result<(), OptFault>
    ensures takes { Takes_option option result handle.old.machine handle.new.machine }
{
    match option {
        Opt::List => handle.opt_list(),
        Opt::Info => handle.opt_info(),
        Opt::Meta => handle.opt_set_meta_context(),
        Opt::Go => handle.opt_go(),
        Opt::Abort => handle.opt_abort(),
    }
}

impl Session {
    /// Starts the handle on its new link.
    fn start(&mut self, link: u32)
        requires created { is_created (state_now self.old.handle.machine.known) ≡ true }
        ensures started { Becomes self.old self.new (λ before after. after ≡ connected (Some link) before) }
        ensures first { self.new.first ≡ self.old.first }
    {
        self.link = Some(link);
        let _ = self.handle.start();
    }

    /// Sets the export's name, before the start.
    fn take_name(&mut self, name: Text)
        requires created { is_created (state_now self.old.handle.machine.known) ≡ true }
        ensures named { Becomes self.old self.new (λ before after. after ≡ adding (Set (Name name)) before) }
        ensures created { is_created (state_now self.new.handle.machine.known) ≡ true }
        ensures first { self.new.first ≡ self.old.first }
    {
        let _ = self.handle.set_export_name(name);
    }

    /// Sets the export's name, and starts the handle on its new link.
    fn start_as(&mut self, link: u32, name: Text)
        requires created { is_created (state_now self.old.handle.machine.known) ≡ true }
        ensures started { Becomes self.old self.new (λ before after. after ≡ connected (Some link) (adding (Set (Name name)) before)) }
        ensures first { self.new.first ≡ self.old.first }
    {
        self.take_name(name);
        self.start(link);
    }

    /// Notes that a connect failed.
    fn blame(&mut self)
        ensures noted { Becomes self.old self.new (λ before after. after ≡ connected None before) }
    {
        self.first = or_first(self.first, Some(Event::Link));
    }

    /// Sets the export's name.
    fn set_name(&mut self, alloc: Global, name: &Text) -> Result<Told, NoMemory>
        ensures ok { IfOk result (λ tells. Becomes self.old self.new (λ before after. Sets (may_name (state_after before.history)) (Name name.now) before [] after (Ok tells))) }
        ensures lacks { OnErr result (Becomes self.old self.new (λ before after. after ≡ before)) }
        ensures first { self.new.first ≡ self.old.first }
    {
        let name = name.try_clone(alloc)?;
        match self.handle.set_export_name(name) {
            Ok(()) => Ok(Told::Done),
            Err(SetFault::State(state)) => Ok(Told::RefusedState(state)),
            Err(_) => Err(NoMemory),
        }
    }

    /// Sets the bits of strict mode.
    fn set_strict(&mut self, bits: u32) -> Told
        ensures told { Becomes self.old self.new (λ before after. SetsStrict (unknown_bits bits) bits before [] after (Ok result)) }
        ensures first { self.new.first ≡ self.old.first }
    {
        match self.handle.set_strict_mode(bits) {
            Ok(()) => Told::Done,
            Err(_) => Told::RefusedStrict(unknown_bits(bits)),
        }
    }

    /// Adds a meta context.
    fn add_context(&mut self, alloc: Global, name: &Text) -> Result<Told, NoMemory>
        ensures ok { IfOk result (λ tells. Becomes self.old self.new (λ before after. AddsContext (may_name (state_after before.history)) (has_all_contexts before.history) name.now before [] after (Ok tells))) }
        ensures lacks { OnErr result (Becomes self.old self.new (λ before after. after ≡ before)) }
        ensures first { self.new.first ≡ self.old.first }
    {
        let name = name.try_clone(alloc)?;
        match self.handle.add_meta_context(name) {
            Ok(()) => Ok(Told::Done),
            Err(SetFault::State(state)) => Ok(Told::RefusedState(state)),
            Err(SetFault::TooMany(most)) => Ok(Told::RefusedContext(most)),
            Err(SetFault::NoMemory) => Err(NoMemory),
        }
    }

    /// Turns a setting on or off, before the start.
    fn set_switch(&mut self, switch: Switch, on: bool) -> Told
        ensures told { Becomes self.old self.new (λ before after. Sets (is_created (state_after before.history)) (setting_of switch on) before [] after (Ok result)) }
        ensures first { self.new.first ≡ self.old.first }
    {
        match turn(&mut self.handle, switch, on) {
            Ok(()) => Told::Done,
            Err(SetFault::State(state)) => Told::RefusedState(state),
            Err(_) => unreachable!(),
        }
    }

    /// Asks for an option.
    fn ask(&mut self, option: Opt) -> Result<Told, NoMemory>
        ensures ok { IfOk result (λ tells. Becomes self.old self.new (λ before after. AsksFor (is_opt_mode (state_after before.history)) (lacks_structured option (is_structured before.history)) option before [] after (Ok tells))) }
        ensures lacks { OnErr result (Becomes self.old self.new (λ before after. after ≡ before)) }
        ensures first { self.new.first ≡ self.old.first }
    {
        let answer = opt(&mut self.handle, option);
        told_of_option(answer)
    }

    /// Asks for the end.
    fn disconnect(&mut self) -> Told
        ensures told { Becomes self.old self.new (λ before after. Disconnects (by_state (state_after before.history) None) before [] after (Ok result)) }
        ensures first { self.new.first ≡ self.old.first }
    {
        match self.handle.aio_disconnect() {
            Ok(()) => Told::Done,
            Err(why) => Told::Refused(why),
        }
    }

    /// Takes the result of a command.
    fn take_result(&mut self, cookie: u64) -> Told
        ensures told { Becomes self.old self.new (λ before after. Adds (taking (completed_after before.history cookie) cookie before) [] after (Ok result) (told.Result (completed_after before.history cookie))) }
        ensures first { self.new.first ≡ self.old.first }
    {
        Told::Result(self.handle.command_completed(cookie))
    }

    /// Takes what callbacks heard.
    fn take_heard(&mut self, alloc: Global) -> Result<Told, NoMemory>
        ensures ok { IfOk result (λ tells. Becomes self.old self.new (λ before after. Hears before [] after (Ok tells))) }
        ensures lacks { OnErr result (Becomes self.old self.new (λ before after. after ≡ before)) }
        ensures first { self.new.first ≡ self.old.first }
    {
        if !self.heeded.hears {
            return Err(NoMemory);
        }
        let lines = replace(&mut self.heeded.heard, String::new(alloc));
        Ok(Told::Heard(lines))
    }

    /// Drops the notes.
    fn clear_log(&mut self)
        ensures cleared { Becomes self.old self.new (λ before after. after ≡ adding ClearLog before) }
        ensures first { self.new.first ≡ self.old.first }
    {
        self.handle.clear_log();
    }
}

/// The bits of strict mode that mean nothing.
fn unknown_bits(bits: u32) -> u32
    ensures { result ≡ unknown_bits bits }
{
    bits - (bits & ALL)
}

/// What the handle's answer to an option comes to.
fn told_of_option(answer: Result<(), OptFault>) -> Result<Told, NoMemory>
    ensures { result ≡ option_told answer }
{
    match answer {
        Ok(()) => Ok(Told::Done),
        Err(OptFault::State(state)) => Ok(Told::RefusedState(state)),
        Err(OptFault::NotStructured) => Ok(Told::RefusedUnstructured),
        Err(OptFault::NoMemory) => Err(NoMemory),
    }
}

fn is_created(state: State) -> bool
    ensures { result ≡ is_created state }
{
    matches!(state, State::Created)
}

/// Connects, and starts the handle on the link that it is given.
fn dial<W: Wires>(session: &mut Session, wires: &mut W, to: &Target) -> Linked
    requires created { is_created (state_now session.old.handle.machine.known) ≡ true }
    ensures told { Goes (W.told wires.old) (W.told wires.new) session.old session.new (λ before calls after. Connects (is_created (state_after before.history)) to.now before calls after (Ok (linked_told result))) }
    ensures counts { Counts session.old.first session.new.first (W.faults wires.old) (W.faults wires.new) (W.idles wires.old) (W.idles wires.new) }
{
    match wires.connect(to) {
        Ok(link) => {
            session.start(link);
            Linked::Connected
        }
        Err(_) => {
            session.blame();
            Linked::NotConnected
        }
    }
}

/// Connects, where the handle was not started yet.
fn connect<W: Wires>(session: &mut Session, wires: &mut W, to: &Target) -> Linked
    ensures told { Goes (W.told wires.old) (W.told wires.new) session.old session.new (λ before calls after. Connects (is_created (state_after before.history)) to.now before calls after (Ok (linked_told result))) }
    ensures counts { Counts session.old.first session.new.first (W.faults wires.old) (W.faults wires.new) (W.idles wires.old) (W.idles wires.new) }
{
    let state = session.handle.state();
    if !is_created(state) {
        return Linked::Refused(state);
    }
    dial(session, wires, to)
}

/// Connects by an address whose export has this name, and starts the handle on the link that it is given.
fn dial_to<W: Wires>(session: &mut Session, wires: &mut W, place: &Place, name: Text) -> Linked
    requires created { is_created (state_now session.old.handle.machine.known) ≡ true }
    requires named { name ≡ place.now.name }
    ensures told { Goes (W.told wires.old) (W.told wires.new) session.old session.new (λ before calls after. ConnectsTo (is_created (state_after before.history)) place.now before calls after (Ok (linked_told result))) }
    ensures counts { Counts session.old.first session.new.first (W.faults wires.old) (W.faults wires.new) (W.idles wires.old) (W.idles wires.new) }
{
    match wires.connect(&place.to) {
        Ok(link) => {
            session.start_as(link, name);
            Linked::Connected
        }
        Err(_) => {
            session.blame();
            Linked::NotConnected
        }
    }
}

/// Connects by an address, where the handle was not started yet.
fn connect_to<W: Wires>(
    alloc: Global,
    session: &mut Session,
    wires: &mut W,
    place: &Place,
) -> Result<Told, Halt>
    ensures told { Goes (W.told wires.old) (W.told wires.new) session.old session.new (λ before calls after. Does (ConnectUri place.now) before calls after result) }
    ensures spoken { ¬ (result ≡ Err halt.Silent) }
    ensures counts { Counts session.old.first session.new.first (W.faults wires.old) (W.faults wires.new) (W.idles wires.old) (W.idles wires.new) }
{
    let state = session.handle.state();
    if !is_created(state) {
        return Ok(Told::RefusedState(state));
    }
    match place.name.try_clone(alloc) {
        Ok(name) => Ok(Told::of_connect(dial_to(session, wires, place, name))),
        Err(_) => Err(Halt::NoMemory),
    }
}

/// Reads once, where the handle is connected and reads.
fn read_once<W: Wires>(
    session: &mut Session,
    wires: &mut W,
    inbox: &mut Inbox,
) -> Result<Moved, NoMemory>
    requires unread { inbox.old ≡ [] }
    ensures told { Goes (W.told wires.old) (W.told wires.new) session.old session.new (λ before calls after. ReadsOn (is_reading before.history) before.link before calls after (moved_end result)) }
    ensures counts { Counts session.old.first session.new.first (W.faults wires.old) (W.faults wires.new) (W.idles wires.old) (W.idles wires.new) }
    ensures unread { OnOk result ((seen : Seen) → IsAt seen session.old → inbox.new ≡ []) }
{
    match session.link {
        None => Ok(Moved::Idle),
        Some(link) => session.read(wires, link, inbox),
    }
}

/// Offers once what waits to go out, where the handle is connected.
fn write_once<W: Wires>(session: &mut Session, wires: &mut W) -> Moved
    ensures told { Goes (W.told wires.old) (W.told wires.new) session.old session.new (λ before calls after. WritesOn (is_waiting before.history) before.link before calls after (Ok (told.Moved result))) }
    ensures counts { Counts session.old.first session.new.first (W.faults wires.old) (W.faults wires.new) (W.idles wires.old) (W.idles wires.new) }
{
    match session.link {
        None => Moved::Idle,
        Some(link) => session.write(wires, link),
    }
}

/// What the answer comes to where memory may have run out.
fn or_halt(told: Result<Told, NoMemory>) -> Result<Told, Halt>
    ensures { result ≡ halted told }
{
    match told {
        Ok(told) => Ok(told),
        Err(_) => Err(Halt::NoMemory),
    }
}

/// Does what a line asks that makes no call on the wires.
fn act_alone(alloc: Global, session: &mut Session, line: &Line) -> Result<Told, Halt>
    requires alone { is_alone line.now ≡ true }
    ensures told { Becomes session.old session.new (λ before after. Does line.now before [] after result) }
    ensures first { session.new.first ≡ session.old.first }
    ensures spoken { ¬ (result ≡ Err halt.Silent) }
{
    match line {
        Line::Command { manner, command } => or_halt(session.issue(alloc, *manner, command)),
        Line::Heard => or_halt(session.take_heard(alloc)),
        Line::Export { name } => or_halt(session.set_name(alloc, name)),
        Line::Context { name } => or_halt(session.add_context(alloc, name)),
        Line::Switch { switch, on } => Ok(session.set_switch(*switch, *on)),
        Line::Ask(option) => or_halt(session.ask(*option)),
        Line::Strict { bits } => Ok(session.set_strict(*bits)),
        Line::Disconnect => Ok(session.disconnect()),
        Line::Done { cookie } => Ok(session.take_result(*cookie)),
        Line::ClearLog => {
            session.clear_log();
            Ok(Told::Done)
        }
        Line::Log => Ok(Told::Log),
        Line::Peek => Ok(Told::Peek),
        Line::InFlight => Ok(Told::InFlight),
        Line::Direction => Ok(Told::Direction),
        Line::State => Ok(Told::State),
        Line::Info => Ok(Told::Info),
        Line::Answer => Ok(Told::Answer),
        Line::Listing => Ok(Told::Listing),
        _ => unreachable!(),
    }
}

/// Does what a line asks of the current handle, but for `close`.
pub(crate) fn act<W: Wires>(
    alloc: Global,
    session: &mut Session,
    wires: &mut W,
    inbox: &mut Inbox,
    line: &Line,
) -> Result<Told, Halt>
    requires open { is_close line.now ≡ false }
    requires alone { reach_of line.now ≡ reach.Current }
    requires unread { inbox.old ≡ [] }
    ensures told { Goes (W.told wires.old) (W.told wires.new) session.old session.new (λ before calls after. Does line.now before calls after result) }
    ensures spoken { ¬ (result ≡ Err halt.Silent) }
    ensures unread { OnOk result ((seen : Seen) → IsAt seen session.old → inbox.new ≡ []) }
    ensures counts { Counts session.old.first session.new.first (W.faults wires.old) (W.faults wires.new) (W.idles wires.old) (W.idles wires.new) }
{
    match line {
        Line::Connect(to) => Ok(Told::of_connect(connect(session, wires, to))),
        Line::ConnectUri(place) => connect_to(alloc, session, wires, place),
        Line::Read => Told::of_read(read_once(session, wires, inbox)),
        Line::Write => Ok(Told::Moved(write_once(session, wires))),
        _ => act_alone(alloc, session, line),
    }
}
