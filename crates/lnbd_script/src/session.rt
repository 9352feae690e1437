//! A script's handle with its link: one call on the wires, and what the handle makes of it.

ghost use Rattle.std.specs.Prelude.{◌≡◌, ◌<◌, [], OnOk, Ok, Some, true, false};
ghost use Rattle.lnbd_history.specs.Events.{History};
ghost use Rattle.lnbd_history.specs.Outgoing.{total};
ghost use Rattle.lnbd_handle.specs.Histories.{max_unretired};
ghost use Rattle.lnbd_standing.specs.Standing.{StandsFor};
ghost use Rattle.lnbd_poll.specs.Turns.{Told, is_lost};
ghost use Rattle.lnbd_script.specs.Kept.{Heeds, or_first};
ghost use Rattle.lnbd_script.specs.Lines.{ReadsOn, WritesOn};
ghost use Rattle.lnbd_script.specs.Seen.{Counts, Goes, IsAt, Seen, met_now};
ghost use Rattle.lnbd_script.specs.Steps.{is_busy_now, is_bytes, moved_end, noticing};
ghost use Rattle.lnbd_script.specs.Turns.{is_reading, is_waiting};
ghost use Rattle.lnbd_script.specs.declared.told.Told.TheVariants as told;

use crate::event::Event;
use crate::keeper::{Heeded, Keeper};
use crate::told::Moved;
use lnbd_handle::Handle;
use lnbd_link::Wires;
use lnbd_model::{NoMemory, State};
use lnbd_poll::{Inbox, Noticed, notify_read, notify_write};

/// The handle of a script that is not closed, its link once it is connected, and the first event that the run
/// goes on after.
pub(crate) struct Session {
    pub(crate) handle: Handle<Keeper>,
    pub(crate) link: Option<u32>,
    pub(crate) heeded: Heeded,
    pub(crate) first: Option<Event>,
}

/// The first of two events, where there is one.
pub(crate) fn or_first(first: Option<Event>, later: Option<Event>) -> Option<Event>
    ensures { result ≡ or_first first later }
{
    match first {
        None => later,
        Some(event) => Some(event),
    }
}

/// Whether the link failed.
fn is_lost(noticed: Noticed) -> bool
    ensures { result ≡ is_lost noticed }
{
    matches!(noticed, Noticed::LinkFailed)
}

/// Tells the handle where its link failed.
fn tell(handle: &mut Handle<Keeper>, noticed: Noticed, heeded: &mut Heeded)
    ensures told { (history : History Keeper) → StandsFor max_unretired history handle.old.machine → (after : History Keeper) × Told Heeds (is_lost noticed) history heeded.old after heeded.new × StandsFor max_unretired after handle.new.machine }
    ensures same { is_lost noticed ≡ false → handle.new.machine ≡ handle.old.machine }
{
    if !is_lost(noticed) {
        return;
    }
    handle.link_failed(heeded);
}

impl Session {
    /// What the handle has met.
    fn met(&self) -> Option<Event>
        ensures { result ≡ met_now self.now }
    {
        let content = Event::of_faulty(self.heeded.faulty);
        let death = Event::in_state(self.handle.state());
        let answer = Event::of_answer(self.handle.opt_answer());
        let error = Event::of_error(self.heeded.error);
        or_first(content, or_first(death, or_first(answer, error)))
    }

    /// Notes what came with a call, if anything happened: that the link failed, or else what the handle met.
    fn note(&mut self, noticed: Noticed)
        ensures { self.new ≡ record self.old { first = noticing noticed self.old.first (met_now self.old) } }
    {
        let met = self.met();
        self.first = match noticed {
            Noticed::NotReady | Noticed::Idle => self.first,
            Noticed::LinkFailed => or_first(self.first, Some(Event::Link)),
            Noticed::Moved(_) | Noticed::Ended | Noticed::NoMemory => or_first(self.first, met),
        };
    }

    /// Reads once, where the handle reads.
    pub(crate) fn read<W: Wires>(
        &mut self,
        wires: &mut W,
        link: u32,
        inbox: &mut Inbox,
    ) -> Result<Moved, NoMemory>
        requires unread { inbox.old ≡ [] }
        ensures told { Goes (W.told wires.old) (W.told wires.new) self.old self.new (λ before calls after. ReadsOn (is_reading before.history) (Some link) before calls after (moved_end result)) }
        ensures counts { Counts self.old.first self.new.first (W.faults wires.old) (W.faults wires.new) (W.idles wires.old) (W.idles wires.new) }
        ensures link { self.new.link ≡ self.old.link }
        ensures unread { OnOk result ((seen : Seen) → IsAt seen self.old → inbox.new ≡ []) }
    {
        let noticed = notify_read(&mut self.handle, inbox, wires, link, &mut self.heeded);
        self.note(noticed);
        Moved::of_read(noticed)
    }

    /// Offers once what waits to go out, if anything does.
    pub(crate) fn write<W: Wires>(&mut self, wires: &mut W, link: u32) -> Moved
        ensures told { Goes (W.told wires.old) (W.told wires.new) self.old self.new (λ before calls after. WritesOn (is_waiting before.history) (Some link) before calls after (Ok (told.Moved result))) }
        ensures less { is_bytes result ≡ true → total self.new.handle.machine.known.waits < total self.old.handle.machine.known.waits }
        ensures counts { Counts self.old.first self.new.first (W.faults wires.old) (W.faults wires.new) (W.idles wires.old) (W.idles wires.new) }
        ensures link { self.new.link ≡ self.old.link }
    {
        let noticed = notify_write(&mut self.handle, wires, link);
        tell(&mut self.handle, noticed, &mut self.heeded);
        self.note(noticed);
        Moved::of(noticed)
    }

    /// Whether the handle negotiates, has commands in flight or bytes to send.
    pub(crate) fn is_busy(&self) -> bool
        ensures { result ≡ is_busy_now self.now.handle.machine }
    {
        let negotiates = matches!(self.handle.state(), State::Negotiating);
        negotiates || self.handle.in_flight() != 0 || self.handle.is_waiting()
    }
}
