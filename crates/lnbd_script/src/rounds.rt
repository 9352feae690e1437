//! Rounds over all handles of a script until none has anything left to do.

ghost use Rattle.std.specs.Prelude.{◌≡◌, ◌≤◌, List, [], IfOk, OnErr, OnOk, Err, true, false, vec_len, vec_capacity};
ghost use Rattle.std.specs.List.{list_any};
ghost use Rattle.lnbd_machine.specs.Now.{direction_now, in_flight_now, state_now};
ghost use Rattle.lnbd_link.specs.Call.{Pause};
ghost use Rattle.lnbd_link.specs.Count.{Rises, patience};
ghost use Rattle.lnbd_link.specs.Part.{Adds};
ghost use Rattle.lnbd_poll.specs.Held.{want_of};
ghost use Rattle.lnbd_script.specs.Rounds.{PartShort, Round, Settles, TakesPart};
ghost use Rattle.lnbd_script.specs.Scenes.{Held, Scene};
ghost use Rattle.lnbd_script.specs.Seen.{Blames, Counts};
ghost use Rattle.lnbd_script.specs.Steps.{AreHeld, GoesAll, GoesAt, GoesOver, IsHeld, Stands, is_busy_place, want_now, wants_now};
ghost use Rattle.lnbd_script.specs.Turns.{stirs};
ghost use Rattle.lnbd_script.specs.declared.place.Place.TheVariants as place;
ghost use Rattle.lnbd_script.specs.declared.told.Halt.TheVariants as halt;

use crate::event::Event;
use crate::place::Place;
use crate::session::Session;
use crate::sessions::Sessions;
use crate::told::Halt;
use crate::turns::{either, turn};
use lnbd_link::{Want, Wires, is_long};
use lnbd_model::NoMemory;
use lnbd_poll::{Inbox, push_want, want_of};

impl Session {
    /// What a pause is to wait for on the link, if on anything.
    fn want(&self, link: u32) -> Option<Want>
        ensures { result ≡ want_of link (state_now self.now.handle.machine.known) (in_flight_now self.now.handle.machine.known) (direction_now self.now.handle.machine.known) }
    {
        want_of(&self.handle, link)
    }
}

impl Place {
    /// Whether the handle has a link and something left to do.
    fn is_busy(&self) -> bool
        ensures { result ≡ is_busy_place self.now }
    {
        match self {
            Place::Open(session) => session.link.is_some() && session.is_busy(),
            Place::Unused | Place::Over(_) => false,
        }
    }

    /// What a pause is to wait for.
    fn want(&self) -> Option<Want>
        ensures { result ≡ want_now self.now }
    {
        match self {
            Place::Open(session) => match session.link {
                Some(link) => session.want(link),
                None => None,
            },
            Place::Unused | Place::Over(_) => None,
        }
    }

    /// The handle's part of a round: where it has a link, a turn. `first` is the first event of the run.
    fn take_part<W: Wires>(
        &mut self,
        first: &mut Option<Event>,
        wires: &mut W,
        inbox: &mut Inbox,
    ) -> Result<bool, NoMemory>
        requires unread { inbox.old ≡ [] }
        ensures ok { IfOk result (λ stirred. GoesAt (W.told wires.old) (W.told wires.new) self.old self.new first.old first.new (λ before calls after. TakesPart before.link before calls after × (stirred ≡ list_any stirs calls))) }
        ensures short { OnErr result (GoesAt (W.told wires.old) (W.told wires.new) self.old self.new first.old first.new (λ before calls after. PartShort before.link before calls after)) }
        ensures counts { Counts first.old first.new (W.faults wires.old) (W.faults wires.new) (W.idles wires.old) (W.idles wires.new) }
        ensures unread { OnOk result ((held : Held) → IsHeld held self.old → inbox.new ≡ []) }
    {
        match self {
            Place::Open(session) => session.take_part(first, wires, inbox),
            Place::Unused => Ok(false),
            Place::Over(_) => Ok(false),
        }
    }
}

impl Session {
    /// A turn on the link, where there is one.
    fn take_part<W: Wires>(
        &mut self,
        first: &mut Option<Event>,
        wires: &mut W,
        inbox: &mut Inbox,
    ) -> Result<bool, NoMemory>
        requires unread { inbox.old ≡ [] }
        ensures ok { IfOk result (λ stirred. GoesAt (W.told wires.old) (W.told wires.new) (place.Open self.old) (place.Open self.new) first.old first.new (λ before calls after. TakesPart before.link before calls after × (stirred ≡ list_any stirs calls))) }
        ensures short { OnErr result (GoesAt (W.told wires.old) (W.told wires.new) (place.Open self.old) (place.Open self.new) first.old first.new (λ before calls after. PartShort before.link before calls after)) }
        ensures counts { Counts first.old first.new (W.faults wires.old) (W.faults wires.new) (W.idles wires.old) (W.idles wires.new) }
        ensures unread { OnOk result ((held : Held) → IsHeld held (place.Open self.old) → inbox.new ≡ []) }
    {
        match self.link {
            None => Ok(false),
            Some(link) => {
                self.first = *first;
                let told = turn(self, wires, link, inbox);
                *first = self.first;
                told
            }
        }
    }
}

/// Whether a handle has something left to do.
fn is_any_busy(places: &[Place]) -> bool
    ensures { result ≡ list_any is_busy_place places.now }
{
    places.iter().any(|place| place.is_busy())
}

/// Lists what a pause is to wait for.
fn want_all(wants: &mut Vec<Want>, places: &Vec<Place>)
    requires { vec_len places.now ≤ vec_capacity wants.old }
    ensures items { wants.new.items ≡ wants_now places.now.items }
    ensures room { vec_capacity wants.new ≡ vec_capacity wants.old }
{
    wants.clear();
    'places: for i in 0..places.len() {
        push_want(wants, places[i].want());
    }
}

/// One round: each handle in order takes its part. Whether something happened.
fn round<W: Wires>(
    places: &mut Vec<Place>,
    first: &mut Option<Event>,
    wires: &mut W,
    inbox: &mut Inbox,
) -> Result<bool, NoMemory>
    requires reached { (handles : List Held) × AreHeld handles places.old.items }
    requires unread { inbox.old ≡ [] }
    ensures ok { IfOk result (λ stirred. GoesAll (W.told wires.old) (W.told wires.new) places.old.items places.new.items (λ before calls after. Round true before first.old calls after first.new × (stirred ≡ list_any stirs calls))) }
    ensures short { OnErr result (GoesAll (W.told wires.old) (W.told wires.new) places.old.items places.new.items (λ before calls after. Round false before first.old calls after first.new)) }
    ensures count { vec_len places.new ≡ vec_len places.old }
    ensures counts { Counts first.old first.new (W.faults wires.old) (W.faults wires.new) (W.idles wires.old) (W.idles wires.new) }
    ensures unread { OnOk result (inbox.new ≡ []) }
{
    let mut stirred = false;
    'places: for i in 0..places.len() {
        let place = &mut places[i];
        match place.take_part(first, wires, inbox) {
            Ok(part) => stirred = either(stirred, part),
            Err(_) => return Err(NoMemory),
        }
    }
    Ok(stirred)
}

impl Sessions {
    /// Waits once for the links of all handles that wait for theirs. It takes no memory.
    fn pause<W: Wires>(&mut self, wires: &mut W)
        requires room { vec_len self.old.places ≤ vec_capacity self.old.wants }
        ensures told { Adds (W.told wires.old) (W.told wires.new) (Pause (wants_now self.old.places.items)) }
        ensures same { self.new ≡ record self.old { wants = self.new.wants } }
        ensures room { vec_capacity self.new.wants ≡ vec_capacity self.old.wants }
        ensures faults { W.faults wires.old ≤ W.faults wires.new }
        ensures idles { Rises 1 (W.idles wires.old) (W.idles wires.new) }
    {
        want_all(&mut self.wants, &self.places);
        wires.pause(&self.wants);
    }

    /// Takes rounds, with a pause after each in which nothing happened, until no handle has anything left to do. It ends for
    /// every peer: what may still come and go is bounded, and so is the waiting that a run bears.
    pub(crate) fn settle<W: Wires>(&mut self, wires: &mut W) -> Result<(), Halt>
        requires reached { (scene : Scene) × Stands scene self.old (W.idles wires.old) }
        requires unread { self.old.inbox ≡ [] }
        ensures settles { GoesOver (W.told wires.old) (W.told wires.new) (W.idles wires.old) (W.idles wires.new) self.old self.new (λ before calls after. Settles before calls after result) }
        ensures silent { result ≡ Err halt.Silent → Rises patience self.old.start (W.idles wires.new) }
        ensures start { self.new.start ≡ self.old.start }
        ensures unread { OnOk result (self.new.inbox ≡ []) }
        ensures counts { Blames self.old.first self.new.first (W.faults wires.old) (W.faults wires.new) }
    {
        'rounds: while is_any_busy(&self.places) {
            match round(&mut self.places, &mut self.first, wires, &mut self.inbox) {
                Ok(true) => continue,
                Ok(false) => {
                    self.pause(wires);
                    if is_long(self.start, wires.idles()) {
                        return Err(Halt::Silent);
                    }
                }
                Err(_) => return Err(Halt::NoMemory),
            }
        }
        Ok(())
    }
}
