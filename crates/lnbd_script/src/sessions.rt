//! All handles of a script, which of them its lines act on, and what the run has come to.

ghost use Rattle.std.specs.Prelude.{◌≡◌, ◌<◌, ◌≤◌, ℕ, IfOk, OnOk, Err, None, [], replicate, true, false, nat_lt, if◌then◌else◌, vec_len};
ghost use Rattle.lnbd_history.specs.Laws.{is_closed};
ghost use Rattle.lnbd_lines.specs.Grammar.{max_handles};
ghost use Rattle.lnbd_link.specs.Count.{Rises, patience};
ghost use Rattle.lnbd_script.specs.Acts.{Acts, ActsAlone, SettlesIf, reach_of};
ghost use Rattle.lnbd_script.specs.Scenes.{Scene, beginning, current_of};
ghost use Rattle.lnbd_script.specs.Seen.{Blames};
ghost use Rattle.lnbd_script.specs.Steps.{GoesOver, Stands, current_place, is_open, is_question, is_used};
ghost use Rattle.lnbd_script.specs.declared.place.Place.TheVariants as place;
ghost use Rattle.lnbd_script.specs.declared.reach.Reach.TheVariants as reach;
ghost use Rattle.lnbd_script.specs.declared.told.Halt.TheVariants as halt;

use crate::event::Event;
use crate::place::Place;
use crate::reach::Reach;
use crate::told::{Halt, Told};
use lnbd_lines::Line;
use lnbd_link::{Want, Wires};
use lnbd_model::NoMemory;
use lnbd_poll::Inbox;
use std::alloc::Global;

/// How many handles a script has.
const HANDLES: usize = 16;

/// The handles of a script that is played.
pub(crate) struct Sessions {
    /// By their numbers.
    pub(crate) places: Vec<Place>,
    /// The number of the one that lines act on.
    pub(crate) current: usize,
    /// The first event of the run.
    pub(crate) first: Option<Event>,
    /// The count of waiting where the run began.
    pub(crate) start: u64,
    /// The room of a pause.
    pub(crate) wants: Vec<Want>,
    /// The room of a read. Where memory runs out at what came, it keeps what the handle did not take, and the script ends.
    pub(crate) inbox: Inbox,
    /// Whether a line of the script asks for what callbacks hear.
    pub(crate) hears: bool,
}

/// The places of handles that no line has acted on.
fn unused(alloc: Global) -> Result<Vec<Place>, NoMemory>
    ensures { IfOk result (λ places. places.items ≡ replicate max_handles place.Unused) }
{
    let mut places = Vec::with_capacity(alloc, HANDLES)?;
    'places: while places.len() < HANDLES {
        places.push_reserved(Place::Unused);
    }
    Ok(places)
}

impl Sessions {
    /// Where a script begins, with this count of waiting. What callbacks hear is kept, or not.
    pub(crate) fn new(alloc: Global, start: u64, hears: bool) -> Result<Sessions, NoMemory>
        ensures stands { IfOk result (λ sessions. Stands beginning sessions start) }
        ensures first { IfOk result (λ sessions. sessions.first ≡ None) }
        ensures unread { IfOk result (λ sessions. sessions.inbox ≡ []) }
        ensures start { IfOk result (λ sessions. sessions.start ≡ start) }
    {
        let wants = Vec::with_capacity(alloc, HANDLES)?;
        let inbox = Inbox::new(alloc)?;
        let places = unused(alloc)?;
        Ok(Sessions {
            places,
            current: 0,
            first: None,
            start,
            wants,
            inbox,
            hears,
        })
    }

    /// The current handle.
    pub(crate) fn current(&self) -> &Place
        requires inside { self.now.current < vec_len self.now.places }
        ensures { result.now ≡ current_place self.now }
    {
        &self.places[self.current]
    }

    /// Makes the current handle, where no line has acted on it.
    pub(crate) fn make_current(&mut self, alloc: Global) -> Result<(), NoMemory>
        requires inside { self.old.current < vec_len self.old.places }
        ensures used { OnOk result (is_used (current_place self.new) ≡ true) }
        ensures stands { (scene : Scene) (idles : ℕ) → Stands scene self.old idles → Stands scene self.new idles }
        ensures first { self.new.first ≡ self.old.first }
        ensures start { self.new.start ≡ self.old.start }
        ensures unread { self.new.inbox ≡ self.old.inbox }
    {
        let current = self.current;
        let hears = self.hears;
        let place = &mut self.places[current];
        place.make(alloc, hears)
    }

    /// Makes the handle of this number current. A number past the last, which no script has, changes nothing.
    fn choose(&mut self, number: usize)
        ensures { self.new ≡ record self.old { current = if nat_lt number max_handles then number else self.old.current } }
    {
        if number < HANDLES {
            self.current = number;
        }
    }

    /// Does a line on the current handle.
    fn step_current<W: Wires>(
        &mut self,
        alloc: Global,
        wires: &mut W,
        line: &Line,
    ) -> Result<Told, Halt>
        requires reached { (scene : Scene) × Stands scene self.old (W.idles wires.old) }
        requires inside { self.old.current < vec_len self.old.places }
        requires used { is_used (current_place self.old) ≡ true }
        requires unread { self.old.inbox ≡ [] }
        requires alone { reach_of line.now ≡ reach.Current }
        ensures acts { GoesOver (W.told wires.old) (W.told wires.new) (W.idles wires.old) (W.idles wires.new) self.old self.new (λ before calls after. ActsAlone line.now before calls after result) }
        ensures spoken { ¬ (result ≡ Err halt.Silent) }
        ensures asks { IfOk result (λ tells. is_question tells ≡ true → is_open (current_place self.new) ≡ true) }
        ensures start { self.new.start ≡ self.old.start }
        ensures unread { OnOk result (self.new.inbox ≡ []) }
        ensures counts { Blames self.old.first self.new.first (W.faults wires.old) (W.faults wires.new) }
    {
        let current = self.current;
        let place = &mut self.places[current];
        place.step(alloc, &mut self.first, wires, &mut self.inbox, line)
    }

    /// Takes rounds over all handles for a line, unless the current one is closed.
    fn settle_line<W: Wires>(&mut self, wires: &mut W) -> Result<Told, Halt>
        requires reached { (scene : Scene) × Stands scene self.old (W.idles wires.old) }
        requires used { is_used (current_place self.old) ≡ true }
        requires unread { self.old.inbox ≡ [] }
        ensures acts { GoesOver (W.told wires.old) (W.told wires.new) (W.idles wires.old) (W.idles wires.new) self.old self.new (λ before calls after. SettlesIf (is_closed (current_of before).history) before calls after result) }
        ensures silent { result ≡ Err halt.Silent → Rises patience self.old.start (W.idles wires.new) }
        ensures asks { IfOk result (λ tells. is_question tells ≡ false) }
        ensures start { self.new.start ≡ self.old.start }
        ensures unread { OnOk result (self.new.inbox ≡ []) }
        ensures counts { Blames self.old.first self.new.first (W.faults wires.old) (W.faults wires.new) }
    {
        if !self.current().is_open() {
            return Ok(Told::Gone);
        }
        Told::of_settle(self.settle(wires))
    }

    /// Does a line.
    pub(crate) fn step<W: Wires>(
        &mut self,
        alloc: Global,
        wires: &mut W,
        line: &Line,
    ) -> Result<Told, Halt>
        requires reached { (scene : Scene) × Stands scene self.old (W.idles wires.old) }
        requires used { is_used (current_place self.old) ≡ true }
        requires unread { self.old.inbox ≡ [] }
        ensures acts { GoesOver (W.told wires.old) (W.told wires.new) (W.idles wires.old) (W.idles wires.new) self.old self.new (λ before calls after. Acts line.now before calls after result) }
        ensures silent { result ≡ Err halt.Silent → Rises patience self.old.start (W.idles wires.new) }
        ensures asks { IfOk result (λ tells. is_question tells ≡ true → is_open (current_place self.new) ≡ true) }
        ensures start { self.new.start ≡ self.old.start }
        ensures unread { OnOk result (self.new.inbox ≡ []) }
        ensures counts { Blames self.old.first self.new.first (W.faults wires.old) (W.faults wires.new) }
    {
        match Reach::of(line) {
            Reach::Choice(number) => {
                self.choose(number);
                Ok(Told::Done)
            }
            Reach::All => self.settle_line(wires),
            Reach::Current => self.step_current(alloc, wires, line),
        }
    }
}
