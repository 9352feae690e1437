//! One handle of a script: not used yet, open with its link, or closed.

ghost use Rattle.std.specs.Prelude.{◌≡◌, ◌≤◌, [], IfOk, OnOk, OnErr, Err, None, true, false};
ghost use Rattle.lnbd_link.specs.Part.{Grows};
ghost use Rattle.lnbd_script.specs.Acts.{reach_of};
ghost use Rattle.lnbd_script.specs.Lines.{Answers, shut_calls};
ghost use Rattle.lnbd_script.specs.Scenes.{Held, ended_held, seen_of, unused};
ghost use Rattle.lnbd_script.specs.Seen.{Counts, IsAt};
ghost use Rattle.lnbd_script.specs.Steps.{GoesAt, IsHeld, IsOver, closed_held, is_close, is_open, is_question, is_used};
ghost use Rattle.lnbd_script.specs.declared.reach.Reach.TheVariants as reach;
ghost use Rattle.lnbd_script.specs.declared.told.Halt.TheVariants as halt;

use crate::answer::act;
use crate::event::Event;
use crate::keeper::Heeded;
use crate::session::Session;
use crate::told::{Halt, Told};
use lnbd_handle::{Closed, Handle};
use lnbd_lines::Line;
use lnbd_link::Wires;
use lnbd_model::NoMemory;
use lnbd_poll::Inbox;
use std::alloc::Global;
use std::mem::replace;

/// What is left of a handle that is closed.
#[derive(Clone, Copy, Debug, PartialEq, Eq)]
pub(crate) struct Over {
    /// How many callbacks were admitted.
    pub(crate) opened: u64,
    /// How many were freed, as they counted themselves: all of them.
    pub(crate) freed: u64,
}

/// Nothing was admitted.
const NOTHING: Over = Over {
    opened: 0,
    freed: 0,
};

/// A handle of a script.
pub(crate) enum Place {
    /// No line has acted on it: it is made when the first one does.
    Unused,
    Open(Session),
    Over(Over),
}

/// A handle that was just created, without a link. What its callbacks hear is kept, or not.
fn create(alloc: Global, hears: bool) -> Result<Session, NoMemory>
    ensures { IfOk result (λ session. IsAt (seen_of unused None) session) }
{
    let handle = Handle::create(alloc)?;
    Ok(Session {
        handle,
        link: None,
        heeded: Heeded::new(alloc, hears),
        first: None,
    })
}

/// Shuts the link, if there is one.
fn shut<W: Wires>(wires: &mut W, link: Option<u32>)
    ensures told { Grows (W.told wires.old) (W.told wires.new) (shut_calls link) }
    ensures faults_later { W.faults wires.old ≤ W.faults wires.new }
    ensures idles_later { W.idles wires.old ≤ W.idles wires.new }
{
    if let Some(number) = link {
        wires.shut(number);
    }
}

/// Closes the handle and shuts its link.
fn close<W: Wires>(session: Session, wires: &mut W) -> Over
    ensures closes { (held : Held) → IsAt (seen_of held session.first) session → Grows (W.told wires.old) (W.told wires.new) (shut_calls held.link) × IsOver (closed_held held) result }
    ensures faults_later { W.faults wires.old ≤ W.faults wires.new }
    ensures idles_later { W.idles wires.old ≤ W.idles wires.new }
{
    let Session {
        handle,
        link,
        heeded,
        first: _,
    } = session;
    let mut heeded = heeded;
    let Closed {
        notes: _,
        opened,
        freed: noted,
    } = handle.close(&mut heeded);
    shut(wires, link);
    left_of(opened, noted, &heeded)
}

/// What is left of a handle on which so many callbacks were admitted, and so many notes tell of their ends.
fn left_of(opened: u64, noted: u64, heeded: &Heeded) -> Over
    ensures opened { result.opened ≡ opened }
    ensures freed { result.freed ≡ heeded.now.freed }
    ensures fits { noted ≤ 18446744073709551615 }
{
    let _ = noted;
    Over {
        opened,
        freed: heeded.freed,
    }
}

impl Place {
    /// Whether a line has acted on it.
    fn is_used(&self) -> bool
        ensures { result ≡ is_used self.now }
    {
        !matches!(self, Place::Unused)
    }

    /// Whether it is open.
    pub(crate) fn is_open(&self) -> bool
        ensures { result ≡ is_open self.now }
    {
        matches!(self, Place::Open(_))
    }

    /// Makes the handle, where no line has acted on it. What its callbacks hear is kept, or not.
    pub(crate) fn make(&mut self, alloc: Global, hears: bool) -> Result<(), NoMemory>
        ensures used { OnOk result (is_used self.new ≡ true) }
        ensures same { (held : Held) → IsHeld held self.old → IsHeld held self.new }
    {
        if self.is_used() {
            return Ok(());
        }
        let session = create(alloc, hears)?;
        match replace(self, Place::Open(session)) {
            Place::Unused => Ok(()),
            Place::Open(_session) => unreachable!(),
            Place::Over(_) => unreachable!(),
        }
    }

    /// Puts what is left of the handle in its place.
    fn put_over(&mut self, over: Over)
        requires closed { is_open self.old ≡ false }
        requires used { is_used self.old ≡ true }
        ensures { self.new ≡ Place.Over over }
    {
        match self {
            Place::Over(place) => *place = over,
            Place::Unused | Place::Open(_) => unreachable!(),
        }
    }

    /// Closes the handle, which is open, and shuts its link.
    fn close<W: Wires>(&mut self, wires: &mut W) -> Over
        requires open { is_open self.old ≡ true }
        ensures closes { (held : Held) → IsHeld held self.old → Grows (W.told wires.old) (W.told wires.new) (shut_calls held.link) × IsOver (closed_held held) result }
        ensures place { self.new ≡ Place.Over result }
        ensures faults_later { W.faults wires.old ≤ W.faults wires.new }
        ensures idles_later { W.idles wires.old ≤ W.idles wires.new }
    {
        match replace(self, Place::Over(NOTHING)) {
            Place::Open(session) => {
                let over = close(session, wires);
                self.put_over(over);
                over
            }
            Place::Unused | Place::Over(_) => unreachable!(),
        }
    }

    /// The end of a handle, which may be closed already, or never made.
    pub(crate) fn end<W: Wires>(self, wires: &mut W) -> Over
        ensures ends { (held : Held) → IsHeld held self → Grows (W.told wires.old) (W.told wires.new) (shut_calls held.link) × IsOver (ended_held held) result }
        ensures faults_later { W.faults wires.old ≤ W.faults wires.new }
        ensures idles_later { W.idles wires.old ≤ W.idles wires.new }
    {
        match self {
            Place::Unused => NOTHING,
            Place::Open(session) => close(session, wires),
            Place::Over(over) => over,
        }
    }

    /// Does a line on a handle that is open. It does not close it.
    fn act<W: Wires>(
        &mut self,
        alloc: Global,
        first: &mut Option<Event>,
        wires: &mut W,
        inbox: &mut Inbox,
        line: &Line,
    ) -> Result<Told, Halt>
        requires open { is_open self.old ≡ true }
        requires going { is_close line.now ≡ false }
        requires alone { reach_of line.now ≡ reach.Current }
        requires unread { inbox.old ≡ [] }
        ensures told { GoesAt (W.told wires.old) (W.told wires.new) self.old self.new first.old first.new (λ before calls after. Answers line.now before calls after result) }
        ensures spoken { ¬ (result ≡ Err halt.Silent) }
        ensures open { is_open self.new ≡ true }
        ensures unread { OnOk result ((held : Held) → IsHeld held self.old → inbox.new ≡ []) }
        ensures counts { Counts first.old first.new (W.faults wires.old) (W.faults wires.new) (W.idles wires.old) (W.idles wires.new) }
    {
        match self {
            Place::Open(session) => {
                session.first = *first;
                let told = act(alloc, session, wires, inbox, line);
                *first = session.first;
                told
            }
            Place::Unused | Place::Over(_) => unreachable!(),
        }
    }

    /// Does a line on the handle, which a line has acted on. `first` is the first event of the run.
    pub(crate) fn step<W: Wires>(
        &mut self,
        alloc: Global,
        first: &mut Option<Event>,
        wires: &mut W,
        inbox: &mut Inbox,
        line: &Line,
    ) -> Result<Told, Halt>
        requires used { is_used self.old ≡ true }
        requires alone { reach_of line.now ≡ reach.Current }
        requires unread { inbox.old ≡ [] }
        ensures told { GoesAt (W.told wires.old) (W.told wires.new) self.old self.new first.old first.new (λ before calls after. Answers line.now before calls after result) }
        ensures spoken { ¬ (result ≡ Err halt.Silent) }
        ensures asks { IfOk result (λ tells. is_question tells ≡ true → is_open self.new ≡ true) }
        ensures unread { OnOk result ((held : Held) → IsHeld held self.old → inbox.new ≡ []) }
        ensures counts { Counts first.old first.new (W.faults wires.old) (W.faults wires.new) (W.idles wires.old) (W.idles wires.new) }
    {
        if !self.is_open() {
            return Ok(Told::Gone);
        }
        if let Line::Close = line {
            let Over { opened, freed } = self.close(wires);
            return Ok(Told::Closed { opened, freed });
        }
        self.act(alloc, first, wires, inbox, line)
    }
}
