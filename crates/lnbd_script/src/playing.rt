//! A script from its first line to its last.

ghost use Rattle.std.specs.Prelude.{◌≡◌, ◌≤◌, ◌+◌, [], List, IfOk, OnOk, Err, map, string_bytes, true, vec_len};
ghost use Rattle.lnbd_lines.specs.Grammar.{max_handles};
ghost use Rattle.lnbd_link.specs.Count.{Rises, patience};
ghost use Rattle.lnbd_link.specs.Part.{Grows};
ghost use Rattle.lnbd_script.specs.Plays.{Finished, HasBeenCut, HasPlayed, Short, Silent, first_fault, is_played};
ghost use Rattle.lnbd_script.specs.Scenes.{Held, Scene, admitted_on, ended_held, shut_all};
ghost use Rattle.lnbd_script.specs.Seen.{Blames, is_link};
ghost use Rattle.lnbd_script.specs.Steps.{AllPlayed, AreHeld, Finishes, IsHeld, IsSum, LinesPlayed, Shows, Stands, first_in, is_open, is_question, stop_of, stop_unshown};
ghost use Rattle.lnbd_script.specs.Texts.{ended, last_text, text_of};
ghost use Rattle.lnbd_script.specs.declared.playing.Unshown.TheVariants.{NoMemory as OutOfMemory};

use crate::event::{Event, PlayFault};
use crate::place::Place;
use crate::sessions::Sessions;
use crate::texts::push_told;
use crate::told::{Halt, Told};
use lnbd_lines::{Line, Script};
use lnbd_link::{Sink, Wires, put};
use lnbd_model::NoMemory;
use std::alloc::{AllocError, Global};

/// What the callbacks of all handles came to.
#[derive(Clone, Copy, Debug, PartialEq, Eq)]
pub(crate) struct Sum {
    /// How many were admitted.
    pub(crate) opened: u128,
    /// How many were freed, as they counted themselves: all of them.
    pub(crate) freed: u128,
}

/// A sum and one count more.
fn with_count(sum: u128, count: u64) -> u128
    requires { sum ≤ 340282366920938463444927863358058659840 }
    ensures value { result ≡ sum + count }
    ensures small { result ≤ sum + 18446744073709551615 }
{
    sum + count as u128
}

/// Closes each handle that is open, in order, and shuts its link.
fn end_all<W: Wires>(places: Vec<Place>, wires: &mut W) -> Sum
    requires { vec_len places ≤ max_handles }
    ensures ends { (handles : List Held) → AreHeld handles places.items → Grows (W.told wires.old) (W.told wires.new) (shut_all handles) × IsSum (map ended_held handles) result }
    ensures faults_later { W.faults wires.old ≤ W.faults wires.new }
    ensures idles_later { W.idles wires.old ≤ W.idles wires.new }
{
    let mut sum = Sum {
        opened: 0,
        freed: 0,
    };
    let mut left = places.into_iter();
    'places: while let Some(place) = left.next() {
        let over = place.end(wires);
        let opened = with_count(sum.opened, over.opened);
        let freed = with_count(sum.freed, over.freed);
        sum = Sum { opened, freed };
    }
    left.destroy_empty();
    sum
}

/// What keeps a text from being written.
#[derive(Clone, Copy, Debug, PartialEq, Eq)]
enum Unshown {
    Output,
    NoMemory,
}

impl From<AllocError> for Unshown {
    ghost from_gives = { λ _ unshown. unshown ≡ OutOfMemory };

    fn from(_error: AllocError) -> Unshown {
        Unshown::NoMemory
    }
}

/// Writes a text and the end of its line.
fn show<O: Sink>(text: &mut String, out: &mut O) -> Result<(), Unshown>
    ensures shown { Shows result (O.taken out.old) (O.taken out.new) (ended (string_bytes text.old)) }
    ensures later { O.faults out.old ≤ O.faults out.new }
    ensures well { OnOk result (O.faults out.new ≡ O.faults out.old) }
    ensures output { result ≡ Err Unshown.Output → Rises 1 (O.faults out.old) (O.faults out.new) }
{
    text.push_str("\n")?;
    match put(out, text.as_bytes()) {
        Ok(()) => Ok(()),
        Err(_) => Err(Unshown::Output),
    }
}

/// Writes what a line tells.
fn tell<O: Sink>(alloc: Global, told: &Told, place: &Place, out: &mut O) -> Result<(), Unshown>
    requires open { is_question told.now ≡ true → is_open place.now ≡ true }
    ensures shown { (held : Held) → IsHeld held place.now → Shows result (O.taken out.old) (O.taken out.new) (ended (text_of held.history told.now)) }
    ensures later { O.faults out.old ≤ O.faults out.new }
    ensures well { OnOk result (O.faults out.new ≡ O.faults out.old) }
    ensures output { result ≡ Err Unshown.Output → Rises 1 (O.faults out.old) (O.faults out.new) }
{
    let mut text = String::new(alloc);
    push_told(&mut text, told, place)?;
    show(&mut text, out)
}

/// The last line: how many callbacks were admitted and freed.
fn tell_last<O: Sink>(alloc: Global, sum: Sum, out: &mut O) -> Result<(), Unshown>
    ensures shown { (handles : List Held) → IsSum handles sum → Shows result (O.taken out.old) (O.taken out.new) (ended (last_text (admitted_on handles))) }
    ensures later { O.faults out.old ≤ O.faults out.new }
    ensures well { OnOk result (O.faults out.new ≡ O.faults out.old) }
    ensures output { result ≡ Err Unshown.Output → Rises 1 (O.faults out.old) (O.faults out.new) }
{
    let Sum { opened, freed } = sum;
    let mut text = String::new(alloc);
    write!(text, "opened {opened} freed {freed}")?;
    show(&mut text, out)
}

/// What ends a script at once.
#[derive(Clone, Copy, Debug, PartialEq, Eq)]
pub(crate) enum Stop {
    /// The wires were idle for too long.
    Silent,
    /// The output failed.
    Output,
    /// Memory ran out.
    NoMemory,
}

impl From<Halt> for Stop {
    ghost from_gives = { λ halt stop. stop ≡ stop_of halt };

    fn from(halt: Halt) -> Stop {
        match halt {
            Halt::Silent => Stop::Silent,
            Halt::NoMemory => Stop::NoMemory,
        }
    }
}

impl From<Unshown> for Stop {
    ghost from_gives = { λ unshown stop. stop ≡ stop_unshown unshown };

    fn from(unshown: Unshown) -> Stop {
        match unshown {
            Unshown::Output => Stop::Output,
            Unshown::NoMemory => Stop::NoMemory,
        }
    }
}

/// Plays the lines, until one stops the script.
fn play_lines<W: Wires, O: Sink>(
    alloc: Global,
    lines: &[Line],
    sessions: &mut Sessions,
    wires: &mut W,
    out: &mut O,
) -> Result<(), Stop>
    requires reached { (scene : Scene) × Stands scene sessions.old (W.idles wires.old) }
    requires unread { sessions.old.inbox ≡ [] }
    ensures played { (scene : Scene) → Stands scene sessions.old (W.idles wires.old) → LinesPlayed lines.now scene (W.told wires.old) (W.told wires.new) (O.taken out.old) (O.taken out.new) sessions.new (W.idles wires.new) result }
    ensures silent { result ≡ Err Stop.Silent → Rises patience sessions.old.start (W.idles wires.new) }
    ensures well { OnOk result (O.faults out.new ≡ O.faults out.old) }
    ensures output { result ≡ Err Stop.Output → Rises 1 (O.faults out.old) (O.faults out.new) }
    ensures later { O.faults out.old ≤ O.faults out.new }
    ensures counts { Blames sessions.old.first sessions.new.first (W.faults wires.old) (W.faults wires.new) }
{
    'lines: for line in lines {
        if sessions.make_current(alloc).is_err() {
            return Err(Stop::NoMemory);
        }
        let told = match sessions.step(alloc, wires, line) {
            Ok(told) => told,
            Err(halt) => return Err(Stop::from(halt)),
        };
        if let Err(unshown) = tell(alloc, &told, sessions.current(), out) {
            return Err(Stop::from(unshown));
        }
    }
    Ok(())
}

/// Tells the last line, and then the first event.
fn finish<O: Sink>(
    alloc: Global,
    sum: Sum,
    first: Option<Event>,
    out: &mut O,
) -> Result<Option<Event>, Stop>
    ensures finishes { (handles : List Held) → IsSum handles sum → Finishes result (O.taken out.old) (O.taken out.new) (ended (last_text (admitted_on handles))) first }
    ensures heard { ¬ (result ≡ Err Stop.Silent) }
    ensures well { OnOk result (O.faults out.new ≡ O.faults out.old) }
    ensures output { result ≡ Err Stop.Output → Rises 1 (O.faults out.old) (O.faults out.new) }
    ensures first { IfOk result (λ told. told ≡ first) }
{
    match tell_last(alloc, sum, out) {
        Ok(()) => Ok(first),
        Err(Unshown::Output) => Err(Stop::Output),
        Err(Unshown::NoMemory) => Err(Stop::NoMemory),
    }
}

/// Whether a line asks for what callbacks hear. Where none does, that is not kept.
fn asks_for_heard(lines: &[Line]) -> bool {
    lines.iter().any(|line| matches!(line, Line::Heard))
}

/// Plays the lines, closes the handles and shuts their links, and tells the last line.
fn play_all<W: Wires, O: Sink>(
    alloc: Global,
    lines: &[Line],
    wires: &mut W,
    out: &mut O,
) -> Result<Option<Event>, Stop>
    ensures played { AllPlayed lines.now (W.told wires.old) (W.told wires.new) (O.taken out.old) (O.taken out.new) result }
    ensures silent { result ≡ Err Stop.Silent → Rises patience (W.idles wires.old) (W.idles wires.new) }
    ensures well { OnOk result (O.faults out.new ≡ O.faults out.old) }
    ensures output { result ≡ Err Stop.Output → Rises 1 (O.faults out.old) (O.faults out.new) }
    ensures blames { is_link (first_in result) ≡ true → Rises 1 (W.faults wires.old) (W.faults wires.new) }
{
    let hears = asks_for_heard(lines);
    let mut sessions = match Sessions::new(alloc, wires.idles(), hears) {
        Ok(sessions) => sessions,
        Err(_) => return Err(Stop::NoMemory),
    };
    let told = play_lines(alloc, lines, &mut sessions, wires, out);
    let Sessions {
        places,
        current: _,
        first,
        start: _,
        wants: _,
        inbox: _,
        hears: _,
    } = sessions;
    let sum = end_all(places, wires);
    match told {
        Ok(()) => finish(alloc, sum, first, out),
        Err(stop) => Err(stop),
    }
}

/// Plays a script over the wires, each line's answer going to `out`, and then closes its handles and shuts their links. The
/// answer is what ended the script, and else its first event. The waiting that is borne is that of the whole script.
pub fn play<W: Wires, O: Sink>(
    alloc: Global,
    script: &Script,
    wires: &mut W,
    out: &mut O,
) -> Result<(), PlayFault>
    ensures played { is_played result ≡ true → HasPlayed script.now (W.told wires.old) (W.told wires.new) (O.taken out.old) (O.taken out.new) Finished (λ first. result ≡ first_fault first) }
    ensures waited { result ≡ Err PlayFault.Silent → HasPlayed script.now (W.told wires.old) (W.told wires.new) (O.taken out.old) (O.taken out.new) Silent (λ first. Unit {0}) }
    ensures cut { result ≡ Err PlayFault.Output → HasBeenCut script.now (W.told wires.old) (W.told wires.new) (O.taken out.old) (O.taken out.new) }
    ensures short { result ≡ Err PlayFault.NoMemory → HasPlayed script.now (W.told wires.old) (W.told wires.new) (O.taken out.old) (O.taken out.new) Short (λ first. Unit {0}) }

    // Causes.
    ensures link { result ≡ Err PlayFault.Link → Rises 1 (W.faults wires.old) (W.faults wires.new) }
    ensures silent { result ≡ Err PlayFault.Silent → Rises patience (W.idles wires.old) (W.idles wires.new) }
    ensures output { result ≡ Err PlayFault.Output → Rises 1 (O.faults out.old) (O.faults out.new) }
    ensures well { OnOk result (O.faults out.new ≡ O.faults out.old) }
{
    match play_all(alloc, script.lines(), wires, out) {
        Ok(None) => Ok(()),
        Ok(Some(Event::Link)) => Err(PlayFault::Link),
        Ok(Some(Event::Broke(broken))) => Err(PlayFault::Broke(broken)),
        Ok(Some(Event::Peer { option, code })) => Err(PlayFault::Peer { option, code }),
        Err(Stop::Silent) => Err(PlayFault::Silent),
        Err(Stop::Output) => Err(PlayFault::Output),
        Err(Stop::NoMemory) => Err(PlayFault::NoMemory),
    }
}
