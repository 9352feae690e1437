//! A spawner in memory: what each call answers, the faults that are counted then, and the calls that it keeps.

use crate::told::{Told, same, text};
use lnbd_model::{NoMemory, Text, Texts};
use lnbd_spawn::{Deed, ListSpawner, Ran, Spawner, Waited};
use std::alloc::Global;

/// How the programs behave, in order.
const PROGRAMS: [Ran; 3] = [
    Ran {
        starts: true,
        waited: Waited::Status(3),
    },
    Ran {
        starts: false,
        waited: Waited::Status(0),
    },
    Ran {
        starts: true,
        waited: Waited::Signal,
    },
];

/// A call.
#[derive(Clone, Copy)]
enum Step {
    /// Of this program with these words.
    Start(&'static str, &'static [&'static str]),
    Wait(u32),
}

const STEPS: [Step; 9] = [
    Step::Start("prog", &["x", "nbd://localhost"]),
    Step::Start("absent", &[]),
    Step::Start("other", &["y"]),
    Step::Wait(2),
    Step::Wait(0),
    Step::Wait(0),
    Step::Wait(1),
    Step::Wait(3),
    Step::Start("past", &[]),
];

/// What each call answers, with the count of faults behind it; and the calls that are kept then.
const TOLD: &str =
    "0 0, failed 1, 2 1, signal 1, status 3 1, status 3 1, failed 2, failed 3, failed 4, \
prog x nbd://localhost: 0; absent: failed; other y: 2; wait 2: signal; \
wait 0: status 3; wait 0: status 3; wait 1: failed; wait 3: failed; past: failed; ";

/// These words.
fn texts(alloc: Global, words: &[&str]) -> Result<Texts, NoMemory> {
    let mut texts = Texts::new(alloc);
    for word in words {
        texts.push(text(alloc, word)?)?;
    }
    Ok(texts)
}

fn push_child(told: &mut Told, child: Option<u32>) {
    match child {
        Some(child) => told.number(u64::from(child)),
        None => told.push("failed"),
    }
}

fn push_waited(told: &mut Told, waited: Waited) {
    match waited {
        Waited::Status(status) => {
            told.push("status ");
            told.number(u64::from(status));
        }
        Waited::Signal => told.push("signal"),
        Waited::Failed => told.push("failed"),
    }
}

fn push_started(
    told: &mut Told,
    alloc: Global,
    spawn: &mut ListSpawner,
    program: &str,
    words: &[&str],
) -> Result<(), NoMemory> {
    let program = text(alloc, program)?;
    let words = texts(alloc, words)?;
    push_child(told, spawn.start(&program, &words).ok());
    Ok(())
}

/// Makes a call, and tells what it answers.
fn push_step(
    told: &mut Told,
    alloc: Global,
    spawn: &mut ListSpawner,
    step: Step,
) -> Result<(), NoMemory> {
    match step {
        Step::Start(program, words) => push_started(told, alloc, spawn, program, words)?,
        Step::Wait(child) => push_waited(told, spawn.wait(child)),
    }
    told.push(" ");
    told.number(spawn.faults());
    told.push(", ");
    Ok(())
}

fn push_words(told: &mut Told, words: &[Text]) {
    for word in words {
        told.push(" ");
        told.push(word.as_str());
    }
}

/// Tells a call that is kept.
fn push_deed(told: &mut Told, deed: &Deed) {
    match deed {
        Deed::Start {
            program,
            words,
            child,
        } => {
            told.push(program.as_str());
            push_words(told, words.as_slice());
            told.push(": ");
            push_child(told, *child);
        }
        Deed::Wait { child, answer } => {
            told.push("wait ");
            told.number(u64::from(*child));
            told.push(": ");
            push_waited(told, *answer);
        }
    }
    told.push("; ");
}

fn push_deeds(told: &mut Told, deeds: &[Deed]) {
    for deed in deeds {
        push_deed(told, deed);
    }
}

fn push_steps(told: &mut Told, alloc: Global) -> Result<(), NoMemory> {
    let mut spawn = ListSpawner::new(alloc, Vec::from_slice(alloc, &PROGRAMS)?);
    for step in &STEPS {
        push_step(told, alloc, &mut spawn, *step)?;
    }
    push_deeds(told, spawn.calls());
    Ok(())
}

#[test]
fn programs_are_started_and_waited_for(rt: HostRuntime) -> Result<(), NoMemory> {
    let mut told = Told::new(rt.alloc());
    push_steps(&mut told, rt.alloc())?;
    same(&rt, &told, TOLD);
    Ok(())
}
