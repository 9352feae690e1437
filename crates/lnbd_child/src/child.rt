//! The child that is served: how it is started and waited for, and what its end says. It runs beside the server, so nobody is served here.

ghost use Rattle.std.specs.Prelude.{◌≡◌, ◌<◌, ◌≤◌, ◌++◌, ◌∷◌, [], Err, IfErr, IfOk, None, Option, Some, Result, drop, length};
ghost use Rattle.lnbd_child.specs.Causes.{Because, Lacks, Never, Rose};
ghost use Rattle.lnbd_child.specs.Child.{NotStarted, Starts, StartsNot, Waits, answer_of, is_bad};
ghost use Rattle.lnbd_child.specs.Grown.{Grew};

use crate::fault::RunFault;
use lnbd_model::{NoMemory, Text, Texts};
use lnbd_serve::ServeFault;
use lnbd_spawn::{Spawner, Waited};
use std::alloc::Global;

/// How serving ended, while a child runs.
#[derive(Clone, Copy, Debug, PartialEq, Eq)]
pub struct Running {
    /// The number of sessions, or `Client`.
    pub served: Result<u32, ServeFault>,
    pub child: Option<u32>,
}

/// How serving and the child ended.
#[derive(Clone, Copy, Debug, PartialEq, Eq)]
pub struct Attended {
    /// The number of sessions, or `Client`.
    pub served: Result<u32, ServeFault>,
    pub ended: Option<Waited>,
}

/// The words behind the program's, and the address.
fn words_of(alloc: Global, words: &[Text], uri: &Text) -> Result<Texts, NoMemory>
    ensures { IfOk result (λ all. all ≡ words.now ++ uri.now ∷ []) }
{
    let mut all = Texts::new(alloc);
    'words: for word in words {
        all.push(word.try_clone(alloc)?)?;
    }
    all.push(uri.try_clone(alloc)?)?;
    Ok(all)
}

/// All but the first.
fn rest_of(run: &[Text]) -> &[Text]
    requires { 0 < length run.now }
    ensures { result.now ≡ drop 1 run.now }
{
    &run[1..]
}

/// Starts this program with these words and the address.
fn start_program<P: Spawner>(
    alloc: Global,
    program: &Text,
    words: &[Text],
    uri: &Text,
    spawn: &mut P,
) -> Result<Option<u32>, RunFault>
    ensures starts { IfOk result (λ child. Grew (P.told spawn.old) (P.told spawn.new) (Starts (program.now ∷ words.now) uri.now child)) }
    ensures unstarted { IfErr result (λ why. Grew (P.told spawn.old) (P.told spawn.new) (NotStarted program.now words.now uri.now why)) }
    ensures cause { IfErr result (Because ⊥ ⊥ Lacks Never (Rose P.faults spawn.old spawn.new)) }
    ensures later { P.faults spawn.old ≤ P.faults spawn.new }
{
    let all = match words_of(alloc, words, uri) {
        Ok(all) => all,
        Err(_) => return Err(RunFault::Serve(ServeFault::NoMemory)),
    };
    let before = spawn.faults();
    match spawn.start(program, &all) {
        Ok(child) => Ok(Some(child)),
        Err(_) => Err(RunFault::Spawn {
            before,
            after: spawn.faults(),
        }),
    }
}

/// Starts the child, where one is asked for.
pub(crate) fn start<P: Spawner>(
    alloc: Global,
    run: &Texts,
    uri: &Text,
    spawn: &mut P,
) -> Result<Option<u32>, RunFault>
    ensures starts { IfOk result (λ child. Grew (P.told spawn.old) (P.told spawn.new) (Starts run.now uri.now child)) }
    ensures unstarted { IfErr result (λ why. Grew (P.told spawn.old) (P.told spawn.new) (StartsNot run.now uri.now why)) }
    ensures alone { run.now ≡ [] → spawn.new ≡ spawn.old }
    ensures nobody { run.now ≡ [] → IfOk result (λ child. child ≡ None) }
    ensures cause { IfErr result (Because ⊥ ⊥ Lacks Never (Rose P.faults spawn.old spawn.new)) }
    ensures later { P.faults spawn.old ≤ P.faults spawn.new }
{
    let words = run.as_slice();
    if words.is_empty() {
        return Ok(None);
    }
    start_program(alloc, &words[0], rest_of(words), uri, spawn)
}

/// Waits for the child of this number.
fn wait_for<P: Spawner>(
    served: Result<u32, ServeFault>,
    child: u32,
    spawn: &mut P,
) -> Result<Attended, RunFault>
    ensures waits { Grew (P.told spawn.old) (P.told spawn.new) (Waits (record { served = served; child = Some child }) result) }
    ensures served { IfOk result (λ attended. attended.served ≡ served) }
    ensures cause { IfErr result (Because ⊥ ⊥ Lacks Never (Rose P.faults spawn.old spawn.new)) }
    ensures later { P.faults spawn.old ≤ P.faults spawn.new }
{
    let before = spawn.faults();
    match spawn.wait(child) {
        Waited::Failed => Err(RunFault::Spawn {
            before,
            after: spawn.faults(),
        }),
        Waited::Signal => Ok(Attended {
            served,
            ended: Some(Waited::Signal),
        }),
        Waited::Status(status) => Ok(Attended {
            served,
            ended: Some(Waited::Status(status)),
        }),
    }
}

/// Waits for the child, where there is one.
pub(crate) fn wait<P: Spawner>(running: Running, spawn: &mut P) -> Result<Attended, RunFault>
    ensures waits { Grew (P.told spawn.old) (P.told spawn.new) (Waits running result) }
    ensures served { IfOk result (λ attended. attended.served ≡ running.served) }
    ensures alone { running.child ≡ None → spawn.new ≡ spawn.old }
    ensures cause { IfErr result (Because ⊥ ⊥ Lacks Never (Rose P.faults spawn.old spawn.new)) }
    ensures later { P.faults spawn.old ≤ P.faults spawn.new }
{
    match running.child {
        None => Ok(Attended {
            served: running.served,
            ended: None,
        }),
        Some(child) => wait_for(running.served, child, spawn),
    }
}

/// Whether it ended badly: by a signal, or with another status than 0.
fn is_bad(ended: Waited) -> bool
    ensures { result ≡ is_bad ended }
{
    match ended {
        Waited::Status(status) => status != 0,
        Waited::Signal => true,
        Waited::Failed => false,
    }
}

/// The answer where all steps were done.
pub(crate) fn answer_of(attended: Attended) -> Result<u32, RunFault>
    ensures { result ≡ answer_of attended.served attended.ended }
{
    match attended.served {
        Err(why) => Err(RunFault::Serve(why)),
        Ok(sessions) => match attended.ended {
            None => Ok(sessions),
            Some(answer) => {
                if is_bad(answer) {
                    Err(RunFault::Child(answer))
                } else {
                    Ok(sessions)
                }
            }
        },
    }
}
