//! selftest: a copy in memory, which needs no server, and how such a run ends.

ghost use Rattle.std.specs.Prelude.{◌≡◌, ◌≢◌, ◌<◌, ◌≤◌, ◌++◌, Err, IfOk, OnOk, true, string_bytes};
ghost use Rattle.lnbd_link.specs.Count.{Rises};
ghost use Rattle.lnbd_cli.specs.Ends.{status_of};
ghost use Rattle.lnbd_cli.specs.Limits.{most_tested};
ghost use Rattle.lnbd_cli.specs.Trials.{TellsTrial, TestEnds, is_test_status, moved_text, sums_line, trial_text, zeroed_text};
ghost use Rattle.lnbd_cli.specs.declared.ending.Fault.TheVariants as fault;

use crate::ending::{End, Fault, Ruling};
use lnbd_link::{Sink, put};
use lnbd_model::NoMemory;
use lnbd_plan::Summary;
use lnbd_rehearsal::{MOST, rehearse};
use std::alloc::{AllocError, Global};

/// Which copy is made.
#[derive(Clone, Copy, Debug, PartialEq, Eq)]
pub(crate) struct Trial {
    /// The number that gives the content and the order in which bytes move.
    pub(crate) seed: u64,
    /// Bytes.
    pub(crate) size: u64,
}

fn push_trial(text: &mut String, trial: Trial) -> Result<(), AllocError>
    ensures { OnOk result (string_bytes text.new ≡ string_bytes text.old ++ trial_text trial) }
{
    let Trial { seed, size } = trial;
    write!(text, "seed {seed} size {size}")
}

fn push_moved(text: &mut String, sums: Summary) -> Result<(), AllocError>
    ensures { OnOk result (string_bytes text.new ≡ string_bytes text.old ++ moved_text sums) }
{
    let read = sums.read;
    let written = sums.written;
    write!(text, " read {read} written {written}")
}

fn push_zeroed(text: &mut String, sums: Summary) -> Result<(), AllocError>
    ensures { OnOk result (string_bytes text.new ≡ string_bytes text.old ++ zeroed_text sums) }
{
    let zeroed = sums.zeroed;
    write!(text, " zeroed {zeroed} equal\n")
}

/// The line of a copy that was made.
fn sums_line(alloc: Global, trial: Trial, sums: Summary) -> Result<String, AllocError>
    ensures { IfOk result (λ line. string_bytes line ≡ sums_line trial sums) }
{
    let mut line = String::new(alloc);
    push_trial(&mut line, trial)?;
    push_moved(&mut line, sums)?;
    push_zeroed(&mut line, sums)?;
    Ok(line)
}

/// Copies, and makes the line of it.
#[tactic(auto, using(crate::proofs::TrialLemmas::made_of))]
fn made(alloc: Global, trial: Trial) -> Result<String, NoMemory>
    requires { trial.size ≤ most_tested }
    ensures { IfOk result (λ line. TellsTrial trial (string_bytes line)) }
{
    let sums = rehearse(alloc, trial.seed, trial.size)?.summary;
    Ok(sums_line(alloc, trial, sums)?)
}

/// Copies, and prints the line of it.
pub(crate) fn test<O: Sink>(alloc: Global, trial: Trial, out: &mut O) -> End
    ensures ends { TestEnds trial (O.taken out.old) (O.taken out.new) (out.new ≡ out.old) result }
    ensures known { is_test_status (status_of result) ≡ true }
    ensures output { result ≡ Err fault.Output → Rises 1 (O.faults out.old) (O.faults out.new) }
    ensures output_well { OnOk result (O.faults out.new ≡ O.faults out.old) }
    ensures small { trial.size ≤ most_tested → status_of result ≢ 6 }
    ensures large { most_tested < trial.size → status_of result ≡ 6 }
{
    if MOST < trial.size {
        return Err(Fault::Rule(Ruling::TooLarge(trial.size)));
    }
    let line = match made(alloc, trial) {
        Ok(line) => line,
        Err(_) => return Err(Fault::NoMemory),
    };
    match put(out, line.as_bytes()) {
        Ok(()) => Ok(true),
        Err(_) => Err(Fault::Output),
    }
}
