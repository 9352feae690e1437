//! Schedules: what is said of each read and write of served wires. Which links they are on is not
//! known here.

ghost use Rattle.std.specs.Prelude.{◌≡◌, ◌≤◌, ◌<◌, true};
ghost use Rattle.lnbd_memnet.specs.Schedule.{drawn, step_of, step_at, Moves};

/// What a number's next multiple is taken of.
const FACTOR: u64 = 40_503;

/// How many numbers a seed draws from.
const NUMBERS: u64 = 65_536;

/// One in so many numbers moves nothing.
const REST: u64 = 8;

/// All that there is, in order.
const AT_ONCE: Step = Step {
    ready: true,
    most: usize::MAX,
    pick: 0,
};

/// What a schedule says of one read or write.
#[derive(Clone, Copy, Debug, PartialEq, Eq)]
pub struct Step {
    /// Whether bytes may move.
    pub ready: bool,
    /// How many bytes move at most.
    pub most: usize,
    /// Which pending reply is made first, counted round those that are pending.
    pub pick: usize,
}

/// What is said of each read and write, in their order over all links.
#[derive(Debug, Drop)]
pub enum Schedule {
    /// Steps that a number draws.
    Seeded(u64),
    /// These steps; after the last one all is ready, whole and in order.
    List(Vec<Step>),
}

impl Schedule {
    /// What is said of the read or write of this number, the first of which is 0.
    pub(crate) fn step(&self, turn: u64) -> Step
        ensures step { result ≡ step_at self.now turn }
        ensures most { Moves self.now → 1 ≤ result.most }
    {
        match self {
            Schedule::Seeded(seed) => step_of(drawn(*seed, turn)),
            Schedule::List(steps) => nth(steps, turn as usize),
        }
    }

    /// Whether this number draws the steps.
    pub(crate) fn is_seeded(&self, seed: u64) -> bool
        ensures { result ≡ true → self.now ≡ Schedule.Seeded seed }
    {
        match self {
            Schedule::Seeded(own) => *own == seed,
            Schedule::List(_) => false,
        }
    }
}

/// The step at this place, where there is one.
fn nth(steps: &Vec<Step>, turn: usize) -> Step
    ensures step { result ≡ step_at (Schedule.List steps.now) turn }
    ensures most { Moves (Schedule.List steps.now) → 1 ≤ result.most }
{
    if turn < steps.len() {
        steps[turn]
    } else {
        AT_ONCE
    }
}

fn drawn(seed: u64, turn: u64) -> u64
    ensures number { result ≡ drawn seed turn }
    ensures small { result < 65536 }
{
    let odd = seed.wrapping_mul(2).wrapping_add(1);
    odd.wrapping_mul(turn.wrapping_add(1)).wrapping_mul(FACTOR) % NUMBERS
}

fn step_of(number: u64) -> Step
    requires { number < 65536 }
    ensures step { result ≡ step_of number }
    ensures most { 1 ≤ result.most }
{
    Step {
        ready: number % REST != 0,
        most: number as usize + 1,
        pick: number as usize,
    }
}
