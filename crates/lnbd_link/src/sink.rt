//! Where bytes go: the trait of a program's output. No text is made here.

ghost use Rattle.std.specs.Prelude.{◌≡◌, ◌<◌, ◌≤◌, ℕ, List, Option, Some, length};
ghost use Rattle.lnbd_link.specs.Count.{Rises};
ghost use Rattle.lnbd_link.specs.Part.{Takes};
ghost use Rattle.lnbd_link.specs.Answers.{IfSunk, SinkFailed, sunk_of};

/// What a sink answers.
#[derive(Clone, Copy, Debug, PartialEq, Eq)]
pub enum SinkTook {
    /// The sink took so many of the bytes, from the front.
    Bytes(usize),
    /// The sink took none.
    Failed,
}

/// Where bytes go. A sink may tell the bytes that it took.
pub trait Sink {
    /// The bytes taken so far, where the sink tells them.
    ghost taken: { Self → Option (List ℕ) };

    /// How often a call failed.
    ghost faults: { Self → ℕ };

    /// Hands over bytes, of which a front is taken. `Failed` where none is.
    fn write(&mut self, from: &[u8]) -> SinkTook
        requires { 0 < length from.now }
        ensures taken { Takes (taken self.old) (taken self.new) (sunk_of result from.now) }
        ensures count { IfSunk result (λ n. (0 < n) × (n ≤ length from.now)) }
        ensures faults { faults self.old ≤ faults self.new }
        ensures cause { SinkFailed result → Rises 1 (faults self.old) (faults self.new) }
        ensures still { IfSunk result (λ n. faults self.new ≡ faults self.old) };
}
