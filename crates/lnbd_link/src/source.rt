//! Where bytes come from: the trait of a program's input. Nothing is parsed here.

ghost use Rattle.std.specs.Prelude.{◌≡◌, ◌<◌, ◌≤◌, ℕ, List, Option, Some, [], length};
ghost use Rattle.lnbd_link.specs.Count.{Rises};
ghost use Rattle.lnbd_link.specs.Part.{Gives};
ghost use Rattle.lnbd_link.specs.Answers.{IfSourced, SourceFailed, SourceEnded, UnlessFailed, sourced_of};

/// What a source answers.
#[derive(Clone, Copy, Debug, PartialEq, Eq)]
pub enum SourceGot {
    /// So many bytes were put at the front of the slice.
    Bytes(usize),
    /// No byte is left.
    End,
    /// No byte came.
    Failed,
}

/// Where bytes come from. A source may tell the bytes that are left.
pub trait Source {
    /// The bytes left, where the source tells them.
    ghost left: { Self → Option (List ℕ) };

    /// How often a call failed.
    ghost faults: { Self → ℕ };

    /// Takes bytes from the front of those left. Where they are told, `End` comes only where none is left.
    fn read(&mut self, into: &mut [u8]) -> SourceGot
        requires { 0 < length into.old }
        ensures left { Gives (left self.old) (left self.new) (sourced_of result into.new) }
        ensures count { IfSourced result (λ n. (0 < n) × (n ≤ length into.old)) }
        ensures end { SourceEnded result → (bytes : List ℕ) → left self.old ≡ Some bytes → bytes ≡ [] }
        ensures faults { faults self.old ≤ faults self.new }
        ensures cause { SourceFailed result → Rises 1 (faults self.old) (faults self.new) }
        ensures still { UnlessFailed result (faults self.new ≡ faults self.old) };
}
