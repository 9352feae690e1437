//! Which handles a line acts on.

ghost use Rattle.std.specs.Prelude.{◌≡◌};
ghost use Rattle.lnbd_script.specs.Acts.{reach_of};

use lnbd_lines::Line;

/// Which handles a line acts on.
#[derive(Clone, Copy, Debug, PartialEq, Eq)]
pub(crate) enum Reach {
    /// None: the lines behind it act on the handle of this number.
    Choice(usize),
    /// All.
    All,
    /// The current one alone.
    Current,
}

impl Reach {
    /// Which handles this line acts on.
    pub(crate) fn of(line: &Line) -> Reach
        ensures { result ≡ reach_of line.now }
    {
        match line {
            Line::Handle { number } => Reach::Choice(*number),
            Line::Settle => Reach::All,
            _ => Reach::Current,
        }
    }
}
