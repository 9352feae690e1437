//! The kinds of commands and their numbers on the wire.

ghost use Rattle.std.specs.Prelude.{◌≡◌, Some, None, IfSome, IfNone, ℕ, ◌≢◌};
ghost use Rattle.lnbd_model.specs.Kind.{type_of};

/// What a command does (NBD protocol, "Request types").
#[derive(Clone, Copy, Debug, PartialEq, Eq)]
pub enum Kind {
    Read,
    Write,
    Flush,
    Trim,
    Cache,
    Zero,
    BlockStatus,
}

impl Kind {
    ghost use Rattle.lnbd_model.specs.declared.kind.Kind.{Kind};

    /// The number of the kind in a request.
    pub fn code(self) -> u16
        ensures { result ≡ type_of self }
    {
        match self {
            Kind::Read => 0,
            Kind::Write => 1,
            Kind::Flush => 3,
            Kind::Trim => 4,
            Kind::Cache => 5,
            Kind::Zero => 6,
            Kind::BlockStatus => 7,
        }
    }

    /// The kind with this number. None where no kind has it: the number of DISC, 2, among others.
    pub fn from_code(code: u16) -> Option<Kind>
        ensures some { IfSome result (λ kind. type_of kind ≡ code) }
        ensures none { IfNone result ((kind : Kind) → type_of kind ≢ code) }
    {
        match code {
            0 => Some(Kind::Read),
            1 => Some(Kind::Write),
            3 => Some(Kind::Flush),
            4 => Some(Kind::Trim),
            5 => Some(Kind::Cache),
            6 => Some(Kind::Zero),
            7 => Some(Kind::BlockStatus),
            _ => None,
        }
    }
}
