//! Why a body can't be read.

ghost use Rattle.std.specs.Prelude.{◌≡◌};
ghost use Rattle.lnbd_options.specs.declared.fault.OptionFault.TheVariants.{NoMemory};

use thiserror::Error;

/// Why the body of an option reply or request tells nothing.
#[derive(Clone, Copy, Debug, PartialEq, Eq, Error)]
pub enum OptionFault {
    /// Memory ran out.
    #[error("no memory")]
    NoMemory,
    /// The bytes don't fit the form of their type.
    #[error("bytes that do not fit their option")]
    BadOptionLength,
    /// The bytes fit, and a text is not UTF-8 or has more than 4,096 bytes.
    #[error("a name or description that is no text")]
    BadText,
}

impl From<lnbd_model::NoMemory> for OptionFault {
    ghost from_gives = { λ _ fault. fault ≡ NoMemory };

    fn from(_error: lnbd_model::NoMemory) -> OptionFault {
        OptionFault::NoMemory
    }
}
