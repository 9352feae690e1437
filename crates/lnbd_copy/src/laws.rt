//! Laws of what is said of a copy's calls. Each is the contract of a function that does nothing.

ghost use Rattle.lnbd_copy.specs.Written.{VainWritesAreLast};

/// Of a link that was written in vain the last write took nothing, and it came since the last pause.
pub fn vain_writes_are_last()
    ensures { VainWritesAreLast }
{}
