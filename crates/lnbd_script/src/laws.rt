//! A law over the definitions that the contract of `play` cites: the contract of a function that does nothing.

ghost use Rattle.lnbd_script.specs.Origins.{OriginsAreTold};

/// A command's first error came from just where it is counted: from its own callback, where that was told no error and answered
/// one; else from content at fault, a lost connection or the peer, as its number tells.
pub fn origins_are_told()
    ensures { OriginsAreTold }
{}
