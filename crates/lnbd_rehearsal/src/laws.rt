//! What a copy over wires that serve comes to. Each law is the contract of a function that does nothing.

ghost use Rattle.lnbd_rehearsal.specs.Carrying.{CopiesMoveBytes};

/// Between two pauses of a copy over served wires, whose exports have no more than 2^55 bytes, at least one byte is moved.
pub fn copies_move_bytes()
    ensures { CopiesMoveBytes }
{}
