//! Laws of the definitions. Each is the contract of a function that does nothing.

ghost use Rattle.lnbd_commands.specs.Parts.{FilesByParts};

/// Filing a last frame is telling it as any other, and then ending the command; a death and a close are such ends alone.
pub fn files_by_parts<K>()
    ensures { FilesByParts K }
{}
