//! Laws of what is kept of a command. Each is the contract of a function that does nothing.

ghost use Rattle.lnbd_structured.specs.Laws.{StepsAreOneReply, StandsForItsChunks, FaultsStayFew, PartsTellTheChunk, PartsShowTheBreach, EffectsAreHeard};

/// A chunk, the answer of its callback and the end of the last one are together one reply of the command.
pub fn steps_are_one_reply()
    ensures { StepsAreOneReply }
{}

/// What is kept stands for the list of the chunks that were taken.
pub fn stands_for_its_chunks()
    ensures { StandsForItsChunks }
{}

/// After each chunk but the last the next one may be taken.
pub fn faults_stay_few()
    ensures { FaultsStayFew }
{}

/// What a chunk tells, and which breach it shows, is told by what is handed in of its payload.
pub fn parts_tell_the_chunk()
    ensures told { PartsTellTheChunk }
    ensures breach { PartsShowTheBreach }
{}

/// What the callback is told follows from what a chunk asks for.
pub fn effects_are_heard()
    ensures { EffectsAreHeard }
{}
