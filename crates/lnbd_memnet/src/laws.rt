//! What the calls on served wires come to. Each law is the contract of a function that does nothing.

ghost use Rattle.lnbd_memnet.specs.Laws.{LinksAreSessions, ReadsAreLetIn, WritesAreLetIn};

/// What the transcript says of a link is what its session took and gave, each byte once and in order.
pub fn links_are_sessions()
    ensures { LinksAreSessions }
{}

/// Between two pauses that want an open link no schedule shuts it out: the first read and the first write
/// on it move as their steps say.
pub fn none_is_shut_out()
    ensures reads { ReadsAreLetIn }
    ensures writes { WritesAreLetIn }
{}
