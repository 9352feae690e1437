//! The law of a conversation on one link, as the contract of a function that does nothing.

ghost use Rattle.lnbd_usage.specs.OneLink.{ConversationsUseOneLink};

/// A conversation on a link that a connect gave, behind which it is shut, uses that link alone, and only while it is open.
pub fn conversations_use_one_link()
    ensures { ConversationsUseOneLink }
{}
