//! What follows from the definitions: the law is the whole contract of its function.
ghost use Rattle.mirror_frame.specs.Laws.{OneReplyStands};

/// One reply comes first in the unread bytes of a connection, with one body; or what comes there is malformed, or is cut.
/// Never are two of these so.
pub fn one_reply_stands()
    ensures { OneReplyStands }
{}
