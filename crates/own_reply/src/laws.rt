//! The law of the router's own replies. The function does nothing: its contract is the law.
ghost use Rattle.own_reply.specs.Laws.{OwnRepliesAreReplies};

/// Each own reply is read, by the definition of [`read_reply_head`](http_wire::read_reply_head), as
/// the head of a reply with the status and the reason of its refusal, and its one Content-Length is
/// the length of the body behind it.
pub fn own_replies_are_replies()
    ensures { OwnRepliesAreReplies }
{}
