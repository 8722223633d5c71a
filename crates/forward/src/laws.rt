//! The law of the heads that are written. The function does nothing: its contract is the law.
ghost use Rattle.forward.specs.Laws.{HeadsReadBack};

/// What [`forward_head`](crate::forward_head) writes is read, by the definition of
/// [`read_request_head`](http_wire::read_request_head), as one head with nothing behind it, which
/// has the method, the target, the framing and the host that were meant, and no `l5d-dtab` of a
/// client. So no received field that frames or routes is kept by mistake.
pub fn heads_read_back()
    ensures { HeadsReadBack }
{}
