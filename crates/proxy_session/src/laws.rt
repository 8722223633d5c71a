//! The laws of the heads that go on, and of stays. The functions do nothing: their contracts are
//! the laws.
ghost use Rattle.proxy_session.specs.Laws.{ExchangesReadBack, HeadsReadBack, RequestsReadBack};
ghost use Rattle.proxy_session.specs.Laws.{StaysAreBounded, StaysComeLater, StaysReadBack};

/// The head with which a request goes on to a replica is read, by the definition of
/// [`read_request_head`](http_wire::read_request_head), as one head with nothing behind it. It has
/// the method of the request, the target, the framing and the one host of what the request seeks,
/// no `l5d-dtab` of a client, and of the routers' tables none but the request's own. The request's
/// head is one that was read off bytes, the paths of the rule and the names of the replica are of
/// bytes, and the head that goes on has at most 65,536.
///
/// In an exchange of a head that was read, the dialer does nothing that its log shows, or it makes
/// a visit to a replica; or it makes one over a kept connection, over which not a byte of a reply
/// came, and then at most one more, with the same head over a new connection to the same address. A
/// visit opens a connection; or it takes up a kept one, if the request may be repeated. What is
/// sent over it is the head with which the request goes on to this replica, to the byte, and what
/// goes on for a prefix of a body that is framed so, or a prefix of these, and what is got comes
/// behind that. Then the connection is ended; or it is kept, where all of the request was sent and
/// what was got is one whole reply to it, with nothing behind it. So in the log of a dialer, over
/// one connection, requests and replies alternate, and no request is sent before the reply to the
/// one before it was got whole.
///
/// In a request, as [`Server::proxy_once`](crate::Server::proxy_once) has one, the dialer does so
/// at most once more than the request is tried again. In a stay of a connection over the bytes of a
/// client, as [`Server::serve_stay`](crate::Server::serve_stay) has one, it does so for each
/// request in turn. Their heads stand in these bytes, one behind the other, and each goes on as the
/// rule has it heard. It does nothing else that its log shows.
pub fn heads_that_go_on_are_read_back()
    ensures heads { HeadsReadBack }
    ensures exchanges { ExchangesReadBack }
    ensures requests { RequestsReadBack }
    ensures stays { StaysReadBack }
{}

/// In a stay, as [`Server::serve_stay`](crate::Server::serve_stay) has one, nothing that the
/// server's pass had seen is forgotten, and whatever is asked of the router is asked behind all of
/// that. So a server that has learnt what was seen for a connection answers none of its requests
/// from an older state.
///
/// The attempts behind the first of each request are at most what the budget had and what the
/// requests of the stay paid in, in whole retries.
pub fn stays_follow_what_was_seen()
    ensures later { StaysComeLater }
    ensures bounded { StaysAreBounded }
{}
