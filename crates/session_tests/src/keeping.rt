//! Connections to replicas that are kept: over which each request goes, and behind which replies
//! they are kept.
use crate::compared::assert_text;
use crate::row::{FAILED, FAILED_SINCE, Failures, GOOD, joined, wanted};
use crate::scene::{FIXED, Failing, NO_CALL, Scene};
use crate::texts::{DIAL, GET, REPLY, UPSTREAM, WRITTEN};
use http_wire::Ended::{self, Closed, PeerEnded, UpstreamCut};
use std::alloc::Global;
use std::process::Abort;
use std::sync::Wait;
use std::test::Fail;

/// A request as it goes on.
const SENT: &str = "GET / HTTP/1.1|Host: web|Via: 1.1 linkerd|l5d-dst-service: /svc/web|\
    l5d-dst-client: /$/inet/127.0.0.1/9001||";

/// One that may not be sent twice, and as it goes on.
const POST: &str = "POST / HTTP/1.1|Host: web|Content-Length: 2||hi";

const SENT_POST: &str = "POST / HTTP/1.1|Host: web|Content-Length: 2|Via: 1.1 linkerd|\
    l5d-dst-service: /svc/web|l5d-dst-client: /$/inet/127.0.0.1/9001||hi";

/// One whose reply has no body, and as it goes on.
const HEAD: &str = "HEAD / HTTP/1.1|Host: web||";

const SENT_HEAD: &str = "HEAD / HTTP/1.1|Host: web|Via: 1.1 linkerd|l5d-dst-service: /svc/web|\
    l5d-dst-client: /$/inet/127.0.0.1/9001||";

/// What goes into a session whose dialer keeps connections, and what comes of it.
///
/// The first request makes the dialer's calls 0 to 3: a resume that finds nothing, a dial, a send
/// and a receive. The second one's are a resume, a send and a receive, where the connection is
/// kept.
#[derive(Clone, Copy)]
struct Case {
    about: &'static str,
    gives: &'static [&'static str],
    /// What the replicas reply, in the order of the dials and the resumes that are answered.
    replies: &'static [&'static str],
    /// The calls of the dialer that fail, and those of them that wait for too long.
    failing: &'static [u64],
    waiting: &'static [u64],
    /// The most bytes that a call moves.
    most: usize,
    written: &'static [&'static str],
    /// What the tries send: each behind `<`, where the connection was opened, or `(`, where it was
    /// resumed; and before `>`, where it was ended, or `)`, where it was kept.
    sent: &'static [&'static str],
    ended: Ended,
    reported: Failures,
}

/// Two requests that are answered well. The second goes over the connection of the first.
const TWO: Case = Case {
    about: "a second request",
    gives: &[GET, GET],
    replies: &[REPLY, REPLY],
    failing: &[],
    waiting: &[],
    most: usize::MAX,
    written: &[WRITTEN, WRITTEN],
    sent: &["<", SENT, ")(", SENT, ")"],
    ended: PeerEnded,
    reported: GOOD,
};

/// Over which connections two requests go.
const GOES_ON: [Case; 5] = [
    TWO,
    Case {
        about: "a dial that fails",
        replies: &[REPLY],
        failing: &[1],
        written: &[DIAL, WRITTEN],
        sent: &["<", SENT, ")"],
        reported: GOOD,
        ..TWO
    },
    Case {
        about: "a new connection over which a send fails is tried once",
        replies: &["", REPLY],
        failing: &[2],
        written: &[UPSTREAM, WRITTEN],
        sent: &["<><", SENT, ")"],
        reported: GOOD,
        ..TWO
    },
    Case {
        about: "and so is one over which a receive fails",
        failing: &[3],
        written: &[UPSTREAM, WRITTEN],
        sent: &["<", SENT, "><", SENT, ")"],
        reported: GOOD,
        ..TWO
    },
    Case {
        about: "a request that may not be sent twice in between",
        gives: &[GET, POST, GET],
        replies: &[REPLY, REPLY, REPLY],
        written: &[WRITTEN, WRITTEN, WRITTEN],
        sent: &["<", SENT, ")<", SENT_POST, ")(", SENT, ")"],
        ..TWO
    },
];

/// Replies behind which a connection is kept, and others.
const FRAMINGS: [Case; 9] = [
    Case {
        about: "a reply that closes",
        replies: &[
            "HTTP/1.1 200 OK|Content-Length: 2|Connection: close||hi",
            REPLY,
        ],
        sent: &["<", SENT, "><", SENT, ")"],
        ..TWO
    },
    Case {
        about: "a reply of HTTP/1.0",
        replies: &["HTTP/1.0 200 OK|Content-Length: 2||hi", REPLY],
        written: &[
            "HTTP/1.1 200 OK|Content-Length: 2|Via: 1.0 linkerd||hi",
            WRITTEN,
        ],
        sent: &["<", SENT, "><", SENT, ")"],
        ..TWO
    },
    Case {
        about: "a reply up to the end",
        replies: &["HTTP/1.1 200 OK||hi", REPLY],
        written: &["HTTP/1.1 200 OK|Via: 1.1 linkerd|Connection: close||hi"],
        sent: &["<", SENT, ">"],
        ended: Closed,
        ..TWO
    },
    Case {
        about: "a reply with a byte behind its end",
        replies: &["HTTP/1.1 200 OK|Content-Length: 2||hi!", REPLY],
        sent: &["<", SENT, "><", SENT, ")"],
        ..TWO
    },
    Case {
        about: "a reply of no content",
        replies: &["HTTP/1.1 204 No Content||", REPLY],
        written: &["HTTP/1.1 204 No Content|Via: 1.1 linkerd||", WRITTEN],
        ..TWO
    },
    Case {
        about: "a 304 with a length",
        replies: &["HTTP/1.1 304 Not Modified|Content-Length: 5||", REPLY],
        written: &[
            "HTTP/1.1 304 Not Modified|Content-Length: 5|Via: 1.1 linkerd||",
            WRITTEN,
        ],
        ..TWO
    },
    Case {
        about: "a reply to HEAD",
        gives: &[HEAD, GET],
        replies: &["HTTP/1.1 200 OK|Content-Length: 5||", REPLY],
        written: &[
            "HTTP/1.1 200 OK|Content-Length: 5|Via: 1.1 linkerd||",
            WRITTEN,
        ],
        sent: &["<", SENT_HEAD, ")(", SENT, ")"],
        ..TWO
    },
    Case {
        about: "chunks with a trailer",
        replies: &[
            "HTTP/1.1 200 OK|Transfer-Encoding: chunked||5|hello|0|T: 1||",
            REPLY,
        ],
        written: &[
            "HTTP/1.1 200 OK|Transfer-Encoding: chunked|Via: 1.1 linkerd||5|hello|0||",
            WRITTEN,
        ],
        ..TWO
    },
    Case {
        about: "a reply that is cut",
        replies: &["HTTP/1.1 200 OK|Content-Length: 5||he", REPLY],
        written: &["HTTP/1.1 200 OK|Content-Length: 5|Via: 1.1 linkerd||he"],
        sent: &["<", SENT, ">"],
        ended: UpstreamCut,
        reported: FAILED,
        ..TWO
    },
];

/// Kept connections that break before a byte of a reply.
const BROKEN: [Case; 6] = [
    Case {
        about: "a kept connection that has ended",
        failing: &[4],
        sent: &["<", SENT, ")<", SENT, ")"],
        ..TWO
    },
    Case {
        about: "a kept connection over which a 408 came",
        replies: &[
            "HTTP/1.1 200 OK|Content-Length: 2||hiHTTP/1.1 408 Request Timeout||",
            REPLY,
        ],
        most: 40,
        sent: &["<", SENT, ")<", SENT, ")"],
        ..TWO
    },
    Case {
        about: "a kept connection that is reset before a byte is sent",
        replies: &[REPLY, "", REPLY],
        failing: &[5],
        sent: &["<", SENT, ")(><", SENT, ")"],
        ..TWO
    },
    Case {
        about: "one that is reset behind a part of the head",
        replies: &[REPLY, "", REPLY],
        failing: &[7],
        most: 64,
        sent: &[
            "<",
            SENT,
            ")(GET / HTTP/1.1|Host: web|Via: 1.1 linkerd|l5d-dst-service: /s><",
            SENT,
            ")",
        ],
        ..TWO
    },
    Case {
        about: "one that is reset behind the head",
        replies: &[REPLY, "", REPLY],
        failing: &[6],
        sent: &["<", SENT, ")(", SENT, "><", SENT, ")"],
        ..TWO
    },
    Case {
        about: "one that ends behind the head",
        replies: &[REPLY, "", REPLY],
        sent: &["<", SENT, ")(", SENT, "><", SENT, ")"],
        ..TWO
    },
];

/// Tries over kept connections that fail.
const UNANSWERED: [Case; 4] = [
    Case {
        about: "a replica that is late over a kept connection is not asked twice",
        failing: &[6],
        waiting: &[6],
        written: &[WRITTEN, UPSTREAM],
        sent: &["<", SENT, ")(", SENT, ">"],
        reported: FAILED_SINCE,
        ..TWO
    },
    Case {
        about: "nor one that gave a part of a reply",
        replies: &[REPLY, "HTTP/1.1 200", REPLY],
        written: &[WRITTEN, UPSTREAM],
        sent: &["<", SENT, ")(", SENT, ">"],
        reported: FAILED_SINCE,
        ..TWO
    },
    Case {
        about: "a dial behind a silent visit that fails",
        replies: &[REPLY, "", REPLY],
        failing: &[5, 6],
        written: &[WRITTEN, DIAL],
        sent: &["<", SENT, ")(>"],
        reported: FAILED_SINCE,
        ..TWO
    },
    Case {
        about: "a second silence, over the new connection",
        replies: &[REPLY, "", "", REPLY],
        written: &[WRITTEN, UPSTREAM],
        sent: &["<", SENT, ")(", SENT, "><", SENT, ">"],
        reported: FAILED_SINCE,
        ..TWO
    },
];

impl Case {
    /// Plays it: what is wanted has to come.
    fn play<R: Wait + Abort>(&self, rt: &R, alloc: Global) -> Result<(), Fail> {
        let gives = joined(alloc, self.gives)?;
        let played = self.play_given(rt, alloc, gives.as_str());
        drop(gives);
        played
    }

    /// The same, where the client gives this text.
    fn play_given<R: Wait + Abort>(&self, rt: &R, alloc: Global, gives: &str) -> Result<(), Fail> {
        let wanted = wanted(alloc, self.written, self.sent, self.ended, self.reported)?;
        let scene = Scene {
            failing: Failing {
                dials: self.failing,
                ..NO_CALL
            },
            keeping: Some(self.waiting),
            most: self.most,
            ..Scene::of(FIXED, gives, self.replies)
        };
        let played = assert_text(rt, alloc, &scene, self.about, wanted.as_str());
        drop(wanted);
        played
    }
}

/// Plays each case, of which has to come what is wanted.
fn play_cases<R: Wait + Abort>(rt: &R, alloc: Global, cases: &[Case]) -> Result<(), Fail> {
    for case in cases {
        case.play(rt, alloc)?;
    }
    Ok(())
}

#[test]
fn a_second_request_goes_on(rt: HostRuntime) -> Result<(), Fail> {
    play_cases(&rt, rt.alloc(), &GOES_ON)
}

#[test]
fn connections_are_kept_behind_replies(rt: HostRuntime) -> Result<(), Fail> {
    play_cases(&rt, rt.alloc(), &FRAMINGS)
}

#[test]
fn a_kept_connection_breaks(rt: HostRuntime) -> Result<(), Fail> {
    play_cases(&rt, rt.alloc(), &BROKEN)
}

#[test]
fn a_kept_connection_fails(rt: HostRuntime) -> Result<(), Fail> {
    play_cases(&rt, rt.alloc(), &UNANSWERED)
}
