//! Requests that are tried again, and what their budget grants.
use crate::compared::assert_same;
use crate::played::{Played, play};
use crate::row::joined;
use crate::scene::{BOOK, FIXED, Failing, Mem, NO_CALL, Scene};
use crate::texts::{DIAL, GET, REPLY, TWO, UPSTREAM, WRITTEN};
use http_wire::Ended::{self, Closed, PeerEnded, UpstreamCut};
use retry_budget::{Budget, Tries};
use std::alloc::Global;
use std::process::Abort;
use std::sync::Wait;
use std::test::Fail;

/// Each request pays a fifth of a retry in, ten are there from the start, and one request has three
/// at most.
const USUAL: Tries = Tries {
    percent: 20,
    reserve: 10,
    most: 3,
};

/// The refusal where a replica gave no reply, behind which the connection closes.
const LAST_UPSTREAM: &str = "HTTP/1.1 502 Bad Gateway|Content-Type: text/plain|\
    l5d-err: upstream|Content-Length: 9|Connection: close||upstream~";

/// What goes into a session with a budget, and what comes of it.
#[derive(Clone, Copy)]
struct Case {
    about: &'static str,
    tries: Tries,
    /// What the client gives.
    gives: &'static str,
    /// What the replicas reply, in the order of the dials that are answered.
    replies: &'static [&'static str],
    /// The calls of the dialer that fail.
    failing: &'static [u64],
    /// What the client is given.
    written: &'static [&'static str],
    /// How many calls of the dialer failed, and how many connections it opened.
    dials: (u64, usize),
    ended: Ended,
}

/// One request, whose first replica can't be dialled.
const ONE: Case = Case {
    about: "a replica that can't be dialled",
    tries: USUAL,
    gives: GET,
    replies: &[REPLY],
    failing: &[0],
    written: &[WRITTEN],
    dials: (1, 1),
    ended: PeerEnded,
};

/// Requests whose replicas fail, and budgets for them.
const DIALS: [Case; 5] = [
    ONE,
    Case {
        about: "a budget of one retry",
        tries: Tries {
            percent: 0,
            reserve: 1,
            most: 3,
        },
        gives: TWO,
        failing: &[0, 1, 2],
        written: &[DIAL, DIAL],
        dials: (3, 0),
        ..ONE
    },
    Case {
        about: "no retries for a request",
        tries: Tries {
            percent: 20,
            reserve: 10,
            most: 0,
        },
        written: &[DIAL],
        dials: (1, 0),
        ..ONE
    },
    Case {
        about: "no replica gives a reply",
        replies: &["", "", "", "", REPLY],
        failing: &[],
        written: &[UPSTREAM],
        dials: (0, 4),
        ..ONE
    },
    Case {
        about: "a request that can't be sent",
        replies: &["", REPLY],
        failing: &[1],
        dials: (1, 2),
        ..ONE
    },
];

/// Requests with bodies.
const BODIES: [Case; 4] = [
    Case {
        about: "a body whose replica gives no reply",
        gives: "POST / HTTP/1.1|Host: web|Content-Length: 5||hello",
        replies: &["", REPLY],
        failing: &[],
        written: &[LAST_UPSTREAM],
        dials: (0, 1),
        ended: Closed,
        ..ONE
    },
    Case {
        about: "a body whose replica can't be dialled",
        gives: "POST / HTTP/1.1|Host: web|Content-Length: 5||hello",
        ..ONE
    },
    Case {
        about: "a length of 0",
        gives: "PUT / HTTP/1.1|Host: web|Content-Length: 0||",
        replies: &["", REPLY],
        failing: &[],
        dials: (0, 2),
        ..ONE
    },
    Case {
        about: "a chunked body of nothing",
        gives: "PUT / HTTP/1.1|Host: web|Transfer-Encoding: chunked||0||",
        replies: &["", REPLY],
        failing: &[],
        written: &[LAST_UPSTREAM],
        dials: (0, 1),
        ended: Closed,
        ..ONE
    },
];

/// Replies behind which nothing is tried again, and what a budget grants.
const BUDGETS: [Case; 5] = [
    Case {
        about: "a retry whose reply is 503",
        replies: &[
            "HTTP/1.1 503 Service Unavailable|Content-Length: 0||",
            REPLY,
        ],
        written: &["HTTP/1.1 503 Service Unavailable|Content-Length: 0|Via: 1.1 linkerd||"],
        ..ONE
    },
    Case {
        about: "a reply that is cut",
        replies: &["HTTP/1.1 200 OK|Content-Length: 5||he", REPLY],
        failing: &[],
        written: &["HTTP/1.1 200 OK|Content-Length: 5|Via: 1.1 linkerd||he"],
        dials: (0, 1),
        ended: UpstreamCut,
        ..ONE
    },
    Case {
        about: "a request behind one that is tried again",
        gives: TWO,
        replies: &[REPLY, REPLY],
        written: &[WRITTEN, WRITTEN],
        dials: (1, 2),
        ..ONE
    },
    Case {
        about: "a request that is refused pays in too",
        tries: Tries {
            percent: 50,
            reserve: 0,
            most: 3,
        },
        gives: "GET / HTTP/1.1|Host: web|l5d-dtab: x||GET / HTTP/1.1|Host: web||",
        written: &[
            "HTTP/1.1 400 Bad Request|Content-Type: text/plain|l5d-err: dtab|\
                Content-Length: 5||dtab~",
            WRITTEN,
        ],
        ..ONE
    },
    Case {
        about: "a retry pays nothing in",
        tries: Tries {
            percent: 99,
            reserve: 1,
            most: 3,
        },
        failing: &[0, 1],
        written: &[DIAL],
        dials: (2, 0),
        ..ONE
    },
];

/// How many connections were opened, by what the tries sent: each begins with this sign.
fn opened(sent: &str, sign: u8) -> usize {
    let mut count = 0usize;
    for byte in sent.as_bytes() {
        if *byte == sign {
            count = count.saturating_add(1);
        }
    }
    count
}

/// What came of a session, as one text.
fn told(alloc: Global, written: &str, dials: (u64, usize), ended: Option<Ended>) -> Mem<String> {
    let (failed, opened) = dials;
    format!(in alloc; "{written} {failed} {opened} {ended:?}")
}

/// The same of a session that was played.
fn told_of(alloc: Global, played: &Played) -> Mem<String> {
    let dials = (played.failed, opened(played.sent.as_str(), b'<'));
    told(alloc, played.written.as_str(), dials, played.ended)
}

impl Case {
    /// Plays it: what is wanted has to come.
    fn play<R: Wait + Abort>(&self, rt: &R, alloc: Global) -> Result<(), Fail> {
        let wanted = self.wanted(alloc)?;
        let played = self.play_for(rt, alloc, wanted.as_str());
        drop(wanted);
        played
    }

    /// The same, where this text is wanted.
    fn play_for<R: Wait + Abort>(&self, rt: &R, alloc: Global, wanted: &str) -> Result<(), Fail> {
        let comes = self.comes(rt, alloc)?;
        assert_same(rt, self.about, comes.as_str(), wanted);
        drop(comes);
        Ok(())
    }

    /// What is wanted of the session.
    fn wanted(&self, alloc: Global) -> Mem<String> {
        let written = joined(alloc, self.written)?;
        told(alloc, written.as_str(), self.dials, Some(self.ended))
    }

    /// What comes of the session.
    fn comes<R: Wait + Abort>(&self, rt: &R, alloc: Global) -> Result<String, Fail> {
        let scene = Scene {
            failing: Failing {
                dials: self.failing,
                ..NO_CALL
            },
            tries: Some(self.tries),
            ..Scene::of(FIXED, self.gives, self.replies)
        };
        let played = play(rt, alloc, &scene)?;
        let comes = told_of(alloc, &played);
        drop(played);
        Ok(comes?)
    }
}

/// Plays each case, of which has to come what is wanted.
fn play_cases<R: Wait + Abort>(rt: &R, alloc: Global, cases: &[Case]) -> Result<(), Fail> {
    for case in cases {
        case.play(rt, alloc)?;
    }
    Ok(())
}

#[test]
fn requests_are_tried_again(rt: HostRuntime) -> Result<(), Fail> {
    play_cases(&rt, rt.alloc(), &DIALS)
}

#[test]
fn bodies_are_not_sent_twice(rt: HostRuntime) -> Result<(), Fail> {
    play_cases(&rt, rt.alloc(), &BODIES)
}

#[test]
fn what_a_budget_grants(rt: HostRuntime) -> Result<(), Fail> {
    play_cases(&rt, rt.alloc(), &BUDGETS)
}

/// The methods of requests, and whether one that got no reply is sent to another replica.
const METHODS: [(&str, bool); 10] = [
    ("GET", true),
    ("HEAD", true),
    ("OPTIONS", true),
    ("TRACE", true),
    ("QUERY", true),
    ("PUT", true),
    ("DELETE", true),
    ("POST", false),
    ("PATCH", false),
    ("SEARCH", false),
];

/// How many connections are opened for a request of this method, whose first replica gives no
/// reply.
fn tried<R: Wait + Abort>(rt: &R, alloc: Global, method: &str) -> Result<usize, Fail> {
    let gives = format!(in alloc; "{method} / HTTP/1.1|Host: web||")?;
    let count = opened_for(rt, alloc, gives.as_str());
    drop(gives);
    count
}

/// The same for this request.
fn opened_for<R: Wait + Abort>(rt: &R, alloc: Global, gives: &str) -> Result<usize, Fail> {
    let replies = ["", "HTTP/1.1 204 No Content||"];
    let scene = Scene {
        tries: Some(USUAL),
        ..Scene::of(FIXED, gives, &replies)
    };
    let played = play(rt, alloc, &scene)?;
    let count = opened(played.sent.as_str(), b'<');
    drop(played);
    Ok(count)
}

#[test]
fn idempotent_requests_are_tried_again(rt: HostRuntime) -> Result<(), Fail> {
    let alloc = rt.alloc();
    for (method, again) in METHODS.iter() {
        let wanted = if *again { 2 } else { 1 };
        assert!(rt; tried(&rt, alloc, method)? == wanted, "{method}");
    }
    Ok(())
}

/// Where a balance has 99 hundredths of a retry, none is granted, and it stays as it is.
#[test]
fn a_retry_takes_a_hundred(rt: HostRuntime) {
    let mut budget = Budget::start(Tries {
        percent: 99,
        reserve: 0,
        most: 3,
    });
    budget.request();
    let first = (budget.spend(), budget.balance());
    budget.request();
    let second = (budget.spend(), budget.balance());
    assert_eq!(rt;
        (first, second, budget.most()),
        ((false, 99), (true, 98), 3)
    );
    assert!(rt; USUAL.is_allowed() && Tries::default().is_allowed());
}

/// A replica that was left out behind one failure is not tried again: of two, each request that
/// follows goes to the other one.
#[test]
fn a_replica_that_failed_is_left_out(rt: HostRuntime) -> Result<(), Fail> {
    let alloc = rt.alloc();
    let scene = Scene {
        addresses: "127.0.0.1 9001~127.0.0.1 9002~",
        is_strict: true,
        times: 8,
        failing: Failing {
            dials: &[0],
            ..NO_CALL
        },
        tries: Some(Tries::default()),
        ..Scene::of(BOOK, GET, &[REPLY; 8])
    };
    let played = play(&rt, alloc, &scene)?;
    let sent = played.sent.as_str();
    let (first, second) = (opened(sent, b'<'), opened(sent, b'?'));
    let comes = (played.failed, first.min(second), first.max(second));
    drop(played);
    assert_eq!(rt; comes, (1, 0, 8));
    Ok(())
}
