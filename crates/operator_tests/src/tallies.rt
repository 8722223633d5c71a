//! What exchanges add to a tally.

use access_log::{Answer, Break};
use addr_book::Addr;
use exchange_tally::{Done, FIGURES, Figure, Tally, Timed, tallies_add_up};
use metrics_text::Class;
use own_reply::OwnError;

/// A reply that was passed on whole after a try that failed.
const PASSED: Timed = Timed {
    done: Done {
        answer: Answer::Passed { status: 299 },
        replica: Some(Addr {
            ip: 0x0a00_0103,
            port: 8_080,
        }),
        tries: 2,
        failures: 1,
        request_bytes: 100,
        reply_bytes: 5_120,
        hits: 1,
        misses: 1,
        broken: None,
    },
    begun: 1_000,
    ended: 1_011,
};

/// A refusal for which the clock went back.
const REFUSED: Timed = Timed {
    done: Done {
        answer: Answer::Own(OwnError::Host),
        replica: None,
        tries: 0,
        failures: 0,
        request_bytes: 0,
        reply_bytes: 5,
        hits: 0,
        misses: 0,
        broken: Some(Break::WriteFault),
    },
    begun: 1_000,
    ended: 999,
};

/// Each figure that is not 0 once both were added, and one of each kind that is.
static COUNTS: [(Figure, u64); 18] = [
    (Figure::Requests(Class::Success), 1),
    (Figure::Requests(Class::ClientError), 1),
    (Figure::Requests(Class::Redirection), 0),
    (Figure::Requests(Class::ServerError), 0),
    (Figure::Requests(Class::NoReply), 0),
    (Figure::OwnReplies(OwnError::Host), 1),
    (Figure::OwnReplies(OwnError::Upstream), 0),
    (Figure::Tries, 2),
    (Figure::Failures, 1),
    (Figure::RequestBytes, 100),
    (Figure::ReplyBytes, 5_125),
    (Figure::Bucket(0), 1),
    (Figure::Bucket(3), 0),
    (Figure::Bucket(4), 1),
    (Figure::Bucket(13), 0),
    (Figure::Milliseconds, 11),
    (Figure::Hits, 1),
    (Figure::Misses, 1),
];

#[test]
fn exchanges_add_up(rt: HostRuntime) {
    tallies_add_up();
    let mut tally = Tally::new();
    tally.add(&PASSED);
    tally.add(&REFUSED);
    for (figure, count) in &COUNTS {
        assert!(rt; tally.count(*figure) == *count, "{figure:?}");
    }
}

/// Figures by their places.
static PLACES: [(Figure, u32); 10] = [
    (Figure::Requests(Class::Success), 0),
    (Figure::Requests(Class::NoReply), 5),
    (Figure::OwnReplies(OwnError::Version), 6),
    (Figure::OwnReplies(OwnError::Upstream), 24),
    (Figure::Bucket(0), 25),
    (Figure::Bucket(13), 38),
    (Figure::Bucket(14), 38),
    (Figure::Tries, 39),
    (Figure::Milliseconds, 43),
    (Figure::Misses, 45),
];

#[test]
fn figures_stand_at_their_places(rt: HostRuntime) {
    for (figure, place) in &PLACES {
        assert!(rt;
            figure.place() == *place && (*place as usize) < FIGURES,
            "{figure:?}"
        );
    }
}
