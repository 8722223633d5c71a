//! The limits of classes and buckets.

use access_log::{Answer, Break};
use http_wire::Ended;
use metrics_text::{Class, bucket_of};
use own_reply::OwnError;

/// Status codes at the limits of classes.
static CLASSES: [(Option<u16>, Class); 14] = [
    (None, Class::NoReply),
    (Some(100), Class::Other),
    (Some(199), Class::Other),
    (Some(200), Class::Success),
    (Some(299), Class::Success),
    (Some(300), Class::Redirection),
    (Some(399), Class::Redirection),
    (Some(400), Class::ClientError),
    (Some(499), Class::ClientError),
    (Some(500), Class::ServerError),
    (Some(599), Class::ServerError),
    (Some(600), Class::Other),
    (Some(999), Class::Other),
    (Some(0), Class::Other),
];

/// Durations at the bound of each bucket, and one past it.
static BUCKETS: [(u64, usize); 27] = [
    (0, 0),
    (1, 0),
    (2, 1),
    (3, 2),
    (5, 2),
    (6, 3),
    (10, 3),
    (11, 4),
    (20, 4),
    (21, 5),
    (50, 5),
    (51, 6),
    (100, 6),
    (101, 7),
    (200, 7),
    (201, 8),
    (500, 8),
    (501, 9),
    (1_000, 9),
    (1_001, 10),
    (2_000, 10),
    (2_001, 11),
    (5_000, 11),
    (5_001, 12),
    (10_000, 12),
    (10_001, 13),
    (18_446_744_073_709_551_615, 13),
];

/// The ends of sessions, and what cut their last exchange off.
static ENDS: [(Ended, Option<Break>); 9] = [
    (Ended::PeerEnded, None),
    (Ended::Closed, None),
    (Ended::Spent, None),
    (Ended::Drained, None),
    (Ended::Cut, Some(Break::Cut)),
    (Ended::ReadFault, Some(Break::ReadFault)),
    (Ended::WriteFault, Some(Break::WriteFault)),
    (Ended::UpstreamCut, Some(Break::UpstreamCut)),
    (Ended::OutOfMemory, Some(Break::OutOfMemory)),
];

#[test]
fn a_class_is_that_of_the_first_digit(rt: HostRuntime) {
    for (status, class) in &CLASSES {
        assert!(rt; Class::of(*status) == *class, "{status:?}");
    }
}

#[test]
fn a_bucket_has_its_bound_and_not_one_more(rt: HostRuntime) {
    for (milliseconds, bucket) in &BUCKETS {
        assert!(rt; bucket_of(*milliseconds) == *bucket, "{milliseconds}");
    }
}

#[test]
fn an_end_says_what_cut_it_off(rt: HostRuntime) {
    for (ended, broken) in &ENDS {
        assert!(rt; Break::of(*ended) == *broken, "{ended:?}");
    }
}

#[test]
fn an_answer_has_its_status(rt: HostRuntime) {
    assert!(rt; Answer::Nothing.status() == None);
    assert!(rt; Answer::Own(OwnError::HeadTooLarge).status() == Some(431));
    assert!(rt; Answer::Passed { status: 204 }.status() == Some(204));
}
