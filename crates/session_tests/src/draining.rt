//! Connections whose listeners are closing.
use crate::compared::assert_replies;
use crate::scene::Scene;
use crate::texts::{LAST_NEGATIVE, NEGATIVE, TWO};
use http_wire::Ended::{self, Closed, Drained, PeerEnded};
use std::test::Fail;

/// Two requests, of which the second one asks to close.
const CLOSING: &str = "GET / HTTP/1.1|Host: web||GET / HTTP/1.1|Host: web|Connection: close||";

/// What the client gives, from which question on its connection says that the listeners are
/// closing, the replies, and the end. The questions are: a wait for the first request, whether it
/// is the last, whether the second is, and a wait for a third.
const ROWS: [(&str, u64, &[&str], Ended); 7] = [
    (TWO, 0, &[], Drained),
    (TWO, 1, &[LAST_NEGATIVE], Drained),
    (TWO, 2, &[NEGATIVE, LAST_NEGATIVE], Drained),
    (TWO, 3, &[NEGATIVE, NEGATIVE], Drained),
    (TWO, 4, &[NEGATIVE, NEGATIVE], PeerEnded),
    (CLOSING, 2, &[NEGATIVE, LAST_NEGATIVE], Closed),
    (CLOSING, 1, &[LAST_NEGATIVE], Drained),
];

#[test]
fn a_connection_is_drained(rt: HostRuntime) -> Result<(), Fail> {
    let alloc = rt.alloc();
    for (gives, question, replies, ended) in ROWS.iter() {
        let scene = Scene {
            closing: Some(*question),
            ..Scene::of("", *gives, &[""])
        };
        assert_replies(&rt, alloc, &scene, *ended, *replies)?;
    }
    Ok(())
}
