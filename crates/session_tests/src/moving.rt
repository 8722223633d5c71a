//! A connection that waits between two of its requests, and with which another server goes on.
use crate::compared::assert_replies;
use crate::scene::{BOOK, Failing, NO_CALL, Scene};
use crate::texts::{DIAL, GET, REPLY, WRITTEN};
use http_wire::Ended;
use retry_budget::Tries;
use std::test::Fail;

/// One retry, of all requests of a connection.
const ONE: Tries = Tries {
    percent: 0,
    reserve: 1,
    most: 3,
};

/// The calls of each server's dialer that fail, the budget of the connection, and what the second
/// request is answered. The first one is answered by the replica, each time.
const ROWS: [(&[u64], Option<Tries>, &str); 2] = [(&[], None, WRITTEN), (&[0], Some(ONE), DIAL)];

/// The connection waits behind its first request, at question 2. What the first server saw for it,
/// that `web` has an address, the second one sees for its second request; and the one retry of its
/// budget was spent by its first request.
#[test]
fn another_server_goes_on_with_a_connection(rt: HostRuntime) -> Result<(), Fail> {
    let alloc = rt.alloc();
    for (dials, tries, second) in ROWS.iter() {
        let scene = Scene {
            times: 2,
            most: 29,
            quiet: &[2],
            failing: Failing {
                dials: *dials,
                ..NO_CALL
            },
            tries: *tries,
            ..Scene::of(BOOK, GET, &[REPLY])
        };
        assert_replies(&rt, alloc, &scene, Ended::PeerEnded, &[WRITTEN, *second])?;
    }
    Ok(())
}
