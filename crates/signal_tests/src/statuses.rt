//! What a status file says of signals.
use signal_watch::asks_to_stop;

/// Status files, and whether they ask for an end. SIGTERM is 15 and SIGINT 2.
const ROWS: [(&str, bool); 9] = [
    (
        "Name:\tlinker\nSigPnd:\t0000000000004000\nShdPnd:\t0000000000000000\n",
        false,
    ),
    (
        "Name:\tlinker\nShdPnd:\t0000000000004000\nSigBlk:\t0000000000004002\n",
        true,
    ),
    ("ShdPnd:\t0000000000000002\n", true),
    ("ShdPnd:\t0000000000000001", false),
    ("ShdPnd:\tffffffffffffbffd\n", false),
    ("ShdPnd:\tffffffffffffffff\n", true),
    (
        "ShdPnd:\t0000000000000000\nShdPnd:\t0000000000004000\n",
        false,
    ),
    (" ShdPnd:\t0000000000004000\n", false),
    ("", false),
];

#[test]
fn signals_that_wait_are_seen(rt: HostRuntime) {
    for (status, asks) in &ROWS {
        assert!(rt; asks_to_stop(status.as_bytes()) == *asks, "{status:?}");
    }
}
