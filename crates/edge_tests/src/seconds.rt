//! A listener tells of seconds that pass while somebody asks it.
use crate::clients::LOOPBACK;
use line_base::{Event, Listener, Net};
use net_edge::SocketNet;
use std::test::Fail;
use std::time::Duration;
use std::{rt, thread};

const PORT: u16 = 28_994;

/// The number of the second that a listener tells of next, if it tells of one.
fn next_second<L: Listener>(listener: &mut L) -> Option<u64> {
    match listener.next_event() {
        Ok(Event::Tick(second)) => Some(second),
        Ok(Event::Came(peer)) => {
            listener.finish(peer);
            None
        }
        Ok(Event::Ready(_)) | Ok(Event::Closed) | Err(_) => None,
    }
}

/// Two seconds that a listener tells of. Between them nobody asks it for more than two.
fn seconds<R: rt::Clock, L: Listener>(rt: &R, listener: &mut L) -> [Option<u64>; 2] {
    let first = next_second(listener);
    thread::sleep(rt, Duration::from_millis(2_500));
    [first, next_second(listener)]
}

/// The same of a listener of this net.
fn seconds_over<R: rt::Clock, N: Net>(rt: &R, net: &mut N) -> Result<[Option<u64>; 2], Fail> {
    let mut listeners = net.listen(LOOPBACK, PORT, 1, 0)?.into_items();
    let told = match listeners.first_mut() {
        Some(listener) => Ok(seconds(rt, listener)),
        None => Err(Fail::from("no listener")),
    };
    drop(listeners);
    told
}

/// Seconds in which nobody asks are told as one.
#[test]
fn seconds_are_told_while_somebody_asks(rt: HostRuntime) -> Result<(), Fail> {
    let mut net = SocketNet::of(&rt)?;
    let told = seconds_over(&rt, &mut net);
    drop(net);
    assert_eq!(rt; told?, [Some(1), Some(2)]);
    Ok(())
}
