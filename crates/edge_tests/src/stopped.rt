//! A stop from outside closes the listeners of a net over sockets.
use crate::clients::LOOPBACK;
use line_base::{Event, Listener, Mem, Net, Stop};
use net_edge::SocketNet;
use signal_watch::{RemoteStop, StopCell, StoppableNet};
use std::alloc::{AllocGlobal, Global};
use std::test::Fail;

const PORT: u16 = 28_992;

/// A cell that nothing stands in, and the same for another holder.
fn shared_cell<S: Stop + Drop>(alloc: Global) -> Mem<(StopCell<S>, StopCell<S>)> {
    let cell = StopCell::new(alloc)?;
    match cell.share() {
        Ok(shared) => Ok((cell, shared)),
        Err(want) => {
            drop(cell);
            Err(want)
        }
    }
}

/// Whether a listener says that it is closed, within some seconds.
fn is_closed<L: Listener>(listener: &mut L) -> bool {
    for _ in 0..10 {
        match listener.next_event() {
            Ok(Event::Closed) => return true,
            Ok(Event::Came(peer)) => listener.finish(peer),
            Ok(Event::Ready(_)) | Ok(Event::Tick(_)) | Err(_) => {}
        }
    }
    false
}

/// Whether a listener of this net is closed once this stop is called, behind the one that the net
/// hands out.
fn closes<N: Net, S: Stop>(net: &mut N, remote: &mut S) -> Result<bool, Fail> {
    let mut listeners = net.listen(LOOPBACK, PORT, 1, 0)?.into_items();
    let stop = net.stopper();
    remote.stop();
    let closed = match listeners.first_mut() {
        Some(listener) => is_closed(listener),
        None => false,
    };
    drop(stop);
    drop(listeners);
    Ok(closed)
}

#[test]
fn a_remote_stop_closes_the_listeners(rt: HostRuntime) -> Result<(), Fail> {
    let below = SocketNet::of(&rt)?;
    let (cell, shared) = match shared_cell(rt.alloc()) {
        Ok(cells) => cells,
        Err(want) => {
            drop(below);
            return Err(Fail::from(want));
        }
    };
    let mut remote = RemoteStop::of(&rt, shared);
    let mut net = StoppableNet::of(&rt, below, cell);
    let closed = closes(&mut net, &mut remote);
    drop(net);
    drop(remote);
    assert!(rt; closed?);
    Ok(())
}
