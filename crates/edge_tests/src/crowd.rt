//! Many clients may wait to be accepted.
use crate::clients::{LOOPBACK, at};
use line_base::{Mem, Net};
use net_edge::SocketNet;
use std::alloc::AllocGlobal;
use std::net::TcpStream;
use std::test::Fail;
use std::time::Duration;

const PORT: u16 = 28_989;

/// How many clients come. The library's own queue has 129, and that of the net 4,096, where the
/// system allows so many (`net.core.somaxconn`).
const CLIENTS: u32 = 300;

/// How many clients connect one behind another, each within some seconds.
fn connected(rt: &HostRuntime) -> Mem<u32> {
    let mut clients = Vec::new(rt.alloc());
    for count in 0..CLIENTS {
        let Ok(client) = TcpStream::connect_timeout(rt, &at(PORT), Duration::from_secs(10)) else {
            return Ok(count);
        };
        clients.push(client)?;
    }
    Ok(CLIENTS)
}

/// The same while nobody asks a listener of this net for them.
fn connected_over<N: Net>(rt: &HostRuntime, net: &mut N) -> Result<u32, Fail> {
    let listeners = net.listen(LOOPBACK, PORT, 1, 0)?.into_items();
    let count = connected(rt);
    drop(listeners);
    Ok(count?)
}

/// Clients are let in while every listener is busy: they wait in the queue.
#[test]
fn many_clients_wait_in_the_queue(rt: HostRuntime) -> Result<(), Fail> {
    let mut net = SocketNet::of(&rt)?;
    let count = connected_over(&rt, &mut net);
    drop(net);
    assert_eq!(rt; count?, CLIENTS);
    Ok(())
}
