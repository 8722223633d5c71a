//! A kept connection is resumed only where nothing has come over it.
use crate::clients::{LOOPBACK, at};
use crate::dialed::dialed;
use line_base::{ConnectionPool, Dialer, Failed, Net};
use net_edge::SocketNet;
use std::io::{self, Write};
use std::net::{self, TcpListener, TcpStream};
use std::test::Fail;

/// How many bytes a call moved.
type Moved = Result<usize, Failed>;

/// What becomes of a kept connection.
#[derive(Clone, Copy)]
enum Fate {
    /// Nothing: the replica answers the next request over it.
    Quiet,
    /// The replica says something that nobody asked for.
    Speaks,
    /// The replica ends it.
    Ends,
}

/// The replica does what becomes of a kept connection.
fn befall(stream: &mut TcpStream, fate: Fate) -> io::Result<()> {
    match fate {
        Fate::Quiet => Ok(()),
        Fate::Speaks => stream.write_all(b"408"),
        Fate::Ends => stream.shutdown(net::Shutdown::Both),
    }
}

/// Whether a kept connection is resumed, and how many bytes of a reply are received over it then.
fn resumed<D: Dialer>(dialer: &mut D, port: u16, stream: &mut TcpStream) -> (bool, Moved) {
    if !dialer.resume(LOOPBACK, port) {
        return (false, Err(Failed));
    }
    let mut piece = [0u8; 8];
    let _ = stream.write(b"reply");
    let got = dialer.recv(&mut piece);
    dialer.hang();
    (true, got)
}

/// A connection is dialed and kept, and has this fate; then it is asked for again. Gives whether it
/// is resumed, and how many bytes of a reply are received over it then.
fn resume_behind<D: Dialer>(
    dialer: &mut D,
    replica: &TcpListener,
    fate: Fate,
) -> io::Result<(bool, Moved)> {
    let (mut stream, port) = dialed(dialer, LOOPBACK, replica)?;
    if dialer.keeps() {
        dialer.keep();
    }
    let befell = befall(&mut stream, fate);
    let told = resumed(dialer, port, &mut stream);
    drop(stream);
    befell?;
    Ok(told)
}

/// The same of a dialer of this net that keeps two connections for so long.
fn resumed_over<N: Net>(
    rt: &HostRuntime,
    net: &mut N,
    fate: Fate,
    idle_ms: u32,
) -> io::Result<(bool, Moved)> {
    let replica = TcpListener::bind(rt, at(0))?;
    let mut dialer = net.dialer(ConnectionPool {
        max_size: 2,
        idle_ms,
    });
    let told = resume_behind(&mut dialer, &replica, fate);
    drop(dialer);
    drop(replica);
    told
}

/// The same of each fate, and at last of a connection that may not be kept for any time.
fn each_resumed<N: Net>(rt: &HostRuntime, net: &mut N) -> io::Result<[(bool, Moved); 4]> {
    let quiet = resumed_over(rt, net, Fate::Quiet, 10_000)?;
    let spoken = resumed_over(rt, net, Fate::Speaks, 10_000)?;
    let ended = resumed_over(rt, net, Fate::Ends, 10_000)?;
    let old = resumed_over(rt, net, Fate::Quiet, 0)?;
    Ok([quiet, spoken, ended, old])
}

/// A kept connection is resumed where it is quiet, and not where anything came over it, nor where
/// it was kept for too long.
#[test]
fn kept_connections_are_looked_at(rt: HostRuntime) -> Result<(), Fail> {
    let mut net = SocketNet::of(&rt)?;
    let told = each_resumed(&rt, &mut net);
    drop(net);
    let refused = (false, Err(Failed));
    assert_eq!(rt; told?, [(true, Ok(5)), refused, refused, refused]);
    Ok(())
}
