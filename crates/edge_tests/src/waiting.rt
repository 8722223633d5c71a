//! A client that waits is told by its number, to whichever listener is asked.
use crate::clients::{LOOPBACK, at};
use line_base::{Event, Failed, Listener, Net, Next, Peer, Stop};
use net_edge::SocketNet;
use std::io::{self, Write};
use std::net::TcpStream;
use std::test::Fail;

/// The next event of a listener that is no tick, as text; and the peer that came, if one did.
fn told<L: Listener>(listener: &mut L) -> (u8, Option<L::P>) {
    for _ in 0..1_000 {
        match listener.next_event() {
            Ok(Event::Came(peer)) => return (b'c', Some(peer)),
            Ok(Event::Ready(7)) => return (b'7', None),
            Ok(Event::Ready(8)) => return (b'8', None),
            Ok(Event::Ready(_)) => return (b'?', None),
            Ok(Event::Tick(_)) => {}
            Ok(Event::Closed) => return (b'.', None),
            Err(Failed) => return (b'!', None),
        }
    }
    (b'-', None)
}

/// What a wait for a next request came to, as text.
fn heard<P: Peer>(peer: &mut P) -> u8 {
    let mut bytes = [0u8; 8];
    match peer.read_next(&mut bytes) {
        Ok(Next::Bytes(count)) if count < 8 => b'0' + count as u8,
        Ok(Next::Bytes(_)) => b'8',
        Ok(Next::End) => b'e',
        Ok(Next::Closing) => b'.',
        Ok(Next::Quiet) => b'q',
        Err(Failed) => b'!',
    }
}

/// The next event of a listener that is no tick, as text. A peer that came has gone again.
fn told_only<L: Listener>(listener: &mut L) -> u8 {
    let (text, peer) = told(listener);
    if let Some(peer) = peer {
        listener.finish(peer);
    }
    text
}

/// What becomes of a client, as text: it comes to the first listener, and is quiet; then it speaks,
/// of which the second is told; it ends, of which the first is told; and a stop closes both.
fn told_of_client<L: Listener, S: Stop>(
    first: &mut L,
    second: &mut L,
    client: io::Result<TcpStream>,
    stop: &mut S,
) -> Result<[u8; 8], Fail> {
    let mut client = client?;
    let (came, peer) = told(first);
    let Some(peer) = peer else {
        return Err(Fail::from("no client"));
    };
    let mut peer = peer;
    let quiet = heard(&mut peer);
    let watched = first.watch(&peer, 7);
    let said = client.write(b"abc").is_ok();
    let ready = told_only(second);
    let bytes = heard(&mut peer);
    let again = first.watch(&peer, 8);
    drop(client);
    let gone = told_only(first);
    let ended = heard(&mut peer);
    stop.stop();
    let one = told_only(first);
    let other = told_only(second);
    first.finish(peer);
    if !watched || !said || !again {
        return Err(Fail::from("not watched"));
    }
    Ok([came, quiet, ready, bytes, gone, ended, one, other])
}

/// The same of two listeners.
fn told_of_two<L: Listener + Drop, S: Stop>(
    listeners: &mut Vec<L>,
    client: io::Result<TcpStream>,
    stop: &mut S,
) -> Result<[u8; 8], Fail> {
    let Some(mut first) = listeners.pop() else {
        return Err(Fail::from("no listener"));
    };
    let Some(mut second) = listeners.pop() else {
        return Err(Fail::from("no other listener"));
    };
    told_of_client(&mut first, &mut second, client, stop)
}

/// The same of two listeners of this net and of a client that connects to them; and how many
/// clients may wait, of a hundred.
fn told_over<N: Net>(rt: &HostRuntime, net: &mut N) -> Result<([u8; 8], u32), Fail> {
    let mut listeners = net.listen(LOOPBACK, 28_991, 2, 0)?.into_items();
    let client = TcpStream::connect(rt, at(28_991));
    let mut stop = net.stopper();
    let told = told_of_two(&mut listeners, client, &mut stop);
    let room = net.waiting_room(100);
    drop(stop);
    drop(listeners);
    Ok((told?, room))
}

/// A client comes, says nothing for a while, and is watched; when it says something, another
/// listener is told, by its last number. After a stop both are closed.
#[test]
fn who_waits_is_told_by_a_number(rt: HostRuntime) -> Result<(), Fail> {
    let mut net = SocketNet::of(&rt)?;
    let told = told_over(&rt, &mut net);
    drop(net);
    let (told, room) = told?;
    assert_eq!(rt; told, [b'c', b'q', b'7', b'3', b'8', b'e', b'.', b'.']);
    assert_eq!(rt; room, 100);
    Ok(())
}
