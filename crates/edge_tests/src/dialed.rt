//! Connections that a dialer opens, at both ends.
ghost use Rattle.std.specs.Prelude.{IfOk, IsSome};

use line_base::Dialer;
use std::io;
use std::net::{TcpListener, TcpStream};

/// The connection that a dialer opens to a replica at this address, as the replica accepts it; and
/// the replica's port.
pub(crate) fn dialed<D: Dialer>(
    dialer: &mut D,
    ip: u32,
    replica: &TcpListener,
) -> io::Result<(TcpStream, u16)>
    ensures { IfOk result (λ _. IsSome (D.upstream dialer.new).open_to) }
{
    let port = replica.local_addr()?.port();
    let Ok(()) = dialer.dial(ip, port) else {
        return Err(io::Error::from(io::ErrorKind::NotConnected));
    };
    let (stream, _) = replica.accept()?;
    Ok((stream, port))
}
