//! Connections that are dialed.
ghost use Rattle.std.specs.Prelude.{◌≡◌, [], None, IfSome, option_map};
ghost use Rattle.net_edge.specs.Pools.{addresses};

use super::dial_socket::DialSocket;
use super::pool::Pool;
use super::upstream::Upstream;
use line_base::{ConnectionPool, Dialer, Failed};
use std::alloc::Global;
use std::io::{self, ErrorKind};
use std::net::Net;
use std::rt::Clock;

/// What dials over sockets, and may keep connections in a pool. It tells no log.
///
/// Beside those of the pool it has one socket at most: that of its connection, or the one for the
/// next. A net gives it the first. Where that was closed or its connection is kept, the next dial
/// opens another, in a descriptor that became free or that the pool is granted.
///
/// What is kept is ended by a reset, as what is dialed is: all that was sent over it was answered.
pub struct SocketDialer<'a, R> {
    rt: &'a R,
    current: Option<Upstream>,
    next: Option<DialSocket>,
    pool: Pool,
    /// Whether the last send or receive failed because it waited for too long.
    is_late: bool,
    faults: u64,
}

impl<R> Drop for SocketDialer<'_, R> {
    fn drop(self) {
        let SocketDialer {
            rt: _,
            current,
            next,
            pool,
            is_late: _,
            faults: _,
        } = self;
        drop(current);
        drop(next);
        drop(pool);
    }
}

impl<'a, R> SocketDialer<'a, R> {
    /// A dialer with this socket for its first connection, with no fault so far, and with nothing
    /// kept in a pool of these limits. It reaches the machine by `rt`.
    pub(crate) fn of(
        rt: &'a R,
        alloc: Global,
        next: Option<DialSocket>,
        limits: ConnectionPool,
    ) -> SocketDialer<'a, R>
        ensures closed { (result.current ≡ None) × (result.faults ≡ 0) }
        ensures pool { (result.pool.kept.items ≡ []) × (result.pool.limits ≡ limits) }
    {
        SocketDialer {
            rt,
            current: None,
            next,
            pool: Pool::of(alloc, limits),
            is_late: false,
            faults: 0,
        }
    }
}

/// Holds a socket for the next connection, unless there is one.
fn hold(next: &mut Option<DialSocket>, socket: Option<DialSocket>) {
    if next.is_none() {
        *next = socket;
    } else {
        drop(socket);
    }
}

/// A new connection to an address, over the socket that is held for it, or else over another.
fn dial_from<R: Net>(rt: &R, next: &mut Option<DialSocket>, ip: u32, port: u16) -> Option<Upstream>
    ensures { IfSome result (λ u. (u.ip ≡ ip) × (u.port ≡ port)) }
{
    let socket = match next.take() {
        Some(socket) => socket,
        None => DialSocket::open(rt).ok()?,
    };
    Upstream::dial(socket, ip, port)
}

/// Whether a call failed because it waited for as long as it may.
fn waited(error: &io::Error) -> bool {
    matches!(error.kind(), ErrorKind::WouldBlock | ErrorKind::TimedOut)
}

impl<R: Net + Clock> Dialer for SocketDialer<'_, R> {
    ghost upstream = { λ d. record {
      log = None;
      left = None;
      open_to = option_map (λ u. (u.ip, u.port)) d.current;
      kept = addresses d.pool.kept.items;
      pool = d.pool.limits;
      late = d.is_late;
      faults = d.faults;
    } };

    fn keeps(&self) -> bool {
        self.pool.keeps()
    }

    fn is_late(&self) -> bool {
        self.is_late
    }

    fn dial(&mut self, ip: u32, port: u16) -> Result<(), Failed> {
        self.hang();
        match dial_from(self.rt, &mut self.next, ip, port) {
            Some(upstream) => {
                self.current = Some(upstream);
                Ok(())
            }
            None => {
                self.faults = self.faults.saturating_add(1);
                Err(Failed)
            }
        }
    }

    fn resume(&mut self, ip: u32, port: u16) -> bool {
        self.hang();
        let Some(upstream) = self.pool.take(self.rt, ip, port) else {
            return false;
        };
        if upstream.is_quiet() {
            self.current = Some(upstream.resumed());
            return true;
        }
        hold(&mut self.next, upstream.hang());
        false
    }

    fn send(&mut self, bytes: &[u8]) -> Result<usize, Failed> {
        self.is_late = false;
        let Some(upstream) = &mut self.current else {
            unreachable!()
        };
        if bytes.is_empty() {
            return Ok(0);
        }
        match upstream.send(bytes) {
            Ok(count) if count > 0 => return Ok(count),
            Ok(_) => {}
            Err(error) => self.is_late = waited(&error),
        }
        self.faults = self.faults.saturating_add(1);
        Err(Failed)
    }

    fn recv(&mut self, into: &mut [u8]) -> Result<usize, Failed> {
        self.is_late = false;
        let Some(upstream) = &mut self.current else {
            unreachable!()
        };
        if into.is_empty() {
            return Ok(0);
        }
        match upstream.receive(into) {
            Ok(count) => Ok(count),
            Err(error) => {
                self.is_late = waited(&error);
                self.faults = self.faults.saturating_add(1);
                Err(Failed)
            }
        }
    }

    fn hang(&mut self) {
        if let Some(upstream) = self.current.take() {
            let socket = upstream.hang();
            hold(&mut self.next, socket);
        }
    }

    fn keep(&mut self) {
        let Some(upstream) = self.current.take() else {
            unreachable!()
        };
        let ended = self.pool.put(self.rt, upstream);
        hold(&mut self.next, ended);
    }

    fn end_idle(&mut self) {
        self.pool.end_idle(self.rt);
    }
}
