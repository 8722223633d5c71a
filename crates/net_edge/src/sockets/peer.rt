//! A connection that was accepted.
ghost use Rattle.std.specs.Prelude.{None};

use super::flow::{Flow, IDLE_SECONDS};
use super::pace::Pace;
use super::queue::Queue;
use super::stop::Closing;
use super::waiting::{Heard, PROMPT_MILLISECONDS, is_awaited, read_in_slices, read_next};
use line_base::{Failed, Next, Peer, SocketAddress};
use std::io::{self, Read};
use std::net::{Shutdown, TcpStream};
use std::rt;
use std::sync::Arc;
use std::time::{Duration, Instant};

/// How many milliseconds a connection that is being ended is read from.
const LINGER_MILLISECONDS: u64 = 2_000;

/// How many milliseconds each such read may wait.
const SILENCE_MILLISECONDS: u64 = 500;

/// How many such reads there are.
const LINGER_READS: u32 = 65_536;

/// Bytes of one such read.
const LINGER_PIECE: usize = 16_384;

/// A connection that was accepted. It tells no content, and where the client is.
pub struct SocketPeer {
    flow: Flow,
    /// Where the client is, as accept(2) told it.
    address: Option<SocketAddress>,
    closing: Closing,
    queue: Arc<Queue>,
    pace: Pace,
    read_faults: u64,
    write_faults: u64,
    ends: u64,
    closings: u64,
    quiets: u64,
}

impl Drop for SocketPeer {
    fn drop(self) {
        let SocketPeer {
            flow,
            address: _,
            closing,
            queue,
            pace,
            read_faults: _,
            write_faults: _,
            ends: _,
            closings: _,
            quiets: _,
        } = self;
        drop(flow);
        drop(closing);
        drop(queue);
        drop(pace);
    }
}

impl SocketPeer {
    /// A connection over this socket with a client at this address, with no fault and no end so
    /// far, which came to this queue, and whose listeners are closed by `closing`. It ends its
    /// reads and writes in time.
    pub(crate) fn over(
        stream: TcpStream,
        address: Option<SocketAddress>,
        closing: Closing,
        queue: Arc<Queue>,
    ) -> io::Result<SocketPeer> {
        let prompt = Duration::from_millis(PROMPT_MILLISECONDS);
        let idle = Duration::from_secs(IDLE_SECONDS);
        let flow = Flow::with_limits(stream, prompt, idle)?;
        queue.count_opened();
        Ok(SocketPeer {
            flow,
            address,
            closing,
            queue,
            pace: Pace::new(),
            read_faults: 0,
            write_faults: 0,
            ends: 0,
            closings: 0,
            quiets: 0,
        })
    }

    /// Its socket.
    pub(crate) fn stream(&self) -> &TcpStream {
        &self.flow.stream
    }

    /// It is left to be watched, at this moment of its queue.
    pub(crate) fn leave(&self, moment: u64) {
        self.pace.leave(moment);
    }

    /// Ends the connection. What was written still arrives: the other end is told that no more
    /// comes, and what it has yet to say is read and dropped, since a socket that is closed before
    /// its bytes were read resets the connection. That is bounded in time. Where nothing has come
    /// since the last request there is nothing to read, and it ends at once.
    pub(crate) fn end<R: rt::Clock>(self, rt: &R) {
        let SocketPeer {
            flow,
            address: _,
            closing,
            queue,
            pace,
            read_faults: _,
            write_faults: _,
            ends,
            closings: _,
            quiets: _,
        } = self;
        drop(closing);
        queue.count_ended();
        let mut stream = flow.stream;
        let silence = Duration::from_millis(SILENCE_MILLISECONDS);
        let is_told = stream.shutdown(Shutdown::Write).is_ok();
        let may_say_more = pace.heard() != Heard::Quiet && ends == 0;
        if is_told && may_say_more && stream.set_read_timeout(Some(silence)).is_ok() {
            drain(rt, &mut stream);
        }
        drop(stream);
        drop(queue);
    }
}

/// Reads and drops what comes, for a bounded time.
fn drain<R: rt::Clock>(rt: &R, stream: &mut TcpStream) {
    let Ok(begin) = Instant::now(rt) else {
        return;
    };
    let mut piece = [0u8; LINGER_PIECE];
    for _ in 0..LINGER_READS {
        match stream.read(&mut piece) {
            Ok(count) if count > 0 => {}
            _ => return,
        }
        match begin.elapsed(rt) {
            Ok(elapsed) if elapsed < Duration::from_millis(LINGER_MILLISECONDS) => {}
            _ => return,
        }
    }
}

impl Peer for SocketPeer {
    ghost line = { λ p. record {
      left = None;
      given = None;
      read_faults = p.read_faults;
      write_faults = p.write_faults;
      ends = p.ends;
      closings = p.closings;
      quiets = p.quiets;
    } };

    ghost address = { λ p. p.address };

    fn address(&self) -> Option<SocketAddress> {
        self.address
    }

    fn read(&mut self, into: &mut [u8]) -> Result<usize, Failed> {
        if into.is_empty() {
            return Ok(0);
        }
        self.pace.go_on();
        match read_in_slices(&mut self.flow, into) {
            Ok(0) => {
                self.ends = self.ends.saturating_add(1);
                Ok(0)
            }
            Ok(count) => Ok(count),
            Err(_) => {
                self.read_faults = self.read_faults.saturating_add(1);
                Err(Failed)
            }
        }
    }

    fn read_next(&mut self, into: &mut [u8]) -> Result<Next, Failed> {
        self.pace.resume(self.queue.moment());
        let heard = self.pace.heard();
        let is_awaited = is_awaited(&self.queue, heard, self.pace.is_slow());
        let next = read_next(&mut self.flow, &self.queue, heard, is_awaited, into);
        self.pace.hear(is_awaited, &next);
        match next {
            Ok(Next::Bytes(count)) => Ok(Next::Bytes(count)),
            Ok(Next::End) => {
                self.ends = self.ends.saturating_add(1);
                Ok(Next::End)
            }
            Ok(Next::Closing) => {
                self.closings = self.closings.saturating_add(1);
                Ok(Next::Closing)
            }
            Ok(Next::Quiet) => {
                self.quiets = self.quiets.saturating_add(1);
                Ok(Next::Quiet)
            }
            Err(_) => {
                self.read_faults = self.read_faults.saturating_add(1);
                Err(Failed)
            }
        }
    }

    fn is_closing(&mut self) -> bool {
        let is_closing = self.closing.is_closed();
        if is_closing {
            self.closings = self.closings.saturating_add(1);
        }
        is_closing
    }

    fn write(&mut self, bytes: &[u8]) -> Result<usize, Failed> {
        if bytes.is_empty() {
            return Ok(0);
        }
        match self.flow.write(bytes) {
            Ok(count) if count > 0 => Ok(count),
            _ => {
                self.write_faults = self.write_faults.saturating_add(1);
                Err(Failed)
            }
        }
    }
}
