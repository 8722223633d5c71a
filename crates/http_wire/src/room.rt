//! The room that a connection's reads go into.
ghost use Rattle.std.specs.Prelude.{◌≡◌, ◌+◌, ◌≤◌, ◌<◌, [], ◌++◌, drop, length, vec_len, IfOk};
ghost use Rattle.std.specs.Prelude.{OnOk, IsSome};

use crate::Mem;
use line_base::{Dialer, Failed, Next, Peer};
use std::alloc::Global;

/// The room that a connection begins with, and all that a body needs.
pub(crate) const BODY_ROOM: usize = 16384;

/// The most bytes that are read at once for a head.
const MOST_PIECE: usize = 16384;

/// The least room that a head's piece is read into.
const LEAST_PIECE: usize = 4096;

/// The greatest room: the longest unfinished head, and the least room for a piece behind it.
pub(crate) const MOST_ROOM: usize = 69632;

/// Bytes in a room: those from `at` to `end` are held, and reads go behind them. Nothing is moved
/// but to make room.
pub(crate) struct Room {
    bytes: Vec<u8>,
    at: usize,
    end: usize,
    ghost within: { (at ≤ end) × (end ≤ vec_len bytes) × (16384 ≤ vec_len bytes)
        × (vec_len bytes ≤ 69632) },
}

impl Drop for Room {
    fn drop(self) {
        let Room {
            bytes,
            at: _,
            end: _,
        } = self;
        drop(bytes);
    }
}

impl Room {
    ghost use Rattle.line_base.specs.Dials.{HasSameLinks};
    ghost use Rattle.line_base.specs.Lines.{IsUnwritten};
    ghost use Rattle.line_base.specs.Counts.{HasCause, CountsEnds};
    ghost use Rattle.http_wire.specs.Rest.{held, Fills, FillsNext, Receives};

    /// A room that holds nothing.
    pub(crate) fn empty(alloc: Global) -> Mem<Room>
        ensures { IfOk result (λ room. held room ≡ []) }
    {
        let bytes = Vec::from_elem(alloc, 0u8, BODY_ROOM)?;
        Ok(Room {
            bytes,
            at: 0,
            end: 0,
        })
    }

    /// The bytes that are held.
    pub(crate) fn held(&self) -> &[u8]
        ensures { result.now ≡ held self.now }
    {
        &self.bytes[self.at..self.end]
    }

    /// Lets the first bytes go, in no time.
    pub(crate) fn skip(&mut self, n: usize)
        requires { n ≤ length (held self.old) }
        ensures { held self.new ≡ drop n (held self.old) }
    {
        self.at += n;
    }

    /// Makes room for so many bytes behind those that are held: over those that were let go first,
    /// and then in more memory.
    pub(crate) fn make(&mut self, more: usize) -> Mem<()>
        requires { length (held self.old) + more ≤ 69632 }
        ensures ok { OnOk result (self.new.end + more ≤ vec_len self.new.bytes) }
        ensures same { held self.new ≡ held self.old }
    {
        if self.bytes.len() - self.end >= more {
            return Ok(());
        }
        self.move_to_front();
        let wanted = self.end + more;
        if self.bytes.len() < wanted {
            let grown = wanted.max((2 * self.bytes.len()).min(MOST_ROOM));
            self.bytes.reserve_exact(grown - self.bytes.len())?;
            self.bytes.resize(grown, 0)?;
        }
        Ok(())
    }

    /// Makes room for a piece of a head behind the bytes that are held, and gives how many bytes
    /// may be read into it: all that there is room for, and at most 16,384.
    pub(crate) fn open(&mut self) -> Mem<usize>
        requires { length (held self.old) < 65536 }
        ensures ok { IfOk result (λ most. (0 < most) × (most ≤ 16384)
            × (self.new.end + most ≤ vec_len self.new.bytes)) }
        ensures same { held self.new ≡ held self.old }
    {
        if self.at == self.end {
            self.move_to_front();
        }
        self.make(LEAST_PIECE)?;
        Ok((self.bytes.len() - self.end).min(MOST_PIECE))
    }

    /// Moves the bytes that are held to the front.
    pub(crate) fn move_to_front(&mut self)
        ensures same { held self.new ≡ held self.old }
        ensures front { (self.new.at ≡ 0) × (self.new.end ≡ length (held self.old)) }
        ensures room { vec_len self.new.bytes ≡ vec_len self.old.bytes }
    {
        if self.at == 0 {
            return;
        }
        self.bytes.copy_within(self.at..self.end, 0);
        self.end -= self.at;
        self.at = 0;
    }

    /// Puts bytes behind those that are held.
    pub(crate) fn put(&mut self, more: &[u8])
        requires { self.old.end + length more.now ≤ vec_len self.old.bytes }
        ensures { held self.new ≡ held self.old ++ more.now }
    {
        let end = self.end + more.len();
        self.bytes[self.end..end].copy_from_slice(more);
        self.end = end;
    }

    /// Reads once from a peer behind the bytes that are held, up to so many bytes.
    pub(crate) fn read<P: Peer>(&mut self, peer: &mut P, most: usize) -> Result<usize, Failed>
        requires some { 0 < most }
        requires room { self.old.end + most ≤ vec_len self.old.bytes }
        ensures bytes { Fills (P.line peer.old).left (P.line peer.new).left (held self.old)
            (held self.new) result }
        ensures short { IfOk result (λ n. n ≤ most) }
        ensures cause { HasCause (P.line peer.old).read_faults (P.line peer.new).read_faults
            result }
        ensures end { CountsEnds (P.line peer.old).ends (P.line peer.new).ends result most }
        ensures others { IsUnwritten (P.line peer.old) (P.line peer.new) }
    {
        let end = self.end + most;
        match peer.read(&mut self.bytes[self.end..end]) {
            Ok(count) => {
                self.end += count;
                Ok(count)
            }
            Err(failed) => Err(failed),
        }
    }

    /// Waits for a peer's next request, and reads once behind the bytes that are held, up to so
    /// many bytes.
    pub(crate) fn read_next<P: Peer>(&mut self, peer: &mut P, most: usize) -> Result<Next, Failed>
        requires some { 0 < most }
        requires room { self.old.end + most ≤ vec_len self.old.bytes }
        ensures { FillsNext (P.line peer.old) (P.line peer.new) (held self.old) (held self.new) most
            result }
    {
        let end = self.end + most;
        match peer.read_next(&mut self.bytes[self.end..end]) {
            Ok(Next::Bytes(count)) => {
                self.end += count;
                Ok(Next::Bytes(count))
            }
            Ok(Next::End) => Ok(Next::End),
            Ok(Next::Closing) => Ok(Next::Closing),
            Ok(Next::Quiet) => Ok(Next::Quiet),
            Err(failed) => Err(failed),
        }
    }

    /// Receives once from a dialer behind the bytes that are held, up to so many bytes.
    pub(crate) fn receive<D: Dialer>(
        &mut self,
        dialer: &mut D,
        most: usize,
    ) -> Result<usize, Failed>
        requires open_ { IsSome (D.upstream dialer.old).open_to }
        requires some { 0 < most }
        requires room { self.old.end + most ≤ vec_len self.old.bytes }
        ensures bytes { Receives (D.upstream dialer.old).left (D.upstream dialer.new).left
            (D.upstream dialer.old).log (D.upstream dialer.new).log
            (held self.old) (held self.new) result }
        ensures short { IfOk result (λ n. n ≤ most) }
        ensures cause { HasCause (D.upstream dialer.old).faults (D.upstream dialer.new).faults
            result }
        ensures stays { HasSameLinks (D.upstream dialer.old) (D.upstream dialer.new) }
    {
        let end = self.end + most;
        match dialer.recv(&mut self.bytes[self.end..end]) {
            Ok(count) => {
                self.end += count;
                Ok(count)
            }
            Err(failed) => Err(failed),
        }
    }
}
