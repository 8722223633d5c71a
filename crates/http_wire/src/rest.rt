//! The bytes that were read past a head.
ghost use Rattle.std.specs.Prelude.{◌≡◌, ◌≤◌, ◌<◌, [], ◌++◌, drop, length, IfOk, OnOk, OnErr, Ok};
ghost use Rattle.std.specs.Prelude.{Err, IsSome};
ghost use Rattle.line_base.specs.Dials.{HasSameLinks};
ghost use Rattle.line_base.specs.Counts.{HasCause, CountsEnds, raised};
ghost use Rattle.line_base.specs.Lines.{IsUnwritten};
ghost use Rattle.http_wire.specs.Heads.{most, most_piece};
ghost use Rattle.http_wire.specs.Rest.{Fills, FillsNextIn, Receives};

use crate::Mem;
use crate::room::{BODY_ROOM, MOST_ROOM, Room};
use line_base::{Dialer, Failed, Next, Peer};
use std::alloc::{AllocError, Global};
use std::marker::Model;

/// Bytes that were read from a connection and not used yet: what lies past a head, or the front of
/// one that has not ended. Contracts see it as the list of them.
///
/// They lie in one room, in which a connection's reads go straight behind them. It has 16,384 bytes
/// from the start, which is all that bodies use, grows where an unfinished head needs more, and
/// never passes 69,632 bytes, however many heads come through it.
pub struct Rest {
    room: Room,
}

impl Drop for Rest {
    fn drop(self) {
        let Rest { room } = self;
        drop(room);
    }
}

impl Model for Rest {
    ghost use Rattle.std.specs.Prelude.{List, ℕ};
    ghost use Rattle.http_wire.specs.Rest.{held};

    ghost Value = { List ℕ };

    ghost view = { λ r. held r.room };
}

/// Why no bytes could be read.
#[derive(Clone, Copy)]
pub(crate) enum FillFault {
    /// The count of read faults rose.
    ReadFault,
    /// There was no memory for them.
    OutOfMemory,
}

impl Rest {
    /// No bytes, with room for 16,384.
    pub fn room(alloc: Global) -> Mem<Rest>
        ensures { IfOk result (λ rest. rest ≡ []) }
    {
        Ok(Rest {
            room: Room::empty(alloc)?,
        })
    }

    /// The bytes, the oldest first.
    pub fn kept(&self) -> &[u8]
        ensures { result.now ≡ self.now }
    {
        self.room.held()
    }

    /// Takes the first bytes away, in no time.
    pub fn skip(&mut self, n: usize)
        requires { n ≤ length self.old }
        ensures { self.new ≡ drop n self.old }
    {
        self.room.skip(n);
    }

    /// Takes all bytes away, in no time.
    pub fn clear(&mut self)
        ensures { self.new ≡ [] }
    {
        let count = self.kept().len();
        self.skip(count);
    }

    /// Puts bytes behind the others. An `Err` changes nothing: there was no memory, or more than
    /// 69,632 bytes would be kept.
    pub fn add(&mut self, bytes: &[u8]) -> Mem<()>
        ensures ok { OnOk result (self.new ≡ self.old ++ bytes.now) }
        ensures err { OnErr result (self.new ≡ self.old) }
    {
        if bytes.len() > MOST_ROOM - self.kept().len() {
            return Err(AllocError);
        }
        self.room.make(bytes.len())?;
        self.room.put(bytes);
        Ok(())
    }

    /// Reads once from a peer, up to 16,384 bytes, and gives their number: 0 is the end. An `Err`
    /// changes nothing, since the room for the bytes is made first.
    pub(crate) fn fill<P: Peer>(&mut self, peer: &mut P) -> Result<usize, FillFault>
        requires { length self.old < most }
        ensures bytes { Fills (P.line peer.old).left (P.line peer.new).left self.old self.new
            result }
        ensures short { IfOk result (λ n. n ≤ most_piece) }
        ensures ended { result ≡ Ok 0 → (P.line peer.new).ends ≡ raised (P.line peer.old).ends }
        ensures going { IfOk result (λ n. 0 < n → (P.line peer.new).ends ≡ (P.line peer.old).ends) }
        ensures stopped { OnErr result ((P.line peer.new).ends ≡ (P.line peer.old).ends) }
        ensures ends { (P.line peer.old).ends ≤ (P.line peer.new).ends }
        ensures fault { result ≡ Err FillFault.ReadFault
            → (P.line peer.new).read_faults ≡ raised (P.line peer.old).read_faults }
        ensures kept { OnOk result ((P.line peer.new).read_faults ≡ (P.line peer.old).read_faults) }
        ensures spared { result ≡ Err FillFault.OutOfMemory
            → (P.line peer.new).read_faults ≡ (P.line peer.old).read_faults }
        ensures faults { (P.line peer.old).read_faults ≤ (P.line peer.new).read_faults }
        ensures others { IsUnwritten (P.line peer.old) (P.line peer.new) }
    {
        match self.room.open() {
            Ok(most) => match self.room.read(peer, most) {
                Ok(count) => Ok(count),
                Err(_) => Err(FillFault::ReadFault),
            },
            Err(_) => Err(FillFault::OutOfMemory),
        }
    }

    /// Waits for a peer's next request, and reads up to 16,384 bytes of it. An `Err` changes
    /// nothing, since the room for the bytes is made first.
    pub(crate) fn fill_next<P: Peer>(&mut self, peer: &mut P) -> Result<Next, FillFault>
        requires { length self.old < most }
        ensures { FillsNextIn (P.line peer.old) (P.line peer.new) self.old self.new most_piece
            result }
    {
        match self.room.open() {
            Ok(most) => match self.room.read_next(peer, most) {
                Ok(next) => Ok(next),
                Err(_) => Err(FillFault::ReadFault),
            },
            Err(_) => Err(FillFault::OutOfMemory),
        }
    }

    /// Reads once from a peer, into the room behind the others, so that at most 16,384 bytes are
    /// kept then, and gives their number: 0 is the end. It takes no memory. An `Err` changes
    /// nothing.
    pub fn pull<P: Peer>(&mut self, peer: &mut P) -> Result<usize, Failed>
        requires { length self.old < 16384 }
        ensures bytes { Fills (P.line peer.old).left (P.line peer.new).left self.old self.new
            result }
        ensures most { length self.new ≤ 16384 }
        ensures cause { HasCause (P.line peer.old).read_faults (P.line peer.new).read_faults
            result }
        ensures end { CountsEnds (P.line peer.old).ends (P.line peer.new).ends result 1 }
        ensures others { IsUnwritten (P.line peer.old) (P.line peer.new) }
    {
        let most = BODY_ROOM - self.kept().len();
        self.room.move_to_front();
        self.room.read(peer, most)
    }

    /// Receives once from a dialer, as [`Rest::fill`] reads from a peer. 0 is the end.
    pub(crate) fn fill_from<D: Dialer>(&mut self, dialer: &mut D) -> Result<usize, FillFault>
        requires open_ { IsSome (D.upstream dialer.old).open_to }
        requires few { length self.old < most }
        ensures bytes { Receives (D.upstream dialer.old).left (D.upstream dialer.new).left
            (D.upstream dialer.old).log (D.upstream dialer.new).log
            self.old self.new result }
        ensures short { IfOk result (λ n. n ≤ most_piece) }
        ensures fault { result ≡ Err FillFault.ReadFault
            → (D.upstream dialer.new).faults ≡ raised (D.upstream dialer.old).faults }
        ensures kept { OnOk result
            ((D.upstream dialer.new).faults ≡ (D.upstream dialer.old).faults) }
        ensures spared { result ≡ Err FillFault.OutOfMemory
            → (D.upstream dialer.new).faults ≡ (D.upstream dialer.old).faults }
        ensures faults { (D.upstream dialer.old).faults ≤ (D.upstream dialer.new).faults }
        ensures stays { HasSameLinks (D.upstream dialer.old) (D.upstream dialer.new) }
    {
        match self.room.open() {
            Ok(most) => match self.room.receive(dialer, most) {
                Ok(count) => Ok(count),
                Err(_) => Err(FillFault::ReadFault),
            },
            Err(_) => Err(FillFault::OutOfMemory),
        }
    }

    /// Receives once from a dialer, as [`Rest::pull`] reads from a peer: into the room behind the
    /// others, so that at most 16,384 bytes are kept then, with no memory. 0 is the end. An `Err`
    /// changes nothing.
    pub fn pull_from<D: Dialer>(&mut self, dialer: &mut D) -> Result<usize, Failed>
        requires open_ { IsSome (D.upstream dialer.old).open_to }
        requires few { length self.old < 16384 }
        ensures bytes { Receives (D.upstream dialer.old).left (D.upstream dialer.new).left
            (D.upstream dialer.old).log (D.upstream dialer.new).log
            self.old self.new result }
        ensures most { length self.new ≤ 16384 }
        ensures cause { HasCause (D.upstream dialer.old).faults (D.upstream dialer.new).faults
            result }
        ensures stays { HasSameLinks (D.upstream dialer.old) (D.upstream dialer.new) }
    {
        let most = BODY_ROOM - self.kept().len();
        self.room.move_to_front();
        self.room.receive(dialer, most)
    }
}
