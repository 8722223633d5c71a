//! A try of a replica: the request goes on, and the reply goes back.
ghost use Rattle.std.specs.Prelude.{◌≡◌, ◌++◌, ◌&&◌, ℕ, true, false, not, List, map, None};
ghost use Rattle.std.specs.Prelude.{IsSome};
ghost use Rattle.std.specs.List.{concat};
ghost use Rattle.line_base.specs.declared.dialer.DialEvent.TheVariants.{Sent, Got};
ghost use Rattle.line_base.specs.Dials.{Grows, HasSameLinks};
ghost use Rattle.replica_try.specs.Trying.{Backs, Converses, GoesOnKept, Replies, Tries};
ghost use Rattle.replica_try.specs.Trying.{Speaks, TakesNone, TakesUp, TriesAnew};
ghost use Rattle.replica_try.specs.Trying.{is_silent, leaves_reusable};

use crate::closing::{closes_behind, is_closing, is_reusable, knows_chunks};
use crate::final_head::receive_final;
use crate::moved::Moved;
use crate::tried::Tried;
use crate::way::Way;
use addr_book::Addr;
use body_wire::{pass_back, pass_body};
use forward::back_head_into;
use http_wire::{Framing, Head, ReplyHead, Rest};
use line_base::{Dialer, Peer};
use std::alloc::Global;

/// A try of a replica with a request, whose head stands in the room of the way there
/// ([`Way::out`](crate::Way)).
#[derive(Clone, Copy)]
pub struct Try<'a> {
    /// The request's head, as it was received.
    pub head: &'a Head,
    /// Whether it is the last request of its connection.
    pub last: bool,
    /// How its body is framed.
    pub framing: Framing,
    /// Where the replica is.
    pub addr: Addr,
}

impl Try<'_> {
    /// Tries the replica: sends the request's head and its body to its address, and passes the
    /// reply back. `rest` has the bytes that were read from the client behind the head.
    ///
    /// A request that may be repeated goes over a connection that was kept to the address, where
    /// there is one. The replica may have ended that at any moment, so where it gives no byte, the
    /// same bytes go over a new connection. Every other request goes over a new one. No connection
    /// is open behind the try.
    ///
    /// It reports nothing, and writes nothing to the client but the reply: the whole of it where it
    /// gives [`Tried::Whole`], and maybe a prefix where it gives [`Tried::ReplyCut`],
    /// [`Tried::WrittenShort`] or [`Tried::OutOfMemory`]. Behind every other outcome the caller may
    /// answer the client itself.
    pub fn run<P: Peer, D: Dialer>(
        &self,
        alloc: Global,
        peer: &mut P,
        rest: &mut Rest,
        way: &mut Way<D>,
    ) -> Tried
        ensures tries { Tries self.now.head.now way.old.out.items self.now.framing self.now.last
            self.now.addr (P.line peer.old) (P.line peer.new) rest.old rest.new
            (D.upstream way.old.dialer) (D.upstream way.new.dialer) result }
        ensures closed { (D.upstream way.new.dialer).open_to ≡ None }
        ensures pool { (D.upstream way.new.dialer).pool ≡ (D.upstream way.old.dialer).pool }
    {
        if self.resume(way) {
            return self.run_kept(alloc, peer, rest, way);
        }
        self.run_anew(alloc, peer, rest, way)
    }

    /// Takes up a connection again that was kept to the replica, where the request may be sent
    /// again and there is memory for a copy of its head.
    fn resume<D: Dialer>(&self, way: &mut Way<D>) -> bool
        ensures taken { result ≡ true → TakesUp self.now.head.now self.now.framing self.now.addr
            (D.upstream way.old.dialer) (D.upstream way.new.dialer) }
        ensures none { result ≡ false → TakesNone (D.upstream way.old.dialer)
            (D.upstream way.new.dialer) }
        ensures copied { result ≡ true → way.new.again.items ≡ way.old.out.items }
        ensures out { way.new.out.items ≡ way.old.out.items }
    {
        if !self.is_repeatable() || !way.dialer.keeps() || !way.copy_head() {
            return false;
        }
        way.dialer.resume(self.addr.ip, self.addr.port)
    }

    /// Tries the replica over the open connection, which was kept to it, and over a new one where
    /// it was silent.
    fn run_kept<P: Peer, D: Dialer>(
        &self,
        alloc: Global,
        peer: &mut P,
        rest: &mut Rest,
        way: &mut Way<D>,
    ) -> Tried
        requires open_ { IsSome (D.upstream way.old.dialer).open_to }
        requires copied { way.old.again.items ≡ way.old.out.items }
        ensures { GoesOnKept self.now.head.now way.old.out.items self.now.framing self.now.last
            self.now.addr (P.line peer.old) (P.line peer.new) rest.old rest.new
            (D.upstream way.old.dialer) (D.upstream way.new.dialer) result }
    {
        let tried = self.visit(alloc, peer, rest, way);
        if is_lost(tried, way.dialer.is_late()) {
            way.take_copy();
            return self.run_anew(alloc, peer, rest, way);
        }
        tried
    }

    /// Tries the replica over a new connection.
    fn run_anew<P: Peer, D: Dialer>(
        &self,
        alloc: Global,
        peer: &mut P,
        rest: &mut Rest,
        way: &mut Way<D>,
    ) -> Tried
        ensures { TriesAnew self.now.head.now way.old.out.items self.now.framing self.now.last
            self.now.addr (P.line peer.old) (P.line peer.new) rest.old rest.new
            (D.upstream way.old.dialer) (D.upstream way.new.dialer) result }
    {
        match way.dialer.dial(self.addr.ip, self.addr.port) {
            Ok(()) => self.visit(alloc, peer, rest, way),
            Err(_) => Tried::NotDialed,
        }
    }

    /// Speaks with the replica over the open connection, and then keeps it or ends it.
    ///
    /// Each side's bytes go on as they come: the head leaves with the first bytes of the body, on
    /// both ways.
    fn visit<P: Peer, D: Dialer>(
        &self,
        alloc: Global,
        peer: &mut P,
        rest: &mut Rest,
        way: &mut Way<D>,
    ) -> Tried
        requires { IsSome (D.upstream way.old.dialer).open_to }
        ensures speaks { Speaks self.now.head.now way.old.out.items self.now.framing self.now.last
            (P.line peer.old) (P.line peer.new) rest.old rest.new
            (D.upstream way.old.dialer) (D.upstream way.new.dialer) result }
        ensures copy { way.new.again.items ≡ way.old.again.items }
    {
        let tried = self.converse(alloc, peer, rest, way);
        if is_kept(way.dialer.keeps(), tried) {
            way.dialer.keep();
            return tried;
        }
        way.dialer.hang();
        tried
    }

    /// Speaks with the replica over an open connection.
    fn converse<P: Peer, D: Dialer>(
        &self,
        alloc: Global,
        peer: &mut P,
        rest: &mut Rest,
        way: &mut Way<D>,
    ) -> Tried
        requires { IsSome (D.upstream way.old.dialer).open_to }
        ensures spoke { (sent : List (List ℕ)) × (got : List (List ℕ))
            × Grows (D.upstream way.old.dialer).log (D.upstream way.new.dialer).log
            (map Sent sent ++ map Got got) × Converses self.now.head.now way.old.out.items
            self.now.framing self.now.last (P.line peer.old) (P.line peer.new) rest.old rest.new
            (D.upstream way.old.dialer).faults (D.upstream way.new.dialer).faults (concat sent) got
            result }
        ensures stays { HasSameLinks (D.upstream way.old.dialer) (D.upstream way.new.dialer)
            × (way.new.again.items ≡ way.old.again.items) }
    {
        let passed = pass_body(peer, rest, self.framing, &mut way.out, &mut way.dialer);
        match passed.end {
            Ok(sent) => self.receive_reply(alloc, peer, way, sent),
            Err(end) => Tried::of_body(passed.count, end),
        }
    }

    /// Receives the reply to the request, of which so much content went on, and passes it back.
    fn receive_reply<P: Peer, D: Dialer>(
        &self,
        alloc: Global,
        peer: &mut P,
        way: &mut Way<D>,
        sent: u64,
    ) -> Tried
        requires { IsSome (D.upstream way.old.dialer).open_to }
        ensures replies { (got : List (List ℕ)) × Grows (D.upstream way.old.dialer).log
            (D.upstream way.new.dialer).log (map Got got) × Replies self.now.head.now self.now.last
            sent (P.line peer.old) (P.line peer.new) (D.upstream way.old.dialer).faults
            (D.upstream way.new.dialer).faults got result }
        ensures stays { HasSameLinks (D.upstream way.old.dialer) (D.upstream way.new.dialer)
            × (way.new.again.items ≡ way.old.again.items) }
    {
        way.back.clear();
        match receive_final(alloc, &self.head.method, &mut way.dialer, &mut way.back) {
            Ok((reply, framing)) => {
                let tried = self.pass_reply(alloc, &reply, framing, peer, way, sent);
                drop(reply);
                tried
            }
            Err(fault) => Tried::of_head(sent, fault),
        }
    }

    /// Passes a reply back to the client, of which the head was received.
    fn pass_reply<P: Peer, D: Dialer>(
        &self,
        alloc: Global,
        reply: &ReplyHead,
        framing: Framing,
        peer: &mut P,
        way: &mut Way<D>,
        sent: u64,
    ) -> Tried
        requires { IsSome (D.upstream way.old.dialer).open_to }
        ensures backs { (got : List (List ℕ)) × Grows (D.upstream way.old.dialer).log
            (D.upstream way.new.dialer).log (map Got got) × Backs self.now.head.now self.now.last
            sent reply.now framing (P.line peer.old) (P.line peer.new) way.old.back
            (D.upstream way.old.dialer).faults (D.upstream way.new.dialer).faults got result }
        ensures stays { HasSameLinks (D.upstream way.old.dialer) (D.upstream way.new.dialer)
            × (way.new.again.items ≡ way.old.again.items) }
    {
        let chunked = knows_chunks(self.head);
        let closes = closes_behind(self.head, framing);
        let written = back_head_into(
            alloc,
            reply,
            framing,
            chunked,
            is_closing(closes, self.last),
            &mut way.out,
        );
        let Ok(()) = written else {
            return Tried::OutOfMemory {
                moved: Moved { sent, given: 0 },
                status: None,
            };
        };
        let passed = pass_back(
            &mut way.dialer,
            &mut way.back,
            framing,
            chunked,
            &mut way.out,
            peer,
        );
        let reusable = is_reusable(reply, framing, &way.back);
        let moved = Moved {
            sent,
            given: passed.count,
        };
        Tried::of_back(moved, reply.status, closes, reusable, passed.end)
    }
}

/// Whether a connection is kept behind a try.
fn is_kept(keeps: bool, tried: Tried) -> bool
    ensures { result ≡ (keeps && leaves_reusable tried) }
{
    keeps && tried.leaves_reusable()
}

/// Whether a request was lost on a kept connection: nothing came back, and not since it was late.
fn is_lost(tried: Tried, late: bool) -> bool
    ensures { result ≡ (is_silent tried && not late) }
{
    tried.is_silent() && !late
}
