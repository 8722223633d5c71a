//! Waiting for the next request of a connection.
ghost use Rattle.std.specs.Prelude.{◌≡◌};
ghost use Rattle.line_base.specs.Lines.{told_closing};
ghost use Rattle.http_wire.specs.Next.{Awaits, IsAsked, ReadsNext, awaited_of};

use crate::head::Head;
use crate::reading::{HeadEnd, read_request_head};
use crate::rest::{FillFault, Rest};
use line_base::{Next, Peer};
use std::alloc::Global;

/// What a connection that waits for its next request came to.
#[derive(Drop)]
pub enum NextHead {
    /// The head of the next request.
    Head(Head),
    /// There is none, or none that can be read.
    Ended(HeadEnd),
    /// The listeners are closing, and no byte of a next request has come: the peer's count of that
    /// rose.
    Closing,
    /// No byte of a next request has come for a while, and none is kept: the peer's count of that
    /// rose, and the connection can wait.
    Quiet,
}

/// Waits for the next request of a connection, and reads its head as [`read_request_head`] does.
///
/// Where no byte is kept, the first ones are waited for by [`Peer::read_next`], so that a
/// connection that waits can be told that the listeners are closing. It makes no call more than
/// [`read_request_head`] does, and ends for the same reasons.
pub fn read_next_head<P: Peer>(alloc: Global, peer: &mut P, rest: &mut Rest) -> NextHead
    ensures { ReadsNext (P.line peer.old) (P.line peer.new) rest.old rest.new result }
{
    match await_begin(peer, rest) {
        Awaited::Begun => match read_request_head(alloc, peer, rest) {
            Ok(head) => NextHead::Head(head),
            Err(end) => NextHead::Ended(end),
        },
        Awaited::Ended(end) => NextHead::Ended(end),
        Awaited::Closing => NextHead::Closing,
        Awaited::Quiet => NextHead::Quiet,
    }
}

/// What came of a wait for the begin of a request.
#[derive(Clone, Copy)]
enum Awaited {
    /// Bytes of it are kept.
    Begun,
    /// There is none.
    Ended(HeadEnd),
    /// The listeners are closing.
    Closing,
    /// None came for a while.
    Quiet,
}

/// Waits for the begin of a request, where no byte of it is kept.
fn await_begin<P: Peer>(peer: &mut P, rest: &mut Rest) -> Awaited
    ensures { Awaits (P.line peer.old) (P.line peer.new) rest.old rest.new result }
{
    if !rest.kept().is_empty() {
        return Awaited::Begun;
    }
    begin_by(rest.fill_next(peer))
}

/// What this says of the begin of a request.
fn begin_by(filled: Result<Next, FillFault>) -> Awaited
    ensures { result ≡ awaited_of filled }
{
    match filled {
        Ok(Next::Bytes(_)) => Awaited::Begun,
        Ok(Next::End) => Awaited::Ended(HeadEnd::Ended),
        Ok(Next::Closing) => Awaited::Closing,
        Ok(Next::Quiet) => Awaited::Quiet,
        Err(FillFault::ReadFault) => Awaited::Ended(HeadEnd::ReadFault),
        Err(FillFault::OutOfMemory) => Awaited::Ended(HeadEnd::OutOfMemory),
    }
}

/// Asks whether the listeners are closing, so that a request whose head was read is its
/// connection's last; unless the request spends the connection anyway.
pub fn hears_closing<P: Peer>(spent: bool, peer: &mut P) -> bool
    ensures told { P.line peer.new ≡ told_closing result (P.line peer.old) }
    ensures asked { IsAsked spent result }
{
    if spent {
        return false;
    }
    peer.is_closing()
}
