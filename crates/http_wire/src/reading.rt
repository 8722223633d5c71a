//! Reading the head of a request.
ghost use Rattle.std.specs.Prelude.{◌≡◌, IfOk};
ghost use Rattle.line_base.specs.Lines.{IsUnwritten};
ghost use Rattle.http_wire.specs.Heads.{IsUnfinished};
ghost use Rattle.http_wire.specs.Places.{StandsAt};
ghost use Rattle.http_wire.specs.Reading.{HasCauses, Looks, LooksFirst, ReadsHead, Trusts, Turns};
ghost use Rattle.http_wire.specs.Sound.{IsSoundHead};

use crate::first_line::behind_empty_lines;
use crate::head::Head;
use crate::rest::{FillFault, Rest};
use crate::seen::{MOST_HEAD, Seen, look};
use crate::watch::Watch;
use line_base::Peer;
use std::alloc::Global;
use thiserror::Error;

/// Why no head was read. What was read is then kept in the [`Rest`].
#[derive(Clone, Copy, Debug, PartialEq, Eq, Error)]
pub enum HeadEnd {
    /// The peer's bytes ended before a request began: only empty lines came.
    #[error("the connection ended before a head")]
    Ended,
    /// The peer's bytes ended inside a head.
    #[error("the connection ended inside a head")]
    Cut,
    /// The bytes are no head, whatever may follow.
    #[error("the bytes are no head")]
    Bad,
    /// The first line names a version other than HTTP/1.0 and HTTP/1.1.
    #[error("the version is neither HTTP/1.0 nor HTTP/1.1")]
    Version,
    /// The first 65,536 bytes hold no whole head.
    #[error("the head is too large")]
    TooLarge,
    /// A read failed: the peer's count of read faults rose.
    #[error("a read failed")]
    ReadFault,
    /// There was no memory for the head.
    #[error("out of memory")]
    OutOfMemory,
}

/// Reads the head of the next request: of the bytes that are kept and those that the peer gives
/// behind them, whatever the pieces in which they come. The bytes behind the head stay in `rest`;
/// without a head all of them do.
///
/// Empty lines before the request line are skipped (RFC 9112 section 2.2), and a line may end in a
/// line feed alone. A folded field (RFC 9112 section 5.2), a control byte in a value (RFC 9110
/// section 5.5), and a lone carriage return and more than one blank in the request line (RFC 9112
/// sections 2.2 and 3), which a recipient may also mend, refuse the head: a reader that mends them
/// and one that doesn't see two different heads (request smuggling).
///
/// The bytes that are kept, or else the first piece, are parsed at once: mostly they have the whole
/// head. Where they don't, each byte is followed once as it comes, and the bytes are parsed where
/// the request line has ended, where the head has, at a byte that can stand in no head and at
/// 65,536 bytes: so the time is that of the bytes, however they are cut, and of one call of
/// [`Peer::read`] for each piece. While a head of more than 64 fields is parsed it takes 32 bytes
/// of memory for each of the line feeds that came, beside its own bytes and those of the answer.
///
/// # Errors
/// Each says what the bytes show, or which count of the peer rose: see [`HeadEnd`].
pub fn read_request_head<P: Peer>(
    alloc: Global,
    peer: &mut P,
    rest: &mut Rest,
) -> Result<Head, HeadEnd>
    ensures head { ReadsHead (P.line peer.old).left (P.line peer.new).left rest.old rest.new
        result }
    ensures sound { IfOk result IsSoundHead }
    ensures causes { HasCauses (P.line peer.old).ends (P.line peer.new).ends
        (P.line peer.old).read_faults (P.line peer.new).read_faults result }
    ensures others { IsUnwritten (P.line peer.old) (P.line peer.new) }
{
    match first_look(alloc, peer, rest) {
        Turn::Answered(answer) => return answer,
        Turn::More => {}
    }
    let mut watch = Watch::new();
    watch.follow(rest.kept());
    loop {
        match take_turn(alloc, peer, rest, &mut watch) {
            Turn::Answered(answer) => return answer,
            Turn::More => {}
        }
    }
}

/// What one turn of reading came to.
#[derive(Drop)]
enum Turn {
    /// The answer.
    Answered(Result<Head, HeadEnd>),
    /// More bytes are wanted, or came.
    More,
}

/// Looks at the bytes that are kept, or where there are none at the first that come: mostly they
/// have a whole head, and nothing is to be followed.
fn first_look<P: Peer>(alloc: Global, peer: &mut P, rest: &mut Rest) -> Turn
    ensures bytes { LooksFirst (P.line peer.old).left (P.line peer.new).left rest.old rest.new
        (P.line peer.old).ends (P.line peer.new).ends (P.line peer.old).read_faults
        (P.line peer.new).read_faults result }
    ensures others { IsUnwritten (P.line peer.old) (P.line peer.new) }
{
    if !rest.kept().is_empty() {
        return answer(alloc, rest);
    }
    match fill_once(peer, rest) {
        Turn::Answered(answer) => Turn::Answered(answer),
        Turn::More => answer(alloc, rest),
    }
}

/// Looks at the bytes where it is due, and reads once where they show no answer.
fn take_turn<P: Peer>(alloc: Global, peer: &mut P, rest: &mut Rest, watch: &mut Watch) -> Turn
    requires { Trusts watch.old rest.old }
    ensures bytes { Turns (P.line peer.old).left (P.line peer.new).left rest.old rest.new
        (P.line peer.old).ends (P.line peer.new).ends (P.line peer.old).read_faults
        (P.line peer.new).read_faults result }
    ensures trusts { result ≡ Turn.More → Trusts watch.new rest.new }
    ensures others { IsUnwritten (P.line peer.old) (P.line peer.new) }
{
    if !watch.is_due() && rest.kept().len() < MOST_HEAD {
        return read_once(peer, rest, watch);
    }
    match answer(alloc, rest) {
        Turn::Answered(answer) => Turn::Answered(answer),
        Turn::More => read_once(peer, rest, watch),
    }
}

/// Reads once behind the bytes of an unfinished head, and follows what came.
fn read_once<P: Peer>(peer: &mut P, rest: &mut Rest, watch: &mut Watch) -> Turn
    requires stands { StandsAt watch.old.progress rest.old }
    requires unfinished { IsUnfinished rest.old }
    ensures bytes { Turns (P.line peer.old).left (P.line peer.new).left rest.old rest.new
        (P.line peer.old).ends (P.line peer.new).ends (P.line peer.old).read_faults
        (P.line peer.new).read_faults result }
    ensures trusts { result ≡ Turn.More → Trusts watch.new rest.new }
    ensures others { IsUnwritten (P.line peer.old) (P.line peer.new) }
{
    let followed = rest.kept().len();
    match fill_once(peer, rest) {
        Turn::Answered(answer) => Turn::Answered(answer),
        Turn::More => {
            watch.follow(&rest.kept()[followed..]);
            Turn::More
        }
    }
}

/// Reads once behind the bytes of an unfinished head.
fn fill_once<P: Peer>(peer: &mut P, rest: &mut Rest) -> Turn
    requires { IsUnfinished rest.old }
    ensures bytes { Turns (P.line peer.old).left (P.line peer.new).left rest.old rest.new
        (P.line peer.old).ends (P.line peer.new).ends (P.line peer.old).read_faults
        (P.line peer.new).read_faults result }
    ensures others { IsUnwritten (P.line peer.old) (P.line peer.new) }
{
    match rest.fill(peer) {
        Ok(0) if behind_empty_lines(rest.kept()).is_empty() => Turn::Answered(Err(HeadEnd::Ended)),
        Ok(0) => Turn::Answered(Err(HeadEnd::Cut)),
        Ok(_) => Turn::More,
        Err(FillFault::ReadFault) => Turn::Answered(Err(HeadEnd::ReadFault)),
        Err(FillFault::OutOfMemory) => Turn::Answered(Err(HeadEnd::OutOfMemory)),
    }
}

/// The answer that the kept bytes show, or that they show none.
fn answer(alloc: Global, rest: &mut Rest) -> Turn
    ensures { Looks rest.old rest.new result }
{
    match look(alloc, rest.kept()) {
        Ok(Seen::Whole(head, len)) => {
            rest.skip(len);
            Turn::Answered(Ok(head))
        }
        Ok(Seen::Bad) => Turn::Answered(Err(HeadEnd::Bad)),
        Ok(Seen::Version) => Turn::Answered(Err(HeadEnd::Version)),
        Ok(Seen::TooLarge) => Turn::Answered(Err(HeadEnd::TooLarge)),
        Ok(Seen::NotYet) => Turn::More,
        Err(_) => Turn::Answered(Err(HeadEnd::OutOfMemory)),
    }
}
