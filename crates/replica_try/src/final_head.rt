//! The head of a reply behind those of interim replies.
ghost use Rattle.std.specs.Prelude.{◌≡◌, ◌<◌, ◌≤◌, true, ℕ, List, IfSome, IfNone, IsSome};
ghost use Rattle.http_wire.specs.ReplyReading.{LogsGot};
ghost use Rattle.replica_try.specs.Heads.{HeadDecides, Hears, fault_of, is_interim, is_nothing};
ghost use Rattle.line_base.specs.Dials.{HasSameLinks};

use http::Method;
use http_wire::{Framing, HeadEnd, ReplyHead, Rest, read_reply_head, reply_framing};
use line_base::Dialer;
use std::alloc::Global;
use thiserror::Error;

/// The most heads that are received for one reply: eight interim ones, which are dropped, and the
/// final one.
const MOST_HEADS: u32 = 9;

/// Why the final head of a reply did not come.
#[derive(Clone, Copy, Debug, PartialEq, Eq, Error)]
pub enum HeadFault {
    /// No byte came: the end did, or a receive failed.
    #[error("no byte of a reply came")]
    Silent,
    /// What came is no reply that can be passed on, or no more of it came.
    #[error("what came is no reply that can be passed on")]
    NoReply,
    /// There was no memory for the head.
    #[error("out of memory")]
    OutOfMemory,
}

impl HeadFault {
    /// Why no final head came, where this is why no head did. `nothing` says that no byte came.
    fn of_end(end: HeadEnd, nothing: bool) -> HeadFault
        ensures { result ≡ fault_of nothing end }
    {
        match end {
            HeadEnd::OutOfMemory => HeadFault::OutOfMemory,
            HeadEnd::Ended
            | HeadEnd::Cut
            | HeadEnd::Bad
            | HeadEnd::Version
            | HeadEnd::TooLarge
            | HeadEnd::ReadFault
                if nothing => HeadFault::Silent,
            HeadEnd::Ended
            | HeadEnd::Cut
            | HeadEnd::Bad
            | HeadEnd::Version
            | HeadEnd::TooLarge
            | HeadEnd::ReadFault => HeadFault::NoReply,
        }
    }
}

/// Whether a head is one of an interim reply, which is dropped: 100, and 102 to 199 (RFC 9110
/// section 15.2). 101 would switch to another protocol (section 15.2.2).
fn is_interim(status: u16) -> bool
    ensures { result ≡ is_interim status }
{
    status == 100 || (102 <= status && status <= 199)
}

/// Receives the final head of a reply to a request with this method, behind up to eight interim
/// ones, and says how its body is framed.
pub(crate) fn receive_final<D: Dialer>(
    alloc: Global,
    method: &Method,
    dialer: &mut D,
    rest: &mut Rest,
) -> Result<(ReplyHead, Framing), HeadFault>
    requires { IsSome (D.upstream dialer.old).open_to }
    ensures hears { (pieces : List (List ℕ)) × LogsGot (D.upstream dialer.old).log
        (D.upstream dialer.new).log pieces × Hears method.now rest.old rest.new pieces
        (D.upstream dialer.old).faults (D.upstream dialer.new).faults result }
    ensures stays { HasSameLinks (D.upstream dialer.old) (D.upstream dialer.new) }
{
    'heads: for dropped in 0..MOST_HEADS {
        match read_reply_head(alloc, dialer, rest) {
            Ok(head) => match decide(method, dropped, head) {
                Some(decided) => return decided,
                None => {}
            },
            Err(end) => {
                let nothing = is_nothing(dropped, rest);
                return Err(HeadFault::of_end(end, nothing));
            }
        }
    }
    unreachable!()
}

/// Whether no byte was received: no head was dropped, and nothing is left.
fn is_nothing(dropped: u32, rest: &Rest) -> bool
    ensures { result ≡ is_nothing dropped rest.now }
{
    dropped == 0 && rest.kept().is_empty()
}

/// What a head is behind so many that were dropped: the final one, none that can be passed on, or
/// one more to drop.
fn decide(
    method: &Method,
    dropped: u32,
    head: ReplyHead,
) -> Option<Result<(ReplyHead, Framing), HeadFault>>
    requires { dropped ≤ 8 }
    ensures decided { IfSome result (HeadDecides method.now dropped head) }
    ensures more { IfNone result ((is_interim head.status ≡ true) × (dropped < 8)) }
{
    if is_interim(head.status) {
        drop(head);
        if dropped + 1 < MOST_HEADS {
            return None;
        }
        return Some(Err(HeadFault::NoReply));
    }
    if head.status == 101 {
        drop(head);
        return Some(Err(HeadFault::NoReply));
    }
    match reply_framing(method, &head) {
        Ok(framing) => Some(Ok((head, framing))),
        Err(_) => {
            drop(head);
            Some(Err(HeadFault::NoReply))
        }
    }
}
