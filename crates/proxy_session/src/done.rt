//! What a request was, in numbers: what each of its attempts was, and all of them together.
ghost use Rattle.std.specs.Prelude.{◌≡◌, ◌≤◌};
ghost use Rattle.exchange_tally.specs.Worth.{one_if};
ghost use Rattle.proxy_session.specs.Done.{CountsUpTo, broken_by, followed_by, is_bad, is_written};
ghost use Rattle.proxy_session.specs.Done.{last_replica, nothing_done, own_of_try, passed_answer};
ghost use Rattle.proxy_session.specs.Done.{refusal_bytes, refused_answer, refused_bytes};
ghost use Rattle.proxy_session.specs.Done.{refused_done};
ghost use Rattle.proxy_session.specs.Done.{stopped_done};
ghost use Rattle.proxy_session.specs.Done.{tried_done, try_answer, try_bytes, unbound_done};
ghost use Rattle.proxy_session.specs.Done.{unread_done, vain_done};

use crate::answering::report_of;
use crate::closing::has_reply_body;
use crate::held_try::HeldTry;
use access_log::{Answer, Break};
use addr_book::Addr;
use exchange_tally::Done;
use http_wire::{Ended, Head};
use own_reply::OwnError;
use replica_try::Tried;

/// Nothing was asked, and the client was told nothing.
pub(crate) fn nothing(end: Option<Ended>) -> Done
    ensures done { result ≡ nothing_done end }
    ensures few { CountsUpTo 0 result }
{
    Done {
        answer: Answer::Nothing,
        replica: None,
        tries: 0,
        failures: 0,
        request_bytes: 0,
        reply_bytes: 0,
        hits: 0,
        misses: 0,
        broken: broken_by(end),
    }
}

/// A replica was asked for, and there was no memory for what was to come. `hit` says whether a
/// delegation was kept for the ask, here and below.
pub(crate) fn stopped(hit: bool, end: Option<Ended>) -> Done
    ensures done { result ≡ stopped_done hit end }
    ensures few { CountsUpTo 1 result }
{
    Done {
        answer: Answer::Nothing,
        replica: None,
        tries: 0,
        failures: 0,
        request_bytes: 0,
        reply_bytes: 0,
        hits: one_if(hit),
        misses: one_if(!hit),
        broken: broken_by(end),
    }
}

/// A request was refused before anything was asked.
pub(crate) fn refused(err: OwnError, head: &Head, end: Option<Ended>) -> Done
    ensures done { result ≡ refused_done err head.now end }
{
    Done {
        answer: refused_answer(err, end),
        replica: None,
        tries: 0,
        failures: 0,
        request_bytes: 0,
        reply_bytes: refused_bytes(err, head, end),
        hits: 0,
        misses: 0,
        broken: broken_by(end),
    }
}

/// Bytes that are no head were refused.
pub(crate) fn unread(err: OwnError, end: Ended) -> Done
    ensures { result ≡ unread_done err end }
{
    Done {
        answer: refused_answer(err, Some(end)),
        replica: None,
        tries: 0,
        failures: 0,
        request_bytes: 0,
        reply_bytes: refusal_bytes(err, is_written(Some(end))),
        hits: 0,
        misses: 0,
        broken: Break::of(end),
    }
}

/// A request was refused, since there is no replica.
pub(crate) fn unbound(hit: bool, err: OwnError, head: &Head, end: Option<Ended>) -> Done
    ensures done { result ≡ unbound_done hit err head.now end }
    ensures few { CountsUpTo 1 result }
{
    Done {
        answer: refused_answer(err, end),
        replica: None,
        tries: 0,
        failures: 0,
        request_bytes: 0,
        reply_bytes: refused_bytes(err, head, end),
        hits: one_if(hit),
        misses: one_if(!hit),
        broken: broken_by(end),
    }
}

impl HeldTry<'_> {
    /// The replica was tried last. `reported` says whether there was memory for the report that was
    /// due, if one was.
    pub(crate) fn done(&self, tried: Tried, hit: bool, reported: bool, end: Option<Ended>) -> Done
        ensures done { result ≡ tried_done hit self.now.to.addr tried reported
            self.now.to.head.now end }
        ensures few { CountsUpTo 1 result }
    {
        let own = own_of_try(tried);
        Done {
            answer: try_answer(own, tried, end),
            replica: Some(self.to.addr),
            tries: 1,
            failures: one_if(reported && is_bad(report_of(tried))),
            request_bytes: tried.moved().sent,
            reply_bytes: try_bytes(own, tried, self.to.head, end),
            hits: one_if(hit),
            misses: one_if(!hit),
            broken: broken_by(end),
        }
    }

    /// The replica was tried in vain, and another attempt follows.
    pub(crate) fn in_vain(&self, tried: Tried, hit: bool) -> Done
        ensures done { result ≡ vain_done hit self.now.to.addr tried }
        ensures few { CountsUpTo 1 result }
    {
        Done {
            answer: Answer::Nothing,
            replica: Some(self.to.addr),
            tries: 1,
            failures: one_if(is_bad(report_of(tried))),
            request_bytes: tried.moved().sent,
            reply_bytes: 0,
            hits: one_if(hit),
            misses: one_if(!hit),
            broken: None,
        }
    }
}

/// Attempts that failed, and the one after them.
pub(crate) fn followed_by(earlier: &Done, later: &Done) -> Done
    requires room { CountsUpTo 4294967295 earlier.now }
    requires few { CountsUpTo 1 later.now }
    ensures { result ≡ followed_by earlier.now later.now }
{
    Done {
        answer: later.answer,
        replica: last_replica(earlier.replica, later.replica),
        tries: earlier.tries + later.tries,
        failures: earlier.failures + later.failures,
        request_bytes: later.request_bytes,
        reply_bytes: later.reply_bytes,
        hits: earlier.hits + later.hits,
        misses: earlier.misses + later.misses,
        broken: later.broken,
    }
}

/// The replica that was tried last.
fn last_replica(earlier: Option<Addr>, later: Option<Addr>) -> Option<Addr>
    ensures { result ≡ last_replica earlier later }
{
    match later {
        Some(addr) => Some(addr),
        None => earlier,
    }
}

/// 1 or 0.
fn one_if(holds: bool) -> u64
    ensures is { result ≡ one_if holds }
    ensures few { result ≤ 1 }
{
    if holds { 1 } else { 0 }
}

/// What cut an exchange off.
fn broken_by(end: Option<Ended>) -> Option<Break>
    ensures { result ≡ broken_by end }
{
    match end {
        Some(end) => Break::of(end),
        None => None,
    }
}

/// Whether a refusal was written, in whole or in part: there was memory for it.
fn is_written(end: Option<Ended>) -> bool
    ensures { result ≡ is_written end }
{
    match end {
        Some(Ended::OutOfMemory) => false,
        Some(
            Ended::PeerEnded
            | Ended::Cut
            | Ended::Closed
            | Ended::Spent
            | Ended::Drained
            | Ended::ReadFault
            | Ended::WriteFault
            | Ended::UpstreamCut,
        ) => true,
        None => true,
    }
}

/// What the client was answered where it was refused.
fn refused_answer(err: OwnError, end: Option<Ended>) -> Answer
    ensures { result ≡ refused_answer err end }
{
    if is_written(end) {
        Answer::Own(err)
    } else {
        Answer::Nothing
    }
}

/// How many bytes of content a refusal has: its word and a line feed.
fn refused_bytes(err: OwnError, head: &Head, end: Option<Ended>) -> u64
    ensures { result ≡ refused_bytes err head.now end }
{
    refusal_bytes(err, is_written(end) && has_reply_body(head))
}

/// How many bytes the content of a refusal has, if it has one.
fn refusal_bytes(err: OwnError, with_body: bool) -> u64
    ensures { result ≡ refusal_bytes err with_body }
{
    if with_body {
        err.text().len() as u64 + 1
    } else {
        0
    }
}

/// The refusal that answers a try, if one does.
fn own_of_try(tried: Tried) -> Option<OwnError>
    ensures { result ≡ own_of_try tried }
{
    match tried {
        Tried::NotDialed => Some(OwnError::Dial),
        Tried::NotSent(_) | Tried::Silent(_) | Tried::NoReply(_) => Some(OwnError::Upstream),
        Tried::BadBody(_) => Some(OwnError::Body),
        Tried::LongBody(_) => Some(OwnError::TooLong),
        Tried::BodyCut(_) | Tried::BodyFault(_) => None,
        Tried::ReplyCut { .. } | Tried::WrittenShort { .. } => None,
        Tried::OutOfMemory { .. } | Tried::Whole { .. } => None,
    }
}

/// A reply that went back, whole or in part.
fn passed_answer(status: Option<u16>) -> Answer
    ensures { result ≡ passed_answer status }
{
    match status {
        Some(status) => Answer::Passed { status },
        None => Answer::Nothing,
    }
}

/// What the client was answered after a try.
fn try_answer(own: Option<OwnError>, tried: Tried, end: Option<Ended>) -> Answer
    ensures { result ≡ try_answer own tried end }
{
    match own {
        Some(err) => refused_answer(err, end),
        None => passed_answer(tried.status()),
    }
}

/// How many bytes of content the client was given after a try.
fn try_bytes(own: Option<OwnError>, tried: Tried, head: &Head, end: Option<Ended>) -> u64
    ensures { result ≡ try_bytes own tried head.now end }
{
    match own {
        Some(err) => refused_bytes(err, head, end),
        None => tried.moved().given,
    }
}

/// Whether a report is due that the replica failed.
fn is_bad(report: Option<bool>) -> bool
    ensures { result ≡ is_bad report }
{
    match report {
        Some(good) => !good,
        None => false,
    }
}
