//! What follows a try: the report on the replica, and the answer to the client.
ghost use Rattle.std.specs.Prelude.{◌≡◌, OnOk, OnErr};
ghost use Rattle.proxy_session.specs.Answering.{Ends, report_of};
ghost use Rattle.proxy_session.specs.Callers.{caller_of};
ghost use Rattle.proxy_session.specs.Exchange.{ReportDone, ReportFails};

use crate::Mem;
use crate::context::Context;
use crate::held_try::HeldTry;
use crate::refusing::refuse;
use crate::reporting::report;
use http_wire::Ended;
use line_base::{Clock, Peer};
use own_reply::{OwnError, end_of};
use replica_try::Tried;
use router::{Naming, Pass};
use std::alloc::Global;
use std::sync::Wait;

impl HeldTry<'_> {
    /// Reports on the replica, where a report is due.
    pub(crate) fn report_on<J: Naming, C: Clock, R: Wait>(
        &self,
        context: &Context<'_, J, R>,
        pass: &mut Pass<J>,
        tried: Tried,
        clock: &mut C,
    ) -> Mem<()>
        ensures ok { OnOk result (ReportDone J.settings (report_of tried) self.now.to.addr
            (caller_of pass.old) (caller_of pass.new) (C.to_come clock.old)
            (C.to_come clock.new)) }
        ensures err { OnErr result (ReportFails (report_of tried) (caller_of pass.old)
            (caller_of pass.new) (C.to_come clock.old) (C.to_come clock.new)) }
    {
        match report_of(tried) {
            None => Ok(()),
            Some(good) => report(context, pass, clock, self.to.addr, good),
        }
    }

    /// Answers the client, where no reply went back, and says how the request ends.
    pub(crate) fn answer<P: Peer>(&self, alloc: Global, tried: Tried, peer: &mut P) -> Option<Ended>
        ensures { Ends tried self.now.to.head.now self.now.to.last (P.line peer.old)
            (P.line peer.new) result }
    {
        match tried {
            Tried::NotDialed => refuse(alloc, self.to.head, self.to.last, OwnError::Dial, peer),
            Tried::NotSent(_) | Tried::Silent(_) | Tried::NoReply(_) => {
                refuse(alloc, self.to.head, self.to.last, OwnError::Upstream, peer)
            }
            Tried::BadBody(_) => refuse(alloc, self.to.head, self.to.last, OwnError::Body, peer),
            Tried::LongBody(_) => {
                refuse(alloc, self.to.head, self.to.last, OwnError::TooLong, peer)
            }
            Tried::BodyCut(_) => Some(Ended::Cut),
            Tried::BodyFault(_) => Some(Ended::ReadFault),
            Tried::ReplyCut { .. } => Some(Ended::UpstreamCut),
            Tried::WrittenShort { .. } => Some(Ended::WriteFault),
            Tried::OutOfMemory { .. } => Some(Ended::OutOfMemory),
            Tried::Whole {
                moved: _,
                status: _,
                closes,
                reusable: _,
            } => end_of(closes, self.to.last),
        }
    }
}

/// What is reported of the replica, if something is: whether it answered well.
pub(crate) fn report_of(tried: Tried) -> Option<bool>
    ensures { result ≡ report_of tried }
{
    match tried {
        Tried::NotDialed | Tried::NotSent(_) | Tried::Silent(_) | Tried::NoReply(_) => Some(false),
        Tried::ReplyCut { .. } => Some(false),
        Tried::Whole {
            moved: _,
            status,
            closes: _,
            reusable: _,
        } => Some(status < 500),
        Tried::BadBody(_) | Tried::LongBody(_) | Tried::BodyCut(_) | Tried::BodyFault(_) => None,
        Tried::WrittenShort { .. } | Tried::OutOfMemory { .. } => None,
    }
}
