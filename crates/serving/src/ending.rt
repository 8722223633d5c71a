//! The listeners go back to the net, once all workers have ended.
ghost use Rattle.std.specs.Prelude.{◌≡◌, ◌<◌, ◌+◌, ◌||◌, ℕ, List, map, length};
ghost use Rattle.std.specs.List.{AllByRecursion, list_any};
ghost use Rattle.std.specs.Vec.Iter.{into_iter_items};
ghost use Rattle.line_base.specs.Nets.{after_end};
ghost use Rattle.serving.specs.Faults.{TellsFaults};
ghost use Rattle.serving.specs.LeftOver.{LeftOver, WasCaller, WasClient};
ghost use Rattle.serving.specs.Parts.{ended_by};
ghost use Rattle.serving.specs.Returning.{all_ended, all_finished, is_broken, with_left_over};

use crate::next::take_next;
use crate::parts::Part;
use api_sessions::IdleCaller;
use client_stays::{Handling, IdleClient};
use line_base::{Listener, Net, Peer};
use router::Naming;
use std::vec::IntoIter;
use waiting::Waiters;

/// The connections that wait still once all workers have ended.
pub(crate) struct StillWaiting<P: Peer, J: Handling> {
    /// Those of clients.
    pub(crate) clients: Waiters<IdleClient<P, J>>,
    /// Those of the interfaces.
    pub(crate) callers: Waiters<IdleCaller<P, J>>,
}

/// Ends the clients that wait still.
fn finish_clients<J: Handling, L: Listener>(listener: &mut L, clients: Waiters<IdleClient<L::P, J>>)
    ensures { (peers : List L.P) × (length peers ≡ length clients.waiting)
        × AllByRecursion (WasClient L.P.line J.settings J.rule J.tries) peers
        × (L.state listener.new ≡ all_finished peers (L.state listener.old)) }
{
    let mut rest = clients;
    'clients: while let Some(client) = rest.take_oldest() {
        listener.finish(client.end());
    }
    rest.end();
}

/// Ends the callers of the interfaces that wait still.
fn finish_callers<J: Naming, L: Listener>(listener: &mut L, callers: Waiters<IdleCaller<L::P, J>>)
    ensures { (peers : List L.P) × (length peers ≡ length callers.waiting)
        × AllByRecursion (WasCaller L.P.line J.Naming.own) peers
        × (L.state listener.new ≡ all_finished peers (L.state listener.old)) }
{
    let mut rest = callers;
    'callers: while let Some(caller) = rest.take_oldest() {
        listener.finish(caller.end());
    }
    rest.end();
}

/// Gives a listener back to the net, with what came with it: whether the net fails to take it.
fn end<N: Net>(net: &mut N, part: Part<N::L, N::D, N::S>) -> bool
    ensures state { N.state net.new
        ≡ after_end (N.state net.old) (ended_by N.L.state N.D.upstream N.S.calls part) }
    ensures broken { result ≡ is_broken (ended_by N.L.state N.D.upstream N.S.calls part) }
    ensures faults { TellsFaults (N.faults net.old) (N.faults net.new) result }
{
    let Part {
        listener,
        dialer,
        stop,
    } = part;
    match net.end(listener, dialer, stop) {
        Ok(()) => false,
        Err(_) => true,
    }
}

/// Gives these listeners back to the net: whether it failed to take one, or one before them.
fn end_rest<N: Net>(net: &mut N, parts: IntoIter<Part<N::L, N::D, N::S>>, failed: bool) -> bool
    ensures state { N.state net.new
        ≡ all_ended (map (ended_by N.L.state N.D.upstream N.S.calls) (into_iter_items parts))
        (N.state net.old) }
    ensures broken { result ≡ (failed || list_any
        (λ p. is_broken (ended_by N.L.state N.D.upstream N.S.calls p)) (into_iter_items parts)) }
    ensures faults { (start : ℕ) → TellsFaults start (N.faults net.old) failed
        → TellsFaults start (N.faults net.new) result }
{
    let mut any = failed;
    for part in parts {
        let now = end(net, part);
        any = any || now;
    }
    any
}

/// Ends the connections that wait still, at the first of these listeners, and gives the listeners
/// back to the net, in their order: whether it failed to take one.
pub(crate) fn end_all<J: Handling, N: Net>(
    net: &mut N,
    parts: Vec<Part<N::L, N::D, N::S>>,
    still: StillWaiting<<N::L as Listener>::P, J>,
) -> bool
    requires some { 0 < length parts.items }
    ensures state { (over : List N.L.P)
        × (length over ≡ length still.clients.waiting + length still.callers.waiting)
        × LeftOver N.L.P.line J.Naming.own J.rule J.tries over
        × (N.state net.new ≡ all_ended (with_left_over over
        (map (ended_by N.L.state N.D.upstream N.S.calls) parts.items)) (N.state net.old)) }
    ensures broken { result ≡ list_any
        (λ p. is_broken (ended_by N.L.state N.D.upstream N.S.calls p)) parts.items }
    ensures faults { TellsFaults (N.faults net.old) (N.faults net.new) result }
{
    let StillWaiting { clients, callers } = still;
    let mut parts = parts.into_iter();
    let mut first = take_next(&mut parts);
    finish_clients(&mut first.listener, clients);
    finish_callers(&mut first.listener, callers);
    let failed = end(net, first);
    end_rest(net, parts, failed)
}
