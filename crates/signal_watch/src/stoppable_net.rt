//! A net whose listeners can also be closed by what is no job of theirs.
ghost use Rattle.std.specs.Prelude.{◌≡◌, ◌≤◌, ◌↔◌, IsErr};
ghost use Rattle.line_base.specs.Counts.{HasCause};
ghost use Rattle.line_base.specs.Nets.{after_end, log_of};
ghost use Rattle.signal_watch.specs.Counting.{counting};

use crate::stop_cell::StopCell;
use line_base::{BROKEN_RUN, ConnectionPool, Failed, Listeners, Net, NetFault, Stop};
use std::sync::Wait;

/// A net that leaves a stop of all its listeners in a cell, beside each that it hands out. It is
/// the net that it stands before in all that contracts say, but that the stops in the cell are not
/// counted, since they don't come back.
pub struct StoppableNet<'a, R, N, S> {
    rt: &'a R,
    net: N,
    cell: StopCell<S>,
    stops_given: u64,
}

impl<R, N: Drop, S: Drop> Drop for StoppableNet<'_, R, N, S> {
    fn drop(self) {
        let StoppableNet {
            rt: _,
            net,
            cell,
            stops_given: _,
        } = self;
        drop(net);
        drop(cell);
    }
}

impl<'a, R, N, S> StoppableNet<'a, R, N, S> {
    /// This net, which has handed no stop out yet.
    pub fn of(rt: &'a R, net: N, cell: StopCell<S>) -> StoppableNet<'a, R, N, S>
        ensures net { result.net ≡ net }
        ensures given { result.stops_given ≡ 0 }
    {
        StoppableNet {
            rt,
            net,
            cell,
            stops_given: 0,
        }
    }

    /// The net below.
    pub fn net(&self) -> &N
        ensures { result.now ≡ self.now.net }
    {
        &self.net
    }
}

impl<R: Wait, S: Stop + Send + Drop, N: Net<S = S>> Net for StoppableNet<'_, R, N, S> {
    type L = N::L;

    type D = N::D;

    type S = S;

    ghost state = { λ n. counting n.stops_given (N.state n.net) };

    ghost faults = { λ n. N.faults n.net };

    fn listen(
        &mut self,
        ip: u32,
        port: u16,
        copies: u32,
        kept: u32,
    ) -> Result<Listeners<N::L>, NetFault> {
        self.net.listen(ip, port, copies, kept)
    }

    fn waiting_room(&mut self, most: u32) -> u32 {
        self.net.waiting_room(most)
    }

    fn dialer(&mut self, pool: ConnectionPool) -> N::D {
        self.net.dialer(pool)
    }

    fn stopper(&mut self) -> S {
        self.cell.leave(self.rt, self.net.stopper());
        self.stops_given = self.stops_given.saturating_add(1);
        self.net.stopper()
    }

    fn end(&mut self, listener: N::L, dialer: Option<N::D>, stop: S) -> Result<(), Failed>
        ensures state { counting self.new.stops_given (N.state self.new.net)
            ≡ after_end (counting self.old.stops_given (N.state self.old.net)) (record {
              listener = N.L.state listener;
              log = log_of N.D.upstream dialer;
              stops = S.calls stop;
            }) }
        ensures broken { IsErr result ↔ (BROKEN_RUN ≤ (N.L.state listener).run) }
        ensures cause { HasCause (N.faults self.old.net) (N.faults self.new.net) result }
    {
        self.net.end(listener, dialer, stop)
    }
}
