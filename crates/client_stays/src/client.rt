//! A connection between two of its requests.
ghost use Rattle.std.specs.Prelude.{◌≡◌, None, List, option_map};
ghost use Rattle.std.specs.Option.{ForSome};
ghost use Rattle.exchange_record.specs.Told.{Records, Told};
ghost use Rattle.retry_budget.specs.Budget.{AreAllowed, opening};
ghost use Rattle.router.specs.Passes.{number_in, seen_in, slot_in};
ghost use Rattle.client_stays.specs.Chains.{CameTo, came};
ghost use Rattle.client_stays.specs.Recorded.{HasStayedAs};
ghost use Rattle.client_stays.specs.Servers.{HasStayed, server_value};

use crate::handling::Handling;
use crate::stayed::Stayed;
use exchange_record::Recorder;
use http_wire::Paused;
use line_base::{Clock, Dialer, Gate, Peer};
use proxy_session::{Connection, Context, Server};
use retry_budget::Tries;
use router::Ticket;
use std::marker::Model;
use std::snapshot::Snapshot;
use std::sync::Wait;
use workers::Stay;

/// The connection of a client that has nothing to say for now, with a ticket of what was seen for
/// it. Any server of its router may serve it further.
///
/// Contracts see what its client told when it came and what it tells now, where the client is, if
/// it told that when it came, its count of requests, its budget of retries, and what was seen for
/// it. Its type keeps that some stays led to it from a client that came, each of which went on with
/// what the one before it left, since nothing else is known of what comes out of a lock. It costs
/// its socket and some hundred bytes.
pub struct IdleClient<P: Peer, J: Handling> {
    connection: Connection<P>,
    ticket: Ticket<J>,
    first: Snapshot<P>,
}

impl<P: Peer, J: Handling> Model for IdleClient<P, J> {
    ghost use Rattle.router.specs.Tickets.{told_in};
    ghost use Rattle.client_stays.specs.Chains.{Idle, IsWaiting, idle_by};
    ghost use Rattle.client_stays.specs.Codes.{coded_idle};

    ghost Value = { Idle };

    ghost coded = { coded_idle };

    ghost view = { λ c. idle_by (P.line c.first.value) (P.line c.connection.peer)
        c.connection.client c.connection.served c.connection.budget (told_in c.ticket) };

    ghost invariant = { λ c. IsWaiting J.settings J.rule J.tries
        (idle_by (P.line c.first.value) (P.line c.connection.peer) c.connection.client
        c.connection.served c.connection.budget (told_in c.ticket)) };
}

/// A connection of a client that came, with a budget of its own where requests may be tried again.
fn connection_of<P: Peer>(peer: P, tries: Option<Tries>) -> Connection<P>
    requires { ForSome tries (λ t. AreAllowed t) }
    ensures { (result.peer ≡ peer) × (result.client ≡ P.address peer) × (result.served ≡ 0)
        × (result.budget ≡ option_map opening tries) }
{
    match tries {
        Some(tries) => Connection::trying(peer, tries),
        None => Connection::of(peer),
    }
}

impl<P: Peer, J: Handling> IdleClient<P, J> {
    /// A client that came to this server, before its first request.
    pub fn came<D, C>(peer: P, tries: Option<Tries>, server: &Server<J, D, C>) -> IdleClient<P, J>
        requires tries { tries ≡ J.tries }
        requires allowed { ForSome tries (λ t. AreAllowed t) }
        ensures { result ≡ came tries (P.line peer) (P.address peer) (seen_in server.now.pass) }
    {
        let first = Snapshot::of(&peer);
        IdleClient {
            connection: connection_of(peer, tries),
            ticket: server.ticket(),
            first,
        }
    }

    /// Serves it for a stay: until it has nothing to say for a while, or ends. The server learns
    /// first what was seen for it. The recorder is told of each of its requests.
    pub fn serve<D: Dialer, C: Clock, G: Gate, R: Wait, K: Recorder>(
        self,
        server: &mut Server<J, D, C>,
        context: &Context<'_, J, R>,
        gate: &G,
        worker: u32,
        recorder: &mut K,
    ) -> Stayed<IdleClient<P, J>, P>
        requires free { slot_in server.old.pass ≡ None }
        requires rule { context.now.rule.now ≡ J.rule }
        ensures chain { CameTo J.settings J.rule J.tries self }
        ensures stays { HasStayed P.line J.settings J.rule self
            (server_value D.upstream C.to_come server.old)
            (server_value D.upstream C.to_come server.new) result }
        ensures told { (told : List Told) × HasStayedAs P.line J.settings J.rule self
            (server_value D.upstream C.to_come server.old)
            (server_value D.upstream C.to_come server.new) result told
            × Records K.begins K.ends recorder.old told recorder.new }
        ensures free { slot_in server.new.pass ≡ None }
        ensures number { number_in server.new.pass ≡ number_in server.old.pass }
        ensures closed { (D.upstream server.old.way.dialer).open_to ≡ None
            → (D.upstream server.new.way.dialer).open_to ≡ None }
        ensures pool { (D.upstream server.new.way.dialer).pool
            ≡ (D.upstream server.old.way.dialer).pool }
    {
        let IdleClient {
            mut connection,
            ticket,
            first,
        } = self;
        server.learn(ticket);
        match server.serve_stay(context, &mut connection, gate, worker, recorder) {
            Paused::Quiet => Stayed::Waits(IdleClient {
                connection,
                ticket: server.ticket(),
                first,
            }),
            Paused::Ended(ended) => Stayed::Ends(connection.into_peer(), ended),
        }
    }

    /// Ends it while it waits.
    pub fn end(self) -> P
        ensures chain { CameTo J.settings J.rule J.tries self }
        ensures line { P.line result ≡ self.line }
    {
        let IdleClient {
            connection,
            ticket: _,
            first: _,
        } = self;
        connection.into_peer()
    }
}

impl<P: Peer, J: Handling> Stay<P> for IdleClient<P, J> {
    fn peer(&self) -> &P {
        self.connection.peer()
    }
}
