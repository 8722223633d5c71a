//! What a worker has for all its connections.
ghost use Rattle.std.specs.Prelude.{◌≡◌};

use crate::room::Room;
use http_wire::Rest;
use rand_pcg::Pcg64;
use replica_try::Way;
use router::{Names, Naming, Pass, Ticket};

/// What a worker has for all its connections, one after another: its pass to the router, a dialer
/// for the replicas, a clock, a generator of words, and the room for a connection's bytes.
///
/// A request is one call of [`Server::proxy_once`], and a stay of a connection one of
/// [`Server::serve_stay`]. What does not change in these calls is lent to them as a
/// [`Context`](crate::Context).
pub struct Server<J: Naming, D, C> {
    pub(crate) pass: Pass<J>,
    pub(crate) way: Way<D>,
    pub(crate) clock: C,
    pub(crate) words: Pcg64,
    pub(crate) rest: Rest,
    pub(crate) names: Names,
}

impl<J: Naming, D: Drop, C: Drop> Drop for Server<J, D, C> {
    fn drop(self) {
        let Server {
            pass,
            way,
            clock,
            words,
            rest,
            names,
        } = self;
        drop(pass);
        drop(way);
        drop(clock);
        drop(words);
        drop(rest);
        drop(names);
    }
}

/// What a server was made of, but for its room.
#[derive(Drop)]
pub struct Parts<J: Naming, D, C> {
    /// Its pass to the router.
    pub pass: Pass<J>,
    /// What opened its connections to replicas.
    pub dialer: D,
    /// Its clock.
    pub clock: C,
    /// Its generator of words.
    pub words: Pcg64,
}

impl<J: Naming, D, C> Server<J, D, C> {
    ghost use mathlib.Core.List.{IsPrefix};
    ghost use Rattle.router.specs.Passes.{SawMore, kept_in, made_in, number_in, seen_in};
    ghost use Rattle.router.specs.Tickets.{told_in};
    ghost use Rattle.snap_cell.specs.History.{longer};

    /// A server of these parts, with this room. It takes no memory.
    pub fn of(room: Room, parts: Parts<J, D, C>) -> Server<J, D, C>
        ensures pass { result.pass ≡ parts.pass }
        ensures dialer { result.way.dialer ≡ parts.dialer }
        ensures clock { result.clock ≡ parts.clock }
        ensures words { result.words ≡ parts.words }
    {
        let (rest, names, way) = room.into_parts();
        let Parts {
            pass,
            dialer,
            clock,
            words,
        } = parts;
        Server {
            pass,
            way: Way::of(dialer, way),
            clock,
            words,
            rest,
            names,
        }
    }

    /// Its parts, as its connections left them.
    pub fn into_parts(self) -> Parts<J, D, C>
        ensures pass { result.pass ≡ self.pass }
        ensures dialer { result.dialer ≡ self.way.dialer }
        ensures clock { result.clock ≡ self.clock }
        ensures words { result.words ≡ self.words }
    {
        let Server {
            pass,
            way,
            clock,
            words,
            rest,
            names,
        } = self;
        drop(rest);
        drop(names);
        Parts {
            pass,
            dialer: way.into_dialer(),
            clock,
            words,
        }
    }

    /// What its pass has seen, as a ticket. It goes along with a connection that waits, so that
    /// whichever server goes on with it has seen as much.
    pub fn ticket(&self) -> Ticket<J>
        ensures { told_in result ≡ seen_in self.now.pass }
    {
        self.pass.ticket()
    }

    /// Its pass learns what a ticket tells, before it goes on with the connection that waited with
    /// it. Nothing else of it changes. It takes no memory, and waits for nobody.
    pub fn learn(&mut self, ticket: Ticket<J>)
        ensures number { number_in self.new.pass ≡ number_in self.old.pass }
        ensures seen { seen_in self.new.pass ≡ longer (seen_in self.old.pass) (told_in ticket) }
        ensures told { IsPrefix (told_in ticket) (seen_in self.new.pass) }
        ensures more { SawMore self.old.pass self.new.pass }
        ensures counts { (made_in self.new.pass ≡ made_in self.old.pass)
            × (kept_in self.new.pass ≡ kept_in self.old.pass) }
        ensures way { self.new.way ≡ self.old.way }
        ensures clock { self.new.clock ≡ self.old.clock }
        ensures words { self.new.words ≡ self.old.words }
        ensures rest { self.new.rest ≡ self.old.rest }
        ensures names { self.new.names ≡ self.old.names }
    {
        self.pass.learn(ticket);
    }
}
