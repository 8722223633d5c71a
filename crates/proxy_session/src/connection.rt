//! The connection of a client.
ghost use Rattle.std.specs.Prelude.{◌≡◌, None, Some};
ghost use Rattle.retry_budget.specs.Budget.{AreAllowed, opening};

use line_base::{Peer, SocketAddress};
use retry_budget::{Budget, Tries};

/// What a connection has between two requests: the client at its other end and where that is, if it
/// tells, how many requests it has carried, and its budget of retries, if it has one.
pub struct Connection<P> {
    pub(crate) peer: P,
    pub(crate) client: Option<SocketAddress>,
    pub(crate) served: u32,
    pub(crate) budget: Option<Budget>,
}

impl<P: Drop> Drop for Connection<P> {
    fn drop(self) {
        let Connection {
            peer,
            client: _,
            served: _,
            budget,
        } = self;
        drop(peer);
        drop(budget);
    }
}

impl<P: Peer> Connection<P> {
    /// A connection to this client that has carried no request. None of its requests is tried
    /// again. The client is asked where it is.
    pub fn of(peer: P) -> Connection<P>
        ensures { (result.peer ≡ peer) × (result.client ≡ P.address peer) × (result.served ≡ 0)
            × (result.budget ≡ None) }
    {
        Connection {
            client: peer.address(),
            peer,
            served: 0,
            budget: None,
        }
    }

    /// A connection to this client that has carried no request, with a budget of its own for trying
    /// requests again.
    pub fn trying(peer: P, tries: Tries) -> Connection<P>
        requires { AreAllowed tries }
        ensures { (result.peer ≡ peer) × (result.client ≡ P.address peer) × (result.served ≡ 0)
            × (result.budget ≡ Some (opening tries)) }
    {
        Connection {
            client: peer.address(),
            peer,
            served: 0,
            budget: Some(Budget::start(tries)),
        }
    }

    /// The client.
    pub fn peer(&self) -> &P
        ensures { result.now ≡ self.now.peer }
    {
        &self.peer
    }

    /// The client.
    pub fn into_peer(self) -> P
        ensures { result ≡ self.peer }
    {
        let Connection {
            peer,
            client: _,
            served: _,
            budget: _,
        } = self;
        peer
    }
}
