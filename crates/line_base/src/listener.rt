//! What hands out the peers that connect to an address.
ghost use Rattle.std.specs.Prelude.{◌≡◌, ◌<◌, ℕ, Ok};
ghost use Rattle.line_base.specs.Counts.{HasCause};

use crate::event::Event;
use crate::outside::{Failed, Peer};
use std::marker::Model;

/// What a listener was made for.
#[derive(Clone, Copy, Debug, PartialEq, Eq)]
pub struct Endpoint {
    /// The IPv4 address, whose first byte is the highest.
    pub ip: u32,
    /// The port.
    pub port: u16,
    /// The listener's place among those that were made with it, from 0.
    pub place: u32,
}

/// Listeners for one address, which share its peers. Contracts see the list of them.
pub struct Listeners<L> {
    items: Vec<L>,
}

impl<L: Drop> Drop for Listeners<L> {
    fn drop(self) {
        let Listeners { items } = self;
        drop(items);
    }
}

impl<L> Model for Listeners<L> {
    ghost use Rattle.std.specs.Prelude.{List};

    ghost Value = { List L };

    ghost view = { λ l. l.items.items };
}

impl<L> Listeners<L> {
    /// The list of these listeners. It takes no memory.
    pub fn of(items: Vec<L>) -> Listeners<L>
        ensures { result ≡ items.items }
    {
        Listeners { items }
    }

    /// The listeners, by their places.
    pub fn items(&self) -> &[L]
        ensures { result.now ≡ self.now }
    {
        self.items.as_slice()
    }

    /// The listeners, by their places.
    pub fn into_items(self) -> Vec<L>
        ensures { result.items ≡ self }
    {
        let Listeners { items } = self;
        items
    }
}

/// What hands out the peers that connect to an address, until it is closed, and tells of those
/// that wait.
///
/// A peer that has nothing to say for a while need not be waited for: it is watched under a number
/// ([`Listener::watch`]), and a listener of its address tells the number once it has.
pub trait Listener {
    ghost use Rattle.line_base.specs.Accepts.{Listening, after_event, after_finish};

    /// The peers that it hands out.
    type P: Peer;

    /// What it was made for, the peers that it handed out and those that came back, each where it
    /// tells them; and, always, how often it answered that it is closed, how many peers it handed
    /// out, how many came back, and how many calls failed since the last that did not.
    ghost state: { Self → Listening Self.P };

    /// How often a wait for an event failed. The count never falls, and stands still at the last
    /// value of a `u64`.
    ghost faults: { Self → ℕ };

    /// Waits for the next event; [`Event::Closed`] once the listener is closed, and from then on
    /// always.
    fn next_event(&mut self) -> Result<Event<Self::P>, Failed>
        ensures state { state self.new ≡ after_event (state self.old) result }
        ensures closed { 0 < (state self.old).closes → result ≡ Ok Event.Closed }
        ensures cause { HasCause (faults self.old) (faults self.new) result };

    /// Watches a peer of this address: one of the listeners of the address tells the number once
    /// the peer has something to say, or has ended. Whether it can be watched. It waits for
    /// nothing.
    fn watch(&self, peer: &Self::P, number: u64) -> bool;

    /// Takes a peer of this address back that was served, and ends its connection.
    fn finish(&mut self, peer: Self::P)
        ensures state { state self.new ≡ after_finish (state self.old) peer }
        ensures kept { faults self.new ≡ faults self.old };
}
