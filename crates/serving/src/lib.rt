//! A router that serves: connections of clients and of its interfaces, each with whichever worker
//! is free.
//!
//! [`start`] gives a router its services and listens on its addresses; [`Serving::run`] then serves
//! until it is stopped. It runs a job for each listener, on a thread of its own: a [`ProxyJob`]
//! serves connections of clients, with a dialer, a clock, a generator of words and a recorder, and
//! an [`ApiJob`] those of the interfaces to the namespaces and for the administrator, and of the
//! feed where it is served, with a scraper. Each has a pass of the router and a stop.
//!
//! A connection holds a worker only while it is served. Between two of its requests it waits in a
//! lot, which all workers of its kind share, and any of them goes on with it, with a pass that has
//! seen all that had been seen for it. So there are as many workers as requests that are served at
//! a time, and thousands of connections may wait. One that has waited for a minute is ended, and so
//! is the one that has waited longest where there is no room for another.
//!
//! A shutdown that is asked for on an interface, and a listener whose waits fail a hundred times in
//! a row, close all listeners. Then each job is taken apart, the connections that still wait are
//! ended, the listeners go back to the net, and the router is ended.
//!
//! Its tests are `linker_tests`' modules `routers`, `quiet`, `breaking` and `access_logs`, which
//! call it as `linker serve` does, over a net in memory.
//!
//! # What is proved
//! [`start`] leaves new listeners, one for each place of its addresses, and passes that have all
//! seen the services set. It answers that the book has no room only where `BookRefuses` of
//! `specs/Services.antt` holds: the services before one are accepted, and the book that they leave
//! has no room for it.
//!
//! What [`Serving::run`] did is `HasServed` of `specs/Ending.antt`. Each listener had a pass of its
//! own, and its worker took one turn after another (`specs/Shifts.antt`) until the listener
//! answered that it is closed: a stay of a connection that came to it, a stay of one that waited,
//! or the end of one that waited. A stay of a client goes on with the dialer, the clock, the
//! generator, the pass and the recorder that the turn before it left; the first has new ones, with
//! the seed of the listener's place, and the recorder that was given for it ([`Instruments`]). The
//! recorder is told that a connection came or was taken up, of each of its exchanges, in order and
//! once, and that it was left or has ended; and it comes back, in its place, as the last turn left
//! it. A stay of a caller of an interface goes on with the pass and the scraper, and the first has
//! the scraper that was given for its listener. Of a connection that waited it is known that stays
//! led to it from one that came, each in turn with a pass that had seen all that the stays before
//! it had seen (`client_stays`, `api_sessions`). A stop was called as often as the turns say. The
//! connections that still waited were ended at the first listener, so over all listeners as many
//! were finished as had been accepted. All listeners came back clean, in their order, and as many
//! stops as were handed out. The passes ended with one history, of as many changes as [`Served`]
//! tells, each loaded service among them; and it tells whether a stay ran out of memory.
//!
//! It is not proved that the jobs run beside one another, nor which worker took up a connection
//! that another one left.
//!
//! # Example
//! ```text
//! let opened = open(&rt, alloc, settings, site.seats())?;
//! let serving = start::<Brand, _, _>(&rt, alloc, opened, loaded, &site, &mut net)?;
//! let instruments = Instruments { recorders, scrapers };
//! let (served, recorders) = serving.run(&rt, alloc, &site, &mut net, &clock, instruments)?;
//! // served.place: how many changes there were
//! ```
#![tactic(auto)]

mod bound;
mod ending;
mod gate;
mod instruments;
mod interface;
mod job;
mod jobs;
mod loading;
mod lots;
mod next;
mod parts;
mod policy;
mod pool;
mod proxy;
mod running;
mod site;
mod taking_back;

pub use bound::Bound;
pub use gate::NoGate;
pub use instruments::Instruments;
pub use interface::ApiServer;
pub use job::{ApiJob, ProxyJob, ServingJob};
pub use parts::{Apart, Part};
pub use policy::Policy;
pub use proxy::ProxyServer;
pub use running::{RunFault, Served, Serving, StartFault, start};
pub use site::{Feeding, Site};
