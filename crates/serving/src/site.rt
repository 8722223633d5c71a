//! Where a router serves, and how.
ghost use Rattle.std.specs.Prelude.{◌≡◌, ◌+◌, ◌≤◌};
ghost use Rattle.serving.specs.Posts.{interface_jobs, jobs_of};

use crate::policy::Policy;
use linker_config::Port;

/// How many jobs serve each interface.
pub(crate) const API_JOBS: u32 = 2;

/// How many jobs serve the feed, where it is served.
pub(crate) const FEED_JOBS: u32 = 1;

/// Where the feed of the namespaces is served, and the number of the run of the router that it
/// tells.
#[derive(Clone, Copy, Debug, PartialEq, Eq)]
pub struct Feeding {
    /// Where it listens.
    pub port: Port,
    /// The number of the run.
    pub run: u64,
}

/// Where a router and its interfaces listen, how requests are handled, how many connections are
/// served at a time, and what the random words begin with.
pub struct Site {
    /// Where the router listens.
    pub server: Port,
    /// Where the interface to the namespaces listens.
    pub namerd: Port,
    /// Where the administrator's interface listens.
    pub admin: Port,
    /// How requests are named, how often they may be tried again, and which connections are kept.
    pub policy: Policy,
    /// How many proxy jobs there are.
    pub workers: u32,
    /// What the words of the first proxy job begin with.
    pub seed: u64,
    /// Where the feed of the namespaces is served, if it is.
    pub feed: Option<Feeding>,
}

impl Drop for Site {
    fn drop(self) {
        let Site {
            server: _,
            namerd: _,
            admin: _,
            policy,
            workers: _,
            seed: _,
            feed: _,
        } = self;
        drop(policy);
    }
}

impl Site {
    /// How many jobs serve the interfaces: those of the two, and that of the feed.
    pub fn interface_jobs(&self) -> u32
        ensures { result ≡ interface_jobs self.now }
    {
        match self.feed {
            Some(_) => 2 * API_JOBS + FEED_JOBS,
            None => 2 * API_JOBS,
        }
    }

    /// How many jobs there are: those for clients, and those of the interfaces.
    fn jobs(&self) -> u32
        requires few { self.now.workers ≤ 256 }
        ensures { result ≡ jobs_of self.now }
    {
        self.workers + self.interface_jobs()
    }

    /// How many passes its router has: one for each job, and one that sets the services.
    pub fn seats(&self) -> u32
        requires few { self.now.workers ≤ 256 }
        ensures { result ≡ jobs_of self.now + 1 }
    {
        self.jobs() + 1
    }
}
