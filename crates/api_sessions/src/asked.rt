//! What requests of the interfaces ask for.
ghost use Rattle.std.specs.Prelude.{◌≡◌, IfOk};
ghost use Rattle.admin_api.specs.Demand.{admin_value};
ghost use Rattle.follow_feed.specs.Demand.{feed_demand_value};
ghost use Rattle.api_sessions.specs.Asked.{asked_of, asked_value, of_admin, of_feed};

use crate::Mem;
use crate::which::Which;
use addr_book::Name;
use admin_api::{AdminDemand, admin_demand};
use api_wire::Demand;
use follow_feed::{FeedDemand, feed_demand};
use http_wire::Head;
use ns_api::ns_demand;
use std::alloc::Global;

/// What a request of an interface asks for. `asked_value` is how contracts see it.
#[derive(Drop)]
pub(crate) enum Asked {
    /// What the router alone answers, or nobody.
    Demand(Demand),
    /// The text of all metrics.
    Metrics,
    /// The feed of a namespace.
    Feed {
        /// The number of this run of the program.
        run: u64,
        /// The namespace.
        name: Name,
    },
}

impl Asked {
    /// What a request of the admin interface asks for.
    fn of_admin(demand: AdminDemand) -> Asked
        ensures { asked_value result ≡ of_admin (admin_value demand) }
    {
        match demand {
            AdminDemand::Metrics => Asked::Metrics,
            AdminDemand::Other(demand) => Asked::Demand(demand),
        }
    }

    /// What a request for a feed of this run asks for.
    fn of_feed(run: u64, demand: FeedDemand) -> Asked
        ensures { asked_value result ≡ of_feed run (feed_demand_value demand) }
    {
        match demand {
            FeedDemand::Answer(response) => Asked::Demand(Demand::Answer(response)),
            FeedDemand::Show(name) => Asked::Feed { run, name },
        }
    }
}

/// What a request of this interface asks for, by its head, the target that goes on, and its body.
#[tactic(auto, unfolding(crate::specs::Asked::asked_of))]
pub(crate) fn asked_of(
    alloc: Global,
    which: Which,
    head: &Head,
    line: &[u8],
    body: &[u8],
) -> Mem<Asked>
    ensures { IfOk result (λ asked. asked_value asked ≡ asked_of which head.now line.now body.now) }
{
    match which {
        Which::Namerd => Ok(Asked::Demand(ns_demand(alloc, head, line, body)?)),
        Which::Admin { ready } => {
            let demand = admin_demand(alloc, ready, head, line, body)?;
            Ok(Asked::of_admin(demand))
        }
        Which::Feed { run } => {
            let demand = feed_demand(alloc, head, line)?;
            Ok(Asked::of_feed(run, demand))
        }
    }
}
