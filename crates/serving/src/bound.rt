//! The listeners of a router's addresses.
ghost use Rattle.std.specs.Prelude.{◌≡◌, ◌<◌, ◌^◌, length, IfOk};
ghost use Rattle.line_base.specs.Nets.{HasNetCause};
ghost use Rattle.serving.specs.Returning.{listened};
ghost use Rattle.serving.specs.Posts.{feed_jobs, jobs_of};
ghost use Rattle.serving.specs.Running.{AreNewFeed, AreNewFrom, Listens};

use crate::pool::pool_by;
use crate::site::{API_JOBS, FEED_JOBS, Feeding, Site};
use line_base::{Net, NetFault};
use linker_config::Port;
use std::alloc::Global;

/// The listeners of a router, one for each job.
#[derive(Drop)]
pub struct Bound<L> {
    /// Those of the router, by their places.
    pub server: Vec<L>,
    /// Those of the interface to the namespaces.
    pub namerd: Vec<L>,
    /// Those of the administrator's interface.
    pub admin: Vec<L>,
    /// Those of the feed, none where it is not served.
    pub feed: Vec<L>,
}

/// The listeners of an address. Beside each of them there may be so many kept connections.
fn listen<N: Net>(net: &mut N, port: Port, copies: u32, kept: u32) -> Result<Vec<N::L>, NetFault>
    ensures count { IfOk result (λ ls. length ls.items ≡ copies) }
    ensures new { IfOk result (λ ls. AreNewFrom N.L.state (N.state net.old).told port 0 ls.items) }
    ensures state { IfOk result (λ _. N.state net.new ≡ listened copies (N.state net.old)) }
    ensures few { copies < 2 ^ 32 }
    ensures cause { HasNetCause (N.faults net.old) (N.faults net.new) result }
{
    let listeners = net.listen(port.ip, port.port, copies, kept)?;
    Ok(listeners.into_items())
}

/// The listeners of the feed, where it is served.
fn listen_for_feed<N: Net>(
    alloc: Global,
    net: &mut N,
    feed: Option<Feeding>,
) -> Result<Vec<N::L>, NetFault>
    ensures count { IfOk result (λ ls. length ls.items ≡ feed_jobs feed) }
    ensures new { IfOk result (λ ls. AreNewFeed N.L.state (N.state net.old).told feed ls.items) }
    ensures state { IfOk result (λ _. N.state net.new ≡ listened (feed_jobs feed)
        (N.state net.old)) }
    ensures cause { HasNetCause (N.faults net.old) (N.faults net.new) result }
{
    match feed {
        Some(feeding) => listen(net, feeding.port, FEED_JOBS, 0),
        None => Ok(Vec::new(alloc)),
    }
}

/// Listens on the router's address, on those of the two interfaces, and on the feed's, in this
/// order.
pub(crate) fn bind<N: Net>(alloc: Global, net: &mut N, site: &Site) -> Result<Bound<N::L>, NetFault>
    ensures listens { IfOk result (λ b. Listens N.L.state (N.state net.new).told site.now b) }
    ensures state { IfOk result (λ _. N.state net.new ≡ listened (jobs_of site.now)
        (N.state net.old)) }
    ensures cause { HasNetCause (N.faults net.old) (N.faults net.new) result }
{
    let pool = pool_by(site.policy.pool);
    let server = listen(net, site.server, site.workers, pool.max_size)?;
    let namerd = listen(net, site.namerd, API_JOBS, 0)?;
    let admin = listen(net, site.admin, API_JOBS, 0)?;
    let feed = listen_for_feed(alloc, net, site.feed)?;
    Ok(Bound {
        server,
        namerd,
        admin,
        feed,
    })
}
