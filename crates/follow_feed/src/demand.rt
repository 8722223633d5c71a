//! What requests of the feed's interface ask for.
ghost use Rattle.std.specs.Prelude.{◌≡◌, IfOk};
ghost use Rattle.std.specs.Option.{option_copied};
ghost use Rattle.addr_book.specs.Name.{name_of};
ghost use Rattle.api_wire.specs.Response.{bad_name, not_allowed};
ghost use Rattle.follow_feed.specs.Demand.{answer, feed_demand, feed_demand_value, name_demand};
ghost use Rattle.follow_feed.specs.Demand.{segment_demand, space_demand};

use crate::Mem;
use addr_book::{Name, NameFault};
use api_wire::{Methods, Response, Verb, path_in, read_name, segment_behind, verb_of};
use http_wire::Head;
use std::alloc::{AllocError, Global};

/// What a request for a feed asks for. `feed_demand_value` is how contracts see it.
#[derive(Drop)]
pub enum FeedDemand {
    /// This response, whatever the state is.
    Answer(Response),
    /// The feed of this namespace.
    Show(Name),
}

/// What a request for a feed asks for, by its head and the target that goes on.
pub fn feed_demand(alloc: Global, head: &Head, line: &[u8]) -> Mem<FeedDemand>
    ensures { IfOk result (λ demand. feed_demand_value demand ≡ feed_demand head.now line.now) }
{
    segment_demand(
        alloc,
        verb_of(&head.method),
        segment_behind(b"/feed/", path_in(line)),
    )
}

/// What the segment behind the path's front is asked for, if there is one.
fn segment_demand(alloc: Global, verb: Option<Verb>, segment: Option<&[u8]>) -> Mem<FeedDemand>
    ensures { IfOk result (λ demand. feed_demand_value demand
        ≡ segment_demand verb (option_copied segment.entry)) }
{
    match segment {
        None => Ok(FeedDemand::Answer(Response::no_path(alloc)?)),
        Some(segment) => space_demand(alloc, verb, segment),
    }
}

/// What the feed of a namespace is asked for.
fn space_demand(alloc: Global, verb: Option<Verb>, segment: &[u8]) -> Mem<FeedDemand>
    ensures { IfOk result (λ demand. feed_demand_value demand ≡ space_demand verb segment.now) }
{
    match verb {
        Some(Verb::Get) => name_demand(alloc, segment),
        Some(Verb::Head) => name_demand(alloc, segment),
        Some(Verb::Post) => not_allowed(alloc),
        Some(Verb::Put) => not_allowed(alloc),
        Some(Verb::Delete) => not_allowed(alloc),
        None => not_allowed(alloc),
    }
}

/// What a read of the feed of a namespace asks for.
fn name_demand(alloc: Global, segment: &[u8]) -> Mem<FeedDemand>
    ensures { IfOk result (λ demand. feed_demand_value demand ≡ name_demand (name_of segment.now)) }
{
    match read_name(alloc, segment) {
        Ok(name) => Ok(FeedDemand::Show(name)),
        Err(NameFault::NotName) => bad_name(alloc),
        Err(NameFault::OutOfMemory) => Err(AllocError),
    }
}

/// The segment is no name.
fn bad_name(alloc: Global) -> Mem<FeedDemand>
    ensures { IfOk result (λ demand. feed_demand_value demand ≡ answer bad_name) }
{
    Ok(FeedDemand::Answer(Response::bad_name(alloc)?))
}

/// A feed is only shown.
fn not_allowed(alloc: Global) -> Mem<FeedDemand>
    ensures { IfOk result (λ demand. feed_demand_value demand
        ≡ answer (not_allowed Methods.Reads)) }
{
    Ok(FeedDemand::Answer(Response::not_allowed(alloc, Methods::Reads)?))
}
