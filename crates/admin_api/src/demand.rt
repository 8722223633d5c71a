//! What requests of the admin interface ask for.
ghost use Rattle.std.specs.Prelude.{◌≡◌, IfOk};
ghost use Rattle.std.specs.Option.{option_copied};
ghost use Rattle.delegate_view.specs.Query.{view_asked};
ghost use Rattle.machine.specs.Values.{count_all};
ghost use Rattle.addr_book.specs.Name.{name_of};
ghost use Rattle.api_wire.specs.Demand.{answer, ask, demand_value, stop};
ghost use Rattle.admin_api.specs.Demand.{addrs_asked, addrs_of, admin_demand, admin_value};
ghost use Rattle.admin_api.specs.Demand.{bye, is_read, metrics_demand, named_asked, path_demand};
ghost use Rattle.admin_api.specs.Demand.{pong, posted, readiness, segment_demand, service_demand};
ghost use Rattle.admin_api.specs.Demand.{set_demand, shown, view_demand};

use crate::Mem;
use addr_book::{AddrFault, Name, NameFault, read_addrs};
use api_wire::{
    Demand, Methods, Response, Verb, is_path, path_in, query_in, read_name, segment_behind, verb_of,
};
use delegate_view::{ViewFault, view_ask};
use http::StatusCode;
use http_wire::Head;
use machine::{Change, Look};
use std::alloc::{AllocError, Global};

/// What a request of the admin interface asks for. `admin_value` is how contracts see it.
#[derive(Drop)]
pub enum AdminDemand {
    /// The text of all metrics.
    Metrics,
    /// What the router alone answers.
    Other(Demand),
}

/// What a request of the admin interface asks for, by whether the program is `ready` for more
/// connections, the request's head, the target that goes on, and its body.
#[tactic(auto, unfolding(crate::specs::Demand::admin_demand))]
pub fn admin_demand(
    alloc: Global,
    ready: bool,
    head: &Head,
    line: &[u8],
    body: &[u8],
) -> Mem<AdminDemand>
    ensures { IfOk result (λ demand. admin_value demand
        ≡ admin_demand ready head.now line.now body.now) }
{
    if is_path(path_in(line), b"/admin/metrics/prometheus") {
        return metrics_demand(alloc, verb_of(&head.method));
    }
    let demand = path_demand(alloc, ready, head, line, body)?;
    Ok(AdminDemand::Other(demand))
}

/// What the metrics are asked for.
fn metrics_demand(alloc: Global, verb: Option<Verb>) -> Mem<AdminDemand>
    ensures { IfOk result (λ demand. admin_value demand ≡ metrics_demand verb) }
{
    if is_read(verb) {
        return Ok(AdminDemand::Metrics);
    }
    let demand = Demand::not_allowed(alloc, Methods::Reads)?;
    Ok(AdminDemand::Other(demand))
}

/// What a request for another path than that of the metrics asks for.
#[tactic(auto, unfolding(crate::specs::Demand::path_demand))]
fn path_demand(alloc: Global, ready: bool, head: &Head, line: &[u8], body: &[u8]) -> Mem<Demand>
    ensures { IfOk result (λ demand. demand_value demand
        ≡ path_demand ready head.now line.now body.now) }
{
    let path = path_in(line);
    let verb = verb_of(&head.method);
    if is_path(path, b"/admin/ping") {
        return ping_demand(alloc, verb);
    }
    if is_path(path, b"/admin/metrics.json") {
        return counts_demand(alloc, verb);
    }
    if is_path(path, b"/delegator.json") {
        return delegator_demand(alloc, verb, query_in(line));
    }
    if is_path(path, b"/admin/shutdown") {
        return shutdown_demand(alloc, verb);
    }
    if is_path(path, b"/admin/ready") {
        return ready_demand(alloc, ready, verb);
    }
    segment_demand(alloc, verb, segment_behind(b"/api/1/addrs/", path), body)
}

/// Whether a method shows something.
fn is_read(verb: Option<Verb>) -> bool
    ensures { result ≡ is_read verb }
{
    match verb {
        Some(Verb::Get) => true,
        Some(Verb::Head) => true,
        Some(Verb::Post) => false,
        Some(Verb::Put) => false,
        Some(Verb::Delete) => false,
        None => false,
    }
}

/// What the path that shows that the program runs is asked for.
fn ping_demand(alloc: Global, verb: Option<Verb>) -> Mem<Demand>
    ensures { IfOk result (λ demand. demand_value demand ≡ shown (answer pong) verb) }
{
    if is_read(verb) {
        Demand::word(alloc, StatusCode::OK, "pong")
    } else {
        Demand::not_allowed(alloc, Methods::Reads)
    }
}

/// What the path is asked for that says whether more connections are to be sent here.
fn ready_demand(alloc: Global, ready: bool, verb: Option<Verb>) -> Mem<Demand>
    ensures { IfOk result (λ demand. demand_value demand
        ≡ shown (answer (readiness ready)) verb) }
{
    if !is_read(verb) {
        return Demand::not_allowed(alloc, Methods::Reads);
    }
    if ready {
        Demand::word(alloc, StatusCode::OK, "ready")
    } else {
        Demand::word(alloc, StatusCode::SERVICE_UNAVAILABLE, "not-ready")
    }
}

/// What the counts are asked for.
fn counts_demand(alloc: Global, verb: Option<Verb>) -> Mem<Demand>
    ensures { IfOk result (λ demand. demand_value demand ≡ shown (ask count_all) verb) }
{
    if is_read(verb) {
        Ok(Demand::Look(Look::Counts))
    } else {
        Demand::not_allowed(alloc, Methods::Reads)
    }
}

/// What the delegator is asked for.
fn delegator_demand(alloc: Global, verb: Option<Verb>, query: &[u8]) -> Mem<Demand>
    ensures { IfOk result (λ demand. demand_value demand
        ≡ shown (view_demand (view_asked query.now)) verb) }
{
    if is_read(verb) {
        view_demand(alloc, query)
    } else {
        Demand::not_allowed(alloc, Methods::Reads)
    }
}

/// How the path of a query is delegated.
fn view_demand(alloc: Global, query: &[u8]) -> Mem<Demand>
    ensures { IfOk result (λ demand. demand_value demand ≡ view_demand (view_asked query.now)) }
{
    match view_ask(alloc, query) {
        Ok((path, local)) => Ok(Demand::Look(Look::View { path, local })),
        Err(ViewFault::BadView) => Demand::word(alloc, StatusCode::BAD_REQUEST, "view"),
        Err(ViewFault::OutOfMemory) => Err(AllocError),
    }
}

/// What the path that stops the program is asked for.
fn shutdown_demand(alloc: Global, verb: Option<Verb>) -> Mem<Demand>
    ensures { IfOk result (λ demand. demand_value demand ≡ posted (stop bye) verb) }
{
    match verb {
        Some(Verb::Post) => Ok(Demand::Stop(Response::word(alloc, StatusCode::OK, None, "bye")?)),
        Some(Verb::Get) => Demand::not_allowed(alloc, Methods::Posts),
        Some(Verb::Head) => Demand::not_allowed(alloc, Methods::Posts),
        Some(Verb::Put) => Demand::not_allowed(alloc, Methods::Posts),
        Some(Verb::Delete) => Demand::not_allowed(alloc, Methods::Posts),
        None => Demand::not_allowed(alloc, Methods::Posts),
    }
}

/// What the last segment of a path is asked for, if there is one.
fn segment_demand(
    alloc: Global,
    verb: Option<Verb>,
    segment: Option<&[u8]>,
    body: &[u8],
) -> Mem<Demand>
    ensures { IfOk result (λ demand. demand_value demand
        ≡ segment_demand verb (option_copied segment.entry) body.now) }
{
    match segment {
        None => Demand::no_path(alloc),
        Some(segment) => service_demand(alloc, verb, segment, body),
    }
}

/// What the addresses of a service are asked for.
fn service_demand(alloc: Global, verb: Option<Verb>, segment: &[u8], body: &[u8]) -> Mem<Demand>
    ensures { IfOk result (λ demand. demand_value demand
        ≡ service_demand verb segment.now body.now) }
{
    match verb {
        Some(Verb::Get) => named_asked(alloc, Verb::Get, segment, body),
        Some(Verb::Head) => named_asked(alloc, Verb::Head, segment, body),
        Some(Verb::Put) => named_asked(alloc, Verb::Put, segment, body),
        Some(Verb::Delete) => named_asked(alloc, Verb::Delete, segment, body),
        Some(Verb::Post) => Demand::not_allowed(alloc, Methods::Services),
        None => Demand::not_allowed(alloc, Methods::Services),
    }
}

/// The same by the name that the segment is.
fn named_asked(alloc: Global, verb: Verb, segment: &[u8], body: &[u8]) -> Mem<Demand>
    ensures { IfOk result (λ demand. demand_value demand ≡ named_asked verb (name_of segment.now)
        body.now) }
{
    match read_name(alloc, segment) {
        Ok(name) => addrs_asked(alloc, verb, name, body),
        Err(NameFault::NotName) => Demand::bad_name(alloc),
        Err(NameFault::OutOfMemory) => Err(AllocError),
    }
}

/// The same of this service.
fn addrs_asked(alloc: Global, verb: Verb, name: Name, body: &[u8]) -> Mem<Demand>
    ensures { IfOk result (λ demand. demand_value demand ≡ addrs_asked verb name body.now) }
{
    match verb {
        Verb::Get => Ok(Demand::Look(Look::Addrs { service: name })),
        Verb::Head => Ok(Demand::Look(Look::Addrs { service: name })),
        Verb::Put => set_demand(alloc, name, body),
        Verb::Delete => Ok(Demand::Change(Change::DropService { service: name })),
        Verb::Post => Demand::not_allowed(alloc, Methods::Services),
    }
}

/// The addresses of a body for a service.
fn set_demand(alloc: Global, name: Name, body: &[u8]) -> Mem<Demand>
    ensures { IfOk result (λ demand. demand_value demand ≡ set_demand name (addrs_of body.now)) }
{
    match read_addrs(alloc, body) {
        Ok(list) => Ok(Demand::Change(Change::SetAddrs {
            service: name,
            list,
        })),
        Err(AddrFault::BadLine(_line)) => Demand::word(alloc, StatusCode::BAD_REQUEST, "addrs"),
        Err(AddrFault::TooMany(_count)) => Demand::word(alloc, StatusCode::BAD_REQUEST, "addrs"),
        Err(AddrFault::OutOfMemory) => Err(AllocError),
    }
}
