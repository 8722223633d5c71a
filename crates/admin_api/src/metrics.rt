//! All metrics, as Prometheus scrapes them.
ghost use Rattle.std.specs.Prelude.{◌≡◌, IfOk, map};
ghost use Rattle.machine.specs.Code.{reply_value};
ghost use Rattle.api_wire.specs.Response.{response_value};
ghost use Rattle.admin_api.specs.Metrics.{IsMetricsBody, IsTextOf, TellsMetrics, shown_as};
ghost use Rattle.admin_api.specs.Metrics.{told_as};

use crate::{Bytes, Mem};
use api_wire::{Media, Response};
use http::StatusCode;
use machine::{Reply, ServiceState};
use metrics_text::{Counts, ServiceCounts, write_metrics};
use scrape::{State, Sums};
use std::alloc::Global;

/// The response with the text of all metrics: those of the state and of its services, as a look at
/// the services told them, with how many delegations were `kept` then, and what the workers count.
///
/// What the look told is let go of once it is told: it may be large, and the bytes of the response
/// are yet to be made.
pub fn metrics_response(alloc: Global, said: Reply, kept: usize, sums: &Sums) -> Mem<Response>
    ensures { IfOk result (λ response. TellsMetrics (reply_value said) kept sums.now
        (response_value response)) }
{
    let told = response_of(alloc, &said, kept, sums);
    drop(said);
    told
}

/// The response with the text of all metrics.
fn response_of(alloc: Global, said: &Reply, kept: usize, sums: &Sums) -> Mem<Response>
    ensures { IfOk result (λ response. TellsMetrics (reply_value said.now) kept sums.now
        (response_value response)) }
{
    let body = metrics_body(alloc, said, kept, sums)?;
    Ok(Response::of(StatusCode::OK, None, Media::Metrics, body))
}

/// The text of the metrics. A look at the services has the first reply alone.
fn metrics_body(alloc: Global, said: &Reply, kept: usize, sums: &Sums) -> Mem<Bytes>
    ensures { IfOk result (λ text. IsMetricsBody (reply_value said.now) kept sums.now text.items) }
{
    match said {
        Reply::Services {
            changes,
            marks,
            namespaces,
            tables_written,
            services,
        } => {
            let state = State {
                changes: *changes,
                tables_written: *tables_written,
                marks: u64::from(*marks),
                namespaces: u64::from(*namespaces),
                services: services.len() as u64,
                kept: kept as u64,
            };
            metrics_text(alloc, &sums.counts(&state), services.as_slice())
        }
        Reply::Version(_) | Reply::Exists(_) | Reply::TooManyNames | Reply::VersionsSpent => {
            Ok(Vec::new(alloc))
        }
        Reply::Missing | Reply::Stale(_) | Reply::Deleted | Reply::Set(_) => Ok(Vec::new(alloc)),
        Reply::BookFull(_) | Reply::TooManyServices | Reply::Dropped | Reply::Marked(_) => {
            Ok(Vec::new(alloc))
        }
        Reply::NotKept | Reply::HistorySpent | Reply::Names(_) | Reply::Addrs(_) => {
            Ok(Vec::new(alloc))
        }
        Reply::Table { .. } | Reply::Counts { .. } | Reply::Viewed { .. } => Ok(Vec::new(alloc)),
    }
}

/// The text of these numbers and services.
fn metrics_text(alloc: Global, counts: &Counts, services: &[ServiceState]) -> Mem<Bytes>
    ensures { IfOk result (λ text. IsTextOf counts.now services.now text.items) }
{
    let shown = shown(alloc, services)?;
    let mut text = Vec::new(alloc);
    write_metrics(counts, shown.as_slice(), &mut text)?;
    Ok(text)
}

/// Services as the metrics show them.
fn shown(alloc: Global, services: &[ServiceState]) -> Mem<Vec<ServiceCounts<'_>>>
    ensures { IfOk result (λ shown. map shown_as shown.items ≡ map told_as services.now) }
{
    let mut shown = Vec::with_capacity(alloc, services.len())?;
    for service in services {
        shown.push(ServiceCounts {
            name: service.name.text(),
            addresses: u64::from(service.addresses),
            alive: u64::from(service.alive),
        })?;
    }
    Ok(shown)
}
