//! All metrics of a router.
ghost use Rattle.std.specs.Prelude.{◌≡◌, ◌+◌, ◌*◌, ◌/◌, ◌%◌, ◌<◌, ◌≤◌, ◌^◌, ◌++◌, [], IfOk, OnErr};
ghost use Rattle.std.specs.Prelude.{OnOk, sum};
ghost use Rattle.std.specs.Fmt.{decimal};
ghost use Rattle.std.specs.List.{slice_index};
ghost use Rattle.metrics_text.specs.Metrics.{bound_at, bucket_line, bucket_lines, bytes_text};
ghost use Rattle.metrics_text.specs.Metrics.{class_line, connections_text, delegations_text};
ghost use Rattle.metrics_text.specs.Metrics.{durations_text, log_text, metrics_text, own_framing};
ghost use Rattle.metrics_text.specs.Metrics.{own_head, own_line, own_name, own_replica, own_text};
ghost use Rattle.metrics_text.specs.Metrics.{requests_text, router_text, seconds_text};
ghost use Rattle.metrics_text.specs.Metrics.{service_line, service_lines, services_text};
ghost use Rattle.metrics_text.specs.Metrics.{state_text, tries_text};

use crate::class::Classes;
use crate::counts::{Counts, OwnReplies};
use crate::duration::{BUCKETS, Durations};
use crate::format::{Kind, put_head, put_labelled, put_single, put_value};
use crate::service::{Figure, ServiceCounts};
use crate::{Bytes, Mem};
use itoa::Buffer;
use own_reply::OwnError;

/// Puts the text of all metrics into `out`, in place of what it holds: those of the router, and for
/// each service its addresses and those that are alive. An `Err` leaves it empty.
///
/// It takes time for the bytes of the text, and memory only where `out` has no room for it.
///
/// # Errors
/// Out of memory.
pub fn write_metrics(counts: &Counts, services: &[ServiceCounts<'_>], out: &mut Bytes) -> Mem<()>
    ensures ok { OnOk result (out.new.items ≡ metrics_text counts.now services.now) }
    ensures err { OnErr result (out.new.items ≡ []) }
{
    out.clear();
    let done = put_metrics(counts, services, out);
    if done.is_err() {
        out.clear();
    }
    done
}

/// Puts all metrics after some bytes. An `Err` may leave a part of them there, here and below.
fn put_metrics(counts: &Counts, services: &[ServiceCounts<'_>], out: &mut Bytes) -> Mem<()>
    ensures { OnOk result (out.new.items ≡ out.old.items ++ metrics_text counts.now services.now) }
{
    put_router(counts, out)?;
    put_durations(&counts.durations, out)?;
    put_services(services, out)
}

/// Puts the metrics of the router after some bytes, but for the durations.
#[tactic(auto, unfolding(crate::specs::Metrics::router_text))]
fn put_router(counts: &Counts, out: &mut Bytes) -> Mem<()>
    ensures { OnOk result (out.new.items ≡ out.old.items ++ router_text counts.now) }
{
    put_state(counts, out)?;
    put_requests(&counts.requests, out)?;
    put_own(&counts.own_replies, out)?;
    put_tries(counts, out)?;
    put_connections(counts, out)?;
    put_bytes(counts, out)?;
    put_delegations(counts, out)?;
    put_log(counts, out)
}

/// Puts the metrics after some bytes about what the router holds.
#[tactic(auto, unfolding(crate::specs::Metrics::state_text))]
fn put_state(counts: &Counts, out: &mut Bytes) -> Mem<()>
    ensures { OnOk result (out.new.items ≡ out.old.items ++ state_text counts.now) }
{
    put_single(
        "linker_changes_total",
        Kind::Counter,
        "Changes of tables, services and marks that were accepted.",
        counts.changes,
        out,
    )?;
    put_single(
        "linker_tables_written_total",
        Kind::Counter,
        "Tables that were created or put.",
        counts.tables_written,
        out,
    )?;
    put_single(
        "linker_marks",
        Kind::Gauge,
        "Addresses with failures that count against them.",
        counts.marks,
        out,
    )?;
    put_single(
        "linker_namespaces",
        Kind::Gauge,
        "Namespaces.",
        counts.namespaces,
        out,
    )?;
    put_single(
        "linker_services",
        Kind::Gauge,
        "Services.",
        counts.services,
        out,
    )
}

/// Puts the metrics after some bytes about how replicas were tried.
#[tactic(auto, unfolding(crate::specs::Metrics::tries_text))]
fn put_tries(counts: &Counts, out: &mut Bytes) -> Mem<()>
    ensures { OnOk result (out.new.items ≡ out.old.items ++ tries_text counts.now) }
{
    put_single(
        "linker_tries_total",
        Kind::Counter,
        "Tries of replicas.",
        counts.tries,
        out,
    )?;
    put_single(
        "linker_failures_reported_total",
        Kind::Counter,
        "Failures of replicas that were reported.",
        counts.failures,
        out,
    )
}

/// Puts the metrics after some bytes about the connections of clients.
#[tactic(auto, unfolding(crate::specs::Metrics::connections_text))]
fn put_connections(counts: &Counts, out: &mut Bytes) -> Mem<()>
    ensures { OnOk result (out.new.items ≡ out.old.items ++ connections_text counts.now) }
{
    put_single(
        "linker_connections_accepted_total",
        Kind::Counter,
        "Connections of clients that were accepted.",
        counts.accepted,
        out,
    )?;
    put_single(
        "linker_connections_open",
        Kind::Gauge,
        "Connections of clients that are open.",
        counts.open,
        out,
    )?;
    put_single(
        "linker_connections_waiting",
        Kind::Gauge,
        "Connections of clients that wait for their next request.",
        counts.waiting,
        out,
    )
}

/// Puts the metrics after some bytes about the bytes of bodies.
#[tactic(auto, unfolding(crate::specs::Metrics::bytes_text))]
fn put_bytes(counts: &Counts, out: &mut Bytes) -> Mem<()>
    ensures { OnOk result (out.new.items ≡ out.old.items ++ bytes_text counts.now) }
{
    put_single(
        "linker_request_body_bytes_total",
        Kind::Counter,
        "Bytes of requests' bodies that went on to replicas.",
        counts.request_bytes,
        out,
    )?;
    put_single(
        "linker_reply_body_bytes_total",
        Kind::Counter,
        "Bytes of replies' bodies that went back to clients.",
        counts.reply_bytes,
        out,
    )
}

/// Puts the metrics after some bytes about the asks for a replica, and the delegations kept.
#[tactic(auto, unfolding(crate::specs::Metrics::delegations_text))]
fn put_delegations(counts: &Counts, out: &mut Bytes) -> Mem<()>
    ensures { OnOk result (out.new.items ≡ out.old.items ++ delegations_text counts.now) }
{
    put_single(
        "linker_delegation_hits_total",
        Kind::Counter,
        "Asks for which a delegation was kept.",
        counts.hits,
        out,
    )?;
    put_single(
        "linker_delegation_misses_total",
        Kind::Counter,
        "Asks for which no delegation was kept.",
        counts.misses,
        out,
    )?;
    put_single(
        "linker_delegations_kept",
        Kind::Gauge,
        "Delegations that are kept.",
        counts.kept,
        out,
    )
}

/// Puts the metrics after some bytes about the lines of the access log.
#[tactic(auto, unfolding(crate::specs::Metrics::log_text))]
fn put_log(counts: &Counts, out: &mut Bytes) -> Mem<()>
    ensures { OnOk result (out.new.items ≡ out.old.items ++ log_text counts.now) }
{
    put_single(
        "linker_access_log_lines_total",
        Kind::Counter,
        "Lines that were written to the access log.",
        counts.log_lines,
        out,
    )?;
    put_single(
        "linker_access_log_lost_lines_total",
        Kind::Counter,
        "Lines that could not be written to the access log.",
        counts.lost_lines,
        out,
    )
}

/// Puts the requests after some bytes, by the classes of their replies.
#[tactic(auto, unfolding(crate::specs::Metrics::requests_text))]
fn put_requests(requests: &Classes, out: &mut Bytes) -> Mem<()>
    ensures { OnOk result (out.new.items ≡ out.old.items ++ requests_text requests.now) }
{
    put_head(
        "linker_requests_total",
        Kind::Counter,
        "Requests that ended, by the class of their reply's status.",
        out,
    )?;
    put_class("2xx", requests.success, out)?;
    put_class("3xx", requests.redirection, out)?;
    put_class("4xx", requests.client_error, out)?;
    put_class("5xx", requests.server_error, out)?;
    put_class("other", requests.other, out)?;
    put_class("none", requests.no_reply, out)
}

/// Puts the requests of a class after some bytes.
fn put_class(class: &str, requests: u64, out: &mut Bytes) -> Mem<()>
    ensures { OnOk result (out.new.items ≡ out.old.items ++ class_line class.now requests) }
{
    let value = u128::from(requests);
    put_labelled(
        "linker_requests_total",
        "class",
        class.as_bytes(),
        value,
        out,
    )
}

/// Puts the router's own replies after some bytes, by their words.
#[tactic(auto, unfolding(crate::specs::Metrics::own_text))]
fn put_own(replies: &OwnReplies, out: &mut Bytes) -> Mem<()>
    ensures { OnOk result (out.new.items ≡ out.old.items ++ own_text replies.now) }
{
    put_head(
        "linker_own_replies_total",
        Kind::Counter,
        "Replies of the router's own, by their word.",
        out,
    )?;
    put_own_head(replies, out)?;
    put_own_framing(replies, out)?;
    put_own_name(replies, out)?;
    put_own_replica(replies, out)
}

/// Puts the own replies after some bytes that refuse a request by its head.
#[tactic(auto, unfolding(crate::specs::Metrics::own_head))]
fn put_own_head(replies: &OwnReplies, out: &mut Bytes) -> Mem<()>
    ensures { OnOk result (out.new.items ≡ out.old.items ++ own_head replies.now) }
{
    put_reason(OwnError::Version, replies.version, out)?;
    put_reason(OwnError::BadHead, replies.bad_head, out)?;
    put_reason(OwnError::HeadTooLarge, replies.head_too_large, out)?;
    put_reason(OwnError::Connect, replies.connect, out)?;
    put_reason(OwnError::Target, replies.target, out)
}

/// Puts the own replies after some bytes that refuse a request by its framing, its host or its
/// body.
#[tactic(auto, unfolding(crate::specs::Metrics::own_framing))]
fn put_own_framing(replies: &OwnReplies, out: &mut Bytes) -> Mem<()>
    ensures { OnOk result (out.new.items ≡ out.old.items ++ own_framing replies.now) }
{
    put_reason(OwnError::Length, replies.length, out)?;
    put_reason(OwnError::Coding, replies.coding, out)?;
    put_reason(OwnError::TooLong, replies.too_long, out)?;
    put_reason(OwnError::Host, replies.host, out)?;
    put_reason(OwnError::Body, replies.body, out)
}

/// Puts the own replies after some bytes that refuse a request by its name, or since that is bound
/// to nothing.
#[tactic(auto, unfolding(crate::specs::Metrics::own_name))]
fn put_own_name(replies: &OwnReplies, out: &mut Bytes) -> Mem<()>
    ensures { OnOk result (out.new.items ≡ out.old.items ++ own_name replies.now) }
{
    put_reason(OwnError::Unidentified, replies.unidentified, out)?;
    put_reason(OwnError::Dtab, replies.dtab, out)?;
    put_reason(OwnError::Negative, replies.negative, out)?;
    put_reason(OwnError::Failing, replies.failing, out)?;
    put_reason(OwnError::Empty, replies.empty, out)
}

/// Puts the own replies after some bytes where no replica is found, or it fails.
#[tactic(auto, unfolding(crate::specs::Metrics::own_replica))]
fn put_own_replica(replies: &OwnReplies, out: &mut Bytes) -> Mem<()>
    ensures { OnOk result (out.new.items ≡ out.old.items ++ own_replica replies.now) }
{
    put_reason(OwnError::TooDeep, replies.too_deep, out)?;
    put_reason(OwnError::TooWide, replies.too_wide, out)?;
    put_reason(OwnError::Dial, replies.dial, out)?;
    put_reason(OwnError::Upstream, replies.upstream, out)
}

/// Puts the own replies with a word after some bytes.
fn put_reason(reason: OwnError, replies: u64, out: &mut Bytes) -> Mem<()>
    ensures { OnOk result (out.new.items ≡ out.old.items ++ own_line reason replies) }
{
    let value = u128::from(replies);
    put_labelled(
        "linker_own_replies_total",
        "reason",
        reason.text().as_bytes(),
        value,
        out,
    )
}

/// Puts the histogram of how long requests took after some bytes.
#[tactic(auto, unfolding(crate::specs::Metrics::durations_text))]
fn put_durations(durations: &Durations, out: &mut Bytes) -> Mem<()>
    ensures { OnOk result (out.new.items ≡ out.old.items ++ durations_text durations.now) }
{
    put_head(
        "linker_request_duration_seconds",
        Kind::Histogram,
        "How long requests took, until the end of their reply.",
        out,
    )?;
    let requests = put_buckets(&durations.buckets, out)?;
    out.extend_from_slice(b"linker_request_duration_seconds_sum ")?;
    put_seconds(durations.milliseconds, out)?;
    out.extend_from_slice(b"\nlinker_request_duration_seconds_count")?;
    put_value(requests, out)
}

/// Puts the samples of the buckets after some bytes, each with those before it, and gives how many
/// requests there are in all.
fn put_buckets(buckets: &[u64; BUCKETS], out: &mut Bytes) -> Mem<u128>
    ensures { IfOk result (λ requests. (requests ≡ sum buckets.now)
        × (out.new.items ≡ out.old.items ++ bucket_lines 0 buckets.now 0)) }
{
    let mut requests = 0;
    for at in 0..BUCKETS {
        let count = bucket_at(buckets, at);
        requests += u128::from(count);
        put_bucket(bound_at(at), requests, out)?;
    }
    Ok(requests)
}

/// How many requests counted to a bucket.
fn bucket_at(buckets: &[u64; BUCKETS], at: usize) -> u64
    requires { at < 14 }
    ensures { result ≡ slice_index buckets.now at }
{
    buckets[at]
}

/// The bound of the bucket at a place, in seconds, as the format has it.
fn bound_at(at: usize) -> &'static str
    ensures { result.now ≡ bound_at at }
{
    match at {
        0 => "0.001",
        1 => "0.002",
        2 => "0.005",
        3 => "0.01",
        4 => "0.02",
        5 => "0.05",
        6 => "0.1",
        7 => "0.2",
        8 => "0.5",
        9 => "1",
        10 => "2",
        11 => "5",
        12 => "10",
        _ => "+Inf",
    }
}

/// Puts the sample of a bucket after some bytes.
fn put_bucket(bound: &str, requests: u128, out: &mut Bytes) -> Mem<()>
    ensures { OnOk result (out.new.items ≡ out.old.items ++ bucket_line bound.now requests) }
{
    let name = "linker_request_duration_seconds_bucket";
    put_labelled(name, "le", bound.as_bytes(), requests, out)
}

/// Puts milliseconds after some bytes, in seconds with three decimals.
fn put_seconds(milliseconds: u64, out: &mut Bytes) -> Mem<()>
    ensures { OnOk result (out.new.items ≡ out.old.items ++ seconds_text milliseconds) }
{
    let rest = milliseconds % 1_000;
    let decimals = [
        b'.',
        b'0' + (rest / 100) as u8,
        b'0' + (rest / 10 % 10) as u8,
        b'0' + (rest % 10) as u8,
    ];
    out.extend_from_slice(Buffer::new().format(milliseconds / 1_000).as_bytes())?;
    out.extend_from_slice(&decimals)
}

/// Puts the metrics of the services after some bytes.
#[tactic(auto, unfolding(crate::specs::Metrics::services_text))]
fn put_services(services: &[ServiceCounts<'_>], out: &mut Bytes) -> Mem<()>
    ensures { OnOk result (out.new.items ≡ out.old.items ++ services_text services.now) }
{
    put_head(
        "linker_service_addresses",
        Kind::Gauge,
        "Addresses of a service.",
        out,
    )?;
    put_figures("linker_service_addresses", Figure::Addresses, services, out)?;
    put_head(
        "linker_service_live_addresses",
        Kind::Gauge,
        "Addresses of a service that are alive.",
        out,
    )?;
    put_figures(
        "linker_service_live_addresses",
        Figure::Alive,
        services,
        out,
    )
}

/// Puts a number of each service after some bytes.
fn put_figures(
    name: &str,
    figure: Figure,
    services: &[ServiceCounts<'_>],
    out: &mut Bytes,
) -> Mem<()>
    ensures { OnOk result (out.new.items
        ≡ out.old.items ++ service_lines name.now figure services.now) }
{
    for service in services {
        put_figure(name, figure, service, out)?;
    }
    Ok(())
}

/// Puts a number of a service after some bytes.
fn put_figure(name: &str, figure: Figure, service: &ServiceCounts<'_>, out: &mut Bytes) -> Mem<()>
    ensures { OnOk result (out.new.items
        ≡ out.old.items ++ service_line name.now figure service.now) }
{
    let value = u128::from(figure.of(service));
    put_labelled(name, "service", service.name, value, out)
}
