//! All metrics of a router, as Prometheus's text format (0.0.4) has them.

use metrics_text::{Classes, Counts, Durations, OwnReplies, ServiceCounts, write_metrics};
use std::alloc::{AllocError, Global};
use std::test::Fail;

/// Counts of which each has a number of its own.
const COUNTS: Counts = Counts {
    changes: 5,
    tables_written: 4,
    marks: 1,
    namespaces: 3,
    services: 2,
    requests: Classes {
        success: 10,
        redirection: 11,
        client_error: 12,
        server_error: 13,
        other: 14,
        no_reply: 15,
    },
    own_replies: OwnReplies {
        version: 100,
        bad_head: 101,
        head_too_large: 102,
        connect: 103,
        target: 104,
        length: 105,
        coding: 106,
        too_long: 107,
        host: 108,
        body: 109,
        unidentified: 110,
        dtab: 111,
        negative: 112,
        failing: 113,
        empty: 114,
        too_deep: 115,
        too_wide: 116,
        dial: 117,
        upstream: 118,
    },
    tries: 20,
    failures: 21,
    accepted: 30,
    open: 31,
    waiting: 32,
    request_bytes: 40,
    reply_bytes: 41,
    durations: Durations {
        buckets: [1, 0, 2, 0, 0, 3, 0, 0, 0, 0, 0, 4, 0, 5],
        milliseconds: 12_034,
    },
    hits: 51,
    misses: 52,
    kept: 53,
    log_lines: 60,
    lost_lines: 61,
};

const SERVICES: [ServiceCounts<'static>; 2] = [
    ServiceCounts {
        name: b"web",
        addresses: 3,
        alive: 2,
    },
    ServiceCounts {
        name: b"a\"b\\c\nd",
        addresses: 18_446_744_073_709_551_615,
        alive: 0,
    },
];

/// Their text.
const TEXT: &str = "\
    # HELP linker_changes_total Changes of tables, services and marks that were accepted.\n\
    # TYPE linker_changes_total counter\n\
    linker_changes_total 5\n\
    # HELP linker_tables_written_total Tables that were created or put.\n\
    # TYPE linker_tables_written_total counter\n\
    linker_tables_written_total 4\n\
    # HELP linker_marks Addresses with failures that count against them.\n\
    # TYPE linker_marks gauge\n\
    linker_marks 1\n\
    # HELP linker_namespaces Namespaces.\n\
    # TYPE linker_namespaces gauge\n\
    linker_namespaces 3\n\
    # HELP linker_services Services.\n\
    # TYPE linker_services gauge\n\
    linker_services 2\n\
    # HELP linker_requests_total Requests that ended, by the class of their reply's status.\n\
    # TYPE linker_requests_total counter\n\
    linker_requests_total{class=\"2xx\"} 10\n\
    linker_requests_total{class=\"3xx\"} 11\n\
    linker_requests_total{class=\"4xx\"} 12\n\
    linker_requests_total{class=\"5xx\"} 13\n\
    linker_requests_total{class=\"other\"} 14\n\
    linker_requests_total{class=\"none\"} 15\n\
    # HELP linker_own_replies_total Replies of the router's own, by their word.\n\
    # TYPE linker_own_replies_total counter\n\
    linker_own_replies_total{reason=\"version\"} 100\n\
    linker_own_replies_total{reason=\"bad-head\"} 101\n\
    linker_own_replies_total{reason=\"head-too-large\"} 102\n\
    linker_own_replies_total{reason=\"connect\"} 103\n\
    linker_own_replies_total{reason=\"target\"} 104\n\
    linker_own_replies_total{reason=\"length\"} 105\n\
    linker_own_replies_total{reason=\"coding\"} 106\n\
    linker_own_replies_total{reason=\"too-long\"} 107\n\
    linker_own_replies_total{reason=\"host\"} 108\n\
    linker_own_replies_total{reason=\"body\"} 109\n\
    linker_own_replies_total{reason=\"unidentified\"} 110\n\
    linker_own_replies_total{reason=\"dtab\"} 111\n\
    linker_own_replies_total{reason=\"negative\"} 112\n\
    linker_own_replies_total{reason=\"failing\"} 113\n\
    linker_own_replies_total{reason=\"empty\"} 114\n\
    linker_own_replies_total{reason=\"too-deep\"} 115\n\
    linker_own_replies_total{reason=\"too-wide\"} 116\n\
    linker_own_replies_total{reason=\"dial\"} 117\n\
    linker_own_replies_total{reason=\"upstream\"} 118\n\
    # HELP linker_tries_total Tries of replicas.\n\
    # TYPE linker_tries_total counter\n\
    linker_tries_total 20\n\
    # HELP linker_failures_reported_total Failures of replicas that were reported.\n\
    # TYPE linker_failures_reported_total counter\n\
    linker_failures_reported_total 21\n\
    # HELP linker_connections_accepted_total Connections of clients that were accepted.\n\
    # TYPE linker_connections_accepted_total counter\n\
    linker_connections_accepted_total 30\n\
    # HELP linker_connections_open Connections of clients that are open.\n\
    # TYPE linker_connections_open gauge\n\
    linker_connections_open 31\n\
    # HELP linker_connections_waiting Connections of clients that wait for their next request.\n\
    # TYPE linker_connections_waiting gauge\n\
    linker_connections_waiting 32\n\
    # HELP linker_request_body_bytes_total Bytes of requests' bodies that went on to replicas.\n\
    # TYPE linker_request_body_bytes_total counter\n\
    linker_request_body_bytes_total 40\n\
    # HELP linker_reply_body_bytes_total Bytes of replies' bodies that went back to clients.\n\
    # TYPE linker_reply_body_bytes_total counter\n\
    linker_reply_body_bytes_total 41\n\
    # HELP linker_delegation_hits_total Asks for which a delegation was kept.\n\
    # TYPE linker_delegation_hits_total counter\n\
    linker_delegation_hits_total 51\n\
    # HELP linker_delegation_misses_total Asks for which no delegation was kept.\n\
    # TYPE linker_delegation_misses_total counter\n\
    linker_delegation_misses_total 52\n\
    # HELP linker_delegations_kept Delegations that are kept.\n\
    # TYPE linker_delegations_kept gauge\n\
    linker_delegations_kept 53\n\
    # HELP linker_access_log_lines_total Lines that were written to the access log.\n\
    # TYPE linker_access_log_lines_total counter\n\
    linker_access_log_lines_total 60\n\
    # HELP linker_access_log_lost_lines_total Lines that could not be written to the access log.\n\
    # TYPE linker_access_log_lost_lines_total counter\n\
    linker_access_log_lost_lines_total 61\n\
    # HELP linker_request_duration_seconds How long requests took, until the end of their reply.\n\
    # TYPE linker_request_duration_seconds histogram\n\
    linker_request_duration_seconds_bucket{le=\"0.001\"} 1\n\
    linker_request_duration_seconds_bucket{le=\"0.002\"} 1\n\
    linker_request_duration_seconds_bucket{le=\"0.005\"} 3\n\
    linker_request_duration_seconds_bucket{le=\"0.01\"} 3\n\
    linker_request_duration_seconds_bucket{le=\"0.02\"} 3\n\
    linker_request_duration_seconds_bucket{le=\"0.05\"} 6\n\
    linker_request_duration_seconds_bucket{le=\"0.1\"} 6\n\
    linker_request_duration_seconds_bucket{le=\"0.2\"} 6\n\
    linker_request_duration_seconds_bucket{le=\"0.5\"} 6\n\
    linker_request_duration_seconds_bucket{le=\"1\"} 6\n\
    linker_request_duration_seconds_bucket{le=\"2\"} 6\n\
    linker_request_duration_seconds_bucket{le=\"5\"} 10\n\
    linker_request_duration_seconds_bucket{le=\"10\"} 10\n\
    linker_request_duration_seconds_bucket{le=\"+Inf\"} 15\n\
    linker_request_duration_seconds_sum 12.034\n\
    linker_request_duration_seconds_count 15\n\
    # HELP linker_service_addresses Addresses of a service.\n\
    # TYPE linker_service_addresses gauge\n\
    linker_service_addresses{service=\"web\"} 3\n\
    linker_service_addresses{service=\"a\\\"b\\\\c\\nd\"} 18446744073709551615\n\
    # HELP linker_service_live_addresses Addresses of a service that are alive.\n\
    # TYPE linker_service_live_addresses gauge\n\
    linker_service_live_addresses{service=\"web\"} 2\n\
    linker_service_live_addresses{service=\"a\\\"b\\\\c\\nd\"} 0\n";

/// The text that is written of the counts, in a buffer that held something else.
fn text_of(alloc: Global) -> Result<Vec<u8>, AllocError> {
    let mut text = Vec::from_slice(alloc, b"earlier")?;
    write_metrics(&COUNTS, &SERVICES, &mut text)?;
    Ok(text)
}

#[test]
fn the_text_is_as_written_here(rt: HostRuntime) -> Result<(), Fail> {
    let text = text_of(rt.alloc())?;
    assert!(rt; text.as_slice() == TEXT.as_bytes());
    Ok(())
}
