//! The metrics as Prometheus scrapes them, of a service with two addresses, one of which is dead
//! until the moment 6,000.
use crate::connections::{Connection, Mem};
use crate::rows::{ADMIN, DONE, Row, play, request};
use crate::wanted::Wanted;
use api_sessions::Which::{self, Namerd};
use std::alloc::Global;
use std::test::Fail;

/// How often the second address fails before a request comes; which interface that goes to, its
/// method and target, and its body; and how its reply begins behind `HTTP/1.1 `, and ends.
struct Scrape(
    usize,
    Which,
    &'static str,
    &'static str,
    &'static str,
    &'static str,
);

impl Row for Scrape {
    fn connection(&self, alloc: Global) -> Mem<Connection> {
        let Scrape(failures, to, asks, body, begin, end) = self;
        let bytes = request(alloc, asks, "", body.as_bytes())?;
        let mut connection = Connection::of(*to, bytes, Wanted::between(*begin, *end));
        connection.failures = *failures;
        Ok(connection)
    }
}

/// The fields of the reply with all metrics, and the first of them.
const FIRST: &str =
    "200 OK\r\nContent-Type: text/plain; version=0.0.4; charset=utf-8\r\nContent-Length: 4949\r\n\
        \r\n# HELP linker_changes_total Changes of tables, services and marks that were \
        accepted.\n# TYPE linker_changes_total counter\nlinker_changes_total 6\n\
        # HELP linker_tables_written_total Tables that were created or put.\n\
        # TYPE linker_tables_written_total counter\nlinker_tables_written_total 0\n\
        # HELP linker_marks Addresses with failures that count against them.\n\
        # TYPE linker_marks gauge\nlinker_marks 1\n# HELP linker_namespaces Namespaces.\n\
        # TYPE linker_namespaces gauge\nlinker_namespaces 0\n# HELP linker_services Services.\n\
        # TYPE linker_services gauge\nlinker_services 1\n# HELP linker_requests_total ";

const ROWS: [Scrape; 6] = [
    Scrape(
        0,
        ADMIN,
        "PUT /api/1/addrs/web",
        "127.0.0.1 1\n127.0.0.1 2\n",
        DONE,
        "",
    ),
    // The clock of the worker gives 5,999, and from the next scrape on 6,000.
    Scrape(
        5,
        ADMIN,
        "GET /admin/metrics/prometheus",
        "",
        FIRST,
        "\nlinker_service_addresses{service=\"web\"} 2\n\
            # HELP linker_service_live_addresses Addresses of a service that are alive.\n\
            # TYPE linker_service_live_addresses gauge\n\
            linker_service_live_addresses{service=\"web\"} 1\n",
    ),
    Scrape(
        0,
        ADMIN,
        "PUT /admin/metrics/prometheus",
        "",
        "405 Method Not Allowed\r\nAllow: GET, HEAD\r\nContent-Type: text/plain\r\n\
            Content-Length: 7\r\n\r\n",
        "\r\n\r\nmethod\n",
    ),
    Scrape(
        0,
        Namerd,
        "GET /admin/metrics/prometheus",
        "",
        "404 Not Found\r\nContent-Type: text/plain\r\nContent-Length: 5\r\n\r\n",
        "\r\n\r\npath\n",
    ),
    Scrape(
        0,
        ADMIN,
        "GET /admin/metrics/prometheus?x=1",
        "",
        FIRST,
        "\nlinker_service_live_addresses{service=\"web\"} 2\n",
    ),
    Scrape(
        0,
        ADMIN,
        "HEAD /admin/metrics/prometheus",
        "",
        "200 OK\r\nContent-Type: text/plain; version=0.0.4; charset=utf-8\r\n\
            Content-Length: 4949\r\n\r\n",
        "Content-Length: 4949\r\n\r\n",
    ),
];

#[test]
fn metrics_are_scraped(rt: HostRuntime) -> Result<(), Fail> {
    play(&rt, rt.alloc(), &ROWS)
}
