//! Requests of the admin interface on one router, one after the other, each with its whole reply.
use crate::rows::{ADMIN, BAD_NAME, BAD_PATH, DONE, Exchange, MISSING, READ_ONLY, play};
use api_sessions::Which::{self, Namerd};
use std::test::Fail;

/// The reply where a query asks for no view.
const BAD_VIEW: &str =
    "400 Bad Request\r\nContent-Type: text/plain\r\nContent-Length: 5\r\n\r\nview\n";

const ROWS: [Exchange; 31] = [
    Exchange(
        ADMIN,
        "GET /admin/ready",
        "",
        "",
        "200 OK\r\nContent-Type: text/plain\r\nContent-Length: 6\r\n\r\nready\n",
    ),
    Exchange(
        Which::Admin { ready: false },
        "GET /admin/ready",
        "",
        "",
        "503 Service Unavailable\r\nContent-Type: text/plain\r\nContent-Length: 10\r\n\r\n\
            not-ready\n",
    ),
    Exchange(
        ADMIN,
        "GET /admin/ping",
        "",
        "",
        "200 OK\r\nContent-Type: text/plain\r\nContent-Length: 5\r\n\r\npong\n",
    ),
    Exchange(
        ADMIN,
        "HEAD /admin/ping?x",
        "",
        "",
        "200 OK\r\nContent-Type: text/plain\r\nContent-Length: 5\r\n\r\n",
    ),
    Exchange(ADMIN, "PUT /admin/ping", "", "", READ_ONLY),
    Exchange(ADMIN, "GET /api/1/dtabs", "", "", BAD_PATH),
    // The addresses of a service come back as they were put, each once, with their weights.
    Exchange(ADMIN, "GET /api/1/addrs/web", "", "", MISSING),
    Exchange(
        ADMIN,
        "HEAD /api/1/addrs/web",
        "",
        "",
        "404 Not Found\r\nContent-Type: text/plain\r\nContent-Length: 8\r\n\r\n",
    ),
    Exchange(
        ADMIN,
        "PUT /api/1/addrs/web",
        "",
        "127.0.0.1 1 *3\n\nlocalhost 2\n127.0.0.1 1\n",
        DONE,
    ),
    Exchange(
        ADMIN,
        "GET /admin/metrics.json",
        "",
        "",
        "200 OK\r\nContent-Type: application/json\r\nContent-Length: 51\r\n\r\n\
            {\"changes\":1,\"marks\":0,\"namespaces\":0,\"services\":1}",
    ),
    Exchange(
        ADMIN,
        "HEAD /admin/metrics.json",
        "",
        "",
        "200 OK\r\nContent-Type: application/json\r\nContent-Length: 51\r\n\r\n",
    ),
    Exchange(
        ADMIN,
        "GET /api/1/addrs/web",
        "",
        "",
        "200 OK\r\nContent-Type: text/plain\r\nContent-Length: 28\r\n\r\n127.0.0.1 1 * 3\n\
            127.0.0.1 2\n",
    ),
    Exchange(
        ADMIN,
        "PUT /api/1/addrs/web",
        "",
        "127.0.0.1 1 * 3\n127.0.0.1 2\n",
        DONE,
    ),
    Exchange(
        ADMIN,
        "HEAD /api/1/addrs/web",
        "",
        "",
        "200 OK\r\nContent-Type: text/plain\r\nContent-Length: 28\r\n\r\n",
    ),
    Exchange(ADMIN, "PUT /api/1/addrs/none", "", "", DONE),
    Exchange(
        ADMIN,
        "GET /api/1/addrs/none",
        "",
        "",
        "200 OK\r\nContent-Type: text/plain\r\nContent-Length: 0\r\n\r\n",
    ),
    // What is refused alters nothing.
    Exchange(
        ADMIN,
        "PUT /api/1/addrs/web",
        "",
        "127.0.0.1 1\n127.0.0.1",
        "400 Bad Request\r\nContent-Type: text/plain\r\nContent-Length: 6\r\n\r\naddrs\n",
    ),
    Exchange(
        ADMIN,
        "POST /api/1/addrs/web",
        "",
        "",
        "405 Method Not Allowed\r\nAllow: GET, HEAD, PUT, DELETE\r\nContent-Type: text/plain\r\n\
            Content-Length: 7\r\n\r\nmethod\n",
    ),
    Exchange(ADMIN, "DELETE /api/1/addrs/a%20b", "", "", BAD_NAME),
    Exchange(
        ADMIN,
        "GET /api/1/addrs/web",
        "",
        "",
        "200 OK\r\nContent-Type: text/plain\r\nContent-Length: 28\r\n\r\n127.0.0.1 1 * 3\n\
            127.0.0.1 2\n",
    ),
    Exchange(ADMIN, "DELETE /api/1/addrs/none", "", "", DONE),
    Exchange(ADMIN, "DELETE /api/1/addrs/none", "", "", MISSING),
    // How a path is delegated, by the table of the router's namespace and by one in the query.
    Exchange(
        Namerd,
        "POST /api/1/dtabs/default",
        "",
        "/svc => /$/inet/127.0.0.1/8080",
        "204 No Content\r\nETag: \"1\"\r\n\r\n",
    ),
    Exchange(
        ADMIN,
        "GET /delegator.json?x=1&path=/svc/a&path=b",
        "",
        "",
        "200 OK\r\nContent-Type: application/json\r\nContent-Length: 141\r\n\r\n\
            {\"lookups\":[{\"depth\":0,\"outcome\":\"bound\",\"path\":\"/svc/a\"},{\"depth\":1,\
            \"outcome\":\"bound\",\"path\":\"/$/inet/127.0.0.1/8080/a\"}],\"outcome\":\"bound\"}",
    ),
    Exchange(
        ADMIN,
        "HEAD /delegator.json?path=/svc/a",
        "",
        "",
        "200 OK\r\nContent-Type: application/json\r\nContent-Length: 141\r\n\r\n",
    ),
    Exchange(
        ADMIN,
        "GET /delegator.json?path=%2Fs&dtab=/s+%3D%3E+!",
        "",
        "",
        "200 OK\r\nContent-Type: application/json\r\nContent-Length: 77\r\n\r\n\
            {\"lookups\":[{\"depth\":0,\"outcome\":\"failing\",\"path\":\"/s\"}],\
            \"outcome\":\"failing\"}",
    ),
    Exchange(ADMIN, "GET /delegator.json?dtab=", "", "", BAD_VIEW),
    Exchange(
        ADMIN,
        "GET /delegator.json?path=/s&dtab=/s",
        "",
        "",
        BAD_VIEW,
    ),
    Exchange(ADMIN, "POST /delegator.json?path=/s", "", "", READ_ONLY),
    Exchange(
        ADMIN,
        "GET /admin/shutdown",
        "",
        "",
        "405 Method Not Allowed\r\nAllow: POST\r\nContent-Type: text/plain\r\n\
            Content-Length: 7\r\n\r\nmethod\n",
    ),
    Exchange(
        ADMIN,
        "POST /admin/shutdown",
        "",
        "",
        "200 OK\r\nContent-Type: text/plain\r\nContent-Length: 4\r\nConnection: close\r\n\r\nbye\n",
    ),
];

#[test]
fn services_views_and_counts_are_told(rt: HostRuntime) -> Result<(), Fail> {
    play(&rt, rt.alloc(), &ROWS)
}
