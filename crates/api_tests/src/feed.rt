//! Requests of the feed's interface on one router, beside those that change its tables, each with
//! its whole reply.
use crate::rows::{BAD_NAME, BAD_PATH, DONE, Exchange, READ_ONLY, play};
use api_sessions::Which::{self, Namerd};
use std::test::Fail;

/// The feed of the seventh run.
const FEED: Which = Which::Feed { run: 7 };

const ROWS: [Exchange; 14] = [
    // No such namespace yet, and nothing was changed.
    Exchange(
        FEED,
        "GET /feed/default",
        "",
        "",
        "200 OK\r\nContent-Type: application/json\r\nContent-Length: 19\r\n\r\n\
            {\"place\":0,\"run\":7}",
    ),
    Exchange(
        Namerd,
        "POST /api/1/dtabs/default",
        "",
        "/svc=>/#/io.l5d.fs",
        "204 No Content\r\nETag: \"1\"\r\n\r\n",
    ),
    Exchange(
        FEED,
        "GET /feed/default",
        "",
        "",
        "200 OK\r\nContent-Type: application/json\r\nContent-Length: 59\r\n\r\n\
            {\"dtab\":\"/svc=>/#/io.l5d.fs\",\"place\":1,\"run\":7,\"version\":1}",
    ),
    Exchange(
        FEED,
        "HEAD /feed/default?x",
        "",
        "",
        "200 OK\r\nContent-Type: application/json\r\nContent-Length: 59\r\n\r\n",
    ),
    // A table without rules, and one whose text has a backslash. What was changed elsewhere counts
    // too.
    Exchange(
        Namerd,
        "PUT /api/1/dtabs/default",
        "",
        "",
        "204 No Content\r\nETag: \"2\"\r\n\r\n",
    ),
    Exchange(
        FEED,
        "GET /feed/default",
        "",
        "",
        "200 OK\r\nContent-Type: application/json\r\nContent-Length: 41\r\n\r\n\
            {\"dtab\":\"\",\"place\":2,\"run\":7,\"version\":2}",
    ),
    Exchange(
        Namerd,
        "POST /api/1/dtabs/web",
        "",
        "/a\\x22 => /b",
        "204 No Content\r\nETag: \"3\"\r\n\r\n",
    ),
    Exchange(
        FEED,
        "GET /feed/web",
        "Connection: close\r\n",
        "",
        "200 OK\r\nContent-Type: application/json\r\nContent-Length: 52\r\nConnection: close\r\n\
            \r\n{\"dtab\":\"/a\\\\x22=>/b\",\"place\":3,\"run\":7,\"version\":3}",
    ),
    // A namespace that is gone.
    Exchange(Namerd, "DELETE /api/1/dtabs/default", "", "", DONE),
    Exchange(
        FEED,
        "GET /feed/default",
        "",
        "",
        "200 OK\r\nContent-Type: application/json\r\nContent-Length: 19\r\n\r\n\
            {\"place\":4,\"run\":7}",
    ),
    // The path is tested before the method, and the method before the name.
    Exchange(FEED, "POST /feeds/default", "", "", BAD_PATH),
    Exchange(FEED, "POST /feed/no!name", "", "", READ_ONLY),
    Exchange(FEED, "GET /feed/no!name", "", "", BAD_NAME),
    Exchange(FEED, "GET /feed/", "", "", BAD_NAME),
];

#[test]
fn a_namespace_is_told_as_it_is_at_a_place(rt: HostRuntime) -> Result<(), Fail> {
    play(&rt, rt.alloc(), &ROWS)
}
