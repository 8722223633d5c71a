//! Requests of namerd's interface on one router, one after the other, each with its whole reply.
use crate::rows::{BAD_DTAB, BAD_NAME, BAD_PATH, DONE, Exchange, MISSING, READ_ONLY, play};
use api_sessions::Which::Namerd;
use std::test::Fail;

/// The reply where the table has version 2, and another was expected.
const STALE_AT_2: &str =
    "412 Precondition Failed\r\nETag: \"2\"\r\nContent-Type: text/plain\r\nContent-Length: 6\r\n\
        \r\nstale\n";

/// The reply to a method that no table takes.
const BAD_METHOD: &str = "405 Method Not Allowed\r\nAllow: GET, HEAD, POST, PUT, DELETE\r\n\
        Content-Type: text/plain\r\nContent-Length: 7\r\n\r\nmethod\n";

const ROWS: [Exchange; 40] = [
    // A table is made once.
    Exchange(
        Namerd,
        "POST /api/1/dtabs/web",
        "",
        "/svc => /a",
        "204 No Content\r\nETag: \"1\"\r\n\r\n",
    ),
    Exchange(
        Namerd,
        "POST /api/1/dtabs/web",
        "",
        "/svc => /a",
        "409 Conflict\r\nETag: \"1\"\r\nContent-Type: text/plain\r\nContent-Length: 7\r\n\r\n\
            exists\n",
    ),
    Exchange(
        Namerd,
        "GET /api/1/dtabs",
        "",
        "",
        "200 OK\r\nContent-Type: application/json\r\nContent-Length: 7\r\n\r\n[\"web\"]",
    ),
    Exchange(
        Namerd,
        "HEAD /api/1/dtabs",
        "",
        "",
        "200 OK\r\nContent-Type: application/json\r\nContent-Length: 7\r\n\r\n",
    ),
    // The path is tested before the method, the method before the name, the name before the body,
    // and the body before the state.
    Exchange(Namerd, "PATCH /api/1/dtab", "", "", BAD_PATH),
    Exchange(
        Namerd,
        "HEAD /api/1/dtabs/web/x",
        "",
        "",
        "404 Not Found\r\nContent-Type: text/plain\r\nContent-Length: 5\r\n\r\n",
    ),
    Exchange(Namerd, "GET /admin/ping", "", "", BAD_PATH),
    Exchange(Namerd, "PATCH /api/1/dtabs/web", "", "", BAD_METHOD),
    Exchange(Namerd, "PATCH /api/1/dtabs/", "", "", BAD_METHOD),
    Exchange(Namerd, "POST /api/1/dtabs", "", "", READ_ONLY),
    Exchange(Namerd, "POST /api/1/dtabs/", "", "/svc =>", BAD_NAME),
    Exchange(Namerd, "GET /api/1/dtabs/a%62", "", "", BAD_NAME),
    Exchange(Namerd, "POST /api/1/dtabs/web", "", "/svc =>", BAD_DTAB),
    // What is refused alters nothing.
    Exchange(
        Namerd,
        "GET /api/1/dtabs/web",
        "",
        "",
        "200 OK\r\nETag: \"1\"\r\nContent-Type: application/json\r\nContent-Length: 30\r\n\r\n\
            [{\"dst\":\"/a\",\"prefix\":\"/svc\"}]",
    ),
    Exchange(Namerd, "POST /api/1/dtabs/other", "", "/svc =>", BAD_DTAB),
    Exchange(Namerd, "GET /api/1/dtabs/other", "", "", MISSING),
    Exchange(
        Namerd,
        "HEAD /api/1/dtabs/other",
        "",
        "",
        "404 Not Found\r\nContent-Type: text/plain\r\nContent-Length: 8\r\n\r\n",
    ),
    // Two editors have version 1: the first puts its table, and the second is told of version 2.
    Exchange(
        Namerd,
        "PUT /api/1/dtabs/web",
        "If-Match: \"1\"\r\n",
        "/svc => /#/io.l5d.fs",
        "204 No Content\r\nETag: \"2\"\r\n\r\n",
    ),
    Exchange(
        Namerd,
        "PUT /api/1/dtabs/web",
        "If-Match: \"1\"\r\n",
        "/svc => /b",
        STALE_AT_2,
    ),
    // A version that is none yet, one that reads otherwise, and a table that is not there.
    Exchange(
        Namerd,
        "PUT /api/1/dtabs/web",
        "If-Match: \"9\"\r\n",
        "",
        STALE_AT_2,
    ),
    Exchange(
        Namerd,
        "PUT /api/1/dtabs/web",
        "If-Match: \"02\"\r\n",
        "",
        STALE_AT_2,
    ),
    Exchange(
        Namerd,
        "PUT /api/1/dtabs/none",
        "If-Match: x\r\n",
        "",
        MISSING,
    ),
    Exchange(
        Namerd,
        "PUT /api/1/dtabs/web",
        "If-Match: 2\r\nIf-Match: 9\r\n",
        "/a",
        BAD_DTAB,
    ),
    // What is refused alters nothing.
    Exchange(
        Namerd,
        "GET /api/1/dtabs/web?x=1",
        "",
        "",
        "200 OK\r\nETag: \"2\"\r\nContent-Type: application/json\r\nContent-Length: 40\r\n\r\n\
            [{\"dst\":\"/#/io.l5d.fs\",\"prefix\":\"/svc\"}]",
    ),
    Exchange(
        Namerd,
        "HEAD /api/1/dtabs/web",
        "Connection: x, Close\r\n",
        "",
        "200 OK\r\nETag: \"2\"\r\nContent-Type: application/json\r\nContent-Length: 40\r\n\
            Connection: close\r\n\r\n",
    ),
    Exchange(
        Namerd,
        "GET http://n/api/1/dtabs/web",
        "Accept: text/html\r\nAccept: text/html, Application/DTAB;q=1\r\n",
        "",
        "200 OK\r\nETag: \"2\"\r\nContent-Type: application/dtab\r\nContent-Length: 18\r\n\r\n\
            /svc=>/#/io.l5d.fs",
    ),
    // A table with escapes, quotation marks and bytes past ASCII goes out as JSON, and comes back
    // the same.
    Exchange(
        Namerd,
        "PUT /api/1/dtabs/web",
        "If-Match: *\r\n",
        "/a\\x22\\xE9/* => 0.5 * /b\\x5c & ! ; / => ~ | $",
        "204 No Content\r\nETag: \"3\"\r\n\r\n",
    ),
    Exchange(
        Namerd,
        "GET /api/1/dtabs/web",
        "",
        "",
        "200 OK\r\nETag: \"3\"\r\nContent-Type: application/json\r\nContent-Length: 88\r\n\r\n\
            [{\"dst\":\"0.5 * /b\\\\x5c & 1 * !\",\"prefix\":\"/a\\\\x22\\\\xe9/*\"},\
            {\"dst\":\"~ | $\",\"prefix\":\"/\"}]",
    ),
    Exchange(
        Namerd,
        "PUT /api/1/dtabs/web",
        "Content-Type: Application/JSON; charset=utf-8\r\n",
        "[{\"dst\":\"0.5 * /b\\\\x5c & 1 * !\",\"prefix\":\"/a\\\\x22\\\\xe9/*\"},{\"prefix\":\" \
            /\\u0020\",\"dst\":\"~ | $\"}]",
        "204 No Content\r\nETag: \"4\"\r\n\r\n",
    ),
    Exchange(
        Namerd,
        "GET /api/1/dtabs/web",
        "Accept: application/dtab\r\n",
        "",
        "200 OK\r\nETag: \"4\"\r\nContent-Type: application/dtab\r\nContent-Length: 43\r\n\r\n\
            /a\\x22\\xe9/*=>0.5 * /b\\x5c & 1 * !;/=>~ | $",
    ),
    // JSON that is no table.
    Exchange(
        Namerd,
        "POST /api/1/dtabs/Other",
        "Content-Type: application/json\r\n",
        "[{\"dst\":\"/a\",\"prefix\":\"/b\",\"x\":1}]",
        BAD_DTAB,
    ),
    Exchange(
        Namerd,
        "POST /api/1/dtabs/Other",
        "Content-Type: application/json\r\n",
        "[{\"dst\":1,\"prefix\":\"/b\"}]",
        BAD_DTAB,
    ),
    Exchange(
        Namerd,
        "POST /api/1/dtabs/Other",
        "Content-Type: application/json\r\n",
        "/svc => /a",
        BAD_DTAB,
    ),
    Exchange(
        Namerd,
        "POST /api/1/dtabs/Other",
        "Content-Type: application/json\r\n",
        "[]",
        "204 No Content\r\nETag: \"5\"\r\n\r\n",
    ),
    Exchange(
        Namerd,
        "GET /api/1/dtabs/Other",
        "Accept: application/dtab\r\n",
        "",
        "200 OK\r\nETag: \"5\"\r\nContent-Type: application/dtab\r\nContent-Length: 0\r\n\r\n",
    ),
    Exchange(
        Namerd,
        "GET /api/1/dtabs",
        "",
        "",
        "200 OK\r\nContent-Type: application/json\r\nContent-Length: 15\r\n\r\n[\"Other\",\"web\"]",
    ),
    // A table is deleted once, and its version does not come again.
    Exchange(
        Namerd,
        "DELETE /api/1/dtabs/web",
        "If-Match: 3\r\n",
        "",
        "412 Precondition Failed\r\nETag: \"4\"\r\nContent-Type: text/plain\r\n\
            Content-Length: 6\r\n\r\nstale\n",
    ),
    Exchange(
        Namerd,
        "DELETE /api/1/dtabs/web",
        "If-Match: \"4\"\r\n",
        "",
        DONE,
    ),
    Exchange(Namerd, "DELETE /api/1/dtabs/web", "", "", MISSING),
    Exchange(
        Namerd,
        "POST /api/1/dtabs/web",
        "",
        "",
        "204 No Content\r\nETag: \"6\"\r\n\r\n",
    ),
];

#[test]
fn tables_are_made_shown_put_and_deleted(rt: HostRuntime) -> Result<(), Fail> {
    play(&rt, rt.alloc(), &ROWS)
}
