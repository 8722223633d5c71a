//! Heads as they come and as they go on, written out here by hand.
use crate::requests::{asked_by, head_of, method_of, reply_head, spelled};
use dtab_table::{Dtab, read_dtab};
use forward::{Going, Mem, back_head, back_head_into, forward_head, forward_head_into};
use http::Method;
use http_wire::{Framing, Head, ReplyHead, reply_framing};
use name_tree::read_path;
use own_reply::Tested;
use std::alloc::Global;
use std::test::Fail;

/// The line of a field.
const LINE: &str = "X: 1\r\n";

/// The request, for how many lines `%` stands, its table, and the front of the head that goes on.
type Row = (&'static str, usize, &'static str, &'static str);

/// Targets, hosts, lengths, tables, and many fields; what Connection fields list, and what never
/// goes on.
static REQUESTS: [Row; 8] = [
    // A table, and a field that the Connection field names.
    (
        "GET /x?y=1 HTTP/1.1|Host: Web|User-Agent: curl/8.5.0|Accept: */*|l5d-dtab: /svc/web => \
            /$/inet/127.0.0.1/9001|Connection: x-gone, keep-alive|X-Gone: 1|X-Kept: 2||",
        0,
        "/svc/web => /$/inet/127.0.0.1/9001",
        "GET /x?y=1 HTTP/1.1|Host: Web|User-Agent: curl/8.5.0|Accept: */*|X-Kept: 2|Via: 1.1 \
            linkerd|l5d-ctx-dtab: /svc/web=>/$/inet/127.0.0.1/9001|",
    ),
    // An absolute target: its authority is the host, whatever the Host field says.
    (
        "GET http://web/x HTTP/1.1|Host: other||",
        0,
        "",
        "GET /x HTTP/1.1|Host: web|Via: 1.1 linkerd|",
    ),
    // HTTP/1.0 goes on as HTTP/1.1, and Via tells; a length that is said three times.
    (
        "POST / HTTP/1.0|host: web|content-length: 007, 7|X: 1|Content-Length: 7||",
        0,
        "",
        "POST / HTTP/1.1|Host: web|X: 1|Content-Length: 7|Via: 1.0 linkerd|",
    ),
    // Many fields.
    (
        "GET / HTTP/1.1|Host: web|%|",
        50,
        "",
        "GET / HTTP/1.1|Host: web|%Via: 1.1 linkerd|",
    ),
    (
        "GET / HTTP/1.1|Host: web|%|",
        700,
        "",
        "GET / HTTP/1.1|Host: web|%Via: 1.1 linkerd|",
    ),
    // Two Connection fields, names in other case, and blanks and empty pieces between them.
    (
        "GET / HTTP/1.1|X-C: 1|Host: web|Connection: ,X-A ,\tx-b|X-a: 2|x-B: 3|X: 4|connection: \
            CLOSE, x-c|X-AB: 5|x: 6||",
        0,
        "",
        "GET / HTTP/1.1|Host: web|X: 4|X-AB: 5|x: 6|Via: 1.1 linkerd|",
    ),
    // What never goes on, named or not, and a received Via.
    (
        "GET / HTTP/1.1|Host: web|Connection: te|TE: trailers|Keep-Alive: timeout=5|\
            Proxy-Connection: close|Trailer: X|Upgrade: h2c|Expect: 100-continue|L5D-Ctx-Dtab: \
            /a=>/b|l5d-dst-service: /a|l5d-dst-client: /b|l5d-dst-residual: /c|Via: 1.1 edge||",
        0,
        "",
        "GET / HTTP/1.1|Host: web|Via: 1.1 edge|Via: 1.1 linkerd|",
    ),
    // A Connection field has no effect on the lines that are written.
    (
        "POST / HTTP/1.1|Via: 1.1 edge|Host: web|Transfer-Encoding: Chunked|Connection: host, \
            transfer-encoding, via, connection||",
        0,
        "",
        "POST / HTTP/1.1|Host: web|Transfer-Encoding: chunked|Via: 1.1 linkerd|",
    ),
];

/// The last lines of each.
const LAST: &str =
    "l5d-dst-service: /svc/web\r\nl5d-dst-client: /$/inet/127.0.0.1/9001\r\nConnection: close\r\n\
        \r\n";

/// Whether a text is made of these two.
fn is_made_of(text: &[u8], front: &[u8], end: &[u8]) -> bool {
    text.starts_with(front)
        && text.ends_with(end)
        && text.len() == front.len().saturating_add(end.len())
}

/// Whether the head of a request goes on this way with this front, as new bytes and in place of
/// others.
fn is_written(alloc: Global, head: &Head, to: &Going<'_>, front: &[u8]) -> Mem<bool> {
    let new = forward_head(alloc, head, to)?;
    let is_new = is_made_of(new.as_slice(), front, LAST.as_bytes());
    drop(new);
    let mut into = Vec::from_slice(alloc, b"old")?;
    forward_head_into(alloc, head, to, &mut into)?;
    Ok(is_new && is_made_of(into.as_slice(), front, LAST.as_bytes()))
}

/// The same to the service `/svc/web` and one address.
fn is_forwarded(
    alloc: Global,
    head: &Head,
    asked: &Tested,
    local: &Dtab,
    front: &[u8],
) -> Result<bool, Fail> {
    let Ok(service) = read_path(alloc, b"/svc/web") else {
        return Err("no path".into());
    };
    let to = Going {
        host: asked.host.as_slice(),
        target: asked.target.line.as_slice(),
        framing: asked.framing,
        local,
        service: &service,
        client: b"/$/inet/127.0.0.1/9001",
        residual: b"/",
        closes: true,
    };
    let is_written = is_written(alloc, head, &to, front);
    drop(service);
    Ok(is_written?)
}

/// The table of a text.
fn table_of(alloc: Global, text: &str) -> Result<Dtab, Fail> {
    match read_dtab(alloc, text.as_bytes()) {
        Ok(dtab) => Ok(dtab),
        Err(_) => Err("no table".into()),
    }
}

/// Whether a request's head goes on with this front, where it has this table.
fn is_forwarded_with(alloc: Global, head: &Head, table: &str, front: &[u8]) -> Result<bool, Fail> {
    let local = table_of(alloc, table)?;
    let asked = match asked_by(alloc, head) {
        Ok(asked) => asked,
        Err(fail) => {
            drop(local);
            return Err(fail);
        }
    };
    let is_forwarded = is_forwarded(alloc, head, &asked, &local, front);
    drop(asked);
    drop(local);
    is_forwarded
}

/// Whether a request goes on as its row says.
fn goes_on(alloc: Global, row: &Row) -> Result<bool, Fail> {
    let (request, count, table, front) = row;
    let front = spelled(alloc, front, LINE, *count)?;
    let head = match head_of(alloc, request, LINE, *count) {
        Ok(head) => head,
        Err(fail) => {
            drop(front);
            return Err(fail);
        }
    };
    let goes_on = is_forwarded_with(alloc, &head, table, front.as_slice());
    drop(head);
    drop(front);
    goes_on
}

#[test]
fn heads_go_on_as_written_here(rt: HostRuntime) -> Result<(), Fail> {
    for row in &REQUESTS {
        assert!(rt; goes_on(rt.alloc(), row)?, "{:?} {}", row.0, row.1);
    }
    Ok(())
}

/// The method, the reply, whether the connection closes, and what goes back.
static REPLIES: [(&str, &str, bool, &str); 7] = [
    (
        "GET",
        "HTTP/1.1 200 OK\r\nContent-Length: 2\r\nServer: t\r\n\r\nhi",
        false,
        "HTTP/1.1 200 OK\r\nServer: t\r\nContent-Length: 2\r\nVia: 1.1 linkerd\r\n\r\n",
    ),
    // What is told of a body that is not sent.
    (
        "HEAD",
        "HTTP/1.1 200 OK\r\nContent-Length: 007, 7\r\nVia: 1.1 edge\r\n\r\n",
        true,
        "HTTP/1.1 200 OK\r\nVia: 1.1 edge\r\nContent-Length: 7\r\nVia: 1.1 linkerd\r\n\
            Connection: close\r\n\r\n",
    ),
    (
        "GET",
        "HTTP/1.1 304 Not Modified\r\ncontent-length: 7\r\n\r\n",
        false,
        "HTTP/1.1 304 Not Modified\r\nContent-Length: 7\r\nVia: 1.1 linkerd\r\n\r\n",
    ),
    (
        "HEAD",
        "HTTP/1.1 204 No Content\r\nContent-Length: 7\r\n\r\n",
        false,
        "HTTP/1.1 204 No Content\r\nVia: 1.1 linkerd\r\n\r\n",
    ),
    // Chunks, to a client that speaks HTTP/1.1 and to one that does not.
    (
        "GET",
        "HTTP/1.1 200 OK\r\nTransfer-Encoding: Chunked\r\nTrailer: X\r\n\r\n",
        false,
        "HTTP/1.1 200 OK\r\nTransfer-Encoding: chunked\r\nVia: 1.1 linkerd\r\n\r\n",
    ),
    (
        "GET",
        "HTTP/1.1 200 OK\r\nTransfer-Encoding: chunked\r\n\r\n",
        true,
        "HTTP/1.1 200 OK\r\nVia: 1.1 linkerd\r\nConnection: close\r\n\r\n",
    ),
    // HTTP/1.0, no reason, a code below 100, a body up to the end, and what a Connection field
    // lists.
    (
        "GET",
        "HTTP/1.0 007\nHost: kept\nConnection: x-a,, X-B\nX-a: 1\nx-b: 2\nX-AB: 3\n\
            L5d-Dtab: /a=>/b\n\n",
        true,
        "HTTP/1.1 007 \r\nHost: kept\r\nX-AB: 3\r\nL5d-Dtab: /a=>/b\r\nVia: 1.0 linkerd\r\n\
            Connection: close\r\n\r\n",
    ),
];

/// Whether a reply's head goes back as these bytes, as new ones and in place of others; chunks stay
/// chunks to a client that keeps its connection.
fn is_returned(
    alloc: Global,
    head: &ReplyHead,
    framing: Framing,
    closing: bool,
    back: &[u8],
) -> Mem<bool> {
    let new = back_head(alloc, head, framing, !closing, closing)?;
    let is_new = new.as_slice() == back;
    drop(new);
    let mut into = Vec::from_slice(alloc, b"old")?;
    back_head_into(alloc, head, framing, !closing, closing, &mut into)?;
    Ok(is_new && into.as_slice() == back)
}

/// Whether it goes back so to a request with this method.
fn is_returned_to(
    alloc: Global,
    method: &Method,
    head: &ReplyHead,
    closing: bool,
    back: &[u8],
) -> Result<bool, Fail> {
    match reply_framing(method, head) {
        Ok(framing) => Ok(is_returned(alloc, head, framing, closing, back)?),
        Err(_) => Err("no framing".into()),
    }
}

/// The same of the texts of the method and the reply.
fn goes_back(
    alloc: Global,
    method: &str,
    reply: &str,
    closing: bool,
    back: &str,
) -> Result<bool, Fail> {
    let method = method_of(alloc, method)?;
    let head = match reply_head(alloc, reply) {
        Ok(head) => head,
        Err(fail) => {
            drop(method);
            return Err(fail);
        }
    };
    let goes_back = is_returned_to(alloc, &method, &head, closing, back.as_bytes());
    drop(head);
    drop(method);
    goes_back
}

#[test]
fn heads_of_replies_go_back_as_written_here(rt: HostRuntime) -> Result<(), Fail> {
    for (method, reply, closing, back) in &REPLIES {
        let goes_back = goes_back(rt.alloc(), method, reply, *closing, back)?;
        assert!(rt; goes_back, "{reply:?}");
    }
    Ok(())
}
