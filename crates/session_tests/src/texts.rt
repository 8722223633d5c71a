//! Texts that several tests have. In them `|` is CR LF and `~` is LF.

/// A request, of 29 bytes.
pub(crate) const GET: &str = "GET / HTTP/1.1|Host: web||";

/// Its lines, and those of one with a body.
pub(crate) const GET_LINES: &str = "GET / HTTP/1.1|Host: web|";

pub(crate) const POST_LINES: &str = "POST / HTTP/1.1|Host: web|";

/// The line of a body in chunks.
pub(crate) const CHUNKED: &str = "Transfer-Encoding: chunked|";

/// What the router adds to a head that goes on to the one replica of `web`, and the same with the
/// end of a head behind which the connection closes.
pub(crate) const TO_WEB: &str =
    "Via: 1.1 linkerd|l5d-dst-service: /svc/web|l5d-dst-client: /$/inet/127.0.0.1/9001|";

pub(crate) const ON: &str = "Via: 1.1 linkerd|l5d-dst-service: /svc/web|\
    l5d-dst-client: /$/inet/127.0.0.1/9001|Connection: close||";

/// A request with fields that go on and others, and what is sent of it.
pub(crate) const FIELDS: &str = "GET /x?y=1 HTTP/1.1|Host: Web|User-Agent: curl/8.5.0|Accept: */*|\
    l5d-dtab: /svc/web => /$/inet/127.0.0.1/9001|Connection: x-gone, keep-alive|X-Gone: 1|\
    X-Kept: 2||";

pub(crate) const SENT_FIELDS: &str =
    "<GET /x?y=1 HTTP/1.1|Host: Web|User-Agent: curl/8.5.0|Accept: */*|\
    X-Kept: 2|Via: 1.1 linkerd|l5d-ctx-dtab: /svc/web=>/$/inet/127.0.0.1/9001|\
    l5d-dst-service: /svc/web|l5d-dst-client: /$/inet/127.0.0.1/9001|Connection: close||>";

/// Two requests.
pub(crate) const TWO: &str = "GET / HTTP/1.1|Host: web||GET / HTTP/1.1|Host: web||";

/// A reply, of 40 bytes, and what goes back for it.
pub(crate) const REPLY: &str = "HTTP/1.1 200 OK|Content-Length: 2||hi";

pub(crate) const WRITTEN: &str = "HTTP/1.1 200 OK|Content-Length: 2|Via: 1.1 linkerd||hi";

/// One without a body, and what goes back for it.
pub(crate) const EMPTY: &str = "HTTP/1.1 200 OK|Content-Length: 0||";

pub(crate) const WRITTEN_EMPTY: &str = "HTTP/1.1 200 OK|Content-Length: 0|Via: 1.1 linkerd||";

/// What the heads of replies begin with, and what those of refusals do.
pub(crate) const OK: &str = "HTTP/1.1 200 OK|";

pub(crate) const BAD_REQUEST: &str = "HTTP/1.1 400 Bad Request|Content-Type: text/plain|l5d-err: ";

pub(crate) const NOT_IMPLEMENTED: &str =
    "HTTP/1.1 501 Not Implemented|Content-Type: text/plain|l5d-err: ";

pub(crate) const BAD_GATEWAY: &str = "HTTP/1.1 502 Bad Gateway|Content-Type: text/plain|l5d-err: ";

/// What they end with, and what those do behind which the connection closes.
pub(crate) const VIA: &str = "Via: 1.1 linkerd||";

pub(crate) const CLOSE: &str = "Connection: close||";

/// The refusals where a replica could not be dialled, and where it gave no reply.
pub(crate) const DIAL: &str = "HTTP/1.1 502 Bad Gateway|Content-Type: text/plain|l5d-err: dial|\
    Content-Length: 5||dial~";

pub(crate) const UPSTREAM: &str = "HTTP/1.1 502 Bad Gateway|Content-Type: text/plain|\
    l5d-err: upstream|Content-Length: 9||upstream~";

/// The refusal where there is no replica, and the one behind which the connection closes.
pub(crate) const NEGATIVE: &str = "HTTP/1.1 502 Bad Gateway|Content-Type: text/plain|\
    l5d-err: negative|Content-Length: 9||negative~";

pub(crate) const LAST_NEGATIVE: &str = "HTTP/1.1 502 Bad Gateway|Content-Type: text/plain|\
    l5d-err: negative|Content-Length: 9|Connection: close||negative~";
