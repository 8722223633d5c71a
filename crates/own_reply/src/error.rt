//! Why the router answers a request itself.
ghost use Rattle.std.specs.Prelude.{◌≡◌};

/// Why a request is answered by the router itself: one variant for each text.
#[derive(Clone, Copy, Debug, PartialEq, Eq)]
pub enum OwnError {
    /// 505: the request's version is neither HTTP/1.0 nor HTTP/1.1.
    Version,
    /// 400: the bytes are no request head.
    BadHead,
    /// 431: the head is longer than 65,536 bytes.
    HeadTooLarge,
    /// 501: the method is CONNECT.
    Connect,
    /// 400: the request target is of a form that is not served.
    Target,
    /// 400: the length of the body is in doubt (RFC 9112 section 6.3).
    Length,
    /// 501: a transfer coding other than `chunked`.
    Coding,
    /// 413: the body is longer than is served.
    TooLong,
    /// 400: not exactly one Host field (RFC 9112 section 3.2).
    Host,
    /// 400: the request names no path.
    Unidentified,
    /// 400: the request's own table can't be read.
    Dtab,
    /// 400: the body is badly chunked.
    Body,
    /// 502: no entry binds the path.
    Negative,
    /// 502: the path is bound to `!`.
    Failing,
    /// 502: the path is bound to no address.
    Empty,
    /// 502: the delegation is too deep.
    TooDeep,
    /// 502: the delegation is too wide.
    TooWide,
    /// 502: the address can't be dialled.
    Dial,
    /// 502: the replica gave no reply.
    Upstream,
}

impl OwnError {
    ghost use Rattle.own_reply.specs.Reply.{text_of, status_of, reason_of};

    /// The word that names the refusal in the field `l5d-err` and in the body.
    pub fn text(self) -> &'static str
        ensures { result.now ≡ text_of self }
    {
        match self {
            OwnError::Version => "version",
            OwnError::BadHead => "bad-head",
            OwnError::HeadTooLarge => "head-too-large",
            OwnError::Connect => "connect",
            OwnError::Target => "target",
            OwnError::Length => "length",
            OwnError::Coding => "coding",
            OwnError::TooLong => "too-long",
            OwnError::Host => "host",
            OwnError::Unidentified => "unidentified",
            OwnError::Dtab => "dtab",
            OwnError::Body => "body",
            OwnError::Negative => "negative",
            OwnError::Failing => "failing",
            OwnError::Empty => "empty",
            OwnError::TooDeep => "too-deep",
            OwnError::TooWide => "too-wide",
            OwnError::Dial => "dial",
            OwnError::Upstream => "upstream",
        }
    }

    /// The status code of the reply (RFC 9110 section 15).
    pub fn status(self) -> u16
        ensures { result ≡ status_of self }
    {
        match self {
            OwnError::Version => 505,
            OwnError::HeadTooLarge => 431,
            OwnError::Connect | OwnError::Coding => 501,
            OwnError::TooLong => 413,
            OwnError::BadHead
            | OwnError::Target
            | OwnError::Length
            | OwnError::Host
            | OwnError::Unidentified
            | OwnError::Dtab
            | OwnError::Body => 400,
            OwnError::Negative
            | OwnError::Failing
            | OwnError::Empty
            | OwnError::TooDeep
            | OwnError::TooWide
            | OwnError::Dial
            | OwnError::Upstream => 502,
        }
    }

    /// The reason phrase of the status code.
    pub fn reason(self) -> &'static str
        ensures { result.now ≡ reason_of self }
    {
        match self {
            OwnError::Version => "HTTP Version Not Supported",
            OwnError::HeadTooLarge => "Request Header Fields Too Large",
            OwnError::Connect | OwnError::Coding => "Not Implemented",
            OwnError::TooLong => "Content Too Large",
            OwnError::BadHead
            | OwnError::Target
            | OwnError::Length
            | OwnError::Host
            | OwnError::Unidentified
            | OwnError::Dtab
            | OwnError::Body => "Bad Request",
            OwnError::Negative
            | OwnError::Failing
            | OwnError::Empty
            | OwnError::TooDeep
            | OwnError::TooWide
            | OwnError::Dial
            | OwnError::Upstream => "Bad Gateway",
        }
    }
}
