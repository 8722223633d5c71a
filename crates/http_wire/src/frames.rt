//! The kinds of framing.

use thiserror::Error;

/// How the bytes behind a head become a body.
#[derive(Clone, Copy, Debug, PartialEq, Eq)]
pub enum Framing {
    /// There is no body.
    Nothing,
    /// So many bytes, below 2^63.
    Length(u64),
    /// Chunks, up to the last one and the trailers (RFC 9112 section 7.1).
    Chunked,
    /// All bytes up to the end of the connection. No request has it.
    ToEnd,
}

/// Why the framing of a body is refused.
#[derive(Clone, Copy, Debug, PartialEq, Eq, Error)]
pub enum FramingFault {
    /// Where the body ends is in doubt.
    #[error("the length of the body is in doubt")]
    Length,
    /// A transfer coding other than `chunked` alone.
    #[error("a transfer coding other than chunked")]
    Coding,
}
