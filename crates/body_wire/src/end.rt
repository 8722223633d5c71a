//! Why a body was not passed on whole.

use thiserror::Error;

/// Why a body was not passed on, or read, to its end.
#[derive(Clone, Copy, Debug, PartialEq, Eq, Error)]
pub enum BodyEnd {
    /// It is badly chunked behind so many bytes of content: no chunk line, or one of more than
    /// 4,096 bytes; other bytes than CR LF behind a chunk's content; trailers of more than 65,536
    /// bytes.
    #[error("the body is badly chunked behind {0} bytes of content")]
    BadChunk(u64),
    /// The connection that it comes from ended inside it.
    #[error("the connection ended inside the body")]
    Cut,
    /// It has more content than the limit allows.
    #[error("the body is too long")]
    TooLong,
    /// The peer's count of read faults rose.
    #[error("a read failed")]
    ReadFault,
    /// The peer's count of write faults rose.
    #[error("a write failed")]
    WriteFault,
    /// The dialer's count of faults rose in a send.
    #[error("a send failed")]
    SendFault,
    /// The dialer's count of faults rose in a receive.
    #[error("a receive failed")]
    RecvFault,
    /// There was no memory for what goes on in one piece.
    #[error("out of memory")]
    OutOfMemory,
}
