//! What an exchange was.

use crate::ending::{Answer, Break};
use addr_book::Addr;
use line_base::SocketAddress;
use name_tree::Path;

/// The request line of a head that was read.
#[derive(Clone, Copy)]
pub struct RequestLine<'a> {
    /// The method.
    pub method: &'a [u8],
    /// The target, as received.
    pub target: &'a [u8],
    /// 0 for HTTP/1.0 and 1 for HTTP/1.1.
    pub version: u8,
}

/// What an exchange was, as its line says it. It owns nothing: the head and the path that it names
/// are at hand where an exchange ends.
#[derive(Clone, Copy)]
pub struct Entry<'a> {
    /// When the request's head had been read, in milliseconds since 1970 (UTC). One past the year
    /// 9999 is written as the last millisecond of that year.
    pub moment: u64,
    /// The client's address, if it is known.
    pub client: Option<SocketAddress>,
    /// The request line, if a head was read.
    pub request: Option<RequestLine<'a>>,
    /// What the client was answered.
    pub answer: Answer,
    /// How many bytes of the reply's content went back.
    pub bytes: u64,
    /// How many milliseconds passed from `moment` to the reply's end.
    pub milliseconds: u64,
    /// The path that the request was identified as, if it was.
    pub name: Option<&'a Path>,
    /// The address of the replica that was tried last, if one was.
    pub replica: Option<Addr>,
    /// What cut the exchange off, if something did.
    pub broken: Option<Break>,
}
