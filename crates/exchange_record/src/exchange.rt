//! One exchange.

use exchange_tally::Done;
use http_wire::Head;
use line_base::SocketAddress;
use name_tree::Path;

/// One exchange, once it has ended.
#[derive(Clone, Copy)]
pub struct Exchange<'a> {
    /// The client's address, if it is known.
    pub client: Option<SocketAddress>,
    /// The head of its request, if one was read.
    pub head: Option<&'a Head>,
    /// The path that its request was identified as, if it was.
    pub name: Option<&'a Path>,
    /// What it was, in numbers.
    pub done: Done,
}
