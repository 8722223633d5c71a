//! What a session is played with.
ghost use Rattle.std.specs.Prelude.{◌≡◌, IfOk};
ghost use Rattle.machine.specs.Code.{change_of};
ghost use Rattle.machine.specs.State.{IsSoundChange};

use addr_book::{AddrList, Name, read_addrs};
use choose_core::Limits;
use dtab_table::read_dtab;
use http_wire::FieldName;
use identifier::{Kind, Rule};
use line_base::{ConnectionPool, Peer, SocketAddress};
use line_doubles::{MemClock, MemDialer, MemPeer, MemSink, MemSource};
use machine::{Change, Settings};
use name_tree::read_path;
use proxy_session::Connection;
use retry_budget::Tries;
use std::alloc::{AllocError, Global};
use std::test::Fail;

/// A value, unless there was no memory for it.
pub(crate) type Mem<T> = Result<T, AllocError>;

/// Bytes of a text.
pub(crate) type Bytes = Vec<u8>;

/// The table of a router whose service `web` is one fixed address.
pub(crate) const FIXED: &str = "/svc/web => /$/inet/127.0.0.1/9001";

/// The table of a router whose services are those of the book.
pub(crate) const BOOK: &str = "/svc => /#/io.l5d.fs";

/// How many calls of each kind move no more bytes than a scene says.
const CALLS: usize = 1000;

/// The pool of a dialer that keeps connections.
const POOL: ConnectionPool = ConnectionPool {
    max_size: 1,
    idle_ms: 0,
};

/// The calls that fail. Those of each kind are counted from 0; a dial, a send and a receive are of
/// one kind.
#[derive(Clone, Copy)]
pub(crate) struct Failing<'a> {
    /// Reads of the client.
    pub(crate) reads: &'a [u64],
    /// Writes to it.
    pub(crate) writes: &'a [u64],
    /// Calls of the dialer.
    pub(crate) dials: &'a [u64],
}

/// No call fails.
pub(crate) const NO_CALL: Failing<'static> = Failing {
    reads: &[],
    writes: &[],
    dials: &[],
};

/// What a session is played with. In the texts `|` is CR LF and `~` is LF.
#[derive(Clone, Copy)]
pub(crate) struct Scene<'a> {
    /// The router's table.
    pub(crate) table: &'a str,
    /// The addresses of the service `web`, a line each.
    pub(crate) addresses: &'a str,
    /// One failure leaves an address out for five seconds, and not only five in a row.
    pub(crate) is_strict: bool,
    /// What the client gives, so often.
    pub(crate) gives: &'a str,
    pub(crate) times: usize,
    /// So many of these bytes come, and then the end.
    pub(crate) until: usize,
    /// The replies of the upstreams, in the order of the dials.
    pub(crate) replies: &'a [&'a str],
    /// The most bytes that a call moves.
    pub(crate) most: usize,
    pub(crate) failing: Failing<'a>,
    /// The dialer keeps connections, and those of its calls that fail and are listed here do so
    /// because they waited for too long. `None` where it keeps none.
    pub(crate) keeping: Option<&'a [u64]>,
    /// The budget of retries that the client's connection has.
    pub(crate) tries: Option<Tries>,
    /// The client's connection says that its listeners are closing from the question of this number
    /// on.
    pub(crate) closing: Option<u64>,
    /// Nothing comes at these questions, where its listeners are open.
    pub(crate) quiet: &'a [u64],
}

impl<'a> Scene<'a> {
    /// A scene in which no call fails and each moves all that it can.
    pub(crate) fn of(table: &'a str, gives: &'a str, replies: &'a [&'a str]) -> Scene<'a> {
        Scene {
            table,
            addresses: "127.0.0.1 9001~",
            is_strict: false,
            gives,
            times: 1,
            until: usize::MAX,
            replies,
            most: usize::MAX,
            failing: NO_CALL,
            closing: None,
            quiet: &[],
            keeping: None,
            tries: None,
        }
    }

    /// The connection to its client.
    pub(crate) fn connection<P: Peer>(&self, peer: P) -> Connection<P>
        ensures { result.served ≡ 0 }
    {
        match self.tries {
            Some(tries) if tries.is_allowed() => Connection::trying(peer, tries),
            _ => Connection::of(peer),
        }
    }

    /// The most bytes of each of the first `calls` calls.
    fn sizes(&self, alloc: Global, calls: usize) -> Mem<Vec<usize>> {
        if self.most == usize::MAX {
            return Ok(Vec::new(alloc));
        }
        Vec::from_elem(alloc, self.most, calls)
    }
}

/// The bytes of a text in which `|` is CR LF and `~` is LF.
pub(crate) fn spelt(alloc: Global, text: &str) -> Mem<Bytes> {
    let mut bytes = Vec::new(alloc);
    for byte in text.as_bytes() {
        match byte {
            b'|' => bytes.extend_from_slice(b"\r\n")?,
            b'~' => bytes.push(b'\n')?,
            other => bytes.push(*other)?,
        }
    }
    Ok(bytes)
}

/// The text that spells some bytes.
pub(crate) fn spelling(alloc: Global, bytes: &[u8]) -> Mem<String> {
    let mut text = String::new(alloc);
    let mut before = 0;
    for byte in bytes {
        match byte {
            b'\r' => {}
            b'\n' => text.push(if before == b'\r' { '|' } else { '~' })?,
            other => text.push(char::from(*other))?,
        }
        before = *byte;
    }
    Ok(text)
}

/// The rule that names a request by its host, behind `/svc`.
pub(crate) fn by_host(alloc: Global) -> Result<Rule, Fail> {
    let prefix = read_path(alloc, b"/svc")?;
    let name = FieldName::of(Vec::from_slice(alloc, b"Host")?);
    Ok(Rule {
        kind: Kind::Token(name),
        prefix,
        clears_context: false,
    })
}

/// The settings of a scene's router.
pub(crate) fn settings(alloc: Global, scene: &Scene<'_>) -> Result<Settings, Fail> {
    Ok(Settings {
        space: Name::of(alloc, b"default")?,
        base: read_dtab(alloc, scene.table.as_bytes())?,
        limits: Limits {
            failures: if scene.is_strict { 1 } else { 5 },
            backoff: 5000,
        },
    })
}

/// The change that gives the service `web` its addresses.
pub(crate) fn addresses(alloc: Global, scene: &Scene<'_>) -> Result<Change, Fail>
    ensures { IfOk result (λ change. IsSoundChange (change_of change)) }
{
    let service = Name::of(alloc, b"web")?;
    let text = spelt(alloc, scene.addresses)?;
    let list: AddrList = read_addrs(alloc, text.as_slice())?;
    Ok(Change::SetAddrs { service, list })
}

/// The bytes that the client of a scene gives.
fn given(alloc: Global, scene: &Scene<'_>) -> Mem<Bytes> {
    let once = spelt(alloc, scene.gives)?;
    let mut gives = Vec::new(alloc);
    for _ in 0..scene.times {
        gives.extend_from_slice(once.as_slice())?;
    }
    gives.truncate(scene.until);
    Ok(gives)
}

/// Where the client of a scene is.
const CLIENT: SocketAddress = SocketAddress {
    ip: 0x7f000001,
    port: 4711,
};

/// The bytes that the client of a scene gives, in its calls.
fn source(alloc: Global, scene: &Scene<'_>) -> Mem<MemSource> {
    let failing = Vec::from_slice(alloc, scene.failing.reads)?;
    let sizes = scene.sizes(alloc, CALLS)?;
    let bytes = given(alloc, scene)?;
    Ok(MemSource::of(bytes, sizes, failing))
}

/// What takes the bytes that it is given.
fn sink(alloc: Global, scene: &Scene<'_>) -> Mem<MemSink> {
    let failing = Vec::from_slice(alloc, scene.failing.writes)?;
    let sizes = scene.sizes(alloc, CALLS)?;
    Ok(MemSink::of(alloc, sizes, failing))
}

/// The client of a scene.
pub(crate) fn client(alloc: Global, scene: &Scene<'_>) -> Mem<MemPeer> {
    let quiet = Vec::from_slice(alloc, scene.quiet)?;
    let sink = sink(alloc, scene)?;
    let source = source(alloc, scene)?;
    let peer = peer_of(source, sink, scene.closing);
    Ok(peer.at(CLIENT).quiet(quiet))
}

/// A peer of both, which says from this question on that its listeners are closing.
fn peer_of(source: MemSource, sink: MemSink, closing: Option<u64>) -> MemPeer {
    match closing {
        Some(question) => MemPeer::closing(source, sink, question),
        None => MemPeer::of(source, sink),
    }
}

/// The replies of the upstreams of a scene.
fn replies(alloc: Global, scene: &Scene<'_>) -> Mem<Vec<Bytes>> {
    let mut replies = Vec::new(alloc);
    for reply in scene.replies {
        replies.push(spelt(alloc, reply)?)?;
    }
    Ok(replies)
}

/// The upstreams of a scene, over connections that are not kept.
fn unkept(alloc: Global, scene: &Scene<'_>) -> Mem<MemDialer> {
    let failing = Vec::from_slice(alloc, scene.failing.dials)?;
    let sizes = scene.sizes(alloc, CALLS)?;
    let replies = replies(alloc, scene)?;
    Ok(MemDialer::of(alloc, replies, sizes, failing))
}

/// The upstreams of a scene.
pub(crate) fn upstreams(alloc: Global, scene: &Scene<'_>) -> Mem<MemDialer> {
    match scene.keeping {
        Some(calls) => {
            let waiting = Vec::from_slice(alloc, calls)?;
            Ok(unkept(alloc, scene)?.keeping(POOL, waiting))
        }
        None => unkept(alloc, scene),
    }
}

/// A clock that stands still.
pub(crate) fn clock(alloc: Global) -> Mem<MemClock> {
    MemClock::of(alloc, vec![in alloc; 1000]?)
}
