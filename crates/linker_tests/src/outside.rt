//! A folder and a net in memory, for a router that serves.
use crate::paired::Paired;
use crate::running::{MemOutside, StillClock, append, no_input, run_words, sink, source};
use line_base::{DialEvent, Event, Listener, Net, Peer};
use line_doubles::{MemAddress, MemDials, MemFile, MemFolder, MemNet, MemPeer, MemVisits};
use line_log::MemJournals;
use linker_commands::Outside;
use std::alloc::{AllocError, AllocGlobal, Global};
use std::fmt::Debug;
use std::process::Abort;
use std::sync::Wait;
use std::sync::atomic::AtomicBool;
use std::thread::Threads;

/// A configuration by which no table names anything, and there is one worker.
pub(crate) const ONE_WORKER: &str = "{\"routers\":[{\"protocol\":\"http\"}],\"workers\":1}";

/// The same, where there are two workers.
pub(crate) const TWO_WORKERS: &str = "{\"routers\":[{\"protocol\":\"http\"}],\"workers\":2}";

/// The line of a service with one address.
pub(crate) const ONE_ADDRESS: &str = "127.0.0.1 9001\n";

/// What a dialer is answered.
pub(crate) const HI: &str = "HTTP/1.1 200 OK\r\nContent-Length: 2\r\n\r\nhi";

/// A vector of this alone.
pub(crate) fn vec_of_one<T: Drop>(alloc: Global, only: T) -> Result<Vec<T>, AllocError> {
    let mut items = Vec::new(alloc);
    items.push(only)?;
    Ok(items)
}

/// A vector of these two.
pub(crate) fn vec_of_two<T: Drop>(
    alloc: Global,
    first: T,
    second: T,
) -> Result<Vec<T>, AllocError> {
    let mut items = Vec::new(alloc);
    items.push(first)?;
    items.push(second)?;
    Ok(items)
}

/// A file of a folder.
pub(crate) fn file(
    alloc: Global,
    folder: &str,
    name: &str,
    text: &str,
) -> Result<MemFile, AllocError> {
    Ok(MemFile::of(
        String::from_str(alloc, folder)?,
        String::from_str(alloc, name)?,
        Vec::from_slice(alloc, text.as_bytes())?,
    ))
}

/// A folder that has these files. The calls whose numbers are in `failing` fail.
fn folder_of_files(
    alloc: Global,
    files: Vec<MemFile>,
    failing: &[u64],
) -> Result<MemFolder, AllocError> {
    let failing = Vec::from_slice(alloc, failing)?;
    Ok(MemFolder::of(alloc, files, failing))
}

/// A folder that has one file. The calls whose numbers are in `failing` fail.
pub(crate) fn folder_of_one(
    alloc: Global,
    folder: &str,
    name: &str,
    text: &str,
    failing: &[u64],
) -> Result<MemFolder, AllocError> {
    let file = file(alloc, folder, name, text)?;
    folder_of_files(alloc, vec_of_one(alloc, file)?, failing)
}

/// A folder with the configuration `conf/c.json`, and the service `web` at `disco`, whose file has
/// these lines. The calls whose numbers are in `failing` fail.
pub(crate) fn folder_with(
    alloc: Global,
    config: &str,
    lines: &str,
    failing: &[u64],
) -> Result<MemFolder, AllocError> {
    let config = file(alloc, "conf", "c.json", config)?;
    let web = file(alloc, "disco", "web", lines)?;
    folder_of_files(alloc, vec_of_two(alloc, config, web)?, failing)
}

/// The same folder, where the service has one address and nothing fails.
pub(crate) fn folder_of(alloc: Global, config: &str) -> Result<MemFolder, AllocError> {
    folder_with(alloc, config, ONE_ADDRESS, &[])
}

/// A client that asks this.
pub(crate) fn asking(alloc: Global, asks: &str) -> Result<MemPeer, AllocError> {
    Ok(MemPeer::of(source(alloc, asks)?, sink(alloc)))
}

/// What a listener of a port tells. The waits whose numbers are in `failing` fail.
pub(crate) fn told<P: Drop>(
    alloc: Global,
    port: u16,
    events: Vec<Event<P>>,
    failing: Vec<u64>,
) -> Result<MemAddress<P>, AllocError> {
    Ok(MemAddress {
        ip: 0x7f00_0001,
        port,
        visits: vec_of_one(alloc, MemVisits { events, failing })?,
    })
}

/// What a listener of a port tells to which this client comes.
pub(crate) fn visited<P: Drop>(
    alloc: Global,
    port: u16,
    client: P,
) -> Result<MemAddress<P>, AllocError> {
    let events = vec_of_one(alloc, Event::Came(client))?;
    told(alloc, port, events, Vec::new(alloc))
}

/// What a listener of the router tells to which a client comes that asks this once another one is
/// read.
pub(crate) fn paired_at<'a>(
    alloc: Global,
    here: &'a AtomicBool,
    there: &'a AtomicBool,
    asks: &str,
) -> Result<MemAddress<Paired<'a>>, AllocError> {
    let client = asking(alloc, asks)?;
    visited(alloc, 4140, Paired::of(here, there, client))
}

/// What a listener of a port tells to which a client comes that asks this.
fn asked_at(alloc: Global, port: u16, asks: &str) -> Result<MemAddress<MemPeer>, AllocError> {
    let client = asking(alloc, asks)?;
    visited(alloc, port, client)
}

/// What listeners tell to which such clients come: to each of these ports one that asks this.
fn all_asked_at(
    alloc: Global,
    clients: &[(u16, &str)],
) -> Result<Vec<MemAddress<MemPeer>>, AllocError> {
    let mut addresses = Vec::new(alloc);
    for (port, asks) in clients {
        addresses.push(asked_at(alloc, *port, asks)?)?;
    }
    Ok(addresses)
}

/// A net in which to each of these ports a client comes that asks this, and whose dialers do these.
pub(crate) fn net_of(
    alloc: Global,
    clients: &[(u16, &str)],
    dials: Vec<MemDials>,
) -> Result<MemNet<MemPeer>, AllocError> {
    let addresses = all_asked_at(alloc, clients)?;
    Ok(MemNet::of(alloc, addresses, dials, Vec::new(alloc)))
}

/// Such a net, whose first dialer is answered twice.
pub(crate) fn net_answered(
    alloc: Global,
    clients: &[(u16, &str)],
) -> Result<MemNet<MemPeer>, AllocError> {
    let dials = dials_of(alloc, &[HI, HI], &[])?;
    net_of(alloc, clients, dials)
}

/// A net with what two listeners tell, whose dialers are not answered.
pub(crate) fn net_of_two<P: Peer + Drop>(
    alloc: Global,
    first: MemAddress<P>,
    second: MemAddress<P>,
) -> Result<MemNet<P>, AllocError> {
    let addresses = vec_of_two(alloc, first, second)?;
    Ok(MemNet::of(alloc, addresses, Vec::new(alloc), Vec::new(alloc)))
}

/// What the dialers of a net do: the one that there is gives these replies. The calls of it whose
/// numbers are in `failing` fail.
pub(crate) fn dials_of(
    alloc: Global,
    replies: &[&str],
    failing: &[u64],
) -> Result<Vec<MemDials>, AllocError> {
    let failing = Vec::from_slice(alloc, failing)?;
    let dials = MemDials {
        replies: owned_replies(alloc, replies)?,
        sizes: Vec::new(alloc),
        failing,
    };
    vec_of_one(alloc, dials)
}

/// These replies, each with its own memory.
fn owned_replies(alloc: Global, replies: &[&str]) -> Result<Vec<Vec<u8>>, AllocError> {
    let mut owned = Vec::new(alloc);
    for reply in replies {
        owned.push(Vec::from_slice(alloc, reply.as_bytes())?)?;
    }
    Ok(owned)
}

/// So many numbers, from 0 on.
pub(crate) fn first_numbers(alloc: Global, count: u64) -> Result<Vec<u64>, AllocError> {
    let mut numbers = Vec::new(alloc);
    for number in 0..count {
        numbers.push(number)?;
    }
    Ok(numbers)
}

/// A client that can be asked what it was answered.
pub(crate) trait Answered {
    fn answers(&self) -> &[u8];
}

impl Answered for MemPeer {
    fn answers(&self) -> &[u8] {
        self.sink().held()
    }
}

impl Answered for Paired<'_> {
    fn answers(&self) -> &[u8] {
        self.client().sink().held()
    }
}

/// Puts what the connections to a net were given behind a text, one after another.
fn append_given<P: Peer + Drop + Answered>(
    text: &mut String,
    net: &MemNet<P>,
) -> Result<(), AllocError> {
    for ended in net.ended() {
        for peer in ended.listener().returned() {
            append(text, peer.answers())?;
        }
    }
    Ok(())
}

/// Puts a line behind a text: how a connection to an address was opened.
fn append_opened(text: &mut String, how: &str, ip: u32, port: u16) -> Result<(), AllocError> {
    write!(text, "{how} {ip:x} {port}\n")
}

/// Puts what a dialer did behind a text: a line where it opened a connection and where it ended
/// one, and the bytes that it sent.
fn append_event(text: &mut String, event: &DialEvent) -> Result<(), AllocError> {
    match event {
        DialEvent::Dialed(ip, port) => append_opened(text, "dial", *ip, *port),
        DialEvent::Sent(piece) => append(text, piece.bytes()),
        DialEvent::Got(_) => Ok(()),
        DialEvent::Hung => text.push_str("hang\n"),
        DialEvent::Resumed(ip, port) => append_opened(text, "resume", *ip, *port),
        DialEvent::Kept => text.push_str("keep\n"),
    }
}

/// Puts what the dialers of a net did behind a text, one after another.
fn append_dialed<P: Peer + Drop>(text: &mut String, net: &MemNet<P>) -> Result<(), AllocError> {
    for ended in net.ended() {
        if let Some(dialer) = ended.dialer() {
            for event in dialer.log() {
                append_event(text, event)?;
            }
        }
    }
    Ok(())
}

/// What the connections to a net were given, and what its dialers did.
fn tell_net<P: Peer + Drop + Answered>(
    alloc: Global,
    net: &MemNet<P>,
) -> Result<(String, String), AllocError> {
    let mut given = String::new(alloc);
    append_given(&mut given, net)?;
    let mut dialed = String::new(alloc);
    append_dialed(&mut dialed, net)?;
    Ok((given, dialed))
}

/// How it was to serve.
pub(crate) struct Outcome {
    written: String,
    status: u8,
    /// What the connections were given, one after another.
    given: String,
    /// What the dialers did, one after another.
    dialed: String,
}

impl Drop for Outcome {
    fn drop(self) {
        let Outcome {
            written,
            status: _,
            given,
            dialed,
        } = self;
        drop(written);
        drop(given);
        drop(dialed);
    }
}

impl Outcome {
    /// What is told of these, and of the net that was served over.
    pub(crate) fn of<P: Peer + Drop + Answered>(
        alloc: Global,
        written: String,
        status: u8,
        net: MemNet<P>,
    ) -> Result<Outcome, AllocError> {
        let told = tell_net(alloc, &net);
        drop(net);
        let (given, dialed) = told?;
        Ok(Outcome {
            written,
            status,
            given,
            dialed,
        })
    }

    /// What is written, and the status.
    pub(crate) fn into_written(self) -> (String, u8) {
        let Outcome {
            written,
            status,
            given,
            dialed,
        } = self;
        drop(given);
        drop(dialed);
        (written, status)
    }

    /// What the connections were given, and the status.
    pub(crate) fn into_given(self) -> (String, u8) {
        let Outcome {
            written,
            status,
            given,
            dialed,
        } = self;
        drop(written);
        drop(dialed);
        (given, status)
    }

    /// What the dialers did, and the status.
    pub(crate) fn into_dialed(self) -> (String, u8) {
        let Outcome {
            written,
            status,
            given,
            dialed,
        } = self;
        drop(written);
        drop(given);
        (dialed, status)
    }
}

/// Asserts how it was to serve: what is written, the status, what the connections were given, and
/// what the dialers did.
pub(crate) fn assert_served<R: Abort, D: Debug>(
    rt: &R,
    outcome: &Outcome,
    wanted: (&str, u8, &str, &str),
    row: &D,
) {
    let seen = (
        outcome.written.as_str(),
        outcome.status,
        outcome.given.as_str(),
        outcome.dialed.as_str(),
    );
    assert_eq!(rt; seen, wanted, "of {row:?}");
}

/// What a router that was to serve has written, its status, and what it left of its outside.
pub(crate) struct Left<N> {
    written: String,
    pub(crate) status: u8,
    net: N,
    pub(crate) journals: MemJournals,
}

impl<N: Drop> Drop for Left<N> {
    fn drop(self) {
        let Left {
            written,
            status: _,
            net,
            journals,
        } = self;
        drop(written);
        drop(net);
        drop(journals);
    }
}

impl<N: Drop> Left<N> {
    /// What is written, the status, and the net.
    pub(crate) fn into_parts(self) -> (String, u8, N) {
        let Left {
            written,
            status,
            net,
            journals,
        } = self;
        drop(journals);
        (written, status, net)
    }
}

/// Serves over a net by the configuration `conf/c.json`.
pub(crate) fn served_over<R: AllocGlobal + Threads + Wait + Sync, N: Net + Drop + Send>(
    rt: &R,
    folder: MemFolder,
    net: N,
) -> Result<Left<N>, AllocError>
where
    <N::L as Listener>::P: Send,
{
    let alloc = rt.alloc();
    logged_over(rt, folder, net, MemJournals::of(alloc, Vec::new(alloc)))
}

/// The same, with an access log over these journals, if it has one.
pub(crate) fn logged_over<R: AllocGlobal + Threads + Wait + Sync, N: Net + Drop + Send>(
    rt: &R,
    folder: MemFolder,
    net: N,
    journals: MemJournals,
) -> Result<Left<N>, AllocError>
where
    <N::L as Listener>::P: Send,
{
    let alloc = rt.alloc();
    let mut outside = Outside {
        folder,
        net,
        clock: StillClock,
        input: no_input(alloc),
        out: sink(alloc),
        journals,
    };
    match run_words(rt, &["serve", "conf/c.json"], &mut outside) {
        Ok((written, status)) => Ok(left_of(outside, written, status)),
        Err(fault) => {
            drop(outside);
            Err(fault)
        }
    }
}

/// What is left of an outside behind a run.
fn left_of<N>(outside: MemOutside<N>, written: String, status: u8) -> Left<N> {
    let Outside {
        folder,
        net,
        clock: _,
        input,
        out,
        journals,
    } = outside;
    drop(folder);
    drop(input);
    drop(out);
    Left {
        written,
        status,
        net,
        journals,
    }
}

/// Serves by the configuration `conf/c.json`.
pub(crate) fn served<R: AllocGlobal + Threads + Wait + Sync, P: Peer + Drop + Send + Answered>(
    rt: &R,
    folder: MemFolder,
    net: MemNet<P>,
) -> Result<Outcome, AllocError> {
    let (written, status, net) = served_over(rt, folder, net)?.into_parts();
    Outcome::of(rt.alloc(), written, status, net)
}

/// Serves by this configuration, where the service `web` at `disco` has one address.
pub(crate) fn served_by<R: AllocGlobal + Threads + Wait + Sync, P: Peer + Drop + Send + Answered>(
    rt: &R,
    config: &str,
    net: MemNet<P>,
) -> Result<Outcome, AllocError> {
    match folder_of(rt.alloc(), config) {
        Ok(folder) => served(rt, folder, net),
        Err(fault) => {
            drop(net);
            Err(fault)
        }
    }
}
