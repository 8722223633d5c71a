//! What a path names by itself, without a table.
ghost use Rattle.std.specs.Prelude.{◌≡◌, ◌≤◌, length, take, drop, Option, IfOk, OnErr, OnSome};
ghost use Rattle.std.specs.Prelude.{IsSome, option_map};
ghost use Rattle.addr_book.specs.declared.leaf.Cluster.TheVariants.{Inet, Fs};
ghost use Rattle.addr_book.specs.Namer.{leaf_at, named_addr, named_service, named_in};

use crate::Mem;
use crate::addr::Addr;
use crate::book::Book;
use crate::host::{read_ip, read_port};
use crate::leaf::{Cluster, Leaf};
use crate::name::Name;
use name_tree::Path;
use std::alloc::Global;

/// How many labels name an address: `$`, `inet`, the host and the port.
const INET_LABELS: usize = 4;

/// How many labels name a service: `#`, `io.l5d.fs` and the service.
const FS_LABELS: usize = 3;

/// The leaf that a path names by itself (Finagle user guide, "Names and Naming in Finagle").
/// `/$/inet/HOST/PORT` is an address, where HOST and PORT are as [`read_ip`] and [`read_port`] have
/// them. `/#/io.l5d.fs/SERVICE` is the service of the book with that name, whether it has addresses
/// or not. The labels behind these are the residual. Every other path names nothing, which takes no
/// memory.
///
/// It copies the labels that name the replicas, where others follow them, and shares the rest. It
/// takes one look-up in the book.
pub fn name_answer(alloc: Global, book: &Book, path: &Path) -> Mem<Option<Leaf>>
    ensures leaf { IfOk result (λ leaf. leaf ≡ named_in book.now path.now) }
    ensures memory { OnErr result (IsSome (named_in book.now path.now)) }
{
    if let Some(addr) = path_addr(path) {
        return Ok(Some(leaf_of(alloc, Cluster::Inet(addr), path, INET_LABELS)?));
    }
    if let Some(service) = path_service(book, path) {
        return Ok(Some(leaf_of(alloc, Cluster::Fs(service.clone()?), path, FS_LABELS)?));
    }
    Ok(None)
}

/// The leaf of some replicas, which so many labels of a path named.
fn leaf_of(alloc: Global, cluster: Cluster, path: &Path, labels: usize) -> Mem<Leaf>
    requires { labels ≤ length path.now }
    ensures { IfOk result
        (λ leaf. leaf ≡ leaf_at (take labels path.now) (drop labels path.now) cluster) }
{
    Ok(Leaf {
        cluster,
        client: path.part(alloc, 0, labels)?,
        residual: path.part(alloc, labels, path.len())?,
    })
}

/// The address that the first labels of a path name.
fn path_addr(path: &Path) -> Option<Addr>
    ensures long { OnSome result (4 ≤ length path.now) }
    ensures addr { named_addr path.now
        ≡ option_map (λ addr. leaf_at (take 4 path.now) (drop 4 path.now) (Inet addr)) result }
{
    if path.len() < INET_LABELS
        || path.label(0) != b"$".as_slice()
        || path.label(1) != b"inet".as_slice()
    {
        return None;
    }
    let (Some(ip), Some(port)) = (read_ip(path.label(2)), read_port(path.label(3))) else {
        return None;
    };
    Some(Addr { ip, port })
}

/// The service of the book that the first labels of a path name.
fn path_service<'a>(book: &'a Book, path: &Path) -> Option<&'a Name>
    ensures long { OnSome result (3 ≤ length path.now) }
    ensures service { named_service book.now.services path.now
        ≡ option_map (λ name. leaf_at (take 3 path.now) (drop 3 path.now) (Fs name.now)) result }
{
    if path.len() < FS_LABELS
        || path.label(0) != b"#".as_slice()
        || path.label(1) != b"io.l5d.fs".as_slice()
    {
        return None;
    }
    book.service(path.label(2))
}
