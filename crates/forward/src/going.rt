//! The whole head, line by line.
ghost use Rattle.std.specs.Prelude.{◌≡◌, ◌++◌, [], ◌∷◌, codes, map, IfOk, OnErr, OnOk};
ghost use Rattle.name_tree.specs.Path.{canon_path};
ghost use Rattle.dtab_table.specs.Dtab.{rules_of};
ghost use Rattle.http_wire.specs.Lines.{ended, field_line, line_of};
ghost use Rattle.forward.specs.Dropped.{kept};
ghost use Rattle.forward.specs.Forwarded.{closing_lines, forwarded, framing_lines, request_line};
ghost use Rattle.forward.specs.Forwarded.{residual_lines, table_lines, via};

use crate::back::push_closing;
use crate::dropped::{NEVER_KEPT, push_kept};
use crate::{Bytes, Mem, ROOM};
use dtab_table::{Dtab, write_dtab};
use http_wire::{Framing, Head, end_line, push_line};
use itoa::Buffer;
use name_tree::{Path, append_path};
use std::alloc::Global;

/// What the head has on its way to a replica, beside what was received. Each text stands in the
/// head as it is given here. So a text that has other bytes than may stand there gives a head that
/// is read as another one, or as none; `IsPlainWay` of `specs/Laws.antt` says of which texts it is
/// read as it was meant.
#[derive(Clone, Copy)]
pub struct Going<'a> {
    /// The value of the Host field: whom the request asks, or the address that is dialled where it
    /// names nobody.
    pub host: &'a [u8],
    /// The target of the request line, as [`read_target`](http_wire::read_target) gives it: a path
    /// with its query, or `*`.
    pub target: &'a [u8],
    /// How the body behind the head is framed. `ToEnd`, which no request has, writes what `Nothing`
    /// does.
    pub framing: Framing,
    /// The table that the request brought along.
    pub local: &'a Dtab,
    /// The path that the request was identified as.
    pub service: &'a Path,
    /// The canonical text of the path of the replica set that was picked.
    pub client: &'a [u8],
    /// The canonical text of the path that was left over. `/`, the text of the path with no label,
    /// and no bytes at all both say that nothing was.
    pub residual: &'a [u8],
    /// Whether the connection to the replica closes behind the reply.
    pub closes: bool,
}

/// The head of the request as it goes on to a replica: `docs/HTTP.md` has its lines in order.
///
/// It takes time for the bytes of both heads, and a search by halves among the names that
/// Connection fields list for each field. It takes memory for the bytes that it gives, for the
/// listed names, and for the text of the table, if that has an entry.
pub fn forward_head(alloc: Global, head: &Head, to: &Going<'_>) -> Mem<Bytes>
    ensures { IfOk result (λ bytes. bytes.items ≡ forwarded head.now to.now) }
{
    let mut bytes = Vec::with_capacity(alloc, ROOM)?;
    push_head(alloc, &mut bytes, head, to)?;
    Ok(bytes)
}

/// Puts the same bytes into `out`, in place of what it holds, so that a connection has one buffer
/// for all its heads. An `Err` leaves it empty.
pub fn forward_head_into(alloc: Global, head: &Head, to: &Going<'_>, out: &mut Bytes) -> Mem<()>
    ensures ok { OnOk result (out.new.items ≡ forwarded head.now to.now) }
    ensures err { OnErr result (out.new.items ≡ []) }
{
    out.clear();
    let done = push_head(alloc, out, head, to);
    if done.is_err() {
        out.clear();
    }
    done
}

/// Adds the whole head. An `Err` may leave a part of it there.
fn push_head(alloc: Global, out: &mut Bytes, head: &Head, to: &Going<'_>) -> Mem<()>
    ensures { OnOk result (out.new.items ≡ out.old.items ++ forwarded head.now to.now) }
{
    push_request(alloc, out, head, to)?;
    push_own(alloc, out, head.version, to)?;
    end_line(out)?;
    Ok(())
}

/// Adds the request as it was meant: its request line, its host, the fields that go on, and how its
/// body is framed.
fn push_request(alloc: Global, out: &mut Bytes, head: &Head, to: &Going<'_>) -> Mem<()>
    ensures { OnOk result (out.new.items ≡ out.old.items
        ++ ended (request_line head.now.method to.now.target.now
        ∷ line_of (codes "Host") to.now.host.now
        ∷ map field_line (kept head.now.fields)
        ++ framing_lines to.now.framing)) }
{
    push_request_line(out, head.method.as_str(), to.target)?;
    push_line(out, "Host", to.host)?;
    push_kept(alloc, out, head.fields.items(), &NEVER_KEPT)?;
    push_framing(out, to.framing)?;
    Ok(())
}

/// Adds the router's own fields, for a request of this minor version.
fn push_own(alloc: Global, out: &mut Bytes, minor: u8, to: &Going<'_>) -> Mem<()>
    ensures { OnOk result (out.new.items ≡ out.old.items
        ++ ended (line_of (codes "Via") (via minor)
        ∷ table_lines (rules_of to.now.local.now)
        ++ line_of (codes "l5d-dst-service") (canon_path to.now.service.now)
        ∷ line_of (codes "l5d-dst-client") to.now.client.now
        ∷ residual_lines to.now.residual.now
        ++ closing_lines to.now.closes)) }
{
    push_line(out, "Via", via(minor).as_bytes())?;
    push_table(alloc, out, to.local)?;
    push_service(out, to.service)?;
    push_line(out, "l5d-dst-client", to.client)?;
    push_residual(out, to.residual)?;
    push_closing(out, to.closes)?;
    Ok(())
}

/// Adds the request line.
fn push_request_line(head: &mut Bytes, method: &str, target: &[u8]) -> Mem<()>
    ensures { OnOk result
        (head.new.items ≡ head.old.items ++ ended (request_line method.now target.now ∷ [])) }
{
    head.extend_from_slice(method.as_bytes())?;
    head.extend_from_slice(b" ")?;
    head.extend_from_slice(target)?;
    head.extend_from_slice(b" HTTP/1.1")?;
    end_line(head)
}

/// Adds the field that frames the body, if one does.
fn push_framing(head: &mut Bytes, framing: Framing) -> Mem<()>
    ensures { OnOk result (head.new.items ≡ head.old.items ++ ended (framing_lines framing)) }
{
    match framing {
        Framing::Nothing | Framing::ToEnd => Ok(()),
        Framing::Length(length) => {
            let mut digits = Buffer::new();
            push_line(head, "Content-Length", digits.format(length).as_bytes())
        }
        Framing::Chunked => push_line(head, "Transfer-Encoding", b"chunked"),
    }
}

/// The value of the Via field that is added, by the minor version of the request.
pub(crate) fn via(minor: u8) -> &'static str
    ensures { result.now ≡ via minor }
{
    if minor == 0 {
        "1.0 linkerd"
    } else {
        "1.1 linkerd"
    }
}

/// Adds the request's own table, unless it has no entry.
fn push_table(alloc: Global, head: &mut Bytes, table: &Dtab) -> Mem<()>
    ensures { OnOk result
        (head.new.items ≡ head.old.items ++ ended (table_lines (rules_of table.now))) }
{
    if table.len() == 0 {
        return Ok(());
    }
    let text = write_dtab(alloc, table)?;
    push_line(head, "l5d-ctx-dtab", text.as_slice())
}

/// Adds the path that the request was identified as.
fn push_service(head: &mut Bytes, service: &Path) -> Mem<()>
    ensures { OnOk result
        (head.new.items ≡ head.old.items
        ++ ended (line_of (codes "l5d-dst-service") (canon_path service.now) ∷ [])) }
{
    head.extend_from_slice(b"l5d-dst-service: ")?;
    append_path(service, head)?;
    end_line(head)?;
    Ok(())
}

/// Adds the residual path, unless it has no label.
fn push_residual(head: &mut Bytes, residual: &[u8]) -> Mem<()>
    ensures { OnOk result (head.new.items ≡ head.old.items ++ ended (residual_lines residual.now)) }
{
    if residual.is_empty() || residual == b"/".as_slice() {
        return Ok(());
    }
    push_line(head, "l5d-dst-residual", residual)
}
