//! The head of a reply, line by line.
ghost use Rattle.std.specs.Prelude.{◌≡◌, ◌++◌, [], ◌∷◌, IfOk, OnErr, OnOk};
ghost use Rattle.http_wire.specs.Lines.{ended};
ghost use Rattle.forward.specs.Forwarded.{closing_lines};
ghost use Rattle.forward.specs.Returned.{back_framing_lines, chunked_lines, length_lines};
ghost use Rattle.forward.specs.Returned.{own_length_lines, returned, status_line, three_digits};

use crate::dropped::{NEVER_BACK, push_kept};
use crate::going::via;
use crate::{Bytes, Mem, ROOM};
use http_wire::{Framing, ReplyHead, content_length, end_line, push_line};
use itoa::Buffer;
use std::alloc::Global;

/// The head of a reply as it goes back to the client: `docs/HTTP.md` has its lines in order.
///
/// `framing` is what [`reply_framing`](http_wire::reply_framing) says of the reply, `chunked`
/// whether a body in chunks stays in chunks, as for a client that speaks HTTP/1.1, and `closing`
/// whether the connection closes behind the reply. With no body and a status other than 204 the
/// reply is one of status 304, or one to HEAD, so the length that it says stands.
///
/// It takes time for the bytes of both heads, and a search by halves among the listed names for
/// each field. It takes memory for the bytes that it gives and for the listed names.
pub fn back_head(
    alloc: Global,
    head: &ReplyHead,
    framing: Framing,
    chunked: bool,
    closing: bool,
) -> Mem<Bytes>
    ensures { IfOk result (λ bytes. bytes.items ≡ returned head.now framing chunked closing) }
{
    let mut bytes = Vec::with_capacity(alloc, ROOM)?;
    push_head(alloc, &mut bytes, head, framing, chunked, closing)?;
    Ok(bytes)
}

/// Puts the same bytes into `out`, in place of what it holds. An `Err` leaves it empty.
pub fn back_head_into(
    alloc: Global,
    head: &ReplyHead,
    framing: Framing,
    chunked: bool,
    closing: bool,
    out: &mut Bytes,
) -> Mem<()>
    ensures ok { OnOk result (out.new.items ≡ returned head.now framing chunked closing) }
    ensures err { OnErr result (out.new.items ≡ []) }
{
    out.clear();
    let done = push_head(alloc, out, head, framing, chunked, closing);
    if done.is_err() {
        out.clear();
    }
    done
}

/// Adds the whole head. An `Err` may leave a part of it there.
fn push_head(
    alloc: Global,
    out: &mut Bytes,
    head: &ReplyHead,
    framing: Framing,
    chunked: bool,
    closing: bool,
) -> Mem<()>
    ensures { OnOk result
        (out.new.items ≡ out.old.items ++ returned head.now framing chunked closing) }
{
    push_status_line(out, head.status, head.reason.bytes())?;
    push_kept(alloc, out, head.fields.items(), &NEVER_BACK)?;
    push_framing(out, head, framing, chunked)?;
    push_line(out, "Via", via(head.version).as_bytes())?;
    push_closing(out, closing)?;
    end_line(out)?;
    Ok(())
}

/// Adds the status line.
fn push_status_line(head: &mut Bytes, status: u16, reason: &[u8]) -> Mem<()>
    ensures { OnOk result
        (head.new.items ≡ head.old.items ++ ended (status_line status reason.now ∷ [])) }
{
    let digits = three_digits(status);
    head.extend_from_slice(b"HTTP/1.1 ")?;
    head.extend_from_slice(&digits)?;
    head.extend_from_slice(b" ")?;
    head.extend_from_slice(reason)?;
    end_line(head)
}

/// The three digits of a status code.
fn three_digits(status: u16) -> [u8; 3]
    ensures { result ≡ three_digits status }
{
    [
        b'0' + (status / 100 % 10) as u8,
        b'0' + (status / 10 % 10) as u8,
        b'0' + (status % 10) as u8,
    ]
}

/// Adds the field that frames the body, or tells of its length, if one does.
fn push_framing(head: &mut Bytes, from: &ReplyHead, framing: Framing, chunked: bool) -> Mem<()>
    ensures { OnOk result
        (head.new.items ≡ head.old.items ++ ended (back_framing_lines from.now framing chunked)) }
{
    match framing {
        Framing::Nothing => push_own_length(head, from),
        Framing::Length(length) => push_length(head, Some(length)),
        Framing::Chunked => push_chunked(head, chunked),
        Framing::ToEnd => Ok(()),
    }
}

/// Adds the length that the reply says of a body that is not sent, but for the status 204.
fn push_own_length(head: &mut Bytes, from: &ReplyHead) -> Mem<()>
    ensures { OnOk result (head.new.items ≡ head.old.items ++ ended (own_length_lines from.now)) }
{
    if from.status == 204 {
        return Ok(());
    }
    push_length(head, content_length(&from.fields))
}

/// Adds the field that says that the body is in chunks, where it stays so.
fn push_chunked(head: &mut Bytes, chunked: bool) -> Mem<()>
    ensures { OnOk result (head.new.items ≡ head.old.items ++ ended (chunked_lines chunked)) }
{
    if chunked {
        push_line(head, "Transfer-Encoding", b"chunked")
    } else {
        Ok(())
    }
}

/// Adds the field that says the length, if there is one.
fn push_length(head: &mut Bytes, length: Option<u64>) -> Mem<()>
    ensures { OnOk result (head.new.items ≡ head.old.items ++ ended (length_lines length)) }
{
    match length {
        Some(length) => {
            let mut digits = Buffer::new();
            push_line(head, "Content-Length", digits.format(length).as_bytes())
        }
        None => Ok(()),
    }
}

/// Adds the field that says that the connection closes, where it does.
pub(crate) fn push_closing(head: &mut Bytes, closing: bool) -> Mem<()>
    ensures { OnOk result (head.new.items ≡ head.old.items ++ ended (closing_lines closing)) }
{
    if closing {
        push_line(head, "Connection", b"close")
    } else {
        Ok(())
    }
}
