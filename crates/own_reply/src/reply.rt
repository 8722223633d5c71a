//! The bytes of a reply.
ghost use Rattle.std.specs.Prelude.{◌≡◌, ◌++◌, [], ◌∷◌, IfOk, OnOk};
ghost use Rattle.http_wire.specs.Lines.{ended};
ghost use Rattle.own_reply.specs.Reply.{connection_of, head_of, length_line, reply_of, status_line};

use crate::{Bytes, Mem, OwnError};
use http_wire::{end_line, push_line};
use itoa::Buffer;
use std::alloc::Global;

/// Room for any reply.
const ROOM: usize = 200;

/// The whole reply that tells a client of the refusal. It says `Connection: close` where it is
/// `closing`. Its body is left out where not `with_body`, as for a HEAD request, and the fields are
/// then the same (RFC 9110 section 9.3.2).
///
/// It takes time for the bytes of the reply, fewer than 200, and memory for 200, at once.
pub fn own_reply(alloc: Global, err: OwnError, closing: bool, with_body: bool) -> Mem<Bytes>
    ensures { IfOk result (λ reply. reply.items ≡ reply_of err closing with_body) }
{
    let mut reply = Vec::with_capacity(alloc, ROOM)?;
    push_head(&mut reply, err, closing)?;
    if with_body {
        reply.extend_from_slice(err.text().as_bytes())?;
        reply.push(b'\n')?;
    }
    Ok(reply)
}

/// Adds the status line, the fields and the empty line.
fn push_head(reply: &mut Bytes, err: OwnError, closing: bool) -> Mem<()>
    ensures { OnOk result (reply.new.items ≡ reply.old.items ++ head_of err closing) }
{
    push_status_line(reply, err)?;
    push_line(reply, "Content-Type", b"text/plain")?;
    push_line(reply, "l5d-err", err.text().as_bytes())?;
    push_length(reply, err)?;
    push_connection(reply, closing)?;
    end_line(reply)?;
    Ok(())
}

/// Adds the status line.
fn push_status_line(reply: &mut Bytes, err: OwnError) -> Mem<()>
    ensures { OnOk result (reply.new.items ≡ reply.old.items ++ ended (status_line err ∷ [])) }
{
    let mut digits = Buffer::new();
    reply.extend_from_slice(b"HTTP/1.1 ")?;
    reply.extend_from_slice(digits.format(err.status()).as_bytes())?;
    reply.extend_from_slice(b" ")?;
    reply.extend_from_slice(err.reason().as_bytes())?;
    end_line(reply)
}

/// Adds the length of the body: the word's, and its line feed.
fn push_length(reply: &mut Bytes, err: OwnError) -> Mem<()>
    ensures { OnOk result (reply.new.items ≡ reply.old.items ++ ended (length_line err ∷ [])) }
{
    let mut digits = Buffer::new();
    let length = err.text().len() + 1;
    push_line(reply, "Content-Length", digits.format(length).as_bytes())
}

/// Adds the Connection field, where the connection closes.
fn push_connection(reply: &mut Bytes, closing: bool) -> Mem<()>
    ensures { OnOk result (reply.new.items ≡ reply.old.items ++ ended (connection_of closing)) }
{
    if closing {
        push_line(reply, "Connection", b"close")?;
    }
    Ok(())
}
