//! The line of an exchange.
ghost use Rattle.std.specs.Prelude.{◌≡◌, ◌++◌, [], OnErr, OnOk};
ghost use Rattle.std.specs.Fmt.{decimal};
ghost use Rattle.access_log.specs.Line.{addr_or_dash, answered_text, asked_text, client_text};
ghost use Rattle.access_log.specs.Line.{line_text, name_text, quoted, request_text, routed_text};
ghost use Rattle.access_log.specs.Line.{status_text, version_text};

use crate::ending::ending_text;
use crate::entry::{Entry, RequestLine};
use crate::moment::{put_moment, three_digits};
use crate::shown::put_shown;
use crate::{Bytes, Mem};
use addr_book::{Addr, append_addr};
use itoa::Buffer;
use line_base::SocketAddress;
use name_tree::{Path, append_path};

/// Puts the line of an exchange, with its line feed, into `out`, in place of what it holds. An
/// `Err` leaves it empty.
///
/// It takes time for the bytes of the line, and memory only where `out` has no room for it.
///
/// # Errors
/// Out of memory.
pub fn write_line(entry: &Entry<'_>, out: &mut Bytes) -> Mem<()>
    ensures ok { OnOk result (out.new.items ≡ line_text entry.now) }
    ensures err { OnErr result (out.new.items ≡ []) }
{
    out.clear();
    let done = put_line(entry, out);
    if done.is_err() {
        out.clear();
    }
    done
}

/// Puts the line after some bytes. An `Err` may leave a part of it there, here and below.
fn put_line(entry: &Entry<'_>, out: &mut Bytes) -> Mem<()>
    ensures { OnOk result (out.new.items ≡ out.old.items ++ line_text entry.now) }
{
    put_asked(entry, out)?;
    out.push(b' ')?;
    put_answered(entry, out)?;
    out.push(b' ')?;
    put_routed(entry, out)?;
    out.push(b'\n')?;
    Ok(())
}

/// Puts the words after some bytes that tell when who asked for what.
#[tactic(auto, unfolding(crate::specs::Line::asked_text))]
fn put_asked(entry: &Entry<'_>, out: &mut Bytes) -> Mem<()>
    ensures { OnOk result (out.new.items ≡ out.old.items ++ asked_text entry.now) }
{
    put_moment(entry.moment, out)?;
    out.push(b' ')?;
    put_client(entry.client, out)?;
    out.push(b' ')?;
    put_request(entry.request, out)
}

/// Puts the words after some bytes that tell what was answered.
#[tactic(auto, unfolding(crate::specs::Line::answered_text))]
fn put_answered(entry: &Entry<'_>, out: &mut Bytes) -> Mem<()>
    ensures { OnOk result (out.new.items ≡ out.old.items ++ answered_text entry.now) }
{
    put_status(entry.answer.status(), out)?;
    out.push(b' ')?;
    put_number(entry.bytes, out)?;
    out.push(b' ')?;
    put_number(entry.milliseconds, out)
}

/// Puts the words after some bytes that tell where the request went, and how it ended.
#[tactic(auto, unfolding(crate::specs::Line::routed_text))]
fn put_routed(entry: &Entry<'_>, out: &mut Bytes) -> Mem<()>
    ensures { OnOk result (out.new.items ≡ out.old.items ++ routed_text entry.now) }
{
    put_name(entry.name, out)?;
    out.push(b' ')?;
    put_addr(entry.replica, out)?;
    out.push(b' ')?;
    out.extend_from_slice(ending_text(entry.answer, entry.broken).as_bytes())
}

/// Puts the address of a client after some bytes, if it is known.
fn put_client(client: Option<SocketAddress>, out: &mut Bytes) -> Mem<()>
    ensures { OnOk result (out.new.items ≡ out.old.items ++ client_text client) }
{
    match client {
        Some(SocketAddress { ip, port }) => append_addr(Addr { ip, port }, out),
        None => out.extend_from_slice(b"-"),
    }
}

/// Puts the address of a replica after some bytes, if one was tried.
fn put_addr(addr: Option<Addr>, out: &mut Bytes) -> Mem<()>
    ensures { OnOk result (out.new.items ≡ out.old.items ++ addr_or_dash addr) }
{
    match addr {
        Some(addr) => append_addr(addr, out),
        None => out.extend_from_slice(b"-"),
    }
}

/// Puts a request line in quotation marks after some bytes, if there is one.
fn put_request(request: Option<RequestLine<'_>>, out: &mut Bytes) -> Mem<()>
    ensures { OnOk result (out.new.items ≡ out.old.items ++ request_text request.entry) }
{
    match request {
        Some(line) => put_quoted(&line, out),
        None => out.extend_from_slice(b"\"-\""),
    }
}

/// Puts a request line in quotation marks after some bytes.
fn put_quoted(line: &RequestLine<'_>, out: &mut Bytes) -> Mem<()>
    ensures { OnOk result (out.new.items ≡ out.old.items ++ quoted line.now) }
{
    out.push(b'"')?;
    put_shown(line.method, out)?;
    out.push(b' ')?;
    put_shown(line.target, out)?;
    out.extend_from_slice(version_text(line.version))
}

/// A version after a space, with the quotation mark after it.
fn version_text(minor: u8) -> &'static [u8]
    ensures { result.now ≡ version_text minor }
{
    if minor == 0 {
        b" HTTP/1.0\"".as_slice()
    } else {
        b" HTTP/1.1\"".as_slice()
    }
}

/// Puts the three digits of a status code after some bytes, if there is one.
fn put_status(status: Option<u16>, out: &mut Bytes) -> Mem<()>
    ensures { OnOk result (out.new.items ≡ out.old.items ++ status_text status) }
{
    match status {
        Some(status) => out.extend_from_slice(&three_digits(u32::from(status))),
        None => out.extend_from_slice(b"-"),
    }
}

/// Puts a number after some bytes, in decimal digits.
fn put_number(number: u64, out: &mut Bytes) -> Mem<()>
    ensures { OnOk result (out.new.items ≡ out.old.items ++ decimal number) }
{
    out.extend_from_slice(Buffer::new().format(number).as_bytes())
}

/// Puts the text of a path after some bytes, if there is one.
fn put_name(name: Option<&Path>, out: &mut Bytes) -> Mem<()>
    ensures { OnOk result (out.new.items ≡ out.old.items ++ name_text name.entry) }
{
    match name {
        Some(path) => append_path(path, out),
        None => out.extend_from_slice(b"-"),
    }
}
