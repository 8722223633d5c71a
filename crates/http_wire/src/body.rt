//! How the bodies of requests and replies are framed.
ghost use Rattle.std.specs.Prelude.{◌≡◌, ◌==◌, codes, filter};
ghost use Rattle.std.specs.List.{list_all, slice_split};
ghost use Rattle.httparse.specs.Ascii.{comma};
ghost use Rattle.httparse.specs.Grammar.{trim_ows};
ghost use Rattle.http_wire.specs.declared.head.Field.{Field};
ghost use Rattle.http_wire.specs.Fields.{is_named, values_of};
ghost use Rattle.http_wire.specs.Framing.{agreed, coding_framing, first_number, framing_of};
ghost use Rattle.http_wire.specs.Framing.{length_framing, has_no_body, or_to_end, pieces_of};
ghost use Rattle.http_wire.specs.Framing.{reply_framing_of, says};

use crate::frames::{Framing, FramingFault};
use crate::head::{Field, FieldList, Head, ReplyHead};
use crate::list::{all_say, first_piece, number, trimmed};
use crate::text::same_bytes;
use http::Method;

/// The framing of a request's body (RFC 9112 section 6.3), in time for its fields and with no
/// memory.
///
/// A Content-Length is a list of one or more equal decimal numbers below 2^63, over all fields of
/// that name: RFC 9110 section 8.6 leaves it to a recipient to take equal ones for one. A
/// Transfer-Encoding beside a Content-Length is refused, where RFC 9112 section 6.1 leaves the
/// choice between that and letting Transfer-Encoding win: two readers of one connection that choose
/// differently can be made to split it differently (request smuggling, RFC 9112 section 11.2). A
/// Transfer-Encoding in HTTP/1.0 is faulty framing (section 6.1), and a coding other than `chunked`
/// alone, in one field, is one that is not known here.
///
/// # Errors
/// `Length` comes before `Coding`.
pub fn framing(head: &Head) -> Result<Framing, FramingFault>
    ensures { result ≡ framing_of head.now.version head.now.fields }
{
    by_fields(head.version, &head.fields)
}

/// The framing of a reply's body to a request with this method (RFC 9112 section 6.3), in time for
/// its fields and with no memory.
///
/// Its two fields are tested as those of a request, in every reply. After them, a reply to HEAD and
/// one of the status 204 or 304 has no body. A body that neither field frames goes up to the end of
/// the connection.
///
/// # Errors
/// As for [`framing`].
pub fn reply_framing(method: &Method, head: &ReplyHead) -> Result<Framing, FramingFault>
    ensures { result ≡ reply_framing_of method.now head.now.status
        (framing_of head.now.version head.now.fields) }
{
    let framing = by_fields(head.version, &head.fields)?;
    if has_no_body(method, head.status) {
        return Ok(Framing::Nothing);
    }
    Ok(or_to_end(framing))
}

/// The framing of a reply that has a body: one that no field frames goes up to the end of the
/// connection.
fn or_to_end(framing: Framing) -> Framing
    ensures { result ≡ or_to_end framing }
{
    match framing {
        Framing::Nothing | Framing::ToEnd => Framing::ToEnd,
        Framing::Length(length) => Framing::Length(length),
        Framing::Chunked => Framing::Chunked,
    }
}

/// Whether the replies of this status to this method have no body, whatever their fields say.
fn has_no_body(method: &Method, status: u16) -> bool
    ensures { result ≡ has_no_body method.now status }
{
    method.as_str() == "HEAD" || status == 204 || status == 304
}

/// The framing that the two fields give.
fn by_fields(version: u8, fields: &FieldList) -> Result<Framing, FramingFault>
    ensures { result ≡ framing_of version fields.now }
{
    let codings = fields.count("transfer-encoding");
    let lengths = fields.count("content-length");
    if codings == 0 && lengths == 0 {
        return Ok(Framing::Nothing);
    }
    if codings == 0 {
        return by_length(fields);
    }
    if lengths != 0 || version == 0 {
        return Err(FramingFault::Length);
    }
    by_coding(fields)
}

/// The framing that the Content-Length fields give.
fn by_length(fields: &FieldList) -> Result<Framing, FramingFault>
    ensures { result ≡ length_framing
        (agreed (pieces_of (values_of (codes "content-length") fields.now))) }
{
    match content_length(fields) {
        Some(length) => Ok(Framing::Length(length)),
        None => Err(FramingFault::Length),
    }
}

/// The framing that the Transfer-Encoding fields give.
fn by_coding(fields: &FieldList) -> Result<Framing, FramingFault>
    ensures { result ≡ coding_framing (values_of (codes "transfer-encoding") fields.now) }
{
    match fields.first("transfer-encoding") {
        None => Ok(Framing::Nothing),
        Some(coding) if fields.count("transfer-encoding") == 1 && same_bytes(coding, b"chunked") =>
            { Ok(Framing::Chunked) }
        Some(_) => Err(FramingFault::Coding),
    }
}

/// The length that every piece of every Content-Length field writes, if there is one and they all
/// write the same, in time for the fields.
pub fn content_length(fields: &FieldList) -> Option<u64>
    ensures { result ≡ agreed (pieces_of (values_of (codes "content-length") fields.now)) }
{
    match first_length(fields) {
        Some(length) if fields_say(fields.items(), length) => Some(length),
        _ => None,
    }
}

/// The length that the first piece writes.
fn first_length(fields: &FieldList) -> Option<u64>
    ensures { result ≡ first_number (values_of (codes "content-length") fields.now) }
{
    match fields.first("content-length") {
        Some(value) => number(trimmed(first_piece(value))),
        None => None,
    }
}

/// Whether every piece of every Content-Length field writes this length.
fn fields_say(fields: &[Field], length: u64) -> bool
    ensures { result ≡ list_all
        (λ (f : Field). list_all (λ piece. says length (trim_ows piece))
        (slice_split (λ b. b == comma) f.value))
        (filter (is_named (codes "content-length")) fields.now) }
{
    fields
        .iter()
        .filter(|field| field.name.is("content-length"))
        .all(|field| all_say(field.value.bytes(), length))
}
