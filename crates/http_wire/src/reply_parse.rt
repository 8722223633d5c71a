//! Parsing the head of a reply where it lies.
ghost use Rattle.std.specs.Prelude.{◌≡◌, ◌==◌, ◌≤◌, All, count_by, length, IfOk};
ghost use Rattle.httparse.specs.Spans.{IsHeaderWithin, IsWithin};
ghost use Rattle.http_wire.specs.ReplyReading.{IsReplyAt, ParsesReply};

use crate::Mem;
use crate::head::ReplyHead;
use crate::parse::{FEW_FIELDS, fields_of, line_feeds};
use crate::text::Text;
use httparse::spans::{EMPTY_HEADER_SPAN, HeaderSpan, ResponseSpans, parse_response};
use httparse::{Error, Status};
use std::alloc::Global;

/// What was parsed of some bytes.
#[derive(Drop)]
pub(crate) enum ParsedReply {
    /// A head, and its length with the empty lines before it.
    Whole(ReplyHead, usize),
    /// No continuation of the bytes is a head.
    Bad,
    /// There is no whole head yet.
    Partial,
}

/// Parses the head at the front of the bytes, in time for them. The spans of a head of up to 64
/// fields lie on the stack.
pub(crate) fn parse_reply(alloc: Global, bytes: &[u8]) -> Mem<ParsedReply>
    ensures { IfOk result (ParsesReply bytes.now) }
{
    let mut spans = [EMPTY_HEADER_SPAN; FEW_FIELDS];
    match parse_response(bytes, &mut spans) {
        Ok(Status::Complete(parts)) => {
            let head = head_of(alloc, bytes, &parts, &spans[..parts.headers])?;
            Ok(ParsedReply::Whole(head, parts.len))
        }
        Ok(Status::Partial) => Ok(ParsedReply::Partial),
        Err(Error::TooManyHeaders) => parse_many(alloc, bytes),
        Err(_) => Ok(ParsedReply::Bad),
    }
}

/// The same, with room for as many fields as there are line feeds.
fn parse_many(alloc: Global, bytes: &[u8]) -> Mem<ParsedReply>
    ensures { IfOk result (ParsesReply bytes.now) }
{
    let mut spans = Vec::from_elem(alloc, EMPTY_HEADER_SPAN, line_feeds(bytes))?;
    parse_into(alloc, bytes, spans.as_mut_slice())
}

/// The same, into as many spans as there are line feeds: a field ends in one, so that there is room
/// for every field, and each refusal is for good.
fn parse_into(alloc: Global, bytes: &[u8], spans: &mut [HeaderSpan]) -> Mem<ParsedReply>
    requires { length spans.old ≡ count_by (λ b. b == 10) bytes.now }
    ensures { IfOk result (ParsesReply bytes.now) }
{
    match parse_response(bytes, spans) {
        Ok(Status::Complete(parts)) => {
            let head = head_of(alloc, bytes, &parts, &spans[..parts.headers])?;
            Ok(ParsedReply::Whole(head, parts.len))
        }
        Ok(Status::Partial) => Ok(ParsedReply::Partial),
        Err(_) => Ok(ParsedReply::Bad),
    }
}

/// The head whose parts the spans cover.
fn head_of(
    alloc: Global,
    bytes: &[u8],
    parts: &ResponseSpans,
    spans: &[HeaderSpan],
) -> Mem<ReplyHead>
    requires long { parts.now.len ≤ length bytes.now }
    requires reason { IsWithin parts.now.len parts.now.reason }
    requires fields { All (IsHeaderWithin parts.now.len) spans.now }
    ensures { IfOk result (IsReplyAt bytes.now parts.now spans.now) }
{
    let reason = Text::of(Vec::from_slice(alloc, parts.reason.of(bytes))?);
    let fields = fields_of(alloc, bytes, spans)?;
    Ok(ReplyHead {
        version: parts.version,
        status: parts.code,
        reason,
        fields,
    })
}
