//! Parsing a head where it lies.
ghost use Rattle.std.specs.Prelude.{◌≡◌, ◌==◌, ◌≤◌, All, count_by, length, map, IfOk};
ghost use Rattle.httparse.specs.Grammar.{IsToken};
ghost use Rattle.httparse.specs.Spans.{IsHeaderWithin, IsWithin, header_bytes, span_bytes};
ghost use Rattle.http_wire.specs.Parsed.{IsHeadAt, Parses, pair_of};

use crate::Mem;
use crate::head::{Field, FieldList, Head};
use crate::text::{FieldName, Text};
use http::Method;
use http::method::MethodError;
use httparse::spans::{EMPTY_HEADER_SPAN, HeaderSpan, RequestSpans, parse_request};
use httparse::{Error, Status};
use std::alloc::{AllocError, Global};

/// What was parsed of some bytes.
#[derive(Drop)]
pub(crate) enum Parsed {
    /// A head, and its length with the empty lines before it.
    Whole(Head, usize),
    /// No continuation of the bytes is a head.
    Bad,
    /// There is no whole head yet.
    Partial,
}

/// The most fields whose spans take no memory of their own.
pub(crate) const FEW_FIELDS: usize = 64;

/// Parses the head at the front of the bytes, in time for them. The spans of a head of up to 64
/// fields lie on the stack.
pub(crate) fn parse(alloc: Global, bytes: &[u8]) -> Mem<Parsed>
    ensures { IfOk result (Parses bytes.now) }
{
    let mut spans = [EMPTY_HEADER_SPAN; FEW_FIELDS];
    match parse_request(bytes, &mut spans) {
        Ok(Status::Complete(parts)) => {
            let head = head_of(alloc, bytes, &parts, &spans[..parts.headers])?;
            Ok(Parsed::Whole(head, parts.len))
        }
        Ok(Status::Partial) => Ok(Parsed::Partial),
        Err(Error::TooManyHeaders) => parse_many(alloc, bytes),
        Err(_) => Ok(Parsed::Bad),
    }
}

/// The same, with room for as many fields as there are line feeds.
fn parse_many(alloc: Global, bytes: &[u8]) -> Mem<Parsed>
    ensures { IfOk result (Parses bytes.now) }
{
    let mut spans = Vec::from_elem(alloc, EMPTY_HEADER_SPAN, line_feeds(bytes))?;
    parse_into(alloc, bytes, spans.as_mut_slice())
}

/// The same, into as many spans as there are line feeds: a field ends in one, so that there is room
/// for every field, and each refusal is for good.
fn parse_into(alloc: Global, bytes: &[u8], spans: &mut [HeaderSpan]) -> Mem<Parsed>
    requires { length spans.old ≡ count_by (λ b. b == 10) bytes.now }
    ensures { IfOk result (Parses bytes.now) }
{
    match parse_request(bytes, spans) {
        Ok(Status::Complete(parts)) => {
            let head = head_of(alloc, bytes, &parts, &spans[..parts.headers])?;
            Ok(Parsed::Whole(head, parts.len))
        }
        Ok(Status::Partial) => Ok(Parsed::Partial),
        Err(_) => Ok(Parsed::Bad),
    }
}

/// How many line feeds the bytes have.
pub(crate) fn line_feeds(bytes: &[u8]) -> usize
    ensures { result ≡ count_by (λ b. b == 10) bytes.now }
{
    bytes.iter().filter(|b| **b == b'\n').count()
}

/// The head whose parts the spans cover.
fn head_of(alloc: Global, bytes: &[u8], parts: &RequestSpans, spans: &[HeaderSpan]) -> Mem<Head>
    requires long { parts.now.len ≤ length bytes.now }
    requires method { IsWithin parts.now.len parts.now.method }
    requires target { IsWithin parts.now.len parts.now.path }
    requires fields { All (IsHeaderWithin parts.now.len) spans.now }
    requires token { IsToken (span_bytes bytes.now parts.now.method) }
    ensures { IfOk result (IsHeadAt bytes.now parts.now spans.now) }
{
    let target = Text::of(Vec::from_slice(alloc, parts.path.of(bytes))?);
    let fields = fields_of(alloc, bytes, spans)?;
    let method = method_of(alloc, parts.method.of(bytes))?;
    Ok(Head {
        method,
        target,
        version: parts.version,
        fields,
    })
}

/// The method of this name, a token.
fn method_of(alloc: Global, token: &[u8]) -> Mem<Method>
    requires { IsToken token.now }
    ensures { IfOk result (λ method. method ≡ token.now) }
{
    match Method::from_bytes(alloc, token) {
        Ok(method) => Ok(method),
        Err(MethodError::OutOfMemory) => Err(AllocError),
        Err(MethodError::Invalid) => unreachable!(),
    }
}

/// The fields whose names and values the spans cover.
pub(crate) fn fields_of(alloc: Global, bytes: &[u8], spans: &[HeaderSpan]) -> Mem<FieldList>
    requires { All (IsHeaderWithin (length bytes.now)) spans.now }
    ensures { IfOk result (λ fields. map pair_of fields ≡ map (header_bytes bytes.now) spans.now) }
{
    let mut fields = Vec::with_capacity(alloc, spans.len())?;
    for span in spans {
        fields.push(field_of(alloc, bytes, *span)?)?;
    }
    Ok(FieldList::of(fields))
}

/// The field whose name and value the spans cover.
fn field_of(alloc: Global, bytes: &[u8], span: HeaderSpan) -> Mem<Field>
    requires { IsHeaderWithin (length bytes.now) span }
    ensures { IfOk result (λ field. pair_of field ≡ header_bytes bytes.now span) }
{
    let name = FieldName::of(Vec::from_slice(alloc, span.name.of(bytes))?);
    let value = Text::of(Vec::from_slice(alloc, span.value.of(bytes))?);
    Ok(Field { name, value })
}
