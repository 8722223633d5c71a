//! The parts of a request that the interfaces look at.
ghost use Rattle.std.specs.Prelude.{◌≡◌, ◌==◌, bytes_eq, codes, position, MatchResult, None, Some};
ghost use Rattle.std.specs.Prelude.{option_map};
ghost use Rattle.std.specs.Option.{option_copied};
ghost use Rattle.std.specs.List.{list_any};
ghost use Rattle.http_uri.specs.ByteClasses.{slash};
ghost use Rattle.addr_book.specs.Name.{name_of};
ghost use Rattle.api_wire.specs.Request.{accepts_dtab, begins_with, closes, has_body, has_in_it};
ghost use Rattle.api_wire.specs.Request.{is_json, one_segment, path_in, query_in};
ghost use Rattle.api_wire.specs.Request.{segment_behind, unquoted, value_begins, version_asked};
ghost use Rattle.api_wire.specs.Request.{version_for};

use addr_book::{Name, NameFault};
use http_wire::{FieldList, Head, same_bytes};
use own_reply::asks_to_close;
use std::alloc::Global;
use text_parts::read_number;

/// The path of a target: what stands before its query.
pub fn path_in(line: &[u8]) -> &[u8]
    ensures { result.now ≡ path_in line.now }
{
    match mark_in(line) {
        Some(at) => &line[..at],
        None => line,
    }
}

/// The query of a target, empty where it has none.
pub fn query_in(line: &[u8]) -> &[u8]
    ensures { result.now ≡ query_in line.now }
{
    match mark_in(line) {
        Some(at) => &line[at + 1..],
        None => &line[line.len()..],
    }
}

/// Where the query's `?` stands.
fn mark_in(line: &[u8]) -> Option<usize>
    ensures { result ≡ position (λ b. b == 63) line.now }
{
    line.iter().position(|b| *b == b'?')
}

/// Whether a path is this one.
pub fn is_path(path: &[u8], text: &[u8]) -> bool
    ensures { result ≡ bytes_eq path.now text.now }
{
    path == text
}

/// What a path has behind a front, where that is one segment, be it empty.
pub fn segment_behind<'a>(front: &[u8], path: &'a [u8]) -> Option<&'a [u8]>
    ensures { option_copied result ≡ segment_behind front.now path.now }
{
    match path.strip_prefix(front) {
        None => None,
        Some(rest) => one_segment(rest),
    }
}

/// These bytes, where they have no `/`.
fn one_segment(rest: &[u8]) -> Option<&[u8]>
    ensures { option_copied result ≡ one_segment rest.now }
{
    if has_slash(rest) { None } else { Some(rest) }
}

/// Whether some byte is a `/`.
fn has_slash(bytes: &[u8]) -> bool
    ensures { result ≡ list_any (λ b. b == slash) bytes.now }
{
    bytes.iter().any(|b| *b == b'/')
}

/// The name that a segment is.
pub fn read_name(alloc: Global, segment: &[u8]) -> Result<Name, NameFault>
    ensures { MatchResult result (λ name. name_of segment.now ≡ Some name)
        (λ fault. fault ≡ NameFault.NotName → name_of segment.now ≡ None) }
{
    match Name::of(alloc, segment) {
        Ok(name) => Ok(name),
        Err(NameFault::NotName) => Err(NameFault::NotName),
        Err(NameFault::OutOfMemory) => Err(NameFault::OutOfMemory),
    }
}

/// The version that a table must have, by the field If-Match. `None` is any.
pub fn version_asked(fields: &FieldList) -> Option<u64>
    ensures { result ≡ version_asked fields.now }
{
    match fields.first("if-match") {
        None => None,
        Some(value) => version_in(value),
    }
}

/// The version that a value of If-Match asks for.
fn version_in(value: &[u8]) -> Option<u64>
    ensures { result ≡ version_for (Some value.now) }
{
    if value == b"*".as_slice() {
        return None;
    }
    Some(read_number(unquoted(value)).unwrap_or(0))
}

/// A text without the quotation marks that it stands between.
fn unquoted(text: &[u8]) -> &[u8]
    ensures { result.now ≡ unquoted text.now }
{
    if text.len() >= 2 && text[0] == b'"' && text[text.len() - 1] == b'"' {
        return &text[1..text.len() - 1];
    }
    text
}

/// Whether a text begins with a media type.
#[tactic(auto, unfolding(crate::specs::Request::begins_with))]
fn begins_with(word: &[u8], text: &[u8]) -> bool
    ensures { result ≡ begins_with word.now text.now }
{
    same_bytes(&text[..word.len().min(text.len())], word)
}

/// Whether a text has a media type in it.
fn has_in_it(word: &[u8], text: &[u8]) -> bool
    ensures { result ≡ has_in_it word.now text.now }
{
    let mut rest = text;
    while let Some((_, others)) = rest.split_first() {
        if begins_with(word, rest) {
            return true;
        }
        rest = others;
    }
    begins_with(word, rest)
}

/// Whether the client takes the text of a table.
pub fn accepts_dtab(fields: &FieldList) -> bool
    ensures { result ≡ accepts_dtab fields.now }
{
    fields.items().iter().any(|field| {
        field.name.is("accept") && has_in_it(b"application/dtab", field.value.bytes())
    })
}

/// Whether the body is JSON.
pub fn is_json(fields: &FieldList) -> bool
    ensures { result ≡ is_json fields.now }
{
    begins_with(
        b"application/json",
        fields.first("content-type").unwrap_or(b""),
    )
}

/// Whether the connection closes behind the response to this request, which may be the last that
/// its connection carries.
pub fn closes(head: &Head, last: bool) -> bool
    ensures { result ≡ closes head.now last }
{
    asks_to_close(head) || last
}

/// Whether the response to this request has its body written.
pub fn has_body(head: &Head) -> bool
    ensures { result ≡ has_body head.now }
{
    head.method.as_str() != "HEAD"
}
