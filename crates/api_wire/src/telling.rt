//! How the replies of a router's state are told over HTTP.
ghost use Rattle.std.specs.Prelude.{◌≡◌, IfOk, None};
ghost use Rattle.bind_core.specs.Outcome.{ending_of};
ghost use Rattle.delegate_view.specs.View.{view_of};
ghost use Rattle.dtab_table.specs.Dtab.{rules_of};
ghost use Rattle.machine.specs.Code.{reply_value};
ghost use Rattle.api_wire.specs.Response.{filled, plain, response_value};
ghost use Rattle.api_wire.specs.Telling.{response_to, table_response};
ghost use Rattle.api_wire.specs.Texts.{addrs_text, counts_text, names_text};

use crate::response::{Media, Response};
use crate::texts::{addrs_text, counts_text, names_text, table_text};
use crate::{Bytes, Mem};
use addr_book::{Name, Weighted};
use bind_core::{Outcome, Trace};
use delegate_view::view_text;
use dtab_table::{Dtab, write_dtab};
use http::StatusCode;
use machine::Reply;
use std::alloc::Global;

/// The response that tells a reply. A table is told as its canonical text where `as_dtab`, and else
/// as JSON. Services are told by their number alone, as among the counts.
///
/// The reply is let go of once it is told: that of a view may be large, and the bytes of the
/// response are yet to be made.
pub fn response_to(alloc: Global, reply: Reply, as_dtab: bool) -> Mem<Response>
    ensures { IfOk result
        (λ response. response_value response ≡ response_to as_dtab (reply_value reply)) }
{
    let told = response_of(alloc, &reply, as_dtab);
    drop(reply);
    told
}

/// The response that tells a reply.
fn response_of(alloc: Global, reply: &Reply, as_dtab: bool) -> Mem<Response>
    ensures { IfOk result
        (λ response. response_value response ≡ response_to as_dtab (reply_value reply.now)) }
{
    match reply {
        Reply::Version(version) => Ok(Response::empty(StatusCode::NO_CONTENT, Some(*version))),
        Reply::Exists(version) => Response::word(
            alloc,
            StatusCode::CONFLICT,
            Some(*version),
            "exists",
        ),
        Reply::TooManyNames => full(alloc, "too-many-names"),
        Reply::VersionsSpent => full(alloc, "versions-spent"),
        Reply::Missing => Response::word(alloc, StatusCode::NOT_FOUND, None, "missing"),
        Reply::Stale(version) => {
            Response::word(
                alloc,
                StatusCode::PRECONDITION_FAILED,
                Some(*version),
                "stale",
            )
        }
        Reply::Deleted => Ok(Response::empty(StatusCode::NO_CONTENT, None)),
        Reply::Set(_) => Ok(Response::empty(StatusCode::NO_CONTENT, None)),
        Reply::BookFull(_) => full(alloc, "book-full"),
        Reply::TooManyServices => full(alloc, "too-many-services"),
        Reply::Dropped => Ok(Response::empty(StatusCode::NO_CONTENT, None)),
        Reply::Marked(_) => Ok(Response::empty(StatusCode::NO_CONTENT, None)),
        Reply::NotKept => Response::word(alloc, StatusCode::NOT_FOUND, None, "not-kept"),
        Reply::HistorySpent => full(alloc, "history-spent"),
        Reply::Table { version, dtab } => table_response(alloc, *version, dtab, as_dtab),
        Reply::Names(names) => names_response(alloc, names.items()),
        Reply::Addrs(list) => addrs_response(alloc, list.items()),
        Reply::Counts {
            changes,
            marks,
            namespaces,
            services,
        } => {
            let services = u64::from(*services);
            counts_response(alloc, *changes, *marks, *namespaces, services)
        }
        Reply::Services {
            changes,
            marks,
            namespaces,
            tables_written: _,
            services,
        } => {
            let services = services.len() as u64;
            counts_response(alloc, *changes, *marks, *namespaces, services)
        }
        Reply::Viewed { outcome, trace } => view_response(alloc, outcome, trace),
    }
}

/// A response that lists names.
fn names_response(alloc: Global, names: &[Name]) -> Mem<Response>
    ensures { IfOk result (λ response. response_value response
        ≡ filled 200 None Media.Json (names_text names.now)) }
{
    Ok(json(names_text(alloc, names)?))
}

/// A response that lists addresses.
fn addrs_response(alloc: Global, items: &[Weighted]) -> Mem<Response>
    ensures { IfOk result (λ response. response_value response
        ≡ filled 200 None Media.Plain (addrs_text items.now)) }
{
    let text = addrs_text(alloc, items)?;
    Ok(Response::of(StatusCode::OK, None, Media::Plain, text))
}

/// A response that tells how much there is of each thing.
fn counts_response(
    alloc: Global,
    changes: u64,
    marks: u32,
    namespaces: u32,
    services: u64,
) -> Mem<Response>
    ensures { IfOk result (λ response. response_value response
        ≡ filled 200 None Media.Json (counts_text changes marks namespaces services)) }
{
    Ok(json(counts_text(alloc, changes, marks, namespaces, services)?))
}

/// A response with the view of a delegation.
fn view_response(alloc: Global, outcome: &Outcome, trace: &Trace) -> Mem<Response>
    ensures { IfOk result (λ response. response_value response
        ≡ filled 200 None Media.Json (view_of (ending_of outcome.now) trace.now)) }
{
    Ok(json(view_text(alloc, outcome, trace)?))
}

/// A response that says what is full.
fn full(alloc: Global, word: &str) -> Mem<Response>
    ensures { IfOk result
        (λ response. response_value response ≡ plain 507 None word.now) }
{
    Response::word(alloc, StatusCode::INSUFFICIENT_STORAGE, None, word)
}

/// A response with this JSON.
fn json(text: Bytes) -> Response
    ensures { response_value result ≡ filled 200 None Media.Json text.items }
{
    Response::of(StatusCode::OK, None, Media::Json, text)
}

/// A response with a table and its version.
fn table_response(alloc: Global, version: u64, dtab: &Dtab, as_dtab: bool) -> Mem<Response>
    ensures { IfOk result
        (λ response. response_value response ≡ table_response as_dtab version (rules_of dtab.now)) }
{
    if as_dtab {
        let text = write_dtab(alloc, dtab)?;
        Ok(Response::of(StatusCode::OK, Some(version), Media::Dtab, text))
    } else {
        let text = table_text(alloc, dtab)?;
        Ok(Response::of(StatusCode::OK, Some(version), Media::Json, text))
    }
}
