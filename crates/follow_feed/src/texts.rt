//! Feeds as JSON, and what a look at a namespace tells as one.
ghost use Rattle.std.specs.Prelude.{◌≡◌, ◌++◌, IfOk, OnOk, Some, option_map};
ghost use Rattle.machine.specs.Code.{reply_value};
ghost use Rattle.machine.specs.Looking.{space_told};
ghost use Rattle.api_wire.specs.Response.{response_value};
ghost use Rattle.follow_feed.specs.Feeds.{feed_value, space_of};
ghost use Rattle.follow_feed.specs.Texts.{bare_text, feed_response, full_text, numbers_text};
ghost use Rattle.follow_feed.specs.Texts.{space_response, table_response};

use crate::feed::{Feed, Versioned};
use crate::numbers::put_number;
use crate::{Bytes, Mem};
use api_wire::{Media, Response};
use dtab_table::write_dtab;
use http::StatusCode;
use machine::Reply;
use name_tree::MOST_BYTES;
use std::alloc::Global;
use text_parts::append_json_string;

/// The response that tells the feed of a namespace, which a look at it in this run showed at this
/// place. What the look told is let go of once it is told.
///
/// Where the table's canonical text has more than 65,536 bytes it is 507 with the word `long`
/// (RFC 4918 section 11.5).
pub fn told_feed(alloc: Global, run: u64, place: u64, said: Reply) -> Mem<Response>
    ensures { IfOk result (λ response. response_value response ≡ feed_response (record {
      run = run;
      place = place;
      table = space_told (reply_value said);
    })) }
{
    let feed = Feed {
        run,
        place,
        table: shown(said),
    };
    feed_response(alloc, &feed)
}

/// The namespace that a reply shows, if it shows one.
fn shown(said: Reply) -> Option<Versioned>
    ensures { option_map space_of result ≡ space_told (reply_value said) }
{
    match said.into_table() {
        Some((version, dtab)) => Some(Versioned { version, dtab }),
        None => None,
    }
}

/// The response that tells a feed.
fn feed_response(alloc: Global, feed: &Feed) -> Mem<Response>
    ensures { IfOk result (λ response. response_value response
        ≡ feed_response (feed_value feed.now)) }
{
    match &feed.table {
        Some(table) => space_response(alloc, feed.run, feed.place, table),
        None => {
            let text = bare_text(alloc, feed.run, feed.place)?;
            Ok(Response::of(StatusCode::OK, None, Media::Json, text))
        }
    }
}

/// The response that tells a table at a place of a run.
fn space_response(alloc: Global, run: u64, place: u64, table: &Versioned) -> Mem<Response>
    ensures { IfOk result (λ response. response_value response
        ≡ space_response run place (Some (space_of table.now))) }
{
    let text = write_dtab(alloc, &table.dtab)?;
    table_response(alloc, run, place, table.version, text.as_slice())
}

/// The response that tells a table with this text.
fn table_response(alloc: Global, run: u64, place: u64, version: u64, table: &[u8]) -> Mem<Response>
    ensures { IfOk result (λ response. response_value response
        ≡ table_response run place version table.now) }
{
    if table.len() > MOST_BYTES {
        return Response::word(alloc, StatusCode::INSUFFICIENT_STORAGE, None, "long");
    }
    let text = full_text(alloc, run, place, version, table)?;
    Ok(Response::of(StatusCode::OK, None, Media::Json, text))
}

/// The object of a namespace with a table of this text.
fn full_text(alloc: Global, run: u64, place: u64, version: u64, table: &[u8]) -> Mem<Bytes>
    ensures { IfOk result (λ text. text.items ≡ full_text run place version table.now) }
{
    let mut out = Vec::new(alloc);
    out.extend_from_slice(b"{\"dtab\":")?;
    append_json_string(table, &mut out)?;
    out.push(b',')?;
    put_numbers(place, run, &mut out)?;
    put_number(b",\"version\":", version, &mut out)?;
    out.push(b'}')?;
    Ok(out)
}

/// The object of a namespace that is not there.
fn bare_text(alloc: Global, run: u64, place: u64) -> Mem<Bytes>
    ensures { IfOk result (λ text. text.items ≡ bare_text run place) }
{
    let mut out = Vec::new(alloc);
    out.push(b'{')?;
    put_numbers(place, run, &mut out)?;
    out.push(b'}')?;
    Ok(out)
}

/// Puts the two numbers that each object has behind some bytes. An `Err` may leave a part there.
fn put_numbers(place: u64, run: u64, out: &mut Bytes) -> Mem<()>
    ensures { OnOk result (out.new.items ≡ out.old.items ++ numbers_text place run) }
{
    put_number(b"\"place\":", place, out)?;
    put_number(b",\"run\":", run, out)
}
