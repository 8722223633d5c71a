//! Reading the feed that a JSON text stands for.
ghost use Rattle.std.specs.Prelude.{◌≡◌};
ghost use Rattle.serde_json.specs.View.{view};
ghost use Rattle.dtab_table.specs.Computed.{table_of};
ghost use Rattle.follow_feed.specs.Reading.{Reads, ReadsTable, bare_feed, feed_in, feed_of_data};
ghost use Rattle.follow_feed.specs.Reading.{full_feed, number_at, rules_at};

use crate::feed::{Feed, Versioned};
use crate::polling::PollEnd;
use api_wire::{json_value, members_in, text_at};
use dtab_table::{Dtab, DtabFault, read_dtab};
use serde_json::Value;
use std::alloc::Global;

/// The feed that a text stands for.
pub(crate) fn read_feed(alloc: Global, text: &[u8]) -> Result<Feed, PollEnd>
    ensures { Reads (feed_in text.now) result }
{
    match json_value(alloc, text) {
        Ok(Some(tree)) => feed_of(alloc, &tree),
        Ok(None) => Err(PollEnd::Strange),
        Err(_want) => Err(PollEnd::OutOfMemory),
    }
}

/// The feed of a JSON value.
fn feed_of(alloc: Global, tree: &Value) -> Result<Feed, PollEnd>
    ensures { Reads (feed_of_data (view tree.now)) result }
{
    let members = members_in(tree);
    if members == 2 {
        bare_feed(tree)
    } else if members == 4 {
        full_feed(alloc, tree)
    } else {
        Err(PollEnd::Strange)
    }
}

/// The number under a key.
fn number_at(tree: &Value, key: &str) -> Option<u64>
    ensures { result ≡ number_at key.now (view tree.now) }
{
    match tree.get(key) {
        Some(value) => value.as_u64(),
        None => None,
    }
}

/// The feed of an object with a run and a place.
fn bare_feed(tree: &Value) -> Result<Feed, PollEnd>
    ensures { Reads (bare_feed (view tree.now)) result }
{
    match (number_at(tree, "run"), number_at(tree, "place")) {
        (Some(run), Some(place)) => Ok(Feed {
            run,
            place,
            table: None,
        }),
        _ => Err(PollEnd::Strange),
    }
}

/// The feed of an object that has a table too.
fn full_feed(alloc: Global, tree: &Value) -> Result<Feed, PollEnd>
    ensures { Reads (full_feed (view tree.now)) result }
{
    let Some(run) = number_at(tree, "run") else {
        return Err(PollEnd::Strange);
    };
    let Some(place) = number_at(tree, "place") else {
        return Err(PollEnd::Strange);
    };
    let Some(version) = number_at(tree, "version") else {
        return Err(PollEnd::Strange);
    };
    let dtab = table_at(alloc, tree)?;
    Ok(Feed {
        run,
        place,
        table: Some(Versioned { version, dtab }),
    })
}

/// The table whose text stands under `dtab`.
fn table_at(alloc: Global, tree: &Value) -> Result<Dtab, PollEnd>
    ensures { ReadsTable (rules_at (view tree.now)) result }
{
    match text_at(tree, "dtab") {
        Some(text) => read_table(alloc, text.as_bytes()),
        None => Err(PollEnd::Strange),
    }
}

/// The table of a text.
fn read_table(alloc: Global, text: &[u8]) -> Result<Dtab, PollEnd>
    ensures { ReadsTable (table_of text.now) result }
{
    match read_dtab(alloc, text) {
        Ok(dtab) => Ok(dtab),
        Err(DtabFault::OutOfMemory) => Err(PollEnd::OutOfMemory),
        Err(_) => Err(PollEnd::Strange),
    }
}
