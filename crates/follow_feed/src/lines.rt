//! The lines that tell what polls came to.
ghost use Rattle.std.specs.Prelude.{◌≡◌, ◌++◌, IfOk, OnOk, Some, option_map};
ghost use Rattle.follow_feed.specs.Feeds.{feed_value, space_of};
ghost use Rattle.follow_feed.specs.Lines.{feed_line, space_words, total_line};

use crate::feed::{Feed, Versioned};
use crate::numbers::put_number;
use crate::{Bytes, Mem};
use dtab_table::write_dtab;
use std::alloc::Global;
use text_parts::append_spaced;

/// The line of a feed: `run R place P version V dtab TEXT`, with no blank behind `dtab` where the
/// table has no entry, or `run R place P gone`.
pub(crate) fn feed_line(alloc: Global, feed: &Feed) -> Mem<Bytes>
    ensures { IfOk result (λ line. line.items ≡ feed_line (feed_value feed.now)) }
{
    let mut out = Vec::new(alloc);
    put_number(b"run ", feed.run, &mut out)?;
    put_number(b" place ", feed.place, &mut out)?;
    put_space(alloc, &feed.table, &mut out)?;
    out.push(b'\n')?;
    Ok(out)
}

/// Puts what a namespace is behind some bytes. An `Err` may leave a part there.
fn put_space(alloc: Global, table: &Option<Versioned>, out: &mut Bytes) -> Mem<()>
    ensures { OnOk result (out.new.items
        ≡ out.old.items ++ space_words (option_map space_of table.now)) }
{
    match table {
        None => out.extend_from_slice(b" gone"),
        Some(table) => put_table(alloc, table, out),
    }
}

/// Puts a version and a table behind some bytes. An `Err` may leave a part there.
fn put_table(alloc: Global, table: &Versioned, out: &mut Bytes) -> Mem<()>
    ensures { OnOk result (out.new.items
        ≡ out.old.items ++ space_words (Some (space_of table.now))) }
{
    put_number(b" version ", table.version, out)?;
    out.extend_from_slice(b" dtab")?;
    let text = write_dtab(alloc, &table.dtab)?;
    append_spaced(text.as_slice(), out)
}

/// The line behind all polls: how many were made, how many gave a later feed than was held, and how
/// many gave none.
pub(crate) fn total_line(alloc: Global, polls: u32, newer: u32, lost: u32) -> Mem<Bytes>
    ensures { IfOk result (λ line. line.items ≡ total_line polls newer lost) }
{
    let mut out = Vec::new(alloc);
    put_number(b"polls ", u64::from(polls), &mut out)?;
    put_number(b" newer ", u64::from(newer), &mut out)?;
    put_number(b" lost ", u64::from(lost), &mut out)?;
    out.push(b'\n')?;
    Ok(out)
}
