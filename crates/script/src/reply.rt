//! The texts of replies.
ghost use Rattle.std.specs.Prelude.{◌≡◌, ◌++◌, ◌∷◌, codes, IfOk, OnOk};
ghost use Rattle.std.specs.Fmt.{decimal};
ghost use Rattle.std.specs.List.{flat_map};
ghost use Rattle.text_parts.specs.Words.{spaced};
ghost use Rattle.addr_book.specs.Addr.{addr_text};
ghost use Rattle.dtab_table.specs.Dtab.{rules_of};
ghost use Rattle.dtab_table.specs.TableCanon.{canon_table};
ghost use Rattle.machine.specs.Code.{reply_value, chosen_value};
ghost use Rattle.script.specs.Reply.{reply_text, pick_text, said_text, why_word, with_number};
ghost use Rattle.script.specs.Reply.{counts_text};
ghost use Rattle.script.specs.Said.{said_of};

use crate::{Bytes, Mem};
use addr_book::{Name, Weighted, append_addr};
use choose_core::Mark;
use delegate_view::view_text;
use dtab_table::{Dtab, write_dtab};
use machine::{Chosen, Reply, Why};
use name_tree::append_path;
use std::alloc::Global;
use text_parts::append_spaced;

/// Room for the bytes of most answers to picks.
const ROOM: usize = 128;

/// What a line is answered.
pub enum Said {
    /// A table was set.
    Ok,
    /// The reply to a change or a look.
    Reply(Reply),
    /// The answer to a pick.
    Chosen(Chosen),
}

impl Drop for Said {
    fn drop(self) {
        match self {
            Said::Ok => {}
            Said::Reply(reply) => drop(reply),
            Said::Chosen(chosen) => drop(chosen),
        }
    }
}

/// The text of an answer, without a line feed: `ok`; a reply in a word and its numbers; or the
/// address that was picked, the path that named it and the rest, with spaces between them, or why
/// there is none in a word.
pub fn reply_text(alloc: Global, said: &Said) -> Mem<Bytes>
    ensures { IfOk result (λ text. text.items ≡ said_text (said_of said.now)) }
{
    match said {
        Said::Ok => b"ok".to_vec(alloc),
        Said::Reply(reply) => text_of_reply(alloc, reply),
        Said::Chosen(chosen) => text_of_pick(alloc, chosen),
    }
}

/// The text of a pick's answer.
fn text_of_pick(alloc: Global, chosen: &Chosen) -> Mem<Bytes>
    ensures { IfOk result (λ text. text.items ≡ pick_text (chosen_value chosen.now)) }
{
    match chosen {
        Chosen::Picked {
            addr,
            client,
            residual,
        } => {
            let mut out = Vec::with_capacity(alloc, ROOM)?;
            append_addr(*addr, &mut out)?;
            out.push(b' ')?;
            append_path(client, &mut out)?;
            out.push(b' ')?;
            append_path(residual, &mut out)?;
            Ok(out)
        }
        Chosen::None(why) => why_word(*why).to_vec(alloc),
    }
}

/// Why there is no replica, in a word.
fn why_word(why: Why) -> &'static [u8]
    ensures { result.now ≡ why_word why }
{
    match why {
        Why::Neg => b"negative",
        Why::Fail => b"failing",
        Why::Empty => b"empty",
        Why::TooDeep => b"too-deep",
        Why::TooWide => b"too-wide",
    }
}

/// The text of a reply to a change or a look.
fn text_of_reply(alloc: Global, reply: &Reply) -> Mem<Bytes>
    ensures { IfOk result (λ text. text.items ≡ reply_text (reply_value reply.now)) }
{
    match reply {
        Reply::Version(number) => numbered(alloc, b"version", *number),
        Reply::Exists(number) => numbered(alloc, b"exists", *number),
        Reply::TooManyNames => b"too-many-names".to_vec(alloc),
        Reply::VersionsSpent => b"versions-spent".to_vec(alloc),
        Reply::Missing => b"missing".to_vec(alloc),
        Reply::Stale(number) => numbered(alloc, b"stale", *number),
        Reply::Deleted => b"deleted".to_vec(alloc),
        Reply::Set(count) => numbered(alloc, b"ok", u64::from(*count)),
        Reply::BookFull(count) => numbered(alloc, b"book-full", u64::from(*count)),
        Reply::TooManyServices => b"too-many-services".to_vec(alloc),
        Reply::Dropped => b"dropped".to_vec(alloc),
        Reply::Marked(mark) => text_of_mark(alloc, *mark),
        Reply::NotKept => b"not-kept".to_vec(alloc),
        Reply::HistorySpent => b"history-spent".to_vec(alloc),
        Reply::Table { version, dtab } => text_of_table(alloc, *version, dtab),
        Reply::Names(names) => text_of_names(alloc, names.items()),
        Reply::Addrs(list) => text_of_addrs(alloc, list.items()),
        Reply::Counts {
            changes,
            marks,
            namespaces,
            services,
        } => text_of_counts(alloc, *changes, *marks, *namespaces, u64::from(*services)),
        Reply::Services {
            changes,
            marks,
            namespaces,
            tables_written: _,
            services,
        } => text_of_counts(alloc, *changes, *marks, *namespaces, services.len() as u64),
        Reply::Viewed { outcome, trace } => view_text(alloc, outcome, trace),
    }
}

/// Puts a space and a number behind some bytes. An `Err` may leave a part there.
pub(crate) fn append_number(number: u64, out: &mut Bytes) -> Mem<()>
    ensures { OnOk result (out.new.items ≡ with_number out.old.items number) }
{
    out.push(b' ')?;
    text_parts::append_number(number, out)
}

/// A word and a number.
pub(crate) fn numbered(alloc: Global, word: &[u8], number: u64) -> Mem<Bytes>
    ensures { IfOk result (λ text. text.items ≡ with_number word.now number) }
{
    let mut out = word.to_vec(alloc)?;
    append_number(number, &mut out)?;
    Ok(out)
}

/// The mark of an address: its failures, and until when it is left out.
fn text_of_mark(alloc: Global, mark: Mark) -> Mem<Bytes>
    ensures { IfOk result
        (λ text. text.items ≡ with_number (with_number (codes "mark") mark.count) mark.until) }
{
    let mut out = numbered(alloc, b"mark", u64::from(mark.count))?;
    append_number(mark.until, &mut out)?;
    Ok(out)
}

/// A namespace's version and its table.
fn text_of_table(alloc: Global, version: u64, dtab: &Dtab) -> Mem<Bytes>
    ensures { IfOk result
        (λ text. text.items ≡ with_number (codes "version") version ++ codes " dtab"
        ++ spaced (canon_table (rules_of dtab.now))) }
{
    let mut out = numbered(alloc, b"version", version)?;
    out.extend_from_slice(b" dtab")?;
    let table = write_dtab(alloc, dtab)?;
    append_spaced(table.as_slice(), &mut out)?;
    Ok(out)
}

/// Names, each behind a space.
fn text_of_names(alloc: Global, names: &[Name]) -> Mem<Bytes>
    ensures { IfOk result
        (λ text. text.items ≡ codes "names" ++ flat_map (λ name. 32 ∷ name) names.now) }
{
    let mut out = b"names".to_vec(alloc)?;
    for name in names {
        out.push(b' ')?;
        out.extend_from_slice(name.text())?;
    }
    Ok(out)
}

/// Addresses, each behind a space.
fn text_of_addrs(alloc: Global, list: &[Weighted]) -> Mem<Bytes>
    ensures { IfOk result
        (λ text. text.items ≡ codes "addrs"
        ++ flat_map (λ item. 32 ∷ addr_text item.addr) list.now) }
{
    let mut out = b"addrs".to_vec(alloc)?;
    for item in list {
        out.push(b' ')?;
        append_addr(item.addr, &mut out)?;
    }
    Ok(out)
}

/// How much there is of each thing.
fn text_of_counts(
    alloc: Global,
    changes: u64,
    marks: u32,
    namespaces: u32,
    services: u64,
) -> Mem<Bytes>
    ensures { IfOk result (λ text. text.items ≡ counts_text changes marks namespaces services) }
{
    let mut out = numbered(alloc, b"changes", changes)?;
    out.extend_from_slice(b" marks")?;
    append_number(u64::from(marks), &mut out)?;
    out.extend_from_slice(b" namespaces")?;
    append_number(u64::from(namespaces), &mut out)?;
    out.extend_from_slice(b" services")?;
    append_number(services, &mut out)?;
    Ok(out)
}
