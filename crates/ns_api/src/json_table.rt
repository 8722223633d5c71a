//! Tables in the bodies of requests.
ghost use Rattle.std.specs.Prelude.{◌≡◌, ◌≤◌, ◌-◌, ◌<◌, nat_le, if◌then◌else◌, length, map, sum_by};
ghost use Rattle.std.specs.Prelude.{MatchResult, IfOk, None, Some, option_map};
ghost use Rattle.std.specs.Option.{option_and_then};
ghost use Rattle.serde_json.specs.Find.{as_array, get};
ghost use Rattle.serde_json.specs.View.{items_view, view};
ghost use Rattle.name_tree.specs.Computed.{tree_of};
ghost use Rattle.name_tree.specs.Tree.{value_of};
ghost use Rattle.dtab_table.specs.Computed.{table_of};
ghost use Rattle.dtab_table.specs.Dtab.{rules_of};
ghost use Rattle.dtab_table.specs.Rules.{rule_of};
ghost use Rattle.api_wire.specs.Json.{json_of, text_at};
ghost use Rattle.ns_api.specs.JsonTable.{are_few, body_rules, few_rules, is_pair, json_rules};
ghost use Rattle.ns_api.specs.JsonTable.{list_of, prefix_of, row_rule, row_rules, row_size};
ghost use Rattle.ns_api.specs.JsonTable.{rule_in, text_size};

use crate::Mem;
use api_wire::{is_json, json_value, members_in, text_at};
use dtab_table::{
    Dtab, DtabFault, Entry, EntryList, MOST_ENTRIES, Prefix, PrefixFault, read_dtab, read_prefix,
};
use http_wire::FieldList;
use name_tree::{MOST_BYTES, TextFault, Tree, read_tree};
use serde_json::Value;
use std::alloc::{AllocError, AllocFailed, Global};

/// Why a body was not read as a table.
#[derive(Clone, Copy)]
pub(crate) enum TableFault {
    /// It is none.
    NoTable,
    /// There was no memory for it.
    OutOfMemory,
}

impl From<AllocError> for TableFault {
    ghost use Rattle.ns_api.specs.declared.json_table.TableFault.{TableFault};

    ghost from_gives = { λ _ fault. fault ≡ TableFault.OutOfMemory };

    fn from(_error: AllocError) -> TableFault {
        TableFault::OutOfMemory
    }
}

impl<T: Drop> From<AllocFailed<T>> for TableFault {
    ghost use Rattle.ns_api.specs.declared.json_table.TableFault.{TableFault};

    ghost from_gives = { λ _ fault. fault ≡ TableFault.OutOfMemory };

    fn from(_error: AllocFailed<T>) -> TableFault {
        TableFault::OutOfMemory
    }
}

/// The table that a body stands for: as JSON where its Content-Type says so, and else as the text
/// of a table.
///
/// As JSON it is an array of at most 1,024 objects, each with just the members `dst` and `prefix`.
/// These are the texts of a tree and of a prefix, and have at most 65,536 bytes together, their
/// escapes in JSON undone.
#[tactic(auto, unfolding(crate::specs::JsonTable::body_rules))]
pub(crate) fn read_body_table(
    alloc: Global,
    fields: &FieldList,
    body: &[u8],
) -> Result<Dtab, TableFault>
    ensures { MatchResult result (λ dtab. body_rules fields.now body.now ≡ Some (rules_of dtab))
        (λ fault. fault ≡ TableFault.NoTable → body_rules fields.now body.now ≡ None) }
{
    if is_json(fields) {
        return read_json(alloc, body);
    }
    match read_dtab(alloc, body) {
        Ok(dtab) => Ok(dtab),
        Err(DtabFault::OutOfMemory) => Err(TableFault::OutOfMemory),
        Err(_) => Err(TableFault::NoTable),
    }
}

/// The table of a JSON text.
fn read_json(alloc: Global, text: &[u8]) -> Result<Dtab, TableFault>
    ensures { MatchResult result
        (λ dtab. option_and_then json_rules (json_of text.now) ≡ Some (rules_of dtab))
        (λ fault. fault ≡ TableFault.NoTable
        → option_and_then json_rules (json_of text.now) ≡ None) }
{
    match json_value(alloc, text)? {
        Some(tree) => {
            let read = table_of_tree(alloc, &tree);
            drop(tree);
            read
        }
        None => Err(TableFault::NoTable),
    }
}

/// The table of a JSON value.
fn table_of_tree(alloc: Global, tree: &Value) -> Result<Dtab, TableFault>
    ensures { MatchResult result (λ dtab. json_rules (view tree.now) ≡ Some (rules_of dtab))
        (λ fault. fault ≡ TableFault.NoTable → json_rules (view tree.now) ≡ None) }
{
    match tree.as_array() {
        Some(rows) => table_of_rows(alloc, rows.as_slice()),
        None => Err(TableFault::NoTable),
    }
}

/// The table of some rows.
fn table_of_rows(alloc: Global, rows: &[Value]) -> Result<Dtab, TableFault>
    ensures { MatchResult result (λ dtab. few_rules (map view rows.now) ≡ Some (rules_of dtab))
        (λ fault. fault ≡ TableFault.NoTable → few_rules (map view rows.now) ≡ None) }
{
    if rows.len() > MOST_ENTRIES {
        return Err(TableFault::NoTable);
    }
    if !are_short(rows) {
        return Err(TableFault::NoTable);
    }
    let entries = read_rows(alloc, rows)?;
    Ok(table_of_entries(alloc, entries)?)
}

/// The table of a few entries.
fn table_of_entries(alloc: Global, entries: Vec<Entry>) -> Mem<Dtab>
    requires { length entries.items ≤ 1024 }
    ensures { IfOk result (λ dtab. rules_of dtab ≡ map rule_of entries.items) }
{
    Dtab::of(alloc, EntryList::of(entries))
}

/// Whether the texts of some rows have few enough bytes together.
fn are_short(rows: &[Value]) -> bool
    ensures { result ≡ nat_le (sum_by row_size (map view rows.now)) 65536 }
{
    let mut room = MOST_BYTES;
    for row in rows {
        let Some(behind_tree) = without_text(room, row, "dst") else {
            return false;
        };
        let Some(behind_both) = without_text(behind_tree, row, "prefix") else {
            return false;
        };
        room = behind_both;
    }
    true
}

/// The room for so many bytes without those of the text under a key.
fn without_text(room: usize, row: &Value, key: &str) -> Option<usize>
    ensures { let size = text_size (text_at key.now (view row.now))
        in result ≡ (if nat_le size room then Some (room - size) else None) }
{
    match text_at(row, key) {
        Some(text) => room.checked_sub(text.len()),
        None => Some(room),
    }
}

/// The entries of some rows.
fn read_rows(alloc: Global, rows: &[Value]) -> Result<Vec<Entry>, TableFault>
    ensures rules { MatchResult result
        (λ entries. row_rules (map view rows.now) ≡ Some (map rule_of entries.items))
        (λ fault. fault ≡ TableFault.NoTable → row_rules (map view rows.now) ≡ None) }
    ensures count { IfOk result (λ entries. length entries.items ≡ length rows.now) }
{
    let mut entries = Vec::with_capacity(alloc, rows.len())?;
    for row in rows {
        entries.push(read_row(alloc, row)?)?;
    }
    Ok(entries)
}

/// The entry of a row.
fn read_row(alloc: Global, row: &Value) -> Result<Entry, TableFault>
    ensures { MatchResult result (λ entry. row_rule (view row.now) ≡ Some (rule_of entry))
        (λ fault. fault ≡ TableFault.NoTable → row_rule (view row.now) ≡ None) }
{
    if !is_pair(row) {
        return Err(TableFault::NoTable);
    }
    match (text_at(row, "dst"), text_at(row, "prefix")) {
        (Some(dst), Some(prefix)) => read_entry(alloc, dst, prefix),
        _ => Err(TableFault::NoTable),
    }
}

/// Whether a value is an object with two members.
fn is_pair(row: &Value) -> bool
    ensures { result ≡ is_pair (view row.now) }
{
    members_in(row) == 2
}

/// The entry of the texts of a tree and a prefix.
fn read_entry(alloc: Global, dst: &str, prefix: &str) -> Result<Entry, TableFault>
    ensures { MatchResult result
        (λ entry. rule_in (Some dst.now) (Some prefix.now) ≡ Some (rule_of entry))
        (λ fault. fault ≡ TableFault.NoTable → rule_in (Some dst.now) (Some prefix.now) ≡ None) }
{
    let tree = tree_in(alloc, dst.as_bytes())?;
    let prefix = prefix_in(alloc, prefix.as_bytes())?;
    Ok(Entry { prefix, tree })
}

/// The tree of a text.
fn tree_in(alloc: Global, text: &[u8]) -> Result<Tree, TableFault>
    ensures { MatchResult result (λ tree. tree_of text.now ≡ Some (value_of tree))
        (λ fault. fault ≡ TableFault.NoTable → tree_of text.now ≡ None) }
{
    match read_tree(alloc, text) {
        Ok(tree) => Ok(tree),
        Err(TextFault::OutOfMemory) => Err(TableFault::OutOfMemory),
        Err(_) => Err(TableFault::NoTable),
    }
}

/// The prefix of a text.
fn prefix_in(alloc: Global, text: &[u8]) -> Result<Prefix, TableFault>
    ensures { MatchResult result (λ prefix. prefix_of text.now ≡ Some prefix)
        (λ fault. fault ≡ TableFault.NoTable → prefix_of text.now ≡ None) }
{
    match read_prefix(alloc, text) {
        Ok(prefix) => Ok(prefix),
        Err(PrefixFault::NotPrefix) => Err(TableFault::NoTable),
        Err(PrefixFault::OutOfMemory) => Err(TableFault::OutOfMemory),
    }
}
