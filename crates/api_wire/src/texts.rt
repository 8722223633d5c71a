//! The bodies of responses.
ghost use Rattle.std.specs.Prelude.{◌≡◌, ◌++◌, IfOk, OnOk, codes, map};
ghost use Rattle.std.specs.Fmt.{decimal};
ghost use Rattle.text_parts.specs.Json.{json_string};
ghost use Rattle.dtab_table.specs.Dtab.{rules_of};
ghost use Rattle.dtab_table.specs.Rules.{rule_of};
ghost use Rattle.api_wire.specs.Texts.{addr_line, addrs_text, counts_text, listed_names};
ghost use Rattle.api_wire.specs.Texts.{more_names, more_rules, names_text, rule_text, rules_text};
ghost use Rattle.api_wire.specs.Texts.{table_text, weight_part};

use crate::{Bytes, Mem};
use addr_book::{Name, ONE_WEIGHT, Weighted, append_ip};
use dtab_table::{Dtab, Entry, write_prefix};
use name_tree::{append_weight, write_tree};
use std::alloc::Global;
use text_parts::{append_json_string, append_number};

/// A table as JSON: an array of objects with the canonical texts of its trees and prefixes, in
/// order.
pub fn table_text(alloc: Global, dtab: &Dtab) -> Mem<Bytes>
    ensures { IfOk result (λ text. text.items ≡ table_text (rules_of dtab.now)) }
{
    let mut out = Vec::new(alloc);
    out.push(b'[')?;
    put_rules(dtab.entries(), &mut out)?;
    out.push(b']')?;
    Ok(out)
}

/// Puts entries behind some bytes, with commas between them. An `Err` may leave a part there.
fn put_rules(entries: &[Entry], out: &mut Bytes) -> Mem<()>
    ensures { OnOk result (out.new.items ≡ out.old.items ++ rules_text (map rule_of entries.now)) }
{
    let Some((first, others)) = entries.split_first() else {
        return Ok(());
    };
    put_rule(first, out)?;
    put_more_rules(others, out)
}

/// Puts entries behind some bytes, with a comma before each.
fn put_more_rules(entries: &[Entry], out: &mut Bytes) -> Mem<()>
    ensures { OnOk result (out.new.items ≡ out.old.items ++ more_rules (map rule_of entries.now)) }
{
    for entry in entries {
        out.push(b',')?;
        put_rule(entry, out)?;
    }
    Ok(())
}

/// Puts an entry behind some bytes.
#[tactic(auto, unfolding(crate::specs::Texts::rule_text))]
fn put_rule(entry: &Entry, out: &mut Bytes) -> Mem<()>
    ensures { OnOk result (out.new.items ≡ out.old.items ++ rule_text (rule_of entry.now)) }
{
    let alloc = *out.allocator();
    put_member(b"{\"dst\":", write_tree(alloc, &entry.tree)?, out)?;
    put_member(b",\"prefix\":", write_prefix(alloc, &entry.prefix)?, out)?;
    out.extend_from_slice(b"}")
}

/// Puts a text as a JSON string behind some bytes, behind what comes before it.
fn put_member(before: &[u8], text: Bytes, out: &mut Bytes) -> Mem<()>
    ensures { OnOk result
        (out.new.items ≡ out.old.items ++ before.now ++ json_string text.items) }
{
    out.extend_from_slice(before)?;
    append_json_string(text.as_slice(), out)
}

/// Names as a JSON array, in order.
pub fn names_text(alloc: Global, names: &[Name]) -> Mem<Bytes>
    ensures { IfOk result (λ text. text.items ≡ names_text names.now) }
{
    let mut out = Vec::new(alloc);
    out.push(b'[')?;
    put_names(names, &mut out)?;
    out.push(b']')?;
    Ok(out)
}

/// Puts names behind some bytes, with commas between them. An `Err` may leave a part there.
fn put_names(names: &[Name], out: &mut Bytes) -> Mem<()>
    ensures { OnOk result (out.new.items ≡ out.old.items ++ listed_names names.now) }
{
    let Some((first, others)) = names.split_first() else {
        return Ok(());
    };
    append_json_string(first.text(), out)?;
    put_more_names(others, out)
}

/// Puts names behind some bytes, with a comma before each.
fn put_more_names(names: &[Name], out: &mut Bytes) -> Mem<()>
    ensures { OnOk result (out.new.items ≡ out.old.items ++ more_names names.now) }
{
    for name in names {
        out.push(b',')?;
        append_json_string(name.text(), out)?;
    }
    Ok(())
}

/// Addresses as the lines of an address file, in order.
pub fn addrs_text(alloc: Global, items: &[Weighted]) -> Mem<Bytes>
    ensures { IfOk result (λ text. text.items ≡ addrs_text items.now) }
{
    let mut out = Vec::new(alloc);
    for item in items {
        put_addr(*item, &mut out)?;
    }
    Ok(out)
}

/// Puts a line of an address file behind some bytes. An `Err` may leave a part there.
#[tactic(auto, unfolding(crate::specs::Texts::addr_line))]
fn put_addr(item: Weighted, out: &mut Bytes) -> Mem<()>
    ensures { OnOk result (out.new.items ≡ out.old.items ++ addr_line item) }
{
    append_ip(item.addr.ip, out)?;
    out.push(b' ')?;
    append_number(u64::from(item.addr.port), out)?;
    put_weight_part(item.weight, out)?;
    out.push(b'\n')?;
    Ok(())
}

/// Puts the weight of an address behind some bytes, unless it is one.
fn put_weight_part(weight: u64, out: &mut Bytes) -> Mem<()>
    ensures { OnOk result (out.new.items ≡ out.old.items ++ weight_part weight) }
{
    if weight == ONE_WEIGHT {
        return Ok(());
    }
    out.extend_from_slice(b" * ")?;
    append_weight(weight, out)
}

/// How much there is of each thing, as a JSON object.
pub fn counts_text(
    alloc: Global,
    changes: u64,
    marks: u32,
    namespaces: u32,
    services: u64,
) -> Mem<Bytes>
    ensures { IfOk result (λ text. text.items ≡ counts_text changes marks namespaces services) }
{
    let mut out = Vec::new(alloc);
    put_count(b"{\"changes\":", changes, &mut out)?;
    put_count(b",\"marks\":", u64::from(marks), &mut out)?;
    put_names_counted(namespaces, services, &mut out)?;
    Ok(out)
}

/// Puts how many namespaces and services there are behind some bytes, and the end of the object.
fn put_names_counted(namespaces: u32, services: u64, out: &mut Bytes) -> Mem<()>
    ensures { OnOk result (out.new.items
        ≡ out.old.items ++ codes ",\"namespaces\":" ++ decimal namespaces
        ++ codes ",\"services\":" ++ decimal services ++ codes "}") }
{
    put_count(b",\"namespaces\":", u64::from(namespaces), out)?;
    put_count(b",\"services\":", services, out)?;
    out.push(b'}')?;
    Ok(())
}

/// Puts a number behind some bytes, behind what comes before it.
fn put_count(before: &[u8], number: u64, out: &mut Bytes) -> Mem<()>
    ensures { OnOk result (out.new.items ≡ out.old.items ++ before.now ++ decimal number) }
{
    out.extend_from_slice(before)?;
    append_number(number, out)
}
