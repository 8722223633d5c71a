//! The canonical texts of prefixes and tables.
ghost use Rattle.std.specs.Prelude.{◌≡◌, ◌<◌, ◌++◌, IfOk, OnOk, map};
ghost use Rattle.dtab_table.specs.Pattern.{pattern_of};
ghost use Rattle.dtab_table.specs.Rules.{rule_of};
ghost use Rattle.dtab_table.specs.Dtab.{rules_of};
ghost use Rattle.dtab_table.specs.TableCanon.{canon_pattern, canon_prefix, canon_rule, canon_more};
ghost use Rattle.dtab_table.specs.TableCanon.{canon_table};

use crate::dtab::Dtab;
use crate::entry::Entry;
use crate::prefix::{Prefix, PrefixLabel};
use crate::{Bytes, Mem};
use name_tree::{append_label, append_tree};
use std::alloc::Global;

/// Puts a label of a prefix behind some bytes.
fn put_pattern(label: &PrefixLabel, out: &mut Bytes) -> Mem<()>
    ensures { OnOk result (out.new.items ≡ out.old.items ++ canon_pattern (pattern_of label.now)) }
{
    match label {
        PrefixLabel::Star => out.extend_from_slice(b"/*"),
        PrefixLabel::Label(bytes) => append_label(bytes.as_slice(), out),
    }
}

/// Puts the canonical text of a prefix behind some bytes. An `Err` may leave a part of it there.
fn put_prefix(prefix: &Prefix, out: &mut Bytes) -> Mem<()>
    ensures { OnOk result (out.new.items ≡ out.old.items ++ canon_prefix prefix.now) }
{
    if prefix.labels().is_empty() {
        out.push(b'/')?;
        return Ok(());
    }
    for label in prefix.labels() {
        put_pattern(label, out)?;
    }
    Ok(())
}

/// Puts an entry behind some bytes. An `Err` may leave a part of it there.
fn put_entry(entry: &Entry, out: &mut Bytes) -> Mem<()>
    ensures { OnOk result (out.new.items ≡ out.old.items ++ canon_rule (rule_of entry.now)) }
{
    put_prefix(&entry.prefix, out)?;
    out.extend_from_slice(b"=>")?;
    append_tree(&entry.tree, out)
}

/// The canonical text of a prefix.
pub fn write_prefix(alloc: Global, prefix: &Prefix) -> Mem<Bytes>
    ensures { IfOk result (λ text. text.items ≡ canon_prefix prefix.now) }
{
    let mut text = Vec::new(alloc);
    put_prefix(prefix, &mut text)?;
    Ok(text)
}

/// Puts entries behind some bytes, each behind a `;`. An `Err` may leave a part of them there.
fn put_rest(entries: &[Entry], out: &mut Bytes) -> Mem<()>
    ensures { OnOk result (out.new.items ≡ out.old.items ++ canon_more (map rule_of entries.now)) }
{
    for entry in entries {
        out.push(b';')?;
        put_entry(entry, out)?;
    }
    Ok(())
}

/// The canonical text of a table.
pub fn write_dtab(alloc: Global, dtab: &Dtab) -> Mem<Bytes>
    ensures { IfOk result (λ text. text.items ≡ canon_table (rules_of dtab.now)) }
{
    let mut text = Vec::new(alloc);
    let [first, rest @ ..] = dtab.entries() else {
        return Ok(text);
    };
    put_entry(first, &mut text)?;
    put_rest(rest, &mut text)?;
    Ok(text)
}
