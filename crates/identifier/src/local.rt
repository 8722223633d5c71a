//! The table that a request brings along.
ghost use Rattle.std.specs.Prelude.{IfOk};
ghost use Rattle.http_wire.specs.Fields.{values_of};
ghost use Rattle.dtab_table.specs.Computed.{table_of};
ghost use Rattle.dtab_table.specs.Dtab.{rules_of};
ghost use Rattle.dtab_table.specs.TableCanon.{AreSoundRules};
ghost use Rattle.identifier.specs.Local.{joined_rules, local_rules, Adds, Gives};

use crate::fault::LocalFault;
use dtab_table::{Dtab, DtabFault, Entry, EntryList, MOST_ENTRIES, read_entries};
use http_wire::{Field, Head};
use std::alloc::Global;

/// The table that a request brings along for itself: the entries of the tables in all its
/// `l5d-ctx-dtab` fields, in order, and then those in all its `l5d-dtab` fields. The first are what
/// routers before this one passed on, and the second the client's own; later entries are tried
/// first, so that the client's own win. A request without such fields brings the table with no
/// entry, and an empty value adds none.
///
/// It takes time and memory for the texts.
///
/// # Errors
/// `BadDtab` exactly where [`read_entries`] refuses one of the values, or the whole has more than
/// 1,024 entries. `OutOfMemory` where there was no memory for the table.
pub fn local_dtab(alloc: Global, head: &Head) -> Result<Dtab, LocalFault>
    ensures rules { Gives (local_rules head.now.fields) result }
    ensures sound { IfOk result (λ dtab. AreSoundRules (rules_of dtab)) }
{
    let fields = head.fields.items();
    let mut entries = Vec::new(alloc);
    add_tables(alloc, fields, "l5d-ctx-dtab", &mut entries)?;
    add_tables(alloc, fields, "l5d-dtab", &mut entries)?;
    if entries.len() > MOST_ENTRIES {
        return Err(LocalFault::BadDtab);
    }
    Ok(Dtab::of(alloc, EntryList::of(entries))?)
}

/// Puts the entries of the tables in all fields of this name behind the others, in order.
fn add_tables(
    alloc: Global,
    fields: &[Field],
    name: &str,
    entries: &mut Vec<Entry>,
) -> Result<(), LocalFault>
    ensures { Adds entries.old.items entries.new.items
        (joined_rules (values_of name.now fields.now)) result }
{
    for field in fields {
        if field.name.is(name) {
            add_table(alloc, field.value.bytes(), entries)?;
        }
    }
    Ok(())
}

/// Puts the entries of the table of this text behind the others.
fn add_table(alloc: Global, text: &[u8], entries: &mut Vec<Entry>) -> Result<(), LocalFault>
    ensures { Adds entries.old.items entries.new.items (table_of text.now) result }
{
    match read_entries(alloc, text) {
        Ok(list) => {
            let mut more = list.into_items();
            entries.append(&mut more)?;
            Ok(())
        }
        Err(DtabFault::OutOfMemory) => Err(LocalFault::OutOfMemory),
        Err(_) => Err(LocalFault::BadDtab),
    }
}
