//! `lint`: the entries of a table that are never asked.
ghost use Rattle.std.specs.Prelude.{◌≡◌, ◌++◌, Err, Some, IfOk, OnOk, slice_get};
ghost use Rattle.line_base.specs.Counts.{Rose};
ghost use Rattle.dtab_table.specs.Dtab.{rules_of};
ghost use Rattle.command_lines.specs.Lint.{count_line, hidden_line, lint_of, table_line};
ghost use Rattle.command_lines.specs.Lint.{table_fault_line, TellsTable, TellsFoundTable};
ghost use Rattle.command_lines.specs.Lint.{TellsTablePath, prefix_text};

use crate::checking::{CheckEnd, Verdict};
use crate::{Bytes, Mem};
use dtab_check::{Hidden, hidden, taken_out};
use dtab_table::{Dtab, DtabFault, read_dtab, write_dtab, write_prefix};
use line_base::{Folder, FolderFault, Found};
use std::alloc::{AllocError, Global};

/// The most bytes of a table.
const MOST_TABLE: usize = 65_536;

/// Reads the table at a path, and tells which of its entries are never asked.
pub fn lint<F: Folder>(alloc: Global, folder: &mut F, path: &str) -> Result<Verdict, CheckEnd>
    ensures told { IfOk result (λ v. TellsTablePath (F.filed folder.old).files path.now v.is_right
        v.line.items) }
    ensures fault { result ≡ Err CheckEnd.Fault → Rose (F.filed folder.old).faults
        (F.filed folder.new).faults }
    ensures kept { (result ≡ Err CheckEnd.Fault → ⊥) → (F.filed folder.new).faults
        ≡ (F.filed folder.old).faults }
    ensures files { (F.filed folder.new).files ≡ (F.filed folder.old).files }
{
    match folder.read(path, MOST_TABLE) {
        Ok(found) => match table_verdict(alloc, &found) {
            Ok(verdict) => Ok(verdict),
            Err(_) => Err(CheckEnd::OutOfMemory),
        },
        Err(FolderFault::Failed) => Err(CheckEnd::Fault),
        Err(FolderFault::OutOfMemory) => Err(CheckEnd::OutOfMemory),
    }
}

/// What is told of what was found at a table's path.
fn table_verdict(alloc: Global, found: &Found) -> Mem<Verdict>
    ensures { IfOk result (λ v. TellsFoundTable found.now v.is_right v.line.items) }
{
    match found {
        Found::Absent => Ok(Verdict {
            is_right: false,
            line: Vec::from_slice(alloc, b"error table absent\n")?,
        }),
        Found::Longer => Ok(Verdict {
            is_right: false,
            line: Vec::from_slice(alloc, b"error table long\n")?,
        }),
        Found::Bytes(text) => text_verdict(alloc, text.as_slice()),
    }
}

/// What is told of a text.
fn text_verdict(alloc: Global, text: &[u8]) -> Mem<Verdict>
    ensures { IfOk result (λ v. TellsTable text.now v.is_right v.line.items) }
{
    match read_dtab(alloc, text) {
        Ok(dtab) => Ok(Verdict {
            is_right: true,
            line: table_report(alloc, &dtab)?,
        }),
        Err(fault) => Ok(Verdict {
            is_right: false,
            line: fault_line(alloc, fault)?,
        }),
    }
}

/// The line that tells why a text is no table. Want of memory has none.
fn fault_line(alloc: Global, fault: DtabFault) -> Mem<Bytes>
    ensures { IfOk result (λ line. table_fault_line fault ≡ Some line.items) }
{
    let line = match fault {
        DtabFault::TooLong(_) => return Vec::from_slice(alloc, b"error table long\n"),
        DtabFault::Syntax(at) => format!(in alloc; "error table syntax {at}\n")?,
        DtabFault::TooNested(at) => format!(in alloc; "error table nested {at}\n")?,
        DtabFault::TooMany(count) => format!(in alloc; "error table many {count}\n")?,
        DtabFault::OutOfMemory => return Err(AllocError),
    };
    Vec::from_slice(alloc, line.as_bytes())
}

/// What is told of a table: its entries that are never asked, how many there are, and the table
/// without them.
fn table_report(alloc: Global, dtab: &Dtab) -> Mem<Bytes>
    ensures { IfOk result (λ text. text.items ≡ lint_of (rules_of dtab.now)) }
{
    let list = hidden(alloc, dtab)?;
    let rest = taken_out(alloc, dtab, &list)?;
    let mut text = Vec::new(alloc);
    for item in list.items() {
        put_hidden(alloc, dtab, *item, &mut text)?;
    }
    put_count(alloc, dtab.len(), list.items().len(), &mut text)?;
    put_table(alloc, &rest, &mut text)?;
    Ok(text)
}

/// Puts the line of an entry that is never asked behind some bytes.
fn put_hidden(alloc: Global, dtab: &Dtab, item: Hidden, out: &mut Bytes) -> Mem<()>
    ensures { OnOk result (out.new.items ≡ out.old.items ++ hidden_line (rules_of dtab.now) item) }
{
    let numbers = format!(in alloc;
        "hidden {} by {} ",
        u64::from(item.entry) + 1,
        u64::from(item.by) + 1
    )?;
    out.extend_from_slice(numbers.as_bytes())?;
    put_prefix(alloc, dtab, item.entry as usize, out)?;
    out.push(b'\n')?;
    Ok(())
}

/// Puts the prefix of the entry at a position behind some bytes, if there is such an entry.
fn put_prefix(alloc: Global, dtab: &Dtab, at: usize, out: &mut Bytes) -> Mem<()>
    ensures { OnOk result (out.new.items
        ≡ out.old.items ++ prefix_text (slice_get (rules_of dtab.now) at)) }
{
    let Some(entry) = dtab.entries().get(at) else {
        return Ok(());
    };
    let text = write_prefix(alloc, &entry.prefix)?;
    out.extend_from_slice(text.as_slice())
}

/// Puts the line that counts the entries behind some bytes.
fn put_count(alloc: Global, entries: usize, hidden: usize, out: &mut Bytes) -> Mem<()>
    ensures { OnOk result (out.new.items ≡ out.old.items ++ count_line entries hidden) }
{
    let line = format!(in alloc; "entries {entries} hidden {hidden}\n")?;
    out.extend_from_slice(line.as_bytes())
}

/// Puts the line of the table that is left behind some bytes.
fn put_table(alloc: Global, rest: &Dtab, out: &mut Bytes) -> Mem<()>
    ensures { OnOk result (out.new.items ≡ out.old.items ++ table_line (rules_of rest.now)) }
{
    if rest.len() == 0 {
        return out.extend_from_slice(b"table\n");
    }
    out.extend_from_slice(b"table ")?;
    out.extend_from_slice(write_dtab(alloc, rest)?.as_slice())?;
    out.push(b'\n')?;
    Ok(())
}
