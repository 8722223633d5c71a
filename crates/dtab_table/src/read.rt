//! The readers of prefixes and tables.
ghost use Rattle.std.specs.Prelude.{◌≡◌, ◌⊎◌, List, Some, None, IfOk, MatchResult, map};
ghost use Rattle.dtab_table.specs.Pattern.{Pattern};
ghost use Rattle.dtab_table.specs.Rules.{Rule, rule_of};
ghost use Rattle.dtab_table.specs.TableCanon.{ArePatterns, AreSoundRules};
ghost use Rattle.dtab_table.specs.Dtab.{rules_of};
ghost use Rattle.dtab_table.specs.TableGrammar.{PrefixText};
ghost use Rattle.dtab_table.specs.Computed.{table_of};
ghost use Rattle.dtab_table.specs.Answers.{IsTable, DtabFaultFits, PrefixFaultFits};

use crate::dtab::Dtab;
use crate::entry::EntryList;
use crate::prefix::Prefix;
use crate::prefix_text::PrefixTextReader;
use crate::table_reader::TableReader;
use name_tree::{MOST_BYTES, MOST_OPEN, TakeError};
use std::alloc::Global;
use thiserror::Error;

/// The most entries of a table that is read: 1,024.
pub const MOST_ENTRIES: usize = 1_024;

/// Why a text was not read as a prefix.
#[derive(Clone, Copy, Debug, PartialEq, Eq, Error)]
pub enum PrefixFault {
    /// It is none.
    #[error("the text is no prefix")]
    NotPrefix,
    /// There was no memory for it.
    #[error("out of memory")]
    OutOfMemory,
}

/// Why a text was not read as a table.
#[derive(Clone, Copy, Debug, PartialEq, Eq, Error)]
pub enum DtabFault {
    /// The text is longer than so many bytes.
    #[error("table long")]
    TooLong(usize),
    /// The first `(` that stands inside 64 open parentheses stands here, and the text up to it and
    /// with it begins some table's text.
    #[error("table nested {0}")]
    TooNested(usize),
    /// The text is no table, and its first so many bytes are the longest front of it that begins
    /// some table's text.
    #[error("table syntax {0}")]
    Syntax(usize),
    /// The table has so many entries, more than 1,024.
    #[error("table many {0}")]
    TooMany(usize),
    /// There was no memory for the table.
    #[error("out of memory")]
    OutOfMemory,
}

/// Reads the text of a prefix: a path in which a whole label may be `*`, with blanks (space, tab,
/// CR, LF) at both ends.
///
/// It takes time linear in the text, of which any length is read.
pub fn read_prefix(alloc: Global, text: &[u8]) -> Result<Prefix, PrefixFault>
    ensures exact { MatchResult result (λ prefix. PrefixText text.now prefix)
        (PrefixFaultFits text.now) }
    ensures only { (labels : List Pattern) → PrefixText text.now labels
        → MatchResult result (λ prefix. prefix ≡ labels)
        (λ fault. fault ≡ PrefixFault.OutOfMemory) }
    ensures labels { IfOk result (λ prefix. ArePatterns prefix) }
{
    prefix_in(alloc, text)
}

/// The prefix that a text stands for.
fn prefix_in(alloc: Global, text: &[u8]) -> Result<Prefix, PrefixFault>
    ensures { MatchResult result (λ prefix. PrefixText text.now prefix) (PrefixFaultFits text.now) }
{
    let mut reader = PrefixTextReader::new(alloc);
    for byte in text {
        match reader.take(alloc, *byte) {
            Ok(()) => {}
            Err(TakeError::Byte) => {
                drop(reader);
                return Err(PrefixFault::NotPrefix);
            }
            Err(TakeError::OutOfMemory) => {
                drop(reader);
                return Err(PrefixFault::OutOfMemory);
            }
        }
    }
    match reader.end(alloc) {
        Ok(prefix) => Ok(prefix),
        Err(TakeError::Byte) => Err(PrefixFault::NotPrefix),
        Err(TakeError::OutOfMemory) => Err(PrefixFault::OutOfMemory),
    }
}

/// Reads the text of a table: any number of places separated by `;`, each an entry or nothing, with
/// blanks (space, tab, CR, LF) at both ends and between any two tokens, as the Finagle user guide
/// writes dtabs. An entry is a prefix, `=>` and a tree. A prefix is written as a path, in which a
/// whole label may be `*`.
///
/// It takes time linear in the text.
pub fn read_dtab(alloc: Global, text: &[u8]) -> Result<Dtab, DtabFault>
    ensures exact { MatchResult result (λ dtab. IsTable text.now (rules_of dtab))
        (DtabFaultFits text.now) }
    ensures only { (rules : List Rule) → IsTable text.now rules
        → MatchResult result (λ dtab. rules_of dtab ≡ rules)
        (λ fault. fault ≡ DtabFault.OutOfMemory) }
    ensures computed { MatchResult result (λ dtab. table_of text.now ≡ Some (rules_of dtab))
        (λ fault. (fault ≡ DtabFault.OutOfMemory) ⊎ (table_of text.now ≡ None)) }
    ensures sound { IfOk result (λ dtab. AreSoundRules (rules_of dtab)) }
{
    dtab_in(alloc, text)
}

/// Reads the text of a table, as [`read_dtab`] does, and gives its entries in place of a table of
/// them.
///
/// It takes time linear in the text.
pub fn read_entries(alloc: Global, text: &[u8]) -> Result<EntryList, DtabFault>
    ensures exact { MatchResult result (λ list. IsTable text.now (map rule_of list))
        (DtabFaultFits text.now) }
    ensures computed { MatchResult result (λ list. table_of text.now ≡ Some (map rule_of list))
        (λ fault. (fault ≡ DtabFault.OutOfMemory) ⊎ (table_of text.now ≡ None)) }
    ensures sound { IfOk result (λ list. AreSoundRules (map rule_of list)) }
{
    entries_in(alloc, text)
}

/// The table that a text stands for.
fn dtab_in(alloc: Global, text: &[u8]) -> Result<Dtab, DtabFault>
    ensures { MatchResult result (λ dtab. IsTable text.now (rules_of dtab))
        (DtabFaultFits text.now) }
{
    let entries = match entries_in(alloc, text) {
        Ok(entries) => entries,
        Err(fault) => return Err(fault),
    };
    match Dtab::of(alloc, entries) {
        Ok(dtab) => Ok(dtab),
        Err(_) => Err(DtabFault::OutOfMemory),
    }
}

/// The entries of the table that a text stands for.
fn entries_in(alloc: Global, text: &[u8]) -> Result<EntryList, DtabFault>
    ensures { MatchResult result (λ list. IsTable text.now (map rule_of list))
        (DtabFaultFits text.now) }
{
    if text.len() > MOST_BYTES {
        return Err(DtabFault::TooLong(MOST_BYTES));
    }
    let mut reader = TableReader::new(alloc);
    for (at, byte) in text.iter().enumerate() {
        match reader.take(alloc, *byte) {
            Ok(()) => {}
            Err(TakeError::Byte) => {
                drop(reader);
                return Err(DtabFault::Syntax(at));
            }
            Err(TakeError::OutOfMemory) => {
                drop(reader);
                return Err(DtabFault::OutOfMemory);
            }
        }
        if reader.depth() > MOST_OPEN {
            drop(reader);
            return Err(DtabFault::TooNested(at));
        }
    }
    let entries = match reader.end(alloc) {
        Ok(entries) => entries,
        Err(TakeError::Byte) => return Err(DtabFault::Syntax(text.len())),
        Err(TakeError::OutOfMemory) => return Err(DtabFault::OutOfMemory),
    };
    let count = entries.len();
    if count > MOST_ENTRIES {
        return Err(DtabFault::TooMany(count));
    }
    Ok(EntryList::of(entries))
}
