//! The texts of entries, by which those that are the same are found.
ghost use Rattle.std.specs.Prelude.{◌≡◌, ◌+◌, ◌<◌, ◌^◌, length, map, IfOk, Some};
ghost use Rattle.dtab_table.specs.Rules.{rule_of};
ghost use Rattle.dtab_table.specs.TableCanon.{canon_rule};
ghost use Rattle.dtab_check.specs.Notes.{last_same};
ghost use Rattle.dtab_check.specs.Texts.{texts_in};

use crate::Mem;
use crate::entry_text::EntryText;
use dtab_table::Entry;
use std::alloc::Global;

/// The texts of some entries, in their order.
pub(crate) fn texts_of(alloc: Global, entries: &[Entry]) -> Mem<Vec<EntryText>>
    ensures texts { IfOk result (λ texts. texts_in texts.items
        ≡ map canon_rule (map rule_of entries.now)) }
    ensures many { IfOk result (λ texts. length texts.items ≡ length entries.now) }
{
    let mut texts = Vec::with_capacity(alloc, entries.len())?;
    for entry in entries {
        texts.push(EntryText::of(alloc, entry)?)?;
    }
    Ok(texts)
}

/// The position of the last of some texts that is the same as another, where the first of them has
/// this position. It looks from the last on, and no further than that one.
pub(crate) fn find_last_same(texts: &[EntryText], first: usize, own: &EntryText) -> Option<usize>
    requires { first + length texts.now < 2 ^ 32 }
    ensures same { result ≡ last_same first (texts_in texts.now) own.now.bytes.items }
    ensures place { (at : _) → result ≡ Some at → at < first + length texts.now }
{
    let mut at = texts.len();
    while at > 0 {
        at -= 1;
        if texts[at].is_same(own) {
            return Some(first + at);
        }
    }
    None
}
