//! The text of an entry.
ghost use Rattle.std.specs.Prelude.{◌≡◌, IfOk};
ghost use Rattle.std.specs.Str.{bytes_eq};
ghost use Rattle.text_parts.specs.Hash.{text_hash};
ghost use Rattle.dtab_table.specs.Rules.{rule_of};
ghost use Rattle.dtab_table.specs.TableCanon.{canon_rule};

use crate::Mem;
use dtab_table::{Entry, write_prefix};
use name_tree::append_tree;
use std::alloc::Global;
use text_parts::fnv_hash;

/// The text of an entry, with its hash, which tells most texts apart that differ.
pub(crate) struct EntryText {
    pub(crate) bytes: Vec<u8>,
    hash: u64,
    ghost hashed: { hash ≡ text_hash bytes.items },
}

impl Drop for EntryText {
    fn drop(self) {
        let EntryText { bytes, hash: _ } = self;
        drop(bytes);
    }
}

impl EntryText {
    /// The canonical text of an entry.
    pub(crate) fn of(alloc: Global, entry: &Entry) -> Mem<EntryText>
        ensures { IfOk result (λ text. text.bytes.items ≡ canon_rule (rule_of entry.now)) }
    {
        let mut bytes = write_prefix(alloc, &entry.prefix)?;
        bytes.extend_from_slice(b"=>")?;
        append_tree(&entry.tree, &mut bytes)?;
        let hash = fnv_hash(bytes.as_slice());
        Ok(EntryText { bytes, hash })
    }

    /// Whether the other text is the same.
    pub(crate) fn is_same(&self, other: &EntryText) -> bool
        ensures { result ≡ bytes_eq self.now.bytes.items other.now.bytes.items }
    {
        if self.hash != other.hash {
            return false;
        }
        self.bytes.as_slice() == other.bytes.as_slice()
    }
}
