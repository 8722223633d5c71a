//! Delegation tables: what a path that begins with a prefix is rewritten to, in the manner of
//! Finagle's dtabs.
//!
//! A [`Dtab`] is a list of entries `prefix => tree` with `;` between them. [`read_dtab`] reads its
//! text, [`write_dtab`] writes the canonical one, and [`Dtab::lookup`] gives what it rewrites a
//! path to: the trees of all entries whose prefix matches the path, the last entry first, each with
//! the rest of the path behind every leaf. [`Dtab::matching`] lends these entries, and copies
//! nothing. A [`Prefix`] matches a path that has at least as many labels, where each label of the
//! prefix is the same as the path's or is `*`, which stands for any one label.
//!
//! # What is proved
//! `specs/TableGrammar.antt` is the grammar as a table, on that of trees. A table's text is read
//! exactly where it is of the grammar and within the limits, and gives the entries that it spells,
//! in order. Any other text is refused for its first cause: its length, the first parenthesis that
//! is too deep, the place where it leaves the grammar, or the number of its entries
//! ([`DtabFault`]). A text stands for at most one value, and the canonical text of a value is read
//! as that value ([`texts_have_one_value`], [`canonical_texts_read_back`]). `table_of` of
//! `specs/Computed.antt` computes the same values byte by byte, for definitions that go by cases on
//! what a text stands for ([`computed_values_are_exact`]). A lookup is exactly `rewrites` of
//! `specs/Dtab.antt`, and takes at least one step of the [`Steps`](step_count::Steps) that it is
//! lent.
//!
//! Its tests are `grammar_tests`' module `tables`.
//!
//! # Example
//! ```
//! let dtab = read_dtab(alloc, b"/svc => /srv/a ; /svc/* => /srv/b")?;
//! // `/svc=>/srv/a;/svc/*=>/srv/b`
//! let text = write_dtab(alloc, &dtab)?;
//! let path = read_path(alloc, b"/svc/web/users")?;
//! // `/srv/b/users`, and then `/srv/a/web/users`
//! let trees = dtab.lookup(alloc, &path, &mut steps)?;
//! // `*` stands in a prefix alone.
//! assert_eq!(read_dtab(alloc, b"/a => /*").err(), Some(DtabFault::Syntax(7)));
//! ```
#![tactic(auto)]

use std::alloc::AllocError;

mod dtab;
mod entry;
mod joining;
mod laws;
mod lean_tree;
mod lending;
mod matching;
mod parts;
mod places;
mod prefix;
mod prefix_reader;
mod prefix_text;
mod read;
mod table_reader;
mod tree_list;
mod write;

pub use dtab::Dtab;
pub use entry::{Entry, EntryList};
pub use joining::joined;
pub use laws::{
    canonical_texts_read_back, computed_values_are_exact, only_matches_rewrite,
    texts_have_one_value,
};
pub use lean_tree::LeanTree;
pub use prefix::{Prefix, PrefixLabel};
pub use read::{DtabFault, MOST_ENTRIES, PrefixFault, read_dtab, read_entries, read_prefix};
pub use tree_list::TreeList;
pub use write::{write_dtab, write_prefix};

/// A value, unless there was no memory for it.
pub type Mem<T> = Result<T, AllocError>;

/// Bytes of a text.
pub type Bytes = Vec<u8>;
