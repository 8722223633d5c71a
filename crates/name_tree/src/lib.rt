//! Paths and trees of paths: the names of a service proxy that routes by logical name, in the
//! manner of Finagle, and their texts.
//!
//! A [`Path`] such as `/svc/web` is a list of labels. A [`Tree`] says what a name stands for, as
//! the Finagle user guide has it: a path that is looked up in turn, a mark (`~` negative, `!` fail,
//! `$` empty), alternatives that are tried in order, or a union whose branches share the requests
//! by their weights, which count in millionths. [`read_path`] and [`read_tree`] read texts,
//! [`write_path`] and [`write_tree`] write the canonical text. [`Tree::with_rest`] puts labels
//! behind every leaf.
//!
//! # What is proved
//! `specs/Grammar.antt` is the grammar as a table: which texts spell a label, a path, a weight, a
//! tree, and with what value. A text is read exactly where it is of the grammar, no longer than
//! [`MOST_BYTES`] and nested no deeper than [`MOST_OPEN`], and gives the value that it spells
//! there. Any other text is refused at the exact place: [`TextFault::Syntax`] holds the length of
//! the longest front of the text that begins some text of the grammar. A text stands for at most
//! one value, and the canonical text of a value is read as that value ([`texts_have_one_value`],
//! [`canonical_texts_read_back`]). `path_of` and `tree_of` of `specs/Computed.antt` compute the
//! same values byte by byte, for definitions that go by cases on what a text stands for
//! ([`computed_values_are_exact`]).
//!
//! A reader takes byte by byte ([`TreeReader`]), with a stack of its own for what is open, so that
//! a text can't exhaust the call stack, and each byte is looked at once. Each call that takes
//! memory takes an allocator and answers an error where there is none; what it then leaves is said
//! at the call.
//!
//! Its tests are `grammar_tests`' modules `names` and `long_paths`.
//!
//! # Example
//! ```
//! let tree = read_tree(alloc, b"/a|/b&.50*(~)")?;
//! // `/a | 1 * /b & 0.5 * ~`
//! let text = write_tree(alloc, &tree)?;
//! // The `&` stands, and no branch follows it.
//! assert_eq!(read_tree(alloc, b"/a &").err(), Some(TextFault::Syntax(4)));
//! let path = read_path(alloc, b"/svc/web/users")?;
//! // `/a/users | 1 * /b/users & 0.5 * ~`
//! let rewritten = tree.with_rest(alloc, &path, 2)?;
//! ```
#![tactic(auto)]

use std::alloc::AllocError;

mod flat_labels;
mod label;
mod label_ends;
mod laws;
mod lean;
mod path;
mod path_text;
mod read;
mod shared_labels;
mod tree;
mod tree_text;
mod union;
mod walk;
mod weight;
mod weight_text;
mod write;

pub use label::{LabelReader, TakeError, is_blank_byte, is_plain_byte};
pub use laws::{canonical_texts_read_back, computed_values_are_exact, texts_have_one_value};
pub use path::Path;
pub use path_text::is_in_paths;
pub use read::{MOST_BYTES, MOST_OPEN, TextFault, read_path, read_tree};
pub use tree::{Branch, Branches, Tree, Trees};
pub use tree_text::TreeReader;
pub use weight_text::{computed_weights_are_exact, read_weight};
pub use write::{append_label, append_path, append_tree, append_weight, write_path, write_tree};

/// A value, unless there was no memory for it.
pub type Mem<T> = Result<T, AllocError>;

/// Bytes of a text.
pub type Bytes = Vec<u8>;
