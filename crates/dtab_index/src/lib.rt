//! An index over prefixes of paths: which of them match a path, found without a look at the others.
//!
//! An [`Index`] is a list of prefixes, each with its position. A prefix is a list of labels, of
//! which some may be `*`; it matches a path that has at least as many labels, where each label of
//! the prefix is the same as the path's or is `*`, which stands for any label. [`Index::matching`]
//! gives the positions of all prefixes that match a path, the greatest first: exactly `matching` of
//! `specs/Index.antt`, which is defined over the list alone.
//!
//! For each position of labels the index has an exact map from a label to a set of prefixes, a bit
//! for each: those that have this label there. A look-up takes the set of all prefixes and, label
//! by label of the path, leaves those that have the path's label there, `*`, or no label any more;
//! what is left where the path or the longest prefix ends are the prefixes that match. So it costs
//! one look-up in a map for each label, and a word for each 64 prefixes, whatever `*` they have. It
//! ends early where no prefix has the path's label, and none is left.
//!
//! ```text
//! let mut index = Index::new(alloc);
//! index.add(vec![in alloc; Some(svc), Some(web)]?, 0)?;
//! index.add(vec![in alloc; None]?, 1)?;
//! // 1, 0 for `/svc/web/x`, and 1 for `/other`
//! let places = index.matching(alloc, &path)?;
//! ```
//!
//! Its tests are `grammar_tests`' module `index`.
#![tactic(auto)]

use std::alloc::AllocError;

mod bits;
mod column;
mod columns;
mod index;
mod part;
mod parts;

pub use index::Index;

/// A value, unless there was no memory for it.
pub type Mem<T> = Result<T, AllocError>;
