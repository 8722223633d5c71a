//! Entries of delegation tables that are never asked: a later entry covers them, and is never
//! negative.
//!
//! A table that has been edited for long keeps entries that nothing reaches any more. [`hidden`]
//! names them, each with the last of the later entries that cover it, and [`taken_out`] is the
//! table without them. The book of services is not at hand, so a leaf that names a service is not
//! taken to be bound.
//!
//! # What is proved
//! `specs/Hidden.antt` says which entries those are. A later entry covers an earlier one where its
//! prefix matches whatever the earlier one's does, label by label. A tree is sure, as
//! `specs/Sure.antt` has it, where it has a mark `!` or `$` that can be asked, a leaf that names an
//! address, or a leaf that an entry with a sure tree matches. That goes in rounds over the table,
//! as many as it has entries; [`hidden`] keeps what is found in place of the rounds, and follows
//! each entry once.
//!
//! A table without these entries may stand in its place, as `specs/Laws.antt` says: every path
//! comes to the same, at the same cost, by the same lookups in the same order, with every book,
//! whatever table stands before it and whatever table stands behind it. So an edit that takes them
//! out changes nothing for the namespace, nor beside the configured table and a request's own. It
//! is a law about the definitions ([`hidden_entries_are_never_asked`]) and a clause of both calls.
//! A covered entry is never tried, so it has no part in the limits: where the cover's tree is too
//! deep, or the delegation is too wide, it is so without the entry too.
//!
//! That an entry is not named says nothing: a later entry may be sure for a reason that no table
//! shows, as a service that is always there.
//!
//! [`notes_of`] is what else the text of a table shows to people who read it: exactly the notes of
//! `specs/Notes.antt`, which say which entries lead to services, which have a branch of weight 0,
//! and which have the same canonical text as a later one.
//!
//! Its tests are the crate `dtab_check_tests`.
//!
//! # Example
//! ```
//! let dtab = read_dtab(alloc, b"/svc => /a; /svc/web => /b; /svc => /$/inet/127.0.0.1/80")?;
//! let list = hidden(alloc, &dtab)?;
//! assert_eq!(list.items()[1], Hidden { entry: 1, by: 2 });
//! // `/svc=>/$/inet/127.0.0.1/80`
//! let text = write_dtab(alloc, &taken_out(alloc, &dtab, &list)?)?;
//! ```
#![tactic(auto)]

use std::alloc::AllocError;

mod covers;
mod entries;
mod entry_text;
mod found;
mod hidden_list;
mod idle;
mod indexed;
mod laws;
mod live;
mod note_list;
mod notes;
mod prefixes;
mod search;
mod sure;
mod taking_out;
mod texts;

pub use hidden_list::{Hidden, HiddenList};
pub use laws::hidden_entries_are_never_asked;
pub use note_list::{Note, NoteList, Remark};
pub use notes::notes_of;
pub use search::hidden;
pub use taking_out::taken_out;

/// A value, unless there was no memory for it.
pub type Mem<T> = Result<T, AllocError>;
