//! The words of a command line, and the lines that a command tells where it neither serves nor
//! reads a script.
//!
//! [`read_words`] reads which [`Command`] the words ask for. [`check`] tells whether the
//! configuration at a path is right, or what its first fault is, and [`configured`] gives the
//! configuration itself, for who serves by it. [`lint`] tells which entries of the table at a path
//! are never asked. [`storm_line`] and [`weave_line`] sum a generated run up in a line.
//!
//! The crate `linker_commands` carries the commands out: it writes what is told here, and serves.
//! None of this needs a router that serves, so it stands apart from what does.
//!
//! # What is proved
//! The words are read exactly as `specs/Words.antt` says, with the place of the first that fits no
//! command. What is told of a configuration or a table, and whether it is right, is what
//! `specs/Check.antt` and `specs/Lint.antt` say of what is found at the path; nothing is told only
//! where the folder failed or there was no memory. The lines of generated runs are those of
//! `specs/Generated.antt`.
//!
//! Its tests are those of `linker_tests`.
//!
//! # Example
//! ```
//! let words = [String::from_str(alloc, "lint")?, String::from_str(alloc, "web.dtab")?];
//! match read_words(&words) {
//!     Ok(Command::Lint(path)) => lint(alloc, &mut folder, path), // a Verdict, with its lines
//!     Ok(_) => { /* another command */ }
//!     Err(place) => { /* the word there fits no command */ }
//! }
//! ```
#![tactic(auto)]

use std::alloc::AllocError;

mod checking;
mod generated;
mod linting;
mod words;

pub use checking::{CheckEnd, ConfigEnd, Verdict, check, configured};
pub use generated::{storm_line, weave_line};
pub use linting::lint;
pub use words::{Command, Following, Generated, read_words};

/// A value, unless there was no memory for it.
pub type Mem<T> = Result<T, AllocError>;

/// Bytes of a text.
pub type Bytes = Vec<u8>;
