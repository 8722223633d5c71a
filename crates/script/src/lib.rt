//! Scripts for a router: the lines that ask for changes, looks and picks, what they do, and the
//! texts of the replies.
//!
//! [`play`] carries a whole script out and writes the replies to its lines; [`read_all`] reads it
//! before, and [`write_all`] writes what else there is to tell. Line by line, [`read_line`] reads a
//! [`Line`], [`carry_out`] carries it out on a state of the router, and [`reply_text`] writes the
//! reply to it. [`script_settings`] is what the router of scripts is set up with. [`storm`] makes a
//! run of generated changes and picks, and sums it up in a line. [`read_addr`] reads a word that is
//! an address.
//!
//! # Lines
//! Words stand between spaces and tabs. TABLE goes from its first other byte to the end of the
//! line.
//!
//! | line | asks |
//! |---|---|
//! | `dtab TABLE` | the table of the namespace `default` |
//! | `create NAME TABLE` | a new namespace |
//! | `put NAME VERSION TABLE`, `delete NAME VERSION` | the namespace of this version, `*` for any |
//! | `get NAME`, `list` | a namespace's version and table, the names of all |
//! | `addrs NAME ADDRESS ..`, `drop NAME` | a service's addresses: `host:port`, or with `*weight` |
//! | `fail ADDRESS MOMENT`, `good ADDRESS MOMENT` | a report on an address |
//! | `pick PATH`, `pick PATH MOMENT WORD WORD WORD TABLE` | a replica for a path |
//! | `view PATH` | how a path is delegated |
//!
//! # What is proved
//! A line is read exactly as `specs/Line.antt` has it, and [`LineFault::BadLine`] comes exactly
//! where it is outside the grammar. What a line is answered and the state that it leaves are
//! exactly those of `specs/Carried.antt`. The text of a reply is exactly that of
//! `specs/Reply.antt`. What a whole script writes is its replay, as `specs/Replay.antt` has it;
//! where memory is wanting it is the whole replies to its first lines, and where a write fails a
//! front of the replay. [`read_all`] gives exactly the bytes of a source, and [`write_all`] hands
//! them all on, each end with its cause. The turns of a generated run are exactly those of
//! `specs/Turns.antt`, and its line is that of `specs/Storm.antt`.
//!
//! Its tests are `state_tests`' module `lines`, and those of whole scripts `linker_tests`.
//!
//! # Example
//! ```
//! let settings = script_settings(alloc)?;
//! let mut state = State::start(alloc)?;
//! let line = read_line(alloc, b"dtab /svc => /$/inet/127.0.0.1/8080")?;
//! let said = carry_out(alloc, &settings, &mut state, line, &mut steps)?;
//! // Some(Said::Ok), whose text is `ok`.
//! ```
#![tactic(auto)]

use std::alloc::AllocError;

mod addrs;
mod answers;
mod carried;
mod command;
mod ends;
mod laws;
mod line;
mod player;
mod reply;
mod run;
mod turn;
mod words;

pub use carried::{carry_out, script_settings};
pub use ends::{ReadEnd, read_all, write_all};
pub use laws::computed_lines_are_exact;
pub use line::{Line, read_line};
pub use player::{PlayEnd, play};
pub use reply::{Said, reply_text};
pub use run::storm;
pub use words::{LineFault, read_addr};

/// A value, unless there was no memory for it.
pub type Mem<T> = Result<T, AllocError>;

/// Bytes of a text.
pub type Bytes = Vec<u8>;
