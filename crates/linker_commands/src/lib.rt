//! The commands of `linker`, over any folder, net, clock, input and output.
//!
//! [`linker`] does what the words of a command line say. `replay` reads a script from the input and
//! carries its lines out on one state of a router: changes of namespaces, services and marks,
//! looks, and picks; the crate `script` plays it. `check CONFIG` tells whether a
//! router's configuration is right, or what its first fault is. `lint FILE` tells which entries of
//! a table are never asked. `serve CONFIG` serves by it until it is shut down: a router, its
//! interfaces and its feed, which the crate `serving` runs. `storm N SEED` makes a run of N
//! generated changes and picks on one state, and `weave N SEED` one of four passes, whose answers
//! come later than their questions. `follow A NS N` asks another router, the leader at A, N times
//! for the table of its namespace NS, and tells each that is later than those before it; the crate
//! `follow_feed` does that. What the words are, and what `check`, `lint`, `storm` and `weave` tell,
//! is made in the crate `command_lines`.
//!
//! [`run_arguments`] calls it with the arguments of a process and gives the code to exit with. The
//! program is a `main` that makes an [`Outside`] of the machine's files, sockets, clock and
//! streams: so all that it decides is decided here, where tests hand in an outside in memory. Its
//! tests are those of `linker_tests`.
//!
//! # What is proved
//! At status 0 the output has grown by the replay of what was read, as `script` defines it over the
//! whole language of scripts, or by the one line of the configuration that was found, by what is
//! told of a table, or by the line of the generated run, as the specs of `command_lines` have them,
//! or by the lines that tell where a router served and how many changes there were, as
//! `specs/Served.antt` has them: that router did what `serving` says of a run, with all its
//! listeners clean and as many connections finished as were accepted, and whoever scraped it read
//! the words in which its workers publish their counts (`specs/Recorded.antt`); or by the lines
//! that tell what a leader's feeds came to, as `specs/Follow.antt` says. Each other status has its
//! cause; and where nothing fails, a script is carried out in full, and a configuration, a table
//! and a generated run are told of. These are clauses of [`linker`]. The code to exit with is the
//! status for exactly the words after the program's name: a clause of [`run_arguments`].
//!
//! # Example
//! ```text
//! let words = [String::from_str(alloc, "replay")?];
//! let status = linker(rt, &words, &mut outside);
//! // For `dtab /svc => /$/inet/127.0.0.1/8080` and `pick /svc/a` on the input, 0, and written are
//! // `ok` and `127.0.0.1:8080 /$/inet/127.0.0.1/8080 /a`.
//! ```
#![tactic(auto)]

use std::alloc::AllocError;

mod follow;
mod outside;
mod program;
mod recording;
mod run;
mod serve;
mod start;

pub use outside::Outside;
pub use program::linker;
pub use run::{ExitStatus, tell};
pub use start::{Exit, run_arguments, words_behind_name};

/// A value, unless there was no memory for it.
pub type Mem<T> = Result<T, AllocError>;

/// Bytes of a text.
pub type Bytes = Vec<u8>;
