//! The lines of an access log: one for each exchange, in words with one space between them.
//!
//! An [`Entry`] is what an exchange was, and [`write_line`] gives its line. A worker keeps one
//! buffer for its lines, and hands each whole line to whatever appends it to the file, so that a
//! line takes no memory once the buffer has been as long. [`Break::of`] says what the end of a
//! session means for the exchange that it cut off.
//!
//! ```text
//! 2026-11-29T05:48:01.123Z 10.0.0.7:51234 "GET /a?b HTTP/1.1" 200 5120 17 /svc/web 10.0.1.3:8080 -
//! ```
//!
//! The words are, in order:
//!
//! | word | is |
//! |---|---|
//! | moment | when the request's head had been read, in UTC (RFC 3339, milliseconds) |
//! | client | the client's address and port; `-` where it is not known |
//! | request | method, target and version in quotation marks; `"-"` where no head was read |
//! | status | the three digits of the reply's status code; `-` where no reply began |
//! | bytes | how many bytes of the reply's content went back; of an own reply, all of it |
//! | time | how many milliseconds passed until the reply's end |
//! | name | the path that the request was identified as; `-` where it has none |
//! | replica | the address of the replica that was tried last; `-` where none was |
//! | end | the word of the router's own reply, or what cut the exchange off; `-` where neither is |
//!
//! In the method and the target a quotation mark, a backslash and each byte outside of printable
//! ASCII is written as `\x` and two hexadecimal digits, so that what a client sends can't end a
//! line or a word in quotation marks.
//!
//! # What is proved
//! [`write_line`] gives exactly the bytes of `line_text` of `specs/Line.antt`, for every entry. The
//! date of a moment is that of `date_of` of `specs/Calendar.antt`: 1970-01-01, and from there on
//! each day the date after that of the day before. That memory is there is not proved.
//!
//! Its tests are `operator_tests`' modules `lines` and `classes`.
//!
//! # Example
//! ```
//! let mut line = Vec::new(alloc);
//! let entry = Entry {
//!     moment: clock.now(),
//!     client: peer.address(),
//!     request: Some(RequestLine { method: b"GET", target: b"/a?b", version: 1 }),
//!     answer: Answer::Passed { status: 200 },
//!     bytes: 5120,
//!     milliseconds: 17,
//!     name: Some(&path),
//!     replica: Some(replica),
//!     broken: None,
//! };
//! write_line(&entry, &mut line)?;
//! ```
#![tactic(auto)]

use std::alloc::AllocError;

mod calendar;
mod ending;
mod entry;
mod line;
mod moment;
mod shown;

pub use ending::{Answer, Break};
pub use entry::{Entry, RequestLine};
pub use line::write_line;

/// A value, unless there was no memory for it.
pub type Mem<T> = Result<T, AllocError>;

/// Bytes of a text.
pub type Bytes = Vec<u8>;
