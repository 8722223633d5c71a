//! The small texts that a router reads and writes everywhere: lines and their words, numbers, JSON
//! strings, hexadecimal digits, and a hash of bytes.
//!
//! Address files, scripts, the words of a command line, paths, requests and replies are made of the
//! same few pieces. Each stands here once, over bytes, as what comes over a socket or from a file
//! need not be UTF-8:
//!
//! - [`cut_line`] takes a text apart line by line, where it lies. [`without_gap`], [`split_word`],
//!   [`single_word`] and [`cut_at`] take a line apart into its words.
//! - [`read_number`] and [`read_number_to`] read decimal digits, and [`append_number`] writes them.
//!   A number has one text here, without a sign and without leading zeros: what is told apart as a
//!   text is told apart as a number, too. (The standard library's `parse` takes `+7` and `007`.)
//! - [`append_json_string`] writes a text as a JSON string, and [`append_spaced`] a text behind a
//!   space.
//! - [`hex_digit`] is a digit to the base 16.
//! - [`fnv_hash`] is the hash FNV-1a. It is fast on short texts and has no secret. So it fits where
//!   what is found never rests on the hash, and no use of it may rest on how its values spread.
//!
//! Reading takes no memory. What writes puts its text behind the bytes that are there.
//!
//! # What is proved
//! Each call gives exactly the value that `specs/` defines for its text. [`lines_are_exact`] is the
//! law that the lines that are computed are those of the grammar, and no others, and
//! [`numbers_are_exact`] that a text is read as a number exactly where it is the one that is
//! written for it.
//!
//! Its tests are `grammar_tests`' module `texts`.
//!
//! # Example
//! ```
//! let text = b"web 127.0.0.1:9001\r\n";
//! let cut = cut_line(text, 0);
//! let (name, rest) = split_word(&text[..cut.stop]); // `web`, and ` 127.0.0.1:9001`
//! let (host, port) = cut_at(without_gap(rest), b':'); // `127.0.0.1`, and `9001` behind the `:`
//! assert_eq!(port.and_then(|port| read_number_to(port, 65_535)), Some(9_001));
//! let mut reply = Vec::new(alloc);
//! append_json_string(name, &mut reply)?; // `"web"`
//! ```
#![tactic(auto)]

use std::alloc::AllocError;

mod hash;
mod hex;
mod json;
mod laws;
mod lines;
mod numbers;
mod words;

pub use hash::{FNV_BASIS, fnv_hash, fnv_mix, fnv_mix_bytes};
pub use hex::hex_digit;
pub use json::append_json_string;
pub use laws::{lines_are_exact, numbers_are_exact};
pub use lines::{Cut, cut_line};
pub use numbers::{append_number, read_number, read_number_to};
pub use words::{append_spaced, cut_at, single_word, split_word, without_gap};

/// A value, unless there was no memory for it.
pub type Mem<T> = Result<T, AllocError>;

/// Bytes of a text.
pub type Bytes = Vec<u8>;
