//! What a router has done, read off the words of its workers, for whoever scrapes it.
//!
//! A [`Scraper`] reads each published word of all workers once and sums them by their places
//! ([`Scrape::sums`]), and [`Sums::counts`] gives these, beside what the router's state tells
//! ([`State`]), as the numbers that [`write_metrics`](metrics_text::write_metrics) writes. It takes
//! no memory, and makes no worker wait. The words are read one by one, while the workers go on: a
//! scrape is no snapshot. Code that scrapes is generic over [`Scrape`]; [`NoWords`] has nothing to
//! read.
//!
//! # What is proved
//! Each number is the sum of what was found in the words of its place, each read once
//! (`specs/Sums.antt`), up to the last value of a `u64`; and each stands in the field that has its
//! name (`specs/Counts.antt`). That what is found in a word was its worker's count at some moment,
//! and is not below what the same reader found before, is the rule of [`count_words`]. A scraper
//! tells which words these are, and reads the same ones for as long as it is there
//! (`specs/Scrapes.antt`). Its tests are `operator_tests`' module `recorded`.
//!
//! # Example
//! ```
//! let mut scraper = Scraper::new(clock.fork(), &counts, reader, workers);
//! let sums = scraper.sums();
//! write_metrics(&sums.counts(&state), &services, &mut text)?;
//! ```
#![tactic(auto)]

mod counts;
mod scraper;
mod sums;

pub use counts::State;
pub use scraper::{NoWords, Scrape, Scraper};
pub use sums::Sums;
