//! Tests of the outside in memory, of the index of prefixes, and of small texts and those of paths,
//! trees and tables.
#![tactic(auto)]

#[cfg(test)]
mod index;
#[cfg(test)]
mod long_paths;
#[cfg(test)]
mod long_texts;
#[cfg(test)]
mod names;
#[cfg(test)]
mod outside;
#[cfg(test)]
mod tables;
#[cfg(test)]
mod texts;
#[cfg(test)]
mod told;
