//! Tests of the entries of tables that are never asked, and of notes on tables.
#![tactic(auto)]

#[cfg(test)]
mod notes;
#[cfg(test)]
mod rows;
