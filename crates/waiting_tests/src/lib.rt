//! Tests of the lot in which connections wait.
#![tactic(auto)]

#[cfg(test)]
mod lots;
