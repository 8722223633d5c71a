//! Tests of delegation, of what is kept of it, of a router's state, of its services one by one, of
//! the lines of scripts, and of schedules.
#![tactic(auto)]

#[cfg(test)]
mod binding;
#[cfg(test)]
mod cache;
#[cfg(test)]
mod given;
#[cfg(test)]
mod lines;
#[cfg(test)]
mod schedule;
#[cfg(test)]
mod services;
#[cfg(test)]
mod state;
#[cfg(test)]
mod view;
