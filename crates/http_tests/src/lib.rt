//! Tests of heads and bodies, of how a request is named and goes on, of the replies that the router
//! writes itself, and of its configuration.
#![tactic(auto)]

#[cfg(test)]
mod bodies;
#[cfg(test)]
mod configuration;
#[cfg(test)]
mod forwarding;
#[cfg(test)]
mod heads;
#[cfg(test)]
mod naming;
#[cfg(test)]
mod replies;
#[cfg(test)]
mod requests;
