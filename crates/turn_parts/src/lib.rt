//! What generated runs are made of: addresses of this machine, services, tables that send them to
//! the book, and the changes and picks of these.
//!
//! A run of one caller and a run of several draw their turns from a seed by rules of their own.
//! What a turn then sets, asks for or puts is made here, by numbers: [`first_change`],
//! [`addrs_change`] and [`table_change`] are changes, [`draw_ask`] is a pick by the next words of a
//! generator, and [`local_addr`] and [`service_name`] are what other changes speak of.
//!
//! # What is proved
//! Each call gives exactly the value that `specs/Parts.antt` has for its numbers and words, and the
//! tables are sound: each prefix and tree in them is of bytes.
//!
//! Its tests are those of `script` and `weave`, in `state_tests`' modules `lines` and `schedule`.
//!
//! # Example
//! ```
//! // The service `s3` gets 127.0.0.1:1026 and 127.0.0.1:1027, each of the weight 1.
//! let addrs = addrs_change(alloc, 3, 2)?;
//! // The namespace `default` gets `/svc => /#/io.l5d.fs; /svc/s3 => /#/io.l5d.fs/s4`.
//! let table = table_change(alloc, 3)?;
//! let ask = draw_ask(alloc, &mut words, 3, 0)?; // for `/svc/s3`, at the moment 0
//! ```
#![tactic(auto)]

use std::alloc::AllocError;

mod addrs;
mod asks;
mod changes;
mod services;
mod tables;

pub use addrs::local_addr;
pub use asks::draw_ask;
pub use changes::{addrs_change, first_change, table_change};
pub use services::service_name;

/// A value, unless there was no memory for it.
pub type Mem<T> = Result<T, AllocError>;

/// Bytes of a text.
pub type Bytes = Vec<u8>;
