//! The configuration of a router, read from JSON, and the services of a folder.
//!
//! [`read_config`] reads a configuration of Linkerd 1 as JSON into a [`Config`]: where the router
//! and its interfaces listen, how requests are named, its table, when a replica is left out, how
//! often a request may be tried again, and the folder of the services. [`load_folder`] reads that
//! folder: a file of addresses for each service. [`check_line`] and [`fault_line`] are the lines by
//! which a program tells what it read. `docs/CONFIGURATION.md` has the keys.
//!
//! # What is proved
//! What a configuration says is a function of the tree that `serde_json` reads: `config_of` of
//! `specs/Config.antt`, with a definition for each object in the files beside it, and one rule for
//! the keys of all of them (`keys_told` of `specs/Keys.antt`). [`read_config`] gives exactly its
//! value, or exactly its first fault, which names its key from the top, and
//! [`ConfigFault::BadJson`] exactly where the text is no JSON. [`Config::table_covers_prefix`]
//! tells exactly whether an entry of the router's own table matches what all requests' paths begin
//! with, and [`Config::hears_strangers`] whether it listens to other machines while nothing is said
//! of clearing the context of requests. [`load_folder`] gives the services of a folder in the order
//! of their names, or the first refusal of a file, exactly as `services_told` of
//! `specs/Folder.antt` says, where the folder tells its files; it fails for the folder only where
//! the folder's count of faults rose. That memory is there is not proved. Its tests are
//! `http_tests`' module `configuration`.
//!
//! # Example
//! ```
//! let config = read_config(alloc, b"{\"routers\":[{\"protocol\":\"http\"}]}")?;
//! assert_eq!(config.server, Port { ip: 0x7f00_0001, port: 4140 });
//! // `ok router 127.0.0.1:4140 namerd 127.0.0.1:4180 admin 127.0.0.1:9990` and a line feed
//! let line = check_line(alloc, &config)?;
//! if let Some(root) = &config.root {
//!     let loaded = load_folder(alloc, &mut folder, root.as_str())?;
//! }
//! ```
#![tactic(auto)]

use std::alloc::AllocError;

mod client;
mod config;
mod covering;
mod fault;
mod feed;
mod folder;
mod keys;
mod lines;
mod listening;
mod loaded;
mod logging;
mod namers;
mod naming;
mod pool;
mod reading;
mod retries;
mod routed;
mod router;
mod router_settings;
mod server;
mod trusting;
mod value;

pub use config::{Config, FeedAt, Port, Text};
pub use fault::{ConfigFault, Key};
pub use folder::load_folder;
pub use lines::{append_port, check_line, fault_line};
pub use loaded::{LoadFault, Loaded, LoadedItem};
pub use reading::read_config;

/// A value, unless there was no memory for it.
pub type Mem<T> = Result<T, AllocError>;

/// Bytes of a text.
pub type Bytes = Vec<u8>;
