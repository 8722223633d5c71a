//! The book of services: the addresses of each, and a slot for each address; and the names,
//! addresses and files that it is made from.
//!
//! An [`Addr`] is an IPv4 address and a port, an [`AddrList`] the addresses of a service, no two
//! alike, and a [`Name`] names a service. [`read_addrs`] reads an address file, line by line;
//! [`read_ip`] and [`read_port`] read the parts of an address, and [`append_addr`] writes one.
//! A [`Book`] maps names to lists of addresses and addresses to slots. A change is
//! prepared as a [`ReadyBook`], or refused with a [`BookFault`], and then absorbed.
//!
//! # What is proved
//! A text is a name exactly where it is 1 to 255 bytes of letters, digits and `_ : . -`. An address
//! file gives exactly the addresses of its lines, each once at its first place, or the number of
//! its first bad line, or how many addresses are too many. Hosts and ports are read exactly as they
//! are defined.
//!
//! Clauses see a book as two finite maps. A prepared book has the service in place, and exactly
//! these slots: an address that stays keeps its slot, slots of addresses that no service has any
//! more are free again, and new addresses take the lowest free slots in their list's order. A
//! change is refused exactly where a limit would be passed or the service to be dropped is missing.
//! Slots are below 8,192, no two addresses share one, and exactly the addresses of the services
//! have one.
//!
//! Only want of memory is free to come at any call that takes memory.
//!
//! Its tests are `store_tests`' module `book`.
//!
//! # Example
//! ```
//! let name = Name::of(alloc, b"web")?;
//! let addrs = read_addrs(alloc, b"127.0.0.1 9001\nlocalhost 9001\n")?;
//! let mut book = Book::start(alloc)?;
//! let ready = book.prepare_set(alloc, &name, &addrs)?;
//! book.absorb(&ready)?;
//! assert_eq!(book.slot(Addr { ip: 0x7f00_0001, port: 9001 }), Some(0));
//! ```
#![tactic(auto)]

use std::alloc::AllocError;

mod addr;
mod addr_file;
mod addr_list;
mod addr_map;
mod addr_shard;
mod book;
mod bound;
mod fault;
mod file_line;
mod front;
mod host;
mod laws;
mod leaf;
mod name;
mod namer;
mod parts;
mod seats;
mod service_shard;
mod services;
mod slot_map;
mod slot_set;
mod slots;

pub use addr::{Addr, ONE_WEIGHT, Weighted, append_addr, append_ip};
pub use addr_file::{AddrFault, read_addrs};
pub use addr_list::{AddrList, MOST_ADDRS};
pub use book::{Book, ReadyBook};
pub use bound::{Bound, BoundItem, BoundList};
pub use fault::BookFault;
pub use file_line::read_line_weight;
pub use host::{read_ip, read_port};
pub use laws::{addresses_are_seated, computed_lines_are_exact, slots_are_apart, slots_stay};
pub use leaf::{Cluster, Leaf};
pub use name::{MOST_NAME_BYTES, Name, NameFault, is_name};
pub use namer::name_answer;
pub use parts::{MOST_SERVICES, MOST_SLOTS};

/// A value, unless there was no memory for it.
pub type Mem<T> = Result<T, AllocError>;

/// Bytes of a text.
pub type Bytes = Vec<u8>;
