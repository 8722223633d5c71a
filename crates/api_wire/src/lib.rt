//! What the interfaces of a router share on the wire: the parts of a request, what it asks for, and
//! the bytes of its response.
//!
//! namerd's interface, the admin interface and the feed read a request's path ([`path_in`],
//! [`segment_behind`], [`read_name`]), its method ([`Verb`]) and its fields, and make a [`Demand`]
//! of it: a [`Response`] that stands at once, a change of the router's state, or a look at it. What
//! the state replies becomes a response ([`response_to`]), and that its bytes ([`write`]), in the
//! way that the request asked for ([`Delivery`]). The crate knows no router: `api_sessions` carries
//! demands out.
//!
//! # What is proved
//! Each part of a request is a function of its bytes (`specs/Request.antt`, `Verbs.antt`,
//! `Json.antt`), and so is the response to each reply of the state (`specs/Telling.antt`), with its
//! bytes (`specs/Response.antt`, `Delivery.antt`): the status line, the version of a table as
//! `ETag`, the methods of the path as `Allow`, and the body with its type and length. Its tests are
//! `api_tests`' module `spent`, and what `api_tests` asks of the interfaces above it.
//!
//! # Example
//! ```text
//! let response = Response::word(alloc, StatusCode::NOT_FOUND, None, "missing")?;
//! let reply = write(alloc, &response, delivery_of(&head, false))?;
//! // HTTP/1.1 404 Not Found, Content-Type: text/plain, Content-Length: 8, and the body missing
//! ```
#![tactic(auto)]

use std::alloc::AllocError;

mod delivery;
mod demand;
mod json;
mod reply;
mod request;
mod response;
mod telling;
mod texts;
mod verb;

pub use delivery::{Delivery, delivery_of};
pub use demand::Demand;
pub use json::{json_value, members_in, text_at};
pub use reply::{ApiReply, write, write_last};
pub use request::{
    closes, has_body, is_json, is_path, path_in, query_in, read_name, segment_behind, version_asked,
};
pub use response::{Content, Media, Response};
pub use telling::response_to;
pub use verb::{Methods, Verb, verb_of};

/// A value, unless there was no memory for it.
pub type Mem<T> = Result<T, AllocError>;

/// Bytes of a text.
pub type Bytes = Vec<u8>;
