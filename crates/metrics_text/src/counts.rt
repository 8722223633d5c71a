//! The numbers of a router.

use crate::class::Classes;
use crate::duration::Durations;

/// How many replies of its own a router gave, by their words: each field has those of the
/// [`OwnError`](own_reply::OwnError) of its name.
#[derive(Clone, Copy, PartialEq, Eq)]
pub struct OwnReplies {
    /// Those that say `version`.
    pub version: u64,
    /// Those that say `bad-head`.
    pub bad_head: u64,
    /// Those that say `head-too-large`.
    pub head_too_large: u64,
    /// Those that say `connect`.
    pub connect: u64,
    /// Those that say `target`.
    pub target: u64,
    /// Those that say `length`.
    pub length: u64,
    /// Those that say `coding`.
    pub coding: u64,
    /// Those that say `too-long`.
    pub too_long: u64,
    /// Those that say `host`.
    pub host: u64,
    /// Those that say `unidentified`.
    pub unidentified: u64,
    /// Those that say `dtab`.
    pub dtab: u64,
    /// Those that say `body`.
    pub body: u64,
    /// Those that say `negative`.
    pub negative: u64,
    /// Those that say `failing`.
    pub failing: u64,
    /// Those that say `empty`.
    pub empty: u64,
    /// Those that say `too-deep`.
    pub too_deep: u64,
    /// Those that say `too-wide`.
    pub too_wide: u64,
    /// Those that say `dial`.
    pub dial: u64,
    /// Those that say `upstream`.
    pub upstream: u64,
}

/// What a router has done since it began, and what it holds now.
#[derive(Clone, Copy)]
pub struct Counts {
    /// The changes that were accepted.
    pub changes: u64,
    /// The tables that were created or put.
    pub tables_written: u64,
    /// The addresses with failures that count against them.
    pub marks: u64,
    /// The namespaces.
    pub namespaces: u64,
    /// The services.
    pub services: u64,
    /// The requests that ended, by the classes of their replies.
    pub requests: Classes,
    /// The router's own replies, by their words.
    pub own_replies: OwnReplies,
    /// The tries of replicas.
    pub tries: u64,
    /// The failures that were reported of replicas.
    pub failures: u64,
    /// The connections that were accepted.
    pub accepted: u64,
    /// The connections that are open now.
    pub open: u64,
    /// The connections that wait for their next request now.
    pub waiting: u64,
    /// The bytes of requests' bodies that went on to replicas.
    pub request_bytes: u64,
    /// The bytes of replies' bodies that went back to clients.
    pub reply_bytes: u64,
    /// How long the requests took.
    pub durations: Durations,
    /// The asks for which a delegation was kept.
    pub hits: u64,
    /// The asks for which none was.
    pub misses: u64,
    /// The delegations that are kept now.
    pub kept: u64,
    /// The lines that were written to the access log.
    pub log_lines: u64,
    /// The lines that could not be.
    pub lost_lines: u64,
}
