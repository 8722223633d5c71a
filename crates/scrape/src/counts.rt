//! The numbers that a scrape tells.
ghost use Rattle.std.specs.Prelude.{◌≡◌, slice_index_or};
ghost use Rattle.scrape.specs.Counts.{buckets_by, classes_by, counts_by, own_replies_by};

use crate::sums::Sums;
use metrics_text::{BUCKETS, Classes, Counts, Durations, OwnReplies};

/// What a router's state tells.
#[derive(Clone, Copy)]
pub struct State {
    /// The changes that were accepted.
    pub changes: u64,
    /// The tables that were created or put.
    pub tables_written: u64,
    /// The addresses with failures that count against them.
    pub marks: u64,
    /// The namespaces.
    pub namespaces: u64,
    /// The services.
    pub services: u64,
    /// The delegations that are kept.
    pub kept: u64,
}

impl Sums {
    /// All numbers of a router, with what its state tells. The words of a connection that ends
    /// while they are read may show its end and not its beginning: such a one is not open.
    pub fn counts(&self, state: &State) -> Counts
        ensures { result ≡ counts_by (λ place. slice_index_or self.now.counts place 0) state.now }
    {
        let at = &self.counts;
        Counts {
            changes: state.changes,
            tables_written: state.tables_written,
            marks: state.marks,
            namespaces: state.namespaces,
            services: state.services,
            requests: self.classes(),
            own_replies: self.own_replies(),
            tries: at[39],
            failures: at[40],
            accepted: at[48],
            open: at[48].saturating_sub(at[49]),
            waiting: at[50].saturating_sub(at[51]),
            request_bytes: at[41],
            reply_bytes: at[42],
            durations: Durations {
                buckets: self.buckets(),
                milliseconds: at[43],
            },
            hits: at[44],
            misses: at[45],
            kept: state.kept,
            log_lines: at[46],
            lost_lines: at[47],
        }
    }

    /// The requests by the classes of their replies. Here and below the sums stand where
    /// [`Figure::place`](exchange_tally::Figure::place) says.
    fn classes(&self) -> Classes
        ensures { result ≡ classes_by (λ place. slice_index_or self.now.counts place 0) }
    {
        let at = &self.counts;
        Classes {
            success: at[0],
            redirection: at[1],
            client_error: at[2],
            server_error: at[3],
            other: at[4],
            no_reply: at[5],
        }
    }

    /// The router's own replies, by their words.
    fn own_replies(&self) -> OwnReplies
        ensures { result ≡ own_replies_by (λ place. slice_index_or self.now.counts place 0) }
    {
        let at = &self.counts;
        OwnReplies {
            version: at[6],
            bad_head: at[7],
            head_too_large: at[8],
            connect: at[9],
            target: at[10],
            length: at[11],
            coding: at[12],
            too_long: at[13],
            host: at[14],
            unidentified: at[15],
            dtab: at[16],
            body: at[17],
            negative: at[18],
            failing: at[19],
            empty: at[20],
            too_deep: at[21],
            too_wide: at[22],
            dial: at[23],
            upstream: at[24],
        }
    }

    /// How long requests took.
    fn buckets(&self) -> [u64; BUCKETS]
        ensures { result ≡ buckets_by (λ place. slice_index_or self.now.counts place 0) }
    {
        let at = &self.counts;
        [
            at[25], at[26], at[27], at[28], at[29], at[30], at[31], at[32], at[33], at[34], at[35],
            at[36], at[37], at[38],
        ]
    }
}
