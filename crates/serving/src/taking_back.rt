//! Jobs that have ended are taken apart.
ghost use Rattle.std.specs.Prelude.{ℕ, suc, ◌+◌, ◌∷◌, [], map, length};
ghost use Rattle.serving.specs.Parts.{HasRoom, TakesApart};

use crate::interface::ApiServer;
use crate::job::{ApiJob, ProxyJob, ServingJob};
use crate::jobs::{Jobs, NetJob};
use crate::parts::{NetApart, Part};
use crate::proxy::ProxyServer;
use api_sessions::ApiWorker;
use client_stays::Handling;
use line_base::Net;
use proxy_session::Parts;
use std::sync::ledger::Ledger;
use workers::Accepting;

/// Takes a job apart.
fn take_apart<
    J: Handling,
    N: Net,
    C: Drop,
    K: Drop,
    X: Drop,
    A: Ledger,
    B: Ledger,
    E: Ledger,
    F: Ledger,
>(job: NetJob<'_, J, N, C, K, X, A, B, E, F>, apart: &mut NetApart<J, N, K, A, B, E, F>)
    requires room { HasRoom apart.old 1 }
    ensures apart { TakesApart N.L.state N.D.upstream N.S.calls (job.entry ∷ []) apart.old
        apart.new }
    ensures room { (n : ℕ) → HasRoom apart.old (suc n) → HasRoom apart.new n }
{
    match job {
        ServingJob::Proxy(job) => {
            let ProxyJob {
                number: _,
                listener,
                server,
                stop,
                lot: _,
                hand,
            } = job;
            let ProxyServer {
                alloc: _,
                router: _,
                policy: _,
                server,
                lacked_memory,
                recorder,
            } = server;
            let Parts {
                pass,
                dialer,
                clock: _,
                words: _,
            } = server.into_parts();
            apart.parts.push_reserved(Part {
                listener,
                dialer: Some(dialer),
                stop,
            });
            apart.passes.push_reserved(pass);
            apart.recorders.push_reserved(recorder);
            apart.client_hands.push_reserved(hand);
            apart.lacked_memory |= lacked_memory;
        }
        ServingJob::Api(job) => {
            let ApiJob {
                listener,
                server,
                lot: _,
                hand,
            } = job;
            let ApiServer {
                alloc: _,
                router: _,
                which: _,
                worker,
                lacked_memory,
            } = server;
            let ApiWorker {
                pass,
                stop,
                scraper: _,
            } = worker;
            apart.parts.push_reserved(Part {
                listener,
                dialer: None,
                stop,
            });
            apart.passes.push_reserved(pass);
            apart.caller_hands.push_reserved(hand);
            apart.lacked_memory |= lacked_memory;
        }
    }
}

/// Takes all jobs apart that ran.
pub(crate) fn take_all_apart<
    J: Handling,
    N: Net,
    C: Drop,
    K: Drop,
    X: Drop,
    A: Ledger,
    B: Ledger,
    E: Ledger,
    F: Ledger,
>(
    back: Vec<(NetJob<'_, J, N, C, K, X, A, B, E, F>, Accepting)>,
    apart: &mut NetApart<J, N, K, A, B, E, F>,
)
    requires room { HasRoom apart.old (length back.items) }
    ensures room { (n : ℕ) → HasRoom apart.old (length back.entry.items + n)
        → HasRoom apart.new n }
    ensures apart { TakesApart N.L.state N.D.upstream N.S.calls (map (λ b. b.0) back.entry.items)
        apart.old apart.new }
{
    for ended in back {
        let (job, _accepting) = ended;
        take_apart::<J, N, C, K, X, A, B, E, F>(job, apart);
    }
}

/// Takes all jobs apart, none of which ran.
pub(crate) fn take_unrun_apart<
    J: Handling,
    N: Net,
    C: Drop,
    K: Drop,
    X: Drop,
    A: Ledger,
    B: Ledger,
    E: Ledger,
    F: Ledger,
>(jobs: Jobs<'_, J, N, C, K, X, A, B, E, F>, apart: &mut NetApart<J, N, K, A, B, E, F>)
    requires room { HasRoom apart.old (length jobs.items) }
    ensures room { (n : ℕ) → HasRoom apart.old (length jobs.entry.items + n)
        → HasRoom apart.new n }
    ensures apart { TakesApart N.L.state N.D.upstream N.S.calls jobs.entry.items apart.old
        apart.new }
{
    for job in jobs {
        take_apart::<J, N, C, K, X, A, B, E, F>(job, apart);
    }
}
