//! Where connections wait for a worker.
ghost use Rattle.std.specs.Prelude.{◌≡◌, All, length, IfOk};
ghost use Rattle.serving.specs.Ledgers.{AreBlanksFor};
ghost use Rattle.waiting.specs.Hands.{IsNew};

use api_sessions::IdleCaller;
use client_stays::{Handling, IdleClient};
use line_base::Peer;
use proxy_session::Mem;
use std::alloc::{AllocError, Global};
use std::sync::ledger::{Blank, Ledger};
use waiting::{Hand, Lot};

/// How many connections of clients wait at most: ten thousand that are idle, and one for each of
/// the most workers, which leaves the connection that it serves where others wait for a worker.
pub(crate) const MOST_CLIENTS: u32 = 10_256;

/// How many connections of clients may wait at least, however few descriptors the process may open.
/// One that comes while all workers are busy waits until its first bytes come, and is not ended
/// before they do.
pub(crate) const LEAST_CLIENTS: u32 = 64;

/// How many connections of the interfaces wait at most, over all of them.
const MOST_CALLERS: usize = 256;

/// For how many ticks, which are seconds, a connection may wait.
const PATIENCE: u64 = 60;

/// The connections of clients that wait.
pub(crate) type ClientLot<P, J, A, B> = Lot<IdleClient<P, J>, A, B>;

/// The connections of the interfaces that wait. Which interface answers one belongs to the
/// connection, so they all wait together.
pub(crate) type CallerLot<P, J, E, F> = Lot<IdleCaller<P, J>, E, F>;

/// Where connections wait: those of clients and those of the interfaces, each with a count of those
/// that were left and of those that were taken.
pub(crate) struct Lots<P: Peer, J: Handling, A: Ledger, B: Ledger, E: Ledger, F: Ledger> {
    pub(crate) clients: ClientLot<P, J, A, B>,
    pub(crate) callers: CallerLot<P, J, E, F>,
}

/// What the workers have at the lots: a hand for each.
#[derive(Drop)]
pub(crate) struct Hands<A: Ledger, B: Ledger, E: Ledger, F: Ledger> {
    pub(crate) clients: Vec<Hand<A, B>>,
    pub(crate) callers: Vec<Hand<E, F>>,
}

/// The ledgers that count for the lots, before a type stands for each.
#[derive(Drop)]
pub(crate) struct Blanks {
    pub(crate) clients_left: Blank,
    pub(crate) clients_taken: Blank,
    pub(crate) callers_left: Blank,
    pub(crate) callers_taken: Blank,
}

impl Blanks {
    /// Ledgers for so many workers that serve clients, and so many that serve the interfaces.
    pub(crate) fn new(clients: u32, callers: u32) -> Blanks
        ensures clients { (result.clients_left.parts ≡ clients)
            × (result.clients_taken.parts ≡ clients) }
        ensures callers { (result.callers_left.parts ≡ callers)
            × (result.callers_taken.parts ≡ callers) }
    {
        Blanks {
            clients_left: Blank::new(u64::from(clients)),
            clients_taken: Blank::new(u64::from(clients)),
            callers_left: Blank::new(u64::from(callers)),
            callers_taken: Blank::new(u64::from(callers)),
        }
    }
}

impl<P: Peer, J: Handling, A: Ledger, B: Ledger, E: Ledger, F: Ledger> Lots<P, J, A, B, E, F> {
    /// Lots where nobody waits, with room for so many clients, and a hand for each of so many
    /// workers at either.
    pub(crate) fn open(
        alloc: Global,
        room: u32,
        blanks: Blanks,
        clients: u32,
        callers: u32,
    ) -> Mem<(Lots<P, J, A, B, E, F>, Hands<A, B, E, F>)>
        requires blanks { AreBlanksFor A.Ledger.own B.Ledger.own E.Ledger.own F.Ledger.own
            clients callers blanks }
        ensures count { IfOk result (λ r. (length r.1.clients.items ≡ clients)
            × (length r.1.callers.items ≡ callers)) }
        ensures new { IfOk result (λ r. All IsNew r.1.clients.items
            × All IsNew r.1.callers.items) }
    {
        let Blanks {
            clients_left,
            clients_taken,
            callers_left,
            callers_taken,
        } = blanks;
        let (for_clients, client_hands) = Lot::open(
            alloc,
            room as usize,
            PATIENCE,
            clients_left,
            clients_taken,
            clients,
        )?;
        let Ok((for_callers, caller_hands)) = Lot::open(
            alloc,
            MOST_CALLERS,
            PATIENCE,
            callers_left,
            callers_taken,
            callers,
        ) else {
            for_clients.close(client_hands).end();
            return Err(AllocError);
        };
        Ok((
            Lots {
                clients: for_clients,
                callers: for_callers,
            },
            Hands {
                clients: client_hands,
                callers: caller_hands,
            },
        ))
    }
}
