//! The end of a router.
ghost use Rattle.std.specs.Prelude.{◌≡◌, ◌+◌, Some, ◌≤◌, ◌<◌, ◌↔◌, length, map, sum_by, IfOk};
ghost use Rattle.std.specs.Prelude.{IsErr, IfErr, vec_capacity, vec_len};
ghost use Rattle.load_words.specs.Seats.{words_of};
ghost use Rattle.one_history.specs.Order.{Distinct};
ghost use Rattle.router.specs.Closing.{IsClosed, numbers_of};

use crate::call::Call;
use crate::current::Current;
use crate::desk::Desk;
use crate::naming::Naming;
use crate::pass::Pass;
use crate::router::Router;
use crate::update::Update;
use load_words::Loads;
use snap_cell::Reader;
use std::sync::Wait;
use std::sync::ledger::Share;

/// The readers of all passes, and all their shares in one. What a pass holds is given back.
fn gather<J: Naming>(
    loads: &Loads,
    mut readers: Vec<Reader<Current, Update, Call>>,
    mut all: Share<J>,
    passes: Vec<Pass<J>>,
) -> (Vec<Reader<Current, Update, Call>>, Share<J>)
    requires words { Some (words_of loads.now) ≡ J.words }
    requires room { (vec_len readers ≡ 0) × (J.parts ≤ vec_capacity readers) }
    requires none { (all.parts ≡ 0) × (all.amount ≡ 0) }
    ensures readers { result.0.items ≡ map (λ p. p.reader) passes.items }
    ensures parts { result.1.parts ≡ length passes.items }
    ensures most { result.1.parts ≤ J.parts }
    ensures amount { result.1.amount ≡ sum_by (λ p. p.made + p.kept) passes.items }
{
    for pass in passes {
        let (reader, mut seat, share) = pass.into_parts();
        if seat.holds().is_some() {
            loads.give(&mut seat);
        }
        all.merge(share);
        readers.push_reserved(reader);
    }
    (readers, all)
}

impl<J: Naming> Router<J> {
    /// Ends the router, and gives the number of all changes. There was one list of operations: what
    /// each pass has seen begins it, its calls stand in order in it, and it has no changes and no
    /// kept delegations but those that the passes made and gave, each once. A pass that holds a
    /// slot gives it back. It takes no memory.
    ///
    /// # Errors
    /// All is handed back as it was, exactly where fewer passes are handed in than there are.
    pub fn close<R: Wait>(
        self,
        rt: &R,
        passes: Vec<Pass<J>>,
    ) -> Result<u64, (Router<J>, Vec<Pass<J>>)>
        requires distinct { Distinct (numbers_of passes.items) }
        requires parts { J.parts ≡ J.seats }
        ensures refused { IsErr result ↔ (length passes.items < J.seats) }
        ensures back { IfErr result (λ b. (b.0 ≡ self) × (b.1 ≡ passes)) }
        ensures closed { IfOk result (λ place. IsClosed place passes.items) }
    {
        if passes.len() < self.seats as usize {
            return Err((self, passes));
        }
        let Router {
            desk,
            loads,
            seats: _,
        } = self;
        let Desk {
            writer,
            place,
            kept: _,
            mut book,
            rest,
            room,
        } = desk.into_inner();
        let (readers, mut all) = gather(&loads, room, rest, passes);
        book.audit(&mut all);
        match writer.close(rt, readers) {
            Ok(()) => Ok(place),
            Err(_back) => unreachable!(),
        }
    }
}
