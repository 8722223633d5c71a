//! What a pass has seen, for another pass to see too.
ghost use Rattle.std.specs.Prelude.{◌≡◌};
ghost use Rattle.std.specs.Option.{ForSome};
ghost use Rattle.router_log.specs.Operation.{place_of};
ghost use Rattle.snap_cell.specs.Views.{list_of};
ghost use Rattle.snap_cell.specs.Writers.{told_by, list_told};
ghost use Rattle.router.specs.Update.{operations_of};

use crate::naming::Naming;
use crate::pass::Pass;
use crate::update::Update;
use snap_cell::Note;
use std::marker::PhantomData;

/// What a pass had seen when it gave this out: a pass of the router that learns it has seen that
/// too.
///
/// It goes along with a piece of work that is left by one pass and taken up by another, such as a
/// connection between two of its requests. So the work is never answered from an older state than
/// it was before, whichever passes it comes to. It runs as two numbers, and keeps nothing of the
/// router. Contracts see the operations that it tells of (`told_in`).
#[derive(Drop)]
pub struct Ticket<J: Naming> {
    note: Note<Update>,
    place: u64,
    of: PhantomData<J>,
    ghost of_router: { ForSome J.cell (λ cell. list_told note ≡ list_of cell) },
    ghost place_is: { place ≡ place_of (operations_of (told_by note)) },
}

impl<J: Naming> Pass<J> {
    ghost use mathlib.Core.List.{IsPrefix};
    ghost use Rattle.snap_cell.specs.History.{longer};
    ghost use Rattle.router.specs.Passes.{number_in, seen_in, made_in, kept_in, SawMore};
    ghost use Rattle.router.specs.Tickets.{told_in};

    /// What it has seen, as a ticket. It takes no memory, and waits for nobody.
    pub fn ticket(&self) -> Ticket<J>
        ensures { told_in result ≡ seen_in self.now }
    {
        Ticket {
            note: self.reader.tell(),
            place: self.place,
            of: PhantomData,
        }
    }

    /// Learns what a ticket tells: from now on it has seen that, or what it had seen where that was
    /// more. It takes no memory, and waits for nobody.
    pub fn learn(&mut self, ticket: Ticket<J>)
        ensures number { number_in self.new ≡ number_in self.old }
        ensures seen { seen_in self.new ≡ longer (seen_in self.old) (told_in ticket) }
        ensures told { IsPrefix (told_in ticket) (seen_in self.new) }
        ensures more { SawMore self.old self.new }
        ensures counts { (made_in self.new ≡ made_in self.old)
            × (kept_in self.new ≡ kept_in self.old) }
    {
        let Ticket { note, place, of: _ } = ticket;
        self.reader.learn(note, None);
        self.place = self.place.max(place);
    }
}
