//! Passes.
use crate::Mem;
use crate::call::Call;
use crate::listed::CallList;
use crate::step::Told;
use bind_cache::Binding;
use std::alloc::AllocError;
use std::sync::Arc;

/// A question that is not answered yet: the place of its call among the calls of its pass, the
/// answer, and what was worked out for it.
#[derive(Drop)]
pub(crate) struct Flight {
    pub(crate) item: usize,
    pub(crate) told: Told,
    pub(crate) fresh: Option<Arc<Binding>>,
}

/// A pass: how many operations it has seen, its calls, the question that waits, and the delegation
/// that it worked out last. Beside these it counts the changes and the delegations that it
/// published.
pub(crate) struct Pass {
    pub(crate) seen: usize,
    pub(crate) items: CallList,
    pub(crate) flight: Option<Flight>,
    pub(crate) fresh: Option<Arc<Binding>>,
    pub(crate) changes: u64,
    pub(crate) keeps: u64,
}

impl Drop for Pass {
    fn drop(self) {
        let Pass {
            seen: _,
            items,
            flight,
            fresh,
            changes: _,
            keeps: _,
        } = self;
        drop(items);
        drop(flight);
        drop(fresh);
    }
}

impl Pass {
    ghost use Rattle.std.specs.Prelude.{◌≡◌, ◌<◌, ◌-◌, ◌^◌, ◌∷◌, ◌++◌, [], None, OnOk, OnErr};
    ghost use Rattle.std.specs.Prelude.{length};
    ghost use Rattle.weave.specs.World.{new_pass};
    ghost use Rattle.weave.specs.Code.{items_of, pass_of, told_value, flight_told, flight_fresh};
    ghost use Rattle.weave.specs.Listed.{call_value};

    /// A pass that has seen and called nothing.
    pub(crate) fn new() -> Pass
        ensures pass { pass_of result ≡ new_pass }
        ensures changes { result.changes ≡ 0 }
        ensures keeps { result.keeps ≡ 0 }
    {
        Pass {
            seen: 0,
            items: CallList::new(),
            flight: None,
            fresh: None,
            changes: 0,
            keeps: 0,
        }
    }

    /// One call more, behind so many operations, of which so many are seen then. An `Err` changes
    /// nothing: it comes where no more calls can be counted.
    pub(crate) fn call(&mut self, call: Call, at: usize, seen: usize) -> Mem<()>
        ensures pass { OnOk result
            (pass_of self.new
            ≡ record {
              seen = seen;
              items = (pass_of self.old).items ++ (call_value call, at) ∷ [];
              flight = (pass_of self.old).flight;
              fresh =
                  (pass_of self.old).fresh;
            }) }
        ensures flight { self.new.flight ≡ self.old.flight }
        ensures changes { self.new.changes ≡ self.old.changes }
        ensures keeps { self.new.keeps ≡ self.old.keeps }
        ensures err { OnErr result (pass_of self.new ≡ pass_of self.old) }
    {
        self.has_room()?;
        self.call_in_room(call, at, seen);
        Ok(())
    }

    /// Whether one call more can be counted.
    pub(crate) fn has_room(&self) -> Mem<()>
        ensures { OnOk result (length (items_of self.now) < 2 ^ 64 - 1) }
    {
        if self.items.is_full() {
            return Err(AllocError);
        }
        Ok(())
    }

    /// One call more, as by [`Pass::call`], where it can be counted.
    pub(crate) fn call_in_room(&mut self, call: Call, at: usize, seen: usize)
        requires { length (items_of self.old) < 2 ^ 64 - 1 }
        ensures pass { pass_of self.new
            ≡ record {
              seen = seen;
              items = (pass_of self.old).items ++ (call_value call, at) ∷ [];
              flight = (pass_of self.old).flight;
              fresh =
                  (pass_of self.old).fresh;
            } }
        ensures flight { self.new.flight ≡ self.old.flight }
        ensures changes { self.new.changes ≡ self.old.changes }
        ensures keeps { self.new.keeps ≡ self.old.keeps }
    {
        self.items.push(call, at);
        self.seen = seen;
    }

    /// The answer to the question that waits, if one does. What was worked out for it takes the
    /// place of what was worked out before.
    pub(crate) fn take_answer(&mut self) -> Told
        ensures seen { self.new.seen ≡ self.old.seen }
        ensures items { self.new.items ≡ self.old.items }
        ensures changes { self.new.changes ≡ self.old.changes }
        ensures keeps { self.new.keeps ≡ self.old.keeps }
        ensures flight { self.new.flight ≡ None }
        ensures told { told_value result ≡ flight_told self.old.flight }
        ensures fresh { self.new.fresh ≡ flight_fresh self.old.flight self.old.fresh }
    {
        let Some(flight) = self.flight.take() else {
            return Told::Nothing;
        };
        let Flight {
            item: _item,
            told,
            fresh,
        } = flight;
        if fresh.is_some() {
            self.fresh = fresh;
        }
        told
    }
}
