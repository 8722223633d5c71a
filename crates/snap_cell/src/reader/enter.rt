//! How a reader enters.
ghost use Rattle.std.specs.Prelude.{◌≡◌, ◌<◌, ◌≤◌, Some, length, fold, IfSome, IfNone};
ghost use Rattle.left_right.specs.Sides.{view};
ghost use mathlib.Core.List.{IsPrefix};
ghost use Rattle.snap_cell.specs.Items.{added, InOrder};
ghost use Rattle.snap_cell.specs.Legal.{Legal};
ghost use Rattle.snap_cell.specs.Guards.{cell_left, entered_value};
ghost use Rattle.snap_cell.specs.Rule.{Sound};
ghost use Rattle.snap_cell.specs.Views.{seen_of, items_of, number_of, refusals_of, opening_of};
ghost use Rattle.snap_cell.specs.Views.{cell_of, readers_of, IsThere, SameReader, Unmoved};
ghost use Rattle.snap_cell.specs.Views.{Returned, Refused};

use super::Reader;
use crate::guard::{Guard, Stay};
use crate::history::Prefix;
use crate::kept::Origin;
use crate::rule::Reading;
use crate::trail::{Trail, with};
use crate::{Operation, Published};
use left_right::Absorb;
use std::marker::PhantomData;
use std::mem;
use std::snapshot::Snapshot;

/// What a reader entered: the value, in the reader's place, from which the reader is away. A
/// [`Guard`] has it and puts it back; or its holder does ([`Reader::take`]). It is not `Drop`:
/// [`Reader::put_back`] ends it.
pub struct Entered<V: Published<O>, O: Operation, Q> {
    pub(crate) reading: Reading<V, O>,
    pub(crate) marker: PhantomData<Q>,
}

impl<V: Published<O>, O: Operation, Q> Entered<V, O, Q> {
    /// The value.
    pub fn get(&self) -> &V
        ensures { result.now ≡ entered_value self.now }
    {
        &self.reading.get().value
    }
}

impl<V: Published<O>, O: Operation, Q> Stay for Entered<V, O, Q> {
    type Home = Reader<V, O, Q>;

    type Value = V;

    type Cell = Option<Origin<V, O>>;

    ghost value = { λ s. s.reading.reading.part.value.value };

    ghost cell = { λ s. view s.reading.reading.place };

    ghost cell_of_home = { λ h. Some h.origin };

    ghost returned = { Returned };

    fn value(&self) -> &V {
        self.get()
    }

    fn put_back(self, home: &mut Reader<V, O, Q>) {
        home.put_back(self);
    }
}

impl<V: Published<O>, O: Operation, Q> Reader<V, O, Q> {
    ghost use Rattle.std.specs.Borrow.{sem, RestsIfNone};
    ghost use Rattle.snap_cell.specs.Guards.{lender_of, reader_in, value_in};
    ghost use Rattle.snap_cell.specs.contracts.reader.Reader.{the_row};

    /// Its number among the readers of its cell, from 0. No call changes it.
    pub fn number(&self) -> u32
        ensures number { result ≡ number_of self.now }
        ensures below { result < readers_of self.now }
    {
        self.number
    }

    /// How often it was not let in, up to `u64::MAX`. It never falls.
    pub fn refused(&self) -> u64
        ensures { result ≡ refusals_of self.now }
    {
        self.refused
    }

    /// Enters the published value, and adds the item, if there is one, at this point. It takes no
    /// lock and no memory, and waits for nobody: a few atomic operations, however many readers and
    /// operations there are.
    ///
    /// The value is that of some beginning of the published operations, which has all that this
    /// reader had seen or learnt of. The reader has then seen those, and the item's point is their
    /// number. The guard gives the reader back when it ends.
    ///
    /// # Errors
    /// `None` where the reader is not let in: its guard was forgotten. Then the number of refusals
    /// rises, or stands at `u64::MAX`, and all else is as before. The same is answered where the
    /// value that is there had fewer operations than the reader knows of, which would be a fault of
    /// the copies.
    pub fn enter(&mut self, item: Option<Snapshot<Q>>) -> Option<Guard<'_, Entered<V, O, Q>>>
        ensures* rests { sem 𝓛 (RestsIfNone
            (the_row V.row O.row Q.row V.State.row V.Published.own ⟦<V as Absorb<O>>⟧ O.Operation)
            self.entry lender_of result (Refused self.old)) }
        ensures same_reference { IfSome result (λ g. lender_of g ≡ self.entry.ghost_name) }
        ensures same { IfSome result
            (λ g. SameReader self.old (reader_in g)
            × (refusals_of (reader_in g) ≡ refusals_of self.old)) }
        ensures before { IfSome result (λ g. IsPrefix (seen_of self.old) (seen_of (reader_in g))) }
        ensures value { IfSome result
            (λ g. V.state (value_in g)
            ≡ fold V.applied (V.state (opening_of self.old)) (seen_of (reader_in g))) }
        ensures legal { IfSome result
            (λ g. Legal V.applied V.fits O.caller (V.state (opening_of self.old))
            (readers_of self.old) (seen_of (reader_in g))) }
        ensures item { IfSome result
            (λ g. items_of (reader_in g)
            ≡ added (items_of self.old) item (length (seen_of (reader_in g)))) }
        ensures order { IfSome result
            (λ g. InOrder (items_of (reader_in g)) (length (seen_of (reader_in g)))) }
    {
        let stay = self.take(item)?;
        Some(Guard { home: self, stay })
    }

    /// Enters as [`Reader::enter`] does, and hands out what was entered, for a caller that puts it
    /// back itself ([`Reader::put_back`]). Until then the reader is let in nowhere.
    ///
    /// # Errors
    /// As [`Reader::enter`].
    pub fn take(&mut self, item: Option<Snapshot<Q>>) -> Option<Entered<V, O, Q>>
        ensures none { IfNone result (Refused self.old self.new) }
        ensures same { IfSome result (λ _. SameReader self.old self.new
            × (refusals_of self.new ≡ refusals_of self.old)) }
        ensures cell { IfSome result (λ e. cell_left e ≡ Some (cell_of self.new)) }
        ensures before { IfSome result (λ _. IsPrefix (seen_of self.old) (seen_of self.new)) }
        ensures value { IfSome result (λ e. V.state (entered_value e)
            ≡ fold V.applied (V.state (opening_of self.old)) (seen_of self.new)) }
        ensures legal { IfSome result
            (λ _. Legal V.applied V.fits O.caller (V.state (opening_of self.old))
            (readers_of self.old) (seen_of self.new)) }
        ensures item { IfSome result (λ _. items_of self.new
            ≡ added (items_of self.old) item (length (seen_of self.new))) }
        ensures order { IfSome result
            (λ _. InOrder (items_of self.new) (length (seen_of self.new))) }
    {
        let reading = self.take_reading()?;
        self.see(&reading.get().known, item);
        Some(Entered {
            reading,
            marker: PhantomData,
        })
    }

    /// Puts back what it entered: the reader is at its place again, and nothing else moves.
    pub fn put_back(&mut self, entered: Entered<V, O, Q>)
        requires { cell_left entered ≡ Some (cell_of self.old) }
        ensures { Returned self.old self.new }
    {
        let Entered { reading, marker: _ } = entered;
        self.door = Some(reading.leave());
    }

    // Takes the copy that was published last, if it has all that this reader knows of.
    fn take_reading(&mut self) -> Option<Reading<V, O>>
        ensures refused { IfNone result (Refused self.old self.new) }
        ensures unmoved { IfSome result (λ r. Unmoved self.old self.new) }
        ensures entered { IfSome result
            (λ r. Sound V.state V.applied V.fits O.caller r.reading.part.value
            × (r.reading.part.value.origin ≡ self.old.origin)
            × (view r.reading.place ≡ Some self.old.origin)
            × (length (seen_of self.old) ≤ length r.reading.part.value.known.seen.log)) }
    {
        let entered = match self.door.take() {
            None => None,
            Some(door) => match door.enter(self.known.count) {
                Ok(reading) => Some(reading),
                Err(door) => {
                    self.door = Some(door);
                    None
                }
            },
        };
        if entered.is_none() {
            self.refused = self.refused.saturating_add(1);
        }
        entered
    }

    /// Sees a list that goes on from what this reader knows of.
    pub(super) fn see(&mut self, list: &Prefix<O>, item: Option<Snapshot<Q>>)
        requires list { list.now.seen.book ≡ self.old.origin.empty.book }
        requires longer { length (seen_of self.old) ≤ length list.now.seen.log }
        ensures same { SameReader self.old self.new × (self.new.refused ≡ self.old.refused) }
        ensures there { IsThere self.old → IsThere self.new }
        ensures seen { seen_of self.new ≡ list.now.seen.log }
        ensures before { IsPrefix (seen_of self.old) (seen_of self.new) }
        ensures items { items_of self.new
            ≡ added (items_of self.old) item (length (seen_of self.new)) }
    {
        self.known = self.known.newer(list);
        let items = mem::replace(&mut self.items, Snapshot::of(&Trail::Empty));
        self.items = with(items, item, self.known.count);
    }
}
