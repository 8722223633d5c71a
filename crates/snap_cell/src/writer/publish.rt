//! What the writer publishes and tells.
ghost use Rattle.std.specs.Prelude.{◌≡◌, ◌<◌, ◌++◌, [], ◌∷◌, drop, fold, length, Some, MatchResult};
ghost use mathlib.Core.List.{IsPrefix};
ghost use Rattle.left_right.specs.Sides.{view};
ghost use Rattle.snap_cell.specs.Rule.{IsReady, Stands};
ghost use Rattle.snap_cell.specs.Items.{added, InOrder};
ghost use Rattle.snap_cell.specs.Views.{list_of, cell_of, number_of, refusals_of, seen_of};
ghost use Rattle.snap_cell.specs.Views.{items_of, SameReader, IsThere};
ghost use Rattle.snap_cell.specs.Writers.{published_by, cell_written, opening_written};
ghost use Rattle.snap_cell.specs.Writers.{reader_count, told_by, list_told, IsReadable};

use super::{Note, Writer};
use crate::kept::Entry;
use crate::rule::{Desk, show_pending};
use crate::{Mem, Operation, Published, Reader};
use std::alloc::AllocError;
use std::snapshot::Snapshot;
use std::sync::Wait;

// Publishes an entry. At `Err` readers see what they saw.
fn publish_entry<V: Published<O>, O: Operation, R: Wait>(
    mut desk: Desk<V, O>,
    rt: &R,
    entry: Entry<O>,
) -> (Desk<V, O>, Result<(), AllocError>)
    requires settled { drop desk.behind desk.log.items ≡ [] }
    requires ready { IsReady V.fits O.caller V.applied V.state desk.desk.shown.value (entry ∷ []) }
    ensures { MatchResult result.1
        (λ _. Stands desk.desk.shown.value.origin entry.known result.0.desk.shown.value
        (view result.0.desk.place) × (drop result.0.behind result.0.log.items ≡ []))
        (λ _. (result.0.desk.shown.value ≡ desk.desk.shown.value)
        × (view result.0.desk.place ≡ view desk.desk.place)) }
{
    match desk.append(entry) {
        Ok(()) => show_pending(desk, rt),
        Err(_) => (desk, Err(AllocError)),
    }
}

impl<V: Published<O>, O: Operation> Writer<V, O> {
    /// All that was published until now, for a reader to learn. It takes no memory and waits for
    /// nobody.
    pub fn tell(&mut self) -> Note<O>
        ensures told { told_by result ≡ published_by self.old }
        ensures list { list_told result ≡ list_of (cell_written self.old) }
        ensures same { (published_by self.new ≡ published_by self.old)
            × (cell_written self.new ≡ cell_written self.old) }
        ensures readable { IsReadable self.old → IsReadable self.new }
    {
        Note {
            known: self.known.again(),
        }
    }

    /// Publishes one operation: it is then the last of those that were published. It waits for
    /// readers that are still in the older copy. It costs two absorbs, one for each copy, and a
    /// visit to each reader's place.
    ///
    /// # Errors
    /// Want of memory publishes nothing. It may then come at every later publish of this writer: an
    /// operation that a copy had no memory to absorb can't be taken out of the cell's log again. It
    /// is answered too where `u64::MAX` operations were published.
    pub fn publish<R: Wait>(&mut self, rt: &R, operation: O) -> Mem<()>
        requires fits { V.fits (fold V.applied (V.state (opening_written self.old))
            (published_by self.old)) operation }
        requires caller { O.caller operation < reader_count self.old }
        ensures published { MatchResult result
            (λ _. published_by self.new ≡ published_by self.old ++ operation ∷ [])
            (λ _. published_by self.new ≡ published_by self.old) }
        ensures cell { cell_written self.new ≡ cell_written self.old }
        ensures readable { IsReadable self.old → IsReadable self.new }
    {
        if self.stuck || self.known.count == u64::MAX {
            return Err(AllocError);
        }
        // From here on the list has the operation for good.
        self.stuck = true;
        let Some(known) = self.known.with(&self.head, &operation) else {
            return Err(AllocError);
        };
        let entry = Entry {
            operation: Some(operation),
            known: known.again(),
        };
        let desk = self.desk.take().unwrap();
        let (desk, shown) = publish_entry(desk, rt, entry);
        if let Some(other) = self.desk.replace(desk) {
            other.take(rt);
        }
        match shown {
            Err(_) => Err(AllocError),
            Ok(()) => {
                self.known = known;
                self.stuck = false;
                Ok(())
            }
        }
    }

    /// Publishes an operation of a reader's caller, and lets the reader see it: a caller's whole
    /// change, as it is made under the writer's lock. The reader sees all that was published
    /// before, and then the operation; an item, if there is one, stands at its point, which is how
    /// many operations were published before it. For a call that is refused there
    /// [`Reader::catch_up`] adds the item.
    ///
    /// # Errors
    /// As [`Writer::publish`]. The reader has then seen all that was published, and has no item of
    /// this call.
    pub fn publish_for<Q, R: Wait>(
        &mut self,
        rt: &R,
        reader: &mut Reader<V, O, Q>,
        operation: O,
        item: Option<Snapshot<Q>>,
    ) -> Mem<()>
        requires own { cell_of reader.old ≡ cell_written self.old }
        requires fits { V.fits (fold V.applied (V.state (opening_written self.old))
            (published_by self.old)) operation }
        requires caller { O.caller operation ≡ number_of reader.old }
        ensures cell { cell_written self.new ≡ cell_written self.old }
        ensures same { SameReader reader.old reader.new
            × (refusals_of reader.new ≡ refusals_of reader.old) }
        ensures there { IsThere reader.old → IsThere reader.new }
        ensures readable { IsReadable self.old → IsReadable self.new }
        ensures published { MatchResult result
            (λ _. published_by self.new ≡ published_by self.old ++ operation ∷ [])
            (λ _. published_by self.new ≡ published_by self.old) }
        ensures before { IsPrefix (seen_of reader.old) (published_by self.old) }
        ensures seen { seen_of reader.new ≡ published_by self.new }
        ensures item { MatchResult result
            (λ _. items_of reader.new
            ≡ added (items_of reader.old) item (length (published_by self.old)))
            (λ _. items_of reader.new ≡ items_of reader.old) }
        ensures order { InOrder (items_of reader.new) (length (seen_of reader.new)) }
    {
        reader.catch_up(rt, self, None);
        self.publish(rt, operation)?;
        reader.learn(self.tell(), item);
        Ok(())
    }
}
