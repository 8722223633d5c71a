//! How a reader tells what it has seen, learns what was published, and notes its items.
ghost use Rattle.std.specs.Prelude.{◌≡◌, ◌-◌, max, length, Some};
ghost use mathlib.Core.List.{IsPrefix};
ghost use Rattle.snap_cell.specs.History.{longer};
ghost use Rattle.snap_cell.specs.Items.{added, InOrder};
ghost use Rattle.snap_cell.specs.Views.{seen_of, items_of, refusals_of, cell_of, list_of};
ghost use Rattle.snap_cell.specs.Views.{SameReader, IsThere};
ghost use Rattle.snap_cell.specs.Writers.{told_by, list_told, published_by, cell_written};

use super::Reader;
use crate::history::await_part;
use crate::trail::{Trail, with};
use crate::{Note, Operation, Published, Writer};
use std::mem;
use std::snapshot::Snapshot;
use std::sync::Wait;

impl<V: Published<O>, O: Operation, Q> Reader<V, O, Q> {
    /// What this reader has seen, as a note: a reader of the cell that learns it has seen that too.
    /// It takes no memory and waits for nobody.
    ///
    /// So what was seen goes along with a piece of work that another reader goes on with. A note of
    /// the writer ([`Writer::tell`]) tells of all that was published.
    pub fn tell(&self) -> Note<O>
        ensures own { list_told result ≡ list_of (cell_of self.now) }
        ensures told { told_by result ≡ seen_of self.now }
    {
        Note {
            known: self.known.again(),
        }
    }

    /// Learns what a note of its cell tells: from now on it has seen that, or what it had seen
    /// where that was more. It takes no memory and waits for nobody.
    ///
    /// An item, if there is one, is that of the last operation which the note tells of. Its point
    /// is how many operations stood before that one, or how many the reader had seen where those
    /// were more. So after [`Reader::catch_up`], and with no more than one publish between,
    /// `learn(writer.tell(), item)` gives the item the point that it was decided at, whether or not
    /// its operation was published. [`Writer::publish_for`] is the three in one.
    pub fn learn(&mut self, note: Note<O>, item: Option<Snapshot<Q>>)
        requires own { list_told note ≡ list_of (cell_of self.old) }
        ensures same { SameReader self.old self.new
            × (refusals_of self.new ≡ refusals_of self.old) }
        ensures there { IsThere self.old → IsThere self.new }
        ensures seen { seen_of self.new ≡ longer (seen_of self.old) (told_by note) }
        ensures before { IsPrefix (seen_of self.old) (seen_of self.new) }
        ensures told { IsPrefix (told_by note) (seen_of self.new) }
        ensures item { items_of self.new ≡ added (items_of self.old) item
            (max (length (seen_of self.old)) (length (told_by note) - 1)) }
        ensures order { InOrder (items_of self.new) (length (seen_of self.new)) }
    {
        let point = self.known.count.max(note.known.count.saturating_sub(1));
        self.known = self.known.longer(&note.known);
        let items = mem::replace(&mut self.items, Snapshot::of(&Trail::Empty));
        self.items = with(items, item, point);
    }

    /// Sees all that was published, which what it had seen begins. An item, if there is one, stands
    /// at this point: so stands a call that was refused under the writer's lock. It takes no
    /// memory.
    ///
    /// A note alone does not show that it tells of more than the reader had seen; this does. It is
    /// under `Wait` for the proof's sake: nothing is waited for, since a reader has seen nothing
    /// that was not published.
    pub fn catch_up<R: Wait>(&mut self, rt: &R, writer: &Writer<V, O>, item: Option<Snapshot<Q>>)
        requires own { cell_of self.old ≡ cell_written writer.now }
        ensures same { SameReader self.old self.new
            × (refusals_of self.new ≡ refusals_of self.old) }
        ensures there { IsThere self.old → IsThere self.new }
        ensures seen { seen_of self.new ≡ published_by writer.now }
        ensures before { IsPrefix (seen_of self.old) (seen_of self.new) }
        ensures item { items_of self.new ≡ added (items_of self.old) item
            (length (published_by writer.now)) }
        ensures order { InOrder (items_of self.new) (length (seen_of self.new)) }
    {
        await_part(rt, &self.known, &writer.known);
        self.see(&writer.known, item);
    }

    /// Adds an item at the end of what it has seen: so stands a call that was answered from the
    /// value that it entered without an item, once its guard has ended. It takes no memory and
    /// waits for nobody.
    pub fn note(&mut self, item: Snapshot<Q>)
        ensures same { SameReader self.old self.new
            × (refusals_of self.new ≡ refusals_of self.old) }
        ensures there { IsThere self.old → IsThere self.new }
        ensures seen { seen_of self.new ≡ seen_of self.old }
        ensures item { items_of self.new ≡ added (items_of self.old) (Some item)
            (length (seen_of self.old)) }
        ensures order { InOrder (items_of self.new) (length (seen_of self.new)) }
    {
        let items = mem::replace(&mut self.items, Snapshot::of(&Trail::Empty));
        self.items = with(items, Some(item), self.known.count);
    }
}
