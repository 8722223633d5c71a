//! The end of a cell.
ghost use Rattle.std.specs.Prelude.{◌≡◌, ◌<◌, ◌↔◌, length, IsErr, IfErr, OnOk};
ghost use Rattle.snap_cell.specs.Legal.{Legal};
ghost use Rattle.snap_cell.specs.Views.{EachSeen, EachOf};
ghost use Rattle.snap_cell.specs.Writers.{published_by, cell_written, opening_written};
ghost use Rattle.snap_cell.specs.Writers.{reader_count};

use super::Writer;
use super::value::enter_whole;
use crate::history::{Prefix, await_part};
use crate::kept::Origin;
use crate::{Operation, Published, Reader};
use std::sync::Wait;

// Waits until the whole list begins with what each reader has seen.
fn await_readers<V: Published<O>, O: Operation, Q, R: Wait>(
    rt: &R,
    readers: &[Reader<V, O, Q>],
    origin: &Origin<V, O>,
    known: &Prefix<O>,
)
    requires own { EachOf origin.now readers.now }
    requires list { known.now.seen.book ≡ origin.now.empty.book }
    ensures { EachSeen known.now.seen.log readers.now }
{
    for reader in readers {
        await_part(rt, &reader.known, known);
    }
}

impl<V: Published<O>, O: Operation> Writer<V, O> {
    /// Ends the cell, and shows that there was one list: what each reader has seen begins the list
    /// of all that were published.
    ///
    /// # Errors
    /// All is handed back as it was, exactly where fewer readers are handed in than the cell has.
    pub fn close<Q, R: Wait>(
        self,
        rt: &R,
        readers: Vec<Reader<V, O, Q>>,
    ) -> Result<(), (Writer<V, O>, Vec<Reader<V, O, Q>>)>
        requires own { EachOf (cell_written self) readers.items }
        ensures refused { IsErr result ↔ (length readers.items < reader_count self) }
        ensures back { IfErr result (λ b. (b.0 ≡ self) × (b.1 ≡ readers)) }
        ensures seen { OnOk result (EachSeen (published_by self) readers.items) }
        ensures legal { OnOk result
            (Legal V.applied V.fits O.caller (V.state (opening_written self)) (reader_count self)
            (published_by self)) }
    {
        if readers.len() < self.origin.readers as usize {
            return Err((self, readers));
        }
        await_readers(rt, readers.as_slice(), &self.origin, &self.known);
        let Writer {
            desk,
            head: _,
            door,
            origin,
            known,
            stuck: _,
        } = self;
        enter_whole(rt, door, &origin, &known).leave();
        if let Some(desk) = desk {
            desk.take(rt);
        }
        Ok(())
    }
}
