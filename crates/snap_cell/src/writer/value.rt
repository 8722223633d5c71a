//! What the writer reads.
ghost use Rattle.std.specs.Prelude.{◌≡◌, Some, fold};
ghost use Rattle.std.specs.Option.{ForSome};
ghost use Rattle.left_right.specs.Sides.{view};
ghost use Rattle.snap_cell.specs.Legal.{Legal};
ghost use Rattle.snap_cell.specs.Rule.{Sound};
ghost use Rattle.snap_cell.specs.Writers.{published_by, cell_written, opening_written};
ghost use Rattle.snap_cell.specs.Writers.{reader_count, SameWriter, IsReadable};
ghost use Rattle.snap_cell.specs.Guards.{whole_value, cell_entered};

use super::Writer;
use crate::history::Prefix;
use crate::kept::Origin;
use crate::rule::{Door, Reading};
use crate::{Operation, Published};
use std::sync::Wait;
use std::thread;

/// Enters until the copy with just these operations is there.
pub(crate) fn enter_whole<V: Published<O>, O: Operation, R: Wait>(
    rt: &R,
    door: Option<Door<V, O>>,
    origin: &Origin<V, O>,
    known: &Prefix<O>,
) -> Reading<V, O>
    requires cell { ForSome door (λ d. view d.reader.place ≡ Some origin.now) }
    requires list { known.now.seen.book ≡ origin.now.empty.book }
    ensures sound { Sound V.state V.applied V.fits O.caller result.reading.part.value }
    ensures cell { (result.reading.part.value.origin ≡ origin.now)
        × (view result.reading.place ≡ Some origin.now) }
    ensures whole { result.reading.part.value.known.seen.log ≡ known.now.seen.log }
{
    let mut door = door;
    for _ in rt.forever() {
        door = match door {
            None => None,
            Some(door) => match door.enter_exactly(origin, known) {
                Ok(reading) => return reading,
                Err(door) => Some(door),
            },
        };
        thread::yield_now();
    }
    unreachable!()
}

/// The value with all that was published, in the hands of the writer's own reader. It is not
/// `Drop`: `Writer::put_back` ends it.
pub struct Whole<V: Published<O>, O: Operation> {
    pub(crate) reading: Reading<V, O>,
}

impl<V: Published<O>, O: Operation> Whole<V, O> {
    /// The value.
    pub fn get(&self) -> &V
        ensures { result.now ≡ whole_value self.now }
    {
        &self.reading.get().value
    }
}

impl<V: Published<O>, O: Operation> Writer<V, O> {
    /// The value with all that was published, read through a reader of the writer's own, which
    /// tries again until it is let in. It takes no memory. Put it back before the next publish or
    /// value, which would wait for it for ever.
    pub fn value<R: Wait>(&mut self, rt: &R) -> Whole<V, O>
        ensures same { SameWriter self.old self.new }
        ensures cell { cell_entered result ≡ Some (cell_written self.old) }
        ensures value { V.state (whole_value result)
            ≡ fold V.applied (V.state (opening_written self.old)) (published_by self.old) }
        ensures legal { Legal V.applied V.fits O.caller (V.state (opening_written self.old))
            (reader_count self.old) (published_by self.old) }
    {
        let door = self.door.take();
        Whole {
            reading: enter_whole(rt, door, &self.origin, &self.known),
        }
    }

    /// Gives the writer's own reader back.
    pub fn put_back(&mut self, whole: Whole<V, O>)
        requires { cell_entered whole ≡ Some (cell_written self.old) }
        ensures same { SameWriter self.old self.new }
        ensures readable { IsReadable self.new }
    {
        let Whole { reading } = whole;
        self.door = Some(reading.leave());
    }
}
