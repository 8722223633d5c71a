//! The rule over the copies, as `left_right` keeps it, and an entry under it.
ghost use Rattle.std.specs.Prelude.{◌≡◌, ◌≤◌, ◌⊎◌, [], None, Some, IfOk, MatchResult, drop, length};
ghost use Rattle.left_right.specs.Sides.{view};
ghost use Rattle.snap_cell.specs.Rule.{Holds, Sound, Enters, Shows, IsReady, Opens, Follows};

use crate::history::Prefix;
use crate::kept::{Entry, Kept, Origin};
use crate::{Operation, Published};
use atomic_table::{Join, Split};
use crossbeam_utils::rule::{Outcome, Protocol};
use left_right::{reader, writer};
use std::alloc::AllocError;
use std::sync::Wait;

/// What a handle knows: of which cell it is. No value of it is made.
pub type View<V, O> = Option<Origin<V, O>>;

pub struct OneList;

impl<V: Published<O>, O: Operation> Protocol<Kept<V, O>, View<V, O>> for OneList {
    ghost holds = { Holds V.state V.applied V.fits O.caller };

    ghost first = { None };
}

pub(crate) struct Enter;

impl<V: Published<O>, O: Operation> Outcome<Kept<V, O>, View<V, O>> for Enter {
    ghost then = { Enters V.state V.applied V.fits O.caller };
}

pub(crate) struct Show;

impl<V: Published<O>, O: Operation> Outcome<Kept<V, O>, View<V, O>> for Show {
    ghost then = { Shows V.state V.applied V.fits O.caller };
}

pub(crate) type Desk<V, O> = writer::Writer<Kept<V, O>, Entry<O>, View<V, O>, OneList>;

/// Shows the copy that has what is pending: an operation, or the entry that opens the cell.
pub(crate) fn show_pending<V: Published<O>, O: Operation, R: Wait>(
    desk: Desk<V, O>,
    rt: &R,
) -> (Desk<V, O>, Result<(), AllocError>)
    requires { IsReady V.fits O.caller V.applied V.state desk.desk.shown.value
        (drop desk.behind desk.log.items)
        ⊎ Opens desk.desk.shown.value (drop desk.behind desk.log.items) }
    ensures { MatchResult result.1
        (λ _. Follows desk.desk.shown.value (drop desk.behind desk.log.items)
        result.0.desk.shown.value (view result.0.desk.place)
        × (drop result.0.behind result.0.log.items ≡ []))
        (λ _. (result.0.desk.shown.value ≡ desk.desk.shown.value)
        × (view result.0.desk.place ≡ view desk.desk.place)) }
{
    desk.publish_as::<Show, R>(rt)
}

/// How the writer names the cell to a new reader.
pub(crate) struct Names;

impl<V, O> Split<View<V, O>> for Names {
    ghost left = { λ v. v };

    ghost right = { λ v. v };
}

impl<V, O> Join<View<V, O>> for Names {
    ghost both = { λ v w. w };

    ghost spent = { None };
}

/// A reader's place, outside.
pub struct Door<V: Published<O>, O: Operation> {
    pub(crate) reader: reader::Reader<Kept<V, O>, View<V, O>, OneList>,
}

impl<V: Published<O>, O: Operation> Drop for Door<V, O> {
    fn drop(self) {
        let Door { reader } = self;
        drop(reader);
    }
}

/// A reader's place, with the copy that it reads. It is not `Drop`: end it by `leave`.
pub struct Reading<V: Published<O>, O: Operation> {
    pub(crate) reading: reader::Reading<Kept<V, O>, View<V, O>, OneList>,
}

impl<V: Published<O>, O: Operation> Door<V, O> {
    /// Takes the copy that was published last, if it has at least so many operations.
    pub(crate) fn enter(self, least: u64) -> Result<Reading<V, O>, Door<V, O>>
        ensures { MatchResult result
            (λ r. Enters V.state V.applied V.fits O.caller (view self.reader.place)
            r.reading.part.value r.reading.part.value (view r.reading.place)
            × (least ≤ length r.reading.part.value.known.seen.log))
            (λ d. view d.reader.place ≡ view self.reader.place) }
    {
        let Door { reader } = self;
        match reader.enter_as::<Enter>() {
            Err(reader) => Err(Door { reader }),
            Ok(reading) => {
                if reading.get().known.count < least {
                    return Err(Door {
                        reader: reading.leave(),
                    });
                }
                Ok(Reading { reading })
            }
        }
    }
}

impl<V: Published<O>, O: Operation> Door<V, O> {
    /// Takes the copy that was published last, if it has just these operations.
    pub(crate) fn enter_exactly(
        self,
        origin: &Origin<V, O>,
        known: &Prefix<O>,
    ) -> Result<Reading<V, O>, Door<V, O>>
        requires cell { view self.reader.place ≡ Some origin.now }
        requires list { known.now.seen.book ≡ origin.now.empty.book }
        ensures entered { IfOk result
            (λ r. Sound V.state V.applied V.fits O.caller r.reading.part.value
            × (r.reading.part.value.origin ≡ origin.now)
            × (r.reading.part.value.known.seen.log ≡ known.now.seen.log)) }
        ensures cell { MatchResult result (λ r. view r.reading.place ≡ Some origin.now)
            (λ d. view d.reader.place ≡ Some origin.now) }
    {
        let reading = self.enter(known.count)?;
        if reading.get().known.count > known.count {
            return Err(reading.leave());
        }
        known.newer(&reading.get().known);
        Ok(reading)
    }
}

impl<V: Published<O>, O: Operation> Reading<V, O> {
    /// The copy that is being read.
    pub(crate) fn get(&self) -> &Kept<V, O>
        ensures { result.now ≡ self.now.reading.part.value }
    {
        self.reading.get()
    }

    /// Ends the reading, and gives its place back.
    pub(crate) fn leave(self) -> Door<V, O>
        ensures { view result.reader.place ≡ view self.reading.place }
    {
        let Reading { reading } = self;
        Door {
            reader: reading.leave(),
        }
    }
}
