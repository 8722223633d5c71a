//! The writer, and what it tells its readers.
ghost use Rattle.std.specs.Prelude.{◌≡◌, [], false, Some, IsSome, drop};
ghost use Rattle.std.specs.Option.{ForSome};
ghost use Rattle.left_right.specs.Sides.{view};
ghost use Rattle.snap_cell.specs.History.{head_of};
ghost use Rattle.snap_cell.specs.Rule.{Stands};

use crate::history::{Head, Prefix};
use crate::kept::{Entry, Kept, Origin};
use crate::rule::{Desk, Door};
use crate::{Operation, Published};
use left_right::Absorb;

mod close;
mod publish;
mod value;

pub use value::Whole;

/// The one writer of a cell. A contract sees all operations that were published, in order
/// (`published_by`). It is not `Drop`: end it by `close`.
pub struct Writer<V: Published<O>, O: Operation>
where
    Kept<V, O>: Absorb<Entry<O>>,
{
    // Away only within a publish.
    pub(crate) desk: Option<Desk<V, O>>,
    pub(crate) head: Head<O>,
    // The writer's own reader. Away while a guard has it.
    pub(crate) door: Option<Door<V, O>>,
    pub(crate) origin: Origin<V, O>,
    pub(crate) known: Prefix<O>,
    // An operation could not be published, and cannot be taken back. Then nothing is published any
    // more.
    pub(crate) stuck: bool,
    ghost of_cell: { ForSome door (λ d. view d.reader.place ≡ Some origin) },
    ghost one_list: { known.seen.book ≡ origin.empty.book },
    ghost head_is: { head ≡ head_of known.seen.book },
    ghost there: { IsSome desk },
    ghost stands: { ForSome desk (λ d.
        Stands origin known d.desk.shown.value (view d.desk.place)) },
    ghost settled: { stuck ≡ false → ForSome desk (λ d. drop d.behind d.log.items ≡ []) },
}

/// All operations that were published when the writer told of them. It runs as their number.
pub struct Note<O> {
    pub(crate) known: Prefix<O>,
}

impl<O> Drop for Note<O> {
    fn drop(self) {
        let Note { known } = self;
        drop(known);
    }
}
