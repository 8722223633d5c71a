//! Readers.
ghost use Rattle.std.specs.Prelude.{◌≡◌, ◌<◌, Some, length};
ghost use Rattle.std.specs.Option.{ForSome};
ghost use Rattle.left_right.specs.Sides.{view};
ghost use Rattle.snap_cell.specs.Items.{items_in, InOrder};

use crate::history::Prefix;
use crate::kept::Origin;
use crate::rule::Door;
use crate::trail::Trail;
use crate::{Operation, Published};
use std::snapshot::Snapshot;

mod enter;
mod learn;

pub use enter::Entered;

/// One reader of a cell. A contract sees the operations that it has seen or learnt of (`seen_of`),
/// which begin the list of all that were published, its items, each with its point (`items_of`),
/// its number and the number of its refusals.
///
/// The lists exist in proofs alone. What runs is a place in the cell and three numbers.
pub struct Reader<V: Published<O>, O: Operation, Q> {
    // Away while what was entered is out.
    pub(crate) door: Option<Door<V, O>>,
    pub(crate) origin: Origin<V, O>,
    pub(crate) known: Prefix<O>,
    pub(crate) items: Snapshot<Trail<Q>>,
    pub(crate) number: u32,
    pub(crate) refused: u64,
    ghost of_cell: { ForSome door (λ d. view d.reader.place ≡ Some origin) },
    ghost one_list: { known.seen.book ≡ origin.empty.book },
    ghost below: { number < origin.readers },
    ghost in_order: { InOrder (items_in items.value) (length known.seen.log) },
}

impl<V: Published<O>, O: Operation, Q> Drop for Reader<V, O, Q> {
    fn drop(self) {
        let Reader {
            door,
            origin,
            known,
            items,
            number: _,
            refused: _,
        } = self;
        drop(door);
        drop(origin);
        drop(known);
        drop(items);
    }
}
