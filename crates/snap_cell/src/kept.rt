//! The value that is kept twice.
ghost use Rattle.std.specs.Prelude.{◌≡◌};
ghost use Rattle.snap_cell.specs.Kept.{after_entry};
ghost use Rattle.snap_cell.specs.Origins.{origin_at};

use crate::history::{Law, Prefix};
use crate::{Operation, Published};
use left_right::Absorb;
use logbook::Seen;
use std::alloc::AllocError;
use std::snapshot::Snapshot;

/// What two copies, a writer, its readers and its notes have in common.
pub struct Origin<V, O> {
    pub(crate) opening: Snapshot<V>,
    pub(crate) readers: u32,
    pub(crate) empty: Seen<O, (), Law>,
}

impl<V, O> Drop for Origin<V, O> {
    fn drop(self) {
        let Origin {
            opening,
            readers: _,
            empty,
        } = self;
        drop(opening);
        drop(empty);
    }
}

impl<V, O> Origin<V, O> {
    /// Of a cell that begins with this value and this list, with so many readers.
    pub(crate) fn of(first: &V, readers: u32, empty: &Prefix<O>) -> Origin<V, O>
        ensures { result ≡ origin_at first.now readers empty.now }
    {
        Origin {
            opening: Snapshot::of(first),
            readers,
            empty: empty.seen.again(),
        }
    }
}

/// One copy of the value, with the operations that it has.
pub struct Kept<V, O> {
    pub(crate) value: V,
    pub(crate) origin: Origin<V, O>,
    pub(crate) known: Prefix<O>,
}

impl<V: Drop, O> Drop for Kept<V, O> {
    fn drop(self) {
        let Kept {
            value,
            origin,
            known,
        } = self;
        drop(value);
        drop(origin);
        drop(known);
    }
}

/// An operation on its way into both copies, with the list that ends with it.
pub struct Entry<O> {
    pub(crate) operation: Option<O>,
    pub(crate) known: Prefix<O>,
}

impl<O: Drop> Drop for Entry<O> {
    fn drop(self) {
        let Entry { operation, known } = self;
        drop(operation);
        drop(known);
    }
}

impl<V: Published<O>, O: Operation> Absorb<Entry<O>> for Kept<V, O> {
    type State = (V::State, (Origin<V, O>, Prefix<O>));

    ghost state = { λ k. (V.state k.value, (k.origin, k.known)) };

    ghost applied = { after_entry V.applied };

    fn absorb_first(&mut self, entry: &Entry<O>, other: &Kept<V, O>) -> Result<(), AllocError> {
        if let Some(operation) = &entry.operation {
            self.value.absorb_first(operation, &other.value)?;
        }
        self.known = entry.known.again();
        Ok(())
    }
}
