//! A list that exists in proofs alone.
ghost use Rattle.std.specs.Prelude.{◌≡◌};
ghost use Rattle.snap_cell.specs.Items.{items_in, added};

use std::snapshot::Snapshot;

/// The items of a reader, each with its point. It has no bytes as a `Snapshot`, and no value of it
/// is kept.
#[derive(Drop)]
pub enum Trail<Q> {
    Empty,
    Next(Snapshot<Trail<Q>>, Snapshot<Q>, u64),
}

/// The trail with one item more.
pub(crate) fn with<Q>(
    trail: Snapshot<Trail<Q>>,
    item: Option<Snapshot<Q>>,
    point: u64,
) -> Snapshot<Trail<Q>>
    ensures { items_in result.value ≡ added (items_in trail.value) item point }
{
    match item {
        None => trail,
        Some(what) => {
            let next = Trail::Next(trail, what, point);
            Snapshot::of(&next)
        }
    }
}
