//! The laws. The functions do nothing: their contracts are the laws.
ghost use Rattle.router_log.specs.Laws.{ValuesAreRight, PlaceIsLength, OnePlaceOneState};
ghost use Rattle.router_log.specs.Laws.{PublishedIsOwn, PublishedChangeFits, KeptFits};
ghost use Rattle.router_log.specs.Laws.{TakingChanges, TakingKeeps};

/// Whatever was published, where each operation fitted: a delegation that is kept is right for the
/// state, and the state's place is the number of changes. At one place there is one state.
pub fn published_values_are_right()
    ensures right { ValuesAreRight }
    ensures place { PlaceIsLength }
    ensures state { OnePlaceOneState }
{}

/// What a call publishes has its caller's number. A change that is published fits, and so does a
/// delegation that was right where it was worked out and is kept at the same place.
pub fn published_operations_fit()
    ensures own { PublishedIsOwn }
    ensures change { PublishedChangeFits }
    ensures kept { KeptFits }
{}

/// What [`take_change`](crate::take_change) and [`take_kept`](crate::take_kept) make of a value is
/// what the published operation leaves: of a change that the value's state accepts, prepared from
/// that state, and of a delegation that fits the value.
pub fn taking_is_applying()
    ensures change { TakingChanges }
    ensures kept { TakingKeeps }
{}
