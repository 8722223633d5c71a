//! Laws of feeds. The functions do nothing: their contracts are the laws.
ghost use Rattle.follow_feed.specs.Laws.{FeedsStay, HoldsTheGreatest, HoldsTheLeaders};

/// Whoever takes some feeds, one after another, in any order and with any repeats, holds the one
/// with the greatest run and place; and where one leader said them all, and no two of its runs have
/// one number, its table is the leader's at the run and the place that it names.
pub fn greatest_feed_is_held()
    ensures greatest { HoldsTheGreatest }
    ensures leaders { HoldsTheLeaders }
{}

/// What a router's history says at a place, it says there for good, whatever is published behind
/// that place.
pub fn feeds_stay()
    ensures { FeedsStay }
{}
