//! The laws of connections over all their stays. The function does nothing: its contract is the
//! laws.
ghost use Rattle.client_stays.specs.Laws.{NothingIsForgotten, OneBudget, PointsNeverFall};

/// Whenever a connection is taken up, its server has seen all that had been seen for it in each of
/// its earlier stays, and the calls that it makes for it have points behind all of that, also in
/// the stay that ends it. So none of its requests is answered from an older state than one before
/// it, whichever workers serve it: it reads its own writes, and an edit that was seen stays seen.
///
/// Over all its stays, with the one that ends it, the attempts behind the first of each request are
/// at most what its budget had when it came and what the requests of these stays paid in, in whole
/// retries: `reserve + percent * requests / 100`, or none where it came without a budget. The
/// requests of the stays behind which it waited are those that it counted.
pub fn connections_forget_nothing()
    ensures nothing { NothingIsForgotten }
    ensures points { PointsNeverFall }
    ensures budget { OneBudget }
{}
