//! How long requests took.
ghost use Rattle.std.specs.Prelude.{◌≡◌, ◌≤◌, ◌<◌, count_by, nat_lt};
ghost use Rattle.metrics_text.specs.Classes.{bounds, bucket_of};

/// How many buckets there are for durations, with the one that has no bound.
pub const BUCKETS: usize = 14;

/// The bounds of the buckets, in milliseconds: a duration counts to the first one that it does not
/// pass.
const BOUNDS: [u64; 13] = [
    1, 2, 5, 10, 20, 50, 100, 200, 500, 1_000, 2_000, 5_000, 10_000,
];

/// The place of the bucket to which a duration counts, in milliseconds: the first whose bound it
/// does not pass, or the last one, which has none.
#[tactic(auto, unfolding(crate::specs::Classes::bucket_of))]
pub fn bucket_of(milliseconds: u64) -> usize
    ensures place { result ≡ bucket_of milliseconds }
    ensures within { result < 14 }
{
    BOUNDS.iter().filter(|bound| **bound < milliseconds).count()
}

/// How long requests took, in all.
#[derive(Clone, Copy, Debug, PartialEq, Eq)]
pub struct Durations {
    /// How many requests counted to each bucket, by [`bucket_of`].
    pub buckets: [u64; BUCKETS],
    /// The sum of their milliseconds.
    pub milliseconds: u64,
}
