//! The numbers that are counted.
ghost use Rattle.std.specs.Prelude.{◌≡◌, ◌<◌};
ghost use Rattle.exchange_tally.specs.Figures.{class_place, own_place, place_of};

use metrics_text::{BUCKETS, Class};
use own_reply::OwnError;

/// How many figures there are.
pub const FIGURES: usize = 46;

/// How many classes of replies there are.
pub(crate) const CLASSES: usize = 6;

/// How many words of own replies there are.
pub(crate) const WORDS: usize = 19;

/// One of the numbers that exchanges add to.
#[derive(Clone, Copy, Debug)]
pub enum Figure {
    /// Exchanges whose reply is of this class.
    Requests(Class),
    /// Own replies with this word.
    OwnReplies(OwnError),
    /// Tries of replicas.
    Tries,
    /// Reported failures of replicas.
    Failures,
    /// Bytes of requests' content.
    RequestBytes,
    /// Bytes of replies' content.
    ReplyBytes,
    /// Exchanges whose duration counts to the bucket at this place, as
    /// [`bucket_of`](metrics_text::bucket_of) says. A place past the last is the last.
    Bucket(usize),
    /// Milliseconds of all exchanges.
    Milliseconds,
    /// Asks for a replica that found a delegation that was kept.
    Hits,
    /// Asks that did not.
    Misses,
}

impl Figure {
    /// Its place among all figures, below [`FIGURES`]: where its count stands among those that a
    /// worker publishes. Two figures have one place only where they are counted together, as
    /// buckets past the last are.
    pub fn place(self) -> u32
        ensures place { result ≡ place_of self }
        ensures within { result < 46 }
    {
        match self {
            Figure::Requests(class) => class_place(class) as u32,
            Figure::OwnReplies(error) => 6 + own_place(error) as u32,
            Figure::Bucket(place) => 25 + place.min(BUCKETS - 1) as u32,
            Figure::Tries => 39,
            Figure::Failures => 40,
            Figure::RequestBytes => 41,
            Figure::ReplyBytes => 42,
            Figure::Milliseconds => 43,
            Figure::Hits => 44,
            Figure::Misses => 45,
        }
    }
}

/// The place of a class among the classes.
pub(crate) fn class_place(class: Class) -> usize
    ensures place { result ≡ class_place class }
    ensures within { result < 6 }
{
    match class {
        Class::Success => 0,
        Class::Redirection => 1,
        Class::ClientError => 2,
        Class::ServerError => 3,
        Class::Other => 4,
        Class::NoReply => 5,
    }
}

/// The place of a word among those of own replies.
pub(crate) fn own_place(error: OwnError) -> usize
    ensures place { result ≡ own_place error }
    ensures within { result < 19 }
{
    match error {
        OwnError::Version => 0,
        OwnError::BadHead => 1,
        OwnError::HeadTooLarge => 2,
        OwnError::Connect => 3,
        OwnError::Target => 4,
        OwnError::Length => 5,
        OwnError::Coding => 6,
        OwnError::TooLong => 7,
        OwnError::Host => 8,
        OwnError::Unidentified => 9,
        OwnError::Dtab => 10,
        OwnError::Body => 11,
        OwnError::Negative => 12,
        OwnError::Failing => 13,
        OwnError::Empty => 14,
        OwnError::TooDeep => 15,
        OwnError::TooWide => 16,
        OwnError::Dial => 17,
        OwnError::Upstream => 18,
    }
}
