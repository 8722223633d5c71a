//! Laws of the readings of some bytes. The functions do nothing: their contracts are the laws.
ghost use Rattle.std.specs.Prelude.{ℕ, List};
ghost use Rattle.http_wire.specs.Laws.{HeadsAreUnique, ReadingsExclude, ReplyHeadsAreUnique};
ghost use Rattle.http_wire.specs.Laws.{ReplyReadingsExclude};

/// Some bytes begin with at most one head of a request and at most one of a reply, and each has one
/// length.
pub fn heads_are_unique()
    ensures requests { HeadsAreUnique }
    ensures replies { ReplyHeadsAreUnique }
{}

/// Of the five readings of some bytes as the head of a request (a head, bad, another version, too
/// large, unfinished) no two hold at once, and none of the four as that of a reply.
pub fn readings_exclude_one_another()
    ensures requests { (bytes : List ℕ) → ReadingsExclude bytes }
    ensures replies { (bytes : List ℕ) → ReplyReadingsExclude bytes }
{}
