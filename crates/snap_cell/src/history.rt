//! The list of published operations. It exists in proofs alone: what runs is one number, its
//! length.
ghost use Rattle.std.specs.Prelude.{◌≡◌, ◌-◌, ◌<◌, ◌≤◌, ◌^◌, ◌++◌, ◌∷◌, [], length, IfSome};
ghost use mathlib.Core.List.{IsPrefix};
ghost use Rattle.snap_cell.specs.History.{head_of, longer};

use logbook::{Gain, Offer, Plain, Play, Rule, Seen, Start, Word};
use std::sync::Wait;
use std::thread;

/// The rule of the list: its one word is its length.
pub struct Law;

impl<O> Rule<O, ()> for Law {
    ghost use Rattle.std.specs.Prelude.{[]};
    ghost use base.Fml.{ftrue};
    ghost use Rattle.snap_cell.specs.History.{IsKept};

    ghost holds = { λ cells log. IsKept cells log };

    ghost first = { [] };

    ghost hinted = { λ n log. Unit {0} };

    ghost shows = { λ log. [] };

    ghost keeps = { λ names log. ftrue };

    ghost moves = { λ ask before after answer. Unit {0} };
}

/// Nothing is traded in a step.
pub struct Nothing;

impl<O> Gain<O, ()> for Nothing {
    ghost use base.Fml.{ftrue};

    ghost after = { λ names about answer. ftrue };
}

/// A step that adds an operation.
pub struct Add;

impl<O> Play<O, ()> for Add {
    ghost use Rattle.snap_cell.specs.History.{Adds};

    ghost then = { Adds };
}

impl<O> Plain<O, O, ()> for Add {
    ghost use Rattle.std.specs.Prelude.{None};

    ghost ask = { λ operation. operation };

    ghost state = { λ operation. None };
}

/// The word that only the writer has: how many operations the list has.
pub(crate) type Head<O> = Word<O, (), Law>;

/// A beginning of the list of published operations. It runs as its length.
pub struct Prefix<O> {
    pub(crate) count: u64,
    pub(crate) seen: Seen<O, (), Law>,
    ghost counted: { count ≡ length seen.log },
}

impl<O> Drop for Prefix<O> {
    fn drop(self) {
        let Prefix { count: _, seen } = self;
        drop(seen);
    }
}

impl<O> Prefix<O> {
    /// A new list with no operation.
    pub(crate) fn start() -> (Head<O>, Prefix<O>)
        ensures { (result.1.seen.log ≡ []) × (result.0 ≡ head_of result.1.seen.book) }
    {
        let (seen, mut first, _second) = Seen::open(Start::alone(), 0, 0);
        (Word::tracked(0, &mut first), Prefix { count: 0, seen })
    }

    /// The same beginning once more.
    pub(crate) fn again(&self) -> Prefix<O>
        ensures { result ≡ self.now }
    {
        Prefix {
            count: self.count,
            seen: self.seen.again(),
        }
    }

    /// The longer of two beginnings of one list.
    pub(crate) fn longer(&self, other: &Prefix<O>) -> Prefix<O>
        requires { other.now.seen.book ≡ self.now.seen.book }
        ensures longer { result.seen.log ≡ longer self.now.seen.log other.now.seen.log }
        ensures this { IsPrefix self.now.seen.log result.seen.log }
        ensures that { IsPrefix other.now.seen.log result.seen.log }
        ensures book { result.seen.book ≡ self.now.seen.book }
    {
        let mut both = self.seen.again();
        both.learn(&other.seen);
        if self.count < other.count {
            other.again()
        } else {
            self.again()
        }
    }

    /// A beginning that is at least as long, of the same list: it goes on from this one.
    pub(crate) fn newer(&self, other: &Prefix<O>) -> Prefix<O>
        requires list { other.now.seen.book ≡ self.now.seen.book }
        requires longer { length self.now.seen.log ≤ length other.now.seen.log }
        ensures other { result ≡ other.now }
        ensures this { IsPrefix self.now.seen.log result.seen.log }
    {
        let mut both = self.seen.again();
        both.learn(&other.seen);
        other.again()
    }

    /// This list with one operation more, where this is the whole list. The operation is then in
    /// the list for good.
    pub(crate) fn with(&self, head: &Head<O>, operation: &O) -> Option<Prefix<O>>
        requires head { head.now ≡ head_of self.now.seen.book }
        requires room { length self.now.seen.log < 2 ^ 64 - 1 }
        ensures { IfSome result
            (λ p. (p.seen.log ≡ self.now.seen.log ++ operation.now ∷ [])
            × (p.seen.book ≡ self.now.seen.book)) }
    {
        let count = self.count;
        let mut seen = self.seen.again();
        let mut offer: Offer<O, (), Law, Nothing> = seen.plain::<Nothing, O, Add>(operation);
        let mut pen = seen.no_pen();
        let found = head.compare_exchange::<Add, Nothing>(
            count,
            count + 1,
            &mut seen,
            &mut offer,
            &mut pen,
        );
        if found == count {
            Some(Prefix {
                count: count + 1,
                seen,
            })
        } else {
            None
        }
    }
}

/// Waits until the whole list begins with a part of it. It does at once, where the part was seen:
/// readers see what the writer published and nothing else. The wait stands for that, which no
/// clause of the list says.
pub(crate) fn await_part<O, R: Wait>(rt: &R, part: &Prefix<O>, whole: &Prefix<O>)
    requires { whole.now.seen.book ≡ part.now.seen.book }
    ensures part { IsPrefix part.now.seen.log whole.now.seen.log }
    ensures longer { length part.now.seen.log ≤ length whole.now.seen.log }
{
    for _ in rt.forever() {
        if part.count <= whole.count {
            part.newer(whole);
            return;
        }
        thread::yield_now();
    }
    unreachable!()
}
