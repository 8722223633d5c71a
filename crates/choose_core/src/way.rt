//! A choice on its way down a bound.
ghost use Rattle.std.specs.Prelude.{◌≡◌, ◌<◌, ◌≤◌, ◌^◌};
ghost use Rattle.addr_book.specs.Found.{Found, many, member};
ghost use Rattle.addr_book.specs.Bound.{listed_items};
ghost use Rattle.choose_core.specs.Branch.{pruned_members, branch_of};
ghost use Rattle.choose_core.specs.Way.{through, turned, items_size, turn_size, way_size, IsBranch};
ghost use Rattle.choose_core.specs.Way.{IsGoodWay, IsGoodTurn};

use crate::left::left_weight;
use addr_book::{Book, BoundItem, Leaf};

/// How many words of 64 bits there are.
const WORDS: u128 = 1 << 64;

/// The unions that a search for the first leaf that is left went through, to where it is.
#[derive(Clone, Copy)]
pub(crate) enum Way<'a, 'w> {
    /// None: the word chooses in the bound itself.
    Word(u64),
    /// One more. Nothing is left of the branches before this one.
    Through {
        /// The weight of the branch.
        weight: u64,
        /// The branches behind it.
        later: &'a [BoundItem],
        /// The way to the union.
        above: &'w Way<'a, 'w>,
    },
}

/// Branches among which a choice goes on: it falls on the first of those of which something is left
/// whose cumulative weight exceeds a number, and then goes on in that branch by a word.
#[derive(Clone, Copy)]
pub(crate) struct Among<'a> {
    pub(crate) items: &'a [BoundItem],
    pub(crate) over: u64,
    pub(crate) word: u64,
}

/// Where a choice goes on at the end of a way, if something is left there.
#[derive(Clone, Copy)]
pub(crate) enum Turn<'a> {
    /// There, by this word.
    Into(u64),
    /// Among the later branches of a union on the way.
    Away(Among<'a>),
}

/// How far a choice came.
#[derive(Clone, Copy)]
pub(crate) enum Reached<'a> {
    /// To a leaf, which is left.
    Leaf(&'a Leaf),
    /// To some branches.
    Among(Among<'a>),
}

/// Where a choice goes on at the end of a way. It looks for a leaf that is left in each later
/// branch of the unions on the way, down to the one at which the choice turns away.
pub(crate) fn turn_of<'a>(way: &Way<'a, '_>, book: &Book) -> Turn<'a>
    requires { IsGoodWay way.now }
    ensures turned { (found : Found)
        → through book.now.services way.now found ≡ turned book.now.services found result }
    ensures good { IsGoodTurn book.now.services result }
    ensures size { turn_size result ≤ way_size way.now }
{
    match way {
        Way::Word(word) => Turn::Into(*word),
        Way::Through {
            weight,
            later,
            above,
        } => match turn_of(above, book) {
            Turn::Into(word) => turn_at(*weight, later, word, book),
            Turn::Away(among) => Turn::Away(among),
        },
    }
}

/// Where a choice goes on in a union by a word: into the first branch of which something is left,
/// whose weight is given, or among those behind it.
fn turn_at<'a>(weight: u64, later: &'a [BoundItem], word: u64, book: &Book) -> Turn<'a>
    requires branch { IsBranch weight later.now }
    requires word { word < 2 ^ 64 }
    ensures turned { (found : Found)
        → branch_of (many (member weight found
        (pruned_members book.now.services (listed_items later.now)))) word
        ≡ turned book.now.services found result }
    ensures good { IsGoodTurn book.now.services result }
    ensures size { turn_size result ≤ items_size later.now }
{
    let total = weight + left_weight(later, book);
    let product = u128::from(word) * u128::from(total);
    let over = (product / WORDS) as u64;
    let word = (product % WORDS) as u64;
    if over < weight {
        return Turn::Into(word);
    }
    Turn::Away(Among {
        items: later,
        over: over - weight,
        word,
    })
}
