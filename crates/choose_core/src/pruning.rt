//! The choice of a leaf, in what pruning leaves of a bound.
ghost use Rattle.std.specs.Prelude.{◌≡◌, ◌+◌, ◌<◌, ◌≤◌, is_some, option_copied, IfNone, IfSome};
ghost use Rattle.std.specs.Option.{option_and_then};
ghost use Rattle.addr_book.specs.Found.{one, IsFilled, IsBounded};
ghost use Rattle.addr_book.specs.Bound.{found_of, listed_items};
ghost use Rattle.addr_book.proofs.Bounds.{found_size};
ghost use Rattle.choose_core.specs.Branch.{pruned, pruned_members, total_weight, chosen};
ghost use Rattle.choose_core.specs.Way.{through, leaf_among, leaf_in, items_size, choice_size};
ghost use Rattle.choose_core.specs.Way.{way_size, IsGoodWay, IsGoodAmong, IsGoodChoice};

use crate::left::{is_left, is_open};
use crate::way::{Among, Reached, Turn, Way, turn_of};
use addr_book::{Book, Bound, Leaf};

/// The leaf that a word chooses. Leaves whose service has no address are left out, and so are
/// branches of which nothing is left then; their weights do not count. At a union the word, as a
/// part of all words, chooses a branch by the weights; what is left of the word chooses in the
/// union below. `None` exactly where nothing is left.
///
/// For a word that is drawn evenly, each branch is chosen with a probability of its weight over the
/// sum of the weights that are left.
///
/// It takes at most two look-ups in the book for each leaf, however deep the unions stand in each
/// other, and one for a bound that is a leaf. It looks for the first leaf that is left, then for
/// one in each later branch of the unions above that leaf, down to the union at which the choice
/// takes another branch, and then goes on in that branch alone. The stack is as deep as the bound.
pub fn branch<'a>(bound: &'a Bound, book: &Book, word: u64) -> Option<&'a Leaf>
    requires filled { IsFilled (found_of bound.now) }
    requires bounded { IsBounded (found_of bound.now) }
    ensures leaf { option_copied result ≡ chosen book.now.services (found_of bound.now) word }
    ensures none { is_some result ≡ is_some (pruned book.now.services (found_of bound.now)) }
{
    let mut choice = first_left(bound, book, &Way::Word(word));
    loop {
        match choice {
            None => return None,
            Some(Reached::Leaf(leaf)) => return Some(leaf),
            Some(Reached::Among(among)) => choice = among_later(&among, book),
        }
    }
}

/// How far a choice comes that goes through the first leaf that is left of a bound, at the end of a
/// way: to that leaf, or to later branches. `None` exactly where nothing is left.
fn first_left<'a>(bound: &'a Bound, book: &Book, way: &Way<'a, '_>) -> Option<Reached<'a>>
    requires filled { IsFilled (found_of bound.now) }
    requires bounded { IsBounded (found_of bound.now) }
    requires way { IsGoodWay way.now }
    ensures left { is_some result ≡ is_some (pruned book.now.services (found_of bound.now)) }
    ensures leaf { option_and_then (leaf_in book.now.services) result
        ≡ option_and_then (through book.now.services way.now)
        (pruned book.now.services (found_of bound.now)) }
    ensures good { IfSome result (IsGoodChoice book.now.services) }
    ensures size { IfSome result
        (λ choice. choice_size choice < found_size (found_of bound.now) + way_size way.now) }
{
    match bound {
        Bound::One(leaf) => {
            if is_open(leaf, book) {
                Some(choice_at(leaf, way, book))
            } else {
                None
            }
        }
        Bound::Many(list) => {
            let items = list.items();
            for (at, item) in items.iter().enumerate() {
                let through = Way::Through {
                    weight: item.weight,
                    later: &items[at + 1..],
                    above: &*way,
                };
                let choice = first_left(&item.bound, book, &through);
                if choice.is_some() {
                    return choice;
                }
            }
            None
        }
    }
}

/// How far a choice comes at the end of a way, where this leaf is left.
fn choice_at<'a>(leaf: &'a Leaf, way: &Way<'a, '_>, book: &Book) -> Reached<'a>
    requires { IsGoodWay way.now }
    ensures leaf { leaf_in book.now.services result
        ≡ through book.now.services way.now (one leaf.now) }
    ensures good { IsGoodChoice book.now.services result }
    ensures size { choice_size result ≤ way_size way.now }
{
    match turn_of(way, book) {
        Turn::Into(_) => Reached::Leaf(leaf),
        Turn::Away(among) => Reached::Among(among),
    }
}

/// How far a choice comes that goes on among some branches.
fn among_later<'a>(among: &Among<'a>, book: &Book) -> Option<Reached<'a>>
    requires { IsGoodAmong book.now.services among.now }
    ensures leaf { option_and_then (leaf_in book.now.services) result
        ≡ leaf_among book.now.services among.now }
    ensures none { IfNone result
        (total_weight (pruned_members book.now.services (listed_items among.now.items.now))
        ≤ among.now.over) }
    ensures good { IfSome result (IsGoodChoice book.now.services) }
    ensures size { IfSome result (λ choice. choice_size choice < items_size among.now.items.now) }
{
    let mut left = among.over;
    for item in among.items {
        if left < item.weight {
            let choice = first_left(&item.bound, book, &Way::Word(among.word));
            if choice.is_some() {
                return choice;
            }
        } else if is_left(&item.bound, book) {
            left -= item.weight;
        }
    }
    None
}
