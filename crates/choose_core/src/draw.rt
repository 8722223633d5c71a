//! The pair of addresses whose loads are compared.
ghost use Rattle.std.specs.Prelude.{◌≡◌, ◌≢◌, ◌<◌, ◌≤◌, length, sum, slice_index, slice_get, Some};
ghost use Rattle.std.specs.Prelude.{remove};
ghost use Rattle.addr_book.specs.AddrList.{HaveWeights};
ghost use Rattle.choose_core.specs.Live.{live_of};
ghost use Rattle.choose_core.specs.Sieve.{passing, TellsOf};
ghost use Rattle.choose_core.specs.Pair.{weights_of, place_over, place_in_whole, pair_of, scaled};
ghost use Rattle.choose_core.specs.Pair.{IsPair};

use crate::live::passing_at;
use crate::mark::Limits;
use crate::marks::Marks;
use crate::sieve::Sieve;
use addr_book::Weighted;

/// How many words of 64 bits there are.
const WORDS: u128 = 1 << 64;

/// The two places in a live list ([`live_at`](crate::live_at)) whose loads are compared, drawn by
/// two words: the first by the weights of all, the second by the weights of all but the first. Of
/// one address it is that address twice.
///
/// For words that are drawn evenly, an address is the first with a probability of its weight over
/// the sum of the weights.
///
/// It goes over the list four times: for who is alive, for the sum, for the first place, and for
/// the second. Marks are looked up in the first of these alone, and only where an address may still
/// be left out.
pub fn pair(
    list: &[Weighted],
    marks: &Marks,
    moment: u64,
    limits: Limits,
    w1: u64,
    w2: u64,
) -> (usize, usize)
    requires some { 1 ≤ length list.now }
    requires few { length list.now ≤ 1024 }
    requires weights { HaveWeights list.now }
    ensures pair { result ≡ pair_of (live_of marks.now moment limits list.now) w1 w2 }
    ensures first { result.0 < length (live_of marks.now moment limits list.now) }
    ensures second { result.1 < length (live_of marks.now moment limits list.now) }
    ensures apart { 2 ≤ length (live_of marks.now moment limits list.now) → result.0 ≢ result.1 }
{
    places(list, &Sieve::of(list, marks, moment, limits), w1, w2)
}

/// The two addresses at the places that [`pair`] draws.
///
/// Besides the passes of [`pair`] it goes over the list as far as each of the two where some of its
/// addresses are dead and others alive.
pub fn pair_addrs(
    list: &[Weighted],
    marks: &Marks,
    moment: u64,
    limits: Limits,
    w1: u64,
    w2: u64,
) -> (Weighted, Weighted)
    requires some { 1 ≤ length list.now }
    requires few { length list.now ≤ 1024 }
    requires weights { HaveWeights list.now }
    ensures first { slice_get (live_of marks.now moment limits list.now)
        (pair_of (live_of marks.now moment limits list.now) w1 w2).0 ≡ Some result.0 }
    ensures second { slice_get (live_of marks.now moment limits list.now)
        (pair_of (live_of marks.now moment limits list.now) w1 w2).1 ≡ Some result.1 }
{
    let sieve = Sieve::of(list, marks, moment, limits);
    let (first, second) = places(list, &sieve, w1, w2);
    (
        passing_at(list, &sieve, first),
        passing_at(list, &sieve, second),
    )
}

/// The two places that two words draw among the addresses of a list that pass.
fn places(list: &[Weighted], sieve: &Sieve, w1: u64, w2: u64) -> (usize, usize)
    requires some { 0 < length (passing sieve.now list.now) }
    requires tells { TellsOf sieve.now list.now }
    requires few { length list.now ≤ 1024 }
    requires weights { HaveWeights list.now }
    ensures { IsPair w1 w2 result (passing sieve.now list.now) }
{
    let total = total_weight(list, sieve);
    let first = draw(list, sieve, scaled(w1, total));
    let rest = total - first.weight;
    if rest == 0 {
        // No other address takes part: each would weigh something.
        return (first.at, first.at);
    }
    (
        first.at,
        draw_other(list, sieve, first.at, scaled(w2, rest)),
    )
}

/// A place in a live list, and the weight of the address there.
#[derive(Clone, Copy)]
struct Drawn {
    at: usize,
    weight: u64,
}

/// The sum of the weights of a live list.
fn total_weight(list: &[Weighted], sieve: &Sieve) -> u64
    requires tells { TellsOf sieve.now list.now }
    requires few { length list.now ≤ 1024 }
    requires weights { HaveWeights list.now }
    ensures { result ≡ sum (weights_of (passing sieve.now list.now)) }
{
    let mut total = 0;
    for (index, item) in list.iter().enumerate() {
        if sieve.passes(index, *item) {
            total += item.weight;
        }
    }
    total
}

/// The first place of a live list whose cumulative weight exceeds a number, and the weight there;
/// the number of its addresses, and 0, where there is none.
fn draw(list: &[Weighted], sieve: &Sieve, over: u64) -> Drawn
    requires { TellsOf sieve.now list.now }
    ensures at { result.at ≡ place_over (weights_of (passing sieve.now list.now)) over }
    ensures weight { result.weight
        ≡ slice_index (weights_of (passing sieve.now list.now)) result.at }
{
    let mut left = over;
    let mut at = 0;
    for (index, item) in list.iter().enumerate() {
        if sieve.passes(index, *item) {
            if left < item.weight {
                return Drawn {
                    at,
                    weight: item.weight,
                };
            }
            left -= item.weight;
            at += 1;
        }
    }
    Drawn { at, weight: 0 }
}

/// The first place of a live list whose cumulative weight exceeds a number, where the address at
/// one place does not count.
fn draw_other(list: &[Weighted], sieve: &Sieve, out: usize, over: u64) -> usize
    requires tells { TellsOf sieve.now list.now }
    requires out { out < length (passing sieve.now list.now) }
    ensures { result ≡ place_in_whole out
        (place_over (remove (weights_of (passing sieve.now list.now)) out) over) }
{
    let mut left = over;
    let mut at = 0;
    for (index, item) in list.iter().enumerate() {
        if sieve.passes(index, *item) {
            if at != out {
                if left < item.weight {
                    return at;
                }
                left -= item.weight;
            }
            at += 1;
        }
    }
    at
}

/// The number below a total that is as far along as a word is among all words.
fn scaled(word: u64, total: u64) -> u64
    ensures { result ≡ scaled word total }
{
    (u128::from(word) * u128::from(total) / WORDS) as u64
}
