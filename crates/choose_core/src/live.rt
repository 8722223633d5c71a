//! Live lists: the addresses of a service that are alive, or all where none is.
ghost use Rattle.std.specs.Prelude.{◌≡◌, ◌<◌, length, slice_get, Some};
ghost use Rattle.choose_core.specs.Live.{live_of};
ghost use Rattle.choose_core.specs.Sieve.{passing, TellsOf};

use crate::mark::Limits;
use crate::marks::Marks;
use crate::sieve::Sieve;
use addr_book::Weighted;

/// How many addresses of a list are alive at a moment; all of them count where none is alive.
///
/// It takes no time at a moment from which on no address is left out, as where none has failures.
/// Otherwise it looks each mark of the list up once.
pub fn live_count(list: &[Weighted], marks: &Marks, moment: u64, limits: Limits) -> usize
    ensures { result ≡ length (live_of marks.now moment limits list.now) }
{
    passing_count(list, &Sieve::of(list, marks, moment, limits))
}

/// The address at a place among those that are alive at a moment, or among all where none is alive,
/// in the list's order.
///
/// It takes no time at a moment from which on no address is left out, as where none has failures.
/// Otherwise it looks each mark of the list up once.
pub fn live_at(list: &[Weighted], marks: &Marks, moment: u64, limits: Limits, at: usize) -> Weighted
    requires { at < length (live_of marks.now moment limits list.now) }
    ensures { slice_get (live_of marks.now moment limits list.now) at ≡ Some result }
{
    passing_at(list, &Sieve::of(list, marks, moment, limits), at)
}

/// The address at a place among those of a list that pass, which has one there.
pub(crate) fn passing_at(list: &[Weighted], sieve: &Sieve, at: usize) -> Weighted
    requires tells { TellsOf sieve.now list.now }
    requires within { at < length (passing sieve.now list.now) }
    ensures { slice_get (passing sieve.now list.now) at ≡ Some result }
{
    if sieve.takes_all() {
        return item_at(list, at);
    }
    match nth_passing(list, sieve, at) {
        Some(item) => item,
        None => unreachable!(),
    }
}

/// How many addresses of a list pass.
fn passing_count(list: &[Weighted], sieve: &Sieve) -> usize
    requires { TellsOf sieve.now list.now }
    ensures { result ≡ length (passing sieve.now list.now) }
{
    if sieve.takes_all() {
        return list.len();
    }
    let mut count = 0;
    for (index, item) in list.iter().enumerate() {
        if sieve.passes(index, *item) {
            count += 1;
        }
    }
    count
}

/// The address at a place of a list.
fn item_at(list: &[Weighted], at: usize) -> Weighted
    requires { at < length list.now }
    ensures { slice_get list.now at ≡ Some result }
{
    list[at]
}

/// The address at a place among those of a list that pass.
fn nth_passing(list: &[Weighted], sieve: &Sieve, at: usize) -> Option<Weighted>
    requires { TellsOf sieve.now list.now }
    ensures { result ≡ slice_get (passing sieve.now list.now) at }
{
    let mut left = at;
    for (index, item) in list.iter().enumerate() {
        if sieve.passes(index, *item) {
            if left == 0 {
                return Some(*item);
            }
            left -= 1;
        }
    }
    None
}
