//! Which addresses of a list take part in a choice.
ghost use Rattle.std.specs.Prelude.{◌≡◌, filter, length};
ghost use Rattle.choose_core.specs.Live.{is_alive, live_of};
ghost use Rattle.choose_core.specs.Sieve.{AreAlive};

use crate::bits::Bits;
use crate::mark::Limits;
use crate::marks::Marks;
use addr_book::{MOST_ADDRS, Weighted};

/// Which addresses of a list take part in a choice at a moment: those that are alive, or all.
#[derive(Clone, Copy)]
pub(crate) struct Sieve<'a> {
    marks: &'a Marks,
    moment: u64,
    limits: Limits,
    /// Whether all do.
    all: bool,
    /// The places of the first 1,024 addresses that are alive, where not all take part.
    alive: Bits,
}

impl<'a> Sieve<'a> {
    ghost use Rattle.choose_core.specs.Sieve.{passes, passing, TellsAt, TellsOf};

    /// The sieve for a list, through which its live list passes. It looks each address's mark up
    /// once, and later passes over the list look up none. Where no address is left out any more it
    /// looks up none either.
    pub(crate) fn of(list: &[Weighted], marks: &'a Marks, moment: u64, limits: Limits) -> Sieve<'a>
        ensures passing { passing result list.now ≡ live_of marks.now moment limits list.now }
        ensures tells { TellsOf result list.now }
    {
        if marks.are_over(moment) {
            return Sieve {
                marks,
                moment,
                limits,
                all: true,
                alive: Bits::none(),
            };
        }
        let (alive, count) = alive_in(list, marks, moment, limits);
        Sieve {
            marks,
            moment,
            limits,
            all: count == 0 || count == list.len(),
            alive,
        }
    }

    /// Whether all addresses take part.
    pub(crate) fn takes_all(&self) -> bool
        ensures { result ≡ self.now.all }
    {
        self.all
    }

    /// Whether the address at a place of the list takes part.
    pub(crate) fn passes(&self, at: usize, item: Weighted) -> bool
        requires { TellsAt self.now at item }
        ensures { result ≡ passes self.now item }
    {
        if self.all {
            return true;
        }
        if at < MOST_ADDRS {
            return self.alive.has(at);
        }
        !self.marks.is_dead(item.addr, self.moment, self.limits)
    }
}

/// The places of the addresses of a list that are alive, of the first 1,024, and how many of the
/// list are alive.
fn alive_in(list: &[Weighted], marks: &Marks, moment: u64, limits: Limits) -> (Bits, usize)
    ensures places { AreAlive marks.now moment limits list.now result.0 }
    ensures count { result.1 ≡ length (filter (is_alive marks.now moment limits) list.now) }
{
    let mut alive = Bits::none();
    let mut count = 0;
    let mut near = 0;
    for (at, item) in list.iter().enumerate() {
        let (is_dead, place) = marks.is_dead_near(item.addr, near, moment, limits);
        near = place;
        if !is_dead {
            count += 1;
            if at < MOST_ADDRS {
                alive.put(at);
            }
        }
    }
    (alive, count)
}
