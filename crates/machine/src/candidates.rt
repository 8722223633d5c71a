//! The two replicas between which a pick decides.
ghost use Rattle.std.specs.Prelude.{◌≡◌};

use addr_book::{Addr, Leaf, Weighted};
use choose_core::lesser;

/// The two replicas of a leaf of which the less loaded one is taken. They are one and the same
/// where the leaf has one address that may be chosen.
#[derive(Clone, Copy)]
pub struct Candidates<'a> {
    /// The leaf.
    pub leaf: &'a Leaf,
    /// The first replica, which is taken where the loads are equal, each as against its weight.
    pub first: Weighted,
    /// The second one.
    pub second: Weighted,
    /// Their slots in the book. `None` where the leaf is an address by itself.
    pub slots: Option<(u32, u32)>,
}

/// A replica that is taken.
#[derive(Clone, Copy, Debug, PartialEq, Eq)]
pub struct Taken {
    /// Its address.
    pub addr: Addr,
    /// Its slot in the book, if it is of a service.
    pub slot: Option<u32>,
}

impl Candidates<'_> {
    ghost use Rattle.machine.specs.Choosing.{is_first_taken, taken_of};
    ghost use Rattle.machine.specs.Candidates.{pair_value};

    /// The replica that is taken where the first and the second have these loads.
    pub fn taken(&self, first: u64, second: u64) -> Taken
        ensures addr { result.addr
            ≡ (taken_of (pair_value self.now)
            (is_first_taken first second (pair_value self.now))).addr }
        ensures slot { result.slot
            ≡ (taken_of (pair_value self.now)
            (is_first_taken first second (pair_value self.now))).slot }
    {
        let is_first = lesser(first, self.first.weight, second, self.second.weight);
        self.one_of(is_first)
    }

    /// The first, or the second.
    fn one_of(&self, is_first: bool) -> Taken
        ensures addr { result.addr ≡ (taken_of (pair_value self.now) is_first).addr }
        ensures slot { result.slot ≡ (taken_of (pair_value self.now) is_first).slot }
    {
        match (is_first, self.slots) {
            (true, None) => Taken {
                addr: self.first.addr,
                slot: None,
            },
            (true, Some((slot, _))) => Taken {
                addr: self.first.addr,
                slot: Some(slot),
            },
            (false, None) => Taken {
                addr: self.second.addr,
                slot: None,
            },
            (false, Some((_, slot))) => Taken {
                addr: self.second.addr,
                slot: Some(slot),
            },
        }
    }
}
