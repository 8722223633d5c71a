//! A worker's count of what it left and what it took.
ghost use Rattle.std.specs.Prelude.{◌≡◌};

use std::sync::ledger::{Ledger, Share};

/// With what a worker leaves connections and takes them. Contracts see how many it left (`left_by`)
/// and how many it took (`taken_by`). It takes no bytes.
pub struct Hand<A: Ledger, B: Ledger> {
    pub(crate) left: Share<A>,
    pub(crate) taken: Share<B>,
    ghost one_part: { (left.parts ≡ 1) × (taken.parts ≡ 1) },
}

impl<A: Ledger, B: Ledger> Drop for Hand<A, B> {
    fn drop(self) {
        let Hand { left, taken } = self;
        drop(left);
        drop(taken);
    }
}

impl<A: Ledger, B: Ledger> Hand<A, B> {
    /// Its two shares.
    pub(crate) fn into_shares(self) -> (Share<A>, Share<B>)
        ensures { result ≡ (self.left, self.taken) }
    {
        let Hand { left, taken } = self;
        (left, taken)
    }
}
