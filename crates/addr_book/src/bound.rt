//! What a delegation binds a path to.
ghost use Rattle.std.specs.Prelude.{◌≡◌};

use crate::leaf::Leaf;

/// What a path is bound to.
#[cycle(bound)]
#[derive(Debug, Drop)]
pub enum Bound {
    /// One leaf.
    One(Leaf),
    /// The bound branches of a union, in their order: one of them is to be chosen by their weights.
    Many(BoundList),
}

/// A bound branch of a union.
#[cycle(bound)]
#[derive(Debug)]
pub struct BoundItem {
    /// Its weight, in millionths.
    pub weight: u64,
    /// What its tree is bound to.
    pub bound: Bound,
}

impl Drop for BoundItem {
    #[cycle(bound)]
    fn drop(self) {
        let BoundItem { weight: _, bound } = self;
        drop(bound);
    }
}

/// Some bound branches, in order.
#[cycle(bound)]
#[derive(Debug)]
pub struct BoundList {
    items: Vec<BoundItem>,
}

impl Drop for BoundList {
    #[cycle(bound)]
    fn drop(self) {
        let BoundList { items } = self;
        drop(items);
    }
}

impl BoundList {
    ghost use Rattle.addr_book.specs.Bound.{members_of, listed_items};

    /// These branches, in their order.
    pub fn of(items: Vec<BoundItem>) -> BoundList
        ensures { members_of result ≡ listed_items items.items }
    {
        BoundList { items }
    }

    /// The branches, in order.
    pub fn items(&self) -> &[BoundItem]
        ensures { members_of self.now ≡ listed_items result.now }
    {
        self.items.as_slice()
    }
}
