//! What pruning leaves of a bound.
ghost use Rattle.std.specs.Prelude.{◌≡◌, ◌*◌, ◌≤◌, length, is_some};
ghost use Rattle.addr_book.specs.Found.{AreBounded};
ghost use Rattle.addr_book.specs.Bound.{found_of, listed_items};
ghost use Rattle.choose_core.specs.Branch.{is_open, pruned, pruned_members, total_weight};

use addr_book::{Book, Bound, BoundItem, Cluster, Leaf};

/// Whether a leaf has an address to go to. It takes one look-up in the book, and no memory.
pub fn is_open(leaf: &Leaf, book: &Book) -> bool
    ensures { result ≡ is_open book.now.services leaf.now.cluster }
{
    match &leaf.cluster {
        Cluster::Inet(_) => true,
        Cluster::Fs(service) => match book.cluster(service) {
            None => false,
            Some(list) => !list.is_empty(),
        },
    }
}

/// Whether pruning leaves something of a bound. It stops at the first leaf that is left.
pub(crate) fn is_left(bound: &Bound, book: &Book) -> bool
    ensures { result ≡ is_some (pruned book.now.services (found_of bound.now)) }
{
    match bound {
        Bound::One(leaf) => is_open(leaf, book),
        Bound::Many(list) => {
            for item in list.items() {
                if is_left(&item.bound, book) {
                    return true;
                }
            }
            false
        }
    }
}

/// The sum of the weights of the branches of which something is left.
pub(crate) fn left_weight(items: &[BoundItem], book: &Book) -> u64
    requires few { length items.now ≤ 65536 }
    requires bounded { AreBounded (listed_items items.now) }
    ensures weight { result
        ≡ total_weight (pruned_members book.now.services (listed_items items.now)) }
    ensures small { result ≤ 999999999999 * length items.now }
{
    let mut total = 0;
    for item in items {
        if is_left(&item.bound, book) {
            total += item.weight;
        }
    }
    total
}
