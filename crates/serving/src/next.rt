//! What is taken from a list, one after another.
ghost use Rattle.std.specs.Prelude.{◌≡◌, ◌<◌, ◌∷◌, length};
ghost use Rattle.std.specs.Vec.Iter.{into_iter_items};

use std::vec::IntoIter;

/// The next of these, of which there is one.
pub(crate) fn take_next<T>(items: &mut IntoIter<T>) -> T
    requires { 0 < length (into_iter_items items.old) }
    ensures { into_iter_items items.old ≡ result ∷ into_iter_items items.new }
{
    match items.next() {
        Some(item) => item,
        None => unreachable!(),
    }
}
