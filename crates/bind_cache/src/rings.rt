//! Rings that are emptied.
ghost use Rattle.std.specs.Prelude.{◌≡◌, []};
ghost use Rattle.circular_buffer.specs.Buffer.{buffer};

use circular_buffer::HeapCircularBuffer;

/// Takes all items out of a ring.
pub(crate) fn drain<T: Drop>(ring: &mut HeapCircularBuffer<T>)
    ensures { ring.new ≡ buffer [] ring.old.capacity }
{
    while let Some(_item) = ring.pop_front() {}
}
