//! How a cache takes in a delegation.
ghost use Rattle.std.specs.Prelude.{◌≡◌, OnOk, OnErr};
ghost use Rattle.std.specs.Arc.{arc_value};
ghost use Rattle.bind_cache.specs.Bindings.{bindings_of};
ghost use Rattle.bind_cache.specs.Stored.{kept_of};
ghost use Rattle.router_log.specs.Taking.{kept_beside};

use bind_cache::{Binding, Cache, MOST_COST};
use std::alloc::AllocError;
use std::sync::Arc;

/// The most bytes that the texts of a delegation have together that is kept.
pub const MOST_BYTES: usize = 8_192;

/// Keeps a delegation where it may stand: where it took at most [`MOST_COST`] lookups, and none is
/// kept for its path and table. Else it is left out. An `Err` changes nothing; it comes where the
/// delegation has as many owners as an [`Arc`] counts.
///
/// The cache shares it. It costs one look-up of its key, however many are kept, and takes no
/// memory.
pub fn take_kept(cache: &mut Cache, binding: &Arc<Binding>) -> Result<(), AllocError>
    ensures cache { OnOk result
        (bindings_of cache.new ≡ kept_beside (bindings_of cache.old)
        (kept_of (arc_value binding.now))) }
    ensures err { OnErr result (bindings_of cache.new ≡ bindings_of cache.old) }
{
    if binding.cost() <= MOST_COST && cache.find(binding.path(), binding.local()).is_none() {
        cache.keep(Arc::try_clone(binding)?);
    }
    Ok(())
}
