//! The bindings that are kept.
ghost use Rattle.std.specs.Prelude.{◌≡◌, ◌+◌, ◌<◌, ◌≤◌, ◌^◌, [], map, not, filter, length, None};
ghost use Rattle.std.specs.Prelude.{IfOk, option_map, slice_get};
ghost use Rattle.std.specs.List.{list_any};
ghost use Rattle.std.specs.Arc.{arc_value};
ghost use Rattle.circular_buffer.specs.Buffer.{buffer};
ghost use Rattle.dtab_table.specs.Dtab.{rules_of};
ghost use Rattle.bind_core.specs.Outcome.{ending_of};
ghost use Rattle.bind_cache.specs.Stored.{kept_of, all_kept, hash_in, asked_in};
ghost use Rattle.bind_cache.specs.Hash.{key_hash};
ghost use Rattle.bind_cache.specs.Kept.{ending_for};
ghost use Rattle.bind_cache.specs.Cache.{found_in, kept_in, after_table, after_service, untouched};
ghost use Rattle.bind_cache.specs.Cache.{with_room, IsCache};
ghost use Rattle.bind_cache.specs.Touch.{touched_by};

use crate::Mem;
use crate::binding::Binding;
use crate::chains::Chains;
use crate::hash::key_hash;
use crate::touch::{ChangedRules, Touch};
use addr_book::Name;
use bind_core::Outcome;
use circular_buffer::HeapCircularBuffer;
use dtab_table::Dtab;
use name_tree::Path;
use std::alloc::Global;
use std::sync::Arc;

/// The most bindings that are kept.
pub const MOST_KEPT: usize = 1_024;

/// The most lookups of a binding that is kept.
pub const MOST_COST: u32 = 256;

/// Up to 1,024 bindings, each under its path and the request's own table, in the order in which
/// they were put in.
///
/// Contracts see them as `bindings_of cache`, a list, the oldest first. Beside them it keeps chains
/// of their hashes, so that a look-up compares those of one hash alone.
pub struct Cache {
    bindings: HeapCircularBuffer<Arc<Binding>>,
    chains: Chains,
    ghost room: { bindings.capacity ≡ 1024 },
    ghost linked: { chains.hashes ≡ map hash_in bindings.items },
    ghost cache: { IsCache (all_kept bindings.items) },
}

impl Drop for Cache {
    fn drop(self) {
        let Cache { bindings, chains } = self;
        drop(bindings);
        drop(chains);
    }
}

impl Cache {
    ghost use Rattle.bind_cache.specs.Bindings.{bindings_of};

    /// A cache with nothing in it. It sets room for 1,024 bindings aside; no later call takes
    /// memory.
    pub fn start(alloc: Global) -> Mem<Cache>
        ensures { IfOk result (λ cache. bindings_of cache ≡ []) }
    {
        Ok(Cache {
            bindings: HeapCircularBuffer::with_capacity(alloc, MOST_KEPT)?,
            chains: Chains::start(alloc)?,
        })
    }

    /// How many bindings it has.
    pub fn len(&self) -> usize
        ensures { result ≡ length (bindings_of self.now) }
    {
        self.bindings.len()
    }

    /// What the path came to with the request's own table, where that is kept.
    ///
    /// It takes one hash of the path and the table, and comparisons with the bindings of that hash:
    /// about one, however many there are.
    pub fn find(&self, path: &Path, local: &Dtab) -> Option<&Outcome>
        ensures { option_map (λ outcome. ending_of outcome.now) result
            ≡ found_in (bindings_of self.now) path.now (rules_of local.now) }
    {
        let hash = key_hash(path, local);
        let mut next = self.chains.newest(hash);
        while let Some(at) = next {
            if let Some(outcome) = self.outcome_at(at, hash, path, local) {
                return Some(outcome);
            }
            next = self.chains.older(hash, at);
        }
        None
    }

    /// What the binding at a place came to, where it has this hash, path and table.
    fn outcome_at(&self, at: usize, hash: u64, path: &Path, local: &Dtab) -> Option<&Outcome>
        requires { hash ≡ key_hash path.now (rules_of local.now) }
        ensures { option_map (λ outcome. ending_of outcome.now) result
            ≡ ending_for path.now (rules_of local.now) (slice_get (bindings_of self.now) at) }
    {
        let Some(binding) = self.bindings.get(at) else {
            return None;
        };
        if binding.hash() != hash {
            return None;
        }
        if !binding.is_for(path, local) {
            return None;
        }
        Some(binding.outcome())
    }

    /// Puts a binding behind the others. Where 1,024 are kept, the oldest goes. Its cost does not
    /// grow with their number.
    pub fn keep(&mut self, entry: Arc<Binding>)
        requires alone { found_in (bindings_of self.old) (kept_of (arc_value entry)).path
            (kept_of (arc_value entry)).local ≡ None }
        requires cheap { (kept_of (arc_value entry)).cost ≤ 256 }
        ensures { bindings_of self.new
            ≡ kept_in (bindings_of self.old) (kept_of (arc_value entry)) }
    {
        make_room(&self.bindings, &mut self.chains);
        self.chains.push(entry.hash());
        let _oldest = self.bindings.push_back(entry);
    }

    /// Drops the bindings of which a path that was looked up is matched by a rule that changed
    /// between two tables. Call it where the second takes the place of the first as the table of
    /// the proxy's namespace.
    ///
    /// It compares the rules that both have at their fronts and ends once. Then it asks for each
    /// path that was looked up for a binding whether a rule between these matches it: a few rules
    /// are compared with the path, more take one look-up in the table's index for each label of the
    /// path. Where a binding goes, it chains the others anew.
    pub fn touch_table(&mut self, old: &Dtab, new: &Dtab)
        ensures { bindings_of self.new
            ≡ after_table (rules_of old.now) (rules_of new.now) (bindings_of self.old) }
    {
        self.drop_touched(&Touch::Rules(ChangedRules::between(old, new)));
    }

    /// Drops the bindings of which a path that was looked up is `/#/io.l5d.fs/SERVICE` or begins
    /// so. Call it where the service was added to the book or removed from it.
    ///
    /// It looks at each path that was looked up for a binding, and where a binding goes, chains the
    /// others anew.
    pub fn touch_service(&mut self, service: &Name)
        ensures { bindings_of self.new ≡ after_service service.now (bindings_of self.old) }
    {
        self.drop_touched(&Touch::Service(service));
    }

    /// Drops the bindings of which a path that was looked up is touched.
    fn drop_touched(&mut self, touch: &Touch<'_>)
        ensures { bindings_of self.new ≡ untouched (touched_by touch.now) (bindings_of self.old) }
    {
        let count = self.bindings.len();
        keep_untouched(&mut self.bindings, touch);
        chain_left(&self.bindings, &mut self.chains, count);
    }
}

/// Drops the bindings of which a path that was looked up is touched.
fn keep_untouched(bindings: &mut HeapCircularBuffer<Arc<Binding>>, touch: &Touch<'_>)
    requires { bindings.old.capacity ≡ 1024 }
    ensures { bindings.new
        ≡ buffer (filter (λ b. not (list_any (touched_by touch.now) (asked_in b)))
        bindings.old.items) bindings.old.capacity }
{
    let count = bindings.len();
    for _turn in 0..count {
        let Some(binding) = bindings.pop_front() else {
            return;
        };
        if !touch.touches_any(binding.asked().items()) {
            bindings.push_back(binding);
        }
    }
}

/// Chains the hashes of what is left of so many bindings anew, unless all are left.
fn chain_left(bindings: &HeapCircularBuffer<Arc<Binding>>, chains: &mut Chains, count: usize)
    requires few { length bindings.now.items ≤ 1024 }
    requires all { length bindings.now.items ≡ count
        → chains.old.hashes ≡ map hash_in bindings.now.items }
    ensures { chains.new.hashes ≡ map hash_in bindings.now.items }
{
    if bindings.len() != count {
        chain_all(bindings, chains);
    }
}

/// Makes room for one hash more: the oldest goes where 1,024 are there, and the bindings are
/// chained anew where no number is left.
fn make_room(bindings: &HeapCircularBuffer<Arc<Binding>>, chains: &mut Chains)
    requires few { length bindings.now.items ≤ 1024 }
    requires linked { chains.old.hashes ≡ map hash_in bindings.now.items }
    ensures hashes { chains.new.hashes ≡ with_room (map hash_in bindings.now.items) }
    ensures number { chains.new.first + (length chains.new.hashes + 1) < 2 ^ 64 }
{
    if chains.is_spent() {
        chain_all(bindings, chains);
    }
    if chains.len() >= MOST_KEPT {
        chains.drop_first();
    }
}

/// Chains the hashes of some bindings anew.
fn chain_all(bindings: &HeapCircularBuffer<Arc<Binding>>, chains: &mut Chains)
    requires { length bindings.now.items ≤ 1024 }
    ensures { chains.new ≡ record { first = 1; hashes = map hash_in bindings.now.items } }
{
    chains.clear();
    for at in 0..bindings.len() {
        let Some(binding) = bindings.get(at) else {
            return;
        };
        chains.push(binding.hash());
    }
}
