//! A cache with as many bindings as it may have.
use bind_cache::{Binding, Cache, MOST_COST, MOST_KEPT, Mem};
use bind_core::{Delegated, Outcome, PathList, Trace};
use dtab_table::Dtab;
use name_tree::Path;
use std::alloc::Global;
use std::sync::Arc;
use std::test::Fail;

/// A binding of a path that comes to nothing.
fn binding(alloc: Global, path: &Path) -> Mem<Arc<Binding>> {
    let found = Delegated {
        outcome: Outcome::Neg,
        cost: 1,
        asked: PathList::of(Vec::new(alloc)),
        trace: Trace::of(Vec::new(alloc)),
    };
    let binding = Binding::of(alloc, path, &Dtab::empty(alloc), found, 0)?;
    Ok(Arc::new(alloc, binding)?)
}

/// Keeps a binding where none has its key.
fn put(cache: &mut Cache, entry: Arc<Binding>) {
    if entry.cost() <= MOST_COST && cache.find(entry.path(), entry.local()).is_none() {
        cache.keep(entry);
    }
}

/// The path with one label, the two bytes of a number.
fn numbered(alloc: Global, number: u16) -> Mem<Path> {
    let mut path = Path::new(alloc);
    let [high, low] = number.to_be_bytes();
    path.push(vec![in alloc; high, low]?)?;
    Ok(path)
}

/// A cache in which as many bindings were kept as it may have, and one more.
fn full(alloc: Global) -> Mem<Cache> {
    let mut cache = Cache::start(alloc)?;
    for number in 0..=MOST_KEPT as u16 {
        let path = numbered(alloc, number)?;
        put(&mut cache, binding(alloc, &path)?);
    }
    Ok(cache)
}

/// Whether the path with this number is kept.
fn is_kept(alloc: Global, cache: &Cache, number: u16) -> Mem<bool> {
    Ok(
        cache
            .find(&numbered(alloc, number)?, &Dtab::empty(alloc))
            .is_some(),
    )
}

#[test]
fn the_oldest_goes(rt: HostRuntime) -> Result<(), Fail> {
    let cache = full(rt.alloc())?;
    for (number, want) in [(0, false), (1, true), (1_024, true)] {
        assert!(rt; is_kept(rt.alloc(), &cache, number)? == want, "{number}");
    }
    Ok(())
}
