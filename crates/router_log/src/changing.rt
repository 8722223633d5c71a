//! How a state and what is kept for it take in a prepared change.
ghost use Rattle.std.specs.Prelude.{◌≡◌, [], OnOk, OnErr, if◌then◌else◌};
ghost use Rattle.std.specs.FinMap.{get, contains_key};
ghost use Rattle.dtab_table.specs.Dtab.{rules_of};
ghost use Rattle.ns_store.specs.Store.{contents_of};
ghost use Rattle.machine.specs.Looking.{space_rules};
ghost use Rattle.machine.specs.Code.{settings_of, state_of, change_of, ready_of};
ghost use Rattle.machine.specs.Ready.{absorbed};
ghost use Rattle.bind_cache.specs.Bindings.{bindings_of};
ghost use Rattle.bind_cache.specs.Cache.{after_service};
ghost use Rattle.router_log.specs.Value.{untouched_by, retold};

use addr_book::Name;
use bind_cache::Cache;
use dtab_table::Dtab;
use machine::{Change, Ready, Settings, State};
use ns_store::Store;
use std::alloc::AllocError;

/// A value, unless there was no memory for it.
type Mem<T> = Result<T, AllocError>;

/// Takes in a prepared change: the state absorbs it, and the cache drops exactly what it touches.
/// An `Err` changes nothing. It takes no memory: `none`, a table without entries, stands for that
/// of a namespace that is not there.
///
/// Beside the absorbing, a change of the first namespace's table compares the tables before and
/// after, and then each path that was looked up for a kept delegation with the rules between which
/// they differ; a service that is added or removed costs a look at each such path; any other change
/// costs nothing.
pub fn take_change(
    none: &Dtab,
    settings: &Settings,
    state: &mut State,
    cache: &mut Cache,
    change: &Change,
    ready: &Ready,
) -> Mem<()>
    requires none { rules_of none.now ≡ [] }
    ensures state { OnOk result
        (state_of state.new ≡ absorbed (state_of state.old) (ready_of ready.now)) }
    ensures cache { OnOk result
        (bindings_of cache.new ≡ untouched_by (settings_of settings.now) (state_of state.old)
        (absorbed (state_of state.old) (ready_of ready.now))
        (change_of change.now) (bindings_of cache.old)) }
    ensures err { OnErr result
        ((state_of state.new ≡ state_of state.old)
        × (bindings_of cache.new ≡ bindings_of cache.old)) }
{
    match change {
        Change::Create { name, .. } => take_table(none, settings, state, cache, name, ready),
        Change::Put { name, .. } => take_table(none, settings, state, cache, name, ready),
        Change::Delete { name, .. } => take_table(none, settings, state, cache, name, ready),
        Change::SetAddrs { service, .. } => take_addrs(state, cache, service, ready),
        Change::DropService { service } => take_drop(state, cache, service, ready),
        Change::Report { .. } => state.absorb(ready),
    }
}

/// The table of a namespace, or this one where it is not there.
fn table_in<'a>(store: &'a Store, space: &Name, none: &'a Dtab) -> &'a Dtab
    requires { rules_of none.now ≡ [] }
    ensures { rules_of result.now ≡ space_rules (get (contents_of store.now).spaces space.now) }
{
    match store.get(space) {
        Some((_, dtab)) => dtab,
        None => none,
    }
}

/// Takes in a change of a namespace's table. An `Err` changes nothing.
fn take_table(
    none: &Dtab,
    settings: &Settings,
    state: &mut State,
    cache: &mut Cache,
    name: &Name,
    ready: &Ready,
) -> Mem<()>
    requires none { rules_of none.now ≡ [] }
    ensures state { OnOk result
        (state_of state.new ≡ absorbed (state_of state.old) (ready_of ready.now)) }
    ensures cache { OnOk result
        (bindings_of cache.new ≡ retold (settings_of settings.now) (state_of state.old)
        (absorbed (state_of state.old) (ready_of ready.now)) name.now
        (bindings_of cache.old)) }
    ensures err { OnErr result
        ((state_of state.new ≡ state_of state.old)
        × (bindings_of cache.new ≡ bindings_of cache.old)) }
{
    if name.text() != settings.space.text() {
        return state.absorb(ready);
    }
    let old = state.store().shared()?;
    state.absorb(ready)?;
    cache.touch_table(
        table_in(&old, &settings.space, none),
        table_in(state.store(), &settings.space, none),
    );
    Ok(())
}

/// Takes in the addresses of a service. An `Err` changes nothing.
fn take_addrs(state: &mut State, cache: &mut Cache, service: &Name, ready: &Ready) -> Mem<()>
    ensures state { OnOk result
        (state_of state.new ≡ absorbed (state_of state.old) (ready_of ready.now)) }
    ensures cache { OnOk result
        (bindings_of cache.new ≡
        (if contains_key (state_of state.old).book.services service.now then bindings_of cache.old
        else after_service service.now (bindings_of cache.old))) }
    ensures err { OnErr result
        ((state_of state.new ≡ state_of state.old)
        × (bindings_of cache.new ≡ bindings_of cache.old)) }
{
    let is_there = state.book().cluster(service).is_some();
    state.absorb(ready)?;
    if !is_there {
        cache.touch_service(service);
    }
    Ok(())
}

/// Takes in that a service is gone. An `Err` changes nothing.
fn take_drop(state: &mut State, cache: &mut Cache, service: &Name, ready: &Ready) -> Mem<()>
    ensures state { OnOk result
        (state_of state.new ≡ absorbed (state_of state.old) (ready_of ready.now)) }
    ensures cache { OnOk result
        (bindings_of cache.new ≡ after_service service.now (bindings_of cache.old)) }
    ensures err { OnErr result
        ((state_of state.new ≡ state_of state.old)
        × (bindings_of cache.new ≡ bindings_of cache.old)) }
{
    state.absorb(ready)?;
    cache.touch_service(service);
    Ok(())
}
