//! The value that all callers share: the state, and the delegations that are kept for it.
ghost use Rattle.std.specs.Prelude.{◌≡◌, ◌∷◌, ◌++◌, [], length, OnOk, OnErr, IfOk, option_map};
ghost use Rattle.std.specs.Prelude.{if◌then◌else◌};
ghost use Rattle.std.specs.Arc.{arc_value};
ghost use Rattle.std.specs.Coded.{Coded-set};
ghost use Rattle.bind_core.specs.Outcome.{ending_of};
ghost use Rattle.dtab_table.specs.Dtab.{rules_of};
ghost use Rattle.machine.specs.Code.{settings_of, state_of, change_of, ready_of};
ghost use Rattle.machine.specs.Ready.{absorbed};
ghost use Rattle.bind_cache.specs.Bindings.{bindings_of};
ghost use Rattle.bind_cache.specs.Stored.{kept_of};
ghost use Rattle.bind_cache.specs.Cache.{found_in, kept_in, after_service};
ghost use Rattle.ns_store.specs.Store.{contents_of};
ghost use Rattle.machine.specs.Looking.{space_rules};
ghost use Rattle.std.specs.FinMap.{get, contains_key};
ghost use Rattle.router_log.specs.Codes.{coded_value, coded_rules};
ghost use Rattle.router_log.specs.Value.{untouched_by, retold};
ghost use Rattle.router_log.specs.Taking.{may_stand};
ghost use Rattle.router.specs.Update.{updates_in, taken_in, UpdateFits};

use crate::Mem;
use crate::detached::Detached;
use crate::update::{Past, Update};
use bind_cache::Cache;
use bind_core::Outcome;
use dtab_table::Dtab;
use left_right::Absorb;
use machine::{Settings, State};
use name_tree::Path;
use router_log::{take_change, take_kept};
use snap_cell::Published;
use std::alloc::{AllocError, Global};
use std::mem;
use std::snapshot::Snapshot;
use std::sync::Arc;

/// One copy of the value. It is what the updates that it took in come to, from nothing.
///
/// It has no allocator: what takes memory is given one.
pub struct Current {
    pub(crate) settings: Arc<Settings>,
    // The table of a namespace that is not there.
    pub(crate) none: Dtab,
    pub(crate) state: State,
    pub(crate) cache: Cache,
    pub(crate) past: Snapshot<Past>,
    ghost told: { record { state = state_of state; cache = bindings_of cache }
        ≡ taken_in (settings_of (arc_value settings)) (updates_in past.value) } by { Coded-set coded_value _ _ },
    ghost no_rules: { rules_of none ≡ [] } by { Coded-set coded_rules _ _ },
}

impl Drop for Current {
    fn drop(self) {
        let Current {
            settings,
            none,
            state,
            cache,
            past,
        } = self;
        drop(settings);
        drop(none);
        drop(state);
        drop(cache);
        drop(past);
    }
}

impl Current {
    ghost use Rattle.std.specs.FinMap as fin;
    ghost use Rattle.router_log.specs.Value.{opening_value};
    ghost use Rattle.router.specs.Detached.{IsOut};
    ghost use Rattle.router.specs.Values.{settings_in, value_in};

    /// The value in which nothing was changed and nothing is kept.
    pub(crate) fn start(alloc: Global, settings: Arc<Settings>) -> Mem<Current>
        ensures empty { IfOk result (λ current. updates_in current.past.value ≡ []) }
        ensures settings { IfOk result
            (λ current. arc_value current.settings ≡ arc_value settings) }
    {
        let state = State::start(alloc)?;
        match Cache::start(alloc) {
            Ok(cache) => Ok(Current {
                settings,
                none: Dtab::empty(alloc),
                state,
                cache,
                past: Snapshot::of(&Past::Nothing),
            }),
            Err(want) => {
                drop(state);
                Err(want)
            }
        }
    }

    /// The settings.
    pub(crate) fn settings(&self) -> &Settings
        ensures { settings_of result.now ≡ settings_in self.now }
    {
        &self.settings
    }

    /// The state.
    pub(crate) fn state(&self) -> &State
        ensures { state_of result.now ≡ (value_in self.now).state }
    {
        &self.state
    }

    /// The place of this value.
    pub(crate) fn place(&self) -> u64
        ensures { result ≡ (value_in self.now).state.place }
    {
        self.state.place()
    }

    /// How many delegations are kept.
    pub(crate) fn kept(&self) -> usize
        ensures { result ≡ length (value_in self.now).cache }
    {
        self.cache.len()
    }

    /// The state and the settings, for what is to be worked out once the reader has left. It costs
    /// three counts that go up by one, and a copy of the marks.
    pub(crate) fn detach(&self, alloc: Global) -> Mem<Detached>
        ensures { IfOk result (IsOut (settings_in self.now) (value_in self.now).state) }
    {
        Ok(Detached {
            settings: Arc::try_clone(&self.settings)?,
            state: self.state.shared(alloc)?,
        })
    }

    /// What is kept for a path and a request's own table. It takes one hash of both.
    pub(crate) fn find(&self, path: &Path, local: &Dtab) -> Option<&Outcome>
        ensures { option_map (λ outcome. ending_of outcome.now) result
            ≡ found_in (value_in self.now).cache path.now (rules_of local.now) }
    {
        self.cache.find(path, local)
    }
}

impl Absorb<Update> for Current {
    type State = (Settings, [Update; 0]);

    ghost state = { λ c. (arc_value c.settings, updates_in c.past.value) };

    ghost applied = { λ s u. (s.0, s.1 ++ u ∷ []) };

    fn absorb_first(&mut self, update: &Update, _other: &Current) -> Result<(), AllocError> {
        match update {
            Update::Changed { change, ready, .. } => take_change(
                &self.none,
                &self.settings,
                &mut self.state,
                &mut self.cache,
                change,
                ready,
            )?,
            Update::Kept { binding, .. } => take_kept(&mut self.cache, binding)?,
        }
        let past = mem::replace(&mut self.past, Snapshot::of(&Past::Nothing));
        let next = Past::Then(past, Snapshot::of(update));
        self.past = Snapshot::of(&next);
        Ok(())
    }
}

impl Published<Update> for Current {
    ghost fits = { λ s u. UpdateFits (settings_of s.0) (taken_in (settings_of s.0) s.1) u };
}
