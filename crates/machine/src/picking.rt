//! How replicas are picked.
ghost use Rattle.std.specs.Prelude.{◌≡◌, ◌≤◌, ◌<◌, ◌+◌, min, true, List, Some, is_some, option_map};
ghost use Rattle.std.specs.Prelude.{IfOk, IfErr, IfSome, OnOk, slice_get};
ghost use Rattle.std.specs.FinMap as fin;
ghost use Rattle.addr_book.specs.declared.addr.Addr.{Addr};
ghost use Rattle.addr_book.specs.declared.addr.Weighted.{Weighted};
ghost use Rattle.addr_book.specs.Book.{is_used};
ghost use Rattle.addr_book.specs.Bound.{found_of};
ghost use Rattle.addr_book.specs.Namer.{named_in};
ghost use Rattle.choose_core.specs.Branch.{is_open, has_some};
ghost use Rattle.choose_core.specs.Good.{IsGood};
ghost use Rattle.addr_book.specs.Found.{one as one_leaf};
ghost use Rattle.bind_core.specs.Delegation.{cost_of, bound as bound_to};
ghost use Rattle.bind_core.specs.Outcome.{ending_of};
ghost use Rattle.machine.specs.Code.{settings_of, state_of, ask_of, chosen_value};
ghost use Rattle.machine.specs.Looking.{effective};
ghost use Rattle.machine.specs.Choosing.{either, neither, between_of, candidates_in, ending_in};
ghost use Rattle.machine.specs.Choosing.{offer_of, pick_of, pick_at, chosen_of, both};
ghost use Rattle.machine.specs.Candidates.{pair_value, is_service, AreBelow, IsDrawn};

use crate::Mem;
use crate::ask::Ask;
use crate::candidates::Candidates;
use crate::chosen::{Chosen, Why};
use crate::settings::Settings;
use crate::state::State;
use addr_book::{Addr, Bound, Cluster, Leaf, Name, ONE_WEIGHT, Weighted};
use bind_core::{Outcome, Wanted};
use choose_core::{Limits, branch, is_open, pair_addrs};
use std::alloc::Global;
use std::sync::ledger::Ledger;
use step_count::Steps;

impl State {
    /// The two replicas between which an ask decides, in a bound that its path came to. `None`
    /// where no address is left in the bound. It takes no memory.
    ///
    /// It goes over the branches of each union on the way to the leaf, and over the addresses of
    /// that leaf alone.
    pub fn candidates<'a>(
        &self,
        bound: &'a Bound,
        ask: &Ask,
        limits: Limits,
    ) -> Option<Candidates<'a>>
        requires { IsGood bound.now }
        ensures candidates { option_map pair_value result
            ≡ candidates_in (state_of self.now) limits (ask_of ask.now) (found_of bound.now) }
        ensures seated { IfSome result (λ c. is_some c.slots ≡ is_service c.leaf.now.cluster) }
        ensures below { IfSome result (λ c. IfSome c.slots AreBelow) }
    {
        match branch(bound, &self.book, ask.words[0]) {
            None => None,
            Some(leaf) => Some(self.between(leaf, ask, limits)),
        }
    }

    /// The two replicas between which an ask decides, where its path came to an outcome in this
    /// state. An `Err` says why there are none. It takes no memory.
    pub fn candidates_of<'a>(
        &self,
        settings: &Settings,
        outcome: &'a Outcome,
        ask: &Ask,
    ) -> Result<Candidates<'a>, Why>
        requires { ending_of outcome.now
            ≡ ending_in (settings_of settings.now) (state_of self.now) (ask_of ask.now) }
        ensures some { IfOk result
            (λ c. offer_of (settings_of settings.now) (state_of self.now) (ask_of ask.now)
            ≡ either (pair_value c)) }
        ensures none { IfErr result
            (λ why. offer_of (settings_of settings.now) (state_of self.now) (ask_of ask.now)
            ≡ neither why) }
        ensures seated { IfOk result (λ c. is_some c.slots ≡ is_service c.leaf.now.cluster) }
        ensures below { IfOk result (λ c. IfSome c.slots AreBelow) }
    {
        match outcome {
            Outcome::Neg => Err(Why::Neg),
            Outcome::Fail => Err(Why::Fail),
            Outcome::Empty => Err(Why::Empty),
            Outcome::TooDeep => Err(Why::TooDeep),
            Outcome::TooWide => Err(Why::TooWide),
            Outcome::Bound(bound) => match self.candidates(bound, ask, settings.limits) {
                None => Err(Why::Empty),
                Some(candidates) => Ok(candidates),
            },
        }
    }

    /// Picks a replica where no address has any load.
    ///
    /// No table and no list of addresses is copied: it takes the memory of a delegation.
    pub fn choose<L: Ledger>(
        &self,
        alloc: Global,
        settings: &Settings,
        ask: &Ask,
        steps: &mut Steps<L>,
    ) -> Mem<Chosen>
        ensures chosen { IfOk result
            (λ said. chosen_value said
            ≡ chosen_of (pick_of (settings_of settings.now) (state_of self.now) (ask_of ask.now) 0
            0)) }
        ensures counted { OnOk result
            (steps.old + min (cost_of
            (effective (settings_of settings.now) (state_of self.now) (ask_of ask.now).own)
            (named_in (state_of self.now).book) ask.now.path) 10000 ≤ steps.new) }
    {
        let delegated = self.delegate(
            alloc,
            settings,
            &ask.path,
            &ask.local,
            Wanted::Neither,
            steps,
        )?;
        let (outcome, asked, trace) = delegated.into_parts();
        drop(asked);
        drop(trace);
        self.choose_from(alloc, settings, outcome, ask)
    }

    /// Picks a replica as [`choose_in`](State::choose_in) does. The paths of an outcome that is one
    /// leaf are given as they are.
    fn choose_from(
        &self,
        alloc: Global,
        settings: &Settings,
        outcome: Outcome,
        ask: &Ask,
    ) -> Mem<Chosen>
        requires { ending_of outcome
            ≡ ending_in (settings_of settings.now) (state_of self.now) (ask_of ask.now) }
        ensures { IfOk result
            (λ said. chosen_value said
            ≡ chosen_of (pick_of (settings_of settings.now) (state_of self.now) (ask_of ask.now) 0
            0)) }
    {
        match outcome {
            Outcome::Bound(Bound::One(leaf)) => Ok(self.choose_of(settings, leaf, ask)),
            outcome => {
                let chosen = self.choose_in(alloc, settings, &outcome, ask);
                drop(outcome);
                chosen
            }
        }
    }

    /// Picks a replica of the one leaf that an ask's path came to, whose paths are given as they
    /// are.
    #[tactic(auto, using(crate::proofs::Choosing::shut_leaf, crate::proofs::Choosing::open_leaf))]
    fn choose_of(&self, settings: &Settings, leaf: Leaf, ask: &Ask) -> Chosen
        requires { bound_to (one_leaf leaf)
            ≡ ending_in (settings_of settings.now) (state_of self.now) (ask_of ask.now) }
        ensures { chosen_value result
            ≡ chosen_of (pick_of (settings_of settings.now) (state_of self.now) (ask_of ask.now) 0
            0) }
    {
        if !is_open(&leaf, &self.book) {
            drop(leaf);
            return Chosen::None(Why::Empty);
        }
        let addr = self.between(&leaf, ask, settings.limits).taken(0, 0).addr;
        let (client, residual) = leaf.into_paths();
        Chosen::Picked {
            addr,
            client,
            residual,
        }
    }

    /// Picks a replica where no address has any load, and the ask's path came to an outcome in this
    /// state. It shares the two paths that it gives.
    pub fn choose_in(
        &self,
        alloc: Global,
        settings: &Settings,
        outcome: &Outcome,
        ask: &Ask,
    ) -> Mem<Chosen>
        requires { ending_of outcome.now
            ≡ ending_in (settings_of settings.now) (state_of self.now) (ask_of ask.now) }
        ensures { IfOk result
            (λ said. chosen_value said
            ≡ chosen_of (pick_of (settings_of settings.now) (state_of self.now) (ask_of ask.now) 0
            0)) }
    {
        match self.candidates_of(settings, outcome, ask) {
            Ok(candidates) => picked(alloc, &candidates),
            Err(why) => Ok(Chosen::None(why)),
        }
    }

    /// The two replicas of a leaf between which an ask decides.
    fn between<'a>(&self, leaf: &'a Leaf, ask: &Ask, limits: Limits) -> Candidates<'a>
        requires { is_open (state_of self.now).book.services leaf.now.cluster ≡ true }
        ensures pair { pair_value result
            ≡ between_of (state_of self.now) limits (ask_of ask.now) leaf.now }
        ensures seated { is_some result.slots ≡ is_service result.leaf.now.cluster }
        ensures below { IfSome result.slots AreBelow }
    {
        match &leaf.cluster {
            Cluster::Inet(addr) => {
                let only = Weighted {
                    addr: *addr,
                    weight: ONE_WEIGHT,
                };
                Candidates {
                    leaf,
                    first: only,
                    second: only,
                    slots: None,
                }
            }
            Cluster::Fs(service) => {
                let (first, second) = self.drawn(service, ask, limits);
                let slots = self.slots(first.addr, second.addr);
                Candidates {
                    leaf,
                    first,
                    second,
                    slots: Some(slots),
                }
            }
        }
    }

    /// The two addresses of a service that an ask's second and third word draw.
    fn drawn(&self, service: &Name, ask: &Ask, limits: Limits) -> (Weighted, Weighted)
        requires { has_some (fin.get (state_of self.now).book.services service.now) ≡ true }
        ensures { IsDrawn (state_of self.now) limits (ask_of ask.now) service.now result.0
            result.1 }
    {
        match self.book.cluster(service) {
            None => unreachable!(),
            Some(list) => {
                let [_, first, second] = ask.words;
                pair_addrs(list, &self.marks, ask.moment, limits, first, second)
            }
        }
    }

    /// The slots of two addresses that some service has.
    fn slots(&self, one: Addr, other: Addr) -> (u32, u32)
        requires one { is_used (state_of self.now).book.services one ≡ true }
        requires other { is_used (state_of self.now).book.services other ≡ true }
        ensures slots { both (fin.get (state_of self.now).book.slots one)
            (fin.get (state_of self.now).book.slots other) ≡ Some result }
        ensures below { AreBelow result }
    {
        match (self.book.slot(one), self.book.slot(other)) {
            (Some(first), Some(second)) => (first, second),
            _ => unreachable!(),
        }
    }
}

/// The first of two replicas, which is taken where no address has any load.
fn picked(alloc: Global, candidates: &Candidates<'_>) -> Mem<Chosen>
    ensures { IfOk result
        (λ said. chosen_value said ≡ chosen_of (pick_at 0 0 (either (pair_value candidates.now)))) }
{
    let leaf = candidates.leaf;
    let taken = candidates.taken(0, 0);
    Ok(Chosen::Picked {
        addr: taken.addr,
        client: leaf.client.part(alloc, 0, leaf.client.len())?,
        residual: leaf.residual.part(alloc, 0, leaf.residual.len())?,
    })
}
