//! The services with which a router begins.
ghost use Rattle.std.specs.Prelude.{◌≡◌, ℕ, ◌+◌, ◌≤◌, ◌<◌, Err, true, false, length, map, sum_by};
ghost use Rattle.std.specs.Prelude.{OnOk, vec_len, vec_capacity};
ghost use Rattle.std.specs.List.{AllByRecursion};
ghost use mathlib.Core.List.{IsPrefix};
ghost use Rattle.router.specs.Closing.{numbers_of};
ghost use Rattle.router.specs.Passes.{made_in, number_in, seen_in, slot_in};
ghost use Rattle.router_log.specs.Value.{value_of};
ghost use Rattle.serving.specs.Services.{HaveSeen, IsAdded, IsTurnedAway, StandIn, StopsAmong};
ghost use Rattle.serving.specs.Services.{StopsAt, setting};
ghost use Rattle.serving.specs.Passes.{AreFree};

use linker_config::LoadedItem;
use machine::{Change, Reply};
use router::{Naming, Pass, Router};
use std::alloc::Global;
use std::sync::Wait;

/// Why the services were not all set.
#[derive(Clone, Copy)]
pub(crate) enum SetFault {
    /// The book has no room for one of them.
    Book,
    /// There was no memory.
    OutOfMemory,
}

/// Whether a service was set, by the reply.
fn was_set(reply: Reply) -> bool
    ensures set { result ≡ true → (count : ℕ) × (reply ≡ Reply.Set count) }
    ensures refused { result ≡ false → (count : ℕ) → reply ≡ Reply.Set count → ⊥ }
{
    match reply {
        Reply::Set(_count, ..) => true,
        _refused => false,
    }
}

/// Sets a service.
fn set_service<J: Naming, R: Wait>(
    rt: &R,
    alloc: Global,
    router: &Router<J>,
    pass: &mut Pass<J>,
    item: LoadedItem,
) -> Result<(), SetFault>
    ensures number { number_in pass.new ≡ number_in pass.old }
    ensures slot { slot_in pass.new ≡ slot_in pass.old }
    ensures seen { IsPrefix (seen_in pass.old) (seen_in pass.new) }
    ensures set { OnOk result (IsAdded (seen_in pass.old) (seen_in pass.new) (setting item)) }
    ensures made { OnOk result (made_in pass.new ≡ made_in pass.old + 1) }
    ensures refused { result ≡ Err SetFault.Book → (made_in pass.new ≡ made_in pass.old)
        × IsTurnedAway (value_of J.settings (seen_in pass.new)).state item }
{
    let LoadedItem { service, list } = item;
    let change = Change::SetAddrs { service, list };
    match router.change(rt, alloc, pass, change) {
        Ok(reply) => {
            if was_set(reply) {
                Ok(())
            } else {
                Err(SetFault::Book)
            }
        }
        Err(_) => Err(SetFault::OutOfMemory),
    }
}

/// Sets these services, in order.
fn set_each<J: Naming, R: Wait>(
    rt: &R,
    alloc: Global,
    router: &Router<J>,
    pass: &mut Pass<J>,
    items: Vec<LoadedItem>,
) -> Result<(), SetFault>
    ensures number { number_in pass.new ≡ number_in pass.old }
    ensures slot { slot_in pass.new ≡ slot_in pass.old }
    ensures seen { IsPrefix (seen_in pass.old) (seen_in pass.new) }
    ensures set { OnOk result (StandIn (seen_in pass.new) (map setting items.items)) }
    ensures refused { result ≡ Err SetFault.Book
        → StopsAt J.settings items.items (seen_in pass.new) (made_in pass.old) (made_in pass.new) }
{
    for item in items {
        match set_service(rt, alloc, router, pass, item) {
            Ok(()) => {}
            Err(fault) => return Err(fault),
        }
    }
    Ok(())
}

/// Lets a pass meet each of these, which go to `met`.
fn meet_each<J: Naming, R: Wait>(
    rt: &R,
    router: &Router<J>,
    pass: &mut Pass<J>,
    others: Vec<Pass<J>>,
    met: &mut Vec<Pass<J>>,
)
    requires room { (vec_len met.old ≡ 0) × (vec_len others ≤ vec_capacity met.old) }
    requires free { AreFree others.items }
    ensures numbers { numbers_of met.new.items ≡ numbers_of others.items }
    ensures free { AreFree met.new.items }
    ensures room { vec_capacity met.new ≡ vec_capacity met.old }
    ensures number { number_in pass.new ≡ number_in pass.old }
    ensures slot { slot_in pass.new ≡ slot_in pass.old }
    ensures seen { IsPrefix (seen_in pass.old) (seen_in pass.new) }
    ensures made { (made_in pass.new ≡ made_in pass.old)
        × (sum_by made_in met.new.items ≡ sum_by made_in others.items) }
    ensures met { AllByRecursion (λ p. IsPrefix (seen_in pass.old) (seen_in p)) met.new.items }
{
    for other in others {
        let mut other = other;
        router.meet(rt, pass, &mut other);
        met.push_reserved(other);
    }
}

/// Sets these services by changes of the last pass, which then meets each of the others. The passes
/// come back in `met`, in their order.
pub(crate) fn set_services<J: Naming, R: Wait>(
    rt: &R,
    alloc: Global,
    router: &Router<J>,
    mut passes: Vec<Pass<J>>,
    items: Vec<LoadedItem>,
    met: &mut Vec<Pass<J>>,
) -> Result<(), SetFault>
    requires some { 0 < length passes.items }
    requires room { (vec_len met.old ≡ 0) × (vec_len passes ≤ vec_capacity met.old) }
    requires free { AreFree passes.items }
    ensures numbers { numbers_of met.new.items ≡ numbers_of passes.items }
    ensures free { AreFree met.new.items }
    ensures seen { OnOk result (HaveSeen items.items met.new.items) }
    ensures refused { result ≡ Err SetFault.Book
        → StopsAmong items.items passes.items met.new.items }
{
    let Some(mut last) = passes.pop() else {
        unreachable!()
    };
    let set = set_each(rt, alloc, router, &mut last, items);
    meet_each(rt, router, &mut last, passes, met);
    met.push_reserved(last);
    set
}
