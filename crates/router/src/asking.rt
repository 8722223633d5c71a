//! What is asked of the value that a reader enters.
ghost use Rattle.std.specs.Prelude.{◌≡◌, true, length, IfSome, IfNone, IfOk, OnErr};
ghost use Rattle.snap_cell.specs.Views.{IsThere, Refused};
ghost use Rattle.load_words.specs.Seats.{IsOf, slot_of, reads_of, taken_of};
ghost use Rattle.machine.specs.Code.{look_value, reply_value, ask_of};
ghost use Rattle.machine.specs.Choosing.{offer_of};
ghost use Rattle.machine.specs.Looking.{look_of};
ghost use Rattle.router_log.specs.Call.{looked, asked};
ghost use Rattle.router_log.specs.Operation.{place_of};
ghost use Rattle.router_log.specs.Value.{value_of};
ghost use Rattle.router.specs.Detached.{IsLookedUp, IsOut};
ghost use Rattle.router.specs.Loads.{MayHaveRead};
ghost use Rattle.router.specs.Peeked.{IsPeek};
ghost use Rattle.router.specs.Picked.{IsAnswer, is_kept_for};
ghost use Rattle.router.specs.Views.{BeganEmpty, settings_by, seen_by, Entered};

use crate::Mem;
use crate::answer::{Answer, Peek};
use crate::call::Call;
use crate::current::Current;
use crate::detached::Detached;
use crate::names::Names;
use crate::picking::CacheLookup;
use crate::update::Update;
use load_words::{LoadSeat, Loads};
use machine::{Ask, Look, Reply};
use snap_cell::Reader;
use std::alloc::Global;
use std::snapshot::Snapshot;
use std::sync::ledger::Ledger;
use step_count::Steps;

/// What a value has at the point at which a reader entered it.
#[derive(Clone, Copy)]
pub(crate) struct Point {
    /// How many changes stood before.
    pub(crate) place: u64,
    /// How many delegations are kept.
    pub(crate) kept: usize,
}

/// Enters for a look, and takes the state out of the value at that point: what the point has, and
/// the state. `None` where the reader is not let in.
fn detach_through(
    reader: &mut Reader<Current, Update, Call>,
    alloc: Global,
    look: &Look,
) -> Option<(Point, Mem<Detached>)>
    requires empty { BeganEmpty reader.old }
    ensures entered { IfSome result (λ r. Entered reader.old reader.new
        (looked (look_value look.now))) }
    ensures place { IfSome result (λ r. r.0.place ≡ place_of (seen_by reader.new)) }
    ensures kept { IfSome result (λ r. r.0.kept ≡ length
        (value_of (settings_by reader.old) (seen_by reader.new)).cache) }
    ensures detached { IfSome result (λ r. IfOk r.1 (IsOut (settings_by reader.old)
        (value_of (settings_by reader.old) (seen_by reader.new)).state)) }
    ensures there { IfSome result (λ r. IsThere reader.new) }
    ensures none { IfNone result (Refused reader.old reader.new) }
{
    let call = Call::Looked(Snapshot::of(look));
    let entered = reader.take(Some(Snapshot::of(&call)))?;
    let current = entered.get();
    let point = Point {
        place: current.place(),
        kept: current.kept(),
    };
    let detached = current.detach(alloc);
    reader.put_back(entered);
    Some((point, detached))
}

/// Enters, and answers a look at that point: what the point has, and the reply. `None` where the
/// reader is not let in. The reply is worked out once the reader has left.
#[tactic(auto, using(crate::proofs::Detaching::look_out))]
pub(crate) fn look_through<L: Ledger>(
    reader: &mut Reader<Current, Update, Call>,
    alloc: Global,
    look: &Look,
    steps: &mut Steps<L>,
) -> Option<(Point, Mem<Reply>)>
    requires empty { BeganEmpty reader.old }
    ensures entered { IfSome result (λ r. Entered reader.old reader.new
        (looked (look_value look.now))) }
    ensures place { IfSome result (λ r. r.0.place ≡ place_of (seen_by reader.new)) }
    ensures kept { IfSome result (λ r. r.0.kept ≡ length
        (value_of (settings_by reader.old) (seen_by reader.new)).cache) }
    ensures reply { IfSome result (λ r. IfOk r.1 (λ reply. reply_value reply
        ≡ look_of (settings_by reader.old) (value_of (settings_by reader.old)
        (seen_by reader.new)).state (look_value look.now))) }
    ensures there { IfSome result (λ r. IsThere reader.new) }
    ensures none { IfNone result (Refused reader.old reader.new) }
{
    let (point, detached) = detach_through(reader, alloc, look)?;
    match detached {
        Ok(detached) => {
            let reply = detached.look(alloc, look, steps);
            drop(detached);
            Some((point, reply))
        }
        Err(want) => Some((point, Err(want))),
    }
}

/// Enters, and looks a pick up at that point among what is kept: the place there, and the answer,
/// or the state. `None` where the reader is not let in.
fn find_through(
    reader: &mut Reader<Current, Update, Call>,
    alloc: Global,
    ask: &Ask,
    loads: &Loads,
    seat: &mut LoadSeat,
) -> Option<(u64, Mem<CacheLookup>)>
    requires empty { BeganEmpty reader.old }
    requires seat { IsOf loads.now seat.old }
    ensures entered { IfSome result (λ r. Entered reader.old reader.new (asked (ask_of ask.now))) }
    ensures place { IfSome result (λ r. r.0 ≡ place_of (seen_by reader.new)) }
    ensures found { IfSome result (λ r. IfOk r.1 (IsLookedUp (settings_by reader.old)
        (value_of (settings_by reader.old) (seen_by reader.new)) r.0 (ask_of ask.now)
        (reads_of seat.old) (reads_of seat.new))) }
    ensures err { IfSome result (λ r. OnErr r.1 (MayHaveRead
        (offer_of (settings_by reader.old) (value_of (settings_by reader.old)
        (seen_by reader.new)).state (ask_of ask.now)) (reads_of seat.old) (reads_of seat.new))) }
    ensures there { IfSome result (λ r. IsThere reader.new) }
    ensures none { IfNone result (Refused reader.old reader.new) }
    ensures unread { IfNone result (seat.new ≡ seat.old) }
    ensures seat { IsOf loads.now seat.new }
    ensures taken { taken_of seat.new ≡ taken_of seat.old }
    ensures slot { slot_of seat.new ≡ slot_of seat.old }
{
    let call = Call::Asked(Snapshot::of(ask));
    let entered = reader.take(Some(Snapshot::of(&call)))?;
    let current = entered.get();
    let place = current.place();
    let found = current.pick(alloc, ask, loads, seat);
    reader.put_back(entered);
    Some((place, found))
}

/// Enters, and answers a pick at that point: the place there, and the answer. `None` where the
/// reader is not let in. Where nothing is kept for the pick, it is delegated once the reader has
/// left.
#[tactic(auto, using(crate::proofs::Detaching::pick_out, crate::proofs::Detaching::read_out, crate::proofs::Detaching::steps_out))]
pub(crate) fn pick_through<L: Ledger>(
    reader: &mut Reader<Current, Update, Call>,
    alloc: Global,
    ask: &Ask,
    loads: &Loads,
    seat: &mut LoadSeat,
    steps: &mut Steps<L>,
) -> Option<(u64, Mem<Answer>)>
    requires empty { BeganEmpty reader.old }
    requires seat { IsOf loads.now seat.old }
    ensures entered { IfSome result (λ r. Entered reader.old reader.new (asked (ask_of ask.now))) }
    ensures place { IfSome result (λ r. r.0 ≡ place_of (seen_by reader.new)) }
    ensures answer { IfSome result (λ r. IfOk r.1 (IsAnswer (settings_by reader.old)
        (value_of (settings_by reader.old) (seen_by reader.new)) r.0 (ask_of ask.now)
        (reads_of seat.old) (reads_of seat.new))) }
    ensures steps { is_kept_for (value_of (settings_by reader.old) (seen_by reader.new))
        (ask_of ask.now) ≡ true → steps.new ≡ steps.old }
    ensures err { IfSome result (λ r. OnErr r.1 (MayHaveRead
        (offer_of (settings_by reader.old) (value_of (settings_by reader.old)
        (seen_by reader.new)).state (ask_of ask.now)) (reads_of seat.old) (reads_of seat.new))) }
    ensures there { IfSome result (λ r. IsThere reader.new) }
    ensures none { IfNone result (Refused reader.old reader.new) }
    ensures unread { IfNone result (seat.new ≡ seat.old) }
    ensures seat { IsOf loads.now seat.new }
    ensures taken { taken_of seat.new ≡ taken_of seat.old }
    ensures slot { slot_of seat.new ≡ slot_of seat.old }
{
    let (place, found) = find_through(reader, alloc, ask, loads, seat)?;
    match found {
        Ok(CacheLookup::Hit(answer)) => Some((place, Ok(answer))),
        Ok(CacheLookup::Miss(detached)) => {
            let answer = detached.pick(alloc, ask, loads, seat, steps);
            drop(detached);
            Some((place, answer))
        }
        Err(want) => Some((place, Err(want))),
    }
}

/// Enters, and answers a pick at that point by what is kept there: the place, and the answer.
/// `None` where the reader is not let in.
pub(crate) fn peek_through(
    reader: &mut Reader<Current, Update, Call>,
    ask: &Ask,
    loads: &Loads,
    seat: &mut LoadSeat,
    names: &mut Names,
) -> Option<(u64, Peek)>
    requires empty { BeganEmpty reader.old }
    requires seat { IsOf loads.now seat.old }
    ensures entered { IfSome result (λ r. Entered reader.old reader.new (asked (ask_of ask.now))) }
    ensures place { IfSome result (λ r. r.0 ≡ place_of (seen_by reader.new)) }
    ensures answer { IfSome result (λ r. IsPeek (settings_by reader.old)
        (value_of (settings_by reader.old) (seen_by reader.new)) r.0 (ask_of ask.now)
        (reads_of seat.old) (reads_of seat.new) names.new r.1) }
    ensures there { IfSome result (λ r. IsThere reader.new) }
    ensures none { IfNone result (Refused reader.old reader.new) }
    ensures unread { IfNone result (seat.new ≡ seat.old) }
    ensures seat { IsOf loads.now seat.new }
    ensures taken { taken_of seat.new ≡ taken_of seat.old }
    ensures slot { slot_of seat.new ≡ slot_of seat.old }
{
    let call = Call::Asked(Snapshot::of(ask));
    let entered = reader.take(Some(Snapshot::of(&call)))?;
    let peeked = entered.get().peek(ask, loads, seat, names);
    reader.put_back(entered);
    Some(peeked)
}
