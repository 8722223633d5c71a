//! Changes, looks and picks on small states.
ghost use Rattle.std.specs.Prelude.{◌≡◌, ◌<◌};
ghost use Rattle.machine.specs.Code.{change_of};
ghost use Rattle.machine.specs.State.{IsSoundChange};

use crate::given::{ask, change, look};
use bind_core::Wanted;
use machine::{Ask, Change, Chosen, Look, Reply, Settings, State, Taken};
use script::{Said, reply_text, script_settings};
use std::alloc::{AllocError, Global};
use std::marker::Brand;
use std::sync::ledger::{Blank, Ledger};
use std::test::Fail;
use step_count::Steps;

/// A value, unless there was no memory for it.
type Mem<T> = Result<T, AllocError>;

/// How a line is carried out.
#[derive(Clone, Copy)]
pub(crate) enum By {
    /// Its change is applied.
    Apply,
    /// Its change is prepared, and absorbed where it is accepted.
    Absorb,
    /// Its question is answered.
    Answer,
    /// A replica is picked.
    Choose,
}

/// Applies a copy of the change of a line.
fn applied(
    alloc: Global,
    settings: &Settings,
    state: &mut State,
    line: &str,
) -> Result<Said, Fail> {
    let change = change(alloc, line)?;
    Ok(Said::Reply(apply_copy(alloc, settings, state, change)?))
}

/// Applies a copy of a change.
fn apply_copy(alloc: Global, settings: &Settings, state: &mut State, change: Change) -> Mem<Reply>
    requires { IsSoundChange (change_of change) }
{
    let Ok(copy) = change.copied(alloc) else {
        drop(change);
        return Err(AllocError);
    };
    drop(change);
    let applied = state.apply(alloc, settings, &copy);
    drop(copy);
    applied
}

/// Prepares the change of a line, and absorbs it where it is accepted.
fn absorbed(
    alloc: Global,
    settings: &Settings,
    state: &mut State,
    line: &str,
) -> Result<Said, Fail> {
    let change = change(alloc, line)?;
    let absorbed = absorb(alloc, settings, state, &change);
    drop(change);
    Ok(Said::Reply(absorbed?))
}

/// Prepares a change, and absorbs it where it is accepted.
fn absorb(alloc: Global, settings: &Settings, state: &mut State, change: &Change) -> Mem<Reply>
    requires { IsSoundChange (change_of change.now) }
{
    let (reply, ready) = state.prepare(alloc, settings, change)?;
    let Some(ready) = ready else {
        return Ok(reply);
    };
    let absorbed = state.absorb(&ready);
    drop(ready);
    match absorbed {
        Ok(()) => Ok(reply),
        Err(want) => {
            drop(reply);
            Err(want)
        }
    }
}

fn answer<L: Ledger>(
    alloc: Global,
    state: &State,
    settings: &Settings,
    look: &Look,
    blank: Blank,
) -> Mem<Reply>
    requires name { blank.name ≡ L.name }
    requires parts { blank.parts ≡ L.parts }
    requires some { 0 < blank.parts }
{
    state.answer(alloc, settings, look, &mut Steps::<L>::start(blank))
}

/// The reply to a look, over a count of steps of its own.
pub(crate) fn reply_to(
    alloc: Global,
    settings: &Settings,
    state: &State,
    look: &Look,
) -> Mem<Reply> {
    answer::<Brand>(alloc, state, settings, look, Blank::new(1))
}

/// The answer to a copy of the question of a line.
fn answered(alloc: Global, settings: &Settings, state: &State, line: &str) -> Result<Said, Fail> {
    let look = look(alloc, line)?;
    let copied = look.copied(alloc);
    drop(look);
    let copy = copied?;
    let reply = reply_to(alloc, settings, state, &copy);
    drop(copy);
    Ok(Said::Reply(reply?))
}

fn choose<L: Ledger>(
    alloc: Global,
    state: &State,
    settings: &Settings,
    ask: &Ask,
    blank: Blank,
) -> Mem<Chosen>
    requires name { blank.name ≡ L.name }
    requires parts { blank.parts ≡ L.parts }
    requires some { 0 < blank.parts }
{
    state.choose(alloc, settings, ask, &mut Steps::<L>::start(blank))
}

/// What a copy of the pick of a line comes to.
fn chosen(alloc: Global, settings: &Settings, state: &State, line: &str) -> Result<Said, Fail> {
    let ask = ask(alloc, line)?;
    let copied = ask.copied(alloc);
    drop(ask);
    let copy = copied?;
    let chosen = choose::<Brand>(alloc, state, settings, &copy, Blank::new(1));
    drop(copy);
    Ok(Said::Chosen(chosen?))
}

/// What a line is answered.
fn said(
    alloc: Global,
    settings: &Settings,
    state: &mut State,
    by: By,
    line: &str,
) -> Result<Said, Fail> {
    match by {
        By::Apply => applied(alloc, settings, state, line),
        By::Absorb => absorbed(alloc, settings, state, line),
        By::Answer => answered(alloc, settings, state, line),
        By::Choose => chosen(alloc, settings, state, line),
    }
}

/// What a line is answered, with the settings of scripts.
fn said_by(alloc: Global, state: &mut State, by: By, line: &str) -> Result<Said, Fail> {
    let settings = script_settings(alloc)?;
    let said = said(alloc, &settings, state, by, line);
    drop(settings);
    said
}

/// The text of what a line is answered.
pub(crate) fn told(alloc: Global, state: &mut State, by: By, line: &str) -> Result<Vec<u8>, Fail> {
    let said = said_by(alloc, state, by, line)?;
    Ok(answer_text(alloc, said)?)
}

/// The text of an answer, which is let go of then.
pub(crate) fn answer_text(alloc: Global, said: Said) -> Mem<Vec<u8>> {
    let text = reply_text(alloc, &said);
    drop(said);
    text
}

/// Lines that are carried out on one state, and their answers.
const LINES: [(By, &str, &str); 30] = [
    (
        By::Apply,
        "create default /svc => /$/inet/127.0.0.1/1",
        "version 1",
    ),
    (
        By::Choose,
        "pick /svc/web",
        "127.0.0.1:1 /$/inet/127.0.0.1/1 /web",
    ),
    // A request's own table wins.
    (
        By::Choose,
        "pick /svc/web 0 0 0 0 /svc => /$/inet/127.0.0.1/2",
        "127.0.0.1:2 /$/inet/127.0.0.1/2 /web",
    ),
    (By::Absorb, "put default 7 /svc => /a", "stale 1"),
    (
        By::Absorb,
        "put default 1 /svc => /#/io.l5d.fs",
        "version 2",
    ),
    (By::Choose, "pick /svc/web", "negative"),
    (By::Apply, "addrs web 127.0.0.1:1 127.0.0.1:2", "ok 2"),
    (By::Apply, "fail 127.0.0.1:3 0", "not-kept"),
    (By::Apply, "fail 127.0.0.1:1 0", "mark 1 0"),
    (By::Apply, "fail 127.0.0.1:1 0", "mark 2 0"),
    (By::Absorb, "fail 127.0.0.1:1 0", "mark 3 0"),
    (By::Absorb, "fail 127.0.0.1:1 0", "mark 4 0"),
    (
        By::Choose,
        "pick /svc/web",
        "127.0.0.1:1 /#/io.l5d.fs/web /",
    ),
    (By::Apply, "fail 127.0.0.1:1 0", "mark 5 5000"),
    (
        By::Choose,
        "pick /svc/web",
        "127.0.0.1:2 /#/io.l5d.fs/web /",
    ),
    (
        By::Answer,
        "get default",
        "version 2 dtab /svc=>/#/io.l5d.fs",
    ),
    (By::Answer, "list", "names default"),
    (By::Answer, "addresses", "addrs 127.0.0.1:1 127.0.0.1:2"),
    (
        By::Answer,
        "counts",
        "changes 8 marks 1 namespaces 1 services 1",
    ),
    (
        By::Answer,
        "view /svc/web",
        "{\"lookups\":[{\"depth\":0,\"outcome\":\"bound\",\"path\":\"/svc/web\"},{\"depth\":1,\
            \"outcome\":\"bound\",\"path\":\"/#/io.l5d.fs/web\"}],\"outcome\":\"bound\"}",
    ),
    // A mark leaves with its address.
    (By::Apply, "addrs web 127.0.0.1:2", "ok 1"),
    (By::Apply, "addrs web 127.0.0.1:1 127.0.0.1:2", "ok 2"),
    (
        By::Choose,
        "pick /svc/web",
        "127.0.0.1:1 /#/io.l5d.fs/web /",
    ),
    // A service without addresses is empty, and not negative: no alternative is tried.
    (By::Apply, "addrs web", "ok 0"),
    (
        By::Absorb,
        "put default * /svc => /#/io.l5d.fs | /$/inet/127.0.0.1/9",
        "version 3",
    ),
    (By::Choose, "pick /svc/web", "empty"),
    (By::Apply, "drop web", "dropped"),
    (
        By::Choose,
        "pick /svc/web",
        "127.0.0.1:9 /$/inet/127.0.0.1/9 /web",
    ),
    (By::Apply, "drop web", "missing"),
    (By::Absorb, "drop web", "missing"),
];

#[test]
fn lines_are_answered(rt: HostRuntime) -> Result<(), Fail> {
    let mut state = State::start(rt.alloc())?;
    for (by, line, want) in &LINES {
        let told = told(rt.alloc(), &mut state, *by, line)?;
        let is_so = told.as_slice() == want.as_bytes();
        drop(told);
        assert!(rt; is_so, "{line}");
    }
    Ok(())
}

/// The replica that is taken for an ask, where the loads of the two are these.
fn taken<L: Ledger>(
    alloc: Global,
    state: &State,
    settings: &Settings,
    ask: &Ask,
    loads: (u64, u64),
    blank: Blank,
) -> Mem<Option<Taken>>
    requires name { blank.name ≡ L.name }
    requires parts { blank.parts ≡ L.parts }
    requires some { 0 < blank.parts }
{
    let mut steps = Steps::<L>::start(blank);
    let delegated = state.delegate(
        alloc,
        settings,
        &ask.path,
        &ask.local,
        Wanted::Neither,
        &mut steps,
    )?;
    let taken = match state.candidates_of(settings, &delegated.outcome, ask) {
        Ok(candidates) => Some(candidates.taken(loads.0, loads.1)),
        Err(_) => None,
    };
    drop(delegated);
    Ok(taken)
}

/// The port and the slot of the replica that is taken for `/svc/web`, with this third word; the
/// other words are 0.
fn place_taken(
    alloc: Global,
    state: &State,
    word: u64,
    loads: (u64, u64),
) -> Result<Option<(u16, Option<u32>)>, Fail> {
    let settings = script_settings(alloc)?;
    let mut ask = ask(alloc, "pick /svc/web")?;
    ask.words = [0, 0, word];
    let taken = taken::<Brand>(alloc, state, &settings, &ask, loads, Blank::new(1));
    drop(ask);
    drop(settings);
    match taken? {
        Some(taken) => Ok(Some((taken.addr.port, taken.slot))),
        None => Ok(None),
    }
}

/// A state in which the service `web` has three addresses, of which the first weighs three times as
/// much as each other.
fn three_addresses(alloc: Global) -> Result<State, Fail> {
    let mut state = State::start(alloc)?;
    told(
        alloc,
        &mut state,
        By::Apply,
        "create default /svc => /#/io.l5d.fs",
    )?;
    let addrs = "addrs web 127.0.0.1:1*3 127.0.0.1:2 127.0.0.1:3";
    told(alloc, &mut state, By::Apply, addrs)?;
    Ok(state)
}

/// Half of all words.
const HALF: u64 = 1 << 63;

/// The third word, the loads of the two, and the port and the slot of the one that is taken.
const LOADS: [(u64, (u64, u64), (u16, u32)); 5] = [
    (0, (2, 1), (1, 0)),
    (0, (3, 1), (1, 0)),
    (0, (4, 1), (2, 1)),
    (HALF - 1, (4, 1), (2, 1)),
    (HALF, (4, 1), (3, 2)),
];

#[test]
fn the_lesser_load_is_taken(rt: HostRuntime) -> Result<(), Fail> {
    let state = three_addresses(rt.alloc())?;
    for (word, loads, (port, slot)) in &LOADS {
        let taken = place_taken(rt.alloc(), &state, *word, *loads)?;
        assert!(rt; taken == Some((*port, Some(*slot))), "of {word}");
    }
    Ok(())
}
