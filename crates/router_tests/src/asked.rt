//! Calls of one pass, and their answers as texts.
ghost use Rattle.std.specs.Prelude.{IfSome};
ghost use Rattle.machine.specs.Code.{change_of};
ghost use Rattle.machine.specs.State.{IsSoundChange};

use addr_book::{Addr, Name, read_addrs};
use choose_core::Limits;
use dtab_table::{Dtab, read_dtab};
use machine::{Ask, Change, Look, Reply, Settings};
use name_tree::read_path;
use router::{Answer, Choice, Looked, Mem, Names, Naming, Pass, Peek, Router};
use std::alloc::Global;
use std::sync::Wait;
use std::sync::ledger::Ledger;
use step_count::Steps;

/// What is asked of a router without its lock.
#[derive(Clone, Copy)]
pub enum Asking {
    /// A report of a success on 127.0.0.1 with this port.
    Succeed(u16),
    /// A look for the namespace `default`.
    Look,
    /// A pick for `/svc/web`.
    Pick,
    /// The same by what is kept alone.
    Peek,
}

fn name(alloc: Global, text: &str) -> Option<Name> {
    Name::of(alloc, text.as_bytes()).ok()
}

/// Settings with the namespace `default` and this configured table.
pub fn settings(alloc: Global, base: &str) -> Option<Settings> {
    Some(Settings {
        space: name(alloc, "default")?,
        base: read_dtab(alloc, base.as_bytes()).ok()?,
        limits: Limits {
            failures: 5,
            backoff: 5000,
        },
    })
}

/// An ask for `/svc/web` at moment 0 with words of 0.
pub fn ask(alloc: Global) -> Option<Ask> {
    Some(Ask {
        path: read_path(alloc, b"/svc/web").ok()?,
        local: Dtab::empty(alloc),
        moment: 0,
        words: [0, 0, 0],
    })
}

/// The change that creates a namespace with this table.
pub fn creation(alloc: Global, space: &str, table: &str) -> Option<Change>
    ensures { IfSome result (λ change. IsSoundChange (change_of change)) }
{
    let dtab = read_dtab(alloc, table.as_bytes()).ok()?;
    Some(Change::Create {
        name: name(alloc, space)?,
        dtab,
    })
}

/// The change that puts this table in the place of a namespace's.
pub fn replacement(alloc: Global, space: &str, table: &str) -> Option<Change>
    ensures { IfSome result (λ change. IsSoundChange (change_of change)) }
{
    let dtab = read_dtab(alloc, table.as_bytes()).ok()?;
    Some(Change::Put {
        name: name(alloc, space)?,
        version: None,
        dtab,
    })
}

/// The change that gives a service these addresses.
pub fn assignment(alloc: Global, service: &str, addrs: &str) -> Option<Change>
    ensures { IfSome result (λ change. IsSoundChange (change_of change)) }
{
    let list = read_addrs(alloc, addrs.as_bytes()).ok()?;
    Some(Change::SetAddrs {
        service: name(alloc, service)?,
        list,
    })
}

fn reply_text(alloc: Global, reply: &Reply) -> Option<String> {
    match reply {
        Reply::Version(version) => format!(in alloc; "version {version}").ok(),
        Reply::Exists(version) => format!(in alloc; "exists {version}").ok(),
        Reply::Set(count) => format!(in alloc; "set {count}").ok(),
        Reply::Marked(mark) => {
            let count = mark.count;
            format!(in alloc; "failures {count}").ok()
        }
        Reply::NotKept => String::from_str(alloc, "of no service").ok(),
        Reply::Missing => String::from_str(alloc, "missing").ok(),
        Reply::Table { version, .. } => format!(in alloc; "table {version}").ok(),
        _ => None,
    }
}

/// What comes of a change, as text; nothing where there is none.
pub fn changed<J: Naming, R: Wait>(
    rt: &R,
    alloc: Global,
    router: &Router<J>,
    pass: &mut Pass<J>,
    change: Option<Change>,
) -> Option<String>
    requires { IfSome change (λ change. IsSoundChange (change_of change)) }
{
    let made = change?;
    match router.change(rt, alloc, pass, made) {
        Ok(reply) => {
            let text = reply_text(alloc, &reply);
            drop(reply);
            text
        }
        Err(_) => None,
    }
}

/// A report on 127.0.0.1 with this port.
pub fn report(port: u16, good: bool) -> Change
    ensures { IsSoundChange (change_of result) }
{
    Change::Report {
        addr: Addr {
            ip: 0x7f00_0001,
            port,
        },
        good,
        moment: 0,
    }
}

/// The answer to a report, where it needed no lock.
fn report_text(alloc: Global, reply: Option<Reply>) -> Option<String> {
    let Some(reply) = reply else {
        return String::from_str(alloc, "left for the lock").ok();
    };
    let text = reply_text(alloc, &reply);
    drop(reply);
    text
}

/// A look for the namespace `default`.
fn look(alloc: Global) -> Option<Look> {
    Some(Look::Get {
        name: name(alloc, "default")?,
    })
}

/// The place of a look, its reply, and how many delegations were kept.
fn looked_text(alloc: Global, answer: Mem<Looked>) -> Option<String> {
    let Ok(looked) = answer else {
        return None;
    };
    let text = said_text(alloc, &looked);
    drop(looked);
    text
}

/// The same, where the pass was let in.
fn said_text(alloc: Global, looked: &Looked) -> Option<String> {
    match looked {
        Looked::Said { place, reply, kept } => {
            let said = reply_text(alloc, reply)?;
            format!(in alloc; "at {place} {said}, kept {kept}").ok()
        }
        Looked::NoEntry => None,
    }
}

/// The port of a replica, its slot, the two loads, and the place.
fn choice_text(alloc: Global, choice: &Choice) -> Option<String> {
    let (port, place) = (choice.addr.port, choice.place);
    let (first, second) = (choice.first, choice.second);
    match choice.slot {
        Some(slot) => {
            format!(in alloc; "at {place} port {port} slot {slot} loads {first} {second}").ok()
        }
        None => format!(in alloc; "at {place} port {port}").ok(),
    }
}

/// The replica that a pick answers.
fn picked_text(alloc: Global, answer: Mem<Answer>) -> Option<String> {
    let Ok(answer) = answer else {
        return None;
    };
    let choice = choice_in(&answer);
    drop(answer);
    let choice = choice?;
    choice_text(alloc, &choice)
}

/// The replica of an answer, if it has one.
fn choice_in(answer: &Answer) -> Option<Choice> {
    match answer {
        Answer::Picked { choice, .. } => Some(*choice),
        _ => None,
    }
}

fn names_text(alloc: Global, names: &Names) -> Option<String> {
    let client = std::str::from_utf8(names.client()).ok()?;
    let residual = std::str::from_utf8(names.residual()).ok()?;
    format!(in alloc; "names {client} {residual}").ok()
}

/// A replica whose delegation is kept, with its names.
fn hit_text(alloc: Global, choice: &Choice, names: &Names) -> Option<String> {
    let said = choice_text(alloc, choice)?;
    let names = names_text(alloc, names)?;
    format!(in alloc; "hit {said} {names}").ok()
}

/// What was found by what is kept alone.
fn peek_text(alloc: Global, peek: &Peek, names: &Names) -> Option<String> {
    match peek {
        Peek::Hit(choice) => hit_text(alloc, choice, names),
        Peek::HitNone { place, .. } => format!(in alloc; "none at {place}").ok(),
        Peek::Miss(place) => {
            let length = names.client().len().max(names.residual().len());
            format!(in alloc; "miss at {place} names {length}").ok()
        }
        Peek::NoEntry => None,
    }
}

/// What is answered to a call that asks this, as a text.
pub fn asked<J: Naming, L: Ledger>(
    alloc: Global,
    router: &Router<J>,
    pass: &mut Pass<J>,
    asking: Asking,
    steps: &mut Steps<L>,
) -> Option<String> {
    match asking {
        Asking::Succeed(port) => {
            let change = report(port, true);
            let reply = router.report(pass, &change);
            drop(change);
            report_text(alloc, reply)
        }
        Asking::Look => {
            let look = look(alloc)?;
            let answer = router.look(alloc, pass, &look, steps);
            drop(look);
            looked_text(alloc, answer)
        }
        Asking::Pick => {
            let ask = ask(alloc)?;
            let answer = router.pick(alloc, pass, &ask, steps);
            drop(ask);
            picked_text(alloc, answer)
        }
        Asking::Peek => {
            let ask = ask(alloc)?;
            let Ok(mut names) = Names::room(alloc) else {
                drop(ask);
                return None;
            };
            let peek = router.peek(pass, &ask, &mut names);
            drop(ask);
            let text = peek_text(alloc, &peek, &names);
            drop(names);
            text
        }
    }
}

/// The pass holds a slot, where it holds none.
pub fn hold<J: Naming>(
    alloc: Global,
    router: &Router<J>,
    pass: &mut Pass<J>,
    slot: u32,
) -> Option<String> {
    if slot >= 8192 || pass.holds().is_some() {
        return None;
    }
    router.hold(pass, slot);
    let held = pass.holds()?;
    format!(in alloc; "holds {held}").ok()
}

/// The pass gives back what it holds.
pub fn give<J: Naming>(alloc: Global, router: &Router<J>, pass: &mut Pass<J>) -> Option<String> {
    let held = pass.holds()?;
    router.give(pass);
    if pass.holds().is_some() {
        return None;
    }
    format!(in alloc; "gave {held}").ok()
}
