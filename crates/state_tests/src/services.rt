//! Services as a look tells them, one by one.

use crate::state::{By, reply_to, told};
use machine::{Look, Reply, ServiceState, State};
use script::script_settings;
use std::alloc::{AllocError, Global};
use std::test::Fail;

/// The changes behind which the services are looked at. Two of them write a table, and a delete
/// writes none. The last of the failures leaves its address out until the moment 5,000.
const CHANGES: [&str; 11] = [
    "create default /a=>/b",
    "put default * /a=>/c",
    "delete default *",
    "addrs web 127.0.0.1:1 127.0.0.1:2 127.0.0.1:3",
    "addrs one 127.0.0.1:1",
    "addrs none",
    "fail 127.0.0.1:1 0",
    "fail 127.0.0.1:1 0",
    "fail 127.0.0.1:1 0",
    "fail 127.0.0.1:1 0",
    "fail 127.0.0.1:1 0",
];

/// The state behind the changes.
fn changed(alloc: Global) -> Result<State, Fail> {
    let mut state = State::start(alloc)?;
    for line in &CHANGES {
        told(alloc, &mut state, By::Apply, line)?;
    }
    Ok(state)
}

/// Puts a service behind some words: its addresses, and those alive.
fn put_service(
    alloc: Global,
    service: &ServiceState,
    words: &mut String,
) -> Result<(), AllocError> {
    let name = &service.name;
    let (addresses, alive) = (service.addresses, service.alive);
    let part = format!(in alloc; "; {name} {addresses} {alive}")?;
    let put = words.push_str(part.as_str());
    drop(part);
    put
}

/// What a reply tells of the services, in words: each with its addresses and those alive.
fn words(alloc: Global, reply: &Reply) -> Result<String, AllocError> {
    let Reply::Services {
        changes,
        marks,
        namespaces,
        tables_written,
        services,
    } = reply
    else {
        return String::from_str(alloc, "something else");
    };
    let mut words = format!(in alloc;
        "changes {changes} marks {marks} namespaces {namespaces} tables {tables_written}"
    )?;
    for service in services.as_slice() {
        put_service(alloc, service, &mut words)?;
    }
    Ok(words)
}

/// The reply to a look at the services at a moment.
fn reply_at(alloc: Global, state: &State, moment: u64) -> Result<Reply, AllocError> {
    let settings = script_settings(alloc)?;
    let look = Look::Services { moment };
    let Ok(copy) = look.copied(alloc) else {
        drop(look);
        drop(settings);
        return Err(AllocError);
    };
    drop(look);
    let reply = reply_to(alloc, &settings, state, &copy);
    drop(copy);
    drop(settings);
    reply
}

/// What a look at a moment tells of the services of a state.
fn looked(alloc: Global, state: &State, moment: u64) -> Result<String, AllocError> {
    let reply = reply_at(alloc, state, moment)?;
    let text = words(alloc, &reply);
    drop(reply);
    text
}

/// What is told at a moment.
const MOMENTS: [(u64, &str); 2] = [
    (
        4_999,
        "changes 11 marks 1 namespaces 0 tables 2; none 0 0; one 1 0; web 3 2",
    ),
    (
        5_000,
        "changes 11 marks 1 namespaces 0 tables 2; none 0 0; one 1 1; web 3 3",
    ),
];

#[test]
fn each_service_is_told_with_those_alive(rt: HostRuntime) -> Result<(), Fail> {
    let state = changed(rt.alloc())?;
    for (moment, want) in &MOMENTS {
        let told = looked(rt.alloc(), &state, *moment)?;
        let is_so = told.as_str() == *want;
        drop(told);
        assert!(rt; is_so, "at {moment}");
    }
    Ok(())
}
