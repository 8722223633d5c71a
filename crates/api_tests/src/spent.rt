//! The replies of a router that has given its last version, or made its last change. No test can
//! make so many changes, so that these replies are told directly.
use crate::connections::Mem;
use crate::wanted::said;
use api_wire::response_to;
use machine::Reply;
use std::alloc::Global;
use std::test::Fail;

/// What a router has no more of.
#[derive(Clone, Copy)]
enum Spent {
    Versions,
    History,
}

/// The reply that says so.
fn reply_of(spent: Spent) -> Reply {
    match spent {
        Spent::Versions => Reply::VersionsSpent,
        Spent::History => Reply::HistorySpent,
    }
}

/// How the interfaces tell that reply, behind `HTTP/1.1 `, where the connection closes or not.
fn told(alloc: Global, spent: Spent, closing: bool) -> Mem<String> {
    let response = response_to(alloc, reply_of(spent), false)?;
    let bytes = response.bytes(alloc, closing, true);
    drop(response);
    let bytes = bytes?;
    let told = said(alloc, bytes.as_slice());
    drop(bytes);
    told
}

/// What a router has no more of, whether the connection closes, and what is told.
const TOLD: [(Spent, bool, &str); 3] = [
    (
        Spent::Versions,
        false,
        "507 Insufficient Storage\r\nContent-Type: text/plain\r\nContent-Length: 15\r\n\r\n\
            versions-spent\n",
    ),
    (
        Spent::History,
        false,
        "507 Insufficient Storage\r\nContent-Type: text/plain\r\nContent-Length: 14\r\n\r\n\
            history-spent\n",
    ),
    (
        Spent::History,
        true,
        "507 Insufficient Storage\r\nContent-Type: text/plain\r\nContent-Length: 14\r\n\
            Connection: close\r\n\r\nhistory-spent\n",
    ),
];

#[test]
fn a_spent_router_says_so(rt: HostRuntime) -> Result<(), Fail> {
    for (spent, closing, want) in &TOLD {
        let told = told(rt.alloc(), *spent, *closing)?;
        assert!(rt; told.as_str() == *want, "{told}");
    }
    Ok(())
}
