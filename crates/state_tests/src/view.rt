//! A view with an escape and one of two lookups, and queries.
use crate::given::path;
use bind_core::{LookupEnd, Outcome, Trace, TraceItem};
use delegate_view::{Bytes, Mem, ViewFault, view_ask, view_text};
use dtab_table::{Dtab, write_dtab};
use name_tree::{Path, write_path};
use std::alloc::Global;
use std::test::Fail;

/// A lookup of the path of a text.
fn lookup(alloc: Global, depth: u32, text: &str, ended: LookupEnd) -> TraceItem {
    TraceItem {
        depth,
        path: path(alloc, text),
        ended,
    }
}

/// Lookups: their depths, their paths, and how they ended.
type Row = (u32, &'static str, LookupEnd);

/// The view of some lookups that came to this.
fn viewed(alloc: Global, outcome: &Outcome, rows: &[Row]) -> Mem<Bytes> {
    let mut items = Vec::new(alloc);
    for row in rows {
        items.push(lookup(alloc, row.0, row.1, row.2))?;
    }
    view_text(alloc, outcome, &Trace::of(items))
}

const LOOKUPS: [Row; 2] = [
    (0, "/svc/a\\x2Fb", LookupEnd::Negative),
    (11, "/", LookupEnd::TooDeep),
];

const VIEW: &str =
    "{\"lookups\":[{\"depth\":0,\"outcome\":\"negative\",\"path\":\"/svc/a\\\\x2fb\"},\
        {\"depth\":11,\"outcome\":\"too-deep\",\"path\":\"/\"}],\"outcome\":\"too-deep\"}";

#[test]
fn writes_a_view(rt: HostRuntime) -> Result<(), Fail> {
    let deep = viewed(rt.alloc(), &Outcome::TooDeep, &LOOKUPS)?;
    let is_deep = deep.as_slice() == VIEW.as_bytes();
    drop(deep);
    let wide = viewed(rt.alloc(), &Outcome::TooWide, &[])?;
    let is_wide = wide.as_slice() == b"{\"lookups\":[],\"outcome\":\"too-wide\"}".as_slice();
    drop(wide);
    assert_eq!(rt; (is_deep, is_wide), (true, true));
    Ok(())
}

/// The path and the table that were asked for, as texts with a space between them.
fn asked_text(alloc: Global, path: &Path, local: &Dtab) -> Mem<Bytes> {
    let mut text = write_path(alloc, path)?;
    text.push(b' ')?;
    text.append(&mut write_dtab(alloc, local)?)?;
    Ok(text)
}

/// What a query asks for, in words.
fn asked(alloc: Global, query: &[u8]) -> Mem<Bytes> {
    match view_ask(alloc, query) {
        Ok((path, local)) => asked_text(alloc, &path, &local),
        Err(ViewFault::BadView) => b"bad".to_vec(alloc),
        Err(ViewFault::OutOfMemory) => b"memory".to_vec(alloc),
    }
}

/// Queries, and what they ask for.
const QUERIES: [(&str, &str); 5] = [
    ("path=/svc/a", "/svc/a "),
    (
        "x=1&dtab=/a+%3D%3E+/b&p%61th=/svc%5Cx2f&path=no&dtab=no",
        "/svc\\x2f /a=>/b",
    ),
    ("dtab=", "bad"),
    ("path=/a&dtab=/a", "bad"),
    ("path=a&path=/a", "bad"),
];

#[test]
fn reads_queries(rt: HostRuntime) -> Result<(), Fail> {
    for (query, want) in &QUERIES {
        let asked = asked(rt.alloc(), query.as_bytes())?;
        let is_so = asked.as_slice() == want.as_bytes();
        drop(asked);
        assert!(rt; is_so, "{query}");
    }
    Ok(())
}
