//! Changes of a store with their answers in order, the limits, and stores that absorb what others
//! prepared.
use addr_book::Name;
use dtab_table::{Dtab, read_dtab, write_dtab};
use ns_store::*;
use std::alloc::Global;
use std::test::Fail;
use text_parts::append_number;

/// What is done with a namespace.
#[derive(Clone, Copy)]
enum Act {
    Create,
    Put,
    Delete,
}

/// A change of a namespace: what is done, the version that is expected of it, if one is, and the
/// text of its new table.
#[derive(Clone, Copy)]
struct Change {
    act: Act,
    version: Option<u64>,
    table: &'static str,
}

/// A new namespace with the table of a text.
fn create(table: &'static str) -> Change {
    Change {
        act: Act::Create,
        version: None,
        table,
    }
}

/// The version that a name has after a change, `None` where it has none; or why the change is
/// refused.
type Told = Result<Option<u64>, StoreFault>;

/// The table of a text; the empty one where it has none.
fn table(alloc: Global, text: &str) -> Dtab {
    match read_dtab(alloc, text.as_bytes()) {
        Ok(dtab) => dtab,
        Err(_) => Dtab::empty(alloc),
    }
}

/// A change of a name, prepared.
fn prepared(
    alloc: Global,
    store: &Store,
    name: &Name,
    change: Change,
) -> Result<ReadyStore, StoreFault> {
    let version = change.version;
    match change.act {
        Act::Create => store.prepare_create(alloc, name, &table(alloc, change.table)),
        Act::Put => store.prepare_put(alloc, name, version, &table(alloc, change.table)),
        Act::Delete => store.prepare_delete(alloc, name, version),
    }
}

/// Carries a change of a name out.
fn carry_out(alloc: Global, store: &mut Store, name: &Name, change: Change) -> Told {
    let ready = prepared(alloc, store, name, change)?;
    store.absorb(&ready)?;
    match store.get(name) {
        Some((version, _)) => Ok(Some(version)),
        None => Ok(None),
    }
}

/// The same of the name of a text.
fn told(alloc: Global, store: &mut Store, name: &str, change: Change) -> Result<Told, Fail> {
    let name = Name::of(alloc, name.as_bytes())?;
    Ok(carry_out(alloc, store, &name, change))
}

/// A name, what is done with it, the version that is expected, the text of the new table, and what
/// that is told.
type Row = (&'static str, Act, Option<u64>, &'static str, Told);

/// The first of some changes, carried out one after the other, that is told something else.
fn first_wrong(alloc: Global, store: &mut Store, rows: &[Row]) -> Result<Option<usize>, Fail> {
    for (at, (name, act, version, table, want)) in rows.iter().enumerate() {
        let change = Change {
            act: *act,
            version: *version,
            table,
        };
        if told(alloc, store, name, change)? != *want {
            return Ok(Some(at));
        }
    }
    Ok(None)
}

/// A version and a table as one text.
fn version_text(alloc: Global, version: u64, dtab: &Dtab) -> Mem<Vec<u8>> {
    let mut text = Vec::new(alloc);
    append_number(version, &mut text)?;
    text.push(b' ')?;
    text.append(&mut write_dtab(alloc, dtab)?)?;
    Ok(text)
}

/// The same, where there is such; or else `-`.
fn found_text(alloc: Global, found: Option<(u64, &Dtab)>) -> Mem<Vec<u8>> {
    match found {
        Some((version, dtab)) => version_text(alloc, version, dtab),
        None => b"-".to_vec(alloc),
    }
}

/// What a name has, its version and its table, as one text; `-` where it has nothing.
fn held(alloc: Global, store: &Store, name: &str) -> Result<Vec<u8>, Fail> {
    let name = Name::of(alloc, name.as_bytes())?;
    let text = found_text(alloc, store.get(&name));
    drop(name);
    Ok(text?)
}

const VERSIONS: [Row; 8] = [
    ("web", Act::Create, None, "/svc => /a", Ok(Some(1))),
    ("web", Act::Create, None, "", Err(StoreFault::Exists(1))),
    (
        "web",
        Act::Put,
        Some(7),
        "/svc => /b",
        Err(StoreFault::Stale(1)),
    ),
    ("web", Act::Put, Some(1), "/svc => /b", Ok(Some(2))),
    ("web", Act::Delete, Some(1), "", Err(StoreFault::Stale(2))),
    ("web", Act::Delete, None, "", Ok(None)),
    ("web", Act::Put, None, "/x => /y", Err(StoreFault::Missing)),
    ("web", Act::Create, None, "/svc => /c", Ok(Some(3))),
];

/// Whether a name has this.
fn holds(alloc: Global, store: &Store, name: &str, want: &str) -> Result<bool, Fail> {
    Ok(held(alloc, store, name)?.as_slice() == want.as_bytes())
}

/// The first of these changes that is told something else, and how many namespaces there are then;
/// and whether the first of them is `web`, and has the last table, and another name has none.
fn versions_seen(
    alloc: Global,
    store: &mut Store,
) -> Result<(Option<usize>, usize, [bool; 3]), Fail> {
    let wrong = first_wrong(alloc, store, &VERSIONS)?;
    let is_first = has_at(store, 0, b"web");
    let has_last = holds(alloc, store, "web", "3 /svc=>/c")?;
    let has_no_other = holds(alloc, store, "x", "-")?;
    Ok((wrong, store.count(), [is_first, has_last, has_no_other]))
}

#[test]
fn gives_each_table_a_version_of_its_own(rt: HostRuntime) -> Result<(), Fail> {
    let mut store = Store::start(rt.alloc())?;
    let seen = versions_seen(rt.alloc(), &mut store);
    drop(store);
    assert_eq!(rt; seen?, (None, 1, [true, true, true]));
    Ok(())
}

/// One of 256 names of two letters, in byte order: `AA` to `AP`, `BA` to `BP`, up to `PP`.
fn letters(number: u8) -> [u8; 2] {
    [b'A' + number / 16, b'A' + number % 16]
}

/// Makes the namespaces of all 256 names, in another order. The first turn that isn't told the next
/// version.
fn fill(alloc: Global, store: &mut Store) -> Result<Option<u8>, Fail> {
    for turn in 0..=255u8 {
        // 37 and 256 have no common divisor, so each number comes once.
        let name = Name::of(alloc, &letters(turn.wrapping_mul(37)))?;
        let told = carry_out(alloc, store, &name, create("/a => /b"));
        if told != Ok(Some(u64::from(turn) + 1)) {
            return Ok(Some(turn));
        }
    }
    Ok(None)
}

/// Whether a store has this name at this place.
fn has_at(store: &Store, at: usize, text: &[u8]) -> bool {
    at < store.count() && store.name(at).text() == text
}

/// The first of the 256 numbers whose name is not at its place.
fn first_misplaced(store: &Store) -> Option<u8> {
    for number in 0..=255u8 {
        if !has_at(store, usize::from(number), &letters(number)) {
            return Some(number);
        }
    }
    None
}

/// Changes of a full store.
const FULL: [Row; 5] = [
    ("web", Act::Create, None, "", Err(StoreFault::TooManyNames)),
    ("AA", Act::Create, None, "", Err(StoreFault::Exists(1))),
    ("AA", Act::Put, Some(1), "/a => /c", Ok(Some(257))),
    ("AA", Act::Delete, Some(257), "", Ok(None)),
    ("web", Act::Create, None, "", Ok(Some(258))),
];

/// What is seen of a new store that is filled: the first turn and the first change that are told
/// something else, the first name that is not at its place, and how many there are before and
/// behind the changes.
type Filled = (Option<u8>, Option<usize>, Option<u8>, usize, usize);

/// Fills a store, and carries changes of it out.
fn filled(alloc: Global, store: &mut Store) -> Result<Filled, Fail> {
    let turn = fill(alloc, store)?;
    let misplaced = first_misplaced(store);
    let before = store.count();
    let wrong = first_wrong(alloc, store, &FULL)?;
    Ok((turn, wrong, misplaced, before, store.count()))
}

#[test]
fn holds_256_namespaces_in_byte_order(rt: HostRuntime) -> Result<(), Fail> {
    let mut store = Store::start(rt.alloc())?;
    let seen = filled(rt.alloc(), &mut store);
    drop(store);
    assert_eq!(rt; seen?, (None, None, None, 256, 256));
    Ok(())
}

/// The last version that is given.
const LAST: u64 = u64::MAX - 1;

/// Changes from there on.
const SPENT: [Row; 8] = [
    ("web", Act::Create, None, "/a => /b", Ok(Some(LAST))),
    (
        "mail",
        Act::Create,
        None,
        "",
        Err(StoreFault::VersionsSpent),
    ),
    ("web", Act::Create, None, "", Err(StoreFault::Exists(LAST))),
    (
        "web",
        Act::Put,
        Some(LAST),
        "",
        Err(StoreFault::VersionsSpent),
    ),
    ("web", Act::Put, Some(1), "", Err(StoreFault::Stale(LAST))),
    ("mail", Act::Put, None, "", Err(StoreFault::Missing)),
    ("web", Act::Delete, Some(LAST), "", Ok(None)),
    ("web", Act::Create, None, "", Err(StoreFault::VersionsSpent)),
];

#[test]
fn stops_at_the_last_version(rt: HostRuntime) -> Result<(), Fail> {
    let mut store = Store::with_next(rt.alloc(), LAST)?;
    let wrong = first_wrong(rt.alloc(), &mut store, &SPENT);
    drop(store);
    assert_eq!(rt; wrong?, None);
    Ok(())
}

/// Two stores take in a change.
fn absorb_both(first: &mut Store, second: &mut Store, ready: &ReadyStore) -> Mem<()> {
    first.absorb(ready)?;
    second.absorb(ready)
}

/// Two stores take in a new namespace `web`, which was prepared on the first.
fn absorbed_twice(alloc: Global, first: &mut Store, second: &mut Store) -> Result<(), Fail> {
    let web = Name::of(alloc, b"web")?;
    let prepared = prepared(alloc, first, &web, create("/a => /b"));
    drop(web);
    let ready = prepared?;
    let absorbed = absorb_both(first, second, &ready);
    drop(ready);
    Ok(absorbed?)
}

/// Whether a store has that namespace, and no other.
fn holds_web(alloc: Global, store: &Store) -> Result<bool, Fail> {
    let has_web = holds(alloc, store, "web", "1 /a=>/b")?;
    let has_no_mail = holds(alloc, store, "mail", "-")?;
    Ok(store.count() == 1 && has_web && has_no_mail)
}

/// Makes a namespace `mail` on the second of two stores, before both absorb what was prepared on
/// the first. Whether that was made, and whether each has the namespace of the first alone then.
fn absorbed_by_both(
    alloc: Global,
    first: &mut Store,
    second: &mut Store,
) -> Result<[bool; 3], Fail> {
    let mail = told(alloc, second, "mail", create("/m => /n"))?;
    absorbed_twice(alloc, first, second)?;
    let is_made = mail == Ok(Some(1));
    Ok([is_made, holds_web(alloc, first)?, holds_web(alloc, second)?])
}

#[test]
fn absorbs_what_another_store_prepared(rt: HostRuntime) -> Result<(), Fail> {
    let mut first = Store::start(rt.alloc())?;
    let mut second = Store::start(rt.alloc())?;
    let seen = absorbed_by_both(rt.alloc(), &mut first, &mut second);
    drop(first);
    drop(second);
    assert_eq!(rt; seen?, [true, true, true]);
    Ok(())
}
