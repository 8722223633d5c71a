//! Delegations over tables that are read from their texts, and a book of two services.
ghost use Rattle.std.specs.Prelude.{◌≡◌, ◌<◌};

use crate::given::{path, table};
use addr_book::{Book, Bound, Cluster, Leaf, Name, append_addr, read_addrs};
use bind_core::{Delegated, LookupEnd, Mem, Outcome, Tables, TraceItem, Wanted, bind};
use dtab_table::Dtab;
use name_tree::{Path, append_path};
use std::alloc::Global;
use std::marker::Brand;
use std::sync::ledger::{Blank, Ledger};
use std::test::Fail;
use step_count::Steps;

/// What paths are delegated by.
struct Given {
    space: Dtab,
    base: Dtab,
    local: Dtab,
    book: Book,
}

impl Drop for Given {
    fn drop(self) {
        let Given {
            space,
            base,
            local,
            book,
        } = self;
        drop(space);
        drop(base);
        drop(local);
        drop(book);
    }
}

/// Sets the addresses of a service.
fn set(alloc: Global, book: &mut Book, service: &str, addrs: &str) -> Result<(), Fail> {
    let name = Name::of(alloc, service.as_bytes())?;
    let list = read_addrs(alloc, addrs.as_bytes())?;
    let ready = book.prepare_set(alloc, &name, &list)?;
    drop(name);
    drop(list);
    let absorbed = book.absorb(&ready);
    drop(ready);
    Ok(absorbed?)
}

/// A book with the services `web`, which has an address, and `idle`, which has none.
fn two_services(alloc: Global) -> Result<Book, Fail> {
    let mut book = Book::start(alloc)?;
    set(alloc, &mut book, "web", "127.0.0.1 9001")?;
    set(alloc, &mut book, "idle", "")?;
    Ok(book)
}

/// The tables of the namespace, of the configuration and of the request, and the book of two
/// services.
fn read_given(alloc: Global, tables: [&[u8]; 3]) -> Result<Given, Fail> {
    let [space, base, local] = tables;
    Ok(Given {
        book: two_services(alloc)?,
        space: table(alloc, space),
        base: table(alloc, base),
        local: table(alloc, local),
    })
}

fn delegate<L: Ledger>(
    alloc: Global,
    given: &Given,
    path: &Path,
    wanted: Wanted,
    blank: Blank,
) -> Mem<Delegated>
    requires name { blank.name ≡ L.name }
    requires parts { blank.parts ≡ L.parts }
    requires some { 0 < blank.parts }
{
    let mut steps = Steps::<L>::start(blank);
    let tables = Tables {
        space: &given.space,
        base: &given.base,
        local: &given.local,
    };
    bind(alloc, &tables, &given.book, path, wanted, &mut steps)
}

/// What the path of a text comes to by three tables.
fn found_by(
    alloc: Global,
    tables: [&[u8]; 3],
    text: &str,
    wanted: Wanted,
) -> Result<Delegated, Fail> {
    let given = read_given(alloc, tables)?;
    let path = path(alloc, text);
    let found = delegate::<Brand>(alloc, &given, &path, wanted, Blank::new(1));
    drop(path);
    drop(given);
    Ok(found?)
}

/// Puts some words behind a text.
fn put(text: &mut Vec<u8>, words: Mem<String>) -> Mem<()> {
    let words = words?;
    let put = text.extend_from_slice(words.as_bytes());
    drop(words);
    put
}

/// A leaf in words: the address, the client path and the residual.
fn put_leaf(leaf: &Leaf, text: &mut Vec<u8>) -> Mem<()> {
    match &leaf.cluster {
        Cluster::Inet(addr) => append_addr(*addr, text)?,
        Cluster::Fs(service) => text.extend_from_slice(service.text())?,
    }
    text.push(b' ')?;
    append_path(&leaf.client, text)?;
    text.push(b' ')?;
    append_path(&leaf.residual, text)
}

/// A bound in words: that of a union is its branches in brackets, each with its weight in
/// millionths.
#[cycle(put_bound)]
fn put_bound(alloc: Global, bound: &Bound, text: &mut Vec<u8>) -> Mem<()> {
    match bound {
        Bound::One(leaf) => put_leaf(leaf, text),
        Bound::Many(list) => {
            text.push(b'[')?;
            for item in list.items() {
                put(text, format!(in alloc; " {} * ", item.weight))?;
                put_bound(alloc, &item.bound, text)?;
            }
            text.extend_from_slice(b" ]")
        }
    }
}

/// An outcome in a word or two.
fn outcome_words(outcome: &Outcome) -> &'static str {
    match outcome {
        Outcome::Neg => "negative",
        Outcome::Fail => "failing",
        Outcome::Empty => "empty",
        Outcome::TooDeep => "too deep",
        Outcome::TooWide => "too wide",
        Outcome::Bound(_) => "bound",
    }
}

/// An outcome in words. A bound one is its bound.
fn outcome_text(alloc: Global, outcome: &Outcome) -> Mem<Vec<u8>> {
    let mut text = Vec::new(alloc);
    match outcome {
        Outcome::Bound(bound) => put_bound(alloc, bound, &mut text)?,
        _ => text.extend_from_slice(outcome_words(outcome).as_bytes())?,
    }
    Ok(text)
}

/// How a lookup ended, in a word.
fn ended_word(ended: LookupEnd) -> &'static str {
    match ended {
        LookupEnd::Negative => "negative",
        LookupEnd::Failing => "failing",
        LookupEnd::Empty => "empty",
        LookupEnd::TooDeep => "too-deep",
        LookupEnd::Bound => "bound",
    }
}

/// Puts a lookup behind a text: the depth, the path and how it ended.
fn put_lookup(alloc: Global, item: &TraceItem, text: &mut Vec<u8>) -> Mem<()> {
    put(text, format!(in alloc; "{} ", item.depth))?;
    append_path(&item.path, text)?;
    put(text, format!(in alloc; " {};", ended_word(item.ended)))
}

/// The first four lookups of a trace in words.
fn trace_text(alloc: Global, items: &[TraceItem]) -> Mem<Vec<u8>> {
    let mut text = Vec::new(alloc);
    for item in &items[..items.len().min(4)] {
        put_lookup(alloc, item, &mut text)?;
    }
    Ok(text)
}

/// Some paths, each with `;` behind it.
fn paths_text(alloc: Global, paths: &[Path]) -> Mem<Vec<u8>> {
    let mut text = Vec::new(alloc);
    for path in paths {
        append_path(path, &mut text)?;
        text.push(b';')?;
    }
    Ok(text)
}

/// Puts `/c0 => /c1` and so on behind a text, and from the last name to an address.
fn put_chain(alloc: Global, links: u32, text: &mut Vec<u8>) -> Mem<()> {
    for link in 0..links {
        put(text, format!(in alloc; "/c{} => /c{};", link, link + 1))?;
    }
    put(text, format!(in alloc; "/c{links} => /$/inet/127.0.0.1/80"))
}

/// Puts `/a0 => /a1 | /a1` and so on behind a text, with the sign that is given for `|`.
fn put_doubling(alloc: Global, levels: u32, sign: &str, text: &mut Vec<u8>) -> Mem<()> {
    for level in 0..levels {
        let next = level + 1;
        put(
            text,
            format!(in alloc; "/a{level} => /a{next} {sign} /a{next};"),
        )?;
    }
    Ok(())
}

/// A table, a path, what it comes to, and the cost.
const ROWS: [(&str, &str, &str, u32); 31] = [
    ("", "/svc", "negative", 1),
    (
        "",
        "/$/inet/localhost/80/x/y",
        "127.0.0.1:80 /$/inet/localhost/80 /x/y",
        1,
    ),
    (
        "/svc => /$/inet/127.0.0.1/8080",
        "/svc/a",
        "127.0.0.1:8080 /$/inet/127.0.0.1/8080 /a",
        2,
    ),
    (
        "/svc => /$/inet/10.20.30.40/1; /svc => /$/inet/10.20.30.40/2",
        "/svc",
        "10.20.30.40:2 /$/inet/10.20.30.40/2 /",
        2,
    ),
    (
        "/svc => /$/inet/10.20.30.40/1; /svc => /none",
        "/svc",
        "10.20.30.40:1 /$/inet/10.20.30.40/1 /",
        3,
    ),
    ("/a => /a", "/a", "too deep", 100),
    (
        "/a => /a; /b => /a | /$/inet/127.0.0.1/9",
        "/b",
        "too deep",
        100,
    ),
    ("/s => $ | /$/inet/127.0.0.1/9", "/s", "empty", 1),
    ("/s => ! | /$/inet/127.0.0.1/9", "/s", "failing", 1),
    (
        "/s => ~ | /$/inet/127.0.0.1/9",
        "/s",
        "127.0.0.1:9 /$/inet/127.0.0.1/9 /",
        2,
    ),
    // All branches are dropped: failing goes before empty, and empty before negative.
    ("/s => ~ & ~", "/s", "negative", 1),
    ("/s => ~ & $", "/s", "empty", 1),
    ("/s => ~ & !", "/s", "failing", 1),
    ("/s => ! & $", "/s", "failing", 1),
    ("/s => $ & !", "/s", "failing", 1),
    // One branch is left, and one is all there is.
    (
        "/s => ! & /$/inet/127.0.0.1/1",
        "/s",
        "[ 1000000 * 127.0.0.1:1 /$/inet/127.0.0.1/1 / ]",
        2,
    ),
    (
        "/s => 2 * /$/inet/127.0.0.1/1",
        "/s",
        "[ 2000000 * 127.0.0.1:1 /$/inet/127.0.0.1/1 / ]",
        2,
    ),
    // Unions in unions, in the tree and by a lookup.
    (
        "/s => 2 * (0.5 * /$/inet/127.0.0.1/1 & ~ & 3 * /$/inet/127.0.0.1/2) & /t; /t => \
            0.000001 * /$/inet/127.0.0.1/3",
        "/s/x",
        "[ 2000000 * [ 500000 * 127.0.0.1:1 /$/inet/127.0.0.1/1 /x 3000000 * 127.0.0.1:2 \
            /$/inet/127.0.0.1/2 /x ] 1000000 * [ 1 * 127.0.0.1:3 /$/inet/127.0.0.1/3 /x ] ]",
        5,
    ),
    // Branches of weight 0 are not evaluated.
    ("/s => 0 * /$/inet/127.0.0.1/1", "/s", "negative", 1),
    ("/s => 0 * /s & ~", "/s", "negative", 1),
    (
        "/s => 0 * ! & 0 * /s & $ & 0.000001 * /$/inet/127.0.0.1/1",
        "/s",
        "[ 1 * 127.0.0.1:1 /$/inet/127.0.0.1/1 / ]",
        2,
    ),
    // A branch that is too deep ends all: what stands behind it isn't looked up.
    ("/s => /s & ~", "/s", "too deep", 100),
    ("/s => ! & /s", "/s", "too deep", 100),
    (
        "/a => /a; /b => /$/inet/127.0.0.1/1; /s => /a & /b",
        "/s",
        "too deep",
        100,
    ),
    (
        "/a => /a; /b => /$/inet/127.0.0.1/1; /s => /b & /a",
        "/s",
        "too deep",
        102,
    ),
    (
        "/a => /a; /s => (/a & ~) | /$/inet/127.0.0.1/1",
        "/s",
        "too deep",
        100,
    ),
    // A union among alternatives.
    (
        "/s => (~ & ~) | /$/inet/127.0.0.1/2",
        "/s",
        "127.0.0.1:2 /$/inet/127.0.0.1/2 /",
        2,
    ),
    ("/s => (~ & !) | /$/inet/127.0.0.1/2", "/s", "failing", 1),
    // `*` stands for any one label.
    (
        "/s/*/x => /$/inet/127.0.0.1/9",
        "/s/a/x/y",
        "127.0.0.1:9 /$/inet/127.0.0.1/9 /y",
        2,
    ),
    ("/s/*/x => /$/inet/127.0.0.1/9", "/s/x", "negative", 1),
    ("/s/*/x => /$/inet/127.0.0.1/9", "/s/a/b/x", "negative", 1),
];

/// A cost, and how many paths and lookups are told.
type Counts = (u32, usize, usize);

fn counts_of(found: &Delegated) -> Counts {
    (
        found.cost,
        found.asked.items().len(),
        found.trace.items().len(),
    )
}

/// What a path comes to by a table, with the counts.
fn counted(alloc: Global, table: &str, path: &str) -> Result<(Vec<u8>, Counts), Fail> {
    let tables = [table.as_bytes(), b"", b""];
    let found = found_by(alloc, tables, path, Wanted::Neither)?;
    let counts = counts_of(&found);
    let text = outcome_text(alloc, &found.outcome);
    drop(found);
    Ok((text?, counts))
}

#[test]
fn delegations(rt: HostRuntime) -> Result<(), Fail> {
    for (table, path, outcome, cost) in &ROWS {
        let (text, counts) = counted(rt.alloc(), table, path)?;
        let is_so = (text.as_slice(), counts) == (outcome.as_bytes(), (*cost, 0, 0));
        drop(text);
        assert!(rt; is_so, "{path} in {table}");
    }
    Ok(())
}

/// The three tables, a path, what it comes to, and the paths that are looked up.
const TABLES: [(&str, &str, &str, &str, &str, &str); 9] = [
    // The request's own entries go first, then the configured ones, then the namespace's.
    (
        "/s => /$/inet/127.0.0.1/1",
        "/s => /$/inet/127.0.0.1/2",
        "/s => /$/inet/127.0.0.1/3",
        "/s",
        "127.0.0.1:3 /$/inet/127.0.0.1/3 /",
        "/s;/$/inet/127.0.0.1/3;",
    ),
    (
        "/s => /$/inet/127.0.0.1/1",
        "/s => /$/inet/127.0.0.1/2",
        "",
        "/s",
        "127.0.0.1:2 /$/inet/127.0.0.1/2 /",
        "/s;/$/inet/127.0.0.1/2;",
    ),
    (
        "/s => /$/inet/127.0.0.1/1; /s => /y",
        "/s => ~ | /x",
        "/s => /w | ~",
        "/s",
        "127.0.0.1:1 /$/inet/127.0.0.1/1 /",
        "/s;/w;/x;/y;/$/inet/127.0.0.1/1;",
    ),
    (
        "/s => /$/inet/127.0.0.1/1",
        "",
        "/s => $",
        "/s",
        "empty",
        "/s;",
    ),
    // A tree of one table is looked up in all of them.
    (
        "/a => /b",
        "/b => /c",
        "/s => /a; /c => /$/inet/127.0.0.1/4",
        "/s/x",
        "127.0.0.1:4 /$/inet/127.0.0.1/4 /x",
        "/s/x;/a/x;/b/x;/c/x;/$/inet/127.0.0.1/4/x;",
    ),
    // A service of the book is bound, whether it has addresses or not. One that is not there is
    // negative.
    (
        "/svc => /#/io.l5d.fs",
        "",
        "",
        "/svc/web/x",
        "web /#/io.l5d.fs/web /x",
        "/svc/web/x;/#/io.l5d.fs/web/x;",
    ),
    (
        "/svc => /#/io.l5d.fs | /$/inet/127.0.0.1/9",
        "",
        "",
        "/svc/idle",
        "idle /#/io.l5d.fs/idle /",
        "/svc/idle;/#/io.l5d.fs/idle;",
    ),
    (
        "/svc => /#/io.l5d.fs | /$/inet/127.0.0.1/9",
        "",
        "",
        "/svc/none",
        "127.0.0.1:9 /$/inet/127.0.0.1/9 /none",
        "/svc/none;/#/io.l5d.fs/none;/$/inet/127.0.0.1/9/none;",
    ),
    // An entry goes before what the path names.
    (
        "/#/io.l5d.fs/web => /$/inet/127.0.0.1/5",
        "",
        "",
        "/#/io.l5d.fs/web",
        "127.0.0.1:5 /$/inet/127.0.0.1/5 /",
        "/#/io.l5d.fs/web;/$/inet/127.0.0.1/5;",
    ),
];

/// What was found in words, and the paths that were looked up.
fn asked_text(alloc: Global, found: &Delegated) -> Mem<(Vec<u8>, Vec<u8>)> {
    let text = outcome_text(alloc, &found.outcome)?;
    Ok((text, paths_text(alloc, found.asked.items())?))
}

/// The same of a path by three tables, and whether the cost is the number of those paths.
fn asked_by(
    alloc: Global,
    tables: [&[u8]; 3],
    path: &str,
) -> Result<(Vec<u8>, Vec<u8>, bool), Fail> {
    let found = found_by(alloc, tables, path, Wanted::Asked)?;
    let texts = asked_text(alloc, &found);
    let (cost, count, traced) = counts_of(&found);
    drop(found);
    let is_counted = (cost as usize, traced) == (count, 0);
    let (text, asked) = texts?;
    Ok((text, asked, is_counted))
}

#[test]
fn tables_and_paths_asked(rt: HostRuntime) -> Result<(), Fail> {
    for (space, base, local, path, outcome, asked) in &TABLES {
        let tables = [space.as_bytes(), base.as_bytes(), local.as_bytes()];
        let found = asked_by(rt.alloc(), tables, path)?;
        let is_so = (found.0.as_slice(), found.1.as_slice(), found.2)
            == (outcome.as_bytes(), asked.as_bytes(), true);
        drop(found);
        assert!(rt; is_so, "{path}");
    }
    Ok(())
}

/// A table, a path, how many lookups there are, and the first of them.
const TRACES: [(&str, &str, usize, &str); 8] = [
    (
        "/svc => /$/inet/127.0.0.1/8080",
        "/svc/a",
        2,
        "0 /svc/a bound;1 /$/inet/127.0.0.1/8080/a bound;",
    ),
    ("", "/svc", 1, "0 /svc negative;"),
    (
        "/s => /a | /b | /c; /b => /a | $",
        "/s",
        4,
        "0 /s empty;1 /a negative;1 /b empty;2 /a negative;",
    ),
    // A branch of weight 0 is not looked up; unions in unions; failing goes before empty.
    (
        "/s => 0 * /x & /a & 2 * (/b & ~); /a => !; /b => $",
        "/s",
        3,
        "0 /s failing;1 /a failing;1 /b empty;",
    ),
    (
        "/s => /a & /b; /a => /$/inet/127.0.0.1/1; /b => !",
        "/s",
        4,
        "0 /s bound;1 /a bound;2 /$/inet/127.0.0.1/1 bound;1 /b failing;",
    ),
    // A lookup that had not ended when something was too deep was too deep; one that had is as it
    // ended.
    (
        "/s => /b & /a & /c; /a => /a; /b => ~",
        "/s",
        101,
        "0 /s too-deep;1 /b negative;1 /a too-deep;2 /a too-deep;",
    ),
    (
        "/s => (~ | /b) | /a | /c; /a => /a; /b => /d",
        "/s",
        102,
        "0 /s too-deep;1 /b negative;2 /d negative;1 /a too-deep;",
    ),
    ("/s => ! | /a", "/s", 1, "0 /s failing;"),
];

/// The first four lookups of a path by a table in words, with the counts.
fn traced_text(alloc: Global, table: &str, path: &str) -> Result<(Vec<u8>, Counts), Fail> {
    let found = found_by(alloc, [table.as_bytes(), b"", b""], path, Wanted::Trace)?;
    let text = trace_text(alloc, found.trace.items());
    let counts = counts_of(&found);
    drop(found);
    Ok((text?, counts))
}

#[test]
fn traces(rt: HostRuntime) -> Result<(), Fail> {
    for (table, path, count, trace) in &TRACES {
        let (text, counts) = traced_text(rt.alloc(), table, path)?;
        let is_so = (text.as_slice(), counts.0 as usize, counts.1, counts.2)
            == (trace.as_bytes(), *count, 0, *count);
        drop(text);
        assert!(rt; is_so, "{path} in {table}");
    }
    Ok(())
}

/// A table that is made.
#[derive(Clone, Copy)]
enum Made {
    /// A chain of so many links.
    Chain(u32),
    /// Unions of two branches on so many levels.
    Unions(u32),
    /// Alternatives on twelve levels, with this entry behind them. `/aN` is looked up
    /// `2^(13 - N) - 1` times there.
    Levels(&'static str),
}

/// Puts a table that is made behind a text.
fn put_made(alloc: Global, table: Made, text: &mut Vec<u8>) -> Mem<()> {
    match table {
        Made::Chain(links) => put_chain(alloc, links, text),
        Made::Unions(levels) => {
            put_doubling(alloc, levels, "&", text)?;
            put(
                text,
                format!(in alloc; "/a{levels} => /$/inet/127.0.0.1/80"),
            )
        }
        Made::Levels(entry) => {
            put_doubling(alloc, 12, "|", text)?;
            text.extend_from_slice(entry.as_bytes())
        }
    }
}

/// The text of a table that is made.
fn made_text(alloc: Global, table: Made) -> Mem<Vec<u8>> {
    let mut text = Vec::new(alloc);
    put_made(alloc, table, &mut text)?;
    Ok(text)
}

/// An outcome in words, and the counts.
type Measured = (&'static str, Counts);

/// What a path comes to by a table in words, with its counts.
fn measured(alloc: Global, table: &[u8], path: &str, wanted: Wanted) -> Result<Measured, Fail> {
    let found = found_by(alloc, [table, b"", b""], path, wanted)?;
    let measured = (outcome_words(&found.outcome), counts_of(&found));
    drop(found);
    Ok(measured)
}

/// The same by a table that is made: with how many paths are told where those are wanted, and how
/// many lookups where these are. Before it stands the cost where paths are wanted.
fn measured_by(alloc: Global, table: Made, path: &str) -> Result<(u32, Measured), Fail> {
    let table = made_text(alloc, table)?;
    let (_outcome, asked) = measured(alloc, table.as_slice(), path, Wanted::Asked)?;
    let (outcome, traced) = measured(alloc, table.as_slice(), path, Wanted::Trace)?;
    drop(table);
    Ok((asked.0, (outcome, (traced.0, asked.1, traced.2))))
}

/// Chains of 100 lookups and 101, and unions of less than 10,000 and more: a table, a path, what it
/// comes to, and the counts.
const LIMITS: [(Made, &str, &str, Counts); 4] = [
    (Made::Chain(98), "/c0", "bound", (100, 100, 100)),
    (Made::Chain(99), "/c0", "too deep", (100, 100, 100)),
    (Made::Unions(11), "/a0", "bound", (6_143, 0, 6_143)),
    (Made::Unions(12), "/a0", "too wide", (10_001, 0, 0)),
];

#[test]
fn limits(rt: HostRuntime) -> Result<(), Fail> {
    for (table, path, outcome, counts) in &LIMITS {
        let seen = measured_by(rt.alloc(), *table, path)?;
        assert!(rt; seen == (counts.0, (*outcome, *counts)), "{path}: {seen:?}");
    }
    Ok(())
}

/// With the first lookup, these sums come to 255, 256, 257, 9,999, 10,000 and 10,001: an entry
/// behind twelve levels, what its path comes to, and the counts.
const SUMS: [(&str, &str, Counts); 6] = [
    ("/s => /a6 | /a6", "negative", (255, 255, 255)),
    ("/s => /a5", "negative", (256, 256, 256)),
    ("/s => /a5 | /a12", "negative", (257, 0, 257)),
    (
        "/s => /a0 | /a3 | /a4 | /a5 | /a9 | /a11",
        "negative",
        (9_999, 0, 9_999),
    ),
    (
        "/s => /a0 | /a3 | /a4 | /a5 | /a9 | /a11 | /a12",
        "negative",
        (10_000, 0, 10_000),
    ),
    (
        "/s => /a0 | /a3 | /a4 | /a5 | /a9 | /a11 | /a12 | /a12",
        "too wide",
        (10_001, 0, 0),
    ),
];

#[test]
fn sums(rt: HostRuntime) -> Result<(), Fail> {
    for (entry, outcome, counts) in &SUMS {
        let seen = measured_by(rt.alloc(), Made::Levels(*entry), "/s")?;
        assert!(rt;
            seen == (counts.0, (*outcome, *counts)),
            "{entry}: {seen:?}"
        );
    }
    Ok(())
}

/// The path of one label of so many bytes, as text.
fn long(alloc: Global, len: usize) -> Mem<String> {
    let mut text = String::from_str(alloc, "/")?;
    for _byte in 0..len {
        text.push('a')?;
    }
    Ok(text)
}

/// What such a path comes to without a table, with its counts.
fn measured_long(alloc: Global, len: usize) -> Result<Measured, Fail> {
    let path = long(alloc, len)?;
    let measured = measured(alloc, b"", path.as_str(), Wanted::Asked);
    drop(path);
    measured
}

/// How many bytes the label of a path has, what the path comes to without a table, and the counts.
const LONG: [(usize, Measured); 2] = [
    (2_047, ("negative", (1, 1, 0))),
    (2_048, ("too deep", (0, 0, 0))),
];

#[test]
fn long_paths(rt: HostRuntime) -> Result<(), Fail> {
    for (len, want) in &LONG {
        let seen = measured_long(rt.alloc(), *len)?;
        assert!(rt; seen == *want, "{len}: {seen:?}");
    }
    Ok(())
}
