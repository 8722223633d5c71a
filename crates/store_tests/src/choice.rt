//! Marks and their moments, live lists, pairs by weight, loads, and the branches that words choose.
ghost use Rattle.std.specs.Prelude.{◌≡◌, ◌≤◌, ◌<◌, ◌^◌, IfOk};
ghost use Rattle.choose_core.specs.Good.{IsGood};

use addr_book::{
    Addr, Book, Bound, BoundItem, BoundList, Cluster, Leaf, Name, Weighted, read_addrs,
};
use choose_core::*;
use name_tree::read_path;
use std::alloc::Global;
use std::test::Fail;

const LIMITS: Limits = Limits {
    failures: 5,
    backoff: 5_000,
};

/// Half of all words.
const HALF: u64 = 1 << 63;

/// An address of this machine.
fn at_port(port: u16) -> Addr {
    Addr {
        ip: 0x7f00_0001,
        port,
    }
}

/// A mark after failures at one moment.
fn failed(mark: Mark, times: u32, moment: u64) -> Mark {
    let mut mark = mark;
    for _turn in 0..times {
        mark = mark.after(false, moment, LIMITS);
    }
    mark
}

/// A number of failures at one moment, and then of others at a later one; and the mark that they
/// leave, by its count and its moment.
const MARKS: [((u32, u64), (u32, u64), (u32, u64)); 4] = [
    ((4, 0), (0, 0), (4, 0)),
    ((5, 0), (0, 0), (5, 5_000)),
    ((5, 0), (1, 6_000), (5, 11_000)),
    ((5, 0), (1, u64::MAX - 10), (5, u64::MAX)),
];

/// The count and the moment of the mark that failures leave.
fn left(first: (u32, u64), later: (u32, u64)) -> (u32, u64) {
    let mark = failed(failed(Mark::NONE, first.0, first.1), later.0, later.1);
    (mark.count, mark.until)
}

#[test]
fn marks_stop_at_the_limit_and_stay_past_the_moment(rt: HostRuntime) {
    for (first, later, want) in &MARKS {
        assert!(rt; left(*first, *later) == *want);
    }
    let dead = failed(Mark::NONE, 5, 0);
    assert!(rt; dead.is_dead(4_999, LIMITS) && !dead.is_dead(5_000, LIMITS));
    assert!(rt; dead.after(true, 6_001, LIMITS) == Mark::NONE);
}

/// Failing reports on an address, where there is room for its mark.
#[tactic(auto, using(choose_core::proofs::Finding::fewer_others))]
fn fail(marks: &mut Marks, port: u16, times: u32) {
    for _turn in 0..times {
        if marks.count() < 8192 {
            marks.report(at_port(port), false, 0, LIMITS);
        }
    }
}

/// Sets these addresses of the service `web`, where there are some.
fn set_web(alloc: Global, book: &mut Book, addrs: &[u8]) -> Result<(), Fail> {
    if addrs.is_empty() {
        return Ok(());
    }
    let list = read_addrs(alloc, addrs)?;
    let web = Name::of(alloc, b"web")?;
    let prepared = book.prepare_set(alloc, &web, &list);
    drop(web);
    drop(list);
    let ready = prepared?;
    let absorbed = book.absorb(&ready);
    drop(ready);
    Ok(absorbed?)
}

/// A book with one service, `web`, with these addresses; where there are none, a book with no
/// service.
fn book_with(alloc: Global, addrs: &[u8]) -> Result<Book, Fail> {
    let mut book = Book::start(alloc)?;
    match set_web(alloc, &mut book, addrs) {
        Ok(()) => Ok(book),
        Err(error) => {
            drop(book);
            Err(error)
        }
    }
}

/// The addresses of the book whose marks are kept, one after the other; and then how many marks
/// there are, and how often the ports 1 and 4 have failed.
const KEPT: [(&str, (u32, u32, u32)); 3] = [
    ("127.0.0.1 4", (1, 0, 2)),
    ("", (0, 0, 0)),
    // An address that comes back has no failures.
    ("127.0.0.1 4", (0, 0, 0)),
];

/// How many marks there are, and how often the ports 1 and 4 have failed.
fn counts_of(marks: &Marks) -> (u32, u32, u32) {
    let (one, four) = (marks.mark(at_port(1)), marks.mark(at_port(4)));
    (marks.count(), one.count, four.count)
}

/// The same once marks are kept that the book with these addresses has.
fn kept(alloc: Global, marks: &mut Marks, addrs: &[u8]) -> Result<(u32, u32, u32), Fail> {
    let book = book_with(alloc, addrs)?;
    marks.keep(&book);
    drop(book);
    Ok(counts_of(marks))
}

#[test]
fn keeps_the_marks_of_the_book(rt: HostRuntime) -> Result<(), Fail> {
    let mut marks = Marks::start(rt.alloc())?;
    fail(&mut marks, 4, 2);
    fail(&mut marks, 1, 1);
    assert!(rt; counts_of(&marks) == (2, 1, 2));
    for (addrs, want) in &KEPT {
        assert!(rt;
            kept(rt.alloc(), &mut marks, addrs.as_bytes())? == *want,
            "{addrs}"
        );
    }
    Ok(())
}

/// The places that two words draw among addresses with these ports, which are those that the port 3
/// leaves alive.
fn drawn(
    alloc: Global,
    marks: &Marks,
    addrs: &[u8],
    w1: u64,
    w2: u64,
) -> Result<(usize, usize), Fail> {
    let list = read_addrs(alloc, addrs)?;
    let items = list.items();
    if items.is_empty() {
        return Err("no address".into());
    }
    Ok(pair(items, marks, 0, LIMITS, w1, w2))
}

/// Three addresses, two of which the first has three times the weight, and three of which the third
/// does.
const THREE: &str = "127.0.0.1 1\n127.0.0.1 2\n127.0.0.1 3";

const FIRST: &str = "127.0.0.1 1 * 3\n127.0.0.1 2";

const THIRD: &str = "127.0.0.1 1\n127.0.0.1 2\n127.0.0.1 3 * 3";

/// Addresses, two words, and the places that they draw.
const DRAWN: [(&str, u64, u64, (usize, usize)); 7] = [
    (THREE, u64::MAX, u64::MAX, (2, 1)),
    ("127.0.0.1 1\n127.0.0.1 2", 0, 0, (0, 1)),
    ("127.0.0.1 1", 5, 5, (0, 0)),
    (FIRST, 13_835_058_055_282_163_711, 0, (0, 1)),
    (FIRST, 13_835_058_055_282_163_712, 0, (1, 0)),
    // The third weighs three quarters of what is left without the second.
    (THIRD, 1 << 62, (1 << 62) - 1, (1, 0)),
    (THIRD, 1 << 62, 1 << 62, (1, 2)),
];

#[test]
fn draws_two_places_by_weight(rt: HostRuntime) -> Result<(), Fail> {
    let marks = Marks::start(rt.alloc())?;
    for (addrs, first, second, want) in &DRAWN {
        let drawn = drawn(rt.alloc(), &marks, addrs.as_bytes(), *first, *second)?;
        assert!(rt; drawn == *want, "{addrs} by {first}");
    }
    Ok(())
}

/// Of three addresses of which the second is dead before the moment 5,000: how many are left before
/// it, and the port of the second that is left, before it and at it. And how many are left where
/// all are dead: then all take part.
fn left_alive(list: &[Weighted], marks: &mut Marks) -> (usize, u16, u16, usize) {
    fail(marks, 2, 5);
    let before = live_count(list, marks, 4_999, LIMITS);
    let second = port_at(list, marks, 4_999, 1);
    let revived = port_at(list, marks, 5_000, 1);
    fail(marks, 1, 5);
    fail(marks, 3, 5);
    (before, second, revived, live_count(list, marks, 0, LIMITS))
}

#[test]
fn leaves_dead_addresses_out(rt: HostRuntime) -> Result<(), Fail> {
    let list = read_addrs(rt.alloc(), THREE.as_bytes())?;
    let mut marks = Marks::start(rt.alloc())?;
    let left = left_alive(list.items(), &mut marks);
    drop(list);
    drop(marks);
    assert_eq!(rt; left, (2, 3, 2, 3));
    Ok(())
}

/// The port at a place of a live list, 0 where there is none.
fn port_at(list: &[Weighted], marks: &Marks, moment: u64, at: usize) -> u16 {
    if at < live_count(list, marks, moment, LIMITS) {
        live_at(list, marks, moment, LIMITS, at).addr.port
    } else {
        0
    }
}

#[test]
fn compares_loads_by_weight(rt: HostRuntime) {
    assert!(rt; lesser(2, 3_000_000, 1, 1_000_000));
    assert!(rt; lesser(3, 3_000_000, 1, 1_000_000));
    assert!(rt; !lesser(4, 3_000_000, 1, 1_000_000));
}

/// A leaf at an address, or at a service.
fn leaf(alloc: Global, cluster: Cluster) -> Result<Bound, Fail>
    ensures { IfOk result IsGood }
{
    Ok(Bound::One(Leaf {
        cluster,
        client: read_path(alloc, b"/a")?,
        residual: read_path(alloc, b"/")?,
    }))
}

/// A union of two branches.
fn union_of_two(
    alloc: Global,
    weight: u64,
    bound: Bound,
    other_weight: u64,
    other: Bound,
) -> Result<Bound, Fail>
    requires weight { (1 ≤ weight) × (weight < 10 ^ 12) }
    requires other_weight { (1 ≤ other_weight) × (other_weight < 10 ^ 12) }
    requires good { IsGood bound }
    requires other_good { IsGood other }
    ensures { IfOk result IsGood }
{
    let mut items = Vec::new(alloc);
    items.push(BoundItem { weight, bound })?;
    items.push(BoundItem {
        weight: other_weight,
        bound: other,
    })?;
    Ok(Bound::Many(BoundList::of(items)))
}

/// The port of the leaf that a word chooses; 0 for a service, and `None` where nothing is left.
fn port_of(bound: &Bound, book: &Book, word: u64) -> Option<u16>
    requires { IsGood bound.now }
{
    match branch(bound, book, word) {
        None => None,
        Some(leaf) => match &leaf.cluster {
            Cluster::Inet(addr) => Some(addr.port),
            Cluster::Fs(_) => Some(0),
        },
    }
}

/// The first of some words that chooses another port than the one beside it.
fn first_wrong(bound: &Bound, book: &Book, rows: &[(u64, u16)]) -> Option<u64>
    requires { IsGood bound.now }
{
    for (word, port) in rows {
        if port_of(bound, book, *word) != Some(*port) {
            return Some(*word);
        }
    }
    None
}

/// The same in a book without services.
fn first_wrong_of(alloc: Global, bound: &Bound, rows: &[(u64, u16)]) -> Result<Option<u64>, Fail>
    requires { IsGood bound.now }
{
    let book = Book::start(alloc)?;
    let wrong = first_wrong(bound, &book, rows);
    drop(book);
    Ok(wrong)
}

/// A union of the port 1, of weight 0.3, and the port 2, of weight 0.7.
fn two_ports(alloc: Global) -> Result<Bound, Fail>
    ensures { IfOk result IsGood }
{
    let one = leaf(alloc, Cluster::Inet(at_port(1)))?;
    let two = leaf(alloc, Cluster::Inet(at_port(2)))?;
    union_of_two(alloc, 300_000, one, 700_000, two)
}

/// A union of a leaf and the two ports.
fn beside_ports(
    alloc: Global,
    weight: u64,
    cluster: Cluster,
    ports_weight: u64,
) -> Result<Bound, Fail>
    requires weight { (1 ≤ weight) × (weight < 10 ^ 12) }
    requires ports_weight { (1 ≤ ports_weight) × (ports_weight < 10 ^ 12) }
    ensures { IfOk result IsGood }
{
    let one = leaf(alloc, cluster)?;
    let ports = two_ports(alloc)?;
    union_of_two(alloc, weight, one, ports_weight, ports)
}

/// Words, and the ports that they choose in a union of a service that is gone, with a great weight,
/// and the two ports, with the weight 2. The weight of the branch of which nothing is left does not
/// count. The other one, of weight 2, uses up its part of the word: twice the word, without
/// what is above 2^64, goes on to the union below.
const LEFT: [(u64, u16); 5] = [
    (0, 1),
    (2_767_011_611_056_432_742, 1),
    (2_767_011_611_056_432_743, 2),
    (HALF - 1, 2),
    (HALF, 1),
];

#[test]
fn chooses_a_branch_of_those_that_are_left(rt: HostRuntime) -> Result<(), Fail> {
    let gone = Name::of(rt.alloc(), b"gone")?;
    let bound = beside_ports(rt.alloc(), 900_000_000_000, Cluster::Fs(gone), 2)?;
    let wrong = first_wrong_of(rt.alloc(), &bound, &LEFT);
    drop(bound);
    assert_eq!(rt; wrong?, None);
    Ok(())
}

/// Words, and the ports that they choose in a union of the port 3 and the two ports, with weights
/// alike.
const BELOW: [(u64, u16); 6] = [
    (0, 3),
    (HALF - 1, 3),
    (HALF, 1),
    (HALF + 2_767_011_611_056_432_742, 1),
    (HALF + 2_767_011_611_056_432_743, 2),
    (u64::MAX, 2),
];

#[test]
fn chooses_in_the_union_below_with_what_is_left_of_the_word(rt: HostRuntime) -> Result<(), Fail> {
    let bound = beside_ports(rt.alloc(), 1, Cluster::Inet(at_port(3)), 1)?;
    let wrong = first_wrong_of(rt.alloc(), &bound, &BELOW);
    drop(bound);
    assert_eq!(rt; wrong?, None);
    Ok(())
}
