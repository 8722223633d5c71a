//! Names, hosts, ports, address files and paths with their answers, the slots of a book from change
//! to change, and the limits.

use crate::told::assert_told;
use addr_book::{
    Addr, AddrFault, AddrList, Book, BookFault, Cluster, Leaf, Mem, Name, NameFault, ONE_WEIGHT,
    ReadyBook, Weighted, append_addr, name_answer, read_addrs, read_ip, read_port,
};
use name_tree::{append_path, read_path};
use std::alloc::{AllocGlobal, Global};
use std::process::Abort;
use std::test::Fail;
use text_parts::append_number;

/// Texts, and whether they are names.
const NAMES: [(&str, &str); 12] = [
    ("", "none"),
    ("web", "name"),
    ("Web-2_x.y:8080", "name"),
    ("_", "name"),
    ("a b", "none"),
    ("a/b", "none"),
    ("a%b", "none"),
    ("a\n", "none"),
    ("@a", "none"),
    ("[", "none"),
    ("{", "none"),
    ("\u{e9}", "none"),
];

/// Whether a text is a name.
fn kind(alloc: Global, text: &[u8]) -> &'static str {
    match Name::of(alloc, text) {
        Ok(name) => {
            if name.text() == text {
                "name"
            } else {
                "another name"
            }
        }
        Err(NameFault::NotName) => "none",
        Err(NameFault::OutOfMemory) => "memory",
    }
}

#[test]
fn names(rt: HostRuntime) {
    for (text, want) in &NAMES {
        assert!(rt; kind(rt.alloc(), text.as_bytes()) == *want, "{text:?}");
    }
}

/// Whether so many letters are a name.
fn long_kind(alloc: Global, count: usize) -> Mem<&'static str> {
    let text = Vec::from_elem(alloc, b'a', count)?;
    Ok(kind(alloc, text.as_slice()))
}

/// Numbers of letters, and whether so many are a name.
const LONG: [(usize, &str); 2] = [(255, "name"), (256, "none")];

#[test]
fn names_have_255_bytes(rt: HostRuntime) -> Result<(), Fail> {
    for (count, want) in &LONG {
        let kind = long_kind(rt.alloc(), *count)?;
        assert!(rt; kind == *want, "{count}");
    }
    Ok(())
}

/// Whether a name is below another, and whether they and a copy of the first are the same.
fn compared(alloc: Global, one: &str, other: &str) -> Result<(bool, bool, bool), NameFault> {
    let one = Name::of(alloc, one.as_bytes())?;
    let other = Name::of(alloc, other.as_bytes())?;
    let copy = one.clone()?;
    Ok((one < other, one == other, copy == one))
}

/// Two names, and what they are as against each other.
const COMPARED: [(&str, &str, (bool, bool, bool)); 4] = [
    ("web", "web", (false, true, true)),
    ("Web", "web", (true, false, true)),
    ("web", "web-1", (true, false, true)),
    ("web", "we", (false, false, true)),
];

#[test]
fn names_are_ordered_by_their_bytes(rt: HostRuntime) -> Result<(), Fail> {
    for (one, other, want) in &COMPARED {
        assert!(rt; compared(rt.alloc(), one, other)? == *want, "{one} {other}");
    }
    Ok(())
}

/// Puts an address behind a text, with `*` and its weight in millionths, unless that is one whole,
/// and a space.
fn put_item(item: &Weighted, text: &mut Vec<u8>) -> Mem<()> {
    append_addr(item.addr, text)?;
    if item.weight != ONE_WEIGHT {
        text.push(b'*')?;
        append_number(item.weight, text)?;
    }
    Ok(text.push(b' ')?)
}

/// Puts addresses behind a text in words.
fn put_list(items: &[Weighted], text: &mut Vec<u8>) -> Mem<()> {
    for item in items {
        put_item(item, text)?;
    }
    Ok(())
}

/// Addresses in words.
fn list_text(alloc: Global, items: &[Weighted]) -> Result<Vec<u8>, Fail> {
    let mut text = Vec::new(alloc);
    put_list(items, &mut text)?;
    Ok(text)
}

/// A fault of an address file in words.
fn fault_text(alloc: Global, fault: AddrFault) -> Result<Vec<u8>, Fail> {
    match fault {
        AddrFault::BadLine(line) => Ok(format!(in alloc; "bad {line}")?.into_bytes()),
        AddrFault::TooMany(count) => Ok(format!(in alloc; "too many {count}")?.into_bytes()),
        AddrFault::OutOfMemory => Err("out of memory".into()),
    }
}

/// What is read from an address file, in words: its addresses, or the fault.
fn file_text(alloc: Global, text: &[u8]) -> Result<Vec<u8>, Fail> {
    match read_addrs(alloc, text) {
        Ok(list) => list_text(alloc, list.items()),
        Err(fault) => fault_text(alloc, fault),
    }
}

/// An address file, and what is read from it.
type FileRow = (&'static str, &'static str);

/// Asserts that such is read from these files.
fn assert_files<R: AllocGlobal + Abort>(rt: &R, rows: &[FileRow]) -> Result<(), Fail> {
    for (text, answer) in rows {
        assert_told(rt, file_text(rt.alloc(), text.as_bytes()), answer)?;
    }
    Ok(())
}

/// Files with lines of all kinds, and blanks in them.
const LINES: [FileRow; 10] = [
    ("", ""),
    (
        "127.0.0.1 1\n\nlocalhost 1\n127.0.0.1 2\n",
        "127.0.0.1:1 127.0.0.1:2 ",
    ),
    (
        "127.0.0.1 1\n127.0.0.256 1\nlocalhost 1\n127.0.0.1 2\n",
        "bad 2",
    ),
    ("10.0.0.1 80", "10.0.0.1:80 "),
    ("10.0.0.1 80\r\n10.0.0.2 80\r\n", "10.0.0.1:80 10.0.0.2:80 "),
    ("10.0.0.1 80\r", "bad 1"),
    ("10.0.0.1 80\r\r\n", "bad 1"),
    ("\r\n \t\n10.0.0.1 80\n", "10.0.0.1:80 "),
    ("\r", "bad 1"),
    (" \t10.0.0.1\t \t80 \n", "10.0.0.1:80 "),
];

#[test]
fn reads_lines_of_address_files(rt: HostRuntime) -> Result<(), Fail> {
    assert_files(&rt, &LINES)
}

/// Files with addresses of all kinds, and such as are no addresses.
const ADDRS: [FileRow; 10] = [
    ("10.0.0.1\n", "bad 1"),
    ("10.0.0.1 80 90\n", "bad 1"),
    ("10.0.0.1:80\n", "bad 1"),
    ("\n\n10.0.0.1 0\n", "bad 3"),
    ("10.0.0.1 80\nx\ny\n", "bad 2"),
    ("80 10.0.0.1\n", "bad 1"),
    ("10.0.0.1 80\n\n\n", "10.0.0.1:80 "),
    ("10.0.0.1 65536\n", "bad 1"),
    (
        "10.0.0.2 1\n10.0.0.1 1\n10.0.0.2 1\n10.0.0.1 2\n10.0.0.1 1\n",
        "10.0.0.2:1 10.0.0.1:1 10.0.0.1:2 ",
    ),
    ("255.0.10.1 65535\n", "255.0.10.1:65535 "),
];

#[test]
fn reads_addresses_of_address_files(rt: HostRuntime) -> Result<(), Fail> {
    assert_files(&rt, &ADDRS)
}

/// Files with weights.
const WEIGHTS: [FileRow; 21] = [
    ("127.0.0.1 1 * 3\n", "127.0.0.1:1*3000000 "),
    ("127.0.0.1 1*.5\n", "127.0.0.1:1*500000 "),
    ("127.0.0.1 1 * 0.0000001\n", "bad 1"),
    ("127.0.0.1 1 * 0.000001\n", "127.0.0.1:1*1 "),
    ("127.0.0.1 1 * 0.0000019\n", "127.0.0.1:1*1 "),
    ("127.0.0.1 1 * 999999.999999\n", "127.0.0.1:1*999999999999 "),
    ("127.0.0.1 1 * 1000000\n", "bad 1"),
    ("127.0.0.1 1 * 0001.50\n", "127.0.0.1:1*1500000 "),
    ("127.0.0.1 1 * 1\n127.0.0.1 2\n", "127.0.0.1:1 127.0.0.1:2 "),
    ("\t127.0.0.1 \t1\t*\t 2 \t\r\n", "127.0.0.1:1*2000000 "),
    ("127.0.0.1 1* 2\n", "127.0.0.1:1*2000000 "),
    ("127.0.0.1 1 *2", "127.0.0.1:1*2000000 "),
    ("127.0.0.1 1 *\n", "bad 1"),
    ("127.0.0.1 1 * 0\n", "bad 1"),
    ("127.0.0.1 1 * 1.\n", "bad 1"),
    ("127.0.0.1 1 * .\n", "bad 1"),
    ("127.0.0.1 1 * -1\n", "bad 1"),
    ("127.0.0.1 1 * 2 * 3\n", "bad 1"),
    ("127.0.0.1 1 2\n", "bad 1"),
    ("127.0.0.1 * 2\n", "bad 1"),
    // A repeated address keeps its first place and its first weight.
    (
        "10.0.0.1 1 * 2\n10.0.0.2 1\n10.0.0.1 1 * 3\n10.0.0.2 1 * 4\n",
        "10.0.0.1:1*2000000 10.0.0.2:1 ",
    ),
];

#[test]
fn reads_weights_of_address_files(rt: HostRuntime) -> Result<(), Fail> {
    assert_files(&rt, &WEIGHTS)
}

/// Puts a line with a port of a host behind a text.
fn put_line(host: &str, port: u32, text: &mut Vec<u8>) -> Mem<()> {
    text.extend_from_slice(host.as_bytes())?;
    text.push(b' ')?;
    append_number(u64::from(port), text)?;
    Ok(text.push(b'\n')?)
}

/// Lines with so many ports of a host, from this one on, and an end.
fn lines(alloc: Global, host: &str, first: u32, count: u32, end: &str) -> Mem<Vec<u8>> {
    let mut text = Vec::new(alloc);
    for row in 0..count {
        put_line(host, first.saturating_add(row), &mut text)?;
    }
    text.extend_from_slice(end.as_bytes())?;
    Ok(text)
}

/// How many addresses a copy of those of a file has, or the fault.
fn count_text(alloc: Global, text: &[u8]) -> Result<Vec<u8>, Fail> {
    match read_addrs(alloc, text) {
        Ok(list) => Ok(format!(in alloc; "{}", list.clone()?.items().len())?.into_bytes()),
        Err(fault) => fault_text(alloc, fault),
    }
}

/// The same of 1,024 lines and an end.
fn full_text(alloc: Global, end: &str) -> Result<Vec<u8>, Fail> {
    let text = lines(alloc, "127.0.0.1", 1, 1_024, end)?;
    let count = count_text(alloc, text.as_slice());
    drop(text);
    count
}

/// What stands behind 1,024 lines, and what is read of them.
const ENDS: [(&str, &str); 3] = [
    ("", "1024"),
    ("127.0.0.1 1\n", "too many 1025"),
    ("127.0.0.1 1\n127.0.0.1\n", "bad 1026"),
];

#[test]
fn reads_1024_addresses(rt: HostRuntime) -> Result<(), Fail> {
    for (end, want) in &ENDS {
        assert_told(&rt, full_text(rt.alloc(), end), want)?;
    }
    Ok(())
}

/// Texts of hosts, and their addresses.
const HOSTS: [(&str, Option<u32>); 10] = [
    ("localhost", Some(0x7f00_0001)),
    ("Localhost", None),
    ("255.1.0.10", Some(0xff01_000a)),
    ("256.1.0.10", None),
    ("255.01.0.10", None),
    ("255.1.00.10", None),
    ("255..0.10", None),
    ("255.1.0", None),
    ("255.1.0.10.2", None),
    ("", None),
];

#[test]
fn hosts(rt: HostRuntime) {
    for (text, host) in &HOSTS {
        assert!(rt; read_ip(text.as_bytes()) == *host, "{text}");
    }
}

/// Texts of ports, and their numbers.
const PORTS: [(&str, Option<u16>); 8] = [
    ("0", None),
    ("1", Some(1)),
    ("080", None),
    ("65535", Some(65_535)),
    ("65536", None),
    ("4294967297", None),
    ("8o", None),
    ("", None),
];

#[test]
fn ports(rt: HostRuntime) {
    for (text, port) in &PORTS {
        assert!(rt; read_port(text.as_bytes()) == *port, "{text}");
    }
}

/// A service with the addresses of a text.
fn prepared_set(
    alloc: Global,
    book: &Book,
    service: &str,
    addrs: &[u8],
) -> Result<Result<ReadyBook, BookFault>, Fail> {
    let service = Name::of(alloc, service.as_bytes())?;
    let list = read_addrs(alloc, addrs)?;
    Ok(book.prepare_set(alloc, &service, &list))
}

/// A service that goes.
fn prepared_drop(
    alloc: Global,
    book: &Book,
    service: &str,
) -> Result<Result<ReadyBook, BookFault>, Fail> {
    let service = Name::of(alloc, service.as_bytes())?;
    Ok(book.prepare_drop(alloc, &service))
}

/// A book takes in what was prepared; the fault, where nothing was.
fn taken(book: &mut Book, prepared: Result<ReadyBook, BookFault>) -> Mem<Option<BookFault>> {
    match prepared {
        Ok(ready) => {
            book.absorb(&ready)?;
            Ok(None)
        }
        Err(fault) => Ok(Some(fault)),
    }
}

/// Sets the addresses of a service.
fn set(
    alloc: Global,
    book: &mut Book,
    service: &str,
    addrs: &[u8],
) -> Result<Option<BookFault>, Fail> {
    let prepared = prepared_set(alloc, book, service, addrs)?;
    Ok(taken(book, prepared)?)
}

/// Drops a service.
fn drop_service(alloc: Global, book: &mut Book, service: &str) -> Result<Option<BookFault>, Fail> {
    let prepared = prepared_drop(alloc, book, service)?;
    Ok(taken(book, prepared)?)
}

/// The address of 127.0.0.1 with a port.
fn at_port(port: u16) -> Addr {
    Addr {
        ip: 0x7f00_0001,
        port,
    }
}

/// Puts a slot and a space behind a text; `-` where there is none.
fn put_slot(slot: Option<u32>, text: &mut Vec<u8>) -> Mem<()> {
    match slot {
        Some(slot) => append_number(u64::from(slot), text)?,
        None => text.push(b'-')?,
    }
    Ok(text.push(b' ')?)
}

/// Ports of 127.0.0.1.
const SEATED: [u16; 7] = [10, 20, 30, 40, 50, 60, 70];

/// Their slots.
fn slots(alloc: Global, book: &Book) -> Mem<Vec<u8>> {
    let mut text = Vec::new(alloc);
    for port in &SEATED {
        put_slot(book.slot(at_port(*port)), &mut text)?;
    }
    Ok(text)
}

/// Ports of 127.0.0.1, as an address file.
fn file_of(alloc: Global, ports: &[u16]) -> Mem<Vec<u8>> {
    let mut text = Vec::new(alloc);
    for port in ports {
        put_line("127.0.0.1", u32::from(*port), &mut text)?;
    }
    Ok(text)
}

/// What is done with a service.
#[derive(Clone, Copy)]
enum Act {
    Set,
    Remove,
}

/// Sets a service's ports, or drops it.
fn changed(
    alloc: Global,
    book: &mut Book,
    service: &str,
    act: Act,
    ports: &[u16],
) -> Result<Option<BookFault>, Fail> {
    match act {
        Act::Set => set(alloc, book, service, file_of(alloc, ports)?.as_slice()),
        Act::Remove => drop_service(alloc, book, service),
    }
}

/// The same, and the slots behind that.
fn slots_after(
    alloc: Global,
    book: &mut Book,
    service: &str,
    act: Act,
    ports: &[u16],
) -> Result<Vec<u8>, Fail> {
    match changed(alloc, book, service, act, ports)? {
        None => Ok(slots(alloc, book)?),
        Some(BookFault::Missing) => Ok(b"missing".to_vec(alloc)?),
        Some(_) => Ok(b"refused".to_vec(alloc)?),
    }
}

/// Each change, with the ports of a service that is set, and the slots behind it.
const CHANGES: [(&str, Act, &[u16], &str); 7] = [
    ("web", Act::Set, &[30, 10, 20], "1 2 0 - - - - "),
    // 10 leaves, 20 and 30 stay in another order, and two come, of which the first takes the slot
    // of 10.
    ("web", Act::Set, &[50, 20, 40, 30], "- 2 0 3 1 - - "),
    // An address of two services stays until both are gone.
    ("mail", Act::Set, &[20, 60], "- 2 0 3 1 4 - "),
    ("web", Act::Remove, &[], "- 2 - - - 4 - "),
    ("chat", Act::Set, &[70, 30], "- 2 1 - - 4 0 "),
    ("mail", Act::Set, &[], "- - 1 - - - 0 "),
    ("gone", Act::Remove, &[], "missing"),
];

/// Asserts that these changes of a book leave such slots.
fn assert_slots<R: AllocGlobal + Abort>(rt: &R, book: &mut Book) -> Result<(), Fail> {
    for (service, act, ports, want) in &CHANGES {
        assert_told(
            rt,
            slots_after(rt.alloc(), book, service, *act, ports),
            want,
        )?;
    }
    Ok(())
}

#[test]
fn keeps_slots_and_frees_them(rt: HostRuntime) -> Result<(), Fail> {
    let mut book = Book::start(rt.alloc())?;
    let asserted = assert_slots(&rt, &mut book);
    let count = book.count();
    drop(book);
    asserted?;
    assert_eq!(rt; count, 2);
    Ok(())
}

/// Puts a service's addresses behind a text in words, if it is there.
fn put_found(items: Option<&[Weighted]>, text: &mut Vec<u8>) -> Mem<()> {
    match items {
        Some(items) => put_list(items, text),
        None => text.extend_from_slice(b"none"),
    }
}

/// Puts behind a text how many services there are, and the addresses of `web` in words.
fn put_web(alloc: Global, book: &Book, text: &mut Vec<u8>) -> Result<(), Fail> {
    append_number(book.count() as u64, text)?;
    text.push(b' ')?;
    let web = Name::of(alloc, b"web")?;
    let put = put_found(book.cluster(&web), text);
    drop(web);
    Ok(put?)
}

/// What two books say of `web`, with `|` between them.
fn both_texts(alloc: Global, one: &Book, other: &Book) -> Result<Vec<u8>, Fail> {
    let mut text = Vec::new(alloc);
    put_web(alloc, one, &mut text)?;
    text.push(b'|')?;
    put_web(alloc, other, &mut text)?;
    Ok(text)
}

/// Two books take in a change.
fn absorb_twice(one: &mut Book, other: &mut Book, ready: &ReadyBook) -> Mem<()> {
    one.absorb(ready)?;
    other.absorb(ready)
}

/// Prepares a change of `web` on the first of two books. What they say before both take it in.
fn taken_twice(
    alloc: Global,
    one: &mut Book,
    other: &mut Book,
    addrs: &[u8],
) -> Result<Vec<u8>, Fail> {
    let ready = match prepared_set(alloc, one, "web", addrs)? {
        Ok(ready) => ready,
        Err(fault) => return Err(fault.into()),
    };
    let before = both_texts(alloc, one, other);
    let absorbed = absorb_twice(one, other, &ready);
    drop(ready);
    let before = before?;
    absorbed?;
    Ok(before)
}

/// Asserts that a change that is prepared does nothing until a book absorbs it, and that either of
/// two books may.
fn assert_absorbed<R: AllocGlobal + Abort>(
    rt: &R,
    one: &mut Book,
    other: &mut Book,
) -> Result<(), Fail> {
    let addrs = b"127.0.0.1 3\n127.0.0.1 1";
    assert_told(
        rt,
        taken_twice(rt.alloc(), one, other, addrs),
        "0 none|0 none",
    )?;
    let told = both_texts(rt.alloc(), one, other);
    assert_told(
        rt,
        told,
        "1 127.0.0.1:3 127.0.0.1:1 |1 127.0.0.1:3 127.0.0.1:1 ",
    )?;
    set(rt.alloc(), one, "web", b"")?;
    drop_service(rt.alloc(), other, "web")?;
    assert_told(rt, both_texts(rt.alloc(), one, other), "1 |0 none")
}

#[test]
fn books_absorb_what_was_prepared(rt: HostRuntime) -> Result<(), Fail> {
    let mut one = Book::start(rt.alloc())?;
    let mut other = Book::start(rt.alloc())?;
    let asserted = assert_absorbed(&rt, &mut one, &mut other);
    drop(one);
    drop(other);
    asserted
}

/// Puts the address or the service of a leaf behind a text.
fn put_cluster(cluster: &Cluster, text: &mut Vec<u8>) -> Mem<()> {
    match cluster {
        Cluster::Inet(addr) => append_addr(*addr, text),
        Cluster::Fs(service) => text.extend_from_slice(service.text()),
    }
}

/// What a path names in words: the address or the service, the client path and the residual.
fn leaf_text(alloc: Global, leaf: &Leaf) -> Mem<Vec<u8>> {
    let mut text = Vec::new(alloc);
    put_cluster(&leaf.cluster, &mut text)?;
    text.push(b' ')?;
    append_path(&leaf.client, &mut text)?;
    text.push(b' ')?;
    append_path(&leaf.residual, &mut text)?;
    Ok(text)
}

/// The same, where a path names something.
fn answer_text(alloc: Global, answer: &Option<Leaf>) -> Mem<Vec<u8>> {
    match answer {
        Some(leaf) => leaf_text(alloc, leaf),
        None => b"nothing".to_vec(alloc),
    }
}

/// What a path names in a book, in words.
fn named(alloc: Global, book: &Book, path: &str) -> Result<Vec<u8>, Fail> {
    let path = read_path(alloc, path.as_bytes())?;
    let answer = name_answer(alloc, book, &path)?;
    let text = answer_text(alloc, &answer);
    drop(answer);
    Ok(text?)
}

/// Paths, and what they name in a book with the service `web`, which has no address.
const PATHS: [(&str, &str); 14] = [
    ("/#/io.l5d.fs/web", "web /#/io.l5d.fs/web /"),
    ("/#/io.l5d.fs/web/a/b", "web /#/io.l5d.fs/web /a/b"),
    ("/#/io.l5d.fs/mail", "nothing"),
    ("/#/io.l5d.fs/We", "nothing"),
    ("/#/io.l5d.fs/w\\x2fb", "nothing"),
    ("/#/io.l5d.fs", "nothing"),
    ("/#/io.l5d.consul/web", "nothing"),
    ("/$/io.l5d.fs/web", "nothing"),
    (
        "/$/inet/127.0.0.1/9/a",
        "127.0.0.1:9 /$/inet/127.0.0.1/9 /a",
    ),
    (
        "/$/inet/localhost/65535",
        "127.0.0.1:65535 /$/inet/localhost/65535 /",
    ),
    ("/$/inet/127.0.0.1/0", "nothing"),
    ("/$/inet/127.0.0.1", "nothing"),
    ("/#/inet/127.0.0.1/9", "nothing"),
    ("/", "nothing"),
];

/// Asserts that these paths name such in a book without services, once it has `web`; and that this
/// one names nothing behind that.
fn assert_named<R: AllocGlobal + Abort>(rt: &R, book: &mut Book) -> Result<(), Fail> {
    set(rt.alloc(), book, "web", b"")?;
    for (path, answer) in &PATHS {
        assert_told(rt, named(rt.alloc(), book, path), answer)?;
    }
    drop_service(rt.alloc(), book, "web")?;
    assert_told(rt, named(rt.alloc(), book, "/#/io.l5d.fs/web"), "nothing")
}

#[test]
fn names_addresses_and_services(rt: HostRuntime) -> Result<(), Fail> {
    let mut book = Book::start(rt.alloc())?;
    let asserted = assert_named(&rt, &mut book);
    drop(book);
    asserted
}

/// Sets the service of a letter and a number.
fn set_numbered(
    alloc: Global,
    book: &mut Book,
    letter: &str,
    part: u32,
    addrs: &[u8],
) -> Result<(), Fail> {
    let service = format!(in alloc; "{letter}{part}")?;
    let set = set(alloc, book, service.as_str(), addrs);
    drop(service);
    set?;
    Ok(())
}

/// The 1,024 first ports of the host of a number, as an address file.
fn full_file(alloc: Global, part: u32) -> Mem<Vec<u8>> {
    let host = format!(in alloc; "10.0.0.{part}")?;
    let addrs = lines(alloc, host.as_str(), 1, 1_024, "");
    drop(host);
    addrs
}

/// Sets services, `s1` and so on, each with the 1,024 first ports of a host of its own.
fn set_full(alloc: Global, book: &mut Book, count: u32) -> Result<(), Fail> {
    for part in 1..count.saturating_add(1) {
        let addrs = full_file(alloc, part)?;
        let set = set_numbered(alloc, book, "s", part, addrs.as_slice());
        drop(addrs);
        set?;
    }
    Ok(())
}

/// Sets services without an address, `t1` and so on.
fn set_empty(alloc: Global, book: &mut Book, count: u32) -> Result<(), Fail> {
    for part in 1..count.saturating_add(1) {
        set_numbered(alloc, book, "t", part, b"")?;
    }
    Ok(())
}

/// A service, the host of its addresses, the first port, how many there are, and why the book
/// refuses them.
type Row = (&'static str, &'static str, u32, u32, Option<BookFault>);

/// Sets the services of some rows, in their order. The first that did not come to what its row
/// says.
fn first_wrong(alloc: Global, book: &mut Book, rows: &[Row]) -> Result<Option<usize>, Fail> {
    for (at, (service, host, first, count, want)) in rows.iter().enumerate() {
        let addrs = lines(alloc, host, *first, *count, "")?;
        let fault = set(alloc, book, service, addrs.as_slice());
        drop(addrs);
        if fault? != *want {
            return Ok(Some(at));
        }
    }
    Ok(None)
}

/// The same behind services with 8,192 addresses, and so many without one. How many services there
/// were before the rows, too.
fn first_wrong_in_full(
    alloc: Global,
    book: &mut Book,
    empty: u32,
    rows: &[Row],
) -> Result<(usize, Option<usize>), Fail> {
    set_full(alloc, book, 8)?;
    set_empty(alloc, book, empty)?;
    let count = book.count();
    Ok((count, first_wrong(alloc, book, rows)?))
}

const FULL: Option<BookFault> = Some(BookFault::BookFull(8_193));

const MANY: Option<BookFault> = Some(BookFault::TooManyServices);

const ADDRESSES: [Row; 5] = [
    ("extra", "127.0.0.1", 1, 1, FULL),
    ("extra", "10.0.0.1", 1, 1_024, None),
    ("s1", "127.0.0.1", 1, 1, FULL),
    ("extra", "10.0.0.1", 1, 0, None),
    ("s1", "127.0.0.1", 1, 1, None),
];

/// 8,192 addresses are there. One more is too many, and an old one in place of another is not.
#[test]
fn a_book_has_8192_addresses(rt: HostRuntime) -> Result<(), Fail> {
    let mut book = Book::start(rt.alloc())?;
    let told = first_wrong_in_full(rt.alloc(), &mut book, 0, &ADDRESSES);
    let slot = book.slot(at_port(1));
    drop(book);
    let (count, wrong) = told?;
    assert_eq!(rt; (count, wrong, slot), (8, None, Some(0)));
    Ok(())
}

const SERVICES: [Row; 5] = [
    ("t4088", "10.0.0.1", 1, 1_023, None),
    ("last", "127.0.0.1", 1, 0, MANY),
    ("last", "127.0.0.1", 2, 1, MANY),
    ("t1", "127.0.0.1", 2, 1, FULL),
    ("t1", "10.0.0.2", 1, 1, None),
];

/// 4,096 services are there, and 8,192 addresses. Where an address is too many besides, the service
/// is told.
#[test]
fn a_book_has_4096_services(rt: HostRuntime) -> Result<(), Fail> {
    let mut book = Book::start(rt.alloc())?;
    let told = first_wrong_in_full(rt.alloc(), &mut book, 4_087, &SERVICES);
    let last = book.count();
    drop(book);
    let (count, wrong) = told?;
    assert_eq!(rt; (count, wrong, last), (4_095, None, 4_096));
    Ok(())
}
