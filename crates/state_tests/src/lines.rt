//! Lines at their limits, and replies.
use crate::given::{path, table};
use crate::state::answer_text;
use addr_book::{Addr, Name};
use choose_core::Mark;
use machine::{Change, Chosen, NameList, Reply, Why};
use script::{Bytes, Line, LineFault, Mem, Said, read_line, script_settings, storm};
use std::alloc::Global;
use std::test::Fail;

/// What kind of line this is.
fn kind_of(line: &Line) -> &'static str {
    match line {
        Line::Blank => "blank",
        Line::Table(_) => "table",
        Line::Change(_) => "change",
        Line::Look(_) => "look",
        Line::Ask(_) => "ask",
    }
}

/// What kind of line a text is.
fn kind(alloc: Global, line: &[u8]) -> &'static str {
    match read_line(alloc, line) {
        Ok(line) => {
            let kind = kind_of(&line);
            drop(line);
            kind
        }
        Err(LineFault::BadLine) => "bad",
        Err(LineFault::OutOfMemory) => "memory",
    }
}

/// Lines, and of what kind they are.
const LINES: [(&str, &str); 22] = [
    (" \t\r", "blank"),
    ("dtab", "table"),
    ("\tcreate web /svc => /a ", "change"),
    ("put web * ", "change"),
    ("delete web 18446744073709551615 ", "change"),
    ("addrs web 127.0.0.1:1*0.5 localhost:2", "change"),
    ("list", "look"),
    ("view /svc/a", "look"),
    ("pick /a 0 1 2 3", "ask"),
    ("pick", "bad"),
    ("delete web 18446744073709551616", "bad"),
    ("addrs web 127.0.0.1:1* 0.5", "bad"),
    // A moment has all three words behind it.
    ("pick /a 0", "bad"),
    ("pick /a 0 1", "bad"),
    ("pick /a 0 1 2", "bad"),
    // Numbers have no leading zeros, and are below 2^64.
    ("pick /a 00 1 2 3", "bad"),
    ("pick /a 0 1 2 03", "bad"),
    ("pick /a 0 1 2 18446744073709551616", "bad"),
    ("put web 01", "bad"),
    ("fail 127.0.0.1:1 01", "bad"),
    ("good 127.0.0.1:1 18446744073709551616", "bad"),
    ("addrs web 127.0.0.1:01", "bad"),
];

#[test]
fn tells_lines_apart(rt: HostRuntime) {
    for (line, want) in &LINES {
        assert!(rt; kind(rt.alloc(), line.as_bytes()) == *want, "{line:?}");
    }
}

/// Puts a byte so many times behind a line.
fn put_times(alloc: Global, byte: u8, count: usize, line: &mut Bytes) -> Mem<()> {
    let mut bytes = Vec::from_elem(alloc, byte, count)?;
    let put = line.append(&mut bytes);
    drop(bytes);
    put
}

/// A line of a command, then so many blanks, a byte so many times, and a blank at the end.
fn long_line(alloc: Global, command: &str, blanks: usize, byte: u8, count: usize) -> Mem<Bytes> {
    let mut line = Vec::from_slice(alloc, command.as_bytes())?;
    put_times(alloc, b' ', blanks, &mut line)?;
    put_times(alloc, byte, count, &mut line)?;
    line.push(b' ')?;
    Ok(line)
}

/// Commands, how many blanks stand behind them, a byte and how often it stands behind those, and of
/// what kind the lines are. Names have at most 255 bytes. Tables, of which `;` are one with no
/// entry, are measured from their first byte on.
const LONG_LINES: [(&str, usize, u8, usize, &str); 8] = [
    ("drop", 1, b'a', 255, "change"),
    ("drop", 1, b'a', 256, "bad"),
    ("create web", 9, b';', 65_535, "change"),
    ("create web", 1, b';', 65_536, "bad"),
    ("put web *", 9, b';', 65_535, "change"),
    ("put web *", 1, b';', 65_536, "bad"),
    ("pick /a 0 0 0 0", 9, b';', 65_535, "ask"),
    ("pick /a 0 0 0 0", 1, b';', 65_536, "bad"),
];

#[test]
fn measures_names_and_tables(rt: HostRuntime) -> Result<(), Fail> {
    for (command, blanks, byte, count, want) in &LONG_LINES {
        let line = long_line(rt.alloc(), command, *blanks, *byte, *count)?;
        let kind = kind(rt.alloc(), line.as_slice());
        drop(line);
        assert!(rt; kind == *want, "{command}, {count}");
    }
    Ok(())
}

/// A line with so many addresses, all the same.
fn addrs_line(alloc: Global, count: usize) -> Mem<Bytes> {
    let mut line = Vec::from_slice(alloc, b"addrs web")?;
    for _addr in 0..count {
        line.extend_from_slice(b" 127.0.0.1:1")?;
    }
    Ok(line)
}

/// How many addresses a service gets by a line.
fn addrs_in(line: &Line) -> Result<Option<usize>, Fail> {
    match line {
        Line::Change(Change::SetAddrs { list, .. }) => Ok(Some(list.items().len())),
        _ => Err("another line".into()),
    }
}

/// The same by a text; nothing where it is none that is good.
fn addrs_by(alloc: Global, text: &[u8]) -> Result<Option<usize>, Fail> {
    match read_line(alloc, text) {
        Ok(line) => {
            let addrs = addrs_in(&line);
            drop(line);
            addrs
        }
        Err(LineFault::BadLine) => Ok(None),
        Err(LineFault::OutOfMemory) => Err("out of memory".into()),
    }
}

/// How many addresses a service gets by a line with so many, where it is none that is bad.
fn count_of(alloc: Global, count: usize) -> Result<Option<usize>, Fail> {
    let line = addrs_line(alloc, count)?;
    let addrs = addrs_by(alloc, line.as_slice());
    drop(line);
    addrs
}

#[test]
fn takes_1024_addresses(rt: HostRuntime) -> Result<(), Fail> {
    for (count, want) in [(1_024, Some(1)), (1_025, None)] {
        assert!(rt; count_of(rt.alloc(), count)? == want, "{count}");
    }
    Ok(())
}

/// A namespace's table of a text.
fn named_table(alloc: Global, version: u64, text: &str) -> Said {
    let dtab = table(alloc, text.as_bytes());
    Said::Reply(Reply::Table { version, dtab })
}

/// Two names.
fn names(alloc: Global) -> Result<Said, Fail> {
    let mut names = Vec::new(alloc);
    names.push(Name::of(alloc, b"a")?)?;
    names.push(Name::of(alloc, b"b.c")?)?;
    Ok(Said::Reply(Reply::Names(NameList::of(names))))
}

/// A replica.
fn picked(alloc: Global) -> Said {
    let addr = Addr {
        ip: 0x7f00_0001,
        port: 9,
    };
    Said::Chosen(Chosen::Picked {
        addr,
        client: path(alloc, "/a"),
        residual: path(alloc, "/"),
    })
}

/// A mark of five failures.
const MARK: Mark = Mark {
    count: 5,
    until: 5_000,
};

/// A kind of answer.
#[derive(Clone, Copy)]
enum Answer {
    /// That a line was carried out.
    Done,
    /// That a service has three addresses.
    Set,
    /// The mark of an address.
    Marked,
    /// Two names.
    Names,
    /// A table of version 3.
    Table,
    /// An empty table of version 4.
    NoTable,
    /// A replica.
    Picked,
    /// That a path is too deep.
    TooDeep,
}

/// An answer of a kind.
fn said_of(alloc: Global, answer: Answer) -> Result<Said, Fail> {
    match answer {
        Answer::Done => Ok(Said::Ok),
        Answer::Set => Ok(Said::Reply(Reply::Set(3))),
        Answer::Marked => Ok(Said::Reply(Reply::Marked(MARK))),
        Answer::Names => names(alloc),
        Answer::Table => Ok(named_table(alloc, 3, "/svc => /c")),
        Answer::NoTable => Ok(named_table(alloc, 4, "")),
        Answer::Picked => Ok(picked(alloc)),
        Answer::TooDeep => Ok(Said::Chosen(Chosen::None(Why::TooDeep))),
    }
}

/// The text of an answer of a kind.
fn text_of(alloc: Global, answer: Answer) -> Result<Bytes, Fail> {
    let said = said_of(alloc, answer)?;
    Ok(answer_text(alloc, said)?)
}

/// Answers, and their texts.
const ANSWERS: [(Answer, &str); 8] = [
    (Answer::Done, "ok"),
    (Answer::Set, "ok 3"),
    (Answer::Marked, "mark 5 5000"),
    (Answer::Names, "names a b.c"),
    (Answer::Table, "version 3 dtab /svc=>/c"),
    (Answer::NoTable, "version 4 dtab"),
    (Answer::Picked, "127.0.0.1:9 /a /"),
    (Answer::TooDeep, "too-deep"),
];

#[test]
fn writes_replies(rt: HostRuntime) -> Result<(), Fail> {
    for (answer, want) in &ANSWERS {
        let text = text_of(rt.alloc(), *answer)?;
        let is_so = text.as_slice() == want.as_bytes();
        drop(text);
        assert!(rt; is_so, "{want}");
    }
    Ok(())
}

/// The line of a generated run.
fn line_of(alloc: Global, turns: u32, seed: u64) -> Mem<Bytes> {
    let settings = script_settings(alloc)?;
    let line = storm(alloc, &settings, turns, seed);
    drop(settings);
    line
}

/// Turns, seeds, and the lines of the runs.
const RUNS: [(u32, u64, &str); 2] = [
    (0, 7, "changes 1 refused 0 picked 0 none 0 ports 0"),
    (
        1_000,
        1,
        "changes 334 refused 168 picked 242 none 257 ports 809971",
    ),
];

#[test]
fn sums_generated_runs_up(rt: HostRuntime) -> Result<(), Fail> {
    for (turns, seed, want) in &RUNS {
        let line = line_of(rt.alloc(), *turns, *seed)?;
        let is_so = line.as_slice() == want.as_bytes();
        drop(line);
        assert!(rt; is_so, "{want}");
    }
    Ok(())
}
