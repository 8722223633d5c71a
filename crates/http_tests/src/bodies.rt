//! Bodies over peers and dialers in memory: worked rows, each cutting of the bytes, each failing
//! call, and limits.
mod exchange;

use crate::bodies::exchange::{Calls, Way, is_read, onward, pass, unsent, written};
use crate::requests::spelled;
use body_wire::BodyEnd::{
    self, BadChunk, Cut, ReadFault, RecvFault, SendFault, TooLong, WriteFault,
};
use body_wire::{Bytes, Mem};
use http_wire::Framing::{self, Chunked, Length, Nothing, ToEnd};
use std::alloc::Global;
use std::process::Abort;
use std::test::Fail;

/// A body up to the byte that ends it: its framing, its text and the number of bytes that `%`
/// stands for; the texts that go on in chunks and as content alone; and the answer.
type Row = (
    Framing,
    &'static str,
    usize,
    &'static str,
    &'static str,
    Result<u64, BodyEnd>,
);

static ROWS: [Row; 32] = [
    (
        Chunked,
        "A|0123456789|0||",
        0,
        "a|0123456789|0||",
        "0123456789",
        Ok(10),
    ),
    (Chunked, "5;a=b|hello|0||", 0, "5|hello|0||", "hello", Ok(5)),
    (
        Chunked,
        "005 \t|hello|00||",
        0,
        "5|hello|0||",
        "hello",
        Ok(5),
    ),
    (Chunked, "2|a\n|0|T: 1\n\n", 0, "2|a\n|0||", "a\n", Ok(2)),
    (Chunked, "0|T: 1|\rU\n\r||", 0, "0||", "", Ok(0)),
    (Chunked, "0|\n", 0, "0||", "", Ok(0)),
    (Chunked, "1;%|a|0||", 4092, "1|a|0||", "a", Ok(1)),
    (Chunked, "1|a|0|%\n|", 65533, "1|a|0||", "a", Ok(1)),
    (Chunked, "1;%\r", 4093, "", "", Err(BadChunk(0))),
    (Chunked, "1|a|0|%\n\r", 65534, "1|a|", "a", Err(BadChunk(1))),
    (Chunked, "x", 0, "", "", Err(BadChunk(0))),
    (Chunked, "\r", 0, "", "", Err(BadChunk(0))),
    (Chunked, "5\n", 0, "", "", Err(BadChunk(0))),
    (Chunked, "1|a|-", 0, "1|a|", "a", Err(BadChunk(1))),
    (Chunked, "1|a|5 x", 0, "1|a|", "a", Err(BadChunk(1))),
    (Chunked, "11111111111111111", 0, "", "", Err(BadChunk(0))),
    (Chunked, "1|ab", 0, "1|a", "a", Err(BadChunk(1))),
    (Chunked, "1|a\rb", 0, "1|a", "a", Err(BadChunk(1))),
    (
        Chunked,
        "7fffffffffffffff|%",
        9,
        "7fffffffffffffff|%",
        "%",
        Err(Cut),
    ),
    (
        Chunked,
        "8000000000000000|",
        0,
        "8000000000000000|",
        "",
        Err(TooLong),
    ),
    (
        Chunked,
        "1|a|7FFFFFFFFFFFFFFF|",
        0,
        "1|a|7fffffffffffffff|",
        "a",
        Err(TooLong),
    ),
    (Chunked, "1|a|0|T: 1|", 0, "1|a|", "a", Err(Cut)),
    (Nothing, "", 0, "", "", Ok(0)),
    (Length(0), "", 0, "", "", Ok(0)),
    (Length(5), "hello", 0, "hello", "hello", Ok(5)),
    (Length(5), "", 0, "", "", Err(Cut)),
    (Length(5), "hell", 0, "hell", "hell", Err(Cut)),
    (Length(9223372036854775807), "%", 9, "%", "%", Err(Cut)),
    (Length(9223372036854775808), "", 0, "", "", Err(TooLong)),
    (ToEnd, "", 0, "", "", Ok(0)),
    (ToEnd, "hello", 0, "hello", "hello", Ok(5)),
    (ToEnd, "%", 70000, "%", "%", Ok(70000)),
];

/// What lies behind a body: nothing where the connection ends with it.
fn bytes_behind(framing: Framing, answer: Result<u64, BodyEnd>) -> &'static [u8] {
    match framing {
        ToEnd => b"".as_slice(),
        _ if answer == Err(Cut) => b"".as_slice(),
        _ => b"behind".as_slice(),
    }
}

/// The bytes of a row's body, with others behind them where the connection does not end there; and
/// how many are the body's.
fn comes_of(alloc: Global, row: &Row) -> Mem<(Bytes, usize)> {
    let mut comes = spelled(alloc, row.1, "x", row.2)?;
    let ends = comes.len();
    comes.extend_from_slice(bytes_behind(row.0, row.5))?;
    Ok((comes, ends))
}

/// What goes on for a row's body this way.
fn went_of(alloc: Global, row: &Row, way: Way) -> Mem<Bytes> {
    match way {
        Way::Back { chunked: false } => spelled(alloc, row.4, "x", row.2),
        _ => spelled(alloc, row.3, "x", row.2),
    }
}

/// Whether a row's body is passed this way as the row says, in calls of so many bytes at most, and
/// no byte behind it is taken by calls of one byte.
fn is_row_passed(alloc: Global, row: &Row, way: Way, most: usize) -> Result<bool, Fail> {
    let went = went_of(alloc, row, way)?;
    let (comes, ends) = match comes_of(alloc, row) {
        Ok(comes) => comes,
        Err(fault) => {
            drop(went);
            return Err(Fail::from(fault));
        }
    };
    let (calls, count) = (Calls::by(most), went.len());
    let (gives, wanted) = (comes.as_slice(), went.as_slice());
    let passed = pass(alloc, way, row.0, gives, wanted, calls, calls);
    drop(comes);
    drop(went);
    let passed = passed?;
    Ok(passed.came_to(row.5, count) && (passed.got == ends || most > 1))
}

/// Back in chunks.
const BACK: Way = Way::Back { chunked: true };

/// Back as content alone.
const BARE: Way = Way::Back { chunked: false };

/// All ways.
const WAYS: [Way; 3] = [Way::Onward, BACK, BARE];

/// Passes the bodies of some rows all ways, in calls of each of these sizes.
fn assert_passed(
    rt: &impl Abort,
    alloc: Global,
    rows: &[Row],
    sizes: &[usize],
) -> Result<(), Fail> {
    for row in rows {
        for way in &WAYS {
            for most in sizes {
                let is_passed = is_row_passed(alloc, row, *way, *most)?;
                assert!(rt; is_passed, "{:?} by {most}", row.1);
            }
        }
    }
    Ok(())
}

#[test]
fn bodies_end_at_their_byte(rt: HostRuntime) -> Result<(), Fail> {
    assert_passed(&rt, rt.alloc(), &ROWS, &[1, 2, 7, 4096, usize::MAX])
}

/// Long bodies.
static LONG: [Row; 2] = [
    (Length(3000000), "%", 3000000, "%", "%", Ok(3000000)),
    (
        Chunked,
        "30d40|%|0||",
        200000,
        "30d40|%|0||",
        "%",
        Ok(200000),
    ),
];

#[test]
fn long_bodies_go_on_whole(rt: HostRuntime) -> Result<(), Fail> {
    assert_passed(&rt, rt.alloc(), &LONG, &[usize::MAX])
}

/// How many bytes of a long body go on behind the head whose read 62 fails: 62 reads give 1,000,000
/// bytes.
fn went_before_fault(alloc: Global) -> Result<usize, Fail> {
    let comes = Vec::from_elem(alloc, b'x', 1000000)?;
    let gives = Calls {
        most: usize::MAX,
        failing: 62,
    };
    let bytes = comes.as_slice();
    let passed = onward(
        alloc,
        Length(3000000),
        b"",
        bytes,
        bytes,
        gives,
        Calls::WHOLE,
    );
    drop(comes);
    let passed = passed?;
    Ok(if passed.answer == Err(ReadFault) {
        passed.went.unwrap_or(0)
    } else {
        0
    })
}

#[test]
fn bytes_go_on_before_a_later_read_fails(rt: HostRuntime) -> Result<(), Fail> {
    assert!(rt; went_before_fault(rt.alloc())? > 983616);
    Ok(())
}

/// A part of a body in chunks.
#[derive(Clone, Copy)]
enum Part {
    /// Content, of which each byte goes on as it comes.
    Content(&'static str),
    /// Other bytes, and what goes on in chunks for them, once they have all come.
    Frame(&'static str, &'static str),
}

/// A body in two chunks, with extensions and trailers, part by part.
static PARTS: [Part; 7] = [
    Part::Frame("D;n=v\r\n", "d\r\n"),
    Part::Content("hello, world\n"),
    Part::Frame("\r\n", "\r\n"),
    Part::Frame("03 \r\n", "3\r\n"),
    Part::Content("\r\n0"),
    Part::Frame("\r\n", "\r\n"),
    Part::Frame("0;last\r\nX-Sum: 1\r\n\r\n", "0\r\n\r\n"),
];

/// The bytes of that body.
const BODY: &[u8] = b"D;n=v\r\nhello, world\n\r\n03 \r\n\r\n0\r\n0;last\r\nX-Sum: 1\r\n\r\n";

/// What goes on for it in chunks.
const CHUNKS: &[u8] = b"d\r\nhello, world\n\r\n3\r\n\r\n0\r\n0\r\n\r\n";

/// Its content.
const ALONE: &[u8] = b"hello, world\n\r\n0";

/// How many bytes of content it has.
const CONTENT: u64 = 16;

/// What goes on this way for its first bytes, so many.
fn goes(way: Way, count: usize) -> &'static [u8] {
    let all = match way {
        Way::Back { chunked: false } => ALONE,
        _ => CHUNKS,
    };
    let (mut gone, mut left) = (0usize, count);
    for part in &PARTS {
        gone = gone.saturating_add(goes_for(*part, way, left));
        left = left.saturating_sub(length_of(*part));
    }
    &all[..gone.min(all.len())]
}

/// How many bytes a part has.
fn length_of(part: Part) -> usize {
    match part {
        Part::Content(text) | Part::Frame(text, _) => text.len(),
    }
}

/// How many bytes go on this way for the first bytes of a part, so many.
fn goes_for(part: Part, way: Way, left: usize) -> usize {
    match (part, way) {
        (Part::Content(text), _) => left.min(text.len()),
        (Part::Frame(_, _), Way::Back { chunked: false }) => 0,
        (Part::Frame(text, whole), _) if text.len() <= left => whole.len(),
        (Part::Frame(_, _), _) => 0,
    }
}

/// What a body comes to that is passed on or read: the answers of these in turn.
type Ends = (Result<u64, BodyEnd>, Result<u64, BodyEnd>);

/// Whether a body of which these bytes come in such calls goes on this way as far as so many of
/// them bring it, and comes to this answer.
fn is_passed(
    alloc: Global,
    way: Way,
    comes: &[u8],
    count: usize,
    gives: Calls,
    answer: Result<u64, BodyEnd>,
) -> Result<bool, Fail> {
    let went = goes(way, count);
    let passed = pass(alloc, way, Chunked, comes, went, gives, Calls::WHOLE)?;
    Ok(passed.came_to(answer, went.len()))
}

/// Whether such a body is passed on so each way, and read: it comes to the one answer where it is
/// read off a peer, and to the other where it is received.
fn moved(
    alloc: Global,
    comes: &[u8],
    count: usize,
    gives: Calls,
    ends: Ends,
) -> Result<[bool; 4], Fail> {
    let (read, received) = ends;
    let onward = is_passed(alloc, Way::Onward, comes, count, gives, read)?;
    let back = is_passed(alloc, BACK, comes, count, gives, received)?;
    let bare = is_passed(alloc, BARE, comes, count, gives, received)?;
    let is_read = is_read(alloc, Chunked, b"", comes, gives, read.err(), ALONE)?;
    Ok([onward, back, bare, is_read])
}

/// What the body comes to where so many of its bytes come, and then the end.
fn end_at(count: usize) -> Result<u64, BodyEnd> {
    if count == BODY.len() {
        Ok(CONTENT)
    } else {
        Err(Cut)
    }
}

#[test]
fn a_body_may_be_cut_at_each_byte(rt: HostRuntime) -> Result<(), Fail> {
    let body = BODY;
    for count in 0..body.len() + 1 {
        let end = end_at(count);
        for most in &[1, 5, usize::MAX] {
            let gives = Calls::by(*most);
            let moved = moved(rt.alloc(), &body[..count], count, gives, (end, end))?;
            assert!(rt; moved == [true; 4], "{count} by {most}: {moved:?}");
        }
    }
    Ok(())
}

#[test]
fn each_read_fails_in_turn(rt: HostRuntime) -> Result<(), Fail> {
    for call in 0..BODY.len() {
        let ends = (Err(ReadFault), Err(RecvFault));
        let moved = moved(rt.alloc(), BODY, call, Calls::until(call), ends)?;
        assert!(rt; moved == [true; 4], "{call}: {moved:?}");
    }
    Ok(())
}

/// Whether the body goes on whole where its first bytes are kept, so many.
fn is_passed_behind(alloc: Global, count: usize) -> Result<bool, Fail> {
    let body = BODY;
    let (kept, comes) = body.split_at(count.min(body.len()));
    let (gives, takes) = (Calls::WHOLE, Calls::WHOLE);
    let passed = onward(alloc, Chunked, kept, comes, CHUNKS, gives, takes)?;
    Ok(passed.came_to(Ok(CONTENT), CHUNKS.len()))
}

#[test]
fn each_front_of_a_body_may_be_kept(rt: HostRuntime) -> Result<(), Fail> {
    for count in 0..BODY.len() {
        assert!(rt; is_passed_behind(rt.alloc(), count)?, "{count}");
    }
    Ok(())
}

/// Whether the body goes on this way as far as the call goes that fails at the other end. The first
/// call takes the head.
fn is_passed_until(alloc: Global, way: Way, call: usize, end: BodyEnd) -> Result<bool, Fail> {
    let chunks = CHUNKS;
    let went = &chunks[..call.min(chunks.len())];
    let takes = Calls::until(call.saturating_add(1));
    let passed = pass(alloc, way, Chunked, BODY, went, Calls::WHOLE, takes)?;
    Ok(passed.came_to(Err(end), went.len()))
}

#[test]
fn each_send_fails_in_turn(rt: HostRuntime) -> Result<(), Fail> {
    for call in 0..CHUNKS.len() {
        let sent = is_passed_until(rt.alloc(), Way::Onward, call, SendFault)?;
        let written = is_passed_until(rt.alloc(), BACK, call, WriteFault)?;
        assert!(rt; sent && written, "{call}: {sent} {written}");
    }
    Ok(())
}

/// Bodies, and their lengths.
static KEPT: [(Framing, &[u8], u64); 3] = [
    (Nothing, b"", 0),
    (Length(5), b"hello", 5),
    (Chunked, b"3\r\nabc\r\n2\r\nde\r\n0\r\n\r\n", 5),
];

#[test]
fn a_head_leaves_with_what_is_kept(rt: HostRuntime) -> Result<(), Fail> {
    for (framing, kept, count) in &KEPT {
        let (alloc, once) = (rt.alloc(), Calls::WHOLE);
        let passed = onward(alloc, *framing, kept, b"", kept, once, once)?;
        assert!(rt;
            passed.answer == Ok(*count) && passed.sends == 1,
            "{kept:?}"
        );
    }
    Ok(())
}

/// A body that is read: its framing, what is kept of it, what comes and the number of bytes that
/// `%` stands for, and the call that fails; why it is refused, and its content.
type Read = (
    Framing,
    &'static str,
    &'static str,
    usize,
    u64,
    Option<BodyEnd>,
    &'static str,
);

static READ: [Read; 11] = [
    (Length(1048576), "", "%", 1048576, 99, None, "%"),
    (Length(1048577), "", "", 0, 99, Some(TooLong), ""),
    (Chunked, "", "100000|%|0||", 1048576, 99, None, "%"),
    (Chunked, "", "100001|", 0, 99, Some(TooLong), ""),
    (Chunked, "", "100000|%|1|", 1048576, 99, Some(TooLong), ""),
    (ToEnd, "", "%", 1048576, 99, None, "%"),
    (ToEnd, "", "%", 1048577, 99, Some(TooLong), ""),
    (Chunked, "", "2|ab|1|cx", 0, 99, Some(BadChunk(3)), ""),
    (
        Length(12),
        "127.0",
        ".0.1 1\nGET",
        0,
        99,
        None,
        "127.0.0.1 1\n",
    ),
    // What is too long is refused before the first read.
    (Length(1048577), "", "", 0, 0, Some(TooLong), ""),
    (Chunked, "100001\r\n", "", 0, 0, Some(TooLong), ""),
];

/// Whether a body is read as a row says.
fn is_row_read(alloc: Global, row: &Read) -> Mem<bool> {
    let (framing, kept, comes, count, failing, end, content) = *row;
    let calls = Calls {
        most: usize::MAX,
        failing,
    };
    let comes = spelled(alloc, comes, "x", count)?;
    let content = match spelled(alloc, content, "x", count) {
        Ok(content) => content,
        Err(fault) => {
            drop(comes);
            return Err(fault);
        }
    };
    let (gives, wanted) = (comes.as_slice(), content.as_slice());
    let is_read = is_read(alloc, framing, kept.as_bytes(), gives, calls, end, wanted);
    drop(content);
    drop(comes);
    is_read
}

#[test]
fn a_body_is_read_up_to_its_limit(rt: HostRuntime) -> Result<(), Fail> {
    for row in &READ {
        assert!(rt; is_row_read(rt.alloc(), row)?, "{:?} {:?}", row.1, row.2);
    }
    Ok(())
}

/// Bodies, each with what is kept, and what lies behind the body there.
static BEHIND: [(Framing, &[u8], &[u8]); 4] = [
    (Nothing, b"GET / HTTP/1.1\n\n", b"GET / HTTP/1.1\n\n"),
    (Length(0), b"GET", b"GET"),
    (Length(5), b"helloGET", b"GET"),
    (Chunked, b"5\r\nhello\r\n0\r\n\r\nGET", b"GET"),
];

#[test]
fn what_lies_behind_an_unsent_body_is_kept(rt: HostRuntime) -> Result<(), Fail> {
    for (framing, kept, behind) in &BEHIND {
        let (answer, is_kept) = unsent(rt.alloc(), *framing, kept, behind)?;
        assert!(rt; answer == Err(SendFault) && is_kept, "{kept:?}");
    }
    Ok(())
}

/// Calls of 3 bytes, and what is given of `hello`.
static WRITTEN: [(u64, bool, &[u8]); 2] = [(99, true, b"hello"), (1, false, b"hel")];

#[test]
fn bytes_are_written_up_to_a_fault(rt: HostRuntime) -> Result<(), Fail> {
    for (failing, is_whole, given) in &WRITTEN {
        let takes = Calls {
            most: 3,
            failing: *failing,
        };
        let (whole, is_given) = written(rt.alloc(), b"hello", takes, given)?;
        assert!(rt; whole == *is_whole && is_given, "{failing}");
    }
    Ok(())
}
