//! Scripts and their replies.
use crate::running::{SAMPLE, SAMPLE_OUT, assert_replayed, replayed, text_with};
use std::alloc::{AllocError, AllocGlobal, Global};
use std::sync::Wait;
use std::test::Fail;
use std::thread::Threads;

/// Scripts, their replies, and the status.
const SCRIPTS: [(&str, &str, u8); 18] = [
    (
        "dtab /svc => /$/inet/127.0.0.1/8080\npick /svc/a",
        "ok\n127.0.0.1:8080 /$/inet/127.0.0.1/8080 /a\n",
        0,
    ),
    (SAMPLE, SAMPLE_OUT, 0),
    ("", "", 0),
    ("pick /svc/a", "negative\n", 0),
    (
        "pick /svc/a\nnonsense\npick /svc/a",
        "negative\nerror line 2\n",
        3,
    ),
    ("dtab /a => /a\npick /a", "ok\ntoo-deep\n", 0),
    (
        "dtab /svc => /$/inet/127.0.0.1/1; /svc => /$/inet/127.0.0.1/2\npick /svc",
        "ok\n127.0.0.1:2 /$/inet/127.0.0.1/2 /\n",
        0,
    ),
    (
        "dtab /svc => /$/inet/127.0.0.1/1; /svc => ~\npick /svc",
        "ok\n127.0.0.1:1 /$/inet/127.0.0.1/1 /\n",
        0,
    ),
    (
        "dtab /s => $ | /$/inet/127.0.0.1/9\npick /s",
        "ok\nempty\n",
        0,
    ),
    (
        "dtab /s => ~ | /$/inet/127.0.0.1/9\npick /s",
        "ok\n127.0.0.1:9 /$/inet/127.0.0.1/9 /\n",
        0,
    ),
    (
        "dtab /s => ! | /$/inet/127.0.0.1/9\npick /s",
        "ok\nfailing\n",
        0,
    ),
    // The later table stands alone, and an empty one is a table too.
    (
        "dtab /a => !\ndtab /b => $\npick /a\npick /b\ndtab\npick /b",
        "ok\nok\nnegative\nempty\nok\nnegative\n",
        0,
    ),
    // Blank lines count, a CR before an LF is dropped, and words may have spaces and tabs round
    // them.
    (
        "\n \t\r\n\r\n\tpick  /a \r\n  dtab \t/a=>!;\r\npick\t/a\t\nx",
        "negative\nok\nfailing\nerror line 7\n",
        3,
    ),
    // A CR with no LF behind it stays: a blank of a path, and no part of a word.
    ("pick /a\r", "negative\n", 0),
    ("pick /a \r", "error line 1\n", 3),
    ("pick /a /b", "error line 1\n", 3),
    ("dtab /a => ", "error line 1\n", 3),
    (
        "dtab /s/*/x => /$/inet/127.0.0.1/9\npick /s/a/x/y\npick /s/x\npick /s/a/b/x",
        "ok\n127.0.0.1:9 /$/inet/127.0.0.1/9 /y\nnegative\nnegative\n",
        0,
    ),
];

#[test]
fn scripts_and_replies(rt: HostRuntime) -> Result<(), Fail> {
    assert_replayed(&rt, &SCRIPTS)
}

/// Scripts that change what is picked, their replies, and the status.
const SCRIPTS_WITH_STATE: [(&str, &str, u8); 10] = [
    // An address with five failures is left out until its moment, and its mark stays at the
    // limit then.
    (
        "addrs web 127.0.0.1:1 127.0.0.1:2 127.0.0.1:3\ndtab /svc => /#/io.l5d.fs\n\
            fail 127.0.0.1:2 0\nfail 127.0.0.1:2 0\nfail 127.0.0.1:2 0\nfail 127.0.0.1:2 0\n\
            fail 127.0.0.1:2 0\npick /svc/web 0 0 0 0\n\
            pick /svc/web 0 0 9223372036854775808 0\n\
            pick /svc/web 4999 0 6148914691236517206 0\n\
            pick /svc/web 5000 0 6148914691236517206 0",
        "ok 3\nok\nmark 1 0\nmark 2 0\nmark 3 0\nmark 4 0\nmark 5 5000\n\
            127.0.0.1:1 /#/io.l5d.fs/web /\n127.0.0.1:3 /#/io.l5d.fs/web /\n\
            127.0.0.1:1 /#/io.l5d.fs/web /\n127.0.0.1:2 /#/io.l5d.fs/web /\n",
        0,
    ),
    // Where all are dead, all take part.
    (
        "addrs one 127.0.0.1:7\ndtab /svc => /#/io.l5d.fs\nfail 127.0.0.1:7 100\n\
            fail 127.0.0.1:7 100\nfail 127.0.0.1:7 100\nfail 127.0.0.1:7 100\n\
            fail 127.0.0.1:7 100\npick /svc/one 200 0 0 0\nfail 127.0.0.1:7 6000\n\
            good 127.0.0.1:7 6001\nfail 127.0.0.1:8 0",
        "ok 1\nok\nmark 1 0\nmark 2 0\nmark 3 0\nmark 4 0\nmark 5 5100\n\
            127.0.0.1:7 /#/io.l5d.fs/one /\nmark 5 11000\nmark 0 0\nnot-kept\n",
        0,
    ),
    // A version never comes twice.
    (
        "create web /svc => /a\ncreate web\nput web 7 /svc => /b\nput web 1 /svc => /b\n\
            delete web 1\ndelete web *\nput web * /x => /y\ncreate web /svc => /c\nget web\n\
            get x\nlist",
        "version 1\nexists 1\nstale 1\nversion 2\nstale 2\ndeleted\nmissing\nversion 3\n\
            version 3 dtab /svc=>/c\nmissing\nnames web\n",
        0,
    ),
    // A service without addresses is empty, and not negative.
    (
        "addrs web\ndtab /svc => /#/io.l5d.fs | /$/inet/127.0.0.1/9\npick /svc/web\ndrop web\n\
            pick /svc/web\ndrop web",
        "ok 0\nok\nempty\ndropped\n127.0.0.1:9 /$/inet/127.0.0.1/9 /web\nmissing\n",
        0,
    ),
    (
        "dtab /s => 0.3 * /$/inet/127.0.0.1/1 & 0.7 * /$/inet/127.0.0.1/2\npick /s 0 0 0 0\n\
            pick /s 0 5534023222112865484 0 0\npick /s 0 5534023222112865485 0 0\n\
            pick /s 0 9223372036854775808 0 0",
        "ok\n127.0.0.1:1 /$/inet/127.0.0.1/1 /\n127.0.0.1:1 /$/inet/127.0.0.1/1 /\n\
            127.0.0.1:2 /$/inet/127.0.0.1/2 /\n127.0.0.1:2 /$/inet/127.0.0.1/2 /\n",
        0,
    ),
    // A union of one branch takes its part of the word, and hands the rest on.
    (
        "dtab /s => 0.000002 * (0.3 * /$/inet/127.0.0.1/1 & 0.7 * /$/inet/127.0.0.1/2)\n\
            pick /s 0 2767011611056432742 0 0\npick /s 0 2767011611056432743 0 0\n\
            pick /s 0 9223372036854775807 0 0\npick /s 0 9223372036854775808 0 0",
        "ok\n127.0.0.1:1 /$/inet/127.0.0.1/1 /\n127.0.0.1:2 /$/inet/127.0.0.1/2 /\n\
            127.0.0.1:2 /$/inet/127.0.0.1/2 /\n127.0.0.1:1 /$/inet/127.0.0.1/1 /\n",
        0,
    ),
    (
        "addrs web 127.0.0.1:1*3 127.0.0.1:2\ndtab /svc => /#/io.l5d.fs\n\
            pick /svc/web 0 0 13835058055282163711 0\npick /svc/web 0 0 13835058055282163712 0",
        "ok 2\nok\n127.0.0.1:1 /#/io.l5d.fs/web /\n127.0.0.1:2 /#/io.l5d.fs/web /\n",
        0,
    ),
    // The weight of a branch without addresses does not count, and a table of a pick's own
    // wins.
    (
        "addrs gone\n\
            dtab /s => 9 * /#/io.l5d.fs/gone & /$/inet/127.0.0.1/1 & /$/inet/127.0.0.1/2\n\
            pick /s 0 9223372036854775807 0 0\npick /s 0 9223372036854775808 0 0\n\
            pick /s 0 0 0 0 /s => /$/inet/127.0.0.1/3",
        "ok 0\nok\n127.0.0.1:1 /$/inet/127.0.0.1/1 /\n127.0.0.1:2 /$/inet/127.0.0.1/2 /\n\
            127.0.0.1:3 /$/inet/127.0.0.1/3 /\n",
        0,
    ),
    // A mark goes with its address, and is not there when the address comes back.
    (
        "addrs web 127.0.0.1:1\nfail 127.0.0.1:1 0\naddrs web\naddrs web 127.0.0.1:1\n\
            fail 127.0.0.1:1 0",
        "ok 1\nmark 1 0\nok 0\nok 1\nmark 1 0\n",
        0,
    ),
    (
        "dtab /svc => /$/inet/127.0.0.1/8080\nview /svc/a\nview /svc/\\x2F",
        "ok\n{\"lookups\":[{\"depth\":0,\"outcome\":\"bound\",\
            \"path\":\"/svc/a\"},{\"depth\":1,\"outcome\":\"bound\",\
            \"path\":\"/$/inet/127.0.0.1/8080/a\"}],\"outcome\":\"bound\"}\n\
            {\"lookups\":[{\"depth\":0,\"outcome\":\"bound\",\
            \"path\":\"/svc/\\\\x2f\"},{\"depth\":1,\"outcome\":\"bound\",\
            \"path\":\"/$/inet/127.0.0.1/8080/\\\\x2f\"}],\"outcome\":\"bound\"}\n",
        0,
    ),
];

/// Services, marks, versions, weights, views and tables of a pick's own.
#[test]
fn state_and_replies(rt: HostRuntime) -> Result<(), Fail> {
    assert_replayed(&rt, &SCRIPTS_WITH_STATE)
}

/// A table and one pick so many times: how long the replies are, whether they are those that are
/// wanted, and the status.
fn many_replied<R: AllocGlobal + Threads + Wait + Sync>(
    rt: &R,
    picks: usize,
) -> Result<(usize, bool, u8), AllocError> {
    let alloc = rt.alloc();
    let table = "dtab /svc => /$/inet/127.0.0.1/8080\n";
    let script = text_with(alloc, table, "pick /svc/web\n", picks)?;
    let told = replayed(rt, script.as_str());
    drop(script);
    let (text, status) = told?;
    let are_wanted = is_picked(alloc, text.as_str(), picks);
    let length = text.len();
    drop(text);
    Ok((length, are_wanted?, status))
}

/// Whether these are the replies to a table and so many picks of `/svc/web`.
fn is_picked(alloc: Global, replies: &str, picks: usize) -> Result<bool, AllocError> {
    let reply = "127.0.0.1:8080 /$/inet/127.0.0.1/8080 /web\n";
    let wanted = text_with(alloc, "ok\n", reply, picks)?;
    let is_wanted = replies == wanted.as_str();
    drop(wanted);
    Ok(is_wanted)
}

/// 129,003 bytes of replies, which are not all held until the end.
#[test]
fn many_replies(rt: HostRuntime) -> Result<(), Fail> {
    let replied = many_replied(&rt, 3_000)?;
    assert_eq!(rt; replied, (129_003, true, 0));
    Ok(())
}
