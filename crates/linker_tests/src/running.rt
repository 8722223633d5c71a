//! Runs of the program over an outside in memory.
ghost use Rattle.std.specs.Prelude.{None};

use line_base::{Clock, Folder, Listener, Net, Sink, Source};
use line_doubles::{MemFolder, MemNet, MemPeer, MemSink, MemSource};
use line_log::{Journals, MemJournals};
use linker_commands::{Outside, linker};
use std::alloc::{AllocError, AllocGlobal, Global};
use std::fmt::Debug;
use std::process::Abort;
use std::sync::Wait;
use std::test::Fail;
use std::thread::Threads;

/// A script with a table, a blank line and two picks, and what it writes.
pub(crate) const SAMPLE: &str = "dtab /svc => /$/inet/127.0.0.1/8080\n\npick /svc/a\npick /b\n";

pub(crate) const SAMPLE_OUT: &str = "ok\n127.0.0.1:8080 /$/inet/127.0.0.1/8080 /a\nnegative\n";

/// A clock that stands at 0. It tells no moments.
#[derive(Drop)]
pub(crate) struct StillClock;

impl Clock for StillClock {
    ghost to_come = { λ _. None };

    ghost of_fork = { λ _. None };

    fn now(&mut self) -> u64 {
        0
    }

    fn fork(&self) -> StillClock {
        StillClock
    }
}

/// An outside in memory, over such a net.
pub(crate) type MemOutside<N> = Outside<MemFolder, N, StillClock, MemSource, MemSink, MemJournals>;

/// The status that a run of the program ends with.
///
/// It has no clause, so that no proof of a test carries the contract of [`linker`].
fn status_of<
    R: AllocGlobal + Threads + Wait + Sync,
    F: Folder,
    N: Net + Send,
    C: Clock + Drop + Send,
    S: Source,
    K: Sink,
    O: Journals,
>(rt: &R, words: &[String], outside: &mut Outside<F, N, C, S, K, O>) -> u8
where
    <N::L as Listener>::P: Send,
{
    linker(rt, words, outside)
}

/// These words, each with its own memory.
fn owned_words(alloc: Global, words: &[&str]) -> Result<Vec<String>, AllocError> {
    let mut owned = Vec::new(alloc);
    for word in words {
        owned.push(String::from_str(alloc, word)?)?;
    }
    Ok(owned)
}

/// Runs the program with these words: what is written then, and the status.
pub(crate) fn run_words<R: AllocGlobal + Threads + Wait + Sync, N: Net + Send>(
    rt: &R,
    words: &[&str],
    outside: &mut MemOutside<N>,
) -> Result<(String, u8), AllocError>
where
    <N::L as Listener>::P: Send,
{
    let alloc = rt.alloc();
    let words = owned_words(alloc, words)?;
    let status = status_of(rt, words.as_slice(), outside);
    drop(words);
    Ok((text_of(alloc, outside.out.held())?, status))
}

/// What is written, and the status, where there is no file.
pub(crate) fn run<R: AllocGlobal + Threads + Wait + Sync>(
    rt: &R,
    words: &[&str],
    source: MemSource,
    sink: MemSink,
) -> Result<(String, u8), AllocError> {
    let alloc = rt.alloc();
    let folder = MemFolder::of(alloc, Vec::new(alloc), Vec::new(alloc));
    run_with(rt, words, folder, source, sink)
}

/// What is written, and the status.
pub(crate) fn run_with<R: AllocGlobal + Threads + Wait + Sync>(
    rt: &R,
    words: &[&str],
    folder: MemFolder,
    source: MemSource,
    sink: MemSink,
) -> Result<(String, u8), AllocError> {
    run_over(rt, words, folder, no_net(rt.alloc()), source, sink)
}

/// What is written over a net, and the status.
pub(crate) fn run_over<R: AllocGlobal + Threads + Wait + Sync>(
    rt: &R,
    words: &[&str],
    folder: MemFolder,
    net: MemNet<MemPeer>,
    source: MemSource,
    sink: MemSink,
) -> Result<(String, u8), AllocError> {
    let alloc = rt.alloc();
    let mut outside = Outside {
        folder,
        net,
        clock: StillClock,
        input: source,
        out: sink,
        journals: MemJournals::of(alloc, Vec::new(alloc)),
    };
    let ran = run_words(rt, words, &mut outside);
    drop(outside);
    ran
}

/// A net to which nobody comes, and of which no dial is answered.
pub(crate) fn no_net(alloc: Global) -> MemNet<MemPeer> {
    MemNet::of(alloc, Vec::new(alloc), Vec::new(alloc), Vec::new(alloc))
}

/// A script on standard input, of which no read fails.
pub(crate) fn source(alloc: Global, script: &str) -> Result<MemSource, AllocError> {
    Ok(MemSource::of(
        Vec::from_slice(alloc, script.as_bytes())?,
        Vec::new(alloc),
        Vec::new(alloc),
    ))
}

/// A standard input that has nothing.
pub(crate) fn no_input(alloc: Global) -> MemSource {
    MemSource::of(Vec::new(alloc), Vec::new(alloc), Vec::new(alloc))
}

/// A standard output of which no write fails.
pub(crate) fn sink(alloc: Global) -> MemSink {
    MemSink::of(alloc, Vec::new(alloc), Vec::new(alloc))
}

/// Puts bytes behind a text, each as a character.
pub(crate) fn append(text: &mut String, bytes: &[u8]) -> Result<(), AllocError> {
    for byte in bytes {
        text.push(char::from(*byte))?;
    }
    Ok(())
}

/// The text of these bytes, each a character.
pub(crate) fn text_of(alloc: Global, bytes: &[u8]) -> Result<String, AllocError> {
    let mut text = String::new(alloc);
    append(&mut text, bytes)?;
    Ok(text)
}

/// A text, and a part behind it so many times.
pub(crate) fn text_with(
    alloc: Global,
    text: &str,
    part: &str,
    parts: usize,
) -> Result<String, AllocError> {
    let mut whole = String::from_str(alloc, text)?;
    for _ in 0..parts {
        whole.push_str(part)?;
    }
    Ok(whole)
}

/// What is written where there is no file and [`SAMPLE`] is the input, and the status. The writes
/// whose numbers are in `failing` fail.
pub(crate) fn answered<R: AllocGlobal + Threads + Wait + Sync>(
    rt: &R,
    words: &[&str],
    failing: &[u64],
) -> Result<(String, u8), AllocError> {
    let alloc = rt.alloc();
    let sink = MemSink::of(alloc, Vec::new(alloc), Vec::from_slice(alloc, failing)?);
    run(rt, words, source(alloc, SAMPLE)?, sink)
}

/// What `replay` writes for a script, and its status.
pub(crate) fn replayed<R: AllocGlobal + Threads + Wait + Sync>(
    rt: &R,
    script: &str,
) -> Result<(String, u8), AllocError> {
    let alloc = rt.alloc();
    run(rt, &["replay"], source(alloc, script)?, sink(alloc))
}

/// Asserts that what was told of a row, a text and a status, is what is wanted.
pub(crate) fn assert_told<R: Abort, D: Debug>(
    rt: &R,
    told: (String, u8),
    wanted: (&str, u8),
    row: &D,
) {
    let (text, status) = told;
    assert_eq!(rt; (text.as_str(), status), wanted, "of {row:?}");
    drop(text);
}

/// The words of a command line, in which one blank stands between a word and the next. So two
/// blanks side by side, or one at the end, make a word that is empty.
fn words_of(alloc: Global, line: &str) -> Result<Vec<&str>, AllocError> {
    let mut words = Vec::new(alloc);
    for word in line.split(' ') {
        words.push(word)?;
    }
    Ok(words)
}

/// What is written for a command line where [`SAMPLE`] is the input, and the status.
fn line_answered<R: AllocGlobal + Threads + Wait + Sync>(
    rt: &R,
    line: &str,
) -> Result<(String, u8), AllocError> {
    let words = words_of(rt.alloc(), line)?;
    let told = answered(rt, words.as_slice(), &[]);
    drop(words);
    told
}

/// Asserts that each of these command lines, in which one blank stands between a word and the next,
/// is answered so where [`SAMPLE`] is the input, and ends with this status.
pub(crate) fn assert_answered<R: AllocGlobal + Threads + Wait + Sync + Abort>(
    rt: &R,
    lines: &[&str],
    written: &str,
    status: u8,
) -> Result<(), Fail> {
    for line in lines {
        let told = line_answered(rt, line)?;
        assert_told(rt, told, (written, status), line);
    }
    Ok(())
}

/// Asserts that such scripts are answered so, and end with this status.
pub(crate) fn assert_replayed<R: AllocGlobal + Threads + Wait + Sync + Abort>(
    rt: &R,
    rows: &[(&str, &str, u8)],
) -> Result<(), Fail> {
    for (script, written, status) in rows {
        let told = replayed(rt, script)?;
        assert_told(rt, told, (*written, *status), script);
    }
    Ok(())
}
