//! Rows of tables: what goes into a session and what comes of it.
use crate::compared::assert_text;
use crate::scene::{FIXED, Failing, Mem, Scene};
use crate::texts::{EMPTY, GET, GET_LINES, ON, UPSTREAM, WRITTEN_EMPTY};
use http_wire::Ended;
use std::alloc::Global;
use std::process::Abort;
use std::sync::Wait;
use std::test::Fail;

/// What was reported of the replica of `web`, which had failed once: how often it has failed since
/// it last did well.
pub(crate) type Failures = u32;

/// No report was made.
pub(crate) const NOTHING: Failures = 1;

/// It was reported to do well at last.
pub(crate) const GOOD: Failures = 0;

/// It was reported to fail, and never to do well.
pub(crate) const FAILED: Failures = 2;

/// It was reported to do well, and then to fail.
pub(crate) const FAILED_SINCE: Failures = 1;

/// What goes into a session, and what comes of it: texts, and others behind them. In them `|` is CR
/// LF and `~` is LF.
#[derive(Clone, Copy)]
pub(crate) struct Row {
    pub(crate) about: &'static str,
    /// The router's table.
    pub(crate) table: &'static str,
    /// What the client gives.
    pub(crate) gives: &'static [&'static str],
    /// What the upstreams reply, in the order of the dials.
    pub(crate) replies: &'static [&'static str],
    /// The reads of the client, the writes to it and the calls of the dialers that fail.
    pub(crate) reads: &'static [u64],
    pub(crate) writes: &'static [u64],
    pub(crate) dials: &'static [u64],
    /// What the client is given.
    pub(crate) written: &'static [&'static str],
    /// What the tries send, each between `<` and `>`.
    pub(crate) sent: &'static [&'static str],
    pub(crate) ended: Ended,
    pub(crate) reported: Failures,
}

/// A request that goes on to the one replica of `web`, which replies well.
pub(crate) const PASSED: Row = Row {
    about: "",
    table: FIXED,
    gives: &[GET],
    replies: &[EMPTY],
    reads: &[],
    writes: &[],
    dials: &[],
    written: &[WRITTEN_EMPTY],
    sent: &["<", GET_LINES, ON, ">"],
    ended: Ended::PeerEnded,
    reported: GOOD,
};

/// One that goes on, and gets no reply.
pub(crate) const UNANSWERED: Row = Row {
    replies: &[""],
    written: &[UPSTREAM],
    reported: FAILED,
    ..PASSED
};

/// One that is refused before a replica is tried, behind which its connection closes.
pub(crate) const REFUSED: Row = Row {
    replies: &[],
    written: &[],
    sent: &[],
    ended: Ended::Closed,
    reported: NOTHING,
    ..PASSED
};

/// These texts behind one another.
pub(crate) fn joined(alloc: Global, texts: &[&str]) -> Mem<String> {
    let mut all = String::new(alloc);
    for text in texts {
        all.push_str(text)?;
    }
    Ok(all)
}

/// What came of a session, as one text.
pub(crate) fn text_of(
    alloc: Global,
    written: &str,
    sent: &str,
    ended: Option<Ended>,
    reported: Failures,
) -> Mem<String> {
    format!(in alloc; "{written} {sent} {ended:?} {reported}")
}

/// What is wanted of a session, as one text: what the client is given, what the tries send, each
/// behind one another, how the session ends, and what was reported.
pub(crate) fn wanted(
    alloc: Global,
    written: &[&str],
    sent: &[&str],
    ended: Ended,
    reported: Failures,
) -> Mem<String> {
    let written = joined(alloc, written)?;
    let sent = joined(alloc, sent)?;
    text_of(
        alloc,
        written.as_str(),
        sent.as_str(),
        Some(ended),
        reported,
    )
}

impl Row {
    /// Plays it: what is wanted has to come.
    fn play<R: Wait + Abort>(&self, rt: &R, alloc: Global) -> Result<(), Fail> {
        let gives = joined(alloc, self.gives)?;
        let played = self.play_given(rt, alloc, gives.as_str());
        drop(gives);
        played
    }

    /// The same, where the client gives this text.
    fn play_given<R: Wait + Abort>(&self, rt: &R, alloc: Global, gives: &str) -> Result<(), Fail> {
        let wanted = wanted(alloc, self.written, self.sent, self.ended, self.reported)?;
        let scene = Scene {
            failing: Failing {
                reads: self.reads,
                writes: self.writes,
                dials: self.dials,
            },
            ..Scene::of(self.table, gives, self.replies)
        };
        let played = assert_text(rt, alloc, &scene, self.about, wanted.as_str());
        drop(wanted);
        played
    }
}

/// Plays each row, of which has to come what is wanted.
pub(crate) fn play_rows<R: Wait + Abort>(rt: &R, alloc: Global, rows: &[Row]) -> Result<(), Fail> {
    for row in rows {
        row.play(rt, alloc)?;
    }
    Ok(())
}
