//! Access logs of which writes fail, each in turn, or take a part of a line.

use crate::cut_files::{CutFiles, taken};
use line_log::{Journal, LineCounts};
use log_file::FileJournal;
use std::rt::Files;
use std::test::Fail;

/// What the writes of a log take that is given three lines, what its file holds then, and how many
/// of the lines were written and lost.
struct Row {
    takes: &'static [usize],
    text: &'static str,
    written: u64,
    lost: u64,
}

static ROWS: [Row; 8] = [
    Row {
        takes: &[9, 9, 9],
        text: "one\ntwo\nthree\n",
        written: 3,
        lost: 0,
    },
    // each line fails in turn, and costs no other
    Row {
        takes: &[0, 9, 9],
        text: "two\nthree\n",
        written: 2,
        lost: 1,
    },
    Row {
        takes: &[9, 0, 9],
        text: "one\nthree\n",
        written: 2,
        lost: 1,
    },
    Row {
        takes: &[9, 9],
        text: "one\ntwo\n",
        written: 2,
        lost: 1,
    },
    // a line that goes out in pieces is whole
    Row {
        takes: &[1, 1, 9, 3, 1, 9],
        text: "one\ntwo\nthree\n",
        written: 3,
        lost: 0,
    },
    // a line that was cut off is ended before the next
    Row {
        takes: &[9, 2, 0, 9, 9],
        text: "one\ntw\nthree\n",
        written: 2,
        lost: 1,
    },
    // where that fails too, the next is lost, and the one after it begins a line
    Row {
        takes: &[3, 0, 0, 9, 9],
        text: "one\nthree\n",
        written: 1,
        lost: 2,
    },
    // a disk that stays full in the middle of the last line
    Row {
        takes: &[9, 9, 5],
        text: "one\ntwo\nthree",
        written: 2,
        lost: 1,
    },
];

/// Gives three lines to a log.
fn append_three<J: Journal>(journal: &mut J) {
    for line in ["one\n", "two\n", "three\n"] {
        journal.append(line.as_bytes(), 0);
    }
}

/// How many of three lines are written and lost by a log over these files.
fn counted<F: Files>(files: &F, path: String) -> LineCounts {
    let mut journal = FileJournal::at(files, path);
    append_three(&mut journal);
    let counts = journal.counts();
    drop(journal);
    counts
}

/// What the file of a log holds that was given three lines, and how many were written and lost.
fn logged<R: Files + AllocGlobal>(
    rt: &R,
    takes: &'static [usize],
) -> Result<(String, u64, u64), Fail> {
    let path = String::from_str(rt.alloc(), "torn.log")?;
    let counts = counted(&CutFiles { rt, takes }, path);
    let text = taken(rt, "torn.log")?;
    Ok((text, counts.written, counts.lost))
}

#[test]
fn each_line_is_whole_or_lost(rt: HostRuntime) -> Result<(), Fail> {
    for row in &ROWS {
        let (text, written, lost) = logged(&rt, row.takes)?;
        assert!(rt;
            text.as_str() == row.text && written == row.written && lost == row.lost,
            "{:?}: {text}",
            row.takes
        );
    }
    Ok(())
}
