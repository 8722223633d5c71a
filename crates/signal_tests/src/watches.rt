//! Watches over a folder in memory.
use line_base::Mem;
use line_doubles::{MemFile, MemFolder, MemStop};
use signal_watch::{Pause, Watched, is_watchable, watch};
use std::alloc::{AllocError, AllocGlobal, Global};
use std::sync::Wait;
use std::test::Fail;

/// A pause that takes no time, and says at the last of so many that nothing is left to stop.
#[derive(Drop)]
struct Counted {
    left: u64,
    heard: u64,
}

impl Pause for Counted {
    ghost heard = { λ p. p.heard };

    fn pause(&mut self) -> bool {
        self.left = self.left.saturating_sub(1);
        if self.left > 0 {
            return false;
        }
        self.heard = self.heard.saturating_add(1);
        true
    }
}

/// The status file, if there is one, the reads that fail, what the watch comes to, and how often
/// the stop is called. The first pause is the last.
const ROWS: [(Option<&str>, &[u64], Watched, u64); 4] = [
    (Some("ShdPnd:\t0000000000004000\n"), &[], Watched::Asked, 1),
    (Some("ShdPnd:\t0000000000000000\n"), &[], Watched::Over, 0),
    (Some("ShdPnd:\t0000000000004000\n"), &[0], Watched::Blind, 0),
    (None, &[], Watched::Blind, 0),
];

/// A status file of this text.
fn status_file(alloc: Global, status: &str) -> Mem<MemFile> {
    let folder = String::from_str(alloc, "/proc/self")?;
    let Ok(name) = String::from_str(alloc, "status") else {
        drop(folder);
        return Err(AllocError);
    };
    let Ok(text) = Vec::from_slice(alloc, status.as_bytes()) else {
        drop(folder);
        drop(name);
        return Err(AllocError);
    };
    Ok(MemFile::of(folder, name, text))
}

/// Adds a file, if there was memory for it.
fn add(files: &mut Vec<MemFile>, file: Mem<MemFile>) -> Mem<()> {
    files.push(file?)?;
    Ok(())
}

/// The status file, if there is one.
fn files(alloc: Global, status: Option<&str>) -> Mem<Vec<MemFile>> {
    let mut files = Vec::new(alloc);
    let added = match status {
        Some(status) => add(&mut files, status_file(alloc, status)),
        None => Ok(()),
    };
    match added {
        Ok(()) => Ok(files),
        Err(want) => {
            drop(files);
            Err(want)
        }
    }
}

/// The folder with this status file.
pub(crate) fn folder(alloc: Global, status: Option<&str>, failing: &[u64]) -> Mem<MemFolder> {
    let files = files(alloc, status)?;
    let Ok(failing) = Vec::from_slice(alloc, failing) else {
        drop(files);
        return Err(AllocError);
    };
    Ok(MemFolder::of(alloc, files, failing))
}

/// What a watch comes to, and how often it calls its stop.
fn watched<R: AllocGlobal + Wait>(
    rt: &R,
    status: Option<&str>,
    failing: &[u64],
) -> Result<(Watched, u64), Fail> {
    let mut folder = folder(rt.alloc(), status, failing)?;
    let mut pause = Counted { left: 1, heard: 0 };
    let mut stop = MemStop::new();
    let watched = watch(rt, &mut folder, &mut pause, &mut stop);
    let calls = stop.calls();
    drop(stop);
    drop(folder);
    Ok((watched?, calls))
}

#[test]
fn a_watch_stops_where_it_is_asked(rt: HostRuntime) -> Result<(), Fail> {
    for (status, failing, came_to, calls) in &ROWS {
        assert_eq!(rt; watched(&rt, *status, failing)?, (*came_to, *calls));
    }
    Ok(())
}

/// The status file, if there is one, the reads that fail, and whether a watch would see a signal.
const HELD: [(Option<&str>, &[u64], bool); 4] = [
    (Some("SigBlk:\t0000000000004002\n"), &[], true),
    (Some("SigBlk:\t0000000000000001\n"), &[], false),
    (Some("SigBlk:\t0000000000004002\n"), &[0], false),
    (None, &[], false),
];

/// Whether a watch would see a signal.
fn held(alloc: Global, status: Option<&str>, failing: &[u64]) -> Result<bool, Fail> {
    let mut folder = folder(alloc, status, failing)?;
    let held = is_watchable(&mut folder);
    drop(folder);
    Ok(held?)
}

#[test]
fn signals_that_are_blocked_can_be_watched(rt: HostRuntime) -> Result<(), Fail> {
    for (status, failing, expected) in &HELD {
        assert_eq!(rt; held(rt.alloc(), *status, failing)?, *expected);
    }
    Ok(())
}
