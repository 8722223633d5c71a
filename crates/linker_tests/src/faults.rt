//! Reads and writes that fail, one after another.
use crate::running::{SAMPLE, SAMPLE_OUT, assert_told, run, sink, source};
use line_doubles::{MemSink, MemSource};
use std::alloc::{AllocError, AllocGlobal};
use std::sync::Wait;
use std::test::Fail;
use std::thread::Threads;

/// What is written where a read gives one byte, and the read of this number fails; and the status.
fn reading<R: AllocGlobal + Threads + Wait + Sync>(
    rt: &R,
    failing: u64,
) -> Result<(String, u8), AllocError> {
    let alloc = rt.alloc();
    let source = MemSource::of(
        Vec::from_slice(alloc, SAMPLE.as_bytes())?,
        Vec::from_elem(alloc, 1usize, SAMPLE.len())?,
        vec![in alloc; failing]?,
    );
    run(rt, &["replay"], source, sink(alloc))
}

/// One byte a read, and each read failing in turn: nothing is carried out then.
#[test]
fn reads_in_pieces_and_failing(rt: HostRuntime) -> Result<(), Fail> {
    // One read of each byte, and one of the end.
    let reads = SAMPLE.len() as u64 + 1;
    for failing in 0..reads {
        let told = reading(&rt, failing)?;
        assert_told(&rt, told, ("error read\n", 4), &failing);
    }
    let told = reading(&rt, reads)?;
    assert_told(&rt, told, (SAMPLE_OUT, 0), &reads);
    Ok(())
}

/// What is written where a write takes one byte, and the write of this number fails; and the
/// status.
fn writing<R: AllocGlobal + Threads + Wait + Sync>(
    rt: &R,
    failing: u64,
) -> Result<(String, u8), AllocError> {
    let alloc = rt.alloc();
    let sizes = Vec::from_elem(alloc, 1usize, SAMPLE_OUT.len())?;
    let out = MemSink::of(alloc, sizes, vec![in alloc; failing]?);
    run(rt, &["replay"], source(alloc, SAMPLE)?, out)
}

/// One byte a write, and each write failing in turn: a prefix of the replies is written.
#[test]
fn writes_in_pieces_and_failing(rt: HostRuntime) -> Result<(), Fail> {
    for failing in 0..SAMPLE_OUT.len() {
        let Some((prefix, _)) = SAMPLE_OUT.split_at_checked(failing) else {
            return Err(Fail::from("no prefix"));
        };
        let told = writing(&rt, failing as u64)?;
        assert_told(&rt, told, (prefix, 5), &failing);
    }
    let told = writing(&rt, SAMPLE_OUT.len() as u64)?;
    assert_told(&rt, told, (SAMPLE_OUT, 0), &"the end");
    Ok(())
}
