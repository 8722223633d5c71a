//! A watch beside what serves.
use crate::watches::folder;
use line_base::{Folder, Mem, Net, Stop};
use line_doubles::{MemFolder, MemNet, MemPeer, MemStop};
use signal_watch::{Pause, RemoteStop, StopCell, StoppableNet, Watched, watch};
use std::alloc::AllocGlobal;
use std::sync::Wait;
use std::sync::atomic::{AtomicBool, Ordering};
use std::test::Fail;
use std::thread::{self, Threads};

/// A pause that lasts until what serves has ended.
#[derive(Drop)]
struct Until<'a> {
    is_over: &'a AtomicBool,
    heard: u64,
}

impl Pause for Until<'_> {
    ghost heard = { λ p. p.heard };

    fn pause(&mut self) -> bool {
        thread::yield_now();
        let is_over = self.is_over.load(Ordering::SeqCst);
        if is_over {
            self.heard = self.heard.saturating_add(1);
        }
        is_over
    }
}

/// A net in memory, of which each stop has one beside it in a cell.
type Stoppable<'a, R> = StoppableNet<'a, R, MemNet<MemPeer>, MemStop>;

/// Takes a stop of this net, and ends what serves. It gives how often the stop was called.
fn serve<R: Wait>(net: &mut Stoppable<'_, R>, is_over: &AtomicBool) -> u64 {
    let stop = net.stopper();
    let calls = stop.calls();
    drop(stop);
    is_over.store(true, Ordering::SeqCst);
    calls
}

/// Watches a folder beside what serves with this net. It gives what the watch came to, and how
/// often the stop of what serves was called.
fn watch_beside<R: Wait + Threads + Sync, F: Folder + Send, S: Stop + Send>(
    rt: &R,
    folder: &mut F,
    remote: &mut S,
    net: &mut Stoppable<'_, R>,
    is_over: &AtomicBool,
) -> (Mem<Watched>, u64) {
    let mut pause = Until { is_over, heard: 0 };
    thread::join(
        rt,
        || watch(rt, folder, &mut pause, remote),
        || serve(net, is_over),
    )
}

/// The same of a new net; and how many stops the net below it handed out, and how many came back.
fn watched_beside<R: AllocGlobal + Wait + Threads + Sync>(
    rt: &R,
    folder: &mut MemFolder,
) -> Result<(Watched, u64, (u64, u64)), Fail> {
    let alloc = rt.alloc();
    let cell = StopCell::new(alloc)?;
    let shared = match cell.share() {
        Ok(shared) => shared,
        Err(want) => {
            drop(cell);
            return Err(Fail::from(want));
        }
    };
    let mut remote = RemoteStop::of(rt, shared);
    let below = MemNet::of(alloc, Vec::new(alloc), Vec::new(alloc), Vec::new(alloc));
    let mut net: Stoppable<'_, R> = StoppableNet::of(rt, below, cell);
    let is_over = AtomicBool::new(false);
    let (watched, calls) = watch_beside(rt, folder, &mut remote, &mut net, &is_over);
    let stops = net.net().stops();
    drop(net);
    drop(remote);
    Ok((watched?, calls, stops))
}

/// The watch ends with what serves beside it. Each stop that the net hands out has one beside it in
/// the cell, which the net below counts, and the net above does not.
#[test]
fn a_watch_ends_with_what_serves(rt: HostRuntime) -> Result<(), Fail> {
    let mut folder = folder(rt.alloc(), Some("ShdPnd:\t0000000000000001\n"), &[])?;
    let told = watched_beside(&rt, &mut folder);
    drop(folder);
    assert_eq!(rt; told?, (Watched::Over, 0, (2, 0)));
    Ok(())
}
