//! Watching for a signal that asks for an end.
ghost use Rattle.std.specs.Prelude.{◌≡◌, ◌≤◌, ◌⊎◌, true, false, IfErr, Ok};
ghost use Rattle.line_base.specs.Counts.{Rose};
ghost use Rattle.signal_watch.specs.Status.{asks_to_stop};
ghost use Rattle.signal_watch.specs.Seen.{seen_of};
ghost use Rattle.signal_watch.specs.Watching.{Asks, AsksNothing, Holds, HoldsNone, SeesNothing};
ghost use Rattle.signal_watch.specs.Watching.{calls_after};

use crate::pause::Pause;
use crate::status::{asks_to_stop, holds_stop};
use line_base::{Folder, FolderFault, Found, Mem, Stop};
use std::alloc::AllocError;
use std::sync::Wait;

/// Where the status file of a process is, for the process itself.
const STATUS: &str = "/proc/self/status";

/// A status file has fewer bytes.
const MOST_BYTES: usize = 65_536;

/// What a watch came to.
#[derive(Clone, Copy, Debug, PartialEq, Eq)]
pub enum Watched {
    /// A signal asked for an end, and the stop was called.
    Asked,
    /// Nothing is left to stop, as the pause said, and the last look found no signal.
    Over,
    /// There is no status file, and signals end the program as any other. Or nothing is left to
    /// stop, as the pause said, and the last look failed.
    Blind,
}

/// What one look found.
#[derive(Clone, Copy)]
enum Seen {
    /// A signal that asks for an end waits.
    Asked,
    /// None does.
    Quiet,
    /// There is no status file.
    Nothing,
    /// It could not be read.
    Unread,
    /// There was no memory to read it.
    NoMemory,
}

/// Whether whoever started the process has blocked a signal that asks for an end, so that a watch
/// would see it. Where none is blocked, or there is no status file that tells, signals end the
/// process as any other.
pub fn is_watchable<F: Folder>(folder: &mut F) -> Mem<bool>
    ensures held { result ≡ Ok true → Holds (F.filed folder.old).files }
    ensures free { result ≡ Ok false → HoldsNone (F.filed folder.old).files
        ⊎ SeesNothing (F.filed folder.old).files (F.filed folder.old).faults
        (F.filed folder.new).faults }
{
    match folder.read(STATUS, MOST_BYTES) {
        Ok(Found::Bytes(status)) => Ok(holds_stop(status.as_slice())),
        Ok(Found::Absent) => Ok(false),
        Ok(Found::Longer) => Ok(false),
        Err(FolderFault::Failed) => Ok(false),
        Err(FolderFault::OutOfMemory) => Err(AllocError),
    }
}

/// Looks at the status file of the process until a signal asks for an end, and then calls the stop;
/// or until the pause between two looks says that nothing is left to stop, or there is no such
/// file. A look that failed, or for which there was no memory, is made again behind the next pause:
/// so one at a moment without descriptors makes it deaf to no signal.
///
/// # Errors
/// [`AllocError`] where there was no memory for the last look before the pause that was the last.
pub fn watch<R: Wait, F: Folder, P: Pause, S: Stop>(
    rt: &R,
    folder: &mut F,
    pause: &mut P,
    stop: &mut S,
) -> Mem<Watched>
    ensures asked { result ≡ Ok Watched.Asked → Asks (F.filed folder.old).files }
    ensures over { result ≡ Ok Watched.Over → Rose (P.heard pause.old) (P.heard pause.new)
        × AsksNothing (F.filed folder.old).files }
    ensures blind { result ≡ Ok Watched.Blind → SeesNothing (F.filed folder.old).files
        (F.filed folder.old).faults (F.filed folder.new).faults }
    ensures unseen { IfErr result (λ _. Rose (P.heard pause.old) (P.heard pause.new)) }
    ensures stopped { S.calls stop.new ≡ calls_after (S.calls stop.old) result }
{
    'looks: for _ in rt.forever() {
        let seen = match look(folder) {
            Seen::Asked => {
                stop.stop();
                return Ok(Watched::Asked);
            }
            Seen::Nothing => return Ok(Watched::Blind),
            Seen::Quiet => Ok(Watched::Over),
            Seen::Unread => Ok(Watched::Blind),
            Seen::NoMemory => Err(AllocError),
        };
        if pause.pause() {
            return seen;
        }
    }
    unreachable!()
}

/// Looks once.
fn look<F: Folder>(folder: &mut F) -> Seen
    ensures asked { result ≡ Seen.Asked → Asks (F.filed folder.old).files }
    ensures quiet { result ≡ Seen.Quiet → AsksNothing (F.filed folder.old).files }
    ensures nothing { result ≡ Seen.Nothing → SeesNothing (F.filed folder.old).files
        (F.filed folder.old).faults (F.filed folder.new).faults }
    ensures unread { result ≡ Seen.Unread
        → Rose (F.filed folder.old).faults (F.filed folder.new).faults }
    ensures same { (F.filed folder.new).files ≡ (F.filed folder.old).files }
    ensures later { (F.filed folder.old).faults ≤ (F.filed folder.new).faults }
{
    match folder.read(STATUS, MOST_BYTES) {
        Ok(Found::Bytes(status)) => seen_in(status.as_slice()),
        Ok(Found::Absent) => Seen::Nothing,
        Ok(Found::Longer) => Seen::Nothing,
        Err(FolderFault::Failed) => Seen::Unread,
        Err(FolderFault::OutOfMemory) => Seen::NoMemory,
    }
}

/// What a status file says.
fn seen_in(status: &[u8]) -> Seen
    ensures { result ≡ seen_of (asks_to_stop status.now) }
{
    if asks_to_stop(status) {
        Seen::Asked
    } else {
        Seen::Quiet
    }
}
