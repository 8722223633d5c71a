//! The watch for a signal that asks for an end, in a thread beside what serves.
ghost use Rattle.std.specs.Prelude.{◌≡◌, ◌⊎◌, IfOk, IsNone, IsSome, Ok};
ghost use Rattle.signal_watch.specs.Watching.{Asks, AsksNothing, Holds, HoldsNone, SeesNothing};

use crate::finish::{Finish, FinishPause};
use crate::remote_stop::RemoteStop;
use crate::stop_cell::StopCell;
use crate::watching::{Watched, is_watchable, watch};
use line_base::{Folder, Mem, Stop};
use std::sync::Wait;

/// A watch that is to run in a thread of its own.
pub struct Watch<S> {
    stops: StopCell<S>,
    finish: Finish,
}

impl<S: Drop> Drop for Watch<S> {
    fn drop(self) {
        let Watch { stops, finish } = self;
        drop(stops);
        drop(finish);
    }
}

impl<S: Stop + Drop> Watch<S> {
    /// A watch that calls the stops of this cell, and ends with this finish. There is none where
    /// whoever started the process has blocked no signal that asks for an end, or no status file
    /// tells that he has: signals end the process as any other then.
    ///
    /// # Errors
    /// [`AllocError`](std::alloc::AllocError) where there was no memory for it, or to read the
    /// status file.
    pub fn wanted<F: Folder>(
        folder: &mut F,
        stops: &StopCell<S>,
        finish: &Finish,
    ) -> Mem<Option<Watch<S>>>
        ensures held { IfOk result (λ watch. IsSome watch → Holds (F.filed folder.old).files) }
        ensures free { IfOk result (λ watch. IsNone watch → HoldsNone (F.filed folder.old).files
            ⊎ SeesNothing (F.filed folder.old).files (F.filed folder.old).faults
            (F.filed folder.new).faults) }
    {
        if !is_watchable(folder)? {
            return Ok(None);
        }
        Ok(Some(Watch {
            stops: stops.share()?,
            finish: finish.share()?,
        }))
    }

    /// Watches until a signal asks for an end, or until its finish has come.
    ///
    /// # Errors
    /// [`AllocError`](std::alloc::AllocError) where there was no memory for the last look.
    pub fn run<R: Wait, F: Folder>(self, rt: &R, folder: &mut F) -> Mem<Watched>
        ensures asked { result ≡ Ok Watched.Asked → Asks (F.filed folder.old).files }
        ensures over { result ≡ Ok Watched.Over → AsksNothing (F.filed folder.old).files }
    {
        let Watch { stops, finish } = self;
        let mut pause = FinishPause::of(rt, finish);
        let mut stop = RemoteStop::of(rt, stops);
        watch(rt, folder, &mut pause, &mut stop)
    }
}
