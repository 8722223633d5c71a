//! Where the stop of a net's listeners is found by what is no job of theirs.

use line_base::{Mem, Stop};
use std::alloc::Global;
use std::sync::{Arc, Mutex, Wait};

/// The stop of some listeners, for another thread than those that serve them.
///
/// A net hands a stop out with each listener, and it comes back with it: so what only watches has
/// none of its own, and the listeners may not even be there when it is asked for an end. The net
/// leaves a stop here instead ([`StoppableNet`](crate::StoppableNet)), and the watch calls what it
/// finds ([`RemoteStop`](crate::RemoteStop)). Listeners that are made once an end was asked for are
/// closed as soon as they serve.
pub struct StopCell<S> {
    state: Arc<Mutex<StopState<S>>>,
}

impl<S: Drop> Drop for StopCell<S> {
    fn drop(self) {
        let StopCell { state } = self;
        drop(state);
    }
}

/// What stands in the cell.
struct StopState<S> {
    /// Whether an end was asked for.
    is_asked: bool,
    /// What closes the listeners, once they are there.
    stop: Option<S>,
}

impl<S: Drop> Drop for StopState<S> {
    fn drop(self) {
        let StopState { is_asked: _, stop } = self;
        drop(stop);
    }
}

impl<S: Stop + Drop> StopCell<S> {
    /// A cell of listeners that are not there yet.
    pub fn new(alloc: Global) -> Mem<StopCell<S>> {
        let state = StopState {
            is_asked: false,
            stop: None,
        };
        Ok(StopCell {
            state: Arc::new(alloc, Mutex::new(state))?,
        })
    }

    /// The same cell, for another holder.
    pub fn share(&self) -> Mem<StopCell<S>> {
        Ok(StopCell {
            state: Arc::try_clone(&self.state)?,
        })
    }

    /// Leaves a stop here in place of the last one. It is called where an end was asked for.
    pub fn leave<R: Wait>(&self, rt: &R, stop: S) {
        let mut guard = self.state.lock(rt);
        let state = &mut *guard;
        let mut stop = stop;
        if state.is_asked {
            stop.stop();
        }
        state.stop = Some(stop);
    }

    /// Asks for an end: the stop that stands here is called, and each that is left here later.
    pub(crate) fn ask<R: Wait>(&self, rt: &R) {
        let mut guard = self.state.lock(rt);
        let state = &mut *guard;
        state.is_asked = true;
        if let Some(stop) = &mut state.stop {
            stop.stop();
        }
    }
}
