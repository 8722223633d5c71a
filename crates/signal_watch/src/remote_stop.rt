//! A stop for another thread than those that serve.
ghost use Rattle.std.specs.Prelude.{◌≡◌};

use crate::stop_cell::StopCell;
use line_base::Stop;
use std::sync::Wait;

/// Closes the listeners of the net that leaves its stops in a cell, those that it makes later too.
pub struct RemoteStop<'a, R, S> {
    rt: &'a R,
    cell: StopCell<S>,
    calls: u64,
}

impl<R, S: Drop> Drop for RemoteStop<'_, R, S> {
    fn drop(self) {
        let RemoteStop {
            rt: _,
            cell,
            calls: _,
        } = self;
        drop(cell);
    }
}

impl<'a, R, S> RemoteStop<'a, R, S> {
    /// A stop that calls what stands in this cell. It was not called yet.
    pub fn of(rt: &'a R, cell: StopCell<S>) -> RemoteStop<'a, R, S>
        ensures { result.calls ≡ 0 }
    {
        RemoteStop { rt, cell, calls: 0 }
    }
}

impl<R: Wait, S: Stop + Drop> Stop for RemoteStop<'_, R, S> {
    ghost calls = { λ s. s.calls };

    fn stop(&mut self) {
        self.calls = self.calls.saturating_add(1);
        self.cell.ask(self.rt);
    }
}
