//! What ends the looks of a watch, and the time between two of them.
use crate::pause::Pause;
use std::alloc::{AllocError, Global};
use std::sync::atomic::{AtomicBool, Ordering};
use std::sync::{Arc, Wait};
use std::thread::Parker;
use std::time::Duration;

/// How long a pause is, in milliseconds: four looks a second.
const PAUSE_MILLISECONDS: u64 = 250;

/// Whether what a watch runs beside has come to its end. A pause that waits meanwhile ends at once.
pub struct Finish {
    state: Arc<FinishState>,
}

impl Drop for Finish {
    fn drop(self) {
        let Finish { state } = self;
        drop(state);
    }
}

/// What the holders of a finish share.
#[derive(Drop)]
struct FinishState {
    is_over: AtomicBool,
    parker: Parker,
}

impl Finish {
    /// It has not come yet.
    pub fn awaited(alloc: Global) -> Result<Finish, AllocError> {
        let state = FinishState {
            is_over: AtomicBool::new(false),
            parker: Parker::new(),
        };
        Ok(Finish {
            state: Arc::new(alloc, state)?,
        })
    }

    /// The same one, for another holder.
    pub fn share(&self) -> Result<Finish, AllocError> {
        Ok(Finish {
            state: Arc::try_clone(&self.state)?,
        })
    }

    /// It comes, for all holders.
    pub fn come(&self) {
        self.state.is_over.store(true, Ordering::SeqCst);
        self.state.parker.unpark();
    }

    /// Waits for it, for this long at most, and says whether it has come.
    fn wait_for<R: Wait>(&self, rt: &R, most: Duration) -> bool {
        self.state.parker.park_timeout(rt, most);
        self.state.is_over.load(Ordering::SeqCst)
    }
}

/// A pause of a quarter of a second, which ends at a finish.
pub struct FinishPause<'a, R> {
    rt: &'a R,
    finish: Finish,
    heard: u64,
}

impl<R> Drop for FinishPause<'_, R> {
    fn drop(self) {
        let FinishPause {
            rt: _,
            finish,
            heard: _,
        } = self;
        drop(finish);
    }
}

impl<'a, R> FinishPause<'a, R> {
    /// A pause that ends at this finish. It has not heard of it yet.
    pub fn of(rt: &'a R, finish: Finish) -> FinishPause<'a, R> {
        FinishPause {
            rt,
            finish,
            heard: 0,
        }
    }
}

impl<R: Wait> Pause for FinishPause<'_, R> {
    ghost heard = { λ p. p.heard };

    fn pause(&mut self) -> bool {
        let most = Duration::from_millis(PAUSE_MILLISECONDS);
        let is_over = self.finish.wait_for(self.rt, most);
        if is_over {
            self.heard = self.heard.saturating_add(1);
        }
        is_over
    }
}
