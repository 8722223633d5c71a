//! What closes the listeners.
ghost use Rattle.std.specs.Prelude.{◌≡◌};

use super::queue::Queue;
use line_base::Stop;
use std::alloc::{AllocError, Global};
use std::sync::Arc;
use std::sync::atomic::{AtomicU64, Ordering};

/// Whether the listeners of a net are closed. The net, its listeners and its stops share it.
#[derive(Drop)]
pub(crate) struct Closing {
    is_closed: Arc<AtomicU64>,
}

impl Closing {
    /// They are open.
    pub(crate) fn open(alloc: Global) -> Result<Closing, AllocError> {
        Ok(Closing {
            is_closed: Arc::new(alloc, AtomicU64::new(0))?,
        })
    }

    /// Another that is closed with this one.
    pub(crate) fn share(&self) -> Result<Closing, AllocError> {
        Ok(Closing {
            is_closed: Arc::try_clone(&self.is_closed)?,
        })
    }

    /// Whether they are closed. Once they are, they stay so.
    pub(crate) fn is_closed(&self) -> bool {
        self.is_closed.load(Ordering::SeqCst) == 1
    }

    /// Closes them.
    pub(crate) fn close(&self) {
        self.is_closed.store(1, Ordering::SeqCst);
    }
}

/// The queues of a net's addresses.
pub(crate) type Queues = Arc<Vec<Arc<Queue>>>;

/// What closes the listeners. Those who wait in their queues are handed out still. Then each
/// listener answers that it is closed, those that wait for a peer at once, and from then on always.
pub struct SocketStop {
    closing: Option<Closing>,
    queues: Option<Queues>,
    calls: u64,
}

impl Drop for SocketStop {
    fn drop(self) {
        let SocketStop {
            closing,
            queues,
            calls: _,
        } = self;
        drop(closing);
        drop(queues);
    }
}

impl SocketStop {
    /// A stop of these listeners, which was not called yet. It closes nothing of what is missing.
    pub(crate) fn of(closing: Option<Closing>, queues: Option<Queues>) -> SocketStop
        ensures { result.calls ≡ 0 }
    {
        SocketStop {
            closing,
            queues,
            calls: 0,
        }
    }
}

impl Stop for SocketStop {
    ghost calls = { λ s. s.calls };

    fn stop(&mut self) {
        self.calls = self.calls.saturating_add(1);
        // The listeners are closed before the queues are: an accept that fails then knows why.
        if let Some(closing) = &self.closing {
            closing.close();
        }
        if let Some(queues) = &self.queues {
            for queue in queues.iter() {
                queue.close();
            }
        }
    }
}
