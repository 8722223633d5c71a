//! Whether a client pauses between its requests.
//!
//! A listener that waits for one client hears of no other meanwhile. That pays for a client that
//! speaks again at once, and for one that pauses it never does: with many of those, one listener
//! after another would wait behind each reply, and find nothing. So a client is waited for behind a
//! reply only where it was prompt before.
use super::waiting::{Heard, PROMPT_MILLISECONDS};
use line_base::Next;
use std::io;
use std::sync::atomic::{AtomicU64, Ordering};

/// What was heard of a client last, and how soon it spoke again when it was last found quiet. A new
/// client counts as prompt.
#[derive(Drop)]
pub(crate) struct Pace {
    heard: Heard,
    /// Whether it was silent for more than [`PROMPT_MILLISECONDS`].
    is_slow: bool,
    /// When it was left to be watched, in milliseconds of its queue.
    left: AtomicU64,
}

impl Pace {
    /// Nothing was heard so far.
    pub(crate) fn new() -> Pace {
        Pace {
            heard: Heard::Nothing,
            is_slow: false,
            left: AtomicU64::new(0),
        }
    }

    /// What was heard last.
    pub(crate) fn heard(&self) -> Heard {
        self.heard
    }

    /// Whether it was silent for more than [`PROMPT_MILLISECONDS`] when it was last found quiet.
    pub(crate) fn is_slow(&self) -> bool {
        self.is_slow
    }

    /// It is read in the middle of a request.
    pub(crate) fn go_on(&mut self) {
        self.heard = Heard::Bytes;
    }

    /// It is left to be watched, at this moment.
    pub(crate) fn leave(&self, moment: u64) {
        self.left.store(moment, Ordering::SeqCst);
    }

    /// Its next request is about to be read, at this moment. One that was found quiet has been
    /// silent since it was left.
    pub(crate) fn resume(&mut self, moment: u64) {
        if self.heard == Heard::Quiet {
            let silent = moment.saturating_sub(self.left.load(Ordering::SeqCst));
            self.is_slow = self.is_slow || silent > PROMPT_MILLISECONDS;
        }
    }

    /// This came of the read of its next request, for which it was waited or not. One that was
    /// waited for, and is quiet still, is slow.
    pub(crate) fn hear(&mut self, is_awaited: bool, next: &io::Result<Next>) {
        if self.heard != Heard::Quiet {
            self.is_slow = is_awaited && matches!(next, Ok(Next::Quiet));
        }
        self.heard = match next {
            Ok(Next::Quiet) | Ok(Next::Closing) => Heard::Quiet,
            Ok(_) | Err(_) => Heard::Bytes,
        };
    }
}
