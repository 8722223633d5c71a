//! The interfaces.
ghost use Rattle.std.specs.Prelude.{◌≡◌, ◌&&◌, not};
ghost use Rattle.api_sessions.specs.Serving.{while_closing};

/// Which of the interfaces.
#[derive(Clone, Copy, Debug, PartialEq, Eq)]
pub enum Which {
    /// namerd's.
    Namerd,
    /// The admin interface.
    Admin {
        /// Whether all is listened on, so that more connections are to be sent here. A request that
        /// is answered once the listeners are closing finds it not to be so.
        ready: bool,
    },
    /// The feed that followers read.
    Feed {
        /// The number of this run of the program, greater than those of its earlier runs.
        run: u64,
    },
}

impl Which {
    /// The interface as a request finds it, by whether the listeners are closing.
    pub(crate) fn while_closing(self, closing: bool) -> Which
        ensures { result ≡ while_closing closing self }
    {
        match self {
            Which::Namerd => Which::Namerd,
            Which::Admin { ready } => Which::Admin {
                ready: stays_ready(ready, closing),
            },
            Which::Feed { run } => Which::Feed { run },
        }
    }
}

/// Whether what was ready for more connections still is.
fn stays_ready(ready: bool, closing: bool) -> bool
    ensures { result ≡ (ready && not closing) }
{
    ready && !closing
}
