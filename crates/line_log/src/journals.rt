//! What makes journals.
ghost use Rattle.std.specs.Prelude.{◌≡◌, IfOk, OnErr, OnOk};

use crate::Mem;
use crate::journal::Journal;
use std::alloc::Global;

/// What makes the journals of workers, each over one path, and takes them back once the workers
/// have ended.
pub trait Journals {
    ghost use Rattle.std.specs.Prelude.{List, Option};
    ghost use Rattle.line_log.specs.Logged.{HasNone, Logged, with_log};

    /// A journal.
    type J: Journal + Drop + Send;

    /// What was logged by the journals that it was given back, in order, where it tells that.
    ghost closed: { Self → Option (List Logged) };

    /// A journal over a path, which was given no line yet. The only error is out of memory: a path
    /// that can't be written shows as lines that are lost.
    fn open(&mut self, alloc: Global, path: &str) -> Mem<Self::J>
        ensures path { IfOk result (λ journal. (Self.J.log journal).path ≡ path.now) }
        ensures none { IfOk result (λ journal. HasNone (Self.J.log journal)) }
        ensures closed { closed self.new ≡ closed self.old };

    /// Takes a journal back. The only error is that there is no memory to keep what it tells.
    fn close(&mut self, journal: Self::J) -> Mem<()>
        ensures ok { OnOk result (closed self.new
            ≡ with_log (closed self.old) (Self.J.log journal)) }
        ensures err { OnErr result (closed self.new ≡ closed self.old) };
}
