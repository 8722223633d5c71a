//! The counts of connections.
ghost use Rattle.std.specs.Prelude.{◌≡◌, ◌<◌, ◌≤◌};
ghost use Rattle.worker_record.specs.Connections.{after_step, count_of, step_place};

use exchange_record::ConnectionStep;

/// What became of the connections of clients, as one worker has counted it. Each count stands still
/// at the last value of a `u64`. Over all workers, those that came and have not finished are open,
/// and those that were left and not taken up again wait.
#[derive(Clone, Copy, Debug, PartialEq, Eq)]
pub struct ConnectionCounts {
    /// Those that were accepted.
    pub came: u64,
    /// Those that have ended.
    pub finished: u64,
    /// How often one was left to wait.
    pub left: u64,
    /// How often one that waited was taken up again.
    pub taken: u64,
}

impl ConnectionCounts {
    /// How often there was a step.
    pub fn count(&self, step: ConnectionStep) -> u64
        ensures { result ≡ count_of step self.now }
    {
        match step {
            ConnectionStep::Came => self.came,
            ConnectionStep::Left => self.left,
            ConnectionStep::Taken => self.taken,
            ConnectionStep::Finished => self.finished,
        }
    }

    /// The counts with one step more.
    pub(crate) fn after(self, step: ConnectionStep) -> ConnectionCounts
        ensures { result ≡ after_step step self }
    {
        let ConnectionCounts {
            came,
            finished,
            left,
            taken,
        } = self;
        match step {
            ConnectionStep::Came => ConnectionCounts {
                came: came.saturating_add(1),
                finished,
                left,
                taken,
            },
            ConnectionStep::Left => ConnectionCounts {
                came,
                finished,
                left: left.saturating_add(1),
                taken,
            },
            ConnectionStep::Taken => ConnectionCounts {
                came,
                finished,
                left,
                taken: taken.saturating_add(1),
            },
            ConnectionStep::Finished => ConnectionCounts {
                came,
                finished: finished.saturating_add(1),
                left,
                taken,
            },
        }
    }
}

/// The place of a step's count, behind those of the lines.
pub(crate) fn step_place(step: ConnectionStep) -> u32
    ensures place { result ≡ step_place step }
    ensures within { result < 52 }
{
    match step {
        ConnectionStep::Came => 48,
        ConnectionStep::Finished => 49,
        ConnectionStep::Left => 50,
        ConnectionStep::Taken => 51,
    }
}
