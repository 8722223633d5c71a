//! What is told of exchanges, and of the connections that they came on.

use crate::exchange::Exchange;

/// What becomes of the connection of a client.
#[derive(Clone, Copy, Debug, PartialEq, Eq)]
pub enum ConnectionStep {
    /// It was accepted.
    Came,
    /// It has nothing to say for now, and is left to wait for whichever worker is free then.
    Left,
    /// It is taken up again.
    Taken,
    /// It has ended.
    Finished,
}

/// What is told of each exchange, one after another, and of what becomes of the connections.
pub trait Recorder {
    ghost use Rattle.exchange_record.specs.declared.recorder.ConnectionStep.{ConnectionStep};
    ghost use Rattle.exchange_record.specs.Told.{Told, told_of};

    /// What it is told that an exchange began makes of it.
    ghost begins: { Self → Self → Type 0 };

    /// What it is told of an exchange that has ended makes of it.
    ghost ends: { Self → Told → Self → Type 0 };

    /// What it is told of a connection makes of it.
    ghost steps: { Self → ConnectionStep → Self → Type 0 };

    /// An exchange begins: its request's head was read, or it was seen that its bytes are none.
    fn begin(&mut self)
        ensures { begins self.old self.new };

    /// The exchange that began last has ended.
    fn end(&mut self, exchange: &Exchange<'_>)
        ensures { ends self.old (told_of exchange.now) self.new };

    /// This has become of a connection.
    fn step(&mut self, step: ConnectionStep)
        ensures { steps self.old step self.new };
}

/// Records nothing.
#[derive(Clone, Copy)]
pub struct NoRecorder;

impl Recorder for NoRecorder {
    ghost use Rattle.std.specs.Prelude.{◌≡◌};

    ghost begins = { λ old new. new ≡ old };

    ghost ends = { λ old told new. new ≡ old };

    ghost steps = { λ old step new. new ≡ old };

    fn begin(&mut self) {}

    fn end(&mut self, _exchange: &Exchange<'_>) {}

    fn step(&mut self, _step: ConnectionStep) {}
}
