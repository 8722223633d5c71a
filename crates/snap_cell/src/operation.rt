//! What is published, and to what.
use left_right::Absorb;

/// A step that one caller publishes. A contract reads who published it, and which of that caller's
/// operations it is.
pub trait Operation: Drop {
    ghost use Rattle.std.specs.Prelude.{ℕ};

    /// The number of the caller that publishes it.
    ghost caller: { Self → ℕ };

    /// The number that the caller gives it among its own.
    ghost serial: { Self → ℕ };
}

/// A value that takes in operations.
pub trait Published<O: Operation>: Absorb<O> + Drop {
    /// Whether an operation may be published where the value has this state.
    ghost fits: { Self.State → O → Type 0 };
}
