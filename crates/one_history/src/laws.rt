//! The laws. The functions do nothing: their contracts are the laws, for any operations and calls.
ghost use Rattle.std.specs.Prelude.{ℕ, Bool, List, Option};
ghost use Rattle.one_history.specs.Calls.{CallPlaces, PlacedStays, CountsStay, CallCounts};
ghost use Rattle.one_history.specs.Order.{CountShowsOrder, CountShowsCallers, OthersLeaveOrder};
ghost use Rattle.one_history.specs.Order.{CallKeepsOrder};

/// Items stay placed while the list of published operations grows.
pub fn placed_items_stay<O, C>()
    ensures { (is_change : O → Bool) (publishes : List O → ℕ → ℕ → ℕ → C → Option O)
        → PlacedStays is_change publishes }
{}

/// Each call of a caller whose items are placed leaves them placed, with one more.
pub fn calls_place_items<O, C>()
    ensures { (is_change : O → Bool) (publishes : List O → ℕ → ℕ → ℕ → C → Option O)
        → CallPlaces is_change publishes }
{}

/// While the list of published operations grows, what items published stays as it is, and so does
/// how many changes and how many others that is.
pub fn counts_stay<O, C>()
    ensures { (is_change : O → Bool) (publishes : List O → ℕ → ℕ → ℕ → C → Option O)
        → CountsStay is_change publishes }
{}

/// Each call of a caller adds to that what it published: one change where it published a change,
/// one other where it published another operation, and nothing where it published nothing.
pub fn calls_count<O, C>()
    ensures { (is_change : O → Bool) (publishes : List O → ℕ → ℕ → ℕ → C → Option O)
        → CallCounts is_change publishes }
{}

/// Distinct callers whose items are placed in one list made no more changes than the list has;
/// where they made as many, each one's changes in the list are exactly those that its items
/// published, in their order.
pub fn counts_show_order<O, C>()
    ensures { (is_change : O → Bool) (publishes : List O → ℕ → ℕ → ℕ → C → Option O)
        (caller_of : O → ℕ) → CountShowsOrder is_change publishes caller_of }
{}

/// Where they made as many, each change that the list has is of one of these callers.
pub fn counts_show_callers<O, C>()
    ensures { (is_change : O → Bool) (publishes : List O → ℕ → ℕ → ℕ → C → Option O)
        (caller_of : O → ℕ) → CountShowsCallers is_change publishes caller_of }
{}

/// A caller's items stay in order while other callers publish, and with one more call of its own
/// behind all that was published, with what that publishes next.
pub fn callers_stay_in_order<O, C>()
    ensures others { (is_change : O → Bool) (publishes : List O → ℕ → ℕ → ℕ → C → Option O)
        (caller_of : O → ℕ) → OthersLeaveOrder is_change publishes caller_of }
    ensures own { (is_change : O → Bool) (publishes : List O → ℕ → ℕ → ℕ → C → Option O)
        (caller_of : O → ℕ) → CallKeepsOrder is_change publishes caller_of }
{}
