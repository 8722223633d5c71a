//! What one history means: the list of published operations, the items of its callers, and how both
//! fit together.
//!
//! Callers publish operations into one list. Each caller keeps, in proofs alone, what it has seen
//! of that list, which begins it, and its items: the calls that it made, each with its point, the
//! number of operations that stood before it. What a call publishes follows from what stood before
//! its point, so the items determine, in order, which operations are the caller's (`entries` of
//! `specs/Entries.antt`), each numbered among its changes or among its other operations.
//!
//! The items are *placed* (`Placed` of `specs/Calls.antt`): points never fall, rise behind an item
//! that published, and each operation stands in the list at its item's point. A *call* (`Called`)
//! sees no less than its caller had seen, and adds one item at a point that is no earlier. A
//! caller's history is *in order* (`InOrder` of `specs/Order.antt`) where the list has no other
//! change of that caller than those that its items published.
//!
//! The definitions speak of any operations and any calls, so a model of all schedules and the
//! running router cite the same ones.
//!
//! # What is proved
//! [`placed_items_stay`]: items stay placed while the list grows. [`calls_place_items`]: each call
//! places one item more. [`counts_stay`]: what items published, and how many changes and others
//! that is, stays while the list grows. [`calls_count`]: one call raises the number of changes by
//! one exactly where it published a change, and that of others likewise. [`counts_show_order`]:
//! callers of which no two are one, whose items are placed in one list, made no more changes than
//! the list has; where they made as many, each caller's stand in it as its items published them.
//! [`counts_show_callers`]: the list has no other change then. So a count that threads keep shows
//! that nothing was published twice or by nobody. [`callers_stay_in_order`]: a caller's items stay
//! in order while others publish, and with one more call at the end.
//!
//! It has no tests of its own: what it says of threads is shown by `router_tests`.
//!
//! # Example
//! A caller with the number 0 that made a change, looked, and made another one, while caller 1 made
//! one between:
//! ```text
//! list:   change 0 of 0, change 0 of 1, change 1 of 0
//! items:  (change, 0), (look, 1), (change, 2)
//! entries: (change 0 of 0, 0), (change 1 of 0, 2)
//! ```
#![tactic(auto)]

mod laws;

pub use laws::{
    callers_stay_in_order, calls_count, calls_place_items, counts_show_callers, counts_show_order,
    counts_stay, placed_items_stay,
};
