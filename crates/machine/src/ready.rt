//! Changes that are prepared.
ghost use Rattle.machine.specs.Part.{part_value, IsSoundPart, IsSoundPart-prop};

use crate::part::Part;

/// A change that a state accepted, prepared for [`State::absorb`](crate::State::absorb). Contracts
/// see it as `ready_of ready`.
///
/// It shares what was prepared with each state that absorbs it.
pub struct Ready {
    pub(crate) part: Part,
    /// The place after the change.
    pub(crate) place: u64,
    ghost sound: { IsSoundPart (part_value part) } by { IsSoundPart-prop (part_value part) },
}

impl Drop for Ready {
    fn drop(self) {
        let Ready { part, place: _ } = self;
        drop(part);
    }
}
