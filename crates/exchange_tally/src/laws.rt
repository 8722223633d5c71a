//! The laws of tallies. The function does nothing: its contract is the laws.
ghost use Rattle.exchange_tally.specs.Laws.{ClassesAddUp, PlacesTellFigures, TalliesAddUp};

/// Over any exchanges, a count of a tally to which each was added by [`Tally::add`](crate::Tally)
/// is what it began with and the sum of what they are worth, up to the last value of a `u64`. Each
/// exchange counts to exactly one class of replies, so the classes add up to the exchanges. Figures
/// of one place are counted together, so a place tells which number stands there.
pub fn tallies_add_up()
    ensures sums { TalliesAddUp }
    ensures classes { ClassesAddUp }
    ensures places { PlacesTellFigures }
{}
