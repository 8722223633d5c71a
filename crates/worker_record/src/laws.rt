//! The law of records. The function does nothing: its contract is the law.
ghost use Rattle.worker_record.specs.Laws.{RecordsAddUp};

/// Over any exchanges, a worker's tally is the one to which each was added once, in order, with the
/// moments that its clock gave as it began and as it ended. With
/// [`tallies_add_up`](exchange_tally::tallies_add_up), each of its counts is the sum of what they
/// are worth.
pub fn records_add_up()
    ensures { RecordsAddUp }
{}
