//! What holds of every schedule. The function does nothing: its contract is the law.
ghost use Rattle.weave.specs.Laws.{EveryScheduleIsOneHistory};

/// After any list of steps of any passes, from a world in which nothing was published, each
/// operation fitted where it was published, the cache is right at the state, and each pass has seen
/// a beginning of the list in which its calls are in order.
pub fn every_schedule_is_one_history()
    ensures { EveryScheduleIsOneHistory }
{}
