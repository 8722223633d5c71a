//! What holds over any turns.
ghost use Rattle.workers.specs.Turns.{EachHasOne};

/// Over any turns, the peers that came and the connections that were taken up are as many as the
/// peers that were given back and the connections that were left: none is lost between two turns.
pub fn each_turn_has_one_connection<P, S>()
    ensures { EachHasOne P S }
{}
