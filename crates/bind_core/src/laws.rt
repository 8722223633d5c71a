//! What holds of all delegations. The functions do nothing: their contracts are the laws.
ghost use Rattle.bind_core.specs.Laws.{IsLocal, AreWalkedLean};

/// A delegation depends on nothing but what the tables and the book say of the paths that it looks
/// up. Where other tables rewrite each of these paths to the same trees, and another book says the
/// same of what it names, the outcome, the cost and the lookups are the same. So an outcome may be
/// kept and used again for as long as that holds.
pub fn delegation_is_local()
    ensures { IsLocal }
{}

/// A tree without what makes no lookup comes to the same, after the same lookups, whatever paths
/// come to and whatever labels stand behind its leaves.
pub fn lean_trees_are_walked_alike()
    ensures { AreWalkedLean }
{}
