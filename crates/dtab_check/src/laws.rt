//! What holds of all tables. The function does nothing: its contract is the law.
ghost use Rattle.std.specs.Prelude.{List};
ghost use Rattle.dtab_table.specs.Rules.{Rule};
ghost use Rattle.dtab_check.specs.Hidden.{hidden_in, without};
ghost use Rattle.dtab_check.specs.Laws.{MayReplace};

/// A table without its hidden entries may stand in its place: every path comes to the same, at the
/// same cost and by the same lookups, with every book of services, whatever table stands before it
/// and whatever table stands behind it.
pub fn hidden_entries_are_never_asked()
    ensures { (rules : List Rule) → MayReplace rules (without (hidden_in rules) rules) }
{}
