//! The tables of a delegation.
ghost use Rattle.std.specs.Prelude.{◌≡◌, ◌+◌, ◌<◌, ◌≤◌, ◌++◌, IfOk, OnOk};
ghost use Rattle.dtab_table.specs.Dtab.{rules_of, rewrites};
ghost use Rattle.dtab_table.specs.LeanTrees.{lean_trees, lent_trees};
ghost use Rattle.bind_core.specs.Tables.{rules_in};

use crate::Mem;
use dtab_table::{Dtab, LeanTree};
use name_tree::Path;
use std::alloc::{AllocError, Global};
use std::sync::ledger::Ledger;
use step_count::Steps;

/// The tables that a path is delegated by. They stand for one table that has the entries of all
/// three, those of `space` first and those of `local` last, without making it: so the request's own
/// entries are tried first, and the namespace's last.
#[derive(Clone, Copy)]
pub struct Tables<'a> {
    /// The namespace's table.
    pub space: &'a Dtab,
    /// The configured table.
    pub base: &'a Dtab,
    /// The request's own table.
    pub local: &'a Dtab,
}

impl<'a> Tables<'a> {
    /// What there is to try of the trees that the tables rewrite a path to, in the order in which
    /// they are tried. It ticks once, and once for each table that has an entry.
    pub(crate) fn matching<L: Ledger>(
        &self,
        alloc: Global,
        path: &Path,
        steps: &mut Steps<L>,
    ) -> Mem<Vec<LeanTree<'a>>>
        ensures trees { IfOk result (λ found. lent_trees path.now found.items
            ≡ lean_trees (rewrites (rules_in self.now) path.now)) }
        ensures ticks { steps.old < steps.new }
        ensures few_ticks { steps.new ≤ steps.old + 4 }
    {
        steps.tick();
        let mut found = Vec::new(alloc);
        append_matching(alloc, self.local, path, &mut found, steps)?;
        append_matching(alloc, self.base, path, &mut found, steps)?;
        append_matching(alloc, self.space, path, &mut found, steps)?;
        Ok(found)
    }
}

/// Puts what there is to try of the trees that a table rewrites a path to behind others.
fn append_matching<'a, L: Ledger>(
    alloc: Global,
    table: &'a Dtab,
    path: &Path,
    found: &mut Vec<LeanTree<'a>>,
    steps: &mut Steps<L>,
) -> Mem<()>
    ensures trees { OnOk result (lent_trees path.now found.new.items
        ≡ lent_trees path.now found.old.items
        ++ lean_trees (rewrites (rules_of table.now) path.now)) }
    ensures ticks { steps.old ≤ steps.new }
    ensures few_ticks { steps.new ≤ steps.old + 1 }
{
    if table.len() == 0 {
        return Ok(());
    }
    let mut more = table.lean_matching(alloc, path, steps)?;
    if found.is_empty() {
        *found = more;
        return Ok(());
    }
    let Ok(()) = found.append(&mut more) else {
        drop(more);
        return Err(AllocError);
    };
    drop(more);
    Ok(())
}
