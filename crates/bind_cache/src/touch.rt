//! What changed, and which paths that touches.
ghost use Rattle.std.specs.Prelude.{◌≡◌, ◌≤◌, length, map};
ghost use Rattle.std.specs.List.{list_any};
ghost use Rattle.dtab_table.specs.Rules.{rule_of};
ghost use Rattle.dtab_table.specs.Dtab.{rules_of};
ghost use Rattle.bind_cache.specs.Same.{same_rules};
ghost use Rattle.bind_cache.specs.Changes.{common_front, common_back, gone, added, names_service};

use addr_book::Name;
use dtab_table::{Dtab, Entry};
use name_tree::Path;

/// How many labels name a service: `#`, `io.l5d.fs` and the service.
const SERVICE_LABELS: usize = 3;

/// The rules of two tables that are not in both: in each those from `front` to before its end,
/// counted from 0.
#[derive(Drop)]
pub(crate) struct ChangedRules<'a> {
    old: &'a Dtab,
    new: &'a Dtab,
    front: usize,
    old_end: usize,
    new_end: usize,
    ghost old_order: { front ≤ old_end },
    ghost new_order: { front ≤ new_end },
    ghost old_within: { old_end ≤ length (rules_of old.now) },
    ghost new_within: { new_end ≤ length (rules_of new.now) },
}

/// What changed.
#[derive(Drop)]
pub(crate) enum Touch<'a> {
    /// Rules of a table.
    Rules(ChangedRules<'a>),
    /// A service was added or removed.
    Service(&'a Name),
}

impl<'a> ChangedRules<'a> {
    ghost use Rattle.bind_cache.specs.Touch.{gone_in, added_in};

    /// What changed between two tables.
    ///
    /// It compares the rules that both have at their fronts and at their ends, and one more at
    /// each.
    pub(crate) fn between(old: &'a Dtab, new: &'a Dtab) -> ChangedRules<'a>
        ensures old { gone_in result ≡ gone (rules_of old.now) (rules_of new.now) }
        ensures new { added_in result ≡ added (rules_of old.now) (rules_of new.now) }
    {
        let old_entries = old.entries();
        let new_entries = new.entries();
        let front = common_front(old_entries, new_entries);
        let back = common_back(&old_entries[front..], &new_entries[front..]);
        ChangedRules {
            old,
            new,
            front,
            old_end: old.len() - back,
            new_end: new.len() - back,
        }
    }
}

impl<'a> Touch<'a> {
    ghost use Rattle.bind_cache.specs.Touch.{touched_by};

    /// Whether a path is touched.
    pub(crate) fn touches(&self, path: &Path) -> bool
        ensures { result ≡ touched_by self.now path.now }
    {
        match self {
            Touch::Rules(rules) => {
                rules.old.matches_any(rules.front, rules.old_end, path)
                    || rules.new.matches_any(rules.front, rules.new_end, path)
            }
            Touch::Service(service) => is_of_service(path, service),
        }
    }

    /// Whether one of some paths is touched.
    pub(crate) fn touches_any(&self, paths: &[Path]) -> bool
        ensures { result ≡ list_any (touched_by self.now) paths.now }
    {
        for path in paths {
            if self.touches(path) {
                return true;
            }
        }
        false
    }
}

/// Whether two lists have the same entries in the same order.
pub(crate) fn same_entries(one: &[Entry], other: &[Entry]) -> bool
    ensures { result ≡ same_rules (map rule_of one.now) (map rule_of other.now) }
{
    if one.len() != other.len() {
        return false;
    }
    common_front(one, other) == one.len()
}

/// How many entries two lists have in common at their fronts.
fn common_front(old: &[Entry], new: &[Entry]) -> usize
    ensures common { result ≡ common_front (map rule_of old.now) (map rule_of new.now) }
    ensures old { result ≤ length old.now }
    ensures new { result ≤ length new.now }
{
    let most = old.len().min(new.len());
    for count in 0..most {
        if !old[count].same(&new[count]) {
            return count;
        }
    }
    most
}

/// How many entries two lists have in common at their ends.
fn common_back(old: &[Entry], new: &[Entry]) -> usize
    ensures common { result ≡ common_back (map rule_of old.now) (map rule_of new.now) }
    ensures old { result ≤ length old.now }
    ensures new { result ≤ length new.now }
{
    let most = old.len().min(new.len());
    for count in 0..most {
        let old_at = old.len() - 1 - count;
        let new_at = new.len() - 1 - count;
        if !old[old_at].same(&new[new_at]) {
            return count;
        }
    }
    most
}

/// Whether a path is `/#/io.l5d.fs/SERVICE` or begins so.
fn is_of_service(path: &Path, service: &Name) -> bool
    ensures { result ≡ names_service service.now path.now }
{
    path.len() >= SERVICE_LABELS
        && path.label(0) == b"#".as_slice()
        && path.label(1) == b"io.l5d.fs".as_slice()
        && path.label(2) == service.text()
}
