//! Bindings.
ghost use Rattle.std.specs.Prelude.{◌≡◌, ◌+◌, ◌↔◌, ◌++◌, ◌^◌, ◌-◌, min, length, sum_by, List};
ghost use Rattle.std.specs.Prelude.{IsTrue, IfOk, OnOk};
ghost use Rattle.name_tree.specs.Path.{canon_path};
ghost use Rattle.dtab_table.specs.Dtab.{rules_of};
ghost use Rattle.dtab_table.specs.Rules.{Rule};
ghost use Rattle.dtab_table.specs.TableCanon.{canon_table};
ghost use Rattle.bind_core.specs.Delegation.{Names};
ghost use Rattle.bind_core.specs.Outcome.{ending_of, IsDelegated};
ghost use Rattle.bind_cache.specs.Hash.{key_hash};
ghost use Rattle.bind_cache.specs.Sizes.{text_bytes};

use crate::Mem;
use crate::hash::key_hash;
use crate::touch::same_entries;
use bind_core::{Delegated, Outcome, PathList};
use dtab_table::{Dtab, write_dtab};
use name_tree::{Path, append_path};
use std::alloc::Global;

/// What a path came to in the proxy's tables and its book, with a request's own table behind them.
///
/// Contracts see it as `kept_of binding`.
pub struct Binding {
    path: Path,
    local: Dtab,
    outcome: Outcome,
    asked: PathList,
    cost: u32,
    bytes: usize,
    place: u64,
    hash: u64,
    ghost filed: { hash ≡ key_hash path (rules_of local) },
}

impl Drop for Binding {
    fn drop(self) {
        let Binding {
            path,
            local,
            outcome,
            asked,
            cost: _,
            bytes: _,
            place: _,
            hash: _,
        } = self;
        drop(path);
        drop(local);
        drop(outcome);
        drop(asked);
    }
}

impl Binding {
    ghost use Rattle.bind_core.specs.declared.outcome.Wanted.{Wanted};
    ghost use Rattle.bind_cache.specs.Kept.{IsRight, is_key};
    ghost use Rattle.bind_cache.specs.Stored.{kept_of};

    /// The binding of a path and a request's own table, of what a delegation came to after so many
    /// accepted changes. The delegation is to be one of which the paths were wanted.
    ///
    /// It shares the path and the table, and takes memory for their texts and those of the paths
    /// for as long as it counts their bytes.
    pub fn of(
        alloc: Global,
        path: &Path,
        local: &Dtab,
        found: Delegated,
        place: u64,
    ) -> Mem<Binding>
        ensures kept { IfOk result (λ b. kept_of b ≡ record {
          path = path.now;
          local = rules_of local.now;
          ending = ending_of found.outcome;
          cost = found.cost;
          asked = found.asked;
          bytes = min (text_bytes path.now (rules_of local.now) found.asked) (2 ^ 64 - 1);
          place = place;
        }) }
        ensures right { (rules : List Rule) → (names : Names)
            → IsDelegated (rules ++ rules_of local.now) names path.now Wanted.Asked found
            → IfOk result (λ b. IsRight rules names (kept_of b)) }
    {
        let copied = copied_key(alloc, path, local, found.asked.items());
        let (own_path, own_local, bytes) = match copied {
            Ok(key) => key,
            Err(want) => {
                drop(found);
                return Err(want);
            }
        };
        let cost = found.cost;
        let (outcome, asked, trace) = found.into_parts();
        drop(trace);
        Ok(Binding {
            path: own_path,
            local: own_local,
            outcome,
            asked,
            cost,
            bytes,
            place,
            hash: key_hash(path, local),
        })
    }

    /// The path that was bound.
    pub fn path(&self) -> &Path
        ensures { result.now ≡ (kept_of self.now).path }
    {
        &self.path
    }

    /// The request's own table.
    pub fn local(&self) -> &Dtab
        ensures { rules_of result.now ≡ (kept_of self.now).local }
    {
        &self.local
    }

    /// What the path came to.
    pub fn outcome(&self) -> &Outcome
        ensures { ending_of result.now ≡ (kept_of self.now).ending }
    {
        &self.outcome
    }

    /// The paths that were looked up, in the order in which their lookups began. None where there
    /// were more than 256.
    pub fn asked(&self) -> &PathList
        ensures { result.now ≡ (kept_of self.now).asked }
    {
        &self.asked
    }

    /// How many lookups it took, at most 10,001.
    pub fn cost(&self) -> u32
        ensures { result ≡ (kept_of self.now).cost }
    {
        self.cost
    }

    /// How many bytes the canonical texts of the path, the request's own table and the paths that
    /// were looked up have together.
    pub fn bytes(&self) -> usize
        ensures { result ≡ (kept_of self.now).bytes }
    {
        self.bytes
    }

    /// How many changes had been accepted when it was worked out.
    pub fn place(&self) -> u64
        ensures { result ≡ (kept_of self.now).place }
    {
        self.place
    }

    /// Whether it is asked for by this path and this table.
    pub(crate) fn is_for(&self, path: &Path, local: &Dtab) -> bool
        ensures { result ≡ is_key path.now (rules_of local.now) (kept_of self.now) }
    {
        if !path.same(&self.path) {
            return false;
        }
        same_entries(local.entries(), self.local.entries())
    }

    /// The number by which it is filed.
    pub(crate) fn hash(&self) -> u64
        ensures hash { result ≡ self.now.hash }
        ensures key { result ≡ key_hash (kept_of self.now).path (kept_of self.now).local }
    {
        self.hash
    }
}

/// Copies of a path and of a request's own table, by which a binding is found, and how many bytes
/// their texts and those of the paths that were looked up have together.
fn copied_key(alloc: Global, path: &Path, local: &Dtab, asked: &[Path]) -> Mem<(Path, Dtab, usize)>
    ensures path { IfOk result (λ key. key.0 ≡ path.now) }
    ensures local { IfOk result (λ key. rules_of key.1 ≡ rules_of local.now) }
    ensures bytes { IfOk result (λ key. key.2
        ≡ min (text_bytes path.now (rules_of local.now) asked.now) (2 ^ 64 - 1)) }
{
    let bytes = count_bytes(alloc, path, local, asked)?;
    let own_path = Path::new(alloc).joined(alloc, path)?;
    let own_local = local.copied(alloc)?;
    Ok((own_path, own_local, bytes))
}

/// How many bytes the canonical texts of a path, a table and some paths have together.
fn count_bytes(alloc: Global, path: &Path, local: &Dtab, asked: &[Path]) -> Mem<usize>
    ensures { IfOk result
        (λ bytes. bytes ≡ min (text_bytes path.now (rules_of local.now) asked.now) (2 ^ 64 - 1)) }
{
    let mut text = write_dtab(alloc, local)?;
    append_path(path, &mut text)?;
    for looked_up in asked {
        append_path(looked_up, &mut text)?;
    }
    Ok(text.len())
}
