//! By which number a binding is filed.
ghost use Rattle.std.specs.Prelude.{◌≡◌, map};
ghost use Rattle.name_tree.specs.Tree.{value_of};
ghost use Rattle.dtab_table.specs.Pattern.{pattern_of};
ghost use Rattle.dtab_table.specs.Rules.{rule_of};
ghost use Rattle.dtab_table.specs.Dtab.{rules_of};
ghost use Rattle.bind_cache.specs.Hash.{with_label, with_labels, with_pattern};
ghost use Rattle.bind_cache.specs.Hash.{with_patterns, with_tree, with_rule, with_rules, key_hash};

use dtab_table::{Dtab, Entry, PrefixLabel};
use name_tree::{Path, Tree};
use text_parts::{FNV_BASIS, fnv_mix, fnv_mix_bytes};

/// What stands behind a label: no byte.
const LABEL_END: u64 = 256;

/// What stands for `*`.
const STAR: u64 = 257;

/// What stands for a tree that is no single path.
const OTHER_TREE: u64 = 258;

/// What stands behind a prefix.
const PREFIX_END: u64 = 259;

/// What stands behind the path.
const PATH_END: u64 = 260;

/// The number by which a binding is filed: a hash of its path and of the request's own rules. Of a
/// rule's tree it looks at a single path alone, so tables that differ only in alternatives or
/// unions have one number.
#[tactic(auto, unfolding(crate::specs::Hash::key_hash))]
pub(crate) fn key_hash(path: &Path, local: &Dtab) -> u64
    ensures { result ≡ key_hash path.now (rules_of local.now) }
{
    let hash = fnv_mix(mix_labels(FNV_BASIS, path), PATH_END);
    mix_rules(hash, local.entries())
}

/// A hash, and then some rules.
fn mix_rules(hash: u64, entries: &[Entry]) -> u64
    ensures { result ≡ with_rules hash (map rule_of entries.now) }
{
    let mut all = hash;
    for entry in entries {
        all = mix_rule(all, entry);
    }
    all
}

/// A hash, and then a rule.
#[tactic(auto, unfolding(crate::specs::Hash::with_rule))]
fn mix_rule(hash: u64, entry: &Entry) -> u64
    ensures { result ≡ with_rule hash (rule_of entry.now) }
{
    let all = mix_prefix(hash, entry.prefix.labels());
    mix_tree(fnv_mix(all, PREFIX_END), &entry.tree)
}

/// A hash, and then the labels of a prefix.
fn mix_prefix(hash: u64, labels: &[PrefixLabel]) -> u64
    ensures { result ≡ with_patterns hash (map pattern_of labels.now) }
{
    let mut all = hash;
    for label in labels {
        all = mix_pattern(all, label);
    }
    all
}

/// A hash, and then a tree, of which only a single path is looked at.
#[tactic(auto, unfolding(crate::specs::Hash::with_tree))]
fn mix_tree(hash: u64, tree: &Tree) -> u64
    ensures { result ≡ with_tree hash (value_of tree.now) }
{
    match tree {
        Tree::Leaf(path) => mix_labels(hash, path),
        Tree::Neg => fnv_mix(hash, OTHER_TREE),
        Tree::Fail => fnv_mix(hash, OTHER_TREE),
        Tree::Empty => fnv_mix(hash, OTHER_TREE),
        Tree::Alt(_) => fnv_mix(hash, OTHER_TREE),
        Tree::Union(_) => fnv_mix(hash, OTHER_TREE),
    }
}

/// A hash, and then a label of a prefix.
#[tactic(auto, unfolding(crate::specs::Hash::with_pattern))]
fn mix_pattern(hash: u64, label: &PrefixLabel) -> u64
    ensures { result ≡ with_pattern hash (pattern_of label.now) }
{
    match label {
        PrefixLabel::Star => fnv_mix(hash, STAR),
        PrefixLabel::Label(bytes) => mix_label(hash, bytes.as_slice()),
    }
}

/// A hash, and then the labels of a path.
fn mix_labels(hash: u64, path: &Path) -> u64
    ensures { result ≡ with_labels hash path.now }
{
    let mut all = hash;
    for at in 0..path.len() {
        all = mix_label(all, path.label(at));
    }
    all
}

/// A hash, and then a label.
#[tactic(auto, unfolding(crate::specs::Hash::with_label))]
fn mix_label(hash: u64, label: &[u8]) -> u64
    ensures { result ≡ with_label hash label.now }
{
    fnv_mix(fnv_mix_bytes(hash, label), LABEL_END)
}
