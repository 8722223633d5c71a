//! The prefixes of a table's entries, and what they match.
ghost use Rattle.std.specs.Prelude.{◌≡◌, ◌↔◌, [], ◌∷◌, ◌++◌, map, IsTrue, IfOk, OnOk, OnErr};
ghost use Rattle.dtab_index.specs.Index.{fits, matches};
ghost use Rattle.dtab_index.specs.Prefix.{pattern_of as indexed_pattern, patterns_of as indexed};

use crate::Mem;
use name_tree::Path;
use std::alloc::Global;
use std::marker::Model;

/// One label of a prefix.
#[derive(PartialEq, Eq, Drop)]
pub enum PrefixLabel {
    /// `*`, which matches every label.
    Star,
    /// A label, of one or more bytes, which matches itself.
    Label(Vec<u8>),
}

/// What a path must begin with for an entry to apply to it: labels, of which each is matched by a
/// label of the path. None of them is empty.
///
/// Contracts see the list of its labels, where `None` is `*`. It is made from a `Vec` and lends its
/// labels without taking memory.
pub struct Prefix {
    labels: Vec<PrefixLabel>,
}

impl Drop for Prefix {
    fn drop(self) {
        let Prefix { labels } = self;
        drop(labels);
    }
}

impl Model for Prefix {
    ghost use Rattle.std.specs.Prelude.{List, Option, ℕ, map};

    ghost Value = { List (Option (List ℕ)) };

    ghost use Rattle.dtab_table.specs.Pattern.{pattern_of, AreFilled};

    ghost view = { λ prefix. map pattern_of prefix.labels.items };

    ghost invariant = { λ prefix. AreFilled (map pattern_of prefix.labels.items) };
}

impl PrefixLabel {
    ghost use Rattle.dtab_table.specs.Pattern.{pattern_of};

    /// A copy of it, where `None` is `*`.
    fn pattern(&self, alloc: Global) -> Mem<Option<Vec<u8>>>
        ensures { IfOk result (λ pattern. indexed_pattern pattern ≡ pattern_of self.now) }
    {
        match self {
            PrefixLabel::Star => Ok(None),
            PrefixLabel::Label(label) => Ok(Some(Vec::from_slice(alloc, label.as_slice())?)),
        }
    }

    /// A copy of it.
    fn copied(&self, alloc: Global) -> Mem<PrefixLabel>
        ensures { IfOk result (λ label. pattern_of label ≡ pattern_of self.now) }
    {
        match self {
            PrefixLabel::Star => Ok(PrefixLabel::Star),
            PrefixLabel::Label(label) => Ok(PrefixLabel::Label(Vec::from_slice(
                alloc,
                label.as_slice(),
            )?)),
        }
    }

    /// Whether it matches a label of a path.
    fn matches(&self, label: &[u8]) -> bool
        ensures { result ≡ fits (pattern_of self.now) label.now }
    {
        match self {
            PrefixLabel::Star => true,
            PrefixLabel::Label(own) => own.as_slice() == label,
        }
    }

    /// Whether the other one is the same.
    fn same(&self, other: &PrefixLabel) -> bool
        ensures { IsTrue result ↔ (pattern_of self.now ≡ pattern_of other.now) }
    {
        match (self, other) {
            (PrefixLabel::Star, PrefixLabel::Star) => true,
            (PrefixLabel::Label(own), PrefixLabel::Label(label)) => {
                own.as_slice() == label.as_slice()
            }
            (PrefixLabel::Star, PrefixLabel::Label(_)) => false,
            (PrefixLabel::Label(_), PrefixLabel::Star) => false,
        }
    }
}

impl Prefix {
    ghost use Rattle.dtab_table.specs.Pattern.{pattern_of, IsFilled, AreFilled};

    /// The prefix of these labels, in their order, each of which is `*` or has a byte.
    pub fn of(labels: Vec<PrefixLabel>) -> Prefix
        requires { AreFilled (map pattern_of labels.items) }
        ensures { result ≡ map pattern_of labels.items }
    {
        Prefix { labels }
    }

    /// The prefix with no label, `/`, which matches every path. It takes no memory.
    pub(crate) fn root(alloc: Global) -> Prefix
        ensures { result ≡ [] }
    {
        Prefix {
            labels: Vec::new(alloc),
        }
    }

    /// Its labels, in order.
    pub fn labels(&self) -> &[PrefixLabel]
        ensures { map pattern_of result.now ≡ self.now }
    {
        self.labels.as_slice()
    }

    /// Whether it has no label.
    pub(crate) fn is_empty(&self) -> bool
        ensures { IsTrue result ↔ (self.now ≡ []) }
    {
        self.labels.is_empty()
    }

    /// Puts a label behind the others, which is `*` or has a byte. An `Err` changes nothing.
    pub(crate) fn push(&mut self, label: PrefixLabel) -> Mem<()>
        requires { IsFilled (pattern_of label) }
        ensures ok { OnOk result (self.new ≡ self.old ++ pattern_of label ∷ []) }
        ensures err { OnErr result (self.new ≡ self.old) }
    {
        self.labels.push(label)?;
        Ok(())
    }

    /// Copies of its labels, in order, where `None` is `*`.
    pub(crate) fn patterns(&self, alloc: Global) -> Mem<Vec<Option<Vec<u8>>>>
        ensures { IfOk result (λ patterns. indexed patterns.items ≡ self.now) }
    {
        let mut patterns = Vec::with_capacity(alloc, self.labels.len())?;
        for label in &self.labels {
            patterns.push(label.pattern(alloc)?)?;
        }
        Ok(patterns)
    }

    /// A copy of it.
    pub(crate) fn copied(&self, alloc: Global) -> Mem<Prefix>
        ensures { IfOk result (λ prefix. prefix ≡ self.now) }
    {
        let mut labels = Vec::with_capacity(alloc, self.labels.len())?;
        for label in &self.labels {
            labels.push(label.copied(alloc)?)?;
        }
        Ok(Prefix { labels })
    }

    /// Whether it matches a path: the path has a label for each of its labels, the same unless that
    /// is `*`. It takes no memory.
    pub fn matches(&self, path: &Path) -> bool
        ensures { result ≡ matches self.now path.now }
    {
        if path.len() < self.labels.len() {
            return false;
        }
        for (at, label) in self.labels.iter().enumerate() {
            if !label.matches(path.label(at)) {
                return false;
            }
        }
        true
    }

    /// Whether the other one has the same labels. It takes no memory.
    pub(crate) fn same(&self, other: &Prefix) -> bool
        ensures { IsTrue result ↔ (self.now ≡ other.now) }
    {
        if self.labels.len() != other.labels.len() {
            return false;
        }
        for (at, label) in self.labels.iter().enumerate() {
            if !label.same(&other.labels[at]) {
                return false;
            }
        }
        true
    }
}
