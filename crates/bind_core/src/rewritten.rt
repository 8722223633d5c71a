//! Paths that are looked up, and the trees that they are rewritten to.
ghost use Rattle.std.specs.Prelude.{◌≡◌, ◌<◌, ◌++◌, length, drop, IfOk, MatchOption};
ghost use Rattle.name_tree.specs.Path.{canon_path};
ghost use Rattle.bind_core.specs.Delegation.{most_path_bytes};
ghost use Rattle.bind_core.specs.Rewritten.{labels_of};

use crate::Mem;
use name_tree::{Path, Tree};
use std::alloc::Global;
use std::rc::Rc;

/// The most bytes of the text of a path that is looked up.
pub(crate) const MOST_PATH_BYTES: usize = 2_048;

/// A path that is looked up, which all that is left to try of its lookup holds.
pub(crate) enum HeldPath<'a> {
    /// It is lent by the caller, or by a leaf of a table.
    Lent(&'a Path),
    /// It was joined of a leaf and the rest of another path.
    Shared(Rc<Path>),
}

impl Drop for HeldPath<'_> {
    fn drop(self) {
        match self {
            HeldPath::Lent(_) => {}
            HeldPath::Shared(path) => drop(path),
        }
    }
}

/// What a path is rewritten to: a tree of a table, with the labels of the path from a place on,
/// counted from 0, behind every leaf. The tree is lent, and no label is copied before a leaf is
/// looked up.
#[derive(Drop)]
pub(crate) struct Rewritten<'a> {
    /// The tree as the table has it.
    pub(crate) tree: &'a Tree,
    /// The path that was looked up.
    pub(crate) path: HeldPath<'a>,
    /// How many labels of it the prefix took. Those from there on stand behind the leaves.
    pub(crate) from: usize,
}

impl<'a> HeldPath<'a> {
    /// The path.
    pub(crate) fn as_path(&self) -> &Path
        ensures { result.now ≡ labels_of self.now }
    {
        match self {
            HeldPath::Lent(path) => path,
            HeldPath::Shared(path) => path,
        }
    }

    /// The same path once more. It copies no label and takes no memory.
    pub(crate) fn share(&self) -> Mem<HeldPath<'a>>
        ensures { IfOk result (λ path. labels_of path ≡ labels_of self.now) }
    {
        match self {
            HeldPath::Lent(path) => Ok(HeldPath::Lent(path)),
            HeldPath::Shared(path) => Ok(HeldPath::Shared(path.clone()?)),
        }
    }

    /// The path of a leaf with the labels of this path from a place on, counted from 0, behind its
    /// own. Where there are none, the leaf is lent. Where there are some and the leaf's text alone
    /// is longer than that of a path that is looked up, nothing is copied and there is no answer.
    /// So what is copied is shorter than the texts of two paths that are looked up.
    pub(crate) fn behind(
        &self,
        alloc: Global,
        leaf: &'a Path,
        from: usize,
    ) -> Mem<Option<HeldPath<'a>>>
        ensures { IfOk result (λ joined. MatchOption joined
            (most_path_bytes < length (canon_path (leaf.now ++ drop from (labels_of self.now))))
            (λ path. labels_of path ≡ leaf.now ++ drop from (labels_of self.now))) }
    {
        let path = self.as_path();
        if path.len() <= from {
            return Ok(Some(HeldPath::Lent(leaf)));
        }
        if !leaf.text_fits(MOST_PATH_BYTES) {
            return Ok(None);
        }
        let joined = leaf.joined_from(alloc, path, from)?;
        Ok(Some(HeldPath::Shared(Rc::new(alloc, joined)?)))
    }
}
