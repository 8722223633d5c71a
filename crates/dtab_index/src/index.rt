//! Prefixes of paths, and which of them match a path.

use crate::Mem;
use crate::part::Part;
use crate::parts::{add_to, matches_any, part_with_room, put_matching};
use name_tree::Path;
use std::alloc::Global;
use std::marker::Model;

/// Some prefixes of paths, each with its position, which contracts see as the list of what was
/// added.
pub struct Index {
    parts: Vec<Part>,
}

impl Drop for Index {
    fn drop(self) {
        let Index { parts } = self;
        drop(parts);
    }
}

impl Model for Index {
    ghost use Rattle.std.specs.Prelude.{List, Option, ℕ};

    ghost Value = { List (List (Option (List ℕ)) × ℕ) };

    ghost use Rattle.dtab_index.specs.Parts.{placed_by, AreKept};

    ghost view = { λ x. placed_by x.parts.items };

    ghost invariant = { λ x. AreKept x.parts.items };
}

impl Index {
    ghost use Rattle.std.specs.Prelude.{◌≡◌, [], ◌∷◌, ◌++◌, map, IfOk, OnOk, OnErr};
    ghost use Rattle.dtab_index.specs.Index.{matching, some_matches_there, AreBelow};
    ghost use Rattle.dtab_index.specs.Prefix.{patterns_of};

    /// The index with no prefix. It takes no memory.
    pub fn new(alloc: Global) -> Index
        ensures { result ≡ [] }
    {
        Index {
            parts: Vec::new(alloc),
        }
    }

    /// Puts a prefix, in which `None` is `*`, and its position behind the others. An `Err` changes
    /// nothing.
    ///
    /// The cost is one pass over the prefix. Of 1,024 prefixes, the index keeps two sets for each
    /// position at which one of them has a label, and one for each label that they have there, with
    /// the label; a set has 128 bytes.
    pub fn add(&mut self, prefix: Vec<Option<Vec<u8>>>, at: u32) -> Mem<()>
        requires { AreBelow at self.old }
        ensures ok { OnOk result (self.new ≡ self.old ++ (patterns_of prefix.items, at) ∷ []) }
        ensures err { OnErr result (self.new ≡ self.old) }
    {
        let place = part_with_room(&mut self.parts)?;
        add_to(&mut self.parts, place, prefix, at)?;
        Ok(())
    }

    /// The positions of the prefixes that match a path, the greatest first.
    ///
    /// The cost is, for every 1,024 prefixes, a look-up of each label of the path, as far as one of
    /// them reaches, with a step for each 64 prefixes, and a step for each prefix that matches; and
    /// the memory of the answer, none where nothing matches.
    pub fn matching(&self, alloc: Global, path: &Path) -> Mem<Vec<u32>>
        ensures { IfOk result (λ found. found.items ≡ matching self.now path.now) }
    {
        let mut found = Vec::new(alloc);
        put_matching(self.parts.as_slice(), path, &mut found)?;
        Ok(found)
    }

    /// Whether one of the prefixes at the positions from one to before another matches a path. It
    /// takes no memory.
    ///
    /// The cost is that of [`Index::matching`] at most, but for the memory.
    pub fn matches_any(&self, from: u32, to: u32, path: &Path) -> bool
        ensures { result ≡ some_matches_there from to self.now path.now }
    {
        matches_any(self.parts.as_slice(), from, to, path)
    }
}
