//! Asks: for which path a replica is to be picked.
ghost use Rattle.dtab_table.specs.Dtab.{rules_of};
ghost use Rattle.dtab_table.specs.TableCanon.{AreSoundRules};
ghost use Rattle.machine.specs.Sound.{AreSoundRules-prop};

use crate::Mem;
use dtab_table::Dtab;
use name_tree::Path;
use std::alloc::Global;

/// A path to pick a replica for. Its own table is sound, as every table that is read from text.
pub struct Ask {
    /// The path.
    pub path: Path,
    /// The request's own table, which comes behind the others, so its entries are tried first.
    pub local: Dtab,
    /// The moment of the pick, in milliseconds.
    pub moment: u64,
    /// Random words: the first chooses the branch of a union, the second and the third the two
    /// replicas of which the less loaded one is taken.
    pub words: [u64; 3],
    ghost sound: { AreSoundRules (rules_of local) } by { AreSoundRules-prop (rules_of local) },
}

impl Drop for Ask {
    fn drop(self) {
        let Ask {
            path,
            local,
            moment: _,
            words: _,
        } = self;
        drop(path);
        drop(local);
    }
}

impl Ask {
    ghost use Rattle.std.specs.Prelude.{◌≡◌, IfOk};
    ghost use Rattle.machine.specs.Code.{ask_of};

    /// The path to pick a replica for.
    pub fn into_path(self) -> Path
        ensures { result ≡ self.path }
    {
        let Ask {
            path,
            local,
            moment: _,
            words: _,
        } = self;
        drop(local);
        path
    }

    /// An equal ask. It shares the path and the table, and takes no memory.
    pub fn copied(&self, alloc: Global) -> Mem<Ask>
        ensures { IfOk result (λ copy. ask_of copy ≡ ask_of self.now) }
    {
        Ok(Ask {
            path: self.path.part(alloc, 0, self.path.len())?,
            local: self.local.copied(alloc)?,
            moment: self.moment,
            words: self.words,
        })
    }
}
