//! Namespaces in the byte order of their names.
ghost use Rattle.std.specs.Prelude.{◌≡◌, IsTrue, map, IfOk};
ghost use Rattle.std.specs.FinMap.{is_sorted};
ghost use Rattle.std.specs.Ordering.{nat_cmp};
ghost use Rattle.std.specs.Cmp.Lexicographic.{slice_cmp};
ghost use Rattle.ns_store.specs.Namespace.{entry_of};

use crate::Mem;
use crate::namespace::Namespace;
use addr_book::Name;
use dtab_table::Dtab;
use std::alloc::Global;
use std::sync::Arc;

/// Some namespaces, no two with one name, in the byte order of their names. Contracts see them as
/// the finite map `spaces_of`.
pub(crate) struct Spaces {
    items: Vec<Namespace>,
    ghost sorted: { IsTrue (is_sorted (slice_cmp nat_cmp) (map entry_of items.items)) },
}

impl Drop for Spaces {
    fn drop(self) {
        let Spaces { items } = self;
        drop(items);
    }
}

impl Spaces {
    ghost use Rattle.std.specs.Prelude.{◌<◌, ◌+◌, length, slice_get, option_map, Some, OnOk, OnErr};
    ghost use Rattle.std.specs.Prelude.{IfErr};
    ghost use Rattle.std.specs.FinMap as fin;
    ghost use Rattle.std.specs.Arc.{arc_value};
    ghost use Rattle.dtab_table.specs.Dtab.{rules_of};
    ghost use Rattle.ns_store.specs.Namespace.{space_of};
    ghost use Rattle.ns_store.specs.Spaces.{spaces_of, IsPlace, IsGap};

    /// No namespaces. It takes no memory.
    pub(crate) fn new(alloc: Global) -> Spaces
        ensures { spaces_of result ≡ fin.empty }
    {
        Spaces {
            items: Vec::new(alloc),
        }
    }

    /// How many there are.
    pub(crate) fn len(&self) -> usize
        ensures { result ≡ fin.len (spaces_of self.now) }
    {
        self.items.len()
    }

    /// The name at a place in their order, counted from 0.
    pub(crate) fn name(&self, at: usize) -> &Name
        requires { at < fin.len (spaces_of self.now) }
        ensures { slice_get (fin.keys (spaces_of self.now)) at ≡ Some result.now }
    {
        &self.items[at].name
    }

    /// The namespace with a name, if it is there.
    pub(crate) fn get(&self, name: &Name) -> Option<&Namespace>
        ensures { option_map (λ space. space_of space.now) result
            ≡ fin.get (spaces_of self.now) name.now }
    {
        match self.search(name) {
            Ok(at) => Some(&self.items[at]),
            Err(_) => None,
        }
    }

    /// Puts a namespace in its place, in the place of its like. An `Err` changes nothing.
    pub(crate) fn set(&mut self, name: &Name, version: u64, dtab: Arc<Dtab>) -> Mem<()>
        ensures ok { OnOk result
            (spaces_of self.new ≡ fin.insert (spaces_of self.old) name.now
            (record { version = version; rules = rules_of (arc_value dtab) })) }
        ensures err { OnErr result (spaces_of self.new ≡ spaces_of self.old) }
    {
        let name = name.clone()?;
        match self.search(&name) {
            Ok(at) => {
                self.items[at] = Namespace {
                    name,
                    version,
                    dtab,
                };
                Ok(())
            }
            Err(at) => Ok(
                self.items.insert(
                    at,
                    Namespace {
                        name,
                        version,
                        dtab,
                    },
                )?,
            ),
        }
    }

    /// Takes a namespace away, if it is there.
    pub(crate) fn remove(&mut self, name: &Name)
        ensures { spaces_of self.new ≡ fin.remove (spaces_of self.old) name.now }
    {
        if let Ok(at) = self.search(name) {
            self.items.remove(at);
        }
    }

    /// The same namespaces, with room for one more. They share their names and tables.
    pub(crate) fn copied(&self) -> Mem<Spaces>
        ensures { IfOk result (λ copy. spaces_of copy ≡ spaces_of self.now) }
    {
        Ok(Spaces {
            items: copied_items(*self.items.allocator(), self.items.as_slice())?,
        })
    }

    /// The place of the namespace with a name, or the place where it would go.
    fn search(&self, name: &Name) -> Result<usize, usize>
        ensures found { IfOk result (IsPlace self.now name.now) }
        ensures absent { IfErr result (IsGap self.now name.now) }
    {
        self.items.binary_search_by(|space| space.name.cmp(name))
    }
}

/// The same namespaces in their order, with room for one more.
fn copied_items(alloc: Global, items: &[Namespace]) -> Mem<Vec<Namespace>>
    ensures { IfOk result (λ copy. map entry_of copy.items ≡ map entry_of items.now) }
{
    let mut copy = Vec::with_capacity(alloc, items.len().saturating_add(1))?;
    for space in items {
        copy.push(Namespace {
            name: space.name.clone()?,
            version: space.version,
            dtab: Arc::try_clone(&space.dtab)?,
        })?;
    }
    Ok(copy)
}
