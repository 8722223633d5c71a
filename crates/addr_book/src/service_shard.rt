//! A part of the services, by their names.
ghost use Rattle.std.specs.Prelude.{◌≡◌, ℕ, OnOk, OnErr, IfOk, IfErr, MatchOption, option_map};
ghost use Rattle.std.specs.Prelude.{map as each, true, false, ◌++◌};
ghost use Rattle.std.specs.Ordering.{nat_cmp};
ghost use Rattle.std.specs.FinMap as map;
ghost use Rattle.std.specs.Cmp.Lexicographic.{slice_cmp};
ghost use Rattle.addr_book.specs.ServiceShard.{served};
ghost use Rattle.addr_book.specs.Sorted.{map_of, IsInOrder, IsPlace, IsGap};

use crate::Mem;
use crate::addr_list::AddrList;
use crate::name::Name;
use std::alloc::Global;
use std::marker::Model;
use std::sync::Arc;

/// For how many services more a copy has room.
const SPARE: usize = 2;

/// A service and its addresses.
struct Service {
    name: Name,
    list: Arc<AddrList>,
}

impl Drop for Service {
    fn drop(self) {
        let Service { name, list } = self;
        drop(name);
        drop(list);
    }
}

/// Some services, each with its addresses: one shard of [`Services`](crate::services::Services).
/// Contracts see a finite map. Copies share the names and the lists.
///
/// They lie in the order of the names. A look-up takes about `log n` comparisons of names; a new
/// service, and one that goes, moves those behind it.
pub(crate) struct ServiceShard {
    items: Vec<Service>,
}

impl Drop for ServiceShard {
    fn drop(self) {
        let ServiceShard { items } = self;
        drop(items);
    }
}

impl Model for ServiceShard {
    ghost use Rattle.std.specs.Ordering.{nat_cmp};
    ghost use Rattle.std.specs.Cmp.Lexicographic.{slice_cmp};
    ghost use Rattle.addr_book.specs.Book.{Services, services_code};
    ghost use Rattle.addr_book.specs.ServiceShard.{served};
    ghost use Rattle.addr_book.specs.Sorted.{map_of, IsInOrder};

    ghost Value = { Services };

    ghost coded = { services_code };

    ghost view = { λ s. map_of served s.items.items };

    ghost invariant = { λ s. IsInOrder (slice_cmp nat_cmp) served s.items.items };
}

impl ServiceShard {
    /// No services. It takes no memory.
    pub(crate) fn new(alloc: Global) -> ServiceShard
        ensures { result ≡ map.empty }
    {
        ServiceShard {
            items: Vec::new(alloc),
        }
    }

    /// The addresses of a service, if it is there.
    pub(crate) fn get(&self, service: &Name) -> Option<&AddrList>
        ensures { option_map (λ list. list.now) result ≡ map.get self.now service.now }
    {
        match search(self.items.as_slice(), service.text()) {
            Ok(at) => Some(&*self.items[at].list),
            Err(_) => None,
        }
    }

    /// The service with this name's text, if it is there.
    pub(crate) fn find(&self, text: &[u8]) -> Option<&Name>
        ensures { MatchOption result (map.contains_key self.now text.now ≡ false)
            (λ name. (name.now ≡ text.now) × (map.contains_key self.now text.now ≡ true)) }
    {
        match search(self.items.as_slice(), text) {
            Ok(at) => Some(&self.items[at].name),
            Err(_) => None,
        }
    }

    /// Puts the names of its services after some others, in their order. They share their bytes.
    pub(crate) fn put_names(&self, names: &mut Vec<Name>) -> Mem<()>
        ensures { OnOk result (names.new.items ≡ names.old.items ++ map.keys self.now) }
    {
        for item in self.items.as_slice() {
            names.push(item.name.clone()?)?;
        }
        Ok(())
    }

    /// Puts a service with its addresses, in the place of its like, and says whether it was there.
    /// An `Err` changes nothing.
    pub(crate) fn insert(&mut self, alloc: Global, service: &Name, list: &AddrList) -> Mem<bool>
        ensures ok { OnOk result (self.new ≡ map.insert self.old service.now list.now) }
        ensures there { IfOk result (λ there. there ≡ map.contains_key self.old service.now) }
        ensures err { OnErr result (self.new ≡ self.old) }
    {
        let item = Service {
            name: service.clone()?,
            list: Arc::new(alloc, list.clone()?)?,
        };
        put(&mut self.items, item)
    }

    /// Takes a service away, and says whether it was there.
    pub(crate) fn remove(&mut self, service: &Name) -> bool
        ensures services { self.new ≡ map.remove self.old service.now }
        ensures there { result ≡ map.contains_key self.old service.now }
    {
        match search(self.items.as_slice(), service.text()) {
            Ok(at) => {
                self.items.remove(at);
                true
            }
            Err(_) => false,
        }
    }
}

impl Clone for ServiceShard {
    ghost is_clone = { λ shard clone. clone ≡ shard };

    /// Shares the names and the lists.
    fn clone(&self) -> Mem<ServiceShard> {
        Ok(ServiceShard {
            items: shared(*self.items.allocator(), self.items.as_slice())?,
        })
    }
}

/// The place of the service with this name's text, or the place where it would go.
fn search(items: &[Service], text: &[u8]) -> Result<usize, usize>
    requires { IsInOrder (slice_cmp nat_cmp) served items.now }
    ensures found { IfOk result (IsPlace (slice_cmp nat_cmp) served items.now text.now) }
    ensures absent { IfErr result (IsGap (slice_cmp nat_cmp) served items.now text.now) }
{
    items.binary_search_by(|item| item.name.text().cmp(text))
}

/// Puts a service with its addresses, in the place of its like, and says whether it was there. An
/// `Err` changes nothing.
fn put(items: &mut Vec<Service>, item: Service) -> Mem<bool>
    requires { IsInOrder (slice_cmp nat_cmp) served items.old.items }
    ensures sorted { IsInOrder (slice_cmp nat_cmp) served items.new.items }
    ensures ok { OnOk result
        (map_of served items.new.items
        ≡ map.insert (map_of {R = slice_cmp nat_cmp} served items.old.items) (served item).0
        (served item).1) }
    ensures there { IfOk result
        (λ there. there ≡ map.contains_key (map_of {R = slice_cmp nat_cmp} served items.old.items)
        (served item).0) }
    ensures err { OnErr result (items.new.items ≡ items.old.items) }
{
    match search(items.as_slice(), item.name.text()) {
        Ok(at) => {
            items[at] = item;
            Ok(true)
        }
        Err(at) => {
            items.insert(at, item)?;
            Ok(false)
        }
    }
}

/// The same services once more, with room for some more.
fn shared(alloc: Global, items: &[Service]) -> Mem<Vec<Service>>
    ensures { IfOk result (λ copy. each served copy.items ≡ each served items.now) }
{
    let mut copy = Vec::with_capacity(alloc, items.len().saturating_add(SPARE))?;
    for item in items {
        copy.push(Service {
            name: item.name.clone()?,
            list: Arc::try_clone(&item.list)?,
        })?;
    }
    Ok(copy)
}
