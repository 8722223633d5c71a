//! Services by their names.
ghost use Rattle.std.specs.Prelude.{◌≡◌, ◌+◌, ◌-◌, ◌<◌, ◌^◌, if◌then◌else◌, length, map as each};
ghost use Rattle.std.specs.Prelude.{OnOk, IfOk, None, MatchOption, option_map, slice_index_or};
ghost use Rattle.std.specs.Prelude.{slice_set, true, false, ◌++◌};
ghost use Rattle.std.specs.FinMap as map;
ghost use Rattle.addr_book.specs.Services.{name_place, service_shard};
ghost use Rattle.addr_book.specs.Shards.{IsChanged, joined_keys};

use crate::Mem;
use crate::addr_list::AddrList;
use crate::name::Name;
use crate::service_shard::ServiceShard;
use std::alloc::Global;
use std::marker::Model;
use std::sync::Arc;
use text_parts::fnv_hash;

/// How many shards there are: a prime, and in a full book about as many as services in one of them.
const SHARDS: usize = 61;

/// The shards, in order. `None` stands for one that never had a service.
type Shards = Vec<Option<Arc<ServiceShard>>>;

/// Services, each with its addresses. Contracts see a finite map. Copies share the lists.
///
/// The services are spread over 61 shards by a hash of the name, so that 4,096 are about 67 a
/// shard. A copy shares the shards, and a change copies its shard where other services share it:
/// about as many counts go up for the shards as for the services of one shard.
pub(crate) struct Services {
    shards: Shards,
    len: usize,
}

impl Drop for Services {
    fn drop(self) {
        let Services { shards, len: _ } = self;
        drop(shards);
    }
}

impl Model for Services {
    ghost use Rattle.std.specs.Prelude.{◌≡◌, map as each};
    ghost use Rattle.std.specs.FinMap as map;
    ghost use Rattle.addr_book.specs.Book.{Services as Value_of, services_code};
    ghost use Rattle.addr_book.specs.Services.{name_place, service_shard};
    ghost use Rattle.addr_book.specs.Shards.{IsSharded, whole};

    ghost Value = { Value_of };

    ghost coded = { services_code };

    ghost view = { λ s. whole (each service_shard s.shards.items) };

    ghost invariant = { λ s. IsSharded name_place 61 (each service_shard s.shards.items)
        × (s.len ≡ map.len (whole (each service_shard s.shards.items))) };
}

impl Services {
    /// No services.
    pub(crate) fn new(alloc: Global) -> Mem<Services>
        ensures { IfOk result (λ services. services ≡ map.empty) }
    {
        let mut shards = Vec::with_capacity(alloc, SHARDS)?;
        for _place in 0..SHARDS {
            shards.push(None)?;
        }
        Ok(Services { shards, len: 0 })
    }

    /// How many there are.
    pub(crate) fn len(&self) -> usize
        ensures { result ≡ map.len self.now }
    {
        self.len
    }

    /// The addresses of a service, if it is there.
    pub(crate) fn get(&self, service: &Name) -> Option<&AddrList>
        ensures { option_map (λ list. list.now) result ≡ map.get self.now service.now }
    {
        match &self.shards[place_of(service.text())] {
            Some(shard) => shard.get(service),
            None => None,
        }
    }

    /// The service with this name's text, if it is there.
    pub(crate) fn find(&self, text: &[u8]) -> Option<&Name>
        ensures { MatchOption result (map.contains_key self.now text.now ≡ false)
            (λ name. (name.now ≡ text.now) × (map.contains_key self.now text.now ≡ true)) }
    {
        match &self.shards[place_of(text)] {
            Some(shard) => shard.find(text),
            None => None,
        }
    }

    /// The names of all, in the order of their bytes. They share their bytes.
    pub(crate) fn names(&self, alloc: Global) -> Mem<Vec<Name>>
        ensures { IfOk result (λ names. names.items ≡ map.keys self.now) }
    {
        let mut names = shard_names(alloc, self.len, self.shards.as_slice())?;
        names.sort_unstable();
        Ok(names)
    }

    /// These services with one and its addresses, in the place of its like.
    pub(crate) fn with(self, service: &Name, list: &AddrList) -> Mem<Services>
        requires { map.len self < 2 ^ 32 }
        ensures { IfOk result (λ services. services ≡ map.insert self service.now list.now) }
    {
        let Services { mut shards, len } = self;
        let was_there = insert_at(&mut shards, place_of(service.text()), service, list)?;
        Ok(Services {
            shards,
            len: len_with(len, was_there),
        })
    }

    /// These services without one.
    pub(crate) fn without(self, service: &Name) -> Mem<Services>
        ensures { IfOk result (λ services. services ≡ map.remove self service.now) }
    {
        let Services { mut shards, len } = self;
        let was_there = remove_at(&mut shards, place_of(service.text()), service)?;
        Ok(Services {
            shards,
            len: len_without(len, was_there),
        })
    }

    /// These services with one and its addresses, in a map of its own.
    pub(crate) fn copied_with(&self, service: &Name, list: &AddrList) -> Mem<Services>
        requires { map.len self.now < 2 ^ 32 }
        ensures { IfOk result (λ services. services ≡ map.insert self.now service.now list.now) }
    {
        self.copied()?.with(service, list)
    }

    /// These services without one, in a map of its own.
    pub(crate) fn copied_without(&self, service: &Name) -> Mem<Services>
        ensures { IfOk result (λ services. services ≡ map.remove self.now service.now) }
    {
        self.copied()?.without(service)
    }

    /// The same services, in a map that shares the shards.
    pub(crate) fn copied(&self) -> Mem<Services>
        ensures { IfOk result (λ copy. copy ≡ self.now) }
    {
        Ok(Services {
            shards: shared_shards(*self.shards.allocator(), self.shards.as_slice())?,
            len: self.len,
        })
    }
}

/// The place of the shard of a service, by its name's text.
#[tactic(auto, unfolding(crate::specs::Services::name_place))]
fn place_of(text: &[u8]) -> usize
    ensures place { result ≡ name_place text.now }
    ensures below { result < 61 }
{
    (fnv_hash(text) % SHARDS as u64) as usize
}

/// Puts a service with its addresses, in the place of its like, into the shard at a place, and says
/// whether it was there. The shard is copied first where other services share it.
fn insert_at(shards: &mut Shards, place: usize, service: &Name, list: &AddrList) -> Mem<bool>
    requires { place < length shards.old.items }
    ensures changed { OnOk result
        (IsChanged service_shard shards.old.items shards.new.items place
        (map.insert (service_shard (slice_index_or shards.old.items place None)) service.now
        list.now)) }
    ensures there { IfOk result
        (λ there. there
        ≡ map.contains_key (service_shard (slice_index_or shards.old.items place None))
        service.now) }
{
    let alloc = *shards.allocator();
    match &mut shards[place] {
        Some(shard) => Arc::make_mut(shard)?.insert(alloc, service, list),
        None => {
            let mut shard = ServiceShard::new(alloc);
            let was_there = shard.insert(alloc, service, list)?;
            shards[place] = Some(Arc::new(alloc, shard)?);
            Ok(was_there)
        }
    }
}

/// Takes a service out of the shard at a place, and says whether it was there. The shard is copied
/// first where other services share it.
fn remove_at(shards: &mut Shards, place: usize, service: &Name) -> Mem<bool>
    requires { place < length shards.old.items }
    ensures changed { OnOk result
        (IsChanged service_shard shards.old.items shards.new.items place
        (map.remove (service_shard (slice_index_or shards.old.items place None)) service.now)) }
    ensures there { IfOk result
        (λ there. there
        ≡ map.contains_key (service_shard (slice_index_or shards.old.items place None))
        service.now) }
{
    match &mut shards[place] {
        Some(shard) => Ok(Arc::make_mut(shard)?.remove(service)),
        None => Ok(false),
    }
}

/// How many there are with one that was there already or not.
fn len_with(len: usize, was_there: bool) -> usize
    requires { len < 2 ^ 32 }
    ensures { result ≡ (if was_there then len else len + 1) }
{
    if was_there { len } else { len + 1 }
}

/// How many there are without one that was there or not.
fn len_without(len: usize, was_there: bool) -> usize
    ensures { result ≡ (if was_there then len - 1 else len) }
{
    if was_there {
        len.saturating_sub(1)
    } else {
        len
    }
}

/// The names of the services of some shards, shard by shard, in a list with room for so many.
fn shard_names(alloc: Global, room: usize, shards: &[Option<Arc<ServiceShard>>]) -> Mem<Vec<Name>>
    ensures { IfOk result
        (λ names. names.items ≡ joined_keys (each service_shard shards.now)) }
{
    let mut names = Vec::with_capacity(alloc, room)?;
    for shard in shards {
        put_names(shard, &mut names)?;
    }
    Ok(names)
}

/// Puts the names of a shard's services after some others.
fn put_names(shard: &Option<Arc<ServiceShard>>, names: &mut Vec<Name>) -> Mem<()>
    ensures { OnOk result
        (names.new.items ≡ names.old.items ++ map.keys (service_shard shard.now)) }
{
    match shard {
        Some(shard) => shard.put_names(names),
        None => Ok(()),
    }
}

/// The same shards once more.
fn shared_shards(alloc: Global, shards: &[Option<Arc<ServiceShard>>]) -> Mem<Shards>
    ensures { IfOk result (λ copy. each service_shard copy.items ≡ each service_shard shards.now) }
{
    let mut copy = Vec::with_capacity(alloc, SHARDS)?;
    for shard in shards {
        copy.push(shared_shard(shard)?)?;
    }
    Ok(copy)
}

/// The same shard once more.
fn shared_shard(shard: &Option<Arc<ServiceShard>>) -> Mem<Option<Arc<ServiceShard>>>
    ensures { IfOk result (λ copy. service_shard copy ≡ service_shard shard.now) }
{
    match shard {
        Some(shard) => Ok(Some(Arc::try_clone(shard)?)),
        None => Ok(None),
    }
}
