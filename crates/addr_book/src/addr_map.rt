//! Numbers by addresses.
ghost use Rattle.std.specs.Prelude.{◌≡◌, ◌<◌, length, map as each, OnOk, IfOk, None};
ghost use Rattle.std.specs.Prelude.{slice_index_or, slice_set};
ghost use Rattle.std.specs.FinMap as map;
ghost use Rattle.addr_book.specs.AddrMap.{addr_place, addr_shard};
ghost use Rattle.addr_book.specs.Shards.{IsChanged};

use crate::Mem;
use crate::addr::Addr;
use crate::addr_shard::AddrShard;
use std::alloc::Global;
use std::marker::Model;
use std::sync::Arc;

/// How many shards a map has: a prime, so that hosts in a row and ports in a row are spread evenly.
const SHARDS: usize = 13;

/// How many hosts in a row, and how many ports in a row, go to one shard. The addresses of a
/// service mostly lie near each other, so a change of it touches few shards.
const ROW: u64 = 16;

/// The shards of a map, in order. `None` stands for one that never had an address.
type Shards = Vec<Option<Arc<AddrShard>>>;

/// A number for each of some addresses. Contracts see a finite map.
///
/// The addresses are spread over 13 shards by a hash that keeps 16 hosts in a row together, and 16
/// ports in a row. A look-up finds the shard, and in its `n` addresses takes about `log n`
/// comparisons. A copy shares the shards, and a change copies its shard where another map shares
/// it.
pub(crate) struct AddrMap {
    shards: Shards,
}

impl Drop for AddrMap {
    fn drop(self) {
        let AddrMap { shards } = self;
        drop(shards);
    }
}

impl Model for AddrMap {
    ghost use Rattle.std.specs.Prelude.{ℕ, map as each};
    ghost use Rattle.std.specs.Coded.{coded_ℕ};
    ghost use Rattle.std.specs.FinMap as map;
    ghost use Rattle.addr_book.specs.AddrList.{addr_cmp, addr_code};
    ghost use Rattle.addr_book.specs.AddrMap.{addr_place, addr_shard};
    ghost use Rattle.addr_book.specs.Shards.{IsSharded, whole};

    ghost Value = { map.FinMap addr_cmp ℕ };

    ghost coded = { map.code addr_code coded_ℕ };

    ghost view = { λ m. whole (each addr_shard m.shards.items) };

    ghost invariant = { λ m. IsSharded addr_place 13 (each addr_shard m.shards.items) };
}

impl AddrMap {
    /// The map with no address.
    pub(crate) fn new(alloc: Global) -> Mem<AddrMap>
        ensures { IfOk result (λ numbers. numbers ≡ map.empty) }
    {
        let mut shards = Vec::with_capacity(alloc, SHARDS)?;
        for _place in 0..SHARDS {
            shards.push(None)?;
        }
        Ok(AddrMap { shards })
    }

    /// The number of an address, if it has one.
    pub(crate) fn get(&self, addr: Addr) -> Option<u32>
        ensures { result ≡ map.get self.now addr }
    {
        match &self.shards[place_of(addr)] {
            Some(shard) => shard.get(addr),
            None => None,
        }
    }

    /// This map with a number at an address.
    pub(crate) fn with(self, addr: Addr, number: u32) -> Mem<AddrMap>
        ensures { IfOk result (λ numbers. numbers ≡ map.insert self addr number) }
    {
        let AddrMap { mut shards } = self;
        insert_at(&mut shards, place_of(addr), addr, number)?;
        Ok(AddrMap { shards })
    }

    /// This map without an address.
    pub(crate) fn without(self, addr: Addr) -> Mem<AddrMap>
        ensures { IfOk result (λ numbers. numbers ≡ map.remove self addr) }
    {
        let AddrMap { mut shards } = self;
        remove_at(&mut shards, place_of(addr), addr)?;
        Ok(AddrMap { shards })
    }

    /// Another map with these numbers, which shares the shards.
    pub(crate) fn copied(&self) -> Mem<AddrMap>
        ensures { IfOk result (λ copy. copy ≡ self.now) }
    {
        Ok(AddrMap {
            shards: shared_shards(*self.shards.allocator(), self.shards.as_slice())?,
        })
    }
}

/// The place of an address's shard.
#[tactic(auto, unfolding(crate::specs::AddrMap::addr_place))]
fn place_of(addr: Addr) -> usize
    ensures place { result ≡ addr_place addr }
    ensures below { result < 13 }
{
    let host = u64::from(addr.ip) / ROW;
    let port = u64::from(addr.port) / ROW;
    ((host * 0x1_0000 + port) % SHARDS as u64) as usize
}

/// Puts a number at an address, in the shard at a place. The shard is copied first where another
/// map shares it.
fn insert_at(shards: &mut Shards, place: usize, addr: Addr, number: u32) -> Mem<()>
    requires { place < length shards.old.items }
    ensures { OnOk result
        (IsChanged addr_shard shards.old.items shards.new.items place
        (map.insert (addr_shard (slice_index_or shards.old.items place None)) addr number)) }
{
    let alloc = *shards.allocator();
    match &mut shards[place] {
        Some(shard) => Arc::make_mut(shard)?.insert(addr, number),
        None => {
            let mut shard = AddrShard::new(alloc);
            shard.insert(addr, number)?;
            shards[place] = Some(Arc::new(alloc, shard)?);
            Ok(())
        }
    }
}

/// Takes an address out of the shard at a place. The shard is copied first where another map shares
/// it.
fn remove_at(shards: &mut Shards, place: usize, addr: Addr) -> Mem<()>
    requires { place < length shards.old.items }
    ensures { OnOk result
        (IsChanged addr_shard shards.old.items shards.new.items place
        (map.remove (addr_shard (slice_index_or shards.old.items place None)) addr)) }
{
    if let Some(shard) = &mut shards[place] {
        Arc::make_mut(shard)?.remove(addr);
    }
    Ok(())
}

/// The same shards once more.
fn shared_shards(alloc: Global, shards: &[Option<Arc<AddrShard>>]) -> Mem<Shards>
    ensures { IfOk result (λ copy. each addr_shard copy.items ≡ each addr_shard shards.now) }
{
    let mut copy = Vec::with_capacity(alloc, SHARDS)?;
    for shard in shards {
        copy.push(shared_shard(shard)?)?;
    }
    Ok(copy)
}

/// The same shard once more.
fn shared_shard(shard: &Option<Arc<AddrShard>>) -> Mem<Option<Arc<AddrShard>>>
    ensures { IfOk result (λ copy. addr_shard copy ≡ addr_shard shard.now) }
{
    match shard {
        Some(shard) => Ok(Some(Arc::try_clone(shard)?)),
        None => Ok(None),
    }
}
