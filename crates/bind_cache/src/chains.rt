//! Hashes in an order, of which those with one remainder are chained, the newest first.
ghost use Rattle.std.specs.Prelude.{◌≡◌, ◌+◌, ◌-◌, ◌<◌, ◌^◌, ◌↔◌, ◌++◌, [], ◌∷◌, IsTrue, IfOk};
ghost use Rattle.std.specs.Prelude.{length, drop, slice_index, vec_len, ℕ};
ghost use Rattle.bind_cache.specs.Chain.{IsLastBefore, bucket_of, place_from};

use crate::Mem;
use crate::cache::MOST_KEPT;
use crate::rings::drain;
use circular_buffer::HeapCircularBuffer;
use std::alloc::Global;
use std::marker::Model;

/// How many chains there are.
const BUCKETS: u64 = 2_048;

/// A hash, and the number of the one before it in its chain: less than the number of the first
/// where there is none.
#[derive(Clone, Copy)]
pub(crate) struct Link {
    hash: u64,
    before: u64,
}

/// Some hashes in the order in which they were put in, at most 1,024. They have numbers that count
/// up from that of the first. Contracts see the hashes and that number.
///
/// Each number stays as it is while others come and go, and a number below the first says that
/// nothing is left of a chain. So the first hash goes without a look at the chains.
pub(crate) struct Chains {
    newest: Vec<u64>,
    links: HeapCircularBuffer<Link>,
    first: u64,
}

impl Drop for Chains {
    fn drop(self) {
        let Chains {
            newest,
            links,
            first: _,
        } = self;
        drop(newest);
        drop(links);
    }
}

impl Model for Chains {
    ghost use Rattle.bind_cache.specs.Chain.{Chained};

    ghost Value = { Chained };

    ghost use Rattle.bind_cache.specs.Links.{chained_in, AreChained};

    ghost view = { chained_in };

    ghost invariant = { AreChained };
}

impl Chains {
    /// No hashes. It sets room for 1,024 aside.
    pub(crate) fn start(alloc: Global) -> Mem<Chains>
        ensures { IfOk result (λ chains. chains ≡ record { first = 1; hashes = [] }) }
    {
        Ok(Chains {
            newest: zeros(alloc, BUCKETS as usize)?,
            links: HeapCircularBuffer::with_capacity(alloc, MOST_KEPT)?,
            first: 1,
        })
    }

    /// How many hashes there are.
    pub(crate) fn len(&self) -> usize
        ensures { result ≡ length self.now.hashes }
    {
        self.links.len()
    }

    /// Whether no number is left for one more.
    pub(crate) fn is_spent(&self) -> bool
        ensures { IsTrue result ↔ (2 ^ 64 - 1 < self.now.first + (length self.now.hashes + 1)) }
    {
        self.first >= u64::MAX - self.links.len() as u64
    }

    /// The place of the newest hash in the chain of a hash, counted from 0.
    pub(crate) fn newest(&self, hash: u64) -> Option<usize>
        ensures { IsLastBefore self.now.hashes hash (length self.now.hashes) result }
    {
        let number = self.newest[(hash % BUCKETS) as usize];
        place_from(self.first, number)
    }

    /// The place of the next older one behind that at a place.
    pub(crate) fn older(&self, hash: u64, at: usize) -> Option<usize>
        requires within { at < length self.now.hashes }
        requires chain { bucket_of (slice_index self.now.hashes at) ≡ bucket_of hash }
        ensures { IsLastBefore self.now.hashes hash at result }
    {
        let link = self.links.get(at)?;
        place_from(self.first, link.before)
    }

    /// Takes the first hash away.
    pub(crate) fn drop_first(&mut self)
        requires { 0 < length self.old.hashes }
        ensures { self.new ≡ record {
          first = self.old.first + 1;
          hashes = drop 1 self.old.hashes;
        } }
    {
        self.links.pop_front();
        self.first += 1;
    }

    /// Puts a hash behind the others.
    pub(crate) fn push(&mut self, hash: u64)
        requires room { length self.old.hashes < 1024 }
        requires number { self.old.first + (length self.old.hashes + 1) < 2 ^ 64 }
        ensures { self.new ≡ record {
          first = self.old.first;
          hashes = self.old.hashes ++ hash ∷ [];
        } }
    {
        let bucket = (hash % BUCKETS) as usize;
        let number = self.first + self.links.len() as u64;
        let before = self.newest[bucket];
        self.links.push_back(Link { hash, before });
        self.newest[bucket] = number;
    }

    /// Takes all hashes away. Numbers begin with 1 again.
    pub(crate) fn clear(&mut self)
        ensures { self.new ≡ record { first = 1; hashes = [] } }
    {
        drain(&mut self.links);
        wipe(self.newest.as_mut_slice());
        self.first = 1;
    }
}

/// The place of a number, counted from 0, unless it is less than the first.
fn place_from(first: u64, number: u64) -> Option<usize>
    ensures { result ≡ place_from first number }
{
    if number < first {
        return None;
    }
    Some((number - first) as usize)
}

/// So many zeros.
fn zeros(alloc: Global, count: usize) -> Mem<Vec<u64>>
    ensures count { IfOk result (λ v. vec_len v ≡ count) }
    ensures zeros { IfOk result (λ v. (k : ℕ) → slice_index v.items k ≡ 0) }
{
    Vec::from_elem(alloc, 0u64, count)
}

/// Writes 0 in each place.
fn wipe(numbers: &mut [u64])
    ensures { (k : ℕ) → slice_index numbers.new k ≡ 0 }
{
    for number in numbers.iter_mut() {
        *number = 0;
    }
}
