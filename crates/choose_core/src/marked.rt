//! Marked addresses in the order of the addresses.
ghost use Rattle.std.specs.Prelude.{◌≡◌, ◌<◌, ◌≤◌, ℕ, length, slice_index_or, IfOk, IfErr, IfSome};
ghost use Rattle.std.specs.Prelude.{IsTrue};
ghost use Rattle.std.specs.declared.cmp.Ordering.TheVariants.{Less};
ghost use Rattle.addr_book.specs.AddrList.{addr_cmp};
ghost use Rattle.std.specs.FinMap as fin;
ghost use Rattle.std.specs.Vec.{vec_capacity};
ghost use Rattle.choose_core.specs.declared.marked.Marked.{Marked};
ghost use Rattle.choose_core.specs.Marks.{with_mark};
ghost use Rattle.choose_core.specs.Marked.{marks_of, AreOver, AreSound, IsInOrder, IsPlace, IsGap};

use crate::mark::Mark;
use addr_book::Addr;
use std::cmp::Ordering;

/// An address that has failures, and its mark.
#[derive(Clone, Copy)]
pub(crate) struct Marked {
    pub(crate) addr: Addr,
    pub(crate) mark: Mark,
}

/// The place of an address, or the place where it would go.
pub(crate) fn search(items: &[Marked], addr: Addr) -> Result<usize, usize>
    requires { IsInOrder items.now }
    ensures found { IfOk result (IsPlace items.now addr) }
    ensures absent { IfErr result (IsGap items.now addr) }
{
    items.binary_search_by(|marked| marked.addr.cmp(&addr))
}

/// The place of an address, or the place where it would go. Another place, and the one behind it,
/// are tried first: where addresses are looked up in their order, each stands near the one before.
pub(crate) fn search_near(items: &[Marked], addr: Addr, near: usize) -> Result<usize, usize>
    requires { IsInOrder items.now }
    ensures found { IfOk result (IsPlace items.now addr) }
    ensures absent { IfErr result (IsGap items.now addr) }
{
    if let Some(place) = settled(items, addr, near) {
        return place;
    }
    if let Some(place) = settled(items, addr, near.saturating_add(1)) {
        return place;
    }
    search(items, addr)
}

/// Whether an address is at a place, or would go there. `None` where neither is so.
fn settled(items: &[Marked], addr: Addr, at: usize) -> Option<Result<usize, usize>>
    requires { IsInOrder items.now }
    ensures found { IfSome result (λ r. IfOk r (IsPlace items.now addr)) }
    ensures absent { IfSome result (λ r. IfErr r (IsGap items.now addr)) }
{
    if at > items.len() || !is_behind(items, addr, at) {
        return None;
    }
    if at == items.len() {
        return Some(Err(at));
    }
    match items[at].addr.cmp(&addr) {
        Ordering::Less => None,
        Ordering::Equal => Some(Ok(at)),
        Ordering::Greater => Some(Err(at)),
    }
}

/// Whether the addresses before a place are below one.
fn is_behind(items: &[Marked], addr: Addr, at: usize) -> bool
    requires order { IsInOrder items.now }
    requires within { at ≤ length items.now }
    ensures { IsTrue result → (k : ℕ) (d : Marked) → k < at
        → addr_cmp (slice_index_or items.now k d).addr addr ≡ Less }
{
    if at == 0 {
        return true;
    }
    match items[at - 1].addr.cmp(&addr) {
        Ordering::Less => true,
        _ => false,
    }
}

/// Gives the address at a place another mark; it goes where that has no failures.
pub(crate) fn set_there(items: &mut Vec<Marked>, at: usize, addr: Addr, mark: Mark)
    requires place { IsPlace items.old.items addr at }
    requires sound { AreSound items.old.items (vec_capacity items.old) }
    ensures marks { marks_of items.new.items ≡ with_mark (marks_of items.old.items) addr mark }
    ensures sound { AreSound items.new.items (vec_capacity items.new) }
    ensures over { (until : ℕ) → mark.until ≤ until → AreOver items.old.items until
        → AreOver items.new.items until }
{
    if mark.is_none() {
        items.remove(at);
    } else {
        items[at] = Marked { addr, mark };
    }
}

/// Gives an address that has no failures so far a mark, at the place where it goes. There is room
/// for it.
pub(crate) fn set_nowhere(items: &mut Vec<Marked>, at: usize, addr: Addr, mark: Mark)
    requires gap { IsGap items.old.items addr at }
    requires sound { AreSound items.old.items (vec_capacity items.old) }
    requires room { fin.len (fin.remove (marks_of items.old.items) addr) < 8192 }
    ensures marks { marks_of items.new.items ≡ with_mark (marks_of items.old.items) addr mark }
    ensures sound { AreSound items.new.items (vec_capacity items.new) }
    ensures over { (until : ℕ) → mark.until ≤ until → AreOver items.old.items until
        → AreOver items.new.items until }
{
    if !mark.is_none() {
        let inserted = items.insert(at, Marked { addr, mark });
        let is_inserted = inserted.is_ok();
        prove!(is_inserted);
    }
}
