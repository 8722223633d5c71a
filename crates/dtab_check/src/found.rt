//! What leads to something known.
ghost use Rattle.std.specs.Prelude.{◌≡◌, ◌<◌, List, Bool, true, map, length, IfOk, OnOk};
ghost use Rattle.dtab_check.specs.Rounds.{after_rounds, holds, with_known, with_order};
ghost use Rattle.dtab_check.specs.Rounds.{IsFound, AreKnown, LeadersKnown, Grows};

use crate::Mem;
use std::alloc::Global;

/// The members that are known so far.
#[derive(Drop)]
struct KnownMembers {
    /// Which members are known.
    known: Vec<bool>,
    /// Their places, in the order in which they were found.
    order: Vec<usize>,
}

/// Which members are known, of which these are by themselves, and each that leads to a known one is
/// too. A row says what a member leads to.
///
/// Each known member is followed once: the cost is a look at each row for each of them.
pub(crate) fn leading_to(alloc: Global, own: &[bool], rows: &[Vec<bool>]) -> Mem<Vec<bool>>
    requires { length rows.now ≡ length own.now }
    ensures { IfOk result (λ known. known.items
        ≡ after_rounds own.now (map (λ row. row.items) rows.now) (length own.now)) }
{
    let mut found = KnownMembers::start(alloc, own)?;
    let mut at = 0;
    while at < found.order.len() {
        let to = found.order[at];
        found.add_leaders(rows, to)?;
        at += 1;
    }
    Ok(found.known)
}

/// Whether the flag at a place is set. None is set past the end.
pub(crate) fn is_set(flags: &[bool], at: usize) -> bool
    ensures { result ≡ holds flags.now at }
{
    flags.get(at).copied().unwrap_or(false)
}

impl KnownMembers {
    /// Those that are known by themselves.
    fn start(alloc: Global, own: &[bool]) -> Mem<KnownMembers>
        ensures found { IfOk result (λ found. (rows : List (List Bool))
            → length rows ≡ length own.now
            → IsFound own.now rows found.known.items found.order.items) }
        ensures owned { IfOk result (λ found. AreKnown own.now found.known.items) }
    {
        let mut found = KnownMembers {
            known: vec![in alloc; false; own.len()]?,
            order: Vec::new(alloc),
        };
        for (at, is_own) in own.iter().enumerate() {
            found.look_at(at, *is_own)?;
        }
        Ok(found)
    }

    /// Finds all that lead to a member, which is known.
    fn add_leaders(&mut self, rows: &[Vec<bool>], to: usize) -> Mem<()>
        requires size { length rows.now ≡ length self.old.known.items }
        ensures found { OnOk result ((own : List Bool) → length rows.now ≡ length own
            → holds self.old.known.items to ≡ true
            → IsFound own (map (λ row. row.items) rows.now)
            self.old.known.items self.old.order.items
            → IsFound own (map (λ row. row.items) rows.now)
            self.new.known.items self.new.order.items) }
        ensures grows { OnOk result
            (Grows self.old.known.items self.new.known.items
            self.old.order.items self.new.order.items) }
        ensures leaders { OnOk result
            (LeadersKnown (map (λ row. row.items) rows.now)
            self.new.known.items to (length rows.now)) }
    {
        for (at, row) in rows.iter().enumerate() {
            self.look_at(at, is_set(row.as_slice(), to))?;
        }
        Ok(())
    }

    /// Looks at a member: it is known from now on where it is found.
    fn look_at(&mut self, at: usize, is_found: bool) -> Mem<()>
        requires { at < length self.old.known.items }
        ensures known { OnOk result
            (self.new.known.items ≡ with_known self.old.known.items at is_found) }
        ensures order { OnOk result
            (self.new.order.items
            ≡ with_order self.old.known.items self.old.order.items at is_found) }
    {
        if !is_found || self.known[at] {
            return Ok(());
        }
        self.order.push(at)?;
        self.known[at] = true;
        Ok(())
    }
}
