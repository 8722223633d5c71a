//! The positions of labels that some prefixes have.
ghost use Rattle.std.specs.Prelude.{◌≡◌, ◌≢◌, ℕ, ◌<◌, ◌≤◌, ◌&&◌, false, length, OnOk, MatchOption};
ghost use Rattle.dtab_index.specs.Bits.{has};
ghost use Rattle.dtab_index.specs.Columns.{passes, AreBlank, AreSaid, KeepSaid};
ghost use Rattle.dtab_index.specs.Prefix.{patterns_of};

use crate::Mem;
use crate::bits::Bits;
use crate::column::Column;
use name_tree::Path;
use std::alloc::Global;

/// Notes what labels the prefix at a place has. An `Err` leaves some of that noted.
pub(crate) fn put_prefix(
    alloc: Global,
    columns: &mut Vec<Column>,
    prefix: Vec<Option<Vec<u8>>>,
    place: usize,
) -> Mem<()>
    requires few { place < 1024 }
    requires blank { AreBlank columns.old.items place }
    ensures said { OnOk result (AreSaid columns.new.items (patterns_of prefix.items) place) }
    ensures kept { (other : ℕ) → other ≢ place
        → KeepSaid columns.old.items columns.new.items other }
{
    make_columns(alloc, columns, prefix.len())?;
    put_labels(columns, prefix, place)
}

/// Makes positions until there are so many.
fn make_columns(alloc: Global, columns: &mut Vec<Column>, count: usize) -> Mem<()>
    ensures enough { OnOk result (count ≤ length columns.new.items) }
    ensures kept { (place : ℕ) → KeepSaid columns.old.items columns.new.items place }
{
    while columns.len() < count {
        columns.push(Column::new(alloc))?;
    }
    Ok(())
}

/// Notes what labels the prefix at a place has, the last first.
fn put_labels(columns: &mut Vec<Column>, mut prefix: Vec<Option<Vec<u8>>>, place: usize) -> Mem<()>
    requires few { place < 1024 }
    requires long { length prefix.items ≤ length columns.old.items }
    requires blank { AreBlank columns.old.items place }
    ensures said { OnOk result (AreSaid columns.new.items (patterns_of prefix.items) place) }
    ensures kept { (other : ℕ) → other ≢ place
        → KeepSaid columns.old.items columns.new.items other }
{
    while let Some(pattern) = prefix.pop() {
        let column = &mut columns[prefix.len()];
        column.put(pattern, place)?;
    }
    Ok(())
}

/// The prefixes that match a path, by their places, of those at the places from a first one on.
/// `None` only where none of them does.
pub(crate) fn left_by(columns: &[Column], first: usize, path: &Path) -> Option<Bits>
    requires { first < 1024 }
    ensures { MatchOption result
        ((place : ℕ) → first ≤ place → place < 1024 → passes columns.now path.now place ≡ false)
        (λ left. (place : ℕ) → first ≤ place → place < 1024
        → has left.words place ≡ passes columns.now path.now place) }
{
    let mut left = Bits::from(first);
    for (at, column) in columns.iter().enumerate() {
        if at >= path.len() {
            left.remove(first, &column.reached);
            return Some(left);
        }
        if column.narrow(first, path.label(at), &mut left) {
            return None;
        }
    }
    Some(left)
}
