//! What an index knows of one position of labels.
ghost use Rattle.std.specs.Prelude.{◌≡◌, ◌≢◌, ℕ, ◌<◌, ◌≤◌, ◌==◌, ◌&&◌, ◌||◌, false, OnOk, OnErr};
ghost use Rattle.std.specs.Bool.{OnTrue};
ghost use Rattle.std.specs.Str.{bytes_eq};
ghost use Rattle.dtab_index.specs.Bits.{has};
ghost use Rattle.dtab_index.specs.Columns.{row_of, in_row, allows, Says, IsBlank, SaySame};
ghost use Rattle.dtab_index.specs.Prefix.{pattern_of};
ghost use Rattle.dtab_index.specs.Index.{Label};

use crate::Mem;
use crate::bits::Bits;
use std::alloc::Global;
use std::collections::HashMap;

/// For each label, the prefixes that have it at a position.
pub(crate) type Rows = HashMap<Vec<u8>, Bits>;

/// Of one position of labels, which prefixes have which label there. Prefixes go by their places.
pub(crate) struct Column {
    /// The prefixes that have a label here, or `*`.
    pub(crate) reached: Bits,
    /// The prefixes that have a label here, and not `*`.
    pub(crate) named: Bits,
    /// The prefixes that have a label here, by the label.
    pub(crate) rows: Rows,
}

impl Drop for Column {
    fn drop(self) {
        let Column {
            reached: _,
            named: _,
            rows,
        } = self;
        drop(rows);
    }
}

impl Column {
    /// A position that no prefix reaches. It takes no memory.
    pub(crate) fn new(alloc: Global) -> Column
        ensures { (place : ℕ) → IsBlank result place }
    {
        Column {
            reached: Bits::none(),
            named: Bits::none(),
            rows: HashMap::new(alloc),
        }
    }

    /// Notes what the prefix at a place has here, where `None` is `*`.
    pub(crate) fn put(&mut self, pattern: Option<Vec<u8>>, place: usize) -> Mem<()>
        requires few { place < 1024 }
        requires blank { IsBlank self.old place }
        ensures said { OnOk result (Says self.new (pattern_of pattern) place) }
        ensures kept { (other : ℕ) → other ≢ place → SaySame self.old self.new other }
    {
        let Some(label) = pattern else {
            self.reached.put(place);
            return Ok(());
        };
        put_label(&mut self.rows, label, place)?;
        self.named.put(place);
        self.reached.put(place);
        Ok(())
    }

    /// Of some prefixes, from a first place on, leaves those that match a path with this label
    /// here, as far as it is for this position to say. Where it gives `true`, none is left.
    pub(crate) fn narrow(&self, first: usize, label: &[u8], left: &mut Bits) -> bool
        ensures none { OnTrue result
            ((place : ℕ) → first ≤ place → place < 1024 → has left.new.words place ≡ false) }
        ensures left { (place : ℕ) → first ≤ place → place < 1024 →
            has left.new.words place
            ≡ (has left.old.words place && allows self.now label.now place) }
    {
        match self.rows.get(label) {
            Some(row) => {
                left.remove_but(first, &self.named, row);
                false
            }
            None => left.remove(first, &self.named),
        }
    }
}

/// Notes that the prefix at a place has a label.
fn put_label(rows: &mut Rows, label: Vec<u8>, place: usize) -> Mem<()>
    requires { place < 1024 }
    ensures said { OnOk result ((l : Label) (other : ℕ) → in_row (row_of rows.new l) other
        ≡ ((place == other && bytes_eq label.items l) || in_row (row_of rows.old l) other)) }
    ensures err { OnErr result ((l : Label) → row_of rows.new l ≡ row_of rows.old l) }
{
    let mut row = row_at(rows, label.as_slice());
    row.put(place);
    rows.insert(label, row)?;
    Ok(())
}

/// The prefixes that have a label.
fn row_at(rows: &Rows, label: &[u8]) -> Bits
    ensures { (place : ℕ) → has result.words place ≡ in_row (row_of rows.now label.now) place }
{
    match rows.get(label) {
        Some(row) => *row,
        None => Bits::none(),
    }
}
