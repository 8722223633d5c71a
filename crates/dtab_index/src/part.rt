//! A part of an index: as many prefixes as a set of places tells of.
ghost use Rattle.std.specs.Prelude.{◌≡◌, ℕ, ◌+◌, ◌≤◌, ◌<◌, ◌==◌, [], ◌∷◌, ◌++◌, length};
ghost use Rattle.std.specs.Prelude.{OnOk, OnErr};
ghost use Rattle.std.specs.List.{list_any};
ghost use Rattle.std.specs.Option.{option_to_list};
ghost use Rattle.dtab_index.specs.Bits.{has};
ghost use Rattle.dtab_index.specs.Prefix.{patterns_of};
ghost use Rattle.dtab_index.specs.Index.{matching, some_matches_there};
ghost use Rattle.dtab_index.specs.Listed.{listed, in_word, IsNextBit};
ghost use Rattle.dtab_index.specs.Part.{placed_in, positions_at, is_between, IsKept};

use crate::Mem;
use crate::bits::{MOST_PLACES, WORD_PLACES, WORDS};
use crate::column::Column;
use crate::columns::{left_by, put_prefix};
use name_tree::Path;
use std::alloc::Global;
use std::snapshot::Snapshot;

/// A prefix and its position. The labels of the prefix stand in the columns alone, and contracts
/// see them here.
pub(crate) struct Entry {
    pub(crate) prefix: Snapshot<Vec<Option<Vec<u8>>>>,
    pub(crate) at: u32,
}

impl Drop for Entry {
    fn drop(self) {
        let Entry { prefix, at: _ } = self;
        drop(prefix);
    }
}

/// Some prefixes, at most 1,024. The place of the first that was added is 1,023, and of each later
/// one it is one less, so that the lowest place is that of the last.
pub(crate) struct Part {
    /// `None` stands for a prefix for which there was no memory.
    pub(crate) entries: Vec<Option<Entry>>,
    pub(crate) columns: Vec<Column>,
}

impl Drop for Part {
    fn drop(self) {
        let Part { entries, columns } = self;
        drop(entries);
        drop(columns);
    }
}

impl Part {
    /// The part with no prefix. It takes no memory.
    pub(crate) fn new(alloc: Global) -> Part
        ensures none { result.entries.items ≡ [] }
        ensures kept { IsKept result.entries.items result.columns.items }
    {
        Part {
            entries: Vec::new(alloc),
            columns: Vec::new(alloc),
        }
    }

    /// Puts a prefix, in which `None` is `*`, and its position behind the others. An `Err` changes
    /// nothing of what the part says.
    pub(crate) fn add(&mut self, prefix: Vec<Option<Vec<u8>>>, at: u32) -> Mem<()>
        requires kept { IsKept self.old.entries.items self.old.columns.items }
        requires room { length self.old.entries.items < 1024 }
        ensures kept { IsKept self.new.entries.items self.new.columns.items }
        ensures ok { OnOk result (placed_in self.new.entries.items
            ≡ placed_in self.old.entries.items ++ (patterns_of prefix.items, at) ∷ []) }
        ensures err { OnErr result
            (placed_in self.new.entries.items ≡ placed_in self.old.entries.items) }
    {
        let alloc = *self.entries.allocator();
        let index = self.entries.len();
        let entry = Entry {
            prefix: Snapshot::of(&prefix),
            at,
        };
        self.entries.push(None)?;
        put_prefix(alloc, &mut self.columns, prefix, MOST_PLACES - 1 - index)?;
        self.entries[index] = Some(entry);
        Ok(())
    }

    /// A place that is at most that of each prefix: the lowest of theirs, where there is one.
    fn first_place(&self) -> usize
        requires { length self.now.entries.items ≤ 1024 }
        ensures few { result < 1024 }
        ensures lowest { result + length self.now.entries.items ≤ 1024 }
    {
        let free = MOST_PLACES - self.entries.len();
        free.min(MOST_PLACES - 1)
    }

    /// Puts the positions of the prefixes that match a path behind some others, that of the last
    /// prefix first.
    pub(crate) fn put_matching(&self, path: &Path, found: &mut Vec<u32>) -> Mem<()>
        requires { IsKept self.now.entries.items self.now.columns.items }
        ensures { OnOk result (found.new.items
            ≡ found.old.items ++ matching (placed_in self.now.entries.items) path.now) }
    {
        let first = self.first_place();
        let Some(left) = left_by(self.columns.as_slice(), first, path) else {
            return Ok(());
        };
        put_words(self.entries.as_slice(), first, &left.words, found)?;
        Ok(())
    }

    /// Whether one of the prefixes at the positions from one to before another matches a path.
    pub(crate) fn matches_any(&self, from: u32, to: u32, path: &Path) -> bool
        requires { IsKept self.now.entries.items self.now.columns.items }
        ensures { result ≡ some_matches_there from to (placed_in self.now.entries.items) path.now }
    {
        let first = self.first_place();
        let Some(left) = left_by(self.columns.as_slice(), first, path) else {
            return false;
        };
        some_in_words(self.entries.as_slice(), first, &left.words, from, to)
    }
}

/// Puts the positions of the prefixes behind some others whose places a set has, the lowest place
/// first. No prefix has a place before a first one.
fn put_words(
    entries: &[Option<Entry>],
    first: usize,
    words: &[u64],
    found: &mut Vec<u32>,
) -> Mem<()>
    requires size { length words.now ≡ 16 }
    requires lowest { first + length entries.now ≤ 1024 }
    ensures { OnOk result (found.new.items
        ≡ found.old.items ++ listed (has words.now) (positions_at entries.now) 1024 0) }
{
    for at in first / WORD_PLACES..WORDS {
        put_word(entries, words[at], at * WORD_PLACES, found)?;
    }
    Ok(())
}

/// Whether one of the prefixes whose places a set has is at a position from one to before another.
/// No prefix has a place before a first one.
fn some_in_words(entries: &[Option<Entry>], first: usize, words: &[u64], from: u32, to: u32) -> bool
    requires size { length words.now ≡ 16 }
    requires lowest { first + length entries.now ≤ 1024 }
    ensures { result ≡ list_any (is_between from to)
        (listed (has words.now) (positions_at entries.now) 1024 0) }
{
    for at in first / WORD_PLACES..WORDS {
        if some_in_word(entries, words[at], at * WORD_PLACES, from, to) {
            return true;
        }
    }
    false
}

/// The position of the prefix at a place.
fn position(entries: &[Option<Entry>], place: usize) -> Option<u32>
    requires { place < 1024 }
    ensures { option_to_list result ≡ positions_at entries.now place }
{
    match entries.get(MOST_PLACES - 1 - place) {
        Some(Some(entry)) => Some(entry.at),
        _ => None,
    }
}

/// Puts the positions of the prefixes behind some others whose places a word has, the lowest place
/// first. The word tells of 64 places from a first one on.
fn put_word(entries: &[Option<Entry>], word: u64, first: usize, found: &mut Vec<u32>) -> Mem<()>
    requires { first + 64 ≤ 1024 }
    ensures { OnOk result (found.new.items
        ≡ found.old.items ++ listed (in_word word first) (positions_at entries.now) 64 first) }
{
    if word == 0 {
        return Ok(());
    }
    let mut bit = 0;
    while let Some(next) = next_bit(word, bit) {
        put_position(position(entries, first + next), found)?;
        bit = next + 1;
    }
    Ok(())
}

/// Puts a position behind some others, if there is one.
fn put_position(position: Option<u32>, found: &mut Vec<u32>) -> Mem<()>
    ensures { OnOk result (found.new.items ≡ found.old.items ++ option_to_list position) }
{
    if let Some(at) = position {
        found.push(at)?;
    }
    Ok(())
}

/// Whether one of the prefixes whose places a word has is at a position from one to before another.
/// The word tells of 64 places from a first one on.
fn some_in_word(entries: &[Option<Entry>], word: u64, first: usize, from: u32, to: u32) -> bool
    requires { first + 64 ≤ 1024 }
    ensures { result ≡ list_any (is_between from to)
        (listed (in_word word first) (positions_at entries.now) 64 first) }
{
    if word == 0 {
        return false;
    }
    let mut bit = 0;
    while let Some(next) = next_bit(word, bit) {
        if is_between(position(entries, first + next), from, to) {
            return true;
        }
        bit = next + 1;
    }
    false
}

/// Whether there is a position, and it is one from one to before another.
fn is_between(position: Option<u32>, from: u32, to: u32) -> bool
    ensures { result ≡ list_any (is_between from to) (option_to_list position) }
{
    match position {
        Some(at) => from <= at && at < to,
        None => false,
    }
}

/// The lowest bit of a word from one on, if it has one.
fn next_bit(word: u64, from: usize) -> Option<usize>
    requires { from ≤ 64 }
    ensures { IsNextBit word from result }
{
    if from >= WORD_PLACES {
        return None;
    }
    let rest = word & u64::MAX << from;
    if rest == 0 {
        return None;
    }
    Some(rest.trailing_zeros() as usize)
}
