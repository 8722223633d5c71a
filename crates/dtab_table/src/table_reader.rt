//! The reader of a table's text.
ghost use Rattle.std.specs.Prelude.{◌≡◌, OnOk, map};
ghost use Rattle.name_tree.specs.TreeReading.{ended_state as ended_tree};
ghost use Rattle.dtab_table.specs.PrefixReading.{end_walk};
ghost use Rattle.dtab_table.specs.Rules.{rule_of};
ghost use Rattle.dtab_table.specs.TableReading.{table_start, tree_behind, behind_prefix};
ghost use Rattle.dtab_table.specs.TableReading.{next_state, ended_state};
ghost use Rattle.dtab_table.specs.TableReaders.{rules_in, walk_in, tree_in, prefix_in, state_of};
ghost use Rattle.dtab_table.specs.TableReaders.{depth_of};
ghost use Rattle.name_tree.specs.Taken.{Takes, Ends};

use crate::entry::Entry;
use crate::prefix::Prefix;
use crate::prefix_reader::PrefixReader;
use crate::prefix_text::is_in_prefixes;
use name_tree::{TakeError, TreeReader, is_blank_byte};
use std::alloc::Global;
use std::mem::replace;

/// Where in an entry a reader stands.
#[derive(Clone, Copy)]
pub(crate) enum Mode {
    /// Before it.
    Start,
    /// In its prefix.
    Walk,
    /// Behind its prefix and blanks.
    Behind,
    /// Behind the `=` of its `=>`.
    Arrow,
    /// In its tree.
    Tree,
}

/// A table's text that was read in part.
pub(crate) struct TableReader {
    entries: Vec<Entry>,
    mode: Mode,
    walk: PrefixReader,
    prefix: Prefix,
    tree: TreeReader,
}

impl Drop for TableReader {
    fn drop(self) {
        let TableReader {
            entries,
            mode: _,
            walk,
            prefix,
            tree,
        } = self;
        drop(entries);
        drop(walk);
        drop(prefix);
        drop(tree);
    }
}

impl TableReader {
    /// The reader before a text.
    pub(crate) fn new(alloc: Global) -> TableReader
        ensures { state_of result ≡ table_start }
    {
        TableReader {
            entries: Vec::new(alloc),
            mode: Mode::Start,
            walk: PrefixReader::new(alloc),
            prefix: Prefix::root(alloc),
            tree: TreeReader::new(alloc),
        }
    }

    /// How many parentheses are open.
    pub(crate) fn depth(&self) -> usize
        ensures { result ≡ depth_of self.now }
    {
        match self.mode {
            Mode::Tree => self.tree.depth(),
            Mode::Start => 0,
            Mode::Walk => 0,
            Mode::Behind => 0,
            Mode::Arrow => 0,
        }
    }

    /// Takes in a byte before an entry.
    fn take_at_start(&mut self, alloc: Global, byte: u8) -> Result<(), TakeError>
        requires { self.old.mode ≡ Mode.Start }
        ensures { Takes (next_state (state_of self.old) byte) (state_of self.new) result }
    {
        if is_blank_byte(byte) || byte == b';' {
            return Ok(());
        }
        if byte != b'/' {
            return Err(TakeError::Byte);
        }
        self.walk = PrefixReader::new(alloc);
        self.mode = Mode::Walk;
        Ok(())
    }

    /// Takes in a byte behind a prefix.
    fn take_behind(&mut self, byte: u8) -> Result<(), TakeError>
        requires { self.old.mode ≡ Mode.Behind }
        ensures { Takes (behind_prefix (rules_in self.old) (prefix_in self.old) byte)
            (state_of self.new) result }
    {
        if is_blank_byte(byte) {
            return Ok(());
        }
        if byte != b'=' {
            return Err(TakeError::Byte);
        }
        self.mode = Mode::Arrow;
        Ok(())
    }

    /// Ends a prefix.
    fn end_prefix(&mut self, alloc: Global) -> Result<(), TakeError>
        ensures rules { rules_in self.new ≡ rules_in self.old }
        ensures prefix { Takes (end_walk (walk_in self.old)) (prefix_in self.new) result }
        ensures mode { OnOk result (self.new.mode ≡ Mode.Behind) }
    {
        self.prefix = replace(&mut self.walk, PrefixReader::new(alloc)).end(alloc)?;
        self.mode = Mode::Behind;
        Ok(())
    }

    /// Takes in a byte in a prefix.
    fn take_in_prefix(&mut self, alloc: Global, byte: u8) -> Result<(), TakeError>
        requires { self.old.mode ≡ Mode.Walk }
        ensures { Takes (next_state (state_of self.old) byte) (state_of self.new) result }
    {
        if is_in_prefixes(byte) {
            return self.walk.take(alloc, byte);
        }
        self.end_prefix(alloc)?;
        self.take_behind(byte)
    }

    /// Ends an entry.
    fn end_entry(&mut self, alloc: Global) -> Result<(), TakeError>
        ensures { Takes (tree_behind (rules_in self.old) (prefix_in self.old)
            (ended_tree (tree_in self.old))) (state_of self.new) result }
    {
        let tree = replace(&mut self.tree, TreeReader::new(alloc)).end(alloc)?;
        let prefix = replace(&mut self.prefix, Prefix::root(alloc));
        self.entries.push(Entry { prefix, tree })?;
        self.mode = Mode::Start;
        Ok(())
    }

    /// Takes in a byte in a tree.
    fn take_in_tree(&mut self, alloc: Global, byte: u8) -> Result<(), TakeError>
        requires { self.old.mode ≡ Mode.Tree }
        ensures { Takes (next_state (state_of self.old) byte) (state_of self.new) result }
    {
        if byte == b';' {
            return self.end_entry(alloc);
        }
        self.tree.take(alloc, byte)
    }

    /// Takes the next byte in. After an `Err` the reader is of no use.
    pub(crate) fn take(&mut self, alloc: Global, byte: u8) -> Result<(), TakeError>
        ensures { Takes (next_state (state_of self.old) byte) (state_of self.new) result }
    {
        match self.mode {
            Mode::Start => self.take_at_start(alloc, byte),
            Mode::Walk => self.take_in_prefix(alloc, byte),
            Mode::Behind => self.take_behind(byte),
            Mode::Arrow => {
                if byte != b'>' {
                    return Err(TakeError::Byte);
                }
                self.tree = TreeReader::new(alloc);
                self.mode = Mode::Tree;
                Ok(())
            }
            Mode::Tree => self.take_in_tree(alloc, byte),
        }
    }

    /// Ends the last entry, if it may end here.
    fn end_last(&mut self, alloc: Global) -> Result<(), TakeError>
        ensures { Takes (ended_state (state_of self.old)) (rules_in self.new) result }
    {
        match self.mode {
            Mode::Start => Ok(()),
            Mode::Tree => self.end_entry(alloc),
            Mode::Walk => Err(TakeError::Byte),
            Mode::Behind => Err(TakeError::Byte),
            Mode::Arrow => Err(TakeError::Byte),
        }
    }

    /// The entries of the table, if its text may end here.
    pub(crate) fn end(mut self, alloc: Global) -> Result<Vec<Entry>, TakeError>
        ensures { Ends (λ entries. map rule_of entries.items) (ended_state (state_of self)) result }
    {
        let ended = self.end_last(alloc);
        let TableReader {
            entries,
            mode: _,
            walk,
            prefix,
            tree,
        } = self;
        drop(walk);
        drop(prefix);
        drop(tree);
        ended?;
        Ok(entries)
    }
}
