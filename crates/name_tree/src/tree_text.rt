//! The reader of a tree's text.
ghost use Rattle.std.specs.Prelude.{◌≡◌, ◌*◌, [], length, None, Some, IfOk, OnOk, MatchResult};
ghost use Rattle.name_tree.specs.Value.{union_of};
ghost use Rattle.name_tree.specs.Tree.{value_of};
ghost use Rattle.name_tree.specs.PathReading.{end_walk};
ghost use Rattle.name_tree.specs.TreeReading.{start, whole as at_whole, point as at_point};
ghost use Rattle.name_tree.specs.TreeReading.{decimals as at_decimals, star as at_star};
ghost use Rattle.name_tree.specs.TreeReading.{walk as at_walk, behind, before, with_part, opened};
ghost use Rattle.name_tree.specs.TreeReading.{inner, closed, begin_simple, behind_weight};
ghost use Rattle.name_tree.specs.TreeReading.{behind_branch, path_behind, next, next_state};
ghost use Rattle.name_tree.specs.TreeReading.{end_tree, ended_state};
ghost use Rattle.name_tree.specs.Taken.{Takes, Ends};
ghost use Rattle.name_tree.specs.TreeReaders.{place_of, state_of, walk_in};

use crate::Mem;
use crate::label::{TakeError, is_blank_byte};
use crate::path_text::is_in_paths;
use crate::tree::Tree;
use crate::union::{WrittenBranch, choice_of, union_of_parts};
use crate::walk::PathReader;
use crate::weight::{Decimals, Whole};
use std::alloc::Global;
use std::mem::replace;

/// An open parenthesis: the alternatives before it, the branches before it in its union, and the
/// weight before it.
#[derive(Drop)]
pub(crate) struct Frame {
    alts: Vec<Tree>,
    parts: Vec<WrittenBranch>,
    weight: Option<u64>,
}

/// Where in a branch a reader stands.
#[derive(Clone, Copy)]
pub(crate) enum Mode {
    /// Before it.
    Start,
    /// Behind digits of its weight.
    Whole(Whole),
    /// Behind its weight's point.
    Point(Whole),
    /// Behind decimals of its weight.
    Decimals(Decimals),
    /// Behind its weight, in millionths, and blanks.
    Weight(u64),
    /// Behind its weight and the `*`.
    Star(u64),
    /// In its path, behind a weight or none.
    Walk(Option<u64>),
    /// Behind it.
    Behind,
}

/// A tree's text that was read in part.
pub struct TreeReader {
    outer: Vec<Frame>,
    alts: Vec<Tree>,
    parts: Vec<WrittenBranch>,
    mode: Mode,
    path: PathReader,
}

impl Drop for TreeReader {
    fn drop(self) {
        let TreeReader {
            outer,
            alts,
            parts,
            mode: _,
            path,
        } = self;
        drop(outer);
        drop(alts);
        drop(parts);
        drop(path);
    }
}

impl TreeReader {
    /// The reader before a text.
    pub fn new(alloc: Global) -> TreeReader
        ensures { state_of result ≡ (before [], start) }
    {
        TreeReader {
            outer: Vec::new(alloc),
            alts: Vec::new(alloc),
            parts: Vec::new(alloc),
            mode: Mode::Start,
            path: PathReader::new(alloc),
        }
    }

    /// How many parentheses are open.
    #[tactic(auto, using(crate::proofs::Frames::frames_length))]
    pub fn depth(&self) -> usize
        ensures { result ≡ length (place_of self.now).outer }
    {
        self.outer.len()
    }

    /// Ends a branch with its tree.
    fn end_branch(&mut self, weight: Option<u64>, tree: Tree) -> Mem<()>
        ensures { OnOk result (state_of self.new
            ≡ (with_part (place_of self.old) weight (value_of tree), behind)) }
    {
        self.parts.push(WrittenBranch { weight, tree })?;
        self.mode = Mode::Behind;
        Ok(())
    }

    /// Opens a parenthesis.
    #[tactic(auto, using(crate::proofs::Frames::frames_pushed))]
    fn open(&mut self, alloc: Global, weight: Option<u64>) -> Mem<()>
        ensures { OnOk result (state_of self.new ≡ (opened (place_of self.old) weight, start)) }
    {
        let alts = replace(&mut self.alts, Vec::new(alloc));
        let parts = replace(&mut self.parts, Vec::new(alloc));
        self.outer.push(Frame {
            alts,
            parts,
            weight,
        })?;
        self.mode = Mode::Start;
        Ok(())
    }

    /// Takes in a byte with which a path, a mark or a parenthesis may begin.
    fn begin_simple(
        &mut self,
        alloc: Global,
        weight: Option<u64>,
        byte: u8,
    ) -> Result<(), TakeError>
        ensures { Takes (begin_simple (place_of self.old) weight byte) (state_of self.new) result }
    {
        if byte == b'/' {
            self.path = PathReader::new(alloc);
            self.mode = Mode::Walk(weight);
            return Ok(());
        }
        if byte == b'(' {
            self.open(alloc, weight)?;
            return Ok(());
        }
        let mark = match byte {
            b'~' => Tree::Neg,
            b'!' => Tree::Fail,
            b'$' => Tree::Empty,
            _ => return Err(TakeError::Byte),
        };
        self.end_branch(weight, mark)?;
        Ok(())
    }

    /// Takes in a byte behind a weight.
    fn take_behind_weight(&mut self, weight: u64, byte: u8) -> Result<(), TakeError>
        ensures { Takes (behind_weight (place_of self.old) weight byte) (state_of self.new) result }
    {
        if is_blank_byte(byte) {
            self.mode = Mode::Weight(weight);
            return Ok(());
        }
        if byte != b'*' {
            return Err(TakeError::Byte);
        }
        self.mode = Mode::Star(weight);
        Ok(())
    }

    /// Takes in a byte before a branch.
    fn take_at_start(&mut self, alloc: Global, byte: u8) -> Result<(), TakeError>
        requires { self.old.mode ≡ Mode.Start }
        ensures { Takes (next (place_of self.old) start byte) (state_of self.new) result }
    {
        if is_blank_byte(byte) {
            return Ok(());
        }
        if byte.is_ascii_digit() {
            self.mode = Mode::Whole(Whole::of(byte - b'0'));
            return Ok(());
        }
        if byte == b'.' {
            self.mode = Mode::Point(Whole::none());
            return Ok(());
        }
        self.begin_simple(alloc, None, byte)
    }

    /// Takes in a byte behind digits of a weight.
    fn take_in_whole(&mut self, whole: Whole, byte: u8) -> Result<(), TakeError>
        ensures { Takes (next (place_of self.old) (at_whole whole.value whole.digits) byte)
            (state_of self.new) result }
    {
        if byte.is_ascii_digit() {
            let Some(more) = whole.with(byte - b'0') else {
                return Err(TakeError::Byte);
            };
            self.mode = Mode::Whole(more);
            return Ok(());
        }
        if byte == b'.' {
            self.mode = Mode::Point(whole);
            return Ok(());
        }
        self.take_behind_weight(whole.millionths(), byte)
    }

    /// Takes in a byte behind a weight's point.
    fn take_behind_point(&mut self, whole: Whole, byte: u8) -> Result<(), TakeError>
        ensures { Takes (next (place_of self.old) (at_point (whole.value * 1000000)) byte)
            (state_of self.new) result }
    {
        if !byte.is_ascii_digit() {
            return Err(TakeError::Byte);
        }
        self.mode = Mode::Decimals(Decimals::of(whole, byte - b'0'));
        Ok(())
    }

    /// Takes in a byte behind decimals of a weight.
    fn take_in_decimals(&mut self, decimals: Decimals, byte: u8) -> Result<(), TakeError>
        ensures { Takes (next (place_of self.old) (at_decimals decimals.millionths decimals.unit)
            byte) (state_of self.new) result }
    {
        if byte.is_ascii_digit() {
            self.mode = Mode::Decimals(decimals.with(byte - b'0'));
            return Ok(());
        }
        self.take_behind_weight(decimals.millionths, byte)
    }

    /// Takes in a byte behind a weight's `*`.
    fn take_behind_star(&mut self, alloc: Global, weight: u64, byte: u8) -> Result<(), TakeError>
        requires { self.old.mode ≡ Mode.Star weight }
        ensures { Takes (next (place_of self.old) (at_star weight) byte) (state_of self.new)
            result }
    {
        if is_blank_byte(byte) {
            return Ok(());
        }
        self.begin_simple(alloc, Some(weight), byte)
    }

    /// The tree of the union that was read, whose branches are gone then.
    fn end_union(&mut self, alloc: Global) -> Mem<Tree>
        ensures tree { IfOk result (λ tree. value_of tree ≡ union_of (place_of self.old).parts) }
        ensures rest { OnOk result (self.new ≡ record self.old { parts = self.new.parts }) }
        ensures none { OnOk result (self.new.parts.items ≡ []) }
    {
        union_of_parts(alloc, replace(&mut self.parts, Vec::new(alloc)))
    }

    /// The tree inside the parentheses, whose alternatives are gone then.
    fn end_tree(&mut self, alloc: Global) -> Mem<Tree>
        ensures tree { IfOk result (λ tree. value_of tree ≡ inner (place_of self.old)) }
        ensures rest { OnOk result
            (self.new ≡ record self.old { alts = self.new.alts; parts = self.new.parts }) }
    {
        let last = self.end_union(alloc)?;
        let mut alts = replace(&mut self.alts, Vec::new(alloc));
        alts.push(last)?;
        Ok(choice_of(alts))
    }

    /// Closes the innermost parenthesis.
    #[tactic(auto, using(crate::proofs::Frames::frames_pushed))]
    fn close(&mut self, alloc: Global) -> Result<(), TakeError>
        ensures { Takes (closed (place_of self.old).outer (inner (place_of self.old)))
            (state_of self.new) result }
    {
        let Some(frame) = self.outer.pop() else {
            return Err(TakeError::Byte);
        };
        let tree = self.end_tree(alloc)?;
        self.alts = frame.alts;
        self.parts = frame.parts;
        self.end_branch(frame.weight, tree)?;
        Ok(())
    }

    /// Takes in a byte behind a branch.
    fn take_behind(&mut self, alloc: Global, byte: u8) -> Result<(), TakeError>
        requires { self.old.mode ≡ Mode.Behind }
        ensures { Takes (behind_branch (place_of self.old) byte) (state_of self.new) result }
    {
        if is_blank_byte(byte) {
            return Ok(());
        }
        if byte == b'&' {
            self.mode = Mode::Start;
            return Ok(());
        }
        if byte == b'|' {
            let tree = self.end_union(alloc)?;
            self.alts.push(tree)?;
            self.mode = Mode::Start;
            return Ok(());
        }
        if byte != b')' {
            return Err(TakeError::Byte);
        }
        self.close(alloc)
    }

    /// Ends a path, and its branch.
    fn end_path(&mut self, alloc: Global, weight: Option<u64>) -> Result<(), TakeError>
        ensures { Takes (path_behind (place_of self.old) weight (end_walk (walk_in self.old)))
            (state_of self.new) result }
    {
        let path = replace(&mut self.path, PathReader::new(alloc)).end()?;
        self.end_branch(weight, Tree::Leaf(path))?;
        Ok(())
    }

    /// Takes in a byte in a path.
    fn take_in_path(
        &mut self,
        alloc: Global,
        weight: Option<u64>,
        byte: u8,
    ) -> Result<(), TakeError>
        requires { self.old.mode ≡ Mode.Walk weight }
        ensures { Takes (next (place_of self.old) (at_walk weight (walk_in self.old)) byte)
            (state_of self.new) result }
    {
        if is_in_paths(byte) {
            return self.path.take(alloc, byte);
        }
        self.end_path(alloc, weight)?;
        self.take_behind(alloc, byte)
    }

    /// Takes the next byte in. After an `Err` the reader is of no use.
    pub fn take(&mut self, alloc: Global, byte: u8) -> Result<(), TakeError>
        ensures { Takes (next_state (state_of self.old) byte) (state_of self.new) result }
    {
        match self.mode {
            Mode::Start => self.take_at_start(alloc, byte),
            Mode::Whole(whole) => self.take_in_whole(whole, byte),
            Mode::Point(whole) => self.take_behind_point(whole, byte),
            Mode::Decimals(decimals) => self.take_in_decimals(decimals, byte),
            Mode::Weight(weight) => self.take_behind_weight(weight, byte),
            Mode::Star(weight) => self.take_behind_star(alloc, weight, byte),
            Mode::Walk(weight) => self.take_in_path(alloc, weight, byte),
            Mode::Behind => self.take_behind(alloc, byte),
        }
    }

    /// Ends the last branch, if it may end here.
    fn end_last(&mut self, alloc: Global) -> Result<(), TakeError>
        ensures { MatchResult result
            (λ _. ended_state (state_of self.old) ≡ end_tree (place_of self.new))
            (λ refused. refused ≡ TakeError.Byte → ended_state (state_of self.old) ≡ None) }
    {
        match self.mode {
            Mode::Walk(weight) => self.end_path(alloc, weight),
            Mode::Behind => Ok(()),
            _ => Err(TakeError::Byte),
        }
    }

    /// The tree, if its text may end here.
    pub fn end(mut self, alloc: Global) -> Result<Tree, TakeError>
        ensures { Ends value_of (ended_state (state_of self)) result }
    {
        self.end_last(alloc)?;
        if self.depth() > 0 {
            return Err(TakeError::Byte);
        }
        Ok(self.end_tree(alloc)?)
    }
}
