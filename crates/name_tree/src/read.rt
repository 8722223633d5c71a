//! The readers of texts.
ghost use Rattle.std.specs.Prelude.{◌≡◌, ◌⊎◌, Some, None, IfOk, MatchResult};
ghost use Rattle.name_tree.specs.Path.{Labels};
ghost use Rattle.name_tree.specs.Value.{TreeValue};
ghost use Rattle.name_tree.specs.Canon.{IsSound, HasLabels, AreByteLabels};
ghost use Rattle.name_tree.specs.Grammar.{PathText, TreeText};
ghost use Rattle.name_tree.specs.Faults.{IsValue};
ghost use Rattle.name_tree.specs.Computed.{path_of, tree_of};
ghost use Rattle.name_tree.specs.Answers.{FaultFits};
ghost use Rattle.name_tree.specs.Tree.{value_of};

use crate::label::TakeError;
use crate::path::Path;
use crate::path_text::PathTextReader;
use crate::tree::Tree;
use crate::tree_text::TreeReader;
use std::alloc::Global;
use thiserror::Error;

/// The most bytes of a text that is read: 65,536.
pub const MOST_BYTES: usize = 65_536;

/// The most parentheses that may be open at a place of a text: 64.
pub const MOST_OPEN: usize = 64;

/// Why a text was not read.
#[derive(Clone, Copy, Debug, PartialEq, Eq, Error)]
pub enum TextFault {
    /// The text is longer than so many bytes.
    #[error("the text has more than {0} bytes")]
    TooLong(usize),
    /// The first `(` that stands inside 64 open parentheses stands here, and the text up to it and
    /// with it begins some text of the grammar.
    #[error("the text nests too deep at byte {0}")]
    TooNested(usize),
    /// The text is not in the grammar, and its first so many bytes are the longest front of it that
    /// begins some text of the grammar.
    #[error("the text leaves the grammar at byte {0}")]
    Syntax(usize),
    /// There was no memory for the value.
    #[error("out of memory")]
    OutOfMemory,
}

/// Reads the text of a path: `/`, or `/` and a label one or more times, with blanks (space, tab,
/// CR, LF) at both ends, as the Finagle user guide writes paths. A label is one or more of an ASCII
/// letter, a digit and `_ : . # $ % -`, which stand for themselves, and `\x` with two hexadecimal
/// digits of either case, which stands for any byte.
///
/// It takes time linear in the text.
pub fn read_path(alloc: Global, text: &[u8]) -> Result<Path, TextFault>
    ensures exact { MatchResult result (IsValue PathText text.now) (FaultFits PathText text.now) }
    ensures only { (path : Labels) → IsValue PathText text.now path
        → MatchResult result (λ read. read ≡ path) (λ fault. fault ≡ TextFault.OutOfMemory) }
    ensures computed { MatchResult result (λ path. path_of text.now ≡ Some path)
        (λ fault. (fault ≡ TextFault.OutOfMemory) ⊎ (path_of text.now ≡ None)) }
    ensures labels { IfOk result (λ path. AreByteLabels path) }
{
    path_in(alloc, text)
}

/// The path that a text stands for.
fn path_in(alloc: Global, text: &[u8]) -> Result<Path, TextFault>
    ensures { MatchResult result (IsValue PathText text.now) (FaultFits PathText text.now) }
{
    if text.len() > MOST_BYTES {
        return Err(TextFault::TooLong(MOST_BYTES));
    }
    let mut reader = PathTextReader::new(alloc);
    for (at, byte) in text.iter().enumerate() {
        match reader.take(alloc, *byte) {
            Ok(()) => {}
            Err(TakeError::Byte) => {
                drop(reader);
                return Err(TextFault::Syntax(at));
            }
            Err(TakeError::OutOfMemory) => {
                drop(reader);
                return Err(TextFault::OutOfMemory);
            }
        }
    }
    match reader.end() {
        Ok(path) => Ok(path),
        Err(TakeError::Byte) => Err(TextFault::Syntax(text.len())),
        Err(TakeError::OutOfMemory) => Err(TextFault::OutOfMemory),
    }
}

/// Reads the text of a tree, with blanks at both ends and between any two tokens, as the Finagle
/// user guide writes trees: a path, `!` (fail), `~` (negative), `$` (empty), a tree in parentheses,
/// alternatives with `|` between them, and unions with `&` between their branches, which bind
/// tighter. A branch may begin with a weight and `*`: one to six digits, or none to six digits, `.`
/// and one or more digits, of which six count. A branch of several without a weight has the weight
/// 1.
///
/// It takes time linear in the text.
pub fn read_tree(alloc: Global, text: &[u8]) -> Result<Tree, TextFault>
    ensures exact { MatchResult result (λ tree. IsValue TreeText text.now (value_of tree))
        (FaultFits TreeText text.now) }
    ensures only { (name : TreeValue) → IsValue TreeText text.now name
        → MatchResult result (λ tree. value_of tree ≡ name)
        (λ fault. fault ≡ TextFault.OutOfMemory) }
    ensures computed { MatchResult result (λ tree. tree_of text.now ≡ Some (value_of tree))
        (λ fault. (fault ≡ TextFault.OutOfMemory) ⊎ (tree_of text.now ≡ None)) }
    ensures sound { IfOk result (λ tree. IsSound (value_of tree) × HasLabels (value_of tree)) }
{
    tree_in(alloc, text)
}

/// The tree that a text stands for.
fn tree_in(alloc: Global, text: &[u8]) -> Result<Tree, TextFault>
    ensures { MatchResult result (λ tree. IsValue TreeText text.now (value_of tree))
        (FaultFits TreeText text.now) }
{
    if text.len() > MOST_BYTES {
        return Err(TextFault::TooLong(MOST_BYTES));
    }
    let mut reader = TreeReader::new(alloc);
    for (at, byte) in text.iter().enumerate() {
        match reader.take(alloc, *byte) {
            Ok(()) => {}
            Err(TakeError::Byte) => {
                drop(reader);
                return Err(TextFault::Syntax(at));
            }
            Err(TakeError::OutOfMemory) => {
                drop(reader);
                return Err(TextFault::OutOfMemory);
            }
        }
        if reader.depth() > MOST_OPEN {
            drop(reader);
            return Err(TextFault::TooNested(at));
        }
    }
    match reader.end(alloc) {
        Ok(tree) => Ok(tree),
        Err(TakeError::Byte) => Err(TextFault::Syntax(text.len())),
        Err(TakeError::OutOfMemory) => Err(TextFault::OutOfMemory),
    }
}
