//! Canonical texts, as the Finagle user guide writes paths and trees.
ghost use Rattle.std.specs.Prelude.{◌≡◌, ◌+◌, ◌*◌, ◌<◌, [], ◌∷◌, ◌++◌, IfOk, OnErr, OnOk, map};
ghost use Rattle.std.specs.Fmt.{decimal};
ghost use Rattle.name_tree.specs.Path.{canon_byte, canon_label, canon_path};
ghost use Rattle.name_tree.specs.Growth.{Grows};
ghost use Rattle.name_tree.specs.Value.{tree_values};
ghost use Rattle.name_tree.specs.Canon.{decimals_text, canon_weight, grouped, is_alt, canon};
ghost use Rattle.name_tree.specs.Canon.{canon_alts, branch_text, canon_branches};
ghost use Rattle.name_tree.specs.Separated.{separated};
ghost use Rattle.name_tree.specs.Tree.{value_of, trees_in, branches_of};

use crate::label::is_plain_byte;
use crate::path::Path;
use crate::tree::{Branch, Branches, Tree, Trees};
use crate::weight::ONE;
use crate::{Bytes, Mem};
use std::alloc::Global;
use text_parts::{append_number, hex_digit};

/// What the six decimals of a weight are worth, in millionths.
const UNITS: [u64; 6] = [100_000, 10_000, 1_000, 100, 10, 1];

/// Puts the canonical text of a path behind some bytes. An `Err` changes nothing.
///
/// It is `/` for the path with no label, else `/` and each label: a letter, a digit or one of `_ :
/// . # $ % -` is itself, and any other byte is `\x` and two hexadecimal digits in lower case. The
/// label `a/b` is `a\x2fb`.
pub fn append_path(path: &Path, out: &mut Bytes) -> Mem<()>
    ensures ok { OnOk result (out.new.items ≡ out.old.items ++ canon_path path.now) }
    ensures err { OnErr result (out.new.items ≡ out.old.items) }
{
    let before = out.len();
    let done = put_path(path, out);
    if done.is_err() {
        out.truncate(before);
    }
    done
}

/// Puts `/` and the canonical text of a label behind some bytes, as [`append_path`] writes each
/// label of a path. An `Err` changes nothing.
pub fn append_label(label: &[u8], out: &mut Bytes) -> Mem<()>
    ensures ok { OnOk result (out.new.items ≡ out.old.items ++ canon_label label.now) }
    ensures err { OnErr result (out.new.items ≡ out.old.items) }
{
    let before = out.len();
    let done = put_label(label, out);
    if done.is_err() {
        out.truncate(before);
    }
    done
}

/// Puts the canonical text of a weight in millionths behind some bytes: its whole part and, where
/// there is more, a point and as many decimals as are needed. An `Err` changes nothing.
pub fn append_weight(millionths: u64, out: &mut Bytes) -> Mem<()>
    ensures ok { OnOk result (out.new.items ≡ out.old.items ++ canon_weight millionths) }
    ensures err { OnErr result (out.new.items ≡ out.old.items) }
{
    let before = out.len();
    let done = put_weight(millionths, out);
    if done.is_err() {
        out.truncate(before);
    }
    done
}

/// The canonical text of a path, as [`append_path`] writes it.
pub fn write_path(alloc: Global, path: &Path) -> Mem<Bytes>
    ensures { IfOk result (λ text. text.items ≡ canon_path path.now) }
{
    let mut text = Vec::new(alloc);
    put_path(path, &mut text)?;
    Ok(text)
}

/// Puts the canonical text of a path behind some bytes. An `Err` may leave a part of it there.
fn put_path(path: &Path, out: &mut Bytes) -> Mem<()>
    ensures ok { OnOk result (out.new.items ≡ out.old.items ++ canon_path path.now) }
    ensures grows { Grows out.old.items out.new.items }
{
    if path.is_empty() {
        out.push(b'/')?;
        return Ok(());
    }
    for at in 0..path.len() {
        put_label(path.label(at), out)?;
    }
    Ok(())
}

/// Puts a label's canonical text behind some bytes. An `Err` may leave a part of it there.
fn put_label(label: &[u8], out: &mut Bytes) -> Mem<()>
    ensures ok { OnOk result (out.new.items ≡ out.old.items ++ canon_label label.now) }
    ensures grows { Grows out.old.items out.new.items }
{
    out.push(b'/')?;
    for byte in label {
        put_byte(*byte, out)?;
    }
    Ok(())
}

/// Puts a label's byte behind some bytes. An `Err` may leave a part of it there.
fn put_byte(byte: u8, out: &mut Bytes) -> Mem<()>
    ensures ok { OnOk result (out.new.items ≡ out.old.items ++ canon_byte byte) }
    ensures grows { Grows out.old.items out.new.items }
{
    if is_plain_byte(byte) {
        out.push(byte)?;
        return Ok(());
    }
    let escape = [b'\\', b'x', hex_digit(byte / 16), hex_digit(byte % 16)];
    out.extend_from_slice(&escape)
}

/// Puts a number behind some bytes.
fn put_number(number: u64, out: &mut Bytes) -> Mem<()>
    ensures ok { OnOk result (out.new.items ≡ out.old.items ++ decimal number) }
    ensures grows { Grows out.old.items out.new.items }
{
    append_number(number, out)?;
    Ok(())
}

/// Puts decimals behind some bytes, as many as are needed.
fn put_decimals(millionths: u64, out: &mut Bytes) -> Mem<()>
    requires { millionths < 1000000 }
    ensures ok { OnOk result (out.new.items ≡ out.old.items ++ decimals_text 6 millionths) }
    ensures grows { Grows out.old.items out.new.items }
{
    let mut rest = millionths;
    for unit in UNITS {
        if rest == 0 {
            break;
        }
        out.push(b'0' + (rest / unit) as u8)?;
        rest %= unit;
    }
    Ok(())
}

/// Puts the canonical text of a weight behind some bytes.
fn put_weight(millionths: u64, out: &mut Bytes) -> Mem<()>
    ensures ok { OnOk result (out.new.items ≡ out.old.items ++ canon_weight millionths) }
    ensures grows { Grows out.old.items out.new.items }
{
    put_number(millionths / ONE, out)?;
    let rest = millionths % ONE;
    if rest > 0 {
        out.push(b'.')?;
        put_decimals(rest, out)?;
    }
    Ok(())
}

/// Puts a separator behind some bytes, unless what follows it is the first of its kind.
fn put_separator(at: usize, separator: &[u8], out: &mut Bytes) -> Mem<()>
    ensures ok { OnOk result (out.new.items ≡ out.old.items ++ separated at separator.now) }
    ensures grows { Grows out.old.items out.new.items }
{
    if at > 0 {
        out.extend_from_slice(separator)?;
    }
    Ok(())
}

/// Puts the mark that a tree is behind some bytes.
fn put_mark(mark: u8, out: &mut Bytes) -> Mem<()>
    ensures ok { OnOk result (out.new.items ≡ out.old.items ++ mark ∷ []) }
    ensures grows { Grows out.old.items out.new.items }
{
    out.push(mark)?;
    Ok(())
}

/// Puts the canonical text of a tree behind some bytes, in parentheses or not. An `Err` may leave a
/// part of it there.
#[cycle(put)]
fn put_grouped(is_group: bool, tree: &Tree, out: &mut Bytes) -> Mem<()>
    ensures ok { OnOk result
        (out.new.items ≡ out.old.items ++ grouped is_group (canon (value_of tree.now))) }
    ensures grows { Grows out.old.items out.new.items }
{
    if !is_group {
        return put_tree(tree, out);
    }
    out.push(b'(')?;
    put_tree(tree, out)?;
    out.push(b')')?;
    Ok(())
}

/// Puts the canonical text of a tree behind some bytes. An `Err` may leave a part of it there.
#[cycle(put)]
fn put_tree(tree: &Tree, out: &mut Bytes) -> Mem<()>
    ensures ok { OnOk result (out.new.items ≡ out.old.items ++ canon (value_of tree.now)) }
    ensures grows { Grows out.old.items out.new.items }
{
    match tree {
        Tree::Leaf(path) => put_path(path, out),
        Tree::Neg => put_mark(b'~', out),
        Tree::Fail => put_mark(b'!', out),
        Tree::Empty => put_mark(b'$', out),
        Tree::Alt(trees) => put_alts(trees, out),
        Tree::Union(branches) => put_branches(branches, out),
    }
}

/// Puts the alternatives of a choice behind some bytes. An `Err` may leave a part of them there.
#[cycle(put)]
fn put_alts(trees: &Trees, out: &mut Bytes) -> Mem<()>
    ensures ok { OnOk result
        (out.new.items ≡ out.old.items
        ++ canon_alts (tree_values (map value_of (trees_in trees.now)))) }
    ensures grows { Grows out.old.items out.new.items }
{
    for (at, tree) in trees.items.iter().enumerate() {
        put_separator(at, b" | ", out)?;
        put_grouped(tree.is_alt(), tree, out)?;
    }
    Ok(())
}

/// Puts a branch behind some bytes. An `Err` may leave a part of it there.
#[cycle(put)]
fn put_branch(branch: &Branch, out: &mut Bytes) -> Mem<()>
    ensures ok { OnOk result
        (out.new.items ≡ out.old.items
        ++ branch_text branch.now.weight (value_of branch.now.tree)) }
    ensures grows { Grows out.old.items out.new.items }
{
    put_weight(branch.weight, out)?;
    out.extend_from_slice(b" * ")?;
    put_grouped(branch.tree.is_compound(), &branch.tree, out)
}

/// Puts the branches of a union behind some bytes. An `Err` may leave a part of them there.
#[cycle(put)]
fn put_branches(branches: &Branches, out: &mut Bytes) -> Mem<()>
    ensures ok { OnOk result
        (out.new.items ≡ out.old.items ++ canon_branches (branches_of branches.now)) }
    ensures grows { Grows out.old.items out.new.items }
{
    for (at, branch) in branches.items.iter().enumerate() {
        put_separator(at, b" & ", out)?;
        put_branch(branch, out)?;
    }
    Ok(())
}

/// Puts the canonical text of a tree behind some bytes. An `Err` leaves them as they were.
///
/// It is the text with the fewest parentheses, with ` | `, ` & ` and ` * ` between its parts; each
/// branch has its weight, with no more decimals than it needs.
pub fn append_tree(tree: &Tree, out: &mut Bytes) -> Mem<()>
    ensures ok { OnOk result (out.new.items ≡ out.old.items ++ canon (value_of tree.now)) }
    ensures err { OnErr result (out.new.items ≡ out.old.items) }
{
    let before = out.len();
    let done = put_tree(tree, out);
    if done.is_err() {
        out.truncate(before);
    }
    done
}

/// The canonical text of a tree, as [`append_tree`] writes it.
pub fn write_tree(alloc: Global, tree: &Tree) -> Mem<Bytes>
    ensures { IfOk result (λ text. text.items ≡ canon (value_of tree.now)) }
{
    let mut text = Vec::new(alloc);
    put_tree(tree, &mut text)?;
    Ok(text)
}
