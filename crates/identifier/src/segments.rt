//! The pieces of a target's path.
ghost use Rattle.std.specs.Prelude.{◌≡◌, ◌≢◌, slice_index};
ghost use Rattle.http_uri.specs.ByteClasses.{slash};
ghost use Rattle.identifier.specs.Naming.{first_of, path_in, pieces_of, Answers, AnswersBy};
ghost use Rattle.identifier.specs.Naming.{IsTaken};

use crate::fault::IdentifyFault;
use http_wire::{Head, TargetFault, before, read_target};
use name_tree::Path;
use std::alloc::Global;

/// The first so many pieces of the path of the target that goes on.
pub(crate) fn segments(alloc: Global, head: &Head, count: u32) -> Result<Path, IdentifyFault>
    requires { IsTaken head.now }
    ensures { AnswersBy head.now (λ line. first_of count (pieces_of (path_in line))) result }
{
    match read_target(alloc, head) {
        Ok(target) => first_pieces(alloc, path_of(target.line.as_slice()), count),
        Err(TargetFault::OutOfMemory) => Err(IdentifyFault::OutOfMemory),
        Err(TargetFault::Connect) => unreachable!(),
        Err(TargetFault::NoTarget) => unreachable!(),
    }
}

/// The path of a target that goes on.
fn path_of(line: &[u8]) -> &[u8]
    ensures { result.now ≡ path_in line.now }
{
    if line == b"*".as_slice() {
        return b"".as_slice();
    }
    before(line, b'?')
}

/// The first so many pieces of a path, if there are so many.
fn first_pieces(alloc: Global, path: &[u8], count: u32) -> Result<Path, IdentifyFault>
    ensures { Answers (first_of count (pieces_of path.now)) result }
{
    let mut labels = Path::new(alloc);
    let mut rest = behind_slashes(path);
    for _turn in 0..count {
        let piece = before(rest, b'/');
        if piece.is_empty() {
            return Err(IdentifyFault::Unidentified);
        }
        labels.push(Vec::from_slice(alloc, piece)?)?;
        rest = behind_slashes(&rest[piece.len()..]);
    }
    Ok(labels)
}

/// The bytes behind the slashes at the front.
fn behind_slashes(path: &[u8]) -> &[u8]
    ensures pieces { pieces_of result.now ≡ pieces_of path.now }
    ensures first { slice_index result.now 0 ≢ slash }
{
    let mut rest = path;
    while let Some((first, others)) = rest.split_first() {
        if *first != b'/' {
            break;
        }
        rest = others;
    }
    rest
}
