//! Paths that grow by a label.
ghost use Rattle.std.specs.Prelude.{◌≡◌, IfOk};
ghost use Rattle.http_wire.specs.Fields.{lower};
ghost use Rattle.identifier.specs.Naming.{one_label, AnswersBehind};

use crate::fault::IdentifyFault;
use name_tree::Path;
use std::alloc::{AllocError, Global};

/// The same path once more. The two share their labels.
pub(crate) fn copied(alloc: Global, path: &Path) -> Result<Path, AllocError>
    ensures { IfOk result (λ copy. copy ≡ path.now) }
{
    path.part(alloc, 0, path.len())
}

/// A copy of some bytes, in lower case.
pub(crate) fn lowered(alloc: Global, bytes: &[u8]) -> Result<Vec<u8>, AllocError>
    ensures { IfOk result (λ copy. copy.items ≡ lower bytes.now) }
{
    let mut copy = Vec::from_slice(alloc, bytes)?;
    copy.as_mut_slice().make_ascii_lowercase();
    Ok(copy)
}

/// The path with this label behind the others, unless that one is empty.
pub(crate) fn with_label(mut path: Path, label: Vec<u8>) -> Result<Path, IdentifyFault>
    ensures { AnswersBehind path (one_label label.items) result }
{
    if label.is_empty() {
        return Err(IdentifyFault::Unidentified);
    }
    path.push(label)?;
    Ok(path)
}
