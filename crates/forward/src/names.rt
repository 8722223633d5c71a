//! The names that Connection fields list.
ghost use Rattle.std.specs.Prelude.{◌≡◌, ◌++◌, [], ◌∷◌, IfOk, OnOk, map};
ghost use Rattle.http_wire.specs.Framing.{pieces_of_value};
ghost use Rattle.forward.specs.Dropped.{named_in_connection};
ghost use Rattle.forward.specs.Listed.{lowered};

use crate::{Bytes, Mem};
use http_wire::{Field, trimmed};
use std::alloc::Global;

/// The names that the values of the Connection fields list, in order and in lower case (RFC 9110
/// section 7.6.1).
pub(crate) fn lowered_names(alloc: Global, fields: &[Field]) -> Mem<Vec<Bytes>>
    ensures { IfOk result
        (λ names. map (λ n. n.items) names.items ≡ lowered (named_in_connection fields.now)) }
{
    let mut names = Vec::new(alloc);
    for field in fields {
        push_listed(alloc, &mut names, field)?;
    }
    Ok(names)
}

/// Adds the names that a field lists, where it is a Connection field.
fn push_listed(alloc: Global, names: &mut Vec<Bytes>, field: &Field) -> Mem<()>
    ensures { OnOk result (map (λ n. n.items) names.new.items
        ≡ map (λ n. n.items) names.old.items ++ lowered (named_in_connection (field.now ∷ []))) }
{
    if !field.name.is("Connection") {
        return Ok(());
    }
    push_pieces(alloc, names, field.value.bytes())
}

/// Adds the pieces of a value, which is cut at its commas, without the blanks around each.
fn push_pieces(alloc: Global, names: &mut Vec<Bytes>, value: &[u8]) -> Mem<()>
    ensures { OnOk result (map (λ n. n.items) names.new.items
        ≡ map (λ n. n.items) names.old.items ++ lowered (pieces_of_value value.now)) }
{
    for piece in value.split(|byte| *byte == b',') {
        push_name(alloc, names, trimmed(piece))?;
    }
    Ok(())
}

/// Adds a name in lower case.
fn push_name(alloc: Global, names: &mut Vec<Bytes>, name: &[u8]) -> Mem<()>
    ensures { OnOk result (map (λ n. n.items) names.new.items
        ≡ map (λ n. n.items) names.old.items ++ lowered (name.now ∷ [])) }
{
    let mut lowered = Vec::from_slice(alloc, name)?;
    lowered.as_mut_slice().make_ascii_lowercase();
    names.push(lowered)?;
    Ok(())
}
