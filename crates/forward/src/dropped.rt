//! The received fields that go on.
ghost use Rattle.std.specs.Prelude.{◌≡◌, ◌++◌, [], ◌∷◌, IfOk, OnOk, map};
ghost use Rattle.forward.specs.Dropped.{has_name_of, kept_but};
ghost use Rattle.forward.specs.Kept.{is_left, left_by};
ghost use Rattle.http_wire.specs.Lines.{ended, field_line};

use crate::listed::Listed;
use crate::{Bytes, Mem};
use http_wire::{Field, push_field};
use std::alloc::Global;

/// The names of the fields that never go on: those that are written anew, those of one connection
/// (RFC 9110 section 7.6.1), Expect, since no interim reply comes back, and the router's own.
pub(crate) const NEVER_KEPT: [&str; 15] = [
    "Host",
    "Content-Length",
    "Transfer-Encoding",
    "Connection",
    "Keep-Alive",
    "Proxy-Connection",
    "TE",
    "Trailer",
    "Upgrade",
    "Expect",
    "l5d-dtab",
    "l5d-ctx-dtab",
    "l5d-dst-service",
    "l5d-dst-client",
    "l5d-dst-residual",
];

/// The names of the fields of a reply that never go back: those that are written anew, and those of
/// one connection.
pub(crate) const NEVER_BACK: [&str; 8] = [
    "Content-Length",
    "Transfer-Encoding",
    "Connection",
    "Keep-Alive",
    "Proxy-Connection",
    "TE",
    "Trailer",
    "Upgrade",
];

/// Adds the lines of the fields that go on: all but those of the names that never do, and those
/// that the Connection fields list.
pub(crate) fn push_kept(
    alloc: Global,
    head: &mut Bytes,
    fields: &[Field],
    never: &[&str],
) -> Mem<()>
    ensures { OnOk result (head.new.items ≡ head.old.items
        ++ ended (map field_line (kept_but (map (λ n. n.now) never.now) fields.now))) }
{
    let listed = Listed::of(alloc, fields)?;
    let pushed = push_left(alloc, head, fields, never, &listed);
    drop(listed);
    pushed
}

/// Adds the lines of the fields that have none of these names, and none that is listed.
fn push_left(
    alloc: Global,
    head: &mut Bytes,
    fields: &[Field],
    never: &[&str],
    listed: &Listed,
) -> Mem<()>
    ensures { OnOk result (head.new.items ≡ head.old.items
        ++ ended (map field_line (left_by (map (λ n. n.now) never.now) listed.now fields.now))) }
{
    let mut room = Vec::new(alloc);
    for field in fields {
        push_where_left(head, field, never, listed, &mut room)?;
    }
    Ok(())
}

/// Adds the line of a field, where it goes on.
fn push_where_left(
    head: &mut Bytes,
    field: &Field,
    never: &[&str],
    listed: &Listed,
    room: &mut Bytes,
) -> Mem<()>
    ensures { OnOk result (head.new.items ≡ head.old.items
        ++ ended (map field_line
        (left_by (map (λ n. n.now) never.now) listed.now (field.now ∷ [])))) }
{
    let on = goes_on(field, never, listed, room)?;
    if !on {
        return Ok(());
    }
    push_field(head, field.name.bytes(), field.value.bytes())
}

/// Whether the field goes on. `room` is room for its name in lower case.
fn goes_on(field: &Field, never: &[&str], listed: &Listed, room: &mut Bytes) -> Mem<bool>
    ensures { IfOk result (λ on. on ≡ is_left (map (λ n. n.now) never.now) listed.now field.now) }
{
    if is_any_of(field, never) {
        return Ok(false);
    }
    let found = listed.has(field.name.bytes(), room)?;
    Ok(!found)
}

/// Whether the field has one of these names, in any case.
fn is_any_of(field: &Field, names: &[&str]) -> bool
    ensures { result ≡ has_name_of (map (λ n. n.now) names.now) field.now }
{
    names.iter().any(|name| field.name.is(name))
}
