//! The fields by which a request says how it is to be routed.
ghost use Rattle.std.specs.Prelude.{◌≡◌, codes, filter, not, take};
ghost use Rattle.http_wire.specs.Fields.{same_ignoring_case};
ghost use Rattle.identifier.specs.Context.{heard_by, is_context, without_context};

use crate::rule::Rule;
use http_wire::{Field, FieldList, Head, same_bytes};

/// What the names of the fields begin with by which a router tells the next one of a request.
const CONTEXT: &[u8] = b"l5d-ctx-";

/// The head of a request as a router hears it: where the rule clears the context, without the
/// fields `l5d-dtab` and those whose names begin with `l5d-ctx-`, in any case. The other fields
/// stay as they are, in their order. It takes no memory.
///
/// What is not in the head that this gives is neither read nor passed on: call it before
/// [`identify`](crate::identify) and [`local_dtab`](crate::local_dtab), and let what goes on be
/// written from it.
pub fn hear(rule: &Rule, head: Head) -> Head
    ensures { result ≡ heard_by rule.now.clears_context head }
{
    if rule.clears_context {
        without_context(head)
    } else {
        head
    }
}

/// The head without the fields of its context.
fn without_context(head: Head) -> Head
    ensures { result ≡ without_context head }
{
    let (method, target, version, fields) = head.into_parts();
    Head {
        method,
        target,
        version,
        fields: FieldList::of(outside_context(fields.into_items())),
    }
}

/// The fields that are not of the context.
fn outside_context(mut fields: Vec<Field>) -> Vec<Field>
    ensures { result.items ≡ filter (λ field. not (is_context field)) fields.items }
{
    fields.retain(|field| !is_context(field));
    fields
}

/// Whether a field is of the context.
fn is_context(field: &Field) -> bool
    ensures { result ≡ is_context field.now }
{
    field.name.is("l5d-dtab") || begins_as_context(field.name.bytes())
}

/// Whether a name begins with `l5d-ctx-`, in any case.
fn begins_as_context(name: &[u8]) -> bool
    ensures { result ≡ same_ignoring_case (take 8 name.now) (codes "l5d-ctx-") }
{
    same_bytes(front_of(name), CONTEXT)
}

/// The first eight bytes of a name, or all of a shorter one.
#[tactic(auto, using(crate::proofs::Clearing::first_eight))]
fn front_of(name: &[u8]) -> &[u8]
    ensures { result.now ≡ take 8 name.now }
{
    name.split_at(name.len().min(8)).0
}
