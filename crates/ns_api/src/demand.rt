//! What requests of namerd's interface ask for.
ghost use Rattle.std.specs.Prelude.{◌≡◌, IfOk};
ghost use Rattle.std.specs.Option.{option_copied};
ghost use Rattle.api_wire.specs.Demand.{answer, demand_value};
ghost use Rattle.ns_api.specs.Demand.{bad_table, names_demand, ns_demand, segment_demand};
ghost use Rattle.ns_api.specs.Demand.{table_asked, table_demand};

use crate::Mem;
use crate::json_table::{TableFault, read_body_table};
use addr_book::{Name, NameFault};
use api_wire::{
    Demand, Methods, Verb, is_path, path_in, read_name, segment_behind, verb_of, version_asked,
};
use http::StatusCode;
use http_wire::{FieldList, Head};
use machine::{Change, Look};
use std::alloc::{AllocError, Global};

/// The body is no table.
fn bad_table(alloc: Global) -> Mem<Demand>
    ensures { IfOk result (λ demand. demand_value demand ≡ answer bad_table) }
{
    Demand::word(alloc, StatusCode::BAD_REQUEST, "dtab")
}

/// What a request of namerd's interface asks for, by its head, the target that goes on, and its
/// body.
#[tactic(auto, unfolding(crate::specs::Demand::ns_demand))]
pub fn ns_demand(alloc: Global, head: &Head, line: &[u8], body: &[u8]) -> Mem<Demand>
    ensures { IfOk result (λ demand. demand_value demand ≡ ns_demand head.now line.now body.now) }
{
    let path = path_in(line);
    let verb = verb_of(&head.method);
    if is_path(path, b"/api/1/dtabs") {
        return names_demand(alloc, verb);
    }
    segment_demand(
        alloc,
        verb,
        segment_behind(b"/api/1/dtabs/", path),
        &head.fields,
        body,
    )
}

/// What a list of names is asked for.
fn names_demand(alloc: Global, verb: Option<Verb>) -> Mem<Demand>
    ensures { IfOk result (λ demand. demand_value demand ≡ names_demand verb) }
{
    match verb {
        Some(Verb::Get) => Ok(Demand::Look(Look::List)),
        Some(Verb::Head) => Ok(Demand::Look(Look::List)),
        Some(Verb::Post) => Demand::not_allowed(alloc, Methods::Reads),
        Some(Verb::Put) => Demand::not_allowed(alloc, Methods::Reads),
        Some(Verb::Delete) => Demand::not_allowed(alloc, Methods::Reads),
        None => Demand::not_allowed(alloc, Methods::Reads),
    }
}

/// What the last segment of a path is asked for, if there is one.
fn segment_demand(
    alloc: Global,
    verb: Option<Verb>,
    segment: Option<&[u8]>,
    fields: &FieldList,
    body: &[u8],
) -> Mem<Demand>
    ensures { IfOk result
        (λ demand. demand_value demand
        ≡ segment_demand verb (option_copied segment.entry) fields.now body.now) }
{
    match segment {
        None => Demand::no_path(alloc),
        Some(segment) => table_demand(alloc, verb, segment, fields, body),
    }
}

/// What the table of a namespace is asked for.
fn table_demand(
    alloc: Global,
    verb: Option<Verb>,
    segment: &[u8],
    fields: &FieldList,
    body: &[u8],
) -> Mem<Demand>
    ensures { IfOk result
        (λ demand. demand_value demand ≡ table_demand verb segment.now fields.now body.now) }
{
    let Some(verb) = verb else {
        return Demand::not_allowed(alloc, Methods::Tables);
    };
    match read_name(alloc, segment) {
        Ok(name) => table_asked(alloc, verb, name, fields, body),
        Err(NameFault::NotName) => Demand::bad_name(alloc),
        Err(NameFault::OutOfMemory) => Err(AllocError),
    }
}

/// What the table of this namespace is asked for.
fn table_asked(
    alloc: Global,
    verb: Verb,
    name: Name,
    fields: &FieldList,
    body: &[u8],
) -> Mem<Demand>
    ensures { IfOk result
        (λ demand. demand_value demand ≡ table_asked verb name fields.now body.now) }
{
    match verb {
        Verb::Get => Ok(Demand::Look(Look::Get { name })),
        Verb::Head => Ok(Demand::Look(Look::Get { name })),
        Verb::Post => match read_body_table(alloc, fields, body) {
            Ok(dtab) => Ok(Demand::Change(Change::Create { name, dtab })),
            Err(TableFault::NoTable) => bad_table(alloc),
            Err(TableFault::OutOfMemory) => Err(AllocError),
        },
        Verb::Put => match read_body_table(alloc, fields, body) {
            Ok(dtab) => Ok(Demand::Change(Change::Put {
                name,
                version: version_asked(fields),
                dtab,
            })),
            Err(TableFault::NoTable) => bad_table(alloc),
            Err(TableFault::OutOfMemory) => Err(AllocError),
        },
        Verb::Delete => Ok(Demand::Change(Change::Delete {
            name,
            version: version_asked(fields),
        })),
    }
}
