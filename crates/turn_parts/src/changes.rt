//! The changes of generated runs.
ghost use Rattle.std.specs.Prelude.{◌≡◌, ◌<◌, codes, IfOk};
ghost use Rattle.machine.specs.Code.{change_of};
ghost use Rattle.machine.specs.State.{IsSoundChange};
ghost use Rattle.turn_parts.specs.Parts.{addrs_change, first_change, table_change};

use crate::Mem;
use crate::addrs::addrs_from;
use crate::services::service_name;
use crate::tables::{first_table, table_by};
use addr_book::Name;
use machine::Change;
use std::alloc::{AllocError, Global};

/// The change that comes before all turns: the namespace `default` sends each service to the book.
pub fn first_change(alloc: Global) -> Mem<Change>
    ensures change { IfOk result (λ change. change_of change ≡ first_change) }
    ensures sound { IfOk result (λ change. IsSoundChange (change_of change)) }
{
    let name = space_name(alloc)?;
    let dtab = first_table(alloc)?;
    Ok(Change::Create { name, dtab })
}

/// The change that gives a service fewer than five addresses, by a number.
pub fn addrs_change(alloc: Global, service: u64, number: u64) -> Mem<Change>
    requires { number < 4096 }
    ensures change { IfOk result (λ change. change_of change ≡ addrs_change service number) }
    ensures sound { IfOk result (λ change. IsSoundChange (change_of change)) }
{
    let list = addrs_from(alloc, number % 5, 1024 + number)?;
    let service = service_name(alloc, service)?;
    Ok(Change::SetAddrs { service, list })
}

/// The change that gives the namespace `default` the table which sends one service to the next.
pub fn table_change(alloc: Global, service: u64) -> Mem<Change>
    requires { service < 16 }
    ensures change { IfOk result (λ change. change_of change ≡ table_change service) }
    ensures sound { IfOk result (λ change. IsSoundChange (change_of change)) }
{
    let name = space_name(alloc)?;
    let dtab = table_by(alloc, service)?;
    Ok(Change::Put {
        name,
        version: None,
        dtab,
    })
}

/// The name of the namespace, `default`.
fn space_name(alloc: Global) -> Mem<Name>
    ensures { IfOk result (λ name. name ≡ codes "default") }
{
    match Name::of(alloc, b"default") {
        Ok(name) => Ok(name),
        Err(_) => Err(AllocError),
    }
}
