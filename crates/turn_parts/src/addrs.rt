//! Addresses of this machine.
ghost use Rattle.std.specs.Prelude.{◌≡◌, ◌+◌, ◌<◌, ◌≤◌, IfOk};
ghost use Rattle.turn_parts.specs.Parts.{local_addr, addrs_from};

use crate::Mem;
use addr_book::{Addr, AddrList, ONE_WEIGHT, Weighted};
use std::alloc::Global;

/// The address 127.0.0.1 with this port.
pub fn local_addr(port: u64) -> Addr
    requires { port < 65536 }
    ensures { result ≡ local_addr port }
{
    Addr {
        ip: 0x7f00_0001,
        port: port as u16,
    }
}

/// So many addresses of this machine, with ports that count up from one, each of the weight 1.
pub(crate) fn addrs_from(alloc: Global, count: u64, port: u64) -> Mem<AddrList>
    requires count { count ≤ 1024 }
    requires port { port + count ≤ 65536 }
    ensures { IfOk result (λ list. list ≡ addrs_from count port) }
{
    let mut items = Vec::new(alloc);
    for next in 0..count {
        items.push(Weighted {
            addr: local_addr(port + next),
            weight: ONE_WEIGHT,
        })?;
    }
    Ok(AddrList::of(items))
}
