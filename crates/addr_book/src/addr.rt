//! Addresses of replicas, and their weights.
ghost use Rattle.std.specs.Prelude.{◌≡◌, ◌++◌, length, take, OnOk, OnErr};
ghost use Rattle.std.proofs.Common.{rules};
ghost use Rattle.std.specs.Cmp.{partial_order_from_own_ties};
ghost use Rattle.std.specs.Cmp.Rules.{comparing};
ghost use Rattle.std.specs.Ordering.{nat_cmp, on, then_cmp, as_partial_cmp};
ghost use Rattle.addr_book.specs.Addr.{addr_text, ip_text};

use crate::{Bytes, Mem};
use std::cmp::Ordering;
use text_parts::append_number;

/// An IPv4 address and a port. Addresses are ordered by the IPv4 address and then by the port.
#[derive(Clone, Copy, Debug, PartialEq, Eq)]
pub struct Addr {
    /// The IPv4 address as a number, its first part the highest eight bits.
    pub ip: u32,
    /// The port.
    pub port: u16,
}

impl Ord for Addr {
    ghost cmp = { then_cmp (on (λ a. a.ip) nat_cmp) (on (λ a. a.port) nat_cmp) };

    ghost total = { Prim.search (comparing, rules) };

    ghost matches_partial_cmp = { Prim.search (comparing, rules) };

    ghost matches_eq = { Prim.search (comparing, rules) };

    fn cmp(&self, other: &Addr) -> Ordering {
        self.ip.cmp(&other.ip).then(self.port.cmp(&other.port))
    }
}

impl PartialOrd for Addr {
    ghost partial_cmp = { as_partial_cmp
        (then_cmp (on (λ a. a.ip) nat_cmp) (on (λ a. a.port) nat_cmp)) };

    ghost laws = { partial_order_from_own_ties (Prim.search (comparing, rules))
        (Prim.search (comparing, rules)) };

    fn partial_cmp(&self, other: &Addr) -> Option<Ordering> {
        Some(self.cmp(other))
    }
}

/// The weight of an address whose line has none: 1, in millionths.
pub const ONE_WEIGHT: u64 = 1_000_000;

/// An address of a service, and how much of the service's load it is to carry, as against the other
/// addresses of the list.
#[derive(Clone, Copy, Debug, PartialEq, Eq)]
pub struct Weighted {
    /// The address.
    pub addr: Addr,
    /// Its weight, in millionths: 1 to 999,999,999,999 in an [`AddrList`](crate::AddrList).
    pub weight: u64,
}

/// Puts an address behind some bytes, as `a.b.c.d:port`, with no zero before a number. An `Err`
/// changes nothing.
pub fn append_addr(addr: Addr, out: &mut Bytes) -> Mem<()>
    ensures ok { OnOk result (out.new.items ≡ out.old.items ++ addr_text addr) }
    ensures err { OnErr result (out.new.items ≡ out.old.items) }
{
    let start = out.len();
    let written = append_text(addr, out);
    if written.is_err() {
        out.truncate(start);
    }
    written
}

/// Puts an address behind some bytes. An `Err` leaves a part of it there.
fn append_text(addr: Addr, out: &mut Bytes) -> Mem<()>
    ensures ok { OnOk result (out.new.items ≡ out.old.items ++ addr_text addr) }
    ensures err { OnErr result (take (length out.old.items) out.new.items ≡ out.old.items) }
{
    append_ip(addr.ip, out)?;
    out.push(b':')?;
    append_number(u64::from(addr.port), out)?;
    Ok(())
}

/// Puts an IPv4 address behind some bytes, as `a.b.c.d`, with no zero before a number. An `Err`
/// leaves a part of it there.
pub fn append_ip(ip: u32, out: &mut Bytes) -> Mem<()>
    ensures ok { OnOk result (out.new.items ≡ out.old.items ++ ip_text ip) }
    ensures err { OnErr result (take (length out.old.items) out.new.items ≡ out.old.items) }
{
    append_number(u64::from(ip / 0x0100_0000), out)?;
    out.push(b'.')?;
    append_number(u64::from(ip / 0x0001_0000 % 0x100), out)?;
    out.push(b'.')?;
    append_number(u64::from(ip / 0x0000_0100 % 0x100), out)?;
    out.push(b'.')?;
    append_number(u64::from(ip % 0x100), out)?;
    Ok(())
}
