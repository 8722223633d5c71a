//! What two lists of addresses have in common.
ghost use Rattle.std.specs.Prelude.{◌≡◌, ◌≤◌, length, take};
ghost use Rattle.addr_book.specs.declared.addr.Addr.{Addr};
ghost use Rattle.addr_book.specs.AddrList.{has_addr};

use crate::addr::Weighted;

/// How many addresses two lists have in common at their front, whatever the weights.
pub(crate) fn common_front(one: &[Weighted], other: &[Weighted]) -> usize
    ensures one { result ≤ length one.now }
    ensures other { result ≤ length other.now }
    ensures same { (addr : Addr)
        → has_addr (take result one.now) addr ≡ has_addr (take result other.now) addr }
{
    for (at, item) in one.iter().enumerate() {
        if at >= other.len() || other[at].addr != item.addr {
            return at;
        }
    }
    one.len()
}
