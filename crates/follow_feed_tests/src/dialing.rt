//! A leader, and a dialer to it in memory.
use addr_book::Addr;
use line_doubles::MemDialer;
use std::alloc::{AllocError, Global};

/// The address of the leader.
pub(crate) const LEADER: Addr = Addr {
    ip: 0x7f00_0001,
    port: 4181,
};

/// The number of the call that fails, if one does.
pub(crate) fn failing(alloc: Global, call: Option<u64>) -> Result<Vec<u64>, AllocError> {
    match call {
        Some(call) => Ok(vec![in alloc; call]?),
        None => Ok(Vec::new(alloc)),
    }
}

/// These replies, each with its own memory.
fn owned(alloc: Global, replies: &[&[u8]]) -> Result<Vec<Vec<u8>>, AllocError> {
    let mut owned = Vec::new(alloc);
    for reply in replies {
        owned.push(Vec::from_slice(alloc, reply)?)?;
    }
    Ok(owned)
}

/// A dialer whose dials are replied to so, one after another, in pieces of these sizes, and of
/// which this call fails.
pub(crate) fn dialer(
    alloc: Global,
    replies: &[&[u8]],
    sizes: Vec<usize>,
    call: Option<u64>,
) -> Result<MemDialer, AllocError> {
    let calls = failing(alloc, call)?;
    let replies = owned(alloc, replies)?;
    Ok(MemDialer::of(alloc, replies, sizes, calls))
}
