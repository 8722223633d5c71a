//! Bytes that tell their place.
use line_base::Mem;
use std::alloc::Global;

/// The byte at a place of what is sent. It tells the place: so a piece that is doubled, left out or
/// moved is seen.
fn byte_at(place: usize) -> u8 {
    (place % 251) as u8
}

/// So many bytes, each of which tells its place.
pub(crate) fn telling(alloc: Global, count: usize) -> Mem<Vec<u8>> {
    let mut bytes = Vec::new(alloc);
    for place in 0..count {
        bytes.push(byte_at(place))?;
    }
    Ok(bytes)
}

/// Whether these bytes are those from this place on.
pub(crate) fn are_from(bytes: &[u8], place: usize) -> bool {
    let mut next = place;
    for byte in bytes {
        if *byte != byte_at(next) {
            return false;
        }
        next = next.wrapping_add(1);
    }
    true
}
