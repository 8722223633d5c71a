//! Long texts, in which one part stands many times.

use std::alloc::Global;
use text_parts::{Bytes, Mem};

/// A text, a part so many times, and an end.
pub(crate) fn repeated(
    alloc: Global,
    front: &str,
    part: &str,
    count: usize,
    end: &str,
) -> Mem<Bytes> {
    let mut text = Vec::from_slice(alloc, front.as_bytes())?;
    append_repeated(part, count, &mut text)?;
    text.extend_from_slice(end.as_bytes())?;
    Ok(text)
}

/// Puts a part behind a text, so many times.
pub(crate) fn append_repeated(part: &str, count: usize, text: &mut Bytes) -> Mem<()> {
    for _part in 0..count {
        text.extend_from_slice(part.as_bytes())?;
    }
    Ok(())
}
