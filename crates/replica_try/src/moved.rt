//! How much of both bodies moves in a try.

/// How many bytes of content a try took to pass on, both ways.
///
/// All of them went on, but where a call that passes them on failed or memory was wanting
/// ([`Tried::NotSent`], [`Tried::WrittenShort`], [`Tried::OutOfMemory`]): there the last of them
/// may not have.
///
/// [`Tried::NotSent`]: crate::Tried::NotSent
/// [`Tried::WrittenShort`]: crate::Tried::WrittenShort
/// [`Tried::OutOfMemory`]: crate::Tried::OutOfMemory
#[derive(Clone, Copy, Debug, PartialEq, Eq)]
pub struct Moved {
    /// Those of the request, to the replica.
    pub sent: u64,
    /// Those of the reply, to the client.
    pub given: u64,
}
