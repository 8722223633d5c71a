//! How far a body was passed on.

use crate::end::BodyEnd;

/// How far a body was passed on.
#[derive(Clone, Copy, Debug, PartialEq, Eq)]
pub struct Passed {
    /// How many bytes of its content were taken to go on. All of them did, but at
    /// [`BodyEnd::SendFault`], [`BodyEnd::WriteFault`] and [`BodyEnd::OutOfMemory`], where the last
    /// of them may not have.
    pub count: u64,
    /// That number where the body went on whole, and else why it did not.
    pub end: Result<u64, BodyEnd>,
}
