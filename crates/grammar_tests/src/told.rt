//! What tests assert of what they are told.

use std::process::Abort;
use std::test::Fail;

/// Asserts that a text is this one.
pub(crate) fn assert_told<R: Abort>(
    rt: &R,
    told: Result<Vec<u8>, Fail>,
    want: &[u8],
) -> Result<(), Fail> {
    let told = told?;
    assert!(rt;
        told.as_slice() == want,
        "{} in place of {}",
        told.as_slice().escape_ascii(),
        want.escape_ascii()
    );
    Ok(())
}
