//! What a test wants.

use std::fmt::Debug;
use std::process::Abort;

/// What was found is what was wanted, or the test fails with both.
pub(crate) fn same<T: PartialEq + Debug + Drop>(rt: &impl Abort, found: T, wanted: T) {
    assert_eq!(rt; found, wanted);
}
