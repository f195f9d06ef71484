//! Results compared with the expected ones.
use std::fmt::Debug;
use std::process::Abort;

// The result of a call is this.
pub(crate) fn expect_equal<T: PartialEq + Debug + Drop>(rt: &impl Abort, reported: T, want: T) {
    assert!(rt; reported == want, "{reported:?}, not {want:?}");
}
