use std::fmt::Debug;
use std::process::Abort;

/// Ends the test unless both values are equal. A call is shorter to prove than an `assert_eq!`.
pub(crate) fn expect_eq<T: PartialEq + Debug + Drop>(rt: &impl Abort, found: T, expected: T) {
    assert_eq!(rt; found, expected);
}

/// Ends the test unless both texts are equal.
pub(crate) fn expect_text(rt: &impl Abort, found: &[u8], expected: &[u8]) {
    expect_eq(rt, found, expected);
}

/// Ends the test unless both values are equal, and reports which case they are of.
pub(crate) fn expect_at<N: PartialEq + Debug, T: PartialEq + Debug + Drop>(
    rt: &impl Abort,
    name: &N,
    found: T,
    expected: T,
) {
    expect_eq(rt, (name, found), (name, expected));
}
