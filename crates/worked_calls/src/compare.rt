// What tests compare. A comparison in a function of its own is proved once, and a test that has many stays cheap to prove.
use std::fmt::Debug;
use std::process::Abort;

fn compare<T: PartialEq + Debug>(rt: &impl Abort, given: &T, want: &T) {
    assert_eq!(rt; given, want);
}

// Asserts that a value is the wanted one.
pub(crate) fn expect<T: PartialEq + Debug + Drop>(rt: &impl Abort, given: T, want: T) {
    compare(rt, &given, &want);
}

fn compare_at<T: PartialEq + Debug>(rt: &impl Abort, given: &T, want: &T, row: &impl Debug) {
    assert_eq!(rt; given, want, "{row:?}");
}

// The same of a row of a table, which is told where it fails.
pub(crate) fn expect_at<T: PartialEq + Debug + Drop>(
    rt: &impl Abort,
    given: T,
    want: T,
    row: &impl Debug,
) {
    compare_at(rt, &given, &want, row);
}
