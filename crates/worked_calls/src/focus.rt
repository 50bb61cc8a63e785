// The next and the previous number in the order of the focus, also from a number that isn't in the order, which no run has.
use crate::compare::expect_at;
use focus_order::{next, prev};

// What has the focus, and in the order 4, 8 the number after it and the one before it.
const STEPS: [(Option<u64>, u64, u64); 4] = [
    (None, 4, 8),
    (Some(4), 8, 8),
    (Some(8), 4, 4),
    (Some(5), 4, 8),
];

#[test]
fn the_focus_goes_round(rt: HostRuntime) {
    for (at, after, before) in STEPS {
        expect_at(&rt, next(&[4, 8], at), Some(after), &at);
        expect_at(&rt, prev(&[4, 8], at), Some(before), &at);
    }
}
