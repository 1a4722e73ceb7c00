//! Tests of exact quotients, with numbers that were worked out by hand.

use mpc_quotients::{Divisor, changed, short_changed};

#[test]
fn divides_where_that_is_whole_and_small(rt: HostRuntime) {
    let dozen = Divisor::of(12);
    assert!(rt; changed(6, 8, 12, 6, dozen, 5) == Some(-5));
    assert!(rt; changed(6, 8, 12, 6, dozen, 4) == None);
    assert!(rt; changed(7, 0, 0, 1, dozen, 100) == None);
    assert!(rt; changed(7, 5, 9, 1, Divisor::of(1), 100) == Some(-38));
    let large = Divisor::of(3 << 40);
    let most = 1 << 62;
    assert!(rt; changed(1 << 62, 0, 0, 3 << 40, large, most) == Some(1 << 62));
    assert!(rt; changed(-(1 << 61), 3 << 40, 1 << 61, 3 << 40, large, most) == Some(-(1 << 62)));
}

#[test]
fn divides_short_numbers(rt: HostRuntime) {
    let dozen = Divisor::of(12);
    assert!(rt; short_changed(6, 8, 12, 6, dozen) == Some(-5));
    assert!(rt; short_changed(7, 0, 0, 1, dozen) == None);
    assert!(rt; short_changed(7, 5, 9, 1, Divisor::of(1)) == Some(-38));
    let large = Divisor::of(3 << 28);
    let half = 1 << 29;
    assert!(rt; short_changed(-half, half, 3 << 28, 3 << 28, large) == Some(-(1 << 30)));
    assert!(rt; short_changed(-(1 << 30), 1 << 30, 3 << 28, 3 << 28, large) == None);
}
