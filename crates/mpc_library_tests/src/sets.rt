use mpc_sets::{ActiveSet, count_sets, is_level};
use std::test::Fail;

#[test]
fn calls_on_one_set(rt: HostRuntime) -> Result<(), Fail> {
    let set = ActiveSet::empty().with(60).with(2).with(7).with(2);
    assert_eq!(rt; set.mask(), 1 << 60 | 1 << 7 | 1 << 2);
    assert_eq!(rt; set.size(), 3);
    assert_eq!(rt; set.member(1), 2);
    assert_eq!(rt; set.member(2), 7);
    assert_eq!(rt; set.member(3), 60);
    assert!(rt; set.has(7) && !set.has(6));
    assert!(rt; set.without(7).without(6) == ActiveSet::empty().with(2).with(60));
    Ok(())
}

#[test]
fn order(rt: HostRuntime) -> Result<(), Fail> {
    let empty = ActiveSet::empty();
    let in_order = [
        empty,
        empty.with(1),
        empty.with(60),
        empty.with(1).with(3),
        empty.with(1).with(60),
        empty.with(2).with(3),
        empty.with(1).with(2).with(3),
    ];
    for (i, set) in in_order.iter().enumerate() {
        for (j, other) in in_order.iter().enumerate() {
            assert_eq!(rt; set.cmp(other), i.cmp(&j));
        }
    }
    assert!(rt; is_level(&[empty.with(1).with(60), empty.with(2).with(3)]));
    assert!(rt; !is_level(&[empty.with(60), empty.with(1).with(3)]));
    assert!(rt; !is_level(&[empty.with(2), empty.with(2)]));
    assert_eq!(rt; count_sets(&[empty]), 1);
    Ok(())
}
