// Keys at the edges of their words, and forks.
use crate::NodeKey;
use std::cmp::Ordering;

#[test]
fn halves_at_their_edges(rt: HostRuntime) {
    for (hi, lo) in [
        (0, 0),
        (0, u128::MAX),
        (u64::MAX, 0),
        (u64::MAX, u128::MAX),
        (1, 1 << 64),
        (7, (1 << 64) - 1),
    ] {
        let key = NodeKey::new(hi, lo);
        assert_eq!(rt; (key.hi(), key.lo()), (hi, lo));
        assert!(rt; key == NodeKey::new(hi, lo));
    }
}

#[test]
fn order_by_upper_bits_first(rt: HostRuntime) {
    let low = NodeKey::new(1, u128::MAX);
    let high = NodeKey::new(2, 0);
    assert!(rt; low.is_before(&high) && !high.is_before(&low));
    assert!(rt; low < high && low != high);
    assert_eq!(rt;
        NodeKey::new(1, 1 << 64).cmp(&NodeKey::new(1, 1)),
        Ordering::Greater
    );
    assert_eq!(rt; low.cmp(&low), Ordering::Equal);
}

#[test]
fn floors_clear_the_lowest_bits(rt: HostRuntime) {
    let key = NodeKey::new(0xffff, u128::MAX);
    assert!(rt; key.floor(0) == key);
    assert!(rt; key.floor(4) == NodeKey::new(0xffff, u128::MAX << 4));
    assert!(rt; key.floor(64) == NodeKey::new(0xffff, u128::MAX << 64));
    assert!(rt; key.floor(100) == NodeKey::new(0xffff, u128::MAX << 100));
    assert!(rt; key.floor(128) == NodeKey::new(0xffff, 0));
    assert!(rt; key.floor(136) == NodeKey::new(0xff00, 0));
    assert!(rt; key.floor(192) == NodeKey::new(0, 0));
}
