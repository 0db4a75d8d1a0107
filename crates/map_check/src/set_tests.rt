// A set of few keys, asked at each edge.
use key_set::{KeySet, NodeKey};
use node_core::Forge;
use std::alloc::{AllocError, Global};
use std::test::Fail;

fn key(number: u64) -> NodeKey {
    NodeKey::new(0, u128::from(number))
}

fn set_of(alloc: Global, numbers: &[u64]) -> Result<KeySet, AllocError> {
    let forge = Forge::at(alloc, 1);
    let mut set = KeySet::new();
    for number in numbers {
        set = set.with(&forge, key(*number))?;
    }
    Ok(set)
}

fn number(found: Option<&NodeKey>) -> Option<u128> {
    found.map(|key| key.lo())
}

// The sum and the count of the keys from there on.
fn onward(set: &KeySet, from: u64) -> (u128, u8) {
    let mut sum = 0u128;
    let mut count = 0u8;
    for key in set.walk_from(&key(from)) {
        sum = sum.wrapping_add(key.lo());
        count = count.wrapping_add(1);
    }
    (sum, count)
}

fn walked(set: &KeySet) -> u8 {
    let mut count = 0u8;
    for _ in set.walk() {
        count = count.wrapping_add(1);
    }
    count
}

#[test]
fn a_set_is_asked_at_each_edge(rt: HostRuntime) -> Result<(), Fail> {
    let set = set_of(rt.alloc(), &[8, 2, 5, 2])?;
    // asked at, the last key up to it, the first key past it, what is from it on
    for (at, last, next, from) in [
        (1, None, Some(2), (15, 3)),
        (2, Some(2), Some(5), (15, 3)),
        (4, Some(2), Some(5), (13, 2)),
        (5, Some(5), Some(8), (13, 2)),
        (8, Some(8), None, (8, 1)),
        (9, Some(8), None, (0, 0)),
    ] {
        assert_eq!(rt; number(set.last_to(&key(at))), last);
        assert_eq!(rt; number(set.after(&key(at))), next);
        assert_eq!(rt; onward(&set, at), from);
    }
    Ok(())
}

#[test]
fn a_key_comes_and_goes(rt: HostRuntime) -> Result<(), Fail> {
    let forge = Forge::at(rt.alloc(), 2);
    let set = set_of(rt.alloc(), &[8, 2, 5])?;
    let less = set.without(&forge, &key(5))?;
    let same = less.without(&forge, &key(6))?.share()?;
    assert_eq!(rt; onward(&same, 0), (10, 2));
    assert_eq!(rt; walked(&same), 2);
    assert!(rt; set.contains(&key(5)));
    assert!(rt; !less.contains(&key(5)));
    Ok(())
}
