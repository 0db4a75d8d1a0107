// Births and generations, sharing, order, neighbours, threads and drops, on small maps and on large ones.
use node_core::{Forge, Node};
use node_map::{Arms, NodeKey, NodeMap, Tree};
use std::alloc::{AllocError, Global};
use std::marker::{Send, Sync};
use std::sync::Wait;
use std::test::Fail;
use std::thread;
use std::thread::Threads;

fn key(number: u128) -> NodeKey {
    NodeKey::new(0, number)
}

// The version that made the node under the key, and the key's birth.
fn versions(map: &NodeMap<u64>, number: u128) -> Option<(u64, u64)> {
    let node = map.get(&key(number))?;
    Some((node.gen_(), node.born()))
}

// A map of the keys from 0 on, each under itself as a number, made at version 1.
fn consecutive(alloc: Global, count: u64) -> Result<NodeMap<u64>, AllocError> {
    let forge = Forge::at(alloc, 1);
    let mut map = NodeMap::new();
    for i in 0..count {
        map = map.put(&forge, key(u128::from(i)), i)?;
    }
    Ok(map)
}

#[test]
fn a_change_keeps_the_birth_and_an_equal_value_the_node(rt: HostRuntime) -> Result<(), Fail> {
    let alloc = rt.alloc();
    let one = NodeMap::new().put(&Forge::at(alloc, 1), key(1), 5)?;
    let two = one.put(&Forge::at(alloc, 2), key(2), 6)?;
    let third = Forge::at(alloc, 3);
    let three = two.put(&third, key(1), 7)?.put(&third, key(2), 6)?;
    assert_eq!(rt; versions(&three, 1), Some((3, 1)));
    assert_eq!(rt; versions(&three, 2), Some((2, 2)));
    assert_eq!(rt; versions(&two, 1), Some((1, 1)));
    assert_eq!(rt; versions(&one, 2), None);
    Ok(())
}

#[test]
fn a_key_that_comes_back_is_born_again(rt: HostRuntime) -> Result<(), Fail> {
    let alloc = rt.alloc();
    let first = NodeMap::new().put(&Forge::at(alloc, 1), key(1), 5)?;
    let second = Forge::at(alloc, 2);
    let back = first.without(&second, &key(1))?.put(&second, key(1), 5)?;
    assert_eq!(rt; versions(&back, 1), Some((2, 2)));
    let same = first.put(&second, key(1), 5)?;
    assert_eq!(rt; versions(&same, 1), Some((1, 1)));
    Ok(())
}

fn count(map: &NodeMap<u64>) -> u64 {
    let mut count = 0u64;
    for _ in map {
        count = count.wrapping_add(1);
    }
    count
}

// How many nodes of the tree have the generation, as far as `depth` reaches.
fn made_at(tree: &Tree<u64>, generation: u64, depth: u8) -> u64 {
    let here = u64::from(tree.gen_() == generation);
    match tree.arms() {
        Arms::Branch(_, left, right) if depth > 0 => here
            .saturating_add(made_at(left, generation, depth - 1))
            .saturating_add(made_at(right, generation, depth - 1)),
        _ => here,
    }
}

fn made_in(map: &NodeMap<u64>, generation: u64) -> u64 {
    match map.root() {
        None => 0,
        Some(tree) => made_at(tree, generation, 192),
    }
}

#[test]
fn a_put_makes_the_path_and_shares_the_rest(rt: HostRuntime) -> Result<(), Fail> {
    let alloc = rt.alloc();
    let old = consecutive(alloc, 1024)?;
    assert_eq!(rt; made_in(&old, 1), 2047);
    let second = Forge::at(alloc, 2);
    let new = old.put(&second, key(5), 77)?;
    assert_eq!(rt; made_in(&new, 2), 11);
    assert_eq!(rt; versions(&new, 5), Some((2, 1)));
    assert_eq!(rt; versions(&new, 6), Some((1, 1)));
    let less = old.without(&second, &key(5))?;
    assert_eq!(rt; (made_in(&less, 1), made_in(&less, 2)), (2036, 9));
    let same = old.put(&second, key(5), 5)?.without(&second, &key(2000))?;
    assert_eq!(rt; made_in(&same, 2), 0);
    Ok(())
}

#[test]
fn a_walk_goes_by_ascending_key(rt: HostRuntime) -> Result<(), Fail> {
    let forge = Forge::at(rt.alloc(), 1);
    let mut map = NodeMap::new();
    for (hi, lo) in [
        (1, 0),
        (0, 9),
        (u64::MAX, u128::MAX),
        (0, 1 << 64),
        (1, 1),
        (0, 0),
    ] {
        map = map.put(&forge, NodeKey::new(hi, lo), hi)?;
    }
    let mut seen = Vec::new(rt.alloc());
    for (key, node) in &map {
        seen.push((key.hi(), key.lo(), *node.value()))?;
    }
    let expected = [
        (0, 0, 0),
        (0, 9, 0),
        (0, 1 << 64, 0),
        (1, 0, 1),
        (1, 1, 1),
        (u64::MAX, u128::MAX, u64::MAX),
    ];
    assert_eq!(rt; seen.as_slice(), expected.as_slice());
    let ones = map.walk().filter(|(key, _)| key.hi() == 1);
    let lows = ones.map(|(key, _)| key.lo());
    assert_eq!(rt; lows.max(), Some(1));
    Ok(())
}

// The number of an entry's key.
fn number(entry: Option<(&NodeKey, &Node<u64>)>) -> Option<u128> {
    let (key, _) = entry?;
    Some(key.lo())
}

// The sum and the count of the keys from there on.
fn onward(map: &NodeMap<u64>, from: u128) -> (u128, u8) {
    let mut sum = 0u128;
    let mut count = 0u8;
    for (key, _) in map.walk_from(&key(from)) {
        sum = sum.wrapping_add(key.lo());
        count = count.wrapping_add(1);
    }
    (sum, count)
}

// The keys 2, 5 and 8.
fn three_keys(alloc: Global) -> Result<NodeMap<u64>, AllocError> {
    let forge = Forge::at(alloc, 1);
    let map = NodeMap::new().put(&forge, key(8), 1)?;
    let map = map.put(&forge, key(2), 2)?;
    map.put(&forge, key(5), 3)
}

#[test]
fn what_stands_beside_a_key(rt: HostRuntime) -> Result<(), Fail> {
    let map = three_keys(rt.alloc())?;
    // asked at, the last key up to it, the first key past it, what is from it on
    for (at, last, next, from) in [
        (0, None, Some(2), (15, 3)),
        (2, Some(2), Some(5), (15, 3)),
        (3, Some(2), Some(5), (13, 2)),
        (5, Some(5), Some(8), (13, 2)),
        (8, Some(8), None, (8, 1)),
        (1 << 100, Some(8), None, (0, 0)),
    ] {
        assert_eq!(rt; number(map.last_to(&key(at))), last);
        assert_eq!(rt; number(map.after(&key(at))), next);
        assert_eq!(rt; onward(&map, at), from);
    }
    let none: NodeMap<u64> = NodeMap::new();
    assert_eq!(rt; onward(&none, 0), (0, 0));
    Ok(())
}

// A value without an equality.
#[derive(Drop)]
struct Note {
    number: u8,
}

fn versions_of(map: &NodeMap<Note>, number: u128) -> Option<(u8, u64, u64)> {
    let node = map.get(&key(number))?;
    Some((node.value().number, node.gen_(), node.born()))
}

#[test]
fn a_set_makes_a_node_each_time(rt: HostRuntime) -> Result<(), Fail> {
    let alloc = rt.alloc();
    let one = NodeMap::new().set(&Forge::at(alloc, 1), key(1), Note { number: 5 })?;
    let two = one.set(&Forge::at(alloc, 2), key(1), Note { number: 5 })?;
    let three = two.set(&Forge::at(alloc, 3), key(2), Note { number: 6 })?;
    assert_eq!(rt; versions_of(&three, 1), Some((5, 2, 1)));
    assert_eq!(rt; versions_of(&three, 2), Some((6, 3, 3)));
    Ok(())
}

// The smallest key, and each key of a single bit: the leaf of the smallest one is as deep as can be.
fn longest_path(alloc: Global) -> Result<NodeMap<u64>, AllocError> {
    let forge = Forge::at(alloc, 1);
    let mut map = NodeMap::new().put(&forge, NodeKey::new(0, 0), 192)?;
    for bit in 0..128u32 {
        map = map.put(&forge, NodeKey::new(0, 1 << bit), u64::from(bit))?;
    }
    for bit in 0..64u32 {
        map = map.put(&forge, NodeKey::new(1 << bit, 0), u64::from(bit))?;
    }
    Ok(map)
}

#[test]
fn the_longest_path(rt: HostRuntime) -> Result<(), Fail> {
    let alloc = rt.alloc();
    let map = longest_path(alloc)?;
    assert_eq!(rt; count(&map), 193);
    let changed = map.put(&Forge::at(alloc, 2), key(0), 7)?;
    assert_eq!(rt; made_in(&changed, 2), 193);
    assert_eq!(rt; versions(&changed, 0), Some((2, 1)));
    drop(map);
    assert_eq!(rt; versions(&changed, 1), Some((1, 1)));
    Ok(())
}

#[test]
fn a_large_map_is_dropped(rt: HostRuntime) -> Result<(), Fail> {
    let map = consecutive(rt.alloc(), 65536)?;
    assert_eq!(rt; count(&map), 65536);
    let shared = map.share()?;
    drop(map);
    assert_eq!(rt; versions(&shared, 65535), Some((1, 1)));
    Ok(())
}

fn crosses<S: Send + Sync>(_value: &S) {}

fn map_crosses<T: Send + Sync>(map: &NodeMap<T>) {
    crosses(map)
}

fn found_by_threads<R: Threads + Wait + Sync>(
    rt: &R,
    alloc: Global,
    map: &NodeMap<u64>,
) -> Result<Vec<bool>, AllocError> {
    thread::map_indices(rt, alloc, 4, &|i| map.get(&key(i as u128)).is_some())
}

fn found_elsewhere<R: Threads + Wait + Sync>(
    rt: &R,
    map: NodeMap<u64>,
) -> Result<bool, AllocError> {
    let child = thread::spawn(rt, move || map.get(&key(1)).is_some())?;
    Ok(child.join(rt))
}

#[test]
fn maps_are_lent_to_threads_and_moved_into_one(rt: HostRuntime) -> Result<(), Fail> {
    let alloc = rt.alloc();
    let map = consecutive(alloc, 3)?;
    map_crosses(&map);
    let found = found_by_threads(&rt, alloc, &map)?;
    assert_eq!(rt; found.as_slice(), [true, true, true, false].as_slice());
    assert!(rt; found_elsewhere(&rt, map.share()?)?);
    assert_eq!(rt; versions(&map, 1), Some((1, 1)));
    Ok(())
}
