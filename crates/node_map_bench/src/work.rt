// What is done with maps.
ghost use Rattle.std.specs.Prelude.{◌≡◌, IfOk};
ghost use Rattle.node_map.specs.Follows.{FollowsAt, IsMadeBy};

use crate::shape::Shape;
use node_core::Forge;
use node_map::{NodeKey, NodeMap, change_follows, change_is_made_by, follows_itself};
use state_delta::map_delta;
use std::alloc::{AllocError, Global};

/// A map of that many keys, made at version 1.
pub fn filled(alloc: Global, shape: Shape, count: u64) -> Result<NodeMap<u64>, AllocError>
    ensures { IfOk result (λ m. IsMadeBy 1 m.nodes) }
{
    let forge = Forge::at(alloc, 1);
    let mut map = NodeMap::new();
    for step in 0..count {
        let number = shape.number(step, count);
        let key = shape.key(number);
        let new = map.put(&forge, key, number)?;
        change_is_made_by(&map, &new, &forge, &key);
        map = new;
    }
    Ok(map)
}

// The map with another value under one key, made at version 2.
fn changed_at(
    base: &NodeMap<u64>,
    now: &NodeMap<u64>,
    forge: &Forge,
    key: NodeKey,
    value: u64,
) -> Result<NodeMap<u64>, AllocError>
    requires version { forge.now.version ≡ 2 }
    requires follows { FollowsAt 1 base.now.nodes now.now.nodes }
    ensures { IfOk result (λ m. FollowsAt 1 base.now.nodes m.nodes) }
{
    let new = now.put(forge, key, value)?;
    change_follows(base, now, &new, 1, forge, &key);
    Ok(new)
}

/// The map with another value under each of the first keys, made at version 2.
pub fn changed(
    alloc: Global,
    base: &NodeMap<u64>,
    shape: Shape,
    count: u64,
    changes: u64,
) -> Result<NodeMap<u64>, AllocError>
    requires { IsMadeBy 1 base.now.nodes }
    ensures { IfOk result (λ m. FollowsAt 1 base.now.nodes m.nodes) }
{
    let forge = Forge::at(alloc, 2);
    follows_itself(base, 1);
    let mut now = base.share()?;
    for step in 0..changes {
        let number = shape.number(step, count);
        now = changed_at(base, &now, &forge, shape.key(number), !number)?;
    }
    Ok(now)
}

/// The map without its keys, one after another.
pub fn emptied(
    alloc: Global,
    map: &NodeMap<u64>,
    shape: Shape,
    count: u64,
) -> Result<NodeMap<u64>, AllocError> {
    let forge = Forge::at(alloc, 3);
    let mut left = map.share()?;
    for step in 0..count {
        left = left.without(&forge, &shape.key(shape.number(step, count)))?;
    }
    Ok(left)
}

/// The sum of the values under the keys.
pub fn found(map: &NodeMap<u64>, shape: Shape, count: u64) -> u64 {
    let mut sum = 0u64;
    for step in 0..count {
        if let Some(node) = map.get(&shape.key(shape.number(step, count))) {
            sum = sum.wrapping_add(*node.value());
        }
    }
    sum
}

/// The sum of the values of the last entries up to the keys, which are the keys' own.
pub fn last_to(map: &NodeMap<u64>, shape: Shape, count: u64) -> u64 {
    let mut sum = 0u64;
    for step in 0..count {
        if let Some((_, node)) = map.last_to(&shape.key(shape.number(step, count))) {
            sum = sum.wrapping_add(*node.value());
        }
    }
    sum
}

/// The sum of the values with which walks from the keys begin, which are the keys' own.
pub fn begun(map: &NodeMap<u64>, shape: Shape, count: u64) -> u64 {
    let mut sum = 0u64;
    for step in 0..count {
        let mut walk = map.walk_from(&shape.key(shape.number(step, count)));
        if let Some((_, node)) = walk.next() {
            sum = sum.wrapping_add(*node.value());
        }
    }
    sum
}

/// How many of the keys have another one after them: all but one.
pub fn followed(map: &NodeMap<u64>, shape: Shape, count: u64) -> u64 {
    let mut followed = 0u64;
    for step in 0..count {
        let next = map.after(&shape.key(shape.number(step, count)));
        followed = followed.wrapping_add(u64::from(next.is_some()));
    }
    followed
}

/// How many entries a walk meets, and the sum of their values.
pub fn walked(map: &NodeMap<u64>) -> (u64, u64) {
    let mut count = 0u64;
    let mut sum = 0u64;
    for (_, node) in map {
        count = count.wrapping_add(1);
        sum = sum.wrapping_add(*node.value());
    }
    (count, sum)
}

/// How many keys differ.
pub fn differing(old: &NodeMap<u64>, new: &NodeMap<u64>) -> u64
    requires { FollowsAt 1 old.now.nodes new.now.nodes }
{
    let mut count = 0u64;
    for _change in map_delta(old, new) {
        count = count.wrapping_add(1);
    }
    count
}
