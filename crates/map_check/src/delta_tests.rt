// Deltas of a few changes, and of many random ones beside a table that is kept by hand.
ghost use Rattle.std.specs.Prelude.{◌+◌, ◌<◌, IfOk};
ghost use Rattle.node_map.specs.Follows.{FollowsAt, IsMadeBy};

use node_core::Forge;
use node_map::{
    NodeKey, NodeMap, change_follows, change_is_made_by, follows_itself, stays_made_by,
};
use state_delta::{Kind, map_delta};
use std::alloc::{AllocError, Global};
use std::collections::BTreeMap;
use std::test::Fail;

#[derive(Clone, Copy)]
enum Edit {
    Put(NodeKey, u64),
    Remove(NodeKey),
}

fn empty() -> NodeMap<u64>
    ensures { IsMadeBy 0 result.nodes }
{
    NodeMap::new()
}

// The map after one more edit.
fn edited_once(
    version: u64,
    base: &NodeMap<u64>,
    now: &NodeMap<u64>,
    forge: &Forge,
    edit: &Edit,
) -> Result<NodeMap<u64>, AllocError>
    requires later { version < forge.now.version }
    requires follows { FollowsAt version base.now.nodes now.now.nodes }
    requires made { IsMadeBy forge.now.version now.now.nodes }
    ensures follows { IfOk result (λ m. FollowsAt version base.now.nodes m.nodes) }
    ensures made { IfOk result (λ m. IsMadeBy forge.now.version m.nodes) }
{
    match edit {
        Edit::Put(key, value) => {
            let new = now.put(forge, *key, *value)?;
            change_follows(base, now, &new, version, forge, key);
            change_is_made_by(now, &new, forge, key);
            Ok(new)
        }
        Edit::Remove(key) => {
            let new = now.without(forge, key)?;
            change_follows(base, now, &new, version, forge, key);
            change_is_made_by(now, &new, forge, key);
            Ok(new)
        }
    }
}

// The map after the edits, all at the version after its own.
fn edited(
    alloc: Global,
    version: u64,
    base: &NodeMap<u64>,
    edits: &[Edit],
) -> Result<NodeMap<u64>, AllocError>
    requires small { version < 1000 }
    requires made { IsMadeBy version base.now.nodes }
    ensures follows { IfOk result (λ m. FollowsAt version base.now.nodes m.nodes) }
    ensures made { IfOk result (λ m. IsMadeBy (version + 1) m.nodes) }
{
    let forge = Forge::at(alloc, version + 1);
    follows_itself(base, version);
    stays_made_by(base, version, version + 1);
    let mut now = base.share()?;
    for edit in edits {
        now = edited_once(version, base, &now, &forge, edit)?;
    }
    Ok(now)
}

// A change: its key and kind, and the old and the new content.
type Line = (NodeKey, Kind, Option<u64>, Option<u64>);

fn lines(
    alloc: Global,
    version: u64,
    old: &NodeMap<u64>,
    new: &NodeMap<u64>,
) -> Result<Vec<Line>, AllocError>
    requires { FollowsAt version old.now.nodes new.now.nodes }
{
    let mut lines = Vec::new(alloc);
    for change in map_delta(old, new) {
        lines.push((
            change.key,
            change.kind,
            change.old.copied(),
            change.new.copied(),
        ))?;
    }
    Ok(lines)
}

fn key(number: u128) -> NodeKey {
    NodeKey::new(0, number)
}

#[test]
fn a_new_value_is_a_change_and_an_equal_one_is_none(rt: HostRuntime) -> Result<(), Fail> {
    let alloc = rt.alloc();
    let one = edited(alloc, 0, &empty(), &[Edit::Put(key(1), 5)])?;
    let two = edited(alloc, 1, &one, &[Edit::Put(key(2), 6)])?;
    let three = edited(
        alloc,
        2,
        &two,
        &[Edit::Put(key(1), 7), Edit::Put(key(2), 6)],
    )?;
    let expected = [(key(1), Kind::Changed, Some(5), Some(7))];
    assert_eq!(rt;
        lines(alloc, 2, &two, &three)?.as_slice(),
        expected.as_slice()
    );
    Ok(())
}

#[test]
fn a_key_that_comes_back_is_replaced(rt: HostRuntime) -> Result<(), Fail> {
    let alloc = rt.alloc();
    let one = edited(alloc, 0, &empty(), &[Edit::Put(key(1), 5)])?;
    let back = edited(
        alloc,
        1,
        &one,
        &[Edit::Remove(key(1)), Edit::Put(key(1), 5)],
    )?;
    let expected = [(key(1), Kind::Replaced, Some(5), Some(5))];
    assert_eq!(rt;
        lines(alloc, 1, &one, &back)?.as_slice(),
        expected.as_slice()
    );
    let same = edited(alloc, 1, &one, &[Edit::Put(key(1), 5)])?;
    assert!(rt; lines(alloc, 1, &one, &same)?.is_empty());
    let gone = edited(alloc, 1, &one, &[Edit::Remove(key(1))])?;
    let expected = [(key(1), Kind::Removed, Some(5), None)];
    assert_eq!(rt;
        lines(alloc, 1, &one, &gone)?.as_slice(),
        expected.as_slice()
    );
    Ok(())
}

#[test]
fn one_change_of_a_thousand_keys(rt: HostRuntime) -> Result<(), Fail> {
    let alloc = rt.alloc();
    let mut edits = Vec::new(alloc);
    for i in 0..1024u64 {
        edits.push(Edit::Put(key(u128::from(i)), i))?;
    }
    let old = edited(alloc, 0, &empty(), edits.as_slice())?;
    let new = edited(alloc, 1, &old, &[Edit::Put(key(5), 77)])?;
    let expected = [(key(5), Kind::Changed, Some(5), Some(77))];
    assert_eq!(rt;
        lines(alloc, 1, &old, &new)?.as_slice(),
        expected.as_slice()
    );
    Ok(())
}

// Numbers that look random (splitmix64).
#[derive(Drop)]
struct Numbers {
    state: u64,
}

impl Numbers {
    fn next(&mut self) -> u64 {
        self.state = self.state.wrapping_add(0x9e37_79b9_7f4a_7c15);
        let a = (self.state ^ self.state >> 30).wrapping_mul(0xbf58_476d_1ce4_e5b9);
        let b = (a ^ a >> 27).wrapping_mul(0x94d0_49bb_1331_11eb);
        b ^ b >> 31
    }

    // A key that differs from the others in its first bits, its last ones or some between.
    fn key(&mut self) -> NodeKey {
        let number = self.next() % 64;
        match self.next() % 3 {
            0 => NodeKey::new(number << 58, 0),
            1 => NodeKey::new(7, u128::from(number)),
            _ => NodeKey::new(7, u128::from(number) << 100),
        }
    }

    fn edit(&mut self) -> Edit {
        let key = self.key();
        match self.next() % 5 {
            0 | 1 => Edit::Remove(key),
            _ => Edit::Put(key, self.next() % 3),
        }
    }
}

// A value with the version that made its node and the key's birth.
type Entry = (u64, u64, u64);

// Does an edit to the table.
fn note(table: &mut BTreeMap<NodeKey, Entry>, version: u64, edit: &Edit) -> Result<(), AllocError> {
    match edit {
        Edit::Remove(key) => {
            let _ = table.remove(key);
        }
        Edit::Put(key, value) => {
            let entry = match table.get(key) {
                None => (*value, version, version),
                Some((old, generation, born)) if old == value => (*old, *generation, *born),
                Some((_, _, born)) => (*value, version, *born),
            };
            table.insert(*key, entry)?;
        }
    }
    Ok(())
}

// The entries of the map and of the table are the same.
fn are_same(map: &NodeMap<u64>, table: &BTreeMap<NodeKey, Entry>) -> bool {
    let mut entries = table.iter();
    for (key, node) in map {
        let Some((table_key, entry)) = entries.next() else {
            return false;
        };
        if key != table_key || *entry != (*node.value(), node.gen_(), node.born()) {
            return false;
        }
    }
    entries.next().is_none()
}

// Each entry of the table is found in the map.
fn finds_all(map: &NodeMap<u64>, table: &BTreeMap<NodeKey, Entry>) -> bool {
    for (key, entry) in table {
        let Some(node) = map.get(key) else {
            return false;
        };
        if *entry != (*node.value(), node.gen_(), node.born()) {
            return false;
        }
    }
    true
}

// How the tables differ under a key.
fn difference(old: Option<&Entry>, new: Option<&Entry>) -> Option<Kind> {
    match (old, new) {
        (None, None) => None,
        (None, Some(_)) => Some(Kind::Added),
        (Some(_), None) => Some(Kind::Removed),
        (Some((_, generation, born)), Some((_, new_generation, new_born))) => {
            if born != new_born {
                Some(Kind::Replaced)
            } else if generation != new_generation {
                Some(Kind::Changed)
            } else {
                None
            }
        }
    }
}

fn value(entry: Option<&Entry>) -> Option<u64> {
    let (value, _, _) = entry?;
    Some(*value)
}

// The lines of the keys under which the tables differ.
fn differences(
    alloc: Global,
    old: &BTreeMap<NodeKey, Entry>,
    new: &BTreeMap<NodeKey, Entry>,
) -> Result<Vec<Line>, AllocError> {
    let mut keys = BTreeMap::new(alloc);
    for (key, _) in old {
        keys.insert(*key, ())?;
    }
    for (key, _) in new {
        keys.insert(*key, ())?;
    }
    let mut lines = Vec::new(alloc);
    for (key, _) in &keys {
        let (before, after) = (old.get(key), new.get(key));
        if let Some(kind) = difference(before, after) {
            lines.push((*key, kind, value(before), value(after)))?;
        }
    }
    Ok(lines)
}

#[test]
fn random_changes_beside_a_table(rt: HostRuntime) -> Result<(), Fail> {
    let alloc = rt.alloc();
    let mut numbers = Numbers { state: 1 };
    let mut map = empty();
    let mut table = BTreeMap::new(alloc);
    for version in 0..20u64 {
        let mut edits = Vec::new(alloc);
        let mut new_table = table.clone()?;
        for _ in 0..100 {
            let edit = numbers.edit();
            note(&mut new_table, version + 1, &edit)?;
            edits.push(edit)?;
        }
        let new_map = edited(alloc, version, &map, edits.as_slice())?;
        assert!(rt; are_same(&new_map, &new_table) && finds_all(&new_map, &new_table));
        let expected = differences(alloc, &table, &new_table)?;
        assert_eq!(rt;
            lines(alloc, version, &map, &new_map)?.as_slice(),
            expected.as_slice()
        );
        map = new_map;
        table = new_table;
    }
    Ok(())
}
