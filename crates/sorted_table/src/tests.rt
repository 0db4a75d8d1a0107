// Rows that come and go, within a chunk and over several.
use super::*;
use std::alloc::Global;
use std::process::Abort;
use std::test::Fail;

type Numbers = SortedTable<u16, u64>;

/// The rows of keys 10, 20, 30 and 40, with room for one more.
fn four(alloc: Global) -> Result<Numbers, Fail> {
    let rows = [(10_u16, 10_u64), (20, 20), (30, 30), (40, 40)].to_vec(alloc)?;
    Ok(Numbers::of(alloc, 5, rows)?.ok_or("not sorted")?)
}

fn add(table: &mut Numbers, key: u16) -> bool {
    if table.get(&key).is_some() || table.is_full() {
        return false;
    }
    table.put(key, u64::from(key));
    true
}

fn take(table: &mut Numbers, key: u16) -> Option<u64> {
    if table.get(&key).is_none() {
        return None;
    }
    Some(table.cut(&key))
}

fn change(table: &mut Numbers, key: u16, value: u64) -> Option<u64> {
    if table.get(&key).is_none() {
        return None;
    }
    Some(table.set(&key, value))
}

fn has(rt: &impl Abort, table: &Numbers, key: u16, value: Option<u64>) {
    assert!(rt; table.get(&key).copied() == value);
}

#[test]
fn rows_come_and_go(rt: HostRuntime) -> Result<(), Fail> {
    let mut table = four(rt.alloc())?;
    assert!(rt; add(&mut table, 15));
    assert!(rt; !add(&mut table, 25));
    assert!(rt; take(&mut table, 30) == Some(30));
    assert!(rt; take(&mut table, 30).is_none());
    assert!(rt; change(&mut table, 10, 11) == Some(10));
    assert!(rt; change(&mut table, 40, 44) == Some(40));
    assert!(rt; add(&mut table, 5));
    has_five(&rt, &table);
    Ok(())
}

fn has_five(rt: &impl Abort, table: &Numbers) {
    has(rt, table, 5, Some(5));
    has(rt, table, 10, Some(11));
    has(rt, table, 15, Some(15));
    has(rt, table, 20, Some(20));
    has(rt, table, 40, Some(44));
    has(rt, table, 30, None);
    has(rt, table, 50, None);
    assert!(rt; table.first().copied() == Some((5, 5)));
    assert!(rt; table.is_full());
}

#[test]
fn a_copy_has_the_rows_in_order(rt: HostRuntime) -> Result<(), Fail> {
    let mut table = four(rt.alloc())?;
    assert!(rt; add(&mut table, 25));
    let rows = table.to_vec(rt.alloc())?;
    let expected = [(10, 10), (20, 20), (25, 25), (30, 30), (40, 40)];
    assert!(rt; rows.as_slice() == expected.as_slice());
    Ok(())
}

/// Adds so many keys, from 0 on, in leaps of 7: each of them where 7 doesn't divide their number.
fn add_all(table: &mut Numbers, count: u16) -> bool {
    for n in 0..count {
        if !add(table, (u32::from(n) * 7 % u32::from(count)) as u16) {
            return false;
        }
    }
    true
}

/// Puts so many keys back, from the last one on.
fn put_all_back(table: &mut Numbers, count: u16) -> bool {
    for n in 0..count {
        let key = count - 1 - n;
        if table.get(&key).is_some() || table.is_full() {
            return false;
        }
        table.put_back(key, u64::from(key));
    }
    true
}

/// Takes away those of so many keys that leave this rest by 3.
fn take_third(table: &mut Numbers, count: u16, rest: u16) -> bool {
    for key in 0..count {
        if key % 3 == rest && take(table, key) != Some(u64::from(key)) {
            return false;
        }
    }
    true
}

/// Whether those of so many keys that leave this rest by 3 are there, or all of them are not.
fn is_third(table: &Numbers, count: u16, rest: u16, is_there: bool) -> bool {
    for key in 0..count {
        if key % 3 == rest && table.get(&key).is_some() != is_there {
            return false;
        }
    }
    true
}

fn are_thirds(rt: &impl Abort, table: &Numbers, there: [bool; 3]) {
    assert!(rt; is_third(table, 1000, 0, there[0]));
    assert!(rt; is_third(table, 1000, 1, there[1]));
    assert!(rt; is_third(table, 1000, 2, there[2]));
}

#[test]
fn chunks_are_split_and_joined(rt: HostRuntime) -> Result<(), Fail> {
    let mut table = Numbers::open(rt.alloc(), 1000)?;
    assert!(rt; table.first().is_none());
    assert!(rt; add_all(&mut table, 1000));
    assert!(rt; table.is_full());
    are_thirds(&rt, &table, [true, true, true]);
    assert!(rt; take_third(&mut table, 1000, 1));
    are_thirds(&rt, &table, [true, false, true]);
    assert!(rt; take_third(&mut table, 1000, 2));
    are_thirds(&rt, &table, [true, false, false]);
    assert!(rt; take_third(&mut table, 1000, 0));
    assert!(rt; put_all_back(&mut table, 1000));
    are_thirds(&rt, &table, [true, true, true]);
    Ok(())
}

#[test]
fn rows_that_break_a_rule_make_no_table(rt: HostRuntime) -> Result<(), Fail> {
    makes_none(&rt, 5, [(20_u16, 0_u64), (10, 0)].to_vec(rt.alloc())?)?;
    makes_none(&rt, 5, [(20_u16, 0_u64), (20, 0)].to_vec(rt.alloc())?)?;
    makes_none(&rt, 1, [(10_u16, 0_u64), (20, 0)].to_vec(rt.alloc())?)
}

fn makes_none<R: Abort + AllocGlobal>(
    rt: &R,
    capacity: u32,
    rows: Vec<(u16, u64)>,
) -> Result<(), Fail> {
    let table = Numbers::of(rt.alloc(), capacity, rows)?;
    assert!(rt; table.is_none());
    Ok(())
}
