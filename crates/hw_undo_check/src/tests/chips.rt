// A chip with room for one row of each table, and one with none.
use super::*;

fn add_l2<C: HwSwitch>(chip: &mut C, n: u64) -> Option<Result<(), Full>> {
    let key = station_of(n % 8);
    match chip.find_l2(&key) {
        None => Some(chip.add_l2(key, l2_row())),
        Some(_) => None,
    }
}

fn add_host<C: HwSwitch>(chip: &mut C, n: u32) -> Option<Result<u32, Full>> {
    let key = host_of(n);
    match chip.find_host(&key) {
        None => Some(chip.add_host(key, host_row())),
        Some(_) => None,
    }
}

const fn room(rows: u32) -> Caps {
    Caps {
        l2: rows,
        host: rows,
        group: rows,
        route: rows,
    }
}

#[test]
fn has_no_room_at_all(rt: HostRuntime) -> Result<(), Fail> {
    let mut chip = SimChip::open(rt.alloc(), room(0))?;
    assert!(rt; add_l2(&mut chip, 7) == Some(Err(Full)));
    assert!(rt; add_host(&mut chip, 1) == Some(Err(Full)));
    let tables = chip.copy_tables(rt.alloc())?;
    assert!(rt; tables.l2.is_empty());
    assert!(rt; tables.host.is_empty());
    Ok(())
}

#[test]
fn has_room_for_one_row_of_each(rt: HostRuntime) -> Result<(), Fail> {
    let mut chip = SimChip::open(rt.alloc(), room(1))?;
    assert!(rt; add_l2(&mut chip, 7) == Some(Ok(())));
    assert!(rt; add_l2(&mut chip, 6) == Some(Err(Full)));
    assert!(rt; add_l2(&mut chip, 7) == None);
    assert!(rt; add_host(&mut chip, 2) == Some(Ok(0)));
    let tables = chip.copy_tables(rt.alloc())?;
    assert!(rt; tables.l2.as_slice() == [(station_of(7), l2_row())].as_slice());
    assert!(rt; tables.host.as_slice() == [(0, host_of(2), host_row())].as_slice());
    Ok(())
}
