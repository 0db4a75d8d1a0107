// The first table whose rows differ.
use crate::rows::tables_without;
use chip_rows::{RowLists, first_difference};
use net_types::Table;
use std::alloc::Global;
use std::process::Abort;
use std::test::Fail;

fn compared(a: RowLists, b: Result<RowLists, Fail>) -> Result<Option<Table>, Fail> {
    match b {
        Ok(b) => {
            let found = first_difference(&a, &b);
            drop(a);
            drop(b);
            Ok(found)
        }
        Err(fault) => {
            drop(a);
            Err(fault)
        }
    }
}

fn difference(
    alloc: Global,
    left_out: Option<Table>,
    other: Option<Table>,
) -> Result<Option<Table>, Fail> {
    let a = tables_without(alloc, left_out)?;
    compared(a, tables_without(alloc, other))
}

fn is_first(
    rt: &impl Abort,
    alloc: Global,
    left_out: Option<Table>,
    other: Option<Table>,
    wanted: Option<Table>,
) -> Result<(), Fail> {
    let found = difference(alloc, left_out, other)?;
    let same = found == wanted;
    assert!(rt; same);
    Ok(())
}

#[test]
fn the_first_table_that_differs_is_named(rt: HostRuntime) -> Result<(), Fail> {
    let table = [
        (None, None, None),
        (Some(Table::Route), Some(Table::Route), None),
        (None, Some(Table::L2), Some(Table::L2)),
        (Some(Table::Host), None, Some(Table::Host)),
        (None, Some(Table::Group), Some(Table::Group)),
        (Some(Table::Route), None, Some(Table::Route)),
        (Some(Table::Route), Some(Table::Group), Some(Table::Group)),
        (Some(Table::Host), Some(Table::Route), Some(Table::Host)),
        (Some(Table::Group), Some(Table::L2), Some(Table::L2)),
    ];
    for (left_out, other, wanted) in table {
        is_first(&rt, rt.alloc(), left_out, other, wanted)?;
    }
    Ok(())
}
