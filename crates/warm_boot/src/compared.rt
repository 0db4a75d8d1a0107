// The rows that a chip shows, beside those of a state.
ghost use Rattle.std.specs.Prelude.{◌≡◌, None, IfOk};
ghost use Rattle.chip_core.specs.Chip.{view_of};
ghost use Rattle.chip_rows.specs.Difference.{first_differing};
ghost use Rattle.state_laws.specs.Fib.{HasFib};
ghost use Rattle.switch_model.specs.Rows.{rows};
ghost use Rattle.switch_state.specs.Plain.{plain};

use chip_core::HwSwitch;
use chip_rows::{RowLists, first_difference, rows_of};
use net_types::{ItemList, NoMemory, Table};
use row_sources::{group_rows, host_rows, l2_rows, route_rows};
use std::alloc::Global;
use switch_state::SwitchState;

/// The first table in which the chip's rows aren't those of the state: none exactly where it shows
/// the state's rows.
pub(crate) fn first_other<C: HwSwitch>(
    alloc: Global,
    chip: &C,
    state: &SwitchState,
) -> Result<Option<Table>, NoMemory>
    requires fib { HasFib state.now }
    ensures first { IfOk result (λ other. other ≡ first_differing (view_of (C.raw chip.now)) (rows (plain state.now))) }
    ensures same { IfOk result (λ other. other ≡ None → view_of (C.raw chip.now) ≡ rows (plain state.now)) }
{
    let shown = shown_rows(alloc, chip)?;
    match state_rows(alloc, state) {
        Ok(due) => {
            let other = first_difference(&shown, &due);
            drop(shown);
            drop(due);
            Ok(other)
        }
        Err(fault) => {
            drop(shown);
            Err(fault)
        }
    }
}

/// The rows that the chip shows, by key.
fn shown_rows<C: HwSwitch>(alloc: Global, chip: &C) -> Result<RowLists, NoMemory>
    ensures rows { IfOk result (λ rows. rows ≡ view_of (C.raw chip.now)) }
{
    let tables = chip.copy_tables(alloc)?;
    let rows = rows_of(alloc, &tables);
    drop(tables);
    rows
}

/// The rows of the state.
fn state_rows(alloc: Global, state: &SwitchState) -> Result<RowLists, NoMemory>
    requires fib { HasFib state.now }
    ensures rows { IfOk result (λ list. list ≡ rows (plain state.now)) }
{
    let l2 = l2_rows(alloc, state)?;
    let host = host_rows(alloc, state)?;
    let group = group_rows(alloc, state)?;
    let route = route_rows(alloc, state)?;
    Ok(RowLists::of(
        ItemList::from_vec(l2),
        ItemList::from_vec(host),
        ItemList::from_vec(group),
        ItemList::from_vec(route),
    ))
}
