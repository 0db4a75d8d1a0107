// The rows of the route table.
ghost use Rattle.std.specs.Prelude.{◌≡◌, ◌++◌, ◌∷◌, [], All, IfOk, OnOk, map};
ghost use Rattle.state_keys.specs.PartKeys.{IsFibNumber, fib_of};
ghost use Rattle.switch_model.specs.Rows.{rows, target_of_entry};
ghost use Rattle.switch_state.specs.Plain.{plain};
ghost use Rattle.state_laws.specs.Fib.{HasFib};

use crate::entry::entry_target;
use net_types::{HopTarget, NoMemory, RouteKey};
use node_map::{NodeKey, NodeMap};
use state_keys::fib_of;
use std::alloc::Global;
use switch_model::FibEntry;
use switch_state::SwitchState;

/// The rows of the route table, by ascending key: one for each entry of the FIB.
pub fn route_rows(
    alloc: Global,
    state: &SwitchState,
) -> Result<Vec<(RouteKey, HopTarget)>, NoMemory>
    requires fib { HasFib state.now }
    ensures { IfOk result (λ list. list.items ≡ (rows (plain state.now)).route) }
{
    rows_of_entries(alloc, state.fibs())
}

/// The rows of these entries.
fn rows_of_entries(
    alloc: Global,
    fibs: &NodeMap<FibEntry>,
) -> Result<Vec<(RouteKey, HopTarget)>, NoMemory>
    requires { All (λ e. IsFibNumber e.0) fibs.now.entries }
    ensures { IfOk result (λ list. list.items ≡ map (λ e. (fib_of e.0, target_of_entry e.1.value)) fibs.now.entries) }
{
    let mut list = Vec::new(alloc);
    for (key, node) in fibs {
        add_entry(alloc, &mut list, key, node.value())?;
    }
    Ok(list)
}

fn add_entry(
    alloc: Global,
    list: &mut Vec<(RouteKey, HopTarget)>,
    key: &NodeKey,
    entry: &FibEntry,
) -> Result<(), NoMemory>
    requires { IsFibNumber key.now }
    ensures { OnOk result (list.new.items ≡ list.old.items ++ (fib_of key.now, target_of_entry entry.now) ∷ []) }
{
    let target = entry_target(alloc, entry)?;
    list.push((fib_of(key), target))?;
    Ok(())
}
