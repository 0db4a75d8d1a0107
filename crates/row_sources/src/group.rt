// The rows of the group table.
ghost use Rattle.std.specs.Prelude.{◌≡◌, ◌++◌, ◌∷◌, [], IfOk, OnOk, flat_map, map};
ghost use Rattle.switch_model.specs.Rows.{forward_hosts, group_of_hosts, groups, live, rows};
ghost use Rattle.switch_state.specs.Plain.{plain};
ghost use Rattle.state_laws.specs.Fib.{HasFib};

use crate::distinct::distinct;
use crate::entry::entry_hosts;
use chip_core::MarkList;
use net_types::{HostKey, HostKeyList, ItemList, NoMemory, Shared};
use node_map::NodeMap;
use row_rules::live;
use std::alloc::Global;
use switch_model::FibEntry;
use switch_state::SwitchState;

/// The rows of the group table, by ascending list of hosts: one for each list of two or more hosts
/// that some entry of the FIB forwards to, with a mark for each host that says whether it is live.
pub fn group_rows(
    alloc: Global,
    state: &SwitchState,
) -> Result<Vec<(HostKeyList, MarkList)>, NoMemory>
    requires fib { HasFib state.now }
    ensures { IfOk result (λ list. list.items ≡ (rows (plain state.now)).group) }
{
    let keys = distinct(group_keys(alloc, state.fibs())?);
    rows_of_groups(alloc, state, keys)
}

/// The groups that entries forward to, perhaps some more than once.
fn group_keys(alloc: Global, fibs: &NodeMap<FibEntry>) -> Result<Vec<HostKeyList>, NoMemory>
    ensures { IfOk result (λ keys. keys.items ≡ flat_map (λ e. group_of_hosts (forward_hosts e.1.value)) fibs.now.entries) }
{
    let mut keys = Vec::new(alloc);
    for (_, node) in fibs {
        add_key(alloc, &mut keys, node.value())?;
    }
    Ok(keys)
}

fn add_key(alloc: Global, keys: &mut Vec<HostKeyList>, entry: &FibEntry) -> Result<(), NoMemory>
    ensures { OnOk result (keys.new.items ≡ keys.old.items ++ group_of_hosts (forward_hosts entry.now)) }
{
    let hosts = entry_hosts(alloc, entry)?;
    if hosts.len() < 2 {
        drop(hosts);
        return Ok(());
    }
    let key = Shared::of(alloc, ItemList::from_vec(hosts))?;
    keys.push(key)?;
    Ok(())
}

/// The rows of these groups.
fn rows_of_groups(
    alloc: Global,
    state: &SwitchState,
    keys: Vec<HostKeyList>,
) -> Result<Vec<(HostKeyList, MarkList)>, NoMemory>
    ensures { IfOk result (λ list. list.items ≡ map (λ key. (key, map (live (plain state.now)) key)) keys.items) }
{
    let mut list = Vec::new(alloc);
    for key in keys {
        add_group(alloc, &mut list, state, key)?;
    }
    Ok(list)
}

fn add_group(
    alloc: Global,
    list: &mut Vec<(HostKeyList, MarkList)>,
    state: &SwitchState,
    key: HostKeyList,
) -> Result<(), NoMemory>
    ensures { OnOk result (list.new.items ≡ list.old.items ++ (key, map (live (plain state.now)) key) ∷ []) }
{
    let marks = marks_of(alloc, state, key.as_slice())?;
    list.push((key, marks))?;
    Ok(())
}

/// Whether each host is live.
fn marks_of(alloc: Global, state: &SwitchState, hosts: &[HostKey]) -> Result<MarkList, NoMemory>
    ensures { IfOk result (λ marks. marks ≡ map (live (plain state.now)) hosts.now) }
{
    let mut marks = MarkList::new(alloc);
    for host in hosts {
        marks.push(live(state, host.intf, host.ip))?;
    }
    Ok(marks)
}
