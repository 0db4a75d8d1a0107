// The rows of the host table.
ghost use Rattle.std.specs.Prelude.{◌≡◌, ◌++◌, ◌∷◌, ◌↔◌, [], All, IfOk, OnOk, flat_map, map};
ghost use Rattle.std.specs.List.{Contains};
ghost use Rattle.net_types.specs.declared.table.HostKey.{HostKey};
ghost use Rattle.state_keys.specs.PartKeys.{IsArpNumber, IsNdpNumber, arp_of, ndp_of};
ghost use Rattle.switch_model.specs.Rows.{forward_hosts, host_of_neighbor, host_row, hosts, rows};
ghost use Rattle.switch_state.specs.Plain.{plain};
ghost use Rattle.state_laws.specs.Fib.{HasFib};
ghost use Rattle.row_sources.specs.Entry.{entry_of};

use crate::distinct::distinct;
use crate::entry::entry_hosts;
use net_types::{HostKey, HostRow, NoMemory};
use node_map::{NodeKey, NodeMap};
use row_rules::host_row;
use state_keys::{arp_of, ndp_of};
use std::alloc::Global;
use switch_model::{FibEntry, NeighborKey, NeighborRec};
use switch_state::SwitchState;

/// The rows of the host table, by ascending key: of the neighbours and of all hosts that entries of
/// the FIB forward to, each whose interface is there.
pub fn host_rows(alloc: Global, state: &SwitchState) -> Result<Vec<(HostKey, HostRow)>, NoMemory>
    requires fib { HasFib state.now }
    ensures { IfOk result (λ list. list.items ≡ (rows (plain state.now)).host) }
{
    let keys = distinct(host_keys(alloc, state)?);
    let list = rows_of_hosts(alloc, state, keys.as_slice());
    drop(keys);
    list
}

/// The hosts that may have a row, in any order, and some perhaps more than once.
fn host_keys(alloc: Global, state: &SwitchState) -> Result<Vec<HostKey>, NoMemory>
    requires fib { HasFib state.now }
    ensures { IfOk result (λ keys. (host : HostKey) → Contains keys.items host ↔ Contains (hosts (plain state.now)) host) }
{
    let mut keys = Vec::new(alloc);
    add_arps(&mut keys, state.arps())?;
    add_ndps(&mut keys, state.ndps())?;
    add_forwarded(alloc, &mut keys, state.fibs())?;
    Ok(keys)
}

fn add_arps(keys: &mut Vec<HostKey>, arps: &NodeMap<NeighborRec>) -> Result<(), NoMemory>
    requires { All (λ e. IsArpNumber e.0) arps.now.entries }
    ensures { OnOk result (keys.new.items ≡ keys.old.items ++ map (λ e. host_of_neighbor (arp_of e.0)) arps.now.entries) }
{
    for (key, _) in arps {
        add_arp(keys, key)?;
    }
    Ok(())
}

fn add_arp(keys: &mut Vec<HostKey>, key: &NodeKey) -> Result<(), NoMemory>
    requires { IsArpNumber key.now }
    ensures { OnOk result (keys.new.items ≡ keys.old.items ++ host_of_neighbor (arp_of key.now) ∷ []) }
{
    keys.push(host_of(&arp_of(key)))?;
    Ok(())
}

fn add_ndps(keys: &mut Vec<HostKey>, ndps: &NodeMap<NeighborRec>) -> Result<(), NoMemory>
    requires { All (λ e. IsNdpNumber e.0) ndps.now.entries }
    ensures { OnOk result (keys.new.items ≡ keys.old.items ++ map (λ e. host_of_neighbor (ndp_of e.0)) ndps.now.entries) }
{
    for (key, _) in ndps {
        add_ndp(keys, key)?;
    }
    Ok(())
}

fn add_ndp(keys: &mut Vec<HostKey>, key: &NodeKey) -> Result<(), NoMemory>
    requires { IsNdpNumber key.now }
    ensures { OnOk result (keys.new.items ≡ keys.old.items ++ host_of_neighbor (ndp_of key.now) ∷ []) }
{
    keys.push(host_of(&ndp_of(key)))?;
    Ok(())
}

fn host_of(neighbor: &NeighborKey) -> HostKey
    ensures { result ≡ host_of_neighbor neighbor.now }
{
    HostKey {
        ip: neighbor.ip,
        intf: neighbor.intf,
    }
}

fn add_forwarded(
    alloc: Global,
    keys: &mut Vec<HostKey>,
    fibs: &NodeMap<FibEntry>,
) -> Result<(), NoMemory>
    ensures { OnOk result (keys.new.items ≡ keys.old.items ++ flat_map (λ e. forward_hosts e.1.value) fibs.now.entries) }
{
    for (_, node) in fibs {
        add_hosts(alloc, keys, node.value())?;
    }
    Ok(())
}

fn add_hosts(alloc: Global, keys: &mut Vec<HostKey>, entry: &FibEntry) -> Result<(), NoMemory>
    ensures { OnOk result (keys.new.items ≡ keys.old.items ++ forward_hosts entry.now) }
{
    let hosts = entry_hosts(alloc, entry)?;
    let added = keys.extend_from_slice(hosts.as_slice());
    drop(hosts);
    added
}

/// The rows of the hosts that have one.
fn rows_of_hosts(
    alloc: Global,
    state: &SwitchState,
    keys: &[HostKey],
) -> Result<Vec<(HostKey, HostRow)>, NoMemory>
    ensures { IfOk result (λ list. list.items ≡ flat_map (λ key. entry_of key (host_row (plain state.now) key)) keys.now) }
{
    let mut list = Vec::new(alloc);
    for key in keys {
        add_host(&mut list, state, key)?;
    }
    Ok(list)
}

fn add_host(
    list: &mut Vec<(HostKey, HostRow)>,
    state: &SwitchState,
    key: &HostKey,
) -> Result<(), NoMemory>
    ensures { OnOk result (list.new.items ≡ list.old.items ++ entry_of key.now (host_row (plain state.now) key.now)) }
{
    if let Some(row) = host_row(state, key) {
        list.push((*key, row))?;
    }
    Ok(())
}
