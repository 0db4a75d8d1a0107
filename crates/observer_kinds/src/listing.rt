// The changes between two states as one list.
ghost use Rattle.std.specs.Prelude.{◌≡◌, ◌++◌, IfOk, OnOk};
ghost use Rattle.node_map.specs.Follows as map;
ghost use Rattle.switch_state.specs.Follows.{Follows};
ghost use Rattle.observer_kinds.specs.Changes.{changes_between, first_parts, later_parts, part_changes};

use net_types::{ItemList, NoMemory};
use node_map::{NodeKey, NodeMap};
use state_delta::{Kind, map_delta};
use std::alloc::Global;
use switch_state::SwitchState;

/// A part of a state, in the order in which changes are listed.
#[derive(Clone, Copy, Debug, PartialEq, Eq)]
pub enum Part {
    Vlans,
    Ports,
    Intfs,
    Macs,
    Arps,
    Ndps,
    Routes,
    Fibs,
}

/// A key of a part under which two states differ, and how.
#[derive(Clone, Copy, Debug, PartialEq, Eq)]
pub struct PartChange {
    pub part: Part,
    pub key: NodeKey,
    pub kind: Kind,
}

/// Changes by part and then key.
pub type ChangeList = ItemList<PartChange>;

/// What differs between a state and one that follows it.
pub(crate) fn list_changes(
    alloc: Global,
    old: &SwitchState,
    new: &SwitchState,
) -> Result<ChangeList, NoMemory>
    requires { Follows old.now new.now }
    ensures { IfOk result (λ list. list ≡ changes_between old.now new.now) }
{
    let mut list = ChangeList::new(alloc);
    push_all(&mut list, old, new)?;
    Ok(list)
}

fn push_all(list: &mut ChangeList, old: &SwitchState, new: &SwitchState) -> Result<(), NoMemory>
    requires { Follows old.now new.now }
    ensures { OnOk result (list.new ≡ list.old ++ changes_between old.now new.now) }
{
    push_first_parts(list, old, new)?;
    push_later_parts(list, old, new)
}

/// The changes of VLANs, ports, interfaces and stations.
fn push_first_parts(
    list: &mut ChangeList,
    old: &SwitchState,
    new: &SwitchState,
) -> Result<(), NoMemory>
    requires { Follows old.now new.now }
    ensures { OnOk result (list.new ≡ list.old ++ first_parts old.now new.now) }
{
    push_part(list, Part::Vlans, old.vlans(), new.vlans())?;
    push_part(list, Part::Ports, old.ports(), new.ports())?;
    push_part(list, Part::Intfs, old.intfs(), new.intfs())?;
    push_part(list, Part::Macs, old.macs(), new.macs())
}

/// The changes of neighbours, routes and the FIB.
fn push_later_parts(
    list: &mut ChangeList,
    old: &SwitchState,
    new: &SwitchState,
) -> Result<(), NoMemory>
    requires { Follows old.now new.now }
    ensures { OnOk result (list.new ≡ list.old ++ later_parts old.now new.now) }
{
    push_part(list, Part::Arps, old.arps(), new.arps())?;
    push_part(list, Part::Ndps, old.ndps(), new.ndps())?;
    push_part(list, Part::Routes, old.routes(), new.routes())?;
    push_part(list, Part::Fibs, old.fibs(), new.fibs())
}

/// The changes of one part.
fn push_part<T>(
    list: &mut ChangeList,
    part: Part,
    old: &NodeMap<T>,
    new: &NodeMap<T>,
) -> Result<(), NoMemory>
    requires { map.Follows old.now.nodes new.now.nodes }
    ensures { OnOk result (list.new ≡ list.old ++ part_changes part old.now.entries new.now.entries) }
{
    old.shape();
    new.shape();
    for change in map_delta(old, new) {
        let key = change.key;
        let kind = change.kind;
        list.push(PartChange { part, key, kind })?;
    }
    Ok(())
}
