// The lists of a state, written from the walks of its maps.
ghost use Rattle.std.specs.Prelude.{◌≡◌, ℕ, All, IfOk, OnOk};
ghost use Rattle.serde_json.specs.Data.{Data};
ghost use Rattle.serde_json.specs.View.{view};
ghost use Rattle.state_keys.specs.PartKeys.{IsIntfNumber, IsPortNumber, IsRibNumber, IsStationNumber, IsVlanNumber, intf_of, port_of, rib_of, station_of, vlan_of};
ghost use Rattle.state_scan.specs.Listed.{listed};
ghost use Rattle.json_form.specs.Lists.{rows_json};
ghost use Rattle.saved_rows.specs.StateRows.{IsIntfRow, IsPortRow, IsRibRow, IsStationRow, IsVlanRow, intf_json, port_json, rib_json, station_json, vlan_json};

use net_types::{Intf, L2Key, NoMemory, Port, Vlan};
use node_map::{NodeKey, NodeMap};
use saved_rows::{intf_value, mac_value, port_value, route_value, vlan_value};
use serde_json::Value;
use state_keys::{intf_of, port_of, rib_of, station_of, vlan_of};
use std::alloc::Global;
use switch_model::{IntfRec, MacRec, PortRec, RibKey, RouteRec, VlanRec};

/// What writes the entries of a part of a state.
pub(crate) trait EntryWriter {
    type Key;

    type Rec;

    // The numbers of the part's keys, and the key of each.
    ghost is_number: { ℕ → Type 0 };

    ghost key_of: { ℕ → Self.Key };

    // The value of an entry, and that everything in it is in its range.
    ghost json_of: { Self.Key × Self.Rec → Data };

    ghost legal: { Self.Key × Self.Rec → Type 0 };

    fn write(alloc: Global, key: &NodeKey, rec: &Self::Rec) -> Result<Value, NoMemory>
        requires { is_number key.now }
        ensures value { IfOk result (λ v. view v ≡ json_of (key_of key.now, rec.now)) }
        ensures legal { OnOk result (legal (key_of key.now, rec.now)) };
}

/// The value that lists the entries of a map, in order. No entry is copied.
#[tactic(auto, using(crate::proofs::Walked::all_legal, crate::proofs::Walked::all_written))]
pub(crate) fn map_value<F: EntryWriter>(
    alloc: Global,
    map: &NodeMap<F::Rec>,
) -> Result<Value, NoMemory>
    requires { All (λ e. F.is_number e.0) map.now.entries }
    ensures value { IfOk result (λ v. view v ≡ rows_json F.json_of (listed F.key_of map.now.entries)) }
    ensures legal { OnOk result (All F.legal (listed F.key_of map.now.entries)) }
{
    let mut items = Vec::new(alloc);
    for (key, node) in map.walk() {
        let value = F::write(alloc, key, node.value())?;
        items.push(value)?;
    }
    Ok(Value::Array(items))
}

pub(crate) struct VlanWriter;

impl EntryWriter for VlanWriter {
    type Key = Vlan;

    type Rec = VlanRec;

    ghost is_number = { IsVlanNumber };

    ghost key_of = { vlan_of };

    ghost json_of = { vlan_json };

    ghost legal = { IsVlanRow };

    fn write(alloc: Global, key: &NodeKey, rec: &VlanRec) -> Result<Value, NoMemory> {
        vlan_value(alloc, vlan_of(key), rec)
    }
}

pub(crate) struct PortWriter;

impl EntryWriter for PortWriter {
    type Key = Port;

    type Rec = PortRec;

    ghost is_number = { IsPortNumber };

    ghost key_of = { port_of };

    ghost json_of = { port_json };

    ghost legal = { IsPortRow };

    fn write(alloc: Global, key: &NodeKey, rec: &PortRec) -> Result<Value, NoMemory> {
        port_value(alloc, port_of(key), rec)
    }
}

pub(crate) struct IntfWriter;

impl EntryWriter for IntfWriter {
    type Key = Intf;

    type Rec = IntfRec;

    ghost is_number = { IsIntfNumber };

    ghost key_of = { intf_of };

    ghost json_of = { intf_json };

    ghost legal = { IsIntfRow };

    fn write(alloc: Global, key: &NodeKey, rec: &IntfRec) -> Result<Value, NoMemory> {
        intf_value(alloc, intf_of(key), rec)
    }
}

pub(crate) struct MacWriter;

impl EntryWriter for MacWriter {
    type Key = L2Key;

    type Rec = MacRec;

    ghost is_number = { IsStationNumber };

    ghost key_of = { station_of };

    ghost json_of = { station_json };

    ghost legal = { IsStationRow };

    fn write(alloc: Global, key: &NodeKey, rec: &MacRec) -> Result<Value, NoMemory> {
        mac_value(alloc, &station_of(key), rec)
    }
}

pub(crate) struct RouteWriter;

impl EntryWriter for RouteWriter {
    type Key = RibKey;

    type Rec = RouteRec;

    ghost is_number = { IsRibNumber };

    ghost key_of = { rib_of };

    ghost json_of = { rib_json };

    ghost legal = { IsRibRow };

    fn write(alloc: Global, key: &NodeKey, rec: &RouteRec) -> Result<Value, NoMemory> {
        route_value(alloc, &rib_of(key), rec)
    }
}
