// The acts that build a saved state.
ghost use Rattle.std.specs.Prelude.{◌≡◌, ◌++◌, IfOk, OnOk, map};
ghost use Rattle.std.specs.List.{flat_map};
ghost use Rattle.switch_model.specs.declared.act.Act.TheVariants.{AddrAdd, IntfAdd, MacSet, RouteSet, VlanAdd};
ghost use Rattle.switch_model.specs.Sound.{acts_of, addr_acts, neighbor_act, port_acts, via_of};

use crate::lists::StateLists;
use net_types::{Addr, Intf, L2Key, NoMemory, Port, Vlan};
use saved_rows::{SavedIntf, SavedRoute};
use std::alloc::Global;
use switch_model::{Act, ActList, MacRec, NeighborKey, NeighborRec, PortRec, VlanRec};

/// The acts that build the state of the lists.
pub(crate) fn acts(alloc: Global, lists: StateLists) -> Result<ActList, NoMemory>
    ensures { IfOk result (λ acts. acts ≡ acts_of lists) }
{
    let StateLists {
        intfs,
        macs,
        neighbors,
        ports,
        routes,
        vlans,
    } = lists;
    let mut acts = ActList::new(alloc);
    add_vlans(&mut acts, vlans)?;
    add_ports(&mut acts, ports.as_slice())?;
    add_intfs(&mut acts, intfs.as_slice())?;
    add_all_addrs(&mut acts, intfs.as_slice())?;
    add_neighbors(&mut acts, neighbors.as_slice())?;
    add_macs(&mut acts, macs.as_slice())?;
    add_routes(&mut acts, routes)?;
    Ok(acts)
}

fn add_vlans(acts: &mut ActList, vlans: Vec<(Vlan, VlanRec)>) -> Result<(), NoMemory>
    ensures { OnOk result (acts.new ≡ acts.old ++ map (λ e. VlanAdd e.0 e.1.name) vlans.items) }
{
    for vlan in vlans {
        acts.push(vlan_act(vlan))?;
    }
    Ok(())
}

fn vlan_act(entry: (Vlan, VlanRec)) -> Act
    ensures { result ≡ VlanAdd entry.0 entry.1.name }
{
    let (vlan, rec) = entry;
    let VlanRec { name } = rec;
    Act::VlanAdd { vlan, name }
}

fn add_ports(acts: &mut ActList, ports: &[(Port, PortRec)]) -> Result<(), NoMemory>
    ensures { OnOk result (acts.new ≡ acts.old ++ flat_map port_acts ports.now) }
{
    for port in ports {
        add_port(acts, port)?;
    }
    Ok(())
}

// A new port is down.
fn add_port(acts: &mut ActList, entry: &(Port, PortRec)) -> Result<(), NoMemory>
    ensures { OnOk result (acts.new ≡ acts.old ++ port_acts entry.now) }
{
    let (port, rec) = *entry;
    acts.push(Act::PortAdd {
        port,
        vlan: rec.vlan,
    })?;
    if rec.up {
        acts.push(Act::PortUp { port })?;
    }
    Ok(())
}

fn add_intfs(acts: &mut ActList, intfs: &[SavedIntf]) -> Result<(), NoMemory>
    ensures { OnOk result (acts.new ≡ acts.old ++ map (λ e. IntfAdd e.0 e.1.vlan e.1.vrf e.1.mac) intfs.now) }
{
    for intf in intfs {
        acts.push(Act::IntfAdd {
            intf: intf.intf,
            vlan: intf.vlan,
            vrf: intf.vrf,
            mac: intf.mac,
        })?;
    }
    Ok(())
}

fn add_all_addrs(acts: &mut ActList, intfs: &[SavedIntf]) -> Result<(), NoMemory>
    ensures { OnOk result (acts.new ≡ acts.old ++ flat_map addr_acts intfs.now) }
{
    for intf in intfs {
        add_addrs(acts, intf.intf, intf.addrs.as_slice())?;
    }
    Ok(())
}

fn add_addrs(acts: &mut ActList, intf: Intf, addrs: &[Addr]) -> Result<(), NoMemory>
    ensures { OnOk result (acts.new ≡ acts.old ++ map (AddrAdd intf) addrs.now) }
{
    for addr in addrs {
        acts.push(Act::AddrAdd { intf, addr: *addr })?;
    }
    Ok(())
}

fn add_neighbors(
    acts: &mut ActList,
    neighbors: &[(NeighborKey, NeighborRec)],
) -> Result<(), NoMemory>
    ensures { OnOk result (acts.new ≡ acts.old ++ map (λ e. neighbor_act e.0 e.1) neighbors.now) }
{
    for neighbor in neighbors {
        acts.push(neighbor_act(&neighbor.0, &neighbor.1))?;
    }
    Ok(())
}

fn neighbor_act(key: &NeighborKey, rec: &NeighborRec) -> Act
    ensures { result ≡ neighbor_act key.now rec.now }
{
    match rec {
        NeighborRec::Pending => Act::NeighborPending {
            intf: key.intf,
            ip: key.ip,
        },
        NeighborRec::Reachable { mac, port } => Act::NeighborSet {
            intf: key.intf,
            ip: key.ip,
            mac: *mac,
            port: *port,
        },
    }
}

fn add_macs(acts: &mut ActList, macs: &[(L2Key, MacRec)]) -> Result<(), NoMemory>
    ensures { OnOk result (acts.new ≡ acts.old ++ map (λ e. MacSet e.0.vlan e.0.mac e.1.port) macs.now) }
{
    for mac in macs {
        acts.push(Act::MacSet {
            vlan: mac.0.vlan,
            mac: mac.0.mac,
            port: mac.1.port,
        })?;
    }
    Ok(())
}

fn add_routes(acts: &mut ActList, routes: Vec<SavedRoute>) -> Result<(), NoMemory>
    ensures { OnOk result (acts.new ≡ acts.old ++ map (λ e. RouteSet e.0.vrf e.0.prefix e.0.client (via_of e.1)) routes.items) }
{
    for route in routes {
        acts.push(route_act(route))?;
    }
    Ok(())
}

fn route_act(route: SavedRoute) -> Act
    ensures { result ≡ RouteSet route.0.vrf route.0.prefix route.0.client (via_of route.1) }
{
    let SavedRoute { key, via } = route;
    Act::RouteSet {
        vrf: key.vrf,
        prefix: key.prefix,
        client: key.client,
        via,
    }
}
