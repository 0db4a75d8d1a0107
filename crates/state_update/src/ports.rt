// What acts on VLANs, ports, interfaces and addresses do.
ghost use Rattle.std.specs.Prelude.{◌≡◌, ◌∷◌, [], IfOk, OnOk};
ghost use Rattle.std.specs.Ordering.{nat_cmp};
ghost use Rattle.keyed.specs.Keyed.{change};
ghost use Rattle.switch_model.specs.Effect.{port_effect, with_addr, with_up, without_addr};
ghost use Rattle.switch_model.specs.Touched.{touched, untouched};
ghost use Rattle.switch_state.specs.Plain.{plain};
ghost use Rattle.state_update.specs.Births.{KeepsRest};

use net_types::{Addr, Intf, Mac, NoMemory, Port, Vlan, VlanName, Vrf};
use std::alloc::Global;
use switch_model::{Act, AddrList, IntfRec, Lookup, PortRec, VlanRec};
use switch_state::StateEdit;

/// Does an act on VLANs, ports, interfaces or addresses. Other acts do nothing here.
pub(crate) fn change_ports(alloc: Global, edit: &mut StateEdit, act: &Act) -> Result<(), NoMemory>
    ensures effect { OnOk result (plain edit.new.state ≡ port_effect (plain edit.old.state) act.now) }
    ensures rest { KeepsRest (touched (plain edit.old.state) act.now) edit.old edit.new }
{
    match act {
        Act::VlanAdd { vlan, name } => add_vlan(alloc, edit, *vlan, name),
        Act::VlanDel { vlan } => cut_vlan(edit, *vlan),
        Act::PortAdd { port, vlan } => add_port(edit, *port, *vlan),
        Act::PortDel { port } => cut_port(edit, *port),
        Act::PortVlan { port, vlan } => move_port(edit, *port, *vlan),
        Act::PortUp { port } => flip_port(edit, *port, true),
        Act::PortDown { port } => flip_port(edit, *port, false),
        Act::IntfAdd {
            intf,
            vlan,
            vrf,
            mac,
        } => add_intf(alloc, edit, *intf, (*vlan, *vrf, *mac)),
        Act::IntfDel { intf } => cut_intf(edit, *intf),
        Act::AddrAdd { intf, addr } => add_addr(alloc, edit, *intf, addr),
        Act::AddrDel { intf, addr } => cut_addr(alloc, edit, *intf, addr),
        _ => Ok(()),
    }
}

fn add_vlan(
    alloc: Global,
    edit: &mut StateEdit,
    vlan: Vlan,
    name: &VlanName,
) -> Result<(), NoMemory>
    ensures effect { OnOk result (plain edit.new.state ≡ port_effect (plain edit.old.state) (Act.VlanAdd vlan name.now)) }
    ensures rest { KeepsRest (touched (plain edit.old.state) (Act.VlanAdd vlan name.now)) edit.old edit.new }
{
    let name = name.copy(alloc)?;
    edit.put_vlan(vlan, VlanRec { name })
}

fn cut_vlan(edit: &mut StateEdit, vlan: Vlan) -> Result<(), NoMemory>
    ensures effect { OnOk result (plain edit.new.state ≡ port_effect (plain edit.old.state) (Act.VlanDel vlan)) }
    ensures rest { KeepsRest (touched (plain edit.old.state) (Act.VlanDel vlan)) edit.old edit.new }
{
    edit.vlans().shape();
    edit.cut_vlan(vlan)
}

fn add_port(edit: &mut StateEdit, port: Port, vlan: Vlan) -> Result<(), NoMemory>
    ensures effect { OnOk result (plain edit.new.state ≡ port_effect (plain edit.old.state) (Act.PortAdd port vlan)) }
    ensures rest { KeepsRest (touched (plain edit.old.state) (Act.PortAdd port vlan)) edit.old edit.new }
{
    edit.put_port(port, PortRec { vlan, up: false })
}

fn cut_port(edit: &mut StateEdit, port: Port) -> Result<(), NoMemory>
    ensures effect { OnOk result (plain edit.new.state ≡ port_effect (plain edit.old.state) (Act.PortDel port)) }
    ensures rest { KeepsRest (touched (plain edit.old.state) (Act.PortDel port)) edit.old edit.new }
{
    edit.ports().shape();
    edit.cut_port(port)
}

fn move_port(edit: &mut StateEdit, port: Port, vlan: Vlan) -> Result<(), NoMemory>
    ensures effect { OnOk result (plain edit.new.state ≡ port_effect (plain edit.old.state) (Act.PortVlan port vlan)) }
    ensures rest { KeepsRest (touched (plain edit.old.state) (Act.PortVlan port vlan)) edit.old edit.new }
{
    match edit.port(port) {
        Some(rec) => edit.put_port(port, PortRec { vlan, up: rec.up }),
        None => Ok(()),
    }
}

fn flip_port(edit: &mut StateEdit, port: Port, up: bool) -> Result<(), NoMemory>
    ensures effect { OnOk result (plain edit.new.state ≡ record (plain edit.old.state) { ports = change nat_cmp port (with_up up) (plain edit.old.state).ports }) }
    ensures rest { KeepsRest (record untouched { ports = port ∷ [] }) edit.old edit.new }
{
    match edit.port(port) {
        Some(rec) => edit.put_port(port, PortRec { vlan: rec.vlan, up }),
        None => Ok(()),
    }
}

fn add_intf(
    alloc: Global,
    edit: &mut StateEdit,
    intf: Intf,
    place: (Vlan, Vrf, Mac),
) -> Result<(), NoMemory>
    ensures effect { OnOk result (plain edit.new.state ≡ port_effect (plain edit.old.state) (Act.IntfAdd intf place.0 place.1 place.2)) }
    ensures rest { KeepsRest (touched (plain edit.old.state) (Act.IntfAdd intf place.0 place.1 place.2)) edit.old edit.new }
{
    let (vlan, vrf, mac) = place;
    let addrs = AddrList::new(alloc);
    edit.put_intf(
        intf,
        IntfRec {
            vlan,
            vrf,
            mac,
            addrs,
        },
    )
}

fn cut_intf(edit: &mut StateEdit, intf: Intf) -> Result<(), NoMemory>
    ensures effect { OnOk result (plain edit.new.state ≡ port_effect (plain edit.old.state) (Act.IntfDel intf)) }
    ensures rest { KeepsRest (touched (plain edit.old.state) (Act.IntfDel intf)) edit.old edit.new }
{
    edit.intfs().shape();
    edit.cut_intf(intf)
}

fn add_addr(alloc: Global, edit: &mut StateEdit, intf: Intf, addr: &Addr) -> Result<(), NoMemory>
    ensures effect { OnOk result (plain edit.new.state ≡ port_effect (plain edit.old.state) (Act.AddrAdd intf addr.now)) }
    ensures rest { KeepsRest (touched (plain edit.old.state) (Act.AddrAdd intf addr.now)) edit.old edit.new }
{
    let Some(rec) = edit.intf(intf) else {
        return Ok(());
    };
    let rec = with_addr(alloc, rec, addr)?;
    edit.put_intf(intf, rec)
}

fn cut_addr(alloc: Global, edit: &mut StateEdit, intf: Intf, addr: &Addr) -> Result<(), NoMemory>
    ensures effect { OnOk result (plain edit.new.state ≡ port_effect (plain edit.old.state) (Act.AddrDel intf addr.now)) }
    ensures rest { KeepsRest (touched (plain edit.old.state) (Act.AddrDel intf addr.now)) edit.old edit.new }
{
    let Some(rec) = edit.intf(intf) else {
        return Ok(());
    };
    let rec = without_addr(alloc, rec, addr)?;
    edit.put_intf(intf, rec)
}

fn with_addr(alloc: Global, rec: &IntfRec, addr: &Addr) -> Result<IntfRec, NoMemory>
    ensures { IfOk result (λ r. r ≡ with_addr addr.now rec.now) }
{
    let mut addrs = rec.addrs.copy(alloc)?;
    addrs.put(*addr)?;
    Ok(IntfRec {
        vlan: rec.vlan,
        vrf: rec.vrf,
        mac: rec.mac,
        addrs,
    })
}

fn without_addr(alloc: Global, rec: &IntfRec, addr: &Addr) -> Result<IntfRec, NoMemory>
    ensures { IfOk result (λ r. r ≡ without_addr addr.now rec.now) }
{
    let mut addrs = rec.addrs.copy(alloc)?;
    addrs.cut(addr);
    Ok(IntfRec {
        vlan: rec.vlan,
        vrf: rec.vrf,
        mac: rec.mac,
        addrs,
    })
}
