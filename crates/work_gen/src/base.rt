// What the switch of generated work begins with.
ghost use Rattle.std.specs.Prelude.{◌≡◌, ◌≤◌, ◌++◌, IfOk, OnOk};
ghost use Rattle.net_types.specs.Range.{IsVlan};
ghost use Rattle.work_gen.specs.Base.{vlan_act, vlan_acts, port_acts, all_port_acts, intf_acts, all_intf_acts, base_acts};
ghost use Rattle.work_gen.specs.Values.{quad};

use crate::values::{intf, mac, only_vrf, port, quad, vlan};
use net_types::{Addr, NoMemory, VlanName};
use std::alloc::Global;
use switch_model::Act;

/// The MAC before those of interfaces.
const INTF_MACS: u64 = 0x0200_0000_0000;

/// The acts that the empty switch is filled with.
pub(crate) fn base_acts(alloc: Global) -> Result<Vec<Act>, NoMemory>
    ensures { IfOk result (λ acts. acts.items ≡ base_acts) }
{
    let mut acts = Vec::new(alloc);
    add_vlans(alloc, &mut acts)?;
    add_ports(&mut acts)?;
    add_intfs(&mut acts)?;
    Ok(acts)
}

fn add_vlans(alloc: Global, acts: &mut Vec<Act>) -> Result<(), NoMemory>
    ensures { OnOk result (acts.new.items ≡ acts.old.items ++ vlan_acts) }
{
    for number in 1..9 {
        acts.push(vlan_act(alloc, number)?)?;
    }
    Ok(())
}

fn add_ports(acts: &mut Vec<Act>) -> Result<(), NoMemory>
    ensures { OnOk result (acts.new.items ≡ acts.old.items ++ all_port_acts) }
{
    for number in 1..33 {
        add_port(acts, number)?;
    }
    Ok(())
}

fn add_intfs(acts: &mut Vec<Act>) -> Result<(), NoMemory>
    ensures { OnOk result (acts.new.items ≡ acts.old.items ++ all_intf_acts) }
{
    for number in 1..9 {
        add_intf(acts, number)?;
    }
    Ok(())
}

fn vlan_act(alloc: Global, number: u32) -> Result<Act, NoMemory>
    requires { IsVlan number }
    ensures { IfOk result (λ act. act ≡ vlan_act number) }
{
    match VlanName::of(alloc, b"g")? {
        Some(name) => Ok(Act::VlanAdd {
            vlan: vlan(number),
            name,
        }),
        None => unreachable!(),
    }
}

fn add_port(acts: &mut Vec<Act>, number: u32) -> Result<(), NoMemory>
    requires from_one { 1 ≤ number }
    requires to_last { number ≤ 32 }
    ensures { OnOk result (acts.new.items ≡ acts.old.items ++ port_acts number) }
{
    let port = port(number);
    acts.push(Act::PortAdd {
        port,
        vlan: vlan(1 + (number - 1) % 8),
    })?;
    acts.push(Act::PortUp { port })?;
    Ok(())
}

fn add_intf(acts: &mut Vec<Act>, number: u32) -> Result<(), NoMemory>
    requires from_one { 1 ≤ number }
    requires to_last { number ≤ 8 }
    ensures { OnOk result (acts.new.items ≡ acts.old.items ++ intf_acts number) }
{
    let intf = intf(number);
    acts.push(Act::IntfAdd {
        intf,
        vlan: vlan(number),
        vrf: only_vrf(),
        mac: mac(INTF_MACS + u64::from(number)),
    })?;
    acts.push(Act::AddrAdd {
        intf,
        addr: near_addr(number as u8),
    })?;
    Ok(())
}

/// The address `10.b.0.1/16`.
fn near_addr(b: u8) -> Addr
    ensures { result ≡ record { ip = quad 10 b 0 1; len = 16 } }
{
    match Addr::new(quad(10, b, 0, 1), 16) {
        Ok(addr) => addr,
        Err(_) => unreachable!(),
    }
}
