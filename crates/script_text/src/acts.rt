// The readers of the acts.
ghost use Rattle.std.specs.Prelude.{◌≡◌};
ghost use Rattle.script_words.specs.Reading.{Gives};
ghost use Rattle.script_text.specs.Reading.{act_at, vlan_at, port_at, intf_at, addr_at, neighbor_at, mac_at, vlan_add_at, vlan_del_at, port_add_at, port_del_at, port_vlan_at, port_up_at, port_down_at, intf_add_at, intf_del_at, addr_add_at, addr_del_at, neighbor_set_at, neighbor_pending_at, neighbor_del_at, mac_set_at, mac_del_at};

use crate::routes::{read_client, read_route};
use script_words::{Cursor, ReadFault};
use std::alloc::Global;
use switch_model::Act;

/// An act by its keywords, and the end of the line.
#[tactic(auto, unfolding(crate::specs::Reading::act_at, script_words::specs::Reading::choose))]
pub fn read_act(alloc: Global, cursor: &mut Cursor) -> Result<Act, ReadFault>
    ensures { Gives (λ act. act) result (act_at cursor.old) }
{
    if cursor.take(b"vlan") {
        return vlan(alloc, cursor);
    }
    if cursor.take(b"port") {
        return port(cursor);
    }
    if cursor.take(b"intf") {
        return intf(cursor);
    }
    if cursor.take(b"addr") {
        return addr(cursor);
    }
    if cursor.take(b"neighbor") {
        return neighbor(cursor);
    }
    if cursor.take(b"mac") {
        return mac(cursor);
    }
    if cursor.take(b"route") {
        return read_route(alloc, cursor);
    }
    if cursor.take(b"client") {
        return read_client(alloc, cursor);
    }
    Err(cursor.bad().into())
}

/// What follows `vlan`.
#[tactic(auto, unfolding(crate::specs::Reading::vlan_at, script_words::specs::Reading::choose))]
fn vlan(alloc: Global, cursor: &mut Cursor) -> Result<Act, ReadFault>
    ensures { Gives (λ act. act) result (vlan_at cursor.old) }
{
    if cursor.take(b"add") {
        return vlan_add(alloc, cursor);
    }
    if cursor.take(b"del") {
        return vlan_del(cursor);
    }
    Err(cursor.bad().into())
}

/// What follows `port`.
#[tactic(auto, unfolding(crate::specs::Reading::port_at, script_words::specs::Reading::choose))]
fn port(cursor: &mut Cursor) -> Result<Act, ReadFault>
    ensures { Gives (λ act. act) result (port_at cursor.old) }
{
    if cursor.take(b"add") {
        return port_add(cursor);
    }
    if cursor.take(b"del") {
        return port_del(cursor);
    }
    if cursor.take(b"vlan") {
        return port_vlan(cursor);
    }
    if cursor.take(b"up") {
        return port_up(cursor);
    }
    if cursor.take(b"down") {
        return port_down(cursor);
    }
    Err(cursor.bad().into())
}

/// What follows `intf`.
#[tactic(auto, unfolding(crate::specs::Reading::intf_at, script_words::specs::Reading::choose))]
fn intf(cursor: &mut Cursor) -> Result<Act, ReadFault>
    ensures { Gives (λ act. act) result (intf_at cursor.old) }
{
    if cursor.take(b"add") {
        return intf_add(cursor);
    }
    if cursor.take(b"del") {
        return intf_del(cursor);
    }
    Err(cursor.bad().into())
}

/// What follows `addr`.
#[tactic(auto, unfolding(crate::specs::Reading::addr_at, script_words::specs::Reading::choose))]
fn addr(cursor: &mut Cursor) -> Result<Act, ReadFault>
    ensures { Gives (λ act. act) result (addr_at cursor.old) }
{
    if cursor.take(b"add") {
        return addr_add(cursor);
    }
    if cursor.take(b"del") {
        return addr_del(cursor);
    }
    Err(cursor.bad().into())
}

/// What follows `neighbor`.
#[tactic(auto, unfolding(crate::specs::Reading::neighbor_at, script_words::specs::Reading::choose))]
fn neighbor(cursor: &mut Cursor) -> Result<Act, ReadFault>
    ensures { Gives (λ act. act) result (neighbor_at cursor.old) }
{
    if cursor.take(b"set") {
        return neighbor_set(cursor);
    }
    if cursor.take(b"pending") {
        return neighbor_pending(cursor);
    }
    if cursor.take(b"del") {
        return neighbor_del(cursor);
    }
    Err(cursor.bad().into())
}

/// What follows `mac`.
#[tactic(auto, unfolding(crate::specs::Reading::mac_at, script_words::specs::Reading::choose))]
fn mac(cursor: &mut Cursor) -> Result<Act, ReadFault>
    ensures { Gives (λ act. act) result (mac_at cursor.old) }
{
    if cursor.take(b"set") {
        return mac_set(cursor);
    }
    if cursor.take(b"del") {
        return mac_del(cursor);
    }
    Err(cursor.bad().into())
}

#[tactic(auto, unfolding(crate::specs::Reading::vlan_add_at, script_words::specs::Reading::one))]
fn vlan_add(alloc: Global, cursor: &mut Cursor) -> Result<Act, ReadFault>
    ensures { Gives (λ act. act) result (vlan_add_at cursor.old) }
{
    let vlan = cursor.vlan()?;
    let name = cursor.vlan_name(alloc)?;
    cursor.end()?;
    Ok(Act::VlanAdd { vlan, name })
}

#[tactic(auto, unfolding(crate::specs::Reading::vlan_del_at, script_words::specs::Reading::one))]
fn vlan_del(cursor: &mut Cursor) -> Result<Act, ReadFault>
    ensures { Gives (λ act. act) result (vlan_del_at cursor.old) }
{
    let vlan = cursor.vlan()?;
    cursor.end()?;
    Ok(Act::VlanDel { vlan })
}

#[tactic(auto, unfolding(crate::specs::Reading::port_add_at, script_words::specs::Reading::one))]
fn port_add(cursor: &mut Cursor) -> Result<Act, ReadFault>
    ensures { Gives (λ act. act) result (port_add_at cursor.old) }
{
    let port = cursor.port()?;
    let vlan = cursor.vlan()?;
    cursor.end()?;
    Ok(Act::PortAdd { port, vlan })
}

#[tactic(auto, unfolding(crate::specs::Reading::port_del_at, script_words::specs::Reading::one))]
fn port_del(cursor: &mut Cursor) -> Result<Act, ReadFault>
    ensures { Gives (λ act. act) result (port_del_at cursor.old) }
{
    let port = cursor.port()?;
    cursor.end()?;
    Ok(Act::PortDel { port })
}

#[tactic(auto, unfolding(crate::specs::Reading::port_vlan_at, script_words::specs::Reading::one))]
fn port_vlan(cursor: &mut Cursor) -> Result<Act, ReadFault>
    ensures { Gives (λ act. act) result (port_vlan_at cursor.old) }
{
    let port = cursor.port()?;
    let vlan = cursor.vlan()?;
    cursor.end()?;
    Ok(Act::PortVlan { port, vlan })
}

#[tactic(auto, unfolding(crate::specs::Reading::port_up_at, script_words::specs::Reading::one))]
fn port_up(cursor: &mut Cursor) -> Result<Act, ReadFault>
    ensures { Gives (λ act. act) result (port_up_at cursor.old) }
{
    let port = cursor.port()?;
    cursor.end()?;
    Ok(Act::PortUp { port })
}

#[tactic(auto, unfolding(crate::specs::Reading::port_down_at, script_words::specs::Reading::one))]
fn port_down(cursor: &mut Cursor) -> Result<Act, ReadFault>
    ensures { Gives (λ act. act) result (port_down_at cursor.old) }
{
    let port = cursor.port()?;
    cursor.end()?;
    Ok(Act::PortDown { port })
}

#[tactic(auto, unfolding(crate::specs::Reading::intf_add_at, script_words::specs::Reading::one))]
fn intf_add(cursor: &mut Cursor) -> Result<Act, ReadFault>
    ensures { Gives (λ act. act) result (intf_add_at cursor.old) }
{
    let intf = cursor.intf()?;
    let vlan = cursor.vlan()?;
    let vrf = cursor.vrf()?;
    let mac = cursor.mac()?;
    cursor.end()?;
    Ok(Act::IntfAdd {
        intf,
        vlan,
        vrf,
        mac,
    })
}

#[tactic(auto, unfolding(crate::specs::Reading::intf_del_at, script_words::specs::Reading::one))]
fn intf_del(cursor: &mut Cursor) -> Result<Act, ReadFault>
    ensures { Gives (λ act. act) result (intf_del_at cursor.old) }
{
    let intf = cursor.intf()?;
    cursor.end()?;
    Ok(Act::IntfDel { intf })
}

#[tactic(auto, unfolding(crate::specs::Reading::addr_add_at, script_words::specs::Reading::one))]
fn addr_add(cursor: &mut Cursor) -> Result<Act, ReadFault>
    ensures { Gives (λ act. act) result (addr_add_at cursor.old) }
{
    let intf = cursor.intf()?;
    let addr = cursor.addr()?;
    cursor.end()?;
    Ok(Act::AddrAdd { intf, addr })
}

#[tactic(auto, unfolding(crate::specs::Reading::addr_del_at, script_words::specs::Reading::one))]
fn addr_del(cursor: &mut Cursor) -> Result<Act, ReadFault>
    ensures { Gives (λ act. act) result (addr_del_at cursor.old) }
{
    let intf = cursor.intf()?;
    let addr = cursor.addr()?;
    cursor.end()?;
    Ok(Act::AddrDel { intf, addr })
}

#[tactic(auto, unfolding(crate::specs::Reading::neighbor_set_at, script_words::specs::Reading::one))]
fn neighbor_set(cursor: &mut Cursor) -> Result<Act, ReadFault>
    ensures { Gives (λ act. act) result (neighbor_set_at cursor.old) }
{
    let intf = cursor.intf()?;
    let ip = cursor.ip()?;
    let mac = cursor.mac()?;
    let port = cursor.port()?;
    cursor.end()?;
    Ok(Act::NeighborSet {
        intf,
        ip,
        mac,
        port,
    })
}

#[tactic(auto, unfolding(crate::specs::Reading::neighbor_pending_at, script_words::specs::Reading::one))]
fn neighbor_pending(cursor: &mut Cursor) -> Result<Act, ReadFault>
    ensures { Gives (λ act. act) result (neighbor_pending_at cursor.old) }
{
    let intf = cursor.intf()?;
    let ip = cursor.ip()?;
    cursor.end()?;
    Ok(Act::NeighborPending { intf, ip })
}

#[tactic(auto, unfolding(crate::specs::Reading::neighbor_del_at, script_words::specs::Reading::one))]
fn neighbor_del(cursor: &mut Cursor) -> Result<Act, ReadFault>
    ensures { Gives (λ act. act) result (neighbor_del_at cursor.old) }
{
    let intf = cursor.intf()?;
    let ip = cursor.ip()?;
    cursor.end()?;
    Ok(Act::NeighborDel { intf, ip })
}

#[tactic(auto, unfolding(crate::specs::Reading::mac_set_at, script_words::specs::Reading::one))]
fn mac_set(cursor: &mut Cursor) -> Result<Act, ReadFault>
    ensures { Gives (λ act. act) result (mac_set_at cursor.old) }
{
    let vlan = cursor.vlan()?;
    let mac = cursor.mac()?;
    let port = cursor.port()?;
    cursor.end()?;
    Ok(Act::MacSet { vlan, mac, port })
}

#[tactic(auto, unfolding(crate::specs::Reading::mac_del_at, script_words::specs::Reading::one))]
fn mac_del(cursor: &mut Cursor) -> Result<Act, ReadFault>
    ensures { Gives (λ act. act) result (mac_del_at cursor.old) }
{
    let vlan = cursor.vlan()?;
    let mac = cursor.mac()?;
    cursor.end()?;
    Ok(Act::MacDel { vlan, mac })
}
