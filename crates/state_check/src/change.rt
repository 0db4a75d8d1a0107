// Changes of an edit and of a state of lists.
use crate::draws::Draws;
use net_types::{Intf, Ip, L2Key, NoMemory, VlanName};
use plain_looker::PlainLooker;
use std::alloc::Global;
use switch_model::{AddrList, IntfRec, MacRec, NeighborKey, NeighborRec, PortRec, VlanRec};
use switch_state::StateEdit;

/// Makes one random change in both.
pub fn change(
    alloc: Global,
    edit: &mut StateEdit,
    plain: &mut PlainLooker,
    draws: &mut Draws,
) -> Result<(), NoMemory> {
    match draws.below(12) {
        0 => put_vlan(alloc, edit, plain, draws),
        1 => cut_vlan(edit, plain, draws),
        2 => put_port(edit, plain, draws),
        3 => cut_port(edit, plain, draws),
        4 | 5 | 6 => put_intf(alloc, edit, plain, draws),
        7 => cut_intf(edit, plain, draws),
        8 => put_mac(edit, plain, draws),
        9 => cut_mac(edit, plain, draws),
        10 => put_neighbor(edit, plain, draws),
        _ => cut_neighbor(edit, plain, draws),
    }
}

fn name(alloc: Global) -> Result<Option<VlanRec>, NoMemory> {
    match VlanName::of(alloc, b"v")? {
        Some(name) => Ok(Some(VlanRec { name })),
        None => Ok(None),
    }
}

fn put_vlan(
    alloc: Global,
    edit: &mut StateEdit,
    plain: &mut PlainLooker,
    draws: &mut Draws,
) -> Result<(), NoMemory> {
    let Some(vlan) = draws.vlan() else {
        return Ok(());
    };
    if let Some(rec) = name(alloc)? {
        edit.put_vlan(vlan, rec)?;
    }
    if let Some(rec) = name(alloc)? {
        plain.put_vlan(vlan, rec)?;
    }
    Ok(())
}

fn cut_vlan(
    edit: &mut StateEdit,
    plain: &mut PlainLooker,
    draws: &mut Draws,
) -> Result<(), NoMemory> {
    let Some(vlan) = draws.vlan() else {
        return Ok(());
    };
    plain.cut_vlan(vlan);
    edit.cut_vlan(vlan)
}

fn put_port(
    edit: &mut StateEdit,
    plain: &mut PlainLooker,
    draws: &mut Draws,
) -> Result<(), NoMemory> {
    match (draws.port(), draws.vlan()) {
        (Some(port), Some(vlan)) => {
            plain.put_port(port, PortRec { vlan, up: true })?;
            edit.put_port(port, PortRec { vlan, up: true })
        }
        _ => Ok(()),
    }
}

fn cut_port(
    edit: &mut StateEdit,
    plain: &mut PlainLooker,
    draws: &mut Draws,
) -> Result<(), NoMemory> {
    let Some(port) = draws.port() else {
        return Ok(());
    };
    plain.cut_port(port);
    edit.cut_port(port)
}

// At most four addresses.
fn addrs(alloc: Global, draws: &mut Draws) -> Result<AddrList, NoMemory> {
    let mut addrs = AddrList::new(alloc);
    for _ in 0..draws.below(5) {
        if let Some(addr) = draws.addr() {
            addrs.put(addr)?;
        }
    }
    Ok(addrs)
}

fn intf_rec(addrs: AddrList, draws: &mut Draws) -> Option<IntfRec> {
    match (draws.vlan(), draws.vrf(), draws.mac()) {
        (Some(vlan), Some(vrf), Some(mac)) => Some(IntfRec {
            vlan,
            vrf,
            mac,
            addrs,
        }),
        _ => None,
    }
}

fn copied(alloc: Global, rec: &IntfRec) -> Result<IntfRec, NoMemory> {
    let addrs = rec.addrs.copy(alloc)?;
    Ok(IntfRec {
        vlan: rec.vlan,
        vrf: rec.vrf,
        mac: rec.mac,
        addrs,
    })
}

fn put_intf(
    alloc: Global,
    edit: &mut StateEdit,
    plain: &mut PlainLooker,
    draws: &mut Draws,
) -> Result<(), NoMemory> {
    let Some(intf) = draws.intf() else {
        return Ok(());
    };
    let addrs = addrs(alloc, draws)?;
    match intf_rec(addrs, draws) {
        Some(rec) => put_both(alloc, edit, plain, intf, rec),
        None => Ok(()),
    }
}

fn put_both(
    alloc: Global,
    edit: &mut StateEdit,
    plain: &mut PlainLooker,
    intf: Intf,
    rec: IntfRec,
) -> Result<(), NoMemory> {
    let same = copied(alloc, &rec)?;
    plain.put_intf(intf, same)?;
    edit.put_intf(intf, rec)
}

fn cut_intf(
    edit: &mut StateEdit,
    plain: &mut PlainLooker,
    draws: &mut Draws,
) -> Result<(), NoMemory> {
    let Some(intf) = draws.intf() else {
        return Ok(());
    };
    plain.cut_intf(intf);
    edit.cut_intf(intf)
}

fn put_mac(
    edit: &mut StateEdit,
    plain: &mut PlainLooker,
    draws: &mut Draws,
) -> Result<(), NoMemory> {
    match (draws.vlan(), draws.mac(), draws.port()) {
        (Some(vlan), Some(mac), Some(port)) => {
            plain.put_mac(L2Key { vlan, mac }, MacRec { port })?;
            edit.put_mac((vlan, mac), MacRec { port })
        }
        _ => Ok(()),
    }
}

fn cut_mac(
    edit: &mut StateEdit,
    plain: &mut PlainLooker,
    draws: &mut Draws,
) -> Result<(), NoMemory> {
    match (draws.vlan(), draws.mac()) {
        (Some(vlan), Some(mac)) => {
            plain.cut_mac(&L2Key { vlan, mac });
            edit.cut_mac((vlan, mac))
        }
        _ => Ok(()),
    }
}

fn neighbor_rec(draws: &mut Draws) -> NeighborRec {
    match (draws.mac(), draws.port()) {
        (Some(mac), Some(port)) if draws.below(3) > 0 => NeighborRec::Reachable { mac, port },
        _ => NeighborRec::Pending,
    }
}

fn same(rec: &NeighborRec) -> NeighborRec {
    match rec {
        NeighborRec::Reachable { mac, port } => NeighborRec::Reachable {
            mac: *mac,
            port: *port,
        },
        NeighborRec::Pending => NeighborRec::Pending,
    }
}

fn put_neighbor(
    edit: &mut StateEdit,
    plain: &mut PlainLooker,
    draws: &mut Draws,
) -> Result<(), NoMemory> {
    let Some(intf) = draws.intf() else {
        return Ok(());
    };
    let ip = draws.ip();
    let rec = neighbor_rec(draws);
    plain.put_neighbor(NeighborKey { intf, ip }, same(&rec))?;
    match ip {
        Ip::V4(n) => edit.put_arp((intf, Ip::V4(n)), rec),
        Ip::V6(n) => edit.put_ndp((intf, Ip::V6(n)), rec),
    }
}

fn cut_neighbor(
    edit: &mut StateEdit,
    plain: &mut PlainLooker,
    draws: &mut Draws,
) -> Result<(), NoMemory> {
    let Some(intf) = draws.intf() else {
        return Ok(());
    };
    let ip = draws.ip();
    plain.cut_neighbor(&NeighborKey { intf, ip });
    match ip {
        Ip::V4(n) => edit.cut_arp((intf, Ip::V4(n))),
        Ip::V6(n) => edit.cut_ndp((intf, Ip::V6(n))),
    }
}
