// Updates as they are printed, in the words of a script.
use net_types::{
    Addr, Client, Hop, HopList, Intf, Ip, Mac, NoMemory, Port, Prefix, Text, Vlan, VlanName, Vrf,
};
use script_text::*;
use std::alloc::Global;
use std::process::Abort;
use std::test::Fail;
use switch_model::{Act, RouteList, Update, Via};

/// `10.0.0.1`
const TEN: Ip = Ip::V4(0x0a00_0001);

/// `20.0.0.0`
const TWENTY: Ip = Ip::V4(0x1400_0000);

/// `fe80::1`
const LINK: Ip = Ip::V6(0xfe80_0000_0000_0000_0000_0000_0000_0001);

fn vlan(rt: &impl Abort) -> Vlan {
    Vlan::new(10).expect(rt, "a VLAN")
}

fn port(rt: &impl Abort) -> Port {
    Port::new(1).expect(rt, "a port")
}

fn intf(rt: &impl Abort, number: u32) -> Intf {
    Intf::new(number).expect(rt, "an interface")
}

fn vrf(rt: &impl Abort, number: u16) -> Vrf {
    Vrf::new(number).expect(rt, "a VRF")
}

fn mac(rt: &impl Abort) -> Mac {
    Mac::new(0x0200_0000_000a).expect(rt, "a MAC")
}

fn twenty(rt: &impl Abort) -> Prefix {
    Prefix::new(TWENTY, 8).ok().expect(rt, "a prefix")
}

fn addr(rt: &impl Abort, ip: Ip, len: u8) -> Addr {
    Addr::new(ip, len).ok().expect(rt, "an address")
}

/// Whether the act is printed so, behind what stands in the text.
fn prints(alloc: Global, alone: bool, act: Act, wanted: &str) -> Result<bool, NoMemory> {
    let mut out = Text::new(alloc);
    out.push(b'>')?;
    print_update(alloc, &mut out, &Update { alone, act })?;
    match out.as_slice() {
        [mark, words @ ..] => Ok(*mark == b'>' && *words == *wanted.as_bytes()),
        [] => Ok(false),
    }
}

#[test]
fn ports_and_vlans(rt: HostRuntime) -> Result<(), Fail> {
    let alloc = rt.alloc();
    let (port, vlan) = (port(&rt), vlan(&rt));
    let name = VlanName::of(alloc, b"web_1-a")?.ok_or("no name")?;
    assert!(rt;
        prints(
            alloc,
            true,
            Act::VlanAdd { vlan, name },
            "alone vlan add 10 web_1-a"
        )?
    );
    assert!(rt; prints(alloc, false, Act::VlanDel { vlan }, "vlan del 10")?);
    assert!(rt; prints(alloc, false, Act::PortAdd { port, vlan }, "port add 1 10")?);
    assert!(rt; prints(alloc, false, Act::PortDel { port }, "port del 1")?);
    assert!(rt; prints(alloc, false, Act::PortVlan { port, vlan }, "port vlan 1 10")?);
    assert!(rt; prints(alloc, false, Act::PortUp { port }, "port up 1")?);
    assert!(rt; prints(alloc, true, Act::PortDown { port }, "alone port down 1")?);
    Ok(())
}

#[test]
fn interfaces_and_addresses(rt: HostRuntime) -> Result<(), Fail> {
    let alloc = rt.alloc();
    let intf = intf(&rt, u32::MAX);
    let act = Act::IntfAdd {
        intf,
        vlan: vlan(&rt),
        vrf: vrf(&rt, u16::MAX),
        mac: mac(&rt),
    };
    assert!(rt;
        prints(
            alloc,
            false,
            act,
            "intf add 4294967295 10 65535 02:00:00:00:00:0a"
        )?
    );
    assert!(rt; prints(alloc, false, Act::IntfDel { intf }, "intf del 4294967295")?);
    let act = Act::AddrAdd {
        intf,
        addr: addr(&rt, TEN, 24),
    };
    assert!(rt; prints(alloc, false, act, "addr add 4294967295 10.0.0.1/24")?);
    let act = Act::AddrDel {
        intf,
        addr: addr(&rt, LINK, 64),
    };
    assert!(rt; prints(alloc, false, act, "addr del 4294967295 fe80::1/64")?);
    Ok(())
}

#[test]
fn neighbors_and_stations(rt: HostRuntime) -> Result<(), Fail> {
    let alloc = rt.alloc();
    let (intf, vlan, mac, port) = (intf(&rt, 1), vlan(&rt), mac(&rt), port(&rt));
    let act = Act::NeighborSet {
        intf,
        ip: TEN,
        mac,
        port,
    };
    assert!(rt;
        prints(
            alloc,
            false,
            act,
            "neighbor set 1 10.0.0.1 02:00:00:00:00:0a 1"
        )?
    );
    let act = Act::NeighborPending { intf, ip: LINK };
    assert!(rt; prints(alloc, false, act, "neighbor pending 1 fe80::1")?);
    let act = Act::NeighborDel { intf, ip: TEN };
    assert!(rt; prints(alloc, false, act, "neighbor del 1 10.0.0.1")?);
    let act = Act::MacSet { vlan, mac, port };
    assert!(rt; prints(alloc, false, act, "mac set 10 02:00:00:00:00:0a 1")?);
    assert!(rt;
        prints(
            alloc,
            false,
            Act::MacDel { vlan, mac },
            "mac del 10 02:00:00:00:00:0a"
        )?
    );
    Ok(())
}

fn two_hops(rt: &impl Abort, alloc: Global) -> Result<Via, NoMemory> {
    let mut hops = HopList::new(alloc);
    hops.push(Hop {
        ip: TEN,
        intf: None,
    })?;
    hops.push(Hop {
        ip: LINK,
        intf: Some(intf(rt, 3)),
    })?;
    Ok(Via::Hops(hops))
}

#[test]
fn routes(rt: HostRuntime) -> Result<(), Fail> {
    let alloc = rt.alloc();
    let (vrf, prefix) = (vrf(&rt, 0), twenty(&rt));
    let act = Act::RouteSet {
        vrf,
        prefix,
        client: Client::Ebgp,
        via: two_hops(&rt, alloc)?,
    };
    assert!(rt;
        prints(
            alloc,
            false,
            act,
            "route set 0 20.0.0.0/8 ebgp via 10.0.0.1 fe80::1@3"
        )?
    );
    let act = Act::RouteSet {
        vrf,
        prefix,
        client: Client::Interface,
        via: Via::Hops(HopList::new(alloc)),
    };
    assert!(rt; prints(alloc, false, act, "route set 0 20.0.0.0/8 interface via")?);
    let act = Act::RouteDel {
        vrf,
        prefix,
        client: Client::Ibgp,
    };
    assert!(rt; prints(alloc, false, act, "route del 0 20.0.0.0/8 ibgp")?);
    Ok(())
}

#[test]
fn syncs(rt: HostRuntime) -> Result<(), Fail> {
    let alloc = rt.alloc();
    let (vrf, prefix) = (vrf(&rt, 0), twenty(&rt));
    let act = Act::ClientSync {
        vrf,
        client: Client::Openr,
        routes: RouteList::new(alloc),
    };
    assert!(rt; prints(alloc, false, act, "client sync 0 openr")?);
    let mut routes = RouteList::new(alloc);
    routes.push((prefix, Via::Discard))?;
    routes.push((prefix, Via::ToCpu))?;
    routes.push((prefix, two_hops(&rt, alloc)?))?;
    let act = Act::ClientSync {
        vrf,
        client: Client::Static,
        routes,
    };
    let wanted =
        "client sync 0 static 20.0.0.0/8 drop ; 20.0.0.0/8 cpu ; 20.0.0.0/8 via 10.0.0.1 fe80::1@3";
    assert!(rt; prints(alloc, false, act, wanted)?);
    Ok(())
}

#[test]
fn pages(rt: HostRuntime) -> Result<(), Fail> {
    let alloc = rt.alloc();
    let mut page = Page::new(alloc);
    writeln!(page, "{} and", 7)?;
    page.push_bytes(b"more ")?;
    page.push_ip(&LINK)?;
    assert_eq!(rt;
        str::from_utf8(page.into_bytes().as_slice())?,
        "7 and\nmore fe80::1"
    );
    Ok(())
}
