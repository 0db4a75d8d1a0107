// The addresses of an interface.
use net_types::{Addr, Client, Intf, Ip, Prefix, Vrf};
use std::test::Fail;
use switch_model::*;

fn v4(a: u8, b: u8, c: u8, d: u8) -> Ip {
    Ip::V4(u32::from_be_bytes([a, b, c, d]))
}

fn addr(ip: Ip, len: u8) -> Result<Addr, Fail> {
    Ok(Addr::new(ip, len).ok().ok_or("no address")?)
}

#[test]
fn an_interface_keeps_one_address_for_each_ip(rt: HostRuntime) -> Result<(), Fail> {
    let mut addrs = AddrList::new(rt.alloc());
    assert!(rt; addrs.is_empty());
    addrs.put(addr(v4(10, 0, 1, 1), 24)?)?;
    addrs.put(addr(v4(10, 0, 0, 1), 16)?)?;
    addrs.put(addr(v4(10, 0, 1, 1), 30)?)?;
    let copy = addrs.copy(rt.alloc())?;
    assert!(rt; copy == addrs);
    assert!(rt; addrs.len() == 2);
    let first = addrs.at(0).ok_or("no first")?;
    assert!(rt; first.ip() == v4(10, 0, 0, 1));
    assert!(rt; addrs.as_slice()[1].len() == 30);
    addrs.cut(&addr(v4(10, 0, 1, 1), 8)?);
    assert!(rt; addrs.len() == 1);
    assert!(rt; copy != addrs);
    Ok(())
}

#[test]
fn an_ip_is_on_an_interface_by_its_subnets(rt: HostRuntime) -> Result<(), Fail> {
    let mut addrs = AddrList::new(rt.alloc());
    let own = addr(v4(10, 0, 1, 1), 24)?;
    addrs.push(own)?;
    let subnet = own.subnet();
    let wide = Prefix::new(v4(10, 0, 0, 0), 8).ok().ok_or("no prefix")?;
    assert!(rt; addrs.has_subnet(&subnet));
    assert!(rt; !addrs.has_subnet(&wide));
    assert!(rt; addrs.overlaps(&wide));
    assert!(rt; addrs.is_on(v4(10, 0, 1, 77)));
    assert!(rt; !addrs.is_on(v4(10, 0, 2, 77)));
    assert!(rt; addrs.is_on(Ip::V6(0xfe80_0000_0000_0000_0000_0000_0000_0009)));
    assert!(rt; !addrs.is_on_without(&own, v4(10, 0, 1, 77)));
    assert!(rt; addrs.has_ip(v4(10, 0, 1, 1)));
    assert!(rt; addrs.has_addr(&own));
    let longer = addr(v4(10, 0, 1, 1), 25)?;
    assert!(rt; !addrs.has_addr(&longer));
    Ok(())
}

#[test]
fn keys_have_an_order(rt: HostRuntime) -> Result<(), Fail> {
    let intf = Intf::new(1).ok_or("no interface")?;
    let low = NeighborKey {
        intf,
        ip: v4(10, 0, 0, 2),
    };
    let high = NeighborKey {
        intf,
        ip: v4(10, 0, 0, 10),
    };
    assert!(rt; compare_neighbor_keys(&low, &high).is_lt());
    let vrf = Vrf::new(0).ok_or("no VRF")?;
    let prefix = Prefix::new(v4(10, 0, 0, 0), 8).ok().ok_or("no prefix")?;
    let bgp = RibKey {
        vrf,
        prefix,
        client: Client::Ebgp,
    };
    let fixed = RibKey {
        vrf,
        prefix,
        client: Client::Static,
    };
    assert!(rt; compare_rib_keys(&bgp, &fixed).is_gt());
    Ok(())
}
