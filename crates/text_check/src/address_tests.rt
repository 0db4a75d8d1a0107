// Hard texts of each form, with the value or the place of the fault, and the printed form.
use ip_text::{
    TextFault, print_addr, print_hop, print_ip, print_mac, print_prefix, read_addr, read_hop,
    read_ip, read_mac, read_prefix,
};
use net_types::{Intf, Ip, Text};
use std::test::Fail;

/// The texts that show the rules at a glance: the longest run as `::`, the first of equal ones,
/// no dotted quad and no single group as `::`.
#[test]
fn ips_as_they_are_printed(rt: HostRuntime) -> Result<(), Fail> {
    let alloc = rt.alloc();
    for (text, printed) in [
        (b"::".as_slice(), b"::".as_slice()),
        (b"1:0:0:2:0:0:3:4", b"1::2:0:0:3:4"),
        (b"1:0:0:2:0:0:0:4", b"1:0:0:2::4"),
        (b"::ffff:1.2.3.4", b"::ffff:102:304"),
        (b"1:2:3:4:5:6:7::", b"1:2:3:4:5:6:7:0"),
        (b"0:2:3:4:5:6:7:8", b"0:2:3:4:5:6:7:8"),
        (b"FE80:0:0:0:0:0:0:000A", b"fe80::a"),
        (b"1:0:0:0:0:0:0:0", b"1::"),
        (b"0.0.0.0", b"0.0.0.0"),
        (b"255.255.255.255", b"255.255.255.255"),
        (b"10.9.100.1", b"10.9.100.1"),
    ] {
        let mut out = Text::new(alloc);
        let ip = read_ip(text).map_err(|_| "no ip")?;
        print_ip(alloc, &mut out, &ip)?;
        assert!(rt; out.as_slice() == printed);
    }
    Ok(())
}

#[test]
fn ips_that_are_read(rt: HostRuntime) {
    for (text, ip) in [
        (b"::".as_slice(), Ip::V6(0)),
        (b"::1", Ip::V6(1)),
        (b"1::", Ip::V6(1 << 112)),
        (
            b"1:2:3:4:5:6:7::",
            Ip::V6(0x0001_0002_0003_0004_0005_0006_0007_0000),
        ),
        (
            b"::2:3:4:5:6:7:8",
            Ip::V6(0x0002_0003_0004_0005_0006_0007_0008),
        ),
        (b"::ffff:1.2.3.4", Ip::V6(0xffff_0102_0304)),
        (
            b"1:2:3:4:5:6:1.2.3.4",
            Ip::V6(0x0001_0002_0003_0004_0005_0006_0102_0304),
        ),
        (
            b"1:2:3:4:5::1.2.3.4",
            Ip::V6(0x0001_0002_0003_0004_0005_0000_0102_0304),
        ),
        (b"aBcD:0ef::", Ip::V6(0xabcd_00ef << 96)),
        (b"0.0.0.0", Ip::V4(0)),
        (b"192.0.2.255", Ip::V4(0xc000_02ff)),
    ] {
        assert!(rt; read_ip(text) == Ok(ip));
    }
}

#[test]
fn ips_that_are_refused(rt: HostRuntime) {
    for (text, at) in [
        (b"".as_slice(), 0),
        (b"x", 0),
        (b":1", 1),
        (b":::", 2),
        (b"1::2::3", 5),
        (b"1:2:3:4:5:6:7:8:9", 15),
        (b"1:2:3:4:5:6:7", 13),
        (b"1:2:3:4:5:6:7:1.2.3.4", 15),
        (b"1:2:3:4:5:6::1.2.3.4", 14),
        (b"12345::", 4),
        (b"fe80::1%eth0", 7),
        (b"1.2.3", 5),
        (b"1.2.3.", 6),
        (b"1.2.3.4.5", 7),
        (b"1.2.3.4 ", 7),
        // `256` and `01` are groups of an IPv6 text, and a point can't follow them.
        (b"256.0.0.1", 3),
        (b"01.0.0.0", 2),
        (b"010.0.0.1", 3),
        (b"::256.0.0.1", 5),
    ] {
        assert!(rt; read_ip(text) == Err(TextFault { at }));
    }
    assert!(rt; read_ip(&[b'7'; 10_000]) == Err(TextFault { at: 4 }));
    assert!(rt; read_ip(&[b':'; 10_000]) == Err(TextFault { at: 2 }));
    assert!(rt; read_addr(&[b'1'; 10_000]) == Err(TextFault { at: 4 }));
}

#[test]
fn prefixes_and_addresses(rt: HostRuntime) -> Result<(), Fail> {
    let alloc = rt.alloc();
    for (text, at) in [
        (b"10.0.0.0/33".as_slice(), 10),
        (b"10.0.0.1/24", 11),
        (b"10.0.0.0/00", 10),
        (b"10.0.0.0/08", 10),
        (b"10.0.0.0/", 9),
        (b"10.0.0.0", 8),
        (b"::/129", 5),
        (b"::1/127", 7),
        (b"fe80::/10/", 9),
    ] {
        assert!(rt; read_prefix(text) == Err(TextFault { at }));
    }
    for (text, printed) in [
        (b"10.0.0.0/8".as_slice(), b"10.0.0.0/8".as_slice()),
        (b"0.0.0.0/0", b"0.0.0.0/0"),
        (b"FE80:0::/10", b"fe80::/10"),
        (b"::1/128", b"::1/128"),
    ] {
        let prefix = read_prefix(text).map_err(|_| "no prefix")?;
        let mut out = Text::new(alloc);
        print_prefix(alloc, &mut out, &prefix)?;
        assert!(rt; out.as_slice() == printed);
    }
    let addr = read_addr(b"10.0.0.1/24").map_err(|_| "no address")?;
    assert!(rt; addr.ip() == Ip::V4(0x0a00_0001) && addr.len() == 24);
    let mut out = Text::new(alloc);
    out.push(b'>')?;
    print_addr(alloc, &mut out, &addr)?;
    assert!(rt; out.as_slice() == b">10.0.0.1/24".as_slice());
    Ok(())
}

#[test]
fn macs(rt: HostRuntime) -> Result<(), Fail> {
    let alloc = rt.alloc();
    for (text, at) in [
        (b"02:00:00:00:00:0".as_slice(), 16),
        (b"02:00:00:00:00:00:", 17),
        (b"02:00:00:00:00", 14),
        (b"2:00:00:00:00:00", 1),
        (b"02-00-00-00-00-00", 2),
        (b"", 0),
    ] {
        assert!(rt; read_mac(text) == Err(TextFault { at }));
    }
    let mac = read_mac(b"02:aB:00:00:10:0A").map_err(|_| "no MAC")?;
    assert_eq!(rt; mac.get(), 0x02ab_0000_100a);
    let mut out = Text::new(alloc);
    print_mac(alloc, &mut out, &mac)?;
    assert!(rt; out.as_slice() == b"02:ab:00:00:10:0a".as_slice());
    Ok(())
}

#[test]
fn hops(rt: HostRuntime) -> Result<(), Fail> {
    let alloc = rt.alloc();
    for (text, at) in [
        (b"10.0.0.1@".as_slice(), 9),
        (b"10.0.0.1@0", 9),
        (b"10.0.0.1@07", 9),
        (b"10.0.0.1@4294967296", 18),
        (b"10.0.0.1@7@7", 10),
        (b"@7", 0),
    ] {
        assert!(rt; read_hop(text) == Err(TextFault { at }));
    }
    for (text, ip, intf, printed) in [
        (
            b"10.0.0.1".as_slice(),
            Ip::V4(0x0a00_0001),
            None,
            b"10.0.0.1".as_slice(),
        ),
        (b"::A@1", Ip::V6(10), Intf::new(1), b"::a@1"),
        (
            b"::@4294967295",
            Ip::V6(0),
            Intf::new(4_294_967_295),
            b"::@4294967295",
        ),
    ] {
        let hop = read_hop(text).map_err(|_| "no hop")?;
        assert!(rt; hop.ip == ip && hop.intf == intf);
        let mut out = Text::new(alloc);
        print_hop(alloc, &mut out, &hop)?;
        assert!(rt; out.as_slice() == printed);
    }
    Ok(())
}

#[test]
fn a_fault_is_printed(rt: HostRuntime) -> Result<(), Fail> {
    let fault = TextFault { at: 7 };
    let printed = format!(in rt.alloc(); "{fault}")?;
    assert!(rt; printed.as_str() == "no text of the form from byte 7 on");
    Ok(())
}
