// The edges of each range, and each call once.
use net_types::{L2Key, Mac, Name, NumList, Port, Vlan, VlanName, compare_l2_keys};
use std::cmp::Ordering;
use std::test::Fail;

#[test]
fn numbers_at_their_edges(rt: HostRuntime) {
    assert!(rt; Vlan::new(0).is_none() && Vlan::new(4095).is_none());
    assert!(rt; Vlan::new(1).is_some() && Vlan::new(4094).is_some());
    assert!(rt; Port::new(0).is_none() && Port::new(1025).is_none());
    assert!(rt; Port::new(1).is_some() && Port::new(1024).is_some());
    assert!(rt; Mac::new(0xffff_ffff_ffff).is_some());
    assert!(rt; Mac::new(0x1_0000_0000_0000).is_none());
}

#[test]
fn macs_of_one_station(rt: HostRuntime) -> Result<(), Fail> {
    for (number, unicast) in [
        (0x0200_0000_000a, true),
        (0x0000_0000_0001, true),
        (0, false),
        (0x0100_5e00_0001, false),
        (0xffff_ffff_ffff, false),
    ] {
        let mac = Mac::new(number).ok_or("no MAC")?;
        assert_eq!(rt; mac.is_unicast(), unicast, "at {number:x}");
    }
    Ok(())
}

#[test]
fn names_at_their_edges(rt: HostRuntime) -> Result<(), Fail> {
    let alloc = rt.alloc();
    let long = [b'a'; 65];
    for (bytes, is_vlan_name, is_name) in [
        (b"web".as_slice(), true, true),
        (b"_-09az".as_slice(), true, false),
        (b"a.b".as_slice(), false, true),
        (b".a".as_slice(), false, false),
        (b"Web".as_slice(), false, false),
        (b"a b".as_slice(), false, false),
        (b"".as_slice(), false, false),
        (&long[..32], true, true),
        (&long[..33], false, true),
        (&long[..64], false, true),
        (&long[..65], false, false),
    ] {
        let vlan_name = VlanName::of(alloc, bytes)?;
        let name = Name::of(alloc, bytes)?;
        assert_eq!(rt; vlan_name.is_some(), is_vlan_name);
        assert_eq!(rt; name.is_some(), is_name);
    }
    let name = VlanName::of(alloc, b"web")?.ok_or("no name")?;
    assert_eq!(rt; name.copy(alloc)?.bytes(), b"web".as_slice());
    Ok(())
}

#[test]
fn lists_keep_their_order(rt: HostRuntime) -> Result<(), Fail> {
    let mut list = NumList::new(rt.alloc());
    assert!(rt; list.is_empty());
    list.push(7)?;
    list.push(5)?;
    assert_eq!(rt; list.len(), 2);
    assert_eq!(rt; list.at(1), Some(&5));
    assert_eq!(rt; list.at(2), None);
    assert_eq!(rt;
        NumList::from_vec(list.into_vec()).as_slice(),
        [7, 5].as_slice()
    );
    Ok(())
}

#[test]
fn keys_go_by_vlan_first(rt: HostRuntime) -> Result<(), Fail> {
    let low = L2Key {
        vlan: Vlan::new(1).ok_or("no VLAN")?,
        mac: Mac::new(9).ok_or("no MAC")?,
    };
    let high = L2Key {
        vlan: Vlan::new(2).ok_or("no VLAN")?,
        mac: Mac::new(3).ok_or("no MAC")?,
    };
    assert_eq!(rt; compare_l2_keys(&low, &high), Ordering::Less);
    Ok(())
}
