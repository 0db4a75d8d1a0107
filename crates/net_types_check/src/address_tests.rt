// The edges of addresses and prefixes, and each call once.
use net_types::{
    Addr, Client, GroupRow, Hop, HopList, HopSet, HostKey, Intf, Ip, Member, Name, NoMemory,
    Prefix, PrefixFault, RouteKey, Shared, VlanName, Vrf, compare_addrs, compare_hops,
    compare_host_keys, compare_ips, compare_prefixes, compare_route_keys,
};
use std::alloc::Global;
use std::cmp::Ordering;
use std::hash::{DefaultHasher, Hash, Hasher};
use std::marker::{Send, Sync};
use std::test::Fail;

const TEN: u32 = 0x0a00_0000;

const LINK: u128 = 0xfe80_0000_0000_0000_0000_0000_0000_0000;

#[test]
fn interfaces_and_clients_at_their_edges(rt: HostRuntime) -> Result<(), Fail> {
    assert!(rt; Intf::new(0).is_none());
    for number in [1, 4_294_967_295] {
        assert_eq!(rt; Intf::new(number).ok_or("no interface")?.get(), number);
    }
    for number in [0, 65_535] {
        assert_eq!(rt; Vrf::new(number).ok_or("no VRF")?.get(), number);
    }
    for (number, distance) in [(0, 0), (1, 1), (2, 10), (3, 20), (4, 200)] {
        let client = Client::of_number(number).ok_or("no client")?;
        assert_eq!(rt; client.number(), number);
        assert_eq!(rt; client.distance(), distance);
    }
    assert!(rt; Client::of_number(5).is_none());
    assert!(rt; Client::Interface < Client::Static && Client::Ebgp < Client::Ibgp);
    Ok(())
}

#[test]
fn link_local_at_its_edges(rt: HostRuntime) {
    for (ip, link_local) in [
        (Ip::V6(LINK), true),
        (Ip::V6(0xfebf_ffff_ffff_ffff_ffff_ffff_ffff_ffff), true),
        (Ip::V6(0xfec0_0000_0000_0000_0000_0000_0000_0000), false),
        (Ip::V6(0xfe7f_ffff_ffff_ffff_ffff_ffff_ffff_ffff), false),
        (Ip::V6(0xfe00_0000_0000_0000_0000_0000_0000_0001), false),
        (Ip::V4(0xa9fe_0001), false),
    ] {
        assert_eq!(rt; ip.is_link_local(), link_local);
    }
}

#[test]
fn prefixes_at_their_edges(rt: HostRuntime) {
    let long = Err(PrefixFault::Length);
    let hosts = Err(PrefixFault::HostBits);
    for (ip, len, answer) in [
        (Ip::V4(0), 0, Ok(0)),
        (Ip::V4(1), 0, hosts),
        (Ip::V4(TEN), 8, Ok(8)),
        (Ip::V4(TEN), 6, hosts),
        (Ip::V4(TEN + 1), 31, hosts),
        (Ip::V4(TEN + 1), 32, Ok(32)),
        (Ip::V4(TEN + 1), 33, long),
        (Ip::V6(0), 0, Ok(0)),
        (Ip::V6(LINK), 0, hosts),
        (Ip::V6(LINK), 9, Ok(9)),
        (Ip::V6(LINK), 8, hosts),
        (Ip::V6(LINK + 1), 127, hosts),
        (Ip::V6(LINK + 1), 128, Ok(128)),
        (Ip::V6(LINK + 1), 129, long),
    ] {
        assert!(rt; Prefix::new(ip, len).map(|prefix| prefix.len()) == answer);
    }
    assert!(rt; Addr::new(Ip::V4(TEN + 1), 33) == Err(PrefixFault::Length));
    assert!(rt; Addr::new(Ip::V6(1), 129) == Err(PrefixFault::Length));
}

#[test]
fn subnets_of_addresses(rt: HostRuntime) -> Result<(), Fail> {
    for (ip, len, network) in [
        (Ip::V4(TEN + 0x0102), 24, Ip::V4(TEN + 0x0100)),
        (Ip::V4(0xffff_ffff), 0, Ip::V4(0)),
        (Ip::V4(0xffff_ffff), 32, Ip::V4(0xffff_ffff)),
        (Ip::V6(LINK + 1), 64, Ip::V6(LINK)),
        (Ip::V6(u128::MAX), 0, Ip::V6(0)),
        (Ip::V6(u128::MAX), 128, Ip::V6(u128::MAX)),
    ] {
        let addr = Addr::new(ip, len).map_err(|_| "no address")?;
        let subnet = addr.subnet();
        assert!(rt; subnet.ip() == network && subnet.len() == len);
        assert!(rt; addr.ip() == ip && addr.len() == len && subnet.contains(ip));
    }
    Ok(())
}

fn prefix(ip: Ip, len: u8) -> Result<Prefix, &'static str> {
    Prefix::new(ip, len).map_err(|_| "no prefix")
}

#[test]
fn containing_and_overlapping(rt: HostRuntime) -> Result<(), Fail> {
    let ten = prefix(Ip::V4(TEN), 8)?;
    let inner = prefix(Ip::V4(TEN + 0x0001_0000), 16)?;
    let other = prefix(Ip::V4(TEN + 0x0100_0000), 8)?;
    let every = prefix(Ip::V4(0), 0)?;
    let every_v6 = prefix(Ip::V6(0), 0)?;
    assert!(rt; ten.contains(Ip::V4(0x0aff_ffff)) && !ten.contains(Ip::V4(0x0b00_0000)));
    assert!(rt; every.contains(Ip::V4(u32::MAX)) && !every.contains(Ip::V6(0)));
    assert!(rt; every_v6.contains(Ip::V6(u128::MAX)) && !every_v6.contains(Ip::V4(0)));
    assert!(rt; ten.overlaps(&inner) && inner.overlaps(&ten) && ten.overlaps(&ten));
    assert!(rt; !ten.overlaps(&other) && !other.overlaps(&inner));
    assert!(rt; every.overlaps(&other) && !every.overlaps(&every_v6));
    Ok(())
}

#[test]
fn keys_go_by_their_first_part_first(rt: HostRuntime) -> Result<(), Fail> {
    let intf = Intf::new(1);
    assert!(rt; compare_ips(&Ip::V4(u32::MAX), &Ip::V6(0)) == Ordering::Less);
    let short = prefix(Ip::V4(0), 1)?;
    let long = prefix(Ip::V4(0), 2)?;
    let next = prefix(Ip::V4(0x8000_0000), 1)?;
    assert!(rt; compare_prefixes(&short, &long) == Ordering::Less);
    assert!(rt; compare_prefixes(&long, &next) == Ordering::Less);
    let addr = Addr::new(Ip::V4(1), 1).map_err(|_| "no address")?;
    assert!(rt; compare_addrs(&addr, &addr) == Ordering::Equal);
    let one = Intf::new(1).ok_or("no interface")?;
    let two = Intf::new(2).ok_or("no interface")?;
    let host = HostKey {
        ip: Ip::V4(1),
        intf: two,
    };
    let higher = HostKey {
        ip: Ip::V4(2),
        intf: one,
    };
    assert!(rt; compare_host_keys(&host, &higher) == Ordering::Less);
    let vrf = Vrf::new(7).ok_or("no VRF")?;
    let route = RouteKey { vrf, prefix: short };
    let farther = RouteKey { vrf, prefix: next };
    assert!(rt; compare_route_keys(&route, &farther) == Ordering::Less);
    let none = Hop {
        ip: Ip::V4(1),
        intf: None,
    };
    let some = Hop {
        ip: Ip::V4(1),
        intf,
    };
    assert!(rt; compare_hops(&none, &some) == Ordering::Less);
    Ok(())
}

fn hop(number: u32) -> Hop {
    Hop {
        ip: Ip::V4(number),
        intf: None,
    }
}

fn list_of(alloc: Global, hops: &[Hop]) -> Result<HopList, NoMemory> {
    Ok(HopList::from_vec(hops.to_vec(alloc)?))
}

fn set_of(alloc: Global, hops: &[Hop]) -> Result<HopSet, NoMemory> {
    let list = list_of(alloc, hops)?;
    let set = HopSet::of(alloc, &list);
    drop(list);
    set
}

fn union_has(alloc: Global, set: &HopSet, hops: &[Hop], wanted: &[Hop]) -> Result<bool, NoMemory> {
    let other = set_of(alloc, hops)?;
    let both = set.union(alloc, &other);
    drop(other);
    let both = both?;
    let is_wanted = both.as_slice() == wanted;
    drop(both);
    Ok(is_wanted)
}

fn unites(alloc: Global, hops: &[Hop], others: &[Hop], wanted: &[Hop]) -> Result<bool, NoMemory> {
    let set = set_of(alloc, hops)?;
    let is_wanted = union_has(alloc, &set, others, wanted);
    drop(set);
    is_wanted
}

#[test]
fn sets_of_hops(rt: HostRuntime) -> Result<(), Fail> {
    let alloc = rt.alloc();
    let is_sorted = unites(
        alloc,
        &[hop(3), hop(1), hop(3), hop(2), hop(1)],
        &[],
        &[hop(1), hop(2), hop(3)],
    )?;
    assert!(rt; is_sorted);
    let is_union = unites(
        alloc,
        &[hop(3), hop(1), hop(2)],
        &[hop(4), hop(0), hop(2)],
        &[hop(0), hop(1), hop(2), hop(3), hop(4)],
    )?;
    assert!(rt; is_union);
    let is_whole = unites(
        alloc,
        &[hop(0), hop(4)],
        &[hop(4), hop(0)],
        &[hop(0), hop(4)],
    )?;
    assert!(rt; is_whole);
    let is_empty = unites(alloc, &[], &[], &[])?;
    assert!(rt; is_empty);
    Ok(())
}

#[test]
fn groups_at_their_edges(rt: HostRuntime) -> Result<(), Fail> {
    let member = Member {
        host: 7,
        live: true,
    };
    let members = [member; 65];
    assert!(rt; GroupRow::of(&members[..1]).is_none() && GroupRow::of(&members).is_none());
    let pair = GroupRow::of(&[member, Member { host: 8, ..member }]).ok_or("no group")?;
    for count in [2, 64] {
        let row = GroupRow::of(&members[..count]).ok_or("no group")?;
        assert!(rt; row.members() == &members[..count]);
        let again = GroupRow::of(&members[..count]).ok_or("no group")?;
        assert!(rt; row == again && row != pair);
    }
    Ok(())
}

fn hash_of<K: Hash>(key: &K) -> u64 {
    let mut hasher = DefaultHasher::new();
    key.hash(&mut hasher);
    hasher.finish()
}

fn are_ordered<K: Ord + Hash>(low: &K, high: &K) -> bool {
    low.partial_cmp(high) == Some(Ordering::Less)
        && low.cmp(high) == Ordering::Less
        && low != high
        && is_same_key(low, low)
}

fn is_same_key<K: Ord + Hash>(key: &K, other: &K) -> bool {
    key == other && hash_of(key) == hash_of(other)
}

fn comes_before_webs(alloc: Global, web: &VlanName) -> Result<bool, NoMemory> {
    match VlanName::of(alloc, b"webs")? {
        Some(webs) => {
            let is_ordered = are_ordered(web, &webs);
            drop(webs);
            Ok(is_ordered)
        }
        None => Ok(false),
    }
}

fn equals_its_copy(alloc: Global, name: &VlanName) -> Result<bool, NoMemory> {
    let copy = name.copy(alloc)?;
    let is_same = is_same_key(name, &copy);
    drop(copy);
    Ok(is_same)
}

fn comes_before_s2(alloc: Global, name: &Name) -> Result<bool, NoMemory> {
    match Name::of(alloc, b"s2")? {
        Some(second) => {
            let is_ordered = are_ordered(name, &second);
            drop(second);
            Ok(is_ordered)
        }
        None => Ok(false),
    }
}

#[test]
fn names_of_vlans_are_keys(rt: HostRuntime) -> Result<(), Fail> {
    let alloc = rt.alloc();
    let web = VlanName::of(alloc, b"web")?.ok_or("no name")?;
    let is_before = comes_before_webs(alloc, &web);
    let is_same = equals_its_copy(alloc, &web);
    drop(web);
    assert!(rt; is_before == Ok(true));
    assert!(rt; is_same == Ok(true));
    Ok(())
}

#[test]
fn names_are_keys(rt: HostRuntime) -> Result<(), Fail> {
    let alloc = rt.alloc();
    let first = Name::of(alloc, b"s1")?.ok_or("no name")?;
    let is_before = comes_before_s2(alloc, &first);
    drop(first);
    assert!(rt; is_before == Ok(true));
    Ok(())
}

fn is_past_its_prefix(alloc: Global, given: &HopList) -> Result<bool, NoMemory> {
    let short = list_of(alloc, &[hop(2)])?;
    let is_ordered = are_ordered(&short, given);
    drop(short);
    Ok(is_ordered)
}

fn equals_its_set(alloc: Global, given: &HopList) -> Result<bool, NoMemory> {
    let set = HopSet::of(alloc, given)?;
    let is_same = equals_its_copy_of_links(&set);
    drop(set);
    is_same
}

fn equals_its_copy_of_links(set: &HopSet) -> Result<bool, NoMemory> {
    let same = set.copy()?;
    let is_same = is_same_key(set, &same);
    drop(same);
    Ok(is_same)
}

fn equals_its_share(alloc: Global, given: &HopList) -> Result<bool, NoMemory> {
    let shared = Shared::of(alloc, given.copy(alloc)?)?;
    crosses(&shared);
    let is_same = has_equal_share(&shared);
    drop(shared);
    is_same
}

fn has_equal_share(shared: &Shared<HopList>) -> Result<bool, NoMemory> {
    let other = shared.share()?;
    let is_same = is_same_key(shared, &other);
    drop(other);
    Ok(is_same)
}

fn crosses<S: Send + Sync>(_value: &S) {}

#[test]
fn lists_and_sets_of_hops_are_keys(rt: HostRuntime) -> Result<(), Fail> {
    let alloc = rt.alloc();
    let given = list_of(alloc, &[hop(2), hop(1)])?;
    let is_past = is_past_its_prefix(alloc, &given);
    let is_same_set = equals_its_set(alloc, &given);
    let is_same_share = equals_its_share(alloc, &given);
    drop(given);
    assert!(rt; is_past == Ok(true));
    assert!(rt; is_same_set == Ok(true));
    assert!(rt; is_same_share == Ok(true));
    Ok(())
}

#[test]
fn faults_are_printed(rt: HostRuntime) -> Result<(), Fail> {
    for (fault, text) in [
        (
            PrefixFault::Length,
            "the length is above the width of the address",
        ),
        (PrefixFault::HostBits, "a bit past the length is set"),
    ] {
        let printed = format!(in rt.alloc(); "{fault}")?;
        assert!(rt; printed.as_str() == text);
    }
    Ok(())
}
