// The addresses of an interface.
ghost use Rattle.std.specs.Prelude.{◌≡◌, ◌==◌, [], ◌∷◌, ◌++◌, not, filter, length, IfOk, OnErr, OnOk, slice_get, option_copied};
ghost use Rattle.std.specs.Cmp.{partial_equiv_from_equiv};
ghost use Rattle.std.specs.List.{list_any};
ghost use Rattle.std.specs.List.Sorted.{IsStrictlySortedBy};
ghost use Rattle.std.specs.Ordering.{eq_by_cmp};
ghost use Rattle.keyed.specs.Sets.{delete, insert};
ghost use Rattle.net_types.specs.KeyOrder.{ip_cmp};
ghost use Rattle.net_types.specs.Prefix.{contains, overlaps};
ghost use Rattle.switch_model.specs.Addresses.{addr_cmp, is_on, same_addr, same_addrs, subnets, addrs_equivalence};

use net_types::{Addr, Ip, NoMemory, Prefix, compare_addrs, compare_ips, compare_prefixes};
use std::alloc::Global;
use std::marker::Model;

/// The addresses of an interface by ip, one for each ip.
#[derive(Debug, Drop)]
pub struct AddrList {
    addrs: Vec<Addr>,
}

impl Model for AddrList {
    ghost use Rattle.std.specs.Prelude.{List};
    ghost use Rattle.std.specs.List.Sorted.{IsStrictlySortedBy};
    ghost use Rattle.net_types.specs.Cidr.{Cidr};
    ghost use Rattle.switch_model.specs.Addresses.{addr_cmp};

    ghost Value = { List Cidr };

    ghost view = { λ l. l.addrs.items };

    ghost invariant = { λ l. IsStrictlySortedBy addr_cmp l.addrs.items };
}

impl AddrList {
    pub fn new(alloc: Global) -> AddrList
        ensures { result ≡ [] }
    {
        AddrList {
            addrs: Vec::new(alloc),
        }
    }

    /// Puts an address in its place, instead of the one with its ip. After a refusal the list is as
    /// before.
    pub fn put(&mut self, addr: Addr) -> Result<(), NoMemory>
        ensures ok { OnOk result (self.new ≡ insert addr_cmp addr self.old) }
        ensures err { OnErr result (self.new ≡ self.old) }
    {
        match self.addrs.binary_search_by(|a| a.ip().cmp(&addr.ip())) {
            Ok(place) => self.addrs[place] = addr,
            Err(place) => self.addrs.insert(place, addr)?,
        }
        Ok(())
    }

    /// Takes the address with that ip away, where there is one.
    pub fn cut(&mut self, addr: &Addr)
        ensures { self.new ≡ delete addr_cmp addr.now self.old }
    {
        if let Ok(place) = self.addrs.binary_search_by(|a| a.ip().cmp(&addr.ip())) {
            self.addrs.remove(place);
        }
    }

    /// Puts an address last. After a refusal the list is as before.
    pub fn push(&mut self, addr: Addr) -> Result<(), NoMemory>
        requires { IsStrictlySortedBy addr_cmp (self.old ++ addr ∷ []) }
        ensures ok { OnOk result (self.new ≡ self.old ++ addr ∷ []) }
        ensures err { OnErr result (self.new ≡ self.old) }
    {
        self.addrs.push(addr)?;
        Ok(())
    }

    /// A list of the same addresses.
    pub fn copy(&self, alloc: Global) -> Result<AddrList, NoMemory>
        ensures { IfOk result (λ copy. copy ≡ self.now) }
    {
        Ok(AddrList {
            addrs: Vec::from_slice(alloc, self.addrs.as_slice())?,
        })
    }

    pub fn len(&self) -> usize
        ensures { result ≡ length self.now }
    {
        self.addrs.len()
    }

    pub fn is_empty(&self) -> bool
        ensures { result ≡ (length self.now == 0) }
    {
        self.addrs.is_empty()
    }

    /// The address at that place, counted from 0: none exactly past the end.
    pub fn at(&self, n: usize) -> Option<&Addr>
        ensures { option_copied result ≡ slice_get self.now n }
    {
        self.addrs.get(n)
    }

    /// The addresses as a slice, by ip.
    pub fn as_slice(&self) -> &[Addr]
        ensures value { result.now ≡ self.now }
        ensures ascending { IsStrictlySortedBy addr_cmp result.now }
    {
        self.addrs.as_slice()
    }

    /// Whether one of the subnets is that prefix.
    pub fn has_subnet(&self, prefix: &Prefix) -> bool
        ensures { result ≡ list_any (same_addr prefix.now) (subnets self.now) }
    {
        self.addrs
            .iter()
            .filter(|addr| !addr.ip().is_link_local())
            .map(|addr| addr.subnet())
            .any(|subnet| compare_prefixes(prefix, &subnet).is_eq())
    }

    /// Whether one of the subnets overlaps the prefix.
    pub fn overlaps(&self, prefix: &Prefix) -> bool
        ensures { result ≡ list_any (overlaps prefix.now) (subnets self.now) }
    {
        self.addrs
            .iter()
            .filter(|addr| !addr.ip().is_link_local())
            .map(|addr| addr.subnet())
            .any(|subnet| prefix.overlaps(&subnet))
    }

    /// Whether the ip is link-local or in one of the subnets.
    pub fn is_on(&self, ip: Ip) -> bool
        ensures { result ≡ is_on self.now ip }
    {
        ip.is_link_local() || self.contains(ip)
    }

    fn contains(&self, ip: Ip) -> bool
        ensures { result ≡ list_any (λ subnet. contains subnet ip) (subnets self.now) }
    {
        self.addrs
            .iter()
            .filter(|addr| !addr.ip().is_link_local())
            .map(|addr| addr.subnet())
            .any(|subnet| subnet.contains(ip))
    }

    /// Whether the ip is still on the interface when the address with that ip is taken away.
    pub fn is_on_without(&self, addr: &Addr, ip: Ip) -> bool
        ensures { result ≡ is_on (delete addr_cmp addr.now self.now) ip }
    {
        ip.is_link_local() || self.contains_without(addr, ip)
    }

    fn contains_without(&self, gone: &Addr, ip: Ip) -> bool
        ensures { result ≡ list_any (λ subnet. contains subnet ip) (subnets (delete addr_cmp gone.now self.now)) }
    {
        contains_elsewhere(self.addrs.as_slice(), gone, ip)
    }

    /// Whether an address has that ip.
    pub fn has_ip(&self, ip: Ip) -> bool
        ensures { result ≡ list_any (λ addr. eq_by_cmp ip_cmp addr.ip ip) self.now }
    {
        self.addrs
            .iter()
            .any(|addr| compare_ips(&addr.ip(), &ip).is_eq())
    }

    /// Whether one of them is that address, length included.
    pub fn has_addr(&self, wanted: &Addr) -> bool
        ensures { result ≡ list_any (same_addr wanted.now) self.now }
    {
        match self
            .addrs
            .binary_search_by(|addr| addr.ip().cmp(&wanted.ip()))
        {
            Ok(place) => compare_addrs(wanted, &self.addrs[place]).is_eq(),
            Err(_) => false,
        }
    }
}

impl PartialEq for AddrList {
    ghost eq = { same_addrs };

    ghost laws = { partial_equiv_from_equiv addrs_equivalence };

    fn eq(&self, other: &AddrList) -> bool {
        self.as_slice() == other.as_slice()
    }
}

impl Eq for AddrList {
    ghost laws = { addrs_equivalence };
}

/// Whether a subnet contains the ip that isn't of an address with that ip.
fn contains_elsewhere(addrs: &[Addr], gone: &Addr, ip: Ip) -> bool
    ensures { result ≡ list_any (λ subnet. contains subnet ip) (subnets (filter (λ addr. not (eq_by_cmp addr_cmp gone.now addr)) addrs.now)) }
{
    addrs
        .iter()
        .filter(|addr| !compare_ips(&gone.ip(), &addr.ip()).is_eq())
        .filter(|addr| !addr.ip().is_link_local())
        .map(|addr| addr.subnet())
        .any(|subnet| subnet.contains(ip))
}
