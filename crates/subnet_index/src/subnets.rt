// The subnets of interfaces.
ghost use Rattle.std.specs.Prelude.{◌≡◌, ℕ, [], ◌∷◌, All, List, IfOk, Option, Some, map};
ghost use Rattle.std.specs.Option.{option_copied};
ghost use Rattle.std.specs.Ordering.{nat_cmp};
ghost use Rattle.keyed.specs.Keyed.{at, Ascends};
ghost use Rattle.keyed.specs.Sets.{insert, delete};
ghost use Rattle.switch_model.specs.declared.record.IntfRec.{IntfRec};
ghost use Rattle.subnet_index.specs.Index.{entry_changed};
ghost use Rattle.subnet_index.specs.SubnetKey.{IsSubnetNumber, subnet_at, subnet_cmp};
ghost use Rattle.subnet_index.specs.SubnetList.{add_addrs, add_come, cut_addrs, cut_gone, has_addr, keeps_subnet, subnets_in};

use crate::key::{Subnet, subnet_key};
use crate::record::{has_addr, keeps_subnet};
use key_set::KeySet;
use net_types::{Addr, Intf, NoMemory, Vrf};
use node_core::Forge;
use std::marker::Model;
use switch_model::IntfRec;

/// The subnets of interfaces, by VRF, prefix and interface: the prefix of each address that isn't
/// link-local. It is shared and never changed: a change gives a new index.
#[derive(Drop)]
pub struct Subnets {
    keys: KeySet,
}

impl Model for Subnets {
    ghost use Rattle.std.specs.Prelude.{List, All, map};
    ghost use Rattle.subnet_index.specs.declared.key.Subnet.{Subnet};
    ghost use Rattle.subnet_index.specs.SubnetKey.{IsSubnetNumber, subnet_at};

    ghost Value = { List Subnet };

    ghost view = { λ s. map subnet_at s.keys };

    ghost invariant = { λ s. All IsSubnetNumber s.keys };
}

impl Subnets {
    /// The subnets of no interfaces.
    pub fn new() -> Subnets
        ensures { result ≡ subnets_in [] }
    {
        Subnets {
            keys: KeySet::new(),
        }
    }

    /// The keys of the subnets, for look-ups.
    pub fn keys(&self) -> &KeySet
        ensures keys { self.now ≡ map subnet_at result.now }
        ensures numbers { All IsSubnetNumber result.now }
    {
        &self.keys
    }

    /// One more owner of the same index.
    pub fn share(&self) -> Result<Subnets, NoMemory>
        ensures { IfOk result (λ s. s ≡ self.now) }
    {
        let _ = &self.keys;
        let keys = self.keys.share()?;
        Ok(Subnets { keys })
    }

    /// The index once the interface under the number has the new record in place of the old one,
    /// where there are any. A subnet that stays isn't touched. After a refusal of memory the index
    /// is as it was.
    pub fn change(
        &self,
        forge: &Forge,
        intf: Intf,
        old: Option<&IntfRec>,
        new: Option<&IntfRec>,
    ) -> Result<Subnets, NoMemory>
        ensures { (intfs : List (ℕ × IntfRec)) → Ascends nat_cmp intfs → self.now ≡ subnets_in intfs → at nat_cmp intf intfs ≡ option_copied old.entry → IfOk result (λ s. s ≡ subnets_in (entry_changed nat_cmp intf (option_copied new.entry) intfs)) }
    {
        let rest = self.without_gone(forge, intf, old, new)?;
        let index = rest.with_come(forge, intf, old, new)?;
        Ok(index)
    }

    // The index without those subnets of the old record that the new one lacks.
    fn without_gone(
        &self,
        forge: &Forge,
        intf: Intf,
        old: Option<&IntfRec>,
        new: Option<&IntfRec>,
    ) -> Result<Subnets, NoMemory>
        ensures { IfOk result (λ s. s ≡ cut_gone intf (option_copied old.entry) (option_copied new.entry) self.now) }
    {
        match old {
            None => {
                let index = self.share()?;
                Ok(index)
            }
            Some(rec) => {
                let index = self.without_addrs(forge, rec.vrf, intf, rec.addrs.as_slice(), new)?;
                Ok(index)
            }
        }
    }

    // The index with the subnets of those addresses of the new record that the old one lacks.
    fn with_come(
        &self,
        forge: &Forge,
        intf: Intf,
        old: Option<&IntfRec>,
        new: Option<&IntfRec>,
    ) -> Result<Subnets, NoMemory>
        ensures { IfOk result (λ s. s ≡ add_come intf (option_copied old.entry) (option_copied new.entry) self.now) }
    {
        match new {
            None => {
                let index = self.share()?;
                Ok(index)
            }
            Some(rec) => {
                let index = self.with_addrs(forge, rec.vrf, intf, rec.addrs.as_slice(), old)?;
                Ok(index)
            }
        }
    }

    // The index without the subnets of the addresses that the new record lacks.
    fn without_addrs(
        &self,
        forge: &Forge,
        vrf: Vrf,
        intf: Intf,
        addrs: &[Addr],
        new: Option<&IntfRec>,
    ) -> Result<Subnets, NoMemory>
        ensures { IfOk result (λ s. s ≡ cut_addrs vrf intf (keeps_subnet (option_copied new.entry) vrf) addrs.now self.now) }
    {
        let mut all = self.share()?;
        for addr in addrs {
            all = all.without_addr(forge, vrf, intf, addr, new)?;
        }
        Ok(all)
    }

    // The index with the subnets of the addresses that the old record lacks.
    fn with_addrs(
        &self,
        forge: &Forge,
        vrf: Vrf,
        intf: Intf,
        addrs: &[Addr],
        old: Option<&IntfRec>,
    ) -> Result<Subnets, NoMemory>
        ensures { IfOk result (λ s. s ≡ add_addrs vrf intf (has_addr (option_copied old.entry) vrf) addrs.now self.now) }
    {
        let mut all = self.share()?;
        for addr in addrs {
            all = all.with_addr(forge, vrf, intf, addr, old)?;
        }
        Ok(all)
    }

    // The index without the subnet of the address, where it has one that the new record lacks.
    fn without_addr(
        &self,
        forge: &Forge,
        vrf: Vrf,
        intf: Intf,
        addr: &Addr,
        new: Option<&IntfRec>,
    ) -> Result<Subnets, NoMemory>
        ensures { IfOk result (λ s. s ≡ cut_addrs vrf intf (keeps_subnet (option_copied new.entry) vrf) (addr.now ∷ []) self.now) }
    {
        if keeps_subnet(new, vrf, addr) {
            let index = self.share()?;
            return Ok(index);
        }
        if addr.ip().is_link_local() {
            let index = self.share()?;
            return Ok(index);
        }
        let prefix = addr.subnet();
        let index = self.without(forge, &Subnet { vrf, prefix, intf })?;
        Ok(index)
    }

    // The index with the subnet of the address, where it has one and the old record lacks the address.
    fn with_addr(
        &self,
        forge: &Forge,
        vrf: Vrf,
        intf: Intf,
        addr: &Addr,
        old: Option<&IntfRec>,
    ) -> Result<Subnets, NoMemory>
        ensures { IfOk result (λ s. s ≡ add_addrs vrf intf (has_addr (option_copied old.entry) vrf) (addr.now ∷ []) self.now) }
    {
        if has_addr(old, vrf, addr) {
            let index = self.share()?;
            return Ok(index);
        }
        let ip = addr.ip();
        if ip.is_link_local() {
            let index = self.share()?;
            return Ok(index);
        }
        let prefix = addr.subnet();
        let index = self.with(forge, &Subnet { vrf, prefix, intf })?;
        Ok(index)
    }

    // The index with the subnet.
    fn with(&self, forge: &Forge, subnet: &Subnet) -> Result<Subnets, NoMemory>
        ensures { IfOk result (λ s. s ≡ insert subnet_cmp subnet.now self.now) }
    {
        let keys = self.keys.with(forge, subnet_key(subnet))?;
        Ok(Subnets { keys })
    }

    // The index without the subnet.
    fn without(&self, forge: &Forge, subnet: &Subnet) -> Result<Subnets, NoMemory>
        ensures { IfOk result (λ s. s ≡ delete subnet_cmp subnet.now self.now) }
    {
        let keys = self.keys.without(forge, &subnet_key(subnet))?;
        Ok(Subnets { keys })
    }
}
