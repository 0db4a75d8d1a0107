// The indexes of interfaces together.
ghost use Rattle.std.specs.Prelude.{◌≡◌, ◌==◌, ◌&&◌, ℕ, [], List, IfOk, option_map, find};
ghost use Rattle.std.specs.List.{list_any};
ghost use Rattle.std.specs.Option.{option_copied};
ghost use Rattle.std.specs.Ordering.{nat_cmp};
ghost use Rattle.keyed.specs.Keyed.{at, Ascends};
ghost use Rattle.net_types.specs.Prefix.{overlaps};
ghost use Rattle.switch_model.specs.declared.record.IntfRec.{IntfRec};
ghost use Rattle.switch_model.specs.Addresses.{subnets};
ghost use Rattle.switch_model.specs.Facts.{is_other};
ghost use Rattle.state_index.specs.IntfIndex.{indexed};
ghost use Rattle.subnet_index.specs.Index.{entry_changed};

use crate::members::Members;
use net_types::{Intf, NoMemory, Prefix, Vlan, Vrf};
use node_core::Forge;
use std::marker::Model;
use subnet_index::Subnets;
use switch_model::IntfRec;

/// The subnets of interfaces, and the interfaces by VLAN. It is shared and never changed: a change
/// gives a new index.
#[derive(Drop)]
pub struct IntfIndex {
    subnets: Subnets,
    members: Members,
}

impl Model for IntfIndex {
    ghost use Rattle.state_index.specs.IntfIndex.{IndexView};

    ghost Value = { IndexView };

    ghost view = { λ i. record { subnets = i.subnets; members = i.members } };
}

impl IntfIndex {
    /// The index of no interfaces.
    pub fn new() -> IntfIndex
        ensures { result ≡ indexed [] }
    {
        IntfIndex {
            subnets: Subnets::new(),
            members: Members::new(),
        }
    }

    /// One more owner of the same index.
    pub fn share(&self) -> Result<IntfIndex, NoMemory>
        ensures { IfOk result (λ i. i ≡ self.now) }
    {
        let subnets = self.subnets.share()?;
        let members = self.members.share()?;
        Ok(IntfIndex { subnets, members })
    }

    /// The subnets, by VRF and prefix.
    pub fn subnets(&self) -> &Subnets
        ensures { result.now ≡ self.now.subnets }
    {
        &self.subnets
    }

    /// The index once the interface under the number has the new record in place of the old one,
    /// where there are any. After a refusal of memory the index is as it was.
    pub fn change(
        &self,
        forge: &Forge,
        intf: Intf,
        old: Option<&IntfRec>,
        new: Option<&IntfRec>,
    ) -> Result<IntfIndex, NoMemory>
        ensures { (intfs : List (ℕ × IntfRec)) → Ascends nat_cmp intfs → self.now ≡ indexed intfs → at nat_cmp intf intfs ≡ option_copied old.entry → IfOk result (λ i. i ≡ indexed (entry_changed nat_cmp intf (option_copied new.entry) intfs)) }
    {
        let subnets = self.subnets.change(forge, intf, old, new)?;
        let members = self.members.change(forge, intf, old, new)?;
        Ok(IntfIndex { subnets, members })
    }

    /// The first interface of the VLAN. It takes no memory.
    pub fn intf_of_vlan(&self, vlan: Vlan) -> Option<Intf>
        ensures { (intfs : List (ℕ × IntfRec)) → Ascends nat_cmp intfs → self.now ≡ indexed intfs → result ≡ option_map (λ e. e.0) (find (λ e. e.1.vlan == vlan) intfs) }
    {
        self.members.first_of(vlan)
    }

    /// Whether the prefix overlaps a subnet of another one of the interfaces, in that VRF. It takes
    /// no memory.
    pub fn overlaps_other(&self, intf: Intf, vrf: Vrf, prefix: &Prefix) -> bool
        ensures { (intfs : List (ℕ × IntfRec)) → self.now ≡ indexed intfs → result ≡ list_any (λ e. is_other intf vrf e && list_any (overlaps prefix.now) (subnets e.1.addrs)) intfs }
    {
        self.subnets.overlaps_other(intf, vrf, prefix)
    }
}
