// The maps that best routes are looked up in.
ghost use Rattle.std.specs.Prelude.{◌≡◌, All, option_copied, option_map};
ghost use Rattle.std.specs.Ordering.{nat_cmp};
ghost use Rattle.keyed.specs.Keyed.{Ascends, at};
ghost use Rattle.keyed.specs.Ranges.{head_of, keys_of, keys_onward, keys_past, keys_up_to, last_of, onward};
ghost use Rattle.switch_model.specs.StateKeys.{rib_cmp};
ghost use Rattle.state_keys.specs.PartKeys.{intf_of, IsIntfNumber, IsRibNumber};
ghost use Rattle.state_scan.specs.Listed.{listed};
ghost use Rattle.subnet_index.specs.SubnetKey.{subnet_cmp};
ghost use Rattle.subnet_index.specs.SubnetList.{subnets_in};
ghost use Rattle.route_laws.specs.Match.{ArePrefixes};
ghost use Rattle.rib_lookup.specs.Tables.{AreSubnets, rib_over};

use key_set::KeyWalk;
use net_types::{Intf, Vrf};
use node_core::Node;
use node_map::{NodeKey, NodeMap, Walk};
use state_keys::{intf_key, rib_key, rib_of};
use state_scan::record_under;
use std::marker::Model;
use subnet_index::{Subnet, Subnets, subnet_at, subnet_key};
use switch_model::{IntfRec, RibKey, RouteRec};

/// The best routes of a state, by its routes, its interfaces, and the index of their subnets.
#[derive(Drop)]
pub struct RibView<'a> {
    routes: &'a NodeMap<RouteRec>,
    intfs: &'a NodeMap<IntfRec>,
    subnets: &'a Subnets,
}

impl<'a> Model for RibView<'a> {
    ghost use Rattle.switch_model.specs.PlainState.{Rib};
    ghost use Rattle.rib_lookup.specs.Tables.{AreTables, rib_over};

    ghost Value = { Rib };

    ghost view = { λ v. rib_over v.intfs.now.entries v.routes.now.entries };

    ghost invariant = { λ v. AreTables v.intfs.now.entries v.routes.now.entries v.subnets.now };
}

impl<'a> RibView<'a> {
    /// The best routes of these routes and interfaces, whose subnets are in the index.
    pub fn of(
        routes: &'a NodeMap<RouteRec>,
        intfs: &'a NodeMap<IntfRec>,
        subnets: &'a Subnets,
    ) -> RibView<'a>
        requires routes { All (λ e. IsRibNumber e.0) routes.now.entries }
        requires intfs { All (λ e. IsIntfNumber e.0) intfs.now.entries }
        requires subnets { subnets.now ≡ subnets_in (listed intf_of intfs.now.entries) }
        ensures { result ≡ rib_over intfs.now.entries routes.now.entries }
    {
        RibView {
            routes,
            intfs,
            subnets,
        }
    }

    /// What holds of what every view is over. It does nothing when it runs.
    pub fn shape(&self)
        ensures routes { Ascends rib_cmp self.now.routes }
        ensures intfs { Ascends nat_cmp self.now.intfs }
        ensures subnets { AreSubnets self.now.intfs (subnets_in self.now.intfs) }
        ensures prefixes { ArePrefixes self.now }
    {
        self.routes.shape();
        self.intfs.shape();
        let _ = self.subnets.keys();
    }

    /// The VRF of an interface.
    pub(crate) fn vrf_of(&self, intf: Intf) -> Option<Vrf>
        ensures { result ≡ option_map (λ r. r.vrf) (at nat_cmp intf self.now.intfs) }
    {
        match record_under(self.intfs, &intf_key(intf)) {
            None => None,
            Some(rec) => Some(rec.vrf),
        }
    }

    /// The first route whose key isn't below the key.
    pub(crate) fn route_from(&self, key: &RibKey) -> Option<(RibKey, &RouteRec)>
        ensures { option_map (λ e. (e.0, e.1.now)) result ≡ head_of (onward rib_cmp key.now self.now.routes) }
    {
        match first_entry(self.routes.walk_from(&rib_key(key))) {
            None => None,
            Some((number, node)) => Some((rib_of(number), node.value())),
        }
    }

    /// The first key of a route past the key.
    pub(crate) fn route_after(&self, key: &RibKey) -> Option<RibKey>
        ensures { result ≡ head_of (keys_past rib_cmp key.now (keys_of self.now.routes)) }
    {
        match self.routes.after(&rib_key(key)) {
            None => None,
            Some((number, _)) => Some(rib_of(number)),
        }
    }

    /// The first key of a route.
    pub(crate) fn first_route(&self) -> Option<RibKey>
        ensures { result ≡ head_of (keys_of self.now.routes) }
    {
        match first_entry(self.routes.walk()) {
            None => None,
            Some((number, _)) => Some(rib_of(number)),
        }
    }

    /// The last key of a route that isn't above the key.
    pub(crate) fn route_last_to(&self, key: &RibKey) -> Option<RibKey>
        ensures { result ≡ last_of (keys_up_to rib_cmp key.now (keys_of self.now.routes)) }
    {
        match self.routes.last_to(&rib_key(key)) {
            None => None,
            Some((number, _)) => Some(rib_of(number)),
        }
    }

    /// The first subnet that isn't below the key.
    pub(crate) fn subnet_from(&self, key: &Subnet) -> Option<Subnet>
        ensures { result ≡ head_of (keys_onward subnet_cmp key.now (subnets_in self.now.intfs)) }
    {
        match first_key(self.subnets.keys().walk_from(&subnet_key(key))) {
            None => None,
            Some(number) => Some(subnet_at(number)),
        }
    }

    /// The first subnet past the key.
    pub(crate) fn subnet_after(&self, key: &Subnet) -> Option<Subnet>
        ensures { result ≡ head_of (keys_past subnet_cmp key.now (subnets_in self.now.intfs)) }
    {
        match self.subnets.keys().after(&subnet_key(key)) {
            None => None,
            Some(number) => Some(subnet_at(number)),
        }
    }

    /// The first subnet.
    pub(crate) fn first_subnet(&self) -> Option<Subnet>
        ensures { result ≡ head_of (subnets_in self.now.intfs) }
    {
        match first_key(self.subnets.keys().walk()) {
            None => None,
            Some(number) => Some(subnet_at(number)),
        }
    }

    /// The last subnet that isn't above the key.
    pub(crate) fn subnet_last_to(&self, key: &Subnet) -> Option<Subnet>
        ensures { result ≡ last_of (keys_up_to subnet_cmp key.now (subnets_in self.now.intfs)) }
    {
        match self.subnets.keys().last_to(&subnet_key(key)) {
            None => None,
            Some(number) => Some(subnet_at(number)),
        }
    }
}

// The first entry of a walk.
fn first_entry<'a, T>(walk: Walk<'a, T>) -> Option<(&'a NodeKey, &'a Node<T>)>
    ensures { option_map (λ e. (e.0.now, e.1.now)) result ≡ head_of walk.entry }
{
    let mut walk = walk;
    walk.next()
}

// The first key of a walk.
fn first_key<'a>(walk: KeyWalk<'a>) -> Option<&'a NodeKey>
    ensures { option_copied result ≡ head_of walk.entry }
{
    let mut walk = walk;
    walk.next()
}
