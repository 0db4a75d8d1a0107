// Acts on VLANs and ports.
ghost use Rattle.std.specs.Prelude.{◌≡◌, ◌∷◌, []};
ghost use Rattle.switch_model.specs.First.{first_that_holds};
ghost use Rattle.switch_model.specs.Facts.{has_vlan, no_port};
ghost use Rattle.switch_model.specs.Reason.{port_reasons};

use net_types::{Port, Vlan};
use switch_model::{Act, Lookup, Reason};

pub(crate) fn vlan_add<L: Lookup>(state: &L, vlan: Vlan) -> Option<Reason>
    ensures { result ≡ first_that_holds ((Reason.VlanExists, has_vlan (L.plain state.now) vlan) ∷ []) }
{
    if state.vlan(vlan) {
        return Some(Reason::VlanExists);
    }
    None
}

pub(crate) fn vlan_del<L: Lookup>(state: &L, vlan: Vlan) -> Option<Reason>
    ensures { result ≡ first_that_holds (port_reasons (L.plain state.now) (Act.VlanDel vlan)) }
{
    if !state.vlan(vlan) {
        return Some(Reason::NoVlan);
    }
    if state.vlan_used(vlan) {
        return Some(Reason::VlanInUse);
    }
    None
}

pub(crate) fn port_add<L: Lookup>(state: &L, port: Port, vlan: Vlan) -> Option<Reason>
    ensures { result ≡ first_that_holds (port_reasons (L.plain state.now) (Act.PortAdd port vlan)) }
{
    if !state.vlan(vlan) {
        return Some(Reason::NoVlan);
    }
    if state.port(port).is_some() {
        return Some(Reason::PortExists);
    }
    None
}

pub(crate) fn port_del<L: Lookup>(state: &L, port: Port) -> Option<Reason>
    ensures { result ≡ first_that_holds (port_reasons (L.plain state.now) (Act.PortDel port)) }
{
    if state.port(port).is_none() {
        return Some(Reason::NoPort);
    }
    if state.port_used(port) {
        return Some(Reason::PortInUse);
    }
    None
}

pub(crate) fn port_vlan<L: Lookup>(state: &L, port: Port, vlan: Vlan) -> Option<Reason>
    ensures { result ≡ first_that_holds (port_reasons (L.plain state.now) (Act.PortVlan port vlan)) }
{
    if !state.vlan(vlan) {
        return Some(Reason::NoVlan);
    }
    if state.port(port).is_none() {
        return Some(Reason::NoPort);
    }
    if state.port_used(port) {
        return Some(Reason::PortInUse);
    }
    None
}

pub(crate) fn port_flip<L: Lookup>(state: &L, port: Port) -> Option<Reason>
    ensures { result ≡ first_that_holds ((Reason.NoPort, no_port (L.plain state.now) port) ∷ []) }
{
    if state.port(port).is_none() {
        return Some(Reason::NoPort);
    }
    None
}
