// The kinds of acts.
ghost use Rattle.state_update.specs.Kind.{IsOfKind};

use switch_model::Act;

/// What an act is on.
#[derive(Clone, Copy, Debug, PartialEq, Eq)]
pub(crate) enum Kind {
    /// VLANs, ports, interfaces and addresses.
    Ports,
    /// Neighbours and stations.
    Neighbors,
    Routes,
}

pub(crate) fn kind_of(act: &Act) -> Kind
    ensures { IsOfKind act.now result }
{
    match act {
        Act::VlanAdd { .. }
        | Act::VlanDel { .. }
        | Act::PortAdd { .. }
        | Act::PortDel { .. }
        | Act::PortVlan { .. }
        | Act::PortUp { .. }
        | Act::PortDown { .. }
        | Act::IntfAdd { .. }
        | Act::IntfDel { .. }
        | Act::AddrAdd { .. }
        | Act::AddrDel { .. } => Kind::Ports,
        Act::NeighborSet { .. }
        | Act::NeighborPending { .. }
        | Act::NeighborDel { .. }
        | Act::MacSet { .. }
        | Act::MacDel { .. } => Kind::Neighbors,
        Act::RouteSet { .. } | Act::RouteDel { .. } | Act::ClientSync { .. } => Kind::Routes,
    }
}
