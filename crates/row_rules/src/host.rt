// The row of a host, and whether it is live.
ghost use Rattle.std.specs.Prelude.{◌≡◌, Some};
ghost use Rattle.switch_model.specs.PlainState.{neighbor_at};
ghost use Rattle.switch_model.specs.Rows.{host_act, host_row, live, is_live_neighbor, neighbor_of_host};

use crate::station::is_up;
use net_types::{HostAct, HostKey, HostRow, Intf, Ip};
use switch_model::{Lookup, NeighborRec};

/// Whether a host is live: its neighbour is reachable, by a port that is up. It takes no memory.
pub fn live<L: Lookup>(l: &L, intf: Intf, ip: Ip) -> bool
    ensures { result ≡ live (L.plain l.now) (record { ip = ip; intf = intf }) }
{
    match l.neighbor(intf, ip) {
        Some(neighbor) => is_live(l, &neighbor),
        None => false,
    }
}

fn is_live<L: Lookup>(l: &L, neighbor: &NeighborRec) -> bool
    ensures { result ≡ is_live_neighbor (L.plain l.now) (Some neighbor.now) }
{
    match neighbor {
        NeighborRec::Reachable { port, .. } => is_up(l, *port),
        NeighborRec::Pending => false,
    }
}

/// The row of a host in the host table: none where its interface isn't there. Packets to a host
/// without a reachable neighbour are trapped to the CPU. It takes no memory.
pub fn host_row<L: Lookup>(l: &L, key: &HostKey) -> Option<HostRow>
    ensures { result ≡ host_row (L.plain l.now) key.now }
{
    match l.intf(key.intf) {
        Some(intf) => Some(HostRow {
            vrf: intf.vrf,
            act: host_act(l, key),
        }),
        None => None,
    }
}

fn host_act<L: Lookup>(l: &L, key: &HostKey) -> HostAct
    ensures { result ≡ host_act (L.plain l.now) (neighbor_at (L.plain l.now) (neighbor_of_host key.now)) }
{
    match l.neighbor(key.intf, key.ip) {
        Some(neighbor) => act_by(l, &neighbor),
        None => HostAct::Trap,
    }
}

fn act_by<L: Lookup>(l: &L, neighbor: &NeighborRec) -> HostAct
    ensures { result ≡ host_act (L.plain l.now) (Some neighbor.now) }
{
    match neighbor {
        NeighborRec::Reachable { mac, port } => HostAct::Forward {
            mac: *mac,
            port: *port,
            up: is_up(l, *port),
        },
        NeighborRec::Pending => HostAct::Trap,
    }
}
