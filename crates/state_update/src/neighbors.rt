// What acts on neighbours and stations do.
ghost use Rattle.std.specs.Prelude.{◌≡◌, OnOk};
ghost use Rattle.keyed.specs.Keyed.{put, without};
ghost use Rattle.switch_model.specs.Effect.{neighbor_effect};
ghost use Rattle.switch_model.specs.StateKeys.{neighbor_cmp};
ghost use Rattle.switch_state.specs.EditKeys.{neighbor_key};
ghost use Rattle.switch_model.specs.Touched.{touched, touched_neighbor};
ghost use Rattle.switch_state.specs.Plain.{plain};
ghost use Rattle.state_update.specs.Births.{KeepsRest};

use net_types::{Intf, Ip, Mac, NoMemory, Port, Vlan};
use switch_model::{Act, MacRec, NeighborRec};
use switch_state::StateEdit;

/// Does an act on neighbours or stations. Other acts do nothing here.
pub(crate) fn change_neighbors(edit: &mut StateEdit, act: &Act) -> Result<(), NoMemory>
    ensures effect { OnOk result (plain edit.new.state ≡ neighbor_effect (plain edit.old.state) act.now) }
    ensures rest { KeepsRest (touched (plain edit.old.state) act.now) edit.old edit.new }
{
    match act {
        Act::NeighborSet {
            intf,
            ip,
            mac,
            port,
        } => put_neighbor(edit, (*intf, *ip), reachable(*mac, *port)),
        Act::NeighborPending { intf, ip } => {
            put_neighbor(edit, (*intf, *ip), NeighborRec::Pending)
        }
        Act::NeighborDel { intf, ip } => cut_neighbor(edit, (*intf, *ip)),
        Act::MacSet { vlan, mac, port } => put_station(edit, (*vlan, *mac), *port),
        Act::MacDel { vlan, mac } => cut_station(edit, (*vlan, *mac)),
        _ => Ok(()),
    }
}

fn reachable(mac: Mac, port: Port) -> NeighborRec
    ensures { result ≡ NeighborRec.Reachable mac port }
{
    NeighborRec::Reachable { mac, port }
}

// By ARP or by NDP, as the family of the ip says.
fn put_neighbor(edit: &mut StateEdit, key: (Intf, Ip), rec: NeighborRec) -> Result<(), NoMemory>
    ensures effect { OnOk result (plain edit.new.state ≡ record (plain edit.old.state) { neighbors = put neighbor_cmp (neighbor_key key) rec (plain edit.old.state).neighbors }) }
    ensures rest { KeepsRest (touched_neighbor key.0 key.1) edit.old edit.new }
{
    match key.1 {
        Ip::V4(_) => edit.put_arp(key, rec),
        Ip::V6(_) => edit.put_ndp(key, rec),
    }
}

fn cut_neighbor(edit: &mut StateEdit, key: (Intf, Ip)) -> Result<(), NoMemory>
    ensures effect { OnOk result (plain edit.new.state ≡ record (plain edit.old.state) { neighbors = without neighbor_cmp (neighbor_key key) (plain edit.old.state).neighbors }) }
    ensures rest { KeepsRest (touched_neighbor key.0 key.1) edit.old edit.new }
{
    match key.1 {
        Ip::V4(_) => {
            edit.arps().shape();
            edit.cut_arp(key)
        }
        Ip::V6(_) => {
            edit.ndps().shape();
            edit.cut_ndp(key)
        }
    }
}

fn put_station(edit: &mut StateEdit, key: (Vlan, Mac), port: Port) -> Result<(), NoMemory>
    ensures effect { OnOk result (plain edit.new.state ≡ neighbor_effect (plain edit.old.state) (Act.MacSet key.0 key.1 port)) }
    ensures rest { KeepsRest (touched (plain edit.old.state) (Act.MacSet key.0 key.1 port)) edit.old edit.new }
{
    edit.put_mac(key, MacRec { port })
}

fn cut_station(edit: &mut StateEdit, key: (Vlan, Mac)) -> Result<(), NoMemory>
    ensures effect { OnOk result (plain edit.new.state ≡ neighbor_effect (plain edit.old.state) (Act.MacDel key.0 key.1)) }
    ensures rest { KeepsRest (touched (plain edit.old.state) (Act.MacDel key.0 key.1)) edit.old edit.new }
{
    edit.macs().shape();
    edit.cut_mac(key)
}
