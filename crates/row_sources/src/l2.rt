// The rows of the l2 table.
ghost use Rattle.std.specs.Prelude.{◌≡◌, ◌++◌, ◌∷◌, [], IfOk, OnOk};
ghost use Rattle.state_keys.specs.PartKeys.{IsStationNumber, station_of};
ghost use Rattle.switch_model.specs.PlainState.{port_at};
ghost use Rattle.switch_model.specs.Rows.{is_up, l2_row, rows};
ghost use Rattle.switch_state.specs.Plain.{plain};

use net_types::{L2Key, L2Row, NoMemory, Port};
use node_map::NodeKey;
use state_keys::station_of;
use std::alloc::Global;
use switch_model::{Lookup, MacRec};
use switch_state::SwitchState;

/// The rows of the l2 table, by ascending key: one for each station.
pub fn l2_rows(alloc: Global, state: &SwitchState) -> Result<Vec<(L2Key, L2Row)>, NoMemory>
    ensures { IfOk result (λ list. list.items ≡ (rows (plain state.now)).l2) }
{
    let mut list = Vec::new(alloc);
    for (key, node) in state.macs() {
        add_station(&mut list, state, key, node.value())?;
    }
    Ok(list)
}

fn add_station(
    list: &mut Vec<(L2Key, L2Row)>,
    state: &SwitchState,
    key: &NodeKey,
    station: &MacRec,
) -> Result<(), NoMemory>
    requires { IsStationNumber key.now }
    ensures { OnOk result (list.new.items ≡ list.old.items ++ (station_of key.now, l2_row (plain state.now) station.now) ∷ []) }
{
    let port = station.port;
    let up = is_up(state, port);
    list.push((station_of(key), L2Row { port, up }))?;
    Ok(())
}

fn is_up(state: &SwitchState, port: Port) -> bool
    ensures { result ≡ is_up (port_at (plain state.now) port) }
{
    match state.port(port) {
        Some(rec) => rec.up,
        None => false,
    }
}
