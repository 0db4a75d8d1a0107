// The row of a station.
ghost use Rattle.std.specs.Prelude.{◌≡◌, option_map};
ghost use Rattle.switch_model.specs.PlainState.{mac_at, port_at};
ghost use Rattle.switch_model.specs.Rows.{is_up, l2_row};

use net_types::{L2Key, L2Row, Port};
use switch_model::Lookup;

/// The row of a station in the l2 table: none where the station isn't there. It takes no memory.
pub fn l2_row<L: Lookup>(l: &L, key: &L2Key) -> Option<L2Row>
    ensures { result ≡ option_map (l2_row (L.plain l.now)) (mac_at (L.plain l.now) key.now) }
{
    match l.mac(key.vlan, key.mac) {
        Some(station) => Some(L2Row {
            port: station.port,
            up: is_up(l, station.port),
        }),
        None => None,
    }
}

/// Whether the port is there and up.
pub(crate) fn is_up<L: Lookup>(l: &L, port: Port) -> bool
    ensures { result ≡ is_up (port_at (L.plain l.now) port) }
{
    match l.port(port) {
        Some(rec) => rec.up,
        None => false,
    }
}
