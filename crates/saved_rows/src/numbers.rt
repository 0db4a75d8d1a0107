// Numbers in their ranges.
ghost use Rattle.std.specs.Prelude.{◌≡◌};
ghost use Rattle.serde_json.specs.View.{view};
ghost use Rattle.saved_rows.specs.Values.{client_of, intf_number_of, port_number_of, slot_of, vlan_number_of, vrf_of};

use json_form::number;
use net_types::{Client, Intf, Port, Vlan, Vrf};
use serde_json::Value;

/// The slot of a row of the chip.
pub(crate) fn read_slot(value: &Value) -> Option<u32>
    ensures { result ≡ slot_of (view value.now) }
{
    let number = number(value, 0, 4_294_967_295)?;
    Some(number as u32)
}

pub(crate) fn read_vrf(value: &Value) -> Option<Vrf>
    ensures { result ≡ vrf_of (view value.now) }
{
    let number = number(value, 0, 65535)?;
    Vrf::new(number as u16)
}

pub(crate) fn read_vlan(value: &Value) -> Option<Vlan>
    ensures { result ≡ vlan_number_of (view value.now) }
{
    let number = number(value, 1, 4094)?;
    Vlan::new(number as u16)
}

pub(crate) fn read_port(value: &Value) -> Option<Port>
    ensures { result ≡ port_number_of (view value.now) }
{
    let number = number(value, 1, 1024)?;
    Port::new(number as u16)
}

pub(crate) fn read_intf(value: &Value) -> Option<Intf>
    ensures { result ≡ intf_number_of (view value.now) }
{
    let number = number(value, 1, 4_294_967_295)?;
    Intf::new(number as u32)
}

#[tactic(auto, using(crate::proofs::ValueForms::client_found))]
pub(crate) fn read_client(value: &Value) -> Option<Client>
    ensures { result ≡ client_of (view value.now) }
{
    let number = number(value, 0, 4)?;
    Client::of_number(number as u8)
}
