// The rows of VLANs, ports, interfaces and stations.
ghost use Rattle.std.specs.Prelude.{◌≡◌, IfOk, OnOk};
ghost use Rattle.net_types.specs.KeyOrder.{l2_cmp};
ghost use Rattle.switch_model.specs.Addresses.{addr_cmp};
ghost use Rattle.serde_json.specs.View.{view};
ghost use Rattle.saved_rows.specs.StateRows.{IsIntfRow, IsPortRow, IsStationRow, IsVlanRow, by_key, by_number, intf_json, intf_of, port_json, port_of, station_json, station_of, vlan_json, vlan_of};
ghost use Rattle.saved_rows.specs.Values.{IsAddrText, addr_in, addr_json};

use crate::numbers::{read_intf, read_port, read_vlan, read_vrf};
use crate::texts::{Addrs, Macs, name_value, printed_value, read_name, read_printed};
use json_form::{RowReader, RowWriter, five, pair, read_rows, three, write_rows};
use net_types::{Addr, Intf, L2Key, Mac, NoMemory, Port, Vlan, Vrf, compare_ips, compare_l2_keys};
use serde_json::{Value, json};
use std::alloc::{AllocError, Global};
use std::marker::Model;
use switch_model::{IntfRec, MacRec, PortRec, VlanRec};

/// What reads the rows of VLANs.
pub struct VlanReader;

impl RowReader for VlanReader {
    type Row = (Vlan, VlanRec);

    ghost row_of = { vlan_of };

    ghost order = { by_number };

    fn read(alloc: Global, item: &Value) -> Result<Option<(Vlan, VlanRec)>, AllocError> {
        let Some((vlan, name)) = pair(item) else {
            return Ok(None);
        };
        let Some(vlan) = read_vlan(vlan) else {
            return Ok(None);
        };
        let Some(name) = read_name(alloc, name)? else {
            return Ok(None);
        };
        Ok(Some((vlan, VlanRec { name })))
    }

    fn is_before(row: &(Vlan, VlanRec), next: &(Vlan, VlanRec)) -> bool {
        row.0 < next.0
    }
}

/// The row of a VLAN.
pub fn vlan_value(alloc: Global, vlan: Vlan, rec: &VlanRec) -> Result<Value, NoMemory>
    ensures value { IfOk result (λ v. view v ≡ vlan_json (vlan, rec.now)) }
    ensures legal { OnOk result (IsVlanRow (vlan, rec.now)) }
{
    let name = name_value(alloc, &rec.name)?;
    json!(in alloc; [vlan.get(), name])
}

/// What reads the rows of ports.
pub struct PortReader;

impl RowReader for PortReader {
    type Row = (Port, PortRec);

    ghost row_of = { port_of };

    ghost order = { by_number };

    fn read(_alloc: Global, item: &Value) -> Result<Option<(Port, PortRec)>, AllocError> {
        Ok(read_port_row(item))
    }

    fn is_before(row: &(Port, PortRec), next: &(Port, PortRec)) -> bool {
        row.0 < next.0
    }
}

fn read_port_row(item: &Value) -> Option<(Port, PortRec)>
    ensures { result ≡ port_of (view item.now) }
{
    let (port, vlan, up) = three(item)?;
    let port = read_port(port)?;
    let vlan = read_vlan(vlan)?;
    let up = up.as_bool()?;
    Some((port, PortRec { vlan, up }))
}

/// The row of a port.
pub fn port_value(alloc: Global, port: Port, rec: &PortRec) -> Result<Value, NoMemory>
    ensures value { IfOk result (λ v. view v ≡ port_json (port, rec.now)) }
    ensures legal { OnOk result (IsPortRow (port, rec.now)) }
{
    json!(in alloc; [port.get(), rec.vlan.get(), rec.up])
}

/// An interface as it was read, with its addresses by ip. Contracts see its number and its record.
#[derive(Drop)]
pub struct SavedIntf {
    pub intf: Intf,
    pub vlan: Vlan,
    pub vrf: Vrf,
    pub mac: Mac,
    pub addrs: Vec<Addr>,
}

impl Model for SavedIntf {
    ghost use Rattle.std.specs.Prelude.{ℕ};
    ghost use Rattle.switch_model.specs.declared.record.IntfRec.{IntfRec};

    ghost Value = { ℕ × IntfRec };

    ghost view = { λ i. (i.intf, record { vlan = i.vlan; vrf = i.vrf; mac = i.mac; addrs = i.addrs.items }) };
}

/// What reads the rows of interfaces.
pub struct IntfReader;

impl RowReader for IntfReader {
    type Row = SavedIntf;

    ghost row_of = { intf_of };

    ghost order = { by_number };

    fn read(alloc: Global, item: &Value) -> Result<Option<SavedIntf>, AllocError> {
        let Some((intf, vlan, vrf, mac, addrs)) = five(item) else {
            return Ok(None);
        };
        let Some(intf) = read_intf(intf) else {
            return Ok(None);
        };
        let Some(vlan) = read_vlan(vlan) else {
            return Ok(None);
        };
        let Some(vrf) = read_vrf(vrf) else {
            return Ok(None);
        };
        let Some(mac) = read_printed::<Macs>(alloc, mac)? else {
            return Ok(None);
        };
        let Some(addrs) = read_rows::<AddrRows>(alloc, addrs)? else {
            return Ok(None);
        };
        Ok(Some(SavedIntf {
            intf,
            vlan,
            vrf,
            mac,
            addrs,
        }))
    }

    fn is_before(row: &SavedIntf, next: &SavedIntf) -> bool {
        row.intf < next.intf
    }
}

// The addresses of an interface, by ip.
struct AddrRows;

impl RowReader for AddrRows {
    type Row = Addr;

    ghost row_of = { addr_in };

    ghost order = { addr_cmp };

    fn read(alloc: Global, item: &Value) -> Result<Option<Addr>, AllocError> {
        read_printed::<Addrs>(alloc, item)
    }

    fn is_before(row: &Addr, next: &Addr) -> bool {
        compare_ips(&row.ip(), &next.ip()).is_lt()
    }
}

impl RowWriter for AddrRows {
    type Row = Addr;

    ghost json_of = { addr_json };

    ghost legal = { IsAddrText };

    fn write(alloc: Global, row: &Addr) -> Result<Value, AllocError> {
        printed_value::<Addrs>(alloc, row)
    }
}

/// The row of an interface.
pub fn intf_value(alloc: Global, intf: Intf, rec: &IntfRec) -> Result<Value, NoMemory>
    ensures value { IfOk result (λ v. view v ≡ intf_json (intf, rec.now)) }
    ensures legal { OnOk result (IsIntfRow (intf, rec.now)) }
{
    let mac = printed_value::<Macs>(alloc, &rec.mac)?;
    let addrs = write_rows::<AddrRows>(alloc, rec.addrs.as_slice())?;
    json!(in alloc; [intf.get(), rec.vlan.get(), rec.vrf.get(), mac, addrs])
}

/// What reads the rows of stations.
pub struct MacReader;

impl RowReader for MacReader {
    type Row = (L2Key, MacRec);

    ghost row_of = { station_of };

    ghost order = { by_key l2_cmp };

    fn read(alloc: Global, item: &Value) -> Result<Option<(L2Key, MacRec)>, AllocError> {
        let Some((vlan, mac, port)) = three(item) else {
            return Ok(None);
        };
        let Some(vlan) = read_vlan(vlan) else {
            return Ok(None);
        };
        let Some(mac) = read_printed::<Macs>(alloc, mac)? else {
            return Ok(None);
        };
        let Some(port) = read_port(port) else {
            return Ok(None);
        };
        Ok(Some((L2Key { vlan, mac }, MacRec { port })))
    }

    fn is_before(row: &(L2Key, MacRec), next: &(L2Key, MacRec)) -> bool {
        compare_l2_keys(&row.0, &next.0).is_lt()
    }
}

/// The row of a station.
pub fn mac_value(alloc: Global, key: &L2Key, rec: &MacRec) -> Result<Value, NoMemory>
    ensures value { IfOk result (λ v. view v ≡ station_json (key.now, rec.now)) }
    ensures legal { OnOk result (IsStationRow (key.now, rec.now)) }
{
    let mac = printed_value::<Macs>(alloc, &key.mac)?;
    json!(in alloc; [key.vlan.get(), mac, rec.port.get()])
}
