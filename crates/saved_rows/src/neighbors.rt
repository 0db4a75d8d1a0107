// The rows of neighbours.
ghost use Rattle.std.specs.Prelude.{◌≡◌, IfOk, OnOk, option_map};
ghost use Rattle.switch_model.specs.StateKeys.{neighbor_cmp};
ghost use Rattle.serde_json.specs.View.{view};
ghost use Rattle.saved_rows.specs.StateRows.{IsNeighborRow, by_key, neighbor_json, neighbor_of, pending, pending_of, reachable, reachable_of};

use crate::numbers::{read_intf, read_port};
use crate::texts::{Ips, Macs, printed_value, read_printed};
use json_form::{RowReader, four, pair};
use net_types::{Mac, NoMemory, Port};
use serde_json::{Value, json};
use std::alloc::{AllocError, Global};
use switch_model::{NeighborKey, NeighborRec, compare_neighbor_keys};

/// What reads the rows of neighbours.
pub struct NeighborReader;

impl RowReader for NeighborReader {
    type Row = (NeighborKey, NeighborRec);

    ghost row_of = { neighbor_of };

    ghost order = { by_key neighbor_cmp };

    fn read(alloc: Global, item: &Value) -> Result<Option<(NeighborKey, NeighborRec)>, AllocError> {
        if let Some(row) = read_pending(alloc, item)? {
            return Ok(Some(row));
        }
        let row = read_reachable(alloc, item)?;
        Ok(row)
    }

    fn is_before(row: &(NeighborKey, NeighborRec), next: &(NeighborKey, NeighborRec)) -> bool {
        compare_neighbor_keys(&row.0, &next.0).is_lt()
    }
}

fn read_pending(alloc: Global, item: &Value) -> Result<Option<(NeighborKey, NeighborRec)>, NoMemory>
    ensures { IfOk result (λ row. row ≡ option_map pending (pending_of (view item.now))) }
{
    let Some((intf, ip)) = pair(item) else {
        return Ok(None);
    };
    let Some(intf) = read_intf(intf) else {
        return Ok(None);
    };
    let Some(ip) = read_printed::<Ips>(alloc, ip)? else {
        return Ok(None);
    };
    Ok(Some((NeighborKey { intf, ip }, NeighborRec::Pending)))
}

fn read_reachable(
    alloc: Global,
    item: &Value,
) -> Result<Option<(NeighborKey, NeighborRec)>, NoMemory>
    ensures { IfOk result (λ row. row ≡ option_map reachable (reachable_of (view item.now))) }
{
    let Some((intf, ip, mac, port)) = four(item) else {
        return Ok(None);
    };
    let Some(intf) = read_intf(intf) else {
        return Ok(None);
    };
    let Some(ip) = read_printed::<Ips>(alloc, ip)? else {
        return Ok(None);
    };
    let Some(mac) = read_printed::<Macs>(alloc, mac)? else {
        return Ok(None);
    };
    let Some(port) = read_port(port) else {
        return Ok(None);
    };
    Ok(Some((
        NeighborKey { intf, ip },
        NeighborRec::Reachable { mac, port },
    )))
}

/// The row of a neighbour.
pub fn neighbor_value(
    alloc: Global,
    key: &NeighborKey,
    rec: &NeighborRec,
) -> Result<Value, NoMemory>
    ensures value { IfOk result (λ v. view v ≡ neighbor_json (key.now, rec.now)) }
    ensures legal { OnOk result (IsNeighborRow (key.now, rec.now)) }
{
    match rec {
        NeighborRec::Pending => pending_value(alloc, key),
        NeighborRec::Reachable { mac, port } => reachable_value(alloc, key, mac, port),
    }
}

fn pending_value(alloc: Global, key: &NeighborKey) -> Result<Value, NoMemory>
    ensures value { IfOk result (λ v. view v ≡ neighbor_json (pending (key.now.intf, key.now.ip))) }
    ensures legal { OnOk result (IsNeighborRow (pending (key.now.intf, key.now.ip))) }
{
    let ip = printed_value::<Ips>(alloc, &key.ip)?;
    json!(in alloc; [key.intf.get(), ip])
}

fn reachable_value(
    alloc: Global,
    key: &NeighborKey,
    mac: &Mac,
    port: &Port,
) -> Result<Value, NoMemory>
    ensures value { IfOk result (λ v. view v ≡ neighbor_json (reachable (key.now.intf, key.now.ip, mac.now, port.now))) }
    ensures legal { OnOk result (IsNeighborRow (reachable (key.now.intf, key.now.ip, mac.now, port.now))) }
{
    let ip = printed_value::<Ips>(alloc, &key.ip)?;
    let mac = printed_value::<Macs>(alloc, mac)?;
    json!(in alloc; [key.intf.get(), ip, mac, port.get()])
}
