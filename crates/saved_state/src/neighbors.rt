// The neighbours of a state as one list, by interface and then ip.
ghost use Rattle.std.specs.Prelude.{◌≡◌, All, IfOk, OnOk};
ghost use Rattle.std.specs.Ordering.{is_lt};
ghost use Rattle.keyed.specs.Keyed.{Ascends};
ghost use Rattle.serde_json.specs.View.{view};
ghost use Rattle.switch_model.specs.StateKeys.{neighbor_cmp};
ghost use Rattle.state_keys.specs.PartKeys.{IsArpNumber, IsNdpNumber, arp_of, ndp_of};
ghost use Rattle.state_scan.specs.Listed.{listed};
ghost use Rattle.state_scan.specs.Neighbors.{AreNeighbors, neighbors};
ghost use Rattle.state_scan.specs.Together.{together};
ghost use Rattle.json_form.specs.Lists.{rows_json};
ghost use Rattle.saved_rows.specs.StateRows.{IsNeighborRow, neighbor_json};
ghost use Rattle.saved_state.specs.Merging.{AreOfFamily, IsPushed};

use json_form::{RowWriter, write_rows};
use net_types::NoMemory;
use node_map::NodeMap;
use saved_rows::neighbor_value;
use serde_json::Value;
use state_keys::{arp_of, ndp_of};
use std::alloc::{AllocError, Global};
use switch_model::{NeighborKey, NeighborRec, compare_neighbor_keys};

type Neighbor = (NeighborKey, NeighborRec);

// What writes the rows of neighbours.
struct NeighborWriter;

impl RowWriter for NeighborWriter {
    type Row = (NeighborKey, NeighborRec);

    ghost json_of = { neighbor_json };

    ghost legal = { IsNeighborRow };

    fn write(alloc: Global, row: &(NeighborKey, NeighborRec)) -> Result<Value, AllocError> {
        neighbor_value(alloc, &row.0, &row.1)
    }
}

/// The value that lists the neighbours by ARP and by NDP, by interface and then ip.
pub(crate) fn neighbors_value(
    alloc: Global,
    arps: &NodeMap<NeighborRec>,
    ndps: &NodeMap<NeighborRec>,
) -> Result<Value, NoMemory>
    requires { AreNeighbors arps.now ndps.now }
    ensures value { IfOk result (λ v. view v ≡ rows_json neighbor_json (neighbors arps.now ndps.now)) }
    ensures legal { OnOk result (All IsNeighborRow (neighbors arps.now ndps.now)) }
{
    let arps = arp_rows(alloc, arps)?;
    let ndps = ndp_rows(alloc, ndps)?;
    let rows = merged(alloc, arps.as_slice(), ndps.as_slice())?;
    let value = write_rows::<NeighborWriter>(alloc, rows.as_slice())?;
    Ok(value)
}

#[tactic(auto, using(crate::proofs::Walked::all_listed))]
fn arp_rows(alloc: Global, map: &NodeMap<NeighborRec>) -> Result<Vec<Neighbor>, NoMemory>
    requires { All (λ e. IsArpNumber e.0) map.now.entries }
    ensures { IfOk result (λ rows. rows.items ≡ listed arp_of map.now.entries) }
{
    let mut rows = Vec::new(alloc);
    for (key, node) in map.walk() {
        rows.push((arp_of(key), *node.value()))?;
    }
    Ok(rows)
}

#[tactic(auto, using(crate::proofs::Walked::all_listed))]
fn ndp_rows(alloc: Global, map: &NodeMap<NeighborRec>) -> Result<Vec<Neighbor>, NoMemory>
    requires { All (λ e. IsNdpNumber e.0) map.now.entries }
    ensures { IfOk result (λ rows. rows.items ≡ listed ndp_of map.now.entries) }
{
    let mut rows = Vec::new(alloc);
    for (key, node) in map.walk() {
        rows.push((ndp_of(key), *node.value()))?;
    }
    Ok(rows)
}

// Neighbours of IPv4 and of IPv6 as one list.
#[tactic(auto, using(crate::proofs::Merges::all_merged))]
fn merged(alloc: Global, arps: &[Neighbor], ndps: &[Neighbor]) -> Result<Vec<Neighbor>, NoMemory>
    requires ascending { Ascends neighbor_cmp arps.now }
    requires arps { AreOfFamily 0 arps.now }
    requires ndps { AreOfFamily 1 ndps.now }
    ensures { IfOk result (λ rows. rows.items ≡ together neighbor_cmp arps.now ndps.now) }
{
    let mut rows = Vec::new(alloc);
    let mut left = ndps;
    let mut rest = arps;
    while let Some((arp, behind)) = rest.split_first() {
        let later = push_before(&mut rows, left, &arp.0)?;
        rows.push(*arp)?;
        left = later;
        rest = behind;
    }
    rows.extend_from_slice(left)?;
    Ok(rows)
}

// Puts those that come before the key last, and tells which are left.
#[tactic(auto, using(crate::proofs::Merges::pushed_all))]
fn push_before<'a>(
    rows: &mut Vec<Neighbor>,
    ndps: &'a [Neighbor],
    key: &NeighborKey,
) -> Result<&'a [Neighbor], NoMemory>
    ensures { IfOk result (λ left. IsPushed key.now ndps.now left.now rows.old.items rows.new.items) }
{
    let mut left = ndps;
    while let Some((row, behind)) = left.split_first() {
        if !is_before(row, key) {
            return Ok(left);
        }
        rows.push(*row)?;
        left = behind;
    }
    Ok(left)
}

fn is_before(row: &Neighbor, key: &NeighborKey) -> bool
    ensures { result ≡ is_lt (neighbor_cmp row.now.0 key.now) }
{
    compare_neighbor_keys(&row.0, key).is_lt()
}
