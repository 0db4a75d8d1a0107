// The rows of routes.
ghost use Rattle.std.specs.Prelude.{◌≡◌, IfOk, OnOk, option_map};
ghost use Rattle.net_types.specs.KeyOrder.{hop_cmp};
ghost use Rattle.switch_model.specs.declared.record.RouteRec.TheVariants as kept;
ghost use Rattle.switch_model.specs.StateKeys.{rib_cmp};
ghost use Rattle.serde_json.specs.View.{view};
ghost use Rattle.saved_rows.specs.StateRows.{IsKey, IsRibRow, by_key, key_of, rib_json, rib_of, to_hops, via_of, word_route_json, word_route_of};
ghost use Rattle.saved_rows.specs.Values.{IsHopText, hop_in, hop_json};

use crate::numbers::{read_client, read_vrf};
use crate::texts::{Hops, Prefixes, is_word, printed_value, read_printed};
use json_form::{RowReader, RowWriter, five, four, read_rows, write_rows};
use net_types::{Hop, HopList, HopSet, NoMemory, compare_hops};
use serde_json::{Value, json};
use std::alloc::{AllocError, Global};
use std::marker::Model;
use switch_model::{RibKey, RouteRec, Via, compare_rib_keys};

/// A route as it was read, with its hops in ascending order. Contracts see its key and its record.
#[derive(Drop)]
pub struct SavedRoute {
    pub key: RibKey,
    pub via: Via,
}

impl Model for SavedRoute {
    ghost use Rattle.switch_model.specs.declared.key.RibKey.{RibKey};
    ghost use Rattle.switch_model.specs.declared.record.RouteRec.{RouteRec};

    ghost Value = { RibKey × RouteRec };

    ghost use Rattle.saved_rows.specs.StateRows.{rec_of};

    ghost view = { λ r. (r.key, rec_of r.via) };
}

/// What reads the rows of routes.
pub struct RouteReader;

impl RowReader for RouteReader {
    type Row = SavedRoute;

    ghost row_of = { rib_of };

    ghost order = { by_key rib_cmp };

    fn read(alloc: Global, item: &Value) -> Result<Option<SavedRoute>, AllocError> {
        if let Some(route) = read_via(alloc, item)? {
            return Ok(Some(route));
        }
        if let Some(key) = read_word_route(alloc, item, "cpu")? {
            return Ok(Some(SavedRoute {
                key,
                via: Via::ToCpu,
            }));
        }
        if let Some(key) = read_word_route(alloc, item, "drop")? {
            return Ok(Some(SavedRoute {
                key,
                via: Via::Discard,
            }));
        }
        Ok(None)
    }

    fn is_before(row: &SavedRoute, next: &SavedRoute) -> bool {
        compare_rib_keys(&row.key, &next.key).is_lt()
    }
}

fn read_via(alloc: Global, item: &Value) -> Result<Option<SavedRoute>, NoMemory>
    ensures { IfOk result (λ route. route ≡ option_map to_hops (via_of (view item.now))) }
{
    let Some((vrf, prefix, client, word, hops)) = five(item) else {
        return Ok(None);
    };
    let Some(vrf) = read_vrf(vrf) else {
        return Ok(None);
    };
    let Some(prefix) = read_printed::<Prefixes>(alloc, prefix)? else {
        return Ok(None);
    };
    let Some(client) = read_client(client) else {
        return Ok(None);
    };
    if !is_word(word, "via") {
        return Ok(None);
    }
    let Some(hops) = read_rows::<HopRows>(alloc, hops)? else {
        return Ok(None);
    };
    Ok(Some(SavedRoute {
        key: RibKey {
            vrf,
            prefix,
            client,
        },
        via: Via::Hops(HopList::from_vec(hops)),
    }))
}

fn read_word_route(alloc: Global, item: &Value, word: &str) -> Result<Option<RibKey>, NoMemory>
    ensures { IfOk result (λ key. key ≡ option_map key_of (word_route_of word.now (view item.now))) }
{
    let Some((vrf, prefix, client, last)) = four(item) else {
        return Ok(None);
    };
    let Some(vrf) = read_vrf(vrf) else {
        return Ok(None);
    };
    let Some(prefix) = read_printed::<Prefixes>(alloc, prefix)? else {
        return Ok(None);
    };
    let Some(client) = read_client(client) else {
        return Ok(None);
    };
    if !is_word(last, word) {
        return Ok(None);
    }
    Ok(Some(RibKey {
        vrf,
        prefix,
        client,
    }))
}

// The hops of a route, in ascending order.
struct HopRows;

impl RowReader for HopRows {
    type Row = Hop;

    ghost row_of = { hop_in };

    ghost order = { hop_cmp };

    fn read(alloc: Global, item: &Value) -> Result<Option<Hop>, AllocError> {
        read_printed::<Hops>(alloc, item)
    }

    fn is_before(row: &Hop, next: &Hop) -> bool {
        compare_hops(row, next).is_lt()
    }
}

impl RowWriter for HopRows {
    type Row = Hop;

    ghost json_of = { hop_json };

    ghost legal = { IsHopText };

    fn write(alloc: Global, row: &Hop) -> Result<Value, AllocError> {
        printed_value::<Hops>(alloc, row)
    }
}

/// The row of a route.
pub fn route_value(alloc: Global, key: &RibKey, rec: &RouteRec) -> Result<Value, NoMemory>
    ensures value { IfOk result (λ v. view v ≡ rib_json (key.now, rec.now)) }
    ensures legal { OnOk result (IsRibRow (key.now, rec.now)) }
{
    match rec {
        RouteRec::Hops(hops) => via_value(alloc, key, hops),
        RouteRec::ToCpu => word_route_value(alloc, key, "cpu"),
        RouteRec::Discard => word_route_value(alloc, key, "drop"),
    }
}

fn via_value(alloc: Global, key: &RibKey, hops: &HopSet) -> Result<Value, NoMemory>
    ensures value { IfOk result (λ v. view v ≡ rib_json (key.now, kept.Hops hops.now)) }
    ensures legal { OnOk result (IsRibRow (key.now, kept.Hops hops.now)) }
{
    let prefix = printed_value::<Prefixes>(alloc, &key.prefix)?;
    let hops = write_rows::<HopRows>(alloc, hops.as_slice())?;
    json!(in alloc; [key.vrf.get(), prefix, key.client.number(), "via", hops])
}

fn word_route_value(alloc: Global, key: &RibKey, word: &str) -> Result<Value, NoMemory>
    ensures value { IfOk result (λ v. view v ≡ word_route_json word.now key.now) }
    ensures legal { OnOk result (IsKey key.now) }
{
    let prefix = printed_value::<Prefixes>(alloc, &key.prefix)?;
    json!(in alloc; [key.vrf.get(), prefix, key.client.number(), word])
}
