// The body of a saved text, read.
ghost use Rattle.std.specs.Prelude.{◌≡◌, IfOk, option_map};
ghost use Rattle.serde_json.specs.View.{view, members_view};
ghost use Rattle.saved_state.specs.Contents.{body_of, rest_in, version_in};

use crate::lists::{StateLists, read_caps, read_chip, read_lists};
use json_form::{is_end, named_number, next_named};
use net_types::{Caps, NoMemory, Tables};
use serde_json::Value;
use std::alloc::Global;
use std::collections::btree_map::Iter;
use std::marker::Model;

/// A body as it was read.
#[derive(Drop)]
pub(crate) struct SavedBody {
    pub caps: Caps,
    pub tables: Tables,
    pub lists: StateLists,
    pub version: u64,
}

impl Model for SavedBody {
    ghost use Rattle.saved_state.specs.Contents.{Body, first};

    ghost Value = { Body };

    ghost view = { λ b. first (record { caps = b.caps; tables = b.tables; state = b.lists; version = b.version }) };
}

/// The body that a value is, where it is one.
pub(crate) fn read_body(alloc: Global, value: &Value) -> Result<Option<SavedBody>, NoMemory>
    ensures { IfOk result (λ body. body ≡ body_of (view value.now)) }
{
    let Some(map) = value.as_object() else {
        return Ok(None);
    };
    let mut members = map.iter();
    let Some(caps) = next_named(&mut members, "caps") else {
        return Ok(None);
    };
    let Some(caps) = read_caps(caps) else {
        return Ok(None);
    };
    let Some(chip) = next_named(&mut members, "chip") else {
        return Ok(None);
    };
    let Some(tables) = read_chip(alloc, chip)? else {
        return Ok(None);
    };
    let Some(rest) = read_rest(alloc, &mut members)? else {
        drop(tables);
        return Ok(None);
    };
    let (lists, version) = rest;
    Ok(Some(SavedBody {
        caps,
        tables,
        lists,
        version,
    }))
}

// The lists of the state and the version, behind the number of the format.
fn read_rest(
    alloc: Global,
    members: &mut Iter<'_, String, Value>,
) -> Result<Option<(StateLists, u64)>, NoMemory>
    ensures { IfOk result (λ rest. option_map (λ r. (tt, (r.0, (r.1, tt)))) rest ≡ rest_in (members_view members.old)) }
{
    let Some(_) = named_number(members, "format", 1, 1) else {
        return Ok(None);
    };
    let Some(state) = next_named(members, "state") else {
        return Ok(None);
    };
    let Some(version) = read_version(members) else {
        return Ok(None);
    };
    let Some(lists) = read_lists(alloc, state)? else {
        return Ok(None);
    };
    Ok(Some((lists, version)))
}

// The version, which is the last member.
fn read_version(members: &mut Iter<'_, String, Value>) -> Option<u64>
    ensures { option_map (λ version. (version, tt)) result ≡ version_in (members_view members.old) }
{
    let version = named_number(members, "version", 0, 9_223_372_036_854_775_807)?;
    if is_end(members) { Some(version) } else { None }
}
