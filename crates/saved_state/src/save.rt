// Saved texts, written.
ghost use Rattle.std.specs.Prelude.{◌≡◌, ◌≤◌, codes, string_bytes, Result, IfOk, OnOk};
ghost use Rattle.serde_json.specs.Data.{object, member, no_members, string};
ghost use Rattle.serde_json.specs.View.{view};
ghost use Rattle.switch_model.specs.Sound.{IsSound};
ghost use Rattle.switch_state.specs.Plain.{plain};
ghost use Rattle.saved_rows.specs.Values.{number_json};
ghost use Rattle.saved_state.specs.declared.fault.SavedFault.{SavedFault};
ghost use Rattle.saved_state.specs.declared.saved.Saved.{Saved};
ghost use Rattle.saved_state.specs.Contents.{AreLists, AreTables, AreTablesInOrder, IsCaps, body_json, caps_json, chip_json, saved_json, state_json};
ghost use Rattle.saved_state.specs.Reading.{Reads, ReadsBack};
ghost use Rattle.saved_state.specs.Texts.{IsJson, body_to_save, digest_of, saved_text};

use crate::digest::digest_text;
use crate::neighbors::neighbors_value;
use crate::walk::{IntfWriter, MacWriter, PortWriter, RouteWriter, VlanWriter, map_value};
use json_form::write_rows;
use net_types::{Caps, NoMemory, Tables};
use saved_rows::{ChipRoutes, Groups, Hosts, Stations};
use serde_json::{Value, json};
use std::alloc::Global;
use switch_state::SwitchState;

/// The saved text of a state, of a chip's tables and of its capacities. What it made of a sound state, of tables in
/// their orders, and of a version and capacities within their ranges, is read again as these.
pub fn save_text(
    alloc: Global,
    caps: &Caps,
    state: &SwitchState,
    tables: &Tables,
) -> Result<Vec<u8>, NoMemory>
    ensures text { IfOk result (λ b. b.items ≡ saved_text (plain state.now) state.now.version tables.now caps.now) }
    ensures json { IfOk result (λ b. let body = body_to_save (plain state.now) state.now.version tables.now caps.now in IsJson b.items (saved_json body (digest_of body))) }
    ensures read_again { IfOk result (λ b. IsSound (plain state.now) → AreTablesInOrder tables.now → IsCaps caps.now → state.now.version ≤ 9223372036854775807
        → (answer : Result Saved SavedFault) → Reads b.items answer → ReadsBack (plain state.now) state.now.version tables.now caps.now answer) }
{
    let value = body_value(alloc, caps, state, tables)?;
    let digest = digest_text(alloc, &value)?;
    let whole = saved_value(alloc, value, digest)?;
    let text = whole.to_vec(alloc)?;
    Ok(text)
}

fn body_value(
    alloc: Global,
    caps: &Caps,
    state: &SwitchState,
    tables: &Tables,
) -> Result<Value, NoMemory>
    ensures value { IfOk result (λ v. view v ≡ body_json (body_to_save (plain state.now) state.now.version tables.now caps.now)) }
    ensures tables { OnOk result (AreTablesInOrder tables.now → AreTables tables.now) }
    ensures state { OnOk result (AreLists (plain state.now)) }
{
    let chip = chip_value(alloc, tables)?;
    let lists = state_value(alloc, state)?;
    let caps = caps_value(alloc, caps)?;
    let value = whole_value(alloc, caps, chip, lists, state.version())?;
    Ok(value)
}

fn caps_value(alloc: Global, caps: &Caps) -> Result<Value, NoMemory>
    ensures { IfOk result (λ v. view v ≡ caps_json caps.now) }
{
    json!(in alloc; [caps.l2, caps.host, caps.group, caps.route])
}

fn chip_value(alloc: Global, tables: &Tables) -> Result<Value, NoMemory>
    ensures value { IfOk result (λ v. view v ≡ chip_json tables.now) }
    ensures legal { OnOk result (AreTablesInOrder tables.now → AreTables tables.now) }
{
    let group = write_rows::<Groups>(alloc, tables.group.as_slice())?;
    let host = write_rows::<Hosts>(alloc, tables.host.as_slice())?;
    let l2 = write_rows::<Stations>(alloc, tables.l2.as_slice())?;
    let route = write_rows::<ChipRoutes>(alloc, tables.route.as_slice())?;
    let value = chip_object(alloc, group, host, l2, route)?;
    Ok(value)
}

fn chip_object(
    alloc: Global,
    group: Value,
    host: Value,
    l2: Value,
    route: Value,
) -> Result<Value, NoMemory>
    ensures { IfOk result (λ v. view v ≡ object (member (codes "group") (view group) (member (codes "host") (view host) (member (codes "l2") (view l2) (member (codes "route") (view route) no_members))))) }
{
    json!(in alloc; {"group": group, "host": host, "l2": l2, "route": route})
}

fn state_value(alloc: Global, state: &SwitchState) -> Result<Value, NoMemory>
    ensures value { IfOk result (λ v. view v ≡ state_json (plain state.now)) }
    ensures legal { OnOk result (AreLists (plain state.now)) }
{
    state.shape();
    let intfs = map_value::<IntfWriter>(alloc, state.intfs())?;
    let macs = map_value::<MacWriter>(alloc, state.macs())?;
    let neighbors = neighbors_value(alloc, state.arps(), state.ndps())?;
    let ports = map_value::<PortWriter>(alloc, state.ports())?;
    let routes = map_value::<RouteWriter>(alloc, state.routes())?;
    let vlans = map_value::<VlanWriter>(alloc, state.vlans())?;
    let first = FirstLists {
        intfs,
        macs,
        neighbors,
    };
    let value = state_object(alloc, first, ports, routes, vlans)?;
    Ok(value)
}

// The first three lists of a state, by name.
#[derive(Drop)]
struct FirstLists {
    intfs: Value,
    macs: Value,
    neighbors: Value,
}

fn state_object(
    alloc: Global,
    first: FirstLists,
    ports: Value,
    routes: Value,
    vlans: Value,
) -> Result<Value, NoMemory>
    ensures { IfOk result (λ v. view v ≡ object (member (codes "intfs") (view first.intfs) (member (codes "macs") (view first.macs) (member (codes "neighbors") (view first.neighbors) (member (codes "ports") (view ports) (member (codes "routes") (view routes) (member (codes "vlans") (view vlans) no_members))))))) }
{
    let FirstLists {
        intfs,
        macs,
        neighbors,
    } = first;
    json!(in alloc; {"intfs": intfs, "macs": macs, "neighbors": neighbors, "ports": ports, "routes": routes, "vlans": vlans})
}

fn whole_value(
    alloc: Global,
    caps: Value,
    chip: Value,
    state: Value,
    version: u64,
) -> Result<Value, NoMemory>
    ensures { IfOk result (λ v. view v ≡ object (member (codes "caps") (view caps) (member (codes "chip") (view chip) (member (codes "format") (number_json 1) (member (codes "state") (view state) (member (codes "version") (number_json version) no_members)))))) }
{
    json!(in alloc; {"caps": caps, "chip": chip, "format": 1u64, "state": state, "version": version})
}

fn saved_value(alloc: Global, body: Value, digest: String) -> Result<Value, NoMemory>
    ensures { IfOk result (λ v. view v ≡ object (member (codes "body") (view body) (member (codes "digest") (string (string_bytes digest)) no_members))) }
{
    json!(in alloc; {"body": body, "digest": digest})
}
