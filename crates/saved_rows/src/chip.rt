// The rows of the chip's tables.
ghost use Rattle.std.specs.Prelude.{◌≡◌, IfOk, OnOk, is_some, option_map};
ghost use Rattle.std.specs.Ordering.{nat_cmp};
ghost use Rattle.net_types.specs.KeyOrder.{l2_cmp, route_cmp};
ghost use Rattle.serde_json.specs.View.{view};
ghost use Rattle.json_form.specs.Arrays.{pair_json};
ghost use Rattle.saved_rows.specs.Values.{number_json, word_json};
ghost use Rattle.saved_rows.specs.ChipRows.{IsAct, IsGroup, IsHost, IsL2, IsMember, IsRoute, IsTarget, act_json, act_of, alone, behind_word, by_slot, forward_of, forwards, group_json, group_of, host_json, host_of, hosts_by_slot, in_any_order, l2_json, l2_of, member_json, member_of, route_json, route_of, target_json, target_of};
ghost use Rattle.saved_rows.specs.StateRows.{by_key};

use crate::numbers::{read_intf, read_port, read_slot, read_vlan, read_vrf};
use crate::texts::{Ips, Macs, Prefixes, is_word, printed_value, read_printed};
use json_form::{RowReader, RowWriter, five, four, pair, read_rows, single, three, write_rows};
use net_types::{
    HostAct, HostKey, HostRow, L2Key, L2Row, Member, MemberList, NoMemory, RouteKey, RouteRow,
    compare_l2_keys, compare_route_keys,
};
use serde_json::{Value, json};
use std::alloc::{AllocError, Global};

/// The rows of the l2 table.
pub struct Stations;

impl RowReader for Stations {
    type Row = (L2Key, L2Row);

    ghost row_of = { l2_of };

    ghost order = { by_key l2_cmp };

    fn read(alloc: Global, item: &Value) -> Result<Option<(L2Key, L2Row)>, AllocError> {
        let Some((vlan, mac, port, up)) = four(item) else {
            return Ok(None);
        };
        let Some(vlan) = read_vlan(vlan) else {
            return Ok(None);
        };
        let Some(mac) = read_printed::<Macs>(alloc, mac)? else {
            return Ok(None);
        };
        let Some(port) = read_port(port) else {
            return Ok(None);
        };
        let Some(up) = up.as_bool() else {
            return Ok(None);
        };
        Ok(Some((L2Key { vlan, mac }, L2Row { port, up })))
    }

    fn is_before(row: &(L2Key, L2Row), next: &(L2Key, L2Row)) -> bool {
        compare_l2_keys(&row.0, &next.0).is_lt()
    }
}

impl RowWriter for Stations {
    type Row = (L2Key, L2Row);

    ghost json_of = { l2_json };

    ghost legal = { IsL2 };

    fn write(alloc: Global, row: &(L2Key, L2Row)) -> Result<Value, AllocError> {
        let mac = printed_value::<Macs>(alloc, &row.0.mac)?;
        json!(in alloc; [row.0.vlan.get(), mac, row.1.port.get(), row.1.up])
    }
}

/// The rows of the host table.
pub struct Hosts;

impl RowReader for Hosts {
    type Row = (u32, HostKey, HostRow);

    ghost row_of = { host_of };

    ghost order = { hosts_by_slot };

    fn read(alloc: Global, item: &Value) -> Result<Option<(u32, HostKey, HostRow)>, AllocError> {
        let Some((slot, ip, intf, vrf, act)) = five(item) else {
            return Ok(None);
        };
        let Some(slot) = read_slot(slot) else {
            return Ok(None);
        };
        let Some(ip) = read_printed::<Ips>(alloc, ip)? else {
            return Ok(None);
        };
        let Some(intf) = read_intf(intf) else {
            return Ok(None);
        };
        let Some(vrf) = read_vrf(vrf) else {
            return Ok(None);
        };
        let Some(act) = read_act(alloc, act)? else {
            return Ok(None);
        };
        Ok(Some((slot, HostKey { ip, intf }, HostRow { vrf, act })))
    }

    fn is_before(row: &(u32, HostKey, HostRow), next: &(u32, HostKey, HostRow)) -> bool {
        row.0 < next.0
    }
}

impl RowWriter for Hosts {
    type Row = (u32, HostKey, HostRow);

    ghost json_of = { host_json };

    ghost legal = { IsHost };

    fn write(alloc: Global, row: &(u32, HostKey, HostRow)) -> Result<Value, AllocError> {
        let ip = printed_value::<Ips>(alloc, &row.1.ip)?;
        let act = act_value(alloc, &row.2.act)?;
        json!(in alloc; [row.0, ip, row.1.intf.get(), row.2.vrf.get(), act])
    }
}

fn read_act(alloc: Global, value: &Value) -> Result<Option<HostAct>, NoMemory>
    ensures { IfOk result (λ act. act ≡ act_of (view value.now)) }
{
    if let Some(act) = read_forward(alloc, value)? {
        return Ok(Some(act));
    }
    if is_alone(value, "trap") {
        return Ok(Some(HostAct::Trap));
    }
    Ok(None)
}

fn read_forward(alloc: Global, value: &Value) -> Result<Option<HostAct>, NoMemory>
    ensures { IfOk result (λ act. act ≡ option_map forwards (forward_of (view value.now))) }
{
    let Some((word, mac, port, up)) = four(value) else {
        return Ok(None);
    };
    if !is_word(word, "forward") {
        return Ok(None);
    }
    let Some(mac) = read_printed::<Macs>(alloc, mac)? else {
        return Ok(None);
    };
    let Some(port) = read_port(port) else {
        return Ok(None);
    };
    let Some(up) = up.as_bool() else {
        return Ok(None);
    };
    Ok(Some(HostAct::Forward { mac, port, up }))
}

// Whether the value is an array of that word alone.
fn is_alone(value: &Value, word: &str) -> bool
    ensures { result ≡ is_some (alone word.now (view value.now)) }
{
    match single(value) {
        Some(item) => is_word(item, word),
        None => false,
    }
}

fn act_value(alloc: Global, act: &HostAct) -> Result<Value, NoMemory>
    ensures value { IfOk result (λ v. view v ≡ act_json act.now) }
    ensures legal { OnOk result (IsAct act.now) }
{
    match act {
        HostAct::Forward { mac, port, up } => {
            let mac = printed_value::<Macs>(alloc, mac)?;
            json!(in alloc; ["forward", mac, port.get(), *up])
        }
        HostAct::Trap => json!(in alloc; ["trap"]),
    }
}

/// The rows of the group table.
pub struct Groups;

impl RowReader for Groups {
    type Row = (u32, MemberList);

    ghost row_of = { group_of };

    ghost order = { by_slot };

    fn read(alloc: Global, item: &Value) -> Result<Option<(u32, MemberList)>, AllocError> {
        let Some((slot, members)) = pair(item) else {
            return Ok(None);
        };
        let Some(slot) = read_slot(slot) else {
            return Ok(None);
        };
        let Some(members) = read_rows::<Members>(alloc, members)? else {
            return Ok(None);
        };
        Ok(Some((slot, MemberList::from_vec(members))))
    }

    fn is_before(row: &(u32, MemberList), next: &(u32, MemberList)) -> bool {
        row.0 < next.0
    }
}

impl RowWriter for Groups {
    type Row = (u32, MemberList);

    ghost json_of = { group_json };

    ghost legal = { IsGroup };

    fn write(alloc: Global, row: &(u32, MemberList)) -> Result<Value, AllocError> {
        group_value(alloc, row.0, row.1.as_slice())
    }
}

#[tactic(auto, using(crate::proofs::Orders::each_by))]
fn group_value(alloc: Global, slot: u32, members: &[Member]) -> Result<Value, NoMemory>
    ensures value { IfOk result (λ v. view v ≡ group_json (slot, members.now)) }
    ensures legal { OnOk result (IsGroup (slot, members.now)) }
{
    let members = write_rows::<Members>(alloc, members)?;
    json!(in alloc; [slot, members])
}

// The members of a group, in any order.
struct Members;

impl RowReader for Members {
    type Row = Member;

    ghost row_of = { member_of };

    ghost order = { in_any_order };

    fn read(_alloc: Global, item: &Value) -> Result<Option<Member>, AllocError> {
        Ok(read_member(item))
    }

    fn is_before(_row: &Member, _next: &Member) -> bool {
        true
    }
}

impl RowWriter for Members {
    type Row = Member;

    ghost json_of = { member_json };

    ghost legal = { IsMember };

    fn write(alloc: Global, row: &Member) -> Result<Value, AllocError> {
        json!(in alloc; [row.host, row.live])
    }
}

fn read_member(item: &Value) -> Option<Member>
    ensures { result ≡ member_of (view item.now) }
{
    let (host, live) = pair(item)?;
    let host = read_slot(host)?;
    let live = live.as_bool()?;
    Some(Member { host, live })
}

/// The rows of the route table.
pub struct ChipRoutes;

impl RowReader for ChipRoutes {
    type Row = (RouteKey, RouteRow);

    ghost row_of = { route_of };

    ghost order = { by_key route_cmp };

    fn read(alloc: Global, item: &Value) -> Result<Option<(RouteKey, RouteRow)>, AllocError> {
        let Some((vrf, prefix, target)) = three(item) else {
            return Ok(None);
        };
        let Some(vrf) = read_vrf(vrf) else {
            return Ok(None);
        };
        let Some(prefix) = read_printed::<Prefixes>(alloc, prefix)? else {
            return Ok(None);
        };
        let Some(target) = read_target(target) else {
            return Ok(None);
        };
        Ok(Some((RouteKey { vrf, prefix }, target)))
    }

    fn is_before(row: &(RouteKey, RouteRow), next: &(RouteKey, RouteRow)) -> bool {
        compare_route_keys(&row.0, &next.0).is_lt()
    }
}

impl RowWriter for ChipRoutes {
    type Row = (RouteKey, RouteRow);

    ghost json_of = { route_json };

    ghost legal = { IsRoute };

    fn write(alloc: Global, row: &(RouteKey, RouteRow)) -> Result<Value, AllocError> {
        let prefix = printed_value::<Prefixes>(alloc, &row.0.prefix)?;
        let target = target_value(alloc, &row.1)?;
        json!(in alloc; [row.0.vrf.get(), prefix, target])
    }
}

fn read_target(value: &Value) -> Option<RouteRow>
    ensures { result ≡ target_of (view value.now) }
{
    if let Some(slot) = slot_behind(value, "host") {
        return Some(RouteRow::Host(slot));
    }
    if let Some(slot) = slot_behind(value, "group") {
        return Some(RouteRow::Group(slot));
    }
    if is_alone(value, "cpu") {
        return Some(RouteRow::ToCpu);
    }
    if is_alone(value, "drop") {
        return Some(RouteRow::Discard);
    }
    None
}

// The slot of an array of that word and a slot.
fn slot_behind(value: &Value, word: &str) -> Option<u32>
    ensures { option_map (λ slot. (tt, slot)) result ≡ behind_word word.now (view value.now) }
{
    let (first, slot) = pair(value)?;
    if !is_word(first, word) {
        return None;
    }
    read_slot(slot)
}

fn target_value(alloc: Global, target: &RouteRow) -> Result<Value, NoMemory>
    ensures value { IfOk result (λ v. view v ≡ target_json target.now) }
    ensures legal { OnOk result (IsTarget target.now) }
{
    match target {
        RouteRow::Host(slot) => slot_value(alloc, "host", *slot),
        RouteRow::Group(slot) => slot_value(alloc, "group", *slot),
        RouteRow::ToCpu => json!(in alloc; ["cpu"]),
        RouteRow::Discard => json!(in alloc; ["drop"]),
    }
}

fn slot_value(alloc: Global, word: &str, slot: u32) -> Result<Value, NoMemory>
    ensures { IfOk result (λ v. view v ≡ pair_json (word_json word.now) number_json (tt, slot)) }
{
    json!(in alloc; [word, slot])
}
