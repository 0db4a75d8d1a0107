// The rows of the route table.
ghost use Rattle.std.specs.Prelude.{◌≡◌, IfOk};
ghost use Rattle.std.specs.Ordering.{nat_cmp};
ghost use Rattle.keyed.specs.Keyed.{Ascends};
ghost use Rattle.chip_rows.specs.BySlot.{group_target, host_target, route_rows, target_at};

use crate::hosts::key_at;
use net_types::{HopTarget, HostKey, HostKeyList, NoMemory, RouteKey, RouteRow};
use std::alloc::Global;

/// The rows of the route table, where the hosts and the groups in the slots have these keys.
pub(crate) fn route_rows(
    alloc: Global,
    hosts: &[(u32, HostKey)],
    groups: &[(u32, HostKeyList)],
    routes: &[(RouteKey, RouteRow)],
) -> Result<Vec<(RouteKey, HopTarget)>, NoMemory>
    requires hosts { Ascends nat_cmp hosts.now }
    requires groups { Ascends nat_cmp groups.now }
    ensures { IfOk result (λ rows. rows.items ≡ route_rows hosts.now groups.now routes.now) }
{
    let mut rows = Vec::with_capacity(alloc, routes.len())?;
    for route in routes {
        rows.push((route.0, target_at(hosts, groups, &route.1)?))?;
    }
    Ok(rows)
}

/// Where a route leads. It takes one link to a group's list.
fn target_at(
    hosts: &[(u32, HostKey)],
    groups: &[(u32, HostKeyList)],
    row: &RouteRow,
) -> Result<HopTarget, NoMemory>
    requires hosts { Ascends nat_cmp hosts.now }
    requires groups { Ascends nat_cmp groups.now }
    ensures { IfOk result (λ target. target ≡ target_at hosts.now groups.now row.now) }
{
    match row {
        RouteRow::Host(slot) => Ok(host_target(hosts, *slot)),
        RouteRow::Group(slot) => group_target(groups, *slot),
        RouteRow::ToCpu => Ok(HopTarget::ToCpu),
        RouteRow::Discard => Ok(HopTarget::Discard),
    }
}

fn host_target(hosts: &[(u32, HostKey)], slot: u32) -> HopTarget
    requires { Ascends nat_cmp hosts.now }
    ensures { result ≡ host_target hosts.now slot }
{
    match key_at(hosts, slot) {
        Some(key) => HopTarget::Host(key),
        None => HopTarget::Discard,
    }
}

fn group_target(groups: &[(u32, HostKeyList)], slot: u32) -> Result<HopTarget, NoMemory>
    requires { Ascends nat_cmp groups.now }
    ensures { IfOk result (λ target. target ≡ group_target groups.now slot) }
{
    match keyed::get(groups, &slot) {
        Some(keys) => Ok(HopTarget::Group(keys.share()?)),
        None => Ok(HopTarget::Discard),
    }
}
