// The tables and the changes of each commit that is tried.
ghost use Rattle.std.specs.Prelude.{◌≡◌, ◌∷◌, [], IfOk};
ghost use Rattle.hw_undo_check.specs.Cases as spec;
ghost use Rattle.hw_undo_check.specs.Samples.{MayCommit, host};

use crate::lists::{group_list_of, list_of};
use crate::rows::{host_of, host_row, l2_row, members, route_of, station_of};
use chip_core::{
    GroupChangeList, HopTarget, HostChangeList, HostKey, HostKeyList, HostRow, L2ChangeList,
    MarkList, RouteChangeList, RouteKey, RouteRow, RowChanges, Tables,
};
use net_types::{ItemList, NoMemory, Shared};
use std::alloc::Global;

/// Tables, and changes of their rows.
#[derive(Drop)]
pub struct Case {
    pub tables: Tables,
    pub changes: RowChanges,
}

/// One host, in slot 0.
fn one_host(alloc: Global) -> Result<Tables, NoMemory>
    ensures { IfOk result (λ t. t ≡ spec.one_host) }
{
    let host = host_of(9);
    let row = host_row();
    Ok(Tables {
        l2: ItemList::new(alloc),
        host: ItemList::from_vec(vec![in alloc; (0, host, row)]?),
        group: ItemList::new(alloc),
        route: ItemList::new(alloc),
    })
}

/// That host goes.
fn host_goes(alloc: Global) -> Result<HostChangeList, NoMemory>
    ensures { IfOk result (λ l. l ≡ spec.gone ∷ []) }
{
    let host = host_of(9);
    let row = host_row();
    list_of(alloc, vec![in alloc; (host, Some(row), None)]?)
}

/// Four stations come.
fn four_stations(alloc: Global) -> Result<L2ChangeList, NoMemory>
    ensures { IfOk result (λ l. l ≡ spec.l2_case.changes.l2) }
{
    let first = station_of(1);
    let second = station_of(2);
    let third = station_of(3);
    let fourth = station_of(4);
    let row = l2_row();
    list_of(
        alloc,
        vec![in alloc;
            (first, None, Some(row)),
            (second, None, Some(row)),
            (third, None, Some(row)),
            (fourth, None, Some(row)),
        ]?,
    )
}

pub fn l2_case(alloc: Global) -> Result<Case, NoMemory>
    ensures { IfOk result (λ c. MayCommit c.tables c.changes) }
{
    Ok(Case {
        tables: one_host(alloc)?,
        changes: RowChanges {
            l2: four_stations(alloc)?,
            host: host_goes(alloc)?,
            group: GroupChangeList::new(alloc),
            route: RouteChangeList::new(alloc),
        },
    })
}

/// Four hosts come, and the one that is there goes.
fn hosts_come_and_go(alloc: Global) -> Result<HostChangeList, NoMemory>
    ensures { IfOk result (λ l. l ≡ spec.host_case.changes.host) }
{
    let first = host_of(1);
    let second = host_of(2);
    let third = host_of(3);
    let fourth = host_of(4);
    let last = host_of(9);
    let row = host_row();
    list_of(
        alloc,
        vec![in alloc;
            (first, None, Some(row)),
            (second, None, Some(row)),
            (third, None, Some(row)),
            (fourth, None, Some(row)),
            (last, Some(row), None),
        ]?,
    )
}

pub fn host_case(alloc: Global) -> Result<Case, NoMemory>
    ensures { IfOk result (λ c. MayCommit c.tables c.changes) }
{
    Ok(Case {
        tables: one_host(alloc)?,
        changes: RowChanges {
            l2: L2ChangeList::new(alloc),
            host: hosts_come_and_go(alloc)?,
            group: GroupChangeList::new(alloc),
            route: RouteChangeList::new(alloc),
        },
    })
}

/// Four hosts come.
fn hosts_come(alloc: Global) -> Result<HostChangeList, NoMemory>
    ensures { IfOk result (λ l. l ≡ spec.first_host_case.changes.host) }
{
    let first = host_of(1);
    let second = host_of(2);
    let third = host_of(3);
    let fourth = host_of(4);
    let row = host_row();
    list_of(
        alloc,
        vec![in alloc;
            (first, None, Some(row)),
            (second, None, Some(row)),
            (third, None, Some(row)),
            (fourth, None, Some(row)),
        ]?,
    )
}

pub fn first_host_case(alloc: Global) -> Result<Case, NoMemory>
    ensures { IfOk result (λ c. MayCommit c.tables c.changes) }
{
    Ok(Case {
        tables: Tables {
            l2: ItemList::new(alloc),
            host: ItemList::new(alloc),
            group: ItemList::new(alloc),
            route: ItemList::new(alloc),
        },
        changes: RowChanges {
            l2: L2ChangeList::new(alloc),
            host: hosts_come(alloc)?,
            group: GroupChangeList::new(alloc),
            route: RouteChangeList::new(alloc),
        },
    })
}

/// Five hosts, in slots 0 to 4.
fn five_hosts(alloc: Global) -> Result<Tables, NoMemory>
    ensures { IfOk result (λ t. t ≡ spec.group_case.tables) }
{
    let first = host_of(1);
    let second = host_of(2);
    let third = host_of(3);
    let fourth = host_of(4);
    let last = host_of(9);
    let row = host_row();
    Ok(Tables {
        l2: ItemList::new(alloc),
        host: ItemList::from_vec(vec![in alloc;
            (0, first, row),
            (1, second, row),
            (2, third, row),
            (3, fourth, row),
            (4, last, row),
        ]?),
        group: ItemList::new(alloc),
        route: ItemList::new(alloc),
    })
}

/// A group of two hosts.
fn group_of(alloc: Global, first: u32, second: u32) -> Result<HostKeyList, NoMemory>
    ensures { IfOk result (λ l. l ≡ host first ∷ host second ∷ []) }
{
    let first = host_of(first);
    let second = host_of(second);
    let hosts = ItemList::from_vec(vec![in alloc; first, second]?);
    let shared = Shared::of(alloc, hosts)?;
    Ok(shared)
}

/// The marks of two live hosts.
fn both_live(alloc: Global) -> Result<MarkList, NoMemory>
    ensures { IfOk result (λ l. l ≡ spec.live) }
{
    Ok(ItemList::from_vec(vec![in alloc; true, true]?))
}

/// Four pairs of hosts come.
fn four_pairs(alloc: Global) -> Result<GroupChangeList, NoMemory>
    ensures { IfOk result (λ l. l ≡ spec.group_case.changes.group) }
{
    let first = group_of(alloc, 1, 2)?;
    let second = group_of(alloc, 1, 3)?;
    let third = group_of(alloc, 1, 4)?;
    let fourth = group_of(alloc, 2, 3)?;
    let marks = both_live(alloc)?;
    let more = both_live(alloc)?;
    let again = both_live(alloc)?;
    let last = both_live(alloc)?;
    group_list_of(
        alloc,
        vec![in alloc;
            (first, None, Some(marks)),
            (second, None, Some(more)),
            (third, None, Some(again)),
            (fourth, None, Some(last)),
        ]?,
    )
}

pub fn group_case(alloc: Global) -> Result<Case, NoMemory>
    ensures { IfOk result (λ c. MayCommit c.tables c.changes) }
{
    Ok(Case {
        tables: five_hosts(alloc)?,
        changes: RowChanges {
            l2: L2ChangeList::new(alloc),
            host: host_goes(alloc)?,
            group: four_pairs(alloc)?,
            route: RouteChangeList::new(alloc),
        },
    })
}

/// Four routes to the CPU come.
fn four_routes(alloc: Global) -> Result<RouteChangeList, NoMemory>
    ensures { IfOk result (λ l. l ≡ spec.route_case.changes.route) }
{
    let first = route_of(1);
    let second = route_of(2);
    let third = route_of(3);
    let fourth = route_of(4);
    list_of(
        alloc,
        vec![in alloc;
            (first, None, Some(HopTarget::ToCpu)),
            (second, None, Some(HopTarget::ToCpu)),
            (third, None, Some(HopTarget::ToCpu)),
            (fourth, None, Some(HopTarget::ToCpu)),
        ]?,
    )
}

pub fn route_case(alloc: Global) -> Result<Case, NoMemory>
    ensures { IfOk result (λ c. MayCommit c.tables c.changes) }
{
    Ok(Case {
        tables: one_host(alloc)?,
        changes: RowChanges {
            l2: L2ChangeList::new(alloc),
            host: host_goes(alloc)?,
            group: GroupChangeList::new(alloc),
            route: four_routes(alloc)?,
        },
    })
}

/// Hosts 1 and 2 in slots 0 and 1, their group, and a route to it.
fn paired(alloc: Global) -> Result<Tables, NoMemory>
    ensures { IfOk result (λ t. t ≡ spec.paired) }
{
    let first = host_of(1);
    let second = host_of(2);
    let row = host_row();
    let route = route_of(1);
    let pair = Vec::from_array(alloc, members(0, 1))?;
    Ok(Tables {
        l2: ItemList::new(alloc),
        host: ItemList::from_vec(vec![in alloc; (0, first, row), (1, second, row)]?),
        group: ItemList::from_vec(vec![in alloc; (0, ItemList::from_vec(pair))]?),
        route: ItemList::from_vec(vec![in alloc; (route, RouteRow::Group(0))]?),
    })
}

/// Host 1 goes, and host 3 comes.
fn host_for_host(alloc: Global) -> Result<HostChangeList, NoMemory>
    ensures { IfOk result (λ l. l ≡ spec.moved_route_case.changes.host) }
{
    let first = host_of(1);
    let third = host_of(3);
    let row = host_row();
    list_of(
        alloc,
        vec![in alloc; (first, Some(row), None), (third, None, Some(row))]?,
    )
}

/// Their pairs with host 2 go and come.
fn pair_for_pair(alloc: Global) -> Result<GroupChangeList, NoMemory>
    ensures { IfOk result (λ l. l ≡ spec.moved_route_case.changes.group) }
{
    let old = group_of(alloc, 1, 2)?;
    let new = group_of(alloc, 2, 3)?;
    let marks = both_live(alloc)?;
    let more = both_live(alloc)?;
    group_list_of(
        alloc,
        vec![in alloc; (old, Some(marks), None), (new, None, Some(more))]?,
    )
}

/// The route's way changes with them.
fn moved_route(alloc: Global) -> Result<(RouteKey, Option<HopTarget>, Option<HopTarget>), NoMemory>
    ensures { IfOk result (λ m. m ≡ spec.moved) }
{
    let route = route_of(1);
    let old = group_of(alloc, 1, 2)?;
    let new = group_of(alloc, 2, 3)?;
    Ok((
        route,
        Some(HopTarget::Group(old)),
        Some(HopTarget::Group(new)),
    ))
}

fn repaired(alloc: Global, route: RouteChangeList) -> Result<Case, NoMemory>
    ensures tables { IfOk result (λ c. c.tables ≡ spec.paired) }
    ensures changes { IfOk result (λ c. c.changes ≡ spec.repaired route) }
{
    Ok(Case {
        tables: paired(alloc)?,
        changes: RowChanges {
            l2: L2ChangeList::new(alloc),
            host: host_for_host(alloc)?,
            group: pair_for_pair(alloc)?,
            route,
        },
    })
}

/// The route alone changes.
pub fn moved_route_case(alloc: Global) -> Result<Case, NoMemory>
    ensures case { IfOk result (λ c. c ≡ spec.moved_route_case) }
    ensures may { IfOk result (λ c. MayCommit c.tables c.changes) }
{
    let moved = moved_route(alloc)?;
    let routes = list_of(alloc, vec![in alloc; moved]?)?;
    repaired(alloc, routes)
}

/// One more route comes.
pub fn one_more_route_case(alloc: Global) -> Result<Case, NoMemory>
    ensures case { IfOk result (λ c. c ≡ spec.one_more_route_case) }
    ensures may { IfOk result (λ c. MayCommit c.tables c.changes) }
{
    let moved = moved_route(alloc)?;
    let second = route_of(2);
    let routes = list_of(
        alloc,
        vec![in alloc; moved, (second, None, Some(HopTarget::ToCpu))]?,
    )?;
    repaired(alloc, routes)
}

/// Two more routes come.
pub fn two_more_routes_case(alloc: Global) -> Result<Case, NoMemory>
    ensures case { IfOk result (λ c. c ≡ spec.two_more_routes_case) }
    ensures may { IfOk result (λ c. MayCommit c.tables c.changes) }
{
    let moved = moved_route(alloc)?;
    let second = route_of(2);
    let third = route_of(3);
    let routes = list_of(
        alloc,
        vec![in alloc;
            moved,
            (second, None, Some(HopTarget::ToCpu)),
            (third, None, Some(HopTarget::ToCpu)),
        ]?,
    )?;
    repaired(alloc, routes)
}
