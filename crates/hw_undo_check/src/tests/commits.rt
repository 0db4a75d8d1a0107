// A table that is one row too small, and one that isn't; and what a commit that failed leaves.
ghost use Rattle.std.specs.Prelude.{IfOk};
ghost use Rattle.hw_undo_check.specs.Samples.{MayCommit};

use super::*;

/// Which commit is tried.
#[derive(Clone, Copy, Debug)]
enum Sort {
    L2,
    FirstHosts,
    Hosts,
    Groups,
    Routes,
    TwoMoreRoutes,
    OneMoreRoute,
}

fn case_of(alloc: Global, sort: Sort) -> Result<Case, NoMemory>
    ensures { IfOk result (λ c. MayCommit c.tables c.changes) }
{
    match sort {
        Sort::L2 => l2_case(alloc),
        Sort::FirstHosts => first_host_case(alloc),
        Sort::Hosts => host_case(alloc),
        Sort::Groups => group_case(alloc),
        Sort::Routes => route_case(alloc),
        Sort::TwoMoreRoutes => two_more_routes_case(alloc),
        Sort::OneMoreRoute => one_more_route_case(alloc),
    }
}

/// The same rows stand in the same slots.
fn is_same(left: &Tables, right: &Tables) -> bool {
    left.l2 == right.l2
        && left.host == right.host
        && left.group == right.group
        && left.route == right.route
}

/// What a commit answers, and whether the tables are then as they were.
fn answer_of(alloc: Global, sort: Sort, caps: Caps) -> Option<(Result<(), Table>, bool)> {
    let Ok(case) = case_of(alloc, sort) else {
        return None;
    };
    let Ok(outcome) = trial(alloc, caps, case.tables, case.changes) else {
        return None;
    };
    match case_of(alloc, sort) {
        Ok(before) => Some((outcome.answer, is_same(&outcome.tables, &before.tables))),
        Err(_) => None,
    }
}

const fn caps(l2: u32, host: u32, group: u32, route: u32) -> Caps {
    Caps {
        l2,
        host,
        group,
        route,
    }
}

/// The table with that room, and the others with more than enough.
fn room(table: Table, rows: u32) -> Caps {
    match table {
        Table::L2 => caps(rows, 8, 8, 8),
        Table::Host => caps(8, rows, 8, 8),
        Table::Group => caps(8, 8, rows, 8),
        Table::Route => caps(8, 8, 8, rows),
    }
}

const FOUR_ROWS: [(Sort, Table, u32); 5] = [
    (Sort::L2, Table::L2, 0),
    (Sort::FirstHosts, Table::Host, 0),
    (Sort::Hosts, Table::Host, 1),
    (Sort::Groups, Table::Group, 0),
    (Sort::Routes, Table::Route, 0),
];

/// With room for fewer than four rows the commit names the table and leaves the tables as they were.
fn wanted(table: Table, rows: u32) -> Option<(Result<(), Table>, bool)> {
    if rows < 4 {
        Some((Err(table), true))
    } else {
        Some((Ok(()), false))
    }
}

#[test]
fn four_rows_of_each_table(rt: HostRuntime) {
    for (sort, table, least) in FOUR_ROWS {
        for rows in least..5 {
            let answer = answer_of(rt.alloc(), sort, room(table, rows));
            assert!(rt; answer == wanted(table, rows), "{sort:?} {rows}");
        }
    }
}

/// The host that goes stands in slot 0, and the group with it. The host that comes takes the slot of
/// the one that goes.
#[test]
fn slots_after_a_commit(rt: HostRuntime) {
    let undone = answer_of(rt.alloc(), Sort::TwoMoreRoutes, caps(0, 3, 1, 2));
    assert!(rt; undone == Some((Err(Table::Route), true)));
    let kept = answer_of(rt.alloc(), Sort::OneMoreRoute, caps(0, 3, 1, 2));
    assert!(rt; kept == Some((Ok(()), false)));
    assert_eq!(rt; first_slot(rt.alloc()), Some((0, Ip::V4(3))));
}

/// The first host's slot and address after that commit.
fn first_slot(alloc: Global) -> Option<(u32, Ip)> {
    let Ok(case) = one_more_route_case(alloc) else {
        return None;
    };
    let Ok(outcome) = trial(alloc, caps(0, 3, 1, 2), case.tables, case.changes) else {
        return None;
    };
    match outcome.tables.host.at(0) {
        Some(host) => Some((host.0, host.1.ip)),
        None => None,
    }
}

#[test]
fn a_moved_route_on_full_tables(rt: HostRuntime) {
    assert_eq!(rt; answer_to_six(rt.alloc()), Some(Ok(())));
}

fn answer_to_six(alloc: Global) -> Option<Result<(), Table>> {
    match six_writes(alloc) {
        Ok(written) => Some(written.0),
        Err(_) => None,
    }
}
