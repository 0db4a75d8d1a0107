// The route table's part of a commit.
ghost use Rattle.std.specs.Prelude.{◌≡◌, ◌<◌, ◌≤◌, ◌+◌, None, Some, IfOk, OnErr, OnOk, length, vec_capacity, vec_len};
ghost use Rattle.keyed.specs.Keyed.{at, put, without};
ghost use Rattle.net_types.specs.KeyOrder.{route_cmp};
ghost use Rattle.net_types.specs.declared.table.HopTarget.{HopTarget as HopTargetValue};
ghost use Rattle.chip_core.specs.ChangeLists.{IsAscending};
ghost use Rattle.chip_core.specs.Changes.{AreOld, add_one, adds};
ghost use Rattle.net_types.specs.Closed.{IsClosed, IsTargetKnown};
ghost use Rattle.chip_core.specs.Chip.{target_of, view_of};
ghost use Rattle.chip_core.specs.References.{IsRouteHeld};
ghost use Rattle.hw_undo.specs.Counts.{new_rows_in, old_rows_in, rows_in, sum_over};
ghost use Rattle.hw_undo.specs.Moments.{AreNoted, AreNotedUpTo, moment};
ghost use Rattle.hw_undo.specs.Phases.{AreGone, cuts, routes_of, with_routes};
ghost use Rattle.hw_undo.specs.Targets.{LeadsTo};

use crate::log::note;
use crate::write::Write;
use crate::{groups, hosts};
use chip_core::{Full, HwSwitch};
use net_types::{HopTarget, RouteKey, RouteRow};

/// A row that changes.
pub(crate) type RouteChange = (RouteKey, Option<HopTarget>, Option<HopTarget>);

/// The row that leads to a target that is there.
fn row_of<C: HwSwitch>(chip: &C, target: &HopTarget) -> RouteRow
    requires { IsTargetKnown (view_of (C.raw chip.now)) target.now }
    ensures target { target_of (C.raw chip.now) result ≡ target.now }
    ensures held { IsRouteHeld (C.raw chip.now) result }
{
    match target {
        HopTarget::Host(key) => RouteRow::Host(hosts::slot_at(chip, key)),
        HopTarget::Group(keys) => RouteRow::Group(groups::slots_at(chip, keys.as_slice()).0),
        HopTarget::ToCpu => RouteRow::ToCpu,
        HopTarget::Discard => RouteRow::Discard,
    }
}

/// A target, and the row that leads there.
#[derive(Clone, Copy)]
struct Lead<'a> {
    target: &'a HopTarget,
    row: RouteRow,
}

/// The row that leads to a target that is there: that of the last target, where it is the same, and
/// else its host or group is looked up.
fn row_near<C: HwSwitch>(chip: &C, target: &HopTarget, last: &Lead) -> RouteRow
    requires known { IsTargetKnown (view_of (C.raw chip.now)) target.now }
    requires last { LeadsTo (C.raw chip.now) last.now.row last.now.target.now }
    ensures { LeadsTo (C.raw chip.now) result target.now }
{
    if *last.target == *target {
        return last.row;
    }
    row_of(chip, target)
}

fn put_row<C: HwSwitch>(
    chip: &mut C,
    log: &mut Vec<Write>,
    key: &RouteKey,
    lead: &Lead,
) -> Result<(), Full>
    requires absent { at route_cmp key.now (routes_of (view_of (C.raw chip.old))) ≡ None }
    requires leads { LeadsTo (C.raw chip.old) lead.now.row lead.now.target.now }
    requires room { vec_len log.old < vec_capacity log.old }
    ensures view { OnOk result (view_of (C.raw chip.new) ≡ with_routes (put route_cmp key.now lead.now.target.now (routes_of (view_of (C.raw chip.old)))) (view_of (C.raw chip.old))) }
    ensures leads { OnOk result (LeadsTo (C.raw chip.new) lead.now.row lead.now.target.now) }
    ensures noted { OnOk result (AreNoted 1 (moment (C.raw chip.old) (C.caps chip.old) (C.writes chip.old) log.old) (moment (C.raw chip.new) (C.caps chip.new) (C.writes chip.new) log.new)) }
    ensures full { OnErr result ((C.caps chip.old).route < length (put route_cmp key.now lead.now.target.now (routes_of (view_of (C.raw chip.old))))) }
    ensures none { OnErr result (AreNoted 0 (moment (C.raw chip.old) (C.caps chip.old) (C.writes chip.old) log.old) (moment (C.raw chip.new) (C.caps chip.new) (C.writes chip.new) log.new)) }
{
    match chip.add_route(*key, lead.row) {
        Ok(()) => {
            note(log, Write::AddedRoute(*key));
            Ok(())
        }
        Err(full) => Err(full),
    }
}

fn remove_row<C: HwSwitch>(
    chip: &mut C,
    log: &mut Vec<Write>,
    key: &RouteKey,
    old: &Option<HopTarget>,
)
    requires old { at route_cmp key.now (routes_of (view_of (C.raw chip.old))) ≡ old.now }
    requires room { vec_len log.old + rows_in old.now ≤ vec_capacity log.old }
    ensures view { view_of (C.raw chip.new) ≡ with_routes (without route_cmp key.now (routes_of (view_of (C.raw chip.old)))) (view_of (C.raw chip.old)) }
    ensures noted { AreNoted (rows_in old.now) (moment (C.raw chip.old) (C.caps chip.old) (C.writes chip.old) log.old) (moment (C.raw chip.new) (C.caps chip.new) (C.writes chip.new) log.new) }
{
    match old {
        Some(_) => {
            let row = chip.del_route(key);
            note(log, Write::RemovedRoute(*key, row));
        }
        None => {}
    }
}

/// Deletes the routes that differ.
pub(crate) fn remove_rows<C: HwSwitch>(chip: &mut C, log: &mut Vec<Write>, changes: &[RouteChange])
    requires ascending { IsAscending route_cmp changes.now }
    requires old { AreOld route_cmp changes.now (routes_of (view_of (C.raw chip.old))) }
    requires room { vec_len log.old + sum_over old_rows_in changes.now ≤ vec_capacity log.old }
    ensures view { view_of (C.raw chip.new) ≡ with_routes (cuts route_cmp changes.now (routes_of (view_of (C.raw chip.old)))) (view_of (C.raw chip.old)) }
    ensures noted { AreNoted (sum_over old_rows_in changes.now) (moment (C.raw chip.old) (C.caps chip.old) (C.writes chip.old) log.old) (moment (C.raw chip.new) (C.caps chip.new) (C.writes chip.new) log.new) }
{
    for change in changes {
        remove_row(chip, log, &change.0, &change.1);
    }
}

/// Adds a new route, and answers where the last one that is new leads.
fn add_row<'a, C: HwSwitch>(
    chip: &mut C,
    log: &mut Vec<Write>,
    key: &RouteKey,
    new: &'a Option<HopTarget>,
    last: Lead<'a>,
) -> Result<Lead<'a>, Full>
    requires gone { at route_cmp key.now (routes_of (view_of (C.raw chip.old))) ≡ None }
    requires known { (target : HopTargetValue) → new.now ≡ Some target → IsTargetKnown (view_of (C.raw chip.old)) target }
    requires last { LeadsTo (C.raw chip.old) last.row last.target.now }
    requires room { vec_len log.old + rows_in new.now ≤ vec_capacity log.old }
    ensures view { OnOk result (view_of (C.raw chip.new) ≡ with_routes (add_one route_cmp key.now new.now (routes_of (view_of (C.raw chip.old)))) (view_of (C.raw chip.old))) }
    ensures last { IfOk result (λ lead. LeadsTo (C.raw chip.new) lead.row lead.target.now) }
    ensures noted { OnOk result (AreNoted (rows_in new.now) (moment (C.raw chip.old) (C.caps chip.old) (C.writes chip.old) log.old) (moment (C.raw chip.new) (C.caps chip.new) (C.writes chip.new) log.new)) }
    ensures full { OnErr result ((C.caps chip.old).route < length (add_one route_cmp key.now new.now (routes_of (view_of (C.raw chip.old))))) }
    ensures none { OnErr result (AreNoted 0 (moment (C.raw chip.old) (C.caps chip.old) (C.writes chip.old) log.old) (moment (C.raw chip.new) (C.caps chip.new) (C.writes chip.new) log.new)) }
{
    match new {
        None => Ok(last),
        Some(target) => {
            let row = row_near(chip, target, &last);
            let lead = Lead { target, row };
            match put_row(chip, log, key, &lead) {
                Ok(()) => Ok(lead),
                Err(full) => Err(full),
            }
        }
    }
}

/// Adds the new routes, to hosts and groups that are there. It stops where one has no room. While
/// routes to one target follow one another, it is looked up once.
pub(crate) fn add_rows<C: HwSwitch>(
    chip: &mut C,
    log: &mut Vec<Write>,
    changes: &[RouteChange],
) -> Result<(), Full>
    requires ascending { IsAscending route_cmp changes.now }
    requires gone { AreGone route_cmp changes.now (routes_of (view_of (C.raw chip.old))) }
    requires closed { IsClosed (with_routes (adds route_cmp changes.now (routes_of (view_of (C.raw chip.old)))) (view_of (C.raw chip.old))) }
    requires room { vec_len log.old + sum_over new_rows_in changes.now ≤ vec_capacity log.old }
    ensures view { OnOk result (view_of (C.raw chip.new) ≡ with_routes (adds route_cmp changes.now (routes_of (view_of (C.raw chip.old)))) (view_of (C.raw chip.old))) }
    ensures noted { OnOk result (AreNoted (sum_over new_rows_in changes.now) (moment (C.raw chip.old) (C.caps chip.old) (C.writes chip.old) log.old) (moment (C.raw chip.new) (C.caps chip.new) (C.writes chip.new) log.new)) }
    ensures full { OnErr result ((C.caps chip.old).route < length (adds route_cmp changes.now (routes_of (view_of (C.raw chip.old))))) }
    ensures some { OnErr result (AreNotedUpTo (sum_over new_rows_in changes.now) (moment (C.raw chip.old) (C.caps chip.old) (C.writes chip.old) log.old) (moment (C.raw chip.new) (C.caps chip.new) (C.writes chip.new) log.new)) }
{
    let nowhere = HopTarget::Discard;
    let mut last = Lead {
        target: &nowhere,
        row: RouteRow::Discard,
    };
    for change in changes {
        last = add_row(chip, log, &change.0, &change.2, last)?;
    }
    Ok(())
}
