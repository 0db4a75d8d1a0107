// A commit: all writes, or none.
ghost use Rattle.std.specs.Prelude.{◌≡◌, ◌≤◌, ◌+◌, ◌*◌, OnErr, OnOk, vec_capacity, vec_len};
ghost use Rattle.std.specs.Result.{result_err};
ghost use Rattle.chip_core.specs.Changes.{AreOldRows, changed_rows, writes_of};
ghost use Rattle.net_types.specs.Closed.{IsClosed};
ghost use Rattle.chip_core.specs.Chip.{IsChip, view_of};
ghost use Rattle.hw_undo.specs.Counts.{additions, deletions, differing, writes_made};
ghost use Rattle.hw_undo.specs.Moments.{AreNotedUpToWhere, AreNotedWhere, moment};
ghost use Rattle.net_types.specs.Capacity.{over};
ghost use Rattle.hw_undo.specs.Phases.{AreReadyRows, with_new};

use crate::undo::undo_writes;
use crate::write::Write;
use crate::{UndoLog, groups, hosts, l2, routes};
use chip_core::{HwSwitch, RowChanges, Table};

/// Deletes what stands in the way of the new rows: what leads somewhere goes before what it leads
/// to. So routes that differ go first, and then the groups, hosts and l2 rows that have no new row.
fn delete_rows<C: HwSwitch>(chip: &mut C, log: &mut Vec<Write>, changes: &RowChanges)
    requires old { AreOldRows changes.now (view_of (C.raw chip.old)) }
    requires closed { IsClosed (changed_rows changes.now (view_of (C.raw chip.old))) }
    requires room { vec_len log.old + deletions changes.now ≤ vec_capacity log.old }
    ensures ready { AreReadyRows changes.now (view_of (C.raw chip.new)) }
    ensures goal { with_new changes.now (view_of (C.raw chip.new)) ≡ changed_rows changes.now (view_of (C.raw chip.old)) }
    ensures noted { AreNotedWhere (λ groups. groups ≡ changes.now.group) (deletions changes.now) (moment (C.raw chip.old) (C.caps chip.old) (C.writes chip.old) log.old) (moment (C.raw chip.new) (C.caps chip.new) (C.writes chip.new) log.new) }
{
    let l2 = changes.l2.as_slice();
    let host = changes.host.as_slice();
    let group = changes.group.as_slice();
    let route = changes.route.as_slice();
    routes::remove_rows(chip, log, route);
    groups::remove_rows(chip, log, group);
    hosts::remove_rows(chip, log, host);
    l2::remove_rows(chip, log, l2);
}

/// Adds and sets the new rows: what is led to comes before what leads there. It stops at the first
/// table that has no room.
fn write_rows<C: HwSwitch>(
    chip: &mut C,
    log: &mut Vec<Write>,
    changes: &RowChanges,
) -> Result<(), Table>
    requires ready { AreReadyRows changes.now (view_of (C.raw chip.old)) }
    requires closed { IsClosed (with_new changes.now (view_of (C.raw chip.old))) }
    requires room { vec_len log.old + additions changes.now ≤ vec_capacity log.old }
    ensures view { OnOk result (view_of (C.raw chip.new) ≡ with_new changes.now (view_of (C.raw chip.old))) }
    ensures first { result_err result ≡ over (with_new changes.now (view_of (C.raw chip.old))) (C.caps chip.old) }
    ensures noted { OnOk result (AreNotedWhere (λ groups. groups ≡ changes.now.group) (additions changes.now) (moment (C.raw chip.old) (C.caps chip.old) (C.writes chip.old) log.old) (moment (C.raw chip.new) (C.caps chip.new) (C.writes chip.new) log.new)) }
    ensures some { OnErr result (AreNotedUpToWhere (λ groups. groups ≡ changes.now.group) (additions changes.now) (moment (C.raw chip.old) (C.caps chip.old) (C.writes chip.old) log.old) (moment (C.raw chip.new) (C.caps chip.new) (C.writes chip.new) log.new)) }
{
    let l2 = changes.l2.as_slice();
    let host = changes.host.as_slice();
    let group = changes.group.as_slice();
    let route = changes.route.as_slice();
    if l2::add_rows(chip, log, l2).is_err() {
        return Err(Table::L2);
    }
    if hosts::add_rows(chip, log, host).is_err() {
        return Err(Table::Host);
    }
    if groups::add_rows(chip, log, group).is_err() {
        return Err(Table::Group);
    }
    if routes::add_rows(chip, log, route).is_err() {
        return Err(Table::Route);
    }
    Ok(())
}

/// Writes the changed rows to the chip: the new row of each listed key in place of its old one. It
/// writes all of them, or leaves the chip as it was, slots included, and names the first table that
/// is too small for its rows. It takes no memory: the log has the room, is empty again afterwards,
/// and keeps its room for the next commit.
///
/// Within a table the rows are written by ascending key, and a new host or group takes the lowest
/// free slot. What is deleted is deleted before anything is added, so that a table that is full may
/// change as long as the changed rows fit.
pub fn commit<C: HwSwitch>(
    chip: &mut C,
    changes: RowChanges,
    log: &mut UndoLog,
) -> Result<(), Table>
    requires room { writes_of changes ≤ log.old }
    requires old { AreOldRows changes (view_of (C.raw chip.old)) }
    requires closed { IsClosed (changed_rows changes (view_of (C.raw chip.old))) }

    // On Ok the chip has the changed rows.
    ensures ok { OnOk result (view_of (C.raw chip.new) ≡ changed_rows changes (view_of (C.raw chip.old))) }

    // It fails exactly where the changed rows don't fit, and names the first table that is too small.
    ensures first { result_err result ≡ over (changed_rows changes (view_of (C.raw chip.old))) (C.caps chip.old) }
    ensures err { OnErr result (C.raw chip.new ≡ C.raw chip.old) }

    // What holds of both.
    ensures sound { IsChip (C.caps chip.new) (C.raw chip.new) }
    ensures caps { C.caps chip.new ≡ C.caps chip.old }
    ensures room { log.old ≤ log.new }

    // How many writes the chip has had: at most two a row that differs, or four where they were undone.
    ensures made { OnOk result (C.writes chip.new ≡ C.writes chip.old + writes_made changes) }
    ensures undone { OnErr result (C.writes chip.new ≤ C.writes chip.old + 2 * writes_made changes) }
    ensures two_a_row { OnOk result (C.writes chip.new ≤ C.writes chip.old + 2 * differing changes) }
    ensures four_a_row { OnErr result (C.writes chip.new ≤ C.writes chip.old + 4 * differing changes) }
{
    delete_rows(chip, &mut log.writes, &changes);
    match write_rows(chip, &mut log.writes, &changes) {
        Ok(()) => {
            log.writes.clear();
            Ok(())
        }
        Err(table) => {
            undo_writes(chip, &mut log.writes, changes.group.as_slice());
            Err(table)
        }
    }
}
