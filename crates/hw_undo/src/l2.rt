// The l2 table's part of a commit.
ghost use Rattle.std.specs.Prelude.{◌≡◌, ◌<◌, ◌≤◌, ◌+◌, None, IsSome, OnErr, OnOk, length, vec_capacity, vec_len};
ghost use Rattle.keyed.specs.Keyed.{at, put, without};
ghost use Rattle.net_types.specs.KeyOrder.{l2_cmp};
ghost use Rattle.chip_core.specs.ChangeLists.{IsAscending};
ghost use Rattle.chip_core.specs.Changes.{AreOld, add_one, adds, remove_one, removes};
ghost use Rattle.chip_core.specs.Chip.{view_of};
ghost use Rattle.hw_undo.specs.Counts.{new_rows_in, removals_in, rows_in, sum_over};
ghost use Rattle.hw_undo.specs.Moments.{AreNoted, AreNotedUpTo, moment};
ghost use Rattle.hw_undo.specs.Phases.{AreReady, old_if};

use crate::log::note;
use crate::write::Write;
use chip_core::{Full, HwSwitch};
use net_types::{L2Key, L2Row};

/// A row that changes.
pub(crate) type L2Change = (L2Key, Option<L2Row>, Option<L2Row>);

fn del_row<C: HwSwitch>(chip: &mut C, log: &mut Vec<Write>, key: &L2Key)
    requires there { IsSome (at l2_cmp key.now (view_of (C.raw chip.old)).l2) }
    requires room { vec_len log.old < vec_capacity log.old }
    ensures view { view_of (C.raw chip.new) ≡ record (view_of (C.raw chip.old)) { l2 = without l2_cmp key.now (view_of (C.raw chip.old)).l2 } }
    ensures noted { AreNoted 1 (moment (C.raw chip.old) (C.caps chip.old) (C.writes chip.old) log.old) (moment (C.raw chip.new) (C.caps chip.new) (C.writes chip.new) log.new) }
{
    let row = chip.del_l2(key);
    note(log, Write::RemovedL2(*key, row));
}

fn set_row<C: HwSwitch>(chip: &mut C, log: &mut Vec<Write>, key: &L2Key, row: L2Row)
    requires there { IsSome (at l2_cmp key.now (view_of (C.raw chip.old)).l2) }
    requires room { vec_len log.old < vec_capacity log.old }
    ensures view { view_of (C.raw chip.new) ≡ record (view_of (C.raw chip.old)) { l2 = put l2_cmp key.now row (view_of (C.raw chip.old)).l2 } }
    ensures noted { AreNoted 1 (moment (C.raw chip.old) (C.caps chip.old) (C.writes chip.old) log.old) (moment (C.raw chip.new) (C.caps chip.new) (C.writes chip.new) log.new) }
{
    let old = chip.set_l2(key, row);
    note(log, Write::SetL2(*key, old));
}

fn put_row<C: HwSwitch>(
    chip: &mut C,
    log: &mut Vec<Write>,
    key: &L2Key,
    row: L2Row,
) -> Result<(), Full>
    requires absent { at l2_cmp key.now (view_of (C.raw chip.old)).l2 ≡ None }
    requires room { vec_len log.old < vec_capacity log.old }
    ensures view { OnOk result (view_of (C.raw chip.new) ≡ record (view_of (C.raw chip.old)) { l2 = put l2_cmp key.now row (view_of (C.raw chip.old)).l2 }) }
    ensures noted { OnOk result (AreNoted 1 (moment (C.raw chip.old) (C.caps chip.old) (C.writes chip.old) log.old) (moment (C.raw chip.new) (C.caps chip.new) (C.writes chip.new) log.new)) }
    ensures full { OnErr result ((C.caps chip.old).l2 < length (put l2_cmp key.now row (view_of (C.raw chip.old)).l2)) }
    ensures none { OnErr result (AreNoted 0 (moment (C.raw chip.old) (C.caps chip.old) (C.writes chip.old) log.old) (moment (C.raw chip.new) (C.caps chip.new) (C.writes chip.new) log.new)) }
{
    match chip.add_l2(*key, row) {
        Ok(()) => {
            note(log, Write::AddedL2(*key));
            Ok(())
        }
        Err(full) => Err(full),
    }
}

fn remove_row<C: HwSwitch>(
    chip: &mut C,
    log: &mut Vec<Write>,
    key: &L2Key,
    old: &Option<L2Row>,
    new: &Option<L2Row>,
)
    requires old { at l2_cmp key.now (view_of (C.raw chip.old)).l2 ≡ old.now }
    requires room { vec_len log.old + removals_in old.now new.now ≤ vec_capacity log.old }
    ensures view { view_of (C.raw chip.new) ≡ record (view_of (C.raw chip.old)) { l2 = remove_one l2_cmp key.now new.now (view_of (C.raw chip.old)).l2 } }
    ensures noted { AreNoted (removals_in old.now new.now) (moment (C.raw chip.old) (C.caps chip.old) (C.writes chip.old) log.old) (moment (C.raw chip.new) (C.caps chip.new) (C.writes chip.new) log.new) }
{
    match (old, new) {
        (_, Some(_)) => {}
        (None, None) => {}
        (Some(_), None) => del_row(chip, log, key),
    }
}

/// Deletes the rows that have no new one.
pub(crate) fn remove_rows<C: HwSwitch>(chip: &mut C, log: &mut Vec<Write>, changes: &[L2Change])
    requires ascending { IsAscending l2_cmp changes.now }
    requires old { AreOld l2_cmp changes.now (view_of (C.raw chip.old)).l2 }
    requires room { vec_len log.old + sum_over removals_in changes.now ≤ vec_capacity log.old }
    ensures view { view_of (C.raw chip.new) ≡ record (view_of (C.raw chip.old)) { l2 = removes l2_cmp changes.now (view_of (C.raw chip.old)).l2 } }
    ensures noted { AreNoted (sum_over removals_in changes.now) (moment (C.raw chip.old) (C.caps chip.old) (C.writes chip.old) log.old) (moment (C.raw chip.new) (C.caps chip.new) (C.writes chip.new) log.new) }
{
    for change in changes {
        remove_row(chip, log, &change.0, &change.1, &change.2);
    }
}

fn add_row<C: HwSwitch>(
    chip: &mut C,
    log: &mut Vec<Write>,
    key: &L2Key,
    old: &Option<L2Row>,
    new: &Option<L2Row>,
) -> Result<(), Full>
    requires ready { at l2_cmp key.now (view_of (C.raw chip.old)).l2 ≡ old_if old.now new.now }
    requires room { vec_len log.old + rows_in new.now ≤ vec_capacity log.old }
    ensures view { OnOk result (view_of (C.raw chip.new) ≡ record (view_of (C.raw chip.old)) { l2 = add_one l2_cmp key.now new.now (view_of (C.raw chip.old)).l2 }) }
    ensures noted { OnOk result (AreNoted (rows_in new.now) (moment (C.raw chip.old) (C.caps chip.old) (C.writes chip.old) log.old) (moment (C.raw chip.new) (C.caps chip.new) (C.writes chip.new) log.new)) }
    ensures full { OnErr result ((C.caps chip.old).l2 < length (add_one l2_cmp key.now new.now (view_of (C.raw chip.old)).l2)) }
    ensures none { OnErr result (AreNoted 0 (moment (C.raw chip.old) (C.caps chip.old) (C.writes chip.old) log.old) (moment (C.raw chip.new) (C.caps chip.new) (C.writes chip.new) log.new)) }
{
    match (old, new) {
        (_, None) => Ok(()),
        (None, Some(row)) => put_row(chip, log, key, *row),
        (Some(_), Some(row)) => {
            set_row(chip, log, key, *row);
            Ok(())
        }
    }
}

/// Adds and sets the new rows. It stops where one has no room.
pub(crate) fn add_rows<C: HwSwitch>(
    chip: &mut C,
    log: &mut Vec<Write>,
    changes: &[L2Change],
) -> Result<(), Full>
    requires ascending { IsAscending l2_cmp changes.now }
    requires ready { AreReady l2_cmp changes.now (view_of (C.raw chip.old)).l2 }
    requires room { vec_len log.old + sum_over new_rows_in changes.now ≤ vec_capacity log.old }
    ensures view { OnOk result (view_of (C.raw chip.new) ≡ record (view_of (C.raw chip.old)) { l2 = adds l2_cmp changes.now (view_of (C.raw chip.old)).l2 }) }
    ensures noted { OnOk result (AreNoted (sum_over new_rows_in changes.now) (moment (C.raw chip.old) (C.caps chip.old) (C.writes chip.old) log.old) (moment (C.raw chip.new) (C.caps chip.new) (C.writes chip.new) log.new)) }
    ensures full { OnErr result ((C.caps chip.old).l2 < length (adds l2_cmp changes.now (view_of (C.raw chip.old)).l2)) }
    ensures some { OnErr result (AreNotedUpTo (sum_over new_rows_in changes.now) (moment (C.raw chip.old) (C.caps chip.old) (C.writes chip.old) log.old) (moment (C.raw chip.new) (C.caps chip.new) (C.writes chip.new) log.new)) }
{
    for change in changes {
        add_row(chip, log, &change.0, &change.1, &change.2)?;
    }
    Ok(())
}
