// The host table's part of a commit.
ghost use Rattle.std.specs.Prelude.{◌≡◌, ◌<◌, ◌≤◌, ◌+◌, None, IsSome, OnErr, OnOk, length, vec_capacity, vec_len};
ghost use Rattle.std.specs.Option.{option_map};
ghost use Rattle.keyed.specs.Keyed.{at, put, without};
ghost use Rattle.net_types.specs.KeyOrder.{host_cmp};
ghost use Rattle.chip_core.specs.ChangeLists.{IsAscending};
ghost use Rattle.chip_core.specs.Changes.{AreOld, add_one, adds, remove_one, removes};
ghost use Rattle.net_types.specs.Closed.{IsClosed};
ghost use Rattle.chip_core.specs.Chip.{view_of};
ghost use Rattle.chip_core.specs.Slots.{host_at};
ghost use Rattle.hw_undo.specs.Counts.{new_rows_in, removals_in, rows_in, sum_over};
ghost use Rattle.hw_undo.specs.Moments.{AreNoted, AreNotedUpTo, moment};
ghost use Rattle.hw_undo.specs.Phases.{AreReady, old_if};

use crate::log::note;
use crate::write::Write;
use chip_core::{Full, HwSwitch};
use net_types::{HostKey, HostRow};

/// A row that changes.
pub(crate) type HostChange = (HostKey, Option<HostRow>, Option<HostRow>);

/// The slot of a host that is there.
pub(crate) fn slot_at<C: HwSwitch>(chip: &C, key: &HostKey) -> u32
    requires { IsSome (at host_cmp key.now (view_of (C.raw chip.now)).host) }
    ensures { host_at result (C.raw chip.now).host ≡ option_map (λ row. (key.now, row)) (at host_cmp key.now (view_of (C.raw chip.now)).host) }
{
    match chip.find_host(key) {
        Some(slot) => slot,
        None => unreachable!(),
    }
}

fn del_row<C: HwSwitch>(chip: &mut C, log: &mut Vec<Write>, key: &HostKey)
    requires there { IsSome (at host_cmp key.now (view_of (C.raw chip.old)).host) }
    requires closed { IsClosed (record (view_of (C.raw chip.old)) { host = without host_cmp key.now (view_of (C.raw chip.old)).host }) }
    requires room { vec_len log.old < vec_capacity log.old }
    ensures view { view_of (C.raw chip.new) ≡ record (view_of (C.raw chip.old)) { host = without host_cmp key.now (view_of (C.raw chip.old)).host } }
    ensures noted { AreNoted 1 (moment (C.raw chip.old) (C.caps chip.old) (C.writes chip.old) log.old) (moment (C.raw chip.new) (C.caps chip.new) (C.writes chip.new) log.new) }
{
    let slot = slot_at(chip, key);
    let (old_key, old_row) = chip.del_host(slot);
    note(log, Write::RemovedHost(slot, old_key, old_row));
}

fn set_row<C: HwSwitch>(chip: &mut C, log: &mut Vec<Write>, key: &HostKey, row: HostRow)
    requires there { IsSome (at host_cmp key.now (view_of (C.raw chip.old)).host) }
    requires room { vec_len log.old < vec_capacity log.old }
    ensures view { view_of (C.raw chip.new) ≡ record (view_of (C.raw chip.old)) { host = put host_cmp key.now row (view_of (C.raw chip.old)).host } }
    ensures noted { AreNoted 1 (moment (C.raw chip.old) (C.caps chip.old) (C.writes chip.old) log.old) (moment (C.raw chip.new) (C.caps chip.new) (C.writes chip.new) log.new) }
{
    let slot = slot_at(chip, key);
    let old = chip.set_host(slot, row);
    note(log, Write::SetHost(slot, old));
}

fn put_row<C: HwSwitch>(
    chip: &mut C,
    log: &mut Vec<Write>,
    key: &HostKey,
    row: HostRow,
) -> Result<(), Full>
    requires absent { at host_cmp key.now (view_of (C.raw chip.old)).host ≡ None }
    requires room { vec_len log.old < vec_capacity log.old }
    ensures view { OnOk result (view_of (C.raw chip.new) ≡ record (view_of (C.raw chip.old)) { host = put host_cmp key.now row (view_of (C.raw chip.old)).host }) }
    ensures noted { OnOk result (AreNoted 1 (moment (C.raw chip.old) (C.caps chip.old) (C.writes chip.old) log.old) (moment (C.raw chip.new) (C.caps chip.new) (C.writes chip.new) log.new)) }
    ensures full { OnErr result ((C.caps chip.old).host < length (put host_cmp key.now row (view_of (C.raw chip.old)).host)) }
    ensures none { OnErr result (AreNoted 0 (moment (C.raw chip.old) (C.caps chip.old) (C.writes chip.old) log.old) (moment (C.raw chip.new) (C.caps chip.new) (C.writes chip.new) log.new)) }
{
    match chip.add_host(*key, row) {
        Ok(slot) => {
            note(log, Write::AddedHost(slot));
            Ok(())
        }
        Err(full) => Err(full),
    }
}

fn remove_row<C: HwSwitch>(
    chip: &mut C,
    log: &mut Vec<Write>,
    key: &HostKey,
    old: &Option<HostRow>,
    new: &Option<HostRow>,
)
    requires old { at host_cmp key.now (view_of (C.raw chip.old)).host ≡ old.now }
    requires closed { IsClosed (record (view_of (C.raw chip.old)) { host = remove_one host_cmp key.now new.now (view_of (C.raw chip.old)).host }) }
    requires room { vec_len log.old + removals_in old.now new.now ≤ vec_capacity log.old }
    ensures view { view_of (C.raw chip.new) ≡ record (view_of (C.raw chip.old)) { host = remove_one host_cmp key.now new.now (view_of (C.raw chip.old)).host } }
    ensures noted { AreNoted (removals_in old.now new.now) (moment (C.raw chip.old) (C.caps chip.old) (C.writes chip.old) log.old) (moment (C.raw chip.new) (C.caps chip.new) (C.writes chip.new) log.new) }
{
    match (old, new) {
        (_, Some(_)) => {}
        (None, None) => {}
        (Some(_), None) => del_row(chip, log, key),
    }
}

/// Deletes the rows that have no new one. No group and no route leads to their hosts.
pub(crate) fn remove_rows<C: HwSwitch>(chip: &mut C, log: &mut Vec<Write>, changes: &[HostChange])
    requires ascending { IsAscending host_cmp changes.now }
    requires old { AreOld host_cmp changes.now (view_of (C.raw chip.old)).host }
    requires closed { IsClosed (record (view_of (C.raw chip.old)) { host = removes host_cmp changes.now (view_of (C.raw chip.old)).host }) }
    requires room { vec_len log.old + sum_over removals_in changes.now ≤ vec_capacity log.old }
    ensures view { view_of (C.raw chip.new) ≡ record (view_of (C.raw chip.old)) { host = removes host_cmp changes.now (view_of (C.raw chip.old)).host } }
    ensures noted { AreNoted (sum_over removals_in changes.now) (moment (C.raw chip.old) (C.caps chip.old) (C.writes chip.old) log.old) (moment (C.raw chip.new) (C.caps chip.new) (C.writes chip.new) log.new) }
{
    for change in changes {
        remove_row(chip, log, &change.0, &change.1, &change.2);
    }
}

fn add_row<C: HwSwitch>(
    chip: &mut C,
    log: &mut Vec<Write>,
    key: &HostKey,
    old: &Option<HostRow>,
    new: &Option<HostRow>,
) -> Result<(), Full>
    requires ready { at host_cmp key.now (view_of (C.raw chip.old)).host ≡ old_if old.now new.now }
    requires room { vec_len log.old + rows_in new.now ≤ vec_capacity log.old }
    ensures view { OnOk result (view_of (C.raw chip.new) ≡ record (view_of (C.raw chip.old)) { host = add_one host_cmp key.now new.now (view_of (C.raw chip.old)).host }) }
    ensures noted { OnOk result (AreNoted (rows_in new.now) (moment (C.raw chip.old) (C.caps chip.old) (C.writes chip.old) log.old) (moment (C.raw chip.new) (C.caps chip.new) (C.writes chip.new) log.new)) }
    ensures full { OnErr result ((C.caps chip.old).host < length (add_one host_cmp key.now new.now (view_of (C.raw chip.old)).host)) }
    ensures none { OnErr result (AreNoted 0 (moment (C.raw chip.old) (C.caps chip.old) (C.writes chip.old) log.old) (moment (C.raw chip.new) (C.caps chip.new) (C.writes chip.new) log.new)) }
{
    match (old, new) {
        (_, None) => Ok(()),
        (None, Some(row)) => put_row(chip, log, key, *row),
        (Some(_), Some(row)) => {
            set_row(chip, log, key, *row);
            Ok(())
        }
    }
}

/// Adds and sets the new rows. It stops where one has no room.
pub(crate) fn add_rows<C: HwSwitch>(
    chip: &mut C,
    log: &mut Vec<Write>,
    changes: &[HostChange],
) -> Result<(), Full>
    requires ascending { IsAscending host_cmp changes.now }
    requires ready { AreReady host_cmp changes.now (view_of (C.raw chip.old)).host }
    requires room { vec_len log.old + sum_over new_rows_in changes.now ≤ vec_capacity log.old }
    ensures view { OnOk result (view_of (C.raw chip.new) ≡ record (view_of (C.raw chip.old)) { host = adds host_cmp changes.now (view_of (C.raw chip.old)).host }) }
    ensures noted { OnOk result (AreNoted (sum_over new_rows_in changes.now) (moment (C.raw chip.old) (C.caps chip.old) (C.writes chip.old) log.old) (moment (C.raw chip.new) (C.caps chip.new) (C.writes chip.new) log.new)) }
    ensures full { OnErr result ((C.caps chip.old).host < length (adds host_cmp changes.now (view_of (C.raw chip.old)).host)) }
    ensures some { OnErr result (AreNotedUpTo (sum_over new_rows_in changes.now) (moment (C.raw chip.old) (C.caps chip.old) (C.writes chip.old) log.old) (moment (C.raw chip.new) (C.caps chip.new) (C.writes chip.new) log.new)) }
{
    for change in changes {
        add_row(chip, log, &change.0, &change.1, &change.2)?;
    }
    Ok(())
}
