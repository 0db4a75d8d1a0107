// The group table's part of a commit.
ghost use Rattle.std.specs.Prelude.{◌≡◌, ◌<◌, ◌≤◌, ◌+◌, All, None, Some, IsSome, OnErr, OnOk, length, map, vec_capacity, vec_len};
ghost use Rattle.std.specs.Option.{option_map};
ghost use Rattle.std.specs.Ordering.{nat_cmp};
ghost use Rattle.keyed.specs.Keyed.{at, put, without};
ghost use Rattle.net_types.specs.Groups.{IsGroupLength, group_key_of};
ghost use Rattle.net_types.specs.KeyOrder.{group_cmp, host_cmp};
ghost use Rattle.chip_core.specs.ChangeLists.{AreGroupChanges, IsAscending, IsGroupChange};
ghost use Rattle.chip_core.specs.Changes.{AreOld, add_one, adds, remove_one, removes};
ghost use Rattle.net_types.specs.Closed.{IsClosed};
ghost use Rattle.chip_core.specs.Chip.{key_in, view_of};
ghost use Rattle.hw_undo.specs.Counts.{new_rows_in, removals_in, rows_in, sum_over};
ghost use Rattle.hw_undo.specs.Moments.{AreNoted, AreNotedUpToWhere, AreNotedWhere, moment};
ghost use Rattle.hw_undo.specs.Undo.{IsListed};
ghost use Rattle.hw_undo.specs.Phases.{AreReady, old_if};

use crate::log::note;
use crate::members::{row_of, slots_of};
use crate::write::Write;
use chip_core::{Full, HwSwitch, MarkList};
use net_types::{GroupKey, HostKey, HostKeyList};

/// A row that changes.
pub(crate) type GroupChange = (HostKeyList, Option<MarkList>, Option<MarkList>);

/// The slot of a group that is there, by the slots of its hosts.
fn slot_at<C: HwSwitch>(chip: &C, keys: &[HostKey], slots: &[u32]) -> u32
    requires there { IsSome (at group_cmp keys.now (view_of (C.raw chip.now)).group) }
    requires slots { map (λ slot. key_in (C.raw chip.now).host slot) slots.now ≡ map (λ key. Some key) keys.now }
    ensures { option_map group_key_of (at nat_cmp result (C.raw chip.now).group) ≡ Some slots.now }
{
    match chip.find_group(slots) {
        Some(slot) => slot,
        None => unreachable!(),
    }
}

/// The slot of a group that is there, and those of its hosts.
pub(crate) fn slots_at<C: HwSwitch>(chip: &C, keys: &[HostKey]) -> (u32, GroupKey)
    requires few { length keys.now ≤ 64 }
    requires there { IsSome (at group_cmp keys.now (view_of (C.raw chip.now)).group) }
    ensures hosts { map (λ slot. key_in (C.raw chip.now).host slot) result.1 ≡ map (λ key. Some key) keys.now }
    ensures group { option_map group_key_of (at nat_cmp result.0 (C.raw chip.now).group) ≡ Some result.1 }
{
    let slots = slots_of(chip, keys);
    let slot = slot_at(chip, keys, slots.as_slice());
    (slot, slots)
}

fn del_row<C: HwSwitch>(chip: &mut C, log: &mut Vec<Write>, keys: &[HostKey], place: usize)
    requires few { length keys.now ≤ 64 }
    requires there { IsSome (at group_cmp keys.now (view_of (C.raw chip.old)).group) }
    requires closed { IsClosed (record (view_of (C.raw chip.old)) { group = without group_cmp keys.now (view_of (C.raw chip.old)).group }) }
    requires room { vec_len log.old < vec_capacity log.old }
    ensures view { view_of (C.raw chip.new) ≡ record (view_of (C.raw chip.old)) { group = without group_cmp keys.now (view_of (C.raw chip.old)).group } }
    ensures noted { AreNotedWhere (λ groups. IsListed groups place keys.now (at group_cmp keys.now (view_of (C.raw chip.old)).group)) 1 (moment (C.raw chip.old) (C.caps chip.old) (C.writes chip.old) log.old) (moment (C.raw chip.new) (C.caps chip.new) (C.writes chip.new) log.new) }
{
    let (slot, _) = slots_at(chip, keys);
    chip.del_group(slot);
    note(log, Write::RemovedGroup(slot, place));
}

fn set_row<C: HwSwitch>(
    chip: &mut C,
    log: &mut Vec<Write>,
    keys: &[HostKey],
    marks: &[bool],
    place: usize,
)
    requires long { IsGroupLength (length keys.now) }
    requires marked { length marks.now ≡ length keys.now }
    requires there { IsSome (at group_cmp keys.now (view_of (C.raw chip.old)).group) }
    requires room { vec_len log.old < vec_capacity log.old }
    ensures view { view_of (C.raw chip.new) ≡ record (view_of (C.raw chip.old)) { group = put group_cmp keys.now marks.now (view_of (C.raw chip.old)).group } }
    ensures noted { AreNotedWhere (λ groups. IsListed groups place keys.now (at group_cmp keys.now (view_of (C.raw chip.old)).group)) 1 (moment (C.raw chip.old) (C.caps chip.old) (C.writes chip.old) log.old) (moment (C.raw chip.new) (C.caps chip.new) (C.writes chip.new) log.new) }
{
    let (slot, slots) = slots_at(chip, keys);
    chip.set_group(slot, row_of(slots.as_slice(), marks));
    note(log, Write::SetGroup(slot, place));
}

fn put_row<C: HwSwitch>(
    chip: &mut C,
    log: &mut Vec<Write>,
    keys: &[HostKey],
    marks: &[bool],
) -> Result<(), Full>
    requires long { IsGroupLength (length keys.now) }
    requires marked { length marks.now ≡ length keys.now }
    requires known { All (λ key. IsSome (at host_cmp key (view_of (C.raw chip.old)).host)) keys.now }
    requires absent { at group_cmp keys.now (view_of (C.raw chip.old)).group ≡ None }
    requires room { vec_len log.old < vec_capacity log.old }
    ensures view { OnOk result (view_of (C.raw chip.new) ≡ record (view_of (C.raw chip.old)) { group = put group_cmp keys.now marks.now (view_of (C.raw chip.old)).group }) }
    ensures noted { OnOk result (AreNoted 1 (moment (C.raw chip.old) (C.caps chip.old) (C.writes chip.old) log.old) (moment (C.raw chip.new) (C.caps chip.new) (C.writes chip.new) log.new)) }
    ensures full { OnErr result ((C.caps chip.old).group < length (put group_cmp keys.now marks.now (view_of (C.raw chip.old)).group)) }
    ensures none { OnErr result (AreNoted 0 (moment (C.raw chip.old) (C.caps chip.old) (C.writes chip.old) log.old) (moment (C.raw chip.new) (C.caps chip.new) (C.writes chip.new) log.new)) }
{
    let slots = slots_of(chip, keys);
    match chip.add_group(row_of(slots.as_slice(), marks)) {
        Ok(slot) => {
            note(log, Write::AddedGroup(slot));
            Ok(())
        }
        Err(full) => Err(full),
    }
}

fn remove_row<C: HwSwitch>(
    chip: &mut C,
    log: &mut Vec<Write>,
    keys: &HostKeyList,
    old: &Option<MarkList>,
    new: &Option<MarkList>,
    place: usize,
)
    requires group { IsGroupChange (keys.now, old.now, new.now) }
    requires old { at group_cmp keys.now (view_of (C.raw chip.old)).group ≡ old.now }
    requires closed { IsClosed (record (view_of (C.raw chip.old)) { group = remove_one group_cmp keys.now new.now (view_of (C.raw chip.old)).group }) }
    requires room { vec_len log.old + removals_in old.now new.now ≤ vec_capacity log.old }
    ensures view { view_of (C.raw chip.new) ≡ record (view_of (C.raw chip.old)) { group = remove_one group_cmp keys.now new.now (view_of (C.raw chip.old)).group } }
    ensures noted { AreNotedWhere (λ groups. IsListed groups place keys.now old.now) (removals_in old.now new.now) (moment (C.raw chip.old) (C.caps chip.old) (C.writes chip.old) log.old) (moment (C.raw chip.new) (C.caps chip.new) (C.writes chip.new) log.new) }
{
    match (old, new) {
        (_, Some(_)) => {}
        (None, None) => {}
        (Some(_), None) => del_row(chip, log, keys.as_slice(), place),
    }
}

/// Deletes the rows that have no new one. No route leads to their groups.
pub(crate) fn remove_rows<C: HwSwitch>(chip: &mut C, log: &mut Vec<Write>, changes: &[GroupChange])
    requires ascending { IsAscending group_cmp changes.now }
    requires groups { AreGroupChanges changes.now }
    requires old { AreOld group_cmp changes.now (view_of (C.raw chip.old)).group }
    requires closed { IsClosed (record (view_of (C.raw chip.old)) { group = removes group_cmp changes.now (view_of (C.raw chip.old)).group }) }
    requires room { vec_len log.old + sum_over removals_in changes.now ≤ vec_capacity log.old }
    ensures view { view_of (C.raw chip.new) ≡ record (view_of (C.raw chip.old)) { group = removes group_cmp changes.now (view_of (C.raw chip.old)).group } }
    ensures noted { AreNotedWhere (λ groups. groups ≡ changes.now) (sum_over removals_in changes.now) (moment (C.raw chip.old) (C.caps chip.old) (C.writes chip.old) log.old) (moment (C.raw chip.new) (C.caps chip.new) (C.writes chip.new) log.new) }
{
    for (place, change) in changes.iter().enumerate() {
        remove_row(chip, log, &change.0, &change.1, &change.2, place);
    }
}

fn add_row<C: HwSwitch>(
    chip: &mut C,
    log: &mut Vec<Write>,
    keys: &HostKeyList,
    old: &Option<MarkList>,
    new: &Option<MarkList>,
    place: usize,
) -> Result<(), Full>
    requires group { IsGroupChange (keys.now, old.now, new.now) }
    requires ready { at group_cmp keys.now (view_of (C.raw chip.old)).group ≡ old_if old.now new.now }
    requires known { IsSome new.now → All (λ key. IsSome (at host_cmp key (view_of (C.raw chip.old)).host)) keys.now }
    requires room { vec_len log.old + rows_in new.now ≤ vec_capacity log.old }
    ensures view { OnOk result (view_of (C.raw chip.new) ≡ record (view_of (C.raw chip.old)) { group = add_one group_cmp keys.now new.now (view_of (C.raw chip.old)).group }) }
    ensures noted { OnOk result (AreNotedWhere (λ groups. IsListed groups place keys.now old.now) (rows_in new.now) (moment (C.raw chip.old) (C.caps chip.old) (C.writes chip.old) log.old) (moment (C.raw chip.new) (C.caps chip.new) (C.writes chip.new) log.new)) }
    ensures full { OnErr result ((C.caps chip.old).group < length (add_one group_cmp keys.now new.now (view_of (C.raw chip.old)).group)) }
    ensures none { OnErr result (AreNotedWhere (λ groups. IsListed groups place keys.now old.now) 0 (moment (C.raw chip.old) (C.caps chip.old) (C.writes chip.old) log.old) (moment (C.raw chip.new) (C.caps chip.new) (C.writes chip.new) log.new)) }
{
    match (old, new) {
        (_, None) => Ok(()),
        (None, Some(marks)) => put_row(chip, log, keys.as_slice(), marks.as_slice()),
        (Some(_), Some(marks)) => {
            set_row(chip, log, keys.as_slice(), marks.as_slice(), place);
            Ok(())
        }
    }
}

/// Adds and sets the new rows, whose hosts are there. It stops where one has no room.
pub(crate) fn add_rows<C: HwSwitch>(
    chip: &mut C,
    log: &mut Vec<Write>,
    changes: &[GroupChange],
) -> Result<(), Full>
    requires ascending { IsAscending group_cmp changes.now }
    requires groups { AreGroupChanges changes.now }
    requires ready { AreReady group_cmp changes.now (view_of (C.raw chip.old)).group }
    requires closed { IsClosed (record (view_of (C.raw chip.old)) { group = adds group_cmp changes.now (view_of (C.raw chip.old)).group }) }
    requires room { vec_len log.old + sum_over new_rows_in changes.now ≤ vec_capacity log.old }
    ensures view { OnOk result (view_of (C.raw chip.new) ≡ record (view_of (C.raw chip.old)) { group = adds group_cmp changes.now (view_of (C.raw chip.old)).group }) }
    ensures noted { OnOk result (AreNotedWhere (λ groups. groups ≡ changes.now) (sum_over new_rows_in changes.now) (moment (C.raw chip.old) (C.caps chip.old) (C.writes chip.old) log.old) (moment (C.raw chip.new) (C.caps chip.new) (C.writes chip.new) log.new)) }
    ensures full { OnErr result ((C.caps chip.old).group < length (adds group_cmp changes.now (view_of (C.raw chip.old)).group)) }
    ensures some { OnErr result (AreNotedUpToWhere (λ groups. groups ≡ changes.now) (sum_over new_rows_in changes.now) (moment (C.raw chip.old) (C.caps chip.old) (C.writes chip.old) log.old) (moment (C.raw chip.new) (C.caps chip.new) (C.writes chip.new) log.new)) }
{
    for (place, change) in changes.iter().enumerate() {
        add_row(chip, log, &change.0, &change.1, &change.2, place)?;
    }
    Ok(())
}
