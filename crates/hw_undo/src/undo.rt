// The way back.
ghost use Rattle.std.specs.Prelude.{◌≡◌, ◌+◌, [], vec_capacity, vec_len};
ghost use Rattle.hw_undo.specs.Undo.{AreUndoable, HasOldMembers, IsUndoable, old_members, rolled_back, undone};

use crate::groups::GroupChange;
use crate::members::{row_of, slots_of};
use crate::write::Write;
use chip_core::{GroupRow, HwSwitch};

/// Undoes a write of a commit with these changes of groups.
fn undo_write<C: HwSwitch>(chip: &mut C, write: &Write, groups: &[GroupChange])
    requires { IsUndoable groups.now (C.caps chip.old) write.now (C.raw chip.old) }
    ensures raw { C.raw chip.new ≡ undone groups.now write.now (C.raw chip.old) }
    ensures caps { C.caps chip.new ≡ C.caps chip.old }
    ensures writes { C.writes chip.new ≡ C.writes chip.old + 1 }
{
    match write {
        Write::AddedL2(key) => {
            chip.del_l2(key);
        }
        Write::SetL2(key, row) => {
            chip.set_l2(key, *row);
        }
        Write::RemovedL2(key, row) => chip.put_back_l2(*key, *row),
        Write::AddedHost(slot) => {
            chip.del_host(*slot);
        }
        Write::SetHost(slot, row) => {
            chip.set_host(*slot, *row);
        }
        Write::RemovedHost(slot, key, row) => chip.put_back_host(*slot, *key, *row),
        Write::AddedGroup(slot) => {
            chip.del_group(*slot);
        }
        Write::SetGroup(slot, place) => {
            let row = old_row(chip, groups, *place);
            chip.set_group(*slot, row);
        }
        Write::RemovedGroup(slot, place) => {
            let row = old_row(chip, groups, *place);
            chip.put_back_group(*slot, row);
        }
        Write::AddedRoute(key) => {
            chip.del_route(key);
        }
        Write::RemovedRoute(key, row) => chip.put_back_route(*key, *row),
    }
}

/// The old row of the group whose change is listed at that place. Its hosts are there, in the slots
/// that they had when the row was noted.
fn old_row<C: HwSwitch>(chip: &C, groups: &[GroupChange], place: usize) -> GroupRow
    requires { HasOldMembers groups.now place (C.raw chip.now) }
    ensures { result ≡ old_members groups.now place (C.raw chip.now).host }
{
    let change = &groups[place];
    match &change.1 {
        Some(marks) => {
            let slots = slots_of(chip, change.0.as_slice());
            row_of(slots.as_slice(), marks.as_slice())
        }
        None => unreachable!(),
    }
}

/// Undoes all noted writes of a commit with these changes of groups, from the last to the first, and
/// leaves the log empty.
pub(crate) fn undo_writes<C: HwSwitch>(chip: &mut C, log: &mut Vec<Write>, groups: &[GroupChange])
    requires { AreUndoable groups.now (C.caps chip.old) log.old.items (C.raw chip.old) }
    ensures raw { C.raw chip.new ≡ rolled_back groups.now log.old.items (C.raw chip.old) }
    ensures caps { C.caps chip.new ≡ C.caps chip.old }
    ensures writes { C.writes chip.new ≡ C.writes chip.old + vec_len log.old }
    ensures empty { log.new.items ≡ [] }
    ensures room { vec_capacity log.new ≡ vec_capacity log.old }
{
    for write in log.iter().rev() {
        undo_write(chip, write, groups);
    }
    log.clear();
}
