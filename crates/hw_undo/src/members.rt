// A group's hosts as slots, and its row.
ghost use Rattle.std.specs.Prelude.{◌≡◌, ◌≤◌, IsSome, All, Some, length, map};
ghost use Rattle.keyed.specs.Keyed.{at};
ghost use Rattle.net_types.specs.Groups.{IsGroupLength, group_key_of};
ghost use Rattle.net_types.specs.KeyOrder.{host_cmp};
ghost use Rattle.chip_core.specs.Chip.{key_in, marks_of, view_of};

use crate::hosts::slot_at;
use chip_core::HwSwitch;
use net_types::{GroupKey, GroupRow, HostKey, Member};

/// The key of the group of these hosts, which are there: their slots, in order.
pub(crate) fn slots_of<C: HwSwitch>(chip: &C, keys: &[HostKey]) -> GroupKey
    requires few { length keys.now ≤ 64 }
    requires known { All (λ key. IsSome (at host_cmp key (view_of (C.raw chip.now)).host)) keys.now }
    ensures { map (λ slot. key_in (C.raw chip.now).host slot) result ≡ map (λ key. Some key) keys.now }
{
    let mut slots = GroupKey::new();
    for key in keys {
        slots.push(slot_at(chip, key));
    }
    slots
}

/// The row of a group with the hosts in these slots, each with its mark.
pub(crate) fn row_of(slots: &[u32], marks: &[bool]) -> GroupRow
    requires length { IsGroupLength (length marks.now) }
    requires marked { length slots.now ≡ length marks.now }
    ensures key { group_key_of result ≡ slots.now }
    ensures marks { marks_of result ≡ marks.now }
{
    let mut members = [Member {
        host: 0,
        live: false,
    }; 64];
    for (place, live) in marks.iter().enumerate() {
        members[place] = Member {
            host: slots[place],
            live: *live,
        };
    }
    match GroupRow::of(&members[..marks.len()]) {
        Some(row) => row,
        None => unreachable!(),
    }
}
