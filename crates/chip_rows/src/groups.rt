// The rows of the group table, and the keys of groups by slot.
ghost use Rattle.std.specs.Prelude.{◌≡◌, ◌++◌, ◌∷◌, [], IfOk, OnOk, filter_map, map};
ghost use Rattle.std.specs.List.{cons_option};
ghost use Rattle.std.specs.Ordering.{nat_cmp};
ghost use Rattle.keyed.specs.Keyed.{Ascends};
ghost use Rattle.chip_core.specs.Chip.{marks_of};
ghost use Rattle.chip_rows.specs.BySlot.{group_keys, group_rows, member_keys};

use crate::hosts::key_at;
use chip_core::MarkList;
use net_types::{HostKey, HostKeyList, ItemList, Member, MemberList, NoMemory, Shared};
use std::alloc::Global;

/// The groups of a chip's tables: the key of each by slot, and their rows in the order of their slots.
#[derive(Drop)]
pub(crate) struct GroupLists {
    pub(crate) by_slot: Vec<(u32, HostKeyList)>,
    pub(crate) rows: Vec<(HostKeyList, MarkList)>,
}

impl GroupLists {
    /// The groups with these members, whose hosts have these keys. The key and the row of a group
    /// share one list.
    pub(crate) fn of(
        alloc: Global,
        keys: &[(u32, HostKey)],
        groups: &[(u32, MemberList)],
    ) -> Result<GroupLists, NoMemory>
        requires { Ascends nat_cmp keys.now }
        ensures by_slot { IfOk result (λ lists. lists.by_slot.items ≡ group_keys keys.now groups.now) }
        ensures rows { IfOk result (λ lists. lists.rows.items ≡ group_rows keys.now groups.now) }
    {
        let mut lists = GroupLists {
            by_slot: Vec::with_capacity(alloc, groups.len())?,
            rows: Vec::with_capacity(alloc, groups.len())?,
        };
        for group in groups {
            lists.add(alloc, keys, group)?;
        }
        Ok(lists)
    }

    fn add(
        &mut self,
        alloc: Global,
        keys: &[(u32, HostKey)],
        group: &(u32, MemberList),
    ) -> Result<(), NoMemory>
        requires { Ascends nat_cmp keys.now }
        ensures by_slot { OnOk result (self.new.by_slot.items ≡ self.old.by_slot.items ++ group_keys keys.now (group.now ∷ [])) }
        ensures rows { OnOk result (self.new.rows.items ≡ self.old.rows.items ++ group_rows keys.now (group.now ∷ [])) }
    {
        let members = group.1.as_slice();
        let hosts = member_keys(alloc, keys, members)?;
        self.by_slot.push((group.0, hosts.share()?))?;
        let marks = marks_of(alloc, members)?;
        self.rows.push((hosts, marks))?;
        Ok(())
    }
}

/// The keys of the members' hosts, in order.
fn member_keys(
    alloc: Global,
    keys: &[(u32, HostKey)],
    members: &[Member],
) -> Result<HostKeyList, NoMemory>
    requires { Ascends nat_cmp keys.now }
    ensures { IfOk result (λ hosts. hosts ≡ member_keys keys.now members.now) }
{
    let mut hosts = ItemList::new(alloc);
    for member in members {
        let key = key_at(keys, member.host);
        push_key(&mut hosts, key)?;
    }
    Shared::of(alloc, hosts)
}

/// Puts a key last, where there is one.
fn push_key(hosts: &mut ItemList<HostKey>, key: Option<HostKey>) -> Result<(), NoMemory>
    ensures { OnOk result (hosts.new ≡ hosts.old ++ cons_option key []) }
{
    match key {
        Some(key) => hosts.push(key),
        None => Ok(()),
    }
}

/// Whether each member is live, in order.
fn marks_of(alloc: Global, members: &[Member]) -> Result<MarkList, NoMemory>
    ensures { IfOk result (λ marks. marks ≡ marks_of members.now) }
{
    let mut marks = MarkList::new(alloc);
    for member in members {
        marks.push(member.live)?;
    }
    Ok(marks)
}
