// Rows of given tables as a chip holds them.
ghost use Rattle.std.specs.Prelude.{◌≡◌, ◌++◌, ◌∷◌, [], All, IfOk, OnOk, length};
ghost use Rattle.net_types.specs.Groups.{IsGroupLength};
ghost use Rattle.chip_core.specs.Slots.{host_entries};

use net_types::{GroupRow, HostKey, HostRow, Member, MemberList, NoMemory};
use std::alloc::Global;

/// The hosts under their slots.
pub(crate) fn host_entries(
    alloc: Global,
    hosts: &[(u32, HostKey, HostRow)],
) -> Result<Vec<(u32, (HostKey, HostRow))>, NoMemory>
    ensures { IfOk result (λ entries. entries.items ≡ host_entries hosts.now) }
{
    let mut entries = Vec::with_capacity(alloc, hosts.len())?;
    for host in hosts {
        entries.push((host.0, (host.1, host.2)))?;
    }
    Ok(entries)
}

/// The groups of these lists.
pub(crate) fn group_rows(
    alloc: Global,
    lists: &[(u32, MemberList)],
) -> Result<Vec<(u32, GroupRow)>, NoMemory>
    requires { All (λ list. IsGroupLength (length list.1)) lists.now }
    ensures { IfOk result (λ rows. rows.items ≡ lists.now) }
{
    let mut rows = Vec::with_capacity(alloc, lists.len())?;
    for list in lists {
        push_group(&mut rows, list.0, list.1.as_slice())?;
    }
    Ok(rows)
}

/// Puts the group of these members last.
fn push_group(
    rows: &mut Vec<(u32, GroupRow)>,
    slot: u32,
    members: &[Member],
) -> Result<(), NoMemory>
    requires { IsGroupLength (length members.now) }
    ensures { OnOk result (rows.new.items ≡ rows.old.items ++ (slot, members.now) ∷ []) }
{
    let Some(row) = GroupRow::of(members) else {
        unreachable!();
    };
    rows.push((slot, row))?;
    Ok(())
}
