// Lists of changes, made at once.
ghost use Rattle.std.specs.Prelude.{◌≡◌, IfOk};
ghost use Rattle.chip_core.specs.ChangeLists.{AreGroupChanges, IsAscending};
ghost use Rattle.net_types.specs.KeyOrder.{group_cmp};

use chip_core::{ChangeList, GroupChangeList, HostKeyList, MarkList};
use net_types::NoMemory;
use std::alloc::Global;

/// The list of these changes, whose keys ascend.
pub(crate) fn list_of<K: Ord + Drop, V: Drop>(
    alloc: Global,
    changes: Vec<(K, Option<V>, Option<V>)>,
) -> Result<ChangeList<K, V>, NoMemory>
    requires { IsAscending K.cmp changes.items }
    ensures { IfOk result (λ list. list ≡ changes.items) }
{
    let mut list = ChangeList::new(alloc);
    for change in changes {
        list.push(change)?;
    }
    Ok(list)
}

/// The list of these changes of groups, whose keys ascend.
pub(crate) fn group_list_of(
    alloc: Global,
    changes: Vec<(HostKeyList, Option<MarkList>, Option<MarkList>)>,
) -> Result<GroupChangeList, NoMemory>
    requires ascending { IsAscending group_cmp changes.items }
    requires groups { AreGroupChanges changes.items }
    ensures { IfOk result (λ list. list ≡ changes.items) }
{
    Ok(GroupChangeList::of(list_of(alloc, changes)?))
}
