// Rows that change.
ghost use Rattle.std.specs.Prelude.{◌≡◌, ◌++◌, ◌∷◌, ◌==◌, [], length, OnErr, OnOk, option_copied, slice_get};
ghost use Rattle.chip_core.specs.ChangeLists.{AreGroupChanges, IsAscending, IsGroupChange};
ghost use Rattle.net_types.specs.KeyOrder.{group_cmp};

use net_types::{
    HopTarget, HostKey, HostKeyList, HostRow, ItemList, L2Key, L2Row, NoMemory, RouteKey,
};
use std::alloc::Global;
use std::marker::Model;

/// Whether each host of a group is live, in the order of the group's key.
pub type MarkList = ItemList<bool>;

/// Rows of one table that differ, by ascending key: a key with its old and its new row, each where
/// there is one.
#[derive(Drop)]
pub struct ChangeList<K: Ord, V> {
    changes: Vec<(K, Option<V>, Option<V>)>,
}

impl<K: Ord, V> Model for ChangeList<K, V> {
    ghost use Rattle.std.specs.Prelude.{List};
    ghost use Rattle.chip_core.specs.ChangeLists.{Change, IsAscending};

    ghost Value = { List (Change K V) };

    ghost view = { λ l. l.changes.items };

    ghost invariant = { λ l. IsAscending K.cmp l.changes.items };
}

/// Changes of the l2 table.
pub type L2ChangeList = ChangeList<L2Key, L2Row>;

/// Changes of the host table.
pub type HostChangeList = ChangeList<HostKey, HostRow>;

/// Changes of the route table.
pub type RouteChangeList = ChangeList<RouteKey, HopTarget>;

impl<K: Ord, V> ChangeList<K, V> {
    pub fn new(alloc: Global) -> Self
        ensures { result ≡ [] }
    {
        ChangeList {
            changes: Vec::new(alloc),
        }
    }

    pub fn len(&self) -> usize
        ensures { result ≡ length self.now }
    {
        self.changes.len()
    }

    pub fn is_empty(&self) -> bool
        ensures { result ≡ (length self.now == 0) }
    {
        self.changes.is_empty()
    }

    /// The change at that place, counted from 0: none exactly past the end.
    pub fn at(&self, n: usize) -> Option<&(K, Option<V>, Option<V>)>
        ensures { option_copied result ≡ slice_get self.now n }
    {
        self.changes.get(n)
    }

    pub fn as_slice(&self) -> &[(K, Option<V>, Option<V>)]
        ensures value { result.now ≡ self.now }
        ensures ascending { IsAscending K.cmp result.now }
    {
        self.changes.as_slice()
    }
}

impl<K: Ord + Drop, V: Drop> ChangeList<K, V> {
    /// Puts a change last, whose key is above the others. After a refusal the list is as before,
    /// and the change is dropped.
    pub fn push(&mut self, change: (K, Option<V>, Option<V>)) -> Result<(), NoMemory>
        requires { IsAscending K.cmp (self.old ++ change ∷ []) }
        ensures ok { OnOk result (self.new ≡ self.old ++ change ∷ []) }
        ensures err { OnErr result (self.new ≡ self.old) }
    {
        self.changes.push(change)?;
        Ok(())
    }
}

/// Changes of the group table, by ascending list of hosts. Each key has 2 to 64 hosts, none of them
/// twice, and each row as many marks.
#[derive(Drop)]
pub struct GroupChangeList {
    changes: ChangeList<HostKeyList, MarkList>,
}

impl Model for GroupChangeList {
    ghost use Rattle.std.specs.Prelude.{Bool, List};
    ghost use Rattle.net_types.specs.declared.table.HostKey.{HostKey};
    ghost use Rattle.chip_core.specs.ChangeLists.{AreGroupChanges, Change};

    ghost Value = { List (Change (List HostKey) (List Bool)) };

    ghost view = { λ l. l.changes };

    ghost invariant = { λ l. AreGroupChanges l.changes };
}

impl GroupChangeList {
    /// The list of these changes, each of which is of a group. It takes no memory.
    pub fn of(changes: ChangeList<HostKeyList, MarkList>) -> Self
        requires { AreGroupChanges changes }
        ensures { result ≡ changes }
    {
        GroupChangeList { changes }
    }

    pub fn new(alloc: Global) -> Self
        ensures { result ≡ [] }
    {
        GroupChangeList {
            changes: ChangeList::new(alloc),
        }
    }

    pub fn len(&self) -> usize
        ensures { result ≡ length self.now }
    {
        self.changes.len()
    }

    pub fn is_empty(&self) -> bool
        ensures { result ≡ (length self.now == 0) }
    {
        self.changes.is_empty()
    }

    /// The change at that place, counted from 0: none exactly past the end.
    pub fn at(&self, n: usize) -> Option<&(HostKeyList, Option<MarkList>, Option<MarkList>)>
        ensures { option_copied result ≡ slice_get self.now n }
    {
        self.changes.at(n)
    }

    pub fn as_slice(&self) -> &[(HostKeyList, Option<MarkList>, Option<MarkList>)]
        ensures value { result.now ≡ self.now }
        ensures ascending { IsAscending group_cmp result.now }
        ensures groups { AreGroupChanges result.now }
    {
        self.changes.as_slice()
    }

    /// Puts a change last, whose key is above the others. After a refusal the list is as before,
    /// and the change is dropped.
    pub fn push(
        &mut self,
        change: (HostKeyList, Option<MarkList>, Option<MarkList>),
    ) -> Result<(), NoMemory>
        requires ascending { IsAscending group_cmp (self.old ++ change ∷ []) }
        requires group { IsGroupChange change }
        ensures ok { OnOk result (self.new ≡ self.old ++ change ∷ []) }
        ensures err { OnErr result (self.new ≡ self.old) }
    {
        self.changes.push(change)?;
        Ok(())
    }
}

/// Rows that differ, of all four tables. They name hosts and groups by keys, and never by slots.
#[derive(Drop)]
pub struct RowChanges {
    pub l2: L2ChangeList,
    pub host: HostChangeList,
    pub group: GroupChangeList,
    pub route: RouteChangeList,
}

impl RowChanges {
    ghost use Rattle.chip_core.specs.Changes.{writes_of};

    /// How many chip writes the changes take at most: two for a route, and one for each other row.
    pub fn writes(&self) -> u128
        ensures { result ≡ writes_of self.now }
    {
        let routes = self.route.len() as u128;
        self.l2.len() as u128 + self.host.len() as u128 + self.group.len() as u128 + 2 * routes
    }
}
