// The tables of hosts and groups, and the names by which these are found.
ghost use Rattle.net_types.specs.Derived.{host_order-derived};
ghost use Rattle.net_types.specs.Groups.{group_key_of, group_key_order};

use crate::slots::{Named, SlotTable};
use net_types::{GroupKey, GroupRow, HostKey, HostRow};

pub(crate) type HostTable = SlotTable<HostKey, (HostKey, HostRow)>;

pub(crate) type GroupTable = SlotTable<GroupKey, GroupRow>;

/// A host is found by its key.
impl Named<HostKey> for (HostKey, HostRow) {
    ghost name = { λ h. h.0 };

    fn name(&self) -> HostKey {
        self.0
    }

    ghost order = { host_order-derived };
}

/// A group is found by its key.
impl Named<GroupKey> for GroupRow {
    ghost name = { group_key_of };

    fn name(&self) -> GroupKey {
        GroupKey::of(self.members())
    }

    ghost order = { group_key_order };
}
