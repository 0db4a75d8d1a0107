// The rows of the chip's tables, by key.
ghost use Rattle.std.specs.Prelude.{◌≡◌};

use chip_core::MarkList;
use net_types::{HopTarget, HostKey, HostKeyList, HostRow, ItemList, L2RowList, RouteKey};
use std::marker::Model;

/// The rows of the chip's tables, with keys in the place of slots.
#[derive(Debug, Drop)]
pub struct RowLists {
    l2: L2RowList,
    host: ItemList<(HostKey, HostRow)>,
    group: ItemList<(HostKeyList, MarkList)>,
    route: ItemList<(RouteKey, HopTarget)>,
}

impl Model for RowLists {
    ghost use Rattle.net_types.specs.Rows.{Rows};

    ghost Value = { Rows };

    ghost view = { λ r. record { l2 = r.l2; host = r.host; group = r.group; route = r.route } };
}

impl RowLists {
    pub fn of(
        l2: L2RowList,
        host: ItemList<(HostKey, HostRow)>,
        group: ItemList<(HostKeyList, MarkList)>,
        route: ItemList<(RouteKey, HopTarget)>,
    ) -> RowLists
        ensures { result ≡ record { l2 = l2; host = host; group = group; route = route } }
    {
        RowLists {
            l2,
            host,
            group,
            route,
        }
    }

    pub fn l2(&self) -> &L2RowList
        ensures { result.now ≡ self.now.l2 }
    {
        &self.l2
    }

    pub fn host(&self) -> &ItemList<(HostKey, HostRow)>
        ensures { result.now ≡ self.now.host }
    {
        &self.host
    }

    pub fn group(&self) -> &ItemList<(HostKeyList, MarkList)>
        ensures { result.now ≡ self.now.group }
    {
        &self.group
    }

    pub fn route(&self) -> &ItemList<(RouteKey, HopTarget)>
        ensures { result.now ≡ self.now.route }
    {
        &self.route
    }
}
