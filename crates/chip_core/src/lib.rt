//! The chip: its tables, the calls that each chip has, and a chip in memory.
#![tactic(auto)]

mod changes;
mod count;
mod fault;
mod image;
mod laws;
mod named;
mod shape;
mod sim;
mod slots;
mod switch;

pub use changes::{
    ChangeList, GroupChangeList, HostChangeList, L2ChangeList, MarkList, RouteChangeList,
    RowChanges,
};
pub use count::WriteCount;
pub use fault::RowsFault;
pub use laws::{chip_fits, chip_is_image};
pub use net_types::{
    Caps, GroupKey, GroupRow, GroupRowList, HopTarget, HostAct, HostKey, HostKeyList, HostRow,
    HostRowList, L2Key, L2Row, L2RowList, Member, MemberList, RouteKey, RouteRow, RouteRowList,
    Table, Tables,
};
pub use sim::SimChip;
pub use switch::{Full, HwSwitch};
