use super::*;
use crate::rows::{host_of, host_row, l2_row, route_of, station_of};
use chip_core::{
    Caps, Full, HostKey, HostRow, HwSwitch, L2Key, L2Row, Member, RouteRow, RowsFault, SimChip,
    Table, Tables,
};
use net_types::{Ip, ItemList, NoMemory};
use std::alloc::Global;
use std::process::Abort;
use std::test::Fail;

mod chips;
mod commits;
mod images;
