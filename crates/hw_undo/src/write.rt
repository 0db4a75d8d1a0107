// A write to a chip, with what its undo needs.
use net_types::{HostKey, HostRow, L2Key, L2Row, RouteKey, RouteRow};
use std::mem::size_of;

/// A write that a commit made. What was set or removed is kept, and the slot that it stood in. The
/// old row of a group stands among the commit's changes, as its hosts' keys and their marks, so an
/// entry has the place of the group's change alone, and stays small.
#[derive(Clone, Copy, Debug)]
pub(crate) enum Write {
    AddedL2(L2Key),
    SetL2(L2Key, L2Row),
    RemovedL2(L2Key, L2Row),
    AddedHost(u32),
    SetHost(u32, HostRow),
    RemovedHost(u32, HostKey, HostRow),
    AddedGroup(u32),
    SetGroup(u32, usize),
    RemovedGroup(u32, usize),
    AddedRoute(RouteKey),
    RemovedRoute(RouteKey, RouteRow),
}

// A log of the largest commit has some 400,000 entries.
const _: () = prove!(size_of::<Write>() <= 96);
