//! The rows of a saved text: each list's rows, written as values of JSON and read from them. What is read is
//! exactly what is written: texts in their printed forms, numbers in their ranges, lists in their orders.
#![tactic(auto)]

mod chip;
mod neighbors;
mod numbers;
mod routes;
mod state;
mod texts;

pub use chip::{ChipRoutes, Groups, Hosts, Stations};
pub use neighbors::{NeighborReader, neighbor_value};
pub use routes::{RouteReader, SavedRoute, route_value};
pub use state::{
    IntfReader, MacReader, PortReader, SavedIntf, VlanReader, intf_value, mac_value, port_value,
    vlan_value,
};
