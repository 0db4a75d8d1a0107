//! Texts of addresses, read and printed exactly: IP addresses, prefixes, addresses of interfaces,
//! MAC addresses and next hops. Reading takes no memory, and stops at the first byte that can't
//! stand in a text of the form, so it takes the same time however long the text is.
#![tactic(auto)]

mod digits;
mod fault;
mod groups;
mod ip;
mod ipv6;
mod laws;
mod print;
mod read;
mod rows;
mod runs;
mod write;

pub use fault::TextFault;
pub use laws::{forms_are_functions, printed_is_a_word, printed_is_read_back};
pub use print::{print_addr, print_hop, print_ip, print_mac, print_prefix};
pub use read::{read_addr, read_hop, read_ip, read_mac, read_prefix};
