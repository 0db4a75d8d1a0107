// A text that is written piece by piece.
ghost use Rattle.std.specs.Prelude.{◌≡◌, ◌++◌, [], OnOk};
ghost use Rattle.std.specs.Fmt.{AppendsText};
ghost use Rattle.ip_text.specs.Printed.{ip_text, prefix_text, addr_text, mac_text, hop_text};

use ip_text::{print_addr, print_hop, print_ip, print_mac, print_prefix};
use net_types::{Addr, Hop, Ip, Mac, NoMemory, Prefix, Text};
use std::alloc::{AllocError, Global};
use std::fmt::Display;
use std::io::Write;
use std::marker::Model;
use std::mem;

/// Bytes that are written piece by piece, with `write!` too. After a refusal of memory a part of
/// the piece may stand at the end.
#[derive(Drop)]
pub struct Page {
    alloc: Global,
    bytes: Vec<u8>,
}

impl Model for Page {
    ghost use Rattle.std.specs.Prelude.{List, ℕ};

    ghost Value = { List ℕ };

    ghost view = { λ p. p.bytes.items };
}

impl Page {
    pub fn new(alloc: Global) -> Page
        ensures { result ≡ [] }
    {
        Page {
            alloc,
            bytes: Vec::new(alloc),
        }
    }

    pub fn into_bytes(self) -> Vec<u8>
        ensures { result.items ≡ self }
    {
        self.bytes
    }

    /// What `write!` and `writeln!` call.
    pub fn write_fmt<D: Display + Drop>(&mut self, value: D) -> Result<(), NoMemory>
        ensures bytes { OnOk result (AppendsText self.old self.new (D.output value)) }
    {
        match Write::write_fmt(&mut self.bytes, value) {
            Ok(()) => Ok(()),
            Err(_) => Err(AllocError),
        }
    }

    pub fn push_bytes(&mut self, bytes: &[u8]) -> Result<(), NoMemory>
        ensures { OnOk result (self.new ≡ self.old ++ bytes.now) }
    {
        self.bytes.extend_from_slice(bytes)?;
        Ok(())
    }

    pub fn push_ip(&mut self, ip: &Ip) -> Result<(), NoMemory>
        ensures { OnOk result (self.new ≡ self.old ++ ip_text ip.now) }
    {
        let mut text = self.take();
        let printed = print_ip(self.alloc, &mut text, ip);
        self.bytes = text.into_vec();
        printed
    }

    pub fn push_prefix(&mut self, prefix: &Prefix) -> Result<(), NoMemory>
        ensures { OnOk result (self.new ≡ self.old ++ prefix_text prefix.now) }
    {
        let mut text = self.take();
        let printed = print_prefix(self.alloc, &mut text, prefix);
        self.bytes = text.into_vec();
        printed
    }

    pub fn push_addr(&mut self, addr: &Addr) -> Result<(), NoMemory>
        ensures { OnOk result (self.new ≡ self.old ++ addr_text addr.now) }
    {
        let mut text = self.take();
        let printed = print_addr(self.alloc, &mut text, addr);
        self.bytes = text.into_vec();
        printed
    }

    pub fn push_mac(&mut self, mac: &Mac) -> Result<(), NoMemory>
        ensures { OnOk result (self.new ≡ self.old ++ mac_text mac.now) }
    {
        let mut text = self.take();
        let printed = print_mac(self.alloc, &mut text, mac);
        self.bytes = text.into_vec();
        printed
    }

    pub fn push_hop(&mut self, hop: &Hop) -> Result<(), NoMemory>
        ensures { OnOk result (self.new ≡ self.old ++ hop_text hop.now) }
    {
        let mut text = self.take();
        let printed = print_hop(self.alloc, &mut text, hop);
        self.bytes = text.into_vec();
        printed
    }

    /// The bytes as a text; none are left.
    fn take(&mut self) -> Text
        ensures text { result ≡ self.old }
    {
        Text::from_vec(mem::replace(&mut self.bytes, Vec::new(self.alloc)))
    }
}
