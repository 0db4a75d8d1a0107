// A cursor over the words of a line.
ghost use Rattle.std.specs.Prelude.{◌≡◌, ◌<◌, ◌^◌, ◌∷◌, [], Some, length, IfOk, OnErr, MatchOption, if◌then◌else◌};
ghost use Rattle.net_types.specs.Names.{is_vlan_name, is_name};
ghost use Rattle.ip_text.specs.Values.{ip_of, prefix_of, addr_of, mac_of, hop_of};
ghost use Rattle.script_words.specs.Words.{words};
ghost use Rattle.script_words.specs.Grammar.{IsBetween, client_of};
ghost use Rattle.script_words.specs.Reading.{Finds, Takes, Took, word_at, number_of, vlan_name_of, name_of, begins_with, behind_word, ended, bad};

use crate::fault::{BadWord, ReadFault};
use crate::number::number_of;
use crate::words::{count, is, next_word};
use ip_text::{read_addr, read_hop, read_ip, read_mac, read_prefix};
use net_types::{
    Addr, Client, Hop, Intf, Ip, Mac, Name, NoMemory, Port, Prefix, Vlan, VlanName, Vrf,
};
use std::alloc::Global;
use std::marker::Model;

/// The words of a line that are still to be read. A call that fails takes none of them, and says how
/// many are left at the word that it could not read.
#[derive(Drop)]
pub struct Cursor<'a> {
    rest: &'a [u8],
}

impl<'a> Model for Cursor<'a> {
    ghost use Rattle.std.specs.Prelude.{List, ℕ};
    ghost use Rattle.script_words.specs.Words.{words};

    ghost Value = { List (List ℕ) };

    ghost view = { λ c. words c.rest.now };
}

impl<'a> Cursor<'a> {
    pub fn new(line: &'a [u8]) -> Cursor<'a>
        ensures { result ≡ words line.now }
    {
        Cursor { rest: line }
    }

    /// The fault of a word that may not stand here, or of a line that ends too early.
    pub fn bad(&self) -> BadWord
        ensures { result.left ≡ length self.now }
    {
        BadWord {
            left: count(self.rest),
        }
    }

    /// Takes the next word where it is the key, and nothing else.
    pub fn take(&mut self, key: &[u8]) -> bool
        ensures taken { result ≡ begins_with key.now self.old }
        ensures left { self.new ≡ (if result then behind_word self.old else self.old) }
    {
        match next_word(self.rest) {
            Some((word, rest)) if is(word, key) => {
                self.rest = rest;
                true
            }
            _ => false,
        }
    }

    /// The end of the line: no word is left.
    pub fn end(&self) -> Result<(), BadWord>
        ensures { Finds result (ended (tt {0}) self.now) }
    {
        match next_word(self.rest) {
            None => Ok(()),
            Some(_) => Err(self.bad()),
        }
    }

    /// The next word, and the cursor behind it: none where no word is left.
    pub fn split(&self) -> Option<(&'a [u8], Cursor<'a>)>
        ensures { MatchOption result (self.now ≡ []) (λ x. self.now ≡ x.0.now ∷ x.1) }
    {
        let (word, rest) = next_word(self.rest)?;
        Some((word, Cursor { rest }))
    }

    /// A number in a range.
    pub fn number(&mut self, low: u64, high: u64) -> Result<u64, BadWord>
        requires { high < 2 ^ 59 }
        ensures word { Takes result self.new (word_at (number_of low high) self.old) }
        ensures range { IfOk result (λ n. IsBetween low high n) }
        ensures kept { OnErr result (self.new ≡ self.old) }
    {
        let Some((word, rest)) = next_word(self.rest) else {
            return Err(BadWord { left: 0 });
        };
        match number_of(low, high, word) {
            Some(number) => {
                self.rest = rest;
                Ok(number)
            }
            None => Err(self.bad()),
        }
    }

    /// The number of a VLAN.
    pub fn vlan(&mut self) -> Result<Vlan, BadWord>
        ensures word { Takes result self.new (word_at (number_of 1 4094) self.old) }
        ensures kept { OnErr result (self.new ≡ self.old) }
    {
        let Some((word, rest)) = next_word(self.rest) else {
            return Err(BadWord { left: 0 });
        };
        let Some(found) = vlan_of(word) else {
            return Err(self.bad());
        };
        self.rest = rest;
        Ok(found)
    }

    /// The number of a port.
    pub fn port(&mut self) -> Result<Port, BadWord>
        ensures word { Takes result self.new (word_at (number_of 1 1024) self.old) }
        ensures kept { OnErr result (self.new ≡ self.old) }
    {
        let Some((word, rest)) = next_word(self.rest) else {
            return Err(BadWord { left: 0 });
        };
        let Some(found) = port_of(word) else {
            return Err(self.bad());
        };
        self.rest = rest;
        Ok(found)
    }

    /// The number of an interface.
    pub fn intf(&mut self) -> Result<Intf, BadWord>
        ensures word { Takes result self.new (word_at (number_of 1 4294967295) self.old) }
        ensures kept { OnErr result (self.new ≡ self.old) }
    {
        let Some((word, rest)) = next_word(self.rest) else {
            return Err(BadWord { left: 0 });
        };
        let Some(found) = intf_of(word) else {
            return Err(self.bad());
        };
        self.rest = rest;
        Ok(found)
    }

    /// The number of a VRF.
    pub fn vrf(&mut self) -> Result<Vrf, BadWord>
        ensures word { Takes result self.new (word_at (number_of 0 65535) self.old) }
        ensures kept { OnErr result (self.new ≡ self.old) }
    {
        let Some((word, rest)) = next_word(self.rest) else {
            return Err(BadWord { left: 0 });
        };
        let Some(found) = vrf_of(word) else {
            return Err(self.bad());
        };
        self.rest = rest;
        Ok(found)
    }

    /// A VLAN's name.
    pub fn vlan_name(&mut self, alloc: Global) -> Result<VlanName, ReadFault>
        ensures word { Took result self.new (word_at vlan_name_of self.old) }
        ensures kept { OnErr result (self.new ≡ self.old) }
    {
        let Some((word, rest)) = next_word(self.rest) else {
            return Err(ReadFault::Left(0));
        };
        match vlan_name_of(alloc, word)? {
            Some(found) => {
                self.rest = rest;
                Ok(found)
            }
            None => Err(self.bad().into()),
        }
    }

    /// A name in a store.
    pub fn name(&mut self, alloc: Global) -> Result<Name, ReadFault>
        ensures word { Took result self.new (word_at name_of self.old) }
        ensures kept { OnErr result (self.new ≡ self.old) }
    {
        let Some((word, rest)) = next_word(self.rest) else {
            return Err(ReadFault::Left(0));
        };
        match name_of(alloc, word)? {
            Some(found) => {
                self.rest = rest;
                Ok(found)
            }
            None => Err(self.bad().into()),
        }
    }

    /// A client, by its name.
    pub fn client(&mut self) -> Result<Client, BadWord>
        ensures word { Takes result self.new (word_at client_of self.old) }
        ensures kept { OnErr result (self.new ≡ self.old) }
    {
        let Some((word, rest)) = next_word(self.rest) else {
            return Err(BadWord { left: 0 });
        };
        let Some(found) = client_of(word) else {
            return Err(self.bad());
        };
        self.rest = rest;
        Ok(found)
    }

    /// An IP address.
    pub fn ip(&mut self) -> Result<Ip, BadWord>
        ensures word { Takes result self.new (word_at ip_of self.old) }
        ensures kept { OnErr result (self.new ≡ self.old) }
    {
        let Some((word, rest)) = next_word(self.rest) else {
            return Err(BadWord { left: 0 });
        };
        match read_ip(word) {
            Ok(found) => {
                self.rest = rest;
                Ok(found)
            }
            Err(_) => Err(self.bad()),
        }
    }

    /// The address of an interface.
    pub fn addr(&mut self) -> Result<Addr, BadWord>
        ensures word { Takes result self.new (word_at addr_of self.old) }
        ensures kept { OnErr result (self.new ≡ self.old) }
    {
        let Some((word, rest)) = next_word(self.rest) else {
            return Err(BadWord { left: 0 });
        };
        match read_addr(word) {
            Ok(found) => {
                self.rest = rest;
                Ok(found)
            }
            Err(_) => Err(self.bad()),
        }
    }

    /// A prefix.
    pub fn prefix(&mut self) -> Result<Prefix, BadWord>
        ensures word { Takes result self.new (word_at prefix_of self.old) }
        ensures kept { OnErr result (self.new ≡ self.old) }
    {
        let Some((word, rest)) = next_word(self.rest) else {
            return Err(BadWord { left: 0 });
        };
        match read_prefix(word) {
            Ok(found) => {
                self.rest = rest;
                Ok(found)
            }
            Err(_) => Err(self.bad()),
        }
    }

    /// A MAC address.
    pub fn mac(&mut self) -> Result<Mac, BadWord>
        ensures word { Takes result self.new (word_at mac_of self.old) }
        ensures kept { OnErr result (self.new ≡ self.old) }
    {
        let Some((word, rest)) = next_word(self.rest) else {
            return Err(BadWord { left: 0 });
        };
        match read_mac(word) {
            Ok(found) => {
                self.rest = rest;
                Ok(found)
            }
            Err(_) => Err(self.bad()),
        }
    }

    /// A next hop.
    pub fn hop(&mut self) -> Result<Hop, BadWord>
        ensures word { Takes result self.new (word_at hop_of self.old) }
        ensures kept { OnErr result (self.new ≡ self.old) }
    {
        let Some((word, rest)) = next_word(self.rest) else {
            return Err(BadWord { left: 0 });
        };
        match read_hop(word) {
            Ok(found) => {
                self.rest = rest;
                Ok(found)
            }
            Err(_) => Err(self.bad()),
        }
    }
}

fn vlan_of(word: &[u8]) -> Option<Vlan>
    ensures { result ≡ number_of 1 4094 word.now }
{
    Vlan::new(number_of(1, 4094, word)? as u16)
}

fn port_of(word: &[u8]) -> Option<Port>
    ensures { result ≡ number_of 1 1024 word.now }
{
    Port::new(number_of(1, 1024, word)? as u16)
}

fn intf_of(word: &[u8]) -> Option<Intf>
    ensures { result ≡ number_of 1 4294967295 word.now }
{
    Intf::new(number_of(1, 4294967295, word)? as u32)
}

fn vrf_of(word: &[u8]) -> Option<Vrf>
    ensures { result ≡ number_of 0 65535 word.now }
{
    Vrf::new(number_of(0, 65535, word)? as u16)
}

#[tactic(auto, unfolding(crate::specs::Reading::vlan_name_of))]
fn vlan_name_of(alloc: Global, word: &[u8]) -> Result<Option<VlanName>, NoMemory>
    ensures { IfOk result (λ name. name ≡ vlan_name_of word.now) }
{
    match VlanName::of(alloc, word)? {
        Some(name) => Ok(Some(name)),
        None => Ok(None),
    }
}

#[tactic(auto, unfolding(crate::specs::Reading::name_of))]
fn name_of(alloc: Global, word: &[u8]) -> Result<Option<Name>, NoMemory>
    ensures { IfOk result (λ name. name ≡ name_of word.now) }
{
    match Name::of(alloc, word)? {
        Some(name) => Ok(Some(name)),
        None => Ok(None),
    }
}

#[tactic(auto, unfolding(crate::specs::Grammar::client_of))]
fn client_of(word: &[u8]) -> Option<Client>
    ensures { result ≡ client_of word.now }
{
    if is(word, b"interface") {
        return Some(Client::Interface);
    }
    if is(word, b"static") {
        return Some(Client::Static);
    }
    if is(word, b"openr") {
        return Some(Client::Openr);
    }
    if is(word, b"ebgp") {
        return Some(Client::Ebgp);
    }
    if is(word, b"ibgp") {
        return Some(Client::Ibgp);
    }
    None
}
