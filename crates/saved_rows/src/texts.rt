// Texts: printed forms, names and fixed words.
ghost use Rattle.std.specs.Prelude.{◌≡◌, ℕ, List, true, Some, IfOk, OnOk, is_some};
ghost use Rattle.serde_json.specs.Data.{string};
ghost use Rattle.serde_json.specs.View.{view};
ghost use Rattle.ip_text.specs.Printed.{addr_text, hop_text, ip_text, mac_text, prefix_text};
ghost use Rattle.ip_text.specs.Values.{addr_of, hop_of, ip_of, mac_of, prefix_of};
ghost use Rattle.net_types.specs.Names.{is_vlan_name};
ghost use Rattle.json_form.specs.Arrays.{printed_of, word_of};
ghost use Rattle.saved_rows.specs.Values.{name_of};

use ip_text::{
    print_addr, print_hop, print_ip, print_mac, print_prefix, printed_is_a_word, read_addr,
    read_hop, read_ip, read_mac, read_prefix,
};
use net_types::{Addr, Hop, Intf, Ip, Mac, NoMemory, Prefix, Text, VlanName};
use serde_json::Value;
use std::alloc::{AllocError, Global};

/// A form of text in which each value has one printed form.
pub(crate) trait Printed {
    ghost use Rattle.std.specs.Prelude.{Option};

    type Item: Copy;

    // The value that a text spells, where it spells one.
    ghost spelled: { List ℕ → Option Self.Item };

    // The printed form of a value.
    ghost text: { Self.Item → List ℕ };

    fn read(word: &[u8]) -> Option<Self::Item>
        ensures { result ≡ spelled word.now };

    /// The printed form, which spells the value.
    fn print(alloc: Global, item: &Self::Item) -> Result<Text, NoMemory>
        ensures text { IfOk result (λ t. t ≡ text item.now) }
        ensures spells { OnOk result (spelled (text item.now) ≡ Some item.now) };
}

/// MAC addresses.
pub(crate) struct Macs;

impl Printed for Macs {
    type Item = Mac;

    ghost spelled = { mac_of };

    ghost text = { mac_text };

    fn read(word: &[u8]) -> Option<Mac> {
        read_mac(word).ok()
    }

    fn print(alloc: Global, item: &Mac) -> Result<Text, NoMemory> {
        printed_is_a_word();
        let _ = item.get();
        let mut text = Text::new(alloc);
        print_mac(alloc, &mut text, item)?;
        Ok(text)
    }
}

/// IP addresses.
pub(crate) struct Ips;

impl Printed for Ips {
    type Item = Ip;

    ghost spelled = { ip_of };

    ghost text = { ip_text };

    fn read(word: &[u8]) -> Option<Ip> {
        read_ip(word).ok()
    }

    fn print(alloc: Global, item: &Ip) -> Result<Text, NoMemory> {
        printed_is_a_word();
        let _ = item.number();
        let mut text = Text::new(alloc);
        print_ip(alloc, &mut text, item)?;
        Ok(text)
    }
}

/// Prefixes.
pub(crate) struct Prefixes;

impl Printed for Prefixes {
    type Item = Prefix;

    ghost spelled = { prefix_of };

    ghost text = { prefix_text };

    fn read(word: &[u8]) -> Option<Prefix> {
        read_prefix(word).ok()
    }

    fn print(alloc: Global, item: &Prefix) -> Result<Text, NoMemory> {
        printed_is_a_word();
        let _ = item.len();
        let _ = item.ip().number();
        let mut text = Text::new(alloc);
        print_prefix(alloc, &mut text, item)?;
        Ok(text)
    }
}

/// Addresses of interfaces.
pub(crate) struct Addrs;

impl Printed for Addrs {
    type Item = Addr;

    ghost spelled = { addr_of };

    ghost text = { addr_text };

    fn read(word: &[u8]) -> Option<Addr> {
        read_addr(word).ok()
    }

    fn print(alloc: Global, item: &Addr) -> Result<Text, NoMemory> {
        printed_is_a_word();
        let _ = item.len();
        let _ = item.ip().number();
        let mut text = Text::new(alloc);
        print_addr(alloc, &mut text, item)?;
        Ok(text)
    }
}

/// Next hops of routes.
pub(crate) struct Hops;

impl Printed for Hops {
    type Item = Hop;

    ghost spelled = { hop_of };

    ghost text = { hop_text };

    fn read(word: &[u8]) -> Option<Hop> {
        match read_hop(word) {
            Ok(hop) => Some(hop),
            Err(_) => None,
        }
    }

    fn print(alloc: Global, item: &Hop) -> Result<Text, NoMemory> {
        printed_is_a_word();
        let _ = item.ip.number();
        let _ = item.intf.map(|intf: Intf| intf.get());
        let mut text = Text::new(alloc);
        print_hop(alloc, &mut text, item)?;
        Ok(text)
    }
}

/// The value whose printed form the text is, where it is one.
pub(crate) fn read_printed<P: Printed>(
    alloc: Global,
    value: &Value,
) -> Result<Option<P::Item>, NoMemory>
    ensures { IfOk result (λ item. item ≡ printed_of P.spelled P.text (view value.now)) }
{
    let Some(text) = value.as_str() else {
        return Ok(None);
    };
    let Some(item) = P::read(text.as_bytes()) else {
        return Ok(None);
    };
    let printed = P::print(alloc, &item)?;
    if printed.as_slice() == text.as_bytes() {
        Ok(Some(item))
    } else {
        Ok(None)
    }
}

/// The printed form as a value of JSON.
pub(crate) fn printed_value<P: Printed>(alloc: Global, item: &P::Item) -> Result<Value, NoMemory>
    ensures value { IfOk result (λ v. view v ≡ string (P.text item.now)) }
    ensures spells { OnOk result (P.spelled (P.text item.now) ≡ Some item.now) }
{
    let text = P::print(alloc, item)?;
    let value = text_value(alloc, text.as_slice())?;
    Ok(value)
}

// A printed form or a name is of ASCII, so it is always a text.
fn text_value(alloc: Global, bytes: &[u8]) -> Result<Value, NoMemory>
    ensures { IfOk result (λ v. view v ≡ string bytes.now) }
{
    match str::from_utf8(bytes) {
        Ok(text) => Value::try_from_str(alloc, text),
        Err(_) => Err(AllocError),
    }
}

/// The name, where the text is a VLAN's.
pub(crate) fn read_name(alloc: Global, value: &Value) -> Result<Option<VlanName>, NoMemory>
    ensures { IfOk result (λ name. name ≡ name_of (view value.now)) }
{
    let Some(text) = value.as_str() else {
        return Ok(None);
    };
    VlanName::of(alloc, text.as_bytes())
}

/// The name as a value of JSON.
pub(crate) fn name_value(alloc: Global, name: &VlanName) -> Result<Value, NoMemory>
    ensures value { IfOk result (λ v. view v ≡ string name.now) }
    ensures legal { OnOk result (is_vlan_name name.now ≡ true) }
{
    text_value(alloc, name.bytes())
}

/// Whether the value is that word.
pub(crate) fn is_word(value: &Value, word: &str) -> bool
    ensures { result ≡ is_some (word_of word.now (view value.now)) }
{
    match value.as_str() {
        Some(text) => word == text,
        None => false,
    }
}
