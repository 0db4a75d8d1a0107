// What holds of all texts and values, whatever a program calls.
ghost use Rattle.std.specs.Prelude.{◌≡◌, ◌<◌, ◌^◌, ℕ};
ghost use Rattle.net_types.specs.declared.ip.Ip.{Ip};
ghost use Rattle.net_types.specs.declared.hop.Hop.{Hop};
ghost use Rattle.net_types.specs.Cidr.{Cidr};
ghost use Rattle.net_types.specs.Prefix.{IsAddr as IsAddrValue, IsPrefix as IsPrefixValue};
ghost use Rattle.ip_text.specs.AddressText.{IsIp, IsPrefix, IsAddr, IsMac, IsHop};
ghost use Rattle.ip_text.specs.Printed.{ip_text, prefix_text, addr_text, mac_text, hop_text};
ghost use Rattle.ip_text.specs.Values.{Computes, ip_of, prefix_of, addr_of, mac_of, hop_of};
ghost use Rattle.ip_text.specs.RoundTrip.{ReadsBack, IsIpValue, IsHopValue, IsWordOf};

/// Reading what was printed gives the value back, for each of the five forms.
pub fn printed_is_read_back()
    ensures ip { (ip : Ip) → IsIpValue ip → ReadsBack IsIp IsIp ip (ip_text ip) }
    ensures prefix { (prefix : Cidr) → IsIpValue prefix.ip → IsPrefixValue prefix → ReadsBack IsAddr IsPrefix prefix (prefix_text prefix) }
    ensures addr { (addr : Cidr) → IsIpValue addr.ip → IsAddrValue addr → ReadsBack IsAddr IsAddr addr (addr_text addr) }
    ensures mac { (mac : ℕ) → mac < 2 ^ 48 → ReadsBack IsMac IsMac mac (mac_text mac) }
    ensures hop { (hop : Hop) → IsHopValue hop → ReadsBack IsHop IsHop hop (hop_text hop) }
{}

/// The functions of texts that other definitions name words by: each gives a value exactly where
/// the form spells it.
pub fn forms_are_functions()
    ensures ip { Computes IsIp ip_of }
    ensures prefix { Computes IsPrefix prefix_of }
    ensures addr { Computes IsAddr addr_of }
    ensures mac { Computes IsMac mac_of }
    ensures hop { Computes IsHop hop_of }
{}

/// What is printed may stand among other words: it is one word, and spells the value.
pub fn printed_is_a_word()
    ensures ip { (ip : Ip) → IsIpValue ip → IsWordOf ip_of ip (ip_text ip) }
    ensures prefix { (prefix : Cidr) → IsIpValue prefix.ip → IsPrefixValue prefix → IsWordOf prefix_of prefix (prefix_text prefix) }
    ensures addr { (addr : Cidr) → IsIpValue addr.ip → IsAddrValue addr → IsWordOf addr_of addr (addr_text addr) }
    ensures mac { (mac : ℕ) → mac < 2 ^ 48 → IsWordOf mac_of mac (mac_text mac) }
    ensures hop { (hop : Hop) → IsHopValue hop → IsWordOf hop_of hop (hop_text hop) }
{}
