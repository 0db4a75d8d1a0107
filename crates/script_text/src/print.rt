// Updates, as they are printed.
ghost use Rattle.std.specs.Prelude.{◌≡◌, ◌++◌, ◌∷◌, [], codes, OnErr, OnOk};
ghost use Rattle.std.specs.Fmt.{decimal};
ghost use Rattle.net_types.specs.Cidr.{Cidr};
ghost use Rattle.switch_model.specs.declared.via.Via.{Via as ViaValue};
ghost use Rattle.ip_text.specs.Printed.{ip_text, addr_text, mac_text, prefix_text};
ghost use Rattle.script_text.specs.UpdateText.{client_text, hops_text, via_text, item_text, more_items_text, items_text, act_text, neighbor_act_text, route_act_text, update_text};

use crate::page::Page;
use net_types::{
    Addr, Client, Hop, Intf, Ip, Mac, NoMemory, Port, Prefix, Text, Vlan, VlanName, Vrf,
};
use std::alloc::Global;
use std::mem;
use switch_model::{Act, Update, Via};

/// Appends the update as a script's line spells it, with `alone` before it where it is to be
/// settled alone. Hops and items stand in the order given, and addresses in their printed form.
/// Where memory is refused, the text is as before.
pub fn print_update(alloc: Global, out: &mut Text, update: &Update) -> Result<(), NoMemory>
    ensures printed { OnOk result (out.new ≡ out.old ++ update_text update.now) }
    ensures kept { OnErr result (out.new ≡ out.old) }
{
    let mut page = Page::new(alloc);
    write_update(&mut page, update)?;
    let words = page.into_bytes();
    let mut bytes = mem::replace(out, Text::new(alloc)).into_vec();
    let appended = bytes.extend_from_slice(words.as_slice());
    *out = Text::from_vec(bytes);
    appended
}

/// Writes the update in the same words onto a page.
pub fn write_update(page: &mut Page, update: &Update) -> Result<(), NoMemory>
    ensures { OnOk result (page.new ≡ page.old ++ update_text update.now) }
{
    if update.alone {
        page.push_bytes(b"alone ")?;
    }
    write_act(page, &update.act)
}

fn write_act(page: &mut Page, act: &Act) -> Result<(), NoMemory>
    ensures { OnOk result (page.new ≡ page.old ++ act_text act.now) }
{
    match act {
        Act::VlanAdd { vlan, name } => write_vlan_add(page, *vlan, name),
        Act::VlanDel { vlan } => write_one(page, "vlan del", u32::from(vlan.get())),
        Act::PortAdd { port, vlan } => write_two(page, "port add", port.get(), vlan.get()),
        Act::PortDel { port } => write_one(page, "port del", u32::from(port.get())),
        Act::PortVlan { port, vlan } => write_two(page, "port vlan", port.get(), vlan.get()),
        Act::PortUp { port } => write_one(page, "port up", u32::from(port.get())),
        Act::PortDown { port } => write_one(page, "port down", u32::from(port.get())),
        Act::IntfAdd {
            intf,
            vlan,
            vrf,
            mac,
        } => write_intf_add(page, *intf, *vlan, *vrf, mac),
        Act::IntfDel { intf } => write_one(page, "intf del", intf.get()),
        Act::AddrAdd { intf, addr } => write_addr(page, "addr add", *intf, addr),
        Act::AddrDel { intf, addr } => write_addr(page, "addr del", *intf, addr),
        _ => write_neighbor_act(page, act),
    }
}

/// An act on neighbours or stations, or one on routes.
fn write_neighbor_act(page: &mut Page, act: &Act) -> Result<(), NoMemory>
    ensures { OnOk result (page.new ≡ page.old ++ neighbor_act_text act.now) }
{
    match act {
        Act::NeighborSet {
            intf,
            ip,
            mac,
            port,
        } => write_neighbor_set(page, *intf, ip, mac, *port),
        Act::NeighborPending { intf, ip } => write_ip(page, "neighbor pending", *intf, ip),
        Act::NeighborDel { intf, ip } => write_ip(page, "neighbor del", *intf, ip),
        Act::MacSet { vlan, mac, port } => write_mac_set(page, *vlan, mac, *port),
        Act::MacDel { vlan, mac } => write_mac(page, "mac del", *vlan, mac),
        _ => write_route_act(page, act),
    }
}

/// An act on routes. For any other nothing is written.
fn write_route_act(page: &mut Page, act: &Act) -> Result<(), NoMemory>
    ensures { OnOk result (page.new ≡ page.old ++ route_act_text act.now) }
{
    match act {
        Act::RouteSet {
            vrf,
            prefix,
            client,
            via,
        } => write_route_set(page, *vrf, prefix, *client, via),
        Act::RouteDel {
            vrf,
            prefix,
            client,
        } => write_route(page, "route del", *vrf, prefix, *client),
        Act::ClientSync {
            vrf,
            client,
            routes,
        } => write_client_sync(page, *vrf, *client, routes.as_slice()),
        _ => Ok(()),
    }
}

/// Words, and a number behind them.
fn write_one(page: &mut Page, words: &str, number: u32) -> Result<(), NoMemory>
    ensures { OnOk result (page.new ≡ page.old ++ (words.now ++ (codes " " ++ decimal number))) }
{
    write!(page, "{words} {number}")
}

/// Words, and two numbers behind them.
fn write_two(page: &mut Page, words: &str, first: u16, second: u16) -> Result<(), NoMemory>
    ensures { OnOk result (page.new ≡ page.old ++ (words.now ++ (codes " " ++ (decimal first ++ (codes " " ++ decimal second))))) }
{
    write!(page, "{words} {first} {second}")
}

fn write_vlan_add(page: &mut Page, vlan: Vlan, name: &VlanName) -> Result<(), NoMemory>
    ensures { OnOk result (page.new ≡ page.old ++ act_text (Act.VlanAdd vlan name.now)) }
{
    let vlan = vlan.get();
    write!(page, "vlan add {vlan} ")?;
    page.push_bytes(name.bytes())
}

fn write_intf_add(
    page: &mut Page,
    intf: Intf,
    vlan: Vlan,
    vrf: Vrf,
    mac: &Mac,
) -> Result<(), NoMemory>
    ensures { OnOk result (page.new ≡ page.old ++ act_text (Act.IntfAdd intf vlan vrf mac.now)) }
{
    let intf = intf.get();
    let vlan = vlan.get();
    let vrf = vrf.get();
    write!(page, "intf add {intf} {vlan} {vrf} ")?;
    page.push_mac(mac)
}

/// Words, an interface, and an address of it.
fn write_addr(page: &mut Page, words: &str, intf: Intf, addr: &Addr) -> Result<(), NoMemory>
    ensures { OnOk result (page.new ≡ page.old ++ (words.now ++ (codes " " ++ (decimal intf ++ (codes " " ++ addr_text addr.now))))) }
{
    let intf = intf.get();
    write!(page, "{words} {intf} ")?;
    page.push_addr(addr)
}

/// Words, an interface, and an ip.
fn write_ip(page: &mut Page, words: &str, intf: Intf, ip: &Ip) -> Result<(), NoMemory>
    ensures { OnOk result (page.new ≡ page.old ++ (words.now ++ (codes " " ++ (decimal intf ++ (codes " " ++ ip_text ip.now))))) }
{
    let intf = intf.get();
    write!(page, "{words} {intf} ")?;
    page.push_ip(ip)
}

fn write_neighbor_set(
    page: &mut Page,
    intf: Intf,
    ip: &Ip,
    mac: &Mac,
    port: Port,
) -> Result<(), NoMemory>
    ensures { OnOk result (page.new ≡ page.old ++ act_text (Act.NeighborSet intf ip.now mac.now port)) }
{
    write_ip(page, "neighbor set", intf, ip)?;
    write_station(page, mac, port)
}

fn write_mac_set(page: &mut Page, vlan: Vlan, mac: &Mac, port: Port) -> Result<(), NoMemory>
    ensures { OnOk result (page.new ≡ page.old ++ act_text (Act.MacSet vlan mac.now port)) }
{
    let vlan = vlan.get();
    write!(page, "mac set {vlan}")?;
    write_station(page, mac, port)
}

/// A MAC and a port, each behind a space.
fn write_station(page: &mut Page, mac: &Mac, port: Port) -> Result<(), NoMemory>
    ensures { OnOk result (page.new ≡ page.old ++ (codes " " ++ (mac_text mac.now ++ (codes " " ++ decimal port)))) }
{
    let port = port.get();
    page.push_bytes(b" ")?;
    page.push_mac(mac)?;
    write!(page, " {port}")
}

/// Words, a VLAN, and a MAC.
fn write_mac(page: &mut Page, words: &str, vlan: Vlan, mac: &Mac) -> Result<(), NoMemory>
    ensures { OnOk result (page.new ≡ page.old ++ (words.now ++ (codes " " ++ (decimal vlan ++ (codes " " ++ mac_text mac.now))))) }
{
    let vlan = vlan.get();
    write!(page, "{words} {vlan} ")?;
    page.push_mac(mac)
}

fn client_word(client: Client) -> &'static str
    ensures { result.now ≡ client_text client }
{
    match client {
        Client::Interface => "interface",
        Client::Static => "static",
        Client::Openr => "openr",
        Client::Ebgp => "ebgp",
        Client::Ibgp => "ibgp",
    }
}

/// Words, a VRF, a prefix, and a client.
fn write_route(
    page: &mut Page,
    words: &str,
    vrf: Vrf,
    prefix: &Prefix,
    client: Client,
) -> Result<(), NoMemory>
    ensures { OnOk result (page.new ≡ page.old ++ (words.now ++ (codes " " ++ (decimal vrf ++ (codes " " ++ (prefix_text prefix.now ++ (codes " " ++ client_text client))))))) }
{
    let vrf = vrf.get();
    let client = client_word(client);
    write!(page, "{words} {vrf} ")?;
    page.push_prefix(prefix)?;
    write!(page, " {client}")
}

fn write_route_set(
    page: &mut Page,
    vrf: Vrf,
    prefix: &Prefix,
    client: Client,
    via: &Via,
) -> Result<(), NoMemory>
    ensures { OnOk result (page.new ≡ page.old ++ act_text (Act.RouteSet vrf prefix.now client via.now)) }
{
    write_route(page, "route set", vrf, prefix, client)?;
    page.push_bytes(b" ")?;
    write_via(page, via)
}

fn write_via(page: &mut Page, via: &Via) -> Result<(), NoMemory>
    ensures { OnOk result (page.new ≡ page.old ++ via_text via.now) }
{
    match via {
        Via::Hops(hops) => write_hops(page, hops.as_slice()),
        Via::ToCpu => page.push_bytes(b"cpu"),
        Via::Discard => page.push_bytes(b"drop"),
    }
}

/// The word `via`, and the hops behind it.
fn write_hops(page: &mut Page, hops: &[Hop]) -> Result<(), NoMemory>
    ensures { OnOk result (page.new ≡ page.old ++ (codes "via" ++ hops_text hops.now)) }
{
    page.push_bytes(b"via")?;
    for hop in hops {
        page.push_bytes(b" ")?;
        page.push_hop(hop)?;
    }
    Ok(())
}

fn write_client_sync(
    page: &mut Page,
    vrf: Vrf,
    client: Client,
    items: &[(Prefix, Via)],
) -> Result<(), NoMemory>
    ensures { OnOk result (page.new ≡ page.old ++ act_text (Act.ClientSync vrf client items.now)) }
{
    let vrf = vrf.get();
    let client = client_word(client);
    write!(page, "client sync {vrf} {client}")?;
    write_items(page, items)
}

/// Items, with a semicolon between two.
fn write_items(page: &mut Page, items: &[(Prefix, Via)]) -> Result<(), NoMemory>
    ensures { OnOk result (page.new ≡ page.old ++ items_text items.now) }
{
    let [first, more @ ..] = items else {
        return Ok(());
    };
    page.push_bytes(b" ")?;
    write_item(page, first)?;
    write_more_items(page, more)
}

/// Items behind others, each behind a semicolon.
fn write_more_items(page: &mut Page, items: &[(Prefix, Via)]) -> Result<(), NoMemory>
    ensures { OnOk result (page.new ≡ page.old ++ more_items_text items.now) }
{
    for item in items {
        page.push_bytes(b" ; ")?;
        write_item(page, item)?;
    }
    Ok(())
}

/// A prefix, and what its route does.
fn write_item(page: &mut Page, item: &(Prefix, Via)) -> Result<(), NoMemory>
    ensures { OnOk result (page.new ≡ page.old ++ item_text item.now) }
{
    page.push_prefix(&item.0)?;
    page.push_bytes(b" ")?;
    write_via(page, &item.1)
}
