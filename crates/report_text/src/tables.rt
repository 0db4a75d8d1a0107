// The rows of the chip's tables, a line each.
ghost use Rattle.std.specs.Prelude.{◌≡◌, ◌++◌, [], ◌∷◌, OnOk, codes, length};
ghost use Rattle.keyed.specs.Keyed.{Ascends};
ghost use Rattle.answer_forms.specs.AnswerText.{counts_text};
ghost use Rattle.net_types.specs.KeyOrder.{group_cmp};
ghost use Rattle.net_types.specs.declared.table.HostAct.TheVariants.{Forward};
ghost use Rattle.report_text.specs.RowText.{host_text, host_act_text, hosts_text, groups_text, group_place, l2_text, members_text, rows_text, routes_text, target_text};

use crate::words::{mark_word, up_word};
use chip_rows::{MarkList, RowLists};
use net_types::{
    Hop, HopTarget, HostAct, HostKey, HostKeyList, HostRow, L2Key, L2Row, Mac, NoMemory, Port,
    RouteKey,
};
use script_text::Page;

/// A host's ip and its interface.
fn write_host(out: &mut Page, host: &HostKey) -> Result<(), NoMemory>
    ensures { OnOk result (out.new ≡ out.old ++ host_text host.now) }
{
    let hop = Hop {
        ip: host.ip,
        intf: Some(host.intf),
    };
    out.push_hop(&hop)
}

fn write_l2_row(out: &mut Page, entry: &(L2Key, L2Row)) -> Result<(), NoMemory>
    ensures { OnOk result (out.new ≡ out.old ++ l2_text (entry.now ∷ [])) }
{
    let vlan = entry.0.vlan.get();
    write!(out, "l2 {vlan} ")?;
    out.push_mac(&entry.0.mac)?;
    let port = entry.1.port.get();
    let up = up_word(entry.1.up);
    writeln!(out, " port {port} {up}")
}

fn write_l2_rows(out: &mut Page, rows: &[(L2Key, L2Row)]) -> Result<(), NoMemory>
    ensures { OnOk result (out.new ≡ out.old ++ l2_text rows.now) }
{
    for entry in rows {
        write_l2_row(out, entry)?;
    }
    Ok(())
}

/// Packets go out of a port to a station.
fn write_forward(out: &mut Page, mac: &Mac, port: Port, up: bool) -> Result<(), NoMemory>
    ensures { OnOk result (out.new ≡ out.old ++ host_act_text (Forward mac.now port up)) }
{
    write!(out, "forward ")?;
    out.push_mac(mac)?;
    let port = port.get();
    let up = up_word(up);
    write!(out, " port {port} {up}")
}

/// What becomes of packets to a host.
fn write_host_act(out: &mut Page, act: &HostAct) -> Result<(), NoMemory>
    ensures { OnOk result (out.new ≡ out.old ++ host_act_text act.now) }
{
    match act {
        HostAct::Forward { mac, port, up } => write_forward(out, mac, *port, *up),
        HostAct::Trap => out.push_bytes(b"trap"),
    }
}

fn write_host_row(out: &mut Page, entry: &(HostKey, HostRow)) -> Result<(), NoMemory>
    ensures { OnOk result (out.new ≡ out.old ++ hosts_text (entry.now ∷ [])) }
{
    out.push_bytes(b"host ")?;
    write_host(out, &entry.0)?;
    let vrf = entry.1.vrf.get();
    write!(out, " vrf {vrf} ")?;
    write_host_act(out, &entry.1.act)?;
    out.push_bytes(b"\n")
}

fn write_host_rows(out: &mut Page, rows: &[(HostKey, HostRow)]) -> Result<(), NoMemory>
    ensures { OnOk result (out.new ≡ out.old ++ hosts_text rows.now) }
{
    for entry in rows {
        write_host_row(out, entry)?;
    }
    Ok(())
}

/// A host of a group with its mark.
fn write_member(out: &mut Page, host: &HostKey, live: bool) -> Result<(), NoMemory>
    ensures { OnOk result (out.new ≡ out.old ++ members_text (host.now ∷ []) (live ∷ [])) }
{
    out.push_bytes(b" ")?;
    write_host(out, host)?;
    let mark = mark_word(live);
    write!(out, " {mark}")
}

/// The hosts of a group that have a mark, with their marks.
fn write_members(out: &mut Page, hosts: &[HostKey], marks: &[bool]) -> Result<(), NoMemory>
    ensures { OnOk result (out.new ≡ out.old ++ members_text hosts.now marks.now) }
{
    let mut place = 0;
    while place < hosts.len() && place < marks.len() {
        write_member(out, &hosts[place], marks[place])?;
        place += 1;
    }
    Ok(())
}

fn write_group_row(out: &mut Page, entry: &(HostKeyList, MarkList)) -> Result<(), NoMemory>
    ensures { OnOk result (out.new ≡ out.old ++ groups_text (entry.now ∷ [])) }
{
    out.push_bytes(b"group")?;
    write_members(out, entry.0.get().as_slice(), entry.1.as_slice())?;
    out.push_bytes(b"\n")
}

fn write_group_rows(out: &mut Page, rows: &[(HostKeyList, MarkList)]) -> Result<(), NoMemory>
    ensures { OnOk result (out.new ≡ out.old ++ groups_text rows.now) }
{
    for entry in rows {
        write_group_row(out, entry)?;
    }
    Ok(())
}

/// The place of a group among others that ascend by their hosts: how many stand before it.
fn place_of_group(groups: &[(HostKeyList, MarkList)], hosts: &HostKeyList) -> usize
    requires { Ascends group_cmp groups.now }
    ensures { result ≡ group_place hosts.now groups.now }
{
    match keyed::place_of(groups, hosts) {
        Ok(place) => place,
        Err(place) => place,
    }
}

/// Where packets to a prefix go.
fn write_target(
    out: &mut Page,
    groups: &[(HostKeyList, MarkList)],
    target: &HopTarget,
) -> Result<(), NoMemory>
    requires { Ascends group_cmp groups.now }
    ensures { OnOk result (out.new ≡ out.old ++ target_text groups.now target.now) }
{
    match target {
        HopTarget::Host(host) => {
            out.push_bytes(b"host ")?;
            write_host(out, host)
        }
        HopTarget::Group(hosts) => {
            let place = place_of_group(groups, hosts);
            write!(out, "group {place}")
        }
        HopTarget::ToCpu => out.push_bytes(b"cpu"),
        HopTarget::Discard => out.push_bytes(b"drop"),
    }
}

fn write_route_row(
    out: &mut Page,
    groups: &[(HostKeyList, MarkList)],
    entry: &(RouteKey, HopTarget),
) -> Result<(), NoMemory>
    requires { Ascends group_cmp groups.now }
    ensures { OnOk result (out.new ≡ out.old ++ routes_text groups.now (entry.now ∷ [])) }
{
    let vrf = entry.0.vrf.get();
    write!(out, "route {vrf} ")?;
    out.push_prefix(&entry.0.prefix)?;
    out.push_bytes(b" ")?;
    write_target(out, groups, &entry.1)?;
    out.push_bytes(b"\n")
}

fn write_route_rows(
    out: &mut Page,
    groups: &[(HostKeyList, MarkList)],
    rows: &[(RouteKey, HopTarget)],
) -> Result<(), NoMemory>
    requires { Ascends group_cmp groups.now }
    ensures { OnOk result (out.new ≡ out.old ++ routes_text groups.now rows.now) }
{
    for entry in rows {
        write_route_row(out, groups, entry)?;
    }
    Ok(())
}

/// How many rows each table has.
pub(crate) fn write_counts(
    out: &mut Page,
    l2: usize,
    host: usize,
    group: usize,
    route: usize,
) -> Result<(), NoMemory>
    ensures { OnOk result (out.new ≡ out.old ++ counts_text l2 host group route) }
{
    write!(out, "l2 {l2} host {host} ")?;
    write!(out, "group {group} route {route}")
}

fn write_row_counts(out: &mut Page, rows: &RowLists) -> Result<(), NoMemory>
    ensures { OnOk result (out.new ≡ out.old ++ counts_text (length rows.now.l2) (length rows.now.host) (length rows.now.group) (length rows.now.route)) }
{
    let l2 = rows.l2().len();
    let host = rows.host().len();
    let group = rows.group().len();
    let route = rows.route().len();
    write_counts(out, l2, host, group, route)
}

/// The counts of all tables, and their rows, a line each. Groups stand in the order of their hosts.
pub fn write_rows(out: &mut Page, rows: &RowLists) -> Result<(), NoMemory>
    requires groups { Ascends group_cmp rows.now.group }
    ensures { OnOk result (out.new ≡ out.old ++ rows_text rows.now) }
{
    out.push_bytes(b"tables ")?;
    write_row_counts(out, rows)?;
    out.push_bytes(b"\n")?;
    write_l2_rows(out, rows.l2().as_slice())?;
    write_host_rows(out, rows.host().as_slice())?;
    write_group_rows(out, rows.group().as_slice())?;
    write_route_rows(out, rows.group().as_slice(), rows.route().as_slice())
}
