// A core as text: its rounds, and the rows of its chip.
use agent_core::{Core, OpenFault, Published};
use chip_core::SimChip;
use net_types::{
    GroupRowList, Hop, HostAct, HostKey, HostRow, HostRowList, L2RowList, Member, NoMemory,
    RouteRow, RouteRowList, Table, Tables,
};
use observers::{Observers, StateObserver};
use script_text::Page;
use std::alloc::Global;
use std::test::Fail;
use switch_model::{Entry, Totals, Verdict};

/// The rounds, a line a round, the rows, a line a row, and where the observers stand, a line each. The core
/// is taken apart for it.
pub fn print_core<O: StateObserver>(
    alloc: Global,
    core: Core<SimChip, O>,
) -> Result<Vec<u8>, NoMemory> {
    let mut page = Page::new(alloc);
    let printed = print_kept(&mut page, alloc, &core);
    let (chip, published, observers) = core.into_parts();
    drop(chip);
    drop(published);
    let told = print_observers(&mut page, &observers);
    drop(observers);
    let bytes = page.into_bytes();
    match printed.and(told) {
        Ok(()) => Ok(bytes),
        Err(fault) => {
            drop(bytes);
            Err(fault)
        }
    }
}

fn print_kept<O: StateObserver>(
    page: &mut Page,
    alloc: Global,
    core: &Core<SimChip, O>,
) -> Result<(), NoMemory> {
    print_rounds(page, core.published())?;
    let tables = core.copy_tables(alloc)?;
    let printed = print_tables(page, &tables);
    drop(tables);
    printed
}

/// The table for which no core was opened.
pub fn print_fault(alloc: Global, fault: OpenFault) -> Result<Vec<u8>, Fail> {
    match fault {
        OpenFault::Full(table) => {
            let mut bytes = Vec::from_slice(alloc, b"full ")?;
            match bytes.extend_from_slice(table_word(&table)) {
                Ok(()) => ended(bytes),
                Err(fault) => {
                    drop(bytes);
                    Err(Fail::from(fault))
                }
            }
        }
        OpenFault::NoMemory => Err(Fail::from("no memory")),
    }
}

fn ended(bytes: Vec<u8>) -> Result<Vec<u8>, Fail> {
    let mut bytes = bytes;
    match bytes.push(b'\n') {
        Ok(()) => Ok(bytes),
        Err(fault) => {
            drop(bytes);
            Err(Fail::from(fault))
        }
    }
}

fn print_observers<O: StateObserver>(
    page: &mut Page,
    observers: &Observers<O>,
) -> Result<(), NoMemory> {
    for n in 0..observers.len() {
        print_observer(page, observers.standing(n))?;
    }
    Ok(())
}

fn print_observer(page: &mut Page, standing: Option<(u64, Totals)>) -> Result<(), NoMemory> {
    match standing {
        Some((version, totals)) => print_standing(page, version, &totals),
        None => Ok(()),
    }
}

fn print_standing(page: &mut Page, version: u64, totals: &Totals) -> Result<(), NoMemory> {
    page.push_bytes(b"stands ")?;
    page.write_fmt(version)?;
    page.push_bytes(b" ports ")?;
    page.write_fmt(totals.ports)?;
    page.push_bytes(b" up ")?;
    page.write_fmt(totals.up)?;
    page.push_bytes(b" macs ")?;
    page.write_fmt(totals.macs)?;
    page.push_bytes(b"\n")
}

fn print_tables(page: &mut Page, tables: &Tables) -> Result<(), NoMemory> {
    print_l2(page, &tables.l2)?;
    print_hosts(page, &tables.host)?;
    print_groups(page, &tables.group)?;
    print_routes(page, &tables.route)
}

fn print_rounds(page: &mut Page, published: &Published) -> Result<(), NoMemory> {
    let mut position = 0;
    for k in 0..published.rounds() {
        if let Some((end, is_whole)) = published.round_end(k) {
            print_round(page, published, position, end, is_whole)?;
            position = end;
        }
    }
    Ok(())
}

fn print_round(
    page: &mut Page,
    published: &Published,
    position: u64,
    end: u64,
    is_whole: bool,
) -> Result<(), NoMemory> {
    page.push_bytes(if is_whole { b"whole " } else { b"one " })?;
    if let Some(entry) = published.entry(position) {
        page.write_fmt(entry.version)?;
    }
    page.push_bytes(b" ")?;
    page.write_fmt(end.saturating_sub(position))?;
    for n in position..end {
        print_refused(page, published.entry(n))?;
    }
    page.push_bytes(b"\n")
}

// The verdict of an entry that wasn't accepted.
fn print_refused(page: &mut Page, entry: Option<&Entry>) -> Result<(), NoMemory> {
    match entry {
        Some(entry) => print_verdict(page, &entry.verdict),
        None => page.push_bytes(b" none"),
    }
}

fn print_verdict(page: &mut Page, verdict: &Verdict) -> Result<(), NoMemory> {
    match verdict {
        Verdict::Accepted => Ok(()),
        Verdict::Invalid(_) => page.push_bytes(b" invalid"),
        Verdict::Full(table) => {
            page.push_bytes(b" full ")?;
            page.push_bytes(table_word(table))
        }
    }
}

fn table_word(table: &Table) -> &'static [u8] {
    match table {
        Table::L2 => b"l2",
        Table::Host => b"host",
        Table::Group => b"group",
        Table::Route => b"route",
    }
}

fn print_l2(page: &mut Page, rows: &L2RowList) -> Result<(), NoMemory> {
    for (key, row) in rows.as_slice() {
        page.push_bytes(b"l2 ")?;
        page.write_fmt(key.vlan.get())?;
        page.push_bytes(b" ")?;
        page.push_mac(&key.mac)?;
        page.push_bytes(b" ")?;
        page.write_fmt(row.port.get())?;
        print_up(page, row.up)?;
    }
    Ok(())
}

fn print_up(page: &mut Page, up: bool) -> Result<(), NoMemory> {
    page.push_bytes(if up { b" up\n" } else { b" down\n" })
}

fn print_hosts(page: &mut Page, rows: &HostRowList) -> Result<(), NoMemory> {
    for (slot, key, row) in rows.as_slice() {
        page.push_bytes(b"host ")?;
        page.write_fmt(*slot)?;
        print_host(page, key, row)?;
    }
    Ok(())
}

fn print_host(page: &mut Page, key: &HostKey, row: &HostRow) -> Result<(), NoMemory> {
    page.push_bytes(b" ")?;
    page.push_hop(&Hop {
        ip: key.ip,
        intf: Some(key.intf),
    })?;
    page.push_bytes(b" vrf ")?;
    page.write_fmt(row.vrf.get())?;
    match &row.act {
        HostAct::Trap => page.push_bytes(b" trap\n"),
        HostAct::Forward { mac, port, up } => {
            page.push_bytes(b" forward ")?;
            page.push_mac(mac)?;
            page.push_bytes(b" ")?;
            page.write_fmt(port.get())?;
            print_up(page, *up)
        }
    }
}

fn print_groups(page: &mut Page, rows: &GroupRowList) -> Result<(), NoMemory> {
    for (slot, members) in rows.as_slice() {
        page.push_bytes(b"group ")?;
        page.write_fmt(*slot)?;
        print_members(page, members.as_slice())?;
    }
    Ok(())
}

fn print_members(page: &mut Page, members: &[Member]) -> Result<(), NoMemory> {
    for member in members {
        page.push_bytes(b" ")?;
        page.write_fmt(member.host)?;
        page.push_bytes(if member.live { b" live" } else { b" dead" })?;
    }
    page.push_bytes(b"\n")
}

fn print_routes(page: &mut Page, rows: &RouteRowList) -> Result<(), NoMemory> {
    for (key, row) in rows.as_slice() {
        page.push_bytes(b"route ")?;
        page.write_fmt(key.vrf.get())?;
        page.push_bytes(b" ")?;
        page.push_prefix(&key.prefix)?;
        print_way(page, row)?;
    }
    Ok(())
}

fn print_way(page: &mut Page, row: &RouteRow) -> Result<(), NoMemory> {
    match row {
        RouteRow::Host(slot) => print_slot(page, b" host ", *slot),
        RouteRow::Group(slot) => print_slot(page, b" group ", *slot),
        RouteRow::ToCpu => page.push_bytes(b" cpu\n"),
        RouteRow::Discard => page.push_bytes(b" drop\n"),
    }
}

fn print_slot(page: &mut Page, word: &[u8], slot: u32) -> Result<(), NoMemory> {
    page.push_bytes(word)?;
    page.write_fmt(slot)?;
    page.push_bytes(b"\n")
}
