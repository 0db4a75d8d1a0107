// Entries of a journal: the updates of a script, each with a verdict.
use net_types::{NoMemory, Shared, Table};
use report_text::write_entry;
use script_text::{Job, Line, LineList, Page, PhaseList, Script, read_script};
use std::alloc::Global;
use std::test::Fail;
use switch_model::{Entry, Reason, Update, Verdict};

const SCRIPT: &[u8] = b"start cold 1 1 1 1
limit 40
callers 3
phase
0 vlan add 1 a
1 queue vlan add 4094 web_1-a
2 vlan del 7
0 port add 3 4094
0 port del 1024
0 port vlan 3 7
0 alone port up 1
0 port down 1
0 intf add 1 10 0 02:00:00:00:01:01
0 intf del 4094
0 addr add 1 10.0.0.1/24
0 addr add 1 FE80::1/64
0 addr del 1 2001:db8:0:0::7/64
0 neighbor set 1 10.0.0.2 ff:ff:ff:FF:FF:FF 7
0 neighbor pending 1 2001:db8::9
0 neighbor del 1 10.0.0.3
0 mac set 2 00:00:00:00:00:00 3
0 mac del 2 A0:B1:C2:D3:E4:F5
0 route set 0 20.0.0.0/8 ebgp via 10.0.0.3 10.0.0.2@1
0 route set 0 20.0.0.0/8 static via
0 route set 3 ::/0 openr cpu
0 route set 3 2001:db8::/32 ibgp drop
0 route del 0 20.0.0.0/8 interface
0 client sync 0 ebgp
0 client sync 0 ebgp 20.0.0.0/8 via 10.0.0.2 ; 30.0.0.0/8 cpu ; 0.0.0.0/0 drop
0 port up 1
0 port up 1
0 port up 1
0 port up 1
0 port up 1
0 port up 1
";

// In the order of the script.
const VERDICTS: [Verdict; 31] = [
    Verdict::Accepted,
    Verdict::Full(Table::L2),
    Verdict::Full(Table::Host),
    Verdict::Full(Table::Group),
    Verdict::Full(Table::Route),
    Verdict::Invalid(Reason::NoVlan),
    Verdict::Invalid(Reason::VlanExists),
    Verdict::Invalid(Reason::VlanInUse),
    Verdict::Invalid(Reason::NoPort),
    Verdict::Invalid(Reason::PortExists),
    Verdict::Invalid(Reason::PortInUse),
    Verdict::Invalid(Reason::NoIntf),
    Verdict::Invalid(Reason::IntfExists),
    Verdict::Invalid(Reason::VlanHasIntf),
    Verdict::Invalid(Reason::IntfInUse),
    Verdict::Invalid(Reason::BadMac),
    Verdict::Invalid(Reason::AddrExists),
    Verdict::Invalid(Reason::AddrOverlap),
    Verdict::Invalid(Reason::NoAddr),
    Verdict::Invalid(Reason::AddrInUse),
    Verdict::Invalid(Reason::NotInSubnet),
    Verdict::Invalid(Reason::PortNotInVlan),
    Verdict::Invalid(Reason::NoNeighbor),
    Verdict::Invalid(Reason::NoMac),
    Verdict::Invalid(Reason::InterfaceClient),
    Verdict::Invalid(Reason::FamilyMix),
    Verdict::Invalid(Reason::NoHops),
    Verdict::Invalid(Reason::TooManyHops),
    Verdict::Invalid(Reason::DoubleHop),
    Verdict::Invalid(Reason::DoublePrefix),
    Verdict::Invalid(Reason::NoRoute),
];

fn verdict_at(place: u64) -> Verdict {
    match VERDICTS.get(place as usize) {
        Some(verdict) => *verdict,
        None => Verdict::Accepted,
    }
}

/// An entry of each update of the script, each with another verdict.
pub fn write_entries(page: &mut Page, alloc: Global) -> Result<(), Fail> {
    let script = read_script(alloc, SCRIPT);
    let Script {
        start,
        limit: _,
        callers: _,
        base,
        phases,
    } = script.ok().ok_or("no script")?;
    drop(start);
    drop(base);
    write_phases(page, alloc, phases)
}

fn write_phases(page: &mut Page, alloc: Global, phases: PhaseList) -> Result<(), Fail> {
    for lines in phases.into_vec() {
        write_lines(page, alloc, lines)?;
    }
    Ok(())
}

fn write_lines(page: &mut Page, alloc: Global, lines: LineList) -> Result<(), Fail> {
    let mut place: u64 = 0;
    for line in lines.into_vec() {
        write_line(page, alloc, place, line)?;
        place = place.wrapping_add(1);
    }
    Ok(())
}

fn write_line(page: &mut Page, alloc: Global, place: u64, line: Line) -> Result<(), NoMemory> {
    let caller = line.caller;
    match line.job {
        Job::Submit { queue: _, update } => write_one(page, alloc, place, caller, update),
        _ => Ok(()),
    }
}

fn write_one(
    page: &mut Page,
    alloc: Global,
    place: u64,
    caller: u32,
    update: Update,
) -> Result<(), NoMemory> {
    let entry = Entry {
        caller,
        seq: place,
        update: Shared::of(alloc, update)?,
        verdict: verdict_at(place),
        version: 0,
    };
    let written = write_entry(page, place, &entry);
    drop(entry);
    written
}
