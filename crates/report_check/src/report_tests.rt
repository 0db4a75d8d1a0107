// The parts of a report, each with its text.
use crate::entries::write_entries;
use crate::replies::{write_one_of_each, write_totals_of_two};
use crate::rows::{write_empty_tables, write_full_tables};
use net_types::{Caps, ItemList};
use report_text::{
    ReportHead, write_head, write_journal_line, write_observers, write_replies, write_round_line,
};
use script_text::Page;
use std::alloc::Global;
use std::process::Abort;
use std::test::Fail;
use switch_model::RoundKind;

#[derive(Clone, Copy)]
enum Part {
    Heads,
    NoReplies,
    Replies,
    Lines,
    Entries,
    EmptyTables,
    Tables,
    Observers,
}

const HEADS: &str = "report 1
start cold version 0
caps 0 0 0 0
report 1
start warm version 9
caps 65536 1 4096 2
";

const REPLIES: &str = "replies 8
12 settled 7 full group version 10 front 11
14 history-full
15 settled 0 full route version 11 front 18446744073709551615
16 settle 2
17 pump 4294967295
18 front 3 version 2
19 settled 8 accepted version 12 front 9
20 settled 9 invalid NoVlan version 12 front 10
";

const LINES: &str = "journal entries 0 rounds 0 version 0
journal entries 8 rounds 3 version 18446744073709551615
round 0 whole version 10
round 18446744073709551615 one version 0
";

const ENTRIES: &str = "0 caller 0 seq 0 accepted vlan add 1 a
1 caller 1 seq 1 full l2 vlan add 4094 web_1-a
2 caller 2 seq 2 full host vlan del 7
3 caller 0 seq 3 full group port add 3 4094
4 caller 0 seq 4 full route port del 1024
5 caller 0 seq 5 invalid NoVlan port vlan 3 7
6 caller 0 seq 6 invalid VlanExists alone port up 1
7 caller 0 seq 7 invalid VlanInUse port down 1
8 caller 0 seq 8 invalid NoPort intf add 1 10 0 02:00:00:00:01:01
9 caller 0 seq 9 invalid PortExists intf del 4094
10 caller 0 seq 10 invalid PortInUse addr add 1 10.0.0.1/24
11 caller 0 seq 11 invalid NoIntf addr add 1 fe80::1/64
12 caller 0 seq 12 invalid IntfExists addr del 1 2001:db8::7/64
13 caller 0 seq 13 invalid VlanHasIntf neighbor set 1 10.0.0.2 ff:ff:ff:ff:ff:ff 7
14 caller 0 seq 14 invalid IntfInUse neighbor pending 1 2001:db8::9
15 caller 0 seq 15 invalid BadMac neighbor del 1 10.0.0.3
16 caller 0 seq 16 invalid AddrExists mac set 2 00:00:00:00:00:00 3
17 caller 0 seq 17 invalid AddrOverlap mac del 2 a0:b1:c2:d3:e4:f5
18 caller 0 seq 18 invalid NoAddr route set 0 20.0.0.0/8 ebgp via 10.0.0.3 10.0.0.2@1
19 caller 0 seq 19 invalid AddrInUse route set 0 20.0.0.0/8 static via
20 caller 0 seq 20 invalid NotInSubnet route set 3 ::/0 openr cpu
21 caller 0 seq 21 invalid PortNotInVlan route set 3 2001:db8::/32 ibgp drop
22 caller 0 seq 22 invalid NoNeighbor route del 0 20.0.0.0/8 interface
23 caller 0 seq 23 invalid NoMac client sync 0 ebgp
24 caller 0 seq 24 invalid InterfaceClient client sync 0 ebgp 20.0.0.0/8 via 10.0.0.2 ; 30.0.0.0/8 cpu ; 0.0.0.0/0 drop
25 caller 0 seq 25 invalid FamilyMix port up 1
26 caller 0 seq 26 invalid NoHops port up 1
27 caller 0 seq 27 invalid TooManyHops port up 1
28 caller 0 seq 28 invalid DoubleHop port up 1
29 caller 0 seq 29 invalid DoublePrefix port up 1
30 caller 0 seq 30 invalid NoRoute port up 1
";

const EMPTY_TABLES: &str = "tables l2 0 host 0 group 0 route 0
";

const TABLES: &str = "tables l2 2 host 4 group 3 route 6
l2 1 02:00:00:00:00:01 port 1 up
l2 4094 a0:b1:c2:d3:e4:f5 port 1024 down
host 10.0.0.2@1 vrf 0 forward 02:00:00:00:00:22 port 1 up
host 10.0.0.3@1 vrf 0 forward 02:00:00:00:00:23 port 2 down
host 10.0.0.3@7 vrf 3 trap
host 2001:db8::9@7 vrf 3 trap
group 10.0.0.2@1 live 10.0.0.3@1 dead
group 10.0.0.2@1 live 10.0.0.3@1 dead 10.0.0.3@7 dead
group 10.0.0.3@1 dead 2001:db8::9@7 live
route 0 10.0.0.0/24 cpu
route 0 20.0.0.0/8 group 1
route 0 30.0.0.0/8 drop
route 3 0.0.0.0/0 group 0
route 3 20.0.0.0/8 host 10.0.0.3@7
route 3 2001:db8::/32 group 2
";

const OBSERVERS: &str = "observers 0
end
observers 2
observer 0 version 12 ports 1 up 2 vlans 3 intfs 4 macs 5 neighbors 6 routes 7 fib 18446744073709551615
observer 1 version 0 ports 0 up 0 vlans 0 intfs 0 macs 0 neighbors 0 routes 0 fib 0
end
";

fn caps(l2: u32, host: u32, group: u32, route: u32) -> Caps {
    Caps {
        l2,
        host,
        group,
        route,
    }
}

fn write_heads(page: &mut Page) -> Result<(), Fail> {
    let cold = ReportHead {
        warm: false,
        caps: caps(0, 0, 0, 0),
    };
    let warm = ReportHead {
        warm: true,
        caps: caps(65536, 1, 4096, 2),
    };
    write_head(page, &cold, 0)?;
    write_head(page, &warm, 9)?;
    Ok(())
}

fn write_lines(page: &mut Page) -> Result<(), Fail> {
    write_journal_line(page, 0, 0, 0)?;
    write_journal_line(page, 8, 3, u64::MAX)?;
    write_round_line(page, 0, RoundKind::Whole, 10)?;
    write_round_line(page, u64::MAX, RoundKind::One, 0)?;
    Ok(())
}

fn write_no_replies(page: &mut Page, alloc: Global) -> Result<(), Fail> {
    let replies = ItemList::new(alloc);
    let written = write_replies(page, &replies);
    drop(replies);
    written?;
    Ok(())
}

fn write_part(alloc: Global, page: &mut Page, part: Part) -> Result<(), Fail> {
    match part {
        Part::Heads => write_heads(page),
        Part::NoReplies => write_no_replies(page, alloc),
        Part::Replies => write_one_of_each(page, alloc),
        Part::Lines => write_lines(page),
        Part::Entries => write_entries(page, alloc),
        Part::EmptyTables => write_empty_tables(page, alloc),
        Part::Tables => write_full_tables(page, alloc),
        Part::Observers => write_totals_of_two(page, alloc),
    }
}

fn is_written(rt: &impl Abort, alloc: Global, part: Part, wanted: &str) -> Result<(), Fail> {
    let mut page = Page::new(alloc);
    let written = write_part(alloc, &mut page, part);
    let bytes = page.into_bytes();
    let same = bytes.as_slice() == wanted.as_bytes();
    drop(bytes);
    written?;
    assert!(rt; same);
    Ok(())
}

#[test]
fn each_part_has_its_text(rt: HostRuntime) -> Result<(), Fail> {
    let table = [
        (Part::Heads, HEADS),
        (Part::NoReplies, "replies 0\n"),
        (Part::Replies, REPLIES),
        (Part::Lines, LINES),
        (Part::Entries, ENTRIES),
        (Part::EmptyTables, EMPTY_TABLES),
        (Part::Tables, TABLES),
        (Part::Observers, OBSERVERS),
    ];
    for (part, wanted) in table {
        is_written(&rt, rt.alloc(), part, wanted)?;
    }
    Ok(())
}
