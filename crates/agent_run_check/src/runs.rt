//! Scripts with the whole reports of their runs, computed by hand.

/// A script that is run, and its report.
pub(crate) type Run = (&'static [u8], &'static [u8]);

/// Runs of ports and stations, an update at a time.
pub(crate) const STATION_RUNS: [Run; 6] = [
    (PORT_FLAPS, PORT_FLAPS_REPORT),
    (NO_LINES, NO_LINES_REPORT),
    (NO_PORT, NO_PORT_REPORT),
    (ROOM_FOR_ONE, ROOM_FOR_ONE_REPORT),
    (FULL_THEN_INVALID, FULL_THEN_INVALID_REPORT),
    (LIMIT, LIMIT_REPORT),
];

/// Runs of queues and questions.
pub(crate) const QUEUE_RUNS: [Run; 4] = [
    (QUEUE_IN_RUNS, QUEUE_IN_RUNS_REPORT),
    (QUEUE_PUMPED, QUEUE_PUMPED_REPORT),
    (LIMIT_SETTLES, LIMIT_SETTLES_REPORT),
    (SHOWN, SHOWN_REPORT),
];

/// Runs of routes.
pub(crate) const ROUTE_RUNS: [Run; 6] = [
    (GROUP_MOVES, GROUP_MOVES_REPORT),
    (TWO_TABLES_FULL, TWO_TABLES_FULL_REPORT),
    (NEARER_CLIENT, NEARER_CLIENT_REPORT),
    (THROUGH_ROUTES, THROUGH_ROUTES_REPORT),
    (TWO_VRFS, TWO_VRFS_REPORT),
    (CLIENT_SYNC, CLIENT_SYNC_REPORT),
];

/// A station behind a port that goes up and down.
pub(crate) const PORT_FLAPS: &[u8] = b"start cold 4 4 4 4
limit 10
callers 1
phase
0 vlan add 10 web
0 port add 1 10
0 port up 1
0 mac set 10 02:00:00:00:00:0a 1
0 port down 1
";

pub(crate) const PORT_FLAPS_REPORT: &[u8] = b"report 1
start cold version 0
caps 4 4 4 4
replies 5
5 settled 0 accepted version 1 front 1
6 settled 1 accepted version 2 front 2
7 settled 2 accepted version 3 front 3
8 settled 3 accepted version 4 front 4
9 settled 4 accepted version 5 front 5
journal entries 5 rounds 5 version 5
round 0 whole version 1
0 caller 0 seq 0 accepted vlan add 10 web
round 1 whole version 2
1 caller 0 seq 1 accepted port add 1 10
round 2 whole version 3
2 caller 0 seq 2 accepted port up 1
round 3 whole version 4
3 caller 0 seq 3 accepted mac set 10 02:00:00:00:00:0a 1
round 4 whole version 5
4 caller 0 seq 4 accepted port down 1
tables l2 1 host 0 group 0 route 0
l2 10 02:00:00:00:00:0a port 1 down
observers 0
end
";

/// No phase, and no room on the chip.
pub(crate) const NO_LINES: &[u8] = b"start cold 0 0 0 0
limit 1
callers 1
";

pub(crate) const NO_LINES_REPORT: &[u8] = b"report 1
start cold version 0
caps 0 0 0 0
replies 0
journal entries 0 rounds 0 version 0
tables l2 0 host 0 group 0 route 0
observers 0
end
";

/// A station behind a port that isn't there.
pub(crate) const NO_PORT: &[u8] = b"start cold 1 0 0 0
limit 100
callers 1
base vlan add 10 web
base port add 1 10
phase
0 mac set 10 02:00:00:00:00:01 7
";

pub(crate) const NO_PORT_REPORT: &[u8] = b"report 1
start cold version 0
caps 1 0 0 0
replies 1
7 settled 0 invalid NoPort version 0 front 1
journal entries 1 rounds 1 version 0
round 0 whole version 0
0 caller 0 seq 0 invalid NoPort mac set 10 02:00:00:00:00:01 7
tables l2 0 host 0 group 0 route 0
observers 0
end
";

/// A second station finds no room until the first is gone.
pub(crate) const ROOM_FOR_ONE: &[u8] = b"start cold 1 0 0 0
limit 100
callers 1
base vlan add 10 web
base port add 1 10
phase
0 mac set 10 02:00:00:00:00:01 1
0 mac set 10 02:00:00:00:00:02 1
0 mac del 10 02:00:00:00:00:01
0 mac set 10 02:00:00:00:00:02 1
";

pub(crate) const ROOM_FOR_ONE_REPORT: &[u8] = b"report 1
start cold version 0
caps 1 0 0 0
replies 4
7 settled 0 accepted version 1 front 1
8 settled 1 full l2 version 1 front 2
9 settled 2 accepted version 2 front 3
10 settled 3 accepted version 3 front 4
journal entries 4 rounds 4 version 3
round 0 whole version 1
0 caller 0 seq 0 accepted mac set 10 02:00:00:00:00:01 1
round 1 one version 1
1 caller 0 seq 1 full l2 mac set 10 02:00:00:00:00:02 1
round 2 whole version 2
2 caller 0 seq 2 accepted mac del 10 02:00:00:00:00:01
round 3 whole version 3
3 caller 0 seq 3 accepted mac set 10 02:00:00:00:00:02 1
tables l2 1 host 0 group 0 route 0
l2 10 02:00:00:00:00:02 port 1 down
observers 0
end
";

/// An update that finds no room, and one that is invalid.
pub(crate) const FULL_THEN_INVALID: &[u8] = b"start cold 1 0 0 0
limit 10
callers 1
phase
0 vlan add 1 a
0 port add 1 1
0 mac set 1 02:00:00:00:00:01 1
0 mac set 1 02:00:00:00:00:02 1
0 mac set 2 02:00:00:00:00:03 1
";

pub(crate) const FULL_THEN_INVALID_REPORT: &[u8] = b"report 1
start cold version 0
caps 1 0 0 0
replies 5
5 settled 0 accepted version 1 front 1
6 settled 1 accepted version 2 front 2
7 settled 2 accepted version 3 front 3
8 settled 3 full l2 version 3 front 4
9 settled 4 invalid NoVlan version 3 front 5
journal entries 5 rounds 5 version 3
round 0 whole version 1
0 caller 0 seq 0 accepted vlan add 1 a
round 1 whole version 2
1 caller 0 seq 1 accepted port add 1 1
round 2 whole version 3
2 caller 0 seq 2 accepted mac set 1 02:00:00:00:00:01 1
round 3 one version 3
3 caller 0 seq 3 full l2 mac set 1 02:00:00:00:00:02 1
round 4 whole version 3
4 caller 0 seq 4 invalid NoVlan mac set 2 02:00:00:00:00:03 1
tables l2 1 host 0 group 0 route 0
l2 1 02:00:00:00:00:01 port 1 down
observers 0
end
";

/// A queue that is settled together, and one whose first update stands alone and finds no room.
pub(crate) const QUEUE_IN_RUNS: &[u8] = b"start cold 1 0 0 0
limit 100
callers 1
base vlan add 10 web
base port add 1 10
phase
0 mac set 10 02:00:00:00:00:01 1
0 queue mac set 10 02:00:00:00:00:02 1
0 queue mac del 10 02:00:00:00:00:01
0 settle
0 queue alone mac set 10 02:00:00:00:00:03 1
0 queue mac del 10 02:00:00:00:00:02
0 settle
";

pub(crate) const QUEUE_IN_RUNS_REPORT: &[u8] = b"report 1
start cold version 0
caps 1 0 0 0
replies 7
7 settled 0 accepted version 1 front 1
8 settled 1 accepted version 2 front 3
9 settled 2 accepted version 2 front 3
10 settle 2
11 settled 3 full l2 version 2 front 4
12 settled 4 accepted version 3 front 5
13 settle 2
journal entries 5 rounds 4 version 3
round 0 whole version 1
0 caller 0 seq 0 accepted mac set 10 02:00:00:00:00:01 1
round 1 whole version 2
1 caller 0 seq 1 accepted mac set 10 02:00:00:00:00:02 1
2 caller 0 seq 2 accepted mac del 10 02:00:00:00:00:01
round 2 one version 2
3 caller 0 seq 3 full l2 alone mac set 10 02:00:00:00:00:03 1
round 3 whole version 3
4 caller 0 seq 4 accepted mac del 10 02:00:00:00:00:02
tables l2 0 host 0 group 0 route 0
observers 0
end
";

/// Two queued updates of one route are pumped in one round; then nothing is left to pump.
pub(crate) const QUEUE_PUMPED: &[u8] = b"start cold 0 8 1 8
limit 20
callers 1
base vlan add 10 web
base intf add 1 10 0 02:00:00:00:01:01
base addr add 1 10.0.0.1/24
phase
0 route set 0 20.0.0.0/8 static drop
0 queue route del 0 20.0.0.0/8 static
0 queue route set 0 20.0.0.0/8 static cpu
0 pump
0 pump
0 peek
";

pub(crate) const QUEUE_PUMPED_REPORT: &[u8] = b"report 1
start cold version 0
caps 0 8 1 8
replies 6
8 settled 0 accepted version 1 front 1
9 settled 1 accepted version 2 front 3
10 settled 2 accepted version 2 front 3
11 pump 2
12 pump 0
13 front 3 version 2
journal entries 3 rounds 2 version 2
round 0 whole version 1
0 caller 0 seq 0 accepted route set 0 20.0.0.0/8 static drop
round 1 whole version 2
1 caller 0 seq 1 accepted route del 0 20.0.0.0/8 static
2 caller 0 seq 2 accepted route set 0 20.0.0.0/8 static cpu
tables l2 0 host 0 group 0 route 2
route 0 10.0.0.0/24 cpu
route 0 20.0.0.0/8 cpu
observers 0
end
";

/// The last update is past the limit.
pub(crate) const LIMIT: &[u8] = b"start cold 0 0 0 0
limit 3
callers 1
phase
0 vlan add 1 a
0 vlan add 2 a
0 vlan add 3 a
0 vlan add 4 a
";

pub(crate) const LIMIT_REPORT: &[u8] = b"report 1
start cold version 0
caps 0 0 0 0
replies 4
5 settled 0 accepted version 1 front 1
6 settled 1 accepted version 2 front 2
7 settled 2 accepted version 3 front 3
8 history-full
journal entries 3 rounds 3 version 3
round 0 whole version 1
0 caller 0 seq 0 accepted vlan add 1 a
round 1 whole version 2
1 caller 0 seq 1 accepted vlan add 2 a
round 2 whole version 3
2 caller 0 seq 2 accepted vlan add 3 a
tables l2 0 host 0 group 0 route 0
observers 0
end
";

/// An update past the limit settles what waits, and is told last.
pub(crate) const LIMIT_SETTLES: &[u8] = b"start cold 0 0 0 0
limit 1
callers 1
phase
0 queue vlan add 1 a
0 show version
0 vlan add 2 b
0 show version
0 queue vlan add 3 c
0 settle
";

pub(crate) const LIMIT_SETTLES_REPORT: &[u8] = b"report 1
start cold version 0
caps 0 0 0 0
replies 6
5 settled 0 accepted version 1 front 1
6 front 0 version 0
7 history-full
8 front 1 version 1
9 history-full
10 settle 0
journal entries 1 rounds 1 version 1
round 0 whole version 1
0 caller 0 seq 0 accepted vlan add 1 a
tables l2 0 host 0 group 0 route 0
observers 0
end
";

/// A route moves to other hops, in a table with room for one group.
pub(crate) const GROUP_MOVES: &[u8] = b"start cold 0 8 1 8
limit 20
callers 1
base vlan add 10 web
base intf add 1 10 0 02:00:00:00:01:01
base addr add 1 10.0.0.1/24
phase
0 route set 0 20.0.0.0/8 ebgp via 10.0.0.2 10.0.0.3
0 route set 0 20.0.0.0/8 ebgp via 10.0.0.3 10.0.0.4
";

pub(crate) const GROUP_MOVES_REPORT: &[u8] = b"report 1
start cold version 0
caps 0 8 1 8
replies 2
8 settled 0 accepted version 1 front 1
9 settled 1 accepted version 2 front 2
journal entries 2 rounds 2 version 2
round 0 whole version 1
0 caller 0 seq 0 accepted route set 0 20.0.0.0/8 ebgp via 10.0.0.2 10.0.0.3
round 1 whole version 2
1 caller 0 seq 1 accepted route set 0 20.0.0.0/8 ebgp via 10.0.0.3 10.0.0.4
tables l2 0 host 2 group 1 route 2
host 10.0.0.3@1 vrf 0 trap
host 10.0.0.4@1 vrf 0 trap
group 10.0.0.3@1 dead 10.0.0.4@1 dead
route 0 10.0.0.0/24 cpu
route 0 20.0.0.0/8 group 0
observers 0
end
";

/// Of two tables without room the first is told.
pub(crate) const TWO_TABLES_FULL: &[u8] = b"start cold 0 8 0 1
limit 20
callers 1
base vlan add 10 web
base intf add 1 10 0 02:00:00:00:01:01
base addr add 1 10.0.0.1/24
phase
0 route set 0 20.0.0.0/8 ebgp via 10.0.0.2 10.0.0.3
";

pub(crate) const TWO_TABLES_FULL_REPORT: &[u8] = b"report 1
start cold version 0
caps 0 8 0 1
replies 1
8 settled 0 full group version 0 front 1
journal entries 1 rounds 1 version 0
round 0 one version 0
0 caller 0 seq 0 full group route set 0 20.0.0.0/8 ebgp via 10.0.0.2 10.0.0.3
tables l2 0 host 0 group 0 route 1
route 0 10.0.0.0/24 cpu
observers 0
end
";

/// Of two routes to a prefix that of the nearer client is used.
pub(crate) const NEARER_CLIENT: &[u8] = b"start cold 0 8 1 8
limit 20
callers 1
base vlan add 10 web
base intf add 1 10 0 02:00:00:00:01:01
base addr add 1 10.0.0.1/24
phase
0 route set 0 20.0.0.0/8 ebgp via 10.0.0.2
0 route set 0 20.0.0.0/8 ibgp via 10.0.0.3
0 show route 0 20.1.2.3
0 route del 0 20.0.0.0/8 ebgp
0 show route 0 20.1.2.3
";

pub(crate) const NEARER_CLIENT_REPORT: &[u8] = b"report 1
start cold version 0
caps 0 8 1 8
replies 5
8 settled 0 accepted version 1 front 1
9 settled 1 accepted version 2 front 2
10 front 2 version 2 route 20.0.0.0/8 ebgp to 10.0.0.2@1
11 settled 2 accepted version 3 front 3
12 front 3 version 3 route 20.0.0.0/8 ibgp to 10.0.0.3@1
journal entries 3 rounds 3 version 3
round 0 whole version 1
0 caller 0 seq 0 accepted route set 0 20.0.0.0/8 ebgp via 10.0.0.2
round 1 whole version 2
1 caller 0 seq 1 accepted route set 0 20.0.0.0/8 ibgp via 10.0.0.3
round 2 whole version 3
2 caller 0 seq 2 accepted route del 0 20.0.0.0/8 ebgp
tables l2 0 host 1 group 0 route 2
host 10.0.0.3@1 vrf 0 trap
route 0 10.0.0.0/24 cpu
route 0 20.0.0.0/8 host 10.0.0.3@1
observers 0
end
";

/// Hops that lead through other routes, and two routes that lead to each other.
pub(crate) const THROUGH_ROUTES: &[u8] = b"start cold 0 8 1 8
limit 20
callers 1
base vlan add 10 web
base intf add 1 10 0 02:00:00:00:01:01
base addr add 1 10.0.0.1/24
phase
0 route set 0 0.0.0.0/0 ebgp via 10.0.0.2
0 route set 0 20.0.0.0/8 ebgp via 30.0.0.1
0 show route 0 20.0.0.9
0 route set 0 40.0.0.0/8 ebgp via 50.0.0.1
0 route set 0 50.0.0.0/8 ebgp via 40.0.0.1
0 show route 0 40.0.0.9
";

pub(crate) const THROUGH_ROUTES_REPORT: &[u8] = b"report 1
start cold version 0
caps 0 8 1 8
replies 6
8 settled 0 accepted version 1 front 1
9 settled 1 accepted version 2 front 2
10 front 2 version 2 route 20.0.0.0/8 ebgp to 10.0.0.2@1
11 settled 2 accepted version 3 front 3
12 settled 3 accepted version 4 front 4
13 front 4 version 4 route 40.0.0.0/8 ebgp none
journal entries 4 rounds 4 version 4
round 0 whole version 1
0 caller 0 seq 0 accepted route set 0 0.0.0.0/0 ebgp via 10.0.0.2
round 1 whole version 2
1 caller 0 seq 1 accepted route set 0 20.0.0.0/8 ebgp via 30.0.0.1
round 2 whole version 3
2 caller 0 seq 2 accepted route set 0 40.0.0.0/8 ebgp via 50.0.0.1
round 3 whole version 4
3 caller 0 seq 3 accepted route set 0 50.0.0.0/8 ebgp via 40.0.0.1
tables l2 0 host 1 group 0 route 3
host 10.0.0.2@1 vrf 0 trap
route 0 0.0.0.0/0 host 10.0.0.2@1
route 0 10.0.0.0/24 cpu
route 0 20.0.0.0/8 host 10.0.0.2@1
observers 0
end
";

/// A hop on an interface serves only the VRF of that interface.
pub(crate) const TWO_VRFS: &[u8] = b"start cold 0 8 1 8
limit 20
callers 1
base vlan add 10 a
base vlan add 11 b
base intf add 1 10 0 02:00:00:00:01:01
base intf add 3 11 1 02:00:00:00:01:03
phase
0 route set 0 2001:db8::/32 ebgp via fe80::1@3
0 show route 0 2001:db8::5
0 route set 1 2001:db8::/32 ebgp via fe80::1@3
0 show route 1 2001:db8::5
";

pub(crate) const TWO_VRFS_REPORT: &[u8] = b"report 1
start cold version 0
caps 0 8 1 8
replies 4
9 settled 0 accepted version 1 front 1
10 front 1 version 1 route 2001:db8::/32 ebgp none
11 settled 1 accepted version 2 front 2
12 front 2 version 2 route 2001:db8::/32 ebgp to fe80::1@3
journal entries 2 rounds 2 version 2
round 0 whole version 1
0 caller 0 seq 0 accepted route set 0 2001:db8::/32 ebgp via fe80::1@3
round 1 whole version 2
1 caller 0 seq 1 accepted route set 1 2001:db8::/32 ebgp via fe80::1@3
tables l2 0 host 1 group 0 route 1
host fe80::1@3 vrf 1 trap
route 1 2001:db8::/32 host fe80::1@3
observers 0
end
";

/// A client's routes are replaced by none, and a list that names a prefix twice is invalid.
pub(crate) const CLIENT_SYNC: &[u8] = b"start cold 0 8 1 8
limit 20
callers 1
base vlan add 10 web
base intf add 1 10 0 02:00:00:00:01:01
base addr add 1 10.0.0.1/24
phase
0 route set 0 20.0.0.0/8 ebgp drop
0 client sync 0 ebgp
0 client sync 0 ebgp 20.0.0.0/8 drop ; 20.0.0.0/8 cpu
";

pub(crate) const CLIENT_SYNC_REPORT: &[u8] = b"report 1
start cold version 0
caps 0 8 1 8
replies 3
8 settled 0 accepted version 1 front 1
9 settled 1 accepted version 2 front 2
10 settled 2 invalid DoublePrefix version 2 front 3
journal entries 3 rounds 3 version 2
round 0 whole version 1
0 caller 0 seq 0 accepted route set 0 20.0.0.0/8 ebgp drop
round 1 whole version 2
1 caller 0 seq 1 accepted client sync 0 ebgp
round 2 whole version 2
2 caller 0 seq 2 invalid DoublePrefix client sync 0 ebgp 20.0.0.0/8 drop ; 20.0.0.0/8 cpu
tables l2 0 host 0 group 0 route 1
route 0 10.0.0.0/24 cpu
observers 0
end
";

/// Questions about counts, ports and routes.
pub(crate) const SHOWN: &[u8] = b"start cold 4 4 4 4
limit 10
callers 1
base vlan add 10 web
base port add 1 10
base port up 1
base intf add 1 10 7 02:00:00:00:01:01
base addr add 1 10.0.0.1/24
phase
0 show counts
0 show port 1
0 show port 2
0 show route 0 10.0.0.9
0 show route 7 10.0.0.9
0 port down 1
0 show port 1
0 port down 2
0 show version
0 peek
0 route set 65535 20.0.0.0/8 static drop
0 show route 65535 20.0.0.1
";

pub(crate) const SHOWN_REPORT: &[u8] = b"report 1
start cold version 0
caps 4 4 4 4
replies 12
10 front 0 version 0 ports 1 up 1 vlans 1 intfs 1 macs 0 neighbors 0 routes 0 fib 1
11 front 0 version 0 port 1 vlan 10 up
12 front 0 version 0 port 2 none
13 front 0 version 0 route none
14 front 0 version 0 route 10.0.0.0/24 interface connected
15 settled 0 accepted version 1 front 1
16 front 1 version 1 port 1 vlan 10 down
17 settled 1 invalid NoPort version 1 front 2
18 front 2 version 1
19 front 2 version 1
20 settled 2 accepted version 2 front 3
21 front 3 version 2 route 20.0.0.0/8 static drop
journal entries 3 rounds 3 version 2
round 0 whole version 1
0 caller 0 seq 0 accepted port down 1
round 1 whole version 1
1 caller 0 seq 1 invalid NoPort port down 2
round 2 whole version 2
2 caller 0 seq 2 accepted route set 65535 20.0.0.0/8 static drop
tables l2 0 host 0 group 0 route 2
route 7 10.0.0.0/24 cpu
route 65535 20.0.0.0/8 drop
observers 0
end
";

/// A rack switch with four uplinks, one of which flaps.
pub(crate) const RACK: &[u8] = b"start cold 16 16 4 16
limit 100
callers 1
base vlan add 101 u1
base port add 1 101
base port up 1
base intf add 101 101 0 02:00:00:00:00:01
base addr add 101 10.1.1.0/31
base neighbor set 101 10.1.1.1 02:00:00:00:01:01 1
base vlan add 102 u2
base port add 2 102
base port up 2
base intf add 102 102 0 02:00:00:00:00:02
base addr add 102 10.1.1.2/31
base neighbor set 102 10.1.1.3 02:00:00:00:01:02 2
base vlan add 103 u3
base port add 3 103
base port up 3
base intf add 103 103 0 02:00:00:00:00:03
base addr add 103 10.1.1.4/31
base neighbor set 103 10.1.1.5 02:00:00:00:01:03 3
base vlan add 104 u4
base port add 4 104
base port up 4
base intf add 104 104 0 02:00:00:00:00:04
base addr add 104 10.1.1.6/31
base neighbor set 104 10.1.1.7 02:00:00:00:01:04 4
phase
0 route set 0 0.0.0.0/0 ebgp via 10.1.1.1 10.1.1.3 10.1.1.5 10.1.1.7
0 port down 2
0 tables
0 port up 2
0 tables
";

pub(crate) const RACK_REPORT: &[u8] = b"report 1
start cold version 0
caps 16 16 4 16
replies 5
29 settled 0 accepted version 1 front 1
30 settled 1 accepted version 2 front 2
31 front 2 version 2 l2 0 host 4 group 1 route 5
32 settled 2 accepted version 3 front 3
33 front 3 version 3 l2 0 host 4 group 1 route 5
journal entries 3 rounds 3 version 3
round 0 whole version 1
0 caller 0 seq 0 accepted route set 0 0.0.0.0/0 ebgp via 10.1.1.1 10.1.1.3 10.1.1.5 10.1.1.7
round 1 whole version 2
1 caller 0 seq 1 accepted port down 2
round 2 whole version 3
2 caller 0 seq 2 accepted port up 2
tables l2 0 host 4 group 1 route 5
host 10.1.1.1@101 vrf 0 forward 02:00:00:00:01:01 port 1 up
host 10.1.1.3@102 vrf 0 forward 02:00:00:00:01:02 port 2 up
host 10.1.1.5@103 vrf 0 forward 02:00:00:00:01:03 port 3 up
host 10.1.1.7@104 vrf 0 forward 02:00:00:00:01:04 port 4 up
group 10.1.1.1@101 live 10.1.1.3@102 live 10.1.1.5@103 live 10.1.1.7@104 live
route 0 0.0.0.0/0 group 0
route 0 10.1.1.0/31 cpu
route 0 10.1.1.2/31 cpu
route 0 10.1.1.4/31 cpu
route 0 10.1.1.6/31 cpu
observers 0
end
";
