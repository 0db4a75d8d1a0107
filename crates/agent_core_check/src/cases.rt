// Scripts, with the rounds that settle their updates and the chip's tables after them.

/// A script, its rounds and the rows. A round is its kind, the version after it, how many entries it has,
/// and the verdicts of those that weren't accepted. A row of hosts or groups begins with its slot, and
/// each member of a group with the slot of its host.
#[derive(Clone, Copy)]
pub struct Case {
    pub script: &'static [u8],
    pub wanted: &'static [u8],
}

/// Each script is settled as it says.
pub const CASES: [Case; 11] = [
    // a table that is full, until a station goes
    Case {
        script: b"start cold 1 0 0 0\nlimit 100\ncallers 1\nbase vlan add 10 web\nbase port add 1 10\nphase\n0 mac set 10 02:00:00:00:00:01 1\n0 mac set 10 02:00:00:00:00:02 1\n0 mac del 10 02:00:00:00:00:01\n0 mac set 10 02:00:00:00:00:02 1\n",
        wanted: b"whole 1 1\none 1 1 full l2\nwhole 2 1\nwhole 3 1\nl2 10 02:00:00:00:00:02 1 down\n",
    },
    // what wouldn't fit by itself fits with what comes after it, but not where it is to be alone
    Case {
        script: b"start cold 1 0 0 0\nlimit 100\ncallers 1\nbase vlan add 10 web\nbase port add 1 10\nphase\n0 mac set 10 02:00:00:00:00:01 1\n0 queue mac set 10 02:00:00:00:00:02 1\n0 queue mac del 10 02:00:00:00:00:01\n0 settle\n0 queue alone mac set 10 02:00:00:00:00:03 1\n0 queue mac del 10 02:00:00:00:00:02\n0 settle\n",
        wanted: b"whole 1 1\nwhole 2 2\none 2 1 full l2\nwhole 3 1\n",
    },
    // a route changes its group where hosts and groups are just enough, by slots that are freed before
    Case {
        script: b"start cold 0 8 1 8\nlimit 20\ncallers 1\nbase vlan add 10 web\nbase intf add 1 10 0 02:00:00:00:01:01\nbase addr add 1 10.0.0.1/24\nphase\n0 route set 0 20.0.0.0/8 ebgp via 10.0.0.2 10.0.0.3\n0 route set 0 20.0.0.0/8 ebgp via 10.0.0.3 10.0.0.4\n",
        wanted: b"whole 1 1\nwhole 2 1\nhost 0 10.0.0.4@1 vrf 0 trap\nhost 1 10.0.0.3@1 vrf 0 trap\ngroup 0 1 dead 0 dead\nroute 0 10.0.0.0/24 cpu\nroute 0 20.0.0.0/8 group 0\n",
    },
    // two tables are overfull, and the first of them is named
    Case {
        script: b"start cold 0 8 0 1\nlimit 20\ncallers 1\nbase vlan add 10 web\nbase intf add 1 10 0 02:00:00:00:01:01\nbase addr add 1 10.0.0.1/24\nphase\n0 route set 0 20.0.0.0/8 ebgp via 10.0.0.2 10.0.0.3\n",
        wanted: b"one 0 1 full group\nroute 0 10.0.0.0/24 cpu\n",
    },
    // a rack switch, one of whose ports goes down
    Case {
        script: b"start cold 16 16 4 16\nlimit 100\ncallers 1\nbase vlan add 101 u1\nbase port add 1 101\nbase port up 1\nbase intf add 101 101 0 02:00:00:00:00:01\nbase addr add 101 10.1.1.0/31\nbase neighbor set 101 10.1.1.1 02:00:00:00:01:01 1\nbase vlan add 102 u2\nbase port add 2 102\nbase port up 2\nbase intf add 102 102 0 02:00:00:00:00:02\nbase addr add 102 10.1.1.2/31\nbase neighbor set 102 10.1.1.3 02:00:00:00:01:02 2\nbase vlan add 103 u3\nbase port add 3 103\nbase port up 3\nbase intf add 103 103 0 02:00:00:00:00:03\nbase addr add 103 10.1.1.4/31\nbase neighbor set 103 10.1.1.5 02:00:00:00:01:03 3\nbase vlan add 104 u4\nbase port add 4 104\nbase port up 4\nbase intf add 104 104 0 02:00:00:00:00:04\nbase addr add 104 10.1.1.6/31\nbase neighbor set 104 10.1.1.7 02:00:00:00:01:04 4\nphase\n0 route set 0 0.0.0.0/0 ebgp via 10.1.1.1 10.1.1.3 10.1.1.5 10.1.1.7\n0 port down 2\n",
        wanted: b"whole 1 1\nwhole 2 1\nhost 0 10.1.1.1@101 vrf 0 forward 02:00:00:00:01:01 1 up\nhost 1 10.1.1.3@102 vrf 0 forward 02:00:00:00:01:02 2 down\nhost 2 10.1.1.5@103 vrf 0 forward 02:00:00:00:01:03 3 up\nhost 3 10.1.1.7@104 vrf 0 forward 02:00:00:00:01:04 4 up\ngroup 0 0 live 1 dead 2 live 3 live\nroute 0 0.0.0.0/0 group 0\nroute 0 10.1.1.0/31 cpu\nroute 0 10.1.1.2/31 cpu\nroute 0 10.1.1.4/31 cpu\nroute 0 10.1.1.6/31 cpu\n",
    },
    // a rack switch, one of whose ports goes down and comes up again
    Case {
        script: b"start cold 16 16 4 16\nlimit 100\ncallers 1\nbase vlan add 101 u1\nbase port add 1 101\nbase port up 1\nbase intf add 101 101 0 02:00:00:00:00:01\nbase addr add 101 10.1.1.0/31\nbase neighbor set 101 10.1.1.1 02:00:00:00:01:01 1\nbase vlan add 102 u2\nbase port add 2 102\nbase port up 2\nbase intf add 102 102 0 02:00:00:00:00:02\nbase addr add 102 10.1.1.2/31\nbase neighbor set 102 10.1.1.3 02:00:00:00:01:02 2\nbase vlan add 103 u3\nbase port add 3 103\nbase port up 3\nbase intf add 103 103 0 02:00:00:00:00:03\nbase addr add 103 10.1.1.4/31\nbase neighbor set 103 10.1.1.5 02:00:00:00:01:03 3\nbase vlan add 104 u4\nbase port add 4 104\nbase port up 4\nbase intf add 104 104 0 02:00:00:00:00:04\nbase addr add 104 10.1.1.6/31\nbase neighbor set 104 10.1.1.7 02:00:00:00:01:04 4\nphase\n0 route set 0 0.0.0.0/0 ebgp via 10.1.1.1 10.1.1.3 10.1.1.5 10.1.1.7\n0 port down 2\n0 port up 2\n",
        wanted: b"whole 1 1\nwhole 2 1\nwhole 3 1\nhost 0 10.1.1.1@101 vrf 0 forward 02:00:00:00:01:01 1 up\nhost 1 10.1.1.3@102 vrf 0 forward 02:00:00:00:01:02 2 up\nhost 2 10.1.1.5@103 vrf 0 forward 02:00:00:00:01:03 3 up\nhost 3 10.1.1.7@104 vrf 0 forward 02:00:00:00:01:04 4 up\ngroup 0 0 live 1 live 2 live 3 live\nroute 0 0.0.0.0/0 group 0\nroute 0 10.1.1.0/31 cpu\nroute 0 10.1.1.2/31 cpu\nroute 0 10.1.1.4/31 cpu\nroute 0 10.1.1.6/31 cpu\n",
    },
    // a route goes and comes in one round, and a pump with nothing waiting does nothing
    Case {
        script: b"start cold 0 8 1 8\nlimit 20\ncallers 1\nbase vlan add 10 web\nbase intf add 1 10 0 02:00:00:00:01:01\nbase addr add 1 10.0.0.1/24\nphase\n0 route set 0 20.0.0.0/8 static drop\n0 queue route del 0 20.0.0.0/8 static\n0 queue route set 0 20.0.0.0/8 static cpu\n0 pump\n0 pump\n",
        wanted: b"whole 1 1\nwhole 2 2\nroute 0 10.0.0.0/24 cpu\nroute 0 20.0.0.0/8 cpu\n",
    },
    // an update that is invalid raises no version, by itself or in a run
    Case {
        script: b"start cold 1 0 0 0\nlimit 100\ncallers 1\nbase vlan add 10 web\nbase port add 1 10\nphase\n0 mac set 10 02:00:00:00:00:01 7\n0 queue mac set 10 02:00:00:00:00:01 7\n0 queue port up 1\n0 queue port up 9\n0 settle\n",
        wanted: b"whole 0 1 invalid\nwhole 1 3 invalid invalid\n",
    },
    // a run that doesn't fit: its first by itself, then what is left of it as a run of its own
    Case {
        script: b"start cold 1 0 0 0\nlimit 100\ncallers 1\nbase vlan add 10 web\nbase port add 1 10\nphase\n0 queue mac set 10 02:00:00:00:00:01 1\n0 queue mac set 10 02:00:00:00:00:02 1\n0 queue port up 1\n0 settle\n",
        wanted: b"one 1 1\none 1 1 full l2\nwhole 2 1\nl2 10 02:00:00:00:00:01 1 up\n",
    },
    // a base of which a table hasn't the rows
    Case {
        script: b"start cold 0 8 1 8\nlimit 20\ncallers 1\nbase vlan add 10 web\nbase port add 1 10\nbase mac set 10 02:00:00:00:00:01 1\nphase\n0 peek\n",
        wanted: b"full l2\n",
    },
    // rows of a base that is there before any round
    Case {
        script: b"start cold 1 8 1 8\nlimit 20\ncallers 1\nbase vlan add 10 web\nbase port add 1 10\nbase mac set 10 02:00:00:00:00:01 1\nbase intf add 1 10 0 02:00:00:00:01:01\nbase addr add 1 10.0.0.1/24\nphase\n0 peek\n",
        wanted: b"l2 10 02:00:00:00:00:01 1 down\nroute 0 10.0.0.0/24 cpu\n",
    },
];

/// The head of a script whose lines are those of one more text, so many times, and then settled.
pub const HEAD: &[u8] =
    b"start cold 1 0 0 0\nlimit 100\ncallers 1\nbase vlan add 10 web\nbase port add 1 10\nphase\n";

pub const REPEATED: &[u8] = b"0 queue port up 1\n";

/// One more than a run has at most.
pub const TIMES: usize = 65;

pub const END: &[u8] = b"0 settle\n";

pub const WANTED: &[u8] = b"whole 1 64\nwhole 2 1\n";

/// The times at which an observer refuses to be told of a state, counted from 0, and what the core is after
/// `RISES`.
#[derive(Clone, Copy)]
pub struct Watched {
    pub refused: &'static [u64],
    pub wanted: &'static [u8],
}

/// Five rounds, each with a new version.
pub const RISES: &[u8] =
    b"start cold 4 4 4 4\nlimit 10\ncallers 1\nphase\n0 vlan add 10 web\n0 port add 1 10\n0 port up 1\n0 mac set 10 02:00:00:00:00:0a 1\n0 port down 1\n";

/// An observer that refused is told again after the next round, of all that it missed.
pub const WATCHED: [Watched; 3] = [
    Watched {
        refused: &[],
        wanted: b"whole 1 1\nwhole 2 1\nwhole 3 1\nwhole 4 1\nwhole 5 1\nl2 10 02:00:00:00:00:0a 1 down\nstands 5 ports 1 up 0 macs 1\n",
    },
    Watched {
        refused: &[1, 2],
        wanted: b"whole 1 1\nwhole 2 1\nwhole 3 1\nwhole 4 1\nwhole 5 1\nl2 10 02:00:00:00:00:0a 1 down\nstands 5 ports 1 up 0 macs 1\n",
    },
    Watched {
        refused: &[4],
        wanted: b"whole 1 1\nwhole 2 1\nwhole 3 1\nwhole 4 1\nwhole 5 1\nl2 10 02:00:00:00:00:0a 1 down\nstands 4 ports 1 up 1 macs 1\n",
    },
];
