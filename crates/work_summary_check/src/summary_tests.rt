//! What generated work came to, with its summary.
use std::test::Fail;
use work_summary::{LineDigest, Outcome, RowCounts, VerdictCounts, summary_bytes};

/// What work came to, the lines of its journal in the pieces in which they were taken, and its
/// summary.
struct Case<'a> {
    outcome: Outcome,
    pieces: [&'a [u8]; 4],
    summary: &'a [u8],
}

const CASES: [Case<'static>; 3] = [
    Case {
        outcome: Outcome {
            seed: 1,
            count: 2000,
            verdicts: VerdictCounts {
                entries: 2000,
                accepted: 1200,
                invalid: 799,
                full: 1,
            },
            rounds: 126,
            version: 125,
            rows: RowCounts {
                l2: 1000,
                host: 500,
                group: 30,
                route: 200,
            },
        },
        pieces: [b"", b"a", b"bc", b""],
        summary: b"gen 1 2000\nentries 2000 accepted 1200 invalid 799 full 1\nrounds 126 version 125\ntables l2 1000 host 500 group 30 route 200\ndigest ba7816bf8f01cfea414140de5dae2223b00361a396177a9cb410ff61f20015ad\nend\n",
    },
    Case {
        outcome: Outcome {
            seed: 18446744073709551615,
            count: 1,
            verdicts: VerdictCounts {
                entries: 0,
                accepted: 0,
                invalid: 0,
                full: 0,
            },
            rounds: 0,
            version: 0,
            rows: RowCounts {
                l2: 0,
                host: 0,
                group: 0,
                route: 0,
            },
        },
        pieces: [b"", b"", b"", b""],
        summary: b"gen 18446744073709551615 1\nentries 0 accepted 0 invalid 0 full 0\nrounds 0 version 0\ntables l2 0 host 0 group 0 route 0\ndigest e3b0c44298fc1c149afbf4c8996fb92427ae41e4649b934ca495991b7852b855\nend\n",
    },
    Case {
        outcome: Outcome {
            seed: 0,
            count: 5,
            verdicts: VerdictCounts {
                entries: 5,
                accepted: 5,
                invalid: 0,
                full: 0,
            },
            rounds: 5,
            version: 5,
            rows: RowCounts {
                l2: 1,
                host: 0,
                group: 0,
                route: 0,
            },
        },
        pieces: [
            b"round 0 whole version 1\n0 caller 0 seq 0 accepted vlan add 10 web\n",
            b"round 1 whole version 2\n1 caller 0 seq 1 accepted port add 1 10\n",
            b"round 2 whole version 3\n2 caller 0 seq 2 accepted port up 1\nround 3 whole version 4\n",
            b"3 caller 0 seq 3 accepted mac set 10 02:00:00:00:00:0a 1\nround 4 whole version 5\n4 caller 0 seq 4 accepted port down 1\n",
        ],
        summary: b"gen 0 5\nentries 5 accepted 5 invalid 0 full 0\nrounds 5 version 5\ntables l2 1 host 0 group 0 route 0\ndigest 921a36ba8b263aaadfe49553d8c5832fda856022eaccc64e11e470e349c550c3\nend\n",
    },
];

#[test]
fn summaries_are_whole(rt: HostRuntime) -> Result<(), Fail> {
    let alloc = rt.alloc();
    for case in &CASES {
        let mut digest = LineDigest::new();
        for piece in case.pieces {
            digest.add(piece);
        }
        let text = summary_bytes(alloc, &case.outcome, digest)?;
        let is_wanted = text.as_slice() == case.summary;
        drop(text);
        assert!(rt; is_wanted);
    }
    Ok(())
}
