// Why the hops of a route are refused.
use net_types::{Client, Hop, HopList, Intf, Ip, NoMemory, Prefix, Vrf};
use state_update::{Applied, apply};
use std::alloc::Global;
use std::test::Fail;
use switch_model::{Act, Reason, Update, Via};
use switch_state::{StateEdit, SwitchState};

/// 10.0.0.9
const NEAR: Ip = Ip::V4(0x0a00_0009);

/// The hops of a route of 20.0.0.0/8.
#[derive(Clone, Copy)]
enum Hops {
    /// So many times the same hop.
    Copies(Ip, usize),
    /// One address, without an interface and through interface 1.
    BothWays(Ip),
}

const CASES: [(Hops, Applied); 5] = [
    (Hops::Copies(NEAR, 2), Applied::Invalid(Reason::DoubleHop)),
    (Hops::BothWays(NEAR), Applied::Changed),
    (Hops::Copies(NEAR, 0), Applied::Invalid(Reason::NoHops)),
    (
        Hops::Copies(NEAR, 33),
        Applied::Invalid(Reason::TooManyHops),
    ),
    (
        Hops::Copies(Ip::V6(9), 33),
        Applied::Invalid(Reason::FamilyMix),
    ),
];

fn list_of(alloc: Global, hops: Hops) -> Result<HopList, NoMemory> {
    let mut list = HopList::new(alloc);
    match hops {
        Hops::Copies(ip, count) => {
            for _ in 0..count {
                list.push(Hop { ip, intf: None })?;
            }
        }
        Hops::BothWays(ip) => {
            list.push(Hop { ip, intf: None })?;
            let intf = Intf::new(1);
            list.push(Hop { ip, intf })?;
        }
    }
    Ok(list)
}

fn route(vrf: Vrf, prefix: Prefix, hops: HopList) -> Update {
    Update {
        alone: false,
        act: Act::RouteSet {
            vrf,
            prefix,
            client: Client::Static,
            via: Via::Hops(hops),
        },
    }
}

/// What becomes of an update on the empty state.
fn answer(alloc: Global, update: &Update) -> Result<Applied, NoMemory> {
    let state = SwitchState::empty();
    let edit = StateEdit::of(alloc, &state, 1);
    drop(state);
    let mut edit = edit?;
    let applied = apply(alloc, &mut edit, update);
    drop(edit);
    applied
}

#[test]
fn hops_are_refused_for_the_first_reason(rt: HostRuntime) -> Result<(), Fail> {
    let alloc = rt.alloc();
    let vrf = Vrf::new(0).ok_or("no VRF")?;
    let prefix = Prefix::new(Ip::V4(0x1400_0000), 8).ok().ok_or("no prefix")?;
    for (at, (hops, wanted)) in CASES.iter().enumerate() {
        let update = route(vrf, prefix, list_of(alloc, *hops)?);
        let given = answer(alloc, &update);
        drop(update);
        assert!(rt; given == Ok(*wanted), "case {at}");
    }
    Ok(())
}
