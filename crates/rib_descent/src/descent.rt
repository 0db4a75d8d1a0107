// The descent to the longest match.
ghost use Rattle.std.specs.Prelude.{◌≡◌, ◌≤◌, ℕ, List};
ghost use Rattle.net_types.specs.declared.table.RouteKey.{RouteKey};
ghost use Rattle.net_types.specs.Address.{ip_width};
ghost use Rattle.route_laws.specs.Descent.{bound, last_to, longest_key, AreUpTo};
ghost use Rattle.rib_descent.specs.Step.{IsKeyTable, IsStepResult};

use crate::common::common_len;
use net_types::{Addr, Ip, RouteKey, Vrf};

/// Keys that ascend, asked for the last one up to a bound.
pub trait KeyTable {
    ghost keys: { Self → List RouteKey };

    /// The last key that isn't above the bound.
    fn last_to(&self, bound: &RouteKey) -> Option<RouteKey>
        ensures { result ≡ last_to bound.now (keys self.now) };
}

/// The longest of the keys of the VRF that contain the ip.
pub fn longest_key<T: KeyTable>(table: &T, vrf: Vrf, ip: Ip) -> Option<RouteKey>
    requires table { IsKeyTable (T.keys table.now) }
    ensures { result ≡ longest_key vrf ip (T.keys table.now) }
{
    let mut len = ip.width();
    loop {
        match next_step(table, vrf, ip, len) {
            Step::Found(key) => return Some(key),
            Step::Absent => return None,
            Step::Shorter(next) => len = next,
        }
    }
}

/// What a step of the descent finds.
#[derive(Clone, Copy)]
enum Step {
    /// The longest match.
    Found(RouteKey),
    /// That there is none.
    Absent,
    /// The length of the next bound.
    Shorter(u8),
}

/// A step with the bound of that length.
fn next_step<T: KeyTable>(table: &T, vrf: Vrf, ip: Ip, len: u8) -> Step
    requires table { IsKeyTable (T.keys table.now) }
    requires within { len ≤ ip_width ip }
    requires up_to { AreUpTo (T.keys table.now) vrf ip len }
    ensures { IsStepResult (T.keys table.now) vrf ip len result }
{
    let Some(key) = table.last_to(&bound(vrf, ip, len)) else {
        return Step::Absent;
    };
    if key.vrf != vrf {
        return Step::Absent;
    }
    let Some(common) = common_len(key.prefix.ip(), ip) else {
        return Step::Absent;
    };
    if key.prefix.contains(ip) {
        return Step::Found(key);
    }
    Step::Shorter(common)
}

/// The first bits of the ip, as a prefix of the VRF.
fn bound(vrf: Vrf, ip: Ip, len: u8) -> RouteKey
    requires { len ≤ ip_width ip }
    ensures { result ≡ bound vrf ip len }
{
    match Addr::new(ip, len) {
        Ok(addr) => RouteKey {
            vrf,
            prefix: addr.subnet(),
        },
        Err(_) => unreachable!(),
    }
}
