// Next hops by number.
ghost use Rattle.std.specs.Prelude.{◌≡◌, ◌≤◌, ◌+◌, IfOk};
ghost use Rattle.work_gen.specs.Values.{hops_from};

use crate::values::quad;
use net_types::{Hop, HopList, NoMemory};
use std::alloc::Global;

/// So many next hops from `10.b.0.d` upwards.
pub(crate) fn hops_from(alloc: Global, count: u8, b: u8, d: u8) -> Result<HopList, NoMemory>
    requires { d + count ≤ 255 }
    ensures { IfOk result (λ hops. hops ≡ hops_from count b d) }
{
    let mut hops = HopList::new(alloc);
    for place in 0..count {
        hops.push(Hop {
            ip: quad(10, b, 0, d + place),
            intf: None,
        })?;
    }
    Ok(hops)
}
